// Writes bytes into a lent buffer, each where the buffer has a place for it. May use `value`, `format` and `basics`. Read specs/Laws/Put.antt and
// specs/Laws/Pages.antt first: what a writer promises. An inner room: its functions may have a `requires`.
#![tactic(auto)]

pub mod bytes;
pub mod page;
