// Sets pieces of text one after the other: into a lent buffer, each byte where the buffer has a place for it, and against a text that must have
// the same bytes. May use `value`, `format`, `ctext` and `basics`. Read specs/Page.antt first: what a piece does. An inner room: its functions may have a
// `requires`.
#![tactic(auto)]

pub mod pieces;
pub mod prelude;
