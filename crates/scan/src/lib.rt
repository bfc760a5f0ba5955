// Rules 5 to 7, in loops over a body's tokens. May use `value` and `format`. Read src/tokens.rt first, and specs/Laws/Laid.antt: what is known of
// the table. An inner room: its functions may have a `requires`.
#![tactic(auto)]

pub mod bodies;
pub mod calls;
pub mod label_count;
pub mod names;
pub mod tokens;
