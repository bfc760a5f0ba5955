// Writes procedure 0 of the copy. May use `value`, `format`, `translation`, `writer`, `emit` and `simulation`. Read specs/Laws/Zeroth.antt
// first. An inner room: its functions may have a `requires`.
#![tactic(auto)]

pub mod procedure;
