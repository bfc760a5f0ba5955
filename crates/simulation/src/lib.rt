// Writes the procedures that simulate the labels. May use `value`, `format`, `labels`, `translation`, `writer` and `emit`. Read
// specs/Laws/Bodies.antt first, then src/simulate.rt. An inner room: its functions may have a `requires`.
#![tactic(auto)]

mod codes;
mod inside;
pub mod simulate;
