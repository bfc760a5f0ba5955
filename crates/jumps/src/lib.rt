// The jump table of the sequential machine: where each instruction leads. May use `value`, `format`, `labels` and `engine`. Read specs/Jumps.antt
// first, then src/ways.rt. An inner room: its functions may have a `requires`.
#![tactic(auto)]

pub mod ways;
