// The half of a step that decides, for both machines: what an instruction asks for. May use `value`, `format`, `semantics` and `engine`. Read
// specs/Decided.antt first, then src/step.rt. An inner room: its functions may have a `requires`.
#![tactic(auto)]

pub mod step;
