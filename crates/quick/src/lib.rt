// The frequent steps of the sequential machine, decided by words alone. May use `value`, `format`, `semantics`, `engine`, `decide` and `jumps`. Read
// specs/Quick.antt first, then src/turn.rt. An inner room: its functions may have a `requires`.
#![tactic(auto)]

pub mod brief;
pub mod operate;
pub mod turn;
