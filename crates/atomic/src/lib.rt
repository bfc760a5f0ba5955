// An atomic block of the concurrent machine, in one go. May use `value`, `format`, `labels`, `semantics`, `engine` and `decide`. Read
// specs/Acts.antt and specs/Doing.antt first, then src/block.rt. An inner room: its functions may have a `requires`.
#![tactic(auto)]

pub mod block;
