// The sequential machine, from an accepted table to its answer. May use `value`, `format`, `labels`, `semantics`, `engine`, `decide`, `jumps` and `quick`.
// Read specs/Sequential.antt and specs/Words.antt first, then src/machine.rt. An inner room: its functions may have a `requires`.
#![tactic(auto)]

pub mod machine;
