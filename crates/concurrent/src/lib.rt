// The concurrent machine, from an accepted table to its answer. May use `value`, `format`, `labels`, `semantics`, `engine`, `decide` and `atomic`.
// Read specs/Stepping.antt and specs/Concurrent.antt first, then src/machine.rt; src/anew.rt and specs/Anew.antt are for the bench, which
// runs one program many times. An inner room: its functions may have a `requires`.
#![tactic(auto)]

pub mod anew;
pub mod machine;
pub mod threads;
