// What both machines are made of: words, locals, cells, events, ends of runs and the evaluator. May use `value`, `format` and `semantics`. Read specs/Work.antt
// first, then src/evaluate.rt. An inner room: its functions may have a `requires`.
#![tactic(auto)]

pub mod ends;
pub mod evaluate;
pub mod event;
pub mod locals;
pub mod memory;
pub mod table;
pub mod word;
