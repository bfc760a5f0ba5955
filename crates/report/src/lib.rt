// The report's machine, kept plain: a frame is a procedure's locals and the rows of instructions still to do, without labels. May use `value`, `format`,
// `labels`, `semantics`, `engine`, `decide`, `atomic` and what the concurrent machine promises. Read src/step.rt first, beside figures 1 and 2 of
// report RR-2017-03, then specs/Rows.antt. An inner room: its functions may have a `requires`.
#![tactic(auto)]

pub mod machine;
pub mod rows;
pub mod step;
