// The small functions on values, marks and bytes, and the paper's numbers as constants. May use `value`, and `format` for its numbers. Read
// src/operators.rt and src/numbers.rt first. An inner room, but none of its functions has a `requires`: each is an equality with its
// definition.
#![tactic(auto)]

pub mod bytes;
pub mod marks;
pub mod numbers;
pub mod operators;
pub mod reasons;
pub mod refusals;
