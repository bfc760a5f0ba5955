// From the C text of a sequential table back to the table, loosely: fixed pieces are skipped by their length and nothing is refused. Whoever asks has the answer
// judged by the reader, and its text compared with this one. May use `value`, `format`, `ctext`, `basics` and `writer`. Read src/pieces.rt first. An inner room: its
// functions may have a `requires`.
#![tactic(auto)]

pub mod blocks;
pub mod exprs;
pub mod frames;
pub mod pieces;
pub mod statements;
pub mod whole;
