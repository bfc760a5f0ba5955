// Writes the pieces of the copy's code: expressions, loads and stores, assign, read and write. May use `value`, `format`, `labels`,
// `translation` and `writer`. Read specs/Laws/Sources.antt first. An inner room: its functions may have a `requires`.
#![tactic(auto)]

pub mod exprs;
pub mod layout;
pub mod pieces;
pub mod plain;
