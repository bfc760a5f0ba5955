// Sets the text of instructions and blocks that stand in a sequential table. May use `value`, `format`, `basics`, `ctext`, `typeset` and `phrases`. Read
// specs/Lines.antt first. An inner room: its functions may have a `requires`.
#![tactic(auto)]

pub mod args;
pub mod blocks;
pub mod plain;
