// Sets the text of expressions that stand in a sequential table. May use `value`, `format`, `basics`, `ctext` and `typeset`. Read specs/Shows.antt first. An inner
// room: its functions may have a `requires`.
#![tactic(auto, using(crate::proofs::Leaves::leaf_ways))]

pub mod exprs;
