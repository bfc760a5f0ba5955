// The labels of a body, the label map, and the variables of expressions, for those who walk over a table that was read. May use `value`,
// `format` and `parse`. Read specs/LabelMap.antt and specs/Walks.antt first. An inner room: its functions may have a `requires`.
#![tactic(auto)]

pub mod count;
pub mod label_map;
pub mod variables;
