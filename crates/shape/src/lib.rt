// Rules 1 to 4: the trailer, the records and the bodies of a table. May use `value`, `format` and `parse`. Read src/form.rt first, and what it
// answers in specs/Shapes.antt. An inner room: its functions may have a `requires`.
#![tactic(auto)]

pub mod bodies;
pub mod form;
mod header;
mod records;
