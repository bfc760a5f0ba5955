// Sets the whole text of an accepted sequential table: around the blocks stand locations, areas, declarations and definitions. May use `value`, `format`,
// `basics`, `ctext`, `typeset`, `phrases` and `lines`. Read specs/Frames.antt first, then src/whole.rt. An inner room: its functions may have a `requires`.
#![tactic(auto)]

pub mod heads;
pub mod locations;
pub mod procedures;
pub mod whole;
