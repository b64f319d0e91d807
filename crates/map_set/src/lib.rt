//! Maps and sets.
#![tactic(auto)]

mod map;
mod set;

pub use map::MapCells;
pub use set::SetCells;
