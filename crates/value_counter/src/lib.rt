//! Values and counters: the two resources that have one cell.
#![tactic(auto)]

mod content;
mod counter;
mod value;

pub use counter::CounterCell;
pub use value::ValueCell;
