//! The cells of one instance, with the commits that hold them: what the kinds of resources stand on.
#![tactic(auto)]

mod arrivals;
mod change;
mod filled;
mod listing;
mod owners;
mod pairs;
mod ready;
mod slots;
mod steps;
mod table;

pub use pairs::least_pair;
pub use table::{CellTable, Standing};
