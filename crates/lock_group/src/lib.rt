//! Locks and groups, each on a table of cells.
#![tactic(auto)]

mod group;
mod lock;
mod members;

pub use group::GroupCells;
pub use lock::LockCells;
