//! Disks in memory: one that never fails and settles each call at once, and one that tears and fails as it is told.
#![tactic(auto)]

mod bytes;
mod crash;
mod ids;
mod memory;
mod outcome;
mod schedule;
mod steps;
mod sure;
mod versions;

pub use memory::MemoryDisk;
pub use outcome::Outcome;
pub use sure::SureDisk;
