//! Where in a file each of its entries stands.
#![tactic(auto)]

mod offsets;
mod search;
mod steps;

pub use offsets::Offsets;
use std::alloc::{AllocError, AllocFailed};
pub use steps::Steps;

/// No memory was left.
#[derive(Clone, Copy, Debug, PartialEq, Eq)]
pub struct NoMemory;

impl From<AllocError> for NoMemory {
    fn from(_: AllocError) -> Self {
        NoMemory
    }
}

impl<T: Drop> From<AllocFailed<T>> for NoMemory {
    fn from(_: AllocFailed<T>) -> Self {
        NoMemory
    }
}
