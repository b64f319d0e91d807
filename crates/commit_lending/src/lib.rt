//! Commits of stored entries: each is lent once, and is out until it is closed or retired.
#![tactic(auto)]

mod commit;
mod lender;

pub use commit::Commit;
pub use lender::Lender;
use std::alloc::{AllocError, AllocFailed};

/// No memory was left.
#[derive(Clone, Copy, Debug, PartialEq, Eq)]
pub struct NoMemory;

impl From<AllocError> for NoMemory {
    fn from(_: AllocError) -> Self {
        NoMemory
    }
}

impl<T: Drop> From<AllocFailed<T>> for NoMemory {
    fn from(_: AllocFailed<T>) -> Self {
        NoMemory
    }
}
