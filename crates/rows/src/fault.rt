// Why a row prints nothing of its own.
use disk_model::DiskFault;
use host_types::NoMemory as OutOfMemory;
use std::alloc::{AllocError, AllocFailed};

/// Why a row has no answer.
#[derive(Clone, Copy, Debug, PartialEq, Eq)]
pub enum RowFault {
    /// It has none of the forms of a row.
    Bad,
    /// The disk failed as its files were to be shown.
    Disk,
    /// No memory was left.
    NoMemory,
}

impl From<AllocError> for RowFault {
    fn from(_: AllocError) -> Self {
        RowFault::NoMemory
    }
}

impl<T: Drop> From<AllocFailed<T>> for RowFault {
    fn from(_: AllocFailed<T>) -> Self {
        RowFault::NoMemory
    }
}

impl From<OutOfMemory> for RowFault {
    fn from(_: OutOfMemory) -> Self {
        RowFault::NoMemory
    }
}

impl From<DiskFault> for RowFault {
    fn from(fault: DiskFault) -> Self {
        match fault {
            DiskFault::Failed => RowFault::Disk,
            DiskFault::NoMemory => RowFault::NoMemory,
        }
    }
}
