// Which calls of a disk fail.
ghost use Rattle.std.specs.Prelude.{◌≡◌, ◌≤◌, ◌++◌, ◌∷◌, [], OnOk, OnErr};

use disk_model::DiskFault;
use std::alloc::{AllocError, AllocFailed, Global};

/// Counts the calls of a disk, and knows which of them are to fail.
#[derive(Drop)]
pub struct Schedule {
    pub calls: u64,
    pub last: u64,
    pub fails: Vec<u64>,
    pub faults: u64,
    ghost counted: { faults ≤ calls },
}

impl Schedule {
    ghost use Rattle.disk_memory.specs.Plan.{Begins, calls_limit, without_fails};
    ghost use Rattle.disk_memory.specs.Schedules.{plan};

    /// No call was, and none is to fail.
    pub fn new(alloc: Global) -> Schedule
        ensures { plan result ≡ record { fails = []; last = calls_limit; calls = 0; faults = 0 } }
    {
        Schedule {
            calls: 0,
            last: u64::MAX,
            fails: Vec::new(alloc),
            faults: 0,
        }
    }

    /// Counts a call, and fails where it is to fail.
    pub fn begin(&mut self) -> Result<(), DiskFault>
        ensures { Begins (plan self.old) (plan self.new) result }
    {
        if self.calls == u64::MAX {
            return Err(DiskFault::NoMemory);
        }
        let told = self.fails.contains(&(self.calls + 1));
        self.calls += 1;
        if told || self.calls > self.last {
            self.faults += 1;
            return Err(DiskFault::Failed);
        }
        Ok(())
    }

    /// No call is to fail any more.
    pub fn end_failing(&mut self)
        ensures { plan self.new ≡ without_fails (plan self.old) }
    {
        self.fails.clear();
        self.last = u64::MAX;
    }
}
