// A disk in memory that tears, and that fails at the calls that it is told to fail at.
#![tactic(auto, using(crate::proofs::Torn::history_stands))]

ghost use Rattle.std.specs.Prelude.{◌≡◌, ◌≤◌, ◌++◌, ◌∷◌, [], ℕ, List, length, All, IfOk, OnOk, OnErr, true, None};
ghost use Rattle.disk_model.specs.Calls.{Looks, Lists, ReadsInto, Writes, Creates, Removes, Syncs};
ghost use Rattle.disk_model.specs.Image.{IsFileId, Place, place};
ghost use Rattle.disk_model.specs.View.{EachSettled, HasCause, IsListed, MayLeave, Reaches, Reads};
ghost use Rattle.disk_memory.specs.History.{history};
ghost use Rattle.disk_memory.specs.Outcomes.{left};
ghost use Rattle.disk_memory.specs.Placed.{Places};
ghost use Rattle.disk_memory.specs.Plan.{calls_limit, with_fail, with_last, without_fails};
ghost use Rattle.disk_memory.specs.Plans.{Counts, past, plan_of};
ghost use Rattle.disk_memory.specs.Torn.{sound};

use crate::bytes::{copy_from, overwritten};
use crate::crash::steps_after;
use crate::outcome::Outcome;
use crate::schedule::Schedule;
use crate::steps::{Kind, Step};
use crate::versions::{held_at, ids_of};
use disk_model::{Disk, DiskFault, FileId};
use host_types::{LogName, NoMemory};
use std::alloc::{AllocError, AllocFailed, Global};

/// A disk in memory. What isn't settled on it may be lost or torn by a crash, and its calls fail
/// where it is told so. A call that fails changes nothing on the disk. Calls are the calls of
/// `Disk`, counted from 1; where their count stands at its type's end, they answer `NoMemory`.
#[derive(Drop)]
pub struct MemoryDisk {
    alloc: Global,
    steps: Vec<Step>,
    schedule: Schedule,
}

impl MemoryDisk {
    /// A disk with no file, whose calls don't fail.
    pub fn new(alloc: Global) -> MemoryDisk
        ensures empty { (p : Place) → (⟦<MemoryDisk as Disk>⟧.view result).reading p ≡ None }
        ensures settled { EachSettled (⟦<MemoryDisk as Disk>⟧.view result) }
        ensures plan { plan_of result ≡ record { fails = []; last = calls_limit; calls = 0; faults = 0 } }
    {
        MemoryDisk {
            alloc,
            steps: Vec::new(alloc),
            schedule: Schedule::new(alloc),
        }
    }

    /// Sets a file to these bytes, whether it was there or not, and settles it. It is no call that
    /// may fail. After `NoMemory` all is as before.
    pub fn place(&mut self, name: &LogName, id: FileId, bytes: &[u8]) -> Result<(), NoMemory>
        requires { IsFileId id }
        ensures placed { OnOk result (Places (⟦<MemoryDisk as Disk>⟧.view self.old) (⟦<MemoryDisk as Disk>⟧.view self.new) (place name.now id) bytes.now) }
        ensures no_memory { OnErr result (past self.new ≡ past self.old) }
        ensures plan { plan_of self.new ≡ plan_of self.old }
    {
        let bytes = Some(bytes.to_vec(self.alloc)?);
        self.steps.push(Step {
            name: *name,
            id,
            kind: Kind::Settled,
            bytes,
        })?;
        Ok(())
    }

    /// Makes the call of this number fail, counted from 1 at the disk's first. After `NoMemory` all is as before.
    pub fn fail(&mut self, call: u64) -> Result<(), NoMemory>
        ensures plan { OnOk result (plan_of self.new ≡ with_fail (plan_of self.old) call) }
        ensures no_memory { OnErr result (plan_of self.new ≡ plan_of self.old) }
        ensures past { past self.new ≡ past self.old }
    {
        self.schedule.fails.push(call)?;
        Ok(())
    }

    /// Makes all calls after so many fail.
    pub fn stop_after(&mut self, calls: u64)
        ensures plan { plan_of self.new ≡ with_last (plan_of self.old) calls }
        ensures past { past self.new ≡ past self.old }
    {
        self.schedule.last = calls;
    }

    /// A crash: what isn't settled has this outcome, and all that is left is settled. No call fails
    /// from then on. The disk's time begins anew: what a crash might have left before it counts no
    /// more. After `NoMemory` all is as before.
    pub fn crash(&mut self, outcome: Outcome) -> Result<(), NoMemory>
        ensures left { OnOk result ((p : Place) → (⟦<MemoryDisk as Disk>⟧.view self.new).reading p ≡ left outcome (past self.old) p) }
        ensures may_leave { OnOk result (MayLeave (⟦<MemoryDisk as Disk>⟧.view self.old) (⟦<MemoryDisk as Disk>⟧.view self.new).reading) }
        ensures settled { OnOk result (EachSettled (⟦<MemoryDisk as Disk>⟧.view self.new)) }
        ensures plan { OnOk result (plan_of self.new ≡ without_fails (plan_of self.old)) }
        ensures no_memory { OnErr result ((past self.new ≡ past self.old) × (plan_of self.new ≡ plan_of self.old)) }
    {
        self.steps = steps_after(self.alloc, &self.steps, outcome)?;
        self.schedule.end_failing();
        Ok(())
    }

    /// How many calls it has had.
    pub fn calls(&self) -> u64
        ensures { result ≡ (plan_of self.now).calls }
    {
        self.schedule.calls
    }
}

impl Disk for MemoryDisk {
    ghost tells = { true };

    ghost view = { λ d. history (past d) };

    ghost faults = { λ d. d.schedule.faults };

    ghost sound = { λ d tells. sound (past d) };

    fn list(&mut self, name: &LogName) -> Result<Vec<FileId>, DiskFault>
        ensures ids { IfOk result (λ ids. All IsFileId ids.items) }
        ensures lists { IfOk result (λ ids. Lists (history (past self.old)) name.now ids.items) }
        ensures told { Looks (history (past self.old)) (history (past self.new)) }
        ensures cause { HasCause (plan_of self.old).faults (plan_of self.new).faults result }
        ensures counted { Counts self.old self.new result }
    {
        self.schedule.begin()?;
        Ok(ids_of(self.alloc, &self.steps, name)?)
    }

    fn create(&mut self, name: &LogName, id: FileId) -> Result<(), DiskFault>
        requires id { IsFileId id }
        requires fresh { (history (past self.old)).reading (place name.now id) ≡ None }
        ensures told { Creates (history (past self.old)) (history (past self.new)) (place name.now id) result }
        ensures cause { HasCause (plan_of self.old).faults (plan_of self.new).faults result }
        ensures counted { Counts self.old self.new result }
    {
        self.schedule.begin()?;
        let bytes = Some(Vec::new(self.alloc));
        self.steps.push(Step {
            name: *name,
            id,
            kind: Kind::Created,
            bytes,
        })?;
        Ok(())
    }

    fn length(&mut self, name: &LogName, id: FileId) -> Result<u64, DiskFault>
        requires id { IsFileId id }
        requires listed { IsListed (history (past self.old)) (place name.now id) }
        ensures length { (bytes : List ℕ) → Reads (history (past self.old)) (place name.now id) bytes → IfOk result (λ n. n ≡ length bytes) }
        ensures told { Looks (history (past self.old)) (history (past self.new)) }
        ensures cause { HasCause (plan_of self.old).faults (plan_of self.new).faults result }
        ensures counted { Counts self.old self.new result }
    {
        self.schedule.begin()?;
        match held_at(&self.steps, name, id) {
            None => unreachable!(),
            Some(bytes) => Ok(bytes.len() as u64),
        }
    }

    fn read(
        &mut self,
        name: &LogName,
        id: FileId,
        at: u64,
        buffer: &mut [u8],
    ) -> Result<usize, DiskFault>
        requires id { IsFileId id }
        requires listed { IsListed (history (past self.old)) (place name.now id) }
        ensures within { IfOk result (λ n. n ≤ length buffer.old) }
        ensures bytes { (bytes : List ℕ) → Reads (history (past self.old)) (place name.now id) bytes → IfOk result (λ n. ReadsInto bytes at buffer.old buffer.new n) }
        ensures told { Looks (history (past self.old)) (history (past self.new)) }
        ensures cause { HasCause (plan_of self.old).faults (plan_of self.new).faults result }
        ensures counted { Counts self.old self.new result }
    {
        self.schedule.begin()?;
        match held_at(&self.steps, name, id) {
            None => unreachable!(),
            Some(bytes) => Ok(copy_from(bytes, at, buffer)),
        }
    }

    fn write_at(
        &mut self,
        name: &LogName,
        id: FileId,
        at: u64,
        bytes: &[u8],
    ) -> Result<(), DiskFault>
        requires id { IsFileId id }
        requires reaches { Reaches (history (past self.old)) (place name.now id) at }
        ensures told { Writes (history (past self.old)) (history (past self.new)) (place name.now id) at bytes.now result }
        ensures cause { HasCause (plan_of self.old).faults (plan_of self.new).faults result }
        ensures counted { Counts self.old self.new result }
    {
        self.schedule.begin()?;
        let next = match held_at(&self.steps, name, id) {
            None => unreachable!(),
            Some(old) => overwritten(self.alloc, old, at as usize, bytes)?,
        };
        self.steps.push(Step {
            name: *name,
            id,
            kind: Kind::Written(at, bytes.len()),
            bytes: Some(next),
        })?;
        Ok(())
    }

    fn sync(&mut self, name: &LogName, id: FileId) -> Result<(), DiskFault>
        requires id { IsFileId id }
        requires listed { IsListed (history (past self.old)) (place name.now id) }
        ensures told { Syncs (history (past self.old)) (history (past self.new)) (place name.now id) result }
        ensures cause { HasCause (plan_of self.old).faults (plan_of self.new).faults result }
        ensures counted { Counts self.old self.new result }
    {
        self.schedule.begin()?;
        let bytes = match held_at(&self.steps, name, id) {
            None => unreachable!(),
            Some(bytes) => bytes.to_vec(self.alloc)?,
        };
        self.steps.push(Step {
            name: *name,
            id,
            kind: Kind::Synced,
            bytes: Some(bytes),
        })?;
        Ok(())
    }

    fn remove(&mut self, name: &LogName, id: FileId) -> Result<(), DiskFault>
        requires id { IsFileId id }
        requires listed { IsListed (history (past self.old)) (place name.now id) }
        ensures told { Removes (history (past self.old)) (history (past self.new)) (place name.now id) result }
        ensures cause { HasCause (plan_of self.old).faults (plan_of self.new).faults result }
        ensures counted { Counts self.old self.new result }
    {
        self.schedule.begin()?;
        self.steps.push(Step {
            name: *name,
            id,
            kind: Kind::Removed,
            bytes: None,
        })?;
        Ok(())
    }
}
