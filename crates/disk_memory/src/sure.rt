// A disk in memory that settles each call at once and never fails. It keeps each version of a file.
#![tactic(auto, using(crate::proofs::Settled::sure_stands))]

ghost use Rattle.std.specs.Prelude.{◌≡◌, ◌≤◌, ℕ, OnOk, OnErr, length, true, None};
ghost use Rattle.disk_model.specs.Image.{IsFileId, Place, place};
ghost use Rattle.disk_model.specs.View.{EachSettled};
ghost use Rattle.disk_memory.specs.Placed.{Places};
ghost use Rattle.disk_memory.specs.Plans.{sure_past};
ghost use Rattle.disk_memory.specs.Sure.{sure_view, sure_sound};

use crate::bytes::{copy_from, overwritten};
use crate::steps::{Kind, Step};
use crate::versions::{bytes_at, ids_of};
use disk_model::{Disk, DiskFault, FileId};
use host_types::{LogName, NoMemory};
use std::alloc::{AllocError, AllocFailed, Global};

/// A disk in memory that never fails. Each of its calls is settled at once.
#[derive(Drop)]
pub struct SureDisk {
    alloc: Global,
    versions: Vec<Step>,
}

impl SureDisk {
    /// A disk with no file.
    pub fn new(alloc: Global) -> SureDisk
        ensures empty { (p : Place) → (⟦<SureDisk as Disk>⟧.view result).reading p ≡ None }
        ensures settled { EachSettled (⟦<SureDisk as Disk>⟧.view result) }
    {
        SureDisk {
            alloc,
            versions: Vec::new(alloc),
        }
    }

    /// Sets a file to these bytes, whether it was there or not. After `NoMemory` all is as before.
    pub fn place(&mut self, name: &LogName, id: FileId, bytes: &[u8]) -> Result<(), NoMemory>
        requires { IsFileId id }
        ensures placed { OnOk result (Places (⟦<SureDisk as Disk>⟧.view self.old) (⟦<SureDisk as Disk>⟧.view self.new) (place name.now id) bytes.now) }
        ensures settled { EachSettled (⟦<SureDisk as Disk>⟧.view self.new) }
        ensures no_memory { OnErr result (sure_past self.new ≡ sure_past self.old) }
    {
        let bytes = Some(bytes.to_vec(self.alloc)?);
        self.versions.push(Step {
            name: *name,
            id,
            kind: Kind::Settled,
            bytes,
        })?;
        Ok(())
    }
}

impl Disk for SureDisk {
    ghost tells = { true };

    ghost view = { λ d. sure_view (sure_past d) };

    ghost faults = { λ d. 0 };

    ghost sound = { λ d tells. sure_sound (sure_past d) };

    fn list(&mut self, name: &LogName) -> Result<Vec<FileId>, DiskFault> {
        Ok(ids_of(self.alloc, &self.versions, name)?)
    }

    fn create(&mut self, name: &LogName, id: FileId) -> Result<(), DiskFault> {
        let bytes = Some(Vec::new(self.alloc));
        self.versions.push(Step {
            name: *name,
            id,
            kind: Kind::Settled,
            bytes,
        })?;
        Ok(())
    }

    fn length(&mut self, name: &LogName, id: FileId) -> Result<u64, DiskFault> {
        match bytes_at(&self.versions, name, id) {
            None => unreachable!(),
            Some(bytes) => Ok(bytes.len() as u64),
        }
    }

    fn read(
        &mut self,
        name: &LogName,
        id: FileId,
        at: u64,
        buffer: &mut [u8],
    ) -> Result<usize, DiskFault> {
        match bytes_at(&self.versions, name, id) {
            None => unreachable!(),
            Some(bytes) => Ok(copy_from(bytes, at, buffer)),
        }
    }

    fn write_at(
        &mut self,
        name: &LogName,
        id: FileId,
        at: u64,
        bytes: &[u8],
    ) -> Result<(), DiskFault> {
        let next = match bytes_at(&self.versions, name, id) {
            None => unreachable!(),
            Some(old) => overwritten(self.alloc, old, at as usize, bytes)?,
        };
        self.versions.push(Step {
            name: *name,
            id,
            kind: Kind::Settled,
            bytes: Some(next),
        })?;
        Ok(())
    }

    fn sync(&mut self, name: &LogName, id: FileId) -> Result<(), DiskFault> {
        Ok(())
    }

    fn remove(&mut self, name: &LogName, id: FileId) -> Result<(), DiskFault> {
        self.versions.push(Step {
            name: *name,
            id,
            kind: Kind::Settled,
            bytes: None,
        })?;
        Ok(())
    }
}
