// The trait of a disk. A disk may tell what it holds; the clauses on that speak of disks that do.
ghost use Rattle.std.specs.Prelude.{◌≡◌, ◌≤◌, ℕ, Bool, List, None, IsTrue, IfOk, All, length};
ghost use Rattle.disk_model.specs.declared.disk.DiskFault.TheVariants.{NoMemory};
ghost use Rattle.disk_model.specs.Image.{IsFileId, place};
ghost use Rattle.disk_model.specs.View.{View, Reads, IsListed, Reaches, IsSound, HasCause};
ghost use Rattle.disk_model.specs.Calls.{Looks, Lists, ReadsInto, Writes, Creates, Removes, Syncs};

use crate::FileId;
use host_types::LogName;
use std::alloc::{AllocError, AllocFailed};

/// Why a call of a disk has no answer.
#[derive(Clone, Copy, Debug, PartialEq, Eq)]
pub enum DiskFault {
    /// The disk failed. A write, creation, removal or sync may have happened in part or in whole.
    Failed,
    /// No memory was left. Nothing has changed on the disk.
    NoMemory,
}

impl From<AllocError> for DiskFault {
    ghost from_gives = { λ _ e. e ≡ NoMemory };

    fn from(_: AllocError) -> Self {
        DiskFault::NoMemory
    }
}

impl<T: Drop> From<AllocFailed<T>> for DiskFault {
    ghost from_gives = { λ _ e. e ≡ NoMemory };

    fn from(_: AllocFailed<T>) -> Self {
        DiskFault::NoMemory
    }
}

/// The files of logs, by the log's name and the file's id.
///
/// What is assumed of a real disk is what the clauses say of one that tells:
/// - It reads back what was written, and nobody else writes its files.
/// - A crash leaves each file by itself. Between two syncs of a file that succeed it may leave any
///   bytes in each range that was written and in everything past the old end, and any length from
///   the one at the last sync to the greatest since. Bytes outside of these ranges stay.
/// - Each creation and each removal since the last sync of any file that succeeded may or may not
///   have happened, each by itself. A file that is created under the name of a removed one is
///   another file: what is written to it changes nothing of the old one. One that fails may have
///   happened, also where the file isn't listed then.
/// - A sync that succeeds settles the bytes of its file, and all creations and removals.
///
/// Each call answers `Failed` only where the disk's count of faults rose in that call.
pub trait Disk {
    /// Whether it tells what it holds.
    ghost tells: { Bool };

    /// What it holds, and what a crash may leave of it, if it tells.
    ghost view: { Self → View };

    /// How often the disk has failed.
    ghost faults: { Self → ℕ };

    /// The files of a name, rising by base and then generation. Files of other names aren't among them.
    fn list(&mut self, name: &LogName) -> Result<Vec<FileId>, DiskFault>
        ensures ids { IfOk result (λ ids. All IsFileId ids.items) }
        ensures lists { IsTrue tells → IfOk result (λ ids. Lists (view self.old) name.now ids.items) }
        ensures told { IsTrue tells → Looks (view self.old) (view self.new) }
        ensures cause { HasCause (faults self.old) (faults self.new) result };

    /// Makes a file with no bytes.
    fn create(&mut self, name: &LogName, id: FileId) -> Result<(), DiskFault>
        requires id { IsFileId id }
        requires fresh { IsTrue tells → (view self.old).reading (place name.now id) ≡ None }
        ensures told { IsTrue tells → Creates (view self.old) (view self.new) (place name.now id) result }
        ensures cause { HasCause (faults self.old) (faults self.new) result };

    /// The number of a file's bytes.
    fn length(&mut self, name: &LogName, id: FileId) -> Result<u64, DiskFault>
        requires id { IsFileId id }
        requires listed { IsTrue tells → IsListed (view self.old) (place name.now id) }
        ensures length { IsTrue tells → (bytes : List ℕ) → Reads (view self.old) (place name.now id) bytes → IfOk result (λ n. n ≡ length bytes) }
        ensures told { IsTrue tells → Looks (view self.old) (view self.new) }
        ensures cause { HasCause (faults self.old) (faults self.new) result };

    /// Fills the front of the buffer with what stands from `at` on, and answers how many bytes that are:
    /// the buffer's length, or as many as the file has there, if these are fewer.
    fn read(
        &mut self,
        name: &LogName,
        id: FileId,
        at: u64,
        buffer: &mut [u8],
    ) -> Result<usize, DiskFault>
        requires id { IsFileId id }
        requires listed { IsTrue tells → IsListed (view self.old) (place name.now id) }
        ensures within { IfOk result (λ n. n ≤ length buffer.old) }
        ensures bytes { IsTrue tells → (bytes : List ℕ) → Reads (view self.old) (place name.now id) bytes → IfOk result (λ n. ReadsInto bytes at buffer.old buffer.new n) }
        ensures told { IsTrue tells → Looks (view self.old) (view self.new) }
        ensures cause { HasCause (faults self.old) (faults self.new) result };

    /// Writes over what stands from `at` on, and past the end. Until a sync, a crash may leave any bytes in the range.
    fn write_at(
        &mut self,
        name: &LogName,
        id: FileId,
        at: u64,
        bytes: &[u8],
    ) -> Result<(), DiskFault>
        requires id { IsFileId id }
        requires reaches { IsTrue tells → Reaches (view self.old) (place name.now id) at }
        ensures told { IsTrue tells → Writes (view self.old) (view self.new) (place name.now id) at bytes.now result }
        ensures cause { HasCause (faults self.old) (faults self.new) result };

    /// Settles the bytes of this file, and all creations and removals.
    fn sync(&mut self, name: &LogName, id: FileId) -> Result<(), DiskFault>
        requires id { IsFileId id }
        requires listed { IsTrue tells → IsListed (view self.old) (place name.now id) }
        ensures told { IsTrue tells → Syncs (view self.old) (view self.new) (place name.now id) result }
        ensures cause { HasCause (faults self.old) (faults self.new) result };

    /// Takes a file out of the folder.
    fn remove(&mut self, name: &LogName, id: FileId) -> Result<(), DiskFault>
        requires id { IsFileId id }
        requires listed { IsTrue tells → IsListed (view self.old) (place name.now id) }
        ensures told { IsTrue tells → Removes (view self.old) (view self.new) (place name.now id) result }
        ensures cause { HasCause (faults self.old) (faults self.new) result };

    ghost sound: { (disk : Self) → IsTrue tells → IsSound (view disk) };
}
