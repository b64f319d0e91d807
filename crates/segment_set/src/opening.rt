// A log is opened: all that is read is settled, and what is no part is removed.
ghost use Rattle.std.specs.Prelude.{◌≡◌, ◌≢◌, ◌≤◌, ◌⊎◌, ◌↔◌, ℕ, List, [], true, length, Some, None, IsTrue, IfOk, IfSome, IfNone, OnOk, IsErrOf, All, Contains};
ghost use Rattle.disk_model.specs.declared.file_id.FileId.{FileId};
ghost use Rattle.disk_model.specs.Image.{IsFileId, place};
ghost use Rattle.disk_model.specs.View.{LeavesAt, MayHold, IsListed};
ghost use Rattle.disk_model.specs.Calls.{Lists, Stays};
ghost use Rattle.segment_files.specs.Parse.{Damaged};
ghost use Rattle.segment_files.specs.Folder.{folder, IsFirstDamaged};
ghost use Rattle.segment_set.specs.Joined.{are_tiled, has_last};
ghost use Rattle.segment_set.specs.Split.{AreEndedFiles, Chooses, IsUnendedFile, Splits, has_room};
ghost use Rattle.segment_set.specs.Load.{Adds, HasOpenCause, IsLooked, IsOf, Loads, Surveyed, file_error, id_from};

use crate::choice::{Choice, choose};
use crate::opened::Opened;
use crate::parts::Parts;
use crate::removals::remove_both;
use crate::tail::Tail;
use disk_model::{Disk, DiskFault, FileId};
use host_types::{LogName, NoMemory};
use offset_index::Offsets;
use segment_files::{FileFault, Found, scan, settle_all};
use std::alloc::Global;

/// Why a log can't be opened, or an entry of it not read.
#[derive(Clone, Copy, Debug, PartialEq, Eq)]
pub enum OpenError {
    /// The disk failed.
    Disk,
    /// This file isn't right from this place on (`docs/format.md`), and no other is read in its stead.
    Damaged { base: u64, generation: u64, at: u64 },
    /// No memory was left.
    NoMemory,
}

/// Where the base stands in a file.
pub(crate) const BASE_PLACE: u64 = 16;

/// Where the last index of its range stands in a file.
const LAST_PLACE: u64 = 24;

/// What the files of a name were found to be.
#[derive(Drop)]
struct Survey {
    opened: Vec<Opened>,
    closed: Vec<FileId>,
}

impl Survey {
    /// Adds a file that was looked at: it is open, or closed.
    fn add(&mut self, id: FileId, one: Option<Opened>) -> Result<(), NoMemory>
        ensures { OnOk result (Adds id one self.old.closed.items self.old.opened.items self.new.closed.items self.new.opened.items) }
    {
        match one {
            Some(one) => match self.opened.push(one) {
                Ok(()) => Ok(()),
                Err(_) => Err(NoMemory),
            },
            None => match self.closed.push(id) {
                Ok(()) => Ok(()),
                Err(_) => Err(NoMemory),
            },
        }
    }
}

/// The fault of a file that isn't right at this place.
pub(crate) fn damaged(id: FileId, at: u64) -> OpenError
    ensures { result ≡ OpenError.Damaged id.base id.generation at }
{
    OpenError::Damaged {
        base: id.base,
        generation: id.generation,
        at,
    }
}

/// A fault of this file, as one of its log.
pub(crate) fn file_error(id: FileId, fault: FileFault) -> OpenError
    ensures { result ≡ file_error id fault }
{
    match fault {
        FileFault::Damaged { at } => damaged(id, at),
        FileFault::Failed => OpenError::Disk,
        FileFault::NoMemory => OpenError::NoMemory,
    }
}

/// A fault of the disk, as one of an opening.
fn disk_error(fault: DiskFault) -> OpenError
    ensures cause { result ≡ OpenError.Disk → fault ≡ DiskFault.Failed }
    ensures never { (base generation at : ℕ) → result ≡ OpenError.Damaged base generation at → ⊥ }
{
    match fault {
        DiskFault::Failed => OpenError::Disk,
        DiskFault::NoMemory => OpenError::NoMemory,
    }
}

/// Reads one file: its part, or none where it is closed.
fn look<D: Disk>(
    alloc: Global,
    disk: &mut D,
    name: &LogName,
    id: FileId,
) -> Result<Option<Opened>, OpenError>
    requires id { IsFileId id }
    requires listed { IsTrue D.tells → IsListed (D.view disk.old) (place name.now id) }
    ensures looked { IfOk result (λ opened. IsTrue D.tells → IsLooked name.now (D.view disk.old).reading id opened) }
    ensures damaged { (base generation at : ℕ) → IsErrOf result (OpenError.Damaged base generation at)
        → IsOf base generation id × (IsTrue D.tells → folder name.now (D.view disk.old).reading id ≡ Damaged at) }
    ensures stays { IsTrue D.tells → Stays (D.view disk.old) (D.view disk.new) }
    ensures any_moment { IsTrue D.tells → LeavesAt (D.view disk.old) (D.view disk.new) (MayHold (D.view disk.old)) }
    ensures cause { HasOpenCause (D.faults disk.old) (D.faults disk.new) result }
{
    match scan(alloc, disk, name, id) {
        Ok(Found::Closed) => Ok(None),
        Ok(Found::Part(part)) => Ok(Some(Opened { id, part })),
        Err(fault) => Err(file_error(id, fault)),
    }
}

/// Reads all files of a name, one after the other.
fn read_all<D: Disk>(
    alloc: Global,
    disk: &mut D,
    name: &LogName,
    ids: &[FileId],
) -> Result<Survey, OpenError>
    requires ids { All IsFileId ids.now }
    requires lists { IsTrue D.tells → Lists (D.view disk.old) name.now ids.now }
    ensures surveyed { IfOk result (λ found. IsTrue D.tells → Surveyed name.now (D.view disk.old).reading ids.now found.closed.items found.opened.items) }
    ensures closed { IfOk result (λ found. All IsFileId found.closed.items) }
    ensures damaged { (base generation at : ℕ) → IsErrOf result (OpenError.Damaged base generation at)
        → IsTrue D.tells → IsFirstDamaged (folder name.now (D.view disk.old).reading) (id_from base generation) at }
    ensures reading { IsTrue D.tells → (D.view disk.new).reading ≡ (D.view disk.old).reading }
    ensures any_moment { IsTrue D.tells → LeavesAt (D.view disk.old) (D.view disk.new) (MayHold (D.view disk.old)) }
    ensures cause { HasOpenCause (D.faults disk.old) (D.faults disk.new) result }
{
    let mut found = Survey {
        opened: Vec::new(alloc),
        closed: Vec::new(alloc),
    };
    for id in ids {
        let one = match look(alloc, disk, name, *id) {
            Ok(one) => one,
            Err(error) => return Err(error),
        };
        match found.add(*id, one) {
            Ok(()) => {}
            Err(_) => return Err(OpenError::NoMemory),
        }
    }
    Ok(found)
}

/// Whether the last entry of its range is there.
fn has_last(one: &Opened) -> bool
    ensures { result ≡ has_last one.now }
{
    let offsets = &one.part.offsets;
    let count = offsets.count();
    if count == 0 {
        return one.id.base - 1 == one.part.last;
    }
    offsets.in_order();
    one.id.base + offsets.at(count - 1).0 == one.part.last
}

/// The last of these files whose range isn't empty, where its last entry isn't there.
fn unended(files: &[Opened]) -> Option<FileId>
    ensures none { IfNone result (AreEndedFiles files.now) }
    ensures some { IfSome result (IsUnendedFile files.now) }
{
    let mut n = files.len();
    while n > 0 {
        n -= 1;
        let one = &files[n];
        if one.id.base <= one.part.last {
            return if has_last(one) { None } else { Some(one.id) };
        }
    }
    None
}

/// Chooses the parts among the files with an open gate. The last entry of the log has to be there.
fn choose_ended(alloc: Global, files: Vec<Opened>) -> Result<Choice, OpenError>
    ensures { Chooses files.items result }
{
    let choice = match choose(alloc, files) {
        Ok(choice) => choice,
        Err(error) => return Err(error),
    };
    match unended(&choice.kept) {
        Some(id) => {
            drop(choice);
            Err(damaged(id, LAST_PLACE))
        }
        None => Ok(choice),
    }
}

/// The files that are appended to no more, and the one behind them that has room, with the offsets of its entries.
fn split(alloc: Global, files: Vec<Opened>) -> (Vec<Opened>, Option<Tail>, Offsets)
    ensures { Splits files.items result.0.items result.1 result.2.items }
{
    let mut files = files;
    let ends_open = match files.last() {
        Some(one) => has_room(one),
        None => false,
    };
    if ends_open {
        if let Some(one) = files.pop() {
            let Opened { id, part } = one;
            let tail = Tail {
                id,
                last: part.last,
                gate: part.gate,
                size: part.descriptor.size,
            };
            return (files, Some(tail), part.offsets);
        }
    }
    (files, None, Offsets::new(alloc))
}

/// Whether the next entry may be appended to it.
fn has_room(one: &Opened) -> bool
    ensures { result ≡ has_room one.now }
{
    !one.part.descriptor.rewritten
        && (one.part.offsets.count() as u64) < u64::from(one.part.descriptor.size)
}

/// The greatest generation of these files, or 0.
fn greatest_of(ids: &[FileId]) -> u64
    requires { All IsFileId ids.now }
    ensures above { (id : FileId) → Contains ids.now id → id.generation ≤ result }
    ensures taken { (result ≡ 0) ⊎ ((id : FileId) × Contains ids.now id × (id.generation ≡ result)) }
    ensures bound { result ≤ 281474976710655 }
{
    let mut greatest = 0;
    for id in ids {
        greatest = greatest.max(id.generation);
    }
    greatest
}

/// Files that stand end to end, as the parts of a log.
fn parts_from(alloc: Global, name: &LogName, files: Vec<Opened>, greatest: u64) -> Parts
    requires tiled { are_tiled 1 files.items ≡ true }
    requires ended { AreEndedFiles files.items }
    requires greatest { greatest ≤ 281474976710655 }
    ensures splits { Splits files.items result.sealed.items result.tail result.offsets.items }
    ensures name { result.name ≡ name.now }
    ensures greatest { result.greatest ≡ greatest }
{
    let (sealed, tail, offsets) = split(alloc, files);
    Parts {
        name: *name,
        sealed,
        tail,
        offsets,
        greatest,
    }
}

impl Parts {
    /// Opens the log of a name: lists its files, syncs each, reads them all, chooses the parts, and removes every other file. What is
    /// read after the syncs is what every crash leaves from then on. Where it answers `Damaged` no file has been removed.
    /// Of each entry it keeps where it stands, in two words. It takes a time linear in the bytes and in the number of files.
    pub fn load<D: Disk>(alloc: Global, disk: &mut D, name: &LogName) -> Result<Parts, OpenError>
        ensures { Loads D.tells (D.view disk.old) (D.view disk.new) (D.faults disk.old) (D.faults disk.new)
            name.now result }
    {
        let ids = match settle_all(disk, name) {
            Ok(ids) => ids,
            Err(fault) => return Err(disk_error(fault)),
        };
        let found = match read_all(alloc, disk, name, &ids) {
            Ok(found) => found,
            Err(error) => return Err(error),
        };
        let Survey { opened, closed } = found;
        let Choice { kept, covered } = match choose_ended(alloc, opened) {
            Ok(choice) => choice,
            Err(error) => return Err(error),
        };
        match remove_both(disk, name, &closed, &covered) {
            Ok(()) => Ok(parts_from(alloc, name, kept, greatest_of(&ids))),
            Err(fault) => Err(disk_error(fault)),
        }
    }
}
