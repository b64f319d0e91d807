// Which entries of a log are present, and how one is read from its file.
ghost use Rattle.std.specs.Prelude.{◌≡◌, ◌<◌, ◌≤◌, ◌+◌, ◌^◌, ◌↔◌, ℕ, List, true, nat_lt, if◌then◌else◌, All, Contains, length, get_or, IsTrue, IsSome, IfOk, IsErrOf};
ghost use Rattle.host_types.specs.declared.entry.Entry.{Entry};
ghost use Rattle.disk_model.specs.Image.{IsFileId, place};
ghost use Rattle.disk_model.specs.View.{IsListed, Reads};
ghost use Rattle.disk_model.specs.Calls.{Looks};
ghost use Rattle.segment_files.specs.Contents.{StandAt};
ghost use Rattle.segment_files.specs.Parse.{Part};
ghost use Rattle.segment_set.specs.Joined.{are_joined};
ghost use Rattle.segment_files.specs.Folder.{entries_of};
ghost use Rattle.segment_set.specs.Fits.{Fits, IsEntryAt, IsNextIn, MayBeRead, cut_by, floor_by, parts_in, present, present_of};
ghost use Rattle.segment_set.specs.Finding.{IsFirstBehind, IsFirstReaching, IsPositionOf};
ghost use Rattle.segment_set.specs.Load.{HasOpenCause};

use crate::opened::Opened;
use crate::opening::{OpenError, file_error};
use crate::parts::Parts;
use disk_model::{Disk, FileId};
use host_types::{Entry, Index, LogName};
use offset_index::Offsets;
use segment_files::read_entry;
use std::alloc::Global;

/// How many of these files end before the index. It takes a time that grows with the logarithm of their number.
pub(crate) fn first_reaching(files: &[Opened], index: Index) -> usize
    requires { (from : ℕ) × (are_joined from files.now ≡ true) }
    ensures { IsFirstReaching index files.now result }
{
    let mut low = 0;
    let mut high = files.len();
    while low < high {
        let middle = low + (high - low) / 2;
        if files[middle].part.last < index {
            low = middle + 1;
        } else {
            high = middle;
        }
    }
    low
}

/// How many of these offsets are at or below this one. It takes a time that grows with the logarithm of their number.
fn first_behind(offsets: &Offsets, offset: u64) -> usize
    ensures { IsFirstBehind offset offsets.now.items result }
{
    offsets.in_order();
    let mut low = 0;
    let mut high = offsets.count();
    while low < high {
        let middle = low + (high - low) / 2;
        if offsets.at(middle).0 <= offset {
            low = middle + 1;
        } else {
            high = middle;
        }
    }
    low
}

/// At which position of a file the entry of an index stands. None comes exactly where the file hasn't got it.
fn position(base: Index, offsets: &Offsets, index: Index) -> Option<usize>
    requires range { All (λ p. base + p.0 < 2 ^ 64) offsets.now.items }
    ensures { IsPositionOf base offsets.now.items index result }
{
    if index < base {
        return None;
    }
    offsets.in_order();
    let n = first_behind(offsets, index - base);
    if n > 0 && base + offsets.at(n - 1).0 == index {
        Some(n - 1)
    } else {
        None
    }
}

/// The least index above this one that a file has.
fn next_in(base: Index, offsets: &Offsets, index: Index) -> Option<Index>
    requires range { All (λ p. base + p.0 < 2 ^ 64) offsets.now.items }
    ensures { IsNextIn (present_of base offsets.now.items) index result }
{
    offsets.in_order();
    let n = if index < base {
        0
    } else {
        first_behind(offsets, index - base)
    };
    if n < offsets.count() {
        Some(base + offsets.at(n).0)
    } else {
        None
    }
}

/// Where the entry at this position begins, and where the next one may begin at the earliest.
fn span(offsets: &Offsets, n: usize, gate: u64) -> (u64, u64)
    requires here { n < length offsets.now.items }
    requires gate { All (λ p. p.1 < gate) offsets.now.items }
    ensures order { result.0 ≤ result.1 }
    ensures from { (d : ℕ × ℕ) → (get_or offsets.now.items n d).1 ≡ result.0 }
    ensures to { (d : ℕ × ℕ) → result.1 ≡ (if nat_lt (n + 1) (length offsets.now.items) then (get_or offsets.now.items (n + 1) d).1 else gate) }
{
    offsets.in_order();
    let count = offsets.count();
    let from = offsets.at(n).1;
    let to = if n + 1 < count {
        offsets.at(n + 1).1
    } else {
        gate
    };
    (from, to)
}

/// Reads the entry of this index from a file, in one call of the disk; nothing where the file hasn't got it.
fn read_in<D: Disk>(
    alloc: Global,
    disk: &mut D,
    name: &LogName,
    id: FileId,
    offsets: &Offsets,
    gate: u64,
    index: Index,
) -> Result<Option<Entry>, OpenError>
    requires id { IsFileId id }
    requires listed { IsTrue D.tells → IsListed (D.view disk.old) (place name.now id) }
    requires range { All (λ p. id.base + p.0 < 2 ^ 64) offsets.now.items }
    requires gate { All (λ p. p.1 < gate) offsets.now.items }
    ensures entry { IfOk result (λ found. IsTrue D.tells → (bytes : List ℕ) (part : Part) → Reads (D.view disk.old) (place name.now id) bytes → StandAt bytes part offsets.now.items
        → part.id.base ≡ id.base → part.gate ≡ gate → IsEntryAt part.entries index found) }
    ensures undamaged { (base generation at : ℕ) → IsErrOf result (OpenError.Damaged base generation at) → IsTrue D.tells
        → (bytes : List ℕ) (part : Part) → Reads (D.view disk.old) (place name.now id) bytes → StandAt bytes part offsets.now.items → part.id.base ≡ id.base → part.gate ≡ gate → ⊥ }
    // Whatever the disk tells.
    ensures some { IfOk result (λ found. IsSome found ↔ Contains (present_of id.base offsets.now.items) index) }
    ensures range { IfOk result (MayBeRead index) }
    ensures looks { IsTrue D.tells → Looks (D.view disk.old) (D.view disk.new) }
    ensures cause { HasOpenCause (D.faults disk.old) (D.faults disk.new) result }
{
    let Some(n) = position(id.base, offsets, index) else {
        return Ok(None);
    };
    let (from, to) = span(offsets, n, gate);
    match read_entry(alloc, disk, name, id, index, from, to) {
        Ok(entry) => Ok(Some(entry)),
        Err(fault) => Err(file_error(id, fault)),
    }
}

impl Parts {
    /// Reads the entry of this index, in one call of the disk; nothing where it isn't present. A file that isn't as it was when it was
    /// opened is named.
    pub fn read<D: Disk>(
        &self,
        alloc: Global,
        disk: &mut D,
        index: Index,
    ) -> Result<Option<Entry>, OpenError>
        requires fits { IsTrue D.tells → Fits (D.view disk.old) self.now }
        ensures entry { IfOk result (λ found. IsTrue D.tells → IsEntryAt (entries_of (parts_in (D.view disk.old).reading self.now)) index found) }
        ensures undamaged { (base generation at : ℕ) → IsErrOf result (OpenError.Damaged base generation at) → IsTrue D.tells → ⊥ }
        // Whatever the disk tells.
        ensures some { IfOk result (λ found. IsSome found ↔ Contains (present self.now) index) }
        ensures range { IfOk result (MayBeRead index) }
        ensures looks { IsTrue D.tells → Looks (D.view disk.old) (D.view disk.new) }
        ensures cause { HasOpenCause (D.faults disk.old) (D.faults disk.new) result }
    {
        let n = first_reaching(&self.sealed, index);
        if n < self.sealed.len() {
            let one = &self.sealed[n];
            return read_in(
                alloc,
                disk,
                &self.name,
                one.id,
                &one.part.offsets,
                one.part.gate,
                index,
            );
        }
        match self.tail {
            Some(tail) => read_in(
                alloc,
                disk,
                &self.name,
                tail.id,
                &self.offsets,
                tail.gate,
                index,
            ),
            None => Ok(None),
        }
    }

    /// The least present index above this one. It calls no disk. Its time grows with the logarithms of the numbers of files and of a
    /// file's entries, and with the number of files that come next and have none.
    pub fn next_present(&self, index: Index) -> Option<Index>
        ensures { IsNextIn (present self.now) index result }
    {
        let mut n = first_reaching(&self.sealed, index.saturating_add(1));
        while n < self.sealed.len() {
            let one = &self.sealed[n];
            if let Some(next) = next_in(one.id.base, &one.part.offsets, index) {
                return Some(next);
            }
            n += 1;
        }
        match self.tail {
            Some(tail) => next_in(tail.id.base, &self.offsets, index),
            None => None,
        }
    }

    /// The greatest cut of its files: up to which index a compaction has cleaned the log.
    pub fn cut(&self) -> Index
        ensures cut { result ≡ cut_by self.now.sealed.items }
        ensures range { result ≤ 281474976710655 }
    {
        let mut cut = 0;
        for one in &self.sealed {
            cut = cut.max(one.part.descriptor.cut);
        }
        cut
    }

    /// The greatest floor of its files: no tombstone above it was removed.
    pub fn floor(&self) -> Index
        ensures { result ≡ floor_by self.now.sealed.items }
    {
        let mut floor = 0;
        for one in &self.sealed {
            floor = floor.max(one.part.descriptor.floor);
        }
        floor
    }
}
