// One entry is read from its place in a file, or its bytes are.
ghost use Rattle.std.specs.Prelude.{◌≡◌, ◌-◌, ◌<◌, ◌≤◌, ◌+◌, ◌++◌, ℕ, List, length, take, Some, IsTrue, IfOk, IfSome, OnOk, OnErr, IsErrOf};
ghost use Rattle.host_types.specs.declared.entry.Entry.{Entry};
ghost use Rattle.disk_model.specs.Image.{IsFileId, place};
ghost use Rattle.disk_model.specs.View.{HasCause, IsListed, Reads};
ghost use Rattle.disk_model.specs.Calls.{Looks};
ghost use Rattle.entry_codec.specs.Spelled.{spelled};
ghost use Rattle.segment_files.specs.Contents.{HasFileCause, IsEntryRead, IsSpelledAt, MayStandAt};

use crate::reading::FileFault;
use disk_model::{Disk, DiskFault, FileId};
use entry_codec::{ReadFault, read};
use host_types::{Entry, Index, LogName};
use std::alloc::Global;

/// Reads the entry of an index, which stands at `from` of a file and ends at or before `to`: one call of the disk, for so many
/// bytes. Where another entry or none stands there, the file is damaged; no file is that was scanned and is as it was.
pub fn read_entry<D: Disk>(
    alloc: Global,
    disk: &mut D,
    name: &LogName,
    id: FileId,
    index: Index,
    from: u64,
    to: u64,
) -> Result<Entry, FileFault>
    requires id { IsFileId id }
    requires listed { IsTrue D.tells → IsListed (D.view disk.old) (place name.now id) }
    requires order { from ≤ to }
    ensures entry { IsTrue D.tells → (bytes : List ℕ) → Reads (D.view disk.old) (place name.now id) bytes
        → (size : ℕ) (entry : Entry) → IsSpelledAt bytes from size index entry → from + size ≤ to → IsEntryRead entry result }
    // Whatever the disk tells.
    ensures range { IfOk result (MayStandAt index) }
    ensures looks { IsTrue D.tells → Looks (D.view disk.old) (D.view disk.new) }
    ensures cause { HasFileCause (D.faults disk.old) (D.faults disk.new) result }
{
    let mut buffer = vec![in alloc; 0u8; (to - from) as usize]?;
    let count = disk.read(name, id, from, &mut buffer)?;
    let (found, entry, _) = match read(alloc, &buffer[..count]) {
        Ok(found) => found,
        Err(ReadFault::Bad { at }) => {
            return Err(FileFault::Damaged {
                at: from.saturating_add(at as u64),
            });
        }
        Err(ReadFault::NoMemory) => return Err(FileFault::NoMemory),
    };
    if found != index {
        drop(entry);
        return Err(FileFault::Damaged { at: from });
    }
    Ok(entry)
}

/// The longest spelling of an entry, and the head of the frame behind it.
const REACH: u64 = 131077;

/// Reads what stands at `from` of a file over the bytes of a buffer. Answers how many of them spell the entry that they begin
/// with, if they begin with one.
fn read_spelled<D: Disk>(
    alloc: Global,
    disk: &mut D,
    name: &LogName,
    id: FileId,
    from: u64,
    buffer: &mut [u8],
) -> Result<Option<usize>, DiskFault>
    requires id { IsFileId id }
    requires listed { IsTrue D.tells → IsListed (D.view disk.old) (place name.now id) }
    ensures spelled { IsTrue D.tells → (bytes : List ℕ) → Reads (D.view disk.old) (place name.now id) bytes
        → (size index : ℕ) (entry : Entry) → IsSpelledAt bytes from size index entry → size ≤ length buffer.old
        → IfOk result (λ found. (found ≡ Some size) × (take size buffer.new ≡ spelled index entry)) }
    // Whatever the disk tells.
    ensures within { IfOk result (λ found. IfSome found (λ size. (1 ≤ size) × (size ≤ length buffer.old))) }
    ensures looks { IsTrue D.tells → Looks (D.view disk.old) (D.view disk.new) }
    ensures cause { HasCause (D.faults disk.old) (D.faults disk.new) result }
{
    let count = disk.read(name, id, from, buffer)?;
    match read(alloc, &buffer[..count]) {
        Ok((_, entry, size)) => {
            drop(entry);
            Ok(Some(size))
        }
        Err(ReadFault::Bad { .. }) => Ok(None),
        Err(ReadFault::NoMemory) => Err(DiskFault::NoMemory),
    }
}

/// Reads over the bytes from `start` on, and keeps those that spell an entry, or all where none is spelled.
fn read_over<D: Disk>(
    alloc: Global,
    disk: &mut D,
    name: &LogName,
    id: FileId,
    from: u64,
    start: usize,
    out: &mut Vec<u8>,
) -> Result<(), DiskFault>
    requires id { IsFileId id }
    requires listed { IsTrue D.tells → IsListed (D.view disk.old) (place name.now id) }
    requires some { start < length out.old.items }
    ensures raw { IsTrue D.tells → (bytes : List ℕ) → Reads (D.view disk.old) (place name.now id) bytes
        → (size index : ℕ) (entry : Entry) → IsSpelledAt bytes from size index entry → start + size ≤ length out.old.items
        → OnOk result (out.new.items ≡ take start out.old.items ++ spelled index entry) }
    // Whatever the disk tells.
    ensures ahead { take start out.new.items ≡ take start out.old.items }
    ensures some { OnOk result (start < length out.new.items) }
    ensures most { length out.new.items ≤ length out.old.items }
    ensures looks { IsTrue D.tells → Looks (D.view disk.old) (D.view disk.new) }
    ensures cause { HasCause (D.faults disk.old) (D.faults disk.new) result }
{
    if let Some(size) = read_spelled(alloc, disk, name, id, from, &mut out[start..])? {
        out.truncate(start + size);
    }
    Ok(())
}

/// Appends the bytes that spell the entry which stands at `from` of a file and ends at or before `to`: one call of the disk.
/// Where no entry's spelling begins there, it appends what stands up to `to`, as far as an entry may reach; no file begins so
/// that was scanned and is as it was. After an error `out` is as before.
pub fn read_raw<D: Disk>(
    alloc: Global,
    disk: &mut D,
    name: &LogName,
    id: FileId,
    from: u64,
    to: u64,
    out: &mut Vec<u8>,
) -> Result<(), DiskFault>
    requires id { IsFileId id }
    requires listed { IsTrue D.tells → IsListed (D.view disk.old) (place name.now id) }
    requires order { from < to }
    ensures raw { IsTrue D.tells → (bytes : List ℕ) → Reads (D.view disk.old) (place name.now id) bytes
        → (size index : ℕ) (entry : Entry) → IsSpelledAt bytes from size index entry → from + size ≤ to → OnOk result (out.new.items ≡ out.old.items ++ spelled index entry) }
    // Whatever the disk tells.
    ensures more { OnOk result ((more : List ℕ) × (out.new.items ≡ out.old.items ++ more) × (1 ≤ length more) × (length more ≤ 131077)) }
    ensures err { OnErr result (out.new.items ≡ out.old.items) }
    ensures looks { IsTrue D.tells → Looks (D.view disk.old) (D.view disk.new) }
    ensures cause { HasCause (D.faults disk.old) (D.faults disk.new) result }
{
    let start = out.len();
    let length = (to - from).min(REACH) as usize;
    out.resize(start + length, 0)?;
    match read_over(alloc, disk, name, id, from, start, out) {
        Ok(()) => Ok(()),
        Err(fault) => {
            out.truncate(start);
            Err(fault)
        }
    }
}
