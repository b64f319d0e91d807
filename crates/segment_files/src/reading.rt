// What a file holds, read from its start to the end of its frames.
ghost use Rattle.std.specs.Prelude.{◌≡◌, ◌+◌, ◌-◌, ◌<◌, ◌≤◌, ◌^◌, ℕ, List, [], length, Some, IsTrue, IsErrOf, IfOk, IfErr, OnOk};
ghost use Rattle.disk_model.specs.Image.{IsFileId, place};
ghost use Rattle.disk_model.specs.View.{LeavesAt, MayHold, Reads, IsListed};
ghost use Rattle.disk_model.specs.Calls.{Looks, Stays};
ghost use Rattle.segment_files.specs.Parse.{Damaged, parse};
ghost use Rattle.segment_files.specs.declared.reading.FileFault.TheVariants.{NoMemory};
ghost use Rattle.segment_files.specs.Contents.{AfterFrames, HasFew, HasFileCause, HasFrames, HasRoom, HasRule, IfRight, IsBounded, IsFound, IsHead, IsLong, IsMeasured, IsNoDamage, IsPutDown, IsRead, IsRule, IsWithin, ReadsPiece, file_fault};

use crate::descriptor::Descriptor;
use crate::rule::Rule;
use crate::windows::{Walked, read_window};
use disk_model::{Disk, DiskFault, FileId};
use host_types::{Index, LogName, NoMemory as OutOfMemory};
use offset_index::Offsets;
use std::alloc::{AllocError, Global};

/// Why a file can't be read.
#[derive(Clone, Copy, Debug, PartialEq, Eq)]
pub enum FileFault {
    /// The disk failed.
    Failed,
    /// The file's gate is open, and what it holds isn't right from this place on (`docs/format.md`).
    Damaged { at: u64 },
    /// No memory was left.
    NoMemory,
}

/// A file that is part of a log.
#[derive(Drop)]
pub struct Part {
    pub descriptor: Descriptor,
    /// The last index of its range: of a file that is appended to that of its last entry, or one less than its base where it has
    /// none; of a file that a compaction wrote, that of its descriptor.
    pub last: Index,
    /// The place of its first gate that isn't open, where the next frame goes; or behind the last frame of a file that a
    /// compaction wrote.
    pub gate: u64,
    /// Where each of its entries stands.
    pub offsets: Offsets,
}

/// What a file is.
#[derive(Drop)]
pub enum Found {
    /// Its gate isn't open: it stands for nothing.
    Closed,
    Part(Part),
}

/// A file as it is read.
#[derive(Drop)]
enum Contents {
    Closed,
    Open {
        descriptor: Descriptor,
        offsets: Offsets,
        gate: u64,
    },
}

/// What the frames of a file are.
#[derive(Clone, Copy, Debug, PartialEq, Eq)]
enum Frames {
    /// They end at this place.
    End { gate: u64 },
    /// They aren't right at this place.
    Damaged { at: u64 },
}

/// How many bytes are read at once, unless a frame is longer.
const PIECE: usize = 65536;

impl From<DiskFault> for FileFault {
    ghost from_gives = { λ fault e. e ≡ file_fault fault };

    fn from(fault: DiskFault) -> Self {
        match fault {
            DiskFault::Failed => FileFault::Failed,
            DiskFault::NoMemory => FileFault::NoMemory,
        }
    }
}

impl From<AllocError> for FileFault {
    ghost from_gives = { λ _ e. e ≡ NoMemory };

    fn from(_: AllocError) -> Self {
        FileFault::NoMemory
    }
}

impl From<OutOfMemory> for FileFault {
    ghost from_gives = { λ _ e. e ≡ NoMemory };

    fn from(_: OutOfMemory) -> Self {
        FileFault::NoMemory
    }
}

/// Reads the first 64 bytes of a file. Answers its descriptor, or nothing where its gate isn't open.
fn read_head<D: Disk>(
    disk: &mut D,
    name: &LogName,
    id: FileId,
) -> Result<Option<Descriptor>, FileFault>
    requires id { IsFileId id }
    requires listed { IsTrue D.tells → IsListed (D.view disk.old) (place name.now id) }
    ensures head { IsTrue D.tells → (bytes : List ℕ) → Reads (D.view disk.old) (place name.now id) bytes → IsHead id bytes result }
    ensures rule { IfOk result (HasRule id) }
    ensures told { IsTrue D.tells → Looks (D.view disk.old) (D.view disk.new) }
    ensures cause { HasFileCause (D.faults disk.old) (D.faults disk.new) result }
{
    let mut head = [0u8; Descriptor::LENGTH];
    let count = disk.read(name, id, 0, &mut head)?;
    if count < 2 || head[0] != 1 {
        return Ok(None);
    }
    match Descriptor::read(id, &head[..count]) {
        Ok(descriptor) => Ok(Some(descriptor)),
        Err(at) => Err(FileFault::Damaged { at: at as u64 }),
    }
}

/// Reads the next piece of a file, which ends at `end`, from the gate at `at` on. A piece that comes shorter than it was
/// asked for is damaged where it ends.
fn read_piece<D: Disk>(
    alloc: Global,
    disk: &mut D,
    name: &LogName,
    id: FileId,
    rule: Rule,
    at: u64,
    end: u64,
    buffer: &mut [u8],
    offsets: &mut Offsets,
) -> Result<Walked, FileFault>
    requires id { IsFileId id }
    requires listed { IsTrue D.tells → IsListed (D.view disk.old) (place name.now id) }
    requires within { at < end }
    requires end { IsTrue D.tells → (bytes : List ℕ) → Reads (D.view disk.old) (place name.now id) bytes → end ≡ length bytes }
    requires buffer { 1 ≤ length buffer.old }
    requires rule { IsRule id.base rule }
    requires put_down { IsPutDown rule id.base offsets.old.items at }
    requires room { HasRoom rule (length offsets.old.items) }
    ensures within { IfOk result (IsWithin (end - at)) }
    ensures longer { IfOk result (λ walked. walked ≡ Walked.Rest 0 → length buffer.old < end - at) }
    ensures measured { IfOk result (IsMeasured (length offsets.old.items) (length offsets.new.items)) }
    ensures room { IfOk result (IfRight (λ at. HasRoom rule (length offsets.new.items))) }
    ensures put_down { IfOk result (IfRight (λ behind. IsPutDown rule id.base offsets.new.items (at + behind))) }
    ensures no_damage { IfErr result IsNoDamage }
    ensures reads { IsTrue D.tells → (bytes : List ℕ) → Reads (D.view disk.old) (place name.now id) bytes
        → IfOk result (ReadsPiece rule id.base bytes at offsets.old.items offsets.new.items) }
    ensures told { IsTrue D.tells → Looks (D.view disk.old) (D.view disk.new) }
    ensures cause { HasFileCause (D.faults disk.old) (D.faults disk.new) result }
{
    let want = (end - at).min(buffer.len() as u64) as usize;
    let window = &mut buffer[..want];
    let count = disk.read(name, id, at, window)?;
    if count < want {
        return Ok(Walked::Damaged { at: count });
    }
    let is_end = want as u64 == end - at;
    let walked = read_window(alloc, rule, id.base, at, window, is_end, offsets)?;
    Ok(walked)
}

/// Makes room for a frame that is longer than a piece, of which no more than so many bytes are there.
fn lengthen(buffer: &mut Vec<u8>, most: u64) -> Result<(), OutOfMemory>
    requires longer { length buffer.old.items < most }
    requires some { 1 ≤ length buffer.old.items }
    ensures longer { OnOk result (length buffer.old.items < length buffer.new.items) }
{
    let size = (buffer.len() as u64).saturating_mul(2).min(most) as usize;
    buffer.resize(size, 0)?;
    Ok(())
}

/// Reads the frames of a file, which ends at `end`, from one piece to the next.
fn read_frames<D: Disk>(
    alloc: Global,
    disk: &mut D,
    name: &LogName,
    id: FileId,
    rule: Rule,
    end: u64,
    buffer: &mut Vec<u8>,
    offsets: &mut Offsets,
) -> Result<Frames, FileFault>
    requires id { IsFileId id }
    requires listed { IsTrue D.tells → IsListed (D.view disk.old) (place name.now id) }
    requires end { IsTrue D.tells → (bytes : List ℕ) → Reads (D.view disk.old) (place name.now id) bytes → end ≡ length bytes }
    requires buffer { 1 ≤ length buffer.old.items }
    requires none { offsets.old.items ≡ [] }
    requires rule { IsRule id.base rule }
    ensures measured { IfOk result (IsLong (length offsets.new.items)) }
    ensures put_down { IfOk result (AfterFrames rule id.base offsets.new.items) }
    ensures frames { IsTrue D.tells → (bytes : List ℕ) → Reads (D.view disk.old) (place name.now id) bytes
        → IfOk result (HasFrames rule bytes id.base offsets.new.items) }
    ensures no_damage { IfErr result IsNoDamage }
    ensures told { IsTrue D.tells → Looks (D.view disk.old) (D.view disk.new) }
    ensures cause { HasFileCause (D.faults disk.old) (D.faults disk.new) result }
{
    let mut at = 64;
    while at < end {
        match read_piece(alloc, disk, name, id, rule, at, end, buffer, offsets)? {
            Walked::Gate { at: behind } => {
                return Ok(Frames::End {
                    gate: at + behind as u64,
                });
            }
            Walked::Damaged { at: behind } => {
                return Ok(Frames::Damaged {
                    at: at + behind as u64,
                });
            }
            Walked::Rest { at: behind } => {
                if behind > 0 {
                    at += behind as u64;
                } else {
                    lengthen(buffer, end - at)?;
                }
            }
        }
    }
    if rule.behind(offsets.count()).is_full() {
        Ok(Frames::End { gate: at })
    } else {
        Ok(Frames::Damaged { at })
    }
}

/// Reads what stands behind the first bytes of a file, which are this descriptor.
fn read_part<D: Disk>(
    alloc: Global,
    disk: &mut D,
    name: &LogName,
    id: FileId,
    descriptor: Descriptor,
) -> Result<Contents, FileFault>
    requires id { IsFileId id }
    requires listed { IsTrue D.tells → IsListed (D.view disk.old) (place name.now id) }
    requires rule { HasRule id (Some descriptor) }
    ensures few { IfOk result (HasFew id) }
    ensures found { IsTrue D.tells → (bytes : List ℕ) → Reads (D.view disk.old) (place name.now id) bytes
        → IsHead id bytes (Ok (Some descriptor)) → IsRead id bytes result }
    ensures told { IsTrue D.tells → Looks (D.view disk.old) (D.view disk.new) }
    ensures cause { HasFileCause (D.faults disk.old) (D.faults disk.new) result }
{
    let end = disk.length(name, id)?;
    let mut buffer = vec![in alloc; 0u8; PIECE]?;
    let mut offsets = Offsets::new(alloc);
    let rule = descriptor.rule();
    match read_frames(alloc, disk, name, id, rule, end, &mut buffer, &mut offsets)? {
        Frames::Damaged { at } => Err(FileFault::Damaged { at }),
        Frames::End { gate } => Ok(Contents::Open {
            descriptor,
            offsets,
            gate,
        }),
    }
}

/// Reads a file: its first bytes, and then its frames.
fn read_file<D: Disk>(
    alloc: Global,
    disk: &mut D,
    name: &LogName,
    id: FileId,
) -> Result<Contents, FileFault>
    requires id { IsFileId id }
    requires listed { IsTrue D.tells → IsListed (D.view disk.old) (place name.now id) }
    ensures few { IfOk result (HasFew id) }
    ensures found { IsTrue D.tells → (bytes : List ℕ) → Reads (D.view disk.old) (place name.now id) bytes → IsRead id bytes result }
    ensures told { IsTrue D.tells → Looks (D.view disk.old) (D.view disk.new) }
    ensures cause { HasFileCause (D.faults disk.old) (D.faults disk.new) result }
{
    match read_head(disk, name, id)? {
        Some(descriptor) => read_part(alloc, disk, name, id, descriptor),
        None => Ok(Contents::Closed),
    }
}

/// Reads a file, and says what it is. It reads in pieces, each byte once, and keeps of each entry where it stands, in two
/// words: no entry is kept.
pub fn scan<D: Disk>(
    alloc: Global,
    disk: &mut D,
    name: &LogName,
    id: FileId,
) -> Result<Found, FileFault>
    requires id { IsFileId id }
    requires listed { IsTrue D.tells → IsListed (D.view disk.old) (place name.now id) }
    ensures found { IsTrue D.tells → (bytes : List ℕ) → Reads (D.view disk.old) (place name.now id) bytes
        → IfOk result (λ found. IsFound bytes found (parse id bytes)) }
    ensures damaged { IsTrue D.tells → (bytes : List ℕ) → Reads (D.view disk.old) (place name.now id) bytes
        → (at : ℕ) → IsErrOf result (FileFault.Damaged at) → parse id bytes ≡ Damaged at }
    ensures stays { IsTrue D.tells → Stays (D.view disk.old) (D.view disk.new) }
    ensures any_moment { IsTrue D.tells → LeavesAt (D.view disk.old) (D.view disk.new) (MayHold (D.view disk.old)) }
    ensures bounds { IfOk result (IsBounded id) }
    ensures cause { HasFileCause (D.faults disk.old) (D.faults disk.new) result }
{
    match read_file(alloc, disk, name, id)? {
        Contents::Closed => Ok(Found::Closed),
        Contents::Open {
            descriptor,
            offsets,
            gate,
        } => {
            let last = descriptor.last_by(offsets.count());
            Ok(Found::Part(Part {
                descriptor,
                last,
                gate,
                offsets,
            }))
        }
    }
}
