// A log gets a frame of entries, in its last file or in a new one.
ghost use Rattle.std.specs.Prelude.{◌≡◌, ◌<◌, ◌≤◌, ◌+◌, ◌-◌, ◌^◌, ◌↔◌, ℕ, List, [], ◌∷◌, ◌++◌, All, length, Some, None, is_none, IsTrue, IsNone, IfSome, IfOk, OnOk};
ghost use Rattle.host_types.specs.Limits.{index_limit};
ghost use Rattle.host_types.specs.declared.entry.Entry.{Entry};
ghost use Rattle.disk_model.specs.Image.{IsFileId, place};
ghost use Rattle.disk_model.specs.View.{LeavesOnly, HasCause};
ghost use Rattle.segment_files.specs.Files.{KeepsOthers};
ghost use Rattle.segment_files.specs.Contents.{Offset_list, appended_descriptor, descriptor_bytes, places_from};
ghost use Rattle.offset_index.specs.Indexed.{MayFollow};
ghost use Rattle.segment_files.specs.Parse.{Part, Whole};
ghost use Rattle.segment_files.specs.Folder.{EachHas, folder};
ghost use Rattle.segment_set.specs.Appends.{Appends, BeginsOn};
ghost use Rattle.segment_set.specs.Growth.{AreApart, HasOrGrows, HasOrNew, IsFrameFor, IsNextFrame, frame_size, new_tail, numbered, with_entries};
ghost use Rattle.segment_set.specs.Fits.{ArePlaced, Fits, IsAsBefore, IsFileAt, IsMade, IsNewTail, IsPrepared, TailFits, last_of};
ghost use Rattle.segment_set.specs.Advance.{Advances, PlacesRise, noted, offsets_from};

use crate::opened::Opened;
use crate::parts::{GENERATION_LIMIT, Parts};
use crate::tail::Tail;
use disk_model::{Disk, DiskFault, FileId};
use host_types::{Index, LogName, NoMemory};
use offset_index::Offsets;
use segment_files::{Descriptor, append_frame, make_tail};
use std::alloc::Global;
use std::mem;

/// What stands behind the gate of a new file: the rest of its descriptor, and a shut gate.
fn behind_gate(id: FileId, size: u32) -> [u8; 64]
    ensures { 1 ∷ result ≡ descriptor_bytes (appended_descriptor id size) ++ 0 ∷ [] }
{
    let head = Descriptor::appended(id, size).bytes();
    let mut behind = [0u8; 64];
    behind[..63].copy_from_slice(&head[1..]);
    behind
}

/// Makes a file with no entries. A crash at any moment leaves it closed or whole.
fn make_file<D: Disk>(disk: &mut D, name: &LogName, id: FileId, size: u32) -> Result<(), DiskFault>
    requires id { IsFileId id }
    requires least { 2 ≤ size }
    requires most { size ≤ 65536 }
    requires fresh { IsTrue D.tells → (D.view disk.old).reading (place name.now id) ≡ None }
    ensures made { OnOk result (IsTrue D.tells → IsMade (D.view disk.new) name.now id size) }
    ensures any_moment { IsTrue D.tells → (parts : List Part) → EachHas (D.view disk.old) name.now parts → LeavesOnly (D.view disk.old) (D.view disk.new) (HasOrNew name.now parts (new_tail id size)) }
    ensures held { OnOk result (IsTrue D.tells → (parts : List Part) → EachHas (D.view disk.old) name.now parts → EachHas (D.view disk.new) name.now (parts ++ new_tail id size ∷ [])) }
    ensures unlisted { IsTrue D.tells → (parts : List Part) → EachHas (D.view disk.old) name.now parts → (D.view disk.new).reading (place name.now id) ≡ None → EachHas (D.view disk.new) name.now parts }
    ensures others { IsTrue D.tells → KeepsOthers (D.view disk.old) (D.view disk.new) (place name.now id) }
    ensures cause { HasCause (D.faults disk.old) (D.faults disk.new) result }
{
    let behind = behind_gate(id, size);
    make_tail(disk, name, id, &behind)
}

/// A file with no entries, as a tail.
fn empty_tail(id: FileId, size: u32) -> Tail
    requires id { IsFileId id }
    requires least { 2 ≤ size }
    requires most { size ≤ 65536 }
    ensures { IsNewTail result id size }
{
    Tail {
        id,
        last: id.base - 1,
        gate: 64,
        size,
    }
}

/// Appends a frame to the tail, and answers the place of its next gate. A crash at any moment leaves the frame whole or absent.
fn push_frame<D: Disk>(
    disk: &mut D,
    name: &LogName,
    tail: Tail,
    frame: &[u8],
) -> Result<u64, DiskFault>
    requires fits { IsTrue D.tells → (offsets : Offset_list) × TailFits (D.view disk.old) name.now tail offsets }
    requires frame { (entries : List Entry) × IsFrameFor tail.last frame.now entries }
    ensures longer { IfOk result (λ gate. (gate + 1 ≡ tail.gate + length frame.now) × (gate ≤ tail.gate + 8388613)) }
    ensures grown { IfOk result (λ gate. IsTrue D.tells → (part : Part) (entries : List Entry) → folder name.now (D.view disk.old).reading tail.id ≡ Whole part → IsFrameFor tail.last frame.now entries
        → IsFileAt (D.view disk.new) name.now tail.id (tail.last + length entries) gate tail.size (with_entries part entries)) }
    ensures any_moment { IsTrue D.tells → (front : List Part) (part : Part) (entries : List Entry) → folder name.now (D.view disk.old).reading tail.id ≡ Whole part → IsFrameFor tail.last frame.now entries
        → AreApart front tail.id → EachHas (D.view disk.old) name.now (front ++ part ∷ [])
        → LeavesOnly (D.view disk.old) (D.view disk.new) (HasOrGrows name.now front part (numbered part.last entries) (frame_size (numbered part.last entries))) }
    ensures placed { OnOk result (IsTrue D.tells → (part : Part) (entries : List Entry) (offsets : Offset_list) → folder name.now (D.view disk.old).reading tail.id ≡ Whole part → IsFrameFor tail.last frame.now entries
        → ArePlaced (D.view disk.old) name.now tail.id part offsets → ArePlaced (D.view disk.new) name.now tail.id (with_entries part entries) (noted offsets tail (places_from 5 (numbered tail.last entries)))) }
    ensures held { OnOk result (IsTrue D.tells → (front : List Part) (part : Part) (entries : List Entry) → folder name.now (D.view disk.old).reading tail.id ≡ Whole part → IsFrameFor tail.last frame.now entries
        → AreApart front tail.id → EachHas (D.view disk.old) name.now (front ++ part ∷ []) → EachHas (D.view disk.new) name.now (front ++ with_entries part entries ∷ [])) }
    ensures others { IsTrue D.tells → KeepsOthers (D.view disk.old) (D.view disk.new) (place name.now tail.id) }
    ensures cause { HasCause (D.faults disk.old) (D.faults disk.new) result }
{
    append_frame(disk, name, tail.id, tail.gate, frame)
}

/// Notes where an entry stands, in room that was prepared.
fn note(offsets: &mut Offsets, offset: u64, place: u64)
    requires room { 1 ≤ offsets.old.spare }
    requires rises { MayFollow offsets.old.items (offset, place) }
    ensures items { offsets.new.items ≡ offsets.old.items ++ (offset, place) ∷ [] }
    ensures spare { offsets.new.spare ≡ offsets.old.spare - 1 }
{
    match offsets.push(offset, place) {
        Ok(()) => {}
        Err(_) => {}
    }
}

/// Notes where entries stand that follow one another from an offset on, each at its place behind a gate.
fn note_all(offsets: &mut Offsets, first: u64, gate: u64, places: &[u32])
    requires room { length places.now ≤ offsets.old.spare }
    requires below { All (λ p. (p.0 < first) × (p.1 < gate)) offsets.old.items }
    requires rise { PlacesRise 0 places.now }
    requires last { first + length places.now < 2 ^ 64 }
    requires end { gate + 2 ^ 32 ≤ 2 ^ 64 }
    ensures { offsets.new.items ≡ offsets.old.items ++ offsets_from first gate places.now }
{
    let mut next = first;
    for place in places {
        note(offsets, next, gate + u64::from(*place));
        next += 1;
    }
}

impl Parts {
    /// The index of the last entry, or 0.
    pub fn last(&self) -> Index
        ensures { result ≡ last_of self.now }
    {
        match self.tail {
            Some(tail) => tail.last,
            None => match self.sealed.last() {
                Some(one) => one.part.last,
                None => 0,
            },
        }
    }

    /// Whether the next entry needs a new file.
    pub fn needs_file(&self) -> bool
        ensures { result ≡ is_none self.now.tail }
    {
        self.tail.is_none()
    }

    /// The generation of the next file that is made, if there is one left.
    pub fn next_generation(&self) -> Option<u64>
        ensures none { IsNone result ↔ (index_limit ≤ self.now.greatest) }
        ensures some { IfSome result (λ generation. generation ≡ self.now.greatest + 1) }
    {
        if self.greatest < GENERATION_LIMIT {
            Some(self.greatest + 1)
        } else {
            None
        }
    }

    /// Makes room for noting where so many entries stand, and for a file that gets full. After an error all is as before, but for
    /// room.
    pub fn prepare_append(&mut self, count: u32) -> Result<(), NoMemory>
        ensures ok { OnOk result (IsPrepared count self.new) }
        ensures same { IsAsBefore self.old self.new }
    {
        match self.sealed.reserve(1) {
            Ok(()) => {}
            Err(_) => return Err(NoMemory),
        }
        match self.offsets.reserve(count as usize) {
            Ok(()) => Ok(()),
            Err(_) => Err(NoMemory),
        }
    }

    /// A new file with no entries, which begins behind the last one, is the tail.
    fn take(&mut self, tail: Tail)
        requires none { self.old.tail ≡ None }
        requires generation { self.old.greatest < index_limit }
        requires empty { tail.last + 1 ≡ tail.id.base }
        requires behind { tail.last ≡ last_of self.old }
        ensures tail { self.new.tail ≡ Some tail }
        ensures sealed { self.new.sealed ≡ self.old.sealed }
        ensures offsets { self.new.offsets ≡ self.old.offsets }
        ensures greatest { self.new.greatest ≡ self.old.greatest + 1 }
        ensures name { self.new.name ≡ self.old.name }
    {
        self.greatest += 1;
        self.tail = Some(tail);
    }

    /// Makes a file with no entries behind the last one, and takes it as the tail.
    fn begin<D: Disk>(&mut self, disk: &mut D, size: u32) -> Result<Tail, DiskFault>
        requires fits { IsTrue D.tells → Fits (D.view disk.old) self.old }
        requires none { self.old.tail ≡ None }
        requires room { last_of self.old < index_limit }
        requires generation { self.old.greatest < index_limit }
        requires least { 2 ≤ size }
        requires most { size ≤ 65536 }
        ensures tail { IfOk result (λ tail. (self.new.tail ≡ Some tail) × (tail.last ≡ last_of self.old)) }
        ensures sealed { self.new.sealed ≡ self.old.sealed }
        ensures offsets { self.new.offsets ≡ self.old.offsets }
        ensures greatest { OnOk result (self.new.greatest ≡ self.old.greatest + 1) }
        ensures name { self.new.name ≡ self.old.name }
        ensures told { IsTrue D.tells → BeginsOn (D.view disk.old) (D.view disk.new) self.old self.new size result }
        ensures cause { HasCause (D.faults disk.old) (D.faults disk.new) result }
    {
        let id = FileId {
            base: self.last() + 1,
            generation: self.greatest + 1,
        };
        match make_file(disk, &self.name, id, size) {
            Ok(()) => {
                let tail = empty_tail(id, size);
                self.take(tail);
                Ok(tail)
            }
            Err(fault) => Err(fault),
        }
    }

    /// The tail has entries more, at these places of the frame at its gate, behind which the next gate stands. A file that has its
    /// size or more is sealed.
    fn advance(&mut self, alloc: Global, tail: Tail, gate: u64, places: &[u32])
        requires tail { self.old.tail ≡ Some tail }
        requires some { 1 ≤ length places.now }
        requires room { tail.last + length places.now ≤ index_limit }
        requires gate { gate ≤ tail.gate + 8388613 }
        requires rise { PlacesRise 0 places.now }
        requires within { All (λ p. tail.gate + p < gate) places.now }
        requires prepared { IsPrepared (length places.now) self.old }
        ensures { Advances self.old self.new tail gate places.now }
    {
        let count = tail.last + 1 - tail.id.base;
        note_all(&mut self.offsets, count, tail.gate, places);
        let more = places.len() as u64;
        let last = tail.last + more;
        if count + more < u64::from(tail.size) {
            self.tail = Some(Tail {
                id: tail.id,
                last,
                gate,
                size: tail.size,
            });
        } else {
            let offsets = mem::replace(&mut self.offsets, Offsets::new(alloc));
            self.sealed.push_reserved(Opened {
                id: tail.id,
                part: segment_files::Part {
                    descriptor: Descriptor::appended(tail.id, tail.size),
                    last,
                    gate,
                    offsets,
                },
            });
            self.tail = None;
        }
    }

    /// Appends a frame to the tail. No file is made, so the size of a new one is any.
    fn append_to<D: Disk>(
        &mut self,
        alloc: Global,
        disk: &mut D,
        tail: Tail,
        frame: &[u8],
        places: &[u32],
    ) -> Result<(), DiskFault>
        requires fits { IsTrue D.tells → Fits (D.view disk.old) self.old }
        requires tail { self.old.tail ≡ Some tail }
        requires frame { IsNextFrame tail.last frame.now places.now }
        requires room { tail.last + length places.now ≤ index_limit }
        requires prepared { IsPrepared (length places.now) self.old }
        ensures { (size : ℕ) → Appends D.tells (D.view disk.old) (D.view disk.new) (D.faults disk.old) (D.faults disk.new)
            self.old self.new frame.now (length places.now) size result }
    {
        match push_frame(disk, &self.name, tail, frame) {
            Ok(gate) => {
                self.advance(alloc, tail, gate, places);
                Ok(())
            }
            Err(fault) => Err(fault),
        }
    }

    /// Appends a frame with the next entries, 1 to 64, which stand at these places of it (`segment_files::frame` makes both). Where no
    /// file has room it makes one of this size first, with the next generation. All entries go into one file, which may have more than
    /// its size then. A crash at any moment leaves the log without the entries or with all of them; from an Ok on they are there. Room
    /// for them was made by `prepare_append`.
    pub fn append<D: Disk>(
        &mut self,
        alloc: Global,
        disk: &mut D,
        frame: &[u8],
        places: &[u32],
        size: u32,
    ) -> Result<(), DiskFault>
        requires fits { IsTrue D.tells → Fits (D.view disk.old) self.old }
        requires frame { IsNextFrame (last_of self.old) frame.now places.now }
        requires room { last_of self.old + length places.now ≤ index_limit }
        requires generation { self.old.tail ≡ None → self.old.greatest < index_limit }
        requires least { 2 ≤ size }
        requires most { size ≤ 65536 }
        requires prepared { IsPrepared (length places.now) self.old }
        ensures { Appends D.tells (D.view disk.old) (D.view disk.new) (D.faults disk.old) (D.faults disk.new)
            self.old self.new frame.now (length places.now) size result }
    {
        match self.tail {
            Some(tail) => self.append_to(alloc, disk, tail, frame, places),
            None => match self.begin(disk, size) {
                Ok(tail) => self.append_to(alloc, disk, tail, frame, places),
                Err(fault) => Err(fault),
            },
        }
    }
}
