// Reads frames: an open gate, a length, and so many bytes of entries.
ghost use Rattle.std.specs.Prelude.{◌≡◌, ◌&&◌, ◌+◌, ◌-◌, ◌<◌, ◌≤◌, ◌^◌, nat_lt, not, if◌then◌else◌, length, IfOk};
ghost use Rattle.host_types.specs.Limits.{index_limit};
ghost use Rattle.segment_files.specs.Parse.{body_limit, follows, is_misplaced};
ghost use Rattle.segment_files.specs.Contents.{AfterBody, AfterEntry, AfterFrame, HasRoom, IfRight, IsMeasured, IsPutDown, IsRule, ReadsBody, ReadsFrame, ReadsNext, ReadsWindow, last_read, walked_shut};

use crate::frames::BODY_LIMIT;
use crate::numbers::{u32_at, u64_at};
use crate::rule::Rule;
use entry_codec::{ReadFault, read};
use host_types::{Index, NoMemory};
use offset_index::{NoMemory as NoRoom, Offsets};
use std::alloc::Global;

/// The least length of a body, that of one tick.
const BODY_LEAST: usize = 17;

/// How far the reading of some bytes came, which begin with a gate.
#[derive(Clone, Copy, Debug, PartialEq, Eq)]
pub(crate) enum Walked {
    /// To the end of the frames, in front of a gate.
    Gate { at: usize },
    /// To the end, or to a last frame there of which too little is at hand.
    Rest { at: usize },
    /// To a frame that isn't right, which is damaged here.
    Damaged { at: usize },
}

/// What stands behind an open gate, as far as it is at hand.
#[derive(Clone, Copy, Debug, PartialEq, Eq)]
pub(crate) enum FrameRead {
    /// A frame, with so many bytes behind its gate.
    Whole { size: usize },
    /// Less than a frame.
    Cut,
    /// No frame: it is damaged here.
    Damaged { at: usize },
}

/// What some bytes begin with.
#[derive(Clone, Copy, Debug, PartialEq, Eq)]
enum EntryRead {
    /// The next entry, of so many bytes.
    Whole { size: usize },
    /// Another one or none: it is damaged here.
    Damaged { at: usize },
}

/// The index of the last entry that was read of a file of this base, or the one before the base.
fn last_of(base: Index, offsets: &Offsets) -> Index
    requires base { 1 ≤ base }
    requires room { last_read base offsets.now.items < 2 ^ 64 }
    ensures { result ≡ last_read base offsets.now.items }
{
    let count = offsets.count();
    if count == 0 {
        return base - 1;
    }
    base + offsets.at(count - 1).0
}

/// Whether these bytes begin with a whole index that a file can't have behind that one.
fn begins_elsewhere(rule: Rule, before: Index, bytes: &[u8]) -> bool
    requires { before + 1 < 2 ^ 64 }
    ensures { result ≡ is_misplaced (follows rule) before bytes.now }
{
    bytes.len() >= 8 && !rule.may_follow(before, u64_at(bytes, 0))
}

/// Reads the entry that these bytes begin with, which stand at `place` of their file, and notes where it stands, if the file may
/// have it behind those that were read.
fn read_next(
    alloc: Global,
    rule: Rule,
    base: Index,
    place: u64,
    bytes: &[u8],
    offsets: &mut Offsets,
) -> Result<EntryRead, NoMemory>
    requires base_first { 1 ≤ base }
    requires base_last { base ≤ index_limit }
    requires rule { IsRule base rule }
    requires put_down { IsPutDown rule base offsets.old.items place }
    ensures reads { IfOk result (ReadsNext rule base bytes.now place offsets.old.items offsets.new.items) }
    ensures put_down { IfOk result (AfterEntry rule base offsets.new.items place) }
{
    let before = last_of(base, offsets);
    if begins_elsewhere(rule, before, bytes) {
        return Ok(EntryRead::Damaged { at: 0 });
    }
    let (index, entry, size) = match read(alloc, bytes) {
        Ok(found) => found,
        Err(ReadFault::Bad { at }) => return Ok(EntryRead::Damaged { at }),
        Err(ReadFault::NoMemory) => return Err(NoMemory),
    };
    drop(entry);
    match offsets.push(index - base, place) {
        Ok(()) => Ok(EntryRead::Whole { size }),
        Err(NoRoom) => Err(NoMemory),
    }
}

/// Reads the entries of a body, which stands at `place` of its file, behind those that were read. Answers where the body is
/// damaged, unless it is entries and nothing else, each where the rule allows it.
fn read_body(
    alloc: Global,
    rule: Rule,
    base: Index,
    place: u64,
    body: &[u8],
    offsets: &mut Offsets,
) -> Result<Option<usize>, NoMemory>
    requires base_first { 1 ≤ base }
    requires base_last { base ≤ index_limit }
    requires rule { IsRule base rule }
    requires put_down { IsPutDown rule base offsets.old.items place }
    requires end { place + length body.now < 2 ^ 64 }
    ensures reads { IfOk result (ReadsBody rule base body.now place offsets.old.items offsets.new.items) }
    ensures put_down { IfOk result (AfterBody rule base offsets.new.items (place + length body.now)) }
{
    let room = rule.room();
    let mut at = 0;
    let mut count = 0;
    while at < body.len() {
        if count == room {
            return Ok(Some(at));
        }
        match read_next(alloc, rule, base, place + at as u64, &body[at..], offsets)? {
            EntryRead::Whole { size } => at += size,
            EntryRead::Damaged { at: behind } => return Ok(Some(at + behind)),
        }
        count += 1;
    }
    Ok(None)
}

/// Where too little of a frame is at hand: it is damaged at its end where the file ends there, or more has to be read.
fn cut_frame(long: usize, is_end: bool) -> FrameRead
    ensures { result ≡ (if is_end then FrameRead.Damaged long else FrameRead.Cut) }
{
    if is_end {
        FrameRead::Damaged { at: long }
    } else {
        FrameRead::Cut
    }
}

/// Whether more of a body has to be read, of whose bytes so many are at hand.
fn wants_more(there: usize, size: usize, is_end: bool) -> bool
    ensures { result ≡ (nat_lt there size && not is_end) }
{
    there < size && !is_end
}

/// What a body of this size is that is entries as far as it is there, where so many bytes are behind the gate.
fn right_frame(size: usize, long: usize) -> FrameRead
    requires { size ≤ body_limit }
    ensures { result ≡ (if nat_lt long (4 + size) then FrameRead.Damaged long else FrameRead.Whole (4 + size)) }
{
    if long < 4 + size {
        FrameRead::Damaged { at: long }
    } else {
        FrameRead::Whole { size: 4 + size }
    }
}

/// Reads the frame that stands at `place` of its file, behind an open gate, behind the entries that were read. Where the file ends
/// with these bytes, what is there of a frame is read, and the frame is damaged.
fn read_frame(
    alloc: Global,
    rule: Rule,
    base: Index,
    place: u64,
    behind: &[u8],
    is_end: bool,
    offsets: &mut Offsets,
) -> Result<FrameRead, NoMemory>
    requires base_first { 1 ≤ base }
    requires base_last { base ≤ index_limit }
    requires rule { IsRule base rule }
    requires put_down { IsPutDown rule base offsets.old.items place }
    requires end { place + length behind.now < 2 ^ 64 }
    ensures reads { IfOk result (ReadsFrame rule base behind.now is_end place offsets.old.items offsets.new.items) }
    ensures put_down { IfOk result (AfterFrame rule base offsets.new.items place) }
{
    if behind.len() < 4 {
        return Ok(cut_frame(behind.len(), is_end));
    }
    let size = u32_at(behind, 0) as usize;
    if size < BODY_LEAST || size > BODY_LIMIT {
        return Ok(FrameRead::Damaged { at: 0 });
    }
    let there = size.min(behind.len() - 4);
    if wants_more(there, size, is_end) {
        return Ok(FrameRead::Cut);
    }
    match read_body(alloc, rule, base, place + 4, &behind[4..4 + there], offsets)? {
        Some(at) => Ok(FrameRead::Damaged { at: 4 + at }),
        None => Ok(right_frame(size, behind.len())),
    }
}

/// What a gate that isn't open is: the end of a file that is appended to, and damage of another.
fn shut_gate(rule: Rule, at: usize) -> Walked
    ensures { result ≡ walked_shut rule at }
{
    match rule {
        Rule::Appended => Walked::Gate { at },
        Rule::Rewritten { .. } => Walked::Damaged { at },
    }
}

/// Reads all whole frames of a window, which begins in place of a gate at `place` of its file, and notes where their entries
/// stand, behind those that were read already. The file may end with the window.
pub(crate) fn read_window(
    alloc: Global,
    rule: Rule,
    base: Index,
    place: u64,
    window: &[u8],
    is_end: bool,
    offsets: &mut Offsets,
) -> Result<Walked, NoMemory>
    requires base_first { 1 ≤ base }
    requires base_last { base ≤ index_limit }
    requires rule { IsRule base rule }
    requires put_down { IsPutDown rule base offsets.old.items place }
    requires room { HasRoom rule (length offsets.old.items) }
    requires end { place + length window.now < 2 ^ 64 }
    ensures measured { IfOk result (IsMeasured (length offsets.old.items) (length offsets.new.items)) }
    ensures reads { IfOk result (ReadsWindow rule base window.now is_end place offsets.old.items offsets.new.items) }
    ensures room { IfOk result (IfRight (λ at. HasRoom rule (length offsets.new.items))) }
    ensures put_down { IfOk result (IfRight (λ at. IsPutDown rule base offsets.new.items (place + at))) }
{
    let mut at = 0;
    while at < window.len() {
        let rule = rule.behind(offsets.count());
        if rule.is_full() {
            return Ok(Walked::Gate { at });
        }
        if window[at] != 1 {
            return Ok(shut_gate(rule, at));
        }
        let behind = place + at as u64 + 1;
        match read_frame(
            alloc,
            rule,
            base,
            behind,
            &window[at + 1..],
            is_end,
            offsets,
        )? {
            FrameRead::Whole { size } => at += 1 + size,
            FrameRead::Cut => return Ok(Walked::Rest { at }),
            FrameRead::Damaged { at: behind } => return Ok(Walked::Damaged {
                at: at + 1 + behind,
            }),
        }
    }
    Ok(Walked::Rest { at })
}
