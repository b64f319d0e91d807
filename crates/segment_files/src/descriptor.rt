// The first 64 bytes of a file.
ghost use Rattle.std.specs.Prelude.{◌≡◌, ◌+◌, ◌≤◌, ◌<◌, ◌^◌, false, length, Some, None, IfOk, IfErr};
ghost use Rattle.disk_model.specs.Image.{IsFileId, written};
ghost use Rattle.segment_files.specs.Parse.{descriptor_fields, exactly, fields_by, first_wrong, in_rewritten, is_right, is_rewritten, number_or_zero, size_field, wrong_at};
ghost use Rattle.segment_files.specs.Contents.{HasRule, appended_descriptor, descriptor_bytes, descriptor_in, last_by, rewritten_descriptor, rule_by};
ghost use Rattle.segment_files.specs.Rewritten.{written_descriptor};

use crate::numbers::{Size, number_in, u32_at, u64_at};
use crate::rule::Rule;
use disk_model::FileId;
use host_types::Index;

/// `CCLG`
const MARK: u64 = 0x43434c47;

/// The greatest index.
const INDEX_LIMIT: u64 = 281474976710655;

/// The first bytes of a file whose gate is open say what it holds (docs/format.md).
#[derive(Clone, Copy, Debug, PartialEq, Eq)]
pub struct Descriptor {
    /// Whether it was written by a compaction.
    pub rewritten: bool,
    pub generation: u64,
    /// The index of the first entry that it may hold.
    pub base: Index,
    /// The last index of its range, or 0 in a file that is appended to.
    pub last: Index,
    /// Up to which index its entries were cleaned, or 0.
    pub cut: Index,
    /// The greatest index of a tombstone that was removed, or 0.
    pub floor: Index,
    /// How many entries a rewritten file has, or 0.
    pub count: u64,
    /// After how many entries the next file is begun, or 0.
    pub size: u32,
}

/// Writes bytes over those from there on.
pub(crate) fn put(bytes: &mut [u8], at: usize, part: &[u8])
    requires { at + length part.now ≤ length bytes.old }
    ensures { bytes.new ≡ written bytes.old at part.now }
{
    bytes[at..at + part.len()].copy_from_slice(part);
}

/// A field of a descriptor, with the numbers that it may have.
#[derive(Clone, Copy, Debug, PartialEq, Eq)]
struct Field {
    at: usize,
    size: Size,
    least: u64,
    most: u64,
}

impl Field {
    /// A field that has this number alone.
    fn exactly(at: usize, size: Size, number: u64) -> Field
        ensures { result ≡ exactly at size number }
    {
        Field {
            at,
            size,
            least: number,
            most: number,
        }
    }

    /// Whether it may have this number.
    fn is_right(&self, number: u64) -> bool
        ensures { result ≡ is_right self.now number }
    {
        self.least <= number && number <= self.most
    }

    /// Where these bytes are damaged by this field: at its start where it isn't right, and at their end where it isn't whole.
    fn wrong_in(&self, head: &[u8]) -> Option<usize>
        ensures { result ≡ wrong_at self.now head.now }
    {
        if head.len().saturating_sub(self.at) < self.size.bytes() {
            return Some(head.len());
        }
        if self.is_right(number_in(head, self.at, self.size)) {
            None
        } else {
            Some(self.at)
        }
    }
}

/// A number that only a compaction writes, between these two.
fn in_rewritten(rewritten: bool, at: usize, least: u64, most: u64) -> Field
    ensures { result ≡ in_rewritten rewritten at least most }
{
    let (least, most) = if rewritten { (least, most) } else { (0, 0) };
    Field {
        at,
        size: Size::Eight,
        least,
        most,
    }
}

/// After how many entries the next file is begun, which only a file has that is appended to.
fn size_field(rewritten: bool) -> Field
    ensures { result ≡ size_field rewritten }
{
    let (least, most) = if rewritten { (0, 0) } else { (2, 65536) };
    Field {
        at: 56,
        size: Size::Four,
        least,
        most,
    }
}

/// The number of this size at this place, or 0 where it isn't whole.
fn number_or_zero(head: &[u8], at: usize, size: Size) -> u64
    ensures { result ≡ number_or_zero size at head.now }
{
    if head.len().saturating_sub(at) < size.bytes() {
        0
    } else {
        number_in(head, at, size)
    }
}

/// Whether these first bytes are of a file that a compaction wrote.
fn is_rewritten(head: &[u8]) -> bool
    ensures { result ≡ is_rewritten head.now }
{
    number_or_zero(head, 2, Size::One) == 1
}

/// The fields behind the gate of a file with this id, in their order. What they may be is told by two of them: whether a
/// compaction wrote it, and its last index.
fn fields_of(id: FileId, rewritten: bool, last: u64) -> [Field; 12]
    requires { IsFileId id }
    ensures { result ≡ fields_by id rewritten last }
{
    [
        Field::exactly(1, Size::One, 1),
        Field {
            at: 2,
            size: Size::One,
            least: 0,
            most: 1,
        },
        Field::exactly(3, Size::One, 0),
        Field::exactly(4, Size::Four, MARK),
        Field::exactly(8, Size::Eight, id.generation),
        Field::exactly(16, Size::Eight, id.base),
        in_rewritten(rewritten, 24, id.base, INDEX_LIMIT),
        in_rewritten(rewritten, 32, 0, INDEX_LIMIT),
        in_rewritten(rewritten, 40, 0, INDEX_LIMIT),
        in_rewritten(rewritten, 48, 0, last.saturating_sub(id.base - 1)),
        size_field(rewritten),
        Field::exactly(60, Size::Four, 0),
    ]
}

/// Where these bytes are damaged by the first of these fields that is wrong.
fn first_wrong_of(fields: &[Field], head: &[u8]) -> Option<usize>
    ensures { result ≡ first_wrong fields.now head.now }
{
    for field in fields {
        if let Some(at) = field.wrong_in(head) {
            return Some(at);
        }
    }
    None
}

impl Descriptor {
    /// The number of its bytes.
    pub const LENGTH: usize = 64;

    /// That of a file that is appended to, of which the next one is begun after `size` entries.
    pub fn appended(id: FileId, size: u32) -> Descriptor
        ensures { result ≡ appended_descriptor id size }
    {
        Descriptor {
            rewritten: false,
            generation: id.generation,
            base: id.base,
            last: 0,
            cut: 0,
            floor: 0,
            count: 0,
            size,
        }
    }

    /// That of a file that a compaction writes, with `count` entries of the range up to `last`.
    pub fn written(id: FileId, last: Index, cut: Index, floor: Index, count: u64) -> Descriptor
        ensures { result ≡ written_descriptor id last cut floor count }
    {
        Descriptor {
            rewritten: true,
            generation: id.generation,
            base: id.base,
            last,
            cut,
            floor,
            count,
            size: 0,
        }
    }

    /// Its bytes, with the file's gate open. It takes no memory.
    pub fn bytes(&self) -> [u8; 64]
        ensures { result ≡ descriptor_bytes self.now }
    {
        let mut bytes = [0u8; 64];
        put(&mut bytes, 0, &[1, 1, u8::from(self.rewritten), 0]);
        put(&mut bytes, 4, b"CCLG");
        put(&mut bytes, 8, &self.generation.to_be_bytes());
        put(&mut bytes, 16, &self.base.to_be_bytes());
        put(&mut bytes, 24, &self.last.to_be_bytes());
        put(&mut bytes, 32, &self.cut.to_be_bytes());
        put(&mut bytes, 40, &self.floor.to_be_bytes());
        put(&mut bytes, 48, &self.count.to_be_bytes());
        put(&mut bytes, 56, &self.size.to_be_bytes());
        bytes
    }

    /// That of a file that a compaction wrote, by its first bytes.
    fn rewritten(id: FileId, head: &[u8]) -> Descriptor
        requires { 64 ≤ length head.now }
        ensures { result ≡ rewritten_descriptor id head.now }
    {
        Descriptor {
            rewritten: true,
            generation: id.generation,
            base: id.base,
            last: u64_at(head, 24),
            cut: u64_at(head, 32),
            floor: u64_at(head, 40),
            count: u64_at(head, 48),
            size: 0,
        }
    }

    /// The descriptor that a file of this id begins with, or the place where these first bytes of it are damaged. The gate isn't
    /// looked at.
    pub(crate) fn read(id: FileId, head: &[u8]) -> Result<Descriptor, usize>
        requires id { IsFileId id }
        ensures fields { IfOk result (λ descriptor. descriptor ≡ descriptor_in id head.now) }
        ensures right { IfOk result (λ descriptor. first_wrong (descriptor_fields id head.now) head.now ≡ None) }
        ensures wrong { IfErr result (λ at. first_wrong (descriptor_fields id head.now) head.now ≡ Some at) }
        ensures rule { IfOk result (λ descriptor. HasRule id (Some descriptor)) }
    {
        let rewritten = is_rewritten(head);
        let last = number_or_zero(head, 24, Size::Eight);
        if let Some(at) = first_wrong_of(&fields_of(id, rewritten, last), head) {
            return Err(at);
        }
        if rewritten {
            Ok(Descriptor::rewritten(id, head))
        } else {
            Ok(Descriptor::appended(id, u32_at(head, 56)))
        }
    }

    /// The rule of its file.
    pub(crate) fn rule(&self) -> Rule
        ensures { result ≡ rule_by self.now }
    {
        if self.rewritten {
            Rule::Rewritten {
                last: self.last,
                left: self.count,
            }
        } else {
            Rule::Appended
        }
    }

    /// The last index of its file, which has so many entries.
    pub(crate) fn last_by(&self, count: usize) -> Index
        requires first { 1 ≤ self.now.base }
        requires few { self.now.rewritten ≡ false → self.now.base + count < 2 ^ 64 }
        ensures { result ≡ last_by self.now count }
    {
        if self.rewritten {
            self.last
        } else {
            self.base - 1 + count as u64
        }
    }
}
