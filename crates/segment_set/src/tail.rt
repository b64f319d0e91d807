// The file that a log is appended to.
ghost use Rattle.std.specs.Prelude.{◌≤◌, ◌<◌, ◌+◌, ◌*◌, ◌-◌};

use disk_model::FileId;
use host_types::Index;

/// The file that the log is appended to: no compaction wrote it, and it has fewer entries than its size.
#[derive(Clone, Copy, Debug, PartialEq, Eq)]
pub struct Tail {
    pub id: FileId,
    /// The index of its last entry, or the one before its base where it has none.
    pub last: Index,
    /// The place of its first gate that isn't open.
    pub gate: u64,
    /// After how many entries the next file is to be begun, 2 to 65,536.
    pub size: u32,
    ghost base_first: { 1 ≤ id.base },
    ghost base_last: { id.base ≤ 281474976710655 },
    ghost generation_first: { 1 ≤ id.generation },
    ghost generation_last: { id.generation ≤ 281474976710655 },
    ghost from: { id.base ≤ last + 1 },
    ghost last_in_range: { last ≤ 281474976710655 },
    ghost has_room: { last + 1 - id.base < size },
    ghost size_first: { 2 ≤ size },
    ghost size_last: { size ≤ 65536 },
    // A frame takes 8,388,613 bytes at most, and has an entry.
    ghost gate_in_range: { gate ≤ 64 + 8388613 * (last + 1 - id.base) },
}
