// The files of one log, as a list of parts.
ghost use Rattle.std.specs.Prelude.{◌≡◌, ◌≤◌, true, length};
ghost use Rattle.segment_files.specs.Contents.{AreBelow};
ghost use Rattle.segment_set.specs.Joined.{are_joined, begins_at, end_of, ends_with, has_end, has_tail_or_full};
ghost use Rattle.segment_set.specs.Tails.{tail_base, tail_count, tail_gate, tail_last};

use crate::opened::Opened;
use crate::tail::Tail;
use host_types::LogName;
use offset_index::Offsets;

/// The greatest generation of a file.
pub const GENERATION_LIMIT: u64 = 281474976710655;

/// The parts of a log: files that stand end to end from the first entry on.
#[derive(Drop)]
pub struct Parts {
    /// The name of its files.
    pub name: LogName,
    /// The files that are appended to no more, by rising base.
    pub sealed: Vec<Opened>,
    /// The file behind them that is appended to, if there is one.
    pub tail: Option<Tail>,
    /// Where the tail's entries stand, with room for those that were prepared.
    pub offsets: Offsets,
    /// The greatest generation of a file that was seen or made, or 0.
    pub greatest: u64,
    ghost in_range: { greatest ≤ 281474976710655 },
    // Each file begins where the one before it ends, and none but the tail is empty.
    ghost joined: { are_joined 1 sealed.items ≡ true },
    ghost from: { begins_at tail (end_of 1 sealed.items) ≡ true },
    // The next entry needs a new file only where the last one has its size, or a compaction wrote it.
    ghost full: { has_tail_or_full tail sealed.items ≡ true },
    // The last entry of the log is there.
    ghost ended: { has_end tail sealed.items ≡ true },
    ghost counted: { length offsets.items ≡ tail_count tail },
    ghost read: { ends_with tail offsets.items ≡ true },
    ghost below: { AreBelow (tail_base tail) (tail_last tail) offsets.items (tail_gate tail) },
}
