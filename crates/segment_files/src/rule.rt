// Which entries follow one another in a file, and where its frames end.
ghost use Rattle.std.specs.Prelude.{◌≡◌, ◌+◌, ◌<◌, ◌^◌};
ghost use Rattle.segment_files.specs.Parse.{behind, follows, is_full, room};

use crate::frames::FRAME_ROOM;
use host_types::Index;

/// The greatest index.
const LAST: Index = 281474976710655;

/// The rule of a file, as far as it wasn't read.
#[derive(Clone, Copy, Debug, PartialEq, Eq)]
pub(crate) enum Rule {
    /// It is appended to: each index is the one after, and its frames end at the first gate that isn't open.
    Appended,
    /// A compaction wrote it: it has so many entries more, at rising indexes up to a last one.
    Rewritten { last: Index, left: u64 },
}

impl Rule {
    /// Whether an entry of this index may stand behind that one.
    pub(crate) fn may_follow(self, before: Index, index: Index) -> bool
        requires { before + 1 < 2 ^ 64 }
        ensures { result ≡ follows self before index }
    {
        match self {
            Rule::Appended => index == before + 1 && index <= LAST,
            Rule::Rewritten { last, .. } => before < index && index <= last,
        }
    }

    /// How many entries may stand in the next frame.
    pub(crate) fn room(self) -> usize
        ensures { result ≡ room self }
    {
        match self {
            Rule::Appended => FRAME_ROOM,
            Rule::Rewritten { left, .. } => (FRAME_ROOM as u64).min(left) as usize,
        }
    }

    /// Whether all entries were read.
    pub(crate) fn is_full(self) -> bool
        ensures { result ≡ is_full self }
    {
        match self {
            Rule::Appended => false,
            Rule::Rewritten { left, .. } => left == 0,
        }
    }

    /// The rule behind so many entries.
    pub(crate) fn behind(self, count: usize) -> Rule
        ensures { result ≡ behind self count }
    {
        match self {
            Rule::Appended => Rule::Appended,
            Rule::Rewritten { last, left } => Rule::Rewritten {
                last,
                left: left.saturating_sub(count as u64),
            },
        }
    }
}
