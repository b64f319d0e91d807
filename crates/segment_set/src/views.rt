// What is shown of the parts of a log.
ghost use Rattle.std.specs.Prelude.{◌≡◌, IfOk};
ghost use Rattle.segment_set.specs.Views.{IsInRange, LieFrom, view_of_file, view_of_tail, views_of};

use crate::opened::Opened;
use crate::parts::Parts;
use crate::tail::Tail;
use host_types::{Index, NoMemory};

/// What is shown of a part.
#[derive(Clone, Copy, Debug, PartialEq, Eq)]
pub struct PartView {
    /// The first index of its range.
    pub base: Index,
    pub generation: u64,
    /// The last index of its range, or the one before its base where it has no entries.
    pub last: Index,
    /// How many entries of its range are there.
    pub kept: u64,
    /// Up to which index the compaction that wrote it cleaned it, or 0.
    pub cut: Index,
    /// Above which index that compaction removed no tombstone, or 0.
    pub floor: Index,
    /// Whether nothing is appended to it any more.
    pub sealed: bool,
}

/// A file that nothing is appended to.
fn view_file(one: &Opened) -> PartView
    ensures view { result ≡ view_of_file one.now }
    ensures range { IsInRange result }
{
    one.part.offsets.in_order();
    PartView {
        base: one.id.base,
        generation: one.id.generation,
        last: one.part.last,
        kept: one.part.offsets.count() as u64,
        cut: one.part.descriptor.cut,
        floor: one.part.descriptor.floor,
        sealed: true,
    }
}

/// The file that the log is appended to.
fn view_tail(tail: Tail) -> PartView
    ensures { result ≡ view_of_tail tail }
{
    PartView {
        base: tail.id.base,
        generation: tail.id.generation,
        last: tail.last,
        kept: tail.last + 1 - tail.id.base,
        cut: 0,
        floor: 0,
        sealed: false,
    }
}

impl Parts {
    /// What is shown of each part, by rising base. It calls no disk, and takes a time that grows with the number of parts.
    pub fn views(&self) -> Result<Vec<PartView>, NoMemory>
        ensures views { IfOk result (λ list. list.items ≡ views_of self.now) }
        ensures lie { IfOk result (λ list. LieFrom 1 list.items) }
    {
        let mut list = Vec::new(*self.sealed.allocator());
        for one in &self.sealed {
            list.push(view_file(one))?;
        }
        match self.tail {
            Some(tail) => {
                list.push(view_tail(tail))?;
                Ok(list)
            }
            None => Ok(list),
        }
    }
}
