// For each present index of a log the index that released it, if any.
ghost use Rattle.std.specs.Prelude.{◌≡◌, ℕ, ◌<◌, ◌^◌, true, Some, None, length, count_by, IfSome, IfNone, OnOk, OnErr};
ghost use Rattle.std.specs.FinMap.{empty, insert, remove};
ghost use Rattle.released_marks.specs.Marks.{IsAbove, IsLast, count_released, is_present, is_unmarked, mark_at, released_at};

use host_types::{Index, NoMemory};
use std::alloc::Global;
use std::collections::BTreeMap;
use std::collections::btree_map::Range;
use std::marker::Model;

/// The marks of a log. It is seen as a finite map from the present indexes to the index that released each, or none.
///
/// Only `add` takes memory: a few words for an index, which are given back when the index goes. A call takes a time that grows with the
/// logarithm of the number of present indexes; `count` takes as much, and a step for each present index that it looks at.
#[derive(Drop)]
pub struct Marks {
    map: BTreeMap<Index, Option<Index>>,
}

impl Model for Marks {
    ghost use Rattle.released_marks.specs.Marks.{Marks, marks_code};

    ghost Value = { Marks };

    ghost coded = { marks_code };

    ghost use Rattle.released_marks.specs.MarksInside.{marks_shown};

    ghost view = { marks_shown };
}

impl Marks {
    /// No index is present. It takes no memory.
    pub fn new(alloc: Global) -> Marks
        ensures { result ≡ empty }
    {
        Marks {
            map: BTreeMap::new(alloc),
        }
    }

    /// The greatest present index. None comes exactly where no index is present.
    pub fn last(&self) -> Option<Index>
        ensures present { IfSome result (λ last. is_present last self.now ≡ true) }
        ensures last { IfSome result (λ last. IsLast last self.now) }
        ensures none { IfNone result ((j : ℕ) → is_present j self.now ≡ true → ⊥) }
    {
        match self.map.last_key_value() {
            Some((index, _)) => Some(*index),
            None => None,
        }
    }

    /// Whether the index is present and has no mark.
    pub fn is_unmarked(&self, index: Index) -> bool
        ensures { result ≡ is_unmarked index self.now }
    {
        match self.map.get(&index) {
            Some(mark) => mark.is_none(),
            None => false,
        }
    }

    /// Takes in an index above every present one, without a mark. After an error all is as before.
    pub fn add(&mut self, index: Index) -> Result<(), NoMemory>
        requires { IsAbove index self.old }
        ensures ok { OnOk result (self.new ≡ insert self.old index None) }
        ensures err { OnErr result (self.new ≡ self.old) }
    {
        self.map.insert(index, None)?;
        Ok(())
    }

    /// Takes the last index out again, which has no mark.
    pub fn undo(&mut self, index: Index)
        requires last { IsLast index self.old }
        requires unmarked { is_unmarked index self.old ≡ true }
        ensures { self.new ≡ remove self.old index }
    {
        self.map.remove(&index);
    }

    /// Marks a present index that has no mark with the index that released it.
    pub fn mark(&mut self, index: Index, by: Index)
        requires { is_unmarked index self.old ≡ true }
        ensures { self.new ≡ insert self.old index (Some by) }
    {
        *self.map.get_mut(&index).unwrap() = Some(by);
    }

    /// Whether the index has a mark of at most the cut.
    pub fn released_at(&self, index: Index, cut: Index) -> bool
        ensures { result ≡ released_at (mark_at index self.now) cut }
    {
        match self.map.get(&index) {
            Some(mark) => is_released(mark, cut),
            None => false,
        }
    }

    /// How many indexes from `from` to `to`, with both, have a mark of at most the cut.
    pub fn count(&self, from: Index, to: Index, cut: Index) -> u64
        ensures { result ≡ count_released from to cut self.now }
    {
        if from > to {
            return 0;
        }
        count_in(self.map.range(from..=to), cut)
    }

    /// Takes a present index out, with its mark.
    pub fn forget(&mut self, index: Index)
        requires { is_present index self.old ≡ true }
        ensures { self.new ≡ remove self.old index }
    {
        self.map.remove(&index);
    }
}

// Whether the mark is one of at most the cut.
fn is_released(mark: &Option<Index>, cut: Index) -> bool
    ensures { result ≡ released_at mark.now cut }
{
    mark.is_some_and(|by| by <= cut)
}

// How many of these have a mark of at most the cut.
fn count_in(marks: Range<'_, Index, Option<Index>>, cut: Index) -> u64
    requires { length marks < 2 ^ 63 }
    ensures { result ≡ count_by (λ e. released_at e.1 cut) marks.entry }
{
    let mut count = 0;
    for (_, mark) in marks {
        if is_released(mark, cut) {
            count += 1;
        }
    }
    count
}
