// The offsets of a file. Contracts see the list of pairs, and for how many more there is room.
ghost use Rattle.std.specs.Prelude.{◌≡◌, ◌≢◌, ℕ, ◌+◌, ◌*◌, ◌-◌, ◌^◌, ◌<◌, ◌≤◌, [], ◌∷◌, ◌++◌, length, slice_index_or, IfSome, IfNone, OnOk, OnErr, IsOk, max};
ghost use Rattle.std.specs.List.{All, Contains};
ghost use Rattle.offset_index.specs.Indexed.{Rises, MayFollow, IsFirstAbove};

use crate::NoMemory;
use crate::search::{count_up_to, look};
use crate::steps::Steps;
use std::alloc::Global;
use std::marker::Model;
use std::sync::ledger::Ledger;

/// Where the entries of one file stand. It is seen as two things:
///
/// - `items`, the list of pairs of an offset and a place. An offset is the index of an entry less the base of its file; a
///   place is where the entry begins in the file, in bytes from the start. Both rise from each pair to the next, with holes
///   where entries are missing;
/// - `spare`, the number of pairs that can be pushed before memory has to be reserved again.
///
/// Only `reserve` and `push` take memory. The time of a look-up grows with the logarithm of the number of pairs: each counts
/// the pairs that it looks at.
#[derive(Drop)]
pub struct Offsets {
    pairs: Vec<(u64, u64)>,
    spare: usize,
}

impl Model for Offsets {
    ghost use Rattle.offset_index.specs.Indexed.{Indexed, indexed_code};

    ghost Value = { Indexed };

    ghost coded = { indexed_code };

    ghost use Rattle.offset_index.specs.Kept.{indexed, IsKept};

    ghost view = { indexed };

    ghost invariant = { IsKept };
}

impl Offsets {
    /// No pair and no room. It takes no memory.
    pub fn new(alloc: Global) -> Offsets
        ensures items { result.items ≡ [] }
        ensures spare { result.spare ≡ 0 }
    {
        Offsets {
            pairs: Vec::new(alloc),
            spare: 0,
        }
    }

    /// A fact of every value, at no cost: offsets and places rise.
    pub fn in_order(&self)
        ensures { Rises self.now.items }
    {
        let _ = &self.pairs;
    }

    /// Makes room for at least so many more pairs. Where there is as much it doesn't fail. After an error all is as before.
    pub fn reserve(&mut self, count: usize) -> Result<(), NoMemory>
        ensures items { self.new.items ≡ self.old.items }
        ensures ok { OnOk result (count ≤ self.new.spare) }
        ensures exact { OnOk result (self.new.spare ≡ max count self.old.spare) }
        ensures never_less { self.old.spare ≤ self.new.spare }
        ensures fits { count ≤ self.old.spare → IsOk result }
        ensures err { OnErr result (self.new ≡ self.old) }
    {
        if self.spare >= count {
            return Ok(());
        }
        self.pairs.reserve(count)?;
        self.spare = count;
        Ok(())
    }

    /// Appends the pair of an entry, which is above the last one in both. Where there is room it doesn't fail. After an error
    /// all is as before.
    pub fn push(&mut self, offset: u64, place: u64) -> Result<(), NoMemory>
        requires { MayFollow self.old.items (offset, place) }
        ensures ok { OnOk result (self.new.items ≡ self.old.items ++ (offset, place) ∷ []) }
        ensures spare { OnOk result (self.new.spare ≡ self.old.spare - 1) }
        ensures fits { 1 ≤ self.old.spare → IsOk result }
        ensures err { OnErr result (self.new ≡ self.old) }
    {
        self.reserve(1)?;
        self.pairs.push_reserved((offset, place));
        self.spare -= 1;
        Ok(())
    }

    /// Where the entry with this offset begins. None comes exactly where no pair has the offset.
    pub fn find<L: Ledger>(&self, offset: u64, steps: &mut Steps<L>) -> Option<u64>
        ensures some { IfSome result (λ place. Contains self.now.items (offset, place)) }
        ensures none { IfNone result (All (λ pair. pair.0 ≢ offset) self.now.items) }
        ensures counted { steps.old ≤ steps.new }
        ensures cost { 2 ^ (steps.new - steps.old) ≤ 4 * length self.now.items + 2 }
    {
        let count = count_up_to(&self.pairs, offset, steps);
        if count == 0 {
            return None;
        }
        let (found, place) = look(&self.pairs, count - 1, steps);
        if found == offset { Some(place) } else { None }
    }

    /// The position of the first pair whose offset is above this one. None comes exactly where there is none.
    pub fn first_above<L: Ledger>(&self, offset: u64, steps: &mut Steps<L>) -> Option<usize>
        ensures some { IfSome result (IsFirstAbove offset self.now.items) }
        ensures none { IfNone result (All (λ pair. pair.0 ≤ offset) self.now.items) }
        ensures counted { steps.old ≤ steps.new }
        ensures cost { 2 ^ (steps.new - steps.old) ≤ 4 * length self.now.items + 2 }
    {
        let count = count_up_to(&self.pairs, offset, steps);
        if count < self.pairs.len() {
            Some(count)
        } else {
            None
        }
    }

    /// How many pairs there are.
    pub fn count(&self) -> usize
        ensures { result ≡ length self.now.items }
    {
        self.pairs.len()
    }

    /// The pair at this position: an offset and its place.
    pub fn at(&self, n: usize) -> (u64, u64)
        requires { n < length self.now.items }
        ensures { (d : ℕ × ℕ) → slice_index_or self.now.items n d ≡ result }
    {
        self.pairs[n]
    }
}
