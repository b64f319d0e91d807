// The lender. Contracts see which indexes are out, the closed pairs, and for how many more commits there is room.
ghost use Rattle.std.specs.Prelude.{◌≡◌, ℕ, ◌+◌, ◌<◌, ◌≤◌, [], ◌∷◌, ◌++◌, OnOk, OnErr, IfSome, IfNone};
ghost use Rattle.std.specs.FinSet as set;
ghost use Rattle.commit_lending.specs.Lent.{tokens, one_of, pair_of_last};

use crate::NoMemory;
use crate::commit::Commit;
use std::alloc::Global;
use std::collections::{HashSet, VecDeque};
use std::marker::Model;

/// It lends the commits of stored entries and takes them back. It is seen as three things:
///
/// - `out`, the indexes whose commits are lent and haven't come back;
/// - `closed`, the list of pairs of an index and the index that closed it, in the order in which they were closed;
/// - `spare`, the number of commits that can be lent before memory has to be reserved again.
///
/// `tokens` counts how often an index is out. As long as an entry is lent once, that is once or never; what stands above
/// speaks of this number, and holds for any.
///
/// Only `reserve` takes memory. It also makes the room that the later `close` of the commit needs, and this room is kept
/// for as long as the commit is out.
#[derive(Drop)]
pub struct Lender {
    out: HashSet<u64>,
    closed: VecDeque<(u64, u64)>,
    spare: usize,
}

impl Model for Lender {
    ghost use Rattle.commit_lending.specs.Lent.{Lent, lent_code};

    ghost Value = { Lent };

    ghost coded = { lent_code };

    ghost use Rattle.commit_lending.specs.Kept.{lent, HasRoom};

    ghost view = { lent };

    ghost invariant = { HasRoom };
}

impl Lender {
    /// A lender with nothing out, nothing closed and no room. It takes no memory.
    pub fn new(alloc: Global) -> Lender
        ensures out { result.out ≡ set.empty }
        ensures tokens { (j : ℕ) → tokens result j ≡ 0 }
        ensures closed { result.closed ≡ [] }
        ensures spare { result.spare ≡ 0 }
    {
        Lender {
            out: HashSet::new(alloc),
            closed: VecDeque::new(alloc),
            spare: 0,
        }
    }

    /// Makes room for at least one more commit. After an error all is as before.
    pub fn reserve(&mut self) -> Result<(), NoMemory>
        ensures out { self.new.out ≡ self.old.out }
        ensures closed { self.new.closed ≡ self.old.closed }
        ensures ok { OnOk result (1 ≤ self.new.spare) }
        ensures never_less { self.old.spare ≤ self.new.spare }
        ensures err { OnErr result (self.new ≡ self.old) }
    {
        if self.spare > 0 {
            return Ok(());
        }
        self.closed.reserve(self.out.len() + 1)?;
        self.out.reserve(1)?;
        self.spare = 1;
        Ok(())
    }

    /// Lends the commit of an index that isn't out, into room that was reserved. The index is out from then on.
    pub fn lend(&mut self, index: u64) -> Commit
        requires room { 1 ≤ self.old.spare }
        requires absent { tokens self.old index ≡ 0 }
        ensures index { result ≡ index }
        ensures out { self.new.out ≡ set.insert self.old.out index }
        ensures tokens { (j : ℕ) → tokens self.new j ≡ tokens self.old j + one_of index j }
        ensures closed { self.new.closed ≡ self.old.closed }
        ensures spare { self.new.spare + 1 ≡ self.old.spare }
    {
        let _ = self.out.insert(index);
        self.spare -= 1;
        Commit::of(index)
    }

    /// Takes back a commit that is out. With the last one of its index the index is marked: the pair of it and `by` is the
    /// last of `closed` then. The index isn't out any more. `by` is the index of the entry that put the commit's cell anew
    /// or dropped it.
    pub fn close(&mut self, commit: Commit, by: u64)
        requires { 0 < tokens self.old commit }
        ensures out { self.new.out ≡ set.remove self.old.out commit }
        ensures tokens { (j : ℕ) → tokens self.old j ≡ tokens self.new j + one_of commit j }
        ensures closed { self.new.closed ≡ self.old.closed ++ pair_of_last (tokens self.new commit) commit by }
        ensures spare { self.new.spare ≡ self.old.spare }
    {
        let index = commit.into_index();
        self.out.remove(&index);
        self.closed.push_back_reserved((index, by));
    }

    /// Takes back a commit that is out, with no mark. The index isn't out any more. A host that ends does so with all
    /// that it holds.
    pub fn retire(&mut self, commit: Commit)
        requires { 0 < tokens self.old commit }
        ensures out { self.new.out ≡ set.remove self.old.out commit }
        ensures tokens { (j : ℕ) → tokens self.old j ≡ tokens self.new j + one_of commit j }
        ensures closed { self.new.closed ≡ self.old.closed }
        ensures spare { self.new.spare ≡ self.old.spare }
    {
        self.out.remove(&commit.into_index());
    }

    /// Takes the first of the closed pairs out. None comes exactly where there is none.
    pub fn pop_closed(&mut self) -> Option<(u64, u64)>
        ensures first { IfSome result (λ pair. self.old.closed ≡ pair ∷ self.new.closed) }
        ensures none { IfNone result (self.old.closed ≡ []) }
        ensures empty { IfNone result (self.new.closed ≡ []) }
        ensures out { self.new.out ≡ self.old.out }
        ensures spare { self.new.spare ≡ self.old.spare }
    {
        self.closed.pop_front()
    }
}
