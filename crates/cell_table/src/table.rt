// A table of the cells of one instance.
ghost use Rattle.std.specs.Prelude.{◌≡◌, ◌++◌, ◌∷◌, ◌<◌, ℕ, ◌+◌, [], Some, true, false, length, IfOk, IfSome, IfNone, OnOk, OnErr, option_copied};
ghost use Rattle.std.specs.Option.{option_map};
ghost use Rattle.host_types.specs.Cells.{Cell_at, Held as AHeld, at, stands, places_of, instance_after, without_owner, is_create};
ghost use Rattle.host_types.specs.declared.entry.Cell.{Cell as ACell};
ghost use Rattle.commit_lending.specs.Lent.{tokens, one_of};
ghost use Rattle.machine.specs.Listing.{listed};
ghost use Rattle.machine.specs.Release.{AreOut, Releases, Retires};
ghost use Rattle.cell_table.specs.Slots.{held_in};
ghost use Rattle.cell_table.specs.Lookups.{cells_from, cells_above, owned_of, held_of, found, and_above, IsFirstWaiter, AreInOrder};
ghost use Rattle.cell_table.specs.Arrivals.{is_waiter};
ghost use Rattle.cell_table.specs.Seen.{HasPairs, IsReady, puts_in, cell_in, key_in};

use crate::arrivals::{Arrivals, first_arrived};
use crate::change::{Change, change_of};
use crate::filled::Filled;
use crate::listing::list_all;
use crate::owners::{Owners, first_owned};
use crate::pairs::{list_pairs, spelled};
use crate::ready::{Ready, make_ready, take_back};
use crate::slots::Slots;
use crate::steps::{close_own, drop_all, drop_each, drop_one, drop_owned, end, put_one};
use commit_lending::{Commit, Lender};
use host_types::{Cell, Content, Effect, Index, Key, Kind, NoMemory};
use machine::Place;
use std::alloc::Global;
use std::collections::BTreeMap;
use std::marker::Model;

/// The cells of one instance, with the commits that hold them. Contracts see its kind, its instance, its cells, and what it is
/// ready for.
///
/// Only `prepare` takes memory. A cell is found, put and dropped in time logarithmic in the number of cells; so is the next cell, by
/// rising cell, among those of an owner or among the waiters by the indexes that hold them. The cells of an owner go in that time
/// for each, and where it owns none here that is seen at once.
pub struct CellTable {
    kind: Kind,
    instance: Index,
    slots: Slots,
    // for each owner its cells, and perhaps cells that it doesn't own any more
    owners: Owners,
    // the waiters by the indexes that hold them, and perhaps some that are gone
    arrivals: Arrivals,
    // the puts that are made ready
    ready: Vec<Ready>,
    // the pairs of a key that are ready to be taken out
    wiped: Vec<Cell>,
}

impl Model for CellTable {
    ghost use Rattle.cell_table.specs.Seen.{Table};

    ghost Value = { Table };

    ghost use Rattle.cell_table.specs.Seen.{seen, IsSound};

    ghost view = { seen };

    ghost invariant = { IsSound };
}

/// A cell that is there.
#[derive(Clone, Copy)]
pub struct Standing<'a> {
    pub cell: &'a Cell,
    /// The index of the entry that holds it.
    pub index: Index,
    pub content: &'a Content,
    pub owner: Option<Index>,
}

// A cell that is there, as callers see it.
fn as_standing<'a>(one: Option<(&'a Cell, &'a Filled)>) -> Option<Standing<'a>>
    ensures { found result ≡ option_map (λ p. (p.0.now, held_in p.1.now)) one.entry }
{
    match one {
        Some((cell, filled)) => Some(Standing {
            cell,
            index: filled.commit.index(),
            content: &filled.content,
            owner: filled.owner,
        }),
        None => None,
    }
}

// What the effect puts, for whom.
fn put_in(effect: &Effect) -> Option<(&Cell, &Content, Option<Index>)>
    ensures some { IfSome result (λ p. (i : ℕ) → puts_in i effect.now ≡ record { cell = p.0.now; content = p.1.now; owner = p.2; index = i } ∷ []) }
    ensures none { IfNone result ((i : ℕ) → puts_in i effect.now ≡ []) }
{
    match effect {
        Effect::Put {
            cell,
            content,
            owner,
            ..
        } => Some((cell, content, *owner)),
        _ => None,
    }
}

// The key whose pairs the effect wipes.
fn key_in(effect: &Effect) -> Option<&Key>
    ensures { option_copied result ≡ key_in effect.now }
{
    match effect {
        Effect::WipeKey { key, .. } => Some(key),
        _ => None,
    }
}

// The cell that the effect drops.
fn cell_in(effect: &Effect) -> Option<&Cell>
    ensures { option_copied result ≡ cell_in effect.now }
{
    match effect {
        Effect::Drop { cell, .. } => Some(cell),
        _ => None,
    }
}

impl CellTable {
    /// The cells of this instance of a resource of this kind, of which there are none yet. It takes no memory.
    pub fn new(alloc: Global, kind: Kind, instance: Index) -> CellTable
        ensures kind { result.kind ≡ kind }
        ensures instance { result.instance ≡ instance }
        ensures cells { result.cells ≡ [] }
    {
        CellTable {
            kind,
            instance,
            slots: Slots::new(alloc),
            owners: BTreeMap::new(alloc),
            arrivals: BTreeMap::new(alloc),
            ready: Vec::new(alloc),
            wiped: Vec::new(alloc),
        }
    }

    /// Its instance.
    pub fn instance(&self) -> Index
        ensures { result ≡ self.now.instance }
    {
        self.instance
    }

    /// What is so of every table: its cells rise, each is one of its kind and instance, and no two waiters are held by one index. It
    /// does nothing.
    pub fn in_order(&self)
        ensures { AreInOrder self.now.kind self.now.instance self.now.cells }
    {
        let _ = self.slots.len();
    }

    /// How many cells there are.
    pub fn len(&self) -> usize
        ensures { result ≡ length self.now.cells }
    {
        self.slots.len()
    }

    /// What the cell holds, with its index and owner.
    pub fn at<'a>(&'a self, cell: &'a Cell) -> Option<Standing<'a>>
        ensures { option_map held_of result ≡ at self.now.cells (Cell_at self.now.instance cell.now) }
    {
        match self.slots.at(cell) {
            Some(filled) => as_standing(Some((cell, filled))),
            None => None,
        }
    }

    /// Something stands at the cell.
    pub fn contains(&self, cell: &Cell) -> bool
        ensures { result ≡ stands self.now.cells (Cell_at self.now.instance cell.now) }
    {
        self.slots.at(cell).is_some()
    }

    /// What the cell holds.
    pub fn content(&self, cell: &Cell) -> Option<&Content>
        ensures { option_copied result ≡ option_map (λ h. h.content) (at self.now.cells (Cell_at self.now.instance cell.now)) }
    {
        match self.slots.at(cell) {
            Some(filled) => Some(&filled.content),
            None => None,
        }
    }

    /// The first cell at this one or above it, if there is one.
    pub fn first_from(&self, from: &Cell) -> Option<Standing<'_>>
        ensures { cells_from self.now.instance from.now self.now.cells ≡ and_above self.now.instance self.now.cells (found result) }
    {
        as_standing(self.slots.first_from(from))
    }

    /// The first cell above this one, if there is one.
    pub fn first_above(&self, below: &Cell) -> Option<Standing<'_>>
        ensures { cells_above self.now.instance below.now self.now.cells ≡ and_above self.now.instance self.now.cells (found result) }
    {
        as_standing(self.slots.first_above(below))
    }

    /// The first cell that this session owns, at this cell or above it, if there is one.
    pub fn first_owned(&self, owner: Index, from: &Cell) -> Option<Standing<'_>>
        ensures { cells_from self.now.instance from.now (owned_of owner self.now.cells) ≡ and_above self.now.instance (owned_of owner self.now.cells) (found result) }
    {
        as_standing(first_owned(&self.slots, &self.owners, owner, from))
    }

    /// The waiter that came first, of those that are held by this index or a later one: the one that the least index holds.
    pub fn first_waiter(&self, from: Index) -> Option<Standing<'_>>
        ensures some { IfSome (found result) (λ x. IsFirstWaiter self.now.instance self.now.cells from x.0 x.1) }
        ensures none { IfNone result ((c : ACell) (h : AHeld) → is_waiter c ≡ true → at self.now.cells (Cell_at self.now.instance c) ≡ Some h → h.index < from) }
    {
        as_standing(first_arrived(&self.slots, &self.arrivals, from))
    }

    /// Appends each cell once, by rising cell. After an error the list is as before.
    pub fn list(&self, out: &mut Vec<Place>) -> Result<(), NoMemory>
        ensures ok { OnOk result (out.new.items ≡ out.old.items ++ listed self.now.cells) }
        ensures err { OnErr result (out.new.items ≡ out.old.items) }
    {
        let before = out.len();
        let done = list_all(self.instance, &self.slots, out);
        if done.is_err() {
            out.truncate(before);
        }
        done
    }

    // Takes back what was made ready, and makes this put ready.
    fn prepare_put(
        &mut self,
        alloc: Global,
        put: (&Cell, &Content, Option<Index>, Index),
    ) -> Result<(), NoMemory>
        ensures ready { OnOk result (self.new.ready ≡ record { cell = put.entry.0.now; content = put.entry.1.now; owner = put.entry.2; index = put.entry.3 } ∷ []) }
        ensures cells { self.new.cells ≡ self.old.cells }
        ensures instance { self.new.instance ≡ self.old.instance }
        ensures kind { self.new.kind ≡ self.old.kind }
    {
        take_back(
            &mut self.slots,
            &mut self.owners,
            &mut self.arrivals,
            &mut self.ready,
        );
        make_ready(
            &mut self.slots,
            &mut self.owners,
            &mut self.arrivals,
            &mut self.ready,
            alloc,
            put,
        )
    }

    // Lists what a wipe of the key takes out.
    fn prepare_wipe(&mut self, alloc: Global, key: &Key) -> Result<(), NoMemory>
        ensures ready { OnOk result (HasPairs key.now self.new.instance self.new.cells self.new.wiped) }
        ensures cells { self.new.cells ≡ self.old.cells }
        ensures instance { self.new.instance ≡ self.old.instance }
        ensures kind { self.new.kind ≡ self.old.kind }
    {
        self.wiped.clear();
        list_pairs(&self.slots, alloc, key, &mut self.wiped)
    }

    /// Makes room for one later `apply` of this effect, in place of what was made ready before. The cells stay, whatever it answers.
    pub fn prepare(&mut self, alloc: Global, effect: &Effect, index: Index) -> Result<(), NoMemory>
        ensures ready { OnOk result (IsReady self.new effect.now index) }
        ensures cells { self.new.cells ≡ self.old.cells }
        ensures instance { self.new.instance ≡ self.old.instance }
        ensures kind { self.new.kind ≡ self.old.kind }
    {
        match change_of(self.kind, self.instance, effect) {
            Change::Puts => {
                let (cell, content, owner) = put_in(effect).unwrap();
                self.prepare_put(alloc, (cell, content, owner, index))
            }
            Change::Wipes => self.prepare_wipe(alloc, key_in(effect).unwrap()),
            _ => Ok(()),
        }
    }

    /// Does what the effect says, as the entry of the commit. It can't fail.
    pub fn apply(&mut self, commit: Commit, effect: &Effect, lender: &mut Lender)
        requires no_create { is_create effect.now ≡ false }
        requires ready { IsReady self.old effect.now commit }
        requires held { AreOut (places_of self.old.cells) lender.old }
        requires new { places_of self.old.cells commit ≡ 0 }
        requires lent { tokens lender.old commit ≡ 1 }
        ensures cells { self.new.cells ≡ instance_after self.old.kind self.old.instance self.old.cells commit effect.now }
        ensures instance { self.new.instance ≡ self.old.instance }
        ensures kind { self.new.kind ≡ self.old.kind }
        ensures released { Releases (λ j. places_of self.old.cells j + one_of commit j) (places_of self.new.cells) commit lender.old lender.new }
    {
        let index = commit.index();
        match change_of(self.kind, self.instance, effect) {
            Change::Puts => {
                let Ready {
                    cell,
                    content,
                    owner,
                    index: _,
                } = self.ready.pop().unwrap();
                spelled(&cell);
                let filled = Filled {
                    commit,
                    content,
                    owner,
                };
                put_one(&mut self.slots, &cell, filled, lender);
                drop(cell);
            }
            Change::Drops => {
                let cell = cell_in(effect).unwrap();
                drop_one(
                    &mut self.slots,
                    &mut self.owners,
                    &mut self.arrivals,
                    cell,
                    index,
                    lender,
                );
                close_own(commit, lender);
            }
            Change::Empties => {
                drop_all(&mut self.slots, index, lender);
                self.owners.clear();
                self.arrivals.clear();
                close_own(commit, lender);
            }
            Change::Wipes => {
                drop_each(
                    &mut self.slots,
                    &mut self.owners,
                    &mut self.arrivals,
                    &mut self.wiped,
                    index,
                    lender,
                );
                close_own(commit, lender);
            }
            Change::Keeps => close_own(commit, lender),
        }
    }

    /// Drops the cells of this session, for the entry with the index `by` that closed it. It can't fail.
    pub fn forget_owner(&mut self, owner: Index, by: Index, lender: &mut Lender)
        requires { AreOut (places_of self.old.cells) lender.old }
        ensures cells { self.new.cells ≡ without_owner owner self.old.cells }
        ensures instance { self.new.instance ≡ self.old.instance }
        ensures kind { self.new.kind ≡ self.old.kind }
        ensures released { Releases (places_of self.old.cells) (places_of self.new.cells) by lender.old lender.new }
    {
        drop_owned(
            &mut self.slots,
            &mut self.owners,
            &mut self.arrivals,
            owner,
            by,
            lender,
        );
    }

    /// Retires all that it holds.
    pub fn end(self, lender: &mut Lender)
        requires { AreOut (places_of self.cells) lender.old }
        ensures { Retires (places_of self.cells) lender.old lender.new }
    {
        let CellTable {
            kind: _,
            instance: _,
            slots,
            owners,
            arrivals,
            ready,
            wiped,
        } = self;
        drop(owners);
        drop(arrivals);
        drop(ready);
        drop(wiped);
        end(slots, lender);
    }
}
