// Steps that take commits out of the slots, with the owners that go with them.
ghost use Rattle.std.specs.Prelude.{◌≡◌, ℕ, ◌+◌, ◌<◌, [], true, cond, false, None, Some};
ghost use Rattle.std.specs.Option.{option_map_or};
ghost use Rattle.std.specs.BTreeMap.{is_at};
ghost use Rattle.host_types.specs.Cells.{cell_cmp, is_owned_by};
ghost use Rattle.host_types.specs.declared.entry.Cell.{Cell as ACell};
ghost use Rattle.machine.specs.Release.{AreOut, Releases, Retires};
ghost use Rattle.cell_table.specs.Slots.{slot_at, slot_places, unowned, is_among, owner_in, commit_in, has_room};
ghost use Rattle.cell_table.specs.Arrivals.{AreArrived};
ghost use Rattle.commit_lending.specs.Lent.{Lent, tokens, one_of};
ghost use Rattle.cell_table.specs.Owners.{AreOwned};
ghost use Rattle.cell_table.specs.declared.filled.Filled.{Filled as AFilled};

use crate::arrivals::{Arrivals, retract};
use crate::filled::{Filled, commit_of};
use crate::owners::{Owners, owned_at, remove, take_all};
use crate::slots::Slots;
use commit_lending::{Commit, Lender};
use host_types::{Cell, Index};
use machine::{close_held, retire_held};

fn index_of(filled: &Option<Filled>) -> Option<Index>
    ensures { result ≡ commit_in filled.now }
{
    match filled {
        Some(filled) => Some(filled.commit.index()),
        None => None,
    }
}

fn owner_of(filled: &Option<Filled>) -> Option<Index>
    ensures { result ≡ owner_in filled.now }
{
    match filled {
        Some(filled) => filled.owner,
        None => None,
    }
}

/// Fills a cell, for which there is room, and closes the commit that held it. The new one holds nothing yet.
pub(crate) fn put_one(slots: &mut Slots, cell: &Cell, filled: Filled, lender: &mut Lender)
    requires room { has_room slots.old.map.entries cell.now ≡ true }
    requires held { AreOut (slot_places slots.old.map.entries) lender.old }
    requires new { slot_places slots.old.map.entries filled.commit ≡ 0 }
    ensures slots { (c : ACell) → slot_at slots.new.map.entries c ≡ cond (is_at (cell_cmp cell.now) c) (Some filled) (slot_at slots.old.map.entries c) }
    ensures released { Releases (λ j. slot_places slots.old.map.entries j + one_of filled.commit j) (slot_places slots.new.map.entries) filled.commit lender.old lender.new }
{
    let index = filled.commit.index();
    close_held(commit_of(slots.fill(cell, filled)), index, lender);
}

/// Closes a commit by its own index, after what its entry has released.
pub(crate) fn close_own(commit: Commit, lender: &mut Lender)
    requires { 0 < tokens lender.old commit }
    ensures { (was rest : ℕ → ℕ) (before : Lent) → was commit ≡ 0 → tokens before commit ≡ 1 → Releases was rest commit before lender.old → Releases (λ j. was j + one_of commit j) rest commit before lender.new }
{
    let index = commit.index();
    lender.close(commit, index);
}

/// Takes a cell out, if it is there, and closes its commit.
pub(crate) fn drop_one(
    slots: &mut Slots,
    owners: &mut Owners,
    arrivals: &mut Arrivals,
    cell: &Cell,
    by: Index,
    lender: &mut Lender,
)
    requires owned { AreOwned slots.old.map.entries owners.old.entries }
    requires held { AreOut (slot_places slots.old.map.entries) lender.old }
    ensures slots { (c : ACell) → slot_at slots.new.map.entries c ≡ cond (is_at (cell_cmp cell.now) c) None (slot_at slots.old.map.entries c) }
    ensures arrived { AreArrived slots.old.map.entries arrivals.old.entries → AreArrived slots.new.map.entries arrivals.new.entries }
    ensures owned { AreOwned slots.new.map.entries owners.new.entries }
    ensures released { Releases (slot_places slots.old.map.entries) (slot_places slots.new.map.entries) by lender.old lender.new }
{
    let taken = slots.take(cell);
    retract(arrivals, cell, index_of(&taken));
    if let Some(owner) = owner_of(&taken) {
        remove(owners, owner, cell);
    }
    close_held(commit_of(taken), by, lender);
}

// Takes a cell out, if this session owns it.
fn drop_if_owned(
    slots: &mut Slots,
    arrivals: &mut Arrivals,
    cell: &Cell,
    owner: Index,
    by: Index,
    lender: &mut Lender,
)
    requires held { AreOut (slot_places slots.old.map.entries) lender.old }
    ensures slots { (c : ACell) → unowned owner (slot_at slots.new.map.entries c) ≡ unowned owner (slot_at slots.old.map.entries c) }
    ensures fewer { (c : ACell) (f : AFilled) → slot_at slots.new.map.entries c ≡ Some f → slot_at slots.old.map.entries c ≡ Some f }
    ensures gone { (f : AFilled) → slot_at slots.new.map.entries cell.now ≡ Some f → is_owned_by owner f.owner ≡ false }
    ensures arrived { AreArrived slots.old.map.entries arrivals.old.entries → AreArrived slots.new.map.entries arrivals.new.entries }
    ensures released { Releases (slot_places slots.old.map.entries) (slot_places slots.new.map.entries) by lender.old lender.new }
{
    if owned_at(slots, cell, owner).is_some() {
        let taken = slots.take(cell);
        retract(arrivals, cell, index_of(&taken));
        close_held(commit_of(taken), by, lender);
    }
}

/// Takes out all cells of this session, and closes their commits.
pub(crate) fn drop_owned(
    slots: &mut Slots,
    owners: &mut Owners,
    arrivals: &mut Arrivals,
    owner: Index,
    by: Index,
    lender: &mut Lender,
)
    requires owned { AreOwned slots.old.map.entries owners.old.entries }
    requires held { AreOut (slot_places slots.old.map.entries) lender.old }
    ensures slots { (c : ACell) → slot_at slots.new.map.entries c ≡ unowned owner (slot_at slots.old.map.entries c) }
    ensures arrived { AreArrived slots.old.map.entries arrivals.old.entries → AreArrived slots.new.map.entries arrivals.new.entries }
    ensures owned { AreOwned slots.new.map.entries owners.new.entries }
    ensures released { Releases (slot_places slots.old.map.entries) (slot_places slots.new.map.entries) by lender.old lender.new }
{
    if let Some(mut cells) = take_all(owners, owner) {
        while let Some(cell) = cells.pop_first() {
            drop_if_owned(slots, arrivals, &cell, owner, by, lender);
            drop(cell);
        }
    }
}

/// Takes out the cells of a list, where they are there, and closes their commits.
pub(crate) fn drop_each(
    slots: &mut Slots,
    owners: &mut Owners,
    arrivals: &mut Arrivals,
    cells: &mut Vec<Cell>,
    by: Index,
    lender: &mut Lender,
)
    requires owned { AreOwned slots.old.map.entries owners.old.entries }
    requires held { AreOut (slot_places slots.old.map.entries) lender.old }
    ensures slots { (c : ACell) → slot_at slots.new.map.entries c ≡ cond (is_among c cells.old.items) None (slot_at slots.old.map.entries c) }
    ensures arrived { AreArrived slots.old.map.entries arrivals.old.entries → AreArrived slots.new.map.entries arrivals.new.entries }
    ensures owned { AreOwned slots.new.map.entries owners.new.entries }
    ensures released { Releases (slot_places slots.old.map.entries) (slot_places slots.new.map.entries) by lender.old lender.new }
{
    while let Some(cell) = cells.pop() {
        drop_one(slots, owners, arrivals, &cell, by, lender);
        drop(cell);
    }
}

/// Takes out all cells, and closes their commits.
pub(crate) fn drop_all(slots: &mut Slots, by: Index, lender: &mut Lender)
    requires held { AreOut (slot_places slots.old.map.entries) lender.old }
    ensures slots { slots.new.map.entries ≡ [] }
    ensures released { Releases (slot_places slots.old.map.entries) (λ j. 0) by lender.old lender.new }
{
    while let Some((cell, slot)) = slots.pop_first() {
        close_held(commit_of(slot), by, lender);
        drop(cell);
    }
}

/// Retires all.
pub(crate) fn end(mut slots: Slots, lender: &mut Lender)
    requires held { AreOut (slot_places slots.map.entries) lender.old }
    ensures { Retires (slot_places slots.map.entries) lender.old lender.new }
{
    while let Some((cell, slot)) = slots.pop_first() {
        retire_held(commit_of(slot), lender);
        drop(cell);
    }
    slots.end();
}
