// Puts that are made ready: what they put, and the room for it.
ghost use Rattle.std.specs.Prelude.{◌≡◌, ◌++◌, ◌∷◌, ℕ, [], Some, true, OnOk};
ghost use Rattle.std.specs.List.{list_all};
ghost use Rattle.host_types.specs.declared.entry.Cell.{Cell as ACell};
ghost use Rattle.cell_table.specs.Slots.{slot_at, has_room};
ghost use Rattle.cell_table.specs.Owners.{has_cell, AreOwned};
ghost use Rattle.cell_table.specs.Arrivals.{arrival, AreArrived};
ghost use Rattle.cell_table.specs.Seen.{has_all};
ghost use Rattle.cell_table.specs.declared.ready.Ready.{Ready as AReady};

use crate::arrivals::{Arrivals, announce, retract};
use crate::owners::{Owners, add, remove};
use crate::slots::Slots;
use host_types::{Cell, Content, Index, NoMemory};
use std::alloc::Global;

/// A put that is made ready.
#[derive(Drop)]
pub(crate) struct Ready {
    pub(crate) cell: Cell,
    pub(crate) content: Content,
    pub(crate) owner: Option<Index>,
    pub(crate) index: Index,
}

// Makes all room for a put, and keeps that of others. What stands at the cells stays, whatever it answers.
fn room_for(
    slots: &mut Slots,
    owners: &mut Owners,
    arrivals: &mut Arrivals,
    alloc: Global,
    cell: &Cell,
    owner: Option<Index>,
    index: Index,
) -> Result<(), NoMemory>
    ensures all { OnOk result ((r : AReady) → r.cell ≡ cell.now → r.owner ≡ owner → r.index ≡ index → has_all slots.new.map.entries owners.new.entries arrivals.new.entries r ≡ true) }
    ensures rooms { (c : ACell) → has_room slots.old.map.entries c ≡ true → has_room slots.new.map.entries c ≡ true }
    ensures same { (c : ACell) → slot_at slots.new.map.entries c ≡ slot_at slots.old.map.entries c }
    ensures owned { (s : ℕ) (c : ACell) → has_cell owners.old.entries s c ≡ true → has_cell owners.new.entries s c ≡ true }
    ensures arrived { (i : ℕ) (c : ACell) → arrival arrivals.old.entries i ≡ Some c → arrival arrivals.new.entries i ≡ Some c }
{
    slots.make_room(cell.copy()?)?;
    if let Some(session) = owner {
        add(owners, alloc, session, cell.copy()?)?;
    }
    announce(arrivals, cell, index)
}

/// Makes one more put ready. It is remembered before its room is made, so that also a room that is made in part is taken back by
/// the next `take_back`.
pub(crate) fn make_ready(
    slots: &mut Slots,
    owners: &mut Owners,
    arrivals: &mut Arrivals,
    ready: &mut Vec<Ready>,
    alloc: Global,
    put: (&Cell, &Content, Option<Index>, Index),
) -> Result<(), NoMemory>
    requires { list_all (has_all slots.old.map.entries owners.old.entries arrivals.old.entries) ready.old.items ≡ true }
    ensures all { OnOk result (list_all (has_all slots.new.map.entries owners.new.entries arrivals.new.entries) ready.new.items ≡ true) }
    ensures items { OnOk result (ready.new.items ≡ ready.old.items ++ record { cell = put.entry.0.now; content = put.entry.1.now; owner = put.entry.2; index = put.entry.3 } ∷ []) }
    ensures same { (c : ACell) → slot_at slots.new.map.entries c ≡ slot_at slots.old.map.entries c }
    ensures owned { (s : ℕ) (c : ACell) → has_cell owners.old.entries s c ≡ true → has_cell owners.new.entries s c ≡ true }
    ensures arrived { (i : ℕ) (c : ACell) → arrival arrivals.old.entries i ≡ Some c → arrival arrivals.new.entries i ≡ Some c }
{
    let (cell, content, owner, index) = put;
    ready.push(Ready {
        cell: cell.copy()?,
        content: content.copy()?,
        owner,
        index,
    })?;
    room_for(slots, owners, arrivals, alloc, cell, owner, index)
}

// Takes the room of a put that never came.
fn tidy(slots: &mut Slots, owners: &mut Owners, arrivals: &mut Arrivals, ready: &Ready)
    ensures same { (c : ACell) → slot_at slots.new.map.entries c ≡ slot_at slots.old.map.entries c }
    ensures owned { AreOwned slots.old.map.entries owners.old.entries → AreOwned slots.new.map.entries owners.new.entries }
    ensures arrived { AreArrived slots.old.map.entries arrivals.old.entries → AreArrived slots.new.map.entries arrivals.new.entries }
{
    if slots.at(&ready.cell).is_some() {
        return;
    }
    match slots.take(&ready.cell) {
        None => {}
        Some(_filled) => unreachable!(),
    }
    retract(arrivals, &ready.cell, Some(ready.index));
    if let Some(owner) = ready.owner {
        remove(owners, owner, &ready.cell);
    }
}

/// Takes back what was made ready.
pub(crate) fn take_back(
    slots: &mut Slots,
    owners: &mut Owners,
    arrivals: &mut Arrivals,
    ready: &mut Vec<Ready>,
)
    ensures none { ready.new.items ≡ [] }
    ensures same { (c : ACell) → slot_at slots.new.map.entries c ≡ slot_at slots.old.map.entries c }
    ensures owned { AreOwned slots.old.map.entries owners.old.entries → AreOwned slots.new.map.entries owners.new.entries }
    ensures arrived { AreArrived slots.old.map.entries arrivals.old.entries → AreArrived slots.new.map.entries arrivals.new.entries }
{
    while let Some(one) = ready.pop() {
        tidy(slots, owners, arrivals, &one);
        drop(one);
    }
}
