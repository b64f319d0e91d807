// The slots of the cells, by rising cell. A slot with nothing is room that was made for a cell, and is no cell.
ghost use Rattle.std.specs.Prelude.{◌≡◌, ℕ, ◌+◌, true, cond, is_some, Some, None, [], ◌∷◌, OnOk, IfSome, IfNone, option_copied};
ghost use Rattle.std.specs.BTreeMap.{IsOrdered, is_at};
ghost use Rattle.std.proofs.Props.{props};
ghost use Rattle.std.specs.Option.{option_map};
ghost use Rattle.host_types.specs.Cells.{cell_cmp};
ghost use Rattle.host_types.specs.declared.entry.Cell.{Cell as ACell};
ghost use Rattle.commit_lending.specs.Lent.{one_of};
ghost use Rattle.machine.specs.Holding.{held_by};
ghost use Rattle.cell_table.specs.Slots.{slot_at, slot_places, slot_count, commit_in, has_room, first_filled, slots_from, slots_above};

use crate::filled::Filled;
use host_types::{Cell, NoMemory};
use std::alloc::{AllocFailed, Global};
use std::collections::BTreeMap;
use std::collections::btree_map::Range;
use std::ops::Bound;

type Map = BTreeMap<Cell, Option<Filled>>;

/// The slots, and how many of them are filled.
pub(crate) struct Slots {
    pub(crate) map: Map,
    filled: usize,
    pub ghost counted: { filled ≡ slot_count map.entries },
    pub ghost ordered: { IsOrdered cell_cmp map } by { Prim.hlevel props },
}

impl Slots {
    pub(crate) fn new(alloc: Global) -> Slots
        ensures { result.map.entries ≡ [] }
    {
        Slots {
            map: BTreeMap::new(alloc),
            filled: 0,
        }
    }

    /// How many cells there are.
    pub(crate) fn len(&self) -> usize
        ensures { result ≡ slot_count self.now.map.entries }
    {
        self.filled
    }

    /// What stands at the cell.
    pub(crate) fn at(&self, cell: &Cell) -> Option<&Filled>
        ensures { option_copied result ≡ slot_at self.now.map.entries cell.now }
    {
        match self.map.get(cell) {
            Some(slot) => slot.as_ref(),
            None => None,
        }
    }

    /// Makes room for the cell. What stands at the cells stays.
    pub(crate) fn make_room(&mut self, cell: Cell) -> Result<(), NoMemory>
        ensures ready { OnOk result (has_room self.new.map.entries cell ≡ true) }
        ensures kept { (c : ACell) → has_room self.old.map.entries c ≡ true → has_room self.new.map.entries c ≡ true }
        ensures same { (c : ACell) → slot_at self.new.map.entries c ≡ slot_at self.old.map.entries c }
    {
        make_slot(&mut self.map, cell)
    }

    /// Fills the cell, for which there is room, and answers what stood there.
    pub(crate) fn fill(&mut self, cell: &Cell, filled: Filled) -> Option<Filled>
        requires { has_room self.old.map.entries cell.now ≡ true }
        ensures was { result ≡ slot_at self.old.map.entries cell.now }
        ensures now { (c : ACell) → slot_at self.new.map.entries c ≡ cond (is_at (cell_cmp cell.now) c) (Some filled) (slot_at self.old.map.entries c) }
        ensures places { (j : ℕ) → slot_places self.new.map.entries j + held_by (commit_in result) j ≡ slot_places self.old.map.entries j + one_of filled.commit j }
    {
        let _ = self.map.len();
        let was = fill_slot(&mut self.map, cell, filled);
        self.filled = self.filled + 1 - one_if(was.is_some());
        was
    }

    /// Takes the cell out, with its room, and answers what stood there.
    pub(crate) fn take(&mut self, cell: &Cell) -> Option<Filled>
        ensures was { result ≡ slot_at self.old.map.entries cell.now }
        ensures now { (c : ACell) → slot_at self.new.map.entries c ≡ cond (is_at (cell_cmp cell.now) c) None (slot_at self.old.map.entries c) }
        ensures places { (j : ℕ) → slot_places self.new.map.entries j + held_by (commit_in result) j ≡ slot_places self.old.map.entries j }
    {
        let was = take_slot(&mut self.map, cell);
        self.filled -= one_if(was.is_some());
        was
    }

    /// Takes the first slot out.
    pub(crate) fn pop_first(&mut self) -> Option<(Cell, Option<Filled>)>
        ensures some { IfSome result (λ p. self.old.map.entries ≡ p ∷ self.new.map.entries) }
        ensures none { IfNone result ((self.old.map.entries ≡ []) × (self.new.map.entries ≡ [])) }
    {
        let first = self.map.pop_first();
        if let Some((_, Some(_))) = &first {
            self.filled -= 1;
        }
        first
    }

    /// The first cell at this one or above it where something stands, and what stands there.
    pub(crate) fn first_from(&self, from: &Cell) -> Option<(&Cell, &Filled)>
        ensures { option_map (λ p. (p.0.now, p.1.now)) result ≡ first_filled (slots_from from.now self.now.map.entries) }
    {
        first_of(self.map.range(from..))
    }

    /// The first cell above this one where something stands, and what stands there.
    pub(crate) fn first_above(&self, below: &Cell) -> Option<(&Cell, &Filled)>
        ensures { option_map (λ p. (p.0.now, p.1.now)) result ≡ first_filled (slots_above below.now self.now.map.entries) }
    {
        first_of(self.map.range((Bound::Excluded(below), Bound::Unbounded)))
    }

    /// Ends it, once there is no slot left.
    pub(crate) fn end(self)
        requires { self.map.entries ≡ [] }
    {
        let Slots { map, filled: _ } = self;
        map.destroy_empty();
    }
}

fn one_if(there: bool) -> usize
    ensures { result ≡ cond there 1 0 }
{
    if there { 1 } else { 0 }
}

fn make_slot(map: &mut Map, cell: Cell) -> Result<(), NoMemory>
    ensures ready { OnOk result (has_room map.new.entries cell ≡ true) }
    ensures kept { (c : ACell) → has_room map.old.entries c ≡ true → has_room map.new.entries c ≡ true }
    ensures same { (c : ACell) → slot_at map.new.entries c ≡ slot_at map.old.entries c }
    ensures ordered { IsOrdered cell_cmp map.new }
{
    if map.contains_key(&cell) {
        let _ = map.len();
        return Ok(());
    }
    match map.insert(cell, None) {
        Ok(None) => Ok(()),
        Ok(Some(_old)) => unreachable!(),
        Err(AllocFailed { value: (_, None) }) => Err(NoMemory),
        Err(
            AllocFailed {
                value: (_, Some(_filled)),
            },
        ) => unreachable!(),
    }
}

fn fill_slot(map: &mut Map, cell: &Cell, filled: Filled) -> Option<Filled>
    requires { has_room map.old.entries cell.now ≡ true }
    ensures was { result ≡ slot_at map.old.entries cell.now }
    ensures now { (c : ACell) → slot_at map.new.entries c ≡ cond (is_at (cell_cmp cell.now) c) (Some filled) (slot_at map.old.entries c) }
    ensures places { (j : ℕ) → slot_places map.new.entries j + held_by (commit_in result) j ≡ slot_places map.old.entries j + one_of filled.commit j }
    ensures count { slot_count map.new.entries + cond (is_some result) 1 0 ≡ slot_count map.old.entries + 1 }
    ensures ordered { IsOrdered cell_cmp map.new }
{
    map.get_mut(cell).unwrap().replace(filled)
}

fn take_slot(map: &mut Map, cell: &Cell) -> Option<Filled>
    ensures was { result ≡ slot_at map.old.entries cell.now }
    ensures now { (c : ACell) → slot_at map.new.entries c ≡ cond (is_at (cell_cmp cell.now) c) None (slot_at map.old.entries c) }
    ensures places { (j : ℕ) → slot_places map.new.entries j + held_by (commit_in result) j ≡ slot_places map.old.entries j }
    ensures count { slot_count map.new.entries + cond (is_some result) 1 0 ≡ slot_count map.old.entries }
    ensures ordered { IsOrdered cell_cmp map.new }
{
    match map.remove(cell) {
        Some(slot) => slot,
        None => None,
    }
}

// The first slot of these that something stands in.
fn first_of<'a>(slots: Range<'a, Cell, Option<Filled>>) -> Option<(&'a Cell, &'a Filled)>
    ensures { option_map (λ p. (p.0.now, p.1.now)) result ≡ first_filled slots.entry }
{
    for (cell, slot) in slots {
        if let Some(filled) = slot {
            return Some((cell, filled));
        }
    }
    None
}
