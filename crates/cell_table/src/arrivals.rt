// The waiters in the order in which they came: at least all that are there. What is told beyond that does no harm.
ghost use Rattle.std.specs.Prelude.{◌≡◌, ℕ, ◌<◌, true, false, Some, None, OnOk, IfSome, IfNone, option_copied};
ghost use Rattle.std.specs.BTreeMap.{is_at};
ghost use Rattle.host_types.specs.declared.entry.Cell.{Cell as ACell};
ghost use Rattle.cell_table.specs.Arrivals.{is_waiter, arrival, arrival_told, AreArrived, IsFirstOf, waiter_held};
ghost use Rattle.cell_table.specs.Slots.{slot_at};
ghost use Rattle.cell_table.specs.declared.filled.Filled.{Filled as AFilled};
ghost use Rattle.host_types.specs.Cells.{cell_cmp};
ghost use Rattle.std.specs.Option.{option_map_or};

use crate::filled::Filled;
use crate::slots::Slots;
use host_types::{Cell, Index, NoMemory};
use std::collections::BTreeMap;

pub(crate) type Arrivals = BTreeMap<Index, Cell>;

fn is_waiter(cell: &Cell) -> bool
    ensures { result ≡ is_waiter cell.now }
{
    matches!(cell, Cell::Waiter { .. })
}

/// Tells a waiter that is to come with this index, which holds no other. Whatever it answers, nothing is lost.
pub(crate) fn announce(arrivals: &mut Arrivals, cell: &Cell, index: Index) -> Result<(), NoMemory>
    ensures told { OnOk result (arrival_told arrivals.new.entries cell.now index ≡ true) }
    ensures kept { (i : ℕ) (c : ACell) → arrival arrivals.old.entries i ≡ Some c → arrival arrivals.new.entries i ≡ Some c }
{
    if !is_waiter(cell) {
        return Ok(());
    }
    if let Some(other) = arrivals.get(&index) {
        return if *cell == *other {
            Ok(())
        } else {
            Err(NoMemory)
        };
    }
    arrivals.insert(index, cell.copy()?)?;
    Ok(())
}

/// Takes a cell out that was told of this index, and keeps all others.
pub(crate) fn retract(arrivals: &mut Arrivals, cell: &Cell, index: Option<Index>)
    ensures { (i : ℕ) (c : ACell) → is_at (cell_cmp cell.now) c ≡ false → arrival arrivals.old.entries i ≡ Some c → arrival arrivals.new.entries i ≡ Some c }
{
    if let Some(index) = index {
        if is_told(arrivals, cell, index) {
            let _gone = arrivals.remove(&index);
        }
    }
}

// The cell is told of this index.
fn is_told(arrivals: &Arrivals, cell: &Cell, index: Index) -> bool
    ensures { result ≡ option_map_or (is_at (cell_cmp cell.now)) (arrival arrivals.now.entries index) false }
{
    match arrivals.get(&index) {
        Some(other) => *cell == *other,
        None => false,
    }
}

/// The waiter that came first, of those that are there and held by this index or a later one.
pub(crate) fn first_arrived<'a>(
    slots: &'a Slots,
    arrivals: &'a Arrivals,
    from: Index,
) -> Option<(&'a Cell, &'a Filled)>
    requires { AreArrived slots.now.map.entries arrivals.now.entries }
    ensures some { IfSome result (λ p. IsFirstOf slots.now.map.entries from p.0.now p.1.now) }
    ensures none { IfNone result ((c : ACell) (f : AFilled) → is_waiter c ≡ true → slot_at slots.now.map.entries c ≡ Some f → f.commit < from) }
{
    for (index, cell) in arrivals.range(from..) {
        if let Some(filled) = waiter_at(slots, cell, *index) {
            return Some((cell, filled));
        }
    }
    None
}

// The waiter, if it is there and held by this index.
fn waiter_at<'a>(slots: &'a Slots, cell: &Cell, index: Index) -> Option<&'a Filled>
    ensures { option_copied result ≡ waiter_held (slot_at slots.now.map.entries cell.now) cell.now index }
{
    match slots.at(cell) {
        Some(filled) => {
            if is_waiter(cell) && index == filled.commit.index() {
                Some(filled)
            } else {
                None
            }
        }
        None => None,
    }
}
