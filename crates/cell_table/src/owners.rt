// The cells of each owner: at least all that it owns. What is told beyond that does no harm.
ghost use Rattle.std.specs.Prelude.{◌≡◌, ℕ, true, false, cond, Some, OnOk, IfSome, IfNone, option_copied, ◌&&◌, ◌==◌};
ghost use Rattle.std.specs.Ordering.{eq_by_cmp, nat_cmp, is_le};
ghost use Rattle.std.specs.BTreeSet.{contains};
ghost use Rattle.host_types.specs.Cells.{cell_cmp, is_owned_by};
ghost use Rattle.host_types.specs.declared.entry.Cell.{Cell as ACell};
ghost use Rattle.cell_table.specs.declared.filled.Filled.{Filled as AFilled};
ghost use Rattle.cell_table.specs.Slots.{slot_at};
ghost use Rattle.cell_table.specs.Owners.{has_cell, AreOwned, if_owned, IsFirstOwned};

use crate::filled::Filled;
use crate::slots::Slots;
use host_types::{Cell, Index, NoMemory};
use std::alloc::{AllocFailed, Global};
use std::collections::{BTreeMap, BTreeSet};

pub(crate) type Owners = BTreeMap<Index, BTreeSet<Cell>>;

/// Adds a cell of this owner. Whatever it answers, nothing is lost.
pub(crate) fn add(
    owners: &mut Owners,
    alloc: Global,
    owner: Index,
    cell: Cell,
) -> Result<(), NoMemory>
    ensures added { OnOk result (has_cell owners.new.entries owner cell ≡ true) }
    ensures kept { (s : ℕ) (c : ACell) → has_cell owners.old.entries s c ≡ true → has_cell owners.new.entries s c ≡ true }
{
    if !owners.contains_key(&owner) {
        owners.insert(owner, BTreeSet::new(alloc))?;
    }
    owners.get_mut(&owner).unwrap().insert(cell)?;
    Ok(())
}

/// Takes a cell of this owner out, and keeps all else.
pub(crate) fn remove(owners: &mut Owners, owner: Index, cell: &Cell)
    ensures { (s : ℕ) (c : ACell) → (owner == s && eq_by_cmp cell_cmp cell.now c) ≡ false → has_cell owners.old.entries s c ≡ true → has_cell owners.new.entries s c ≡ true }
{
    if let Some(cells) = owners.get_mut(&owner) {
        cells.remove(cell);
    }
}

/// Takes all cells of this owner out.
pub(crate) fn take_all(owners: &mut Owners, owner: Index) -> Option<BTreeSet<Cell>>
    ensures some { IfSome result (λ cells. (c : ACell) → has_cell owners.old.entries owner c ≡ contains cell_cmp cells c) }
    ensures none { IfNone result ((c : ACell) → has_cell owners.old.entries owner c ≡ false) }
    ensures others { (s : ℕ) (c : ACell) → (owner == s) ≡ false → has_cell owners.old.entries s c ≡ true → has_cell owners.new.entries s c ≡ true }
{
    owners.remove(&owner)
}

/// The first cell of this owner, at this cell or above it.
pub(crate) fn first_owned<'a>(
    slots: &'a Slots,
    owners: &'a Owners,
    owner: Index,
    from: &Cell,
) -> Option<(&'a Cell, &'a Filled)>
    requires { AreOwned slots.now.map.entries owners.now.entries }
    ensures some { IfSome result (λ p. IsFirstOwned slots.now.map.entries owner from.now p.0.now p.1.now) }
    ensures none { IfNone result ((c : ACell) (f : AFilled) → slot_at slots.now.map.entries c ≡ Some f → is_owned_by owner f.owner ≡ true → is_le (cell_cmp from.now c) ≡ false) }
{
    match owners.get(&owner) {
        Some(cells) => first_among(slots, cells, owner, from),
        None => None,
    }
}

// The first cell of this owner, of which all cells are among these.
fn first_among<'a>(
    slots: &'a Slots,
    cells: &'a BTreeSet<Cell>,
    owner: Index,
    from: &Cell,
) -> Option<(&'a Cell, &'a Filled)>
    requires { (c : ACell) (f : AFilled) → slot_at slots.now.map.entries c ≡ Some f → is_owned_by owner f.owner ≡ true → contains cell_cmp cells.now c ≡ true }
    ensures some { IfSome result (λ p. IsFirstOwned slots.now.map.entries owner from.now p.0.now p.1.now) }
    ensures none { IfNone result ((c : ACell) (f : AFilled) → slot_at slots.now.map.entries c ≡ Some f → is_owned_by owner f.owner ≡ true → is_le (cell_cmp from.now c) ≡ false) }
{
    for cell in cells.range(from..) {
        if let Some(filled) = owned_at(slots, cell, owner) {
            return Some((cell, filled));
        }
    }
    None
}

// What stands at the cell, if this session owns it.
pub(crate) fn owned_at<'a>(slots: &'a Slots, cell: &Cell, owner: Index) -> Option<&'a Filled>
    ensures { option_copied result ≡ if_owned owner (slot_at slots.now.map.entries cell.now) }
{
    match slots.at(cell) {
        Some(filled) => {
            if filled.owner == Some(owner) {
                Some(filled)
            } else {
                None
            }
        }
        None => None,
    }
}
