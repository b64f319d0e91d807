// The pairs of a key.
ghost use Rattle.std.specs.Prelude.{◌≡◌, [], true, IfOk, OnOk};
ghost use Rattle.host_types.specs.declared.entry.Cell.TheVariants.{Pair};
ghost use Rattle.cell_table.specs.Pairs.{is_pair_of, is_spelled, least_word, AreSpelled, ListsPairs};

use crate::slots::Slots;
use host_types::{Cell, Key, NoMemory, Word};
use std::alloc::Global;

// The cell is a pair of the key.
fn is_pair_of(key: &Key, cell: &Cell) -> bool
    ensures { result ≡ is_pair_of key.now cell.now }
{
    match cell {
        Cell::Pair(other, _) => key.cmp(other).is_eq(),
        _ => false,
    }
}

/// A word of a pair isn't below the least word: its type says so.
pub(crate) fn spelled(cell: &Cell)
    ensures { is_spelled cell.now ≡ true }
{
    if let Cell::Pair(_, word) = cell {
        let _bytes = word.bytes();
    }
}

/// Where the pairs of a key begin: no cell of the key's pairs is below this one.
pub fn least_pair(alloc: Global, key: &Key) -> Result<Cell, NoMemory>
    ensures { IfOk result (λ cell. cell ≡ Pair key.now least_word) }
{
    match Word::new(alloc, b"!") {
        Ok(word) => Ok(Cell::Pair(key.copy()?, word)),
        Err(_) => Err(NoMemory),
    }
}

// Lists the pairs of a key, from the least pair on.
fn list_from(slots: &Slots, from: &Cell, key: &Key, listed: &mut Vec<Cell>) -> Result<(), NoMemory>
    requires spelled { AreSpelled slots.now.map.entries }
    requires least { from.now ≡ Pair key.now least_word }
    requires empty { listed.old.items ≡ [] }
    ensures { OnOk result (ListsPairs key.now slots.now.map.entries listed.new.items) }
{
    for (cell, _) in slots.map.range(from..) {
        if !is_pair_of(key, cell) {
            return Ok(());
        }
        listed.push(cell.copy()?)?;
    }
    Ok(())
}

/// Lists the pairs of a key.
pub(crate) fn list_pairs(
    slots: &Slots,
    alloc: Global,
    key: &Key,
    listed: &mut Vec<Cell>,
) -> Result<(), NoMemory>
    requires spelled { AreSpelled slots.now.map.entries }
    requires empty { listed.old.items ≡ [] }
    ensures { OnOk result (ListsPairs key.now slots.now.map.entries listed.new.items) }
{
    let from = least_pair(alloc, key)?;
    let done = list_from(slots, &from, key, listed);
    drop(from);
    done
}
