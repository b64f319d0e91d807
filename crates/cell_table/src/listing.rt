// The cells as they are listed.
ghost use Rattle.std.specs.Prelude.{◌≡◌, ◌++◌, [], OnOk, OnErr, length, take};
ghost use Rattle.machine.specs.Listing.{listed};
ghost use Rattle.cell_table.specs.Slots.{with_slot, shown};

use crate::filled::Filled;
use crate::slots::Slots;
use host_types::{Cell, Index, NoMemory};
use machine::Place;

// Appends a cell, if something stands there.
fn list_one(
    instance: Index,
    cell: &Cell,
    slot: &Option<Filled>,
    out: &mut Vec<Place>,
) -> Result<(), NoMemory>
    ensures ok { OnOk result (out.new.items ≡ out.old.items ++ listed (with_slot instance cell.now slot.now [])) }
    ensures err { OnErr result (out.new.items ≡ out.old.items) }
{
    if let Some(filled) = slot {
        out.push(Place {
            instance,
            cell: cell.copy()?,
            index: filled.commit.index(),
            content: filled.content.copy()?,
            owner: filled.owner,
        })?;
    }
    Ok(())
}

/// Appends each cell once, by rising cell. After an error some of them may stand behind what was there.
pub(crate) fn list_all(instance: Index, slots: &Slots, out: &mut Vec<Place>) -> Result<(), NoMemory>
    ensures ok { OnOk result (out.new.items ≡ out.old.items ++ listed (shown instance slots.now.map.entries)) }
    ensures begins { take (length out.old.items) out.new.items ≡ out.old.items }
{
    for (cell, slot) in slots.map.iter() {
        list_one(instance, cell, slot, out)?;
    }
    Ok(())
}
