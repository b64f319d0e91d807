// What the one cell holds.
ghost use Rattle.std.specs.Prelude.{◌≡◌, option_copied};
ghost use Rattle.host_types.specs.Cells.{Cell_at};
ghost use Rattle.host_types.specs.declared.entry.Cell.TheVariants.{One};
ghost use Rattle.log_model.specs.kinds.Shows.{content_at};

use cell_table::CellTable;
use host_types::{Cell, Content};

/// What the one cell of a value or a counter holds.
pub(crate) fn content(table: &CellTable) -> Option<&Content>
    ensures { option_copied result ≡ content_at table.now.cells (Cell_at table.now.instance One) }
{
    let cell = Cell::One;
    let content = table.content(&cell);
    drop(cell);
    content
}
