// Those who listen to an instance: what topics and groups have in common.
ghost use Rattle.std.specs.Prelude.{◌≡◌, ℕ, IfOk};
ghost use Rattle.std.specs.Ordering.{nat_cmp};
ghost use Rattle.log_model.specs.plain.Plain.{has_item};
ghost use Rattle.log_model.specs.plain.Rows.{tells_all};
ghost use Rattle.log_model.specs.kinds.Reading.{listeners_in};
ghost use Rattle.queue_topic.specs.Listening.{listen_decision, unlisten_decision};

use cell_table::CellTable;
use host_types::{Cell, Content, Effect, Event, Index, NoMemory, Reply};
use machine::{Decision, Told};
use std::alloc::Global;

/// The session listens.
pub fn listens(table: &CellTable, session: Index) -> bool
    ensures { result ≡ has_item nat_cmp session (listeners_in table.now.instance table.now.cells) }
{
    table.in_order();
    let cell = Cell::Of(session);
    let there = table.contains(&cell);
    drop(cell);
    there
}

/// What is decided where the session asks to listen: its cell is put, unless it listens.
pub fn listen(table: &CellTable, session: Index) -> Decision
    ensures { result ≡ listen_decision table.now.instance session (listeners_in table.now.instance table.now.cells) }
{
    if listens(table, session) {
        Decision {
            effect: Effect::Nothing,
            reply: Reply::Truth(false),
        }
    } else {
        Decision {
            effect: Effect::Put {
                instance: table.instance(),
                cell: Cell::Of(session),
                content: Content::Mark,
                owner: Some(session),
            },
            reply: Reply::Truth(true),
        }
    }
}

/// What is decided where the session asks to listen no more: its cell is dropped, if it listens.
pub fn unlisten(table: &CellTable, session: Index) -> Decision
    ensures { result ≡ unlisten_decision table.now.instance session (listeners_in table.now.instance table.now.cells) }
{
    if listens(table, session) {
        Decision {
            effect: Effect::Drop {
                instance: table.instance(),
                cell: Cell::Of(session),
            },
            reply: Reply::Truth(true),
        }
    } else {
        Decision {
            effect: Effect::Nothing,
            reply: Reply::Truth(false),
        }
    }
}

/// The event for each listener, by rising session.
pub fn tell_listeners(table: &CellTable, alloc: Global, event: &Event) -> Result<Told, NoMemory>
    ensures { IfOk result (λ told. told ≡ tells_all (listeners_in table.now.instance table.now.cells) event.now) }
{
    table.in_order();
    let mut told = Told::new(alloc);
    let least = Cell::Of(0);
    let mut next = table.first_from(&least);
    drop(least);
    while let Some(standing) = next {
        if let Cell::Of(session) = standing.cell {
            told.push((*session, event.copy()?))?;
        }
        next = table.first_above(standing.cell);
    }
    Ok(told)
}
