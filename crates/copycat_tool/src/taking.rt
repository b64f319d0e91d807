// The client of a session takes what the session is served.
ghost use Rattle.std.specs.Prelude.{◌≡◌, ◌≤◌, ◌∷◌, [], IsTrue, IfOk, OnOk, Some, false};
ghost use Rattle.log_model.specs.serving.Batches.{Batch as ABatch};
ghost use Rattle.event_batches.specs.Kept.{as_batch};
ghost use Rattle.session_table.specs.Asked.{batch_at};
ghost use Rattle.session_table.specs.Table.{IsOpen};
ghost use Rattle.copycat_tool.specs.Report.{Run, after, take_answer};
ghost use Rattle.copycat_tool.specs.Runs.{Files};
ghost use Rattle.copycat_tool.specs.RunStanding.{IsAt};
ghost use Rattle.copycat_tool.specs.ClientTakes.{ArePut, Comes, HasClients, HasTaken, IsConfirmed, IsStill, Keeps, event_lines};
ghost use Rattle.copycat_tool.specs.Turning.{Answers, IsPart};

use crate::clients::Clients;
use crate::ending::Ending;
use crate::texts::put_answer;
use disk_model::Disk;
use event_batches::{Batch, Client, Take};
use host_recovery::{Host, NoSession};
use host_types::{Index, NoMemory, Refusal};
use log_model::{plain_machines_are_plain, serves_in_turn};
use resource_catalog::{Catalog, catalog_is_plain};
use script_io::Sink;
use script_text::Printed;

/// What comes for a client, once it has confirmed what it knows.
#[derive(Clone, Copy, Debug, PartialEq, Eq)]
pub enum Next {
    /// Nothing is left.
    Nothing,
    /// The batch that is served follows the last one, and is taken.
    Taken,
    /// A batch is missing: the client took `last` at last, and the batch that is served follows `after`.
    Missed { last: Index, after: Index },
}

/// Confirms the batch that is served, by its index.
fn confirm<D: Disk>(session: Index, event: Index, host: &mut Host<D, Catalog>)
    requires is_open { IsOpen session host.old.core.sessions }
    requires served { (b : ABatch) × (batch_at session host.old.core.sessions ≡ Some b) × (b.index ≡ event) }
    ensures still { IsStill host.old host.new }
    ensures confirmed { IsConfirmed D.view session event host.old host.new }
{
    match host.ack(session, event) {
        Ok(()) => {}
        Err(_) => unreachable!(),
    }
}

/// The client confirms what it knows of what its session is served, and this comes then.
fn next_for<D: Disk>(
    session: Index,
    client: &mut Client,
    host: &mut Host<D, Catalog>,
) -> Result<Next, NoSession>
    ensures is_open { OnOk result (IsOpen session host.new.core.sessions) }
    ensures still { IsStill host.old host.new }
    ensures taken { IfOk result (λ next. HasTaken next session host.new.core.sessions client.new.last) }
    ensures comes { IsTrue D.tells → (files : Files) (run : Run) → IsAt D.view files host.old run
        → Comes D.view files session host.old host.new run client.old.last client.new.last result }
{
    catalog_is_plain();
    plain_machines_are_plain();
    serves_in_turn();
    loop {
        let batch = match host.serve(session) {
            Ok(Some(batch)) => batch,
            Ok(None) => return Ok(Next::Nothing),
            Err(why) => return Err(why),
        };
        match client.take(batch) {
            Take::Taken => return Ok(Next::Taken),
            Take::Missed { last } => {
                return Ok(Next::Missed {
                    last,
                    after: batch.previous,
                });
            }
            Take::Repeat => {}
        }
        let event = batch.index;
        confirm(session, event, host);
    }
}

/// Prints the events of a batch that the client of a session took.
fn put_events<O: Sink>(
    session: Index,
    batch: &Batch,
    text: &mut Vec<u8>,
    out: &mut O,
) -> Result<(), Ending>
    ensures put { ArePut (O.written out.old) (O.written out.new) (O.faults out.old) (O.faults out.new) (event_lines session (as_batch batch.now)) result }
    ensures later { O.faults out.old ≤ O.faults out.new }
{
    let events = &batch.events;
    for place in 0..events.len() {
        let Ok(event) = events.at(place).copy() else {
            return Err(Ending::NoMemory);
        };
        let line = Printed::Event {
            session,
            index: batch.index,
            previous: batch.previous,
            event,
        };
        match put_answer(line, text, out) {
            Ok(()) => {}
            Err(ending) => return Err(ending),
        }
    }
    Ok(())
}

/// Prints the batch that is served, and confirms it. The client has taken it.
fn take_served<D: Disk, O: Sink>(
    session: Index,
    client: Client,
    host: &mut Host<D, Catalog>,
    clients: &mut Clients,
    text: &mut Vec<u8>,
    out: &mut O,
) -> Result<(), Ending>
    requires is_open { IsOpen session host.old.core.sessions }
    requires served { (b : ABatch) × (batch_at session host.old.core.sessions ≡ Some b) × (b.index ≡ client.last) }
    ensures put { (b : ABatch) → batch_at session host.old.core.sessions ≡ Some b
        → ArePut (O.written out.old) (O.written out.new) (O.faults out.old) (O.faults out.new) (event_lines session b) result }
    ensures later { O.faults out.old ≤ O.faults out.new }
    ensures still { IsStill host.old host.new }
    ensures confirmed { OnOk result (IsConfirmed D.view session client.last host.old host.new) }
    ensures clients { OnOk result (Keeps session client.last clients.old clients.new) }
{
    match clients.keep(session, client) {
        Ok(()) => {}
        Err(NoMemory) => return Err(Ending::NoMemory),
    }
    match host.serve(session) {
        Ok(Some(batch)) => match put_events(session, batch, text, out) {
            Ok(()) => {}
            Err(ending) => return Err(ending),
        },
        Ok(None) | Err(_) => unreachable!(),
    }
    confirm(session, client.last(), host);
    Ok(())
}

/// Answers a line that hands the next batch of a session to its client.
pub fn answer_take<D: Disk, O: Sink>(
    session: Index,
    host: &mut Host<D, Catalog>,
    clients: &mut Clients,
    text: &mut Vec<u8>,
    out: &mut O,
) -> Result<(), Ending>
    requires runs { host.old.stopped ≡ false }
    ensures { IsPart D.tells D.view D.faults host.old host.new (O.faults out.old) (O.faults out.new) result (λ files run. HasClients run clients.old
        → Answers D.view files (take_answer run session ∷ []) host.old host.new run (O.written out.old) (O.written out.new) result
        × OnOk result (HasClients (after files.size run (take_answer run session ∷ [])) clients.new)) }
{
    let mut client = clients.of(session);
    match next_for(session, &mut client, host) {
        Ok(Next::Taken) => take_served(session, client, host, clients, text, out),
        Ok(Next::Nothing) => put_answer(Printed::Nothing { session }, text, out),
        Ok(Next::Missed { last, after }) => put_answer(
            Printed::Missed {
                session,
                last,
                after,
            },
            text,
            out,
        ),
        Err(NoSession) => put_answer(Printed::Refused(Refusal::NoSession { session }), text, out),
    }
}
