// One line of a script: it is answered, or the run ends there.
ghost use Rattle.std.specs.Prelude.{◌≡◌, ◌∷◌, [], OnOk, false, true};
ghost use Rattle.host_types.specs.Decision.{is_looking};
ghost use Rattle.copycat_tool.specs.Script.{IsFit};
ghost use Rattle.copycat_tool.specs.Report.{admission, after, answer_by, answers_to, look_answer, offered, reopening};
ghost use Rattle.copycat_tool.specs.ClientTakes.{HasClients};
ghost use Rattle.copycat_tool.specs.Turning.{Answers, Expires_all, IsPart, Turns};

use crate::calls::{Expiring, expire_next, look, make_offer, quiet_of, reopen};
use crate::census::answer_census;
use crate::clients::Clients;
use crate::ending::Ending;
use crate::lines::{Command, read_command};
use crate::taking::answer_take;
use crate::texts::put_answer;
use disk_model::Disk;
use host_recovery::Host;
use host_types::{Key, NoMemory, Offer, Op, Refusal, Time};
use resource_catalog::Catalog;
use script_io::Sink;
use script_text::Printed;
use std::alloc::Global;

/// Whoever is due at this time expires, one after the other, each with a line of its own. Answers why the rest doesn't, if so.
fn expire_all<D: Disk, O: Sink>(
    alloc: Global,
    time: Time,
    host: &mut Host<D, Catalog>,
    text: &mut Vec<u8>,
    out: &mut O,
) -> Result<Option<Refusal>, Ending>
    requires runs { host.old.stopped ≡ false }
    ensures { IsPart D.tells D.view D.faults host.old host.new (O.faults out.old) (O.faults out.new) result (λ files run.
        Expires_all D.view files time host.old host.new run (O.written out.old) (O.written out.new) result) }
{
    loop {
        match expire_next(alloc, time, host) {
            Ok(Expiring::Session { index, session }) => {
                match put_answer(Printed::Expired { index, session }, text, out) {
                    Ok(()) => {}
                    Err(ending) => return Err(ending),
                }
            }
            Ok(Expiring::Nobody) => return Ok(None),
            Ok(Expiring::Refused(why)) => return Ok(Some(why)),
            Err(ending) => return Err(ending),
        }
    }
}

/// Offers this, and prints the answer.
fn answer_offer<D: Disk, O: Sink>(
    alloc: Global,
    one: &Offer,
    host: &mut Host<D, Catalog>,
    text: &mut Vec<u8>,
    out: &mut O,
) -> Result<(), Ending>
    requires runs { host.old.stopped ≡ false }
    ensures { IsPart D.tells D.view D.faults host.old host.new (O.faults out.old) (O.faults out.new) result (λ files run.
        Answers D.view files (answer_by (admission run one.now) run one.now ∷ []) host.old host.new run (O.written out.old) (O.written out.new) result) }
{
    match make_offer(alloc, one, host) {
        Ok(told) => put_answer(told, text, out),
        Err(ending) => Err(ending),
    }
}

/// Answers a line that offers something: first whoever is due expires. Where somebody would expire and can't, that is the answer.
fn answer_line_of_offer<D: Disk, O: Sink>(
    alloc: Global,
    one: &Offer,
    host: &mut Host<D, Catalog>,
    text: &mut Vec<u8>,
    out: &mut O,
) -> Result<(), Ending>
    requires runs { host.old.stopped ≡ false }
    ensures { IsPart D.tells D.view D.faults host.old host.new (O.faults out.old) (O.faults out.new) result (λ files run.
        Answers D.view files (offered files.size run one.now) host.old host.new run (O.written out.old) (O.written out.new) result) }
{
    match expire_all(alloc, one.time, host, text, out) {
        Ok(None) => answer_offer(alloc, one, host, text, out),
        Ok(Some(why)) => put_answer(Printed::Refused(why), text, out),
        Err(ending) => Err(ending),
    }
}

/// Answers a line that only looks.
fn answer_look<D: Disk, O: Sink>(
    alloc: Global,
    name: &Key,
    op: &Op,
    host: &mut Host<D, Catalog>,
    text: &mut Vec<u8>,
    out: &mut O,
) -> Result<(), Ending>
    requires runs { host.old.stopped ≡ false }
    requires looks { is_looking op.now ≡ true }
    ensures { IsPart D.tells D.view D.faults host.old host.new (O.faults out.old) (O.faults out.new) result (λ files run.
        Answers D.view files (look_answer run name.now op.now ∷ []) host.old host.new run (O.written out.old) (O.written out.new) result) }
{
    match look(alloc, name, op, host) {
        Ok(answer) => put_answer(answer, text, out),
        Err(ending) => Err(ending),
    }
}

/// Closes the log and opens it again, and prints its last index.
fn answer_reopen<D: Disk, O: Sink>(
    alloc: Global,
    host: &mut Host<D, Catalog>,
    text: &mut Vec<u8>,
    out: &mut O,
) -> Result<(), Ending>
    requires runs { host.old.stopped ≡ false }
    ensures { IsPart D.tells D.view D.faults host.old host.new (O.faults out.old) (O.faults out.new) result (λ files run.
        Answers D.view files (reopening run ∷ []) host.old host.new run (O.written out.old) (O.written out.new) result) }
{
    match reopen(alloc, host) {
        Ok(answer) => put_answer(answer, text, out),
        Err(ending) => Err(ending),
    }
}

/// Does what a line asks, and prints the answers.
fn answer_command<D: Disk, O: Sink>(
    alloc: Global,
    asked: &Command,
    host: &mut Host<D, Catalog>,
    clients: &mut Clients,
    text: &mut Vec<u8>,
    out: &mut O,
) -> Result<(), Ending>
    requires runs { host.old.stopped ≡ false }
    requires fit { IsFit asked.now }
    ensures { IsPart D.tells D.view D.faults host.old host.new (O.faults out.old) (O.faults out.new) result (λ files run. HasClients run clients.old
        → Answers D.view files (answers_to files.size run asked.now) host.old host.new run (O.written out.old) (O.written out.new) result
        × OnOk result (HasClients (after files.size run (answers_to files.size run asked.now)) clients.new)) }
{
    match asked {
        Command::Skip => Ok(()),
        Command::Offer(one) => answer_line_of_offer(alloc, one, host, text, out),
        Command::Ask { name, op } => answer_look(alloc, name, op, host, text, out),
        Command::Take { session } => answer_take(*session, host, clients, text, out),
        Command::Census => answer_census(host, text, out),
        Command::Quiet => put_answer(quiet_of(host), text, out),
        Command::Reopen => answer_reopen(alloc, host, text, out),
    }
}

/// Answers one line: what it offers is stored first, and the answer is printed then.
pub fn turn<D: Disk, O: Sink>(
    alloc: Global,
    line: &[u8],
    number: u64,
    host: &mut Host<D, Catalog>,
    clients: &mut Clients,
    text: &mut Vec<u8>,
    out: &mut O,
) -> Result<(), Ending>
    requires runs { host.old.stopped ≡ false }
    ensures { IsPart D.tells D.view D.faults host.old host.new (O.faults out.old) (O.faults out.new) result (λ files run. HasClients run clients.old
        → Turns D.view files line.now number host.old host.new run (O.written out.old) (O.written out.new) clients.new result) }
{
    match read_command(alloc, line) {
        Ok(Some(asked)) => answer_command(alloc, &asked, host, clients, text, out),
        Ok(None) => Err(Ending::Fault { line: number }),
        Err(NoMemory) => Err(Ending::NoMemory),
    }
}
