// Calls on the host over the catalog, and what is printed of their answers.
ghost use Rattle.std.specs.Prelude.{◌≡◌, ◌∷◌, [], false, true, IsTrue, IfOk, IfErr, Err, length};
ghost use Rattle.host_types.specs.Decision.{is_looking};
ghost use Rattle.script_text.specs.Printing.{HasRange, printed_text};
ghost use Rattle.copycat_tool.specs.Report.{Run, admission, answer_by, look_answer, quiet_answer, reopening};
ghost use Rattle.copycat_tool.specs.Runs.{Files};
ghost use Rattle.copycat_tool.specs.RunStanding.{IsAt};
ghost use Rattle.copycat_tool.specs.Turning.{IsPart};
ghost use Rattle.copycat_tool.specs.HostCalls.{Expires_next, HasFewer, Makes, error_told, expiry_told, offer_told};

use crate::ending::Ending;
use disk_model::Disk;
use host_recovery::{Answer, AskError, Host, HostError};
use host_types::{Index, Key, Offer, Op, Refusal, Time};
use log_model::{logs_are_sound, plain_machines_are_plain};
use resource_catalog::{Catalog, catalog_is_plain};
use script_text::Printed;
use std::alloc::Global;

/// Who expired.
#[derive(Clone, Copy, Debug, PartialEq, Eq)]
pub enum Expiring {
    /// This session, by the entry of this index.
    Session { index: Index, session: Index },
    /// Nobody: nobody is due.
    Nobody,
    /// Nobody, for this reason.
    Refused(Refusal),
}

/// What an error of a host that runs is to the run: a refusal is an answer, all else ends it.
fn told_error(error: HostError) -> Result<Refusal, Ending>
    requires runs { error ≡ HostError.Stopped → ⊥ }
    ensures { result ≡ error_told error }
{
    match error {
        HostError::Stopped => unreachable!(),
        HostError::Refused(why) => Ok(why),
        HostError::NoMemory => Err(Ending::NoMemory),
        HostError::Disk => Err(Ending::DiskFault),
    }
}

/// What is printed of an answer to an offer.
fn told_offer(answer: Result<Answer, HostError>) -> Result<Printed, Ending>
    requires runs { answer ≡ Err HostError.Stopped → ⊥ }
    ensures told { result ≡ offer_told answer }
    ensures plain { IfOk result HasRange }
{
    match answer {
        Ok(Answer::Session(index)) => Ok(Printed::Session { index }),
        Ok(Answer::Done(index)) => Ok(Printed::Done { index }),
        Ok(Answer::Replied { index, reply }) => Ok(Printed::Replied { index, reply }),
        Ok(Answer::Repeat(reply)) => Ok(Printed::Repeat { reply }),
        Err(error) => match told_error(error) {
            Ok(why) => Ok(Printed::Refused(why)),
            Err(ending) => Err(ending),
        },
    }
}

/// What an expiry is to the run.
fn told_expiry(answer: Result<Option<(Index, Index)>, HostError>) -> Result<Expiring, Ending>
    requires runs { answer ≡ Err HostError.Stopped → ⊥ }
    ensures { result ≡ expiry_told answer }
{
    match answer {
        Ok(Some((index, session))) => Ok(Expiring::Session { index, session }),
        Ok(None) => Ok(Expiring::Nobody),
        Err(error) => match told_error(error) {
            Ok(why) => Ok(Expiring::Refused(why)),
            Err(ending) => Err(ending),
        },
    }
}

/// Offers this to the host. It is answered by its admission; what is stored is printed with its index.
pub fn make_offer<D: Disk>(
    alloc: Global,
    one: &Offer,
    host: &mut Host<D, Catalog>,
) -> Result<Printed, Ending>
    requires runs { host.old.stopped ≡ false }
    ensures plain { IfOk result HasRange }
    ensures part { IsPart D.tells D.view D.faults host.old host.new 0 0 result (λ files run.
        Makes D.view files (answer_by (admission run one.now) run one.now) host.old host.new run result) }
{
    catalog_is_plain();
    plain_machines_are_plain();
    one.fits();
    let answer = host.offer(alloc, one);
    host.keeps();
    told_offer(answer)
}

/// The due session with the least id expires, if one is due at this time.
pub fn expire_next<D: Disk>(
    alloc: Global,
    time: Time,
    host: &mut Host<D, Catalog>,
) -> Result<Expiring, Ending>
    requires runs { host.old.stopped ≡ false }
    ensures fewer { IfOk result (λ who. HasFewer who (length host.old.core.sessions.sessions) (length host.new.core.sessions.sessions)) }
    ensures part { IsPart D.tells D.view D.faults host.old host.new 0 0 result (λ files run. Expires_next D.view files time host.old host.new run result) }
{
    catalog_is_plain();
    plain_machines_are_plain();
    logs_are_sound();
    let answer = host.expire(alloc, time);
    host.keeps();
    told_expiry(answer)
}

/// What an operation shows that only looks.
pub fn look<D: Disk>(
    alloc: Global,
    name: &Key,
    op: &Op,
    host: &Host<D, Catalog>,
) -> Result<Printed, Ending>
    requires runs { host.now.stopped ≡ false }
    requires looks { is_looking op.now ≡ true }
    ensures plain { IfOk result HasRange }
    ensures answered { IsTrue D.tells → (files : Files) (run : Run) → IsAt D.view files host.now run
        → IfOk result (λ printed. (look_answer run name.now op.now).lines ≡ printed_text printed ∷ []) }
    ensures ending { IfErr result (λ ending. ending ≡ Ending.NoMemory) }
{
    catalog_is_plain();
    plain_machines_are_plain();
    match host.ask(alloc, name, op) {
        Ok(reply) => Ok(Printed::Answer { reply }),
        Err(AskError::Stopped) => unreachable!(),
        Err(AskError::NoName) => Ok(Printed::Refused(Refusal::NoName)),
        Err(AskError::Kind { is }) => Ok(Printed::Refused(Refusal::Kind { is })),
        Err(AskError::NoMemory) => Err(Ending::NoMemory),
    }
}

/// The index up to which nobody waits for a reply or an event.
pub fn quiet_of<D: Disk>(host: &Host<D, Catalog>) -> Printed
    ensures plain { HasRange result }
    ensures answered { IsTrue D.tells → (files : Files) (run : Run) → IsAt D.view files host.now run
        → (quiet_answer run).lines ≡ printed_text result ∷ [] }
{
    catalog_is_plain();
    plain_machines_are_plain();
    Printed::Quiet {
        index: host.quiet(),
    }
}

/// Closes the log and opens it again.
pub fn reopen<D: Disk>(alloc: Global, host: &mut Host<D, Catalog>) -> Result<Printed, Ending>
    requires runs { host.old.stopped ≡ false }
    ensures plain { IfOk result HasRange }
    ensures part { IsPart D.tells D.view D.faults host.old host.new 0 0 result (λ files run. Makes D.view files (reopening run) host.old host.new run result) }
{
    catalog_is_plain();
    plain_machines_are_plain();
    let opened = host.reopen(alloc, Catalog::new(alloc));
    host.keeps();
    match opened {
        Ok(()) => Ok(Printed::Opened { last: host.last() }),
        Err(error) => Err(Ending::of_opening(error)),
    }
}
