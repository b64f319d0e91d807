// What a host answers.
ghost use Rattle.std.specs.Prelude.{◌≡◌, IfOk};
ghost use Rattle.host_recovery.specs.Answers.{answer_of};

use host_types::{Body, Index, Kind, NoMemory, Refusal, Reply};

/// The answer to an offer.
#[derive(Debug, PartialEq, Eq, Drop)]
pub enum Answer {
    /// A session was opened. Its id is the index of its entry.
    Session(Index),
    /// It is stored at this index.
    Done(Index),
    /// A command is stored at this index, and this is its reply.
    Replied { index: Index, reply: Reply },
    /// A command that was stored before, and its reply of then.
    Repeat(Reply),
}

/// Why an offer or an expiry isn't stored.
#[derive(Clone, Copy, Debug, PartialEq, Eq)]
pub enum HostError {
    /// The host is stopped: the disk failed before, or a call of the disk found no memory.
    Stopped,
    /// It isn't taken, and nothing has changed.
    Refused(Refusal),
    /// No memory was left. Where a call of the disk found none the host is stopped; else all is as before.
    NoMemory,
    /// The disk failed. The host is stopped, and what it shows is as before.
    Disk,
}

/// Why nothing is shown of a name.
#[derive(Clone, Copy, Debug, PartialEq, Eq)]
pub enum AskError {
    /// The host is stopped.
    Stopped,
    /// No resource has this name.
    NoName,
    /// The resource is of this kind, which doesn't have the operation.
    Kind { is: Kind },
    /// No memory was left.
    NoMemory,
}

/// The answer to an offer whose entry with this body is stored at this index.
pub(crate) fn answer_to(index: Index, body: &Body) -> Result<Answer, NoMemory>
    ensures { IfOk result (λ answer. answer ≡ answer_of index body.now) }
{
    Ok(match body {
        Body::Register { .. } => Answer::Session(index),
        Body::Command { reply, .. } => Answer::Replied {
            index,
            reply: reply.copy()?,
        },
        _ => Answer::Done(index),
    })
}
