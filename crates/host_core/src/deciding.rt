// What is decided on an offer.
ghost use Rattle.std.specs.Prelude.{◌≡◌, [], ◌∷◌, length, nat_le, true, false};
ghost use Rattle.log_model.specs.plain.Plain.{session_in};
ghost use Rattle.log_model.specs.plain.Admission.{Admission, Admitted, admits_alive, admits_more, admits_seq, first_refusal, of_session, refused_if, session_limit};
ghost use Rattle.log_model.specs.hosted.Hosted.{choice_body, refused_choice};
ghost use Rattle.host_types.specs.declared.entry.Body.{Body as AnyBody};
ghost use Rattle.host_core.specs.Answers.{AllowsSequence, Decides_as, Judges, asked_admission, asked_body, chosen, error_of};

use host_types::{Ask, Body, Entry, Index, Key, NoMemory, Op, Refusal, Reply, Time};
use machine::{Machine, Refuse};
use session_table::Sessions;
use std::alloc::Global;

/// How many sessions are open at most.
const SESSION_LIMIT: usize = 1024;

/// The greatest sequence of a command.
const SEQUENCE_LIMIT: u64 = 281474976710655;

/// The greatest index.
const LAST_LIMIT: Index = 281474976710655;

/// What is to be done with an offer.
#[derive(Debug, PartialEq, Eq, Drop)]
pub enum Decided {
    /// This entry is to be stored.
    Store(Entry),
    /// It is a command that was stored before, and this was its reply.
    Repeat(Reply),
}

/// Why an offer isn't decided.
#[derive(Clone, Copy, Debug, PartialEq, Eq)]
pub enum DecideError {
    /// It isn't taken.
    Refused(Refusal),
    /// No memory was left.
    NoMemory,
}

/// What is asked, as it is stored, or a reply from before.
#[derive(Drop)]
pub(crate) enum Asked {
    Store(Body),
    Repeat(Reply),
}

impl From<NoMemory> for DecideError {
    ghost use Rattle.host_core.specs.declared.deciding.DecideError.TheVariants as error;

    ghost from_gives = { λ _ e. e ≡ error.NoMemory };

    fn from(_: NoMemory) -> Self {
        DecideError::NoMemory
    }
}

/// A keep-alive acknowledges no less than before, and nothing that its session wasn't sent.
fn decide_alive(
    sessions: &Sessions,
    session: Index,
    seq: u64,
    event: Index,
) -> Result<Asked, DecideError>
    ensures { Judges (of_session session (session_in session sessions.now.sessions) (admits_alive seq event)) (Body.Alive session seq event) result }
{
    let Some(view) = sessions.find(session) else {
        return Err(DecideError::Refused(Refusal::NoSession { session }));
    };
    let is_event = event == view.acked_event || sessions.has_batch(session, event);
    if seq < view.acked_seq || view.seq < seq || !is_event {
        return Err(DecideError::Refused(Refusal::Ack {
            seq: view.acked_seq,
            event: view.acked_event,
        }));
    }
    Ok(Asked::Store(Body::Alive {
        session,
        seq,
        event,
    }))
}

/// The session of an unregister is open.
fn decide_unregister(sessions: &Sessions, session: Index) -> Result<Asked, DecideError>
    ensures { Judges (of_session session (session_in session sessions.now.sessions) (λ _. Admitted)) (Body.Close session false) result }
{
    if sessions.find(session).is_none() {
        return Err(DecideError::Refused(Refusal::NoSession { session }));
    }
    Ok(Asked::Store(Body::Close {
        session,
        expired: false,
    }))
}

/// A register finds room for one more session.
fn decide_register(sessions: &Sessions, timeout: u64) -> Result<Asked, DecideError>
    ensures { Judges (refused_if (nat_le session_limit (length sessions.now.sessions)) Refusal.Sessions) (Body.Register timeout) result }
{
    if sessions.count() >= SESSION_LIMIT {
        return Err(DecideError::Refused(Refusal::Sessions));
    }
    Ok(Asked::Store(Body::Register { timeout }))
}

/// The sequence of a command: it is the session's next one, or one whose reply is kept, which is copied.
fn decide_sequence(
    sessions: &Sessions,
    session: Index,
    seq: u64,
) -> Result<Option<Reply>, DecideError>
    ensures { AllowsSequence (of_session session (session_in session sessions.now.sessions) (admits_seq seq)) result }
{
    let Some(view) = sessions.find(session) else {
        return Err(DecideError::Refused(Refusal::NoSession { session }));
    };
    if seq <= view.acked_seq {
        return Err(DecideError::Refused(Refusal::Forgotten {
            acked: view.acked_seq,
        }));
    }
    if seq <= view.seq {
        return match sessions.cached(session, seq) {
            Some(reply) => Ok(Some(reply.copy()?)),
            None => Err(DecideError::Refused(Refusal::Forgotten {
                acked: view.acked_seq,
            })),
        };
    }
    if seq - 1 > view.seq || seq > SEQUENCE_LIMIT {
        return Err(DecideError::Refused(Refusal::Gap { next: view.seq + 1 }));
    }
    Ok(None)
}

/// A machine's refusal, as one of an offer.
fn refused(why: Refuse) -> DecideError
    ensures { result ≡ error_of why }
{
    match why {
        Refuse::NoName => DecideError::Refused(Refusal::NoName),
        Refuse::Kind { is } => DecideError::Refused(Refusal::Kind { is }),
        Refuse::Names => DecideError::Refused(Refusal::Names),
        Refuse::Range { value } => DecideError::Refused(Refusal::Range { value }),
        Refuse::NoMemory => DecideError::NoMemory,
    }
}

/// A command under its sequence: it repeats, or the machine decides it.
fn decide_command<M: Machine>(
    alloc: Global,
    machine: &M,
    sessions: &Sessions,
    session: Index,
    seq: u64,
    name: &Key,
    op: &Op,
    index: Index,
) -> Result<Asked, DecideError>
    ensures { Judges (first_refusal (of_session session (session_in session sessions.now.sessions) (admits_seq seq) ∷ refused_choice (chosen M.decides (M.cells machine.now) name.now op.now session index) ∷ []))
        (choice_body session seq (chosen M.decides (M.cells machine.now) name.now op.now session index)) result }
{
    if let Some(reply) = decide_sequence(sessions, session, seq)? {
        return Ok(Asked::Repeat(reply));
    }
    match machine.resolve(alloc, name, op, session, index) {
        Ok(decision) => Ok(Asked::Store(Body::Command {
            session,
            seq,
            effect: decision.effect,
            reply: decision.reply,
        })),
        Err(why) => Err(refused(why)),
    }
}

/// What is asked, by itself: without its time, and without the end of the log.
pub(crate) fn decide_ask<M: Machine>(
    alloc: Global,
    machine: &M,
    sessions: &Sessions,
    ask: &Ask,
    index: Index,
) -> Result<Asked, DecideError>
    ensures { Judges (asked_admission M.decides (M.cells machine.now) sessions.now.sessions index ask.now) (asked_body M.decides (M.cells machine.now) index ask.now) result }
{
    match ask {
        Ask::Register { timeout } => decide_register(sessions, *timeout),
        Ask::Alive {
            session,
            seq,
            event,
        } => decide_alive(sessions, *session, *seq, *event),
        Ask::Unregister { session } => decide_unregister(sessions, *session),
        Ask::Tick => Ok(Asked::Store(Body::Tick)),
        Ask::Command {
            session,
            seq,
            name,
            op,
        } => decide_command(alloc, machine, sessions, *session, *seq, name, op, index),
    }
}

/// What was asked at this time, behind this last index: it is stored, unless the log is at its end.
pub(crate) fn decide_at_end(
    asked: Result<Asked, DecideError>,
    time: Time,
    last: Index,
) -> Result<Decided, DecideError>
    ensures { (admission : Admission) (body : AnyBody) → Judges admission body asked → Decides_as (first_refusal (admission ∷ admits_more last ∷ [])) (record { time = time; body = body }) result }
{
    match asked {
        Ok(Asked::Store(body)) => {
            if last >= LAST_LIMIT {
                return Err(DecideError::Refused(Refusal::LogEnd));
            }
            Ok(Decided::Store(Entry { time, body }))
        }
        Ok(Asked::Repeat(reply)) => Ok(Decided::Repeat(reply)),
        Err(why) => Err(why),
    }
}
