// The batches that one entry makes: what it tells, session by session.
ghost use Rattle.std.specs.Prelude.{◌≡◌, ℕ, ◌≤◌, Bool, [], ◌∷◌, ◌++◌, ◌&&◌, ◌==◌, cond, map, Some, IfOk, OnOk};
ghost use Rattle.host_types.specs.declared.entry.Event.{Event as AnEvent};
ghost use Rattle.log_model.specs.replay.Replay.{pushed};
ghost use Rattle.session_table.specs.Table.{IsSame, KeepsRoom, reply_room};
ghost use Rattle.host_core.specs.Batching.{AreBatchesOf, CanTakeAll, HaveBatchRoom, batch_at, ended_by, events_in, hears, told_above, told_by};

use event_batches::Events;
use host_types::{Body, Event, Index, NoMemory};
use machine::{Machine, Told};
use session_table::Sessions;
use std::alloc::Global;
use std::collections::BTreeMap;

/// A batch of events for each session that is told something.
pub(crate) type Batches = BTreeMap<Index, Events>;

/// The session that an entry ends.
pub(crate) fn ended_by(body: &Body) -> Option<Index>
    ensures { result ≡ ended_by body.now }
{
    match body {
        Body::Close { session, .. } => Some(*session),
        _ => None,
    }
}

/// What an entry of this index tells whom, if the index is above the cut.
pub(crate) fn told_above<M: Machine>(
    alloc: Global,
    machine: &M,
    index: Index,
    body: &Body,
    cut: Index,
) -> Result<Told, NoMemory>
    ensures { IfOk result (λ told. told ≡ told_above cut index (told_by M.decides (M.cells machine.now) index body.now)) }
{
    if index <= cut {
        return Ok(Told::new(alloc));
    }
    match body {
        Body::Close { session, .. } => machine.tells_close(alloc, *session),
        Body::Command { effect, .. } => machine.tells(alloc, effect, index),
        _ => Ok(Told::new(alloc)),
    }
}

/// Whether a session hears what it is told: it is open, and the entry doesn't end it.
fn hears(sessions: &Sessions, ended: Option<Index>, session: Index) -> bool
    ensures { result ≡ hears ended sessions.now.sessions session }
{
    sessions.find(session).is_some() && ended != Some(session)
}

/// Puts one event more into the batch of a session.
fn add(batches: &mut Batches, alloc: Global, session: Index, event: Event) -> Result<(), NoMemory>
    ensures { OnOk result ((id : ℕ) → batch_at id batches.new.entries ≡ cond (session == id) (Some (events_in id batches.old.entries ++ event ∷ [])) (batch_at id batches.old.entries)) }
{
    if !batches.contains_key(&session) {
        batches.insert(session, Events::new(alloc))?;
    }
    batches.get_mut(&session).unwrap().push(event)?;
    Ok(())
}

/// Puts an event into the batch of its session, for which room is made, if the session hears it.
fn hear(
    batches: &mut Batches,
    sessions: &mut Sessions,
    alloc: Global,
    ended: Option<Index>,
    session: Index,
    event: Event,
) -> Result<(), NoMemory>
    requires room { HaveBatchRoom ended sessions.old batches.old.entries }
    ensures batches { OnOk result ((id : ℕ) → batch_at id batches.new.entries ≡ cond (session == id && hears ended sessions.old.sessions id) (Some (events_in id batches.old.entries ++ event ∷ [])) (batch_at id batches.old.entries)) }
    ensures room { OnOk result (HaveBatchRoom ended sessions.new batches.new.entries) }
    ensures same { IsSame sessions.old sessions.new }
    ensures rooms { (other : ℕ) → KeepsRoom other sessions.old sessions.new }
    ensures spare { sessions.new.spare ≡ sessions.old.spare }
{
    if !hears(sessions, ended, session) {
        drop(event);
        return Ok(());
    }
    sessions.prepare_batch(session)?;
    add(batches, alloc, session, event)
}

/// Groups what is told by session, in one pass, and makes room for each batch. The rest of the sessions stays, whatever it answers.
pub(crate) fn gather(
    alloc: Global,
    sessions: &mut Sessions,
    told: Told,
    ended: Option<Index>,
) -> Result<Batches, NoMemory>
    ensures batches { IfOk result (λ batches. AreBatchesOf told ended sessions.old.sessions batches.entries) }
    ensures room { IfOk result (λ batches. HaveBatchRoom ended sessions.new batches.entries) }
    ensures same { IsSame sessions.old sessions.new }
    ensures rooms { (other : ℕ) → KeepsRoom other sessions.old sessions.new }
    ensures spare { sessions.new.spare ≡ sessions.old.spare }
{
    let mut batches = BTreeMap::new(alloc);
    for (session, event) in told.into_items() {
        hear(&mut batches, sessions, alloc, ended, session, event)?;
    }
    Ok(batches)
}

/// Gives each session its batch. There is room for all of them.
pub(crate) fn push_all(sessions: &mut Sessions, index: Index, mut batches: Batches)
    requires { CanTakeAll index sessions.old batches.entries }
    ensures sessions { sessions.new.sessions ≡ map (λ x. pushed index (events_in x.id batches.entries) x) sessions.old.sessions }
    ensures beside { sessions.new.beside ≡ sessions.old.beside }
    ensures replies { (other : ℕ) → reply_room other sessions.old ≤ reply_room other sessions.new }
{
    while let Some((session, events)) = batches.pop_first() {
        sessions.push(session, index, events);
    }
    drop(batches);
}
