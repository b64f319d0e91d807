// A core over a machine that tells: which batches its sessions are served, and what becomes of them.
ghost use Rattle.std.specs.Prelude.{◌≡◌, ◌+◌};
ghost use Rattle.host_types.specs.Ranges.{EntryFits, IsInRange};

use crate::checks::{key, same};
use crate::teller::Teller;
use host_core::{Core, Decided};
use host_types::{Ask, Body, Effect, Entry, Event, Index, Offer, Op, Reply};
use machine::Machine;
use std::alloc::Global;
use std::process::Abort;

/// Applies an entry as the next one.
fn store<M: Machine>(rt: &impl Abort, core: &mut Core<M>, alloc: Global, entry: Entry)
    requires fits { EntryFits entry }
    requires range { IsInRange (core.old.last + 1) entry }
{
    let index = core.last() + 1;
    let prepared = core.reserve(alloc, index, &entry).expect(rt, "memory");
    core.apply(index, entry, prepared);
}

/// Makes an offer that is stored.
fn offer<M: Machine>(rt: &impl Abort, core: &mut Core<M>, alloc: Global, ask: Ask) {
    let offer = Offer { time: 0, ask };
    match core.decide(alloc, &offer) {
        Ok(Decided::Store(entry)) => store(rt, core, alloc, entry),
        _ => panic!(rt; "it isn't stored"),
    }
    drop(offer);
}

fn register<M: Machine>(rt: &impl Abort, core: &mut Core<M>, alloc: Global) {
    offer(rt, core, alloc, Ask::Register { timeout: 100 });
}

/// A command of session 1.
fn command<M: Machine>(rt: &impl Abort, core: &mut Core<M>, alloc: Global, seq: u64) {
    let name = key(rt, alloc, b"t");
    let ask = Ask::Command {
        session: 1,
        seq,
        name,
        op: Op::Peek,
    };
    offer(rt, core, alloc, ask);
}

/// A keep-alive that acknowledges an event.
fn alive<M: Machine>(
    rt: &impl Abort,
    core: &mut Core<M>,
    alloc: Global,
    session: Index,
    event: Index,
) {
    let ask = Ask::Alive {
        session,
        seq: 0,
        event,
    };
    offer(rt, core, alloc, ask);
}

/// The batch that a session is served: its index, the index before it, and the members that it tells of. Nothing if there is none.
fn served<M: Machine>(rt: &impl Abort, core: &Core<M>, alloc: Global, session: Index) -> Vec<u64> {
    let mut found = Vec::new(alloc);
    core.sessions().find(session).expect(rt, "a session");
    if let Some(batch) = core.sessions().batch(session) {
        found.push(batch.index).expect(rt, "memory");
        found.push(batch.previous).expect(rt, "memory");
        for place in 0..batch.events.len() {
            if let Event::Left { member, .. } = batch.events.at(place) {
                found.push(*member).expect(rt, "memory");
            }
        }
    }
    found
}

/// Asserts which batch a session is served.
fn serves<M: Machine>(
    rt: &impl Abort,
    core: &Core<M>,
    alloc: Global,
    session: Index,
    wanted: &[u64],
) {
    let found = served(rt, core, alloc, session);
    same(rt, (session, found.as_slice()), (session, wanted));
    drop(found);
}

/// Asserts what a direct acknowledgement answers.
fn confirm<M: Machine>(
    rt: &impl Abort,
    core: &mut Core<M>,
    session: Index,
    event: Index,
    wanted: Result<(), Index>,
) {
    core.sessions().find(session).expect(rt, "a session");
    let found = core.confirm(session, event);
    same(rt, found, wanted);
}

/// Three sessions, and two commands of the first. Session 9, which is told as well, isn't open.
fn three_are_told(rt: &impl Abort, alloc: Global) -> Core<Teller> {
    let mut core = Core::new(alloc, Teller);
    register(rt, &mut core, alloc);
    register(rt, &mut core, alloc);
    register(rt, &mut core, alloc);
    command(rt, &mut core, alloc, 1);
    command(rt, &mut core, alloc, 2);
    core
}

#[test]
fn each_session_has_its_batch(rt: HostRuntime) {
    let a = rt.alloc();
    let mut core = three_are_told(&rt, a);
    serves(&rt, &core, a, 1, &[4, 1, 11, 15]);
    serves(&rt, &core, a, 2, &[4, 2, 12]);
    serves(&rt, &core, a, 3, &[4, 3, 10, 13]);
    same(&rt, core.quiet(), 3);
    // The next one comes once this one is confirmed, and follows it.
    confirm(&rt, &mut core, 2, 5, Err(2));
    confirm(&rt, &mut core, 2, 4, Ok(()));
    serves(&rt, &core, a, 2, &[5, 4, 12]);
    confirm(&rt, &mut core, 2, 5, Ok(()));
    serves(&rt, &core, a, 2, &[]);
    serves(&rt, &core, a, 1, &[4, 1, 11, 15]);
    core.end();
}

#[test]
fn a_session_that_ends_is_told_nothing(rt: HostRuntime) {
    let a = rt.alloc();
    let mut core = three_are_told(&rt, a);
    alive(&rt, &mut core, a, 1, 5);
    alive(&rt, &mut core, a, 2, 4);
    offer(&rt, &mut core, a, Ask::Unregister { session: 3 });
    same(&rt, core.sessions().count(), 2);
    // What was acknowledged is gone, and the batch of the end has each event once.
    serves(&rt, &core, a, 1, &[8, 5, 22]);
    serves(&rt, &core, a, 2, &[5, 4, 12]);
    confirm(&rt, &mut core, 2, 5, Ok(()));
    serves(&rt, &core, a, 2, &[8, 5, 21, 23]);
    core.end();
}

/// A command of session 1, as it is stored.
fn stored(seq: u64) -> Entry
    ensures { result ≡ record { time = 0; body = Body.Command 1 seq Effect.Nothing Reply.None } }
{
    Entry {
        time: 0,
        body: Body::Command {
            session: 1,
            seq,
            effect: Effect::Nothing,
            reply: Reply::None,
        },
    }
}

/// Replays a session's register entry and two of its commands, with this cut.
fn replay_three<M: Machine>(rt: &impl Abort, core: &mut Core<M>, alloc: Global, cut: Index)
    requires { core.old.last ≡ 0 }
{
    let register = Entry {
        time: 0,
        body: Body::Register { timeout: 100 },
    };
    core.replay(alloc, 1, register, cut).expect(rt, "memory");
    core.replay(alloc, 3, stored(1), cut).expect(rt, "memory");
    core.replay(alloc, 4, stored(2), cut).expect(rt, "memory");
}

/// Asserts which batch session 1 is served after a replay with this cut.
fn replayed(rt: &impl Abort, alloc: Global, cut: Index, wanted: &[u64]) {
    let mut core = Core::new(alloc, Teller);
    replay_three(rt, &mut core, alloc, cut);
    serves(rt, &core, alloc, 1, wanted);
    core.end();
}

#[test]
fn batches_are_replayed_above_the_cut(rt: HostRuntime) {
    let a = rt.alloc();
    replayed(&rt, a, 0, &[3, 1, 11, 15]);
    replayed(&rt, a, 2, &[3, 1, 11, 15]);
    replayed(&rt, a, 3, &[4, 1, 11, 15]);
    replayed(&rt, a, 4, &[]);
}
