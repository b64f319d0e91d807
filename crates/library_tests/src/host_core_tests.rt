// A core over the catalog, as a host uses it: each offer is decided, stored as the next entry, and applied; or a log is replayed.
ghost use Rattle.std.specs.Prelude.{◌≡◌, ◌+◌};
ghost use Rattle.host_types.specs.Ranges.{EntryFits, IsInRange};

use crate::checks::{key, same};
use host_core::{Core, DecideError, Decided};
use host_types::{Ask, Body, Entry, Index, Kind, Offer, Op, Refusal, Reply, Time};
use machine::Machine;
use resource_catalog::Catalog;
use std::alloc::Global;
use std::process::Abort;

/// What came of an offer.
#[derive(Debug, PartialEq, Eq, Drop)]
enum Outcome {
    Stored(Index),
    Repeated(Reply),
    Refused(Refusal),
    NoMemory,
}

/// A core of the empty log over the catalog.
fn core_of_nothing(alloc: Global) -> Core<Catalog>
    ensures { result.last ≡ 0 }
{
    Core::new(alloc, Catalog::new(alloc))
}

/// Applies an entry as the next one.
fn store<M: Machine>(rt: &impl Abort, core: &mut Core<M>, alloc: Global, entry: Entry) -> Index
    requires fits { EntryFits entry }
    requires range { IsInRange (core.old.last + 1) entry }
{
    let index = core.last() + 1;
    let prepared = core.reserve(alloc, index, &entry).expect(rt, "memory");
    core.apply(index, entry, prepared);
    index
}

/// Makes an offer, and applies what is to be stored of it.
fn outcome_of<M: Machine>(
    rt: &impl Abort,
    core: &mut Core<M>,
    alloc: Global,
    offer: &Offer,
) -> Outcome {
    match core.decide(alloc, offer) {
        Ok(Decided::Store(entry)) => Outcome::Stored(store(rt, core, alloc, entry)),
        Ok(Decided::Repeat(reply)) => Outcome::Repeated(reply),
        Err(DecideError::Refused(why)) => Outcome::Refused(why),
        Err(DecideError::NoMemory) => Outcome::NoMemory,
    }
}

/// Makes an offer, and asserts what comes of it.
fn offer<M: Machine>(
    rt: &impl Abort,
    core: &mut Core<M>,
    alloc: Global,
    time: Time,
    ask: Ask,
    wanted: Outcome,
) {
    let offer = Offer { time, ask };
    let found = outcome_of(rt, core, alloc, &offer);
    same(rt, found, wanted);
    drop(offer);
}

/// Offers a command of session 1 on the resource `c`, and asserts what comes of it.
fn command<M: Machine>(
    rt: &impl Abort,
    core: &mut Core<M>,
    alloc: Global,
    time: Time,
    seq: u64,
    op: Op,
    wanted: Outcome,
) {
    let name = key(rt, alloc, b"c");
    let ask = Ask::Command {
        session: 1,
        seq,
        name,
        op,
    };
    offer(rt, core, alloc, time, ask, wanted);
}

/// Asserts what a core shows of the counter `c`, and how far it is quiet.
fn shows<M: Machine>(rt: &impl Abort, core: &Core<M>, alloc: Global, number: i64, quiet: Index) {
    let name = key(rt, alloc, b"c");
    let shown = core.machine().look(alloc, &name, &Op::Get);
    same(rt, shown, Ok(Reply::Number(number)));
    same(rt, core.quiet(), quiet);
    drop(name);
}

fn refused(why: Refusal) -> Outcome {
    Outcome::Refused(why)
}

/// A session's first commands and its keep-alive are stored.
fn begin<M: Machine>(rt: &impl Abort, core: &mut Core<M>, alloc: Global) {
    let register = Ask::Register { timeout: 100 };
    offer(rt, core, alloc, 0, register, Outcome::Stored(1));
    let create = Op::Create {
        kind: Kind::Counter,
    };
    command(rt, core, alloc, 1, 1, create, Outcome::Stored(2));
    let add = Op::Add { number: 5 };
    command(rt, core, alloc, 2, 2, add, Outcome::Stored(3));
    let alive = Ask::Alive {
        session: 1,
        seq: 1,
        event: 1,
    };
    offer(rt, core, alloc, 4, alive, Outcome::Stored(4));
}

/// Then each of these is refused, or its reply is repeated.
fn repeat<M: Machine>(rt: &impl Abort, core: &mut Core<M>, alloc: Global) {
    let before = refused(Refusal::Time { now: 4 });
    offer(rt, core, alloc, 3, Ask::Tick, before);
    let repeated = Outcome::Repeated(Reply::Number(5));
    command(rt, core, alloc, 5, 2, Op::Add { number: 9 }, repeated);
    let forgotten = refused(Refusal::Forgotten { acked: 1 });
    command(rt, core, alloc, 5, 1, Op::Add { number: 5 }, forgotten);
    let gap = refused(Refusal::Gap { next: 3 });
    command(rt, core, alloc, 5, 4, Op::Add { number: 5 }, gap);
    let due = refused(Refusal::Due { session: 1 });
    offer(rt, core, alloc, 105, Ask::Tick, due);
}

#[test]
fn a_command_is_taken_once(rt: HostRuntime) {
    let alloc = rt.alloc();
    let mut core = core_of_nothing(alloc);
    begin(&rt, &mut core, alloc);
    repeat(&rt, &mut core, alloc);
    shows(&rt, &core, alloc, 5, 2);
    core.end();
}

/// Replays what is left of a log: a session's register entry, and a tick behind a hole.
fn replay_two<M: Machine>(rt: &impl Abort, core: &mut Core<M>, alloc: Global)
    requires { core.old.last ≡ 0 }
{
    let register = Entry {
        time: 0,
        body: Body::Register { timeout: 100 },
    };
    let tick = Entry {
        time: 7,
        body: Body::Tick,
    };
    core.replay(alloc, 1, register, 0).expect(rt, "memory");
    core.replay(alloc, 3, tick, 0).expect(rt, "memory");
}

#[test]
fn a_log_is_replayed(rt: HostRuntime) {
    let mut core = core_of_nothing(rt.alloc());
    replay_two(&rt, &mut core, rt.alloc());
    same(&rt, core.last(), 3);
    same(&rt, core.now(), 7);
    same(&rt, core.due(100), None);
    same(&rt, core.due(101), Some(1));
    core.end();
}

/// Replays a tick at the last index that a log may have.
fn replay_last<M: Machine>(rt: &impl Abort, core: &mut Core<M>, alloc: Global)
    requires { core.old.last ≡ 0 }
{
    let tick = Entry {
        time: 5,
        body: Body::Tick,
    };
    core.replay(alloc, 281474976710655, tick, 0)
        .expect(rt, "memory");
}

#[test]
fn a_log_has_an_end(rt: HostRuntime) {
    let a = rt.alloc();
    let mut core = core_of_nothing(a);
    replay_last(&rt, &mut core, a);
    let before = refused(Refusal::Time { now: 5 });
    offer(&rt, &mut core, a, 4, Ask::Tick, before);
    let unknown = refused(Refusal::NoSession { session: 1 });
    offer(
        &rt,
        &mut core,
        a,
        5,
        Ask::Unregister { session: 1 },
        unknown,
    );
    offer(&rt, &mut core, a, 5, Ask::Tick, refused(Refusal::LogEnd));
    core.end();
}
