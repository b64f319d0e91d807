// What a core marks: which indexes each entry releases, in a log that is written and in one that is replayed.
ghost use Rattle.std.specs.Prelude.{◌≡◌, ◌+◌};
ghost use Rattle.host_types.specs.Ranges.{EntryFits, IsInRange};

use crate::asks::{Ask, op_of};
use crate::checks::{key, same};
use host_core::{Core, Decided};
use host_types::{Ask as Asked, Body, Entry, Index, Kind, Offer};
use machine::Machine;
use released_marks::Marks;
use resource_catalog::Catalog;
use std::alloc::Global;
use std::process::Abort;

/// An offer of session 1, at the time 0: a command is on the name `c`, with its sequence.
#[derive(Clone, Copy)]
enum Step {
    Register,
    Alive,
    Tick,
    Unregister,
    Command(u64, Ask),
}

/// An offer that is stored, and the indexes that its entry releases.
type Row = (Step, &'static [Index]);

/// What a value holds is released by what replaces it, and by the end of its name; a keep-alive by the next one, and by the end of its
/// session. What holds no cell releases itself.
const ROWS: &[Row] = &[
    (Step::Register, &[]),
    (Step::Command(1, Ask::Create(Kind::Value)), &[]),
    (Step::Command(2, Ask::Set(b'a')), &[]),
    (Step::Command(3, Ask::Set(b'b')), &[3]),
    (Step::Command(4, Ask::Get), &[5]),
    (Step::Alive, &[]),
    (Step::Alive, &[6]),
    (Step::Tick, &[8]),
    (Step::Command(5, Ask::Delete), &[2, 4, 9]),
    (Step::Unregister, &[1, 7, 10]),
];

/// A core of the empty log over the catalog.
fn core_of_nothing(alloc: Global) -> Core<Catalog>
    ensures { result.last ≡ 0 }
{
    Core::new(alloc, Catalog::new(alloc))
}

fn ask_of(rt: &impl Abort, alloc: Global, step: Step) -> Asked {
    match step {
        Step::Register => Asked::Register { timeout: 100 },
        Step::Alive => Asked::Alive {
            session: 1,
            seq: 0,
            event: 1,
        },
        Step::Tick => Asked::Tick,
        Step::Unregister => Asked::Unregister { session: 1 },
        Step::Command(seq, ask) => Asked::Command {
            session: 1,
            seq,
            name: key(rt, alloc, b"c"),
            op: op_of(rt, alloc, ask),
        },
    }
}

/// Applies an entry as the next one.
fn store<M: Machine>(rt: &impl Abort, core: &mut Core<M>, alloc: Global, entry: Entry)
    requires fits { EntryFits entry }
    requires range { IsInRange (core.old.last + 1) entry }
{
    let index = core.last() + 1;
    let prepared = core.reserve(alloc, index, &entry).expect(rt, "memory");
    core.apply(index, entry, prepared);
}

/// Makes an offer that is stored.
fn offer<M: Machine>(rt: &impl Abort, core: &mut Core<M>, alloc: Global, ask: Asked) {
    let offer = Offer { time: 0, ask };
    match core.decide(alloc, &offer) {
        Ok(Decided::Store(entry)) => store(rt, core, alloc, entry),
        _ => panic!(rt; "it isn't stored"),
    }
    drop(offer);
}

/// Asserts that an index was released by the other.
fn is_marked(rt: &impl Abort, marks: &Marks, index: Index, by: Index) {
    same(rt, marks.released_at(index, by), true);
    same(rt, marks.released_at(index, by.saturating_sub(1)), false);
}

/// Makes an offer that is stored, and asserts what its entry released.
fn released<M: Machine>(rt: &impl Abort, core: &mut Core<M>, alloc: Global, row: &Row) {
    let before = core.marks().count(0, Index::MAX, Index::MAX);
    let (step, wanted) = *row;
    let ask = ask_of(rt, alloc, step);
    offer(rt, core, alloc, ask);
    for index in wanted {
        is_marked(rt, core.marks(), *index, core.last());
    }
    let now = core.marks().count(0, Index::MAX, Index::MAX);
    same(rt, now, before.saturating_add(wanted.len() as u64));
    same(rt, core.marks().last(), Some(core.last()));
}

fn releases_all<M: Machine>(rt: &impl Abort, core: &mut Core<M>, alloc: Global) {
    for row in ROWS {
        released(rt, core, alloc, row);
    }
}

#[test]
fn each_entry_marks_what_it_releases(rt: HostRuntime) {
    let mut core = core_of_nothing(rt.alloc());
    releases_all(&rt, &mut core, rt.alloc());
    core.end();
}

fn tick() -> Entry
    ensures { result ≡ record { time = 0; body = Body.Tick } }
{
    Entry {
        time: 0,
        body: Body::Tick,
    }
}

/// Replays what is left of a log: a session's register entry, a tick, a keep-alive and its end, with holes between them.
fn replay_four<M: Machine>(rt: &impl Abort, core: &mut Core<M>, alloc: Global)
    requires { core.old.last ≡ 0 }
{
    let register = Entry {
        time: 0,
        body: Body::Register { timeout: 100 },
    };
    core.replay(alloc, 1, register, 0).expect(rt, "memory");
    core.replay(alloc, 3, tick(), 0).expect(rt, "memory");
    let alive = Entry {
        time: 0,
        body: Body::Alive {
            session: 1,
            seq: 0,
            event: 1,
        },
    };
    core.replay(alloc, 6, alive, 0).expect(rt, "memory");
    let close = Entry {
        time: 0,
        body: Body::Close {
            session: 1,
            expired: false,
        },
    };
    core.replay(alloc, 9, close, 0).expect(rt, "memory");
}

/// Takes an index that has a mark out.
fn forget<M: Machine>(rt: &impl Abort, core: &mut Core<M>, index: Index) {
    assert!(rt; core.marks().released_at(index, Index::MAX));
    core.forget(index);
}

#[test]
fn a_replay_marks_the_same(rt: HostRuntime) {
    let mut core = core_of_nothing(rt.alloc());
    replay_four(&rt, &mut core, rt.alloc());
    is_marked(&rt, core.marks(), 1, 9);
    is_marked(&rt, core.marks(), 3, 3);
    is_marked(&rt, core.marks(), 6, 9);
    is_marked(&rt, core.marks(), 9, 9);
    same(&rt, core.marks().count(0, Index::MAX, Index::MAX), 4);
    forget(&rt, &mut core, 3);
    same(&rt, core.marks().released_at(3, Index::MAX), false);
    same(&rt, core.marks().count(0, Index::MAX, Index::MAX), 3);
    core.end();
}

/// Makes room for a tick twice, and gives it back.
fn cancel<M: Machine>(rt: &impl Abort, core: &mut Core<M>, alloc: Global)
    requires { core.old.last ≡ 0 }
{
    let entry = tick();
    let first = core.reserve(alloc, 1, &entry).expect(rt, "memory");
    same(rt, core.marks().last(), Some(1));
    let second = core.reserve(alloc, 1, &entry).expect(rt, "memory");
    core.cancel(first);
    same(rt, core.marks().last(), None);
    core.cancel(second);
    same(rt, core.marks().last(), None);
    drop(entry);
}

#[test]
fn what_is_cancelled_is_not_present(rt: HostRuntime) {
    let mut core = core_of_nothing(rt.alloc());
    cancel(&rt, &mut core, rt.alloc());
    core.end();
}
