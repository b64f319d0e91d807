// A core over the catalog, in which a session expires that holds a lock, waits for another, is a member of a group and listens.
ghost use Rattle.std.specs.Prelude.{◌≡◌, ◌+◌, true};
ghost use Rattle.host_types.specs.Decision.{is_looking};
ghost use Rattle.host_types.specs.Ranges.{EntryFits, IsInRange};

use crate::asks::{Ask, News, Say, answer_of, event_of, op_of};
use crate::checks::{key, same};
use host_core::{Core, Decided};
use host_types::{Ask as Asked, Body, Entry, Event, Index, Kind, Offer, Op};
use machine::Machine;
use resource_catalog::Catalog;
use std::alloc::Global;
use std::process::Abort;

/// Applies an entry as the next one.
fn store<M: Machine>(rt: &impl Abort, core: &mut Core<M>, alloc: Global, entry: Entry)
    requires fits { EntryFits entry }
    requires range { IsInRange (core.old.last + 1) entry }
{
    let index = core.last() + 1;
    let prepared = core.reserve(alloc, index, &entry).expect(rt, "memory");
    core.apply(index, entry, prepared);
}

/// Makes an offer that is stored, at the time 0.
fn offer<M: Machine>(rt: &impl Abort, core: &mut Core<M>, alloc: Global, ask: Asked) {
    let offer = Offer { time: 0, ask };
    match core.decide(alloc, &offer) {
        Ok(Decided::Store(entry)) => store(rt, core, alloc, entry),
        _ => panic!(rt; "it isn't stored"),
    }
    drop(offer);
}

/// A session, its next sequence, a name, and what it asks of it.
type Command = (Index, u64, u8, Ask);

fn command<M: Machine>(rt: &impl Abort, core: &mut Core<M>, alloc: Global, command: &Command) {
    let (session, seq, letter, ask) = *command;
    let ask = Asked::Command {
        session,
        seq,
        name: key(rt, alloc, &[letter]),
        op: op_of(rt, alloc, ask),
    };
    offer(rt, core, alloc, ask);
}

/// Session 1 holds the locks `a` and `c`, waits for `b`, is a member of `g` twice, and listens to `g` and `t`.
const COMMANDS: &[Command] = &[
    (1, 1, b'a', Ask::Create(Kind::Lock)),
    (1, 2, b'g', Ask::Create(Kind::Group)),
    (1, 3, b'b', Ask::Create(Kind::Lock)),
    (1, 4, b't', Ask::Create(Kind::Topic)),
    (1, 5, b'c', Ask::Create(Kind::Lock)),
    (1, 6, b'a', Ask::Lock(7)),
    (2, 1, b'a', Ask::Lock(8)),
    (2, 2, b'b', Ask::Lock(9)),
    (1, 7, b'b', Ask::Lock(1)),
    (3, 1, b'b', Ask::Lock(2)),
    (1, 8, b'c', Ask::Lock(3)),
    (3, 2, b'c', Ask::Lock(4)),
    (1, 9, b'g', Ask::Join(b'x')),
    (3, 3, b'g', Ask::Join(b'y')),
    (1, 10, b'g', Ask::Join(b'z')),
    (3, 4, b'g', Ask::Listen),
    (2, 3, b'g', Ask::Listen),
    (1, 11, b'g', Ask::Listen),
    (1, 12, b't', Ask::Listen),
    (2, 4, b't', Ask::Listen),
];

/// Three sessions, of which the first may be silent for 10, after all commands.
fn commanded<M: Machine>(rt: &impl Abort, core: &mut Core<M>, alloc: Global) {
    offer(rt, core, alloc, Asked::Register { timeout: 10 });
    offer(rt, core, alloc, Asked::Register { timeout: 1000 });
    offer(rt, core, alloc, Asked::Register { timeout: 1000 });
    for row in COMMANDS {
        command(rt, core, alloc, row);
    }
    same(rt, core.last(), 23);
}

/// The end of session 1, as it is stored once it is due.
fn expire<M: Machine>(rt: &impl Abort, core: &mut Core<M>, alloc: Global) {
    same(rt, core.due(10), None);
    same(rt, core.due(11), Some(1));
    assert!(rt; core.last() < 100);
    let entry = Entry {
        time: 11,
        body: Body::Close {
            session: 1,
            expired: true,
        },
    };
    store(rt, core, alloc, entry);
    same(rt, core.due(11), None);
}

/// The events that a session is served, and the index of their batch and of the one before.
fn served<M: Machine>(
    rt: &impl Abort,
    core: &Core<M>,
    alloc: Global,
    session: Index,
) -> (Index, Index, Vec<Event>) {
    core.sessions().find(session).expect(rt, "a session");
    let batch = core.sessions().batch(session).expect(rt, "a batch");
    let mut events = Vec::new(alloc);
    for place in 0..batch.events.len() {
        let event = batch.events.at(place).copy().expect(rt, "memory");
        events.push(event).expect(rt, "memory");
    }
    (batch.index, batch.previous, events)
}

/// Asserts which events, with their names, a session is served as the first batch.
fn serves<M: Machine>(
    rt: &impl Abort,
    core: &Core<M>,
    alloc: Global,
    session: Index,
    index: Index,
    wanted: &[(u8, News)],
) {
    let mut events = Vec::new(alloc);
    for (letter, news) in wanted {
        let event = event_of(rt, alloc, *letter, *news);
        events.push(event).expect(rt, "memory");
    }
    same(
        rt,
        served(rt, core, alloc, session),
        (index, session, events),
    );
}

/// Asserts what a looking operation shows of a name.
fn shows<M: Machine>(rt: &impl Abort, core: &Core<M>, alloc: Global, letter: u8, op: Op, say: Say)
    requires { is_looking op ≡ true }
{
    let name = key(rt, alloc, &[letter]);
    let shown = core.machine().look(alloc, &name, &op);
    same(rt, shown, answer_of(rt, alloc, say));
    drop(name);
    drop(op);
}

#[test]
fn who_expires_leaves_all_at_once(rt: HostRuntime) {
    let a = rt.alloc();
    let mut core = Core::new(a, Catalog::new(a));
    commanded(&rt, &mut core, a);
    expire(&rt, &mut core, a);
    same(&rt, core.sessions().find(1), None);
    let second = [
        (b'a', News::Granted(8)),
        (b'g', News::Left(16)),
        (b'g', News::Left(18)),
    ];
    serves(&rt, &core, a, 2, 24, &second);
    let third = [
        (b'g', News::Left(16)),
        (b'g', News::Left(18)),
        (b'c', News::Granted(4)),
    ];
    serves(&rt, &core, a, 3, 24, &third);
    is_left(&rt, &core, a);
    core.end();
}

/// What the others still have.
fn is_left<M: Machine>(rt: &impl Abort, core: &Core<M>, alloc: Global) {
    shows(rt, core, alloc, b'a', Op::Holder, Say::Holder(2, 8));
    shows(rt, core, alloc, b'b', Op::Holder, Say::Holder(2, 9));
    shows(rt, core, alloc, b'b', Op::Size, Say::Number(2));
    shows(rt, core, alloc, b'c', Op::Holder, Say::Holder(3, 4));
    shows(rt, core, alloc, b'g', Op::Members, Say::Indexes(&[17]));
    shows(rt, core, alloc, b't', Op::Size, Say::Number(1));
}
