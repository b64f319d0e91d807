// A host over a disk in memory and the catalog: each of its calls is made.
ghost use Rattle.std.specs.Prelude.{◌≡◌, true};
ghost use Rattle.host_types.specs.Decision.{is_looking};

use crate::same;
use disk_memory::MemoryDisk;
use host_recovery::{Answer, AskError, Host, HostError};
use host_types::{Ask, Index, Key, Kind, LogName, Offer, Op, Refusal, Reply};
use resource_catalog::Catalog;
use std::alloc::Global;
use std::process::Abort;

type TestHost = Host<MemoryDisk, Catalog>;

fn key(rt: &impl Abort, alloc: Global, text: &[u8]) -> Key {
    Key::new(alloc, text).expect(rt, "a key")
}

/// The command of session 1 with this sequence, to the counter `c`.
fn command(rt: &impl Abort, alloc: Global, seq: u64, op: Op) -> Ask {
    let name = key(rt, alloc, b"c");
    Ask::Command {
        session: 1,
        seq,
        name,
        op,
    }
}

/// Asserts that a host answers an offer so.
fn offers(
    rt: &impl Abort,
    alloc: Global,
    host: &mut TestHost,
    time: u64,
    ask: Ask,
    wanted: Result<Answer, HostError>,
) {
    let offer = Offer { time, ask };
    let found = host.offer(alloc, &offer);
    drop(offer);
    same(rt, found, wanted);
}

/// Asserts that a look at a counter is answered so.
fn asks(
    rt: &impl Abort,
    alloc: Global,
    host: &TestHost,
    name: Key,
    op: Op,
    wanted: Result<Reply, AskError>,
)
    requires { is_looking op ≡ true }
{
    let found = host.ask(alloc, &name, &op);
    drop(name);
    drop(op);
    same(rt, found, wanted);
}

/// Asserts who expires at a time.
fn expires(
    rt: &impl Abort,
    alloc: Global,
    host: &mut TestHost,
    time: u64,
    wanted: Result<Option<(Index, Index)>, HostError>,
) {
    same(rt, host.expire(alloc, time), wanted);
}

fn reopens(rt: &impl Abort, alloc: Global, host: &mut TestHost) {
    assert!(rt; host.reopen(alloc, Catalog::new(alloc)).is_ok());
}

/// Stores a session, a counter and its first addition.
fn stores(rt: &impl Abort, alloc: Global, host: &mut TestHost) {
    let register = Ask::Register { timeout: 10 };
    offers(rt, alloc, host, 0, register, Ok(Answer::Session(1)));
    let kind = Kind::Counter;
    let create = command(rt, alloc, 1, Op::Create { kind });
    let reply = Reply::Index(2);
    let created = Answer::Replied { index: 2, reply };
    offers(rt, alloc, host, 1, create, Ok(created));
    let add = command(rt, alloc, 2, Op::Add { number: 5 });
    let reply = Reply::Number(5);
    let added = Answer::Replied { index: 3, reply };
    offers(rt, alloc, host, 2, add, Ok(added));
}

/// Repeats the addition, acknowledges what was before, and is refused at an earlier time.
fn repeats(rt: &impl Abort, alloc: Global, host: &mut TestHost) {
    let again = command(rt, alloc, 2, Op::Add { number: 5 });
    let repeat = Answer::Repeat(Reply::Number(5));
    offers(rt, alloc, host, 3, again, Ok(repeat));
    let alive = Ask::Alive {
        session: 1,
        seq: 1,
        event: 1,
    };
    offers(rt, alloc, host, 4, alive, Ok(Answer::Done(4)));
    let early = HostError::Refused(Refusal::Time { now: 4 });
    offers(rt, alloc, host, 3, Ask::Tick, Err(early));
}

/// Asserts what is shown of the session.
fn shows_session(rt: &impl Abort, host: &TestHost) {
    same(rt, host.due(14), None);
    same(rt, host.due(15), Some(1));
    assert!(rt; host.session(2).is_none());
    let shown = host.session(1).map(|view| (view.seq, view.acked_seq));
    same(rt, shown, Some((2, 1)));
}

/// Asserts what is shown of these entries.
fn shows(rt: &impl Abort, alloc: Global, host: &TestHost) {
    same(rt, (host.last(), host.now(), host.quiet()), (4, 4, 2));
    assert!(rt; !host.stopped());
    let sessions = host.sessions().expect(rt, "memory");
    same(rt, sessions.as_slice(), [1].as_slice());
    shows_session(rt, host);
    asks(
        rt,
        alloc,
        host,
        key(rt, alloc, b"c"),
        Op::Get,
        Ok(Reply::Number(5)),
    );
    asks(
        rt,
        alloc,
        host,
        key(rt, alloc, b"d"),
        Op::Get,
        Err(AskError::NoName),
    );
    let other = AskError::Kind { is: Kind::Counter };
    asks(rt, alloc, host, key(rt, alloc, b"c"), Op::Size, Err(other));
}

/// A host that is stopped answers so, and is opened again.
fn stops(rt: &impl Abort, alloc: Global, host: &mut TestHost) {
    offers(rt, alloc, host, 4, Ask::Tick, Err(HostError::Disk));
    assert!(rt; host.stopped());
    same(rt, host.last(), 4);
    offers(rt, alloc, host, 4, Ask::Tick, Err(HostError::Stopped));
    expires(rt, alloc, host, 99, Err(HostError::Stopped));
    let name = key(rt, alloc, b"c");
    asks(rt, alloc, host, name, Op::Get, Err(AskError::Stopped));
    reopens(rt, alloc, host);
    assert!(rt; !host.stopped());
}

/// A session expires, and then the time of the log is that of its end.
fn ends_session(rt: &impl Abort, alloc: Global, host: &mut TestHost) {
    expires(rt, alloc, host, 14, Ok(None));
    expires(rt, alloc, host, 15, Ok(Some((5, 1))));
    same(rt, host.sessions().expect(rt, "memory").len(), 0);
    let early = HostError::Refused(Refusal::Time { now: 15 });
    expires(rt, alloc, host, 14, Err(early));
}

/// A host on a disk of which this call fails, or none.
fn opened(rt: &impl Abort, alloc: Global, failing: u64) -> TestHost {
    let name = LogName::new(b"db").expect(rt, "a name");
    let mut disk = MemoryDisk::new(alloc);
    disk.fail(failing).expect(rt, "memory");
    match Host::open(alloc, disk, Catalog::new(alloc), &name, 1024) {
        Ok(host) => host,
        Err(given) => {
            drop(given);
            panic!(rt; "the host isn't opened")
        }
    }
}

/// Closes a host, and answers how many calls its disk has had.
fn calls_of(host: TestHost) -> u64 {
    let disk = host.close();
    let calls = disk.calls();
    drop(disk);
    calls
}

/// Stores the first entries, and opens the host again.
fn goes_through(rt: &impl Abort, alloc: Global, host: &mut TestHost) {
    stores(rt, alloc, host);
    repeats(rt, alloc, host);
    shows(rt, alloc, host);
    reopens(rt, alloc, host);
    shows(rt, alloc, host);
}

#[test]
fn a_host_answers_each_call(rt: HostRuntime) {
    let mut host = opened(&rt, rt.alloc(), 0);
    goes_through(&rt, rt.alloc(), &mut host);
    let calls = calls_of(host);
    // The next call of a disk fails.
    let mut host = opened(&rt, rt.alloc(), calls.saturating_add(1));
    goes_through(&rt, rt.alloc(), &mut host);
    stops(&rt, rt.alloc(), &mut host);
    shows(&rt, rt.alloc(), &host);
    ends_session(&rt, rt.alloc(), &mut host);
    assert!(&rt; calls_of(host) > calls);
}
