// The table through a small caller that gives each call the next index, with ample memory.
use crate::checks::{key, same};
use commit_lending::Lender;
use event_batches::Events;
use host_types::{Event, Index, Reply, Time};
use session_table::{SessionView, Sessions};
use std::alloc::Global;
use std::marker::Model;
use std::process::Abort;

/// A table with its lender, and the next index.
struct Desk {
    table: Sessions,
    lender: Lender,
    next: Index,
}

impl Model for Desk {
    ghost use Rattle.std.specs.Prelude.{ℕ};
    ghost use Rattle.library_tests.specs.Desks.{IsSound};

    ghost Value = { ℕ };

    ghost view = { λ desk. desk.next };

    ghost invariant = { λ desk. IsSound desk.table desk.lender desk.next };
}

impl Desk {
    fn new(alloc: Global) -> Desk {
        Desk {
            table: Sessions::new(alloc),
            lender: Lender::new(alloc),
            next: 1,
        }
    }

    /// Opens a session.
    fn register(&mut self, rt: &impl Abort, time: Time, timeout: u64) -> Index {
        let id = self.next;
        assert!(rt; id < u64::MAX);
        self.table.prepare_register().expect(rt, "memory");
        self.lender.reserve().expect(rt, "memory");
        let commit = self.lender.lend(id);
        self.table.register(commit, time, timeout);
        self.next = id + 1;
        id
    }

    /// A keep-alive of a session.
    fn alive(&mut self, rt: &impl Abort, id: Index, time: Time, seq: u64, event: Index) -> Index {
        let index = self.next;
        assert!(rt; index < u64::MAX);
        self.table.find(id).expect(rt, "a session");
        self.lender.reserve().expect(rt, "memory");
        let commit = self.lender.lend(index);
        self.table
            .alive(id, commit, time, seq, event, &mut self.lender);
        self.next = index + 1;
        index
    }

    /// The end of a session.
    fn close(&mut self, rt: &impl Abort, id: Index) -> Index {
        let index = self.next;
        assert!(rt; index < u64::MAX);
        self.table.find(id).expect(rt, "a session");
        self.table.close(id, index, &mut self.lender);
        self.next = index + 1;
        index
    }

    /// A command of a session, under the next sequence.
    fn keep(&mut self, rt: &impl Abort, id: Index, reply: Reply) -> Index {
        let index = self.next;
        assert!(rt; index < u64::MAX);
        let seq = self.table.find(id).expect(rt, "a session").seq;
        assert!(rt; seq < u64::MAX);
        self.table.prepare_reply(id).expect(rt, "memory");
        self.table.keep(id, seq + 1, index, reply);
        self.next = index + 1;
        index
    }

    /// A batch for a session.
    fn push(&mut self, rt: &impl Abort, id: Index, events: Events) -> Index {
        let index = self.next;
        assert!(rt; index < u64::MAX);
        self.table.find(id).expect(rt, "a session");
        self.table.prepare_batch(id).expect(rt, "memory");
        self.table.push(id, index, events);
        self.next = index + 1;
        index
    }

    /// The index and the previous index of the batch to be served.
    fn batch(&self, rt: &impl Abort, id: Index) -> (Index, Index) {
        self.table.find(id).expect(rt, "a session");
        let batch = self.table.batch(id).expect(rt, "a batch");
        (batch.index, batch.previous)
    }

    /// A direct acknowledgement.
    fn confirm(&mut self, rt: &impl Abort, id: Index, event: Index) -> Result<(), Index> {
        self.table.find(id).expect(rt, "a session");
        self.table.confirm(id, event)
    }

    /// The first of the pairs that were closed.
    fn pop_closed(&mut self) -> Option<(Index, Index)> {
        self.lender.pop_closed()
    }

    fn due(&self, time: Time) -> Option<Index> {
        self.table.due(time)
    }

    fn quiet(&self, last: Index) -> Index {
        self.table.quiet(last)
    }

    fn count(&self) -> usize {
        self.table.count()
    }

    fn find(&self, id: Index) -> Option<SessionView> {
        self.table.find(id)
    }

    /// Asserts that this reply is kept.
    fn has(&self, rt: &impl Abort, id: Index, seq: u64, reply: Reply) {
        same(rt, self.table.cached(id, seq), Some(&reply));
        drop(reply);
    }

    /// Asserts that no reply is kept.
    fn has_none(&self, rt: &impl Abort, id: Index, seq: u64) {
        same(rt, self.table.cached(id, seq), None);
    }

    /// Asserts that these are the open sessions.
    fn lists(&self, rt: &impl Abort, wanted: &[Index]) {
        let ids = self.table.ids().expect(rt, "memory");
        same(rt, ids.as_slice(), wanted);
        drop(ids);
    }

    /// All goes back.
    fn end(self) {
        let Desk {
            table,
            mut lender,
            next: _,
        } = self;
        table.end(&mut lender);
        drop(lender);
    }
}

#[test]
fn sessions_are_due_past_their_timeout(rt: HostRuntime) {
    let mut desk = Desk::new(rt.alloc());
    same(&rt, desk.due(u64::MAX), None);
    same(&rt, desk.register(&rt, 0, 10), 1);
    same(&rt, desk.register(&rt, 5, 100), 2);
    same(&rt, desk.register(&rt, 7, u64::MAX), 3);
    same(&rt, desk.register(&rt, u64::MAX, 0), 4);
    // At the timeout nobody is due, one tick later the first is.
    same(&rt, desk.due(0), None);
    same(&rt, desk.due(10), None);
    same(&rt, desk.due(11), Some(1));
    let mut desk = later_sessions_are_due(&rt, desk);
    // The ends of the numbers: nothing overflows, and no time is past the last one.
    same(&rt, desk.alive(&rt, 1, u64::MAX, 0, 1), 7);
    same(&rt, desk.due(u64::MAX), None);
    same(&rt, desk.count(), 3);
    desk.end();
}

/// The least of those that are due.
fn later_sessions_are_due(rt: &impl Abort, desk: Desk) -> Desk {
    let mut desk = desk;
    same(rt, desk.due(106), Some(1));
    same(rt, desk.alive(rt, 1, 106, 0, 1), 5);
    same(rt, desk.due(105), None);
    same(rt, desk.due(106), Some(2));
    same(rt, desk.close(rt, 2), 6);
    desk
}

/// A batch with one event.
fn one_left(rt: &impl Abort, alloc: Global) -> Events {
    let mut events = Events::new(alloc);
    let name = key(rt, alloc, b"crew");
    events
        .push(Event::Left { name, member: 7 })
        .expect(rt, "memory");
    events
}

/// A desk with two sessions: the first has a reply, the second two batches.
fn busy_desk(rt: &impl Abort, alloc: Global) -> Desk {
    let mut desk = Desk::new(alloc);
    same(rt, desk.register(rt, 0, 10), 1);
    same(rt, desk.register(rt, 0, 10), 2);
    same(rt, desk.quiet(2), 2);
    same(rt, desk.keep(rt, 1, Reply::Truth(true)), 3);
    same(rt, desk.push(rt, 2, one_left(rt, alloc)), 4);
    same(rt, desk.push(rt, 2, one_left(rt, alloc)), 5);
    same(rt, desk.quiet(5), 2);
    desk
}

fn is_kept(rt: &impl Abort, desk: Desk) -> Desk {
    let mut desk = desk;
    desk.has(rt, 1, 1, Reply::Truth(true));
    desk.has_none(rt, 1, 2);
    desk.has_none(rt, 9, 1);
    same(rt, desk.batch(rt, 2), (4, 2));
    // A batch confirmed twice, one that isn't there, one that isn't next.
    same(rt, desk.confirm(rt, 2, 4), Ok(()));
    same(rt, desk.confirm(rt, 2, 4), Ok(()));
    same(rt, desk.confirm(rt, 2, 3), Err(4));
    same(rt, desk.batch(rt, 2), (5, 4));
    desk
}

/// What is confirmed is kept until a keep-alive acknowledges it.
fn is_acknowledged(rt: &impl Abort, desk: Desk) -> Desk {
    let mut desk = desk;
    same(rt, desk.quiet(5), 2);
    same(rt, desk.alive(rt, 1, 6, 1, 1), 6);
    desk.has_none(rt, 1, 1);
    same(rt, desk.quiet(6), 3);
    same(rt, desk.alive(rt, 2, 7, 0, 4), 7);
    same(rt, desk.batch(rt, 2), (5, 4));
    same(rt, desk.quiet(7), 4);
    desk
}

/// The commits of a session and of its keep-alive go back, and those of keep-alives before.
fn is_closed(rt: &impl Abort, desk: Desk) -> Desk {
    let mut desk = desk;
    same(rt, desk.alive(rt, 2, 8, 0, 5), 8);
    same(rt, desk.pop_closed(), Some((7, 8)));
    same(rt, desk.close(rt, 2), 9);
    same(rt, desk.pop_closed(), Some((2, 9)));
    same(rt, desk.pop_closed(), Some((8, 9)));
    same(rt, desk.pop_closed(), None);
    desk
}

#[test]
fn replies_and_batches_are_kept(rt: HostRuntime) {
    let alloc = rt.alloc();
    let desk = is_kept(&rt, busy_desk(&rt, alloc));
    let desk = is_acknowledged(&rt, desk);
    let view = SessionView {
        timeout: 10,
        last_time: 7,
        seq: 0,
        acked_seq: 0,
        acked_event: 4,
        confirmed: 4,
    };
    same(&rt, desk.find(2), Some(view));
    same(&rt, desk.find(3), None);
    desk.lists(&rt, &[1, 2]);
    is_closed(&rt, desk).end();
}

#[test]
fn many_sessions_are_found(rt: HostRuntime) {
    let mut desk = Desk::new(rt.alloc());
    for id in 1..1025 {
        same(&rt, desk.register(&rt, 0, id), id);
    }
    same(&rt, desk.count(), 1024);
    same(&rt, desk.find(0), None);
    same(&rt, desk.find(1025), None);
    same(
        &rt,
        desk.find(1).is_some() && desk.find(1024).is_some(),
        true,
    );
    same(&rt, desk.due(1024), Some(1));
    same(&rt, desk.close(&rt, 1), 1025);
    same(&rt, desk.due(3), Some(2));
    same(&rt, desk.count(), 1023);
    desk.end();
}

#[test]
fn many_replies_go_in_one_keep_alive(rt: HostRuntime) {
    let mut desk = Desk::new(rt.alloc());
    same(&rt, desk.register(&rt, 0, 10), 1);
    for index in 2..10_002 {
        same(&rt, desk.keep(&rt, 1, Reply::Index(index)), index);
    }
    desk.has(&rt, 1, 5_000, Reply::Index(5_001));
    same(&rt, desk.quiet(10_001), 1);
    same(&rt, desk.alive(&rt, 1, 1, 10_000, 1), 10_002);
    desk.has_none(&rt, 1, 10_000);
    same(&rt, desk.quiet(10_002), 10_002);
    desk.end();
}

/// 1,024 sessions since the time 0. Their timeouts are the numbers below 1,024, each once.
fn scattered_desk(rt: &impl Abort, alloc: Global) -> Desk {
    let mut desk = Desk::new(alloc);
    for id in 1..1025 {
        same(rt, desk.register(rt, 0, id * 389 % 1024), id);
    }
    desk
}

/// The session with this timeout: 845 times 389 leaves 1 over 1,024.
fn with_timeout(timeout: u16) -> Index {
    let id = u64::from(timeout) * 845 % 1024;
    if id == 0 { 1024 } else { id }
}

/// At its timeout the next session isn't due, and one tick later it is. Every other one ends then, and the others are heard of.
fn is_due_next(rt: &impl Abort, desk: Desk, timeout: u16) -> Desk {
    let mut desk = desk;
    let id = with_timeout(timeout);
    let last = u64::from(timeout);
    same(rt, desk.due(last), None);
    same(rt, desk.due(last + 1), Some(id));
    if id % 2 == 0 {
        desk.close(rt, id);
    } else {
        desk.alive(rt, id, 2_000, 0, id);
    }
    desk
}

#[test]
fn each_session_is_due_in_its_turn(rt: HostRuntime) {
    let mut desk = scattered_desk(&rt, rt.alloc());
    for timeout in 0..1024 {
        desk = is_due_next(&rt, desk, timeout);
    }
    same(&rt, desk.count(), 512);
    same(&rt, desk.due(2_000), None);
    desk.end();
}

/// Three sessions, the first with a timeout that ends past all times.
fn three_sessions(rt: &impl Abort, alloc: Global) -> Desk {
    let mut desk = Desk::new(alloc);
    same(rt, desk.register(rt, u64::MAX - 1, 2), 1);
    same(rt, desk.register(rt, 5, 10), 2);
    same(rt, desk.register(rt, 5, 20), 3);
    same(rt, desk.due(15), None);
    same(rt, desk.due(16), Some(2));
    desk
}

/// A keep-alive of the session that is due first, and then one with an older time.
fn least_is_moved(rt: &impl Abort, desk: Desk) -> Desk {
    let mut desk = desk;
    same(rt, desk.alive(rt, 2, 30, 0, 2), 4);
    same(rt, desk.due(25), None);
    same(rt, desk.due(26), Some(3));
    same(rt, desk.alive(rt, 2, 1, 0, 2), 5);
    same(rt, desk.due(11), None);
    same(rt, desk.due(12), Some(2));
    desk
}

/// The ends of those that are due first.
fn least_is_closed(rt: &impl Abort, desk: Desk) -> Desk {
    let mut desk = desk;
    same(rt, desk.close(rt, 2), 6);
    same(rt, desk.due(25), None);
    same(rt, desk.due(26), Some(3));
    same(rt, desk.close(rt, 3), 7);
    same(rt, desk.due(u64::MAX), None);
    desk
}

#[test]
fn the_least_deadline_moves(rt: HostRuntime) {
    let desk = least_is_moved(&rt, three_sessions(&rt, rt.alloc()));
    let mut desk = least_is_closed(&rt, desk);
    // A session in the place of one that ended.
    same(&rt, desk.register(&rt, 0, 3), 8);
    same(&rt, desk.due(3), None);
    same(&rt, desk.due(4), Some(8));
    desk.end();
}
