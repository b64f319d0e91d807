// Batches that are kept, served and taken, with ample memory.
ghost use Rattle.std.specs.Prelude.{ℕ, ◌<◌};
ghost use Rattle.event_batches.specs.Kept.{indexes};
ghost use Rattle.event_batches.specs.Rising.{AreBelow};

use crate::checks::{key, same};
use event_batches::{Batch, Client, Events, Queue, Take};
use host_types::{Event, Index};
use std::alloc::Global;
use std::process::Abort;

/// A batch's events: that these members joined.
fn joined(rt: &impl Abort, alloc: Global, members: &[u64]) -> Events {
    let mut events = Events::new(alloc);
    for member in members {
        let name = key(rt, alloc, b"crew");
        let event = Event::Joined {
            name,
            member: *member,
        };
        events.push(event).expect(rt, "memory");
    }
    events
}

/// The member that joined by the event at this place.
fn member_at(rt: &impl Abort, events: &Events, place: usize) -> Index {
    assert!(rt; place < events.len());
    match events.at(place) {
        Event::Joined { member, .. } => *member,
        _ => 0,
    }
}

#[test]
fn events_stand_in_order(rt: HostRuntime) {
    let events = joined(&rt, rt.alloc(), &[5, 7, 9]);
    same(&rt, events.len(), 3);
    same(&rt, member_at(&rt, &events, 2), 9);
    drop(events);
}

/// One batch more.
fn keep(rt: &impl Abort, queue: &mut Queue, alloc: Global, index: Index)
    requires { AreBelow index (indexes queue.old.batches) }
    ensures { (top : ℕ) → index < top → AreBelow top (indexes queue.old.batches) → AreBelow top (indexes queue.new.batches) }
{
    queue.prepare().expect(rt, "memory");
    queue.push(index, joined(rt, alloc, &[index]));
}

/// A queue of session 2 with three batches.
fn three_batches(rt: &impl Abort, alloc: Global) -> Queue {
    let mut queue = Queue::new(alloc, 2);
    keep(rt, &mut queue, alloc, 4);
    keep(rt, &mut queue, alloc, 6);
    keep(rt, &mut queue, alloc, 9);
    queue
}

/// Asserts the index and the previous index of the batch to be served.
fn serves(rt: &impl Abort, queue: &Queue, wanted: Option<(Index, Index)>) {
    let found = match queue.first() {
        Some(batch) => Some((batch.index, batch.previous)),
        None => None,
    };
    same(rt, found, wanted);
}

/// Asserts what a confirmation answers.
fn confirm(rt: &impl Abort, queue: &mut Queue, event: Index, wanted: Result<(), Index>) {
    same(rt, queue.confirm(event), wanted);
}

/// Asserts the acknowledged event, the confirmed one, and how far it is quiet.
fn is_at(rt: &impl Abort, queue: &Queue, acked: Index, confirmed: Index, quiet: Index) {
    same(rt, queue.acked(), acked);
    same(rt, queue.confirmed(), confirmed);
    same(rt, queue.quiet(20), quiet);
}

/// Asserts which of the events 0, 4, 5, 6 and 9 are kept.
fn keeps(rt: &impl Abort, queue: &Queue, wanted: [bool; 5]) {
    let found = [
        queue.has(0),
        queue.has(4),
        queue.has(5),
        queue.has(6),
        queue.has(9),
    ];
    same(rt, found, wanted);
}

#[test]
fn batches_are_confirmed(rt: HostRuntime) {
    let mut queue = three_batches(&rt, rt.alloc());
    serves(&rt, &queue, Some((4, 2)));
    // One that isn't there, and one that isn't next.
    confirm(&rt, &mut queue, 5, Err(2));
    confirm(&rt, &mut queue, 6, Err(2));
    confirm(&rt, &mut queue, 4, Ok(()));
    serves(&rt, &queue, Some((6, 4)));
    // Confirmed twice.
    confirm(&rt, &mut queue, 4, Ok(()));
    is_at(&rt, &queue, 2, 4, 3);
    keeps(&rt, &queue, [false, true, false, true, true]);
    drop(queue);
}

#[test]
fn batches_are_acknowledged(rt: HostRuntime) {
    let mut queue = three_batches(&rt, rt.alloc());
    confirm(&rt, &mut queue, 4, Ok(()));
    // An acknowledgement past what was confirmed: the first that is left follows it.
    queue.trim(6);
    serves(&rt, &queue, Some((9, 6)));
    keeps(&rt, &queue, [false, false, false, false, true]);
    is_at(&rt, &queue, 6, 6, 8);
    // Below the acknowledged one nothing changes.
    queue.trim(3);
    is_at(&rt, &queue, 6, 6, 8);
    queue.trim(9);
    serves(&rt, &queue, None);
    is_at(&rt, &queue, 9, 9, 20);
    confirm(&rt, &mut queue, 9, Ok(()));
    confirm(&rt, &mut queue, 4, Err(9));
    drop(queue);
}

/// Offers a batch to a client, and asserts what it says.
fn takes(
    rt: &impl Abort,
    client: &mut Client,
    alloc: Global,
    index: Index,
    previous: Index,
    wanted: Take,
) {
    let batch = Batch {
        index,
        previous,
        events: Events::new(alloc),
    };
    same(rt, client.take(&batch), wanted);
    drop(batch);
}

#[test]
fn a_client_takes_each_batch_once(rt: HostRuntime) {
    let alloc = rt.alloc();
    let mut client = Client::new(2);
    takes(&rt, &mut client, alloc, 6, 4, Take::Missed { last: 2 });
    takes(&rt, &mut client, alloc, 4, 2, Take::Taken);
    takes(&rt, &mut client, alloc, 4, 2, Take::Repeat);
    takes(&rt, &mut client, alloc, 6, 4, Take::Taken);
    takes(&rt, &mut client, alloc, 4, 2, Take::Repeat);
    same(&rt, client.last(), 6);
}
