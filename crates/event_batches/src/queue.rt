// The batches that a session keeps.
ghost use Rattle.std.specs.Prelude.{◌≡◌, ℕ, ◌+◌, ◌≤◌, max, cond, [], map, IsOk, is_ok, IfErr, OnOk, OnErr};
ghost use Rattle.std.specs.Option.{option_map, option_copied};
ghost use Rattle.std.specs.List.{find, filter};
ghost use Rattle.std.specs.Prelude.{nat_lt, nat_le};
ghost use Rattle.log_model.specs.plain.Quiet.{greatest_below};
ghost use Rattle.event_batches.specs.Kept.{as_batch, indexes, pushed, trimmed, served, has_batch, can_confirm};
ghost use Rattle.event_batches.specs.Rising.{AreBelow, Rises, last_of};
ghost use Rattle.event_batches.specs.Dropping.{lent_has, linked_to};
ghost use Rattle.std.specs.VecDeque.{deque_len, deque_capacity};

use crate::batch::Batch;
use crate::events::Events;
use host_types::{Index, NoMemory};
use std::alloc::Global;
use std::collections::VecDeque;
use std::marker::Model;

/// The batches of one session that weren't acknowledged, by rising index. It is seen as four things:
///
/// - `acked`, the acknowledged event: its keep-alive said that the client has all events up to this one;
/// - `confirmed`, the event that the client confirmed last, which is at least `acked`;
/// - `batches`, the kept batches, all above `acked`;
/// - `room`, for how many more batches there is room.
///
/// The previous index of the first kept batch is the acknowledged event, and that of each further one is the index of the one
/// before. Only `prepare` takes memory. The time of `push` doesn't grow with what is kept, that of `trim` grows with what goes,
/// and that of the others with the logarithm of what is kept.
#[derive(Drop)]
pub struct Queue {
    kept: VecDeque<Batch>,
    acked: Index,
    confirmed: Index,
}

impl Model for Queue {
    ghost use Rattle.event_batches.specs.Kept.{Kept};

    ghost Value = { Kept };

    ghost use Rattle.event_batches.specs.Inside.{shown, IsChained};

    ghost view = { shown };

    ghost invariant = { IsChained };
}

impl Queue {
    /// The queue of a new session: nothing is kept, and both events are the session's id. It takes no memory.
    pub fn new(alloc: Global, session: Index) -> Queue
        ensures acked { result.acked ≡ session }
        ensures confirmed { result.confirmed ≡ session }
        ensures batches { result.batches ≡ [] }
    {
        Queue {
            kept: VecDeque::new(alloc),
            acked: session,
            confirmed: session,
        }
    }

    /// The acknowledged event.
    pub fn acked(&self) -> Index
        ensures { result ≡ self.now.acked }
    {
        self.acked
    }

    /// The event that was confirmed last.
    pub fn confirmed(&self) -> Index
        ensures { result ≡ self.now.confirmed }
    {
        self.confirmed
    }

    /// Makes room for one push. The rest stays, whatever it answers.
    pub fn prepare(&mut self) -> Result<(), NoMemory>
        ensures ok { OnOk result (1 ≤ self.new.room) }
        ensures never_less { self.old.room ≤ self.new.room }
        ensures acked { self.new.acked ≡ self.old.acked }
        ensures confirmed { self.new.confirmed ≡ self.old.confirmed }
        ensures batches { self.new.batches ≡ self.old.batches }
    {
        self.kept.reserve(1)?;
        Ok(())
    }

    /// Keeps one more batch, whose index is above every kept one. There is room for it. A batch without events isn't kept, and neither
    /// is one that isn't above the acknowledged event, which no log brings about.
    pub fn push(&mut self, index: Index, events: Events)
        requires prepared { 1 ≤ self.old.room }
        requires above { AreBelow index (indexes self.old.batches) }
        ensures batches { self.new.batches ≡ pushed self.old.acked index events self.old.batches }
        ensures acked { self.new.acked ≡ self.old.acked }
        ensures confirmed { self.new.confirmed ≡ self.old.confirmed }
        ensures room { self.old.room ≤ self.new.room + 1 }
    {
        if index <= self.acked {
            return;
        }
        if events.len() == 0 {
            return;
        }
        let previous = last_index(&self.kept, self.acked);
        self.kept.push_back_reserved(Batch {
            index,
            previous,
            events,
        });
    }

    /// The first kept batch above the confirmed event. None comes exactly where there is none.
    pub fn first(&self) -> Option<&Batch>
        ensures { option_map as_batch (option_copied result) ≡ served self.now.acked self.now.confirmed self.now.batches }
    {
        first_above(&self.kept, self.confirmed)
    }

    /// Confirms the batch that `first` gives, by its index. To confirm the last confirmed event again is right and changes
    /// nothing. Any other event is refused with the confirmed one, and changes nothing.
    pub fn confirm(&mut self, event: Index) -> Result<(), Index>
        ensures answer { is_ok result ≡ can_confirm event self.old.acked self.old.confirmed self.old.batches }
        ensures err { IfErr result (λ at. at ≡ self.old.confirmed) }
        ensures confirmed { self.new.confirmed ≡ cond (is_ok result) event self.old.confirmed }
        ensures acked { self.new.acked ≡ self.old.acked }
        ensures batches { self.new.batches ≡ self.old.batches }
        ensures room { self.new.room ≡ self.old.room }
    {
        if event == self.confirmed {
            return Ok(());
        }
        if !has_index(first_above(&self.kept, self.confirmed), event) {
            return Err(self.confirmed);
        }
        self.confirmed = event;
        Ok(())
    }

    /// Acknowledges all up to this event: drops the batches up to it, and raises both events to it. An event below the
    /// acknowledged one, which no log brings about, changes nothing.
    pub fn trim(&mut self, event: Index)
        ensures batches { self.new.batches ≡ trimmed self.old.acked event self.old.batches }
        ensures acked { self.new.acked ≡ max self.old.acked event }
        ensures confirmed { self.new.confirmed ≡ max self.old.confirmed event }
        ensures room { self.old.room ≤ self.new.room }
    {
        if event < self.acked {
            return;
        }
        drop_up_to(&mut self.kept, event);
        link_first(&mut self.kept, event);
        self.acked = event;
        self.confirmed = self.confirmed.max(event);
    }

    /// Whether a kept batch has this index.
    pub fn has(&self, event: Index) -> bool
        ensures { result ≡ has_batch event self.now.batches }
    {
        has_index(first_from(&self.kept, event), event)
    }

    /// The greatest number of at most `last` that is below the index of every kept batch.
    pub fn quiet(&self, last: Index) -> Index
        ensures { result ≡ greatest_below last (indexes self.now.batches) }
    {
        match self.kept.front() {
            Some(batch) => last.min(batch.index - 1),
            None => last,
        }
    }
}

// The index of the last batch, or the acknowledged event where there is none.
fn last_index(kept: &VecDeque<Batch>, acked: Index) -> Index
    ensures { result ≡ last_of acked (map (λ b. b.index) kept.now.items) }
{
    match kept.back() {
        Some(batch) => batch.index,
        None => acked,
    }
}

// Whether there is a batch, and it has this index.
fn has_index(batch: Option<&Batch>, index: Index) -> bool
    ensures { result ≡ lent_has index batch.entry }
{
    match batch {
        Some(batch) => batch.index == index,
        None => false,
    }
}

// The first batch above an index.
fn first_above(kept: &VecDeque<Batch>, index: Index) -> Option<&Batch>
    requires { Rises 0 (map (λ b. b.index) kept.now.items) }
    ensures { option_copied result ≡ find (λ b. nat_lt index b.index) kept.now.items }
{
    let place = kept.partition_point(|batch| batch.index <= index);
    kept.get(place)
}

// The first batch with this index or above it.
fn first_from(kept: &VecDeque<Batch>, index: Index) -> Option<&Batch>
    requires { Rises 0 (map (λ b. b.index) kept.now.items) }
    ensures { option_copied result ≡ find (λ b. nat_le index b.index) kept.now.items }
{
    let place = kept.partition_point(|batch| batch.index < index);
    kept.get(place)
}

// Drops the batches up to an event.
fn drop_up_to(kept: &mut VecDeque<Batch>, event: Index)
    requires { Rises 0 (map (λ b. b.index) kept.old.items) }
    ensures items { kept.new.items ≡ filter (λ b. nat_lt event b.index) kept.old.items }
    ensures len { deque_len kept.new ≤ deque_len kept.old }
    ensures capacity { deque_capacity kept.new ≡ deque_capacity kept.old }
{
    while let Some(batch) = kept.front() {
        if batch.index > event {
            return;
        }
        kept.pop_front();
    }
}

// The first batch follows this event from now on.
fn link_first(kept: &mut VecDeque<Batch>, event: Index)
    ensures items { kept.new.items ≡ linked_to event kept.old.items }
    ensures len { deque_len kept.new ≡ deque_len kept.old }
    ensures capacity { deque_capacity kept.new ≡ deque_capacity kept.old }
{
    if let Some(first) = kept.front_mut() {
        first.previous = event;
    }
}
