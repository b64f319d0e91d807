// The table of sessions.
ghost use Rattle.std.specs.Prelude.{◌≡◌, ◌≢◌, ℕ, Bool, ◌+◌, ◌≤◌, ◌==◌, not, cond, [], ◌∷◌, ◌++◌, length, None, is_ok, IfOk, IfErr, OnOk};
ghost use Rattle.std.specs.List.{filter};
ghost use Rattle.std.specs.Option.{option_map, option_copied};
ghost use Rattle.host_types.specs.Cells.{places_of};
ghost use Rattle.host_types.specs.declared.entry.Body.TheVariants as body;
ghost use Rattle.commit_lending.specs.Lent.{tokens, one_of};
ghost use Rattle.machine.specs.Release.{AreOut, Releases, Retires};
ghost use Rattle.log_model.specs.plain.Admission.{due as first_due};
ghost use Rattle.log_model.specs.cleaning.Cells.{after};
ghost use Rattle.log_model.specs.plain.Quiet.{kept_indexes, greatest_below};
ghost use Rattle.log_model.specs.plain.Step.{changed, new_session, with_reply};
ghost use Rattle.event_batches.specs.Kept.{as_batch};
ghost use Rattle.event_batches.specs.Rising.{AreBelow};
ghost use Rattle.log_model.specs.replay.Replay.{after_alive, noted, pushed};
ghost use Rattle.session_table.specs.Table.{Beside, as_state, session_at, IsOpen, ids, confirmed_of, reply_room, batch_room, KeepsRoom, IsSame, view_at, reply_in, without_id, beside_changed, beside_alive, beside_confirmed};
ghost use Rattle.session_table.specs.Asked.{NewerReply, NewerBatch, batch_at, batch_is_kept, confirms};
ghost use Rattle.session_table.specs.Places.{table_cells};

use crate::deadlines::Deadlines;
use crate::open_session::OpenSession;
use crate::order::{Row, close_row, open_place, open_slot, session_in};
use crate::view::SessionView;
use commit_lending::{Commit, Lender};
use event_batches::{Batch, Events};
use host_types::{Index, NoMemory, Reply, Time};
use machine::{close_held, retire_held};
use slab::Slab;
use std::alloc::Global;
use std::collections::VecDeque;
use std::marker::Model;

/// The open sessions, by rising id. It is seen as
///
/// - `sessions`, the open sessions as the model of the log has them, with their kept replies and batches;
/// - `beside`, what else each of them has: the index of its alive commit, if any, and the event that was confirmed last;
/// - `rooms` and `spare`, for how many more replies, batches and sessions there is room.
///
/// The table keeps the commits of the sessions' register entries and of their last keep-alives, and so holds their places
/// (`table_cells`). What it is asked of sessions and places is what the model's definitions say of these sessions.
///
/// Only `ids` and the calls that prepare take memory. `find`, `cached`, `batch`, `has_batch`, `confirm`, `register`, `keep`, `note` and
/// `push` take a time that grows with the logarithm of what is kept, `alive` with that logarithm and with what it drops, `quiet` with
/// the number of open sessions, and `close` with that number and with what it drops. That nobody is due is answered at once; where
/// somebody is, `due` looks through the sessions.
pub struct Sessions {
    order: VecDeque<Row>,
    slots: Slab<OpenSession>,
    deadlines: Deadlines,
}

impl Model for Sessions {
    ghost use Rattle.session_table.specs.Table.{Table};

    ghost Value = { Table };

    ghost use Rattle.session_table.specs.Inside.{table, IsInOrder};

    ghost view = { table };

    ghost invariant = { IsInOrder };
}

impl Sessions {
    /// The empty table. It takes no memory.
    pub fn new(alloc: Global) -> Sessions
        ensures sessions { result.sessions ≡ [] }
        ensures beside { result.beside ≡ [] }
    {
        Sessions {
            order: VecDeque::new(alloc),
            slots: Slab::new(alloc),
            deadlines: Deadlines::new(alloc),
        }
    }

    /// The ids of the open sessions, rising.
    pub fn ids(&self) -> Result<Vec<Index>, NoMemory>
        ensures { IfOk result (λ list. list.items ≡ ids self.now) }
    {
        let mut ids = Vec::with_capacity(*self.order.allocator(), self.order.len())?;
        for place in 0..self.order.len() {
            ids.push(self.order[place].register.index())?;
        }
        Ok(ids)
    }

    /// How many sessions are open.
    pub fn count(&self) -> usize
        ensures { result ≡ length self.now.sessions }
    {
        self.order.len()
    }

    /// What is told of the session. None comes exactly where it isn't open.
    pub fn find(&self, id: Index) -> Option<SessionView>
        ensures { result ≡ view_at id self.now }
    {
        match session_in(&self.order, &self.slots, id) {
            Some(session) => Some(session.view()),
            None => None,
        }
    }

    /// The least id that is due at this time. None comes exactly where nobody is due.
    pub fn due(&self, time: Time) -> Option<Index>
        ensures { result ≡ first_due time (as_state self.now.sessions) }
    {
        if time <= self.deadlines.least() {
            return None;
        }
        for place in 0..self.order.len() {
            let row = &self.order[place];
            if self.slots[row.slot].is_due(time) {
                return Some(row.register.index());
            }
        }
        None
    }

    /// The kept reply of this sequence. None comes exactly where the session isn't open or keeps no such reply.
    pub fn cached(&self, id: Index, seq: u64) -> Option<&Reply>
        ensures { option_copied result ≡ reply_in seq (session_at id self.now) }
    {
        match session_in(&self.order, &self.slots, id) {
            Some(session) => session.cached(seq),
            None => None,
        }
    }

    /// The greatest number of at most `last` that is below the index of every kept reply and batch.
    pub fn quiet(&self, last: Index) -> Index
        ensures { result ≡ greatest_below last (kept_indexes (as_state self.now.sessions)) }
    {
        let mut quiet = last;
        let mut left = self.order.len();
        while left > 0 {
            left -= 1;
            quiet = self.slots[self.order[left].slot].quiet(quiet);
        }
        quiet
    }

    /// The first kept batch of the open session above its confirmed event. Its previous index is that of the kept batch before it,
    /// or the acknowledged event where it is the first. None comes exactly where there is none.
    pub fn batch(&self, id: Index) -> Option<&Batch>
        requires { IsOpen id self.now }
        ensures { option_map as_batch (option_copied result) ≡ batch_at id self.now }
    {
        match session_in(&self.order, &self.slots, id) {
            Some(session) => session.batch(),
            None => None,
        }
    }

    /// Whether the open session keeps a batch with this index.
    pub fn has_batch(&self, id: Index, event: Index) -> bool
        requires { IsOpen id self.now }
        ensures { result ≡ batch_is_kept id event self.now }
    {
        match session_in(&self.order, &self.slots, id) {
            Some(session) => session.has_batch(event),
            None => false,
        }
    }

    /// Confirms the batch that `batch` gives, by its index. To confirm the last confirmed event again is right and changes nothing.
    /// Any other event is refused with the confirmed one, and changes nothing.
    pub fn confirm(&mut self, id: Index, event: Index) -> Result<(), Index>
        requires { IsOpen id self.old }
        ensures answer { is_ok result ≡ confirms id event self.old }
        ensures event { OnOk result (confirmed_of id self.new ≡ event) }
        ensures err { IfErr result (λ at. at ≡ confirmed_of id self.old) }
        ensures sessions { self.new.sessions ≡ self.old.sessions }
        ensures beside { self.new.beside ≡ cond (is_ok result) (beside_changed id (beside_confirmed event) self.old.beside) self.old.beside }
        ensures cells { table_cells self.new ≡ table_cells self.old }
        ensures rooms { (other : ℕ) → KeepsRoom other self.old self.new }
        ensures spare { self.new.spare ≡ self.old.spare }
    {
        let slot = open_slot(&self.order, id);
        self.slots[slot].confirm(event)
    }

    /// Makes room for one more session. The rest stays, whatever it answers.
    pub fn prepare_register(&mut self) -> Result<(), NoMemory>
        ensures ok { OnOk result (1 ≤ self.new.spare) }
        ensures same { IsSame self.old self.new }
        ensures rooms { (other : ℕ) → KeepsRoom other self.old self.new }
        ensures spare { self.old.spare ≤ self.new.spare }
    {
        self.order.reserve(1)?;
        self.slots.reserve(1)?;
        self.deadlines.prepare(self.slots.capacity())
    }

    /// Opens the session of this register entry, whose index is at least 1 and above every open id. There is room for it. The table keeps the
    /// commit. It takes no memory.
    pub fn register(&mut self, commit: Commit, time: Time, timeout: u64)
        requires prepared { 1 ≤ self.old.spare }
        requires some { 1 ≤ commit }
        requires above { AreBelow commit (ids self.old) }
        ensures sessions { self.new.sessions ≡ self.old.sessions ++ new_session commit time timeout ∷ [] }
        ensures beside { self.new.beside ≡ self.old.beside ++ record { id = commit; alive = None; confirmed = commit } ∷ [] }
        ensures cells { table_cells self.new ≡ after (table_cells self.old) commit (record { time = time; body = body.Register timeout }) }
        ensures places { (j : ℕ) → places_of (table_cells self.new) j ≡ places_of (table_cells self.old) j + one_of commit j }
        ensures rooms { (other : ℕ) → KeepsRoom other self.old self.new }
        ensures spare { self.old.spare ≤ self.new.spare + 1 }
    {
        let alloc = *self.order.allocator();
        let session = OpenSession::new(alloc, commit.index(), time, timeout);
        let slot = self.slots.insert_reserved(session);
        self.deadlines.set(slot, time.saturating_add(timeout));
        self.order.push_back_reserved(Row {
            register: commit,
            alive: None,
            slot,
        });
    }

    /// Takes the keep-alive of an open session: its time, and what it acknowledges. The replies and batches that it acknowledges are
    /// dropped. The table keeps the commit, and closes that of the keep-alive before, if there was one, for the new entry. All that
    /// the table holds is out at this lender, and so is the commit, which it doesn't hold yet. An event below the acknowledged one,
    /// which no log brings about, leaves that as it is. It takes no memory.
    pub fn alive(
        &mut self,
        id: Index,
        commit: Commit,
        time: Time,
        seq: u64,
        event: Index,
        lender: &mut Lender,
    )
        requires open { IsOpen id self.old }
        requires held { AreOut (places_of (table_cells self.old)) lender.old }
        requires new { places_of (table_cells self.old) commit ≡ 0 }
        requires lent { tokens lender.old commit ≡ 1 }
        ensures sessions { self.new.sessions ≡ changed id (after_alive time seq event) self.old.sessions }
        ensures beside { self.new.beside ≡ beside_changed id (beside_alive commit event) self.old.beside }
        ensures cells { table_cells self.new ≡ after (table_cells self.old) commit (record { time = time; body = body.Alive id seq event }) }
        ensures released { Releases (λ j. places_of (table_cells self.old) j + one_of commit j) (places_of (table_cells self.new)) commit lender.old lender.new }
        ensures rooms { (other : ℕ) → KeepsRoom other self.old self.new }
        ensures spare { self.new.spare ≡ self.old.spare }
    {
        let by = commit.index();
        let place = open_place(&self.order, id);
        let row = &mut self.order[place];
        let slot = row.slot;
        let before = row.alive.replace(commit);
        let deadline = self.slots[slot].alive(time, seq, event);
        self.deadlines.set(slot, deadline);
        close_held(before, by, lender);
    }

    /// Ends an open session, for the entry with the index `by`: its commits are closed, and all that it kept is dropped. All that the
    /// table holds is out at this lender. It takes no memory.
    pub fn close(&mut self, id: Index, by: Index, lender: &mut Lender)
        requires open { IsOpen id self.old }
        requires held { AreOut (places_of (table_cells self.old)) lender.old }
        ensures sessions { self.new.sessions ≡ without_id id self.old.sessions }
        ensures beside { self.new.beside ≡ filter (λ b. not (b.id == id)) self.old.beside }
        ensures cells { (time : ℕ) (expired : Bool) → table_cells self.new ≡ after (table_cells self.old) by (record { time = time; body = body.Close id expired }) }
        ensures released { Releases (places_of (table_cells self.old)) (places_of (table_cells self.new)) by lender.old lender.new }
        ensures rooms { (other : ℕ) → other ≢ id → KeepsRoom other self.old self.new }
        ensures spare { self.old.spare ≤ self.new.spare }
    {
        let place = open_place(&self.order, id);
        match self.order.remove(place) {
            Some(row) => {
                let slot = close_row(row, by, lender);
                self.slots.remove(slot);
                self.deadlines.set(slot, u64::MAX);
            }
            None => unreachable!(),
        }
    }

    /// Makes room for one more reply of an open session. The rest stays, whatever it answers.
    pub fn prepare_reply(&mut self, id: Index) -> Result<(), NoMemory>
        requires { IsOpen id self.old }
        ensures ok { OnOk result (1 ≤ reply_room id self.new) }
        ensures same { IsSame self.old self.new }
        ensures rooms { (other : ℕ) → KeepsRoom other self.old self.new }
        ensures spare { self.new.spare ≡ self.old.spare }
    {
        let slot = open_slot(&self.order, id);
        self.slots[slot].prepare_reply()
    }

    /// Keeps the reply of an open session's command, whose sequence becomes its last one. The sequence is above the last one, and the
    /// index is above those of the replies that the session keeps. There is room for it. It takes no memory.
    pub fn keep(&mut self, id: Index, seq: u64, index: Index, reply: Reply)
        requires open { IsOpen id self.old }
        requires prepared { 1 ≤ reply_room id self.old }
        requires index { 1 ≤ index }
        requires newer { NewerReply seq index (session_at id self.old) }
        ensures sessions { self.new.sessions ≡ changed id (with_reply seq index reply) self.old.sessions }
        ensures beside { self.new.beside ≡ self.old.beside }
        ensures replies { (other : ℕ) → other ≢ id → reply_room other self.old ≤ reply_room other self.new }
        ensures batches { (other : ℕ) → batch_room other self.old ≤ batch_room other self.new }
        ensures spare { self.new.spare ≡ self.old.spare }
    {
        let slot = open_slot(&self.order, id);
        self.slots[slot].keep(seq, index, reply);
    }

    /// Raises the last sequence of an open session to this one, and keeps no reply. It takes no memory.
    pub fn note(&mut self, id: Index, seq: u64)
        requires { IsOpen id self.old }
        ensures sessions { self.new.sessions ≡ changed id (noted seq) self.old.sessions }
        ensures beside { self.new.beside ≡ self.old.beside }
        ensures rooms { (other : ℕ) → KeepsRoom other self.old self.new }
        ensures spare { self.new.spare ≡ self.old.spare }
    {
        let slot = open_slot(&self.order, id);
        self.slots[slot].note(seq);
    }

    /// Makes room for one more batch of an open session. The rest stays, whatever it answers.
    pub fn prepare_batch(&mut self, id: Index) -> Result<(), NoMemory>
        requires { IsOpen id self.old }
        ensures ok { OnOk result (1 ≤ batch_room id self.new) }
        ensures same { IsSame self.old self.new }
        ensures rooms { (other : ℕ) → KeepsRoom other self.old self.new }
        ensures spare { self.new.spare ≡ self.old.spare }
    {
        let slot = open_slot(&self.order, id);
        self.slots[slot].prepare_batch()
    }

    /// Keeps one more batch of an open session, whose index is above those of the batches that it keeps. There is room for it. A batch
    /// without events isn't kept, and neither is one that isn't above the acknowledged event, which no log brings about. It takes no
    /// memory.
    pub fn push(&mut self, id: Index, index: Index, events: Events)
        requires open { IsOpen id self.old }
        requires prepared { 1 ≤ batch_room id self.old }
        requires newer { NewerBatch index (session_at id self.old) }
        ensures sessions { self.new.sessions ≡ changed id (pushed index events) self.old.sessions }
        ensures beside { self.new.beside ≡ self.old.beside }
        ensures replies { (other : ℕ) → reply_room other self.old ≤ reply_room other self.new }
        ensures batches { (other : ℕ) → other ≢ id → batch_room other self.old ≤ batch_room other self.new }
        ensures spare { self.new.spare ≡ self.old.spare }
    {
        let slot = open_slot(&self.order, id);
        self.slots[slot].push(index, events);
    }

    /// Retires all that it holds, and ends. All of that is out at this lender. It takes no memory.
    pub fn end(self, lender: &mut Lender)
        requires { AreOut (places_of (table_cells self)) lender.old }
        ensures { Retires (places_of (table_cells self)) lender.old lender.new }
    {
        let Sessions {
            mut order,
            slots: _slots,
            deadlines: _deadlines,
        } = self;
        while let Some(
            Row {
                register,
                alive,
                slot: _,
            },
        ) = order.pop_front()
        {
            retire_held(Some(register), lender);
            retire_held(alive, lender);
        }
        order.destroy_empty();
    }
}
