// One open session, but for its commits.
ghost use Rattle.std.specs.Prelude.{◌≡◌, ◌+◌, ◌≤◌, ◌<◌, max, cond, is_ok, IfErr, OnOk};
ghost use Rattle.std.specs.Option.{option_map, option_copied};
ghost use Rattle.log_model.specs.plain.Admission.{is_due, reply_kept};
ghost use Rattle.log_model.specs.plain.Quiet.{greatest_below};
ghost use Rattle.log_model.specs.plain.Step.{new_session, with_reply};
ghost use Rattle.event_batches.specs.Kept.{as_batch, served, has_batch, can_confirm};
ghost use Rattle.event_batches.specs.Rising.{AreBelow};
ghost use Rattle.session_table.specs.Kept.{session_indexes, batch_indexes};
ghost use Rattle.session_table.specs.Deadlines.{deadline};
ghost use Rattle.session_table.specs.Replies.{reply_indexes};
ghost use Rattle.log_model.specs.replay.Replay.{after_alive, noted, pushed};
ghost use Rattle.session_table.specs.Table.{view_of};

use crate::replies::Replies;
use crate::view::SessionView;
use event_batches::{Batch, Events, Queue};
use host_types::{Index, NoMemory, Reply, Time};
use std::alloc::Global;
use std::marker::Model;

// An open session with what it keeps. Contracts see the session as the model has it, the event that was confirmed last, and the
// room.
#[derive(Drop)]
pub(crate) struct OpenSession {
    id: Index,
    timeout: u64,
    last_time: Time,
    seq: u64,
    acked_seq: u64,
    replies: Replies,
    batches: Queue,
}

impl Model for OpenSession {
    ghost use Rattle.session_table.specs.Kept.{Kept_session};

    ghost Value = { Kept_session };

    ghost use Rattle.session_table.specs.KeptInside.{session_shown, SeqIsLast};

    ghost view = { session_shown };

    ghost invariant = { SeqIsLast };
}

impl OpenSession {
    pub(crate) fn new(alloc: Global, id: Index, time: Time, timeout: u64) -> OpenSession
        ensures session { result.session ≡ new_session id time timeout }
        ensures confirmed { result.confirmed ≡ id }
    {
        OpenSession {
            id,
            timeout,
            last_time: time,
            seq: 0,
            acked_seq: 0,
            replies: Replies::new(alloc),
            batches: Queue::new(alloc, id),
        }
    }

    pub(crate) fn view(&self) -> SessionView
        ensures { result ≡ view_of self.now.confirmed self.now.session }
    {
        SessionView {
            timeout: self.timeout,
            last_time: self.last_time,
            seq: self.seq,
            acked_seq: self.acked_seq,
            acked_event: self.batches.acked(),
            confirmed: self.batches.confirmed(),
        }
    }

    pub(crate) fn is_due(&self, time: Time) -> bool
        ensures { result ≡ is_due time self.now.session }
    {
        time > self.last_time && time - self.last_time > self.timeout
    }

    pub(crate) fn cached(&self, seq: u64) -> Option<&Reply>
        ensures { option_copied result ≡ option_map (λ r. r.reply) (reply_kept seq self.now.session) }
    {
        self.replies.find(seq)
    }

    pub(crate) fn quiet(&self, last: Index) -> Index
        ensures { result ≡ greatest_below last (session_indexes self.now.session) }
    {
        self.replies.quiet(self.batches.quiet(last))
    }

    pub(crate) fn batch(&self) -> Option<&Batch>
        ensures { option_map as_batch (option_copied result) ≡ served self.now.session.acked_event self.now.confirmed self.now.session.batches }
    {
        self.batches.first()
    }

    pub(crate) fn has_batch(&self, event: Index) -> bool
        ensures { result ≡ has_batch event self.now.session.batches }
    {
        self.batches.has(event)
    }

    pub(crate) fn confirm(&mut self, event: Index) -> Result<(), Index>
        ensures answer { is_ok result ≡ can_confirm event self.old.session.acked_event self.old.confirmed self.old.session.batches }
        ensures err { IfErr result (λ at. at ≡ self.old.confirmed) }
        ensures confirmed { self.new.confirmed ≡ cond (is_ok result) event self.old.confirmed }
        ensures session { self.new.session ≡ self.old.session }
        ensures reply_room { self.new.reply_room ≡ self.old.reply_room }
        ensures batch_room { self.new.batch_room ≡ self.old.batch_room }
    {
        self.batches.confirm(event)
    }

    // Its new deadline is answered.
    pub(crate) fn alive(&mut self, time: Time, seq: u64, event: Index) -> Time
        ensures deadline { result ≡ deadline self.new.session }
        ensures session { self.new.session ≡ after_alive time seq event self.old.session }
        ensures confirmed { self.new.confirmed ≡ max self.old.confirmed event }
        ensures reply_room { self.old.reply_room ≤ self.new.reply_room }
        ensures batch_room { self.old.batch_room ≤ self.new.batch_room }
    {
        self.last_time = time;
        self.acked_seq = seq;
        self.replies.trim(seq);
        self.batches.trim(event);
        time.saturating_add(self.timeout)
    }

    pub(crate) fn prepare_reply(&mut self) -> Result<(), NoMemory>
        ensures ok { OnOk result (1 ≤ self.new.reply_room) }
        ensures session { self.new.session ≡ self.old.session }
        ensures confirmed { self.new.confirmed ≡ self.old.confirmed }
        ensures reply_room { self.old.reply_room ≤ self.new.reply_room }
        ensures batch_room { self.new.batch_room ≡ self.old.batch_room }
    {
        self.replies.prepare()
    }

    pub(crate) fn keep(&mut self, seq: u64, index: Index, reply: Reply)
        requires prepared { 1 ≤ self.old.reply_room }
        requires some_index { 0 < index }
        requires seq { self.old.session.seq < seq }
        requires index { AreBelow index (reply_indexes self.old.session.replies) }
        ensures session { self.new.session ≡ with_reply seq index reply self.old.session }
        ensures confirmed { self.new.confirmed ≡ self.old.confirmed }
        ensures batch_room { self.new.batch_room ≡ self.old.batch_room }
    {
        self.seq = seq;
        self.replies.push(seq, index, reply);
    }

    pub(crate) fn note(&mut self, seq: u64)
        ensures session { self.new.session ≡ noted seq self.old.session }
        ensures confirmed { self.new.confirmed ≡ self.old.confirmed }
        ensures reply_room { self.new.reply_room ≡ self.old.reply_room }
        ensures batch_room { self.new.batch_room ≡ self.old.batch_room }
    {
        self.seq = self.seq.max(seq);
    }

    pub(crate) fn prepare_batch(&mut self) -> Result<(), NoMemory>
        ensures ok { OnOk result (1 ≤ self.new.batch_room) }
        ensures session { self.new.session ≡ self.old.session }
        ensures confirmed { self.new.confirmed ≡ self.old.confirmed }
        ensures reply_room { self.new.reply_room ≡ self.old.reply_room }
        ensures batch_room { self.old.batch_room ≤ self.new.batch_room }
    {
        self.batches.prepare()
    }

    pub(crate) fn push(&mut self, index: Index, events: Events)
        requires prepared { 1 ≤ self.old.batch_room }
        requires index { AreBelow index (batch_indexes self.old.session.batches) }
        ensures session { self.new.session ≡ pushed index events self.old.session }
        ensures confirmed { self.new.confirmed ≡ self.old.confirmed }
        ensures reply_room { self.new.reply_room ≡ self.old.reply_room }
    {
        self.batches.push(index, events);
    }
}
