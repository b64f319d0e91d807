// The core of a host: its machine, its sessions and its commits.
ghost use Rattle.std.specs.Prelude.{◌≡◌, ℕ, ◌<◌, ◌+◌, [], None, true, false, cond, is_ok, IfErr, IfOk, IfSome, OnOk, OnErr};
ghost use Rattle.std.specs.FinMap.{empty, insert, remove};
ghost use Rattle.host_types.specs.Cells.{places_of};
ghost use Rattle.host_types.specs.Ranges.{EntryFits, IsInRange, IsIndex};
ghost use Rattle.commit_lending.specs.Lent.{tokens};
ghost use Rattle.log_model.specs.plain.Admission.{Offered, due_in};
ghost use Rattle.log_model.specs.hosted.Hosted.{hosted_admits, hosted_entry, hosted_nothing, hosted_quiet, hosted_told, machine_cells};
ghost use Rattle.log_model.specs.replay.Replay.{replay_entry};
ghost use Rattle.log_model.specs.hosted.Sound.{IsSound};
ghost use Rattle.host_core.specs.Answers.{Decides_as, IsStorable};
ghost use Rattle.session_table.specs.Asked.{confirms};
ghost use Rattle.session_table.specs.Table.{ConfirmsAcked, IsOpen, IsSame, confirmed_of, confirmed_positions};
ghost use Rattle.host_core.specs.Entering.{confirmed_by};
ghost use Rattle.log_model.specs.serving.Positions.{moved_to, position_changed};
ghost use Rattle.released_marks.specs.Marks.{is_present, is_unmarked};
ghost use Rattle.host_core.specs.CoreState.{HasRoom, IsPrepared, hosted};
ghost use Rattle.host_core.specs.Marking.{AreMarked, HasMarks};

use crate::batching::Batches;
use crate::deciding::{DecideError, Decided, decide_ask, decide_at_end};
use crate::entering::make_room;
use crate::taking::{add_index, take};
use commit_lending::Lender;
use host_types::{Body, Entry, Index, NoMemory, Offer, Refusal, Time};
use machine::Machine;
use released_marks::Marks;
use session_table::Sessions;
use std::alloc::Global;
use std::marker::Model;

/// The state of a host in memory, over any machine. It is seen as its machine, its sessions, its lender, its marks, the last index and
/// the log's time (`CoreState`); all but the lender and the marks are the state `hosted`.
///
/// What it makes of offers and entries is told by the machine's decision alone (`log_model`'s `Hosted` and `Replay`). Between two
/// calls exactly the entries that hold a cell are out at its lender, and none is closed. An entry that holds none has a mark, the index
/// of the entry that released it: the one that took away its last cell, or itself.
pub struct Core<M: Machine> {
    machine: M,
    sessions: Sessions,
    lender: Lender,
    marks: Marks,
    last: Index,
    time: Time,
}

impl<M: Machine> Model for Core<M> {
    ghost use Rattle.std.specs.Coded.{codes};
    ghost use Rattle.host_core.specs.CoreState.{IsKept, CoreState, core_code};

    ghost Value = { CoreState M };

    ghost coded = { core_code M.code (Prim.hlevel codes) };

    ghost view = { λ c. record { machine = c.machine; sessions = c.sessions; lender = c.lender; marks = c.marks; last = c.last; time = c.time } };

    ghost invariant = { λ c. IsKept M.cells (record { machine = c.machine; sessions = c.sessions; lender = c.lender; marks = c.marks; last = c.last; time = c.time }) };
}

/// Room for one entry, made by `reserve`, with the batches of events that the entry makes. It is spent by `apply` or by `cancel`, and
/// is seen as the batches.
pub struct Prepared {
    batches: Batches,
}

impl Model for Prepared {
    ghost use Rattle.host_core.specs.Batching.{Batches};

    ghost Value = { Batches };

    ghost view = { λ prepared. prepared.batches.entries };
}

impl<M: Machine> Core<M> {
    /// A core of the empty log. The machine has no cell. It takes no memory.
    pub fn new(alloc: Global, machine: M) -> Core<M>
        requires { M.cells machine ≡ [] }
        ensures state { hosted M.cells result ≡ hosted_nothing }
        ensures confirmed { ConfirmsAcked result.sessions }
        ensures marks { result.marks ≡ empty }
    {
        Core {
            machine,
            sessions: Sessions::new(alloc),
            lender: Lender::new(alloc),
            marks: Marks::new(alloc),
            last: 0,
            time: 0,
        }
    }

    /// What holds of it, of whatever entries it was made. This call does nothing; it tells a prover so.
    pub fn keeps(&self)
        ensures sound { IsSound (hosted M.cells self.now) }
        ensures machine { machine_cells (hosted M.cells self.now).cells ≡ M.cells self.now.machine }
        // Exactly what holds a cell is out, and nothing is closed that was not yet handed on.
        ensures out { (j : ℕ) → tokens self.now.lender j ≡ places_of (hosted M.cells self.now).cells j }
        ensures closed { self.now.lender.closed ≡ [] }
        // What holds a cell has no mark, and no index above the next one is present.
        ensures marks { HasMarks self.now.last (hosted M.cells self.now).cells self.now.marks }
    {
        let _ = &self.last;
    }

    /// The index of the last entry, or 0.
    pub fn last(&self) -> Index
        ensures { result ≡ (hosted M.cells self.now).last }
    {
        self.last
    }

    /// The log's time: that of the last entry, or 0.
    pub fn now(&self) -> Time
        ensures { result ≡ self.now.time }
    {
        self.time
    }

    /// Its machine.
    pub fn machine(&self) -> &M
        ensures { result.now ≡ self.now.machine }
    {
        &self.machine
    }

    /// Its sessions.
    pub fn sessions(&self) -> &Sessions
        ensures { result.now ≡ self.now.sessions }
    {
        &self.sessions
    }

    /// For each entry the index that released it, if any.
    pub fn marks(&self) -> &Marks
        ensures { result.now ≡ self.now.marks }
    {
        &self.marks
    }

    /// The greatest index, at most the last, at or below which no session waits for a reply or a batch.
    pub fn quiet(&self) -> Index
        ensures { result ≡ hosted_quiet (hosted M.cells self.now) }
    {
        self.sessions.quiet(self.last)
    }

    /// The least id of a session that is due at this time. None comes exactly where nobody is due.
    pub fn due(&self, time: Time) -> Option<Index>
        ensures due { result ≡ due_in time (hosted M.cells self.now).sessions }
        ensures range { IfSome result IsIndex }
    {
        self.sessions.due(time)
    }

    /// Decides an offer: it is stored as an entry, or it repeats a command whose reply is kept, or it is refused. Every refusal comes
    /// exactly by its cause, the first cause alone. Nothing is changed.
    pub fn decide(&self, alloc: Global, offer: &Offer) -> Result<Decided, DecideError>
        ensures decided { Decides_as (hosted_admits M.decides (hosted M.cells self.now) offer.now) (hosted_entry M.decides (hosted M.cells self.now) (Offered offer.now)) result }
        // What is to be stored has its numbers in range.
        ensures range { IfOk result (IsStorable (self.now.last + 1)) }
    {
        offer.fits();
        if offer.time < self.time {
            return Err(DecideError::Refused(Refusal::Time { now: self.time }));
        }
        if let Some(session) = self.due(offer.time) {
            return Err(DecideError::Refused(Refusal::Due { session }));
        }
        let asked = decide_ask(
            alloc,
            &self.machine,
            &self.sessions,
            &offer.ask,
            self.last + 1,
        );
        decide_at_end(asked, offer.time, self.last)
    }

    /// Makes room to apply the entry with the next index, once, and the batches that the entry makes. Its index is added to the marks.
    /// Nothing else is changed, and after an error all is as before.
    pub fn reserve(
        &mut self,
        alloc: Global,
        index: Index,
        entry: &Entry,
    ) -> Result<Prepared, NoMemory>
        requires { index ≡ self.old.last + 1 }
        ensures prepared { IfOk result (IsPrepared M.cells M.is_ready M.decides self.new 0 index entry.now.body) }
        ensures state { hosted M.cells self.new ≡ hosted M.cells self.old }
        ensures sessions { IsSame self.old.sessions self.new.sessions }
        ensures marks { OnOk result (self.new.marks ≡ insert self.old.marks index None) }
        ensures err { OnErr result (self.new.marks ≡ self.old.marks) }
    {
        let batches = self.make_room(alloc, index, &entry.body, 0)?;
        add_index(&mut self.marks, index)?;
        Ok(Prepared { batches })
    }

    /// Makes room for an entry, and the batches that it makes above the cut.
    fn make_room(
        &mut self,
        alloc: Global,
        index: Index,
        body: &Body,
        cut: Index,
    ) -> Result<Batches, NoMemory>
        ensures room { IfOk result (λ batches. HasRoom M.cells M.is_ready M.decides self.new cut index body.now batches.entries) }
        ensures state { hosted M.cells self.new ≡ hosted M.cells self.old }
        ensures sessions { IsSame self.old.sessions self.new.sessions }
        ensures marks { self.new.marks ≡ self.old.marks }
    {
        if self.lender.reserve().is_err() {
            return Err(NoMemory);
        }
        make_room(
            alloc,
            &mut self.machine,
            &mut self.sessions,
            index,
            body,
            cut,
        )
    }

    /// Applies an entry whose index is behind the last one, into the room that was made for it, and marks what it releases. It takes no
    /// memory and can't fail.
    pub fn apply(&mut self, index: Index, entry: Entry, prepared: Prepared)
        requires behind { self.old.last < index }
        requires fits { EntryFits entry }
        requires range { IsInRange index entry }
        requires prepared { IsPrepared M.cells M.is_ready M.decides self.old 0 index entry.body prepared }
        ensures state { hosted M.cells self.new ≡ replay_entry (hosted_told M.decides) 0 (hosted M.cells self.old) (index, entry) }
        ensures positions { confirmed_positions self.new.sessions.beside ≡ confirmed_by index entry.body (confirmed_positions self.old.sessions.beside) }
        ensures marks { AreMarked index (hosted M.cells self.old).cells (hosted M.cells self.new).cells self.old.marks self.new.marks }
    {
        let Prepared { batches } = prepared;
        let time = entry.time;
        take(
            &mut self.machine,
            &mut self.sessions,
            &mut self.lender,
            &mut self.marks,
            index,
            entry,
            batches,
            0,
        );
        self.last = index;
        self.time = time;
    }

    /// Gives the room back: the next index isn't present in the marks any more.
    pub fn cancel(&mut self, prepared: Prepared)
        ensures state { hosted M.cells self.new ≡ hosted M.cells self.old }
        ensures sessions { IsSame self.old.sessions self.new.sessions }
        ensures marks { self.new.marks ≡ remove self.old.marks (self.old.last + 1) }
    {
        let Prepared { batches: _batches } = prepared;
        let next = self.last + 1;
        if self.marks.is_unmarked(next) {
            self.marks.undo(next);
        }
    }

    /// Takes the next entry of a log that is opened again, whose index is behind the last one, and marks what it releases. At or below the
    /// cut no reply and no batch is kept. After an error all is as before.
    pub fn replay(
        &mut self,
        alloc: Global,
        index: Index,
        entry: Entry,
        cut: Index,
    ) -> Result<(), NoMemory>
        requires behind { self.old.last < index }
        requires fits { EntryFits entry }
        requires range { IsInRange index entry }
        ensures ok { OnOk result (hosted M.cells self.new ≡ replay_entry (hosted_told M.decides) cut (hosted M.cells self.old) (index, entry)) }
        ensures err { OnErr result (hosted M.cells self.new ≡ hosted M.cells self.old) }
        ensures positions { OnOk result (confirmed_positions self.new.sessions.beside ≡ confirmed_by index entry.body (confirmed_positions self.old.sessions.beside)) }
        // Of a log that is opened again no event is confirmed that a keep-alive didn't acknowledge.
        ensures confirmed { OnOk result (ConfirmsAcked self.old.sessions → ConfirmsAcked self.new.sessions) }
        ensures sessions { OnErr result (IsSame self.old.sessions self.new.sessions) }
        ensures marks { OnOk result (AreMarked index (hosted M.cells self.old).cells (hosted M.cells self.new).cells (insert self.old.marks index None) self.new.marks) }
        ensures marks_stay { OnErr result (self.new.marks ≡ self.old.marks) }
    {
        let batches = self.make_room(alloc, index, &entry.body, cut)?;
        add_index(&mut self.marks, index)?;
        let time = entry.time;
        take(
            &mut self.machine,
            &mut self.sessions,
            &mut self.lender,
            &mut self.marks,
            index,
            entry,
            batches,
            cut,
        );
        self.last = index;
        self.time = time;
        Ok(())
    }

    /// Confirms the batch of an open session that is to be served, by its index. To confirm the last confirmed event again is right and
    /// changes nothing. Any other event is refused with the confirmed one, and changes nothing. It isn't stored, and takes no memory.
    pub fn confirm(&mut self, id: Index, event: Index) -> Result<(), Index>
        requires { IsOpen id self.old.sessions }
        ensures answer { is_ok result ≡ confirms id event self.old.sessions }
        ensures event { OnOk result (confirmed_of id self.new.sessions ≡ event) }
        ensures err { IfErr result (λ at. at ≡ confirmed_of id self.old.sessions) }
        ensures state { hosted M.cells self.new ≡ hosted M.cells self.old }
        ensures positions { confirmed_positions self.new.sessions.beside ≡ cond (is_ok result) (position_changed id (moved_to event) (confirmed_positions self.old.sessions.beside)) (confirmed_positions self.old.sessions.beside) }
        ensures marks { self.new.marks ≡ self.old.marks }
    {
        self.sessions.confirm(id, event)
    }

    /// Takes an index that is present and has a mark out of the marks: its entry isn't in the log any more. It takes no memory.
    pub fn forget(&mut self, index: Index)
        requires present { is_present index self.old.marks ≡ true }
        requires marked { is_unmarked index self.old.marks ≡ false }
        ensures { self.new ≡ record { machine = self.old.machine; sessions = self.old.sessions; lender = self.old.lender; marks = remove self.old.marks index; last = self.old.last; time = self.old.time } }
    {
        self.marks.forget(index);
    }

    /// Ends it: all that it holds is retired. It takes no memory.
    pub fn end(self) {
        let Core {
            machine,
            sessions,
            mut lender,
            marks: _,
            last: _,
            time: _,
        } = self;
        machine.end(&mut lender);
        sessions.end(&mut lender);
    }
}
