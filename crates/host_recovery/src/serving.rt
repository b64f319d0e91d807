// A host serves the events that its sessions keep.
ghost use Rattle.std.specs.Prelude.{◌≡◌, List, None, IfOk, OnErr, OnOk, cond, is_ok, option_copied};
ghost use Rattle.std.specs.Option.{option_map};
ghost use Rattle.event_batches.specs.Kept.{as_batch};
ghost use Rattle.session_table.specs.Asked.{batch_at};
ghost use Rattle.session_table.specs.Table.{IsOpen, confirmed_of, confirmed_positions, session_at};
ghost use Rattle.log_model.specs.plain.Admission.{Item};
ghost use Rattle.log_model.specs.serving.Positions.{moved_to, position_changed};
ghost use Rattle.host_core.specs.CoreState.{hosted};
ghost use Rattle.host_recovery.specs.Serving.{IsAcknowledged};
ghost use Rattle.host_recovery.specs.Standing.{StandsAt};

use crate::host::Host;
use disk_model::Disk;
use event_batches::Batch;
use host_types::Index;
use machine::Machine;

/// The session isn't open.
#[derive(Clone, Copy, Debug, PartialEq, Eq)]
pub struct NoSession;

/// Why an acknowledgement isn't taken.
#[derive(Clone, Copy, Debug, PartialEq, Eq)]
pub enum AckError {
    /// The session isn't open.
    NoSession,
    /// The event is neither that of the batch that is served, nor the one that was confirmed last, which this is.
    NotServed { confirmed: Index },
}

impl<D: Disk, M: Machine> Host<D, M> {
    /// The first batch of a session that was neither acknowledged by a keep-alive nor confirmed; nothing where there is none. Its
    /// previous index is that of the batch before it, or the acknowledged event. It takes no memory.
    pub fn serve(&self, session: Index) -> Result<Option<&Batch>, NoSession>
        ensures served { IfOk result (λ batch. option_map as_batch (option_copied batch) ≡ batch_at session self.now.core.sessions) }
        ensures is_open { OnOk result (IsOpen session self.now.core.sessions) }
        ensures no_session { OnErr result (session_at session self.now.core.sessions ≡ None) }
    {
        if self.core.sessions().find(session).is_none() {
            return Err(NoSession);
        }
        Ok(self.core.sessions().batch(session))
    }

    /// Confirms the batch of a session that is served, by its index, so that the next one is served. To confirm it again is right
    /// and changes nothing. It isn't stored: at the next opening only keep-alives count. It takes no memory.
    pub fn ack(&mut self, session: Index, event: Index) -> Result<(), AckError>
        ensures answer { IsAcknowledged session event self.old.core.sessions result }
        ensures confirmed { confirmed_positions self.new.core.sessions.beside ≡ cond (is_ok result) (position_changed session (moved_to event) (confirmed_positions self.old.core.sessions.beside))
            (confirmed_positions self.old.core.sessions.beside) }
        ensures event { OnOk result (confirmed_of session self.new.core.sessions ≡ event) }
        ensures state { hosted M.cells self.new.core ≡ hosted M.cells self.old.core }
        ensures marks { self.new.core.marks ≡ self.old.core.marks }
        ensures stands { (items : List Item) → StandsAt M.decides D.view M.cells self.old items → StandsAt M.decides D.view M.cells self.new items }
        ensures disk { self.new.disk ≡ self.old.disk }
        ensures parts { self.new.parts ≡ self.old.parts }
        ensures size { self.new.size ≡ self.old.size }
        ensures stopped { self.new.stopped ≡ self.old.stopped }
    {
        if self.core.sessions().find(session).is_none() {
            return Err(AckError::NoSession);
        }
        match self.core.confirm(session, event) {
            Ok(()) => Ok(()),
            Err(confirmed) => Err(AckError::NotServed { confirmed }),
        }
    }
}
