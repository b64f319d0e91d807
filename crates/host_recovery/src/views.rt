// What a host shows.
ghost use Rattle.std.specs.Prelude.{◌≡◌, false, true, List, length, map, is_none, IsTrue, IfOk};
ghost use Rattle.disk_model.specs.Image.{Image};
ghost use Rattle.disk_model.specs.View.{MayLeave};
ghost use Rattle.segment_set.specs.Fits.{IsEmptyWhereNone};
ghost use Rattle.segment_set.specs.Views.{LieFrom};
ghost use Rattle.log_model.specs.cleaning.Layout.{alone, needs_file};
ghost use Rattle.host_recovery.specs.Census.{census_of};
ghost use Rattle.host_recovery.specs.FileLayout.{LiesAlone};
ghost use Rattle.host_recovery.specs.Logs.{StandsFor, hosted_form};
ghost use Rattle.host_recovery.specs.Standing.{StandsAt, layout_in};
ghost use Rattle.host_types.specs.Decision.{is_looking};
ghost use Rattle.log_model.specs.plain.Admission.{Item, due_in};
ghost use Rattle.log_model.specs.hosted.Hosted.{hosted_quiet, machine_cells};
ghost use Rattle.session_table.specs.Table.{view_at};
ghost use Rattle.host_core.specs.CoreState.{hosted};
ghost use Rattle.host_recovery.specs.Answers.{IsShown};

use crate::answers::AskError;
use crate::host::Host;
use disk_model::Disk;
use host_types::{Index, Key, NoMemory, Op, Reply, Time};
use machine::{Machine, Refuse};
use segment_set::PartView;
use session_table::SessionView;
use std::alloc::Global;

impl<D: Disk, M: Machine> Host<D, M> {
    /// What holds of a host that stands at a log: of whatever a crash leaves now, and of how its files lie. This call does nothing;
    /// it tells a prover so.
    pub fn keeps(&self)
        ensures images { IsTrue D.tells → (items : List Item) → StandsAt M.decides D.view M.cells self.now items
            → (image : Image) → MayLeave (D.view self.now.disk) image → StandsFor (hosted_form M.decides) self.now.parts.name image items }
        ensures empty { IsTrue D.tells → (items : List Item) → StandsAt M.decides D.view M.cells self.now items → IsEmptyWhereNone (D.view self.now.disk) self.now.parts.name }
        ensures last { (items : List Item) → StandsAt M.decides D.view M.cells self.now items → (hosted M.cells self.now.core).last ≡ length items }
        ensures layout { IsTrue D.tells → (items : List Item) → StandsAt M.decides D.view M.cells self.now items
            → LiesAlone self.now.parts.name (D.view self.now.disk).reading (alone (layout_in (D.view self.now.disk) self.now.parts)) }
        ensures file { IsTrue D.tells → (items : List Item) → StandsAt M.decides D.view M.cells self.now items
            → needs_file (layout_in (D.view self.now.disk) self.now.parts) ≡ is_none self.now.parts.tail }
    {
        let _ = &self.stopped;
    }

    /// The index of the last entry, or 0.
    pub fn last(&self) -> Index
        ensures { result ≡ (hosted M.cells self.now.core).last }
    {
        self.core.last()
    }

    /// The log's time: that of the last entry, or 0.
    pub fn now(&self) -> Time
        ensures { result ≡ (hosted M.cells self.now.core).now }
    {
        self.core.now()
    }

    /// The greatest index, at most the last, at or below which no session waits for a reply or a batch.
    pub fn quiet(&self) -> Index
        ensures { result ≡ hosted_quiet (hosted M.cells self.now.core) }
    {
        self.core.quiet()
    }

    /// How the log lies in its files: each part, by rising base.
    pub fn census(&self) -> Result<Vec<PartView>, NoMemory>
        ensures census { IfOk result (λ list. self.now.stopped ≡ false → IsTrue D.tells → list.items ≡ census_of (layout_in (D.view self.now.disk) self.now.parts).parts) }
        ensures lie { IfOk result (λ list. LieFrom 1 list.items) }
    {
        self.parts.views()
    }

    /// Whether the disk failed, or a call of the disk found no memory.
    pub fn stopped(&self) -> bool
        ensures { result ≡ self.now.stopped }
    {
        self.stopped
    }

    /// The ids of the open sessions, rising.
    pub fn sessions(&self) -> Result<Vec<Index>, NoMemory>
        ensures { IfOk result (λ list. list.items ≡ map (λ x. x.id) (hosted M.cells self.now.core).sessions) }
    {
        self.core.sessions().ids()
    }

    /// What is told of an open session; nothing where it isn't open.
    pub fn session(&self, id: Index) -> Option<SessionView>
        ensures { result ≡ view_at id self.now.core.sessions }
    {
        self.core.sessions().find(id)
    }

    /// The session that is due at this time, with the least id, if one is.
    pub fn due(&self, time: Time) -> Option<Index>
        ensures { result ≡ due_in time (hosted M.cells self.now.core).sessions }
    {
        self.core.sessions().due(time)
    }

    /// What an operation shows that only looks. It changes nothing.
    pub fn ask(&self, alloc: Global, name: &Key, op: &Op) -> Result<Reply, AskError>
        requires { is_looking op.now ≡ true }
        ensures { IsShown self.now.stopped (M.decides.look (machine_cells (hosted M.cells self.now.core).cells) name.now op.now) result }
    {
        if self.stopped {
            return Err(AskError::Stopped);
        }
        self.core.keeps();
        match self.core.machine().look(alloc, name, op) {
            Ok(reply) => Ok(reply),
            Err(Refuse::NoName) => Err(AskError::NoName),
            Err(Refuse::Kind { is }) => Err(AskError::Kind { is }),
            Err(_) => Err(AskError::NoMemory),
        }
    }
}
