// A host is opened: its files are read, and the entries that they hold are replayed.
ghost use Rattle.std.specs.Prelude.{◌≡◌, ◌≤◌, ◌+◌, ℕ, List, [], false, true, IsTrue, IfOk, OnOk, OnErr, IsErrOf};
ghost use Rattle.std.specs.FinMap.{empty};
ghost use Rattle.disk_model.specs.View.{LeavesOnly};
ghost use Rattle.disk_model.specs.Calls.{Looks};
ghost use Rattle.segment_files.specs.Folder.{entries_of};
ghost use Rattle.segment_set.specs.Fits.{Fits, cut_by, last_of, parts_in};
ghost use Rattle.segment_set.specs.Load.{HasOpenCause, Loads};
ghost use Rattle.log_model.specs.plain.Admission.{Item};
ghost use Rattle.log_model.specs.hosted.Hosted.{hosted_nothing, hosted_told};
ghost use Rattle.log_model.specs.cleaning.Layout.{alone};
ghost use Rattle.log_model.specs.replay.Replay.{replay_from, replayed};
ghost use Rattle.session_table.specs.Table.{ConfirmsAcked};
ghost use Rattle.host_core.specs.CoreState.{hosted};
ghost use Rattle.host_core.specs.Marking.{AreMarksOf};
ghost use Rattle.host_recovery.specs.Standing.{StandsAt, layout_in};
ghost use Rattle.host_recovery.specs.Logs.{StandsFor, hosted_form};
ghost use Rattle.host_recovery.specs.Opening.{Opens, disk_behind, opened_again, opening_result};

use crate::host::Host;
use disk_model::Disk;
use host_core::Core;
use host_types::LogName;
use machine::Machine;
use segment_set::{OpenError, Parts};
use std::alloc::Global;
use std::mem;

/// Replays what these files hold, one entry after the other, each read from its place, and marks what each releases. No reply and no
/// batch is kept up to the greatest cut of the files.
fn replay_all<D: Disk, M: Machine>(
    alloc: Global,
    disk: &mut D,
    core: &mut Core<M>,
    parts: &Parts,
) -> Result<(), OpenError>
    requires fits { IsTrue D.tells → Fits (D.view disk.old) parts.now }
    requires fresh { hosted M.cells core.old ≡ hosted_nothing }
    requires unmarked { core.old.marks ≡ empty }
    ensures state { OnOk result (IsTrue D.tells → hosted M.cells core.new ≡ replay_from (hosted_told M.decides) (cut_by parts.now.sealed.items) (hosted M.cells core.old) (entries_of (parts_in (D.view disk.old).reading parts.now))) }
    ensures last { OnOk result (core.new.last ≡ last_of parts.now) }
    ensures marks { OnOk result (IsTrue D.tells → AreMarksOf (entries_of (parts_in (D.view disk.old).reading parts.now)) core.new.marks) }
    ensures confirmed { OnOk result (ConfirmsAcked core.old.sessions → ConfirmsAcked core.new.sessions) }
    ensures undamaged { (base generation at : ℕ) → IsErrOf result (OpenError.Damaged base generation at) → IsTrue D.tells → ⊥ }
    ensures looks { IsTrue D.tells → Looks (D.view disk.old) (D.view disk.new) }
    ensures cause { HasOpenCause (D.faults disk.old) (D.faults disk.new) result }
{
    let cut = parts.cut();
    let mut index = 0;
    while let Some(next) = parts.next_present(index) {
        let found = match parts.read(alloc, disk, next) {
            Ok(found) => found,
            Err(error) => return Err(error),
        };
        if let Some(entry) = found {
            match core.replay(alloc, next, entry, cut) {
                Ok(()) => {}
                Err(_) => return Err(OpenError::NoMemory),
            }
        }
        index = next;
    }
    Ok(())
}

/// Opens the files of a name, and replays what they hold.
fn load<D: Disk, M: Machine>(
    alloc: Global,
    disk: &mut D,
    core: &mut Core<M>,
    name: &LogName,
) -> Result<Parts, OpenError>
    requires fresh { hosted M.cells core.old ≡ hosted_nothing }
    requires unmarked { core.old.marks ≡ empty }
    requires unconfirmed { ConfirmsAcked core.old.sessions }
    ensures loads { Loads D.tells (D.view disk.old) (D.view disk.new) (D.faults disk.old) (D.faults disk.new)
        name.now result }
    ensures state { IfOk result (λ parts. IsTrue D.tells → hosted M.cells core.new ≡ replayed (hosted_told M.decides) (cut_by parts.sealed.items) (entries_of (parts_in (D.view disk.new).reading parts))) }
    ensures last { IfOk result (λ parts. core.new.last ≡ last_of parts) }
    ensures marks { IfOk result (λ parts. IsTrue D.tells → AreMarksOf (entries_of (parts_in (D.view disk.new).reading parts)) core.new.marks) }
    ensures confirmed { OnOk result (ConfirmsAcked core.new.sessions) }
{
    let parts = match Parts::load(alloc, disk, name) {
        Ok(parts) => parts,
        Err(error) => return Err(error),
    };
    match replay_all(alloc, disk, core, &parts) {
        Ok(()) => Ok(parts),
        Err(error) => {
            drop(parts);
            Err(error)
        }
    }
}

impl<D: Disk, M: Machine> Host<D, M> {
    /// Opens the log of a name over a machine with no cell, with so many entries before the next file is begun: what is read is what
    /// every crash leaves from then on. On an error the disk is given back; where it is `Damaged` no file has been removed.
    ///
    /// On a folder that is in order for a log, the host stands at the prefix of the log that was read. No event is confirmed that no
    /// keep-alive acknowledged.
    pub fn open(
        alloc: Global,
        disk: D,
        machine: M,
        name: &LogName,
        segment: u32,
    ) -> Result<Host<D, M>, (D, OpenError)>
        requires none { M.cells machine ≡ [] }
        requires least { 2 ≤ segment }
        requires most { segment ≤ 65536 }
        ensures { Opens M.decides D.tells D.view D.faults M.cells
            disk (disk_behind result) name.now segment (opening_result result) }
    {
        let mut disk = disk;
        let mut core = Core::new(alloc, machine);
        match load(alloc, &mut disk, &mut core, name) {
            Ok(parts) => Ok(Host {
                disk,
                parts,
                core,
                size: segment,
                stopped: false,
                frame: Vec::new(alloc),
                places: Vec::new(alloc),
            }),
            Err(error) => {
                core.end();
                Err((disk, error))
            }
        }
    }

    /// Closes the host and opens it again, over a machine with no cell: what stands in memory is let go of, the files of the name are
    /// read once more, and what no part of the log is is removed. On an error the host is stopped.
    ///
    /// A host that is stopped opens what its folder stands for, as `open` does. One that runs stands at the same log again, and so
    /// does whatever a crash leaves on the way.
    pub fn reopen(&mut self, alloc: Global, machine: M) -> Result<(), OpenError>
        requires { M.cells machine ≡ [] }
        ensures opens { Opens M.decides D.tells D.view D.faults M.cells
            self.old.disk self.new.disk self.old.parts.name self.old.size (opened_again self.new result) }
        ensures stops { OnErr result (self.new.stopped ≡ true) }
        ensures name { self.new.parts.name ≡ self.old.parts.name }
        ensures size { self.new.size ≡ self.old.size }

        // Where it ran.
        ensures stands { IsTrue D.tells → (items : List Item) → StandsAt M.decides D.view M.cells self.old items → OnOk result (StandsAt M.decides D.view M.cells self.new items) }
        ensures layout { IsTrue D.tells → (items : List Item) → StandsAt M.decides D.view M.cells self.old items
            → OnOk result (layout_in (D.view self.new.disk) self.new.parts ≡ alone (layout_in (D.view self.old.disk) self.old.parts)) }
        ensures any_moment { IsTrue D.tells → (items : List Item) → StandsAt M.decides D.view M.cells self.old items
            → LeavesOnly (D.view self.old.disk) (D.view self.new.disk) (λ image. StandsFor (hosted_form M.decides) self.old.parts.name image items) }
        ensures undamaged { (base generation at : ℕ) → IsErrOf result (OpenError.Damaged base generation at) → IsTrue D.tells → self.old.stopped ≡ false → ⊥ }
    {
        let name = self.parts.name;
        self.stopped = true;
        mem::replace(&mut self.core, Core::new(alloc, machine)).end();
        match load(alloc, &mut self.disk, &mut self.core, &name) {
            Ok(parts) => {
                self.parts = parts;
                self.stopped = false;
                Ok(())
            }
            Err(error) => Err(error),
        }
    }
}
