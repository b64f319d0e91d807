// A file that a compaction wrote takes the place of those in its range.
ghost use Rattle.std.specs.Prelude.{◌≡◌, ◌≢◌, ◌++◌, ◌∷◌, ◌<◌, ◌≤◌, List, IsTrue, OnOk, None, Contains, length};
ghost use Rattle.disk_model.specs.Image.{Place, place};
ghost use Rattle.disk_model.specs.View.{LeavesAt, HasCause};
ghost use Rattle.disk_model.specs.declared.file_id.FileId.{FileId};
ghost use Rattle.segment_set.specs.Exchange.{HasRun, Replaces, ids_of};
ghost use Rattle.segment_set.specs.Fits.{Fits, IsOpenIn};
ghost use Rattle.segment_set.specs.Load.{AreListed, OrGone};

use crate::opened::Opened;
use crate::parts::Parts;
use crate::reads::first_reaching;
use disk_model::{Disk, DiskFault};
use host_types::LogName;

/// Removes these files of a name.
fn remove_files<D: Disk>(disk: &mut D, name: &LogName, files: &[Opened]) -> Result<(), DiskFault>
    requires listed { IsTrue D.tells → AreListed (D.view disk.old) name.now (ids_of files.now) }
    ensures any_moment { IsTrue D.tells → LeavesAt (D.view disk.old) (D.view disk.new) (OrGone (D.view disk.old) name.now (ids_of files.now)) }
    ensures gone { OnOk result (IsTrue D.tells → (id : FileId) → Contains (ids_of files.now) id → (D.view disk.new).reading (place name.now id) ≡ None) }
    ensures others { IsTrue D.tells → (q : Place) → ((id : FileId) → Contains (ids_of files.now) id → q ≢ place name.now id) → (D.view disk.new).reading q ≡ (D.view disk.old).reading q }
    ensures cause { HasCause (D.faults disk.old) (D.faults disk.new) result }
{
    for one in files {
        disk.remove(name, one.id)?;
    }
    Ok(())
}

impl Parts {
    /// The file at `from` is another one now, and those behind it up to `to` are forgotten.
    fn exchange(&mut self, new: Opened, from: usize, to: usize)
        requires run { (front run back : List Opened) × HasRun self.old.sealed.items self.old.tail new front run back × (length front ≡ from) × (length (front ++ run) ≡ to) }
        ensures sealed { (front run back : List Opened) → HasRun self.old.sealed.items self.old.tail new front run back → length front ≡ from → length (front ++ run) ≡ to → self.new.sealed.items ≡ front ++ new ∷ back }
        ensures tail { self.new.tail ≡ self.old.tail }
        ensures offsets { self.new.offsets ≡ self.old.offsets }
        ensures greatest { self.new.greatest ≡ self.old.greatest }
        ensures name { self.new.name ≡ self.old.name }
    {
        self.sealed[from] = new;
        self.sealed.drain(from + 1..to);
    }

    /// Takes a file that a compaction wrote, whose gate is open, in place of those in its range, and removes these. It takes no memory.
    /// A crash at any moment leaves the new part; from an Ok on the others are gone.
    pub fn replace<D: Disk>(&mut self, disk: &mut D, new: Opened) -> Result<(), DiskFault>
        requires fits { IsTrue D.tells → Fits (D.view disk.old) self.old }
        requires run { (front run back : List Opened) × HasRun self.old.sealed.items self.old.tail new front run back }
        requires open { IsTrue D.tells → IsOpenIn self.old.name (D.view disk.old).reading new }
        ensures { Replaces D.tells (D.view disk.old) (D.view disk.new) (D.faults disk.old) (D.faults disk.new)
            self.old self.new new result }
    {
        let from = first_reaching(&self.sealed, new.id.base);
        let to = first_reaching(&self.sealed, new.part.last) + 1;
        match remove_files(disk, &self.name, &self.sealed[from..to]) {
            Ok(()) => {
                self.exchange(new, from, to);
                Ok(())
            }
            Err(fault) => {
                drop(new);
                Err(fault)
            }
        }
    }
}
