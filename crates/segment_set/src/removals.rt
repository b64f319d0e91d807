// Files that stand for nothing are removed, one by one.
ghost use Rattle.std.specs.Prelude.{◌≡◌, ◌≢◌, ◌++◌, IsTrue, OnOk, None, All, Contains};
ghost use Rattle.disk_model.specs.Image.{IsFileId, Place, place};
ghost use Rattle.disk_model.specs.View.{LeavesAt, HasCause};
ghost use Rattle.disk_model.specs.declared.file_id.FileId.{FileId};
ghost use Rattle.segment_set.specs.Load.{AreListed, OrGone};

use disk_model::{Disk, DiskFault, FileId};
use host_types::LogName;

/// Removes these files of a name.
fn remove_all<D: Disk>(disk: &mut D, name: &LogName, ids: &[FileId]) -> Result<(), DiskFault>
    requires ids { All IsFileId ids.now }
    requires listed { IsTrue D.tells → AreListed (D.view disk.old) name.now ids.now }
    ensures any_moment { IsTrue D.tells → LeavesAt (D.view disk.old) (D.view disk.new) (OrGone (D.view disk.old) name.now ids.now) }
    ensures gone { OnOk result (IsTrue D.tells → (id : FileId) → Contains ids.now id → (D.view disk.new).reading (place name.now id) ≡ None) }
    ensures others { IsTrue D.tells → (q : Place) → ((id : FileId) → Contains ids.now id → q ≢ place name.now id) → (D.view disk.new).reading q ≡ (D.view disk.old).reading q }
    ensures cause { HasCause (D.faults disk.old) (D.faults disk.new) result }
{
    for id in ids {
        disk.remove(name, *id)?;
    }
    Ok(())
}

/// Removes the closed files of a name, and those that lie in others.
pub(crate) fn remove_both<D: Disk>(
    disk: &mut D,
    name: &LogName,
    closed: &[FileId],
    covered: &[FileId],
) -> Result<(), DiskFault>
    requires closed { All IsFileId closed.now }
    requires covered { All IsFileId covered.now }
    requires listed { IsTrue D.tells → AreListed (D.view disk.old) name.now (closed.now ++ covered.now) }
    ensures any_moment { IsTrue D.tells → LeavesAt (D.view disk.old) (D.view disk.new) (OrGone (D.view disk.old) name.now (closed.now ++ covered.now)) }
    ensures gone { OnOk result (IsTrue D.tells → (id : FileId) → Contains (closed.now ++ covered.now) id → (D.view disk.new).reading (place name.now id) ≡ None) }
    ensures others { IsTrue D.tells → (q : Place) → ((id : FileId) → Contains (closed.now ++ covered.now) id → q ≢ place name.now id) → (D.view disk.new).reading q ≡ (D.view disk.old).reading q }
    ensures cause { HasCause (D.faults disk.old) (D.faults disk.new) result }
{
    remove_all(disk, name, closed)?;
    remove_all(disk, name, covered)
}
