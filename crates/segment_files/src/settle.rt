// Before an opening believes what it reads, all of it has to be on the disk.
ghost use Rattle.std.specs.Prelude.{◌≡◌, IsTrue, IfOk, OnOk, All};
ghost use Rattle.disk_model.specs.Image.{IsFileId, place};
ghost use Rattle.disk_model.specs.View.{LeavesAt, HasCause, IsListed, IsSettled, MayHold};
ghost use Rattle.disk_model.specs.Calls.{Lists};
ghost use Rattle.segment_files.specs.Files.{HasNames};
ghost use Rattle.disk_model.specs.declared.file_id.FileId.{FileId};

use disk_model::{Disk, DiskFault, FileId};
use host_types::LogName;

/// Lists the files of a name and syncs each, so that what is read of them then is what every crash leaves.
pub fn settle_all<D: Disk>(disk: &mut D, name: &LogName) -> Result<Vec<FileId>, DiskFault>
    ensures ids { IfOk result (λ ids. All IsFileId ids.items) }
    ensures lists { IfOk result (λ ids. IsTrue D.tells → Lists (D.view disk.old) name.now ids.items) }
    ensures reading { IsTrue D.tells → (D.view disk.new).reading ≡ (D.view disk.old).reading }
    ensures settled { OnOk result (IsTrue D.tells → (id : FileId) → IsListed (D.view disk.old) (place name.now id) → IsSettled (D.view disk.new) (place name.now id)) }
    ensures names { OnOk result (IsTrue D.tells → (id : FileId) → IsListed (D.view disk.old) (place name.now id) → HasNames (D.view disk.new)) }
    ensures any_moment { IsTrue D.tells → LeavesAt (D.view disk.old) (D.view disk.new) (MayHold (D.view disk.old)) }
    ensures cause { HasCause (D.faults disk.old) (D.faults disk.new) result }
{
    let ids = disk.list(name)?;
    for id in &ids {
        disk.sync(name, *id)?;
    }
    Ok(ids)
}
