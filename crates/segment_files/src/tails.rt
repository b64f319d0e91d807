// How a file is made: closed, filled, and then opened.
ghost use Rattle.std.specs.Prelude.{◌≡◌, ◌<◌, ◌≤◌, ◌+◌, ◌^◌, ℕ, List, [], ◌∷◌, length, IsTrue, OnOk, None};
ghost use Rattle.disk_model.specs.Image.{IsFileId, place, written};
ghost use Rattle.disk_model.specs.View.{LeavesAt, Reads, Reaches};
ghost use Rattle.segment_files.specs.Files.{IsShut, Becomes, OrClosed, OrWhole};
ghost use Rattle.segment_files.specs.Writes.{Writes};

use crate::gates::open_gate;
use disk_model::{Disk, DiskFault, FileId};
use host_types::LogName;

/// Makes a file with a closed gate: create, write byte 0 as 0, sync. A closed file is no part of any log.
pub fn create_closed<D: Disk>(disk: &mut D, name: &LogName, id: FileId) -> Result<(), DiskFault>
    requires id { IsFileId id }
    requires fresh { IsTrue D.tells → (D.view disk.old).reading (place name.now id) ≡ None }
    ensures closed { OnOk result (IsTrue D.tells → Becomes (D.view disk.old) (D.view disk.new) (place name.now id) (0 ∷ [])) }
    ensures writes { Writes D.tells (D.view disk.old) (D.view disk.new) (D.faults disk.old) (D.faults disk.new)
        (place name.now id) (OrClosed (D.view disk.old) (place name.now id)) result }
{
    disk.create(name, id)?;
    disk.write_at(name, id, 0, &[0])?;
    disk.sync(name, id)
}

/// Writes behind a closed file's gate, in one write. Nothing of it counts until the gate is opened.
pub fn fill<D: Disk>(
    disk: &mut D,
    name: &LogName,
    id: FileId,
    at: u64,
    bytes: &[u8],
) -> Result<(), DiskFault>
    requires id { IsFileId id }
    requires shut { IsTrue D.tells → IsShut (D.view disk.old) (place name.now id) 0 }
    requires reaches { IsTrue D.tells → Reaches (D.view disk.old) (place name.now id) at }
    requires behind { 1 ≤ at }
    ensures filled { OnOk result (IsTrue D.tells → (b : List ℕ) → Reads (D.view disk.old) (place name.now id) b
        → Reads (D.view disk.new) (place name.now id) (written b at bytes.now)) }
    ensures shut { OnOk result (IsTrue D.tells → IsShut (D.view disk.new) (place name.now id) 0) }
    ensures writes { Writes D.tells (D.view disk.old) (D.view disk.new) (D.faults disk.old) (D.faults disk.new)
        (place name.now id) (OrClosed (D.view disk.old) (place name.now id)) result }
{
    disk.write_at(name, id, at, bytes)
}

/// Makes a file with an open gate and what stands behind it. A crash at any moment leaves it closed or whole.
pub fn make_tail<D: Disk>(
    disk: &mut D,
    name: &LogName,
    id: FileId,
    behind: &[u8],
) -> Result<(), DiskFault>
    requires id { IsFileId id }
    requires fresh { IsTrue D.tells → (D.view disk.old).reading (place name.now id) ≡ None }
    ensures whole { OnOk result (IsTrue D.tells → Becomes (D.view disk.old) (D.view disk.new) (place name.now id) (1 ∷ behind.now)) }
    ensures writes { Writes D.tells (D.view disk.old) (D.view disk.new) (D.faults disk.old) (D.faults disk.new)
        (place name.now id) (OrWhole (D.view disk.old) (place name.now id) (1 ∷ behind.now)) result }
    // Where it isn't listed then, no crash has left it whole.
    ensures unlisted { IsTrue D.tells → (D.view disk.new).reading (place name.now id) ≡ None → LeavesAt (D.view disk.old) (D.view disk.new) (OrClosed (D.view disk.old) (place name.now id)) }
{
    create_closed(disk, name, id)?;
    fill(disk, name, id, 1, behind)?;
    open_gate(disk, name, id, 0)
}
