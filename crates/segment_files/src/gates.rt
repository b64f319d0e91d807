// A gate is a byte that stands shut on the disk before anything behind it counts.
ghost use Rattle.std.specs.Prelude.{◌≡◌, ◌≢◌, ◌<◌, ◌≤◌, ◌+◌, ◌^◌, ℕ, List, [], ◌∷◌, length, drop, IsTrue, IfOk, OnOk};
ghost use Rattle.disk_model.specs.Image.{IsFileId, place, written};
ghost use Rattle.disk_model.specs.View.{Reads};
ghost use Rattle.segment_files.specs.Files.{IsShut, OrGate, Becomes, IsAtGate, OrFrame, appended, then_shut};
ghost use Rattle.segment_files.specs.Writes.{Writes};

use disk_model::{Disk, DiskFault, FileId};
use host_types::LogName;

/// Opens a gate, once all that stands behind it is on the disk: sync, write 1 at `at`, sync.
pub fn open_gate<D: Disk>(
    disk: &mut D,
    name: &LogName,
    id: FileId,
    at: u64,
) -> Result<(), DiskFault>
    requires id { IsFileId id }
    requires shut { IsTrue D.tells → IsShut (D.view disk.old) (place name.now id) at }
    ensures opened { OnOk result (IsTrue D.tells → (b : List ℕ) → Reads (D.view disk.old) (place name.now id) b
        → Becomes (D.view disk.old) (D.view disk.new) (place name.now id) (written b at (1 ∷ []))) }
    ensures writes { Writes D.tells (D.view disk.old) (D.view disk.new) (D.faults disk.old) (D.faults disk.new)
        (place name.now id) (OrGate (D.view disk.old) (place name.now id) at) result }
{
    disk.sync(name, id)?;
    disk.write_at(name, id, at, &[1])?;
    disk.sync(name, id)
}

/// Writes what stands behind a shut gate, with a shut gate at its end, and then opens the first gate.
fn write_behind<D: Disk>(
    disk: &mut D,
    name: &LogName,
    id: FileId,
    gate: u64,
    behind: &[u8],
) -> Result<u64, DiskFault>
    requires id { IsFileId id }
    requires at_gate { IsTrue D.tells → IsAtGate (D.view disk.old) (place name.now id) gate }
    requires some { 0 < length behind.now }
    requires room { gate + length behind.now < 2 ^ 64 }
    ensures gate { IfOk result (λ next. next ≡ gate + length behind.now) }
    ensures appended { OnOk result (IsTrue D.tells → (b : List ℕ) → Reads (D.view disk.old) (place name.now id) b
        → Becomes (D.view disk.old) (D.view disk.new) (place name.now id) (appended b gate behind.now)) }
    ensures writes { Writes D.tells (D.view disk.old) (D.view disk.new) (D.faults disk.old) (D.faults disk.new)
        (place name.now id) (OrFrame (D.view disk.old) (place name.now id) gate behind.now) result }
{
    disk.write_at(name, id, gate + 1, behind)?;
    open_gate(disk, name, id, gate)?;
    Ok(gate + behind.len() as u64)
}

/// Appends a frame to a file whose shut gate stands at `gate`. The frame comes with its gate open, and with the shut gate of
/// the next frame as its last byte (`frame` makes it so). What stands behind its own gate is written behind the shut one, and
/// synced; then the gate is opened. A crash at any moment leaves the frame whole or absent. Answers the place of the new gate.
pub fn append_frame<D: Disk>(
    disk: &mut D,
    name: &LogName,
    id: FileId,
    gate: u64,
    frame: &[u8],
) -> Result<u64, DiskFault>
    requires id { IsFileId id }
    requires at_gate { IsTrue D.tells → IsAtGate (D.view disk.old) (place name.now id) gate }
    requires open { (rest : List ℕ) × (frame.now ≡ 1 ∷ then_shut rest) }
    requires room { gate + length frame.now ≤ 2 ^ 64 }
    ensures gate { IfOk result (λ next. next + 1 ≡ gate + length frame.now) }
    ensures appended { OnOk result (IsTrue D.tells → (b rest : List ℕ) → frame.now ≡ 1 ∷ then_shut rest → Reads (D.view disk.old) (place name.now id) b
        → Becomes (D.view disk.old) (D.view disk.new) (place name.now id) (appended b gate (then_shut rest))) }
    ensures writes { Writes D.tells (D.view disk.old) (D.view disk.new) (D.faults disk.old) (D.faults disk.new)
        (place name.now id) (OrFrame (D.view disk.old) (place name.now id) gate (drop 1 frame.now)) result }
{
    write_behind(disk, name, id, gate, &frame[1..])
}
