// The steps of a disk in memory.
ghost use Rattle.std.specs.Prelude.{IsTrue};
ghost use Rattle.disk_model.specs.Image.{IsFileId};
ghost use Rattle.disk_memory.specs.Kinds.{fits};

use disk_model::FileId;
use host_types::LogName;

/// What a step did to the file at its place. What isn't settled may be lost in a crash.
#[derive(Clone, Copy)]
pub enum Kind {
    /// It set what stands there, settled.
    Settled,
    /// It made an empty file.
    Created,
    /// It wrote so many bytes from that offset on.
    Written(u64, usize),
    /// It took the file away.
    Removed,
    /// It settled the file's bytes, and each creation and removal.
    Synced,
}

/// A step, and what is read at its place from then on.
#[derive(Drop)]
pub struct Step {
    pub name: LogName,
    pub id: FileId,
    pub kind: Kind,
    pub bytes: Option<Vec<u8>>,
    ghost named: { IsFileId id },
    ghost fitting: { IsTrue (fits kind bytes) },
}
