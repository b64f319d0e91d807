// A host: its disk, the files of its log, and its core.
ghost use Rattle.std.specs.Prelude.{◌≡◌};

use disk_model::Disk;
use host_core::Core;
use machine::Machine;
use segment_set::Parts;
use std::marker::Model;

/// A host over a disk and a machine. It is seen as its disk, what it remembers of the log's files, its
/// core, the size of a new file, and whether it is stopped.
///
/// Its contracts speak of the logs that it stands at (`StandsAt`): the files and each image that a crash may leave hold the log's
/// stored form, its state is what the log comes to, and its marks tell what the log has released. It has to be spent by `close`. A
/// host that is stopped is closed and opened again.
pub struct Host<D: Disk, M: Machine> {
    pub(crate) disk: D,
    pub(crate) parts: Parts,
    pub(crate) core: Core<M>,
    /// After how many entries the next file is begun.
    pub(crate) size: u32,
    pub(crate) stopped: bool,
    /// Room for a frame, and for the places of its entries. Both are used again for each.
    pub(crate) frame: Vec<u8>,
    pub(crate) places: Vec<u32>,
}

impl<D: Disk, M: Machine> Model for Host<D, M> {
    ghost use Rattle.std.specs.Coded.{codes};
    ghost use Rattle.host_core.specs.CoreState.{core_code};
    ghost use Rattle.host_recovery.specs.HostState.{HostState, host_code};

    ghost Value = { HostState D M };

    ghost coded = { host_code D.code (Prim.hlevel codes) (core_code M.code (Prim.hlevel codes)) };

    ghost use Rattle.host_recovery.specs.Standing.{IsKept};

    ghost view = { λ h. record { disk = h.disk; parts = h.parts; core = h.core; size = h.size; stopped = h.stopped } };

    ghost invariant = { λ h. IsKept D.tells D.view M.cells (record { disk = h.disk; parts = h.parts; core = h.core; size = h.size; stopped = h.stopped }) };
}

impl<D: Disk, M: Machine> Host<D, M> {
    /// Gives the disk back. All that is held in memory is ended.
    pub fn close(self) -> D
        ensures { result ≡ self.disk }
    {
        let Host {
            disk,
            parts: _,
            core,
            size: _,
            stopped: _,
            frame: _,
            places: _,
        } = self;
        core.end();
        disk
    }
}
