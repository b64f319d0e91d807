// A log that is opened over the catalog, in the words of the plain state.
ghost use Rattle.std.specs.Prelude.{◌≤◌, ℕ, List, IsTrue, IfOk};
ghost use Rattle.log_model.specs.plain.Admission.{Item};
ghost use Rattle.host_recovery.specs.Logs.{IsInOrder, plain_form};
ghost use Rattle.copycat_tool.specs.Opened.{OpensPlain};

use disk_model::Disk;
use host_recovery::Host;
use host_types::LogName;
use log_model::plain_machines_are_plain;
use resource_catalog::{Catalog, catalog_is_plain};
use segment_set::OpenError;
use std::alloc::Global;

/// Opens the log of a name over the catalog, with so many entries before the next file is begun. On a folder that is in order for a
/// log the host has exactly the resources, sessions and kept replies of the plain fold over a prefix of it, and so has whatever
/// a crash leaves from then on.
pub fn open_log<D: Disk>(
    alloc: Global,
    disk: D,
    name: &LogName,
    segment: u32,
) -> Result<Host<D, Catalog>, (D, OpenError)>
    requires least { 2 ≤ segment }
    requires most { segment ≤ 65536 }
    ensures { IsTrue D.tells → (log : List Item) (least : ℕ) → IsInOrder plain_form (D.view disk) name.now log least → IfOk result (OpensPlain D.view name.now (D.view disk) log least) }
{
    catalog_is_plain();
    plain_machines_are_plain();
    match Host::open(alloc, disk, Catalog::new(alloc), name, segment) {
        Ok(host) => {
            host.keeps();
            Ok(host)
        }
        Err(back) => Err(back),
    }
}
