// A log that is opened in an empty folder, and again after a crash.
ghost use Rattle.std.specs.Prelude.{ℕ, List, []};
ghost use Rattle.log_model.specs.plain.Admission.{Item};
ghost use Rattle.host_recovery.specs.Logs.{IsInOrder, plain_form};
ghost use Rattle.copycat_tool.specs.Runs.{IsInOrderFor};

use crate::same;
use copycat_tool::{crashed_folder_is_in_order, empty_folder_is_in_order, open_log};
use disk_memory::{MemoryDisk, Outcome};
use disk_model::Disk;
use host_recovery::{Answer, Host};
use host_types::{Ask, LogName, Offer};
use resource_catalog::Catalog;
use std::alloc::Global;
use std::process::Abort;

/// A new disk. Its folder is in order for the empty log of each name.
fn new_disk(alloc: Global) -> MemoryDisk
    ensures { (name : List ℕ) → IsInOrder plain_form (⟦<MemoryDisk as Disk>⟧.view result) name [] 0 }
{
    empty_folder_is_in_order::<MemoryDisk>();
    MemoryDisk::new(alloc)
}

/// A crash of a disk. A folder that was in order for a log is in order for a prefix of it then, all of it.
fn crash(rt: &impl Abort, disk: &mut MemoryDisk, outcome: Outcome)
    ensures { (name : List ℕ) (log : List Item) (least : ℕ) → IsInOrder plain_form (⟦<MemoryDisk as Disk>⟧.view disk.old) name log least
        → IsInOrderFor (⟦<MemoryDisk as Disk>⟧.view disk.new) name log least }
{
    crashed_folder_is_in_order::<MemoryDisk>();
    match disk.crash(outcome) {
        Ok(()) => {}
        Err(_) => panic!(rt; "no memory is left"),
    }
}

fn open(
    rt: &impl Abort,
    alloc: Global,
    disk: MemoryDisk,
    name: &LogName,
) -> Host<MemoryDisk, Catalog> {
    match open_log(alloc, disk, name, 1024) {
        Ok(host) => host,
        Err(given) => {
            drop(given);
            panic!(rt; "the log isn't opened")
        }
    }
}

fn ticks(
    rt: &impl Abort,
    alloc: Global,
    host: &mut Host<MemoryDisk, Catalog>,
    time: u64,
    index: u64,
) {
    let offer = Offer {
        time,
        ask: Ask::Tick,
    };
    let found = host.offer(alloc, &offer);
    drop(offer);
    same(rt, found, Ok(Answer::Done(index)));
}

#[test]
fn a_log_is_opened_in_an_empty_folder_and_after_a_crash(rt: HostRuntime) {
    let alloc = rt.alloc();
    let name = LogName::new(b"db").expect(&rt, "a name");
    let mut host = open(&rt, alloc, new_disk(alloc), &name);
    ticks(&rt, alloc, &mut host, 1, 1);
    ticks(&rt, alloc, &mut host, 2, 2);
    let mut disk = host.close();
    crash(&rt, &mut disk, Outcome::Old);
    let host = open(&rt, alloc, disk, &name);
    same(&rt, host.last(), 2);
    same(&rt, host.now(), 2);
    drop(host.close());
}
