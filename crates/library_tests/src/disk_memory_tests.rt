// Both disks, call by call.
ghost use Rattle.std.specs.Prelude.{◌≡◌, None, IsTrue};
ghost use Rattle.disk_model.specs.Image.{IsFileId, place};
ghost use Rattle.disk_model.specs.View.{IsListed};

use crate::checks::{log_name, same};
use disk_memory::{MemoryDisk, Outcome, SureDisk};
use disk_model::{Disk, DiskFault, FileId};
use host_types::LogName;
use std::alloc::Global;
use std::process::Abort;

const FIRST: FileId = FileId {
    base: 1,
    generation: 1,
};

/// Makes a file, and writes over it and past its end.
fn write_file<D: Disk>(rt: &impl Abort, disk: &mut D, name: &LogName, id: FileId)
    requires id { IsFileId id }
    requires fresh { IsTrue D.tells → (D.view disk.old).reading (place name.now id) ≡ None }
    ensures { IsTrue D.tells → IsListed (D.view disk.new) (place name.now id) }
{
    disk.create(name, id).expect(rt, "a call");
    disk.write_at(name, id, 0, &[1, 2, 3, 4])
        .expect(rt, "a call");
    disk.write_at(name, id, 1, &[7, 8]).expect(rt, "a call");
    disk.sync(name, id).expect(rt, "a call");
}

/// Reads that file.
fn read_file<D: Disk>(rt: &impl Abort, disk: &mut D, name: &LogName, id: FileId)
    requires id { IsFileId id }
    requires listed { IsTrue D.tells → IsListed (D.view disk.old) (place name.now id) }
    ensures { IsTrue D.tells → IsListed (D.view disk.new) (place name.now id) }
{
    same(rt, disk.length(name, id), Ok(4));
    let mut buffer = [9; 4];
    same(rt, disk.read(name, id, 2, &mut buffer), Ok(2));
    same(rt, buffer, [8, 4, 9, 9]);
    same(rt, disk.read(name, id, 5, &mut [9; 4]), Ok(0));
}

/// Makes a file anew.
fn make_anew<D: Disk>(rt: &impl Abort, disk: &mut D, name: &LogName, id: FileId)
    requires id { IsFileId id }
    requires listed { IsTrue D.tells → IsListed (D.view disk.old) (place name.now id) }
{
    disk.remove(name, id).expect(rt, "a call");
    disk.create(name, id).expect(rt, "a call");
    same(rt, disk.length(name, id), Ok(0));
}

fn use_file<D: Disk>(rt: &impl Abort, disk: &mut D, name: &LogName, id: FileId)
    requires id { IsFileId id }
    requires fresh { IsTrue D.tells → (D.view disk.old).reading (place name.now id) ≡ None }
{
    write_file(rt, disk, name, id);
    read_file(rt, disk, name, id);
    make_anew(rt, disk, name, id);
}

#[test]
fn a_file_is_used(rt: HostRuntime) {
    let name = log_name(&rt, b"db");
    let mut sure = SureDisk::new(rt.alloc());
    use_file(&rt, &mut sure, &name, FIRST);
    drop(sure);
    let mut memory = MemoryDisk::new(rt.alloc());
    use_file(&rt, &mut memory, &name, FIRST);
    same(&rt, memory.calls(), 10);
    drop(memory);
}

fn id(base: u64, generation: u64) -> FileId
    ensures { result ≡ record { base = base; generation = generation } }
{
    FileId { base, generation }
}

/// Asserts that these are the files of a name.
fn lists<D: Disk + Drop>(rt: &impl Abort, disk: D, name: &LogName, wanted: &[FileId]) {
    let mut disk = disk;
    let ids = disk.list(name).expect(rt, "a call");
    same(rt, ids.as_slice(), wanted);
    drop(ids);
    drop(disk);
}

const LISTED: &[FileId] = &[
    FileId {
        base: 1,
        generation: 5,
    },
    FileId {
        base: 2,
        generation: 1,
    },
    FileId {
        base: 2,
        generation: 3,
    },
];

fn put_in_sure(rt: &impl Abort, disk: &mut SureDisk, name: &LogName, id: FileId, bytes: &[u8])
    requires { IsFileId id }
{
    disk.place(name, id, bytes).expect(rt, "memory");
}

#[test]
fn files_of_a_sure_disk_are_listed_in_order(rt: HostRuntime) {
    let name = log_name(&rt, b"db");
    let mut disk = SureDisk::new(rt.alloc());
    put_in_sure(&rt, &mut disk, &name, id(2, 3), &[]);
    put_in_sure(&rt, &mut disk, &name, id(1, 5), &[1]);
    put_in_sure(&rt, &mut disk, &log_name(&rt, b"db2"), id(1, 1), &[]);
    put_in_sure(&rt, &mut disk, &name, id(2, 1), &[]);
    lists(&rt, disk, &name, LISTED);
}

fn put_in_memory(rt: &impl Abort, disk: &mut MemoryDisk, name: &LogName, id: FileId, bytes: &[u8])
    requires { IsFileId id }
{
    disk.place(name, id, bytes).expect(rt, "memory");
}

#[test]
fn files_of_a_memory_disk_are_listed_in_order(rt: HostRuntime) {
    let name = log_name(&rt, b"db");
    let mut disk = MemoryDisk::new(rt.alloc());
    put_in_memory(&rt, &mut disk, &name, id(2, 3), &[]);
    put_in_memory(&rt, &mut disk, &name, id(1, 5), &[1]);
    put_in_memory(&rt, &mut disk, &log_name(&rt, b"db2"), id(1, 1), &[]);
    put_in_memory(&rt, &mut disk, &name, id(2, 1), &[]);
    lists(&rt, disk, &name, LISTED);
}

/// Asserts whether the next call fails.
fn next_fails(rt: &impl Abort, disk: &mut MemoryDisk, name: &LogName, fails: bool) {
    same(rt, disk.list(name).is_err(), fails);
}

#[test]
fn a_call_fails_by_its_number(rt: HostRuntime) {
    let name = log_name(&rt, b"db");
    let mut disk = MemoryDisk::new(rt.alloc());
    disk.fail(2).expect(&rt, "memory");
    disk.create(&name, FIRST).expect(&rt, "a call");
    same(
        &rt,
        disk.write_at(&name, FIRST, 0, &[1]),
        Err(DiskFault::Failed),
    );
    same(&rt, disk.length(&name, FIRST), Ok(0));
    disk.fail(5).expect(&rt, "memory");
    disk.stop_after(6);
    for fails in [false, true, false, true, true] {
        next_fails(&rt, &mut disk, &name, fails);
    }
    disk.stop_after(20);
    same(&rt, disk.calls(), 8);
    lists(&rt, disk, &name, &[FIRST]);
}

/// How many bytes a file has, if it is listed, with the first of them in the buffer.
fn look<D: Disk>(
    rt: &impl Abort,
    disk: &mut D,
    name: &LogName,
    id: FileId,
    buffer: &mut [u8],
) -> Option<usize>
    requires { IsFileId id }
{
    let ids = disk.list(name).expect(rt, "a call");
    if !ids.contains(&id) {
        return None;
    }
    Some(disk.read(name, id, 0, buffer).expect(rt, "a call"))
}

const CREATED: FileId = FileId {
    base: 1,
    generation: 2,
};

const REMOVED: FileId = FileId {
    base: 5,
    generation: 1,
};

/// A disk with a file that was written to, one that was made and one that was removed. Nothing of that is settled.
fn unsettled(rt: &impl Abort, alloc: Global, name: &LogName) -> MemoryDisk {
    let mut disk = MemoryDisk::new(alloc);
    disk.place(name, REMOVED, &[5, 6]).expect(rt, "memory");
    disk.place(name, FIRST, &[1, 2, 3]).expect(rt, "memory");
    disk.write_at(name, FIRST, 1, &[9, 9, 9])
        .expect(rt, "a call");
    disk.create(name, CREATED).expect(rt, "a call");
    disk.write_at(name, CREATED, 0, &[4]).expect(rt, "a call");
    disk.remove(name, REMOVED).expect(rt, "a call");
    disk
}

/// Asserts what a crash leaves: the first four bytes of the file that was written to, and how many bytes each of the three files
/// has.
fn leaves(
    rt: &impl Abort,
    alloc: Global,
    outcome: Outcome,
    bytes: [u8; 4],
    counts: [Option<usize>; 3],
) {
    let name = log_name(rt, b"db");
    let mut disk = unsettled(rt, alloc, &name);
    disk.stop_after(5);
    disk.fail(8).expect(rt, "memory");
    disk.crash(outcome).expect(rt, "memory");
    let mut buffer = [0; 4];
    let found = [
        look(rt, &mut disk, &name, FIRST, &mut buffer),
        look(rt, &mut disk, &name, CREATED, &mut [0; 2]),
        look(rt, &mut disk, &name, REMOVED, &mut [0; 4]),
    ];
    same(rt, found, counts);
    same(rt, buffer, bytes);
    drop(disk);
}

#[test]
fn a_crash_leaves_its_outcome(rt: HostRuntime) {
    let a = rt.alloc();
    let old = [Some(3), None, Some(2)];
    leaves(&rt, a, Outcome::Old, [1, 2, 3, 0], old);
    let new = [Some(4), Some(1), None];
    leaves(&rt, a, Outcome::New, [1, 9, 9, 9], new);
    leaves(&rt, a, Outcome::Torn(7), [1, 7, 7, 7], new);
}
