// Two disks on the files of one log: one of them holds it, as one of two processes would.
use crate::checks::{log_name, same};
use disk_files::{FileDisk, Lockable};
use disk_model::{Disk, DiskFault, FileId};
use host_types::LogName;
use std::fs;
use std::process::Abort;
use std::rt::Files;

const FIRST: FileId = FileId {
    base: 1,
    generation: 1,
};

const SECOND: FileId = FileId {
    base: 1,
    generation: 2,
};

const ALL: &[&str] = &[
    "empty-1-1.log",
    "empty-1-2.log",
    "shared-1-1.log",
    "shared-1-2.log",
    "other-1-1.log",
];

/// Asserts how many files of a log are listed, or that the call fails.
fn lists<D: Disk>(rt: &impl Abort, disk: &mut D, name: &LogName, wanted: Result<usize, DiskFault>) {
    let found = match disk.list(name) {
        Ok(ids) => Ok(ids.len()),
        Err(fault) => Err(fault),
    };
    same(rt, found, wanted);
}

/// Asserts what is told of the last call that failed.
fn tells<R: Files + AllocGlobal>(
    rt: &(impl Abort + AllocGlobal),
    disk: &FileDisk<'_, R>,
    wanted: &str,
)
where
    R::File: Lockable,
{
    let found = match disk.trouble() {
        Some(trouble) => format!(in rt.alloc(); "{trouble}").expect(rt, "memory"),
        None => String::new(rt.alloc()),
    };
    same(rt, found.as_str(), wanted);
    drop(found);
}

/// Both found an empty folder, and one makes the log's file.
fn make_once<R: Files + AllocGlobal>(
    rt: &(impl Abort + AllocGlobal),
    one: &mut FileDisk<'_, R>,
    two: &mut FileDisk<'_, R>,
)
where
    R::File: Lockable,
{
    let name = log_name(rt, b"empty");
    lists(rt, one, &name, Ok(0));
    lists(rt, two, &name, Ok(0));
    same(rt, one.create(&name, FIRST), Ok(()));
    same(rt, two.create(&name, FIRST), Err(DiskFault::Failed));
    same(rt, two.create(&name, SECOND), Err(DiskFault::Failed));
    lists(rt, one, &name, Ok(1));
    tells(rt, two, "empty is in use");
}

/// The log that stands is held by whoever listed it first, also when its lowest file is replaced. Another log is free.
fn hold_on<R: Files + AllocGlobal>(
    rt: &(impl Abort + AllocGlobal),
    one: &mut FileDisk<'_, R>,
    two: &mut FileDisk<'_, R>,
)
where
    R::File: Lockable,
{
    let name = log_name(rt, b"shared");
    lists(rt, one, &name, Ok(1));
    lists(rt, two, &name, Err(DiskFault::Failed));
    same(rt, one.create(&name, SECOND), Ok(()));
    same(rt, one.remove(&name, FIRST), Ok(()));
    lists(rt, two, &name, Err(DiskFault::Failed));
    tells(rt, two, "shared is in use");
    lists(rt, two, &log_name(rt, b"other"), Ok(1));
}

/// Who comes later has the log when the former is done with it.
fn take_over<R: Files + AllocGlobal>(rt: &(impl Abort + AllocGlobal), two: &mut FileDisk<'_, R>)
where
    R::File: Lockable,
{
    let name = log_name(rt, b"shared");
    lists(rt, two, &name, Ok(1));
    same(rt, two.remove(&name, SECOND), Ok(()));
    same(rt, two.length(&name, SECOND), Err(DiskFault::Failed));
    tells(
        rt,
        two,
        "shared-1-2.log: length: No such file or directory (os error 2)",
    );
}

fn clear(rt: &impl Files) {
    for file in ALL {
        let _ = fs::remove_file(rt, *file);
    }
}

fn share<R: Files + AllocGlobal + Abort>(rt: &R)
where
    R::File: Lockable,
{
    let mut one = FileDisk::new(rt);
    let mut two = FileDisk::new(rt);
    make_once(rt, &mut one, &mut two);
    hold_on(rt, &mut one, &mut two);
    drop(one);
    take_over(rt, &mut two);
    drop(two);
}

#[test]
fn one_disk_holds_a_log(rt: HostRuntime) {
    clear(&rt);
    fs::write(&rt, "shared-1-1.log", "").expect(&rt, "a file");
    fs::write(&rt, "other-1-1.log", "").expect(&rt, "a file");
    share(&rt);
    clear(&rt);
}
