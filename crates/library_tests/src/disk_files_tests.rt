// The disk on real files. Each test has a log's name of its own, and clears up.
use crate::checks::{log_name, same};
use crate::counted_files::{CountedFiles, Counts};
use disk_files::{FileDisk, Lockable};
use disk_model::{Disk, DiskFault, FileId};
use host_types::LogName;
use std::fs;
use std::process::Abort;
use std::rt::Files;

const FIRST: FileId = FileId {
    base: 1,
    generation: 1,
};

const SECOND: FileId = FileId {
    base: 3,
    generation: 2,
};

const LAST: FileId = FileId {
    base: 3,
    generation: 281474976710655,
};

/// The files of the log `list`.
const ALL: &[FileId] = &[FIRST, SECOND, LAST];

/// Their names, from the last to the first.
const OWN: &[&str] = &["list-3-281474976710655.log", "list-3-2.log", "list-1-1.log"];

/// Files that are none of its.
const ODD: &[&str] = &[
    "list-01-1.log",
    "list-1-01.log",
    "list-0-1.log",
    "list-1-0.log",
    "list-1-281474976710656.log",
    "list-1-99999999999999999999.log",
    "listx-1-1.log",
    "list-1-1.log.bak",
    "list--1-1.log",
    "list-+1-1.log",
    "list-1-1-1.log",
    "list-1.log",
    "list-1-.log",
    "list-1-1.",
    "list-1-1.LOG",
    "list",
    "list\u{e9}-1-1.log",
];

/// Takes files out of the folder, where they are there.
fn clear(rt: &impl Files, files: &[&str]) {
    for file in files {
        let _ = fs::remove_file(rt, *file);
    }
}

/// Writes this text to each file.
fn write_all(rt: &(impl Files + Abort), files: &[&str], text: &str) {
    for file in files {
        fs::write(rt, *file, text).expect(rt, "a file");
    }
}

/// Asserts that a file has this text.
fn has_text(rt: &(impl Files + AllocGlobal + Abort), file: &str, text: &str) {
    let found = fs::read_to_string(rt, file).expect(rt, "a file");
    same(rt, found.as_str(), text);
    drop(found);
}

/// Asserts that these are the files of a name, by the trait alone.
fn lists<D: Disk>(rt: &impl Abort, disk: &mut D, name: &LogName, wanted: &[FileId]) {
    let found = disk.list(name).expect(rt, "a list");
    same(rt, found.as_slice(), wanted);
    drop(found);
}

/// The folder has its own files and others, and each of the others is left as it was.
fn list_own<R: Files + AllocGlobal + Abort>(rt: &R)
where
    R::File: Lockable,
{
    write_all(rt, ODD, "kept");
    let mut disk = FileDisk::new(rt);
    lists(rt, &mut disk, &log_name(rt, b"list"), &[]);
    write_all(rt, OWN, "");
    lists(rt, &mut disk, &log_name(rt, b"list"), ALL);
    lists(rt, &mut disk, &log_name(rt, b"listx"), &[FIRST]);
    drop(disk);
    for file in ODD {
        has_text(rt, file, "kept");
    }
}

#[test]
fn lists_only_its_own_files(rt: HostRuntime) {
    clear(&rt, OWN);
    list_own(&rt);
    clear(&rt, OWN);
    clear(&rt, ODD);
}

const KEPT: &[&str] = &["kept-1-1.log", "kept-3-2.log"];

/// Two files are made, and written to.
fn write_two<R: Files + AllocGlobal>(rt: &impl Abort, disk: &mut FileDisk<'_, R>, name: &LogName)
where
    R::File: Lockable,
{
    same(rt, disk.create(name, FIRST), Ok(()));
    same(rt, disk.create(name, FIRST), Err(DiskFault::Failed));
    same(rt, disk.create(name, SECOND), Ok(()));
    same(rt, disk.length(name, SECOND), Ok(0));
    same(rt, disk.write_at(name, FIRST, 0, b"hello"), Ok(()));
    same(rt, disk.write_at(name, FIRST, 3, b"ped"), Ok(()));
    same(rt, disk.write_at(name, SECOND, 0, b"x"), Ok(()));
    same(rt, disk.sync(name, FIRST), Ok(()));
}

/// They are read.
fn read_two<R: Files + AllocGlobal>(rt: &impl Abort, disk: &mut FileDisk<'_, R>, name: &LogName)
where
    R::File: Lockable,
{
    same(rt, disk.length(name, FIRST), Ok(6));
    let mut buffer = [0u8; 8];
    same(rt, disk.read(name, FIRST, 1, &mut buffer), Ok(5));
    same(rt, buffer, *b"elped\0\0\0");
    same(rt, disk.read(name, FIRST, 6, &mut buffer), Ok(0));
}

fn keep<R: Files + AllocGlobal + Abort>(rt: &R)
where
    R::File: Lockable,
{
    let name = log_name(rt, b"kept");
    let mut disk = FileDisk::new(rt);
    write_two(rt, &mut disk, &name);
    read_two(rt, &mut disk, &name);
    drop(disk);
    has_text(rt, "kept-1-1.log", "helped");
}

#[test]
fn keeps_what_is_written(rt: HostRuntime) {
    clear(&rt, KEPT);
    keep(&rt);
    clear(&rt, KEPT);
}

const GONE: &[&str] = &["gone-1-1.log"];

/// A file is made, removed and made anew.
fn make_anew<R: Files + AllocGlobal>(rt: &impl Abort, disk: &mut FileDisk<'_, R>, name: &LogName)
where
    R::File: Lockable,
{
    same(rt, disk.create(name, FIRST), Ok(()));
    same(rt, disk.write_at(name, FIRST, 0, b"old"), Ok(()));
    same(rt, disk.remove(name, FIRST), Ok(()));
    same(rt, disk.remove(name, FIRST), Err(DiskFault::Failed));
    same(rt, disk.length(name, FIRST), Err(DiskFault::Failed));
    lists(rt, disk, name, &[]);
    same(rt, disk.create(name, FIRST), Ok(()));
}

fn forget<R: Files + AllocGlobal + Abort>(rt: &R)
where
    R::File: Lockable,
{
    let name = log_name(rt, b"gone");
    let mut disk = FileDisk::new(rt);
    make_anew(rt, &mut disk, &name);
    drop(disk);
    let mut again = FileDisk::new(rt);
    same(rt, again.length(&name, FIRST), Ok(0));
    drop(again);
}

#[test]
fn forgets_what_is_removed(rt: HostRuntime) {
    clear(&rt, GONE);
    forget(&rt);
    clear(&rt, GONE);
}

const SYNCED: &[&str] = &["synced-1-1.log", "synced-3-2.log"];

/// A sync of the first file is answered so, and bytes and folders were synced so often by then.
fn syncs<R: Files + AllocGlobal>(
    rt: &impl Abort,
    disk: &mut FileDisk<'_, R>,
    counts: &Counts,
    wanted: (Result<(), DiskFault>, (u64, u64)),
)
where
    R::File: Lockable,
{
    let name = log_name(rt, b"synced");
    same(rt, disk.sync(&name, FIRST), wanted.0);
    same(rt, counts.told(), wanted.1);
}

/// Files are written, created and removed, with a sync of the first after each.
fn settle<R: Files + AllocGlobal>(rt: &impl Abort, disk: &mut FileDisk<'_, R>, counts: &Counts)
where
    R::File: Lockable,
{
    let name = log_name(rt, b"synced");
    same(rt, disk.create(&name, FIRST), Ok(()));
    syncs(rt, disk, counts, (Ok(()), (1, 1)));
    same(rt, disk.write_at(&name, FIRST, 0, b"x"), Ok(()));
    syncs(rt, disk, counts, (Ok(()), (2, 1)));
    same(rt, disk.create(&name, SECOND), Ok(()));
    syncs(rt, disk, counts, (Ok(()), (3, 2)));
    same(rt, disk.remove(&name, SECOND), Ok(()));
    syncs(rt, disk, counts, (Ok(()), (4, 3)));
}

/// After a sync that failed none is answered `Ok`, and the system isn't asked.
fn settle_no_more<R: Files + AllocGlobal>(
    rt: &impl Abort,
    disk: &mut FileDisk<'_, R>,
    counts: &Counts,
)
where
    R::File: Lockable,
{
    let name = log_name(rt, b"synced");
    same(rt, disk.create(&name, SECOND), Ok(()));
    counts.fail(true);
    syncs(rt, disk, counts, (Err(DiskFault::Failed), (5, 3)));
    counts.fail(false);
    syncs(rt, disk, counts, (Err(DiskFault::Failed), (5, 3)));
}

fn count_syncs<R: Files + AllocGlobal + Abort>(rt: &R)
where
    R::File: Lockable,
{
    let counts = Counts::new();
    let counted = CountedFiles {
        rt,
        counts: &counts,
    };
    let mut disk = FileDisk::new(&counted);
    settle(rt, &mut disk, &counts);
    settle_no_more(rt, &mut disk, &counts);
    drop(disk);
}

#[test]
fn syncs_the_folder_where_it_changed(rt: HostRuntime) {
    clear(&rt, SYNCED);
    count_syncs(&rt);
    clear(&rt, SYNCED);
}

const TURNS: &[&str] = &["turns-1-1.log", "turns-3-2.log"];

/// One file is written and another is read, in turns. Both stay open.
fn take_turns<R: Files + AllocGlobal>(rt: &impl Abort, disk: &mut FileDisk<'_, R>)
where
    R::File: Lockable,
{
    let name = log_name(rt, b"turns");
    let mut buffer = [0u8; 1];
    same(rt, disk.create(&name, FIRST), Ok(()));
    same(rt, disk.create(&name, SECOND), Ok(()));
    for _ in 0..4 {
        same(rt, disk.read(&name, FIRST, 0, &mut buffer), Ok(0));
        same(rt, disk.write_at(&name, SECOND, 0, b"x"), Ok(()));
    }
}

/// Two files are made and a lock is taken, with an opening each; and the one that is read is opened again.
fn count_openings<R: Files + AllocGlobal + Abort>(rt: &R)
where
    R::File: Lockable,
{
    let counts = Counts::new();
    let counted = CountedFiles {
        rt,
        counts: &counts,
    };
    let mut disk = FileDisk::new(&counted);
    take_turns(rt, &mut disk);
    drop(disk);
    same(rt, counts.opened(), 4);
}

#[test]
fn keeps_two_files_open(rt: HostRuntime) {
    clear(&rt, TURNS);
    count_openings(&rt);
    clear(&rt, TURNS);
}
