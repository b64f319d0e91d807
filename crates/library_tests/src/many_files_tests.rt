// Logs of many files: appended to until they roll, and opened from folders that are made by hand.
ghost use Rattle.std.specs.Prelude.{◌≡◌, ◌+◌, ◌≤◌, [], length, IsTrue};
ghost use Rattle.host_types.specs.Limits.{index_limit};
ghost use Rattle.host_types.specs.Ranges.{EntryFits};
ghost use Rattle.host_types.specs.declared.entry.Body.TheVariants.{Tick};
ghost use Rattle.disk_model.specs.Image.{IsFileId};
ghost use Rattle.segment_set.specs.Fits.{Fits};
ghost use Rattle.segment_set.specs.Growth.{IsNextFrame};

use crate::checks::{log_name, same};
use disk_memory::MemoryDisk;
use disk_model::{Disk, FileId};
use host_types::{Body, Entry, Index, LogName};
use segment_files::{Descriptor, frame};
use segment_set::{OpenError, Opened, Parts};
use std::alloc::Global;
use std::process::Abort;

/// The greatest index, and the greatest generation.
const LIMIT: u64 = 281474976710655;

/// A file's base and generation.
type Id = (u64, u64);

/// Its base, its generation, and its last index.
type Range = (u64, u64, u64);

/// How a file is made.
#[derive(Clone, Copy)]
enum Form {
    /// It is appended to, up to so many entries.
    Appended(u32),
    /// A compaction wrote it: its last index, its cut, and its floor.
    Rewritten(u64, u64, u64),
    /// Its gate is shut.
    Closed,
}

/// A file, and the indexes of its entries.
type Made = (Id, Form, &'static [u64]);

/// What a log is once it is opened: the files that are appended to no more, the one that is, and the indexes of the entries.
type Shape = (&'static [Range], Option<Range>, &'static [u64]);

/// The files of a folder, what is opened of it, the greatest cut and floor, and the files that are left.
type Row = (&'static [Made], Shape, (u64, u64), &'static [Id]);

const FOLDERS: &[Row] = &[
    (&[], (&[], None, &[]), (0, 0), &[]),
    // An empty tail alone, and one behind a file that is full.
    (
        &[((1, 1), Form::Appended(2), &[])],
        (&[], Some((1, 1, 0)), &[]),
        (0, 0),
        &[(1, 1)],
    ),
    (
        &[
            ((1, 1), Form::Appended(2), &[1, 2]),
            ((3, 2), Form::Appended(2), &[]),
        ],
        (&[(1, 1, 2)], Some((3, 2, 2)), &[1, 2]),
        (0, 0),
        &[(1, 1), (3, 2)],
    ),
    // One that is full alone: the next entry makes a file.
    (
        &[((1, 1), Form::Appended(2), &[1, 2])],
        (&[(1, 1, 2)], None, &[1, 2]),
        (0, 0),
        &[(1, 1)],
    ),
    // One with room that isn't the last.
    (
        &[
            ((1, 1), Form::Appended(4), &[1, 2]),
            ((3, 2), Form::Appended(2), &[3]),
        ],
        (&[(1, 1, 2)], Some((3, 2, 3)), &[1, 2, 3]),
        (0, 0),
        &[(1, 1), (3, 2)],
    ),
    // One of the same base that ends earlier is covered.
    (
        &[
            ((1, 1), Form::Appended(2), &[1, 2]),
            ((1, 2), Form::Appended(4), &[1, 2, 3]),
        ],
        (&[], Some((1, 2, 3)), &[1, 2, 3]),
        (0, 0),
        &[(1, 2)],
    ),
    // A compaction took the place of two files, and left holes.
    (
        &[
            ((1, 1), Form::Appended(2), &[1, 2]),
            ((3, 2), Form::Appended(2), &[3, 4]),
            ((3, 4), Form::Rewritten(6, 4, 2), &[4, 6]),
            ((5, 3), Form::Appended(2), &[5, 6]),
        ],
        (&[(1, 1, 2), (3, 4, 6)], None, &[1, 2, 4, 6]),
        (4, 2),
        &[(1, 1), (3, 4)],
    ),
    // The same with an empty tail behind, and a file beside it whose gate is shut.
    (
        &[
            ((1, 1), Form::Appended(2), &[1, 2]),
            ((3, 2), Form::Appended(2), &[3, 4]),
            ((3, 4), Form::Rewritten(6, 4, 2), &[4, 6]),
            ((3, 6), Form::Closed, &[]),
            ((5, 3), Form::Appended(2), &[5, 6]),
            ((7, 5), Form::Appended(2), &[]),
        ],
        (&[(1, 1, 2), (3, 4, 6)], Some((7, 5, 6)), &[1, 2, 4, 6]),
        (4, 2),
        &[(1, 1), (3, 4), (7, 5)],
    ),
];

const HOLES: &[Row] = &[
    // A file without entries in the middle, and one whose last entry is gone. Cut and floor are the greatest, each by itself.
    (
        &[
            ((1, 4), Form::Rewritten(2, 1, 5), &[1]),
            ((3, 3), Form::Rewritten(4, 2, 3), &[]),
            ((5, 2), Form::Appended(2), &[5]),
        ],
        (&[(1, 4, 2), (3, 3, 4)], Some((5, 2, 5)), &[1, 5]),
        (2, 5),
        &[(1, 4), (3, 3), (5, 2)],
    ),
    // Its last entry alone.
    (
        &[((1, 2), Form::Rewritten(4, 0, 0), &[4])],
        (&[(1, 2, 4)], None, &[4]),
        (0, 0),
        &[(1, 2)],
    ),
    // The greatest numbers.
    (
        &[(
            (1, LIMIT),
            Form::Rewritten(LIMIT, LIMIT, LIMIT),
            &[7, LIMIT],
        )],
        (&[(1, LIMIT, LIMIT)], None, &[7, LIMIT]),
        (LIMIT, LIMIT),
        &[(1, LIMIT)],
    ),
];

/// The files of a folder, and the place of its first fault.
const FAULTS: &[(&[Made], Id, u64)] = &[
    // The first entry is missing.
    (&[((3, 1), Form::Appended(2), &[3])], (3, 1), 16),
    // A gap; what a right folder would lose stays.
    (
        &[
            ((1, 1), Form::Appended(2), &[1]),
            ((1, 2), Form::Appended(2), &[1, 2]),
            ((4, 3), Form::Appended(2), &[4, 5]),
            ((6, 9), Form::Closed, &[]),
        ],
        (4, 3),
        16,
    ),
    // Two that overlap.
    (
        &[
            ((1, 1), Form::Appended(2), &[1, 2]),
            ((2, 2), Form::Appended(2), &[2, 3]),
        ],
        (2, 2),
        16,
    ),
    // A newer file within an older one.
    (
        &[
            ((1, 2), Form::Appended(4), &[1, 2, 3, 4]),
            ((3, 3), Form::Rewritten(4, 0, 0), &[4]),
            ((5, 1), Form::Closed, &[]),
        ],
        (3, 3),
        16,
    ),
    // The last entry isn't there: of some, of none, and before an empty tail.
    (
        &[
            ((1, 2), Form::Rewritten(4, 0, 0), &[2, 3]),
            ((1, 1), Form::Appended(4), &[1, 2, 3, 4]),
        ],
        (1, 2),
        24,
    ),
    (
        &[
            ((1, 1), Form::Appended(2), &[1, 2]),
            ((3, 2), Form::Rewritten(4, 0, 0), &[]),
        ],
        (3, 2),
        24,
    ),
    (
        &[
            ((1, 1), Form::Rewritten(4, 0, 0), &[2]),
            ((5, 2), Form::Appended(2), &[]),
        ],
        (1, 1),
        24,
    ),
    // A gap comes before a last entry that isn't there.
    (
        &[
            ((1, 1), Form::Appended(2), &[1]),
            ((3, 2), Form::Rewritten(4, 0, 0), &[3]),
        ],
        (3, 2),
        16,
    ),
];

/// A log of files of two entries, after ten entries and after five.
const ROLLED: Shape = (
    &[(1, 1, 2), (3, 2, 4), (5, 3, 6), (7, 4, 8), (9, 5, 10)],
    None,
    &[1, 2, 3, 4, 5, 6, 7, 8, 9, 10],
);

const ROLLING: Shape = (&[(1, 1, 2), (3, 2, 4)], Some((5, 3, 5)), &[1, 2, 3, 4, 5]);

fn tick(time: u64) -> Entry
    ensures time { result.time ≡ time }
    ensures body { result.body ≡ Tick }
    ensures fits { EntryFits result }
{
    Entry {
        time,
        body: Body::Tick,
    }
}

/// Appends a frame with a tick, and a shut gate behind it. The tick's time is its index.
fn put_tick(rt: &impl Abort, alloc: Global, out: &mut Vec<u8>, index: Index) {
    let entry = tick(index);
    let mut places = Vec::new(alloc);
    frame(&[(index, &entry)], out, &mut places).expect(rt, "memory");
    drop(places);
    drop(entry);
}

/// The first bytes of a file, with its gate open.
fn head_of(made: &Made, id: FileId) -> [u8; 64] {
    match made.1 {
        Form::Rewritten(last, cut, floor) => {
            Descriptor::written(id, last, cut, floor, made.2.len() as u64).bytes()
        }
        Form::Appended(size) => Descriptor::appended(id, size).bytes(),
        Form::Closed => [0; 64],
    }
}

/// All bytes of a file.
fn bytes_of(rt: &impl Abort, alloc: Global, made: &Made, id: FileId) -> Vec<u8> {
    let mut bytes = Vec::new(alloc);
    bytes
        .extend_from_slice(&head_of(made, id))
        .expect(rt, "memory");
    bytes.push(0).expect(rt, "memory");
    for index in made.2 {
        let _ = bytes.pop();
        put_tick(rt, alloc, &mut bytes, *index);
    }
    if let Form::Rewritten(_, _, _) = made.1 {
        let _ = bytes.pop();
    }
    bytes
}

/// The file of these numbers.
fn id_of(rt: &impl Abort, one: Id) -> FileId
    ensures { IsFileId result }
{
    let (base, generation) = one;
    assert!(rt; 1 <= base && base <= LIMIT && 1 <= generation && generation <= LIMIT);
    FileId { base, generation }
}

fn place_one(rt: &impl Abort, alloc: Global, disk: &mut MemoryDisk, name: &LogName, made: &Made) {
    let id = id_of(rt, made.0);
    let bytes = bytes_of(rt, alloc, made, id);
    disk.place(name, id, &bytes).expect(rt, "memory");
    drop(bytes);
}

/// A disk with these files, and one of another log.
fn disk_of(rt: &impl Abort, alloc: Global, name: &LogName, files: &[Made]) -> MemoryDisk {
    let mut disk = MemoryDisk::new(alloc);
    place_one(
        rt,
        alloc,
        &mut disk,
        &log_name(rt, b"db2"),
        &((2, 1), Form::Closed, &[]),
    );
    for made in files {
        place_one(rt, alloc, &mut disk, name, made);
    }
    disk
}

fn same_id(rt: &impl Abort, found: FileId, wanted: Id) {
    same(rt, (found.base, found.generation), wanted);
}

/// Asserts that these are the files of a log, by rising base and generation.
fn lists(rt: &impl Abort, disk: &mut MemoryDisk, name: &LogName, wanted: &[Id]) {
    let ids = disk.list(name).expect(rt, "a call");
    same(rt, ids.len(), wanted.len());
    for (found, wanted) in ids.iter().zip(wanted) {
        same_id(rt, *found, *wanted);
    }
    drop(ids);
}

/// Asserts that each of these files is still there.
fn has_all(rt: &impl Abort, disk: &mut MemoryDisk, name: &LogName, files: &[Made]) {
    let ids = disk.list(name).expect(rt, "a call");
    same(rt, ids.len(), files.len());
    for made in files {
        let (base, generation) = made.0;
        same(rt, ids.contains(&FileId { base, generation }), true);
    }
    drop(ids);
}

/// Asserts that the other log's file is there.
fn keeps_others(rt: &impl Abort, disk: &mut MemoryDisk) {
    lists(rt, disk, &log_name(rt, b"db2"), &[(2, 1)]);
}

fn are_sealed(rt: &impl Abort, found: &[Opened], wanted: &[Range]) {
    same(rt, found.len(), wanted.len());
    for (one, range) in found.iter().zip(wanted) {
        same(rt, (one.id.base, one.id.generation, one.part.last), *range);
    }
}

fn tail_of(parts: &Parts) -> Option<Range> {
    match parts.tail {
        Some(tail) => Some((tail.id.base, tail.id.generation, tail.last)),
        None => None,
    }
}

/// Asserts that these are the present indexes, one after the other.
fn are_present(rt: &impl Abort, parts: &Parts, wanted: &[u64]) {
    let mut at = 0;
    for index in wanted {
        same(rt, parts.next_present(at), Some(*index));
        at = *index;
    }
    same(rt, parts.next_present(at), None);
}

/// Asserts what a log that was opened is.
fn has_shape(rt: &impl Abort, parts: &Parts, shape: &Shape) {
    are_sealed(rt, &parts.sealed, shape.0);
    same(rt, tail_of(parts), shape.1);
    are_present(rt, parts, shape.2);
    same(rt, parts.last(), shape.2.last().copied().unwrap_or(0));
    same(rt, parts.needs_file(), shape.1.is_none());
}

fn load<D: Disk>(rt: &impl Abort, alloc: Global, disk: &mut D, name: &LogName) -> Parts
    ensures { IsTrue D.tells → Fits (D.view disk.new) result }
{
    Parts::load(alloc, disk, name).expect(rt, "a log")
}

/// Asserts what is read at an index: a tick of this time, or nothing.
fn finds<D: Disk>(
    rt: &impl Abort,
    alloc: Global,
    disk: &mut D,
    parts: &Parts,
    index: Index,
    time: Option<u64>,
)
    requires { IsTrue D.tells → Fits (D.view disk.old) parts.now }
{
    let wanted = match time {
        Some(time) => Some(tick(time)),
        None => None,
    };
    let found = parts.read(alloc, disk, index).expect(rt, "a call");
    same(rt, found, wanted);
}

/// Asserts what is read at an index of a log that is opened again.
fn reads<D: Disk>(
    rt: &impl Abort,
    alloc: Global,
    disk: &mut D,
    name: &LogName,
    index: Index,
    time: Option<u64>,
) {
    let parts = load(rt, alloc, disk, name);
    finds(rt, alloc, disk, &parts, index, time);
    drop(parts);
}

/// The time of the tick of an index, if it is one of these.
fn time_if_present(present: &[u64], index: Index) -> Option<u64> {
    if present.contains(&index) {
        Some(index)
    } else {
        None
    }
}

/// Asserts that the entries of these indexes are read, and none between them, nor behind them.
fn reads_all<D: Disk>(
    rt: &impl Abort,
    alloc: Global,
    disk: &mut D,
    name: &LogName,
    present: &[u64],
) {
    for index in 0..12 {
        reads(
            rt,
            alloc,
            disk,
            name,
            index,
            time_if_present(present, index),
        );
    }
    for index in present {
        reads(rt, alloc, disk, name, *index, Some(*index));
    }
}

fn is_opened(rt: &impl Abort, alloc: Global, row: &Row) {
    let name = log_name(rt, b"db");
    let mut disk = disk_of(rt, alloc, &name, row.0);
    let parts = load(rt, alloc, &mut disk, &name);
    has_shape(rt, &parts, &row.1);
    same(rt, (parts.cut(), parts.floor()), row.2);
    drop(parts);
    lists(rt, &mut disk, &name, row.3);
    keeps_others(rt, &mut disk);
    reads_all(rt, alloc, &mut disk, &name, row.1.2);
    lists(rt, &mut disk, &name, row.3);
    drop(disk);
}

fn is_damaged(rt: &impl Abort, alloc: Global, row: &(&[Made], Id, u64)) {
    let name = log_name(rt, b"db");
    let mut disk = disk_of(rt, alloc, &name, row.0);
    let (base, generation) = row.1;
    let wanted = OpenError::Damaged {
        base,
        generation,
        at: row.2,
    };
    match Parts::load(alloc, &mut disk, &name) {
        Ok(parts) => {
            drop(parts);
            same(rt, None, Some(wanted));
        }
        Err(error) => same(rt, error, wanted),
    }
    has_all(rt, &mut disk, &name, row.0);
    keeps_others(rt, &mut disk);
    drop(disk);
}

#[test]
fn folders_are_opened(rt: HostRuntime) {
    for row in FOLDERS {
        is_opened(&rt, rt.alloc(), row);
    }
}

#[test]
fn folders_with_holes_are_opened(rt: HostRuntime) {
    for row in HOLES {
        is_opened(&rt, rt.alloc(), row);
    }
}

#[test]
fn nothing_is_removed_where_a_file_is_damaged(rt: HostRuntime) {
    for row in FAULTS {
        is_damaged(&rt, rt.alloc(), row);
    }
}

/// Makes a frame with so many ticks of one time as the entries behind the last, and tells their places.
fn put_frame(
    rt: &impl Abort,
    alloc: Global,
    last: Index,
    count: u32,
    entry: &Entry,
    bytes: &mut Vec<u8>,
    places: &mut Vec<u32>,
)
    requires tick { entry.now.body ≡ Tick }
    requires fits { EntryFits entry.now }
    requires some { 1 ≤ count }
    requires few { count ≤ 64 }
    requires room { last + count ≤ index_limit }
    requires none { bytes.old.items ≡ [] }
    ensures frame { IsNextFrame last bytes.new.items places.new.items }
    ensures count { length places.new.items ≡ count }
{
    let mut entries = Vec::new(alloc);
    for n in 0..count {
        entries
            .push((last + 1 + u64::from(n), entry))
            .expect(rt, "memory");
    }
    frame(&entries, bytes, places).expect(rt, "memory");
    drop(entries);
}

/// Appends so many ticks of a time as the next entries, in one frame.
fn put_all<D: Disk>(
    rt: &impl Abort,
    alloc: Global,
    disk: &mut D,
    parts: &mut Parts,
    count: u32,
    time: u64,
    size: u32,
)
    requires fits { IsTrue D.tells → Fits (D.view disk.old) parts.old }
    requires some { 1 ≤ count }
    requires few { count ≤ 64 }
    requires least { 2 ≤ size }
    requires most { size ≤ 65536 }
    ensures { IsTrue D.tells → Fits (D.view disk.new) parts.new }
{
    parts.prepare_append(count).expect(rt, "memory");
    let last = parts.last();
    assert!(rt; last <= LIMIT - u64::from(count));
    assert!(rt; parts.greatest < LIMIT);
    let entry = tick(time);
    let mut bytes = Vec::new(alloc);
    let mut places = Vec::new(alloc);
    put_frame(rt, alloc, last, count, &entry, &mut bytes, &mut places);
    drop(entry);
    parts
        .append(alloc, disk, &bytes, &places, size)
        .expect(rt, "a call");
    drop(places);
    drop(bytes);
}

/// Appends a tick as the next entry, whose time is its index.
fn put<D: Disk>(rt: &impl Abort, alloc: Global, disk: &mut D, parts: &mut Parts, size: u32)
    requires fits { IsTrue D.tells → Fits (D.view disk.old) parts.old }
    requires least { 2 ≤ size }
    requires most { size ≤ 65536 }
    ensures { IsTrue D.tells → Fits (D.view disk.new) parts.new }
{
    let time = parts.last().saturating_add(1);
    put_all(rt, alloc, disk, parts, 1, time, size);
}

fn put_five<D: Disk>(rt: &impl Abort, alloc: Global, disk: &mut D, parts: &mut Parts)
    requires { IsTrue D.tells → Fits (D.view disk.old) parts.old }
    ensures { IsTrue D.tells → Fits (D.view disk.new) parts.new }
{
    put(rt, alloc, disk, parts, 2);
    put(rt, alloc, disk, parts, 2);
    put(rt, alloc, disk, parts, 2);
    put(rt, alloc, disk, parts, 2);
    put(rt, alloc, disk, parts, 2);
}

/// Asserts that a log is the same once it is opened again, and what is read of it.
fn is_again<D: Disk>(rt: &impl Abort, alloc: Global, disk: &mut D, name: &LogName, shape: &Shape) {
    let parts = load(rt, alloc, disk, name);
    has_shape(rt, &parts, shape);
    same(rt, parts.next_generation(), Some(parts.greatest + 1));
    drop(parts);
    reads_all(rt, alloc, disk, name, shape.2);
}

#[test]
fn a_log_rolls(rt: HostRuntime) {
    let name = log_name(&rt, b"db");
    let mut disk = MemoryDisk::new(rt.alloc());
    let mut parts = load(&rt, rt.alloc(), &mut disk, &name);
    put_five(&rt, rt.alloc(), &mut disk, &mut parts);
    has_shape(&rt, &parts, &ROLLING);
    put_five(&rt, rt.alloc(), &mut disk, &mut parts);
    has_shape(&rt, &parts, &ROLLED);
    same(&rt, parts.greatest, 5);
    drop(parts);
    is_again(&rt, rt.alloc(), &mut disk, &name, &ROLLED);
    lists(
        &rt,
        &mut disk,
        &name,
        &[(1, 1), (3, 2), (5, 3), (7, 4), (9, 5)],
    );
    drop(disk);
}

/// A log that was opened again while its last file had room goes on in that file, whatever size a new one has.
#[test]
fn a_file_keeps_its_size(rt: HostRuntime) {
    let name = log_name(&rt, b"db");
    let mut disk = MemoryDisk::new(rt.alloc());
    let mut parts = load(&rt, rt.alloc(), &mut disk, &name);
    put_five(&rt, rt.alloc(), &mut disk, &mut parts);
    drop(parts);
    is_again(&rt, rt.alloc(), &mut disk, &name, &ROLLING);
    let mut parts = load(&rt, rt.alloc(), &mut disk, &name);
    put(&rt, rt.alloc(), &mut disk, &mut parts, 65536);
    same(&rt, parts.needs_file(), true);
    put(&rt, rt.alloc(), &mut disk, &mut parts, 65536);
    put(&rt, rt.alloc(), &mut disk, &mut parts, 2);
    put(&rt, rt.alloc(), &mut disk, &mut parts, 2);
    same(&rt, tail_of(&parts), Some((7, 4, 9)));
    same(&rt, parts.prepare_append(65536), Ok(()));
    same(&rt, tail_of(&parts), Some((7, 4, 9)));
    drop(parts);
    lists(&rt, &mut disk, &name, &[(1, 1), (3, 2), (5, 3), (7, 4)]);
    drop(disk);
}

/// Four frames in files of four entries: the second one fills its file beyond its size, and the third one does so with a new file.
fn put_frames<D: Disk>(rt: &impl Abort, alloc: Global, disk: &mut D, parts: &mut Parts)
    requires { IsTrue D.tells → Fits (D.view disk.old) parts.old }
    ensures { IsTrue D.tells → Fits (D.view disk.new) parts.new }
{
    put_all(rt, alloc, disk, parts, 3, 10, 4);
    put_all(rt, alloc, disk, parts, 2, 20, 4);
    put_all(rt, alloc, disk, parts, 64, 30, 4);
    put_all(rt, alloc, disk, parts, 2, 40, 4);
}

/// The time of the entry of this index then.
fn time_in_frames(index: Index) -> Option<u64> {
    match index {
        1..=3 => Some(10),
        4..=5 => Some(20),
        6..=69 => Some(30),
        70..=71 => Some(40),
        _ => None,
    }
}

/// Asserts what the log is then.
fn has_frames(rt: &impl Abort, parts: &Parts) {
    are_sealed(rt, &parts.sealed, &[(1, 1, 5), (6, 2, 69)]);
    same(rt, tail_of(parts), Some((70, 3, 71)));
    for index in 0..71 {
        same(rt, parts.next_present(index), Some(index + 1));
    }
    same(rt, parts.next_present(71), None);
}

#[test]
fn frames_of_several_entries_are_appended(rt: HostRuntime) {
    let name = log_name(&rt, b"db");
    let mut disk = MemoryDisk::new(rt.alloc());
    let mut parts = load(&rt, rt.alloc(), &mut disk, &name);
    put_frames(&rt, rt.alloc(), &mut disk, &mut parts);
    has_frames(&rt, &parts);
    finds(&rt, rt.alloc(), &mut disk, &parts, 71, Some(40));
    drop(parts);
    let again = load(&rt, rt.alloc(), &mut disk, &name);
    has_frames(&rt, &again);
    drop(again);
    for index in 0..74 {
        reads(
            &rt,
            rt.alloc(),
            &mut disk,
            &name,
            index,
            time_in_frames(index),
        );
    }
    lists(&rt, &mut disk, &name, &[(1, 1), (6, 2), (70, 3)]);
    drop(disk);
}

/// Where the last generation is taken, no file can be made.
#[test]
fn generations_end(rt: HostRuntime) {
    let name = log_name(&rt, b"db");
    let full: Made = ((1, LIMIT), Form::Appended(2), &[1, 2]);
    let mut disk = disk_of(&rt, rt.alloc(), &name, &[full]);
    let parts = load(&rt, rt.alloc(), &mut disk, &name);
    same(&rt, parts.needs_file(), true);
    same(&rt, parts.next_generation(), None);
    drop(parts);
    drop(disk);
}
