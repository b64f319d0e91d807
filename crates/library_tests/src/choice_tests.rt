// Which files of a folder are the parts of its log.
ghost use Rattle.std.specs.Prelude.{◌≡◌, ◌≤◌, ◌+◌, ◌-◌, ◌*◌, length, All};
ghost use Rattle.disk_model.specs.Image.{IsBelow};
ghost use Rattle.segment_files.specs.Contents.{AreBelow, last_read};
ghost use Rattle.segment_set.specs.declared.opened.Opened.{Opened};
ghost use Rattle.segment_set.specs.Sifting.{Rise};

use crate::checks::same;
use disk_model::FileId;
use offset_index::Offsets;
use segment_files::{Descriptor, Part};
use segment_set::{Choice, OpenError, Opened, choose};
use std::alloc::Global;
use std::process::Abort;

/// A file: its base, its generation, and its last index.
type File = (u64, u64, u64);

/// The id of one: its base and generation.
type Id = (u64, u64);

/// The files of a folder; those of them that are kept; those that are covered, as they are found to be.
const PARTS: &[(&[File], &[Id], &[Id])] = &[
    (&[], &[], &[]),
    (&[(1, 1, 0)], &[(1, 1)], &[]),
    (&[(1, 1, 4), (5, 2, 6)], &[(1, 1), (5, 2)], &[]),
    // An empty tail behind a full file.
    (&[(1, 1, 4), (5, 2, 4)], &[(1, 1), (5, 2)], &[]),
    // The same base twice.
    (&[(1, 1, 3), (1, 2, 6)], &[(1, 2)], &[(1, 1)]),
    (&[(1, 1, 6), (1, 2, 6)], &[(1, 2)], &[(1, 1)]),
    // An empty file below a newer one of the same base.
    (
        &[(1, 1, 4), (5, 2, 4), (5, 3, 8)],
        &[(1, 1), (5, 3)],
        &[(5, 2)],
    ),
    // Older files within a newer one, and a tail behind them.
    (
        &[(1, 1, 4), (1, 4, 8), (5, 2, 8), (9, 3, 9)],
        &[(1, 4), (9, 3)],
        &[(1, 1), (5, 2)],
    ),
    // Two of one base within a third one.
    (
        &[(1, 1, 6), (1, 2, 4), (1, 3, 6)],
        &[(1, 3)],
        &[(1, 2), (1, 1)],
    ),
    // A covered file within a covered one.
    (
        &[(1, 4, 9), (2, 3, 8), (3, 2, 7)],
        &[(1, 4)],
        &[(2, 3), (3, 2)],
    ),
    // What lay in a file lies in the one that takes its place.
    (
        &[
            (1, 2, 3),
            (4, 3, 6),
            (4, 5, 9),
            (5, 1, 6),
            (7, 4, 9),
            (10, 6, 9),
        ],
        &[(1, 2), (4, 5), (10, 6)],
        &[(4, 3), (5, 1), (7, 4)],
    ),
];

/// The files of a folder, and the first part that doesn't begin where the one before it ends.
const APART: &[(&[File], Id)] = &[
    // The first entry is missing.
    (&[(2, 1, 4)], (2, 1)),
    // A gap.
    (&[(1, 1, 4), (6, 2, 8), (9, 3, 9)], (6, 2)),
    // Two that overlap, neither of which lies in the other.
    (&[(1, 1, 4), (3, 2, 6)], (3, 2)),
    (&[(1, 2, 4), (3, 1, 6)], (3, 1)),
    // A newer empty file on the base of a full one.
    (&[(1, 1, 4), (1, 2, 0)], (1, 2)),
    // A newer file within an older one; what comes behind it lies in the older one.
    (&[(1, 5, 10), (3, 7, 4), (5, 4, 6)], (3, 7)),
    // A newer and shorter one with the same base.
    (&[(1, 1, 8), (1, 2, 4), (9, 3, 9)], (1, 2)),
    // The first of two.
    (&[(1, 1, 2), (4, 2, 5), (7, 3, 8)], (4, 2)),
];

/// Where so many entries might stand, from a base on.
fn offsets_of(rt: &impl Abort, alloc: Global, base: u64, count: u64) -> Offsets
    requires few { count ≤ 1000 }
    requires first { 1 ≤ base }
    ensures count { length result.items ≡ count }
    ensures below { AreBelow base (base - 1 + count) result.items (64 + 10 * count) }
    ensures ended { last_read base result.items ≡ base - 1 + count }
{
    let mut offsets = Offsets::new(alloc);
    for k in 0..count {
        offsets.push(k, 64 + 10 * k).expect(rt, "memory");
    }
    offsets
}

/// A file whose gate is open.
fn opened(rt: &impl Abort, alloc: Global, (base, generation, last): File) -> Opened {
    assert!(rt; 1 <= base && base <= 100 && 1 <= generation && generation <= 100);
    assert!(rt; last <= 100);
    assert!(rt; base <= last + 1);
    let count = last + 1 - base;
    let id = FileId { base, generation };
    Opened {
        id,
        part: Part {
            descriptor: Descriptor::appended(id, 4),
            last,
            gate: 64 + 10 * count,
            offsets: offsets_of(rt, alloc, base, count),
        },
    }
}

fn check_below(rt: &impl Abort, files: &[Opened], one: FileId)
    ensures { All (λ other. IsBelow other.id one) files.now }
{
    for other in files {
        let id = other.id;
        assert!(rt; id.base < one.base || (id.base == one.base && id.generation < one.generation));
    }
}

/// Appends a file, which has to be above the others.
fn add(rt: &impl Abort, files: &mut Vec<Opened>, one: Opened)
    requires { Rise files.old.items }
    ensures { Rise files.new.items }
{
    check_below(rt, files, one.id);
    files.push(one).expect(rt, "memory");
}

fn chosen(rt: &impl Abort, alloc: Global, files: &[File]) -> Result<Choice, OpenError> {
    let mut all = Vec::new(alloc);
    for file in files {
        add(rt, &mut all, opened(rt, alloc, *file));
    }
    choose(alloc, all)
}

fn same_ids(rt: &impl Abort, found: &[FileId], wanted: &[Id]) {
    same(rt, found.len(), wanted.len());
    for (one, other) in found.iter().zip(wanted) {
        same(rt, (one.base, one.generation), *other);
    }
}

fn kept_ids(rt: &impl Abort, alloc: Global, kept: &[Opened]) -> Vec<FileId> {
    let mut ids = Vec::new(alloc);
    for one in kept {
        ids.push(one.id).expect(rt, "memory");
    }
    ids
}

fn has_parts(rt: &impl Abort, alloc: Global, row: &(&[File], &[Id], &[Id])) {
    match chosen(rt, alloc, row.0) {
        Ok(choice) => {
            same_ids(rt, &kept_ids(rt, alloc, &choice.kept), row.1);
            same_ids(rt, &choice.covered, row.2);
            drop(choice);
        }
        Err(error) => same(rt, Some(error), None),
    }
}

fn is_apart(rt: &impl Abort, alloc: Global, row: &(&[File], Id)) {
    let (base, generation) = row.1;
    let at = 16;
    match chosen(rt, alloc, row.0) {
        Ok(choice) => {
            drop(choice);
            same(rt, false, true);
        }
        Err(error) => same(
            rt,
            error,
            OpenError::Damaged {
                base,
                generation,
                at,
            },
        ),
    }
}

#[test]
fn folders_have_parts(rt: HostRuntime) {
    for row in PARTS {
        has_parts(&rt, rt.alloc(), row);
    }
}

#[test]
fn folders_have_a_part_that_stands_apart(rt: HostRuntime) {
    for row in APART {
        is_apart(&rt, rt.alloc(), row);
    }
}
