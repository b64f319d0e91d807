// Marks beside a plain list of them, over random steps with ample memory: after each step both answer the same.
ghost use Rattle.std.specs.Prelude.{◌≡◌, true};
ghost use Rattle.released_marks.specs.Marks.{IsAbove, IsLast, is_present, is_unmarked};

use crate::checks::same;
use host_types::Index;
use released_marks::Marks;
use std::alloc::Global;
use std::process::Abort;

type Row = (Index, Option<Index>);

fn check_above(rt: &impl Abort, marks: &Marks, index: Index)
    ensures { IsAbove index marks.now }
{
    if let Some(last) = marks.last() {
        assert!(rt; last < index);
    }
}

fn check_last(rt: &impl Abort, marks: &Marks, index: Index)
    ensures { IsLast index marks.now }
{
    match marks.last() {
        Some(last) => assert!(rt; last == index),
        None => assert!(rt; false),
    }
}

fn check_unmarked(rt: &impl Abort, marks: &Marks, index: Index)
    ensures { is_unmarked index marks.now ≡ true }
{
    assert!(rt; marks.is_unmarked(index));
}

fn check_marked(rt: &impl Abort, marks: &Marks, index: Index)
    ensures { is_present index marks.now ≡ true }
{
    assert!(rt; marks.released_at(index, Index::MAX));
}

fn add(rt: &impl Abort, marks: &mut Marks, index: Index) {
    check_above(rt, marks, index);
    marks.add(index).expect(rt, "memory");
}

fn undo(rt: &impl Abort, marks: &mut Marks, index: Index) {
    check_last(rt, marks, index);
    check_unmarked(rt, marks, index);
    marks.undo(index);
}

fn mark(rt: &impl Abort, marks: &mut Marks, index: Index, by: Index) {
    check_unmarked(rt, marks, index);
    marks.mark(index, by);
}

fn forget(rt: &impl Abort, marks: &mut Marks, index: Index) {
    check_marked(rt, marks, index);
    marks.forget(index);
}

fn is_released(row: Row, cut: Index) -> bool {
    match row.1 {
        Some(by) => by <= cut,
        None => false,
    }
}

/// How many of the rows from the one index to the other are released at the cut.
fn released(rows: &[Row], from: Index, to: Index, cut: Index) -> usize {
    let mut count = 0_usize;
    for row in rows {
        if from <= row.0 && row.0 <= to && is_released(*row, cut) {
            count = count.saturating_add(1);
        }
    }
    count
}

/// Asserts that each row is told as it stands.
fn tells_each(rt: &impl Abort, marks: &Marks, rows: &[Row], cut: Index) {
    for row in rows {
        same(rt, marks.is_unmarked(row.0), row.1.is_none());
        same(rt, marks.released_at(row.0, cut), is_released(*row, cut));
    }
}

/// Asserts that the marks are those of the rows.
fn is_as(rt: &impl Abort, marks: &Marks, rows: &[Row], next: Index, cut: Index) {
    tells_each(rt, marks, rows, cut);
    let last = rows.last().map(|row| row.0);
    same(rt, marks.last(), last);
    same(rt, marks.is_unmarked(next), false);
    same(rt, marks.released_at(next, Index::MAX), false);
    counts(rt, marks, rows, 0, next, cut);
    counts(rt, marks, rows, next / 3, next / 2, cut);
    counts(rt, marks, rows, cut, cut, Index::MAX);
    counts(rt, marks, rows, next, cut, cut);
}

fn counts(rt: &impl Abort, marks: &Marks, rows: &[Row], from: Index, to: Index, cut: Index) {
    let wanted = released(rows, from, to, cut);
    same(rt, marks.count(from, to, cut), wanted as u64);
}

/// A generator of numbers: Lehmer's, with the multiplier 48271.
fn roll(seed: &mut u64) -> u64 {
    *seed = *seed % 2_147_483_647 * 48_271 % 2_147_483_647;
    *seed / 16
}

/// Adds an index, with a hole below it at times, or takes it out again.
fn grows(rt: &impl Abort, marks: &mut Marks, rows: &mut Vec<Row>, next: Index, seed: &mut u64) {
    add(rt, marks, next);
    if roll(seed) % 5 == 0 {
        undo(rt, marks, next);
    } else {
        rows.push((next, None)).expect(rt, "memory");
    }
}

/// Marks some present index that has no mark, if the one that was thrown has none.
fn marks_one(rt: &impl Abort, marks: &mut Marks, rows: &mut Vec<Row>, by: Index, seed: &mut u64) {
    let place = roll(seed) as usize % (rows.len() + 1);
    if place < rows.len() && rows[place].1.is_none() {
        mark(rt, marks, rows[place].0, by);
        rows[place].1 = Some(by);
    }
}

/// Forgets some present index that has a mark, if the one that was thrown has one.
fn forgets_one(rt: &impl Abort, marks: &mut Marks, rows: &mut Vec<Row>, seed: &mut u64) {
    let place = roll(seed) as usize % (rows.len() + 1);
    if place < rows.len() && rows[place].1.is_some() {
        forget(rt, marks, rows[place].0);
        let _row = rows.remove(place);
    }
}

fn lasts(rt: &impl Abort, alloc: Global, seed: u64, turns: u64) {
    let mut seed = seed;
    let mut marks = Marks::new(alloc);
    let mut rows = Vec::new(alloc);
    for next in 1..turns {
        grows(rt, &mut marks, &mut rows, next, &mut seed);
        marks_one(rt, &mut marks, &mut rows, next, &mut seed);
        forgets_one(rt, &mut marks, &mut rows, &mut seed);
        is_as(rt, &marks, &rows, next + 1, next / 2);
    }
    drop(rows);
    drop(marks);
}

#[test]
fn marks_are_as_a_plain_list(rt: HostRuntime) {
    lasts(&rt, rt.alloc(), 1, 300);
}

#[test]
fn few_marks_are_told_by_their_cuts(rt: HostRuntime) {
    let mut marks = Marks::new(rt.alloc());
    same(&rt, marks.last(), None);
    same(&rt, marks.count(0, Index::MAX, Index::MAX), 0);
    add(&rt, &mut marks, 2);
    add(&rt, &mut marks, 5);
    add(&rt, &mut marks, Index::MAX);
    mark(&rt, &mut marks, 2, 5);
    mark(&rt, &mut marks, 5, Index::MAX);
    same(&rt, marks.released_at(2, 4), false);
    same(&rt, marks.released_at(2, 5), true);
    same(&rt, marks.released_at(3, Index::MAX), false);
    same(&rt, marks.released_at(Index::MAX, Index::MAX), false);
    same(&rt, marks.count(0, Index::MAX, 5), 1);
    same(&rt, marks.count(0, Index::MAX, Index::MAX), 2);
    same(&rt, marks.count(3, 2, Index::MAX), 0);
    forget(&rt, &mut marks, 2);
    same(&rt, marks.released_at(2, Index::MAX), false);
    same(&rt, marks.count(2, 2, Index::MAX), 0);
    same(&rt, marks.last(), Some(Index::MAX));
    drop(marks);
}
