// Where the entries of a file stand, with ample memory.
ghost use Rattle.std.specs.Prelude.{◌≡◌, ◌+◌, ◌<◌, ◌≤◌, length};
ghost use Rattle.offset_index.specs.Indexed.{MayFollow};

use crate::checks::same;
use offset_index::{Offsets, Steps};
use std::alloc::Global;
use std::marker::Brand;
use std::process::Abort;
use std::sync::ledger::{Blank, Ledger};

fn check_above(rt: &impl Abort, offsets: &Offsets, offset: u64, place: u64)
    ensures { MayFollow offsets.now.items (offset, place) }
{
    let count = offsets.count();
    if count > 0 {
        let last = offsets.at(count - 1);
        assert!(rt; last.0 < offset && last.1 < place);
    }
}

fn last(rt: &impl Abort, offsets: &Offsets) -> (u64, u64) {
    let count = offsets.count();
    assert!(rt; count > 0);
    offsets.at(count - 1)
}

/// Appends a pair, which has to be above the last one.
fn append(rt: &impl Abort, offsets: &mut Offsets, offset: u64, place: u64) {
    check_above(rt, offsets, offset, place);
    offsets.push(offset, place).expect(rt, "memory");
}

/// Appends a pair where there is room: no memory is asked for then.
fn append_reserved(rt: &impl Abort, offsets: &mut Offsets, offset: u64, place: u64)
    requires { 1 ≤ offsets.old.spare }
    ensures { offsets.new.spare + 1 ≡ offsets.old.spare }
{
    check_above(rt, offsets, offset, place);
    match offsets.push(offset, place) {
        Ok(()) => {}
        Err(_) => unreachable!(),
    }
}

/// Every third offset from 0 on, at places that are 40 bytes apart from 5 on.
fn thirds(rt: &impl Abort, alloc: Global, count: u16) -> Offsets {
    let mut offsets = Offsets::new(alloc);
    for k in 0..u64::from(count) {
        append(rt, &mut offsets, 3 * k, 40 * k + 5);
    }
    offsets
}

fn check_few(rt: &impl Abort, offsets: &Offsets)
    ensures { length offsets.now.items ≤ 1000 }
{
    assert!(rt; offsets.count() <= 1_000);
}

/// Looks the place up and compares it. It looks at no more than 11 pairs.
fn finds<L: Ledger>(
    rt: &impl Abort,
    offsets: &Offsets,
    offset: u64,
    place: Option<u64>,
    steps: &mut Steps<L>,
)
    ensures { steps.new ≤ steps.old + 11 }
{
    check_few(rt, offsets);
    same(rt, offsets.find(offset, steps), place);
}

/// Looks the position up and compares it. It looks at no more than 11 pairs.
fn finds_above<L: Ledger>(
    rt: &impl Abort,
    offsets: &Offsets,
    offset: u64,
    position: Option<usize>,
    steps: &mut Steps<L>,
)
    ensures { steps.new ≤ steps.old + 11 }
{
    check_few(rt, offsets);
    same(rt, offsets.first_above(offset, steps), position);
}

fn look_in_a_thousand<L: Ledger>(rt: &impl Abort, alloc: Global, blank: Blank)
    requires name { blank.name ≡ L.name }
    requires parts { blank.parts ≡ L.parts }
    requires some { 0 < L.parts }
{
    let offsets = thirds(rt, alloc, 1_000);
    let mut steps = Steps::<L>::new(blank);
    for offset in 0..3_100 {
        let third = offset / 3;
        let stands = offset % 3 == 0 && offset < 3_000;
        let place = stands.then_some(40 * third + 5);
        finds(rt, &offsets, offset, place, &mut steps);
        let position = (offset < 2_997).then_some(third as usize + 1);
        finds_above(rt, &offsets, offset, position, &mut steps);
    }
    drop(steps);
    drop(offsets);
}

fn look_in_few<L: Ledger>(rt: &impl Abort, alloc: Global, blank: Blank)
    requires name { blank.name ≡ L.name }
    requires parts { blank.parts ≡ L.parts }
    requires some { 0 < L.parts }
{
    let mut offsets = Offsets::new(alloc);
    let mut steps = Steps::<L>::new(blank);
    finds(rt, &offsets, 0, None, &mut steps);
    finds_above(rt, &offsets, 0, None, &mut steps);
    append(rt, &mut offsets, 7, 64);
    finds(rt, &offsets, 6, None, &mut steps);
    finds(rt, &offsets, 7, Some(64), &mut steps);
    finds(rt, &offsets, 8, None, &mut steps);
    finds_above(rt, &offsets, 6, Some(0), &mut steps);
    finds_above(rt, &offsets, 7, None, &mut steps);
    append(rt, &mut offsets, u64::MAX, 65);
    finds(rt, &offsets, 8, None, &mut steps);
    finds(rt, &offsets, u64::MAX, Some(65), &mut steps);
    finds_above(rt, &offsets, 7, Some(1), &mut steps);
    finds_above(rt, &offsets, u64::MAX, None, &mut steps);
    drop(steps);
    drop(offsets);
}

#[test]
fn every_third_of_three_thousand_is_found(rt: HostRuntime) {
    look_in_a_thousand::<Brand>(&rt, rt.alloc(), Blank::new(1));
}

#[test]
fn few_are_found_and_holes_are_not(rt: HostRuntime) {
    look_in_few::<Brand>(&rt, rt.alloc(), Blank::new(1));
}

#[test]
fn room_that_was_reserved_is_used(rt: HostRuntime) {
    let mut offsets = Offsets::new(rt.alloc());
    offsets.reserve(2).expect(&rt, "memory");
    append_reserved(&rt, &mut offsets, 0, 5);
    append_reserved(&rt, &mut offsets, 3, 45);
    append(&rt, &mut offsets, 4, 85);
    same(&rt, offsets.count(), 3);
    same(&rt, last(&rt, &offsets), (4, 85));
    drop(offsets);
}
