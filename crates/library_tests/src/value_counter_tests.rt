// Values and counters, each through a table of operations.
use crate::asks::{Ask, Say};
use crate::checks::{same, word};
use crate::resources::{Life, lives};
use host_types::{Cell, Content, Index, Kind};
use machine::Place;
use std::alloc::Global;
use std::process::Abort;
use value_counter::{CounterCell, ValueCell};

/// Asserts that just the one cell of instance 5 is listed, with this index and content, and nobody's.
fn is_one(rt: &impl Abort, alloc: Global, cells: Vec<Place>, index: Index, content: Content) {
    let mut wanted = Vec::new(alloc);
    wanted
        .push(Place {
            instance: 5,
            cell: Cell::One,
            index,
            content,
            owner: None,
        })
        .expect(rt, "memory");
    same(rt, cells, wanted);
}

const VALUE: Life = Life {
    rows: &[
        (Ask::Get, Say::Nothing),
        (Ask::Unset, Say::Nothing),
        (Ask::Cas(b'a', b'b'), Say::Truth(false)),
        (Ask::Set(b'a'), Say::Nothing),
        (Ask::Cas(b'b', b'c'), Say::Truth(false)),
        (Ask::Cas(b'a', b'b'), Say::Truth(true)),
        (Ask::GetSet(b'd'), Say::Text(b'b')),
        (Ask::Get, Say::Text(b'd')),
        (Ask::Unset, Say::Text(b'd')),
        (Ask::GetSet(b'e'), Say::Nothing),
        (Ask::Add(1), Say::Kind(Kind::Value)),
        (Ask::Delete, Say::Kind(Kind::Value)),
    ],
    get: Say::Text(b'e'),
    size: Say::Kind(Kind::Value),
    closed: &[
        (1, 1),
        (2, 2),
        (3, 3),
        (5, 5),
        (4, 6),
        (6, 7),
        (8, 8),
        (7, 9),
        (9, 9),
    ],
};

#[test]
fn a_value_answers_as_its_table(rt: HostRuntime) {
    let alloc = rt.alloc();
    let cells = lives(&rt, alloc, ValueCell::new(alloc, 5), &VALUE);
    is_one(&rt, alloc, cells, 10, Content::Text(word(&rt, alloc, b"e")));
}

const COUNTER: Life = Life {
    rows: &[
        (Ask::Get, Say::Number(0)),
        (Ask::Add(5), Say::Number(5)),
        (Ask::Reset(i64::MAX), Say::Nothing),
        (Ask::Add(1), Say::Range(i64::MAX)),
        (Ask::Add(0), Say::Number(i64::MAX)),
        (Ask::Add(i64::MIN), Say::Number(-1)),
        (Ask::Reset(i64::MIN), Say::Nothing),
        (Ask::Add(-1), Say::Range(i64::MIN)),
        (Ask::Add(i64::MAX), Say::Number(-1)),
        (Ask::Unset, Say::Kind(Kind::Counter)),
        (Ask::Create(Kind::Counter), Say::Kind(Kind::Counter)),
    ],
    get: Say::Number(-1),
    size: Say::Kind(Kind::Counter),
    closed: &[(1, 1), (2, 3), (3, 5), (5, 6), (6, 7), (7, 9)],
};

#[test]
fn a_counter_ends_at_both_ends_of_its_type(rt: HostRuntime) {
    let alloc = rt.alloc();
    let cells = lives(&rt, alloc, CounterCell::new(alloc, 5), &COUNTER);
    is_one(&rt, alloc, cells, 9, Content::Number(-1));
}
