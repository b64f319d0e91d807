// The catalog, through tables of operations on names.
ghost use Rattle.std.specs.Prelude.{◌<◌};

use crate::asks::{Ask, Say};
use crate::checks::{key, same, word};
use crate::machines::{Line, lives};
use host_types::{Cell, Content, Index, Kind};
use machine::Place;
use resource_catalog::Catalog;
use std::alloc::Global;
use std::process::Abort;

const V: [u8; 2] = [b'v', b'1'];

const W: [u8; 2] = [b'w', b'1'];

/// A cas writes a new cell, and closes the one that stood.
const CAS: &[Line] = &[
    (V, Ask::Get, Say::NoName),
    (V, Ask::Create(Kind::Value), Say::Index(2)),
    (V, Ask::Set(b'a'), Say::Nothing),
    (V, Ask::Cas(b'a', b'b'), Say::Truth(true)),
];

/// The name, as a cell of instance 0, and the cell of its value.
fn name_and_value(rt: &impl Abort, alloc: Global) -> Vec<Place> {
    let mut cells = Vec::new(alloc);
    let named = Place {
        instance: 0,
        cell: Cell::Named(key(rt, alloc, &V)),
        index: 2,
        content: Content::Mark,
        owner: None,
    };
    cells.push(named).expect(rt, "memory");
    let filled = Place {
        instance: 2,
        cell: Cell::One,
        index: 4,
        content: Content::Text(word(rt, alloc, b"b")),
        owner: None,
    };
    cells.push(filled).expect(rt, "memory");
    cells
}

#[test]
fn a_cas_closes_what_stood(rt: HostRuntime) {
    let alloc = rt.alloc();
    let (cells, pairs) = lives(&rt, alloc, Catalog::new(alloc), CAS, V, Say::Text(b'b'));
    same(&rt, cells, name_and_value(&rt, alloc));
    same(&rt, pairs.as_slice(), &[(3, 4)]);
    drop(pairs);
}

/// A name is deleted with its cells, and created again with another kind.
const AGAIN: &[Line] = &[
    (V, Ask::Delete, Say::NoName),
    (V, Ask::Create(Kind::Counter), Say::Index(2)),
    (V, Ask::Create(Kind::Counter), Say::Index(2)),
    (V, Ask::Create(Kind::Value), Say::Kind(Kind::Counter)),
    (V, Ask::Add(4), Say::Number(4)),
    (W, Ask::Create(Kind::Value), Say::Index(6)),
    (V, Ask::Set(b'a'), Say::Kind(Kind::Counter)),
    (V, Ask::Delete, Say::Nothing),
    (V, Ask::Get, Say::NoName),
    (V, Ask::Create(Kind::Value), Say::Index(10)),
    (V, Ask::Get, Say::Nothing),
    (V, Ask::Set(b'a'), Say::Nothing),
    (W, Ask::Create(Kind::Queue), Say::Kind(Kind::Value)),
];

#[test]
fn a_name_is_deleted_and_created_again(rt: HostRuntime) {
    let alloc = rt.alloc();
    let (cells, pairs) = lives(&rt, alloc, Catalog::new(alloc), AGAIN, V, Say::Text(b'a'));
    same(&rt, cells.len(), 3);
    drop(cells);
    same(
        &rt,
        pairs.as_slice(),
        &[(3, 3), (2, 8), (5, 8), (8, 8), (11, 11)],
    );
    drop(pairs);
}

/// Asserts the answers of the lines, how many cells are listed then, and what `get` shows of the name `v1`.
fn lists(rt: &impl Abort, alloc: Global, lines: &[Line], cells: usize, say: Say) {
    let (listed, pairs) = lives(rt, alloc, Catalog::new(alloc), lines, V, say);
    same(rt, listed.len(), cells);
    drop(listed);
    drop(pairs);
}

/// A resource of each kind that has several cells.
const KINDS: &[Line] = &[
    (*b"k1", Ask::Create(Kind::Map), Say::Index(1)),
    (*b"k2", Ask::Create(Kind::Multimap), Say::Index(2)),
    (*b"k3", Ask::Create(Kind::Set), Say::Index(3)),
    (*b"k4", Ask::Create(Kind::Queue), Say::Index(4)),
    (*b"k5", Ask::Create(Kind::Lock), Say::Index(5)),
    (*b"k6", Ask::Create(Kind::Group), Say::Index(6)),
    (*b"k7", Ask::Create(Kind::Topic), Say::Index(7)),
    (*b"k7", Ask::Create(Kind::Map), Say::Kind(Kind::Topic)),
];

#[test]
fn each_kind_can_be_created(rt: HostRuntime) {
    lists(&rt, rt.alloc(), KINDS, 7, Say::NoName);
}

/// The name with this number.
fn numbered(number: usize) -> [u8; 2]
    requires { number < 2048 }
{
    [(number / 32) as u8 + 48, (number % 32) as u8 + 48]
}

/// As many new names as there may be, and one more.
fn too_many(rt: &impl Abort, alloc: Global) -> Vec<Line> {
    let mut lines = Vec::new(alloc);
    let create = Ask::Create(Kind::Counter);
    for at in 0..1024 {
        let line = (numbered(at), create, Say::Index(at as u64 + 1));
        lines.push(line).expect(rt, "memory");
    }
    lines.push((V, create, Say::Names)).expect(rt, "memory");
    lines
        .push((numbered(5), Ask::Delete, Say::Nothing))
        .expect(rt, "memory");
    lines
        .push((V, create, Say::Index(1027)))
        .expect(rt, "memory");
    lines
}

#[test]
fn there_are_at_most_so_many_names(rt: HostRuntime) {
    let lines = too_many(&rt, rt.alloc());
    lists(&rt, rt.alloc(), &lines, 1024, Say::Number(0));
}

/// What a name stands for, with its instance, in the plain model.
#[derive(Clone, Copy)]
enum Plain {
    Absent,
    Value(Index, Option<u8>),
    Counter(Index, i64),
}

fn said(word: Option<u8>) -> Say {
    match word {
        Some(byte) => Say::Text(byte),
        None => Say::Nothing,
    }
}

/// What a value becomes, and what is answered.
fn value_step(instance: Index, word: Option<u8>, ask: Ask) -> (Plain, Say) {
    let same = Plain::Value(instance, word);
    match ask {
        Ask::Get => (same, said(word)),
        Ask::Unset => (Plain::Value(instance, None), said(word)),
        Ask::Set(byte) => (Plain::Value(instance, Some(byte)), Say::Nothing),
        Ask::GetSet(byte) => (Plain::Value(instance, Some(byte)), said(word)),
        Ask::Cas(old, new) => {
            if word == Some(old) {
                (Plain::Value(instance, Some(new)), Say::Truth(true))
            } else {
                (same, Say::Truth(false))
            }
        }
        Ask::Delete => (Plain::Absent, Say::Nothing),
        Ask::Create(Kind::Value) => (same, Say::Index(instance)),
        _ => (same, Say::Kind(Kind::Value)),
    }
}

/// What a counter becomes, and what is answered.
fn counter_step(instance: Index, number: i64, ask: Ask) -> (Plain, Say) {
    let same = Plain::Counter(instance, number);
    match ask {
        Ask::Get => (same, Say::Number(number)),
        Ask::Reset(new) => (Plain::Counter(instance, new), Say::Nothing),
        Ask::Add(more) => match number.checked_add(more) {
            Some(sum) => (Plain::Counter(instance, sum), Say::Number(sum)),
            None => (same, Say::Range(number)),
        },
        Ask::Delete => (Plain::Absent, Say::Nothing),
        Ask::Create(Kind::Counter) => (same, Say::Index(instance)),
        _ => (same, Say::Kind(Kind::Counter)),
    }
}

/// What a name becomes, and what is answered.
fn plain_step(plain: Plain, ask: Ask, index: Index) -> (Plain, Say) {
    match plain {
        Plain::Value(instance, word) => value_step(instance, word, ask),
        Plain::Counter(instance, number) => counter_step(instance, number, ask),
        Plain::Absent => match ask {
            Ask::Create(Kind::Value) => (Plain::Value(index, None), Say::Index(index)),
            Ask::Create(Kind::Counter) => (Plain::Counter(index, 0), Say::Index(index)),
            _ => (plain, Say::NoName),
        },
    }
}

const ASKS: [Ask; 13] = [
    Ask::Create(Kind::Value),
    Ask::Get,
    Ask::Create(Kind::Counter),
    Ask::Set(b'a'),
    Ask::Reset(i64::MAX),
    Ask::Cas(b'a', b'b'),
    Ask::Add(5),
    Ask::GetSet(b'a'),
    Ask::Unset,
    Ask::Add(-7),
    Ask::Set(b'c'),
    Ask::Add(2),
    Ask::Delete,
];

/// A hundred operations on three names, with the answers of the plain model.
fn hundred(rt: &impl Abort, alloc: Global) -> Vec<Line> {
    let mut plains = [Plain::Absent; 3];
    let mut lines = Vec::new(alloc);
    for at in 0..100 {
        let which = at / 2 % 3;
        let ask = ASKS[at * 5 % 13];
        let (plain, say) = plain_step(plains[which], ask, at as u64 + 1);
        plains[which] = plain;
        lines.push((numbered(which), ask, say)).expect(rt, "memory");
    }
    lines
}

#[test]
fn a_hundred_operations_agree_with_the_plain_model(rt: HostRuntime) {
    let alloc = rt.alloc();
    let lines = hundred(&rt, alloc);
    let (cells, pairs) = lives(&rt, alloc, Catalog::new(alloc), &lines, V, Say::NoName);
    drop(cells);
    drop(pairs);
}
