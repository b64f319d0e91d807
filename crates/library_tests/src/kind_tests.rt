// The kinds with many cells, each through a table of its operations.
ghost use Rattle.std.specs.Prelude.{◌≡◌, []};

use crate::asks::{Ask, News, Say};
use crate::checks::same;
use crate::resources::{Life, Talk, lives, talks};
use host_types::{Index, Kind};
use lock_group::{GroupCells, LockCells};
use machine::{Place, Resource};
use map_set::{MapCells, SetCells};
use multimap_resource::MultimapCells;
use queue_topic::{QueueCells, TopicCells};
use std::alloc::Global;
use std::process::Abort;

/// The index and the owner of each cell that is listed.
fn held_by(rt: &impl Abort, alloc: Global, cells: Vec<Place>) -> Vec<(Index, Option<Index>)> {
    let mut held = Vec::new(alloc);
    for place in &cells {
        held.push((place.index, place.owner)).expect(rt, "memory");
    }
    drop(cells);
    held
}

/// A resource through its table. Asserts which entries hold its cells then, and for whom.
fn lasts<R: Resource>(
    rt: &impl Abort,
    alloc: Global,
    resource: R,
    life: &Life,
    wanted: &[(Index, Option<Index>)],
)
    requires { R.cells resource ≡ [] }
{
    let cells = lives(rt, alloc, resource, life);
    let held = held_by(rt, alloc, cells);
    same(rt, held.as_slice(), wanted);
    drop(held);
}

const MAP: Life = Life {
    rows: &[
        (Ask::GetOf(b'a'), Say::Nothing),
        (Ask::Replace(b'a', b'x'), Say::Nothing),
        (Ask::Remove(b'a'), Say::Nothing),
        (Ask::PutIf(b'a', b'x'), Say::Nothing),
        (Ask::PutIf(b'a', b'y'), Say::Text(b'x')),
        (Ask::Put(b'a', b'y'), Say::Text(b'x')),
        (Ask::Put(b'b', b'z'), Say::Nothing),
        (Ask::Replace(b'a', b'w'), Say::Text(b'y')),
        (Ask::GetOf(b'a'), Say::Text(b'w')),
        (Ask::Size, Say::Number(2)),
        (Ask::Remove(b'b'), Say::Text(b'z')),
        (Ask::Clear, Say::Nothing),
        (Ask::Clear, Say::Nothing),
        (Ask::Size, Say::Number(0)),
        (Ask::Put(b'c', b'x'), Say::Nothing),
        (Ask::Insert(b'a'), Say::Kind(Kind::Map)),
        (Ask::Create(Kind::Map), Say::Kind(Kind::Map)),
    ],
    get: Say::Kind(Kind::Map),
    size: Say::Number(1),
    closed: &[
        (1, 1),
        (2, 2),
        (3, 3),
        (5, 5),
        (4, 6),
        (6, 8),
        (9, 9),
        (10, 10),
        (7, 11),
        (11, 11),
        (8, 12),
        (12, 12),
        (13, 13),
        (14, 14),
    ],
};

#[test]
fn a_map_answers_as_its_table(rt: HostRuntime) {
    let alloc = rt.alloc();
    lasts(&rt, alloc, MapCells::new(alloc, 5), &MAP, &[(15, None)]);
}

const SET: Life = Life {
    rows: &[
        (Ask::Has(b'a'), Say::Truth(false)),
        (Ask::Discard(b'a'), Say::Truth(false)),
        (Ask::Clear, Say::Nothing),
        (Ask::Insert(b'a'), Say::Truth(true)),
        (Ask::Insert(b'a'), Say::Truth(false)),
        (Ask::Insert(b'b'), Say::Truth(true)),
        (Ask::Has(b'b'), Say::Truth(true)),
        (Ask::Size, Say::Number(2)),
        (Ask::Discard(b'a'), Say::Truth(true)),
        (Ask::Has(b'a'), Say::Truth(false)),
        (Ask::Clear, Say::Nothing),
        (Ask::Size, Say::Number(0)),
        (Ask::Insert(b'c'), Say::Truth(true)),
        (Ask::Put(b'a', b'b'), Say::Kind(Kind::Set)),
        (Ask::Delete, Say::Kind(Kind::Set)),
    ],
    get: Say::Kind(Kind::Set),
    size: Say::Number(1),
    closed: &[
        (1, 1),
        (2, 2),
        (3, 3),
        (5, 5),
        (7, 7),
        (8, 8),
        (4, 9),
        (9, 9),
        (10, 10),
        (6, 11),
        (11, 11),
        (12, 12),
    ],
};

#[test]
fn a_set_answers_as_its_table(rt: HostRuntime) {
    let alloc = rt.alloc();
    lasts(&rt, alloc, SetCells::new(alloc, 5), &SET, &[(13, None)]);
}

const MULTIMAP: Life = Life {
    rows: &[
        (Ask::GetOf(b'a'), Say::Words(b"")),
        (Ask::Count(b'a'), Say::Number(0)),
        (Ask::Remove(b'a'), Say::Number(0)),
        (Ask::RemoveOne(b'a', b'x'), Say::Truth(false)),
        (Ask::Clear, Say::Nothing),
        (Ask::Put(b'a', b'y'), Say::Truth(true)),
        (Ask::Put(b'a', b'x'), Say::Truth(true)),
        (Ask::Put(b'a', b'y'), Say::Truth(false)),
        (Ask::Put(b'b', b'z'), Say::Truth(true)),
        (Ask::GetOf(b'a'), Say::Words(b"xy")),
        (Ask::Count(b'a'), Say::Number(2)),
        (Ask::Size, Say::Number(3)),
        (Ask::RemoveOne(b'a', b'x'), Say::Truth(true)),
        (Ask::Put(b'a', b'w'), Say::Truth(true)),
        (Ask::Remove(b'a'), Say::Number(2)),
        (Ask::Count(b'a'), Say::Number(0)),
        (Ask::Size, Say::Number(1)),
        (Ask::Clear, Say::Nothing),
        (Ask::Put(b'c', b'z'), Say::Truth(true)),
        (Ask::PutIf(b'a', b'b'), Say::Kind(Kind::Multimap)),
    ],
    get: Say::Kind(Kind::Multimap),
    size: Say::Number(1),
    closed: &[
        (1, 1),
        (2, 2),
        (3, 3),
        (4, 4),
        (5, 5),
        (8, 8),
        (10, 10),
        (11, 11),
        (12, 12),
        (7, 13),
        (13, 13),
        (6, 15),
        (14, 15),
        (15, 15),
        (16, 16),
        (17, 17),
        (9, 18),
        (18, 18),
    ],
};

#[test]
fn a_multimap_answers_as_its_table(rt: HostRuntime) {
    let alloc = rt.alloc();
    let multimap = MultimapCells::new(alloc, 5);
    lasts(&rt, alloc, multimap, &MULTIMAP, &[(19, None)]);
}

/// A key of 17 words between two others.
const WORDS: Life = Life {
    rows: &[
        (Ask::Put(b'j', b'z'), Say::Truth(true)),
        (Ask::Put(b'l', b'a'), Say::Truth(true)),
        (Ask::Put(b'k', b'q'), Say::Truth(true)),
        (Ask::Put(b'k', b'p'), Say::Truth(true)),
        (Ask::Put(b'k', b'a'), Say::Truth(true)),
        (Ask::Put(b'k', b'c'), Say::Truth(true)),
        (Ask::Put(b'k', b'b'), Say::Truth(true)),
        (Ask::Put(b'k', b'h'), Say::Truth(true)),
        (Ask::Put(b'k', b'g'), Say::Truth(true)),
        (Ask::Put(b'k', b'f'), Say::Truth(true)),
        (Ask::Put(b'k', b'e'), Say::Truth(true)),
        (Ask::Put(b'k', b'd'), Say::Truth(true)),
        (Ask::Put(b'k', b'o'), Say::Truth(true)),
        (Ask::Put(b'k', b'n'), Say::Truth(true)),
        (Ask::Put(b'k', b'm'), Say::Truth(true)),
        (Ask::Put(b'k', b'l'), Say::Truth(true)),
        (Ask::Put(b'k', b'k'), Say::Truth(true)),
        (Ask::Put(b'k', b'j'), Say::Truth(true)),
        (Ask::GetOf(b'k'), Say::Words(b"abcdefghjklmnopq")),
        (Ask::Put(b'k', b'!'), Say::Truth(true)),
        (Ask::GetOf(b'k'), Say::Words(b"!abcdefghjklmnop")),
        (Ask::Count(b'k'), Say::Number(17)),
        (Ask::Remove(b'k'), Say::Number(17)),
        (Ask::GetOf(b'k'), Say::Words(b"")),
        (Ask::GetOf(b'l'), Say::Words(b"a")),
    ],
    get: Say::Kind(Kind::Multimap),
    size: Say::Number(2),
    closed: &[
        (19, 19),
        (21, 21),
        (22, 22),
        (3, 23),
        (4, 23),
        (13, 23),
        (14, 23),
        (15, 23),
        (16, 23),
        (17, 23),
        (18, 23),
        (8, 23),
        (9, 23),
        (10, 23),
        (11, 23),
        (12, 23),
        (6, 23),
        (7, 23),
        (5, 23),
        (20, 23),
        (23, 23),
        (24, 24),
        (25, 25),
    ],
};

#[test]
fn a_key_shows_its_sixteen_least_words(rt: HostRuntime) {
    let alloc = rt.alloc();
    let multimap = MultimapCells::new(alloc, 5);
    lasts(&rt, alloc, multimap, &WORDS, &[(1, None), (2, None)]);
}

const QUEUE: Life = Life {
    rows: &[
        (Ask::Poll, Say::Nothing),
        (Ask::Peek, Say::Nothing),
        (Ask::RemoveWord(b'a'), Say::Truth(false)),
        (Ask::Clear, Say::Nothing),
        (Ask::Enqueue(b'a'), Say::Nothing),
        (Ask::Enqueue(b'b'), Say::Nothing),
        (Ask::Enqueue(b'a'), Say::Nothing),
        (Ask::Enqueue(b'c'), Say::Nothing),
        (Ask::Peek, Say::Text(b'a')),
        (Ask::Size, Say::Number(4)),
        (Ask::Poll, Say::Text(b'a')),
        (Ask::RemoveWord(b'a'), Say::Truth(true)),
        (Ask::RemoveWord(b'a'), Say::Truth(false)),
        (Ask::Poll, Say::Text(b'b')),
        (Ask::Enqueue(b'd'), Say::Nothing),
        (Ask::RemoveWord(b'd'), Say::Truth(true)),
        (Ask::Peek, Say::Text(b'c')),
        (Ask::Clear, Say::Nothing),
        (Ask::Size, Say::Number(0)),
        (Ask::Enqueue(b'e'), Say::Nothing),
        (Ask::Leader, Say::Kind(Kind::Queue)),
    ],
    get: Say::Kind(Kind::Queue),
    size: Say::Number(1),
    closed: &[
        (1, 1),
        (2, 2),
        (3, 3),
        (4, 4),
        (9, 9),
        (10, 10),
        (5, 11),
        (11, 11),
        (7, 12),
        (12, 12),
        (13, 13),
        (6, 14),
        (14, 14),
        (15, 16),
        (16, 16),
        (17, 17),
        (8, 18),
        (18, 18),
        (19, 19),
    ],
};

#[test]
fn a_queue_answers_as_its_table(rt: HostRuntime) {
    let alloc = rt.alloc();
    lasts(&rt, alloc, QueueCells::new(alloc, 5), &QUEUE, &[(20, None)]);
}

const TOPIC: Life = Life {
    rows: &[
        (Ask::Publish(b'a'), Say::Number(0)),
        (Ask::Unlisten, Say::Truth(false)),
        (Ask::Listen, Say::Truth(true)),
        (Ask::Listen, Say::Truth(false)),
        (Ask::Size, Say::Number(1)),
        (Ask::Publish(b'a'), Say::Number(1)),
        (Ask::Unlisten, Say::Truth(true)),
        (Ask::Size, Say::Number(0)),
        (Ask::Listen, Say::Truth(true)),
        (Ask::Clear, Say::Kind(Kind::Topic)),
        (Ask::Holder, Say::Kind(Kind::Topic)),
    ],
    get: Say::Kind(Kind::Topic),
    size: Say::Number(1),
    closed: &[
        (1, 1),
        (2, 2),
        (4, 4),
        (5, 5),
        (6, 6),
        (3, 7),
        (7, 7),
        (8, 8),
        (9, 91),
    ],
};

/// Three sessions that listen by turns.
const PUBLISHED: Talk = Talk {
    turns: &[
        (3, Ask::Listen, Say::Truth(true), &[]),
        (1, Ask::Listen, Say::Truth(true), &[]),
        (
            2,
            Ask::Publish(b'a'),
            Say::Number(2),
            &[(1, News::Message(b'a')), (3, News::Message(b'a'))],
        ),
        (1, Ask::Unlisten, Say::Truth(true), &[]),
        (
            1,
            Ask::Publish(b'b'),
            Say::Number(1),
            &[(3, News::Message(b'b'))],
        ),
    ],
    ends: &[(1, &[]), (3, &[])],
};

#[test]
fn a_topic_answers_as_its_table(rt: HostRuntime) {
    let alloc = rt.alloc();
    lasts(
        &rt,
        alloc,
        TopicCells::new(alloc, 5),
        &TOPIC,
        &[(9, Some(1))],
    );
    talks(&rt, alloc, TopicCells::new(alloc, 5), &PUBLISHED);
}

const LOCK: Life = Life {
    rows: &[
        (Ask::Holder, Say::Nothing),
        (Ask::Unlock(7), Say::Truth(false)),
        (Ask::Try(7), Say::Truth(true)),
        (Ask::Try(7), Say::Truth(true)),
        (Ask::Try(8), Say::Truth(false)),
        (Ask::Lock(7), Say::Truth(true)),
        (Ask::Lock(8), Say::Truth(false)),
        (Ask::Lock(8), Say::Truth(false)),
        (Ask::Holder, Say::Holder(1, 7)),
        (Ask::Size, Say::Number(2)),
        (Ask::Unlock(7), Say::Truth(true)),
        (Ask::Holder, Say::Holder(1, 8)),
        (Ask::Lock(8), Say::Truth(true)),
        (Ask::Lock(9), Say::Truth(false)),
        (Ask::Unlock(9), Say::Truth(true)),
        (Ask::Unlock(8), Say::Truth(true)),
        (Ask::Lock(5), Say::Truth(true)),
        (Ask::Clear, Say::Kind(Kind::Lock)),
        (Ask::Poll, Say::Kind(Kind::Lock)),
    ],
    get: Say::Kind(Kind::Lock),
    size: Say::Number(1),
    closed: &[
        (1, 1),
        (2, 2),
        (4, 4),
        (5, 5),
        (6, 6),
        (8, 8),
        (9, 9),
        (10, 10),
        (3, 11),
        (11, 11),
        (12, 12),
        (13, 13),
        (14, 15),
        (15, 15),
        (7, 16),
        (16, 16),
        (17, 91),
    ],
};

/// Three sessions that wait, one of them twice in front.
const GRANTED: Talk = Talk {
    turns: &[
        (1, Ask::Lock(7), Say::Truth(true), &[]),
        (1, Ask::Lock(8), Say::Truth(false), &[]),
        (2, Ask::Lock(5), Say::Truth(false), &[]),
        (3, Ask::Lock(6), Say::Truth(false), &[]),
        (3, Ask::Try(6), Say::Truth(false), &[]),
        (3, Ask::Unlock(5), Say::Truth(false), &[]),
        (2, Ask::Unlock(5), Say::Truth(true), &[]),
        (2, Ask::Lock(5), Say::Truth(false), &[]),
        (
            1,
            Ask::Unlock(7),
            Say::Truth(true),
            &[(1, News::Granted(8))],
        ),
        (1, Ask::Lock(7), Say::Truth(false), &[]),
    ],
    ends: &[(1, &[(3, News::Granted(6))]), (2, &[]), (3, &[]), (9, &[])],
};

#[test]
fn a_lock_answers_as_its_table(rt: HostRuntime) {
    let alloc = rt.alloc();
    lasts(
        &rt,
        alloc,
        LockCells::new(alloc, 5),
        &LOCK,
        &[(17, Some(1))],
    );
    talks(&rt, alloc, LockCells::new(alloc, 5), &GRANTED);
}

const GROUP: Life = Life {
    rows: &[
        (Ask::Leader, Say::Nothing),
        (Ask::Members, Say::Indexes(&[])),
        (Ask::Leave(9), Say::Truth(false)),
        (Ask::Join(b'a'), Say::Index(4)),
        (Ask::Join(b'b'), Say::Index(5)),
        (Ask::Members, Say::Indexes(&[4, 5])),
        (Ask::Leader, Say::Index(4)),
        (Ask::Unlisten, Say::Truth(false)),
        (Ask::Listen, Say::Truth(true)),
        (Ask::Listen, Say::Truth(false)),
        (Ask::Size, Say::Number(2)),
        (Ask::Leave(4), Say::Truth(true)),
        (Ask::Leave(4), Say::Truth(false)),
        (Ask::Leader, Say::Index(5)),
        (Ask::Unlisten, Say::Truth(true)),
        (Ask::Listen, Say::Truth(true)),
        (Ask::Clear, Say::Kind(Kind::Group)),
        (Ask::Publish(b'a'), Say::Kind(Kind::Group)),
    ],
    get: Say::Kind(Kind::Group),
    size: Say::Number(1),
    closed: &[
        (1, 1),
        (2, 2),
        (3, 3),
        (6, 6),
        (7, 7),
        (8, 8),
        (10, 10),
        (11, 11),
        (4, 12),
        (12, 12),
        (13, 13),
        (14, 14),
        (9, 15),
        (15, 15),
        (5, 91),
        (16, 91),
    ],
};

/// Three sessions that join, leave and listen.
const JOINED: Talk = Talk {
    turns: &[
        (2, Ask::Listen, Say::Truth(true), &[]),
        (1, Ask::Listen, Say::Truth(true), &[]),
        (
            1,
            Ask::Join(b'a'),
            Say::Index(3),
            &[(1, News::Joined(3)), (2, News::Joined(3))],
        ),
        (
            3,
            Ask::Join(b'b'),
            Say::Index(4),
            &[(1, News::Joined(4)), (2, News::Joined(4))],
        ),
        (2, Ask::Leave(3), Say::Truth(false), &[]),
        (3, Ask::Listen, Say::Truth(true), &[]),
        (2, Ask::Unlisten, Say::Truth(true), &[]),
        (
            1,
            Ask::Leave(3),
            Say::Truth(true),
            &[(1, News::Left(3)), (3, News::Left(3))],
        ),
        (
            1,
            Ask::Join(b'c'),
            Say::Index(9),
            &[(1, News::Joined(9)), (3, News::Joined(9))],
        ),
        (
            1,
            Ask::Join(b'd'),
            Say::Index(10),
            &[(1, News::Joined(10)), (3, News::Joined(10))],
        ),
        (2, Ask::Listen, Say::Truth(true), &[]),
        (1, Ask::Members, Say::Indexes(&[4, 9, 10]), &[]),
    ],
    ends: &[
        (
            1,
            &[
                (2, News::Left(9)),
                (2, News::Left(10)),
                (3, News::Left(9)),
                (3, News::Left(10)),
            ],
        ),
        (2, &[]),
        (3, &[(1, News::Left(4)), (2, News::Left(4))]),
        (9, &[]),
    ],
};

#[test]
fn a_group_answers_as_its_table(rt: HostRuntime) {
    let alloc = rt.alloc();
    let held = [(5, Some(1)), (16, Some(1))];
    lasts(&rt, alloc, GroupCells::new(alloc, 5), &GROUP, &held);
    talks(&rt, alloc, GroupCells::new(alloc, 5), &JOINED);
}
