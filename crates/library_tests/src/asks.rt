// Operations, their answers and what they tell, as rows of tables.
use crate::checks::{key, word};
use host_types::{Event, Index, Indexes, Kind, Op, Reply, Words};
use machine::Refuse;
use std::alloc::Global;
use std::process::Abort;

/// An operation, by the letters of its keys and words.
#[derive(Clone, Copy)]
pub enum Ask {
    Create(Kind),
    Delete,
    Size,
    Clear,
    Get,
    Set(u8),
    GetSet(u8),
    Cas(u8, u8),
    Unset,
    Reset(i64),
    Add(i64),
    Put(u8, u8),
    PutIf(u8, u8),
    Replace(u8, u8),
    Remove(u8),
    GetOf(u8),
    RemoveOne(u8, u8),
    Count(u8),
    Insert(u8),
    Discard(u8),
    Has(u8),
    Enqueue(u8),
    Poll,
    Peek,
    RemoveWord(u8),
    Lock(u64),
    Try(u64),
    Unlock(u64),
    Holder,
    Join(u8),
    Leave(Index),
    Members,
    Leader,
    Listen,
    Unlisten,
    Publish(u8),
}

/// What it is answered.
#[derive(Clone, Copy)]
pub enum Say {
    Nothing,
    Text(u8),
    Number(i64),
    Truth(bool),
    Index(Index),
    Holder(Index, u64),
    Words(&'static [u8]),
    Indexes(&'static [Index]),
    Kind(Kind),
    Range(i64),
    NoName,
    Names,
}

/// What a session is told.
#[derive(Clone, Copy)]
pub enum News {
    Message(u8),
    Granted(u64),
    Joined(Index),
    Left(Index),
}

/// An operation with a key.
fn keyed_op(rt: &impl Abort, alloc: Global, letter: u8, ask: Ask) -> Op {
    let key = key(rt, alloc, &[letter]);
    match ask {
        Ask::Put(_, byte) => Op::Put {
            key,
            word: word(rt, alloc, &[byte]),
        },
        Ask::PutIf(_, byte) => Op::PutIf {
            key,
            word: word(rt, alloc, &[byte]),
        },
        Ask::Replace(_, byte) => Op::Replace {
            key,
            word: word(rt, alloc, &[byte]),
        },
        Ask::RemoveOne(_, byte) => Op::RemoveOne {
            key,
            word: word(rt, alloc, &[byte]),
        },
        Ask::Remove(_) => Op::Remove { key },
        Ask::Count(_) => Op::Count { key },
        _ => Op::GetOf { key },
    }
}

/// An operation with a word, and no key.
fn worded_op(rt: &impl Abort, alloc: Global, letter: u8, ask: Ask) -> Op {
    let word = word(rt, alloc, &[letter]);
    match ask {
        Ask::GetSet(_) => Op::GetSet { word },
        Ask::Insert(_) => Op::Insert { word },
        Ask::Discard(_) => Op::Discard { word },
        Ask::Has(_) => Op::Has { word },
        Ask::Enqueue(_) => Op::Enqueue { word },
        Ask::RemoveWord(_) => Op::RemoveWord { word },
        Ask::Join(_) => Op::Join { word },
        Ask::Publish(_) => Op::Publish { word },
        _ => Op::Set { word },
    }
}

pub fn op_of(rt: &impl Abort, alloc: Global, ask: Ask) -> Op {
    match ask {
        Ask::Create(kind) => Op::Create { kind },
        Ask::Delete => Op::Delete,
        Ask::Size => Op::Size,
        Ask::Clear => Op::Clear,
        Ask::Get => Op::Get,
        Ask::Cas(old, new) => Op::Cas {
            old: word(rt, alloc, &[old]),
            new: word(rt, alloc, &[new]),
        },
        Ask::Unset => Op::Unset,
        Ask::Reset(number) => Op::Reset { number },
        Ask::Add(number) => Op::Add { number },
        Ask::Poll => Op::Poll,
        Ask::Peek => Op::Peek,
        Ask::Lock(id) => Op::Lock { id },
        Ask::Try(id) => Op::Try { id },
        Ask::Unlock(id) => Op::Unlock { id },
        Ask::Holder => Op::Holder,
        Ask::Leave(member) => Op::Leave { member },
        Ask::Members => Op::Members,
        Ask::Leader => Op::Leader,
        Ask::Listen => Op::Listen,
        Ask::Unlisten => Op::Unlisten,
        Ask::Put(letter, _)
        | Ask::PutIf(letter, _)
        | Ask::Replace(letter, _)
        | Ask::RemoveOne(letter, _)
        | Ask::Remove(letter)
        | Ask::GetOf(letter)
        | Ask::Count(letter) => keyed_op(rt, alloc, letter, ask),
        Ask::Set(letter)
        | Ask::GetSet(letter)
        | Ask::Insert(letter)
        | Ask::Discard(letter)
        | Ask::Has(letter)
        | Ask::Enqueue(letter)
        | Ask::RemoveWord(letter)
        | Ask::Join(letter)
        | Ask::Publish(letter) => worded_op(rt, alloc, letter, ask),
    }
}

fn words(rt: &impl Abort, alloc: Global, letters: &[u8]) -> Words {
    let mut words = Words::new(alloc);
    for letter in letters {
        assert!(rt; words.as_slice().len() < 16);
        words.push(word(rt, alloc, &[*letter])).expect(rt, "memory");
    }
    words
}

fn indexes(rt: &impl Abort, alloc: Global, numbers: &[Index]) -> Indexes {
    let mut indexes = Indexes::new(alloc);
    for number in numbers {
        assert!(rt; indexes.as_slice().len() < 64);
        indexes.push(*number).expect(rt, "memory");
    }
    indexes
}

pub fn answer_of(rt: &impl Abort, alloc: Global, say: Say) -> Result<Reply, Refuse> {
    match say {
        Say::Nothing => Ok(Reply::None),
        Say::Text(byte) => Ok(Reply::Text(word(rt, alloc, &[byte]))),
        Say::Number(number) => Ok(Reply::Number(number)),
        Say::Truth(truth) => Ok(Reply::Truth(truth)),
        Say::Index(index) => Ok(Reply::Index(index)),
        Say::Holder(session, id) => Ok(Reply::Holder { session, id }),
        Say::Words(letters) => Ok(Reply::Words(words(rt, alloc, letters))),
        Say::Indexes(numbers) => Ok(Reply::Indexes(indexes(rt, alloc, numbers))),
        Say::Kind(is) => Err(Refuse::Kind { is }),
        Say::Range(value) => Err(Refuse::Range { value }),
        Say::NoName => Err(Refuse::NoName),
        Say::Names => Err(Refuse::Names),
    }
}

/// What a session is told of the resource with this name.
pub fn event_of(rt: &impl Abort, alloc: Global, letter: u8, news: News) -> Event {
    let name = key(rt, alloc, &[letter]);
    match news {
        News::Message(byte) => Event::Message {
            name,
            word: word(rt, alloc, &[byte]),
        },
        News::Granted(id) => Event::Granted { name, id },
        News::Joined(member) => Event::Joined { name, member },
        News::Left(member) => Event::Left { name, member },
    }
}
