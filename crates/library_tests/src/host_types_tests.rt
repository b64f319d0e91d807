// Keys and words at the ends of their lengths and bytes, and copies of all that is copied.
use crate::checks::{key, same, word};
use host_types::{Event, Indexes, Key, Reply, Word, WordFault, Words};
use std::alloc::Global;
use std::process::Abort;

/// Bytes that are no text, and why.
type Bad = (&'static [u8], WordFault);

const NO_KEYS: &[Bad] = &[
    (b"", WordFault::Empty),
    (&[b' '; 256], WordFault::TooLong),
    (b"a b", WordFault::BadByte { at: 1 }),
    (b"\x7f", WordFault::BadByte { at: 0 }),
    (b"ab\x80\n", WordFault::BadByte { at: 2 }),
];

fn is_key(rt: &impl Abort, alloc: Global, bytes: &[u8]) {
    let key = key(rt, alloc, bytes);
    same(rt, key.bytes(), bytes);
    drop(key);
}

fn is_no_key(rt: &impl Abort, alloc: Global, bad: &Bad) {
    same(rt, Key::new(alloc, bad.0), Err(bad.1));
}

#[test]
fn a_key_has_1_to_255_visible_bytes(rt: HostRuntime) {
    is_key(&rt, rt.alloc(), b"!~");
    is_key(&rt, rt.alloc(), &[b'k'; 255]);
    for bad in NO_KEYS {
        is_no_key(&rt, rt.alloc(), bad);
    }
}

const NO_WORDS: &[Bad] = &[
    (b"", WordFault::Empty),
    (&[b' '; 4097], WordFault::TooLong),
    (b"\t", WordFault::BadByte { at: 0 }),
    (b"abc\x7f", WordFault::BadByte { at: 3 }),
];

fn is_word(rt: &impl Abort, alloc: Global, bytes: &[u8]) {
    let word = word(rt, alloc, bytes);
    same(rt, word.bytes(), bytes);
    drop(word);
}

fn is_no_word(rt: &impl Abort, alloc: Global, bad: &Bad) {
    same(rt, Word::new(alloc, bad.0), Err(bad.1));
}

#[test]
fn a_word_has_1_to_4096_visible_bytes(rt: HostRuntime) {
    is_word(&rt, rt.alloc(), b"!~");
    is_word(&rt, rt.alloc(), &[b'w'; 4096]);
    for bad in NO_WORDS {
        is_no_word(&rt, rt.alloc(), bad);
    }
}

fn letters(rt: &impl Abort, alloc: Global) -> Words {
    let mut words = Words::new(alloc);
    words.push(word(rt, alloc, b"a")).expect(rt, "memory");
    words.push(word(rt, alloc, b"b")).expect(rt, "memory");
    words
}

fn numbers(rt: &impl Abort, alloc: Global) -> Indexes {
    let mut indexes = Indexes::new(alloc);
    indexes.push(3).expect(rt, "memory");
    indexes.push(281474976710655).expect(rt, "memory");
    indexes
}

#[test]
fn lists_are_filled_and_copied(rt: HostRuntime) {
    let words = letters(&rt, rt.alloc());
    same(&rt, words.as_slice().len(), 2);
    same(&rt, words.copy().expect(&rt, "memory"), words);
    let indexes = numbers(&rt, rt.alloc());
    same(&rt, indexes.as_slice(), &[3, 281474976710655]);
    same(&rt, indexes.copy().expect(&rt, "memory"), indexes);
}

fn reply_is_copied(rt: &impl Abort, reply: Reply) {
    let copy = reply.copy().expect(rt, "memory");
    same(rt, copy, reply);
}

#[test]
fn replies_are_copied(rt: HostRuntime) {
    let alloc = rt.alloc();
    reply_is_copied(&rt, Reply::None);
    reply_is_copied(&rt, Reply::Text(word(&rt, alloc, b"text")));
    reply_is_copied(&rt, Reply::Number(-5));
    reply_is_copied(&rt, Reply::Truth(true));
    reply_is_copied(&rt, Reply::Index(9));
    reply_is_copied(&rt, Reply::Holder { session: 1, id: 2 });
    reply_is_copied(&rt, Reply::Words(letters(&rt, alloc)));
    reply_is_copied(&rt, Reply::Indexes(numbers(&rt, alloc)));
}

fn event_is_copied(rt: &impl Abort, event: Event) {
    let copy = event.copy().expect(rt, "memory");
    same(rt, copy, event);
}

#[test]
fn events_are_copied(rt: HostRuntime) {
    let alloc = rt.alloc();
    let name = key(&rt, alloc, b"t");
    let word = word(&rt, alloc, b"hi");
    event_is_copied(&rt, Event::Message { name, word });
    let name = key(&rt, alloc, b"l");
    event_is_copied(&rt, Event::Granted { name, id: 8 });
    let name = key(&rt, alloc, b"g");
    event_is_copied(&rt, Event::Joined { name, member: 3 });
    let name = key(&rt, alloc, b"g");
    event_is_copied(&rt, Event::Left { name, member: 4 });
}
