// What the tests of all libraries share.
use commit_lending::Lender;
use host_types::{Index, Key, LogName, Word};
use std::alloc::Global;
use std::fmt::Debug;
use std::process::Abort;

/// Asserts that both are the same, and lets them go.
pub fn same<T: PartialEq + Debug + Drop>(rt: &impl Abort, found: T, wanted: T) {
    assert_eq!(rt; found, wanted);
}

pub fn key(rt: &impl Abort, alloc: Global, bytes: &[u8]) -> Key {
    Key::new(alloc, bytes).expect(rt, "a key")
}

pub fn word(rt: &impl Abort, alloc: Global, bytes: &[u8]) -> Word {
    Word::new(alloc, bytes).expect(rt, "a word")
}

pub fn log_name(rt: &impl Abort, bytes: &[u8]) -> LogName {
    LogName::new(bytes).expect(rt, "a name")
}

/// The pairs that were closed, in order: 64 at most.
pub fn closed(rt: &impl Abort, alloc: Global, lender: &mut Lender) -> Vec<(Index, Index)> {
    let mut pairs = Vec::new(alloc);
    for _ in 0..64 {
        if let Some(pair) = lender.pop_closed() {
            pairs.push(pair).expect(rt, "memory");
        }
    }
    pairs
}
