//! The words that every layer speaks of: names of logs, keys and words, offers, entries, replies and refusals.
#![tactic(auto)]

mod cell;
mod entry;
mod fits;
mod lists;
mod log_name;
mod text;

ghost use Rattle.std.specs.Prelude.{◌≡◌};

pub use entry::{
    Ask, Body, Cell, Content, Effect, Entry, Event, Index, Kind, Offer, Op, Refusal, Reply, Time,
};
pub use lists::{Indexes, Words};
pub use log_name::{LogName, NameFault};
use std::alloc::{AllocError, AllocFailed};
pub use text::{KEY_LIMIT, Key, WORD_LIMIT, Word, WordFault};

/// No memory was left.
#[derive(Clone, Copy, Debug, PartialEq, Eq)]
pub struct NoMemory;

impl From<AllocError> for NoMemory {
    fn from(_: AllocError) -> Self {
        NoMemory
    }
}

impl<T: Drop> From<AllocFailed<T>> for NoMemory {
    fn from(_: AllocFailed<T>) -> Self {
        NoMemory
    }
}
