// Keys and words. Contracts see them as their bytes.
ghost use Rattle.std.specs.Prelude.{◌≡◌, ◌≤◌, Some, None, true, false, length, nat_eq, IfOk, IfErr};
ghost use Rattle.std.specs.Ordering.{nat_cmp};
ghost use Rattle.std.specs.Cmp.Lexicographic.{slice_cmp, pointwise};
ghost use Rattle.std.specs.Cmp.Rules.{comparing, hashing};
ghost use Rattle.std.specs.Hash as fed;
ghost use Rattle.std.specs.Cmp as comparisons;
ghost use Rattle.std.proofs.Common.{rules};
ghost use Rattle.host_types.specs.Limits.{key_limit, word_limit};
ghost use Rattle.host_types.specs.Text.{IsText, first_hidden, text_fault, FailsAsText};

use crate::NoMemory as OutOfMemory;
use std::alloc::{AllocError, Global};
use std::cmp::Ordering;
use std::hash::{Hash, Hasher};
use std::marker::Model;

/// The greatest number of bytes of a key.
pub const KEY_LIMIT: usize = 255;

/// The greatest number of bytes of a word.
pub const WORD_LIMIT: usize = 4096;

/// Why bytes are no key or no word. The first of these that applies is told.
#[derive(Clone, Copy, Debug, PartialEq, Eq)]
pub enum WordFault {
    /// There is no byte.
    Empty,
    /// There are more than 255 bytes in a key, or more than 4,096 in a word.
    TooLong,
    /// The byte at this place is the first outside of visible ASCII, 0x21 to 0x7E.
    BadByte { at: usize },
    /// No memory was left.
    NoMemory,
}

impl From<AllocError> for WordFault {
    ghost use Rattle.host_types.specs.declared.text.WordFault.TheVariants.{NoMemory};

    ghost from_gives = { λ _ e. e ≡ NoMemory };

    fn from(_: AllocError) -> Self {
        WordFault::NoMemory
    }
}

/// The place of the first byte that neither a key nor a word may have.
fn hidden_byte(bytes: &[u8]) -> Option<usize>
    ensures { result ≡ first_hidden bytes.now }
{
    bytes.iter().position(|byte| !byte.is_ascii_graphic())
}

/// Why these bytes are no text of at most `limit` bytes, if so.
fn fault_of(bytes: &[u8], limit: usize) -> Option<WordFault>
    ensures { result ≡ text_fault limit bytes.now }
{
    if bytes.is_empty() {
        return Some(WordFault::Empty);
    }
    if bytes.len() > limit {
        return Some(WordFault::TooLong);
    }
    match hidden_byte(bytes) {
        Some(at) => Some(WordFault::BadByte { at }),
        None => None,
    }
}

/// A key of a map, or the name of a resource: 1 to 255 bytes of visible ASCII, 0x21 to 0x7E. Keys are ordered by their bytes.
#[derive(Debug, Drop)]
pub struct Key {
    bytes: Vec<u8>,
}

impl Model for Key {
    ghost use Rattle.std.specs.Prelude.{ℕ, List};
    ghost use Rattle.host_types.specs.Limits.{key_limit};
    ghost use Rattle.host_types.specs.Text.{IsText};

    ghost Value = { List ℕ };

    ghost view = { λ text. text.bytes.items };

    ghost invariant = { λ text. IsText key_limit text.bytes.items };
}

impl Key {
    /// A key of these bytes. It copies them.
    pub fn new(alloc: Global, bytes: &[u8]) -> Result<Key, WordFault>
        ensures ok { IfOk result (λ key. (key ≡ bytes.now) × IsText key_limit bytes.now) }
        ensures fault { IfErr result (FailsAsText key_limit bytes.now) }
    {
        match fault_of(bytes, KEY_LIMIT) {
            Some(fault) => Err(fault),
            None => Ok(Key {
                bytes: Vec::from_slice(alloc, bytes)?,
            }),
        }
    }

    /// Its bytes.
    pub fn bytes(&self) -> &[u8]
        ensures bytes { result.now ≡ self.now }
        ensures text { IsText key_limit result.now }
    {
        &self.bytes
    }

    /// The same once more.
    pub fn copy(&self) -> Result<Key, OutOfMemory>
        ensures { IfOk result (λ copy. copy ≡ self.now) }
    {
        Ok(Key {
            bytes: self.bytes.clone()?,
        })
    }
}

impl PartialEq for Key {
    ghost eq = { pointwise nat_eq };

    ghost laws = { Prim.search (comparing, rules) };

    fn eq(&self, other: &Key) -> bool {
        self.bytes() == other.bytes()
    }
}

impl Eq for Key {
    ghost laws = { Prim.search (comparing, rules) };
}

impl PartialOrd for Key {
    ghost partial_cmp = { λ x y. Some (slice_cmp nat_cmp x y) };

    ghost laws = { comparisons.partial_order_from_own_ties (Prim.search (comparing, rules)) (Prim.search (comparing, rules)) };

    fn partial_cmp(&self, other: &Key) -> Option<Ordering> {
        Some(self.cmp(other))
    }
}

impl Ord for Key {
    ghost cmp = { slice_cmp nat_cmp };

    ghost total = { Prim.search (comparing, rules) };

    ghost matches_partial_cmp = { Prim.search (comparing, rules) };

    ghost matches_eq = { Prim.search (comparing, rules) };

    fn cmp(&self, other: &Key) -> Ordering {
        self.bytes().cmp(other.bytes())
    }
}

impl Hash for Key {
    ghost hash_input = { fed.slice fed.u8 };

    ghost respects_eq = { Prim.search (hashing, rules) };

    fn hash<H: Hasher>(&self, state: &mut H) {
        self.bytes().hash(state);
    }
}

/// What is stored, queued and told: 1 to 4,096 bytes of visible ASCII, 0x21 to 0x7E. Words are ordered by their bytes.
#[derive(Debug, Drop)]
pub struct Word {
    bytes: Vec<u8>,
}

impl Model for Word {
    ghost use Rattle.std.specs.Prelude.{ℕ, List};
    ghost use Rattle.host_types.specs.Limits.{word_limit};
    ghost use Rattle.host_types.specs.Text.{IsText};

    ghost Value = { List ℕ };

    ghost view = { λ text. text.bytes.items };

    ghost invariant = { λ text. IsText word_limit text.bytes.items };
}

impl Word {
    /// A word of these bytes. It copies them.
    pub fn new(alloc: Global, bytes: &[u8]) -> Result<Word, WordFault>
        ensures ok { IfOk result (λ word. (word ≡ bytes.now) × IsText word_limit bytes.now) }
        ensures fault { IfErr result (FailsAsText word_limit bytes.now) }
    {
        match fault_of(bytes, WORD_LIMIT) {
            Some(fault) => Err(fault),
            None => Ok(Word {
                bytes: Vec::from_slice(alloc, bytes)?,
            }),
        }
    }

    /// Its bytes.
    pub fn bytes(&self) -> &[u8]
        ensures bytes { result.now ≡ self.now }
        ensures text { IsText word_limit result.now }
    {
        &self.bytes
    }

    /// The same once more.
    pub fn copy(&self) -> Result<Word, OutOfMemory>
        ensures { IfOk result (λ copy. copy ≡ self.now) }
    {
        Ok(Word {
            bytes: self.bytes.clone()?,
        })
    }
}

impl PartialEq for Word {
    ghost eq = { pointwise nat_eq };

    ghost laws = { Prim.search (comparing, rules) };

    fn eq(&self, other: &Word) -> bool {
        self.bytes() == other.bytes()
    }
}

impl Eq for Word {
    ghost laws = { Prim.search (comparing, rules) };
}

impl PartialOrd for Word {
    ghost partial_cmp = { λ x y. Some (slice_cmp nat_cmp x y) };

    ghost laws = { comparisons.partial_order_from_own_ties (Prim.search (comparing, rules)) (Prim.search (comparing, rules)) };

    fn partial_cmp(&self, other: &Word) -> Option<Ordering> {
        Some(self.cmp(other))
    }
}

impl Ord for Word {
    ghost cmp = { slice_cmp nat_cmp };

    ghost total = { Prim.search (comparing, rules) };

    ghost matches_partial_cmp = { Prim.search (comparing, rules) };

    ghost matches_eq = { Prim.search (comparing, rules) };

    fn cmp(&self, other: &Word) -> Ordering {
        self.bytes().cmp(other.bytes())
    }
}

impl Hash for Word {
    ghost hash_input = { fed.slice fed.u8 };

    ghost respects_eq = { Prim.search (hashing, rules) };

    fn hash<H: Hasher>(&self, state: &mut H) {
        self.bytes().hash(state);
    }
}
