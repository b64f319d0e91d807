// Reads a script in pieces and finds its lines. Each byte is searched once, and moved a bounded number of times;
// what is held stays within a line and a chunk.
ghost use Rattle.std.specs.Prelude.{◌≡◌, ◌<◌, ◌≤◌, ◌⊎◌, ◌+◌, ◌++◌, ℕ, List, [], Some, Ok, Err, false, length, take, drop, vec_len, MatchOption, IfSome, IfNone, IfOk, OnOk, IsErrOf};
ghost use Rattle.script_io.specs.Streams.{Rose};
ghost use Rattle.copycat_tool.specs.Script.{has_feed};
ghost use Rattle.copycat_tool.specs.Pieces.{EndsAt, Finds, IsLineWithin, IsPiece, IsShort, IsTaken, TakesMore};
ghost use Rattle.copycat_tool.specs.declared.reader.ReadError.TheVariants.{Failed, NoMemory};

use crate::held::Held;
use crate::lines::LINE_LIMIT;
use script_io::Source;
use std::alloc::{AllocError, Global};

/// The longest script.
const SCRIPT_LIMIT: usize = 16777216;

/// So much is read at once, at most.
const CHUNK: usize = 4096;

/// What stands at the front of what is held.
#[derive(Clone, Copy, Debug, PartialEq, Eq)]
pub enum Piece {
    /// A line of this length, with a line feed behind it.
    Line { length: usize },
    /// The rest of the script. It has no line feed.
    Last,
    /// A line that is too long.
    Long,
    /// A script that goes on above its limit.
    Above,
}

/// Why no piece is found.
#[derive(Clone, Copy, Debug, PartialEq, Eq)]
pub enum ReadError {
    /// The source failed.
    Failed,
    /// No memory was left.
    NoMemory,
}

impl From<AllocError> for ReadError {
    ghost from_gives = { λ _ e. e ≡ NoMemory };

    fn from(_: AllocError) -> Self {
        ReadError::NoMemory
    }
}

impl From<script_io::Failed> for ReadError {
    ghost from_gives = { λ _ e. e ≡ Failed };

    fn from(_: script_io::Failed) -> Self {
        ReadError::Failed
    }
}

/// Where the first line feed stands.
fn find_feed(bytes: &[u8]) -> Option<usize>
    ensures { MatchOption result (has_feed bytes.now ≡ false) (λ n. EndsAt bytes.now n) }
{
    for (i, byte) in bytes.iter().enumerate() {
        if *byte == b'\n' {
            return Some(i);
        }
    }
    None
}

/// A reader of lines: what it holds, and how many bytes of the script it took.
#[derive(Drop)]
pub struct LineReader {
    /// What was taken of the script, and isn't skipped yet.
    pub held: Held,
    pub taken: usize,
    ghost within: { length held ≤ taken },
    ghost limit: { taken ≤ 16777216 },
}

impl LineReader {
    /// A reader that has taken nothing yet.
    pub fn new(alloc: Global) -> LineReader
        ensures held { result.held ≡ [] }
        ensures taken { result.taken ≡ 0 }
    {
        LineReader {
            held: Held::new(alloc),
            taken: 0,
        }
    }

    /// Reads once, and answers how many bytes came. None come only at the end.
    fn fill<I: Source>(&mut self, script: &mut I) -> Result<usize, ReadError>
        requires room { self.old.taken < 16777216 }
        ensures bytes { (left : List ℕ) → I.left script.old ≡ Some left → OnOk result ((rest : List ℕ)
            × TakesMore left self.old.held self.new.held self.old.taken self.new.taken rest × (I.left script.new ≡ Some rest)) }
        ensures at_end { (left : List ℕ) → I.left script.old ≡ Some left → IfOk result (λ n. n ≡ 0 → left ≡ []) }
        ensures count { IfOk result (λ n. self.new.taken ≡ self.old.taken + n) }
        ensures longer { IfOk result (λ n. length self.new.held ≡ length self.old.held + n) }
        ensures front { OnOk result (take (length self.old.held) self.new.held ≡ self.old.held) }
        ensures held { IfOk result (λ n. n ≡ 0 → self.new.held ≡ self.old.held) }
        ensures failed { IsErrOf result ReadError.Failed → (self.new.held ≡ self.old.held) × (self.new.taken ≡ self.old.taken) }
        ensures kept { (left : List ℕ) → I.left script.old ≡ Some left → IsErrOf result ReadError.Failed → I.left script.new ≡ Some left }
        ensures taken { (left : List ℕ) → I.left script.old ≡ Some left → IsTaken self.old.taken left (I.left script.new) }
        ensures later { I.faults script.old ≤ I.faults script.new }
        ensures cause { IsErrOf result ReadError.Failed → Rose (I.faults script.old) (I.faults script.new) }
    {
        let mut chunk = [0u8; CHUNK];
        let room = CHUNK.min(SCRIPT_LIMIT - self.taken);
        let n = script.read(&mut chunk[..room])?;
        self.held.add(&chunk[..n])?;
        self.taken += n;
        Ok(n)
    }

    /// What stands at the front of what is held, if that can be told. There is no line feed among so many bytes.
    fn find(&self, searched: usize) -> Option<Piece>
        requires within { searched ≤ length self.now.held }
        requires none { has_feed (take searched self.now.held) ≡ false }
        ensures found { IfSome result (λ piece. IsPiece (Ok piece) self.now.held 0 []) }
        ensures none { IfNone result (IsShort self.now.held) }
        ensures kinds { (result ≡ Some Piece.Last → ⊥) × (result ≡ Some Piece.Above → ⊥) }
    {
        let held = self.held.bytes();
        if let Some(more) = find_feed(&held[searched..]) {
            let length = searched + more;
            if length <= LINE_LIMIT {
                return Some(Piece::Line { length });
            }
            return Some(Piece::Long);
        }
        if held.len() > LINE_LIMIT {
            return Some(Piece::Long);
        }
        None
    }

    /// Reads until the piece at the front is found, or the script ends.
    pub fn next_piece<I: Source>(&mut self, script: &mut I) -> Result<Piece, ReadError>
        ensures finds { (left : List ℕ) → I.left script.old ≡ Some left
            → IfOk result (λ piece. Finds left self.old.held self.new.held self.old.taken self.new.taken (I.left script.new) (Ok piece)) }
        ensures failed { (left : List ℕ) → I.left script.old ≡ Some left → IsErrOf result ReadError.Failed
            → Finds left self.old.held self.new.held self.old.taken self.new.taken (I.left script.new) (Err ReadError.Failed) }
        ensures front { (left : List ℕ) → I.left script.old ≡ Some left → IsTaken self.old.taken left (I.left script.new) }
        ensures later { I.faults script.old ≤ I.faults script.new }
        ensures cause { IsErrOf result ReadError.Failed → Rose (I.faults script.old) (I.faults script.new) }
        ensures taken { OnOk result (self.old.taken ≤ self.new.taken) }
        ensures consumed { OnOk result (self.new.taken + length self.old.held ≡ self.old.taken + length self.new.held) }
        ensures line { IfOk result (λ piece. IsLineWithin piece self.new.held) }
    {
        let mut searched = 0;
        loop {
            if let Some(piece) = self.find(searched) {
                return Ok(piece);
            }
            if self.taken >= SCRIPT_LIMIT {
                return self.probe(script);
            }
            searched = self.held.bytes().len();
            let n = self.fill(script)?;
            if n == 0 {
                return Ok(Piece::Last);
            }
        }
    }

    /// Whether the script goes on above its limit.
    fn probe<I: Source>(&self, script: &mut I) -> Result<Piece, ReadError>
        ensures at_end { (left : List ℕ) → I.left script.old ≡ Some left → result ≡ Ok Piece.Last → (left ≡ []) × (I.left script.new ≡ Some left) }
        ensures above { (left : List ℕ) → I.left script.old ≡ Some left → result ≡ Ok Piece.Above → 0 < length left }
        ensures failed { (left : List ℕ) → I.left script.old ≡ Some left → IsErrOf result ReadError.Failed → I.left script.new ≡ Some left }
        ensures taken { (left : List ℕ) → I.left script.old ≡ Some left → IsTaken self.now.taken left (I.left script.new) }
        ensures kinds { (result ≡ Ok Piece.Last) ⊎ (result ≡ Ok Piece.Above) ⊎ (result ≡ Err ReadError.Failed) }
        ensures later { I.faults script.old ≤ I.faults script.new }
        ensures cause { IsErrOf result ReadError.Failed → Rose (I.faults script.old) (I.faults script.new) }
    {
        let mut byte = [0u8; 1];
        let n = script.read(&mut byte)?;
        if n == 0 {
            Ok(Piece::Last)
        } else {
            Ok(Piece::Above)
        }
    }

    /// Lets go of so many bytes at the front.
    pub fn skip(&mut self, n: usize)
        requires { n ≤ length self.old.held }
        ensures held { self.new.held ≡ drop n self.old.held }
        ensures taken { self.new.taken ≡ self.old.taken }
    {
        self.held.skip(n);
    }
}
