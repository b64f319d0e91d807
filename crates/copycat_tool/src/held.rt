// Bytes that are added at the back and let go of at the front.
ghost use Rattle.std.specs.Prelude.{◌≡◌, ◌++◌, ◌≤◌, [], length, drop, OnOk, OnErr};

use std::alloc::{AllocError, Global};
use std::marker::Model;

/// Bytes in a row. Contracts see the list of those that are held. Letting go of some moves none; adding some
/// moves what is held at most once between two times of letting go.
#[derive(Drop)]
pub struct Held {
    buffer: Vec<u8>,
    /// What is held stands from here on.
    start: usize,
}

impl Model for Held {
    ghost use Rattle.std.specs.Prelude.{ℕ, List, ◌≤◌, length, drop};

    ghost Value = { List ℕ };

    ghost view = { λ h. drop h.start h.buffer.items };

    ghost invariant = { λ h. h.start ≤ length h.buffer.items };
}

impl Held {
    /// No bytes.
    pub fn new(alloc: Global) -> Held
        ensures { result ≡ [] }
    {
        Held {
            buffer: Vec::new(alloc),
            start: 0,
        }
    }

    /// What is held.
    pub fn bytes(&self) -> &[u8]
        ensures { result.now ≡ self.now }
    {
        &self.buffer[self.start..]
    }

    /// Lets go of so many bytes at the front.
    pub fn skip(&mut self, n: usize)
        requires { n ≤ length self.old }
        ensures { self.new ≡ drop n self.old }
    {
        self.start += n;
    }

    /// Moves what is held to the front of the buffer.
    fn compact(&mut self)
        ensures { self.new ≡ self.old }
    {
        if self.start > 0 {
            self.buffer.drain(..self.start);
            self.start = 0;
        }
    }

    /// Adds these bytes at the back.
    pub fn add(&mut self, more: &[u8]) -> Result<(), AllocError>
        ensures ok { OnOk result (self.new ≡ self.old ++ more.now) }
        ensures err { OnErr result (self.new ≡ self.old) }
    {
        self.compact();
        self.buffer.extend_from_slice(more)
    }
}
