// A source and a sink in memory, which fail at calls of given numbers.
ghost use Rattle.std.specs.Prelude.{◌≡◌, ◌<◌, ◌≤◌, ◌↔◌, ◌++◌, ℕ, List, [], Some, length, take, IfOk, IsErr, OnErr};
ghost use Rattle.script_io.specs.Streams.{HasCause, Takes};
ghost use Rattle.script_io.specs.Memory.{Counts, IsDue};

use crate::sink::Sink;
use crate::source::{Failed, Source};
use std::alloc::Global;
use std::marker::Model;

/// A source of the bytes that it holds.
///
/// It fails exactly at the calls whose numbers it was given, counted from 1, and counts each of these
/// faults. A call after 2^64 - 1 others has no number, and doesn't fail. Contracts see the bytes that
/// are left, the numbers, and how many calls and faults there were.
#[derive(Drop)]
pub struct MemorySource {
    bytes: Vec<u8>,
    at: usize,
    fails: Vec<u64>,
    calls: u64,
    faults: u64,
}

impl Model for MemorySource {
    ghost use Rattle.std.specs.Prelude.{◌≤◌, drop};
    ghost use Rattle.script_io.specs.Memory.{Stream};

    ghost Value = { Stream };

    ghost view = { λ s. record { bytes = drop s.at s.bytes.items; fails = s.fails.items; calls = s.calls; faults = s.faults } };

    ghost invariant = { λ s. s.faults ≤ s.calls };
}

impl MemorySource {
    /// A source of these bytes whose calls of these numbers fail.
    pub fn new(bytes: Vec<u8>, fails: Vec<u64>) -> MemorySource
        ensures { result ≡ record { bytes = bytes.items; fails = fails.items; calls = 0; faults = 0 } }
    {
        MemorySource {
            bytes,
            at: 0,
            fails,
            calls: 0,
            faults: 0,
        }
    }
}

impl Source for MemorySource {
    ghost left = { λ s. Some s.bytes };

    ghost faults = { λ s. s.faults };

    fn read(&mut self, buffer: &mut [u8]) -> Result<usize, Failed>
        ensures within { IfOk result (λ n. n ≤ length buffer.old) }
        ensures taken { (bytes : List ℕ) → Some self.old.bytes ≡ Some bytes → IfOk result (λ n. Takes bytes (Some self.new.bytes) buffer.new n) }
        ensures kept { (bytes : List ℕ) → Some self.old.bytes ≡ Some bytes → OnErr result (Some self.new.bytes ≡ Some bytes) }
        ensures cause { HasCause self.old.faults self.new.faults result }
        ensures due { IsErr result ↔ IsDue self.old }
        ensures counted { Counts self.old self.new result }
        ensures strict { OnErr result (self.old.faults < self.new.faults) }
    {
        if self.calls < u64::MAX {
            self.calls += 1;
            if self.fails.contains(&self.calls) {
                self.faults += 1;
                return Err(Failed);
            }
        }
        if self.at >= self.bytes.len() {
            return Ok(0);
        }
        let n = buffer.len().min(self.bytes.len() - self.at);
        buffer[..n].copy_from_slice(&self.bytes[self.at..self.at + n]);
        self.at += n;
        Ok(n)
    }
}

/// A sink that keeps what it takes.
///
/// It fails at the calls whose numbers it was given, counted from 1, and where it finds no memory,
/// and counts each of these faults. A call after 2^64 - 1 others has no number, and fails for want of
/// memory alone; whether that is counted isn't said. Contracts see the bytes that were written, the
/// numbers, and how many calls and faults there were.
#[derive(Drop)]
pub struct MemorySink {
    bytes: Vec<u8>,
    fails: Vec<u64>,
    calls: u64,
    faults: u64,
}

impl Model for MemorySink {
    ghost use Rattle.std.specs.Prelude.{◌≤◌};
    ghost use Rattle.script_io.specs.Memory.{Stream};

    ghost Value = { Stream };

    ghost view = { λ s. record { bytes = s.bytes.items; fails = s.fails.items; calls = s.calls; faults = s.faults } };

    ghost invariant = { λ s. s.faults ≤ s.calls };
}

impl MemorySink {
    /// An empty sink whose calls of these numbers fail. It takes no memory before the first write.
    pub fn new(alloc: Global, fails: Vec<u64>) -> MemorySink
        ensures { result ≡ record { bytes = []; fails = fails.items; calls = 0; faults = 0 } }
    {
        MemorySink {
            bytes: Vec::new(alloc),
            fails,
            calls: 0,
            faults: 0,
        }
    }

    /// The bytes that were written.
    pub fn bytes(&self) -> &[u8]
        ensures { result.now ≡ self.now.bytes }
    {
        &self.bytes
    }
}

impl Sink for MemorySink {
    ghost written = { λ s. Some s.bytes };

    ghost faults = { λ s. s.faults };

    fn write(&mut self, bytes: &[u8]) -> Result<usize, Failed>
        requires { 0 < length bytes.now }
        ensures within { IfOk result (λ n. n ≤ length bytes.now) }
        ensures some { IfOk result (λ n. 0 < n) }
        ensures taken { (before : List ℕ) → Some self.old.bytes ≡ Some before → IfOk result (λ n. Some self.new.bytes ≡ Some (before ++ take n bytes.now)) }
        ensures kept { (before : List ℕ) → Some self.old.bytes ≡ Some before → OnErr result (Some self.new.bytes ≡ Some before) }
        ensures cause { HasCause self.old.faults self.new.faults result }
        ensures due { IsDue self.old → IsErr result }
        ensures counted { Counts self.old self.new result }
    {
        let mut due = false;
        if self.calls < u64::MAX {
            self.calls += 1;
            due = self.fails.contains(&self.calls);
        }
        if !due && self.bytes.extend_from_slice(bytes).is_ok() {
            return Ok(bytes.len());
        }
        self.faults = self.faults.saturating_add(1);
        Err(Failed)
    }
}
