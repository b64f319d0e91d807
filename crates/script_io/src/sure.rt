// A source and a sink that never fail: their count of faults is the constant 0, which never rises.
ghost use Rattle.std.specs.Prelude.{◌≡◌, ◌<◌, ◌≤◌, ◌++◌, ℕ, List, Some, None, Ok, length, take, IfOk, IsOk, OnErr};
ghost use Rattle.script_io.specs.Streams.{HasCause, Takes};

use crate::sink::Sink;
use crate::source::{Failed, Source};
use std::marker::Model;

/// A source of the bytes that it holds, which never fails. Contracts see it as the bytes that are left.
#[derive(Drop)]
pub struct SureSource {
    bytes: Vec<u8>,
    at: usize,
}

impl Model for SureSource {
    ghost use Rattle.std.specs.Prelude.{ℕ, List, drop};

    ghost Value = { List ℕ };

    ghost view = { λ s. drop s.at s.bytes.items };
}

impl SureSource {
    /// A source of these bytes.
    pub fn new(bytes: Vec<u8>) -> SureSource
        ensures { result ≡ bytes.items }
    {
        SureSource { bytes, at: 0 }
    }
}

impl Source for SureSource {
    ghost left = { λ s. Some s };

    ghost faults = { λ _. 0 };

    fn read(&mut self, buffer: &mut [u8]) -> Result<usize, Failed>
        ensures within { IfOk result (λ n. n ≤ length buffer.old) }
        ensures taken { (bytes : List ℕ) → Some self.old ≡ Some bytes → IfOk result (λ n. Takes bytes (Some self.new) buffer.new n) }
        ensures kept { (bytes : List ℕ) → Some self.old ≡ Some bytes → OnErr result (Some self.new ≡ Some bytes) }
        ensures cause { HasCause 0 0 result }
        ensures sure { IsOk result }
    {
        if self.at >= self.bytes.len() {
            return Ok(0);
        }
        let n = buffer.len().min(self.bytes.len() - self.at);
        buffer[..n].copy_from_slice(&self.bytes[self.at..self.at + n]);
        self.at += n;
        Ok(n)
    }
}

/// A sink that takes every byte and keeps none. It takes no memory, never fails, and doesn't tell
/// what was written.
#[derive(Clone, Copy, Debug)]
pub struct SureSink;

impl SureSink {
    /// A sink.
    pub fn new() -> SureSink {
        SureSink
    }
}

impl Sink for SureSink {
    ghost written = { λ _. None };

    ghost faults = { λ _. 0 };

    fn write(&mut self, bytes: &[u8]) -> Result<usize, Failed>
        requires { 0 < length bytes.now }
        ensures within { IfOk result (λ n. n ≤ length bytes.now) }
        ensures some { IfOk result (λ n. 0 < n) }
        ensures cause { HasCause 0 0 result }
        ensures all { result ≡ Ok (length bytes.now) }
    {
        Ok(bytes.len())
    }
}
