// Any reader of std as a source, and any writer as a sink. What the system gives and takes no
// contract can say: with the memory forms tested beside them, these two are the trusted edge.
ghost use Rattle.std.specs.Prelude.{◌≡◌, ◌<◌, ◌≤◌, ℕ, List, Some, length, take, IfOk, OnOk, OnErr, false, true};
ghost use Rattle.std.specs.Io.KnownBytes.{Appends, Consumes, IsAtEnd, Keeps};
ghost use Rattle.script_io.specs.Streams.{HasCause, Rose};

use crate::sink::Sink;
use crate::source::{Failed, Source};
use std::io::{self, ErrorKind, Read, Write};

/// A reader as a source. It tells what the reader's type tells, which for files, terminals and
/// pipes is nothing. Each error counts as a fault, but a read that a signal interrupts is done again.
/// The count stands still at 2^64 - 1: an error after so many is answered `Failed` and not counted.
#[derive(Drop)]
pub struct ReadSource<R> {
    reader: R,
    faults: u64,
    error: Option<io::Error>,
}

/// One read, done again where a signal interrupts it.
fn read_again<R: Read>(reader: &mut R, buffer: &mut [u8]) -> io::Result<usize>
    ensures bound { IfOk result (λ n. n ≤ length buffer.old) }
    ensures ok { IfOk result (λ n. Consumes (R.remaining reader.old) (R.remaining reader.new) (take n buffer.new)) }
    ensures end { IfOk result (λ n. n ≡ 0 → 0 < length buffer.old → IsAtEnd (R.remaining reader.new)) }
    ensures err { OnErr result (Keeps (R.remaining reader.old) (R.remaining reader.new)) }
{
    for _ in 0..u64::MAX {
        match reader.read(buffer) {
            Ok(n) => return Ok(n),
            Err(error) => {
                if error.kind() != ErrorKind::Interrupted {
                    return Err(error);
                }
            }
        }
    }
    Err(io::Error::from(ErrorKind::Interrupted))
}

/// One write, done again where a signal interrupts it.
fn write_again<W: Write>(writer: &mut W, bytes: &[u8]) -> io::Result<usize>
    ensures bound { IfOk result (λ n. n ≤ length bytes.now) }
    ensures ok { IfOk result (λ n. Appends (W.contents writer.old) (W.contents writer.new) (take n bytes.now)) }
    ensures err { OnErr result (Keeps (W.contents writer.old) (W.contents writer.new)) }
{
    for _ in 0..u64::MAX {
        match writer.write(bytes) {
            Ok(n) => return Ok(n),
            Err(error) => {
                if error.kind() != ErrorKind::Interrupted {
                    return Err(error);
                }
            }
        }
    }
    Err(io::Error::from(ErrorKind::Interrupted))
}

impl<R: Read> ReadSource<R> {
    /// A source of what this reader gives.
    pub fn new(reader: R) -> ReadSource<R>
        ensures left { ⟦<ReadSource<R> as Source>⟧.left result ≡ R.remaining reader }
        ensures faults { ⟦<ReadSource<R> as Source>⟧.faults result ≡ 0 }
    {
        ReadSource {
            reader,
            faults: 0,
            error: None,
        }
    }

    /// Why the last read that failed did.
    pub fn error(&self) -> Option<io::Error> {
        self.error
    }
}

impl<R: Read> Source for ReadSource<R> {
    ghost left = { λ s. R.remaining s.reader };

    ghost faults = { λ s. s.faults };

    fn read(&mut self, buffer: &mut [u8]) -> Result<usize, Failed> {
        match read_again(&mut self.reader, buffer) {
            Ok(n) => Ok(n),
            Err(error) => {
                self.faults = self.faults.saturating_add(1);
                self.error = Some(error);
                Err(Failed)
            }
        }
    }
}

/// A writer as a sink. It tells what the writer's type tells, which for files, terminals and pipes
/// is nothing. Each error counts as a fault, but a write that a signal interrupts is done again, and
/// so does a writer that takes nothing. The count stands still at 2^64 - 1: an error after so many is
/// answered `Failed` and not counted.
///
/// After each write the writer is flushed, so that what was taken has left the program. Bytes that
/// the writer took aren't taken back where this flush fails: it counts as a fault at once, the write
/// still answers how many bytes were taken, and the next call flushes again before it writes, and
/// answers `Failed` where that fails too. Who has written the last byte to a writer that buffers
/// learns by `flush` whether it has left. The flush of a writer that doesn't buffer never fails.
#[derive(Drop)]
pub struct WriteSink<W> {
    writer: W,
    is_held: bool,
    faults: u64,
    error: Option<io::Error>,
}

impl<W: Write> WriteSink<W> {
    /// A sink that writes to this writer.
    pub fn new(writer: W) -> WriteSink<W>
        ensures written { ⟦<WriteSink<W> as Sink>⟧.written result ≡ W.contents writer }
        ensures faults { ⟦<WriteSink<W> as Sink>⟧.faults result ≡ 0 }
    {
        WriteSink {
            writer,
            is_held: false,
            faults: 0,
            error: None,
        }
    }

    /// Why the last write or flush that failed did.
    pub fn error(&self) -> Option<io::Error> {
        self.error
    }

    /// Flushes the writer where its last flush failed. Nothing more is written by it. After `Ok`
    /// nothing that was taken is held back; after `Failed` the next call flushes again.
    pub fn flush(&mut self) -> Result<(), Failed>
        ensures sent { OnOk result (self.new.is_held ≡ false) }
        ensures held { OnErr result (self.new.is_held ≡ true) }
        ensures kept { (before : List ℕ) → ⟦<WriteSink<W> as Sink>⟧.written self.old ≡ Some before → ⟦<WriteSink<W> as Sink>⟧.written self.new ≡ Some before }
        ensures cause { HasCause (⟦<WriteSink<W> as Sink>⟧.faults self.old) (⟦<WriteSink<W> as Sink>⟧.faults self.new) result }
    {
        if !self.is_held {
            return Ok(());
        }
        self.send()
    }

    /// Counts a fault, and keeps why.
    fn fail(&mut self, error: io::Error) -> Failed
        ensures counted { Rose self.old.faults self.new.faults }
        ensures later { self.old.faults ≤ self.new.faults }
        ensures kept { (self.new.writer ≡ self.old.writer) × (self.new.is_held ≡ self.old.is_held) }
    {
        self.faults = self.faults.saturating_add(1);
        self.error = Some(error);
        Failed
    }

    /// Flushes the writer.
    fn send(&mut self) -> Result<(), Failed>
        ensures sent { OnOk result (self.new.is_held ≡ false) }
        ensures held { OnErr result (self.new.is_held ≡ true) }
        ensures kept { Keeps (W.contents self.old.writer) (W.contents self.new.writer) }
        ensures cause { HasCause self.old.faults self.new.faults result }
    {
        match self.writer.flush() {
            Ok(()) => {
                self.is_held = false;
                Ok(())
            }
            Err(error) => {
                self.is_held = true;
                Err(self.fail(error))
            }
        }
    }
}

impl<W: Write> Sink for WriteSink<W> {
    ghost written = { λ s. W.contents s.writer };

    ghost faults = { λ s. s.faults };

    fn write(&mut self, bytes: &[u8]) -> Result<usize, Failed> {
        self.flush()?;
        match write_again(&mut self.writer, bytes) {
            Ok(n) if n > 0 => {
                let _ = self.send();
                Ok(n)
            }
            Ok(_) => Err(self.fail(io::Error::from(ErrorKind::WriteZero))),
            Err(error) => Err(self.fail(error)),
        }
    }
}
