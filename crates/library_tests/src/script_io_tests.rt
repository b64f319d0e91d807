// Each source and sink at work, through its trait.
use crate::checks::same;
use script_io::{
    Failed, MemorySink, MemorySource, ReadSource, Sink, Source, SureSink, SureSource, WriteSink,
    put_all,
};
use std::alloc::Global;
use std::io::{self, ErrorKind, Write};
use std::process::Abort;

/// Asserts what four reads of two bytes each answer.
fn reads<S: Source + Drop>(rt: &impl Abort, source: S, wanted: [Result<usize, Failed>; 4]) {
    let mut source = source;
    let mut buffer = [0u8; 2];
    let first = source.read(&mut buffer);
    let second = source.read(&mut buffer);
    let third = source.read(&mut buffer);
    let fourth = source.read(&mut buffer);
    same(rt, [first, second, third, fourth], wanted);
    drop(source);
}

fn letters(rt: &impl Abort, alloc: Global) -> Vec<u8> {
    b"abc".to_vec(alloc).expect(rt, "memory")
}

/// The number of the call that fails.
fn second(rt: &impl Abort, alloc: Global) -> Vec<u64> {
    [2].to_vec(alloc).expect(rt, "memory")
}

#[test]
fn sources_give_each_byte_once(rt: HostRuntime) {
    let a = rt.alloc();
    let memory = MemorySource::new(letters(&rt, a), second(&rt, a));
    reads(&rt, memory, [Ok(2), Err(Failed), Ok(1), Ok(0)]);
    let sure = SureSource::new(letters(&rt, a));
    reads(&rt, sure, [Ok(2), Ok(1), Ok(0), Ok(0)]);
    let reader = ReadSource::new(b"abc".as_slice());
    reads(&rt, reader, [Ok(2), Ok(1), Ok(0), Ok(0)]);
}

/// Asserts what it is answered to three bytes, and what was written in all then.
fn puts(rt: &impl Abort, sink: &mut MemorySink, answer: Result<(), Failed>, written: &[u8]) {
    same(rt, put_all(sink, b"abc"), answer);
    same(rt, sink.bytes(), written);
}

#[test]
fn sinks_take_all_or_a_front(rt: HostRuntime) {
    let mut sink = MemorySink::new(rt.alloc(), second(&rt, rt.alloc()));
    puts(&rt, &mut sink, Ok(()), b"abc");
    puts(&rt, &mut sink, Err(Failed), b"abc");
    puts(&rt, &mut sink, Ok(()), b"abcabc");
    drop(sink);
    same(&rt, put_all(&mut SureSink::new(), b"abc"), Ok(()));
}

/// A writer that takes a byte at a time. One of its writes and some of its flushes go wrong.
#[derive(Drop)]
struct Crumbs {
    bytes: [u8; 8],
    len: usize,
    writes: u8,
    bad_write: u8,
    error: ErrorKind,
    flushes: u8,
    bad_flushes: [u8; 2],
}

fn new_writer(bad_write: u8, error: ErrorKind, bad_flushes: [u8; 2]) -> Crumbs {
    Crumbs {
        bytes: [0; 8],
        len: 0,
        writes: 0,
        bad_write,
        error,
        flushes: 0,
        bad_flushes,
    }
}

impl Write for Crumbs {
    fn write(&mut self, buf: &[u8]) -> io::Result<usize> {
        self.writes = self.writes.saturating_add(1);
        if self.writes == self.bad_write {
            if self.error == ErrorKind::WriteZero {
                return Ok(0);
            }
            return Err(io::Error::from(self.error));
        }
        if buf.is_empty() || self.len >= self.bytes.len() {
            return Ok(0);
        }
        self.bytes[self.len] = buf[0];
        self.len += 1;
        Ok(1)
    }

    fn flush(&mut self) -> io::Result<()> {
        self.flushes = self.flushes.saturating_add(1);
        if self.bad_flushes.contains(&self.flushes) {
            return Err(io::Error::from(ErrorKind::BrokenPipe));
        }
        Ok(())
    }
}

/// The write that goes wrong and how, the flushes that do; what three bytes are answered, and what was written.
type Failing = (u8, ErrorKind, [u8; 2], Result<(), Failed>, &'static str);

const FAILING: &[Failing] = &[
    (0, ErrorKind::Other, [0, 0], Ok(()), "abc"),
    (1, ErrorKind::Other, [0, 0], Err(Failed), ""),
    (2, ErrorKind::Other, [0, 0], Err(Failed), "a"),
    (3, ErrorKind::Other, [0, 0], Err(Failed), "ab"),
    // One that takes nothing has failed, and one that is interrupted hasn't.
    (2, ErrorKind::WriteZero, [0, 0], Err(Failed), "a"),
    (2, ErrorKind::Interrupted, [0, 0], Ok(()), "abc"),
    // A flush is tried once more before the next write.
    (0, ErrorKind::Other, [1, 0], Ok(()), "abc"),
    (0, ErrorKind::Other, [1, 2], Err(Failed), "a"),
];

fn is_written(rt: &impl Abort, row: &Failing) {
    let (bad_write, error, bad_flushes, answer, written) = *row;
    let mut writer = new_writer(bad_write, error, bad_flushes);
    same(
        rt,
        put_all(&mut WriteSink::new(&mut writer), b"abc"),
        answer,
    );
    same(rt, writer.len, written.len());
    same(rt, writer.bytes.starts_with(written.as_bytes()), true);
    drop(writer);
}

#[test]
fn a_writer_fails_at_each_call(rt: HostRuntime) {
    for row in FAILING {
        is_written(&rt, row);
    }
}

/// The flushes that go wrong, and what the last one answers.
const FLUSHES: &[([u8; 2], Result<(), Failed>)] = &[
    ([1, 0], Ok(())),
    ([1, 2], Err(Failed)),
    ([2, 0], Ok(())),
];

fn is_flushed(rt: &impl Abort, bad_flushes: [u8; 2], answer: Result<(), Failed>) {
    let mut sink = WriteSink::new(new_writer(0, ErrorKind::Other, bad_flushes));
    same(rt, sink.write(b"a"), Ok(1));
    same(rt, sink.flush(), answer);
    drop(sink);
}

#[test]
fn the_last_flush_can_be_learned(rt: HostRuntime) {
    for (bad_flushes, answer) in FLUSHES {
        is_flushed(&rt, *bad_flushes, *answer);
    }
}
