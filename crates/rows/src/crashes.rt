// Rows that stop the disk after each of its calls in turn, and let it crash.
use crate::fault::RowFault;
use crate::runs::{Call, Orders, run_over, script_of, words_of};
use disk_memory::{MemoryDisk, Outcome};
use std::alloc::{AllocError, Global};

/// From how many calls on nothing is tried any more.
const LIMIT: u64 = 1000;

/// A run that is stopped, how the crash ends then, and the run after it.
#[derive(Drop)]
struct Crash {
    end: Outcome,
    first: Call,
    second: Call,
}

/// What both runs show.
#[derive(PartialEq, Eq, Drop)]
struct Both {
    text: Vec<u8>,
    /// Whether no call failed, as there were no more of them.
    is_whole: bool,
}

/// How a crash ends: `old`, `new`, or a byte that each range has then that isn't settled.
fn outcome_of(text: &str) -> Result<Outcome, RowFault> {
    match text {
        "old" => Ok(Outcome::Old),
        "new" => Ok(Outcome::New),
        byte => match byte.parse() {
            Ok(byte) => Ok(Outcome::Torn(byte)),
            Err(_) => Err(RowFault::Bad),
        },
    }
}

/// A crash as a row spells it: `old run db|tick 1;|quiet;` has the end, the words of both runs, and their scripts.
fn crash_of(alloc: Global, row: &str) -> Result<Crash, RowFault> {
    let (end, rest) = row.split_once(' ').unwrap_or((row, ""));
    let (words, scripts) = rest.split_once('|').unwrap_or((rest, ""));
    let (first, second) = scripts.split_once('|').unwrap_or((scripts, ""));
    Ok(Crash {
        end: outcome_of(end)?,
        first: Call {
            words: words_of(alloc, words)?,
            script: script_of(alloc, first)?,
        },
        second: Call {
            words: words_of(alloc, words)?,
            script: script_of(alloc, second)?,
        },
    })
}

/// Appends lines, each ended by `;` in place of its line feed.
fn put_lines(out: &mut Vec<u8>, text: &[u8]) -> Result<(), AllocError> {
    for byte in text {
        out.push(if *byte == b'\n' { b';' } else { *byte })?;
    }
    Ok(())
}

/// What both runs show where the disk stops after so many calls.
fn both_after(alloc: Global, crash: &Crash, calls: u64) -> Result<Both, RowFault> {
    let mut disk = MemoryDisk::new(alloc);
    disk.stop_after(calls);
    let (first, disk) = run_over(alloc, &crash.first, Orders::none(), disk);
    let is_whole = disk.calls() <= calls;
    let mut disk = disk;
    disk.crash(crash.end)?;
    let (second, _) = run_over(alloc, &crash.second, Orders::none(), disk);
    let mut text = Vec::new(alloc);
    put_lines(&mut text, &first?)?;
    text.extend_from_slice(b" then ")?;
    put_lines(&mut text, &second?)?;
    Ok(Both { text, is_whole })
}

/// Appends what is shown from a number of calls on.
fn put_both(alloc: Global, out: &mut Vec<u8>, calls: u64, both: &Both) -> Result<(), AllocError> {
    let front = if both.is_whole {
        format!(in alloc; "in full: ")?
    } else {
        format!(in alloc; "from {calls}: ")?
    };
    out.extend_from_slice(front.as_bytes())?;
    out.extend_from_slice(&both.text)?;
    Ok(out.push(b'\n')?)
}

/// What is shown where the disk stops after no call, after one, and so on: from which number of calls on it is another.
pub fn told(alloc: Global, row: &str) -> Result<Vec<u8>, RowFault> {
    let crash = crash_of(alloc, row)?;
    let mut last = both_after(alloc, &crash, 0)?;
    let mut out = Vec::new(alloc);
    put_both(alloc, &mut out, 0, &last)?;
    for calls in 1..LIMIT {
        if last.is_whole {
            break;
        }
        let both = both_after(alloc, &crash, calls)?;
        if both != last {
            put_both(alloc, &mut out, calls, &both)?;
            last = both;
        }
    }
    Ok(out)
}
