// Rows that run the program over disks in memory.
use crate::fault::RowFault;
use crate::files::{file_of, files_of};
use crate::names::Names;
use crate::texts::unescaped;
use copycat_tool::run;
use disk_memory::{MemoryDisk, SureDisk};
use disk_model::Disk;
use script_io::{MemorySink, MemorySource, Source};
use std::alloc::{AllocError, Global};
use std::mem;

/// What is told of a run besides its words and its script.
#[derive(Clone, Copy)]
pub struct Orders {
    /// Which call of its source fails, if it isn't 0.
    source: u64,
    /// Which call of its sink fails, if it isn't 0.
    sink: u64,
    /// How many lines are shown of what it prints, if it isn't 0.
    last: usize,
}

impl Orders {
    /// Nothing is told.
    pub fn none() -> Orders {
        Orders {
            source: 0,
            sink: 0,
            last: 0,
        }
    }
}

/// The words and the script of a run.
#[derive(Drop)]
pub struct Call {
    pub words: Vec<Vec<u8>>,
    pub script: Vec<u8>,
}

/// The words of a run, of which `''` is the empty one.
pub fn words_of(alloc: Global, text: &str) -> Result<Vec<Vec<u8>>, AllocError> {
    let mut words = Vec::new(alloc);
    for word in text.split_ascii_whitespace() {
        let word = if word == "''" { "" } else { word };
        words.push(word.as_bytes().to_vec(alloc)?)?;
    }
    Ok(words)
}

/// The script of a run, in which `;` ends a line.
pub fn script_of(alloc: Global, text: &str) -> Result<Vec<u8>, AllocError> {
    let mut script = Vec::new(alloc);
    for (number, line) in text.split(';').enumerate() {
        if number > 0 {
            script.push(b'\n')?;
        }
        script.extend_from_slice(&unescaped(alloc, line)?)?;
    }
    Ok(script)
}

/// A run as a row spells it, behind the word `copycat`.
pub fn call_of(alloc: Global, text: &str) -> Result<Call, AllocError> {
    let (words, script) = text.split_once('|').unwrap_or((text, ""));
    Ok(Call {
        words: words_of(alloc, words)?,
        script: script_of(alloc, script)?,
    })
}

fn one(alloc: Global, number: u64) -> Result<Vec<u64>, AllocError> {
    let mut numbers = Vec::new(alloc);
    numbers.push(number)?;
    Ok(numbers)
}

/// How many bytes are left in a source.
fn left(source: &mut MemorySource) -> usize {
    let mut count = 0usize;
    let mut buffer = [0; 4096];
    for _ in 0..u32::MAX {
        match source.read(&mut buffer) {
            Ok(0) | Err(_) => break,
            Ok(more) => count = count.saturating_add(more),
        }
    }
    count
}

/// The last lines of a text, and how many stand before them.
fn last_lines(alloc: Global, text: &[u8], count: usize) -> Result<Vec<u8>, AllocError> {
    let mut before = 0usize;
    for byte in text {
        before = before.saturating_add(usize::from(*byte == b'\n'));
    }
    before = before.saturating_sub(count);
    let mut out = format!(in alloc; "after {before} lines:\n")?.into_bytes();
    for byte in text {
        if before == 0 {
            out.push(*byte)?;
        } else {
            before = before.saturating_sub(usize::from(*byte == b'\n'));
        }
    }
    Ok(out)
}

/// What is shown of a run.
fn shown(
    alloc: Global,
    text: &[u8],
    last: usize,
    status: u8,
    is_untouched: bool,
) -> Result<Vec<u8>, AllocError> {
    let mut out = if last == 0 {
        text.to_vec(alloc)?
    } else {
        last_lines(alloc, text, last)?
    };
    let end = if is_untouched {
        format!(in alloc; "status {status}, and nothing was read\n")?
    } else {
        format!(in alloc; "status {status}\n")?
    };
    out.extend_from_slice(end.as_bytes())?;
    Ok(out)
}

/// Runs the program, and answers what is shown of it, and the disk that it leaves.
pub fn run_over<D: Disk>(
    alloc: Global,
    call: &Call,
    orders: Orders,
    disk: D,
) -> (Result<Vec<u8>, AllocError>, D) {
    let (Ok(script), Ok(reads), Ok(writes)) = (
        call.script.to_vec(alloc),
        one(alloc, orders.source),
        one(alloc, orders.sink),
    ) else {
        return (Err(AllocError), disk);
    };
    let mut source = MemorySource::new(script, reads);
    let mut out = MemorySink::new(alloc, writes);
    let (status, disk) = run(alloc, &call.words, &mut source, disk, &mut out);
    let is_untouched = !call.script.is_empty() && left(&mut source) == call.script.len();
    let text = shown(alloc, out.bytes(), orders.last, status.0, is_untouched);
    (text, disk)
}

/// What both disks show, which is the same.
fn agreed(first: Vec<u8>, second: Vec<u8>) -> Result<Vec<u8>, AllocError> {
    let mut text = first;
    if text != second {
        text.extend_from_slice(b"but over the disk that never fails:\n")?;
        text.extend_from_slice(&second)?;
    }
    Ok(text)
}

fn number_of(text: &str) -> Result<u64, RowFault> {
    text.parse().map_err(|_| RowFault::Bad)
}

/// The disk that rows run over, and beside it one that never fails, as long as no call of the former fails.
#[derive(Drop)]
pub struct Disks {
    memory: MemoryDisk,
    sure: SureDisk,
    are_alike: bool,
}

impl Disks {
    /// Disks with no file.
    pub fn new(alloc: Global) -> Disks {
        Disks {
            memory: MemoryDisk::new(alloc),
            sure: SureDisk::new(alloc),
            are_alike: true,
        }
    }

    /// Places a file, as `db-1-1.log 01 descriptor 00`. Nothing is printed.
    pub fn place(&mut self, alloc: Global, names: &Names, row: &str) -> Result<Vec<u8>, RowFault> {
        let (file, words) = row.split_once(' ').unwrap_or((row, ""));
        let Some((name, id)) = file_of(file) else {
            return Err(RowFault::Bad);
        };
        let bytes = names.bytes(alloc, words)?;
        self.memory.place(&name, id, &bytes)?;
        self.sure.place(&name, id, &bytes)?;
        Ok(Vec::new(alloc))
    }

    /// Shows the files of a log.
    pub fn files(&mut self, alloc: Global, log: &str) -> Result<Vec<u8>, RowFault> {
        let text = files_of(alloc, &mut self.memory, log)?;
        if !self.are_alike {
            return Ok(text);
        }
        Ok(agreed(text, files_of(alloc, &mut self.sure, log)?)?)
    }

    /// Shows how many calls the disk has had.
    pub fn calls(&self, alloc: Global) -> Result<Vec<u8>, RowFault> {
        let calls = self.memory.calls();
        Ok(format!(in alloc; "{calls} calls\n")?.into_bytes())
    }

    /// Does what a word before a run says.
    fn set(&mut self, alloc: Global, orders: &mut Orders, word: &str) -> Result<(), RowFault> {
        let (what, value) = word.split_once('=').unwrap_or((word, ""));
        match what {
            "new" => *self = Disks::new(alloc),
            "fail" => {
                self.memory.fail(number_of(value)?)?;
                self.are_alike = false;
            }
            "source" => orders.source = number_of(value)?,
            "sink" => orders.sink = number_of(value)?,
            "last" => orders.last = number_of(value)? as usize,
            _ => return Err(RowFault::Bad),
        }
        Ok(())
    }

    fn run(&mut self, alloc: Global, call: &Call, orders: Orders) -> Result<Vec<u8>, AllocError> {
        let disk = mem::replace(&mut self.memory, MemoryDisk::new(alloc));
        let (text, disk) = run_over(alloc, call, orders, disk);
        self.memory = disk;
        if !self.are_alike {
            return text;
        }
        let disk = mem::replace(&mut self.sure, SureDisk::new(alloc));
        let (second, disk) = run_over(alloc, call, orders, disk);
        self.sure = disk;
        agreed(text?, second?)
    }

    /// What a row prints that is a run, as `new fail=3 copycat run db|tick 1;tick 2`. Without a run it prints nothing.
    pub fn told(&mut self, alloc: Global, row: &str) -> Result<Vec<u8>, RowFault> {
        let (front, call) = match row.split_once("copycat") {
            Some((front, call)) => (front, Some(call)),
            None => (row, None),
        };
        let mut orders = Orders::none();
        for word in front.split_ascii_whitespace() {
            self.set(alloc, &mut orders, word)?;
        }
        match call {
            Some(call) => Ok(self.run(alloc, &call_of(alloc, call)?, orders)?),
            None => Ok(Vec::new(alloc)),
        }
    }
}
