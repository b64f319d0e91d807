//! Cases as rows: each line of the input is one, and what it comes to is printed. `docs/proving.md` tells the forms of a row.
#![tactic(auto)]

mod crashes;
mod entries;
mod fault;
mod files;
mod lines;
mod names;
mod runs;
mod texts;

use crate::fault::RowFault;
use crate::names::Names;
use crate::runs::Disks;
use std::alloc::{AllocError, Global};
use std::io::{self, BufRead, BufReader, Write};

/// What a row prints.
fn told(
    alloc: Global,
    names: &mut Names,
    disks: &mut Disks,
    row: &str,
) -> Result<Vec<u8>, RowFault> {
    let (kind, rest) = row.split_once(' ').unwrap_or((row, ""));
    match kind {
        "let" => names.define(alloc, rest),
        "entry" => entries::told(alloc, &names.bytes(alloc, rest)?),
        "line" => lines::told(alloc, rest),
        "file" => disks.place(alloc, names, rest),
        "files" => disks.files(alloc, rest),
        "crashes" => crashes::told(alloc, rest),
        "calls" => disks.calls(alloc),
        _ => disks.told(alloc, row),
    }
}

/// What a line of the input prints: itself, where it is empty or a heading.
fn answer(
    alloc: Global,
    names: &mut Names,
    disks: &mut Disks,
    line: &str,
) -> Result<Vec<u8>, AllocError> {
    if line.is_empty() || line.starts_with('#') {
        let mut text = line.as_bytes().to_vec(alloc)?;
        text.push(b'\n')?;
        return Ok(text);
    }
    let row = texts::written_out(alloc, line)?;
    match told(alloc, names, disks, row.as_str()) {
        Ok(text) => Ok(text),
        Err(RowFault::Bad) => Ok(b"no row\n".to_vec(alloc)?),
        Err(RowFault::Disk) => Ok(b"disk fault\n".to_vec(alloc)?),
        Err(RowFault::NoMemory) => Err(AllocError),
    }
}

fn main(rt: HostRuntime) -> io::Result<()> {
    let mut names = Names::new(rt.alloc());
    let mut disks = Disks::new(rt.alloc());
    for line in BufReader::new(rt.alloc(), rt.reader())?.lines(rt.alloc()) {
        let text = answer(rt.alloc(), &mut names, &mut disks, line?.as_str())?;
        rt.stdout().write_all(&text)?;
    }
    Ok(())
}
