//! `copycat`: a log in the current folder, run by a script from standard input (`docs/script.md`).
#![tactic(auto)]

use copycat_tool::{Status, run};
use disk_files::FileDisk;
use script_io::{ReadSource, Sink, WriteSink, put_all};
use std::alloc::{AllocError, Global};
use std::env::{self, Env};
use std::fmt::Display;
use std::io;
use std::process::ExitCode;

/// The words behind the program's name. Where one isn't UTF-8 there are none, since no command has such a word.
fn words(rt: &(impl Env + AllocGlobal)) -> io::Result<Vec<Vec<u8>>> {
    let mut words = Vec::new(rt.alloc());
    let args = match env::args(rt) {
        Ok(args) => args,
        Err(error) if error.kind() == io::ErrorKind::InvalidData => return Ok(words),
        Err(error) => return Err(error),
    };
    for arg in args.skip(1) {
        words.push(arg.into_bytes())?;
    }
    Ok(words)
}

/// What failed and why, without the number that stands behind the system's words.
fn reason(alloc: Global, what: &str, why: &impl Display) -> Result<String, AllocError> {
    let mut text = format!(in alloc; "copycat: {what}{why}")?;
    if let Some(end) = text.as_str().find(" (os error ") {
        text.truncate(end);
    }
    Ok(text)
}

/// Writes one line to standard error where the source, the sink or the disk has failed. Nobody asks whether it was written.
fn complain(rt: &(impl Eprint + AllocGlobal), what: &str, why: Option<&impl Display>) {
    if let Some(why) = why {
        if let Ok(text) = reason(rt.alloc(), what, why) {
            let _ = eprintln!(rt; "{text}");
        }
    }
}

fn main(rt: HostRuntime) -> ExitCode {
    let mut out = WriteSink::new(rt.stdout());
    let mut status = match words(&rt) {
        Ok(words) => {
            let mut script = ReadSource::new(rt.stdin());
            let (status, disk) = run(
                rt.alloc(),
                &words,
                &mut script,
                FileDisk::new(&rt),
                &mut out,
            );
            match status.0 {
                4 => complain(&rt, "standard input: read: ", script.error().as_ref()),
                6 => complain(&rt, "", disk.trouble()),
                _ => {}
            }
            status
        }
        Err(_) => match put_all(&mut out, b"out of memory\n") {
            Ok(()) => Status(8),
            Err(_) => Status(5),
        },
    };
    if out.flush().is_err() {
        status = Status(5);
    }
    if status.0 == 5 {
        complain(&rt, "standard output: write: ", out.error().as_ref());
    }
    ExitCode::from(status.0)
}
