// The end of a run: its last line and its status.
ghost use Rattle.std.specs.Prelude.{◌≡◌, ◌<◌, ◌≤◌, ◌⊎◌, ℕ, List, Some, IsTrue, false, length};
ghost use Rattle.script_io.specs.Streams.{Rose};
ghost use Rattle.segment_set.specs.Fits.{KeepsNames};
ghost use Rattle.copycat_tool.specs.Closing.{EndsRun, HasCauses, HasClosed};
ghost use Rattle.copycat_tool.specs.Pieces.{IsFrontOf};
ghost use Rattle.copycat_tool.specs.Report.{Run};
ghost use Rattle.copycat_tool.specs.Runs.{BeginsAcked, Closes, Files, Wrote};
ghost use Rattle.copycat_tool.specs.RunStanding.{IsAt};

use crate::answers::answer_script;
use crate::ending::Ending;
use crate::texts::{damaged_line, fault_line};
use disk_model::Disk;
use host_recovery::Host;
use host_types::LogName;
use resource_catalog::Catalog;
use script_io::{Sink, Source, put_all};
use std::alloc::Global;

/// How the program ends, as its caller sees it (`docs/script.md`).
#[derive(Clone, Copy, Debug, PartialEq, Eq)]
pub struct Status(pub u8);

/// Prints a last line. The status is 5 where that fails.
pub(crate) fn put_last<O: Sink>(out: &mut O, line: &[u8], wanted: u8) -> Status
    requires some { 0 < length line.now }
    ensures closes { (text : List ℕ) × Wrote (O.written out.old) (O.written out.new) text × Closes line.now wanted result.0 text }
    ensures sink { result.0 ≡ 5 → (wanted ≡ 5) ⊎ Rose (O.faults out.old) (O.faults out.new) }
    ensures later { O.faults out.old ≤ O.faults out.new }
{
    match put_all(out, line) {
        Ok(()) => Status(wanted),
        Err(_) => Status(5),
    }
}

/// Prints the last line of a run that ends so, over the log of this name, and answers its status.
pub fn close_run<O: Sink>(alloc: Global, name: &LogName, ending: Ending, out: &mut O) -> Status
    ensures ends { EndsRun name.now ending (O.written out.old) (O.written out.new) (O.faults out.old) (O.faults out.new) result.0 }
    ensures later { O.faults out.old ≤ O.faults out.new }
{
    match ending {
        Ending::Done => Status(0),
        Ending::Fault { line } => match fault_line(alloc, line) {
            Ok(text) => put_last(out, text.as_bytes(), 3),
            Err(_) => put_last(out, b"out of memory\n", 8),
        },
        Ending::TooLong => put_last(out, b"script too long\n", 3),
        Ending::ReadFault => put_last(out, b"read fault\n", 4),
        Ending::WriteFault => Status(5),
        Ending::DiskFault => put_last(out, b"disk fault\n", 6),
        Ending::NoMemory => put_last(out, b"out of memory\n", 8),
        Ending::Damaged {
            base,
            generation,
            at,
        } => match damaged_line(alloc, name, base, generation, at) {
            Ok(text) => put_last(out, &text, 7),
            Err(_) => put_last(out, b"out of memory\n", 8),
        },
    }
}

/// Runs a script over a log of this name that was opened, to its status.
pub fn run_script<I: Source, D: Disk, O: Sink>(
    alloc: Global,
    name: &LogName,
    script: &mut I,
    host: &mut Host<D, Catalog>,
    out: &mut O,
) -> Status
    requires runs { host.old.stopped ≡ false }
    requires name { host.old.parts.name ≡ name.now }
    ensures ran { IsTrue D.tells → (files : Files) (run : Run) → IsAt D.view files host.old run → BeginsAcked run → (bytes : List ℕ) → I.left script.old ≡ Some bytes
        → HasClosed files run bytes (I.left script.new) (D.view host.old.disk) (D.view host.new.disk) (O.written out.old) (O.written out.new) result.0
        (Rose (I.faults script.old) (I.faults script.new)) (D.faults host.old.disk < D.faults host.new.disk) }
    ensures causes { HasCauses (Rose (I.faults script.old) (I.faults script.new)) (Rose (O.faults out.old) (O.faults out.new)) (D.faults host.old.disk < D.faults host.new.disk) result.0 }
    ensures others { IsTrue D.tells → KeepsNames (D.view host.old.disk) (D.view host.new.disk) host.old.parts.name }
    ensures undamaged { result.0 ≡ 7 → IsTrue D.tells → ⊥ }
    ensures later { D.faults host.old.disk ≤ D.faults host.new.disk }
    ensures front { (bytes : List ℕ) → I.left script.old ≡ Some bytes → IsFrontOf bytes (I.left script.new) }
{
    let ending = answer_script(alloc, script, host, out);
    close_run(alloc, name, ending, out)
}
