// The program: its words, the log that they name, and the script.
ghost use Rattle.std.specs.Prelude.{◌≡◌, ◌<◌, ◌≤◌, ℕ, List, Option, None, Some, IsTrue, map};
ghost use Rattle.script_io.specs.Streams.{Rose};
ghost use Rattle.disk_model.specs.declared.file_id.FileId.{FileId};
ghost use Rattle.segment_files.specs.Folder.{folder, IsFault};
ghost use Rattle.segment_set.specs.Fits.{KeepsNames};
ghost use Rattle.log_model.specs.plain.Admission.{Item};
ghost use Rattle.copycat_tool.specs.Closing.{HasCauses};
ghost use Rattle.copycat_tool.specs.Pieces.{IsFrontOf};
ghost use Rattle.copycat_tool.specs.declared.words.Asked.{Asked};
ghost use Rattle.copycat_tool.specs.Words.{asks, asks_census, asked_of};
ghost use Rattle.host_recovery.specs.Logs.{IsInOrder, plain_form};
ghost use Rattle.copycat_tool.specs.Runs.{Closes, Wrote};
ghost use Rattle.copycat_tool.specs.Programs.{IsStatus, RunsInOrder, ShowsCensus, StaysDamaged, never_failed, usage_line};

use crate::closing::{Status, close_run, put_last, run_script};
use crate::ending::Ending;
use crate::words::{Task, USAGE, USUAL_SIZE, read_words};
use disk_model::Disk;
use host_recovery::Host;
use host_types::LogName;
use log_model::plain_machines_are_plain;
use resource_catalog::{Catalog, catalog_is_plain};
use script_io::{Sink, Source, SureSource};
use std::alloc::Global;

/// Runs a script over the log of a name.
fn run_log<I: Source, D: Disk, O: Sink>(
    alloc: Global,
    name: &LogName,
    size: u32,
    script: &mut I,
    disk: D,
    out: &mut O,
) -> (Status, D)
    requires least { 2 ≤ size }
    requires most { size ≤ 65536 }
    ensures ran { IsTrue D.tells → (log : List Item) (least : ℕ) → IsInOrder plain_form (D.view disk) name.now log least → (bytes : List ℕ) → I.left script.old ≡ Some bytes
        → RunsInOrder (record { name = name.now; size = size }) log least bytes (I.left script.new) (D.view disk) (D.view result.1) (O.written out.old) (O.written out.new) result.0.0
        (Rose (I.faults script.old) (I.faults script.new)) (D.faults disk < D.faults result.1) }
    ensures faulty { IsTrue D.tells → (id : FileId) (at : ℕ) → IsFault (folder name.now (D.view disk).reading) id at
        → StaysDamaged name.now (I.left script.old) (I.left script.new) (D.view disk) (D.view result.1) (O.written out.old) (O.written out.new) result.0.0 (D.faults disk < D.faults result.1) }
    ensures damaged { result.0.0 ≡ 7 → IsTrue D.tells → (id : FileId) × (at : ℕ) × IsFault (folder name.now (D.view disk).reading) id at }
    ensures others { IsTrue D.tells → KeepsNames (D.view disk) (D.view result.1) name.now }
    ensures causes { HasCauses (Rose (I.faults script.old) (I.faults script.new)) (Rose (O.faults out.old) (O.faults out.new)) (D.faults disk < D.faults result.1) result.0.0 }
    ensures front { (bytes : List ℕ) → I.left script.old ≡ Some bytes → IsFrontOf bytes (I.left script.new) }
{
    catalog_is_plain();
    plain_machines_are_plain();
    match Host::open(alloc, disk, Catalog::new(alloc), name, size) {
        Ok(mut host) => {
            host.keeps();
            let status = run_script(alloc, name, script, &mut host, out);
            (status, host.close())
        }
        Err((disk, error)) => (close_run(alloc, name, Ending::of_opening(error), out), disk),
    }
}

/// The line of a script that shows how a log lies in its files.
const CENSUS: &[u8] = b"census";

/// Shows how the log of a name lies in its files, as a run of that one line.
fn run_census<D: Disk, O: Sink>(alloc: Global, name: &LogName, disk: D, out: &mut O) -> (Status, D)
    ensures ran { IsTrue D.tells → (log : List Item) (least : ℕ) → IsInOrder plain_form (D.view disk) name.now log least
        → ShowsCensus name.now log least (D.view disk) (D.view result.1) (O.written out.old) (O.written out.new) result.0.0 (D.faults disk < D.faults result.1) }
    ensures faulty { IsTrue D.tells → (script : Option (List ℕ)) (id : FileId) (at : ℕ) → IsFault (folder name.now (D.view disk).reading) id at
        → StaysDamaged name.now script script (D.view disk) (D.view result.1) (O.written out.old) (O.written out.new) result.0.0 (D.faults disk < D.faults result.1) }
    ensures damaged { result.0.0 ≡ 7 → IsTrue D.tells → (id : FileId) × (at : ℕ) × IsFault (folder name.now (D.view disk).reading) id at }
    ensures others { IsTrue D.tells → KeepsNames (D.view disk) (D.view result.1) name.now }
    ensures causes { HasCauses never_failed (Rose (O.faults out.old) (O.faults out.new)) (D.faults disk < D.faults result.1) result.0.0 }
{
    let mut line = Vec::new(alloc);
    let Ok(()) = line.extend_from_slice(CENSUS) else {
        return (close_run(alloc, name, Ending::NoMemory, out), disk);
    };
    let mut script = SureSource::new(line);
    run_log(alloc, name, USUAL_SIZE, &mut script, disk, out)
}

/// Runs the command that the words are: it opens a log and answers a script over it (`docs/script.md`). The disk is
/// given back.
pub fn run<I: Source, D: Disk, O: Sink>(
    alloc: Global,
    words: &[Vec<u8>],
    script: &mut I,
    disk: D,
    out: &mut O,
) -> (Status, D)
    // The words are no command exactly where the usage line is printed.
    ensures usage { asked_of (map (λ w. w.items) words.now) ≡ None → (text : List ℕ) × Wrote (O.written out.old) (O.written out.new) text × Closes usage_line 2 result.0.0 text }
    ensures usage_only { result.0.0 ≡ 2 → asked_of (map (λ w. w.items) words.now) ≡ None }
    ensures untouched { asked_of (map (λ w. w.items) words.now) ≡ None → (result.1 ≡ disk) × (script.new ≡ script.old) }

    // A folder that is in order for a log, whatever a crash leaves of it: what is printed, what the files stand for while it runs, and
    // for which log the folder is in order then.
    ensures ran { IsTrue D.tells → (name : List ℕ) (size : ℕ) → asked_of (map (λ w. w.items) words.now) ≡ Some (asks name size)
        → (log : List Item) (least : ℕ) → IsInOrder plain_form (D.view disk) name log least → (bytes : List ℕ) → I.left script.old ≡ Some bytes
        → RunsInOrder (record { name = name; size = size }) log least bytes (I.left script.new) (D.view disk) (D.view result.1) (O.written out.old) (O.written out.new) result.0.0
        (Rose (I.faults script.old) (I.faults script.new)) (D.faults disk < D.faults result.1) }

    // A census is a run of the one line that asks for it, and reads nothing of the script.
    ensures census { IsTrue D.tells → (name : List ℕ) → asked_of (map (λ w. w.items) words.now) ≡ Some (asks_census name)
        → (log : List Item) (least : ℕ) → IsInOrder plain_form (D.view disk) name log least
        → ShowsCensus name log least (D.view disk) (D.view result.1) (O.written out.old) (O.written out.new) result.0.0 (D.faults disk < D.faults result.1) }
    ensures unread { (name : List ℕ) → asked_of (map (λ w. w.items) words.now) ≡ Some (asks_census name) → script.new ≡ script.old }

    // A folder that isn't right isn't opened: why is told in one line, and nothing else. It is left as it is, whatever a crash leaves. Only
    // of such a folder a file is told to be damaged.
    ensures faulty { IsTrue D.tells → (asked : Asked) (id : FileId) (at : ℕ) → asked_of (map (λ w. w.items) words.now) ≡ Some asked → IsFault (folder asked.name (D.view disk).reading) id at
        → StaysDamaged asked.name (I.left script.old) (I.left script.new) (D.view disk) (D.view result.1) (O.written out.old) (O.written out.new) result.0.0 (D.faults disk < D.faults result.1) }
    ensures damaged { result.0.0 ≡ 7 → IsTrue D.tells → (asked : Asked) → asked_of (map (λ w. w.items) words.now) ≡ Some asked
        → (id : FileId) × (at : ℕ) × IsFault (folder asked.name (D.view disk).reading) id at }

    // Files of other names stay as they are.
    ensures others { IsTrue D.tells → (asked : Asked) → asked_of (map (λ w. w.items) words.now) ≡ Some asked → KeepsNames (D.view disk) (D.view result.1) asked.name }

    // Of the script a front is read, of at most 16,777,217 bytes.
    ensures front { (bytes : List ℕ) → I.left script.old ≡ Some bytes → IsFrontOf bytes (I.left script.new) }

    // A fault is told only of what has failed.
    ensures read { result.0.0 ≡ 4 → Rose (I.faults script.old) (I.faults script.new) }
    ensures write { result.0.0 ≡ 5 → Rose (O.faults out.old) (O.faults out.new) }
    ensures disk { result.0.0 ≡ 6 → D.faults disk < D.faults result.1 }
    ensures statuses { IsStatus result.0.0 }
{
    match read_words(words) {
        Some(asked) => match asked.task {
            Task::Run { size } => run_log(alloc, &asked.name, size, script, disk, out),
            Task::Census => run_census(alloc, &asked.name, disk, out),
        },
        None => (put_last(out, USAGE, 2), disk),
    }
}
