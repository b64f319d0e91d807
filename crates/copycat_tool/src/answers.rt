// The lines of a script, one after the other.
ghost use Rattle.std.specs.Prelude.{◌≡◌, ◌≤◌, ℕ, List, Some, Err, IsTrue, Result, false};
ghost use Rattle.script_io.specs.Streams.{Rose};
ghost use Rattle.copycat_tool.specs.Pieces.{IsFrontOf};
ghost use Rattle.copycat_tool.specs.Report.{Run, Whole, last_piece};
ghost use Rattle.copycat_tool.specs.Runs.{BeginsAcked, Files, all_reported, reported};
ghost use Rattle.copycat_tool.specs.RunStanding.{IsAt};
ghost use Rattle.copycat_tool.specs.ClientTakes.{HasClients};
ghost use Rattle.copycat_tool.specs.Turning.{HasRun, KeepsRun, ended_by};

use crate::clients::Clients;
use crate::ending::Ending;
use crate::reader::{LineReader, Piece, ReadError};
use crate::texts::put_answer;
use crate::turns::turn;
use disk_model::Disk;
use host_recovery::Host;
use log_model::plain_machines_are_plain;
use resource_catalog::{Catalog, catalog_is_plain};
use script_io::{Sink, Source};
use script_text::Printed;
use std::alloc::Global;

/// Answers the last line, which has no line feed, if there is one.
fn answer_last<D: Disk, O: Sink>(
    alloc: Global,
    piece: &[u8],
    number: u64,
    host: &mut Host<D, Catalog>,
    clients: &mut Clients,
    text: &mut Vec<u8>,
    out: &mut O,
) -> Ending
    requires runs { host.old.stopped ≡ false }
    ensures ended { IsTrue D.tells → (files : Files) (run : Run) → IsAt D.view files host.old run → HasClients run clients.old
        → HasRun files (last_piece files.size Whole run number piece.now) (D.view host.old.disk) (D.view host.new.disk) run (O.written out.old) (O.written out.new) result }
    ensures keeps { KeepsRun D.tells D.view D.faults host.old host.new (O.faults out.old) (O.faults out.new) ⊥ (ended_by result) }
{
    if piece.is_empty() {
        return Ending::Done;
    }
    match turn(alloc, piece, number, host, clients, text, out) {
        Ok(()) => Ending::Done,
        Err(ending) => ending,
    }
}

/// Answers the lines of a script, until it ends, one of them isn't in the grammar, or a call fails.
fn answer_lines<I: Source, D: Disk, O: Sink>(
    alloc: Global,
    script: &mut I,
    host: &mut Host<D, Catalog>,
    clients: &mut Clients,
    text: &mut Vec<u8>,
    out: &mut O,
) -> Ending
    requires runs { host.old.stopped ≡ false }
    ensures ended { IsTrue D.tells → (files : Files) (run : Run) → IsAt D.view files host.old run → HasClients run clients.old → (bytes : List ℕ) → I.left script.old ≡ Some bytes
        → HasRun files (reported files.size result run bytes (I.left script.new)) (D.view host.old.disk) (D.view host.new.disk) run (O.written out.old) (O.written out.new) result }
    ensures keeps { KeepsRun D.tells D.view D.faults host.old host.new (O.faults out.old) (O.faults out.new) (Rose (I.faults script.old) (I.faults script.new)) (ended_by result) }
    ensures front { (bytes : List ℕ) → I.left script.old ≡ Some bytes → IsFrontOf bytes (I.left script.new) }
{
    let mut reader = LineReader::new(alloc);
    let mut number = 1u64;
    loop {
        let piece = match reader.next_piece(script) {
            Ok(piece) => piece,
            Err(ReadError::Failed) => return Ending::ReadFault,
            Err(ReadError::NoMemory) => return Ending::NoMemory,
        };
        match piece {
            Piece::Line { length } => {
                match turn(
                    alloc,
                    &reader.held.bytes()[..length],
                    number,
                    host,
                    clients,
                    text,
                    out,
                ) {
                    Ok(()) => {}
                    Err(ending) => return ending,
                }
                reader.skip(length + 1);
            }
            Piece::Last => return answer_last(
                alloc,
                reader.held.bytes(),
                number,
                host,
                clients,
                text,
                out,
            ),
            Piece::Long => return Ending::Fault { line: number },
            Piece::Above => return Ending::TooLong,
        }
        number += 1;
    }
}

/// Prints the last index of a log, and answers the lines of a script over it.
pub fn answer_script<I: Source, D: Disk, O: Sink>(
    alloc: Global,
    script: &mut I,
    host: &mut Host<D, Catalog>,
    out: &mut O,
) -> Ending
    requires runs { host.old.stopped ≡ false }
    ensures ended { IsTrue D.tells → (files : Files) (run : Run) → IsAt D.view files host.old run → BeginsAcked run → (bytes : List ℕ) → I.left script.old ≡ Some bytes
        → HasRun files (all_reported files.size result run bytes (I.left script.new)) (D.view host.old.disk) (D.view host.new.disk) run (O.written out.old) (O.written out.new) result }
    ensures keeps { KeepsRun D.tells D.view D.faults host.old host.new (O.faults out.old) (O.faults out.new) (Rose (I.faults script.old) (I.faults script.new)) (ended_by result) }
    ensures front { (bytes : List ℕ) → I.left script.old ≡ Some bytes → IsFrontOf bytes (I.left script.new) }
{
    catalog_is_plain();
    plain_machines_are_plain();
    let mut clients = match Clients::of_opened(alloc, host) {
        Ok(clients) => clients,
        Err(_) => return Ending::NoMemory,
    };
    let mut text = Vec::new(alloc);
    match put_answer(Printed::Opened { last: host.last() }, &mut text, out) {
        Ok(()) => answer_lines(alloc, script, host, &mut clients, &mut text, out),
        Err(ending) => ending,
    }
}
