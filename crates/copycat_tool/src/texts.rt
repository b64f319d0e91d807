// What is printed: lines of text, each with its line feed.
ghost use Rattle.std.specs.Prelude.{◌≡◌, ◌≤◌, ◌∷◌, ◌++◌, [], IfOk, OnOk};
ghost use Rattle.std.specs.String.{string_bytes};
ghost use Rattle.script_text.specs.Printing.{HasRange, printed_line};
ghost use Rattle.copycat_tool.specs.Report.{damaged_text, fault_text};
ghost use Rattle.copycat_tool.specs.Turning.{IsPut};

use crate::ending::Ending;
use host_types::{LogName, NoMemory};
use script_io::{Sink, put_all};
use script_text::{Printed, print};
use std::alloc::{AllocError, Global};

/// The line of an answer, in the place of what the buffer held.
fn line_of(answer: Printed, text: &mut Vec<u8>) -> Result<(), NoMemory>
    requires { HasRange answer }
    ensures { OnOk result (text.new.items ≡ printed_line answer) }
{
    text.clear();
    print(&answer, text)
}

/// Prints an answer, by way of `text`, which is room for one line that is used again for each.
pub fn put_answer<O: Sink>(answer: Printed, text: &mut Vec<u8>, out: &mut O) -> Result<(), Ending>
    requires { HasRange answer }
    ensures put { IsPut (O.written out.old) (O.written out.new) (O.faults out.old) (O.faults out.new) (printed_line answer) result }
    ensures later { O.faults out.old ≤ O.faults out.new }
{
    let Ok(()) = line_of(answer, text) else {
        return Err(Ending::NoMemory);
    };
    match put_all(out, text) {
        Ok(()) => Ok(()),
        Err(_) => Err(Ending::WriteFault),
    }
}

/// The line that names a line of the script that isn't in the grammar.
pub fn fault_line(alloc: Global, line: u64) -> Result<String, AllocError>
    ensures { IfOk result (λ text. string_bytes text ≡ fault_text line ++ 10 ∷ []) }
{
    format!(in alloc; "script fault at line {line}\n")
}

/// The line that names a file that isn't right.
pub fn damaged_line(
    alloc: Global,
    name: &LogName,
    base: u64,
    generation: u64,
    at: u64,
) -> Result<Vec<u8>, AllocError>
    ensures { IfOk result (λ text. text.items ≡ damaged_text name.now base generation at ++ 10 ∷ []) }
{
    let rest = format!(in alloc; "-{base}-{generation}.log at {at}\n")?;
    let mut text = Vec::new(alloc);
    text.extend_from_slice(b"damaged ")?;
    text.extend_from_slice(name.bytes())?;
    text.extend_from_slice(rest.as_bytes())?;
    Ok(text)
}
