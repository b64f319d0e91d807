// Reads a line: cuts it into words, and tells by these what it is.
ghost use Rattle.std.specs.Prelude.{◌≡◌, Some, map, IfOk};
ghost use Rattle.script_text.specs.Faults.{Reads};
ghost use Rattle.script_text.specs.Lines.{IsTextOf, is_skipped};
ghost use Rattle.script_text.specs.Reading.{line_read, words_read, words_of, offer_read, command_read, alive_read, ask_read, one_number, two_numbers, alone, form_read, line_forms};
ghost use Rattle.script_text.specs.Tables.{lookup};
ghost use Rattle.script_text.specs.declared.line.Line as lines;

use crate::fields::{read_key, read_number};
use crate::line::{Line, LineFault};
use crate::operations::{is_looking, read_op};
use host_types::{Ask, NoMemory as OutOfMemory, Offer};
use smallvec::SmallVec;
use std::alloc::Global;
use std::str;

/// The words of a line: what stands between its spaces. No line of the grammar has more than eight, so that only other
/// ones take memory for them.
fn split_words(alloc: Global, line: &str) -> Result<SmallVec<&str, 8>, OutOfMemory>
    ensures { IfOk result (λ words. map (λ word. word.now) words.items ≡ words_of line.now) }
{
    let mut words = SmallVec::new(alloc);
    for word in line.split(' ') {
        words.push(word)?;
    }
    Ok(words)
}

/// Just one number.
fn read_one(arguments: &[&str]) -> Result<u64, LineFault>
    ensures { Reads result (one_number (map (λ word. word.now) arguments.now)) }
{
    match arguments {
        [number] => read_number(number),
        _ => Err(LineFault::Bad),
    }
}

/// Just two numbers.
fn read_two(arguments: &[&str]) -> Result<(u64, u64), LineFault>
    ensures { Reads result (two_numbers (map (λ word. word.now) arguments.now)) }
{
    match arguments {
        [first, second] => Ok((read_number(first)?, read_number(second)?)),
        _ => Err(LineFault::Bad),
    }
}

/// A session's keep-alive.
fn read_alive(arguments: &[&str]) -> Result<Offer, LineFault>
    ensures { Reads result (alive_read (map (λ word. word.now) arguments.now)) }
{
    let [time, session, seq, event] = arguments else {
        return Err(LineFault::Bad);
    };
    Ok(Offer {
        time: read_number(time)?,
        ask: Ask::Alive {
            session: read_number(session)?,
            seq: read_number(seq)?,
            event: read_number(event)?,
        },
    })
}

/// A session's command.
fn read_command(alloc: Global, arguments: &[&str]) -> Result<Offer, LineFault>
    ensures { Reads result (command_read (map (λ word. word.now) arguments.now)) }
{
    let [time, session, seq, verb, name, arguments @ ..] = arguments else {
        return Err(LineFault::Bad);
    };
    Ok(Offer {
        time: read_number(time)?,
        ask: Ask::Command {
            session: read_number(session)?,
            seq: read_number(seq)?,
            name: read_key(alloc, name)?,
            op: read_op(alloc, verb, arguments)?,
        },
    })
}

/// What a line offers that begins with this word.
fn read_offer(alloc: Global, form: &str, arguments: &[&str]) -> Result<Offer, LineFault>
    ensures { Reads result (offer_read form.now (map (λ word. word.now) arguments.now)) }
{
    match form {
        "register" => {
            let (time, timeout) = read_two(arguments)?;
            Ok(Offer {
                time,
                ask: Ask::Register { timeout },
            })
        }
        "alive" => read_alive(arguments),
        "unregister" => {
            let (time, session) = read_two(arguments)?;
            Ok(Offer {
                time,
                ask: Ask::Unregister { session },
            })
        }
        "tick" => Ok(Offer {
            time: read_one(arguments)?,
            ask: Ask::Tick,
        }),
        "do" => read_command(alloc, arguments),
        _ => Err(LineFault::Bad),
    }
}

/// What is asked: only looking operations are.
fn read_ask(alloc: Global, arguments: &[&str]) -> Result<Line, LineFault>
    ensures { Reads result (ask_read (map (λ word. word.now) arguments.now)) }
{
    let [verb, name, arguments @ ..] = arguments else {
        return Err(LineFault::Bad);
    };
    let name = read_key(alloc, name)?;
    let op = read_op(alloc, verb, arguments)?;
    if is_looking(&op) {
        Ok(Line::Ask { name, op })
    } else {
        Err(LineFault::Bad)
    }
}

/// A line of one word.
fn read_alone(line: Line, arguments: &[&str]) -> Result<Line, LineFault>
    ensures { Reads result (alone line (map (λ word. word.now) arguments.now)) }
{
    if arguments.is_empty() {
        Ok(line)
    } else {
        Err(LineFault::Bad)
    }
}

/// The line that begins with this word.
fn read_form(alloc: Global, form: &str, arguments: &[&str]) -> Result<Line, LineFault>
    ensures { Reads result (form_read (lookup line_forms form.now) form.now (map (λ word. word.now) arguments.now)) }
{
    match form {
        "ask" => read_ask(alloc, arguments),
        "take" => Ok(Line::Take {
            session: read_one(arguments)?,
        }),
        "global" => Ok(Line::Global {
            index: read_one(arguments)?,
        }),
        "minor" => Ok(Line::Minor {
            base: read_one(arguments)?,
        }),
        "major" => {
            let (base, last) = read_two(arguments)?;
            Ok(Line::Major { base, last })
        }
        "census" => read_alone(Line::Census, arguments),
        "quiet" => read_alone(Line::Quiet, arguments),
        "reopen" => read_alone(Line::Reopen, arguments),
        _ => Ok(Line::Offer(read_offer(alloc, form, arguments)?)),
    }
}

/// The line of these words.
fn read_words(alloc: Global, words: &[&str]) -> Result<Line, LineFault>
    ensures { Reads result (words_read (map (λ word. word.now) words.now)) }
{
    match words {
        [form, arguments @ ..] => read_form(alloc, form, arguments),
        [] => Err(LineFault::Bad),
    }
}

fn read_text(alloc: Global, line: &str) -> Result<Line, LineFault>
    ensures { Reads result (words_read (words_of line.now)) }
{
    let words = split_words(alloc, line)?;
    read_words(alloc, &words)
}

/// Whether a line is empty or a comment.
fn is_skip(bytes: &[u8]) -> bool
    ensures { result ≡ is_skipped bytes.now }
{
    bytes.is_empty() || bytes[0] == b'#'
}

/// What there is to read. Each line that isn't skipped is of ASCII.
#[tactic(auto, using(crate::proofs::LineLemmas::no_text), unfolding(crate::specs::Reading::line_read))]
fn read_bytes(alloc: Global, bytes: &[u8]) -> Result<Line, LineFault>
    ensures { Reads result (line_read bytes.now) }
{
    if is_skip(bytes) {
        return Ok(Line::Skip);
    }
    match str::from_utf8(bytes) {
        Ok(line) => read_text(alloc, line),
        Err(_) => Err(LineFault::Bad),
    }
}

/// Reads a line, without its line feed. It copies each key and word once, and its time is linear in the line, whose length
/// is no matter here.
pub fn read_line(alloc: Global, bytes: &[u8]) -> Result<Line, LineFault>
    // What is read is written so.
    ensures found { IfOk result (λ line. IsTextOf bytes.now line) }

    // What is written so is read, unless no memory was left. So Bad is told just where no line is written so.
    ensures only { (line : lines.Line) → IsTextOf bytes.now line → Reads result (Some line) }
    ensures exact { Reads result (line_read bytes.now) }
{
    read_bytes(alloc, bytes)
}
