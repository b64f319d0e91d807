// What a line of a script asks of the program.
ghost use Rattle.std.specs.Prelude.{◌≡◌, Some, None, IfOk, IfSome};
ghost use Rattle.copycat_tool.specs.Script.{IsFit, command, command_of, if_line};
ghost use Rattle.script_text.specs.Lines.{IsAllowed};
ghost use Rattle.script_text.specs.Reading.{line_read};

use host_types::{Index, Key, NoMemory, Offer, Op};
use script_text::{Line, LineFault, read_line};
use std::alloc::Global;

/// The longest line, without its line feed.
pub const LINE_LIMIT: usize = 16384;

/// What a line asks.
#[derive(Debug, PartialEq, Eq, Drop)]
pub enum Command {
    /// Nothing: it is empty, or a comment.
    Skip,
    /// To store this, once whoever is due at its time has expired.
    Offer(Offer),
    /// What a looking operation shows of the resource of this name.
    Ask { name: Key, op: Op },
    /// To hand the next batch to the client of this session.
    Take { session: Index },
    /// How the log lies in its files.
    Census,
    /// The index up to which nobody waits for a reply or an event.
    Quiet,
    /// To close the log and open it again.
    Reopen,
}

/// The command of a line of the language, if it is built.
fn command_of(line: Line) -> Option<Command>
    requires allowed { IsAllowed line }
    ensures found { result ≡ command_of line }
    ensures fit { IfSome result IsFit }
{
    match line {
        Line::Skip => Some(Command::Skip),
        Line::Offer(offer) => Some(Command::Offer(offer)),
        Line::Ask { name, op } => Some(Command::Ask { name, op }),
        Line::Take { session } => Some(Command::Take { session }),
        Line::Census => Some(Command::Census),
        Line::Quiet => Some(Command::Quiet),
        Line::Reopen => Some(Command::Reopen),
        _ => None,
    }
}

/// What a line of a script asks, if it is in the grammar (`docs/script.md`) and its command is built.
#[tactic(auto, unfolding(crate::specs::Script::command))]
pub fn read_command(alloc: Global, line: &[u8]) -> Result<Option<Command>, NoMemory>
    ensures found { IfOk result (λ found. found ≡ command line.now) }
    ensures fit { IfOk result (λ found. IfSome found IsFit) }
{
    if line.len() > LINE_LIMIT {
        return Ok(None);
    }
    match read_line(alloc, line) {
        Ok(line) => Ok(command_of(line)),
        Err(LineFault::Bad) => Ok(None),
        Err(LineFault::NoMemory) => Err(NoMemory),
    }
}
