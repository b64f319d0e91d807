// What a line of a script is.
use host_types::{Index, Key, NoMemory as OutOfMemory, Offer, Op, WordFault};

/// A line of a script, as it is written. Its numbers are any of 64 bits: whoever does the line refuses what is no index,
/// session or event.
#[derive(Debug, PartialEq, Eq, Drop)]
pub enum Line {
    /// An empty line, or a comment.
    Skip,
    /// `register`, `alive`, `unregister`, `tick` or `do`: something for the log to store.
    Offer(Offer),
    /// A looking operation on the resource of this name.
    Ask { name: Key, op: Op },
    /// One batch of events for the client of this session.
    Take { session: Index },
    /// The global index is this from now on.
    Global { index: Index },
    /// Minor compaction of the part that begins at this index.
    Minor { base: Index },
    /// Major compaction of the parts from this first index to this last one.
    Major { base: Index, last: Index },
    /// The parts of the log are to be printed.
    Census,
    /// The index up to which all events were acknowledged is to be printed.
    Quiet,
    /// The log is to be closed and opened again.
    Reopen,
}

/// Why a line can't be read.
#[derive(Clone, Copy, Debug, PartialEq, Eq)]
pub enum LineFault {
    /// It isn't in the grammar.
    Bad,
    /// No memory was left.
    NoMemory,
}

impl From<OutOfMemory> for LineFault {
    ghost use Rattle.std.specs.Prelude.{◌≡◌};
    ghost use Rattle.script_text.specs.declared.line.LineFault.TheVariants.{NoMemory};

    ghost from_gives = { λ _ fault. fault ≡ NoMemory };

    fn from(_: OutOfMemory) -> Self {
        LineFault::NoMemory
    }
}

impl From<WordFault> for LineFault {
    ghost use Rattle.script_text.specs.Faults.{fault_of};
    ghost use Rattle.std.specs.Prelude.{◌≡◌};

    ghost from_gives = { λ fault given. given ≡ fault_of fault };

    fn from(fault: WordFault) -> Self {
        match fault {
            WordFault::NoMemory => LineFault::NoMemory,
            WordFault::Empty | WordFault::TooLong | WordFault::BadByte { at: _ } => LineFault::Bad,
        }
    }
}
