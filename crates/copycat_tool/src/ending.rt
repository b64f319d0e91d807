// Why a run over a script ends.
use segment_set::OpenError;

/// Why a run over a script ends.
#[derive(Clone, Copy, Debug, PartialEq, Eq)]
pub enum Ending {
    /// Every line is answered.
    Done,
    /// This line, counted from 1, is the first that isn't in the grammar, is too long, or whose command isn't built.
    Fault { line: u64 },
    /// The script is longer than its limit.
    TooLong,
    /// The source of the script failed.
    ReadFault,
    /// The sink of the answers failed.
    WriteFault,
    /// The disk failed.
    DiskFault,
    /// No memory was left.
    NoMemory,
    /// A file of the log isn't right. A log that was opened is so no more only where its disk holds other bytes than it took.
    Damaged { base: u64, generation: u64, at: u64 },
}

impl Ending {
    ghost use Rattle.std.specs.Prelude.{◌≡◌};
    ghost use Rattle.copycat_tool.specs.Endings.{ending_of};

    /// What a log that couldn't be opened is to the run.
    pub fn of_opening(error: OpenError) -> Ending
        ensures { result ≡ ending_of error }
    {
        match error {
            OpenError::Disk => Ending::DiskFault,
            OpenError::Damaged {
                base,
                generation,
                at,
            } => Ending::Damaged {
                base,
                generation,
                at,
            },
            OpenError::NoMemory => Ending::NoMemory,
        }
    }
}
