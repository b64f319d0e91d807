// The laws that join a replay of what is left to the fold.
ghost use Rattle.log_model.specs.replay.ReplayLaws.{AdmittedIsReplayed, ReplayGivesFold, ReplayGivesHostedFold, ReplayLaw};
ghost use Rattle.log_model.specs.replay.Telling.{CellsShow, CellsTell, ReplayOfLogs};

/// An admitted item does what a replay of its entry does, with no cut.
pub fn admitted_is_replayed()
    ensures { AdmittedIsReplayed }
{}

/// What is left of a lawful log is replayed with its cut as the whole is with none.
pub fn replay_law()
    ensures { ReplayLaw }
{}

/// A replay of a cleaned log gives the fold, where the events that are read off the cells are the plain ones.
pub fn replay_gives_fold()
    ensures { ReplayGivesFold }
{}

/// A replay of a cleaned log gives the fold over any machine whose decisions are lawful, with the machine's own events.
pub fn replay_gives_hosted_fold()
    ensures { ReplayGivesHostedFold }
{}

/// A replay of a cleaned log gives the fold: cells, sessions, kept replies and kept batches, last index and time.
pub fn replay_of_logs()
    ensures { ReplayOfLogs }
{}

/// At each moment of a log its cells show the names and all resources of the plain state.
pub fn cells_show()
    ensures { CellsShow }
{}

/// The events that are read off the cells are those of the step.
pub fn cells_tell()
    ensures { CellsTell }
{}
