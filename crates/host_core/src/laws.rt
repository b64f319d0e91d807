// Laws of what a core keeps.
ghost use Rattle.host_core.specs.Marking.{EntriesTell, FewerTell, MarksOfLogsFollow, ReplaysTell};

/// The marks of a log with one entry more: its index is added, and what it released is marked. Index for index they are what the
/// model's replay finds.
pub fn marks_of_logs_follow()
    ensures { MarksOfLogsFollow }
{}

/// The marks that a replay makes of what is left of a log tell what the log has released, from the cut of its cleaning on.
pub fn replays_tell()
    ensures { ReplaysTell }
{}

/// They still do with one entry more: what it released gets its index, and all else stays.
pub fn entries_tell()
    ensures { EntriesTell }
{}

/// They still do from a later cut on where entries are gone whose indexes were taken out.
pub fn fewer_tell()
    ensures { FewerTell }
{}
