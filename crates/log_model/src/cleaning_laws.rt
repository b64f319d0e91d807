// The laws of a log that was cleaned.
ghost use Rattle.log_model.specs.cleaning.Cleaning.{AppendKeeps, CentralLaw, CentralLawOfLogs, FreshIsCleaned, ReleasedGrows};
ghost use Rattle.log_model.specs.cleaning.Kept.{MajorKeeps, MinorKeeps};
ghost use Rattle.log_model.specs.plain.Quiet.{QuietGrows, QuietIsGreatest};
ghost use Rattle.log_model.specs.cleaning.Released.{MarksFollow, MarksLaw};
ghost use Rattle.log_model.specs.cleaning.Sessions.{SessionsLaw};

/// The central law: what is left of a cleaned log gives the cells of the whole log, at each moment from the cut on.
pub fn central_law_of_logs()
    ensures { CentralLawOfLogs }
{}

/// The same over a list of entries of which only this is known: each put fits, each deleted name stands, and a place has one owner.
pub fn central_law()
    ensures { CentralLaw }
{}

/// As the log grows, quiet doesn't fall.
pub fn quiet_grows()
    ensures { QuietGrows }
{}

/// Quiet is the greatest index, at most the last, at or below which no session keeps anything.
pub fn quiet_is_greatest()
    ensures { QuietIsGreatest }
{}

/// As the log and the cut grow, what is released stays released.
pub fn released_grows()
    ensures { ReleasedGrows }
{}

/// A log of which nothing is gone is a cleaned log.
pub fn fresh_is_cleaned()
    ensures { FreshIsCleaned }
{}

/// An entry that is appended keeps a cleaned log cleaned.
pub fn append_keeps()
    ensures { AppendKeeps }
{}

/// A minor compaction at the present quiet leaves a cleaned log.
pub fn minor_keeps()
    ensures { MinorKeeps }
{}

/// A major compaction at the present quiet leaves a cleaned log.
pub fn major_keeps()
    ensures { MajorKeeps }
{}

/// What is left of a lawful log gives its sessions' own fields, at each moment from the cut on.
pub fn sessions_law()
    ensures { SessionsLaw }
{}

/// From the cut of a cleaned log on, the marks that its replay makes tell what is released in the whole log.
pub fn marks_law()
    ensures { MarksLaw }
{}

/// One entry more marks what it releases, and nothing else.
pub fn marks_follow()
    ensures { MarksFollow }
{}
