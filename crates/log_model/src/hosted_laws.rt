// The laws of logs over any machine that is known by its decision.
ghost use Rattle.log_model.specs.hosted.Machines.{AdmittedIsInRange, AdmittedKeepsSound, CentralLawOfMachines, HostedLogGrows, HostedLogIsWhole, HostedQuietGrows, LogsAreSound, MarksLawOfMachines};
ghost use Rattle.log_model.specs.hosted.OneByOne.{ChangesCompose};
ghost use Rattle.log_model.specs.hosted.Parts.{AlivesFollow, MachinePartFollows, PlacesAreParted, SessionPlacesAre};
ghost use Rattle.log_model.specs.hosted.PlainMachine.{PlainMachinesArePlain};
ghost use Rattle.log_model.specs.hosted.Sound.{EntriesKeepSound, NextIndexIsFree};

/// Whatever entry in range is replayed, a host's state stays sound.
pub fn entries_keep_sound()
    ensures { EntriesKeepSound }
{}

/// An index that isn't past is held nowhere, and no cell of its instance stands.
pub fn next_index_is_free()
    ensures { NextIndexIsFree }
{}

/// The machine's part of the cells is changed as a machine changes its own: by an effect whose owner stands, and by a close.
pub fn machine_part_follows()
    ensures { MachinePartFollows }
{}

/// What an index holds, it holds in the machine's part or at the places of sessions.
pub fn places_are_parted()
    ensures { PlacesAreParted }
{}

/// At the places of sessions each open session's register entry is held, and its last keep-alive if there was one.
pub fn session_places_are()
    ensures { SessionPlacesAre }
{}

/// Which entry is held as a session's last keep-alive, after each entry.
pub fn alives_follow()
    ensures { AlivesFollow }
{}

/// Two changes of one session, one after the other, are one change.
pub fn changes_compose()
    ensures { ChangesCompose }
{}

/// The state of a whole log is sound.
pub fn logs_are_sound()
    ensures { LogsAreSound }
{}

/// The entry of an admitted item is in range, whatever entries in range the host was made of.
pub fn admitted_is_in_range()
    ensures { AdmittedIsInRange }
{}

/// An admitted item keeps the state of a log sound.
pub fn admitted_keeps_sound()
    ensures { AdmittedKeepsSound }
{}

/// The central law over any machine whose decisions are lawful and whose places have one owner.
pub fn central_law_of_machines()
    ensures { CentralLawOfMachines }
{}

/// The same over any machine whose decisions are lawful and whose places have one owner.
pub fn marks_law_of_machines()
    ensures { MarksLawOfMachines }
{}

/// One item more: the fold is stepped, the stored form has its entry at the end, and it is a log where the item is admitted.
pub fn hosted_log_grows()
    ensures { HostedLogGrows }
{}

/// A log has as many entries as items, and a host over it has their cells.
pub fn hosted_log_is_whole()
    ensures { HostedLogIsWhole }
{}

/// As a host's log grows, its quiet doesn't fall.
pub fn hosted_quiet_grows()
    ensures { HostedQuietGrows }
{}

/// A host over a machine that decides, shows and tells as the rows do takes what the plain state takes, and is as the plain state.
pub fn plain_machines_are_plain()
    ensures { PlainMachinesArePlain }
{}
