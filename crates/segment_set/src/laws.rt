// The laws of the parts of a folder. These functions do nothing: what they promise is the law.
ghost use Rattle.segment_set.specs.ChoiceLaws.{ANewPartReplaces, ClosedFilesChangeNothing, PartsOrFault, SupersededFilesChangeNothing, TheFaultIsDetermined, ThePartsAreDetermined, ThePartsLieInNone};

/// Closed files change nothing of what an image is read as.
pub fn closed_files_change_nothing()
    ensures { ClosedFilesChangeNothing }
{}

/// The parts are the open files that lie in no other.
pub fn the_parts_lie_in_none()
    ensures { ThePartsLieInNone }
{}

/// A folder has one list of parts.
pub fn the_parts_are_determined()
    ensures { ThePartsAreDetermined }
{}

/// A folder has parts or a fault, not both.
pub fn parts_or_fault()
    ensures { PartsOrFault }
{}

/// A folder has one fault, at one place.
pub fn the_fault_is_determined()
    ensures { TheFaultIsDetermined }
{}

/// Files that are closed or lie in a part may be there or not.
pub fn superseded_files_change_nothing()
    ensures { SupersededFilesChangeNothing }
{}

/// A new part takes the place of those in its range as its gate opens.
pub fn a_new_part_replaces()
    ensures { ANewPartReplaces }
{}
