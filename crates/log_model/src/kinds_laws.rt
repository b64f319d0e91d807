// The laws of the nine kinds.
ghost use Rattle.log_model.specs.kinds.KindEffects.{KindsStoreTheirOwn};
ghost use Rattle.log_model.specs.kinds.PlainRanges.{RowsAreLawful};
ghost use Rattle.log_model.specs.kinds.Reading.{DecidesByItsOwnCells, KindsAreLawful, KindsDecideAsPlain, KindsHaveOneOwner, KindsKeepShowing, ReadsItsOwnCells, ReadsWhatIsShown};
ghost use Rattle.log_model.specs.kinds.Shows.{CloseShows, OthersShow, ResourceClosesShow, ResourceRowsShow, RowsShow};

/// After what a row stores, the cells show the row's resource, for each of the nine kinds.
pub fn rows_show()
    ensures { RowsShow }
{}

/// After a session is closed, the cells show each resource without it.
pub fn closes_show()
    ensures { CloseShows }
{}

/// What leaves the cells of an instance leaves what they show.
pub fn others_show()
    ensures { OthersShow }
{}

/// After what a row decides, the cells of a resource by itself show what the row makes of it, for each of the nine kinds.
pub fn resource_rows_show()
    ensures { ResourceRowsShow }
{}

/// Without those of a session, the cells of a resource by itself show it without the session.
pub fn resource_closes_show()
    ensures { ResourceClosesShow }
{}

/// Where cells in order show a plain resource, it is read off them, of each kind.
pub fn what_is_shown_is_read()
    ensures { ReadsWhatIsShown }
{}

/// It is read off the cells of its instance alone.
pub fn own_cells_are_read()
    ensures { ReadsItsOwnCells }
{}

/// So are the decision and the events of its kind.
pub fn own_cells_decide()
    ensures { DecidesByItsOwnCells }
{}

/// Where cells in order show a plain resource, the decision of its kind is what the plain step does, of each kind.
pub fn kinds_decide_as_plain()
    ensures { KindsDecideAsPlain }
{}

/// The cells of each kind go on to show its plain resource.
pub fn kinds_keep_showing()
    ensures { KindsKeepShowing }
{}

/// Each row of a plain resource in range is lawful.
pub fn rows_are_lawful()
    ensures { RowsAreLawful }
{}

/// What each kind decides is lawful.
pub fn kinds_are_lawful()
    ensures { KindsAreLawful }
{}

/// What each kind puts has the owner that its place has.
pub fn kinds_have_one_owner()
    ensures { KindsHaveOneOwner }
{}

/// Each kind stores effects on cells of its own alone.
pub fn kinds_store_their_own()
    ensures { KindsStoreTheirOwn }
{}
