// A cell as it is listed.
use host_types::{Cell, Content, Index};

/// One cell of an instance, with the index of the entry that holds it. A name stands in instance 0 as `Named` of the name, with
/// content `Mark`; its index is the instance that has the name.
#[derive(Debug, PartialEq, Eq, Drop)]
pub struct Place {
    pub instance: Index,
    pub cell: Cell,
    pub index: Index,
    pub content: Content,
    /// The session that the cell goes with.
    pub owner: Option<Index>,
}
