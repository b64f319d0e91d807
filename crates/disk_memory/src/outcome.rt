// How a crash may end.

/// What a crash makes of all that isn't settled.
#[derive(Clone, Copy, Debug, PartialEq, Eq)]
pub enum Outcome {
    /// All of it is lost: each file has the bytes that were settled, and no creation and no removal has happened.
    Old,
    /// All of it has happened.
    New,
    /// All of it has happened, but each range that was written holds this byte.
    Torn(u8),
}
