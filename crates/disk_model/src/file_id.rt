/// The file `NAME-BASE-GENERATION.log` of a log of some name. Both numbers are 1 to 281474976710655.
/// `base` is the index of the first entry that it may hold; of two files for one range the one with
/// the greater `generation` counts. Files are ordered by base, and then by generation.
#[derive(Clone, Copy, Debug, PartialEq, Eq, PartialOrd, Ord)]
pub struct FileId {
    pub base: u64,
    pub generation: u64,
}
