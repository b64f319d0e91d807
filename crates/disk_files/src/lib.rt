//! The files of the current folder as a disk: the file of a log with some id is `NAME-BASE-GENERATION.log`.
//! What a real file system does no contract can say, so this crate is a trusted edge: proved to
//! answer as a disk that tells nothing, and tested on real files.
#![tactic(auto)]

mod disk;
mod locks;
mod names;
mod open;
mod steps;
mod trouble;

pub use disk::FileDisk;
pub use locks::Lockable;
pub use names::files_are_of_one_log;
pub use trouble::Trouble;
