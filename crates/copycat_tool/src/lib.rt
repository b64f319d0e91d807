//! The program: a script over a log.
#![tactic(auto)]

mod answers;
mod calls;
mod census;
mod clients;
mod closing;
mod ending;
mod folders;
mod held;
mod lines;
mod opened;
mod program;
mod reader;
mod taking;
mod texts;
mod turns;
mod words;

pub use closing::Status;
pub use folders::{crashed_folder_is_in_order, empty_folder_is_in_order};
pub use opened::open_log;
pub use program::run;
pub use words::{Asked, USAGE, read_words};
