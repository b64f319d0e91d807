//! The state of a host in memory: it decides offers, applies their entries, and replays those of a log.
#![tactic(auto)]

mod batching;
mod deciding;
mod entering;
mod laws;
mod state;
mod taking;

pub use deciding::{DecideError, Decided};
pub use laws::{entries_tell, fewer_tell, marks_of_logs_follow, replays_tell};
pub use state::{Core, Prepared};
