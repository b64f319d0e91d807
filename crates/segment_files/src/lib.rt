//! The files of a log: how they are made, appended to and read.
#![tactic(auto)]

mod descriptor;
mod entries;
mod frames;
mod gates;
mod laws;
mod numbers;
mod reading;
mod rule;
mod settle;
mod tails;
mod windows;

pub use descriptor::Descriptor;
pub use entries::{read_entry, read_raw};
pub use frames::{FRAME_ROOM, begin_frame, end_frame, frame};
pub use gates::{append_frame, open_gate};
pub use laws::{rewritten_files_are_read, rewritten_files_grow};
pub use reading::{FileFault, Found, Part, scan};
pub use settle::settle_all;
pub use tails::{create_closed, fill, make_tail};
