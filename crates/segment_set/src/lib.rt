//! The files of a log as a whole: opened, and appended to.
#![tactic(auto)]

mod appends;
mod choice;
mod exchange;
mod laws;
mod opened;
mod opening;
mod parts;
mod reads;
mod removals;
mod tail;
mod views;

pub use choice::{Choice, choose};
pub use laws::{
    a_new_part_replaces, closed_files_change_nothing, parts_or_fault,
    superseded_files_change_nothing, the_fault_is_determined, the_parts_are_determined,
    the_parts_lie_in_none,
};
pub use opened::Opened;
pub use opening::OpenError;
pub use parts::{GENERATION_LIMIT, Parts};
pub use tail::Tail;
pub use views::PartView;
