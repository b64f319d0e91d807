//! Entries as bytes: the one spelling of each entry, written and read.
#![tactic(auto)]

mod fault;
mod laws;
mod reading;
mod writing;

pub use fault::ReadFault;
pub use laws::{bounded_size, one_spelling, read_again};
pub use reading::read;
pub use writing::write;
