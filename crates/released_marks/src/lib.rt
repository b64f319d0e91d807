//! Which index of a log was released by which.
#![tactic(auto)]

mod marks;

pub use marks::Marks;
