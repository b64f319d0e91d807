//! Multimaps.
#![tactic(auto)]

mod multimap;
mod words;

pub use multimap::MultimapCells;
