//! What a replicated resource is, and a machine of many: how operations are decided, how entries are applied, and which commits
//! go back when.
#![tactic(auto)]

mod decision;
mod held;
mod machine;
mod place;
mod resource;
mod told;

pub use decision::{Decision, Refuse};
pub use held::{close_held, close_own, retire_held};
pub use machine::Machine;
pub use place::Place;
pub use resource::Resource;
pub use told::Told;
