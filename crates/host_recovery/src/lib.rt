//! A host over the files of a disk: it decides what is offered, stores and applies it, and is opened again from what it stored.
#![tactic(auto)]

mod answers;
mod host;
mod opening;
mod serving;
mod storing;
mod views;

pub use answers::{Answer, AskError, HostError};
pub use host::Host;
pub use serving::{AckError, NoSession};
