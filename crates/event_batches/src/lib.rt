//! The events that a session is told, in batches: what it keeps of them, and what its client takes.
#![tactic(auto)]

mod batch;
mod client;
mod events;
mod queue;

pub use batch::Batch;
pub use client::{Client, Take};
pub use events::Events;
pub use queue::Queue;
