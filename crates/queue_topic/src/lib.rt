//! Queues and topics, each on a table of cells.
#![tactic(auto)]

mod listeners;
mod queue;
mod topic;

pub use listeners::{listen, listens, tell_listeners, unlisten};
pub use queue::QueueCells;
pub use topic::TopicCells;
