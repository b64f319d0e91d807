// A batch of events.
use crate::events::Events;
use host_types::Index;

/// What one entry tells one session.
#[derive(Drop)]
pub struct Batch {
    /// The index of the entry.
    pub index: Index,
    /// The index of the batch before it, or the acknowledged event where it is the first that is kept.
    pub previous: Index,
    /// What is told, in order.
    pub events: Events,
}
