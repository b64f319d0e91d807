// What is told of one session.
use host_types::{Index, Time};

/// What the table tells of an open session.
#[derive(Clone, Copy, Debug, PartialEq, Eq)]
pub struct SessionView {
    /// It is due once it wasn't heard of for longer than this.
    pub timeout: u64,
    /// The time of its register entry or its last keep-alive.
    pub last_time: Time,
    /// The sequence of its last command.
    pub seq: u64,
    /// The replies up to this sequence are acknowledged.
    pub acked_seq: u64,
    /// The batches up to this event are acknowledged.
    pub acked_event: Index,
    /// The batches up to this event were confirmed directly, or acknowledged. It is at least `acked_event`.
    pub confirmed: Index,
}
