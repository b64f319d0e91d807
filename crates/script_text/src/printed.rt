// What is printed of an answer.
use host_types::{Event, Index, Refusal, Reply, Time};

/// An answer, as one line tells it.
#[derive(Debug, PartialEq, Eq, Drop)]
pub enum Printed {
    /// The log was opened, and has this last index.
    Opened {
        last: Index,
    },
    /// The session was closed by this entry, because it was due.
    Expired {
        index: Index,
        session: Index,
    },
    /// A session was opened, which is named by its entry's index.
    Session {
        index: Index,
    },
    /// The offer is stored and has no reply.
    Done {
        index: Index,
    },
    /// The command is stored under this index.
    Replied {
        index: Index,
        reply: Reply,
    },
    /// The command was stored before. This was its reply.
    Repeat {
        reply: Reply,
    },
    /// What a looking operation found.
    Answer {
        reply: Reply,
    },
    /// An event that the client of this session took: it came with this index, and the one before with the previous.
    Event {
        session: Index,
        index: Index,
        previous: Index,
        event: Event,
    },
    /// There is no batch for the client of this session.
    Nothing {
        session: Index,
    },
    /// The client has the events up to `last`, and what is left for it follows those up to `after`.
    Missed {
        session: Index,
        last: Index,
        after: Index,
    },
    /// The global index was set.
    Global {
        index: Index,
    },
    /// A minor compaction of the indexes from `base` to `last` left this many entries.
    Minor {
        base: Index,
        last: Index,
        kept: u64,
        cut: Index,
    },
    /// A major compaction of the indexes from `base` to `last` left this many entries.
    Major {
        base: Index,
        last: Index,
        kept: u64,
        cut: Index,
        floor: Index,
    },
    /// A part of the log, from `base` to `last`, and how many entries it has. A part without indexes has `last + 1` as
    /// its base.
    Part {
        base: Index,
        last: Index,
        kept: u64,
        cut: Index,
        floor: Index,
    },
    /// How many entries the log has, of how many indexes.
    Total {
        kept: u64,
        count: u64,
    },
    /// All events up to this index were acknowledged.
    Quiet {
        index: Index,
    },
    /// What a generated script did.
    Made {
        lines: u64,
        stored: u64,
        refused: u64,
        kept: u64,
        count: u64,
    },
    /// A log was brought from one last index to another by so many entries.
    Follow {
        from: Index,
        to: Index,
        sent: u64,
    },
    /// The offer wasn't taken.
    Refused(Refusal),
    /// The global index is `now` and mustn't fall.
    Falls {
        now: Index,
    },
    /// The global index mustn't pass the log's last one.
    Past {
        last: Index,
    },
    /// A rewriting into the file of this generation is under way.
    Busy {
        generation: u64,
    },
    /// No part begins at this index.
    NoSegment {
        base: Index,
    },
    /// No rewriting is under way.
    Idle,
}
