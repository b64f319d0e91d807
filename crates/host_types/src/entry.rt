// What is offered, what is stored, what is answered, and why an offer is refused.
ghost use Rattle.std.specs.Prelude.{◌≡◌, min, pos, IfOk};
ghost use Rattle.host_types.specs.declared.entry.Reply.TheVariants.{Number as Number_reply};

use crate::NoMemory;
use crate::lists::{Indexes, Words};
use crate::text::{Key, Word};

/// A place in a log. The first entry has index 1, and 281474976710655 is the greatest index. A session is named by the
/// index of its register entry, an instance of a resource by that of the entry that created it.
pub type Index = u64;

/// A time of the log, in the unit of whoever offers. Times never fall along a log.
pub type Time = u64;

/// What a named resource is.
#[derive(Clone, Copy, Debug, PartialEq, Eq)]
pub enum Kind {
    Value,
    Counter,
    Map,
    Multimap,
    Set,
    Queue,
    Lock,
    Group,
    Topic,
}

/// What somebody asks the log to take, and when.
#[derive(Debug, PartialEq, Eq, Drop)]
pub struct Offer {
    pub time: Time,
    pub ask: Ask,
}

/// What is asked.
#[derive(Debug, PartialEq, Eq, Drop)]
pub enum Ask {
    /// A new session, which is due once it wasn't heard of for longer than the timeout.
    Register {
        timeout: u64,
    },
    /// A session's keep-alive: it has the replies up to this sequence, and the batches up to this event.
    Alive {
        session: Index,
        seq: u64,
        event: Index,
    },
    /// A session's end.
    Unregister {
        session: Index,
    },
    /// Nothing but that the log's time goes on.
    Tick,
    /// A session's next command, to the resource of this name.
    Command {
        session: Index,
        seq: u64,
        name: Key,
        op: Op,
    },
}

/// An operation on a resource. Which kinds it is for, what it does and what it replies is told in `docs/script.md`.
#[derive(Debug, PartialEq, Eq, Drop)]
pub enum Op {
    Create { kind: Kind },
    Delete,
    Size,
    Clear,
    Get,
    Set { word: Word },
    GetSet { word: Word },
    Cas { old: Word, new: Word },
    Unset,
    Reset { number: i64 },
    Add { number: i64 },
    Put { key: Key, word: Word },
    PutIf { key: Key, word: Word },
    Replace { key: Key, word: Word },
    Remove { key: Key },
    GetOf { key: Key },
    RemoveOne { key: Key, word: Word },
    Count { key: Key },
    Insert { word: Word },
    Discard { word: Word },
    Has { word: Word },
    Enqueue { word: Word },
    Poll,
    Peek,
    RemoveWord { word: Word },
    Lock { id: u64 },
    Try { id: u64 },
    Unlock { id: u64 },
    Holder,
    Join { word: Word },
    Leave { member: Index },
    Members,
    Leader,
    Listen,
    Unlisten,
    Publish { word: Word },
}

/// What is stored of an offer.
#[derive(Debug, PartialEq, Eq, Drop)]
pub struct Entry {
    pub time: Time,
    pub body: Body,
}

/// What an entry does.
#[derive(Debug, PartialEq, Eq, Drop)]
pub enum Body {
    /// It opens a session, whose id is the entry's index.
    Register {
        timeout: u64,
    },
    /// It sets what a session has acknowledged, and the time it was last heard of.
    Alive {
        session: Index,
        seq: u64,
        event: Index,
    },
    /// It closes a session: by its own wish, or because it was due.
    Close {
        session: Index,
        expired: bool,
    },
    /// It sets the log's time.
    Tick,
    /// A command as it was decided: its effect and its reply, never its condition.
    Command {
        session: Index,
        seq: u64,
        effect: Effect,
        reply: Reply,
    },
}

/// A place of one instance. Cells stand in the order of these variants, and then of their fields.
#[derive(Debug, Drop)]
pub enum Cell {
    /// The only one of a value or a counter.
    One,
    /// A key of a map; in the catalog, a resource's name.
    Named(Key),
    /// A word of a set.
    Member(Word),
    /// A pair of a multimap.
    Pair(Key, Word),
    /// What the entry at this index put into a queue, or whom it let join a group.
    At(Index),
    /// A session that waits for a lock or holds it, under an id of its own choice.
    Waiter { session: Index, id: u64 },
    /// A session that listens.
    Of(Index),
}

/// What a cell holds.
#[derive(Debug, PartialEq, Eq, Drop)]
pub enum Content {
    /// Nothing but that it is there.
    Mark,
    Text(Word),
    Number(i64),
}

impl Content {
    /// The same once more.
    pub fn copy(&self) -> Result<Content, NoMemory>
        ensures { IfOk result (λ copy. copy ≡ self.now) }
    {
        Ok(match self {
            Content::Mark => Content::Mark,
            Content::Text(word) => Content::Text(word.copy()?),
            Content::Number(number) => Content::Number(*number),
        })
    }
}

/// What a command does to the cells.
#[derive(Debug, PartialEq, Eq, Drop)]
pub enum Effect {
    Nothing,
    /// A new instance, named by the entry's index, under this name.
    Create {
        name: Key,
        kind: Kind,
    },
    /// The name goes, with all cells of its instance.
    Delete {
        name: Key,
        instance: Index,
    },
    /// The cell holds this from now on, for this session or for nobody.
    Put {
        instance: Index,
        cell: Cell,
        content: Content,
        owner: Option<Index>,
    },
    /// The cell goes.
    Drop {
        instance: Index,
        cell: Cell,
    },
    /// All cells of the instance go.
    Wipe {
        instance: Index,
    },
    /// All pairs of this key go.
    WipeKey {
        instance: Index,
        key: Key,
    },
    /// Each listener is told this word.
    Tell {
        instance: Index,
        word: Word,
    },
}

/// What a command is answered.
#[derive(Debug, PartialEq, Eq, Drop)]
pub enum Reply {
    None,
    Text(Word),
    Number(i64),
    Truth(bool),
    Index(Index),
    Holder { session: Index, id: u64 },
    Words(Words),
    Indexes(Indexes),
}

impl Reply {
    /// How many there are: the number itself, or 9223372036854775807 where there are more.
    pub fn count(number: usize) -> Reply
        ensures { result ≡ Number_reply (pos (min number 9223372036854775807)) }
    {
        Reply::Number(number.min(9_223_372_036_854_775_807) as i64)
    }

    /// The same once more.
    pub fn copy(&self) -> Result<Reply, NoMemory>
        ensures { IfOk result (λ copy. copy ≡ self.now) }
    {
        Ok(match self {
            Reply::None => Reply::None,
            Reply::Text(word) => Reply::Text(word.copy()?),
            Reply::Number(number) => Reply::Number(*number),
            Reply::Truth(truth) => Reply::Truth(*truth),
            Reply::Index(index) => Reply::Index(*index),
            Reply::Holder { session, id } => Reply::Holder {
                session: *session,
                id: *id,
            },
            Reply::Words(words) => Reply::Words(words.copy()?),
            Reply::Indexes(indexes) => Reply::Indexes(indexes.copy()?),
        })
    }
}

/// What a session is told of what others did. `name` is the resource's.
#[derive(Debug, PartialEq, Eq, Drop)]
pub enum Event {
    /// A word was published to a topic.
    Message { name: Key, word: Word },
    /// The session holds the lock from now on, under this id.
    Granted { name: Key, id: u64 },
    /// Somebody joined a group as this member.
    Joined { name: Key, member: Index },
    /// This member left a group.
    Left { name: Key, member: Index },
}

impl Event {
    /// The same once more.
    pub fn copy(&self) -> Result<Event, NoMemory>
        ensures { IfOk result (λ copy. copy ≡ self.now) }
    {
        Ok(match self {
            Event::Message { name, word } => Event::Message {
                name: name.copy()?,
                word: word.copy()?,
            },
            Event::Granted { name, id } => Event::Granted {
                name: name.copy()?,
                id: *id,
            },
            Event::Joined { name, member } => Event::Joined {
                name: name.copy()?,
                member: *member,
            },
            Event::Left { name, member } => Event::Left {
                name: name.copy()?,
                member: *member,
            },
        })
    }
}

/// Why an offer isn't taken. Nothing is changed by it. Where several apply the first of them is told; `Kind` stands
/// beside `NoName`, before `Sessions`.
#[derive(Clone, Copy, Debug, PartialEq, Eq)]
pub enum Refusal {
    /// The offer's time is below the log's, which is `now`.
    Time { now: Time },
    /// This session is due at the offer's time, and no other with a lesser id.
    Due { session: Index },
    /// The session isn't open.
    NoSession { session: Index },
    /// The reply to this sequence isn't kept any more: the session acknowledged all up to `acked`.
    Forgotten { acked: u64 },
    /// The session's next sequence is `next`.
    Gap { next: u64 },
    /// The session acknowledges less than before, or what it wasn't sent. It had acknowledged these two.
    Ack { seq: u64, event: Index },
    /// No resource has this name.
    NoName,
    /// The resource is of this kind, which doesn't have the operation or isn't the one to be created.
    Kind { is: Kind },
    /// 1,024 sessions are open.
    Sessions,
    /// There are 1,024 names.
    Names,
    /// The sum is outside of 64 bits. The counter stands at `value`.
    Range { value: i64 },
    /// The log has its last index.
    LogEnd,
    /// A new file is needed, and the greatest generation is taken.
    GenEnd { generation: u64 },
}
