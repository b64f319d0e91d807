// The client's side: which batches it takes.
ghost use Rattle.std.specs.Prelude.{◌≡◌};
ghost use Rattle.log_model.specs.serving.Batches.{take_batch, last_after};
ghost use Rattle.event_batches.specs.Kept.{as_batch};
ghost use Rattle.event_batches.specs.Taking.{answered};

use crate::batch::Batch;
use host_types::Index;

/// What a client says to a batch that it is offered.
#[derive(Clone, Copy, Debug, PartialEq, Eq)]
pub enum Take {
    /// It follows the last one, and is the last one now.
    Taken,
    /// It was taken before, or lies before the start.
    Repeat,
    /// One before it is missing. `last` is the last one that was taken.
    Missed { last: Index },
}

/// A client of one session's events. It knows the last batch that it took, and takes no memory.
#[derive(Clone, Copy, Debug, PartialEq, Eq)]
pub struct Client {
    last: Index,
}

impl Client {
    /// A client that has all events up to this one: its session's id, or an event of the session.
    pub fn new(last: Index) -> Client
        ensures { result.last ≡ last }
    {
        Client { last }
    }

    /// The last batch that it took, or where it started.
    pub fn last(&self) -> Index
        ensures { result ≡ self.now.last }
    {
        self.last
    }

    /// Takes the batch if it follows the last one. Else it is a repeat where its index is at most the last one's, and one
    /// before it was missed where not; after both the client is as before.
    pub fn take(&mut self, batch: &Batch) -> Take
        ensures answer { result ≡ answered self.old.last (take_batch self.old.last (as_batch batch.now)) }
        ensures last { self.new.last ≡ last_after self.old.last (as_batch batch.now) }
    {
        if batch.previous == self.last {
            self.last = batch.index;
            return Take::Taken;
        }
        if batch.index <= self.last {
            return Take::Repeat;
        }
        Take::Missed { last: self.last }
    }
}
