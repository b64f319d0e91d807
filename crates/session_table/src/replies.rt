// The replies that one session keeps.
ghost use Rattle.std.specs.Prelude.{◌≡◌, ◌+◌, ◌≤◌, ◌<◌, [], ◌∷◌, ◌++◌, map, nat_lt, nat_le, OnOk};
ghost use Rattle.std.specs.List.{filter, find};
ghost use Rattle.std.specs.Option.{option_map, option_copied};
ghost use Rattle.std.specs.VecDeque.{deque_len, deque_capacity};
ghost use Rattle.log_model.specs.plain.Quiet.{greatest_below};
ghost use Rattle.event_batches.specs.Rising.{AreBelow, Rises};
ghost use Rattle.session_table.specs.Replies.{with_seq, reply_indexes, reply_seqs};

use host_types::{Index, NoMemory, Reply};
use std::alloc::Global;
use std::collections::VecDeque;
use std::marker::Model;

// A reply with the sequence of its command and the index of its entry.
#[derive(Drop)]
pub(crate) struct KeptReply {
    seq: u64,
    index: Index,
    reply: Reply,
}

// The kept replies of one session: their sequences rise, and their indexes rise. Contracts see them as the model has them, and for
// how many more there is room.
#[derive(Drop)]
pub(crate) struct Replies {
    kept: VecDeque<KeptReply>,
}

impl Model for Replies {
    ghost use Rattle.session_table.specs.Replies.{Kept_replies};

    ghost Value = { Kept_replies };

    ghost use Rattle.session_table.specs.RepliesInside.{replies_shown, AreRising};

    ghost view = { replies_shown };

    ghost invariant = { AreRising };
}

impl Replies {
    pub(crate) fn new(alloc: Global) -> Replies
        ensures { result.replies ≡ [] }
    {
        Replies {
            kept: VecDeque::new(alloc),
        }
    }

    pub(crate) fn prepare(&mut self) -> Result<(), NoMemory>
        ensures ok { OnOk result (1 ≤ self.new.room) }
        ensures never_less { self.old.room ≤ self.new.room }
        ensures replies { self.new.replies ≡ self.old.replies }
    {
        self.kept.reserve(1)?;
        Ok(())
    }

    pub(crate) fn push(&mut self, seq: u64, index: Index, reply: Reply)
        requires prepared { 1 ≤ self.old.room }
        requires some_seq { 0 < seq }
        requires some_index { 0 < index }
        requires seqs { AreBelow seq (reply_seqs self.old.replies) }
        requires indexes { AreBelow index (reply_indexes self.old.replies) }
        ensures replies { self.new.replies ≡ self.old.replies ++ record { seq = seq; index = index; reply = reply } ∷ [] }
        ensures room { self.old.room ≤ self.new.room + 1 }
    {
        self.kept
            .push_back_reserved(KeptReply { seq, index, reply });
    }

    // The reply of this sequence.
    pub(crate) fn find(&self, seq: u64) -> Option<&Reply>
        ensures { option_copied result ≡ option_map (λ r. r.reply) (with_seq seq self.now.replies) }
    {
        match first_from(&self.kept, seq) {
            Some(kept) => {
                if kept.seq == seq {
                    Some(&kept.reply)
                } else {
                    None
                }
            }
            None => None,
        }
    }

    // Drops the replies up to this sequence.
    pub(crate) fn trim(&mut self, seq: u64)
        ensures replies { self.new.replies ≡ filter (λ r. nat_lt seq r.seq) self.old.replies }
        ensures room { self.old.room ≤ self.new.room }
    {
        drop_up_to(&mut self.kept, seq);
    }

    // The greatest number of at most `last` that is below every index.
    pub(crate) fn quiet(&self, last: Index) -> Index
        ensures { result ≡ greatest_below last (reply_indexes self.now.replies) }
    {
        match self.kept.front() {
            Some(kept) => last.min(kept.index - 1),
            None => last,
        }
    }
}

// The first reply with this sequence or above it.
fn first_from(kept: &VecDeque<KeptReply>, seq: u64) -> Option<&KeptReply>
    requires { Rises 0 (map (λ r. r.seq) kept.now.items) }
    ensures { option_copied result ≡ find (λ r. nat_le seq r.seq) kept.now.items }
{
    let place = kept.partition_point(|reply| reply.seq < seq);
    kept.get(place)
}

// Drops the replies up to a sequence.
fn drop_up_to(kept: &mut VecDeque<KeptReply>, seq: u64)
    requires { Rises 0 (map (λ r. r.seq) kept.old.items) }
    ensures items { kept.new.items ≡ filter (λ r. nat_lt seq r.seq) kept.old.items }
    ensures len { deque_len kept.new ≤ deque_len kept.old }
    ensures capacity { deque_capacity kept.new ≡ deque_capacity kept.old }
{
    while let Some(reply) = kept.front() {
        if reply.seq > seq {
            return;
        }
        kept.pop_front();
    }
}
