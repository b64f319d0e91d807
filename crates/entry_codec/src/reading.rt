// Entries from bytes, from left to right.
ghost use Rattle.std.specs.Prelude.{◌≡◌, ℕ, ◌≤◌, ◌<◌, length, take, IfOk, IfErr};
ghost use Rattle.host_types.specs.declared.entry.Entry.{Entry};
ghost use Rattle.entry_codec.specs.Spelled.{IsSpelledBy};
ghost use Rattle.host_types.specs.Limits.{key_limit, word_limit, words_limit, indexes_limit};
ghost use Rattle.entry_codec.specs.Reading.{byte_at, number_at, signed_at, bounded_at, index_at, count_at, flag_at, kind_at, length_at, piece_at, unless_hidden, key_at, word_at, pair_at, waiter_at, cell_at, content_at, create_at, delete_at, owner_at, put_at, removal_at, wiped_key_at, told_at, effect_at, holder_at, words_behind, words_at, indexes_behind, indexes_at, reply_at, alive_at, close_at, command_at, body_at, entry_at, spelling, Spells};
ghost use Rattle.entry_codec.specs.Answered.{Gives, Fails, IsHidden, IsRead, IsFound, SaysNone, LiesWithin};
ghost use Rattle.host_types.specs.Text.{first_hidden};

use crate::fault::{ReadFault, Unread};
use host_types::{
    Body, Cell, Content, Effect, Entry, Index, Indexes, KEY_LIMIT, Key, Kind, Reply, WORD_LIMIT,
    Word, WordFault, Words,
};
use std::alloc::Global;

/// The greatest index that there is.
const INDEX_LIMIT: Index = 281474976710655;

/// The greatest number of words of a reply.
const WORDS_LIMIT: usize = 16;

/// The greatest number of indexes of a reply.
const INDEXES_LIMIT: usize = 64;

#[tactic(auto, unfolding(crate::specs::Reading::byte_at))]
fn byte_of(bytes: &[u8]) -> Result<(u8, &[u8]), Unread>
    ensures { Gives (λ x. (x.0, x.1.now)) result (byte_at bytes.now) }
{
    match bytes {
        [] => Err(Unread::Bad { left: 0 }),
        [byte, rest @ ..] => Ok((*byte, rest)),
    }
}

#[tactic(auto, unfolding(crate::specs::Reading::number_at))]
fn number_of(bytes: &[u8]) -> Result<(u64, &[u8]), Unread>
    ensures { Gives (λ x. (x.0, x.1.now)) result (number_at bytes.now) }
{
    if bytes.len() < 8 {
        return Err(Unread::Bad { left: 0 });
    }
    let (front, rest) = bytes.split_at(8);
    let number = u64::from_be_bytes([
        front[0], front[1], front[2], front[3], front[4], front[5], front[6], front[7],
    ]);
    Ok((number, rest))
}

#[tactic(auto, unfolding(crate::specs::Reading::signed_at))]
fn signed_of(bytes: &[u8]) -> Result<(i64, &[u8]), Unread>
    ensures { Gives (λ x. (x.0, x.1.now)) result (signed_at bytes.now) }
{
    let (number, rest) = number_of(bytes)?;
    Ok((number.cast_signed(), rest))
}

#[tactic(auto, unfolding(crate::specs::Reading::bounded_at))]
fn bounded_of(least: u64, bytes: &[u8]) -> Result<(u64, &[u8]), Unread>
    ensures { Gives (λ x. (x.0, x.1.now)) result (bounded_at least bytes.now) }
{
    let (number, rest) = number_of(bytes)?;
    if number < least || number > INDEX_LIMIT {
        return Err(Unread::Bad { left: bytes.len() });
    }
    Ok((number, rest))
}

fn index_of(bytes: &[u8]) -> Result<(Index, &[u8]), Unread>
    ensures { Gives (λ x. (x.0, x.1.now)) result (index_at bytes.now) }
{
    bounded_of(1, bytes)
}

#[tactic(auto, unfolding(crate::specs::Reading::count_at))]
fn count_of(limit: usize, bytes: &[u8]) -> Result<(u8, &[u8]), Unread>
    ensures exact { Gives (λ x. (x.0, x.1.now)) result (count_at limit bytes.now) }
    ensures most { IfOk result (λ x. x.0 ≤ limit) }
{
    let (count, rest) = byte_of(bytes)?;
    if count as usize > limit {
        return Err(Unread::Bad { left: bytes.len() });
    }
    Ok((count, rest))
}

#[tactic(auto, unfolding(crate::specs::Reading::flag_at))]
fn flag_of(bytes: &[u8]) -> Result<(bool, &[u8]), Unread>
    ensures { Gives (λ x. (x.0, x.1.now)) result (flag_at bytes.now) }
{
    let (byte, rest) = byte_of(bytes)?;
    match byte {
        0 => Ok((false, rest)),
        1 => Ok((true, rest)),
        _ => Err(Unread::Bad { left: bytes.len() }),
    }
}

#[tactic(auto, unfolding(crate::specs::Reading::kind_at))]
fn kind_of(bytes: &[u8]) -> Result<(Kind, &[u8]), Unread>
    ensures { Gives (λ x. (x.0, x.1.now)) result (kind_at bytes.now) }
{
    let (tag, rest) = byte_of(bytes)?;
    let kind = match tag {
        0 => Kind::Value,
        1 => Kind::Counter,
        2 => Kind::Map,
        3 => Kind::Multimap,
        4 => Kind::Set,
        5 => Kind::Queue,
        6 => Kind::Lock,
        7 => Kind::Group,
        8 => Kind::Topic,
        _ => return Err(Unread::Bad { left: bytes.len() }),
    };
    Ok((kind, rest))
}

#[tactic(auto, unfolding(crate::specs::Reading::length_at))]
fn length_of(limit: usize, bytes: &[u8]) -> Result<(usize, &[u8]), Unread>
    ensures exact { Gives (λ x. (x.0, x.1.now)) result (length_at limit bytes.now) }
    ensures least { IfOk result (λ x. 1 ≤ x.0) }
    ensures most { IfOk result (λ x. x.0 ≤ limit) }
{
    if bytes.len() < 2 {
        return Err(Unread::Bad { left: 0 });
    }
    let (front, rest) = bytes.split_at(2);
    let len = u16::from_be_bytes([front[0], front[1]]) as usize;
    if len < 1 || len > limit {
        return Err(Unread::Bad { left: bytes.len() });
    }
    Ok((len, rest))
}

#[tactic(auto, unfolding(crate::specs::Reading::piece_at, crate::specs::Reading::whole_at))]
/// The bytes of a key or a word, whichever they are.
fn piece_of(limit: usize, bytes: &[u8]) -> Result<(&[u8], &[u8]), Unread>
    ensures exact { Gives (λ x. (x.0.now, x.1.now)) result (piece_at limit bytes.now) }
    ensures least { IfOk result (λ x. 1 ≤ length x.0.now) }
    ensures most { IfOk result (λ x. length x.0.now ≤ limit) }
{
    let (len, rest) = length_of(limit, bytes)?;
    if rest.len() < len {
        return Err(Unread::Bad { left: 0 });
    }
    Ok(rest.split_at(len))
}

/// What is wrong with a text whose length is right.
fn hidden_in(text: &[u8], rest: &[u8], fault: WordFault) -> Unread
    requires { IsHidden text.now fault }
    ensures { Fails result (unless_hidden text.now rest.now (first_hidden text.now)) }
{
    match fault {
        WordFault::BadByte { at } => Unread::Bad {
            left: text.len() - at + rest.len(),
        },
        WordFault::NoMemory => Unread::NoMemory,
        WordFault::Empty | WordFault::TooLong => unreachable!(),
    }
}

#[tactic(auto, unfolding(crate::specs::Reading::text_at))]
fn key_of(alloc: Global, bytes: &[u8]) -> Result<(Key, &[u8]), Unread>
    ensures { Gives (λ x. (x.0, x.1.now)) result (key_at bytes.now) }
{
    let (text, rest) = piece_of(KEY_LIMIT, bytes)?;
    match Key::new(alloc, text) {
        Ok(key) => Ok((key, rest)),
        Err(fault) => Err(hidden_in(text, rest, fault)),
    }
}

#[tactic(auto, unfolding(crate::specs::Reading::text_at))]
fn word_of(alloc: Global, bytes: &[u8]) -> Result<(Word, &[u8]), Unread>
    ensures { Gives (λ x. (x.0, x.1.now)) result (word_at bytes.now) }
{
    let (text, rest) = piece_of(WORD_LIMIT, bytes)?;
    match Word::new(alloc, text) {
        Ok(word) => Ok((word, rest)),
        Err(fault) => Err(hidden_in(text, rest, fault)),
    }
}

#[tactic(auto, unfolding(crate::specs::Reading::pair_at))]
fn pair_of(alloc: Global, bytes: &[u8]) -> Result<(Cell, &[u8]), Unread>
    ensures { Gives (λ x. (x.0, x.1.now)) result (pair_at bytes.now) }
{
    let (key, rest) = key_of(alloc, bytes)?;
    let (word, rest) = word_of(alloc, rest)?;
    Ok((Cell::Pair(key, word), rest))
}

#[tactic(auto, unfolding(crate::specs::Reading::waiter_at))]
fn waiter_of(bytes: &[u8]) -> Result<(Cell, &[u8]), Unread>
    ensures { Gives (λ x. (x.0, x.1.now)) result (waiter_at bytes.now) }
{
    let (session, rest) = index_of(bytes)?;
    let (id, rest) = number_of(rest)?;
    Ok((Cell::Waiter { session, id }, rest))
}

#[tactic(auto, unfolding(crate::specs::Reading::cell_at, crate::specs::Reading::cell_behind))]
fn cell_of(alloc: Global, bytes: &[u8]) -> Result<(Cell, &[u8]), Unread>
    ensures { Gives (λ x. (x.0, x.1.now)) result (cell_at bytes.now) }
{
    let (tag, rest) = byte_of(bytes)?;
    match tag {
        0 => Ok((Cell::One, rest)),
        1 => {
            let (key, rest) = key_of(alloc, rest)?;
            Ok((Cell::Named(key), rest))
        }
        2 => {
            let (word, rest) = word_of(alloc, rest)?;
            Ok((Cell::Member(word), rest))
        }
        3 => pair_of(alloc, rest),
        4 => {
            let (index, rest) = index_of(rest)?;
            Ok((Cell::At(index), rest))
        }
        5 => waiter_of(rest),
        6 => {
            let (session, rest) = index_of(rest)?;
            Ok((Cell::Of(session), rest))
        }
        _ => Err(Unread::Bad { left: bytes.len() }),
    }
}

#[tactic(auto, unfolding(crate::specs::Reading::content_at, crate::specs::Reading::content_behind))]
fn content_of(alloc: Global, bytes: &[u8]) -> Result<(Content, &[u8]), Unread>
    ensures { Gives (λ x. (x.0, x.1.now)) result (content_at bytes.now) }
{
    let (tag, rest) = byte_of(bytes)?;
    match tag {
        0 => Ok((Content::Mark, rest)),
        1 => {
            let (word, rest) = word_of(alloc, rest)?;
            Ok((Content::Text(word), rest))
        }
        2 => {
            let (number, rest) = signed_of(rest)?;
            Ok((Content::Number(number), rest))
        }
        _ => Err(Unread::Bad { left: bytes.len() }),
    }
}

#[tactic(auto, unfolding(crate::specs::Reading::create_at))]
fn create_of(alloc: Global, bytes: &[u8]) -> Result<(Effect, &[u8]), Unread>
    ensures { Gives (λ x. (x.0, x.1.now)) result (create_at bytes.now) }
{
    let (name, rest) = key_of(alloc, bytes)?;
    let (kind, rest) = kind_of(rest)?;
    Ok((Effect::Create { name, kind }, rest))
}

#[tactic(auto, unfolding(crate::specs::Reading::delete_at))]
fn delete_of(alloc: Global, bytes: &[u8]) -> Result<(Effect, &[u8]), Unread>
    ensures { Gives (λ x. (x.0, x.1.now)) result (delete_at bytes.now) }
{
    let (name, rest) = key_of(alloc, bytes)?;
    let (instance, rest) = index_of(rest)?;
    Ok((Effect::Delete { name, instance }, rest))
}

#[tactic(auto, unfolding(crate::specs::Reading::owner_at))]
fn owner_of(bytes: &[u8]) -> Result<(Option<Index>, &[u8]), Unread>
    ensures { Gives (λ x. (x.0, x.1.now)) result (owner_at bytes.now) }
{
    let (number, rest) = bounded_of(0, bytes)?;
    let owner = if number == 0 { None } else { Some(number) };
    Ok((owner, rest))
}

#[tactic(auto, unfolding(crate::specs::Reading::put_at))]
fn put_of(alloc: Global, bytes: &[u8]) -> Result<(Effect, &[u8]), Unread>
    ensures { Gives (λ x. (x.0, x.1.now)) result (put_at bytes.now) }
{
    let (instance, rest) = index_of(bytes)?;
    let (cell, rest) = cell_of(alloc, rest)?;
    let (content, rest) = content_of(alloc, rest)?;
    let (owner, rest) = owner_of(rest)?;
    let put = Effect::Put {
        instance,
        cell,
        content,
        owner,
    };
    Ok((put, rest))
}

#[tactic(auto, unfolding(crate::specs::Reading::removal_at))]
fn removal_of(alloc: Global, bytes: &[u8]) -> Result<(Effect, &[u8]), Unread>
    ensures { Gives (λ x. (x.0, x.1.now)) result (removal_at bytes.now) }
{
    let (instance, rest) = index_of(bytes)?;
    let (cell, rest) = cell_of(alloc, rest)?;
    Ok((Effect::Drop { instance, cell }, rest))
}

#[tactic(auto, unfolding(crate::specs::Reading::wiped_key_at))]
fn wiped_key_of(alloc: Global, bytes: &[u8]) -> Result<(Effect, &[u8]), Unread>
    ensures { Gives (λ x. (x.0, x.1.now)) result (wiped_key_at bytes.now) }
{
    let (instance, rest) = index_of(bytes)?;
    let (key, rest) = key_of(alloc, rest)?;
    Ok((Effect::WipeKey { instance, key }, rest))
}

#[tactic(auto, unfolding(crate::specs::Reading::told_at))]
fn told_of(alloc: Global, bytes: &[u8]) -> Result<(Effect, &[u8]), Unread>
    ensures { Gives (λ x. (x.0, x.1.now)) result (told_at bytes.now) }
{
    let (instance, rest) = index_of(bytes)?;
    let (word, rest) = word_of(alloc, rest)?;
    Ok((Effect::Tell { instance, word }, rest))
}

#[tactic(auto, unfolding(crate::specs::Reading::effect_at, crate::specs::Reading::effect_behind))]
fn effect_of(alloc: Global, bytes: &[u8]) -> Result<(Effect, &[u8]), Unread>
    ensures { Gives (λ x. (x.0, x.1.now)) result (effect_at bytes.now) }
{
    let (tag, rest) = byte_of(bytes)?;
    match tag {
        0 => Ok((Effect::Nothing, rest)),
        1 => create_of(alloc, rest),
        2 => delete_of(alloc, rest),
        3 => put_of(alloc, rest),
        4 => removal_of(alloc, rest),
        5 => {
            let (instance, rest) = index_of(rest)?;
            Ok((Effect::Wipe { instance }, rest))
        }
        6 => wiped_key_of(alloc, rest),
        7 => told_of(alloc, rest),
        _ => Err(Unread::Bad { left: bytes.len() }),
    }
}

#[tactic(auto, unfolding(crate::specs::Reading::holder_at))]
fn holder_of(bytes: &[u8]) -> Result<(Reply, &[u8]), Unread>
    ensures { Gives (λ x. (x.0, x.1.now)) result (holder_at bytes.now) }
{
    let (session, rest) = index_of(bytes)?;
    let (id, rest) = number_of(rest)?;
    Ok((Reply::Holder { session, id }, rest))
}

/// So many words. Room is made for each as it is read, since the count may be wrong.
fn words_behind_count(alloc: Global, count: u8, bytes: &[u8]) -> Result<(Words, &[u8]), Unread>
    requires { count ≤ words_limit }
    ensures { Gives (λ x. (x.0, x.1.now)) result (words_behind count bytes.now) }
{
    let mut words = Words::new(alloc);
    let mut rest = bytes;
    for _ in 0..count {
        let (word, after) = word_of(alloc, rest)?;
        words.push(word)?;
        rest = after;
    }
    Ok((words, rest))
}

#[tactic(auto, unfolding(crate::specs::Reading::words_at))]
fn words_of(alloc: Global, bytes: &[u8]) -> Result<(Words, &[u8]), Unread>
    ensures { Gives (λ x. (x.0, x.1.now)) result (words_at bytes.now) }
{
    let (count, rest) = count_of(WORDS_LIMIT, bytes)?;
    words_behind_count(alloc, count, rest)
}

/// So many indexes. Room is made for each as it is read, since the count may be wrong.
fn indexes_behind_count(alloc: Global, count: u8, bytes: &[u8]) -> Result<(Indexes, &[u8]), Unread>
    requires { count ≤ indexes_limit }
    ensures { Gives (λ x. (x.0, x.1.now)) result (indexes_behind count bytes.now) }
{
    let mut indexes = Indexes::new(alloc);
    let mut rest = bytes;
    for _ in 0..count {
        let (index, after) = index_of(rest)?;
        indexes.push(index)?;
        rest = after;
    }
    Ok((indexes, rest))
}

#[tactic(auto, unfolding(crate::specs::Reading::indexes_at))]
fn indexes_of(alloc: Global, bytes: &[u8]) -> Result<(Indexes, &[u8]), Unread>
    ensures { Gives (λ x. (x.0, x.1.now)) result (indexes_at bytes.now) }
{
    let (count, rest) = count_of(INDEXES_LIMIT, bytes)?;
    indexes_behind_count(alloc, count, rest)
}

#[tactic(auto, unfolding(crate::specs::Reading::reply_at, crate::specs::Reading::reply_behind))]
fn reply_of(alloc: Global, bytes: &[u8]) -> Result<(Reply, &[u8]), Unread>
    ensures { Gives (λ x. (x.0, x.1.now)) result (reply_at bytes.now) }
{
    let (tag, rest) = byte_of(bytes)?;
    match tag {
        0 => Ok((Reply::None, rest)),
        1 => {
            let (word, rest) = word_of(alloc, rest)?;
            Ok((Reply::Text(word), rest))
        }
        2 => {
            let (number, rest) = signed_of(rest)?;
            Ok((Reply::Number(number), rest))
        }
        3 => {
            let (truth, rest) = flag_of(rest)?;
            Ok((Reply::Truth(truth), rest))
        }
        4 => {
            let (index, rest) = index_of(rest)?;
            Ok((Reply::Index(index), rest))
        }
        5 => holder_of(rest),
        6 => {
            let (words, rest) = words_of(alloc, rest)?;
            Ok((Reply::Words(words), rest))
        }
        7 => {
            let (indexes, rest) = indexes_of(alloc, rest)?;
            Ok((Reply::Indexes(indexes), rest))
        }
        _ => Err(Unread::Bad { left: bytes.len() }),
    }
}

#[tactic(auto, unfolding(crate::specs::Reading::alive_at))]
fn alive_of(bytes: &[u8]) -> Result<(Body, &[u8]), Unread>
    ensures { Gives (λ x. (x.0, x.1.now)) result (alive_at bytes.now) }
{
    let (session, rest) = index_of(bytes)?;
    let (seq, rest) = bounded_of(0, rest)?;
    let (event, rest) = index_of(rest)?;
    let alive = Body::Alive {
        session,
        seq,
        event,
    };
    Ok((alive, rest))
}

#[tactic(auto, unfolding(crate::specs::Reading::close_at))]
fn close_of(bytes: &[u8]) -> Result<(Body, &[u8]), Unread>
    ensures { Gives (λ x. (x.0, x.1.now)) result (close_at bytes.now) }
{
    let (session, rest) = index_of(bytes)?;
    let (expired, rest) = flag_of(rest)?;
    Ok((Body::Close { session, expired }, rest))
}

#[tactic(auto, unfolding(crate::specs::Reading::command_at))]
fn command_of(alloc: Global, bytes: &[u8]) -> Result<(Body, &[u8]), Unread>
    ensures { Gives (λ x. (x.0, x.1.now)) result (command_at bytes.now) }
{
    let (session, rest) = index_of(bytes)?;
    let (seq, rest) = index_of(rest)?;
    let (effect, rest) = effect_of(alloc, rest)?;
    let (reply, rest) = reply_of(alloc, rest)?;
    let command = Body::Command {
        session,
        seq,
        effect,
        reply,
    };
    Ok((command, rest))
}

#[tactic(auto, unfolding(crate::specs::Reading::body_at, crate::specs::Reading::body_behind))]
fn body_of(alloc: Global, bytes: &[u8]) -> Result<(Body, &[u8]), Unread>
    ensures { Gives (λ x. (x.0, x.1.now)) result (body_at bytes.now) }
{
    let (tag, rest) = byte_of(bytes)?;
    match tag {
        1 => {
            let (timeout, rest) = number_of(rest)?;
            Ok((Body::Register { timeout }, rest))
        }
        2 => alive_of(rest),
        3 => close_of(rest),
        4 => Ok((Body::Tick, rest)),
        5 => command_of(alloc, rest),
        _ => Err(Unread::Bad { left: bytes.len() }),
    }
}

#[tactic(auto, unfolding(crate::specs::Reading::entry_at))]
fn entry_of(alloc: Global, bytes: &[u8]) -> Result<(Index, Entry, &[u8]), Unread>
    ensures { Gives (λ x. ((x.0, x.1), x.2.now)) result (entry_at bytes.now) }
{
    let (index, rest) = index_of(bytes)?;
    let (time, rest) = number_of(rest)?;
    let (body, rest) = body_of(alloc, rest)?;
    Ok((index, Entry { time, body }, rest))
}

/// The index and the entry that the bytes begin with, and how many of the bytes spell them.
#[tactic(auto, unfolding(crate::specs::Reading::spelling))]
fn begin_of(alloc: Global, bytes: &[u8]) -> Result<(Index, Entry, usize), ReadFault>
    ensures { IsRead (spelling bytes.now) result }
{
    match entry_of(alloc, bytes) {
        Ok((index, entry, rest)) => Ok((index, entry, bytes.len() - rest.len())),
        Err(Unread::Bad { left }) => Err(ReadFault::Bad {
            at: bytes.len() - left,
        }),
        Err(Unread::NoMemory) => Err(ReadFault::NoMemory),
    }
}

/// The index and the entry that the bytes begin with, and how many of the bytes spell them. What follows isn't looked at.
/// One pass, which takes memory for keys, words and lists alone, as they come.
pub fn read(alloc: Global, bytes: &[u8]) -> Result<(Index, Entry, usize), ReadFault>
    // What is read is spelled so.
    ensures found { IfOk result (IsFound bytes.now) }
    // What is spelled so is read, unless no memory is left.
    ensures only { (size index : ℕ) (entry : Entry) → size ≤ length bytes.now → IsSpelledBy (take size bytes.now) index entry → IsRead (Spells index entry size) result }
    // Where the bytes are bad, none of their fronts spells any entry.
    ensures none { IfErr result (SaysNone bytes.now) }
    ensures within { IfErr result (LiesWithin (length bytes.now)) }
    // Which of both it is, and the place of the fault.
    ensures exact { IsRead (spelling bytes.now) result }
{
    begin_of(alloc, bytes)
}
