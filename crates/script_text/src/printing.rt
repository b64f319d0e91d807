// Prints an answer as one line.
#![tactic(auto, using(crate::proofs::PrintLemmas::stays_in_front, crate::proofs::PrintLemmas::stays_further))]

ghost use Rattle.std.specs.Prelude.{◌≡◌, ◌++◌, codes, OnOk, OnErr, take, length};
ghost use Rattle.std.specs.Fmt.{decimal, signed_decimal};
ghost use Rattle.std.specs.List.{flat_map};
ghost use Rattle.script_text.specs.Kinds.{kind_word};
ghost use Rattle.script_text.specs.Printing.{HasRange, IsRange, back_text, event_text, front_text, printed_line, range_text, spaced};
ghost use Rattle.script_text.specs.Printing.{refusal_text as reason, reply_text as text_of_reply};

use crate::printed::Printed;
use host_types::{Event, Index, Key, Kind, NoMemory, Refusal, Reply, Word};
use itoa::Buffer;

/// The word of a kind.
fn kind_text(kind: Kind) -> &'static str
    ensures { result.now ≡ kind_word kind }
{
    match kind {
        Kind::Value => "value",
        Kind::Counter => "counter",
        Kind::Map => "map",
        Kind::Multimap => "multimap",
        Kind::Set => "set",
        Kind::Queue => "queue",
        Kind::Lock => "lock",
        Kind::Group => "group",
        Kind::Topic => "topic",
    }
}

/// Appends these words.
fn push_text(text: &mut Vec<u8>, words: &str) -> Result<(), NoMemory>
    ensures ok { OnOk result (text.new.items ≡ text.old.items ++ words.now) }
    ensures ahead { take (length text.old.items) text.new.items ≡ text.old.items }
{
    text.extend_from_slice(words.as_bytes())?;
    Ok(())
}

/// Appends numbers, each behind the words before it.
fn push_numbers(text: &mut Vec<u8>, parts: &[(&str, u64)]) -> Result<(), NoMemory>
    ensures ok { OnOk result (text.new.items ≡ text.old.items ++ flat_map (λ part. part.0.now ++ decimal part.1) parts.now) }
    ensures ahead { take (length text.old.items) text.new.items ≡ text.old.items }
{
    let mut digits = Buffer::new();
    for (words, number) in parts {
        text.extend_from_slice(words.as_bytes())?;
        text.extend_from_slice(digits.format(*number).as_bytes())?;
    }
    Ok(())
}

/// Appends a number that has a sign, behind the words before it.
fn push_signed(text: &mut Vec<u8>, words: &str, number: i64) -> Result<(), NoMemory>
    ensures ok { OnOk result (text.new.items ≡ text.old.items ++ (words.now ++ signed_decimal number)) }
    ensures ahead { take (length text.old.items) text.new.items ≡ text.old.items }
{
    let mut digits = Buffer::new();
    text.extend_from_slice(words.as_bytes())?;
    text.extend_from_slice(digits.format(number).as_bytes())?;
    Ok(())
}

fn push_refusal(text: &mut Vec<u8>, refusal: Refusal) -> Result<(), NoMemory>
    ensures ok { OnOk result (text.new.items ≡ text.old.items ++ reason refusal) }
    ensures ahead { take (length text.old.items) text.new.items ≡ text.old.items }
{
    match refusal {
        Refusal::Time { now } => push_numbers(text, &[("refused time ", now)]),
        Refusal::Due { session } => push_numbers(text, &[("refused due ", session)]),
        Refusal::NoSession { session } => push_numbers(text, &[("refused no session ", session)]),
        Refusal::Forgotten { acked } => push_numbers(text, &[("refused forgotten ", acked)]),
        Refusal::Gap { next } => push_numbers(text, &[("refused gap ", next)]),
        Refusal::Ack { seq, event } => push_numbers(text, &[("refused ack ", seq), (" ", event)]),
        Refusal::NoName => push_text(text, "refused no name"),
        Refusal::Kind { is } => {
            push_text(text, "refused kind ")?;
            push_text(text, kind_text(is))
        }
        Refusal::Sessions => push_text(text, "refused sessions"),
        Refusal::Names => push_text(text, "refused names"),
        Refusal::Range { value } => push_signed(text, "refused range ", value),
        Refusal::LogEnd => push_text(text, "refused log end"),
        Refusal::GenEnd { generation: _ } => push_text(text, "refused gen end"),
    }
}

/// Appends `words` and each of the words.
fn push_words(text: &mut Vec<u8>, words: &[Word]) -> Result<(), NoMemory>
    ensures ok { OnOk result (text.new.items ≡ text.old.items ++ codes "words" ++ flat_map spaced words.now) }
    ensures ahead { take (length text.old.items) text.new.items ≡ text.old.items }
{
    text.extend_from_slice(b"words")?;
    for word in words {
        text.push(b' ')?;
        text.extend_from_slice(word.bytes())?;
    }
    Ok(())
}

/// Appends `indexes` and each of the indexes.
fn push_indexes(text: &mut Vec<u8>, indexes: &[Index]) -> Result<(), NoMemory>
    ensures ok { OnOk result (text.new.items ≡ text.old.items ++ codes "indexes" ++ flat_map (λ index. spaced (decimal index)) indexes.now) }
    ensures ahead { take (length text.old.items) text.new.items ≡ text.old.items }
{
    let mut digits = Buffer::new();
    text.extend_from_slice(b"indexes")?;
    for index in indexes {
        text.push(b' ')?;
        text.extend_from_slice(digits.format(*index).as_bytes())?;
    }
    Ok(())
}

fn push_reply(text: &mut Vec<u8>, reply: &Reply) -> Result<(), NoMemory>
    ensures ok { OnOk result (text.new.items ≡ text.old.items ++ text_of_reply reply.now) }
    ensures ahead { take (length text.old.items) text.new.items ≡ text.old.items }
{
    match reply {
        Reply::None => push_text(text, "none"),
        Reply::Text(word) => {
            push_text(text, "text ")?;
            text.extend_from_slice(word.bytes())?;
            Ok(())
        }
        Reply::Number(number) => push_signed(text, "number ", *number),
        Reply::Truth(true) => push_text(text, "true"),
        Reply::Truth(false) => push_text(text, "false"),
        Reply::Index(index) => push_numbers(text, &[("index ", *index)]),
        Reply::Holder { session, id } => push_numbers(text, &[("holder ", *session), (" ", *id)]),
        Reply::Words(words) => push_words(text, words.as_slice()),
        Reply::Indexes(indexes) => push_indexes(text, indexes.as_slice()),
    }
}

/// Appends a word of the language, the name of a resource, and what belongs to it.
fn push_named(text: &mut Vec<u8>, what: &[u8], name: &Key, more: &[u8]) -> Result<(), NoMemory>
    ensures ok { OnOk result (text.new.items ≡ text.old.items ++ what.now ++ name.now ++ codes " " ++ more.now) }
    ensures ahead { take (length text.old.items) text.new.items ≡ text.old.items }
{
    text.extend_from_slice(what)?;
    text.extend_from_slice(name.bytes())?;
    text.push(b' ')?;
    text.extend_from_slice(more)?;
    Ok(())
}

fn push_event(text: &mut Vec<u8>, event: &Event) -> Result<(), NoMemory>
    ensures ok { OnOk result (text.new.items ≡ text.old.items ++ event_text event.now) }
    ensures ahead { take (length text.old.items) text.new.items ≡ text.old.items }
{
    let mut digits = Buffer::new();
    match event {
        Event::Message { name, word } => push_named(text, b"message ", name, word.bytes()),
        Event::Granted { name, id } => {
            push_named(text, b"granted ", name, digits.format(*id).as_bytes())
        }
        Event::Joined { name, member } => {
            push_named(text, b"joined ", name, digits.format(*member).as_bytes())
        }
        Event::Left { name, member } => {
            push_named(text, b"left ", name, digits.format(*member).as_bytes())
        }
    }
}

/// Appends a range of indexes, and how many entries of it are present, behind the words before it.
fn push_range(
    text: &mut Vec<u8>,
    words: &str,
    base: Index,
    last: Index,
    kept: u64,
) -> Result<(), NoMemory>
    requires { IsRange base last }
    ensures ok { OnOk result (text.new.items ≡ text.old.items ++ words.now ++ range_text base last kept) }
    ensures ahead { take (length text.old.items) text.new.items ≡ text.old.items }
{
    let count = last + 1 - base;
    push_numbers(
        text,
        &[
            (words, base),
            ("..", last),
            (" kept ", kept),
            (" of ", count),
        ],
    )
}

/// Appends the text of an answer, or of what stands before its reply or its event.
fn push_front(text: &mut Vec<u8>, answer: &Printed) -> Result<(), NoMemory>
    requires { HasRange answer.now }
    ensures ok { OnOk result (text.new.items ≡ text.old.items ++ front_text answer.now) }
    ensures ahead { take (length text.old.items) text.new.items ≡ text.old.items }
{
    match answer {
        Printed::Opened { last } => push_numbers(text, &[("open ", *last)]),
        Printed::Expired { index, session } => {
            push_numbers(text, &[("", *index), (" expired ", *session)])
        }
        Printed::Session { index } => push_numbers(text, &[("", *index), (" session ", *index)]),
        Printed::Done { index } => {
            push_numbers(text, &[("", *index)])?;
            push_text(text, " ok")
        }
        Printed::Replied { index, reply: _ } => {
            push_numbers(text, &[("", *index)])?;
            push_text(text, " ")
        }
        Printed::Repeat { reply: _ } => push_text(text, "repeat "),
        Printed::Answer { reply: _ } => push_text(text, "answer "),
        Printed::Event {
            session,
            index,
            previous,
            event: _,
        } => {
            push_numbers(
                text,
                &[
                    ("event ", *session),
                    (" at ", *index),
                    (" after ", *previous),
                ],
            )?;
            push_text(text, ": ")
        }
        Printed::Nothing { session } => push_numbers(text, &[("none ", *session)]),
        Printed::Missed {
            session,
            last,
            after,
        } => push_numbers(
            text,
            &[
                ("missed ", *session),
                (" last ", *last),
                (" after ", *after),
            ],
        ),
        Printed::Global { index } => push_numbers(text, &[("global ", *index)]),
        Printed::Minor {
            base,
            last,
            kept,
            cut,
        } => {
            push_range(text, "minor ", *base, *last, *kept)?;
            push_numbers(text, &[(" cut ", *cut)])
        }
        Printed::Major {
            base,
            last,
            kept,
            cut,
            floor,
        } => {
            push_range(text, "major ", *base, *last, *kept)?;
            push_numbers(text, &[(" cut ", *cut), (" floor ", *floor)])
        }
        Printed::Part {
            base,
            last,
            kept,
            cut,
            floor,
        } => {
            push_range(text, "part ", *base, *last, *kept)?;
            push_numbers(text, &[(" cut ", *cut), (" floor ", *floor)])
        }
        Printed::Total { kept, count } => {
            push_numbers(text, &[("total kept ", *kept), (" of ", *count)])
        }
        Printed::Quiet { index } => push_numbers(text, &[("quiet ", *index)]),
        Printed::Made {
            lines,
            stored,
            refused,
            kept,
            count,
        } => push_numbers(
            text,
            &[
                ("made ", *lines),
                (" lines, stored ", *stored),
                (", refused ", *refused),
                (", kept ", *kept),
                (" of ", *count),
            ],
        ),
        Printed::Follow { from, to, sent } => {
            push_numbers(
                text,
                &[("follow ", *from), (" to ", *to), (" sent ", *sent)],
            )
        }
        Printed::Refused(refusal) => push_refusal(text, *refusal),
        Printed::Falls { now } => push_numbers(text, &[("refused falls ", *now)]),
        Printed::Past { last } => push_numbers(text, &[("refused past ", *last)]),
        Printed::Busy { generation } => push_numbers(text, &[("refused busy ", *generation)]),
        Printed::NoSegment { base } => push_numbers(text, &[("refused no segment ", *base)]),
        Printed::Idle => push_text(text, "refused idle"),
    }
}

/// Appends what stands behind the front of an answer: its reply or its event, if it has one.
fn push_back(text: &mut Vec<u8>, answer: &Printed) -> Result<(), NoMemory>
    ensures ok { OnOk result (text.new.items ≡ text.old.items ++ back_text answer.now) }
    ensures ahead { take (length text.old.items) text.new.items ≡ text.old.items }
{
    match answer {
        Printed::Replied { index: _, reply }
        | Printed::Repeat { reply }
        | Printed::Answer { reply } => push_reply(text, reply),
        Printed::Event {
            session: _,
            index: _,
            previous: _,
            event,
        } => push_event(text, event),
        _ => Ok(()),
    }
}

/// Appends the text of an answer and a line feed. Where no memory is left, a part of it may have been appended.
fn push_line(text: &mut Vec<u8>, answer: &Printed) -> Result<(), NoMemory>
    requires { HasRange answer.now }
    ensures ok { OnOk result (text.new.items ≡ text.old.items ++ printed_line answer.now) }
    ensures ahead { take (length text.old.items) text.new.items ≡ text.old.items }
{
    push_front(text, answer)?;
    push_back(text, answer)?;
    text.push(b'\n')?;
    Ok(())
}

/// Appends the text of an answer, and a line feed. A range that it has must be one: its base is at least 1 and at most
/// one above its last index, which is no greater than 281474976710655. Where no memory is left, nothing was appended.
/// It takes memory only where `out` has no room.
pub fn print(answer: &Printed, out: &mut Vec<u8>) -> Result<(), NoMemory>
    requires { HasRange answer.now }
    ensures ok { OnOk result (out.new.items ≡ out.old.items ++ printed_line answer.now) }
    ensures err { OnErr result (out.new.items ≡ out.old.items) }
{
    let length = out.len();
    match push_line(out, answer) {
        Ok(()) => Ok(()),
        Err(NoMemory) => {
            out.truncate(length);
            Err(NoMemory)
        }
    }
}
