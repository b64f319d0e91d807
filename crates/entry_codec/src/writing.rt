// Entries to bytes.
ghost use Rattle.std.specs.Prelude.{◌≡◌, ◌≤◌, ◌+◌, [], ◌∷◌, ◌++◌, length, take, FitsSigned, OnOk, OnErr};
ghost use Rattle.std.specs.List.{flat_map, AllByRecursion};
ghost use Rattle.std.specs.Int.{w64};
ghost use Rattle.host_types.specs.Limits.{word_limit};
ghost use Rattle.entry_codec.specs.Spelled.{number_spelled, signed_spelled, text_spelled, flag_of, kind_tag, cell_spelled, content_spelled, owner_number, effect_spelled, reply_spelled, body_spelled, spelled, IsUnsigned, IsKey, IsWord, CellFits, ContentFits, EffectFits, ReplyFits, BodyFits, EntryFits};
ghost use Rattle.entry_codec.specs.Answered.{IsFront};

use host_types::{Body, Cell, Content, Effect, Entry, Index, Key, Kind, NoMemory, Reply, Word};

fn put(out: &mut Vec<u8>, bytes: &[u8]) -> Result<(), NoMemory>
    ensures ok { OnOk result (out.new.items ≡ out.old.items ++ bytes.now) }
    ensures err { OnErr result (IsFront out.old.items out.new.items) }
{
    out.extend_from_slice(bytes)?;
    Ok(())
}

fn put_byte(out: &mut Vec<u8>, byte: u8) -> Result<(), NoMemory>
    ensures ok { OnOk result (out.new.items ≡ out.old.items ++ byte ∷ []) }
    ensures err { OnErr result (IsFront out.old.items out.new.items) }
{
    put(out, &[byte])
}

#[tactic(auto, unfolding(crate::specs::Spelled::number_spelled))]
fn put_number(out: &mut Vec<u8>, number: u64) -> Result<(), NoMemory>
    ensures ok { OnOk result (out.new.items ≡ out.old.items ++ number_spelled number) }
    ensures fits { OnOk result (IsUnsigned number) }
    ensures err { OnErr result (IsFront out.old.items out.new.items) }
{
    put(out, &number.to_be_bytes())
}

#[tactic(auto, unfolding(crate::specs::Spelled::signed_spelled))]
fn put_signed(out: &mut Vec<u8>, number: i64) -> Result<(), NoMemory>
    ensures ok { OnOk result (out.new.items ≡ out.old.items ++ signed_spelled number) }
    ensures fits { OnOk result (FitsSigned w64 number) }
    ensures err { OnErr result (IsFront out.old.items out.new.items) }
{
    put(out, &number.to_be_bytes())
}

#[tactic(auto, using(crate::proofs::Fronts::front_of), unfolding(crate::specs::Spelled::text_spelled))]
fn put_text(out: &mut Vec<u8>, text: &[u8]) -> Result<(), NoMemory>
    requires { length text.now ≤ word_limit }
    ensures ok { OnOk result (out.new.items ≡ out.old.items ++ text_spelled text.now) }
    ensures err { OnErr result (IsFront out.old.items out.new.items) }
{
    put(out, &(text.len() as u16).to_be_bytes())?;
    put(out, text)
}

fn put_key(out: &mut Vec<u8>, key: &Key) -> Result<(), NoMemory>
    ensures ok { OnOk result (out.new.items ≡ out.old.items ++ text_spelled key.now) }
    ensures fits { OnOk result (IsKey key.now) }
    ensures err { OnErr result (IsFront out.old.items out.new.items) }
{
    put_text(out, key.bytes())
}

fn put_word(out: &mut Vec<u8>, word: &Word) -> Result<(), NoMemory>
    ensures ok { OnOk result (out.new.items ≡ out.old.items ++ text_spelled word.now) }
    ensures fits { OnOk result (IsWord word.now) }
    ensures err { OnErr result (IsFront out.old.items out.new.items) }
{
    put_text(out, word.bytes())
}

fn tag_of(kind: Kind) -> u8
    ensures { result ≡ kind_tag kind }
{
    match kind {
        Kind::Value => 0,
        Kind::Counter => 1,
        Kind::Map => 2,
        Kind::Multimap => 3,
        Kind::Set => 4,
        Kind::Queue => 5,
        Kind::Lock => 6,
        Kind::Group => 7,
        Kind::Topic => 8,
    }
}

#[tactic(auto, using(crate::proofs::Fronts::front_of), unfolding(crate::specs::Spelled::cell_spelled))]
fn put_cell(out: &mut Vec<u8>, cell: &Cell) -> Result<(), NoMemory>
    ensures ok { OnOk result (out.new.items ≡ out.old.items ++ cell_spelled cell.now) }
    ensures fits { OnOk result (CellFits cell.now) }
    ensures err { OnErr result (IsFront out.old.items out.new.items) }
{
    match cell {
        Cell::One => put_byte(out, 0),
        Cell::Named(key) => {
            put_byte(out, 1)?;
            put_key(out, key)
        }
        Cell::Member(word) => {
            put_byte(out, 2)?;
            put_word(out, word)
        }
        Cell::Pair(key, word) => {
            put_byte(out, 3)?;
            put_key(out, key)?;
            put_word(out, word)
        }
        Cell::At(index) => {
            put_byte(out, 4)?;
            put_number(out, *index)
        }
        Cell::Waiter { session, id } => {
            put_byte(out, 5)?;
            put_number(out, *session)?;
            put_number(out, *id)
        }
        Cell::Of(session) => {
            put_byte(out, 6)?;
            put_number(out, *session)
        }
    }
}

#[tactic(auto, using(crate::proofs::Fronts::front_of), unfolding(crate::specs::Spelled::content_spelled))]
fn put_content(out: &mut Vec<u8>, content: &Content) -> Result<(), NoMemory>
    ensures ok { OnOk result (out.new.items ≡ out.old.items ++ content_spelled content.now) }
    ensures fits { OnOk result (ContentFits content.now) }
    ensures err { OnErr result (IsFront out.old.items out.new.items) }
{
    match content {
        Content::Mark => put_byte(out, 0),
        Content::Text(word) => {
            put_byte(out, 1)?;
            put_word(out, word)
        }
        Content::Number(number) => {
            put_byte(out, 2)?;
            put_signed(out, *number)
        }
    }
}

/// The session that owns a cell, or 0 where none does.
fn number_of(owner: Option<Index>) -> u64
    ensures { result ≡ owner_number owner }
{
    match owner {
        None => 0,
        Some(session) => session,
    }
}

#[tactic(auto, using(crate::proofs::Fronts::front_of), unfolding(crate::specs::Spelled::effect_spelled))]
fn put_effect(out: &mut Vec<u8>, effect: &Effect) -> Result<(), NoMemory>
    ensures ok { OnOk result (out.new.items ≡ out.old.items ++ effect_spelled effect.now) }
    ensures fits { OnOk result (EffectFits effect.now) }
    ensures err { OnErr result (IsFront out.old.items out.new.items) }
{
    match effect {
        Effect::Nothing => put_byte(out, 0),
        Effect::Create { name, kind } => {
            put_byte(out, 1)?;
            put_key(out, name)?;
            put_byte(out, tag_of(*kind))
        }
        Effect::Delete { name, instance } => {
            put_byte(out, 2)?;
            put_key(out, name)?;
            put_number(out, *instance)
        }
        Effect::Put {
            instance,
            cell,
            content,
            owner,
        } => {
            put_byte(out, 3)?;
            put_number(out, *instance)?;
            put_cell(out, cell)?;
            put_content(out, content)?;
            put_number(out, number_of(*owner))
        }
        Effect::Drop { instance, cell } => {
            put_byte(out, 4)?;
            put_number(out, *instance)?;
            put_cell(out, cell)
        }
        Effect::Wipe { instance } => {
            put_byte(out, 5)?;
            put_number(out, *instance)
        }
        Effect::WipeKey { instance, key } => {
            put_byte(out, 6)?;
            put_number(out, *instance)?;
            put_key(out, key)
        }
        Effect::Tell { instance, word } => {
            put_byte(out, 7)?;
            put_number(out, *instance)?;
            put_word(out, word)
        }
    }
}

#[tactic(auto, using(crate::proofs::Fronts::front_of))]
fn put_words(out: &mut Vec<u8>, words: &[Word]) -> Result<(), NoMemory>
    ensures ok { OnOk result (out.new.items ≡ out.old.items ++ flat_map text_spelled words.now) }
    ensures fits { OnOk result (AllByRecursion IsWord words.now) }
    ensures err { OnErr result (IsFront out.old.items out.new.items) }
{
    for word in words {
        put_word(out, word)?;
    }
    Ok(())
}

#[tactic(auto, using(crate::proofs::Fronts::front_of))]
fn put_indexes(out: &mut Vec<u8>, indexes: &[Index]) -> Result<(), NoMemory>
    ensures ok { OnOk result (out.new.items ≡ out.old.items ++ flat_map number_spelled indexes.now) }
    ensures fits { OnOk result (AllByRecursion IsUnsigned indexes.now) }
    ensures err { OnErr result (IsFront out.old.items out.new.items) }
{
    for index in indexes {
        put_number(out, *index)?;
    }
    Ok(())
}

#[tactic(auto, using(crate::proofs::Fronts::front_of), unfolding(crate::specs::Spelled::reply_spelled))]
fn put_reply(out: &mut Vec<u8>, reply: &Reply) -> Result<(), NoMemory>
    ensures ok { OnOk result (out.new.items ≡ out.old.items ++ reply_spelled reply.now) }
    ensures fits { OnOk result (ReplyFits reply.now) }
    ensures err { OnErr result (IsFront out.old.items out.new.items) }
{
    match reply {
        Reply::None => put_byte(out, 0),
        Reply::Text(word) => {
            put_byte(out, 1)?;
            put_word(out, word)
        }
        Reply::Number(number) => {
            put_byte(out, 2)?;
            put_signed(out, *number)
        }
        Reply::Truth(truth) => {
            put_byte(out, 3)?;
            put_byte(out, flag_byte(*truth))
        }
        Reply::Index(index) => {
            put_byte(out, 4)?;
            put_number(out, *index)
        }
        Reply::Holder { session, id } => {
            put_byte(out, 5)?;
            put_number(out, *session)?;
            put_number(out, *id)
        }
        Reply::Words(words) => {
            let words = words.as_slice();
            put_byte(out, 6)?;
            put_byte(out, words.len() as u8)?;
            put_words(out, words)
        }
        Reply::Indexes(indexes) => {
            let indexes = indexes.as_slice();
            put_byte(out, 7)?;
            put_byte(out, indexes.len() as u8)?;
            put_indexes(out, indexes)
        }
    }
}

fn flag_byte(flag: bool) -> u8
    ensures { result ≡ flag_of flag }
{
    u8::from(flag)
}

#[tactic(auto, using(crate::proofs::Fronts::front_of), unfolding(crate::specs::Spelled::body_spelled))]
fn put_body(out: &mut Vec<u8>, body: &Body) -> Result<(), NoMemory>
    ensures ok { OnOk result (out.new.items ≡ out.old.items ++ body_spelled body.now) }
    ensures fits { OnOk result (BodyFits body.now) }
    ensures err { OnErr result (IsFront out.old.items out.new.items) }
{
    match body {
        Body::Register { timeout } => {
            put_byte(out, 1)?;
            put_number(out, *timeout)
        }
        Body::Alive {
            session,
            seq,
            event,
        } => {
            put_byte(out, 2)?;
            put_number(out, *session)?;
            put_number(out, *seq)?;
            put_number(out, *event)
        }
        Body::Close { session, expired } => {
            put_byte(out, 3)?;
            put_number(out, *session)?;
            put_byte(out, flag_byte(*expired))
        }
        Body::Tick => put_byte(out, 4),
        Body::Command {
            session,
            seq,
            effect,
            reply,
        } => {
            put_byte(out, 5)?;
            put_number(out, *session)?;
            put_number(out, *seq)?;
            put_effect(out, effect)?;
            put_reply(out, reply)
        }
    }
}

#[tactic(auto, using(crate::proofs::Fronts::front_of), unfolding(crate::specs::Spelled::spelled))]
fn put_entry(out: &mut Vec<u8>, index: Index, entry: &Entry) -> Result<(), NoMemory>
    ensures ok { OnOk result (out.new.items ≡ out.old.items ++ spelled index entry.now) }
    ensures fits { OnOk result (EntryFits entry.now) }
    ensures err { OnErr result (IsFront out.old.items out.new.items) }
{
    put_number(out, index)?;
    put_number(out, entry.time)?;
    put_body(out, &entry.body)
}

/// Appends the spelling of an entry at its index, as `docs/format.md` tells it. Numbers that the format doesn't allow are
/// written as they are. After an error `out` is as before.
pub fn write(index: Index, entry: &Entry, out: &mut Vec<u8>) -> Result<(), NoMemory>
    ensures ok { OnOk result (out.new.items ≡ out.old.items ++ spelled index entry.now) }
    ensures least { OnOk result (length out.old.items + 17 ≤ length out.new.items) }
    ensures most { OnOk result (length out.new.items ≤ length out.old.items + 131072) }

    // What the types of an entry keep by themselves.
    ensures fits { OnOk result (EntryFits entry.now) }

    ensures err { OnErr result (out.new.items ≡ out.old.items) }
{
    let before = out.len();
    let written = put_entry(out, index, entry);
    if written.is_err() {
        out.truncate(before);
    }
    written
}
