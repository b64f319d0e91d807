// Reads single words of a line: numbers, keys, words and kinds.
ghost use Rattle.std.specs.Prelude.{◌≡◌};
ghost use Rattle.script_text.specs.Faults.{Reads};
ghost use Rattle.script_text.specs.Kinds.{kind_named};
ghost use Rattle.script_text.specs.Reading.{number_from, number, positive, negative, signed, key, word};

use crate::line::LineFault;
use host_types::{Key, Kind, Word};
use std::alloc::Global;

/// The number that these digits make, up to the greatest of 64 bits.
fn digits(bytes: &[u8]) -> Option<u64>
    ensures { result ≡ number_from 0 bytes.now }
{
    let mut n: u64 = 0;
    for byte in bytes {
        if !byte.is_ascii_digit() {
            return None;
        }
        n = n.checked_mul(10)?.checked_add(u64::from(*byte - b'0'))?;
    }
    Some(n)
}

/// The number that these bytes are, if they are one: decimal, without leading zeros, up to the greatest of 64 bits.
pub fn number_of(bytes: &[u8]) -> Option<u64>
    ensures { result ≡ number bytes.now }
{
    if bytes.is_empty() || (bytes.len() > 1 && bytes[0] == b'0') {
        return None;
    }
    digits(bytes)
}

/// A number: decimal, without leading zeros.
pub fn read_number(text: &str) -> Result<u64, LineFault>
    ensures { Reads result (number text.now) }
{
    number_of(text.as_bytes()).ok_or(LineFault::Bad)
}

/// A number of this size.
fn above_zero(size: u64) -> Option<i64>
    ensures { result ≡ positive size }
{
    if size > 0x7FFF_FFFF_FFFF_FFFF {
        return None;
    }
    Some(size as i64)
}

/// A number below zero of this size.
fn below_zero(size: u64) -> Option<i64>
    ensures { result ≡ negative size }
{
    if size == 0 || size > 0x8000_0000_0000_0000 {
        return None;
    }
    Some(-1 - (size - 1) as i64)
}

fn signed_of(bytes: &[u8]) -> Option<i64>
    ensures { result ≡ signed bytes.now }
{
    match bytes {
        [b'-', size @ ..] => below_zero(number_of(size)?),
        _ => above_zero(number_of(bytes)?),
    }
}

/// A number with its sign. Zero has none.
pub fn read_signed(text: &str) -> Result<i64, LineFault>
    ensures { Reads result (signed text.now) }
{
    signed_of(text.as_bytes()).ok_or(LineFault::Bad)
}

/// A key, or the name of a resource.
pub fn read_key(alloc: Global, text: &str) -> Result<Key, LineFault>
    ensures { Reads result (key text.now) }
{
    Ok(Key::new(alloc, text.as_bytes())?)
}

/// A word that is stored, queued or told.
pub fn read_word(alloc: Global, text: &str) -> Result<Word, LineFault>
    ensures { Reads result (word text.now) }
{
    Ok(Word::new(alloc, text.as_bytes())?)
}

/// The kind of a resource.
pub fn read_kind(text: &str) -> Result<Kind, LineFault>
    ensures { Reads result (kind_named text.now) }
{
    match text {
        "value" => Ok(Kind::Value),
        "counter" => Ok(Kind::Counter),
        "map" => Ok(Kind::Map),
        "multimap" => Ok(Kind::Multimap),
        "set" => Ok(Kind::Set),
        "queue" => Ok(Kind::Queue),
        "lock" => Ok(Kind::Lock),
        "group" => Ok(Kind::Group),
        "topic" => Ok(Kind::Topic),
        _ => Err(LineFault::Bad),
    }
}
