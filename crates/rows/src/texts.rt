// How rows spell what is long or can't stand in a line, and how such bytes are shown.
use std::alloc::{AllocError, Global};
use std::fmt::Write;

/// From how many bytes on a run of equal bytes is shown by its length.
const LONG: usize = 4;

/// Appends a text in which `%` is a number.
fn put_numbered(out: &mut String, text: &str, number: u32) -> Result<(), AllocError> {
    let mut pieces = text.split('%');
    if let Some(front) = pieces.next() {
        out.push_str(front)?;
    }
    for piece in pieces {
        write!(out, "{number}")?;
        out.push_str(piece)?;
    }
    Ok(())
}

/// Appends what stands behind a brace that opens.
fn put_opened(out: &mut String, piece: &str) -> Result<(), AllocError> {
    let (inner, rest) = piece.split_once('}').unwrap_or((piece, ""));
    let (text, count) = inner.rsplit_once('*').unwrap_or((inner, ""));
    for number in 0..count.parse().unwrap_or(0u32) {
        put_numbered(out, text, number.saturating_add(1))?;
    }
    out.push_str(rest)
}

/// The row with each `{TEXT*COUNT}` written out: so often the text, in which `%` is the number of the time, counted from 1.
pub fn written_out(alloc: Global, row: &str) -> Result<String, AllocError> {
    let mut out = String::new(alloc);
    let mut pieces = row.split('{');
    if let Some(front) = pieces.next() {
        out.push_str(front)?;
    }
    for piece in pieces {
        put_opened(&mut out, piece)?;
    }
    Ok(out)
}

/// The byte that stands behind a backslash, and what stands behind it: `xff` is that byte, `t` a tab, `r` a carriage
/// return, and `s` a space.
fn escaped(piece: &[u8]) -> (u8, &[u8]) {
    match piece {
        [b'x', high, low, rest @ ..] => {
            let mut byte = [0];
            let _ = hex::decode_to_slice([*high, *low], &mut byte);
            (byte[0], rest)
        }
        [b't', rest @ ..] => (b'\t', rest),
        [b'r', rest @ ..] => (b'\r', rest),
        [b's', rest @ ..] => (b' ', rest),
        rest => (b'\\', rest),
    }
}

/// The bytes of a text in which a backslash begins a byte that can't stand in a row.
pub fn unescaped(alloc: Global, text: &str) -> Result<Vec<u8>, AllocError> {
    let mut out = Vec::new(alloc);
    let mut pieces = text.split('\\');
    if let Some(front) = pieces.next() {
        out.extend_from_slice(front.as_bytes())?;
    }
    for piece in pieces {
        let (byte, rest) = escaped(piece.as_bytes());
        out.push(byte)?;
        out.extend_from_slice(rest)?;
    }
    Ok(out)
}

/// How a byte is shown.
#[derive(Clone, Copy)]
pub enum Shown {
    /// In hexadecimal.
    Digits,
    /// As the character that it is.
    Text,
}

fn spelled(alloc: Global, shown: Shown, byte: u8) -> Result<String, AllocError> {
    match shown {
        Shown::Digits => format!(in alloc; "{byte:02x}"),
        Shown::Text => char::from(byte).to_string(alloc),
    }
}

/// Appends bytes, of which a long run of equal ones is written as `{00*7}`.
pub fn put_bytes(
    alloc: Global,
    out: &mut String,
    shown: Shown,
    bytes: &[u8],
) -> Result<(), AllocError> {
    for run in bytes.chunk_by(|a, b| a == b) {
        let text = spelled(alloc, shown, run.first().copied().unwrap_or(0))?;
        let count = run.len();
        if count >= LONG {
            write!(out, "{{{text}*{count}}}")?;
        } else {
            for _ in 0..count {
                out.push_str(text.as_str())?;
            }
        }
    }
    Ok(())
}

/// Appends what stands behind the front of a key or a word: its bytes as a text, and the rest.
fn put_text(alloc: Global, out: &mut String, piece: &str) -> Result<(), AllocError> {
    let (numbers, rest) = piece.split_once("] }").unwrap_or((piece, ""));
    let mut bytes = Vec::new(alloc);
    for number in numbers.split(", ") {
        bytes.push(number.parse().unwrap_or(0))?;
    }
    out.push('"')?;
    put_bytes(alloc, out, Shown::Text, &bytes)?;
    out.push('"')?;
    out.push_str(rest)
}

/// What `Debug` says of a value, with keys and words as texts.
pub fn with_texts(alloc: Global, debug: &str) -> Result<String, AllocError> {
    let mut out = String::new(alloc);
    let mut pieces = debug.split("{ bytes: [");
    if let Some(front) = pieces.next() {
        out.push_str(front)?;
    }
    for piece in pieces {
        put_text(alloc, &mut out, piece)?;
    }
    Ok(out)
}
