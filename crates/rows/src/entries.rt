// Rows that are bytes of an entry.
use crate::fault::RowFault;
use crate::texts::{Shown, put_bytes, with_texts};
use entry_codec::{ReadFault, read, write};
use host_types::{Entry, Index, NoMemory};
use std::alloc::{AllocError, Global};
use std::fmt::Write;

/// Whether the same is read where another byte stands behind it.
fn is_read_again(
    alloc: Global,
    front: &[u8],
    index: Index,
    entry: &Entry,
) -> Result<bool, AllocError> {
    let mut bytes = front.to_vec(alloc)?;
    bytes.push(9)?;
    let found = read(alloc, &bytes);
    let is_same = match &found {
        Ok((found_index, found_entry, size)) => {
            *found_index == index && *found_entry == *entry && *size == front.len()
        }
        Err(_) => false,
    };
    drop(found);
    Ok(is_same)
}

/// What there is to tell of an entry that isn't written as it was read, or isn't read so with a byte behind it.
fn put_faults(
    alloc: Global,
    out: &mut String,
    front: &[u8],
    index: Index,
    entry: &Entry,
) -> Result<(), RowFault> {
    let mut written = Vec::new(alloc);
    write(index, entry, &mut written)?;
    if written.as_slice() != front {
        out.push_str("but it is written ")?;
        put_bytes(alloc, out, Shown::Digits, &written)?;
        out.push('\n')?;
    }
    if !is_read_again(alloc, front, index, entry)? {
        out.push_str("but it isn't read so with a byte behind it\n")?;
    }
    Ok(())
}

/// What an entry is, with its index and its size.
fn shown(
    alloc: Global,
    bytes: &[u8],
    index: Index,
    entry: &Entry,
    size: usize,
) -> Result<String, RowFault> {
    let time = entry.time;
    let body = &entry.body;
    let debug = format!(in alloc; "index {index}, time {time}, {size} bytes: {body:?}\n")?;
    let mut text = with_texts(alloc, debug.as_str())?;
    put_faults(
        alloc,
        &mut text,
        bytes.get(..size).unwrap_or(&[]),
        index,
        entry,
    )?;
    Ok(text)
}

/// The entry that the bytes begin with, or where they are bad.
pub fn told(alloc: Global, bytes: &[u8]) -> Result<Vec<u8>, RowFault> {
    let found = read(alloc, bytes);
    let text = match &found {
        Ok((index, entry, size)) => shown(alloc, bytes, *index, entry, *size),
        Err(ReadFault::Bad { at }) => match format!(in alloc; "bad at {at}\n") {
            Ok(text) => Ok(text),
            Err(_) => Err(RowFault::NoMemory),
        },
        Err(ReadFault::NoMemory) => Err(RowFault::NoMemory),
    };
    drop(found);
    Ok(text?.into_bytes())
}
