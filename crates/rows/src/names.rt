// Bytes as rows spell them: hexadecimal words, numbers, and names for what comes often.
use crate::fault::RowFault;
use std::alloc::{AllocError, Global};

/// Names, and the bytes that each stands for.
#[derive(Drop)]
pub struct Names {
    items: Vec<(String, Vec<u8>)>,
}

/// Appends a number in so many bytes, at most 8, the greatest first.
fn put_number(out: &mut Vec<u8>, size: &str, number: &str) -> Result<(), RowFault> {
    let (Ok(size), Ok(number)) = (size.parse::<usize>(), number.parse::<u64>()) else {
        return Err(RowFault::Bad);
    };
    match number.to_be_bytes().get(8usize.saturating_sub(size)..) {
        Some(bytes) => Ok(out.extend_from_slice(bytes)?),
        None => Err(RowFault::Bad),
    }
}

/// Appends a number, as `8:256`, or bytes in hexadecimal, as `6b76`.
fn put_word(alloc: Global, out: &mut Vec<u8>, word: &str) -> Result<(), RowFault> {
    if let Some((size, number)) = word.split_once(':') {
        return put_number(out, size, number);
    }
    match hex::decode(alloc, word) {
        Ok(bytes) => Ok(out.extend_from_slice(&bytes)?),
        Err(_) => Err(RowFault::Bad),
    }
}

impl Names {
    /// No name.
    pub fn new(alloc: Global) -> Names {
        Names {
            items: Vec::new(alloc),
        }
    }

    /// The bytes of a name, if it is one.
    fn find(&self, name: &str) -> Option<&[u8]> {
        for (known, bytes) in &self.items {
            if known.as_str() == name {
                return Some(bytes);
            }
        }
        None
    }

    fn put(&self, alloc: Global, out: &mut Vec<u8>, word: &str) -> Result<(), RowFault> {
        match self.find(word) {
            Some(bytes) => Ok(out.extend_from_slice(bytes)?),
            None => put_word(alloc, out, word),
        }
    }

    /// The bytes that these words spell, one behind the other.
    pub fn bytes(&self, alloc: Global, words: &str) -> Result<Vec<u8>, RowFault> {
        let mut out = Vec::new(alloc);
        for word in words.split_ascii_whitespace() {
            self.put(alloc, &mut out, word)?;
        }
        Ok(out)
    }

    /// Names bytes, as `tick 04`. Nothing is printed.
    pub fn define(&mut self, alloc: Global, row: &str) -> Result<Vec<u8>, RowFault> {
        let (name, words) = row.split_once(' ').unwrap_or((row, ""));
        let bytes = self.bytes(alloc, words)?;
        self.items.push((String::from_str(alloc, name)?, bytes))?;
        Ok(Vec::new(alloc))
    }
}
