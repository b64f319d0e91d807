// Rows that are lines of a script.
use crate::fault::RowFault;
use crate::texts::{unescaped, with_texts};
use script_text::{LineFault, read_line};
use std::alloc::{AllocError, Global};

/// What a line of a script is read as.
pub fn told(alloc: Global, text: &str) -> Result<Vec<u8>, RowFault> {
    let bytes = unescaped(alloc, text)?;
    let found = read_line(alloc, &bytes);
    let debug = match &found {
        Ok(line) => format!(in alloc; "{line:?}\n"),
        Err(LineFault::Bad) => format!(in alloc; "bad\n"),
        Err(LineFault::NoMemory) => Err(AllocError),
    };
    drop(found);
    Ok(with_texts(alloc, debug?.as_str())?.into_bytes())
}
