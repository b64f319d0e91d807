// The names of files, written and read.
ghost use Rattle.std.specs.Prelude.{◌≡◌, ◌≤◌, ℕ, Some, IfOk, IfSome, string_bytes, bytes_eq};
ghost use Rattle.disk_model.specs.Image.{IsFileId};
ghost use Rattle.disk_model.specs.declared.file_id.FileId.{FileId as Id};
ghost use Rattle.disk_files.specs.Names.{IsNumber, ending, file_name, log_kind};

use disk_model::FileId;
use host_types::LogName;
use std::alloc::Global;
use std::io::{self, ErrorKind};
use std::str;

/// The greatest base, and the greatest generation.
const LIMIT: u64 = 281474976710655;

/// The name of a file.
pub(crate) fn name_of(alloc: Global, name: &LogName, id: FileId) -> io::Result<String>
    ensures { IfOk result (λ text. string_bytes text ≡ file_name name.now id) }
{
    let Ok(name) = str::from_utf8(name.bytes()) else {
        return Err(io::Error::from(ErrorKind::InvalidFilename));
    };
    let base = id.base;
    let generation = id.generation;
    Ok(format!(in alloc; "{name}-{base}-{generation}.log")?)
}

/// A number of a file's name: 1 to the limit, with no sign and no zero before it.
fn number(text: &str) -> Option<u64>
    ensures reads { IfSome result (λ n. IsNumber n text.now) }
    ensures every { (n : ℕ) → IsNumber n text.now → result ≡ Some n }
{
    let first = text.as_bytes().first().copied().unwrap_or(0);
    if first <= b'0' {
        return None;
    }
    let value = text.parse::<u64>().ok()?;
    if value > LIMIT { None } else { Some(value) }
}

fn is_log(kind: &str) -> bool
    ensures { result ≡ bytes_eq kind.now log_kind }
{
    kind == "log"
}

/// The id that stands behind the log's name.
fn id_in(text: &str) -> Option<FileId>
    ensures reads { IfSome result (λ id. IsFileId id × (text.now ≡ ending id)) }
    ensures every { (id : Id) → IsFileId id → text.now ≡ ending id → result ≡ Some id }
{
    let numbers = text.strip_prefix('-')?;
    let (base, rest) = numbers.split_once('-')?;
    let (generation, kind) = rest.split_once('.')?;
    if !is_log(kind) {
        return None;
    }
    let base = number(base)?;
    let generation = number(generation)?;
    Some(FileId { base, generation })
}

/// The id of a file of this log, exactly where its name is one that is written for this log.
pub(crate) fn id_of(name: &LogName, file: &str) -> Option<FileId>
    ensures reads { IfSome result (λ id. IsFileId id × (file.now ≡ file_name name.now id)) }
    ensures every { (id : Id) → IsFileId id → file.now ≡ file_name name.now id → result ≡ Some id }
{
    let rest = file.as_bytes().strip_prefix(name.bytes())?;
    match str::from_utf8(rest) {
        Ok(text) => id_in(text),
        Err(_) => None,
    }
}

/// A law: no file is of two logs, since no log's name has the '-' that stands behind it.
pub fn files_are_of_one_log(one: &LogName, other: &LogName)
    ensures { (i j : Id) → file_name one.now i ≡ file_name other.now j → one.now ≡ other.now }
{
    // Both are names.
    let _lengths = (one.bytes().len(), other.bytes().len());
}
