// The files of a disk, as rows name and show them.
ghost use Rattle.std.specs.Prelude.{◌≡◌, IfSome};
ghost use Rattle.disk_model.specs.Image.{IsFileId};

use crate::fault::RowFault;
use crate::texts::{Shown, put_bytes};
use disk_model::{Disk, DiskFault, FileId};
use host_types::LogName;
use std::alloc::Global;
use std::fmt::Write;

/// The greatest base and generation.
const LIMIT: u64 = 281474976710655;

/// How many bytes of a file are read at once.
const WINDOW: usize = 4096;

/// The file of these numbers, if there may be one.
fn id_of(base: u64, generation: u64) -> Option<FileId>
    ensures { IfSome result IsFileId }
{
    if !(1..=LIMIT).contains(&base) || !(1..=LIMIT).contains(&generation) {
        return None;
    }
    Some(FileId { base, generation })
}

/// The file of a name, as `db-1-2.log`.
pub fn file_of(text: &str) -> Option<(LogName, FileId)>
    ensures { IfSome result (λ file. IsFileId file.1) }
{
    let (front, generation) = text.strip_suffix(".log")?.rsplit_once('-')?;
    let (name, base) = front.rsplit_once('-')?;
    let id = id_of(base.parse().ok()?, generation.parse().ok()?)?;
    Some((LogName::new(name.as_bytes()).ok()?, id))
}

/// Reads from a place of a file on, if it is listed, and says how many bytes were there.
fn look<D: Disk>(
    disk: &mut D,
    name: &LogName,
    id: FileId,
    at: u64,
    buffer: &mut [u8],
) -> Result<Option<usize>, DiskFault>
    requires { IsFileId id }
{
    let ids = disk.list(name)?;
    if !ids.contains(&id) {
        return Ok(None);
    }
    Ok(Some(disk.read(name, id, at, buffer)?))
}

/// All bytes of a file.
fn bytes_of<D: Disk>(
    alloc: Global,
    disk: &mut D,
    name: &LogName,
    id: FileId,
) -> Result<Vec<u8>, RowFault>
    requires { IsFileId id }
{
    let mut bytes = Vec::new(alloc);
    let mut buffer = [0; WINDOW];
    for _ in 0..u32::MAX {
        let count = look(disk, name, id, bytes.len() as u64, &mut buffer)?.unwrap_or(0);
        match buffer.get(..count) {
            None | Some([]) => break,
            Some(more) => bytes.extend_from_slice(more)?,
        }
    }
    Ok(bytes)
}

/// Appends a file: its name, its length, and its bytes.
fn put_file<D: Disk>(
    alloc: Global,
    out: &mut String,
    disk: &mut D,
    log: &str,
    id: FileId,
) -> Result<(), RowFault> {
    let (Ok(name), Some(id)) = (LogName::new(log.as_bytes()), id_of(id.base, id.generation)) else {
        return Err(RowFault::Bad);
    };
    let bytes = bytes_of(alloc, disk, &name, id)?;
    let FileId { base, generation } = id;
    let length = bytes.len();
    write!(out, "{log}-{base}-{generation}.log, length {length}: ")?;
    put_bytes(alloc, out, Shown::Digits, &bytes)?;
    out.push('\n')?;
    Ok(())
}

/// The files of a log, each with its length and its bytes.
pub fn files_of<D: Disk>(alloc: Global, disk: &mut D, log: &str) -> Result<Vec<u8>, RowFault> {
    let Ok(name) = LogName::new(log.as_bytes()) else {
        return Err(RowFault::Bad);
    };
    let ids = disk.list(&name)?;
    let mut out = String::new(alloc);
    for id in &ids {
        put_file(alloc, &mut out, disk, log, *id)?;
    }
    if ids.is_empty() {
        out.push_str("no files\n")?;
    }
    Ok(out.into_bytes())
}
