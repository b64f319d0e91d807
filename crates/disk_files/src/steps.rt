// What a call does to the files, with the system's own errors.
ghost use Rattle.std.specs.Prelude.{◌≡◌, ◌≢◌, ◌≤◌, [], ◌∷◌, ◌++◌, length, IfOk, OnOk, All, IsSorted};
ghost use Rattle.disk_model.specs.Image.{IsFileId};
ghost use Rattle.disk_model.specs.declared.file_id.FileId.{FileId as Id};
ghost use Rattle.disk_files.specs.Names.{file_name};

use crate::names::{id_of, name_of};
use disk_model::FileId;
use host_types::LogName;
use std::alloc::AllocError;
use std::fs::{self, OpenFile, OpenOptions};
use std::io::{self, ErrorKind, Read, Seek, SeekFrom, Write};
use std::rt::Files;

/// Opens a file to be read and written.
pub(crate) fn open_file<R: Files + AllocGlobal>(
    rt: &R,
    name: &LogName,
    id: FileId,
) -> io::Result<R::File> {
    let path = name_of(rt.alloc(), name, id)?;
    OpenOptions::new()
        .read(true)
        .write(true)
        .open(rt, path.as_str())
}

/// Fills the buffer with what stands from `at` on, or its front where the file ends before, and
/// answers how many bytes that are.
pub(crate) fn read_file<F: Read + Seek>(
    file: &mut F,
    at: u64,
    buffer: &mut [u8],
) -> io::Result<usize>
    ensures { IfOk result (λ n. n ≤ length buffer.old) }
{
    file.seek(SeekFrom::Start(at))?;
    let mut done = 0;
    for _ in 0..u64::MAX {
        if done >= buffer.len() {
            break;
        }
        match file.read(&mut buffer[done..]) {
            Ok(0) => break,
            Ok(count) => done += count,
            Err(error) => {
                if error.kind() != ErrorKind::Interrupted {
                    return Err(error);
                }
            }
        }
    }
    Ok(done)
}

/// Writes all of the bytes from `at` on.
pub(crate) fn write_file<F: Write + Seek>(file: &mut F, at: u64, bytes: &[u8]) -> io::Result<()> {
    file.seek(SeekFrom::Start(at))?;
    file.write_all(bytes)
}

/// Brings the names of the folder to the disk: which files there are.
pub(crate) fn sync_folder<R: Files>(rt: &R) -> io::Result<()> {
    let folder = fs::open(rt, ".")?;
    folder.sync_all()
}

/// Adds a file's id, where it is one of this log's.
fn add_file(ids: &mut Vec<FileId>, name: &LogName, file: &str) -> Result<(), AllocError>
    requires { All IsFileId ids.old.items }
    ensures ids { OnOk result (All IsFileId ids.new.items) }
    ensures adds { (id : Id) → IsFileId id → file.now ≡ file_name name.now id → OnOk result (ids.new.items ≡ ids.old.items ++ id ∷ []) }
    ensures others { ((id : Id) → IsFileId id → file.now ≢ file_name name.now id) → ids.new.items ≡ ids.old.items }
{
    match id_of(name, file) {
        Some(id) => ids.push(id).map_err(AllocError::from),
        None => Ok(()),
    }
}

/// The files of this log, rising by base and then generation.
pub(crate) fn list_files<R: Files + AllocGlobal>(rt: &R, name: &LogName) -> io::Result<Vec<FileId>>
    ensures ids { IfOk result (λ ids. All IsFileId ids.items) }
    ensures rising { IfOk result (λ ids. IsSorted ⟦<FileId as Ord>⟧.cmp ids.items) }
{
    let mut ids = Vec::new(rt.alloc());
    let files = &rt;
    for entry in fs::read_dir(files, ".")? {
        match entry {
            Ok(entry) => {
                add_file(&mut ids, name, entry.file_name())?;
            }
            Err(error) => {
                // A name that isn't UTF-8 is none of a log's.
                if error.kind() != ErrorKind::InvalidFilename {
                    return Err(error);
                }
            }
        }
    }
    ids.sort()?;
    Ok(ids)
}
