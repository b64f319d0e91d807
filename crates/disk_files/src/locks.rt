// One process runs a log: the one that has the lock of the log's lowest file.
ghost use Rattle.std.specs.Prelude.{◌<◌, length, IfSome};

use crate::names::name_of;
use crate::steps::{list_files, open_file};
use disk_model::FileId;
use host_types::LogName;
use std::alloc::{AllocError, Global};
use std::fs::{self, File, OpenFile, TryLockError};
use std::io::{self, ErrorKind};
use std::os::unix::fs::MetadataExt;
use std::rt::Files;

/// By this number Linux says that no lock is to be had, as on file systems that have none (`ENOLCK`).
const NO_LOCK: i32 = 37;

/// A file whose lock keeps other processes off: of two handles of one file only one has it at a time.
pub trait Lockable {
    /// Takes the lock. Where another handle has it, the error is of the kind `WouldBlock`. Where
    /// files can't be locked, nothing is taken, and the answer is `Ok`, as it is here.
    fn take_lock(&self) -> io::Result<()> {
        Ok(())
    }
}

impl Lockable for File {
    fn take_lock(&self) -> io::Result<()> {
        match self.try_lock() {
            Ok(()) => Ok(()),
            Err(TryLockError::WouldBlock) => Err(in_use()),
            Err(TryLockError::Error(error)) => {
                let has_locks = error.kind() != ErrorKind::Unsupported
                    && error.raw_os_error() != Some(NO_LOCK);
                if has_locks { Err(error) } else { Ok(()) }
            }
        }
    }
}

/// Another process runs the log.
pub(crate) fn in_use() -> io::Error {
    io::Error::from(ErrorKind::WouldBlock)
}

/// A file that was listed isn't there any more: another process is at work on the log.
fn if_gone(error: io::Error) -> io::Error {
    if error.kind() == ErrorKind::NotFound {
        return in_use();
    }
    error
}

/// Opens a file that was listed, and takes its lock.
pub(crate) fn open_locked<R: Files + AllocGlobal>(
    rt: &R,
    name: &LogName,
    id: FileId,
) -> io::Result<R::File>
where
    R::File: Lockable,
{
    let file = open_file(rt, name, id).map_err(if_gone)?;
    file.take_lock()?;
    let path = name_of(rt.alloc(), name, id)?;
    let found = fs::metadata(rt, path.as_str()).map_err(if_gone)?;
    let locked = file.metadata()?;
    if found.ino() != locked.ino() || found.dev() != locked.dev() {
        return Err(in_use());
    }
    Ok(file)
}

/// Takes the lock of the lowest file behind this one, where there is one.
pub(crate) fn lock_next<R: Files + AllocGlobal>(
    rt: &R,
    name: &LogName,
    id: FileId,
) -> io::Result<Option<(FileId, R::File)>>
where
    R::File: Lockable,
{
    for next in list_files(rt, name)? {
        if next != id {
            return Ok(Some((next, open_locked(rt, name, next)?)));
        }
    }
    Ok(None)
}

/// A file that is locked, by a handle that serves nothing else.
#[derive(Drop)]
struct LockedFile<F> {
    name: LogName,
    id: FileId,
    file: F,
}

/// The locks that are held: of each log at most one.
#[derive(Drop)]
pub(crate) struct Locks<F> {
    held: Vec<LockedFile<F>>,
}

impl<F: Drop> Locks<F> {
    pub(crate) fn new(alloc: Global) -> Locks<F> {
        Locks {
            held: Vec::new(alloc),
        }
    }

    fn at(&self, name: &LogName) -> Option<usize>
        ensures { IfSome result (λ at. at < length self.now.held.items) }
    {
        self.held
            .iter()
            .position(|locked| locked.name.bytes() == name.bytes())
    }

    /// The file of this log whose lock is held.
    pub(crate) fn of(&self, name: &LogName) -> Option<FileId> {
        let at = self.at(name)?;
        Some(self.held[at].id)
    }

    /// Makes room for one more.
    pub(crate) fn reserve(&mut self) -> io::Result<()> {
        self.held.reserve(1)?;
        Ok(())
    }

    /// Holds this lock of a log, in the place of the one that is held.
    pub(crate) fn keep(&mut self, name: &LogName, id: FileId, file: F) -> Result<(), AllocError> {
        let locked = LockedFile {
            name: *name,
            id,
            file,
        };
        match self.at(name) {
            Some(at) => self.held[at] = locked,
            None => self.held.push(locked)?,
        }
        Ok(())
    }

    /// Lets go of a log's lock.
    pub(crate) fn free(&mut self, name: &LogName) {
        if let Some(at) = self.at(name) {
            let _ = self.held.swap_remove(at);
        }
    }
}
