// The disk over real files: which errors are faults, which files are kept open, and which are locked.
ghost use Rattle.std.specs.Prelude.{◌≡◌, ◌<◌, ◌≤◌, Ok, IfOk, All, false};
ghost use Rattle.disk_model.specs.Image.{IsFileId};
ghost use Rattle.disk_model.specs.View.{HasCause};
ghost use Rattle.disk_files.specs.Silence.{silence};

use crate::locks::{Lockable, Locks, in_use, lock_next, open_locked};
use crate::names::name_of;
use crate::open::{OpenedFile, Use, take_if};
use crate::steps::{list_files, open_file, read_file, sync_folder, write_file};
use crate::trouble::{Action, Call, Trouble};
use disk_model::{Disk, DiskFault, FileId};
use host_types::LogName;
use std::fs::{self, File, OpenFile};
use std::io::{self, ErrorKind};
use std::rt::Files;

/// The logs' files in the current folder. It tells nothing of what they hold.
///
/// Each error of the system counts as a fault and is answered `Failed`, with these exceptions:
/// - Where the memory for a file's name runs out, and where opening, reading, listing or asking for
///   a length runs out of memory, the answer is `NoMemory` and nothing is counted. These change
///   nothing on the disk.
/// - Where the count of faults stands at 2^64 - 1, so that it can't rise, the answer is `NoMemory` too.
///
/// Of each log that it lists or makes a file of it holds a lock, on the lowest file of the log, by a
/// handle of its own: two processes can't run one log. That another one has the lock is a fault
/// (`Failed`), which changes nothing. Where a file system has no locks it goes on without.
///
/// Two files are kept open: the one that was written, made or synced last, and one that was only
/// read. Before another file is written the former is synced, if it was written since its last sync,
/// so that no error is lost by closing it.
///
/// A sync brings the bytes and the length of its file to the disk (`fdatasync`). The folder is synced
/// too, with every creation and removal in it, but only where it has to be: at the first sync of a
/// log's files, since an earlier process may have left something of that log unsettled, and at the
/// first sync after a file was created or removed here, or may have been. Elsewhere there is no
/// creation or removal left that a sync would have to settle. Once a sync has failed, each later one
/// fails: the system may have dropped what it couldn't write, and says so only once.
pub struct FileDisk<'a, R: Files> {
    rt: &'a R,
    /// The file that was written, made or synced last.
    written: Option<OpenedFile<R::File>>,
    /// A file that was only read.
    read: Option<OpenedFile<R::File>>,
    locks: Locks<R::File>,
    /// The log whose files were synced when the folder was, if nothing was created or removed here since.
    settled: Option<LogName>,
    is_broken: bool,
    call: Option<Call>,
    trouble: Option<Trouble>,
    faults: u64,
}

impl<R: Files> Drop for FileDisk<'_, R> {
    fn drop(self) {
        let FileDisk {
            rt: _,
            written: _written,
            read: _read,
            locks: _locks,
            settled: _,
            is_broken: _,
            call: _call,
            trouble: _trouble,
            faults: _,
        } = self;
    }
}

impl<'a, R: Files + AllocGlobal> FileDisk<'a, R>
where
    R::File: Lockable,
{
    /// A disk over the files of the current folder. It takes no memory and makes no call.
    pub fn new(rt: &'a R) -> FileDisk<'a, R>
        ensures { ⟦<FileDisk<'a, R> as Disk>⟧.faults result ≡ 0 }
    {
        FileDisk {
            rt,
            written: None,
            read: None,
            locks: Locks::new(rt.alloc()),
            settled: None,
            is_broken: false,
            call: None,
            trouble: None,
            faults: 0,
        }
    }

    /// Why the last call that failed did.
    pub fn trouble(&self) -> Option<&Trouble> {
        self.trouble.as_ref()
    }

    /// Begins a call.
    fn begin(&mut self, action: Action, name: &LogName, id: Option<FileId>)
        ensures { self.new.faults ≡ self.old.faults }
    {
        self.call = Some(Call {
            name: *name,
            id,
            action,
        });
    }

    /// Counts a fault.
    fn count(&mut self) -> DiskFault
        ensures later { self.old.faults ≤ self.new.faults }
        ensures failed { result ≡ DiskFault.Failed → self.old.faults < self.new.faults }
    {
        match self.faults.checked_add(1) {
            Some(faults) => {
                self.faults = faults;
                DiskFault::Failed
            }
            None => DiskFault::NoMemory,
        }
    }

    /// Counts a fault, and keeps why the call failed.
    fn fault(&mut self, error: io::Error) -> DiskFault
        ensures later { self.old.faults ≤ self.new.faults }
        ensures failed { result ≡ DiskFault.Failed → self.old.faults < self.new.faults }
    {
        if let Some(call) = self.call.take() {
            self.trouble = Some(Trouble { call, error });
        }
        self.count()
    }

    /// The answer of a step that may have changed the disk.
    fn changed<T: Drop>(&mut self, answer: io::Result<T>) -> Result<T, DiskFault>
        ensures ok { IfOk result (λ value. answer ≡ Ok value) }
        ensures cause { HasCause self.old.faults self.new.faults result }
    {
        match answer {
            Ok(value) => Ok(value),
            Err(error) => Err(self.fault(error)),
        }
    }

    /// The answer of a step that has changed nothing on the disk.
    fn looked<T: Drop>(&mut self, answer: io::Result<T>) -> Result<T, DiskFault>
        ensures ok { IfOk result (λ value. answer ≡ Ok value) }
        ensures cause { HasCause self.old.faults self.new.faults result }
    {
        match answer {
            Ok(value) => Ok(value),
            Err(error) => {
                if error.kind() == ErrorKind::OutOfMemory {
                    return Err(DiskFault::NoMemory);
                }
                Err(self.fault(error))
            }
        }
    }

    /// The answer of a sync of bytes or of the folder.
    fn synced(&mut self, answer: io::Result<()>) -> Result<(), DiskFault>
        ensures cause { HasCause self.old.faults self.new.faults result }
    {
        if answer.is_err() {
            self.is_broken = true;
        }
        self.changed(answer)
    }

    /// The file, as it is kept open or opened now.
    fn open(&mut self, name: &LogName, id: FileId) -> Result<OpenedFile<R::File>, DiskFault>
        ensures cause { HasCause self.old.faults self.new.faults result }
    {
        if let Some(opened) = take_if(&mut self.written, name, id) {
            return Ok(opened);
        }
        if let Some(opened) = take_if(&mut self.read, name, id) {
            return Ok(opened);
        }
        let answer = open_file(self.rt, name, id);
        let file = self.looked(answer)?;
        Ok(OpenedFile {
            name: *name,
            id,
            file,
            used: Use::Read,
        })
    }

    /// The file, to be written or synced. The one that was written before is closed.
    fn open_to_write(
        &mut self,
        name: &LogName,
        id: FileId,
    ) -> Result<OpenedFile<R::File>, DiskFault>
        ensures cause { HasCause self.old.faults self.new.faults result }
    {
        let opened = self.open(name, id)?;
        self.close_written()?;
        Ok(opened)
    }

    /// Closes the file that was written last, with nothing in it that isn't synced.
    fn close_written(&mut self) -> Result<(), DiskFault>
        ensures cause { HasCause self.old.faults self.new.faults result }
    {
        match self.written.take() {
            Some(opened) if opened.used == Use::Written => {
                let answer = opened.file.sync_data();
                self.synced(answer)
            }
            _ => Ok(()),
        }
    }

    /// Keeps a file open for later calls.
    fn keep(&mut self, opened: OpenedFile<R::File>)
        ensures { self.new.faults ≡ self.old.faults }
    {
        match opened.used {
            Use::Read => self.read = Some(opened),
            Use::Settled | Use::Written => self.written = Some(opened),
        }
    }

    /// Closes a file, if it is open.
    fn forget(&mut self, name: &LogName, id: FileId)
        ensures { self.new.faults ≡ self.old.faults }
    {
        let _ = take_if(&mut self.written, name, id);
        let _ = take_if(&mut self.read, name, id);
    }

    /// Whether all creations and removals of this log's files, and of all files by this process, are on the disk.
    fn is_settled(&self, name: &LogName) -> bool {
        match &self.settled {
            Some(settled) => settled.bytes() == name.bytes(),
            None => false,
        }
    }

    /// Brings creations and removals to the disk, where some may not be there.
    fn settle(&mut self, name: &LogName) -> Result<(), DiskFault>
        ensures cause { HasCause self.old.faults self.new.faults result }
    {
        if self.is_settled(name) {
            return Ok(());
        }
        let answer = sync_folder(self.rt);
        self.synced(answer)?;
        self.settled = Some(*name);
        Ok(())
    }

    /// Takes the lock of this file of a log, in the place of the one that is held.
    fn lock(&mut self, name: &LogName, id: FileId) -> io::Result<()>
        ensures { self.new.faults ≡ self.old.faults }
    {
        let file = open_locked(self.rt, name, id)?;
        self.locks.keep(name, id, file)?;
        Ok(())
    }

    /// The files of a log, with its lock taken where there are any.
    fn files(&mut self, name: &LogName) -> Result<Vec<FileId>, DiskFault>
        ensures ids { IfOk result (λ ids. All IsFileId ids.items) }
        ensures cause { HasCause self.old.faults self.new.faults result }
    {
        let answer = list_files(self.rt, name);
        let ids = self.looked(answer)?;
        match ids.first() {
            Some(lowest) if self.locks.of(name).is_none() => {
                let lowest = *lowest;
                self.files_locked(name, lowest)
            }
            _ => Ok(ids),
        }
    }

    /// The same once more, behind the lock of the lowest: another process may have changed them before.
    fn files_locked(&mut self, name: &LogName, lowest: FileId) -> Result<Vec<FileId>, DiskFault>
        ensures ids { IfOk result (λ ids. All IsFileId ids.items) }
        ensures cause { HasCause self.old.faults self.new.faults result }
    {
        self.begin(Action::Open, name, Some(lowest));
        let answer = self.lock(name, lowest);
        self.looked(answer)?;
        self.begin(Action::List, name, None);
        let answer = list_files(self.rt, name);
        let ids = self.looked(answer)?;
        if ids.first().copied() == Some(lowest) {
            return Ok(ids);
        }
        self.locks.free(name);
        Err(self.fault(in_use()))
    }

    /// Takes the lock of a file that was made, where it is the lowest of its log. Where another
    /// process has made one meanwhile, this one is taken away again.
    fn lock_made(&mut self, name: &LogName, id: FileId, path: &str) -> io::Result<()>
        ensures { self.new.faults ≡ self.old.faults }
    {
        if let Some(lowest) = self.locks.of(name) {
            return if id < lowest {
                self.lock(name, id)
            } else {
                Ok(())
            };
        }
        self.lock(name, id)?;
        let ids = list_files(self.rt, name)?;
        if ids.len() == 1 {
            return Ok(());
        }
        self.forget(name, id);
        fs::remove_file(self.rt, path)?;
        self.locks.free(name);
        Err(in_use())
    }

    /// Removes the file whose lock is held. The lock of the lowest one that is left is taken before.
    fn remove_locked(&mut self, name: &LogName, id: FileId, path: &str) -> Result<(), DiskFault>
        ensures cause { HasCause self.old.faults self.new.faults result }
    {
        let answer = lock_next(self.rt, name, id);
        let next = self.looked(answer)?;
        self.forget(name, id);
        self.settled = None;
        let answer = fs::remove_file(self.rt, path);
        self.changed(answer)?;
        let answer = match next {
            Some((id, file)) => self.locks.keep(name, id, file),
            None => {
                self.locks.free(name);
                Ok(())
            }
        };
        self.changed(answer.map_err(io::Error::from))
    }
}

impl<'a, R: Files + AllocGlobal> Disk for FileDisk<'a, R>
where
    R::File: Lockable,
{
    ghost tells = { false };

    ghost view = { λ _. silence };

    ghost faults = { λ disk. disk.faults };

    ghost sound = { λ disk tells. absurd (Prim.cc tells) };

    fn list(&mut self, name: &LogName) -> Result<Vec<FileId>, DiskFault> {
        self.begin(Action::List, name, None);
        self.files(name)
    }

    fn create(&mut self, name: &LogName, id: FileId) -> Result<(), DiskFault> {
        self.begin(Action::Create, name, Some(id));
        self.close_written()?;
        if self.locks.of(name).is_none() {
            let _files = self.files(name)?;
        }
        let answer = name_of(self.rt.alloc(), name, id);
        let path = self.looked(answer)?;
        let answer = self.locks.reserve();
        self.looked(answer)?;
        self.settled = None;
        let answer = File::create_new(self.rt, path.as_str());
        let file = self.changed(answer)?;
        self.keep(OpenedFile {
            name: *name,
            id,
            file,
            used: Use::Settled,
        });
        let answer = self.lock_made(name, id, path.as_str());
        self.changed(answer)
    }

    fn length(&mut self, name: &LogName, id: FileId) -> Result<u64, DiskFault> {
        self.begin(Action::Length, name, Some(id));
        let opened = self.open(name, id)?;
        let answer = opened.file.metadata();
        self.keep(opened);
        let metadata = self.looked(answer)?;
        Ok(metadata.len())
    }

    fn read(
        &mut self,
        name: &LogName,
        id: FileId,
        at: u64,
        buffer: &mut [u8],
    ) -> Result<usize, DiskFault> {
        self.begin(Action::Read, name, Some(id));
        let mut opened = self.open(name, id)?;
        let answer = read_file(&mut opened.file, at, buffer);
        self.keep(opened);
        self.looked(answer)
    }

    fn write_at(
        &mut self,
        name: &LogName,
        id: FileId,
        at: u64,
        bytes: &[u8],
    ) -> Result<(), DiskFault> {
        self.begin(Action::Write, name, Some(id));
        let mut opened = self.open_to_write(name, id)?;
        let answer = write_file(&mut opened.file, at, bytes);
        opened.used = Use::Written;
        self.keep(opened);
        self.changed(answer)
    }

    fn sync(&mut self, name: &LogName, id: FileId) -> Result<(), DiskFault> {
        self.begin(Action::Sync, name, Some(id));
        if self.is_broken {
            return Err(self.count());
        }
        let mut opened = self.open_to_write(name, id)?;
        let answer = opened.file.sync_data();
        opened.used = Use::Settled;
        self.keep(opened);
        self.synced(answer)?;
        self.settle(name)
    }

    fn remove(&mut self, name: &LogName, id: FileId) -> Result<(), DiskFault> {
        self.begin(Action::Remove, name, Some(id));
        let answer = name_of(self.rt.alloc(), name, id);
        let path = self.looked(answer)?;
        if self.locks.of(name) == Some(id) {
            return self.remove_locked(name, id, path.as_str());
        }
        self.forget(name, id);
        self.settled = None;
        let answer = fs::remove_file(self.rt, path.as_str());
        self.changed(answer)
    }
}
