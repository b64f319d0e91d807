// A runtime that counts what its files are asked to bring to the disk, and that can refuse it for a folder.
use disk_files::Lockable;
use std::alloc::{Alloc, Allocator};
use std::cell::Cell;
use std::fs::{Metadata, OpenFile, OpenOptions};
use std::io::{self, ErrorKind, Read, Seek, SeekFrom, Write};
use std::rt::Files;

/// How often files were opened and bytes and folders were synced, and whether syncs of folders fail.
#[derive(Drop)]
pub struct Counts {
    opened: Cell<u64>,
    bytes: Cell<u64>,
    folders: Cell<u64>,
    fails: Cell<bool>,
}

impl Counts {
    pub fn new() -> Counts {
        Counts {
            opened: Cell::new(0),
            bytes: Cell::new(0),
            folders: Cell::new(0),
            fails: Cell::new(false),
        }
    }

    pub fn fail(&self, fails: bool) {
        self.fails.set(fails);
    }

    /// How often a file was opened, so far.
    pub fn opened(&self) -> u64 {
        self.opened.get()
    }

    /// Syncs of bytes and of folders, so far.
    pub fn told(&self) -> (u64, u64) {
        (self.bytes.get(), self.folders.get())
    }
}

/// This runtime, with what is counted.
#[derive(Drop)]
pub struct CountedFiles<'a, R> {
    pub rt: &'a R,
    pub counts: &'a Counts,
}

#[derive(Drop)]
pub struct CountedFile<'a, F> {
    file: F,
    counts: &'a Counts,
}

impl<R: Alloc> Alloc for CountedFiles<'_, R> {
    type A = R::A;

    fn alloc(&self) -> R::A {
        self.rt.alloc()
    }
}

impl<'a, R: Files> Files for CountedFiles<'a, R> {
    type File = CountedFile<'a, R::File>;

    type Dir = R::Dir;

    fn open_file(&self, how: &OpenOptions, path: &str) -> io::Result<CountedFile<'a, R::File>> {
        let file = self.rt.open_file(how, path)?;
        self.counts
            .opened
            .set(self.counts.opened.get().saturating_add(1));
        Ok(CountedFile {
            file,
            counts: self.counts,
        })
    }

    fn open_dir(&self, path: &str) -> io::Result<R::Dir> {
        self.rt.open_dir(path)
    }

    fn metadata(&self, path: &str) -> io::Result<Metadata> {
        self.rt.metadata(path)
    }

    fn symlink_metadata(&self, path: &str) -> io::Result<Metadata> {
        self.rt.symlink_metadata(path)
    }

    fn copy(&self, from: &str, to: &str) -> io::Result<u64> {
        self.rt.copy(from, to)
    }

    fn rename(&self, from: &str, to: &str) -> io::Result<()> {
        self.rt.rename(from, to)
    }

    fn remove_file(&self, path: &str) -> io::Result<()> {
        self.rt.remove_file(path)
    }

    fn create_dir(&self, path: &str) -> io::Result<()> {
        self.rt.create_dir(path)
    }

    fn remove_dir(&self, path: &str) -> io::Result<()> {
        self.rt.remove_dir(path)
    }

    fn remove_dir_all<B: Allocator>(&self, alloc: B, path: &str) -> io::Result<()> {
        self.rt.remove_dir_all(alloc, path)
    }
}

impl<F: Read> Read for CountedFile<'_, F> {
    fn read(&mut self, buffer: &mut [u8]) -> io::Result<usize> {
        self.file.read(buffer)
    }
}

impl<F: Write> Write for CountedFile<'_, F> {
    fn write(&mut self, bytes: &[u8]) -> io::Result<usize> {
        self.file.write(bytes)
    }

    fn flush(&mut self) -> io::Result<()> {
        self.file.flush()
    }
}

impl<F: Seek> Seek for CountedFile<'_, F> {
    fn seek(&mut self, to: SeekFrom) -> io::Result<u64> {
        self.file.seek(to)
    }
}

// Its files have no locks.
impl<F> Lockable for CountedFile<'_, F> {}

impl<F: OpenFile> OpenFile for CountedFile<'_, F> {
    fn metadata(&self) -> io::Result<Metadata> {
        self.file.metadata()
    }

    fn set_len(&self, size: u64) -> io::Result<()> {
        self.file.set_len(size)
    }

    // The disk syncs only its folder so.
    fn sync_all(&self) -> io::Result<()> {
        if self.counts.fails.get() {
            return Err(io::Error::from(ErrorKind::Other));
        }
        self.counts
            .folders
            .set(self.counts.folders.get().saturating_add(1));
        self.file.sync_all()
    }

    fn sync_data(&self) -> io::Result<()> {
        self.counts
            .bytes
            .set(self.counts.bytes.get().saturating_add(1));
        self.file.sync_data()
    }
}
