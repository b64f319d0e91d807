// Files that are kept open.
use disk_model::FileId;
use host_types::LogName;

/// What an open file was used for.
#[derive(Clone, Copy, Debug, PartialEq, Eq)]
pub(crate) enum Use {
    /// It was only read.
    Read,
    /// It was made, written or synced, and has no byte that was written since its last sync.
    Settled,
    /// It was written since its last sync.
    Written,
}

/// A file that is kept open, and which one it is.
#[derive(Drop)]
pub(crate) struct OpenedFile<F> {
    pub name: LogName,
    pub id: FileId,
    pub file: F,
    pub used: Use,
}

impl<F> OpenedFile<F> {
    pub(crate) fn is_of(&self, name: &LogName, id: FileId) -> bool {
        self.id == id && self.name.bytes() == name.bytes()
    }
}

/// The file, if it is the one that is kept here; another one stays.
pub(crate) fn take_if<F>(
    kept: &mut Option<OpenedFile<F>>,
    name: &LogName,
    id: FileId,
) -> Option<OpenedFile<F>> {
    match kept {
        Some(opened) if opened.is_of(name, id) => kept.take(),
        _ => None,
    }
}
