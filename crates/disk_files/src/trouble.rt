// What is told of a call that failed.
use disk_model::FileId;
use host_types::LogName;
use std::io::{self, ErrorKind};
use std::{fmt, str};

/// What was asked of a file, or of the folder.
#[derive(Clone, Copy, Debug, PartialEq, Eq)]
pub(crate) enum Action {
    List,
    Open,
    Create,
    Length,
    Read,
    Write,
    Sync,
    Remove,
}

impl Action {
    fn word(self) -> &'static str {
        match self {
            Action::List => "list",
            Action::Open => "open",
            Action::Create => "create",
            Action::Length => "length",
            Action::Read => "read",
            Action::Write => "write",
            Action::Sync => "sync",
            Action::Remove => "remove",
        }
    }
}

/// A call: on a file of a log, or on the log as a whole.
#[derive(Drop)]
pub(crate) struct Call {
    pub name: LogName,
    pub id: Option<FileId>,
    pub action: Action,
}

/// Why a call of a disk failed. It is printed as the file, the call and the system's word for it, or
/// as `db is in use` where another process runs the log `db`.
#[derive(Drop)]
pub struct Trouble {
    pub(crate) call: Call,
    pub(crate) error: io::Error,
}

impl fmt::Display for Trouble {
    fn fmt<W: fmt::Write>(&self, f: &mut fmt::Formatter<W>) -> fmt::Result {
        let name = str::from_utf8(self.call.name.bytes()).unwrap_or("");
        let action = self.call.action.word();
        let error = self.error;
        if error.kind() == ErrorKind::WouldBlock {
            return write!(f, "{name} is in use");
        }
        match self.call.id {
            Some(id) => {
                let base = id.base;
                let generation = id.generation;
                write!(f, "{name}-{base}-{generation}.log: {action}: {error}")
            }
            None => write!(f, "{name}: {action}: {error}"),
        }
    }
}
