//! Why an entry couldn't be read.

ghost use Rattle.std.specs.Prelude.{◌≡◌};

use host_types::NoMemory;

/// Why bytes couldn't be read as an entry.
#[derive(Clone, Copy, Debug, PartialEq, Eq)]
pub enum ReadFault {
    /// No front of the bytes spells an entry. `at` is where the first field begins that isn't right, and the number of the
    /// bytes where a field isn't whole.
    Bad { at: usize },
    /// No memory was left.
    NoMemory,
}

/// Why a part of an entry couldn't be read.
#[derive(Clone, Copy, Debug, PartialEq, Eq)]
pub(crate) enum Unread {
    /// So many bytes are left from the start of the first field that isn't right, and none where a field isn't whole.
    Bad { left: usize },
    /// No memory was left.
    NoMemory,
}

impl From<NoMemory> for Unread {
    ghost use Rattle.entry_codec.specs.declared.fault.Unread.TheVariants as unread;

    ghost from_gives = { λ _ e. e ≡ unread.NoMemory };

    fn from(_: NoMemory) -> Self {
        Unread::NoMemory
    }
}
