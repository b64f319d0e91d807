// The name of a log. Contracts see it as its bytes.
ghost use Rattle.std.specs.Prelude.{◌≡◌};
ghost use Rattle.host_types.specs.Name.{IsName, first_bad, named};

use std::marker::Model;

const LIMIT: usize = 32;

/// Why bytes are no name of a log. The first of these that applies is told.
#[derive(Clone, Copy, Debug, PartialEq, Eq)]
pub enum NameFault {
    /// There is no byte.
    Empty,
    /// There are more than 32 bytes.
    TooLong,
    /// The byte at this place is the first that is neither `a` to `z` nor `0` to `9`.
    BadByte { at: usize },
}

/// The name of a log: 1 to 32 bytes of `a` to `z` and `0` to `9`. The files of a log begin with it.
#[derive(Clone, Copy)]
pub struct LogName {
    bytes: [u8; 32],
    len: usize,
}

impl Model for LogName {
    ghost use Rattle.std.specs.Prelude.{◌≡◌, ◌+◌, ◌-◌, ◌++◌, ◌≤◌, List, ℕ, length, take, drop, replicate};

    ghost Value = { List ℕ };

    ghost use Rattle.host_types.specs.Name.{IsName};
    ghost use Rattle.host_types.specs.Padding.{IsPadded, padded, padded_back};

    ghost view = { λ n. take n.len n.bytes };

    ghost invariant = { λ n. IsPadded n × IsName (take n.len n.bytes) };

    ghost inverse = { padded };

    ghost inverse_ok = { λ n is. padded_back n is.0 };
}

/// The place of the first byte that a name may not have.
fn bad_byte(bytes: &[u8]) -> Option<usize>
    ensures { result ≡ first_bad bytes.now }
{
    bytes.iter().position(|byte| !(byte.is_ascii_lowercase() || byte.is_ascii_digit()))
}

impl LogName {
    /// The name that these bytes are. It takes no memory.
    pub fn new(bytes: &[u8]) -> Result<LogName, NameFault>
        ensures { result ≡ named bytes.now }
    {
        if bytes.is_empty() {
            return Err(NameFault::Empty);
        }
        if bytes.len() > LIMIT {
            return Err(NameFault::TooLong);
        }
        if let Some(at) = bad_byte(bytes) {
            return Err(NameFault::BadByte { at });
        }
        let mut all = [0u8; 32];
        all[..bytes.len()].copy_from_slice(bytes);
        Ok(LogName {
            bytes: all,
            len: bytes.len(),
        })
    }

    /// Its bytes.
    pub fn bytes(&self) -> &[u8]
        ensures bytes { result.now ≡ self.now }
        ensures name { IsName result.now }
    {
        &self.bytes[..self.len]
    }
}
