// What takes bytes, and how all of some bytes are given to it.
ghost use Rattle.std.specs.Prelude.{◌≡◌, ◌<◌, ◌≤◌, ◌++◌, ℕ, List, Option, Some, length, take, IfOk, OnOk, OnErr};
ghost use Rattle.script_io.specs.Streams.{HasCause};

use crate::source::Failed;

/// Where bytes go.
///
/// A sink may tell which bytes were written; the clauses on them speak of sinks that do.
/// `Failed` comes only from a call in which the sink's count of faults rose. A count that has
/// reached 2^64 - 1 stands there.
pub trait Sink {
    /// The bytes that were written, where it tells.
    ghost written: { Self → Option (List ℕ) };

    /// How often it has failed.
    ghost faults: { Self → ℕ };

    /// Takes some bytes from the front, at least one, and answers how many. `Failed` takes none;
    /// a sink that can't take any answers so.
    fn write(&mut self, bytes: &[u8]) -> Result<usize, Failed>
        requires { 0 < length bytes.now }
        ensures within { IfOk result (λ n. n ≤ length bytes.now) }
        ensures some { IfOk result (λ n. 0 < n) }
        ensures taken { (before : List ℕ) → written self.old ≡ Some before → IfOk result (λ n. written self.new ≡ Some (before ++ take n bytes.now)) }
        ensures kept { (before : List ℕ) → written self.old ≡ Some before → OnErr result (written self.new ≡ Some before) }
        ensures cause { HasCause (faults self.old) (faults self.new) result };
}

/// Writes all of the bytes. After `Failed` some of them from the front on were written, and not all.
pub fn put_all<O: Sink>(out: &mut O, bytes: &[u8]) -> Result<(), Failed>
    ensures whole { (before : List ℕ) → O.written out.old ≡ Some before → OnOk result (O.written out.new ≡ Some (before ++ bytes.now)) }
    ensures part { (before : List ℕ) → O.written out.old ≡ Some before
        → OnErr result ((n : ℕ) × (n < length bytes.now) × (O.written out.new ≡ Some (before ++ take n bytes.now))) }
    ensures cause { HasCause (O.faults out.old) (O.faults out.new) result }
{
    let mut at = 0;
    while at < bytes.len() {
        let n = out.write(&bytes[at..])?;
        at += n;
    }
    Ok(())
}
