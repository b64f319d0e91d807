// What gives bytes, in order, each once.
ghost use Rattle.std.specs.Prelude.{◌≡◌, ◌≤◌, ℕ, List, Option, Some, length, IfOk, OnErr};
ghost use Rattle.script_io.specs.Streams.{HasCause, Takes};

/// A source or a sink failed. What the failed call was to move wasn't moved.
#[derive(Clone, Copy, Debug, PartialEq, Eq)]
pub struct Failed;

/// Where bytes come from.
///
/// A source may tell which bytes are left; the clauses on them speak of sources that do.
/// `Failed` comes only from a call in which the source's count of faults rose. A count that has
/// reached 2^64 - 1 stands there.
pub trait Source {
    /// The bytes that are left, where it tells.
    ghost left: { Self → Option (List ℕ) };

    /// How often it has failed.
    ghost faults: { Self → ℕ };

    /// Moves the next bytes to the front of the buffer, and answers how many. For a buffer that isn't
    /// empty, 0 comes exactly where no byte is left. `Failed` takes none; the buffer may then hold anything.
    fn read(&mut self, buffer: &mut [u8]) -> Result<usize, Failed>
        ensures within { IfOk result (λ n. n ≤ length buffer.old) }
        ensures taken { (bytes : List ℕ) → left self.old ≡ Some bytes → IfOk result (λ n. Takes bytes (left self.new) buffer.new n) }
        ensures kept { (bytes : List ℕ) → left self.old ≡ Some bytes → OnErr result (left self.new ≡ Some bytes) }
        ensures cause { HasCause (faults self.old) (faults self.new) result };
}
