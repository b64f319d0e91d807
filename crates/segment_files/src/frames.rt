// Writes frames: an open gate, a length, and so many bytes of entries.
ghost use Rattle.std.specs.Prelude.{◌≡◌, ◌++◌, ◌+◌, ◌-◌, ◌*◌, ◌≤◌, ◌<◌, ◌^◌, ℕ, List, [], ◌∷◌, length, take, IfOk, OnOk, OnErr};
ghost use Rattle.std.specs.Int.{w32, to_be_bytes};
ghost use Rattle.segment_files.specs.Contents.{body_bytes, frame_bytes, lent, places_from, shut_frame_bytes};

use crate::descriptor::put;
use entry_codec::write;
use host_types::{Entry, Index, NoMemory};

/// The most entries of a frame.
pub const FRAME_ROOM: usize = 64;

/// The greatest length of a frame's body.
pub(crate) const BODY_LIMIT: usize = 8388608;

/// What stands in front of a body: the open gate, and room for the body's length.
const HEAD: [u8; 5] = [1, 0, 0, 0, 0];

/// Begins an open frame behind the bytes that stand there: its gate, and room for the length of its body. Answers where it
/// begins. Where no memory is left `out` is as before.
pub fn begin_frame(out: &mut Vec<u8>) -> Result<usize, NoMemory>
    ensures ok { IfOk result (λ start. (start ≡ length out.old.items) × (out.new.items ≡ out.old.items ++ (1 ∷ 0 ∷ 0 ∷ 0 ∷ 0 ∷ []))) }
    ensures err { OnErr result (out.new.items ≡ out.old.items) }
{
    let start = out.len();
    out.extend_from_slice(&HEAD)?;
    Ok(start)
}

/// Puts the length of the body that stands behind the head of the frame that begins there.
pub fn end_frame(out: &mut Vec<u8>, start: usize)
    requires head { start + 5 ≤ length out.old.items }
    requires fits { length out.old.items < start + 5 + 2 ^ 32 }
    ensures { (ahead body : List ℕ) → length ahead ≡ start → out.old.items ≡ ahead ++ (1 ∷ 0 ∷ 0 ∷ 0 ∷ 0 ∷ body)
        → out.new.items ≡ ahead ++ ((1 ∷ to_be_bytes w32 (length body)) ++ body) }
{
    let size = (out.len() - start - HEAD.len()) as u32;
    put(out, start + 1, &size.to_be_bytes());
}

/// Puts entries behind what stands there, and the place of each, counted from `start`, behind the other places.
fn put_entries(
    entries: &[(Index, &Entry)],
    start: usize,
    out: &mut Vec<u8>,
    places: &mut Vec<u32>,
) -> Result<(), NoMemory>
    requires few { length entries.now ≤ 64 }
    requires start { length out.old.items ≡ start + 5 }
    ensures body { OnOk result (out.new.items ≡ out.old.items ++ body_bytes (lent entries.now)) }
    ensures places { OnOk result (places.new.items ≡ places.old.items ++ places_from 5 (lent entries.now)) }
    ensures short { OnOk result (length out.new.items ≤ start + 5 + 131072 * length entries.now) }
    ensures ahead { take start out.new.items ≡ take start out.old.items }
{
    for (index, entry) in entries {
        places.push((out.len() - start) as u32)?;
        write(*index, entry, out)?;
    }
    Ok(())
}

/// Puts a frame behind the bytes that stand there, which end at `start`.
fn put_frame(
    entries: &[(Index, &Entry)],
    start: usize,
    out: &mut Vec<u8>,
    places: &mut Vec<u32>,
) -> Result<(), NoMemory>
    requires few { length entries.now ≤ 64 }
    requires start { length out.old.items ≡ start }
    requires none { places.old.items ≡ [] }
    ensures frame { OnOk result (out.new.items ≡ out.old.items ++ frame_bytes (lent entries.now)) }
    ensures places { OnOk result (places.new.items ≡ places_from 5 (lent entries.now)) }
    ensures ahead { take start out.new.items ≡ out.old.items }
{
    begin_frame(out)?;
    put_entries(entries, start, out, places)?;
    end_frame(out, start);
    Ok(())
}

/// Puts a frame and a shut gate behind the bytes that stand there, which end at `start`.
fn put_shut_frame(
    entries: &[(Index, &Entry)],
    start: usize,
    out: &mut Vec<u8>,
    places: &mut Vec<u32>,
) -> Result<(), NoMemory>
    requires few { length entries.now ≤ 64 }
    requires start { length out.old.items ≡ start }
    requires none { places.old.items ≡ [] }
    ensures frame { OnOk result (out.new.items ≡ out.old.items ++ shut_frame_bytes (lent entries.now)) }
    ensures places { OnOk result (places.new.items ≡ places_from 5 (lent entries.now)) }
    ensures ahead { take start out.new.items ≡ out.old.items }
{
    put_frame(entries, start, out, places)?;
    out.push(0)?;
    Ok(())
}

/// Appends one open frame with these entries, 1 to 64, and the shut gate that stands behind it, as `append_frame` writes
/// them. It leaves in `places` the place of each entry, counted from the frame's gate (`docs/format.md`). Where no memory
/// is left `out` is as before, and `places` is empty.
pub fn frame(
    entries: &[(Index, &Entry)],
    out: &mut Vec<u8>,
    places: &mut Vec<u32>,
) -> Result<(), NoMemory>
    requires some { 1 ≤ length entries.now }
    requires few { length entries.now ≤ 64 }
    ensures ok { OnOk result (out.new.items ≡ out.old.items ++ shut_frame_bytes (lent entries.now)) }
    ensures places { OnOk result (places.new.items ≡ places_from 5 (lent entries.now)) }
    ensures err { OnErr result ((out.new.items ≡ out.old.items) × (places.new.items ≡ [])) }
{
    let start = out.len();
    places.clear();
    match put_shut_frame(entries, start, out, places) {
        Ok(()) => Ok(()),
        Err(NoMemory) => {
            out.truncate(start);
            places.clear();
            Err(NoMemory)
        }
    }
}
