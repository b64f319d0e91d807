// Bytes of files, read and written over.
ghost use Rattle.std.specs.Prelude.{◌≡◌, ◌≤◌, IfOk, length};
ghost use Rattle.disk_model.specs.Image.{written};
ghost use Rattle.disk_model.specs.Calls.{ReadsInto};

use std::alloc::{AllocError, Global};

/// The bytes with others over them from `at` on.
pub fn overwritten(
    alloc: Global,
    old: &[u8],
    at: usize,
    bytes: &[u8],
) -> Result<Vec<u8>, AllocError>
    requires { at ≤ length old.now }
    ensures { IfOk result (λ next. next.items ≡ written old.now at bytes.now) }
{
    let mut next = old[..at].to_vec(alloc)?;
    next.extend_from_slice(bytes)?;
    if bytes.len() < old.len() - at {
        next.extend_from_slice(&old[at + bytes.len()..])?;
    }
    Ok(next)
}

/// Copies what stands from `at` on to the front of the buffer, and says how many bytes that are.
pub fn copy_from(bytes: &[u8], at: u64, buffer: &mut [u8]) -> usize
    ensures { ReadsInto bytes.now at buffer.old buffer.new result }
{
    let at = (at as usize).min(bytes.len());
    let count = buffer.len().min(bytes.len() - at);
    buffer[..count].copy_from_slice(&bytes[at..at + count]);
    count
}
