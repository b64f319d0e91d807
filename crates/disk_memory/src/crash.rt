// What a crash leaves.
ghost use Rattle.std.specs.Prelude.{◌≡◌, List, reverse, IfOk};
ghost use Rattle.std.specs.Option.{option_copied};
ghost use Rattle.disk_model.specs.Image.{Place, place};
ghost use Rattle.disk_memory.specs.History.{history};
ghost use Rattle.disk_memory.specs.Outcomes.{kept_after, kept_from, left, torn_here, torn_from};
ghost use Rattle.disk_model.specs.View.{EachSettled};
ghost use Rattle.disk_memory.specs.Versions.{bytes_of, image_of, version_bytes};

use crate::bytes::overwritten;
use crate::outcome::Outcome;
use crate::steps::{Kind, Step};
use crate::versions::{held_at, is_at, newest_at};
use disk_model::FileId;
use host_types::LogName;
use std::alloc::{AllocError, Global};

// What is settled at a place, and the settled bytes of the file that is listed there.
#[derive(Clone, Copy)]
struct Kept<'a> {
    settled: Option<&'a [u8]>,
    file: Option<&'a [u8]>,
}

// What is read at its place after a step.
fn bytes_after<'a>(step: &'a Step) -> Option<&'a [u8]>
    ensures { option_copied result ≡ version_bytes step.now }
{
    match &step.bytes {
        None => None,
        Some(bytes) => Some(bytes.as_slice()),
    }
}

// What a step makes of that. Only a listed file is written to, so a write never makes one.
fn kept_by<'a>(step: &'a Step, here: bool, kept: Kept<'a>) -> Kept<'a>
    ensures { record { settled = option_copied result.settled; file = option_copied result.file } ≡ kept_after here step.now.kind (version_bytes step.now) record { settled = option_copied kept.entry.settled; file = option_copied kept.entry.file } }
{
    let now = bytes_after(step);
    let Kept { settled, file } = kept;
    match (here, step.kind) {
        (true, Kind::Settled | Kind::Synced) => Kept {
            settled: now,
            file: now,
        },
        (true, Kind::Created | Kind::Removed) => Kept { settled, file: now },
        (true, Kind::Written(..)) => Kept {
            settled,
            file: file.or(now),
        },
        (false, Kind::Synced) => Kept {
            settled: file,
            file,
        },
        (false, _) => kept,
    }
}

/// What is settled at a place.
fn settled_at<'a>(steps: &'a [Step], name: &LogName, id: FileId) -> Option<&'a [u8]>
    ensures { option_copied result ≡ (kept_from (reverse steps.now) (place name.now id)).settled }
{
    let mut kept = Kept {
        settled: None,
        file: None,
    };
    for step in steps {
        kept = kept_by(step, is_at(step, name, id), kept);
    }
    kept.settled
}

// The bytes after a step, if the write that it is was torn. Each write begins within the file.
fn torn_by(
    alloc: Global,
    step: &Step,
    byte: u8,
    old: Option<Vec<u8>>,
) -> Result<Option<Vec<u8>>, AllocError>
    ensures { IfOk result (λ torn. bytes_of torn ≡ torn_here byte step.now.kind (version_bytes step.now) (bytes_of old)) }
{
    if let (Kind::Written(at, count), Some(old)) = (step.kind, old) {
        if at as usize <= old.len() {
            let mut torn = Vec::new(alloc);
            torn.resize(count, byte)?;
            return Ok(Some(overwritten(alloc, &old, at as usize, &torn)?));
        }
    }
    copy(alloc, bytes_after(step))
}

// The same bytes, owned.
fn copy(alloc: Global, bytes: Option<&[u8]>) -> Result<Option<Vec<u8>>, AllocError>
    ensures { IfOk result (λ same. bytes_of same ≡ option_copied bytes.entry) }
{
    match bytes {
        None => Ok(None),
        Some(bytes) => Ok(Some(bytes.to_vec(alloc)?)),
    }
}

/// What is read at a place, with that byte in each range that isn't settled.
fn torn_at(
    alloc: Global,
    steps: &[Step],
    name: &LogName,
    id: FileId,
    byte: u8,
) -> Result<Option<Vec<u8>>, AllocError>
    ensures { IfOk result (λ torn. bytes_of torn ≡ torn_from byte (reverse steps.now) (place name.now id)) }
{
    let mut torn = None;
    for step in steps {
        if is_at(step, name, id) {
            torn = torn_by(alloc, step, byte, torn)?;
        }
    }
    Ok(torn)
}

/// What a crash leaves at a place.
fn left_at(
    alloc: Global,
    steps: &[Step],
    name: &LogName,
    id: FileId,
    outcome: Outcome,
) -> Result<Option<Vec<u8>>, AllocError>
    ensures { IfOk result (λ bytes. bytes_of bytes ≡ left outcome steps.now (place name.now id)) }
{
    match outcome {
        Outcome::Old => copy(alloc, settled_at(steps, name, id)),
        Outcome::New => copy(alloc, held_at(steps, name, id)),
        Outcome::Torn(byte) => torn_at(alloc, steps, name, id, byte),
    }
}

/// The steps of a disk that holds what a crash leaves, all of it settled.
pub fn steps_after(alloc: Global, steps: &[Step], outcome: Outcome) -> Result<Vec<Step>, AllocError>
    ensures settled { IfOk result (λ after. EachSettled (history after.items)) }
    ensures left { IfOk result (λ after. (p : Place) → image_of after.items p ≡ left outcome steps.now p) }
{
    let mut after = Vec::new(alloc);
    for step in steps {
        if newest_at(&after, &step.name, step.id).is_none() {
            let bytes = left_at(alloc, steps, &step.name, step.id, outcome)?;
            after.push(Step {
                name: step.name,
                id: step.id,
                kind: Kind::Settled,
                bytes,
            })?;
        }
    }
    Ok(after)
}
