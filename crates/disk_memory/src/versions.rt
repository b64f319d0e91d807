// Files as a list of versions, the newest last.
ghost use Rattle.std.specs.Prelude.{◌≡◌, ◌↔◌, ℕ, List, Some, IfOk, Contains, All};
ghost use Rattle.std.specs.List.{AllPairs};
ghost use Rattle.std.specs.Option.{option_copied};
ghost use Rattle.disk_model.specs.Image.{IsBelow, IsFileId, place, same_place};
ghost use Rattle.disk_memory.specs.History.{history};
ghost use Rattle.disk_memory.specs.Versions.{newest, image_of, version_place};
ghost use Rattle.disk_model.specs.declared.file_id.FileId.{FileId};

use crate::ids::{put_in, take_out};
use crate::steps::Step;
use disk_model::FileId;
use host_types::LogName;
use std::alloc::{AllocError, Global};

pub fn is_at(version: &Step, name: &LogName, id: FileId) -> bool
    ensures { result ≡ same_place (version_place version.now) (place name.now id) }
{
    version.name.bytes() == name.bytes() && version.id == id
}

pub fn newest_at<'a>(versions: &'a [Step], name: &LogName, id: FileId) -> Option<&'a Step>
    ensures { option_copied result ≡ newest versions.now (place name.now id) }
{
    versions.iter().rev().find(|v| is_at(v, name, id))
}

/// The bytes of a file.
pub fn bytes_at<'a>(versions: &'a [Step], name: &LogName, id: FileId) -> Option<&'a [u8]>
    ensures { option_copied result ≡ image_of versions.now (place name.now id) }
{
    match &newest_at(versions, name, id)?.bytes {
        None => None,
        Some(bytes) => Some(bytes.as_slice()),
    }
}

/// The files of a name, rising.
pub fn ids_of(alloc: Global, versions: &[Step], name: &LogName) -> Result<Vec<FileId>, AllocError>
    ensures rising { IfOk result (λ ids. AllPairs IsBelow ids.items) }
    ensures named { IfOk result (λ ids. All IsFileId ids.items) }
    ensures are { IfOk result (λ ids. (id : FileId) → Contains ids.items id ↔ ((bytes : List ℕ) × (image_of versions.now (place name.now id) ≡ Some bytes))) }
{
    let mut ids = Vec::new(alloc);
    for version in versions {
        if version.name.bytes() == name.bytes() {
            if version.bytes.is_some() {
                put_in(&mut ids, version.id)?;
            } else {
                take_out(&mut ids, version.id);
            }
        }
    }
    Ok(ids)
}

/// The bytes of a file on a disk that tears.
pub fn held_at<'a>(steps: &'a [Step], name: &LogName, id: FileId) -> Option<&'a [u8]>
    ensures { option_copied result ≡ (history steps.now).reading (place name.now id) }
{
    bytes_at(steps, name, id)
}
