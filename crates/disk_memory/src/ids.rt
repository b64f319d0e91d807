// Lists of ids that rise.
ghost use Rattle.std.specs.Prelude.{◌≡◌, ◌⊎◌, ◌↔◌, IfOk, OnOk, Contains, All, filter, not};
ghost use Rattle.std.specs.List.{AllPairs};
ghost use Rattle.disk_model.specs.Image.{IsBelow, IsFileId};
ghost use Rattle.disk_model.specs.declared.file_id.FileId.{FileId};
ghost use Rattle.disk_memory.specs.Versions.{same_id};

use disk_model::FileId;
use std::alloc::AllocError;

/// Puts an id in its place, if it isn't there.
pub fn put_in(ids: &mut Vec<FileId>, id: FileId) -> Result<(), AllocError>
    requires rising { AllPairs IsBelow ids.old.items }
    requires named { All IsFileId ids.old.items }
    requires id { IsFileId id }
    ensures rising { OnOk result (AllPairs IsBelow ids.new.items) }
    ensures named { OnOk result (All IsFileId ids.new.items) }
    ensures has { OnOk result ((one : FileId) → Contains ids.new.items one ↔ (Contains ids.old.items one ⊎ (one ≡ id))) }
{
    match ids.binary_search(&id) {
        Ok(_) => Ok(()),
        Err(at) => {
            ids.insert(at, id)?;
            Ok(())
        }
    }
}

/// Takes an id out.
pub fn take_out(ids: &mut Vec<FileId>, id: FileId)
    ensures { ids.new.items ≡ filter (λ one. not (same_id one id)) ids.old.items }
{
    ids.retain(|one| *one != id);
}
