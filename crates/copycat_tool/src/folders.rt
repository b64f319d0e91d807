// Where being in order begins: with an empty folder, and after a crash.
ghost use Rattle.std.specs.Prelude.{◌≡◌, ℕ, List, [], None, IsTrue};
ghost use Rattle.disk_model.specs.declared.file_id.FileId.{FileId};
ghost use Rattle.disk_model.specs.Image.{place};
ghost use Rattle.disk_model.specs.View.{EachSettled, MayLeave};
ghost use Rattle.log_model.specs.plain.Admission.{Item};
ghost use Rattle.host_recovery.specs.Logs.{IsInOrder, plain_form};
ghost use Rattle.copycat_tool.specs.Runs.{IsInOrderFor};

use disk_model::Disk;

/// A law: a folder with no file of a name, in which everything is settled, is in order for the empty log. So the contract of `run`
/// speaks of the first run.
pub fn empty_folder_is_in_order<D: Disk>()
    ensures { IsTrue D.tells → (disk : D) (name : List ℕ) → EachSettled (D.view disk) → ((id : FileId) → (D.view disk).reading (place name id) ≡ None) → IsInOrder plain_form (D.view disk) name [] 0 }
{}

/// A law: after a crash, when what it left is settled, a folder that was in order for a log is in order for the prefix of it that
/// the image stands for, all of it. So the contract of `run` speaks of the run after a crash.
pub fn crashed_folder_is_in_order<D: Disk>()
    ensures { IsTrue D.tells → (before after : D) (name : List ℕ) (log : List Item) (least : ℕ) → IsInOrder plain_form (D.view before) name log least
        → MayLeave (D.view before) (D.view after).reading → EachSettled (D.view after) → IsInOrderFor (D.view after) name log least }
{}
