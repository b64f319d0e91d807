// The next entry is entered, and what it releases is marked.
ghost use Rattle.std.specs.Prelude.{◌≡◌, ◌≤◌, ◌++◌, ℕ, [], None, true, OnOk, OnErr};
ghost use Rattle.std.specs.FinMap.{insert};
ghost use Rattle.host_types.specs.Ranges.{EntryFits, IsInRange};
ghost use Rattle.log_model.specs.hosted.Hosted.{hosted_told};
ghost use Rattle.log_model.specs.replay.Replay.{replay_entry};
ghost use Rattle.released_marks.specs.Marks.{is_present, is_unmarked};
ghost use Rattle.session_table.specs.Places.{table_cells};
ghost use Rattle.session_table.specs.Table.{confirmed_positions};
ghost use Rattle.host_core.specs.Batching.{AreBatchesOf, HaveBatchRoom, ended_by, told_above, told_by};
ghost use Rattle.host_core.specs.CoreState.{Awaits, IsKept, hosted};
ghost use Rattle.host_core.specs.Entering.{HasRoomFor, confirmed_by};
ghost use Rattle.host_core.specs.Marking.{AreMarked, CanMark, marked};

use crate::batching::Batches;
use crate::entering::enter;
use commit_lending::Lender;
use host_types::{Entry, Index, NoMemory};
use machine::Machine;
use released_marks::Marks;
use session_table::Sessions;

/// Adds the index of the next entry to the marks, unless room was made for it before.
pub(crate) fn add_index(marks: &mut Marks, index: Index) -> Result<(), NoMemory>
    requires past { (j : ℕ) → is_present j marks.old ≡ true → j ≤ index }
    requires next { is_present index marks.old ≡ true → is_unmarked index marks.old ≡ true }
    ensures ok { OnOk result (marks.new ≡ insert marks.old index None) }
    ensures err { OnErr result (marks.new ≡ marks.old) }
{
    if marks.is_unmarked(index) {
        return Ok(());
    }
    marks.add(index)
}

/// Marks what was closed, each with the index that closed it.
fn mark_closed(lender: &mut Lender, marks: &mut Marks)
    requires { CanMark lender.old.closed marks.old }
    ensures marks { marks.new ≡ marked lender.old.closed marks.old }
    ensures out { lender.new.out ≡ lender.old.out }
    ensures closed { lender.new.closed ≡ [] }
    ensures spare { lender.new.spare ≡ lender.old.spare }
{
    while let Some((index, by)) = lender.pop_closed() {
        marks.mark(index, by);
    }
}

/// Enters the next entry into the room that was made for it, and marks what it releases.
pub(crate) fn take<M: Machine>(
    machine: &mut M,
    sessions: &mut Sessions,
    lender: &mut Lender,
    marks: &mut Marks,
    index: Index,
    entry: Entry,
    batches: Batches,
    cut: Index,
)
    requires awaits { Awaits M.cells index machine.old sessions.old lender.old marks.old }
    requires fits { EntryFits entry }
    requires range { IsInRange index entry }
    requires commit { 1 ≤ lender.old.spare }
    requires room { HasRoomFor (M.is_ready machine.old) sessions.old index entry.body }
    requires batches { AreBatchesOf (told_above cut index (told_by M.decides (M.cells machine.old) index entry.body)) (ended_by entry.body) sessions.old.sessions batches.entries }
    requires batch_room { HaveBatchRoom (ended_by entry.body) sessions.old batches.entries }
    ensures kept { IsKept M.cells (record { machine = machine.new; sessions = sessions.new; lender = lender.new; marks = marks.new; last = index; time = entry.time }) }
    ensures state { hosted M.cells (record { machine = machine.new; sessions = sessions.new; lender = lender.new; marks = marks.new; last = index; time = entry.time })
        ≡ replay_entry (hosted_told M.decides) cut (record { last = 0; now = 0; sessions = sessions.old.sessions; cells = M.cells machine.old ++ table_cells sessions.old }) (index, entry) }
    ensures marks { AreMarked index (M.cells machine.old ++ table_cells sessions.old) (M.cells machine.new ++ table_cells sessions.new) marks.old marks.new }
    ensures positions { confirmed_positions sessions.new.beside ≡ confirmed_by index entry.body (confirmed_positions sessions.old.beside) }
{
    let commit = lender.lend(index);
    enter(machine, sessions, lender, commit, entry, batches, cut);
    mark_closed(lender, marks);
}
