// A machine as a host uses it: each operation is decided, stored as the next entry, and applied.
ghost use Rattle.std.specs.Prelude.{◌≡◌, ℕ, ◌+◌, ◌≤◌, ◌<◌, []};
ghost use Rattle.commit_lending.specs.Lent.{tokens};
ghost use Rattle.host_types.specs.Cells.{places_of};
ghost use Rattle.machine.specs.Release.{AreOut};
ghost use Rattle.library_tests.specs.Machines.{AreEarlier};

use crate::asks::{Ask, Say, answer_of, op_of};
use crate::checks::{closed, key, same};
use commit_lending::Lender;
use host_types::{Effect, Index, Key, Op, Reply};
use machine::{Decision, Machine, Place, Refuse};
use std::alloc::Global;
use std::process::Abort;

/// Applies an effect as the entry with this index.
pub fn store<M: Machine>(
    rt: &impl Abort,
    machine: &mut M,
    alloc: Global,
    lender: &mut Lender,
    effect: &Effect,
    index: Index,
)
    requires held { AreOut (places_of (M.cells machine.old)) lender.old }
    requires first { 1 ≤ index }
    requires earlier { AreEarlier index (M.cells machine.old) }
    requires fresh { (j : ℕ) → index ≤ j → tokens lender.old j ≡ 0 }
    ensures held { AreOut (places_of (M.cells machine.new)) lender.new }
    ensures earlier { AreEarlier (index + 1) (M.cells machine.new) }
    ensures fresh { (j : ℕ) → index < j → tokens lender.new j ≡ 0 }
{
    machine.prepare(alloc, effect, index).expect(rt, "memory");
    lender.reserve().expect(rt, "memory");
    let commit = lender.lend(index);
    machine.apply(commit, effect, lender);
}

/// Decides an operation on a name, and applies it as the entry with this index.
fn step<M: Machine>(
    rt: &impl Abort,
    machine: &mut M,
    alloc: Global,
    lender: &mut Lender,
    name: &Key,
    op: &Op,
    index: Index,
) -> Result<Reply, Refuse>
    requires held { AreOut (places_of (M.cells machine.old)) lender.old }
    requires first { 1 ≤ index }
    requires earlier { AreEarlier index (M.cells machine.old) }
    requires fresh { (j : ℕ) → index ≤ j → tokens lender.old j ≡ 0 }
    ensures held { AreOut (places_of (M.cells machine.new)) lender.new }
    ensures earlier { AreEarlier (index + 1) (M.cells machine.new) }
    ensures fresh { (j : ℕ) → index < j → tokens lender.new j ≡ 0 }
{
    match machine.resolve(alloc, name, op, 1, index) {
        Ok(Decision { effect, reply }) => {
            store(rt, machine, alloc, lender, &effect, index);
            drop(effect);
            Ok(reply)
        }
        Err(why) => Err(why),
    }
}

/// What is asked of a name, and what is answered.
pub type Line = ([u8; 2], Ask, Say);

/// Makes the operation of a line, as the entry with this index, and asserts its answer.
fn answers<M: Machine>(
    rt: &impl Abort,
    machine: &mut M,
    alloc: Global,
    lender: &mut Lender,
    line: &Line,
    index: Index,
)
    requires held { AreOut (places_of (M.cells machine.old)) lender.old }
    requires first { 1 ≤ index }
    requires earlier { AreEarlier index (M.cells machine.old) }
    requires fresh { (j : ℕ) → index ≤ j → tokens lender.old j ≡ 0 }
    ensures held { AreOut (places_of (M.cells machine.new)) lender.new }
    ensures earlier { AreEarlier (index + 1) (M.cells machine.new) }
    ensures fresh { (j : ℕ) → index < j → tokens lender.new j ≡ 0 }
{
    let (name, ask, say) = *line;
    let name = key(rt, alloc, &name);
    let op = op_of(rt, alloc, ask);
    let answer = step(rt, machine, alloc, lender, &name, &op, index);
    same(rt, (index, answer), (index, answer_of(rt, alloc, say)));
    drop(name);
    drop(op);
}

/// The entry of the first line has index 1.
fn answers_all<M: Machine>(
    rt: &impl Abort,
    machine: &mut M,
    alloc: Global,
    lender: &mut Lender,
    lines: &[Line],
)
    requires empty { M.cells machine.old ≡ [] }
    requires none { (j : ℕ) → tokens lender.old j ≡ 0 }
    ensures { AreOut (places_of (M.cells machine.new)) lender.new }
{
    for at in 0..lines.len() {
        answers(rt, machine, alloc, lender, &lines[at], at as u64 + 1);
    }
}

/// What a machine lists. It tells nobody anything.
pub fn listed<M: Machine>(rt: &impl Abort, machine: &M, alloc: Global) -> Vec<Place> {
    let mut cells = Vec::new(alloc);
    machine.list(alloc, &mut cells).expect(rt, "memory");
    let told = machine
        .tells(alloc, &Effect::Wipe { instance: 2 }, 90)
        .expect(rt, "memory");
    same(rt, told.into_items().len(), 0);
    let told = machine.tells_close(alloc, 1).expect(rt, "memory");
    same(rt, told.into_items().len(), 0);
    cells
}

/// Asserts what `get` shows of a name.
pub fn shows<M: Machine>(rt: &impl Abort, machine: &M, alloc: Global, name: [u8; 2], say: Say) {
    let name = key(rt, alloc, &name);
    let shown = machine.look(alloc, &name, &Op::Get);
    same(rt, shown, answer_of(rt, alloc, say));
    drop(name);
}

/// A machine from its beginning to its end. Asserts the answers of the lines, and what `get` shows of a name then. Answers what
/// it lists, and the pairs that are closed at its end.
pub fn lives<M: Machine>(
    rt: &impl Abort,
    alloc: Global,
    mut machine: M,
    lines: &[Line],
    name: [u8; 2],
    say: Say,
) -> (Vec<Place>, Vec<(Index, Index)>)
    requires { M.cells machine ≡ [] }
{
    let mut lender = Lender::new(alloc);
    answers_all(rt, &mut machine, alloc, &mut lender, lines);
    let cells = listed(rt, &machine, alloc);
    shows(rt, &machine, alloc, name, say);
    machine.forget_owner(1, 9000, &mut lender);
    machine.end(&mut lender);
    let pairs = closed(rt, alloc, &mut lender);
    drop(lender);
    (cells, pairs)
}
