// A lock: who came first holds it, and the others wait.
ghost use Rattle.std.specs.Prelude.{◌≡◌, ◌≢◌, ℕ, [], true, not, cond, length, is_some, IfOk, IfSome, Some, None};
ghost use Rattle.std.specs.List.{list_any};
ghost use Rattle.std.specs.Option.{option_map_or};
ghost use Rattle.host_types.specs.Decision.{Decides};
ghost use Rattle.host_types.specs.declared.entry.Kind.TheVariants.{Lock};
ghost use Rattle.host_types.specs.declared.entry.Cell.TheVariants.{Waiter as Waiter_cell};
ghost use Rattle.host_types.specs.declared.entry.Content.TheVariants.{Mark};
ghost use Rattle.host_types.specs.declared.entry.Effect.TheVariants.{Put};
ghost use Rattle.host_types.specs.declared.entry.Op.TheVariants as op;
ghost use Rattle.host_types.specs.declared.entry.Reply.TheVariants.{None as No_reply, Holder as Holder_reply};
ghost use Rattle.machine.specs.Answers.{Resolves};
ghost use Rattle.cell_table.specs.Lookups.{found};
ghost use Rattle.log_model.specs.plain.Plain.{head_of, Lock_is};
ghost use Rattle.log_model.specs.plain.Rows.{lock_row, is_waiter, is_holder, granted};
ghost use Rattle.log_model.specs.kinds.Deciding.{chosen, call_of, effect_tells};
ghost use Rattle.lock_group.specs.Waiters.{waiters_in, waiter_in, waiter_found, leaves, staying, left_by};

use cell_table::{CellTable, Standing};
use commit_lending::{Commit, Lender};
use host_types::{Cell, Content, Effect, Event, Index, Key, Kind, NoMemory, Op, Reply};
use machine::{Decision, Place, Refuse, Resource, Told};
use std::alloc::Global;
use std::marker::Model;

/// A lock: a cell for each waiter, a session with an id of its own. The one that came first holds the lock. Contracts see it as its
/// table of cells.
///
/// It is asked for, given back and looked at in time logarithmic in the number of waiters.
pub struct LockCells {
    table: CellTable,
}

impl Model for LockCells {
    ghost use Rattle.std.specs.Prelude.{◌≡◌};
    ghost use Rattle.host_types.specs.declared.entry.Kind.TheVariants.{Lock};
    ghost use Rattle.cell_table.specs.Seen.{Table};

    ghost Value = { Table };

    ghost view = { λ l. l.table };

    ghost invariant = { λ l. l.table.kind ≡ Lock };
}

impl LockCells {
    /// The lock of this instance, which nobody holds yet. It takes no memory.
    pub fn new(alloc: Global, instance: Index) -> LockCells
        ensures instance { result.instance ≡ instance }
        ensures cells { result.cells ≡ [] }
    {
        LockCells {
            table: CellTable::new(alloc, Kind::Lock, instance),
        }
    }
}

/// Who leaves.
#[derive(Clone, Copy)]
pub(crate) enum Leaving {
    /// One waiter.
    Waiter { session: Index, id: u64 },
    /// All waiters of a session.
    Session { session: Index },
}

impl Leaving {
    fn takes(&self, session: Index, id: u64) -> bool
        ensures { result ≡ leaves self.now (session, id) }
    {
        match *self {
            Leaving::Waiter {
                session: other,
                id: other_id,
            } => other == session && other_id == id,
            Leaving::Session { session: other } => session == other,
        }
    }
}

// The waiter of a cell that is there.
fn waiter_of(standing: Option<Standing<'_>>) -> Option<(Index, u64)>
    ensures { result ≡ waiter_found (found standing.entry) }
{
    match standing {
        Some(standing) => match standing.cell {
            Cell::Waiter { session, id } => Some((*session, *id)),
            _ => None,
        },
        None => None,
    }
}

// The waiter of the cell, if it doesn't leave.
fn staying(standing: Standing<'_>, leaving: &Leaving) -> Option<(Index, u64)>
    ensures { result ≡ staying leaving.now (waiter_in standing.entry.cell.now) }
{
    match standing.cell {
        Cell::Waiter { session, id } => {
            if leaving.takes(*session, *id) {
                None
            } else {
                Some((*session, *id))
            }
        }
        _ => None,
    }
}

// Who holds the lock: the waiter that came first.
fn holder(table: &CellTable) -> Option<(Index, u64)>
    ensures { result ≡ head_of (waiters_in table.now.instance table.now.cells) }
{
    table.in_order();
    waiter_of(table.first_waiter(0))
}

// The session holds the lock under this id.
fn is_holder(table: &CellTable, session: Index, id: u64) -> bool
    ensures { result ≡ is_holder (session, id) (waiters_in table.now.instance table.now.cells) }
{
    match holder(table) {
        Some((other, other_id)) => session == other && id == other_id,
        None => false,
    }
}

// The session waits under this id, or holds the lock.
fn waits(table: &CellTable, session: Index, id: u64) -> bool
    ensures { result ≡ list_any (is_waiter (session, id)) (waiters_in table.now.instance table.now.cells) }
{
    table.in_order();
    let cell = Cell::Waiter { session, id };
    let there = table.contains(&cell);
    drop(cell);
    there
}

// How many wait, with the one who holds the lock.
fn size(table: &CellTable) -> usize
    requires { table.now.kind ≡ Lock }
    ensures { result ≡ length (waiters_in table.now.instance table.now.cells) }
{
    table.in_order();
    table.len()
}

// The first waiter that doesn't leave. No index is too great for the next one: no log has such an index.
fn next_holder(table: &CellTable, leaving: &Leaving) -> Result<Option<(Index, u64)>, NoMemory>
    ensures { IfOk result (λ next. next ≡ head_of (left_by leaving.now (waiters_in table.now.instance table.now.cells))) }
{
    table.in_order();
    let mut next = table.first_waiter(0);
    while let Some(standing) = next {
        let stays = staying(standing, leaving);
        if stays.is_some() {
            return Ok(stays);
        }
        match standing.index.checked_add(1) {
            Some(from) => next = table.first_waiter(from),
            None => return Err(NoMemory),
        }
    }
    Ok(None)
}

// What is told where these leave: another who holds the lock then is told so.
fn grants(table: &CellTable, alloc: Global, name: &Key, leaving: &Leaving) -> Result<Told, NoMemory>
    ensures { IfOk result (λ told. told ≡ granted name.now (waiters_in table.now.instance table.now.cells) (left_by leaving.now (waiters_in table.now.instance table.now.cells))) }
{
    let mut told = Told::new(alloc);
    if let Some((session, id)) = next_holder(table, leaving)? {
        if !is_holder(table, session, id) {
            let name = name.copy()?;
            told.push((session, Event::Granted { name, id }))?;
        }
    }
    Ok(told)
}

// What an effect tells: only that a waiter goes may grant the lock to another.
fn tells(table: &CellTable, alloc: Global, name: &Key, effect: &Effect) -> Result<Told, NoMemory>
    ensures { (index : ℕ) → IfOk result (λ told. told ≡ effect_tells index name.now (Lock_is (waiters_in table.now.instance table.now.cells)) effect.now) }
{
    match effect {
        Effect::Drop {
            instance: _,
            cell: Cell::Waiter { session, id },
        } => grants(
            table,
            alloc,
            name,
            &Leaving::Waiter {
                session: *session,
                id: *id,
            },
        ),
        _ => Ok(Told::new(alloc)),
    }
}

// The session's cell of this id.
fn put(instance: Index, session: Index, id: u64) -> Effect
    ensures { result ≡ Put instance (Waiter_cell session id) Mark (Some session) }
{
    Effect::Put {
        instance,
        cell: Cell::Waiter { session, id },
        content: Content::Mark,
        owner: Some(session),
    }
}

// What is shown of who holds the lock.
fn show_holder(table: &CellTable) -> Reply
    ensures { result ≡ option_map_or (λ w. Holder_reply w.0 w.1) (head_of (waiters_in table.now.instance table.now.cells)) No_reply }
{
    match holder(table) {
        Some((session, id)) => Reply::Holder { session, id },
        None => Reply::None,
    }
}

// The session asks for the lock, and waits for it.
fn lock(table: &CellTable, session: Index, id: u64) -> Decision
    ensures { (index : ℕ) → chosen Lock (lock_row (call_of [] table.now.instance session index) (waiters_in table.now.instance table.now.cells) (op.Lock id)) ≡ Decides result.effect result.reply }
{
    if waits(table, session, id) {
        Decision {
            effect: Effect::Nothing,
            reply: Reply::Truth(is_holder(table, session, id)),
        }
    } else {
        Decision {
            effect: put(table.instance(), session, id),
            reply: Reply::Truth(holder(table).is_none()),
        }
    }
}

// The session asks for the lock if nobody holds it.
fn try_lock(table: &CellTable, session: Index, id: u64) -> Decision
    ensures { (index : ℕ) → chosen Lock (lock_row (call_of [] table.now.instance session index) (waiters_in table.now.instance table.now.cells) (op.Try id)) ≡ Decides result.effect result.reply }
{
    if holder(table).is_some() {
        Decision {
            effect: Effect::Nothing,
            reply: Reply::Truth(is_holder(table, session, id)),
        }
    } else {
        Decision {
            effect: put(table.instance(), session, id),
            reply: Reply::Truth(true),
        }
    }
}

// The session gives the lock back, or waits no more.
fn unlock(table: &CellTable, session: Index, id: u64) -> Decision
    ensures { (index : ℕ) → chosen Lock (lock_row (call_of [] table.now.instance session index) (waiters_in table.now.instance table.now.cells) (op.Unlock id)) ≡ Decides result.effect result.reply }
{
    if waits(table, session, id) {
        Decision {
            effect: Effect::Drop {
                instance: table.instance(),
                cell: Cell::Waiter { session, id },
            },
            reply: Reply::Truth(true),
        }
    } else {
        Decision {
            effect: Effect::Nothing,
            reply: Reply::Truth(false),
        }
    }
}

fn decide(table: &CellTable, op: &Op, session: Index) -> Result<Decision, Refuse>
    requires { table.now.kind ≡ Lock }
    ensures { (index : ℕ) → Resolves (chosen Lock (lock_row (call_of [] table.now.instance session index) (waiters_in table.now.instance table.now.cells) op.now)) result }
{
    match op {
        Op::Lock { id } => Ok(lock(table, session, *id)),
        Op::Try { id } => Ok(try_lock(table, session, *id)),
        Op::Unlock { id } => Ok(unlock(table, session, *id)),
        Op::Holder => Ok(Decision {
            effect: Effect::Nothing,
            reply: show_holder(table),
        }),
        Op::Size => Ok(Decision {
            effect: Effect::Nothing,
            reply: Reply::count(size(table)),
        }),
        _ => Err(Refuse::Kind { is: Kind::Lock }),
    }
}

impl Resource for LockCells {
    ghost use Rattle.host_types.specs.declared.entry.Kind.TheVariants.{Lock};
    ghost use Rattle.cell_table.specs.Seen.{IsReady};
    ghost use Rattle.log_model.specs.kinds.Reading.{kind_decision};
    ghost use Rattle.log_model.proofs.kinds.KindLaws.{kind_lawful, kind_one_owner};

    ghost kind = { Lock };

    ghost instance = { λ s. s.instance };

    ghost cells = { λ s. s.cells };

    ghost is_ready = { IsReady };

    ghost decides = { kind_decision Lock };

    ghost lawful = { kind_lawful Lock };

    ghost one_owner = { kind_one_owner Lock };

    fn resolve(
        &self,
        _alloc: Global,
        op: &Op,
        session: Index,
        _index: Index,
    ) -> Result<Decision, Refuse> {
        decide(&self.table, op, session)
    }

    fn look(&self, _alloc: Global, op: &Op) -> Result<Reply, Refuse> {
        match op {
            Op::Holder => Ok(show_holder(&self.table)),
            Op::Size => Ok(Reply::count(size(&self.table))),
            _ => Err(Refuse::Kind { is: Kind::Lock }),
        }
    }

    fn list(&self, _alloc: Global, out: &mut Vec<Place>) -> Result<(), NoMemory> {
        self.table.list(out)
    }

    fn tells(
        &self,
        alloc: Global,
        name: &Key,
        effect: &Effect,
        _index: Index,
    ) -> Result<Told, NoMemory> {
        tells(&self.table, alloc, name, effect)
    }

    fn tells_close(&self, alloc: Global, name: &Key, owner: Index) -> Result<Told, NoMemory> {
        grants(
            &self.table,
            alloc,
            name,
            &Leaving::Session { session: owner },
        )
    }

    fn prepare(&mut self, alloc: Global, effect: &Effect, index: Index) -> Result<(), NoMemory> {
        self.table.prepare(alloc, effect, index)
    }

    fn apply(&mut self, commit: Commit, effect: &Effect, lender: &mut Lender) {
        self.table.apply(commit, effect, lender);
    }

    fn forget_owner(&mut self, owner: Index, by: Index, lender: &mut Lender) {
        self.table.forget_owner(owner, by, lender);
    }

    fn end(self, lender: &mut Lender) {
        let LockCells { table } = self;
        table.end(lender);
    }
}
