// A group: members with a word each, the first of which leads; those who listen are told who joins and leaves.
ghost use Rattle.std.specs.Prelude.{◌≡◌, ℕ, [], Some, IfOk, ◌==◌, ◌&&◌};
ghost use Rattle.std.specs.List.{list_any};
ghost use Rattle.std.specs.Option.{option_map_or};
ghost use Rattle.host_types.specs.Decision.{Decides};
ghost use Rattle.host_types.specs.declared.entry.Kind.TheVariants.{Group};
ghost use Rattle.host_types.specs.declared.entry.Op.TheVariants as op;
ghost use Rattle.host_types.specs.declared.entry.Cell.TheVariants.{At};
ghost use Rattle.host_types.specs.declared.entry.Content.TheVariants.{Text};
ghost use Rattle.host_types.specs.declared.entry.Effect.TheVariants.{Put};
ghost use Rattle.host_types.specs.declared.entry.Reply.TheVariants.{None as No_reply, Index as Index_reply};
ghost use Rattle.machine.specs.Answers.{Resolves};
ghost use Rattle.log_model.specs.plain.Plain.{head_of, Group_is};
ghost use Rattle.log_model.specs.plain.Rows.{group_row, without_session};
ghost use Rattle.log_model.specs.kinds.Deciding.{chosen, call_of, effect_tells};
ghost use Rattle.log_model.specs.kinds.Reading.{listeners_in};
ghost use Rattle.lock_group.specs.Members.{members_in, group_event};

use crate::members::{
    count_members, is_of_session, leader, least_members, members_of, tell_others,
};
use cell_table::CellTable;
use commit_lending::{Commit, Lender};
use host_types::{Cell, Content, Effect, Event, Index, Key, Kind, NoMemory, Op, Reply, Word};
use machine::{Decision, Place, Refuse, Resource, Told};
use queue_topic::{listen, tell_listeners, unlisten};
use std::alloc::Global;
use std::marker::Model;

/// A group: a cell for each member, by the index of the entry with which it joined, and one for each session that listens. Contracts
/// see it as its table of cells.
///
/// A member joins and leaves in time logarithmic in the number of cells, and that for each listener who is told; the leader is found in
/// that time, and members in that time for each that is shown.
pub struct GroupCells {
    table: CellTable,
}

impl Model for GroupCells {
    ghost use Rattle.std.specs.Prelude.{◌≡◌};
    ghost use Rattle.host_types.specs.declared.entry.Kind.TheVariants.{Group};
    ghost use Rattle.cell_table.specs.Seen.{Table};

    ghost Value = { Table };

    ghost view = { λ g. g.table };

    ghost invariant = { λ g. g.table.kind ≡ Group };
}

impl GroupCells {
    /// The group of this instance, which has no member yet. It takes no memory.
    pub fn new(alloc: Global, instance: Index) -> GroupCells
        ensures instance { result.instance ≡ instance }
        ensures cells { result.cells ≡ [] }
    {
        GroupCells {
            table: CellTable::new(alloc, Kind::Group, instance),
        }
    }
}

// The member is one of this session.
fn is_member(table: &CellTable, session: Index, member: Index) -> bool
    ensures { result ≡ list_any (λ x. x.index == member && x.session == session) (members_in table.now.instance table.now.cells) }
{
    table.in_order();
    let cell = Cell::At(member);
    let there = is_of_session(table.at(&cell), session);
    drop(cell);
    there
}

fn join(table: &CellTable, word: &Word, session: Index, index: Index) -> Result<Decision, NoMemory>
    ensures { IfOk result (λ d. (d.effect ≡ Put table.now.instance (At index) (Text word.now) (Some session)) × (d.reply ≡ Index_reply index)) }
{
    Ok(Decision {
        effect: Effect::Put {
            instance: table.instance(),
            cell: Cell::At(index),
            content: Content::Text(word.copy()?),
            owner: Some(session),
        },
        reply: Reply::Index(index),
    })
}

fn leave(table: &CellTable, session: Index, member: Index) -> Decision
    ensures { (index : ℕ) → chosen Group (group_row (call_of [] table.now.instance session index) (members_in table.now.instance table.now.cells) (listeners_in table.now.instance table.now.cells) (op.Leave member)) ≡ Decides result.effect result.reply }
{
    if is_member(table, session, member) {
        Decision {
            effect: Effect::Drop {
                instance: table.instance(),
                cell: Cell::At(member),
            },
            reply: Reply::Truth(true),
        }
    } else {
        Decision {
            effect: Effect::Nothing,
            reply: Reply::Truth(false),
        }
    }
}

fn show_leader(table: &CellTable) -> Reply
    ensures { result ≡ option_map_or (λ x. Index_reply x.index) (head_of (members_in table.now.instance table.now.cells)) No_reply }
{
    match leader(table) {
        Some(index) => Reply::Index(index),
        None => Reply::None,
    }
}

fn decide(
    table: &CellTable,
    alloc: Global,
    op: &Op,
    session: Index,
    index: Index,
) -> Result<Decision, Refuse>
    ensures { Resolves (chosen Group (group_row (call_of [] table.now.instance session index) (members_in table.now.instance table.now.cells) (listeners_in table.now.instance table.now.cells) op.now)) result }
{
    match op {
        Op::Join { word } => Ok(join(table, word, session, index)?),
        Op::Leave { member } => Ok(leave(table, session, *member)),
        Op::Members => Ok(Decision {
            effect: Effect::Nothing,
            reply: Reply::Indexes(least_members(table, alloc)?),
        }),
        Op::Leader => Ok(Decision {
            effect: Effect::Nothing,
            reply: show_leader(table),
        }),
        Op::Listen => Ok(listen(table, session)),
        Op::Unlisten => Ok(unlisten(table, session)),
        Op::Size => Ok(Decision {
            effect: Effect::Nothing,
            reply: Reply::count(count_members(table)?),
        }),
        _ => Err(Refuse::Kind { is: Kind::Group }),
    }
}

// The event that an effect makes, for each listener.
fn event_of(name: &Key, effect: &Effect, index: Index) -> Result<Option<Event>, NoMemory>
    ensures { IfOk result (λ event. event ≡ group_event name.now index effect.now) }
{
    match effect {
        Effect::Put {
            cell: Cell::At(_),
            ..
        } => Ok(Some(Event::Joined {
            name: name.copy()?,
            member: index,
        })),
        Effect::Drop {
            cell: Cell::At(member),
            ..
        } => Ok(Some(Event::Left {
            name: name.copy()?,
            member: *member,
        })),
        _ => Ok(None),
    }
}

fn tells(
    table: &CellTable,
    alloc: Global,
    name: &Key,
    effect: &Effect,
    index: Index,
) -> Result<Told, NoMemory>
    ensures { IfOk result (λ told. told ≡ effect_tells index name.now (Group_is (members_in table.now.instance table.now.cells) (listeners_in table.now.instance table.now.cells)) effect.now) }
{
    match event_of(name, effect, index)? {
        Some(event) => {
            let told = tell_listeners(table, alloc, &event);
            drop(event);
            told
        }
        None => Ok(Told::new(alloc)),
    }
}

fn tells_close(table: &CellTable, alloc: Global, name: &Key, owner: Index) -> Result<Told, NoMemory>
    requires { table.now.kind ≡ Group }
    ensures { IfOk result (λ told. told ≡ (without_session name.now owner (Group_is (members_in table.now.instance table.now.cells) (listeners_in table.now.instance table.now.cells))).1) }
{
    let gone = members_of(table, alloc, owner)?;
    let told = tell_others(table, alloc, name, &gone, owner);
    drop(gone);
    told
}

impl Resource for GroupCells {
    ghost use Rattle.host_types.specs.declared.entry.Kind.TheVariants.{Group};
    ghost use Rattle.cell_table.specs.Seen.{IsReady};
    ghost use Rattle.log_model.specs.kinds.Reading.{kind_decision};
    ghost use Rattle.log_model.proofs.kinds.KindLaws.{kind_lawful, kind_one_owner};

    ghost kind = { Group };

    ghost instance = { λ s. s.instance };

    ghost cells = { λ s. s.cells };

    ghost is_ready = { IsReady };

    ghost decides = { kind_decision Group };

    ghost lawful = { kind_lawful Group };

    ghost one_owner = { kind_one_owner Group };

    fn resolve(
        &self,
        alloc: Global,
        op: &Op,
        session: Index,
        index: Index,
    ) -> Result<Decision, Refuse> {
        decide(&self.table, alloc, op, session, index)
    }

    fn look(&self, alloc: Global, op: &Op) -> Result<Reply, Refuse> {
        match op {
            Op::Members => Ok(Reply::Indexes(least_members(&self.table, alloc)?)),
            Op::Leader => Ok(show_leader(&self.table)),
            Op::Size => Ok(Reply::count(count_members(&self.table)?)),
            _ => Err(Refuse::Kind { is: Kind::Group }),
        }
    }

    fn list(&self, _alloc: Global, out: &mut Vec<Place>) -> Result<(), NoMemory> {
        self.table.list(out)
    }

    fn tells(
        &self,
        alloc: Global,
        name: &Key,
        effect: &Effect,
        index: Index,
    ) -> Result<Told, NoMemory> {
        tells(&self.table, alloc, name, effect, index)
    }

    fn tells_close(&self, alloc: Global, name: &Key, owner: Index) -> Result<Told, NoMemory> {
        tells_close(&self.table, alloc, name, owner)
    }

    fn prepare(&mut self, alloc: Global, effect: &Effect, index: Index) -> Result<(), NoMemory> {
        self.table.prepare(alloc, effect, index)
    }

    fn apply(&mut self, commit: Commit, effect: &Effect, lender: &mut Lender) {
        self.table.apply(commit, effect, lender);
    }

    fn forget_owner(&mut self, owner: Index, by: Index, lender: &mut Lender) {
        self.table.forget_owner(owner, by, lender);
    }

    fn end(self, lender: &mut Lender) {
        let GroupCells { table } = self;
        table.end(lender);
    }
}
