// A queue: words in the order in which they came.
ghost use Rattle.std.specs.Prelude.{◌≡◌, ℕ, [], cond, None, Some, IfOk, length, true, false, is_some, option_copied};
ghost use Rattle.std.specs.List.{find as find_first};
ghost use Rattle.std.specs.Option.{option_map, option_map_or};
ghost use Rattle.host_types.specs.Cells.{is_text};
ghost use Rattle.host_types.specs.Decision.{Decides};
ghost use Rattle.host_types.specs.declared.entry.Kind.TheVariants.{Queue};
ghost use Rattle.host_types.specs.declared.entry.Effect.TheVariants.{Nothing, Wipe};
ghost use Rattle.host_types.specs.declared.entry.Op.TheVariants.{Poll, RemoveWord};
ghost use Rattle.host_types.specs.declared.entry.Reply.TheVariants.{None as No_reply, Text as Text_reply};
ghost use Rattle.machine.specs.Answers.{Resolves};
ghost use Rattle.cell_table.specs.Lookups.{held_of, found};
ghost use Rattle.log_model.specs.plain.Plain.{head_of};
ghost use Rattle.log_model.specs.plain.Rows.{queue_row};
ghost use Rattle.log_model.specs.kinds.Deciding.{chosen, call_of};
ghost use Rattle.log_model.specs.kinds.Reading.{item_cell};
ghost use Rattle.queue_topic.specs.Items.{items_in, item_found, with_word};

use cell_table::{CellTable, Standing};
use commit_lending::{Commit, Lender};
use host_types::{Cell, Content, Effect, Index, Key, Kind, NoMemory, Op, Reply, Word};
use machine::{Decision, Place, Refuse, Resource, Told};
use std::alloc::Global;
use std::marker::Model;

/// A queue: a cell for each word, by the index of the entry that put it in. Contracts see it as its table of cells.
///
/// A word is put in, taken out and looked at in time logarithmic in the number of words; one that is looked for takes that for each
/// word before it.
pub struct QueueCells {
    table: CellTable,
}

impl Model for QueueCells {
    ghost use Rattle.std.specs.Prelude.{◌≡◌};
    ghost use Rattle.host_types.specs.declared.entry.Kind.TheVariants.{Queue};
    ghost use Rattle.cell_table.specs.Seen.{Table};

    ghost Value = { Table };

    ghost view = { λ q. q.table };

    ghost invariant = { λ q. q.table.kind ≡ Queue };
}

impl QueueCells {
    /// The queue of this instance, which is empty. It takes no memory.
    pub fn new(alloc: Global, instance: Index) -> QueueCells
        ensures instance { result.instance ≡ instance }
        ensures cells { result.cells ≡ [] }
    {
        QueueCells {
            table: CellTable::new(alloc, Kind::Queue, instance),
        }
    }
}

// The word of a cell with its index, if it has one.
fn item_of<'a>(standing: Option<Standing<'a>>) -> Option<(Index, &'a Word)>
    ensures { option_map (λ p. (p.0, p.1.now)) result ≡ item_found (found standing.entry) }
{
    match standing {
        Some(standing) => match (standing.cell, standing.content) {
            (Cell::At(index), Content::Text(word)) => Some((*index, word)),
            _ => None,
        },
        None => None,
    }
}

// The index of the cell, if it has this word.
fn has_word(standing: Standing<'_>, word: &Word) -> Option<Index>
    ensures { result ≡ with_word word.now (item_cell standing.entry.cell.now (held_of standing.entry)) }
{
    match (standing.cell, standing.content) {
        (Cell::At(index), Content::Text(other)) => {
            if *word == *other { Some(*index) } else { None }
        }
        _ => None,
    }
}

// The first of its words, with its index.
fn first_item(table: &CellTable) -> Option<(Index, &Word)>
    requires { table.now.kind ≡ Queue }
    ensures { option_map (λ p. (p.0, p.1.now)) result ≡ head_of (items_in table.now.instance table.now.cells) }
{
    table.in_order();
    let least = Cell::At(0);
    let first = table.first_from(&least);
    drop(least);
    item_of(first)
}

// The index of the first such word.
fn first_with(table: &CellTable, word: &Word) -> Option<Index>
    ensures { result ≡ option_map (λ x. x.0) (find_first (λ x. is_text word.now x.1) (items_in table.now.instance table.now.cells)) }
{
    table.in_order();
    let least = Cell::At(0);
    let mut next = table.first_from(&least);
    drop(least);
    while let Some(standing) = next {
        let index = has_word(standing, word);
        if index.is_some() {
            return index;
        }
        next = table.first_above(standing.cell);
    }
    None
}

// How many words there are.
fn size(table: &CellTable) -> usize
    requires { table.now.kind ≡ Queue }
    ensures { result ≡ length (items_in table.now.instance table.now.cells) }
{
    table.in_order();
    table.len()
}

// The first word is taken out.
fn poll(table: &CellTable) -> Result<Decision, NoMemory>
    requires { table.now.kind ≡ Queue }
    ensures { (session index : ℕ) → IfOk result (λ d. chosen Queue (queue_row (call_of [] table.now.instance session index) (items_in table.now.instance table.now.cells) Poll) ≡ Decides d.effect d.reply) }
{
    match first_item(table) {
        Some((index, word)) => Ok(Decision {
            reply: Reply::Text(word.copy()?),
            effect: Effect::Drop {
                instance: table.instance(),
                cell: Cell::At(index),
            },
        }),
        None => Ok(Decision {
            effect: Effect::Nothing,
            reply: Reply::None,
        }),
    }
}

// The first such word is taken out.
fn remove_word(table: &CellTable, word: &Word) -> Decision
    ensures { (session index : ℕ) → chosen Queue (queue_row (call_of [] table.now.instance session index) (items_in table.now.instance table.now.cells) (RemoveWord word.now)) ≡ Decides result.effect result.reply }
{
    match first_with(table, word) {
        Some(index) => Decision {
            effect: Effect::Drop {
                instance: table.instance(),
                cell: Cell::At(index),
            },
            reply: Reply::Truth(true),
        },
        None => Decision {
            effect: Effect::Nothing,
            reply: Reply::Truth(false),
        },
    }
}

// What is shown of the first word.
fn peek(table: &CellTable) -> Result<Reply, NoMemory>
    requires { table.now.kind ≡ Queue }
    ensures { IfOk result (λ reply. reply ≡ option_map_or (λ x. Text_reply x.1) (head_of (items_in table.now.instance table.now.cells)) No_reply) }
{
    match first_item(table) {
        Some((_, word)) => Ok(Reply::Text(word.copy()?)),
        None => Ok(Reply::None),
    }
}

// All words are taken out.
fn clear(table: &CellTable) -> Effect
    requires { table.now.kind ≡ Queue }
    ensures { result ≡ cond (is_some (head_of (items_in table.now.instance table.now.cells))) (Wipe table.now.instance) Nothing }
{
    if first_item(table).is_some() {
        Effect::Wipe {
            instance: table.instance(),
        }
    } else {
        Effect::Nothing
    }
}

fn decide(table: &CellTable, op: &Op, index: Index) -> Result<Decision, Refuse>
    requires { table.now.kind ≡ Queue }
    ensures { (session : ℕ) → Resolves (chosen Queue (queue_row (call_of [] table.now.instance session index) (items_in table.now.instance table.now.cells) op.now)) result }
{
    match op {
        Op::Enqueue { word } => Ok(Decision {
            effect: Effect::Put {
                instance: table.instance(),
                cell: Cell::At(index),
                content: Content::Text(word.copy()?),
                owner: None,
            },
            reply: Reply::None,
        }),
        Op::Poll => Ok(poll(table)?),
        Op::Peek => Ok(Decision {
            effect: Effect::Nothing,
            reply: peek(table)?,
        }),
        Op::RemoveWord { word } => Ok(remove_word(table, word)),
        Op::Size => Ok(Decision {
            effect: Effect::Nothing,
            reply: Reply::count(size(table)),
        }),
        Op::Clear => Ok(Decision {
            effect: clear(table),
            reply: Reply::None,
        }),
        _ => Err(Refuse::Kind { is: Kind::Queue }),
    }
}

impl Resource for QueueCells {
    ghost use Rattle.host_types.specs.declared.entry.Kind.TheVariants.{Queue};
    ghost use Rattle.cell_table.specs.Seen.{IsReady};
    ghost use Rattle.log_model.specs.kinds.Reading.{kind_decision};
    ghost use Rattle.log_model.proofs.kinds.KindLaws.{kind_lawful, kind_one_owner};

    ghost kind = { Queue };

    ghost instance = { λ s. s.instance };

    ghost cells = { λ s. s.cells };

    ghost is_ready = { IsReady };

    ghost decides = { kind_decision Queue };

    ghost lawful = { kind_lawful Queue };

    ghost one_owner = { kind_one_owner Queue };

    fn resolve(
        &self,
        _alloc: Global,
        op: &Op,
        _session: Index,
        index: Index,
    ) -> Result<Decision, Refuse> {
        decide(&self.table, op, index)
    }

    fn look(&self, _alloc: Global, op: &Op) -> Result<Reply, Refuse> {
        match op {
            Op::Peek => Ok(peek(&self.table)?),
            Op::Size => Ok(Reply::count(size(&self.table))),
            _ => Err(Refuse::Kind { is: Kind::Queue }),
        }
    }

    fn list(&self, _alloc: Global, out: &mut Vec<Place>) -> Result<(), NoMemory> {
        self.table.list(out)
    }

    fn tells(
        &self,
        alloc: Global,
        _name: &Key,
        _effect: &Effect,
        _index: Index,
    ) -> Result<Told, NoMemory> {
        Ok(Told::new(alloc))
    }

    fn tells_close(&self, alloc: Global, _name: &Key, _owner: Index) -> Result<Told, NoMemory> {
        Ok(Told::new(alloc))
    }

    fn prepare(&mut self, alloc: Global, effect: &Effect, index: Index) -> Result<(), NoMemory> {
        self.table.prepare(alloc, effect, index)
    }

    fn apply(&mut self, commit: Commit, effect: &Effect, lender: &mut Lender) {
        self.table.apply(commit, effect, lender);
    }

    fn forget_owner(&mut self, owner: Index, by: Index, lender: &mut Lender) {
        self.table.forget_owner(owner, by, lender);
    }

    fn end(self, lender: &mut Lender) {
        let QueueCells { table } = self;
        table.end(lender);
    }
}
