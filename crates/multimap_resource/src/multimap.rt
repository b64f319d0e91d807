// A multimap: any number of words by each key.
ghost use Rattle.std.specs.Prelude.{◌≡◌, ℕ, [], None, length, not, is_some, IfOk};
ghost use Rattle.host_types.specs.declared.entry.Kind.TheVariants.{Multimap};
ghost use Rattle.host_types.specs.declared.entry.Cell.TheVariants.{Pair};
ghost use Rattle.host_types.specs.declared.entry.Content.TheVariants.{Mark};
ghost use Rattle.host_types.specs.declared.entry.Effect.TheVariants.{Nothing, Put, Drop as Drops};
ghost use Rattle.host_types.specs.declared.entry.Op.TheVariants.{Remove};
ghost use Rattle.host_types.specs.Decision.{Decides};
ghost use Rattle.machine.specs.Answers.{Resolves};
ghost use Rattle.log_model.specs.plain.Plain.{has_item, head_of, pair_cmp};
ghost use Rattle.log_model.specs.plain.Rows.{multimap_row, count_reply};
ghost use Rattle.log_model.specs.kinds.Deciding.{chosen, call_of};
ghost use Rattle.multimap_resource.specs.Reading.{pairs_of};

use crate::words::{count, least_words};
use cell_table::CellTable;
use commit_lending::{Commit, Lender};
use host_types::{Cell, Content, Effect, Index, Key, Kind, NoMemory, Op, Reply, Word};
use machine::{Decision, Place, Refuse, Resource, Told};
use std::alloc::Global;
use std::marker::Model;

/// Pairs of a key and a word, each once. Contracts see its table of cells.
pub struct MultimapCells {
    table: CellTable,
}

impl Model for MultimapCells {
    ghost use Rattle.std.specs.Prelude.{◌≡◌};
    ghost use Rattle.host_types.specs.declared.entry.Kind.TheVariants.{Multimap};
    ghost use Rattle.cell_table.specs.Seen.{Table};

    ghost Value = { Table };

    ghost view = { λ v. v.table };

    ghost invariant = { λ v. v.table.kind ≡ Multimap };
}

impl MultimapCells {
    /// The multimap of this instance, which has no pair yet. It takes no memory.
    pub fn new(alloc: Global, instance: Index) -> MultimapCells
        ensures instance { result.instance ≡ instance }
        ensures cells { result.cells ≡ [] }
    {
        MultimapCells {
            table: CellTable::new(alloc, Kind::Multimap, instance),
        }
    }
}

// The pair is there.
fn has(table: &CellTable, key: &Key, word: &Word) -> Result<bool, NoMemory>
    requires { table.now.kind ≡ Multimap }
    ensures { IfOk result (λ there. there ≡ has_item pair_cmp (key.now, word.now) (pairs_of table.now)) }
{
    table.in_order();
    let cell = Cell::Pair(key.copy()?, word.copy()?);
    let there = table.contains(&cell);
    drop(cell);
    Ok(there)
}

// How many pairs there are.
fn size(table: &CellTable) -> Reply
    requires { table.now.kind ≡ Multimap }
    ensures { result ≡ count_reply (length (pairs_of table.now)) }
{
    table.in_order();
    Reply::count(table.len())
}

fn is_empty(table: &CellTable) -> bool
    requires { table.now.kind ≡ Multimap }
    ensures { result ≡ not (is_some (head_of (pairs_of table.now))) }
{
    table.in_order();
    table.len() == 0
}

fn put(instance: Index, key: &Key, word: &Word) -> Result<Effect, NoMemory>
    ensures { IfOk result (λ effect. effect ≡ Put instance (Pair key.now word.now) Mark None) }
{
    Ok(Effect::Put {
        instance,
        cell: Cell::Pair(key.copy()?, word.copy()?),
        content: Content::Mark,
        owner: None,
    })
}

fn drops(instance: Index, key: &Key, word: &Word) -> Result<Effect, NoMemory>
    ensures { IfOk result (λ effect. effect ≡ Drops instance (Pair key.now word.now)) }
{
    Ok(Effect::Drop {
        instance,
        cell: Cell::Pair(key.copy()?, word.copy()?),
    })
}

fn looks(reply: Reply) -> Decision
    ensures effect { result.effect ≡ Nothing }
    ensures reply { result.reply ≡ reply }
{
    Decision {
        effect: Effect::Nothing,
        reply,
    }
}

// Takes out all pairs of the key.
fn remove(table: &CellTable, alloc: Global, key: &Key) -> Result<Decision, NoMemory>
    requires { table.now.kind ≡ Multimap }
    ensures { IfOk result (λ d. (session index : ℕ) → chosen Multimap (multimap_row (call_of [] table.now.instance session index) (pairs_of table.now) (Remove key.now)) ≡ Decides d.effect d.reply) }
{
    let count = count(table, alloc, key)?;
    if count == 0 {
        return Ok(Decision {
            effect: Effect::Nothing,
            reply: Reply::Number(0),
        });
    }
    Ok(Decision {
        effect: Effect::WipeKey {
            instance: table.instance(),
            key: key.copy()?,
        },
        reply: Reply::count(count),
    })
}

fn decide(table: &CellTable, alloc: Global, op: &Op) -> Result<Decision, Refuse>
    requires { table.now.kind ≡ Multimap }
    ensures { (session index : ℕ) → Resolves (chosen Multimap (multimap_row (call_of [] table.now.instance session index) (pairs_of table.now) op.now)) result }
{
    match op {
        Op::Put { key, word } => {
            if has(table, key, word)? {
                Ok(looks(Reply::Truth(false)))
            } else {
                Ok(Decision {
                    effect: put(table.instance(), key, word)?,
                    reply: Reply::Truth(true),
                })
            }
        }
        Op::RemoveOne { key, word } => {
            if has(table, key, word)? {
                Ok(Decision {
                    effect: drops(table.instance(), key, word)?,
                    reply: Reply::Truth(true),
                })
            } else {
                Ok(looks(Reply::Truth(false)))
            }
        }
        Op::Remove { key } => Ok(remove(table, alloc, key)?),
        Op::GetOf { key } => Ok(looks(Reply::Words(least_words(table, alloc, key)?))),
        Op::Count { key } => Ok(looks(Reply::count(count(table, alloc, key)?))),
        Op::Size => Ok(looks(size(table))),
        Op::Clear => {
            if is_empty(table) {
                Ok(looks(Reply::None))
            } else {
                Ok(Decision {
                    effect: Effect::Wipe {
                        instance: table.instance(),
                    },
                    reply: Reply::None,
                })
            }
        }
        _ => Err(Refuse::Kind { is: Kind::Multimap }),
    }
}

impl Resource for MultimapCells {
    ghost use Rattle.host_types.specs.declared.entry.Kind.TheVariants.{Multimap};
    ghost use Rattle.cell_table.specs.Seen.{IsReady};
    ghost use Rattle.log_model.specs.kinds.Reading.{kind_decision};
    ghost use Rattle.log_model.proofs.kinds.KindLaws.{kind_lawful, kind_one_owner};

    ghost kind = { Multimap };

    ghost instance = { λ s. s.instance };

    ghost cells = { λ s. s.cells };

    ghost is_ready = { IsReady };

    ghost decides = { kind_decision Multimap };

    ghost lawful = { kind_lawful Multimap };

    ghost one_owner = { kind_one_owner Multimap };

    fn resolve(
        &self,
        alloc: Global,
        op: &Op,
        _session: Index,
        _index: Index,
    ) -> Result<Decision, Refuse> {
        decide(&self.table, alloc, op)
    }

    fn look(&self, alloc: Global, op: &Op) -> Result<Reply, Refuse> {
        match op {
            Op::GetOf { key } => Ok(Reply::Words(least_words(&self.table, alloc, key)?)),
            Op::Count { key } => Ok(Reply::count(count(&self.table, alloc, key)?)),
            Op::Size => Ok(size(&self.table)),
            _ => Err(Refuse::Kind { is: Kind::Multimap }),
        }
    }

    fn list(&self, _alloc: Global, out: &mut Vec<Place>) -> Result<(), NoMemory> {
        self.table.list(out)
    }

    fn tells(
        &self,
        alloc: Global,
        _name: &Key,
        _effect: &Effect,
        _index: Index,
    ) -> Result<Told, NoMemory> {
        Ok(Told::new(alloc))
    }

    fn tells_close(&self, alloc: Global, _name: &Key, _owner: Index) -> Result<Told, NoMemory> {
        Ok(Told::new(alloc))
    }

    fn prepare(&mut self, alloc: Global, effect: &Effect, index: Index) -> Result<(), NoMemory> {
        self.table.prepare(alloc, effect, index)
    }

    fn apply(&mut self, commit: Commit, effect: &Effect, lender: &mut Lender) {
        self.table.apply(commit, effect, lender);
    }

    fn forget_owner(&mut self, owner: Index, by: Index, lender: &mut Lender) {
        self.table.forget_owner(owner, by, lender);
    }

    fn end(self, lender: &mut Lender) {
        let MultimapCells { table } = self;
        table.end(lender);
    }
}
