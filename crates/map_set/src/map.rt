// A map: words by their keys.
ghost use Rattle.std.specs.Prelude.{◌≡◌, ℕ, [], None, length, not, is_some, IfOk, option_copied};
ghost use Rattle.std.specs.FinMap.Entries.{find};
ghost use Rattle.host_types.specs.Cells.{text_cmp};
ghost use Rattle.host_types.specs.declared.entry.Kind.TheVariants.{Map};
ghost use Rattle.host_types.specs.declared.entry.Cell.TheVariants.{Named};
ghost use Rattle.host_types.specs.declared.entry.Content.TheVariants.{Text};
ghost use Rattle.host_types.specs.declared.entry.Effect.TheVariants.{Nothing, Put, Drop as Drops};
ghost use Rattle.machine.specs.Answers.{Resolves};
ghost use Rattle.log_model.specs.plain.Plain.{head_of};
ghost use Rattle.log_model.specs.plain.Rows.{map_row, count_reply, text_or_none};
ghost use Rattle.log_model.specs.kinds.Deciding.{chosen, call_of};
ghost use Rattle.log_model.specs.kinds.Reading.{text_of};
ghost use Rattle.map_set.specs.Reading.{pairs_of};

use cell_table::CellTable;
use commit_lending::{Commit, Lender};
use host_types::{Cell, Content, Effect, Index, Key, Kind, NoMemory, Op, Reply, Word};
use machine::{Decision, Place, Refuse, Resource, Told};
use std::alloc::Global;
use std::marker::Model;

/// Words by their keys. Contracts see its table of cells.
pub struct MapCells {
    table: CellTable,
}

impl Model for MapCells {
    ghost use Rattle.std.specs.Prelude.{◌≡◌};
    ghost use Rattle.host_types.specs.declared.entry.Kind.TheVariants.{Map};
    ghost use Rattle.cell_table.specs.Seen.{Table};

    ghost Value = { Table };

    ghost view = { λ v. v.table };

    ghost invariant = { λ v. v.table.kind ≡ Map };
}

impl MapCells {
    /// The map of this instance, which has no key yet. It takes no memory.
    pub fn new(alloc: Global, instance: Index) -> MapCells
        ensures instance { result.instance ≡ instance }
        ensures cells { result.cells ≡ [] }
    {
        MapCells {
            table: CellTable::new(alloc, Kind::Map, instance),
        }
    }
}

// The word of a content, if it is one.
fn reply_of(content: Option<&Content>) -> Result<Reply, NoMemory>
    ensures { IfOk result (λ reply. reply ≡ text_or_none (text_of (option_copied content.entry))) }
{
    match content {
        Some(Content::Text(word)) => Ok(Reply::Text(word.copy()?)),
        _ => Ok(Reply::None),
    }
}

// What stands at the key, as it is replied.
fn word_at(table: &CellTable, key: &Key) -> Result<Reply, NoMemory>
    requires { table.now.kind ≡ Map }
    ensures { IfOk result (λ reply. reply ≡ text_or_none (find text_cmp key.now (pairs_of table.now))) }
{
    table.in_order();
    let cell = Cell::Named(key.copy()?);
    let reply = reply_of(table.content(&cell));
    drop(cell);
    reply
}

// The key is there.
fn has(table: &CellTable, key: &Key) -> Result<bool, NoMemory>
    requires { table.now.kind ≡ Map }
    ensures { IfOk result (λ there. there ≡ is_some (find text_cmp key.now (pairs_of table.now))) }
{
    table.in_order();
    let cell = Cell::Named(key.copy()?);
    let there = table.contains(&cell);
    drop(cell);
    Ok(there)
}

// How many keys there are.
fn size(table: &CellTable) -> Reply
    requires { table.now.kind ≡ Map }
    ensures { result ≡ count_reply (length (pairs_of table.now)) }
{
    table.in_order();
    Reply::count(table.len())
}

fn is_empty(table: &CellTable) -> bool
    requires { table.now.kind ≡ Map }
    ensures { result ≡ not (is_some (head_of (pairs_of table.now))) }
{
    table.in_order();
    table.len() == 0
}

fn put(instance: Index, key: &Key, word: &Word) -> Result<Effect, NoMemory>
    ensures { IfOk result (λ effect. effect ≡ Put instance (Named key.now) (Text word.now) None) }
{
    Ok(Effect::Put {
        instance,
        cell: Cell::Named(key.copy()?),
        content: Content::Text(word.copy()?),
        owner: None,
    })
}

fn drops(instance: Index, key: &Key) -> Result<Effect, NoMemory>
    ensures { IfOk result (λ effect. effect ≡ Drops instance (Named key.now)) }
{
    Ok(Effect::Drop {
        instance,
        cell: Cell::Named(key.copy()?),
    })
}

// A put, with the word that stood there before as its reply.
fn replace(table: &CellTable, key: &Key, word: &Word) -> Result<Decision, NoMemory>
    requires { table.now.kind ≡ Map }
    ensures { IfOk result (λ d. (d.effect ≡ Put table.now.instance (Named key.now) (Text word.now) None) × (d.reply ≡ text_or_none (find text_cmp key.now (pairs_of table.now)))) }
{
    let reply = word_at(table, key)?;
    Ok(Decision {
        effect: put(table.instance(), key, word)?,
        reply,
    })
}

// A drop, with the word that stands there as its reply.
fn remove(table: &CellTable, key: &Key) -> Result<Decision, NoMemory>
    requires { table.now.kind ≡ Map }
    ensures { IfOk result (λ d. (d.effect ≡ Drops table.now.instance (Named key.now)) × (d.reply ≡ text_or_none (find text_cmp key.now (pairs_of table.now)))) }
{
    let reply = word_at(table, key)?;
    Ok(Decision {
        effect: drops(table.instance(), key)?,
        reply,
    })
}

fn looks(reply: Reply) -> Decision
    ensures effect { result.effect ≡ Nothing }
    ensures reply { result.reply ≡ reply }
{
    Decision {
        effect: Effect::Nothing,
        reply,
    }
}

fn decide(table: &CellTable, op: &Op) -> Result<Decision, Refuse>
    requires { table.now.kind ≡ Map }
    ensures { (session index : ℕ) → Resolves (chosen Map (map_row (call_of [] table.now.instance session index) (pairs_of table.now) op.now)) result }
{
    match op {
        Op::Put { key, word } => Ok(replace(table, key, word)?),
        Op::PutIf { key, word } => {
            if has(table, key)? {
                Ok(looks(word_at(table, key)?))
            } else {
                Ok(Decision {
                    effect: put(table.instance(), key, word)?,
                    reply: Reply::None,
                })
            }
        }
        Op::Replace { key, word } => {
            if has(table, key)? {
                Ok(replace(table, key, word)?)
            } else {
                Ok(looks(Reply::None))
            }
        }
        Op::Remove { key } => {
            if has(table, key)? {
                Ok(remove(table, key)?)
            } else {
                Ok(looks(Reply::None))
            }
        }
        Op::GetOf { key } => Ok(looks(word_at(table, key)?)),
        Op::Size => Ok(looks(size(table))),
        Op::Clear => {
            if is_empty(table) {
                Ok(looks(Reply::None))
            } else {
                Ok(Decision {
                    effect: Effect::Wipe {
                        instance: table.instance(),
                    },
                    reply: Reply::None,
                })
            }
        }
        _ => Err(Refuse::Kind { is: Kind::Map }),
    }
}

impl Resource for MapCells {
    ghost use Rattle.host_types.specs.declared.entry.Kind.TheVariants.{Map};
    ghost use Rattle.cell_table.specs.Seen.{IsReady};
    ghost use Rattle.log_model.specs.kinds.Reading.{kind_decision};
    ghost use Rattle.log_model.proofs.kinds.KindLaws.{kind_lawful, kind_one_owner};

    ghost kind = { Map };

    ghost instance = { λ s. s.instance };

    ghost cells = { λ s. s.cells };

    ghost is_ready = { IsReady };

    ghost decides = { kind_decision Map };

    ghost lawful = { kind_lawful Map };

    ghost one_owner = { kind_one_owner Map };

    fn resolve(
        &self,
        _alloc: Global,
        op: &Op,
        _session: Index,
        _index: Index,
    ) -> Result<Decision, Refuse> {
        decide(&self.table, op)
    }

    fn look(&self, _alloc: Global, op: &Op) -> Result<Reply, Refuse> {
        match op {
            Op::GetOf { key } => Ok(word_at(&self.table, key)?),
            Op::Size => Ok(size(&self.table)),
            _ => Err(Refuse::Kind { is: Kind::Map }),
        }
    }

    fn list(&self, _alloc: Global, out: &mut Vec<Place>) -> Result<(), NoMemory> {
        self.table.list(out)
    }

    fn tells(
        &self,
        alloc: Global,
        _name: &Key,
        _effect: &Effect,
        _index: Index,
    ) -> Result<Told, NoMemory> {
        Ok(Told::new(alloc))
    }

    fn tells_close(&self, alloc: Global, _name: &Key, _owner: Index) -> Result<Told, NoMemory> {
        Ok(Told::new(alloc))
    }

    fn prepare(&mut self, alloc: Global, effect: &Effect, index: Index) -> Result<(), NoMemory> {
        self.table.prepare(alloc, effect, index)
    }

    fn apply(&mut self, commit: Commit, effect: &Effect, lender: &mut Lender) {
        self.table.apply(commit, effect, lender);
    }

    fn forget_owner(&mut self, owner: Index, by: Index, lender: &mut Lender) {
        self.table.forget_owner(owner, by, lender);
    }

    fn end(self, lender: &mut Lender) {
        let MapCells { table } = self;
        table.end(lender);
    }
}
