// A set: words, each once.
ghost use Rattle.std.specs.Prelude.{◌≡◌, ℕ, [], None, length, not, is_some, IfOk};
ghost use Rattle.host_types.specs.Cells.{text_cmp};
ghost use Rattle.host_types.specs.declared.entry.Kind.TheVariants.{Set};
ghost use Rattle.host_types.specs.declared.entry.Cell.TheVariants.{Member};
ghost use Rattle.host_types.specs.declared.entry.Content.TheVariants.{Mark};
ghost use Rattle.host_types.specs.declared.entry.Effect.TheVariants.{Put, Drop as Drops};
ghost use Rattle.machine.specs.Answers.{Resolves};
ghost use Rattle.log_model.specs.plain.Plain.{has_item, head_of};
ghost use Rattle.log_model.specs.plain.Rows.{set_row, count_reply};
ghost use Rattle.log_model.specs.kinds.Deciding.{chosen, call_of};
ghost use Rattle.map_set.specs.Reading.{words_of};

use cell_table::CellTable;
use commit_lending::{Commit, Lender};
use host_types::{Cell, Content, Effect, Index, Key, Kind, NoMemory, Op, Reply, Word};
use machine::{Decision, Place, Refuse, Resource, Told};
use std::alloc::Global;
use std::marker::Model;

/// Words, each once. Contracts see its table of cells.
pub struct SetCells {
    table: CellTable,
}

impl Model for SetCells {
    ghost use Rattle.std.specs.Prelude.{◌≡◌};
    ghost use Rattle.host_types.specs.declared.entry.Kind.TheVariants.{Set};
    ghost use Rattle.cell_table.specs.Seen.{Table};

    ghost Value = { Table };

    ghost view = { λ v. v.table };

    ghost invariant = { λ v. v.table.kind ≡ Set };
}

impl SetCells {
    /// The set of this instance, which has no word yet. It takes no memory.
    pub fn new(alloc: Global, instance: Index) -> SetCells
        ensures instance { result.instance ≡ instance }
        ensures cells { result.cells ≡ [] }
    {
        SetCells {
            table: CellTable::new(alloc, Kind::Set, instance),
        }
    }
}

// It has this word.
fn has(table: &CellTable, word: &Word) -> Result<bool, NoMemory>
    requires { table.now.kind ≡ Set }
    ensures { IfOk result (λ there. there ≡ has_item text_cmp word.now (words_of table.now)) }
{
    table.in_order();
    let cell = Cell::Member(word.copy()?);
    let there = table.contains(&cell);
    drop(cell);
    Ok(there)
}

// How many words there are.
fn size(table: &CellTable) -> Reply
    requires { table.now.kind ≡ Set }
    ensures { result ≡ count_reply (length (words_of table.now)) }
{
    table.in_order();
    Reply::count(table.len())
}

fn is_empty(table: &CellTable) -> bool
    requires { table.now.kind ≡ Set }
    ensures { result ≡ not (is_some (head_of (words_of table.now))) }
{
    table.in_order();
    table.len() == 0
}

fn put(instance: Index, word: &Word) -> Result<Effect, NoMemory>
    ensures { IfOk result (λ effect. effect ≡ Put instance (Member word.now) Mark None) }
{
    Ok(Effect::Put {
        instance,
        cell: Cell::Member(word.copy()?),
        content: Content::Mark,
        owner: None,
    })
}

fn drops(instance: Index, word: &Word) -> Result<Effect, NoMemory>
    ensures { IfOk result (λ effect. effect ≡ Drops instance (Member word.now)) }
{
    Ok(Effect::Drop {
        instance,
        cell: Cell::Member(word.copy()?),
    })
}

fn decide(table: &CellTable, op: &Op) -> Result<Decision, Refuse>
    requires { table.now.kind ≡ Set }
    ensures { (session index : ℕ) → Resolves (chosen Set (set_row (call_of [] table.now.instance session index) (words_of table.now) op.now)) result }
{
    match op {
        Op::Insert { word } => {
            if has(table, word)? {
                Ok(Decision {
                    effect: Effect::Nothing,
                    reply: Reply::Truth(false),
                })
            } else {
                Ok(Decision {
                    effect: put(table.instance(), word)?,
                    reply: Reply::Truth(true),
                })
            }
        }
        Op::Discard { word } => {
            if has(table, word)? {
                Ok(Decision {
                    effect: drops(table.instance(), word)?,
                    reply: Reply::Truth(true),
                })
            } else {
                Ok(Decision {
                    effect: Effect::Nothing,
                    reply: Reply::Truth(false),
                })
            }
        }
        Op::Has { word } => Ok(Decision {
            effect: Effect::Nothing,
            reply: Reply::Truth(has(table, word)?),
        }),
        Op::Size => Ok(Decision {
            effect: Effect::Nothing,
            reply: size(table),
        }),
        Op::Clear => {
            if is_empty(table) {
                Ok(Decision {
                    effect: Effect::Nothing,
                    reply: Reply::None,
                })
            } else {
                Ok(Decision {
                    effect: Effect::Wipe {
                        instance: table.instance(),
                    },
                    reply: Reply::None,
                })
            }
        }
        _ => Err(Refuse::Kind { is: Kind::Set }),
    }
}

impl Resource for SetCells {
    ghost use Rattle.host_types.specs.declared.entry.Kind.TheVariants.{Set};
    ghost use Rattle.cell_table.specs.Seen.{IsReady};
    ghost use Rattle.log_model.specs.kinds.Reading.{kind_decision};
    ghost use Rattle.log_model.proofs.kinds.KindLaws.{kind_lawful, kind_one_owner};

    ghost kind = { Set };

    ghost instance = { λ s. s.instance };

    ghost cells = { λ s. s.cells };

    ghost is_ready = { IsReady };

    ghost decides = { kind_decision Set };

    ghost lawful = { kind_lawful Set };

    ghost one_owner = { kind_one_owner Set };

    fn resolve(
        &self,
        _alloc: Global,
        op: &Op,
        _session: Index,
        _index: Index,
    ) -> Result<Decision, Refuse> {
        decide(&self.table, op)
    }

    fn look(&self, _alloc: Global, op: &Op) -> Result<Reply, Refuse> {
        match op {
            Op::Has { word } => Ok(Reply::Truth(has(&self.table, word)?)),
            Op::Size => Ok(size(&self.table)),
            _ => Err(Refuse::Kind { is: Kind::Set }),
        }
    }

    fn list(&self, _alloc: Global, out: &mut Vec<Place>) -> Result<(), NoMemory> {
        self.table.list(out)
    }

    fn tells(
        &self,
        alloc: Global,
        _name: &Key,
        _effect: &Effect,
        _index: Index,
    ) -> Result<Told, NoMemory> {
        Ok(Told::new(alloc))
    }

    fn tells_close(&self, alloc: Global, _name: &Key, _owner: Index) -> Result<Told, NoMemory> {
        Ok(Told::new(alloc))
    }

    fn prepare(&mut self, alloc: Global, effect: &Effect, index: Index) -> Result<(), NoMemory> {
        self.table.prepare(alloc, effect, index)
    }

    fn apply(&mut self, commit: Commit, effect: &Effect, lender: &mut Lender) {
        self.table.apply(commit, effect, lender);
    }

    fn forget_owner(&mut self, owner: Index, by: Index, lender: &mut Lender) {
        self.table.forget_owner(owner, by, lender);
    }

    fn end(self, lender: &mut Lender) {
        let SetCells { table } = self;
        table.end(lender);
    }
}
