// A topic: those who listen are told what is published.
ghost use Rattle.std.specs.Prelude.{◌≡◌, ℕ, [], length, IfOk};
ghost use Rattle.host_types.specs.declared.entry.Kind.TheVariants.{Topic};
ghost use Rattle.machine.specs.Answers.{Resolves};
ghost use Rattle.log_model.specs.plain.Plain.{Topic_is};
ghost use Rattle.log_model.specs.plain.Rows.{topic_row};
ghost use Rattle.log_model.specs.kinds.Deciding.{chosen, call_of, effect_tells};
ghost use Rattle.log_model.specs.kinds.Reading.{listeners_in};

use crate::listeners::{listen, tell_listeners, unlisten};
use cell_table::CellTable;
use commit_lending::{Commit, Lender};
use host_types::{Effect, Event, Index, Key, Kind, NoMemory, Op, Reply};
use machine::{Decision, Place, Refuse, Resource, Told};
use std::alloc::Global;
use std::marker::Model;

/// A topic: a cell for each session that listens. Contracts see it as its table of cells.
///
/// It is asked to listen, and to listen no more, in time logarithmic in the number of listeners; a publication takes that for each
/// of them.
pub struct TopicCells {
    table: CellTable,
}

impl Model for TopicCells {
    ghost use Rattle.std.specs.Prelude.{◌≡◌};
    ghost use Rattle.host_types.specs.declared.entry.Kind.TheVariants.{Topic};
    ghost use Rattle.cell_table.specs.Seen.{Table};

    ghost Value = { Table };

    ghost view = { λ t. t.table };

    ghost invariant = { λ t. t.table.kind ≡ Topic };
}

impl TopicCells {
    /// The topic of this instance, to which nobody listens yet. It takes no memory.
    pub fn new(alloc: Global, instance: Index) -> TopicCells
        ensures instance { result.instance ≡ instance }
        ensures cells { result.cells ≡ [] }
    {
        TopicCells {
            table: CellTable::new(alloc, Kind::Topic, instance),
        }
    }
}

// How many listen.
fn size(table: &CellTable) -> usize
    requires { table.now.kind ≡ Topic }
    ensures { result ≡ length (listeners_in table.now.instance table.now.cells) }
{
    table.in_order();
    table.len()
}

fn decide(table: &CellTable, op: &Op, session: Index) -> Result<Decision, Refuse>
    requires { table.now.kind ≡ Topic }
    ensures { (index : ℕ) → Resolves (chosen Topic (topic_row (call_of [] table.now.instance session index) (listeners_in table.now.instance table.now.cells) op.now)) result }
{
    match op {
        Op::Publish { word } => Ok(Decision {
            effect: Effect::Tell {
                instance: table.instance(),
                word: word.copy()?,
            },
            reply: Reply::count(size(table)),
        }),
        Op::Listen => Ok(listen(table, session)),
        Op::Unlisten => Ok(unlisten(table, session)),
        Op::Size => Ok(Decision {
            effect: Effect::Nothing,
            reply: Reply::count(size(table)),
        }),
        _ => Err(Refuse::Kind { is: Kind::Topic }),
    }
}

// What an effect tells: a publication tells each listener its word.
fn tells(table: &CellTable, alloc: Global, name: &Key, effect: &Effect) -> Result<Told, NoMemory>
    ensures { (index : ℕ) → IfOk result (λ told. told ≡ effect_tells index name.now (Topic_is (listeners_in table.now.instance table.now.cells)) effect.now) }
{
    if let Effect::Tell { word, .. } = effect {
        let event = Event::Message {
            name: name.copy()?,
            word: word.copy()?,
        };
        let told = tell_listeners(table, alloc, &event);
        drop(event);
        told
    } else {
        Ok(Told::new(alloc))
    }
}

impl Resource for TopicCells {
    ghost use Rattle.host_types.specs.declared.entry.Kind.TheVariants.{Topic};
    ghost use Rattle.cell_table.specs.Seen.{IsReady};
    ghost use Rattle.log_model.specs.kinds.Reading.{kind_decision};
    ghost use Rattle.log_model.proofs.kinds.KindLaws.{kind_lawful, kind_one_owner};

    ghost kind = { Topic };

    ghost instance = { λ s. s.instance };

    ghost cells = { λ s. s.cells };

    ghost is_ready = { IsReady };

    ghost decides = { kind_decision Topic };

    ghost lawful = { kind_lawful Topic };

    ghost one_owner = { kind_one_owner Topic };

    fn resolve(
        &self,
        _alloc: Global,
        op: &Op,
        session: Index,
        _index: Index,
    ) -> Result<Decision, Refuse> {
        decide(&self.table, op, session)
    }

    fn look(&self, _alloc: Global, op: &Op) -> Result<Reply, Refuse> {
        match op {
            Op::Size => Ok(Reply::count(size(&self.table))),
            _ => Err(Refuse::Kind { is: Kind::Topic }),
        }
    }

    fn list(&self, _alloc: Global, out: &mut Vec<Place>) -> Result<(), NoMemory> {
        self.table.list(out)
    }

    fn tells(
        &self,
        alloc: Global,
        name: &Key,
        effect: &Effect,
        _index: Index,
    ) -> Result<Told, NoMemory> {
        tells(&self.table, alloc, name, effect)
    }

    fn tells_close(&self, alloc: Global, _name: &Key, _owner: Index) -> Result<Told, NoMemory> {
        Ok(Told::new(alloc))
    }

    fn prepare(&mut self, alloc: Global, effect: &Effect, index: Index) -> Result<(), NoMemory> {
        self.table.prepare(alloc, effect, index)
    }

    fn apply(&mut self, commit: Commit, effect: &Effect, lender: &mut Lender) {
        self.table.apply(commit, effect, lender);
    }

    fn forget_owner(&mut self, owner: Index, by: Index, lender: &mut Lender) {
        self.table.forget_owner(owner, by, lender);
    }

    fn end(self, lender: &mut Lender) {
        let TopicCells { table } = self;
        table.end(lender);
    }
}
