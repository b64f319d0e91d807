// A machine without cells, which tells sessions of each command and of the end of each session.
ghost use Rattle.std.specs.Prelude.{◌≡◌, ◌∷◌, [], IfOk};
ghost use Rattle.library_tests.specs.Tellers.{lefts};

use commit_lending::{Commit, Lender};
use host_types::{Effect, Event, Index, Key, NoMemory, Op, Reply};
use machine::{Decision, Machine, Place, Refuse, Told, close_own};
use std::alloc::Global;

/// It stores no effect. Of a command sessions 1, 2 and 3 are told, and 9, in no order; of the end of a session this one and others.
pub struct Teller;

/// The name of whatever they are told of.
fn name(alloc: Global) -> Result<Key, NoMemory>
    ensures { IfOk result (λ key. key ≡ 116 ∷ []) }
{
    match Key::new(alloc, b"t") {
        Ok(key) => Ok(key),
        Err(_) => Err(NoMemory),
    }
}

/// That these members left, each with the session that is told.
fn lefts(alloc: Global, members: &[(Index, Index)]) -> Result<Told, NoMemory>
    ensures { IfOk result (λ told. told ≡ lefts members.now) }
{
    let mut told = Told::new(alloc);
    for (session, member) in members {
        let name = name(alloc)?;
        let event = Event::Left {
            name,
            member: *member,
        };
        told.push((*session, event))?;
    }
    Ok(told)
}

impl Machine for Teller {
    ghost use Rattle.std.specs.Prelude.{◌≡◌, []};
    ghost use Rattle.host_types.specs.declared.entry.Effect.TheVariants.{Nothing};
    ghost use Rattle.library_tests.specs.Tellers.{teller_decision, teller_lawful, teller_one_owner};

    ghost cells = { λ _. [] };

    ghost is_ready = { λ _ effect _. effect ≡ Nothing };

    ghost decides = { teller_decision };

    ghost lawful = { teller_lawful };

    ghost one_owner = { teller_one_owner };

    fn resolve(
        &self,
        _alloc: Global,
        _name: &Key,
        _op: &Op,
        _session: Index,
        _index: Index,
    ) -> Result<Decision, Refuse> {
        Ok(Decision {
            effect: Effect::Nothing,
            reply: Reply::None,
        })
    }

    fn look(&self, _alloc: Global, _name: &Key, _op: &Op) -> Result<Reply, Refuse> {
        Ok(Reply::None)
    }

    fn list(&self, _alloc: Global, _out: &mut Vec<Place>) -> Result<(), NoMemory> {
        Ok(())
    }

    fn tells(&self, alloc: Global, _effect: &Effect, _index: Index) -> Result<Told, NoMemory> {
        lefts(
            alloc,
            &[(3, 10), (1, 11), (2, 12), (3, 13), (9, 14), (1, 15)],
        )
    }

    fn tells_close(&self, alloc: Global, owner: Index) -> Result<Told, NoMemory> {
        lefts(alloc, &[(owner, 20), (2, 21), (1, 22), (2, 23)])
    }

    fn prepare(&mut self, _alloc: Global, effect: &Effect, _index: Index) -> Result<(), NoMemory> {
        match effect {
            Effect::Nothing => Ok(()),
            _ => Err(NoMemory),
        }
    }

    fn apply(&mut self, commit: Commit, _effect: &Effect, lender: &mut Lender) {
        close_own(commit, lender);
    }

    fn forget_owner(&mut self, _owner: Index, _by: Index, _lender: &mut Lender) {}

    fn end(self, _lender: &mut Lender) {
        let Teller = self;
    }
}
