// A machine of many resources.
ghost use Rattle.std.specs.Prelude.{◌≡◌, ℕ, ◌+◌, ◌++◌, true, IfOk, OnOk, OnErr};
ghost use Rattle.host_types.specs.Cells.{Cells, places_of, after_effect, without_owner};
ghost use Rattle.host_types.specs.Decision.{MachineDecision, is_looking, MachineIsLawful, MachineHasOneOwner};
ghost use Rattle.host_types.specs.declared.entry.Effect.{Effect as AnyEffect};
ghost use Rattle.commit_lending.specs.Lent.{tokens, one_of};
ghost use Rattle.machine.specs.Answers.{Resolves, Looks};
ghost use Rattle.machine.specs.Listing.{listed};
ghost use Rattle.machine.specs.Release.{AreOut, Releases, Retires, CreatesAnew};

use crate::decision::{Decision, Refuse};
use crate::place::Place;
use crate::told::Told;
use commit_lending::{Commit, Lender};
use host_types::{Effect, Index, Key, NoMemory, Op, Reply};
use std::alloc::Global;

/// The whole of what a host replicates: named resources, each with its cells.
///
/// Contracts see its cells, those of all instances and the names with their instances and kinds; what it is prepared for; and its
/// decision: what `resolve`, `look`, `tells` and `tells_close` answer, as functions of its cells. What is said of `Resource` holds
/// here over all instances.
pub trait Machine {
    /// Its cells and names.
    ghost cells: { Self → Cells };

    /// There is room to apply this effect of the entry with this index, once.
    ghost is_ready: { Self → AnyEffect → ℕ → Type 0 };

    /// What it decides, shows and tells.
    ghost decides: { MachineDecision };

    /// Decides an operation on the resource of this name, of a session, whose entry would have this index. It changes nothing.
    fn resolve(
        &self,
        alloc: Global,
        name: &Key,
        op: &Op,
        session: Index,
        index: Index,
    ) -> Result<Decision, Refuse>
        ensures { Resolves (decides.resolve (cells self.now) name.now op.now session index) result };

    /// What an operation shows that only looks.
    fn look(&self, alloc: Global, name: &Key, op: &Op) -> Result<Reply, Refuse>
        requires { is_looking op.now ≡ true }
        ensures { Looks (decides.look (cells self.now) name.now op.now) result };

    /// Appends each name and each cell once: first the names as cells of instance 0, then by rising instance and cell. After an
    /// error the list is as before.
    fn list(&self, alloc: Global, out: &mut Vec<Place>) -> Result<(), NoMemory>
        ensures ok { OnOk result (out.new.items ≡ out.old.items ++ listed (cells self.now)) }
        ensures err { OnErr result (out.new.items ≡ out.old.items) };

    /// The events that the effect of the entry with this index makes, on the cells as they are.
    fn tells(&self, alloc: Global, effect: &Effect, index: Index) -> Result<Told, NoMemory>
        ensures { IfOk result (λ told. told ≡ decides.tells (cells self.now) effect.now index) };

    /// The events that the closing of this session makes, on the cells as they are, by rising instance.
    fn tells_close(&self, alloc: Global, owner: Index) -> Result<Told, NoMemory>
        ensures { IfOk result (λ told. told ≡ decides.tells_close (cells self.now) owner) };

    /// Makes room for one later `apply` of this effect. The cells stay, whatever it answers.
    fn prepare(&mut self, alloc: Global, effect: &Effect, index: Index) -> Result<(), NoMemory>
        ensures ready { OnOk result (is_ready self.new effect.now index) }
        ensures cells { cells self.new ≡ cells self.old };

    /// Does what the effect says, as the entry of the commit. The machine was prepared for both. A `Create` is at an index of at
    /// least 1, in whose instance no cell stands. All that the machine holds is out at this lender, and so is the commit, which
    /// it doesn't hold yet. It takes no memory and can't fail.
    fn apply(&mut self, commit: Commit, effect: &Effect, lender: &mut Lender)
        requires anew { CreatesAnew (cells self.old) commit effect.now }
        requires ready { is_ready self.old effect.now commit }
        requires held { AreOut (places_of (cells self.old)) lender.old }
        requires new { places_of (cells self.old) commit ≡ 0 }
        requires lent { tokens lender.old commit ≡ 1 }
        ensures cells { cells self.new ≡ after_effect (cells self.old) commit effect.now }
        ensures released { Releases (λ j. places_of (cells self.old) j + one_of commit j) (places_of (cells self.new)) commit lender.old lender.new };

    /// Drops the cells of this session, for the entry with the index `by` that closed it. All that the machine holds is out at this
    /// lender. It takes no memory and can't fail.
    fn forget_owner(&mut self, owner: Index, by: Index, lender: &mut Lender)
        requires { AreOut (places_of (cells self.old)) lender.old }
        ensures cells { cells self.new ≡ without_owner owner (cells self.old) }
        ensures released { Releases (places_of (cells self.old)) (places_of (cells self.new)) by lender.old lender.new };

    /// Retires all that it holds. All of that is out at this lender. It takes no memory and can't fail.
    fn end(self, lender: &mut Lender)
        requires { AreOut (places_of (cells self)) lender.old }
        ensures { Retires (places_of (cells self)) lender.old lender.new };

    /// Each decision is lawful.
    ghost lawful: { MachineIsLawful decides };

    /// A place that is put at two indexes has one owner.
    ghost one_owner: { MachineHasOneOwner decides };
}
