// One resource.
ghost use Rattle.std.specs.Prelude.{◌≡◌, ℕ, ◌+◌, ◌++◌, true, false, IfOk, OnOk, OnErr};
ghost use Rattle.host_types.specs.Cells.{Cells, places_of, instance_after, without_owner, is_create};
ghost use Rattle.host_types.specs.Decision.{ResourceDecision, is_looking, ResourceIsLawful, ResourceHasOneOwner};
ghost use Rattle.host_types.specs.declared.entry.Kind.{Kind as AnyKind};
ghost use Rattle.host_types.specs.declared.entry.Effect.{Effect as AnyEffect};
ghost use Rattle.commit_lending.specs.Lent.{tokens, one_of};
ghost use Rattle.machine.specs.Answers.{Resolves, Looks};
ghost use Rattle.machine.specs.Listing.{listed};
ghost use Rattle.machine.specs.Release.{AreOut, Releases, Retires};

use crate::decision::{Decision, Refuse};
use crate::place::Place;
use crate::told::Told;
use commit_lending::{Commit, Lender};
use host_types::{Effect, Index, Key, NoMemory, Op, Reply};
use std::alloc::Global;

/// One instance of a replicated resource: a finite map from cells to the entries that hold them.
///
/// An operation is decided on the cells as they are, by `resolve`. The entry with that decision is stored, and `apply` then does
/// what it says. The resource keeps the entry's commit for as long as the entry holds a cell, and hands it back to the lender when
/// another entry puts or drops that cell.
///
/// Contracts see its instance, its kind, its cells, what it is prepared for, and its decision: what `resolve`, `look`, `tells`
/// and `tells_close` answer, as functions of its cells. These functions obey two laws: each decision is lawful, and two puts that
/// are decided for one place at different indexes have one owner.
///
/// Want of memory is free: a call that has it may answer it, and changes nothing then.
pub trait Resource {
    /// What it is.
    ghost kind: { AnyKind };

    /// The index of the entry that created it.
    ghost instance: { Self → ℕ };

    /// Its cells.
    ghost cells: { Self → Cells };

    /// There is room to apply this effect of the entry with this index, once.
    ghost is_ready: { Self → AnyEffect → ℕ → Type 0 };

    /// What it decides, shows and tells.
    ghost decides: { ResourceDecision };

    /// Decides an operation of a session, whose entry would have this index. It changes nothing.
    fn resolve(
        &self,
        alloc: Global,
        op: &Op,
        session: Index,
        index: Index,
    ) -> Result<Decision, Refuse>
        ensures { Resolves (decides.resolve (instance self.now) (cells self.now) op.now session index) result };

    /// What an operation shows that only looks.
    fn look(&self, alloc: Global, op: &Op) -> Result<Reply, Refuse>
        requires { is_looking op.now ≡ true }
        ensures { Looks (decides.look (instance self.now) (cells self.now) op.now) result };

    /// Appends each cell once, by rising cell. After an error the list is as before.
    fn list(&self, alloc: Global, out: &mut Vec<Place>) -> Result<(), NoMemory>
        ensures ok { OnOk result (out.new.items ≡ out.old.items ++ listed (cells self.now)) }
        ensures err { OnErr result (out.new.items ≡ out.old.items) };

    /// The events that the effect of the entry with this index makes, on the cells as they are. `name` is the resource's.
    fn tells(
        &self,
        alloc: Global,
        name: &Key,
        effect: &Effect,
        index: Index,
    ) -> Result<Told, NoMemory>
        ensures { IfOk result (λ told. told ≡ decides.tells (instance self.now) (cells self.now) name.now effect.now index) };

    /// The events that the closing of this session makes, on the cells as they are.
    fn tells_close(&self, alloc: Global, name: &Key, owner: Index) -> Result<Told, NoMemory>
        ensures { IfOk result (λ told. told ≡ decides.tells_close (instance self.now) (cells self.now) name.now owner) };

    /// Makes room for one later `apply` of this effect. The cells stay, whatever it answers.
    fn prepare(&mut self, alloc: Global, effect: &Effect, index: Index) -> Result<(), NoMemory>
        ensures ready { OnOk result (is_ready self.new effect.now index) }
        ensures cells { cells self.new ≡ cells self.old }
        ensures instance { instance self.new ≡ instance self.old };

    /// Does what the effect says, as the entry of the commit. The resource was prepared for both, and the effect isn't a
    /// `Create`. All that it holds is out at this lender, and so is the commit, which it doesn't hold yet. It takes no memory and
    /// can't fail.
    fn apply(&mut self, commit: Commit, effect: &Effect, lender: &mut Lender)
        requires no_create { is_create effect.now ≡ false }
        requires ready { is_ready self.old effect.now commit }
        requires held { AreOut (places_of (cells self.old)) lender.old }
        requires new { places_of (cells self.old) commit ≡ 0 }
        requires lent { tokens lender.old commit ≡ 1 }
        ensures cells { cells self.new ≡ instance_after kind (instance self.old) (cells self.old) commit effect.now }
        ensures instance { instance self.new ≡ instance self.old }
        ensures released { Releases (λ j. places_of (cells self.old) j + one_of commit j) (places_of (cells self.new)) commit lender.old lender.new };

    /// Drops the cells of this session, for the entry with the index `by` that closed it. All that the resource holds is out at this
    /// lender. It takes no memory and can't fail.
    fn forget_owner(&mut self, owner: Index, by: Index, lender: &mut Lender)
        requires { AreOut (places_of (cells self.old)) lender.old }
        ensures cells { cells self.new ≡ without_owner owner (cells self.old) }
        ensures instance { instance self.new ≡ instance self.old }
        ensures released { Releases (places_of (cells self.old)) (places_of (cells self.new)) by lender.old lender.new };

    /// Retires all that it holds. All of that is out at this lender. It takes no memory and can't fail.
    fn end(self, lender: &mut Lender)
        requires { AreOut (places_of (cells self)) lender.old }
        ensures { Retires (places_of (cells self)) lender.old lender.new };

    /// Each decision is lawful.
    ghost lawful: { ResourceIsLawful kind decides };

    /// A place that is put at two indexes has one owner.
    ghost one_owner: { ResourceHasOneOwner decides };
}
