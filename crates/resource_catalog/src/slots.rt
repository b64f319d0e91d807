// The instances of a catalog.
ghost use Rattle.std.specs.Prelude.{◌≡◌, ℕ, ◌+◌, ◌<◌, ◌++◌, [], false, Some, None, IsTrue, IfOk, OnOk, length, option_copied, take};
ghost use Rattle.std.specs.Vec.{vec_len, vec_capacity};
ghost use Rattle.std.specs.FinMap.Entries.{find, put, is_sorted};
ghost use Rattle.std.specs.Ordering.{nat_cmp};
ghost use Rattle.host_types.specs.Cells.{places_of, is_create};
ghost use Rattle.commit_lending.specs.Lent.{tokens, one_of};
ghost use Rattle.machine.specs.Listing.{listed};
ghost use Rattle.machine.specs.Release.{AreOut, Releases, Retires};
ghost use Rattle.resource_catalog.specs.Kinds.{any_cells};
ghost use Rattle.resource_catalog.specs.Parts.{slot_cells, SlotsAreApart, ResourceIsReady};
ghost use Rattle.resource_catalog.specs.declared.slots.Slot.{Slot as ASlot};
ghost use Rattle.resource_catalog.specs.Steps.{tells_by, without_slot, without_its_name, AppliedIn, KeptIn, Forgot, is_named_at, tells_at, closes_by, closes_in};

use crate::kinds::AnyResource;
use crate::sorted::place_of;
use commit_lending::{Commit, Lender};
use host_types::{Effect, Index, Key, NoMemory};
use machine::{Place, Told};
use std::alloc::Global;

/// One instance: its resource, and the name that it stands under. Where its name was deleted under another instance, which no log
/// does, it has none, and its cells stay.
pub struct Slot {
    pub name: Option<Key>,
    pub resource: AnyResource,
}

impl Slot {
    // The events that an effect makes, where the instance has a name.
    fn tells(&self, alloc: Global, effect: &Effect, index: Index) -> Result<Told, NoMemory>
        ensures { IfOk result (λ told. told ≡ tells_by self.now.resource self.now.name effect.now index) }
    {
        match &self.name {
            Some(name) => self.resource.tells(alloc, name, effect, index),
            None => Ok(Told::new(alloc)),
        }
    }

    // Appends the events that the end of a session makes.
    fn tell_close(&self, told: &mut Told, alloc: Global, owner: Index) -> Result<(), NoMemory>
        ensures { OnOk result (told.new ≡ told.old ++ closes_by self.now.resource self.now.name owner) }
    {
        if let Some(name) = &self.name {
            let more = self.resource.tells_close(alloc, name, owner)?;
            told.append(more)?;
        }
        Ok(())
    }
}

/// The instances, by rising index. Finding one takes time logarithmic in their number. No index holds cells of two instances,
/// however many of one it holds.
pub(crate) struct Slots {
    pub(crate) entries: Vec<(Index, Slot)>,
    pub ghost rises: { IsTrue (is_sorted nat_cmp entries.items) },
    pub ghost apart: { SlotsAreApart entries.items },
}

impl Slots {
    /// No instance. It takes no memory.
    pub(crate) fn new(alloc: Global) -> Slots
        ensures { result.entries.items ≡ [] }
    {
        Slots {
            entries: Vec::new(alloc),
        }
    }

    /// An instance.
    pub(crate) fn get(&self, instance: Index) -> Option<&Slot>
        ensures { option_copied result ≡ find nat_cmp instance self.now.entries.items }
    {
        match place_of(&self.entries, &instance) {
            Ok(at) => Some(&self.entries[at].1),
            Err(_) => None,
        }
    }

    /// Whether an instance is there and has a name.
    pub(crate) fn is_named(&self, instance: Index) -> bool
        ensures { result ≡ is_named_at (find nat_cmp instance self.now.entries.items) }
    {
        match self.get(instance) {
            Some(slot) => slot.name.is_some(),
            None => false,
        }
    }

    /// Puts an instance that isn't there and has no cells, into room that was made.
    pub(crate) fn add(&mut self, instance: Index, slot: Slot)
        requires room { vec_len self.old.entries < vec_capacity self.old.entries }
        requires empty { any_cells slot.resource ≡ [] }
        requires absent { find nat_cmp instance self.old.entries.items ≡ None }
        ensures { self.new.entries.items ≡ put nat_cmp instance slot self.old.entries.items }
    {
        match place_of(&self.entries, &instance) {
            Ok(_) => unreachable!(),
            Err(at) => match self.entries.insert(at, (instance, slot)) {
                Ok(()) => {}
                Err(_refused) => unreachable!(),
            },
        }
    }

    /// Takes its name from an instance, where that is there.
    pub(crate) fn unname(&mut self, instance: Index)
        ensures { self.new.entries.items ≡ without_its_name instance self.old.entries.items }
    {
        if let Ok(at) = place_of(&self.entries, &instance) {
            self.entries[at].1.name = None;
        }
    }

    /// Makes room in an instance for one later effect. The cells stay, whatever it answers.
    pub(crate) fn prepare(
        &mut self,
        instance: Index,
        alloc: Global,
        effect: &Effect,
        index: Index,
    ) -> Result<(), NoMemory>
        ensures ready { OnOk result (ResourceIsReady self.new.entries.items instance effect.now index) }
        ensures slots { KeptIn instance self.old.entries.items self.new.entries.items }
    {
        match place_of(&self.entries, &instance) {
            Ok(at) => self.entries[at].1.resource.prepare(alloc, effect, index),
            Err(_) => Ok(()),
        }
    }

    /// Applies an effect to the resource of an instance, as the entry of the commit. Where there is no such instance, the commit is
    /// closed.
    pub(crate) fn apply(
        &mut self,
        instance: Index,
        commit: Commit,
        effect: &Effect,
        lender: &mut Lender,
    )
        requires no_create { is_create effect.now ≡ false }
        requires ready { ResourceIsReady self.old.entries.items instance effect.now commit }
        requires held { AreOut (places_of (slot_cells self.old.entries.items)) lender.old }
        requires new { places_of (slot_cells self.old.entries.items) commit ≡ 0 }
        requires lent { tokens lender.old commit ≡ 1 }
        ensures slots { AppliedIn commit effect.now instance self.old.entries.items self.new.entries.items }
        ensures released { Releases (λ j. places_of (slot_cells self.old.entries.items) j + one_of commit j) (places_of (slot_cells self.new.entries.items)) commit lender.old lender.new }
    {
        match place_of(&self.entries, &instance) {
            Ok(at) => self.entries[at].1.resource.apply(commit, effect, lender),
            Err(_) => {
                let index = commit.index();
                lender.close(commit, index);
            }
        }
    }

    /// Takes out an instance that has no cells, where it is there.
    pub(crate) fn take_empty(&mut self, instance: Index, lender: &mut Lender)
        requires { (s : ASlot) → find nat_cmp instance self.old.entries.items ≡ Some s → any_cells s.resource ≡ [] }
        ensures slots { self.new.entries.items ≡ without_slot instance self.old.entries.items }
        ensures room { vec_len self.old.entries < vec_capacity self.old.entries → vec_len self.new.entries < vec_capacity self.new.entries }
        ensures lender { Retires (λ j. 0) lender.old lender.new }
    {
        if let Ok(at) = place_of(&self.entries, &instance) {
            let (_, Slot { name: _, resource }) = self.entries.remove(at);
            resource.end(lender);
        }
    }

    /// The events that an effect makes on an instance, where that is there and has a name.
    pub(crate) fn tells(
        &self,
        instance: Index,
        alloc: Global,
        effect: &Effect,
        index: Index,
    ) -> Result<Told, NoMemory>
        ensures { IfOk result (λ told. told ≡ tells_at (find nat_cmp instance self.now.entries.items) effect.now index) }
    {
        match self.get(instance) {
            Some(slot) => slot.tells(alloc, effect, index),
            None => Ok(Told::new(alloc)),
        }
    }

    /// The events that the end of a session makes, by rising instance.
    pub(crate) fn tells_close(&self, alloc: Global, owner: Index) -> Result<Told, NoMemory>
        ensures { IfOk result (λ told. told ≡ closes_in owner self.now.entries.items) }
    {
        let mut told = Told::new(alloc);
        for (_, slot) in &self.entries {
            slot.tell_close(&mut told, alloc, owner)?;
        }
        Ok(told)
    }

    /// Appends the cells of each instance. After an error the list begins as before.
    pub(crate) fn list(&self, alloc: Global, out: &mut Vec<Place>) -> Result<(), NoMemory>
        ensures ok { OnOk result (out.new.items ≡ out.old.items ++ listed (slot_cells self.now.entries.items)) }
        ensures begins { take (length out.old.items) out.new.items ≡ out.old.items }
    {
        for (_, slot) in &self.entries {
            slot.resource.list(alloc, out)?;
        }
        Ok(())
    }

    /// Drops the cells of a session in each instance, for the entry with the index `by`.
    pub(crate) fn forget_owner(&mut self, owner: Index, by: Index, lender: &mut Lender)
        requires { AreOut (places_of (slot_cells self.old.entries.items)) lender.old }
        ensures slots { Forgot owner self.old.entries.items self.new.entries.items }
        ensures released { Releases (places_of (slot_cells self.old.entries.items)) (places_of (slot_cells self.new.entries.items)) by lender.old lender.new }
    {
        for at in 0..self.entries.len() {
            self.entries[at].1.resource.forget_owner(owner, by, lender);
        }
    }

    /// Retires what all instances hold.
    pub(crate) fn end(self, lender: &mut Lender)
        requires { AreOut (places_of (slot_cells self.entries.items)) lender.old }
        ensures { Retires (places_of (slot_cells self.entries.items)) lender.old lender.new }
    {
        let Slots { mut entries } = self;
        while let Some((_, Slot { name: _, resource })) = entries.pop() {
            resource.end(lender);
        }
        entries.destroy_empty();
    }
}
