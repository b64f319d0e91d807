// A machine of named resources.
ghost use Rattle.std.specs.Prelude.{◌≡◌, ℕ, ◌+◌, ◌≤◌, ◌<◌, ◌==◌, ◌-◌, ◌++◌, [], true, false, Some, None, is_some, IsTrue, IfOk, OnOk, OnErr, length, take, vec_len, vec_capacity};
ghost use Rattle.std.specs.FinMap.Entries.{find};
ghost use Rattle.std.specs.List.{list_any};
ghost use Rattle.std.specs.Ordering.{nat_cmp};
ghost use Rattle.machine.specs.Answers.{Resolves};
ghost use Rattle.machine.specs.Listing.{listed};
ghost use Rattle.log_model.specs.plain.Commands.{kind_number};
ghost use Rattle.log_model.specs.replay.Telling.{effect_instance};
ghost use Rattle.resource_catalog.specs.Catalog.{names_in, choice_new, choice_there};
ghost use Rattle.host_types.specs.Cells.{Cells, text_cmp, places_of, is_in_instance};
ghost use Rattle.host_types.specs.declared.entry.Effect.TheVariants.{Create, Delete};
ghost use Rattle.commit_lending.specs.Lent.{tokens, one_of};
ghost use Rattle.machine.specs.Release.{AreOut, Releases, Retires, CreatesAnew};
ghost use Rattle.resource_catalog.specs.Kinds.{any_cells};
ghost use Rattle.resource_catalog.specs.Parts.{whole_cells, name_cells, slot_cells, IsWhole, ResourceIsReady, CatalogIsReady};
ghost use Rattle.resource_catalog.specs.declared.slots.Slot.{Slot as ASlot};
ghost use Rattle.resource_catalog.specs.Steps.{IsApplied, IsOn, is_unfit, without_name, unnamed_by, tidied, HasAdded, IsShownAs};

use crate::kinds::AnyResource;
use crate::names::{Named, Names};
use crate::slots::{Slot, Slots};
use commit_lending::{Commit, Lender};
use host_types::{Effect, Index, Key, Kind, NoMemory, Op, Reply};
use machine::{Decision, Machine, Place, Refuse, Told, close_own};
use std::alloc::Global;
use std::marker::Model;

/// How many names there are at most.
const NAME_LIMIT: usize = 1024;

fn is_unfit(slots: &Slots, instance: Index, effect: &Effect) -> bool
    ensures { result ≡ is_unfit (find nat_cmp instance slots.now.entries.items) effect.now }
{
    match effect {
        Effect::Put { .. } => !slots.is_named(instance),
        _ => false,
    }
}

// Applies an effect that changes cells of one instance. A put doesn't fit where the instance has no name.
fn apply_on(
    names: &Names,
    slots: &mut Slots,
    instance: Index,
    commit: Commit,
    effect: &Effect,
    lender: &mut Lender,
)
    requires on { IsOn instance effect.now }
    requires whole { IsWhole names.now.entries.items slots.old.entries.items }
    requires ready { ResourceIsReady slots.old.entries.items instance effect.now commit }
    requires held { AreOut (places_of (whole_cells names.now.entries.items slots.old.entries.items)) lender.old }
    requires new { places_of (whole_cells names.now.entries.items slots.old.entries.items) commit ≡ 0 }
    requires lent { tokens lender.old commit ≡ 1 }
    ensures { IsApplied commit effect.now names.now.entries.items slots.old.entries.items names.now.entries.items slots.new.entries.items lender.old lender.new }
{
    if is_unfit(slots, instance, effect) {
        close_own(commit, lender);
    } else {
        slots.apply(instance, commit, effect, lender);
    }
}

// Takes a name out, and closes its commit. Its instance has no name any more.
fn drop_name(names: &mut Names, slots: &mut Slots, name: &Key, by: Index, lender: &mut Lender)
    requires { AreOut (places_of (name_cells names.old.entries.items)) lender.old }
    ensures names { names.new.entries.items ≡ without_name name.now names.old.entries.items }
    ensures slots { slots.new.entries.items ≡ unnamed_by (find text_cmp name.now names.old.entries.items) slots.old.entries.items }
    ensures released { Releases (places_of (name_cells names.old.entries.items)) (places_of (name_cells names.new.entries.items)) by lender.old lender.new }
{
    if let Some(instance) = names.take(name, by, lender) {
        slots.unname(instance);
    }
}

// Takes an instance out that has neither a name nor cells.
fn tidy(slots: &mut Slots, instance: Index, lender: &mut Lender)
    requires { (s : ASlot) → find nat_cmp instance slots.old.entries.items ≡ Some s → any_cells s.resource ≡ [] }
    ensures slots { slots.new.entries.items ≡ tidied instance slots.old.entries.items }
    ensures lender { Retires (λ j. 0) lender.old lender.new }
{
    if !slots.is_named(instance) {
        slots.take_empty(instance, lender);
    }
}

// Takes a name out, and all cells of the instance that is told with it.
fn delete(
    names: &mut Names,
    slots: &mut Slots,
    name: &Key,
    instance: Index,
    commit: Commit,
    effect: &Effect,
    lender: &mut Lender,
)
    requires told { effect.now ≡ Delete name.now instance }
    requires whole { IsWhole names.old.entries.items slots.old.entries.items }
    requires ready { ResourceIsReady slots.old.entries.items instance effect.now commit }
    requires held { AreOut (places_of (whole_cells names.old.entries.items slots.old.entries.items)) lender.old }
    requires new { places_of (whole_cells names.old.entries.items slots.old.entries.items) commit ≡ 0 }
    requires lent { tokens lender.old commit ≡ 1 }
    ensures { IsApplied commit effect.now names.old.entries.items slots.old.entries.items names.new.entries.items slots.new.entries.items lender.old lender.new }
{
    let by = commit.index();
    drop_name(names, slots, name, by, lender);
    slots.apply(instance, commit, effect, lender);
    tidy(slots, instance, lender);
}

// Puts a new name and its instance into the room that was made for them.
fn add(names: &mut Names, slots: &mut Slots, copies: (Key, Key), kind: Kind, commit: Commit)
    requires names_room { vec_len names.old.entries < vec_capacity names.old.entries }
    requires slots_room { vec_len slots.old.entries < vec_capacity slots.old.entries }
    requires absent { find text_cmp copies.0 names.old.entries.items ≡ None }
    requires free { find nat_cmp commit slots.old.entries.items ≡ None }
    ensures { HasAdded copies.0 copies.1 kind commit names.old.entries.items slots.old.entries.items names.new.entries.items slots.new.entries.items }
{
    let (own, of_slot) = copies;
    let index = commit.index();
    let slot = Slot {
        name: Some(of_slot),
        resource: AnyResource::new(*slots.entries.allocator(), kind, index),
    };
    slots.add(index, slot);
    names.add(own, Named { commit, kind });
}

// Creates a name with its instance, or closes the commit where the name is there.
fn create(
    names: &mut Names,
    slots: &mut Slots,
    copies: &mut Option<(Key, Key)>,
    name: &Key,
    kind: Kind,
    commit: Commit,
    lender: &mut Lender,
)
    requires whole { IsWhole names.old.entries.items slots.old.entries.items }
    requires copies { copies.old ≡ Some (name.now, name.now) }
    requires names_room { vec_len names.old.entries < vec_capacity names.old.entries }
    requires slots_room { vec_len slots.old.entries < vec_capacity slots.old.entries }
    requires anew { list_any (is_in_instance commit) (whole_cells names.old.entries.items slots.old.entries.items) ≡ false }
    requires held { AreOut (places_of (whole_cells names.old.entries.items slots.old.entries.items)) lender.old }
    requires new { places_of (whole_cells names.old.entries.items slots.old.entries.items) commit ≡ 0 }
    requires lent { tokens lender.old commit ≡ 1 }
    ensures { IsApplied commit (Create name.now kind) names.old.entries.items slots.old.entries.items names.new.entries.items slots.new.entries.items lender.old lender.new }
{
    if names.get(name).is_some() {
        close_own(commit, lender);
        return;
    }
    slots.take_empty(commit.index(), lender);
    add(names, slots, copies.take().unwrap(), kind, commit);
}

/// Named resources: a `Machine` over all kinds.
///
/// Contracts see its names and instances, the room for more of them, and the copies of a name that the next `Create` takes.
pub struct Catalog {
    names: Names,
    slots: Slots,
    copies: Option<(Key, Key)>,
}

impl Model for Catalog {
    ghost use Rattle.resource_catalog.specs.Parts.{Parts};

    ghost Value = { Parts };

    ghost use Rattle.resource_catalog.specs.Seen.{parts_in, IsWholeInside};

    ghost view = { parts_in };

    ghost invariant = { IsWholeInside };
}

impl Catalog {
    /// The catalog without a name. It takes no memory.
    pub fn new(alloc: Global) -> Catalog
        ensures names { result.names ≡ [] }
        ensures slots { result.slots ≡ [] }
    {
        Catalog {
            names: Names::new(alloc),
            slots: Slots::new(alloc),
            copies: None,
        }
    }
}

// Decides an operation on a name that isn't there.
fn resolve_new(names: &Names, name: &Key, op: &Op, index: Index) -> Result<Decision, Refuse>
    ensures { (cells : Cells) → names_in cells ≡ length names.now.entries.items → Resolves (choice_new cells name.now op.now index) result }
{
    match op {
        Op::Create { kind } => {
            if names.entries.len() >= NAME_LIMIT {
                return Err(Refuse::Names);
            }
            Ok(Decision {
                effect: Effect::Create {
                    name: name.copy()?,
                    kind: *kind,
                },
                reply: Reply::Index(index),
            })
        }
        _ => Err(Refuse::NoName),
    }
}

// Decides an operation on a name that stands with this instance and kind.
fn resolve_there(
    slots: &Slots,
    alloc: Global,
    name: &Key,
    stands: (Index, Kind),
    op: &Op,
    session: Index,
    index: Index,
) -> Result<Decision, Refuse>
    requires { is_some (find nat_cmp stands.0 slots.now.entries.items) ≡ true }
    ensures { (cells : Cells) (s : ASlot) → find nat_cmp stands.0 slots.now.entries.items ≡ Some s → IsShownAs stands.0 stands.1 s cells → Resolves (choice_there cells name.now stands.0 stands.1 op.now session index) result }
{
    let (instance, kind) = stands;
    match op {
        Op::Create { kind: other } => {
            if is_same(*other, kind) {
                Ok(Decision {
                    effect: Effect::Nothing,
                    reply: Reply::Index(instance),
                })
            } else {
                Err(Refuse::Kind { is: kind })
            }
        }
        Op::Delete => Ok(Decision {
            effect: Effect::Delete {
                name: name.copy()?,
                instance,
            },
            reply: Reply::None,
        }),
        _ => match slots.get(instance) {
            Some(slot) => slot.resource.resolve(alloc, op, session, index),
            None => unreachable!(),
        },
    }
}

fn is_same(one: Kind, other: Kind) -> bool
    ensures { result ≡ (kind_number one == kind_number other) }
{
    one == other
}

// The instance on which an effect may make events.
fn instance_of(effect: &Effect) -> Option<Index>
    ensures { result ≡ effect_instance effect.now }
{
    match effect {
        Effect::Put { instance, .. } => Some(*instance),
        Effect::Drop { instance, .. } => Some(*instance),
        Effect::Tell { instance, .. } => Some(*instance),
        _ => None,
    }
}

// Appends all names and cells. After an error the list begins as before.
fn list_all(
    names: &Names,
    slots: &Slots,
    alloc: Global,
    out: &mut Vec<Place>,
) -> Result<(), NoMemory>
    ensures ok { OnOk result (out.new.items ≡ out.old.items ++ listed (whole_cells names.now.entries.items slots.now.entries.items)) }
    ensures begins { take (length out.old.items) out.new.items ≡ out.old.items }
{
    names.list(out)?;
    slots.list(alloc, out)
}

// Makes room for a new name, and copies it twice.
fn prepare_new(
    names: &mut Names,
    slots: &mut Slots,
    copies: &mut Option<(Key, Key)>,
    name: &Key,
    kind: Kind,
) -> Result<(), NoMemory>
    ensures names { names.new.entries.items ≡ names.old.entries.items }
    ensures slots { slots.new.entries.items ≡ slots.old.entries.items }
    ensures copies { OnOk result (copies.new ≡ Some (name.now, name.now)) }
    ensures names_room { OnOk result (1 ≤ vec_capacity names.new.entries - vec_len names.new.entries) }
    ensures slots_room { OnOk result (1 ≤ vec_capacity slots.new.entries - vec_len slots.new.entries) }
{
    names.entries.reserve(1)?;
    slots.entries.reserve(1)?;
    *copies = Some((name.copy()?, name.copy()?));
    Ok(())
}

impl Machine for Catalog {
    ghost use Rattle.resource_catalog.specs.Parts.{cells_of, CatalogIsReady};
    ghost use Rattle.resource_catalog.specs.Catalog.{catalog_decision};
    ghost use Rattle.resource_catalog.specs.CatalogLaws.{catalog_lawful, catalog_one_owner};

    ghost cells = { cells_of };

    ghost is_ready = { CatalogIsReady };

    ghost decides = { catalog_decision };

    ghost lawful = { catalog_lawful };

    ghost one_owner = { catalog_one_owner };

    fn resolve(
        &self,
        alloc: Global,
        name: &Key,
        op: &Op,
        session: Index,
        index: Index,
    ) -> Result<Decision, Refuse> {
        match self.names.get(name) {
            Some(named) => {
                let stands = (named.commit.index(), named.kind);
                resolve_there(&self.slots, alloc, name, stands, op, session, index)
            }
            None => resolve_new(&self.names, name, op, index),
        }
    }

    fn look(&self, alloc: Global, name: &Key, op: &Op) -> Result<Reply, Refuse> {
        match self.names.get(name) {
            Some(named) => match self.slots.get(named.commit.index()) {
                Some(slot) => slot.resource.look(alloc, op),
                None => unreachable!(),
            },
            None => Err(Refuse::NoName),
        }
    }

    fn list(&self, alloc: Global, out: &mut Vec<Place>) -> Result<(), NoMemory> {
        let before = out.len();
        let done = list_all(&self.names, &self.slots, alloc, out);
        if done.is_err() {
            out.truncate(before);
        }
        done
    }

    fn tells(&self, alloc: Global, effect: &Effect, index: Index) -> Result<Told, NoMemory> {
        match instance_of(effect) {
            Some(instance) => self.slots.tells(instance, alloc, effect, index),
            None => Ok(Told::new(alloc)),
        }
    }

    fn tells_close(&self, alloc: Global, owner: Index) -> Result<Told, NoMemory> {
        self.slots.tells_close(alloc, owner)
    }

    fn prepare(&mut self, alloc: Global, effect: &Effect, index: Index) -> Result<(), NoMemory> {
        match effect {
            Effect::Create { name, kind } => prepare_new(
                &mut self.names,
                &mut self.slots,
                &mut self.copies,
                name,
                *kind,
            ),
            Effect::Delete { instance, .. } => {
                self.slots.prepare(*instance, alloc, effect, index)
            }
            Effect::Put { instance, .. } => { self.slots.prepare(*instance, alloc, effect, index) }
            Effect::Drop { instance, .. } => { self.slots.prepare(*instance, alloc, effect, index) }
            Effect::Wipe { instance } => { self.slots.prepare(*instance, alloc, effect, index) }
            Effect::WipeKey { instance, .. } => {
                self.slots.prepare(*instance, alloc, effect, index)
            }
            Effect::Nothing => Ok(()),
            Effect::Tell { .. } => Ok(()),
        }
    }

    fn apply(&mut self, commit: Commit, effect: &Effect, lender: &mut Lender) {
        apply_to(
            &mut self.names,
            &mut self.slots,
            &mut self.copies,
            commit,
            effect,
            lender,
        );
    }

    fn forget_owner(&mut self, owner: Index, by: Index, lender: &mut Lender) {
        self.slots.forget_owner(owner, by, lender);
    }

    fn end(self, lender: &mut Lender) {
        let Catalog {
            names,
            slots,
            copies: _,
        } = self;
        names.end(lender);
        slots.end(lender);
    }
}

// Applies an effect, whatever it is on.
fn apply_to(
    names: &mut Names,
    slots: &mut Slots,
    copies: &mut Option<(Key, Key)>,
    commit: Commit,
    effect: &Effect,
    lender: &mut Lender,
)
    requires whole { IsWhole names.old.entries.items slots.old.entries.items }
    requires anew { CreatesAnew (whole_cells names.old.entries.items slots.old.entries.items) commit effect.now }
    requires ready { CatalogIsReady (record { names = names.old.entries.items; slots = slots.old.entries.items; names_room = vec_capacity names.old.entries - vec_len names.old.entries; slots_room = vec_capacity slots.old.entries - vec_len slots.old.entries; copies = copies.old }) effect.now commit }
    requires held { AreOut (places_of (whole_cells names.old.entries.items slots.old.entries.items)) lender.old }
    requires new { places_of (whole_cells names.old.entries.items slots.old.entries.items) commit ≡ 0 }
    requires lent { tokens lender.old commit ≡ 1 }
    ensures { IsApplied commit effect.now names.old.entries.items slots.old.entries.items names.new.entries.items slots.new.entries.items lender.old lender.new }
{
    match effect {
        Effect::Create { name, kind } => create(names, slots, copies, name, *kind, commit, lender),
        Effect::Delete { name, instance } => {
            delete(names, slots, name, *instance, commit, effect, lender)
        }
        Effect::Put { instance, .. } => apply_on(names, slots, *instance, commit, effect, lender),
        Effect::Drop { instance, .. } => apply_on(names, slots, *instance, commit, effect, lender),
        Effect::Wipe { instance } => apply_on(names, slots, *instance, commit, effect, lender),
        Effect::WipeKey { instance, .. } => {
            apply_on(names, slots, *instance, commit, effect, lender)
        }
        Effect::Nothing => close_own(commit, lender),
        Effect::Tell { .. } => close_own(commit, lender),
    }
}
