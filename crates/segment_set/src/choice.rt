// Which of the files with an open gate are the parts of a log.
ghost use Rattle.std.specs.Prelude.{◌≡◌, ◌↔◌, ◌+◌, ℕ, true, List, [], ◌∷◌, ◌++◌, All, IsTrue, IfOk, OnOk, IsErrOf, IfSome, IfNone};
ghost use Rattle.disk_model.specs.Image.{IsFileId};
ghost use Rattle.segment_files.specs.Parse.{base_place};
ghost use Rattle.segment_set.specs.declared.opened.Opened.{Opened};
ghost use Rattle.segment_files.specs.Folder.{Folder, IsChoice, IsUntiled, LiesIn, Tiles};
ghost use Rattle.segment_set.specs.Fits.{parts_of};
ghost use Rattle.segment_set.specs.Joined.{are_tiled};
ghost use Rattle.segment_set.specs.Load.{id_from};
ghost use Rattle.segment_set.specs.Sifting.{AreOpen, AreStacked, Ends, IsFirstApart, LastLiesIn, LiesInLast, Rise, Sifted, opened_span};

use crate::opened::Opened;
use crate::opening::{BASE_PLACE, OpenError, damaged};
use disk_model::FileId;
use host_types::{Index, NoMemory};
use std::alloc::Global;

/// The files that are the parts of a log, and those that lie in one of them.
#[derive(Drop)]
pub struct Choice {
    /// The parts, by rising base and then generation.
    pub kept: Vec<Opened>,
    /// The ids of the others.
    pub covered: Vec<FileId>,
    ghost are_ids: { All IsFileId covered.items },
}

/// Whether a file lies in another one, which takes its place.
fn lies_in(a: &Opened, b: &Opened) -> bool
    ensures { IsTrue result ↔ LiesIn (opened_span a.now) (opened_span b.now) }
{
    a.id.generation < b.id.generation
        && b.id.base <= a.id.base
        && a.part.last <= b.part.last
        && (a.id.base <= b.part.last || a.id.base == b.id.base)
}

impl Choice {
    /// Whether the last kept file lies in this one.
    fn last_lies_in(&self, one: &Opened) -> bool
        ensures { IsTrue result ↔ LastLiesIn self.now.kept.items one.now }
    {
        match self.kept.last() {
            Some(last) => lies_in(last, one),
            None => false,
        }
    }

    /// Whether this file lies in the last kept one.
    fn lies_in_last(&self, one: &Opened) -> bool
        ensures { IsTrue result ↔ LiesInLast self.now.kept.items one.now }
    {
        match self.kept.last() {
            Some(last) => lies_in(one, last),
            None => false,
        }
    }

    fn keep(&mut self, one: Opened) -> Result<(), NoMemory>
        ensures kept { OnOk result (self.new.kept.items ≡ self.old.kept.items ++ one ∷ []) }
        ensures covered { self.new.covered ≡ self.old.covered }
    {
        match self.kept.push(one) {
            Ok(()) => Ok(()),
            Err(_) => Err(NoMemory),
        }
    }

    fn cover(&mut self, id: FileId) -> Result<(), NoMemory>
        requires { IsFileId id }
        ensures covered { OnOk result (self.new.covered.items ≡ self.old.covered.items ++ id ∷ []) }
        ensures kept { self.new.kept ≡ self.old.kept }
    {
        match self.covered.push(id) {
            Ok(()) => Ok(()),
            Err(_) => Err(NoMemory),
        }
    }

    /// Covers those of the last kept files that lie in this one.
    fn give_way(&mut self, one: &Opened) -> Result<(), NoMemory>
        ensures sifted { OnOk result ((files : List Opened) → Sifted files self.old.kept.items self.old.covered.items (self.old.kept.items ++ one.now ∷ [])
            → Sifted files self.new.kept.items self.new.covered.items (self.new.kept.items ++ one.now ∷ [])) }
        ensures still { OnOk result (AreStacked self.old.kept.items → (LiesInLast self.old.kept.items one.now → ⊥) → LiesInLast self.new.kept.items one.now → ⊥) }
        ensures last { OnOk result (LastLiesIn self.new.kept.items one.now → ⊥) }
    {
        while self.last_lies_in(one) {
            if let Some(last) = self.kept.pop() {
                let id = last.id;
                drop(last);
                match self.cover(id) {
                    Ok(()) => {}
                    Err(NoMemory) => return Err(NoMemory),
                }
            }
        }
        Ok(())
    }

    /// Takes one file more, behind all others: it is kept, and what lies in it is not; or it is covered.
    fn take(&mut self, one: Opened) -> Result<(), NoMemory>
        ensures { OnOk result ((files : List Opened) → Rise (files ++ one ∷ []) → Sifted files self.old.kept.items self.old.covered.items self.old.kept.items
            → Sifted (files ++ one ∷ []) self.new.kept.items self.new.covered.items self.new.kept.items) }
    {
        if self.lies_in_last(&one) {
            let id = one.id;
            drop(one);
            return self.cover(id);
        }
        match self.give_way(&one) {
            Ok(()) => self.keep(one),
            Err(NoMemory) => {
                drop(one);
                Err(NoMemory)
            }
        }
    }

    /// The first kept file that doesn't begin where the one before it ends, or that is the first and doesn't begin with the first entry.
    /// Behind an empty file none may stand: no disk tells of such, where it tells what it holds.
    fn first_apart(&self) -> Option<FileId>
        ensures none { IfNone result ((last : ℕ) × Ends 1 self.now.kept.items (last + 1)) }
        ensures tiled { IfNone result (are_tiled 1 self.now.kept.items ≡ true) }
        ensures some { IfSome result (λ id. IsFirstApart self.now.kept.items id) }
    {
        let mut next: Index = 1;
        let mut full = true;
        for one in &self.kept {
            if !full || one.id.base != next {
                return Some(one.id);
            }
            full = next <= one.part.last;
            next = one.part.last + 1;
        }
        None
    }
}

/// Goes through the files with an open gate, and keeps those that may be parts.
fn sift(alloc: Global, files: Vec<Opened>) -> Result<Choice, NoMemory>
    ensures { IfOk result (λ choice. Rise files.items → Sifted files.items choice.kept.items choice.covered.items choice.kept.items) }
{
    let mut choice = Choice {
        kept: Vec::new(alloc),
        covered: Vec::new(alloc),
    };
    for one in files {
        match choice.take(one) {
            Ok(()) => {}
            Err(NoMemory) => return Err(NoMemory),
        }
    }
    Ok(choice)
}

/// Chooses the parts of a log among its files with an open gate, which come by rising base and then generation: those that lie in no other
/// one. Where the parts don't stand end to end from the first entry on, the first one that doesn't is damaged at its base. It takes a
/// time linear in the number of files.
pub fn choose(alloc: Global, files: Vec<Opened>) -> Result<Choice, OpenError>
    // Where they come so each file is kept or covered, once.
    ensures sifted { IfOk result (λ choice. Rise files.items → Sifted files.items choice.kept.items choice.covered.items choice.kept.items) }
    ensures choice { IfOk result (λ choice. Rise files.items → (folder : Folder) → AreOpen folder files.items → IsChoice folder (parts_of folder choice.kept.items)) }
    ensures tile { IfOk result (λ choice. Rise files.items → (folder : Folder) → AreOpen folder files.items → (last : ℕ) × Tiles 1 (parts_of folder choice.kept.items) last) }
    ensures tiled { IfOk result (λ choice. are_tiled 1 choice.kept.items ≡ true) }
    ensures untiled { (base generation at : ℕ) → IsErrOf result (OpenError.Damaged base generation at)
        → (at ≡ base_place) × (Rise files.items → (folder : Folder) → AreOpen folder files.items → IsUntiled folder (id_from base generation)) }
    ensures disk { IsErrOf result OpenError.Disk → ⊥ }
{
    let choice = match sift(alloc, files) {
        Ok(choice) => choice,
        Err(NoMemory) => return Err(OpenError::NoMemory),
    };
    match choice.first_apart() {
        Some(id) => {
            drop(choice);
            Err(damaged(id, BASE_PLACE))
        }
        None => Ok(choice),
    }
}
