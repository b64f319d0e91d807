// A host stores what is offered and who is due.
ghost use Rattle.std.specs.Prelude.{◌≡◌, ◌<◌, ◌+◌, List, [], ◌∷◌, ◌++◌, false, true, None, IsTrue, IfOk, IfErr, OnOk};
ghost use Rattle.std.specs.FinMap.{insert};
ghost use Rattle.host_types.specs.Limits.{index_limit};
ghost use Rattle.host_types.specs.Ranges.{EntryFits, IsInRange};
ghost use Rattle.disk_model.specs.View.{LeavesOnly};
ghost use Rattle.segment_files.specs.Contents.{places_from, shut_frame_bytes};
ghost use Rattle.segment_set.specs.Fits.{IsEmptyWhereNone, IsHeld, KeepsNames, parts_in};
ghost use Rattle.segment_set.specs.Growth.{HasOrGains, gained};
ghost use Rattle.log_model.specs.plain.Admission.{Admitted, Item, Offered, Expired};
ghost use Rattle.host_types.specs.declared.entry.Body.TheVariants as body;
ghost use Rattle.log_model.specs.plain.Fitting.{ItemFits};
ghost use Rattle.log_model.specs.hosted.Hosted.{hosted_admits, hosted_entry, hosted_expires, hosted_told};
ghost use Rattle.log_model.specs.cleaning.Layout.{with_entry};
ghost use Rattle.log_model.specs.replay.Replay.{replay_entry};
ghost use Rattle.log_model.specs.serving.Positions.{confirmed_after};
ghost use Rattle.session_table.specs.Table.{confirmed_positions};
ghost use Rattle.host_core.specs.Entering.{confirmed_by};
ghost use Rattle.host_core.specs.CoreState.{hosted};
ghost use Rattle.host_core.specs.Marking.{AreMarked};
ghost use Rattle.host_recovery.specs.Standing.{StandsAt, StandsOrExpires, StandsOrTakes, layout_in};
ghost use Rattle.host_recovery.specs.Answers.{AfterError, HasHostCause, IsAnswer, IsExpiry, OnAnswer, IsStoreError, OnExpiry, admits_file, admits_stored, expiry_stored, refused_by};

use crate::answers::{Answer, HostError, answer_to};
use crate::host::Host;
use disk_model::{Disk, DiskFault};
use host_core::{DecideError, Decided};
use host_types::{Body, Entry, Index, NoMemory, Offer, Refusal, Time};
use machine::Machine;
use segment_set::Parts;
use std::alloc::Global;

/// The greatest index.
const LAST_LIMIT: Index = 281474976710655;

impl From<NoMemory> for HostError {
    ghost use Rattle.host_recovery.specs.declared.answers.HostError.TheVariants as error;

    ghost from_gives = { λ _ e. e ≡ error.NoMemory };

    fn from(_: NoMemory) -> Self {
        HostError::NoMemory
    }
}

impl From<DiskFault> for HostError {
    ghost use Rattle.host_recovery.specs.Answers.{fault_of};

    ghost from_gives = { λ fault e. e ≡ fault_of fault };

    fn from(fault: DiskFault) -> Self {
        match fault {
            DiskFault::Failed => HostError::Disk,
            DiskFault::NoMemory => HostError::NoMemory,
        }
    }
}

/// Why an entry finds no file, if so: a new one is needed, and no generation is left.
fn no_file(parts: &Parts) -> Option<Refusal>
    ensures { admits_file parts.now ≡ refused_by result }
{
    if parts.needs_file() && parts.next_generation().is_none() {
        return Some(Refusal::GenEnd {
            generation: parts.greatest,
        });
    }
    None
}

/// The entry with which a session expires.
fn end_of(time: Time, session: Index) -> Entry
    ensures entry { result ≡ record { time = time; body = body.Close session true } }
    ensures fits { ItemFits (Expired time session) }
{
    Entry {
        time,
        body: Body::Close {
            session,
            expired: true,
        },
    }
}

/// Makes the frame of an entry, and tells the place of the entry in it.
fn put_frame(
    frame: &mut Vec<u8>,
    places: &mut Vec<u32>,
    index: Index,
    entry: &Entry,
) -> Result<(), NoMemory>
    ensures frame { OnOk result (frame.new.items ≡ shut_frame_bytes ((index, entry.now) ∷ [])) }
    ensures places { OnOk result (places.new.items ≡ places_from 5 ((index, entry.now) ∷ [])) }
{
    frame.clear();
    segment_files::frame(&[(index, entry)], frame, places)
}

impl<D: Disk, M: Machine> Host<D, M> {
    /// Stores an entry behind the last one and applies it. All memory is taken before the first call of the disk. A crash at any
    /// moment leaves the log without it or with it; from an Ok on it is there. After a fault of the disk the host is stopped.
    fn store(&mut self, alloc: Global, entry: Entry) -> Result<(), HostError>
        requires runs { self.old.stopped ≡ false }
        requires room { (hosted M.cells self.old.core).last < index_limit }
        requires file { admits_file self.old.parts ≡ Admitted }
        requires fits { EntryFits entry }
        requires range { IsInRange ((hosted M.cells self.old.core).last + 1) entry }
        ensures runs { OnOk result (self.new.stopped ≡ false) }
        ensures state { OnOk result (hosted M.cells self.new.core ≡ replay_entry (hosted_told M.decides) 0 (hosted M.cells self.old.core) ((hosted M.cells self.old.core).last + 1, entry)) }
        ensures confirmed { OnOk result (confirmed_positions self.new.core.sessions.beside ≡ confirmed_by ((hosted M.cells self.old.core).last + 1) entry.body (confirmed_positions self.old.core.sessions.beside)) }
        ensures marks { OnOk result (AreMarked ((hosted M.cells self.old.core).last + 1) (hosted M.cells self.old.core).cells (hosted M.cells self.new.core).cells
            (insert self.old.core.marks ((hosted M.cells self.old.core).last + 1) None) self.new.core.marks) }
        ensures parts { OnOk result (IsTrue D.tells → parts_in (D.view self.new.disk).reading self.new.parts ≡ gained self.old.size self.old.parts.greatest (parts_in (D.view self.old.disk).reading self.old.parts) (entry ∷ [])) }
        ensures layout { OnOk result (IsTrue D.tells → layout_in (D.view self.new.disk) self.new.parts ≡ with_entry self.old.size (layout_in (D.view self.old.disk) self.old.parts)) }
        ensures held { OnOk result (IsTrue D.tells → IsHeld (D.view self.old.disk) self.old.parts → IsHeld (D.view self.new.disk) self.new.parts) }
        ensures any_moment { IsTrue D.tells → IsHeld (D.view self.old.disk) self.old.parts
            → LeavesOnly (D.view self.old.disk) (D.view self.new.disk) (HasOrGains self.old.parts.name self.old.size self.old.parts.greatest (parts_in (D.view self.old.disk).reading self.old.parts) (entry ∷ [])) }
        ensures empty { IsTrue D.tells → IsHeld (D.view self.old.disk) self.old.parts → IsEmptyWhereNone (D.view self.new.disk) self.old.parts.name }
        ensures others { IsTrue D.tells → KeepsNames (D.view self.old.disk) (D.view self.new.disk) self.old.parts.name }
        ensures error { IfErr result IsStoreError }
        ensures after { IfErr result (AfterError M.cells self.old self.new) }
        ensures name { self.new.parts.name ≡ self.old.parts.name }
        ensures size { self.new.size ≡ self.old.size }
        ensures cause { HasHostCause (D.faults self.old.disk) (D.faults self.new.disk) result }
    {
        let index = self.core.last() + 1;
        match put_frame(&mut self.frame, &mut self.places, index, &entry) {
            Ok(()) => {}
            Err(_) => {
                drop(entry);
                return Err(HostError::NoMemory);
            }
        }
        match self.parts.prepare_append(1) {
            Ok(()) => {}
            Err(_) => {
                drop(entry);
                return Err(HostError::NoMemory);
            }
        }
        let prepared = match self.core.reserve(alloc, index, &entry) {
            Ok(prepared) => prepared,
            Err(_) => {
                drop(entry);
                return Err(HostError::NoMemory);
            }
        };
        match self.parts.append(alloc, &mut self.disk, &self.frame, &self.places, self.size) {
            Ok(()) => {
                self.core.apply(index, entry, prepared);
                Ok(())
            }
            Err(fault) => {
                drop(entry);
                self.core.cancel(prepared);
                self.stopped = true;
                Err(HostError::from(fault))
            }
        }
    }

    /// Takes an offer: it is stored and answered, or it repeats a command whose reply is kept, or it is refused by its first cause.
    ///
    /// A refusal and a repeat change nothing, and call the disk not at all. Until it answers, a crash leaves the log without the
    /// offer or with it; from an answer that it is stored on, each image has it.
    pub fn offer(&mut self, alloc: Global, one: &Offer) -> Result<Answer, HostError>
        ensures answer { IsAnswer self.old.stopped (admits_stored (hosted_admits M.decides (hosted M.cells self.old.core) one.now) self.old.parts)
            ((hosted M.cells self.old.core).last + 1) (hosted_entry M.decides (hosted M.cells self.old.core) (Offered one.now)).body result }
        ensures repeated { IfOk result (λ _. OnAnswer result (self.new ≡ self.old) (self.new.stopped ≡ false)) }
        ensures after { IfErr result (AfterError M.cells self.old self.new) }
        ensures state { OnAnswer result (Unit {0}) (hosted M.cells self.new.core ≡ replay_entry (hosted_told M.decides) 0 (hosted M.cells self.old.core)
            ((hosted M.cells self.old.core).last + 1, hosted_entry M.decides (hosted M.cells self.old.core) (Offered one.now))) }
        ensures confirmed { OnAnswer result (Unit {0}) (confirmed_positions self.new.core.sessions.beside ≡ confirmed_after ((hosted M.cells self.old.core).last + 1) (Offered one.now)
            (confirmed_positions self.old.core.sessions.beside)) }
        ensures stands { IsTrue D.tells → (items : List Item) → StandsAt M.decides D.view M.cells self.old items
            → OnAnswer result (StandsAt M.decides D.view M.cells self.new items) (StandsAt M.decides D.view M.cells self.new (items ++ Offered one.now ∷ [])) }
        ensures layout { IsTrue D.tells → OnAnswer result (Unit {0}) (layout_in (D.view self.new.disk) self.new.parts ≡ with_entry self.old.size (layout_in (D.view self.old.disk) self.old.parts)) }
        ensures any_moment { IsTrue D.tells → (items : List Item) → StandsAt M.decides D.view M.cells self.old items
            → LeavesOnly (D.view self.old.disk) (D.view self.new.disk) (StandsOrTakes M.decides self.old.parts.name items (Offered one.now)
            (admits_stored (hosted_admits M.decides (hosted M.cells self.old.core) one.now) self.old.parts)) }
        ensures empty { IsTrue D.tells → (items : List Item) → StandsAt M.decides D.view M.cells self.old items → IsEmptyWhereNone (D.view self.new.disk) self.old.parts.name }
        ensures others { IsTrue D.tells → KeepsNames (D.view self.old.disk) (D.view self.new.disk) self.old.parts.name }
        ensures name { self.new.parts.name ≡ self.old.parts.name }
        ensures size { self.new.size ≡ self.old.size }
        ensures cause { HasHostCause (D.faults self.old.disk) (D.faults self.new.disk) result }
    {
        if self.stopped {
            return Err(HostError::Stopped);
        }
        let entry = match self.core.decide(alloc, one) {
            Ok(Decided::Store(entry)) => entry,
            Ok(Decided::Repeat(reply)) => return Ok(Answer::Repeat(reply)),
            Err(DecideError::Refused(why)) => return Err(HostError::Refused(why)),
            Err(DecideError::NoMemory) => return Err(HostError::NoMemory),
        };
        if let Some(why) = no_file(&self.parts) {
            drop(entry);
            return Err(HostError::Refused(why));
        }
        one.fits();
        self.core.keeps();
        let answer = match answer_to(self.core.last() + 1, &entry.body) {
            Ok(answer) => answer,
            Err(_) => {
                drop(entry);
                return Err(HostError::NoMemory);
            }
        };
        match self.store(alloc, entry) {
            Ok(()) => Ok(answer),
            Err(error) => {
                drop(answer);
                Err(error)
            }
        }
    }

    /// Stores the end of the session that is due at this time, the one with the least id, and answers its index and the session.
    /// Nothing is stored where nobody is due. It is refused where the time is below the log's, or where somebody is due and the log
    /// or the generations of its files are at their end.
    pub fn expire(&mut self, alloc: Global, time: Time) -> Result<Option<(Index, Index)>, HostError>
        ensures answer { IsExpiry self.old.stopped (hosted_expires (hosted M.cells self.old.core) time) self.old.parts ((hosted M.cells self.old.core).last + 1) result }
        ensures nobody { IfOk result (λ _. OnExpiry result (self.new ≡ self.old) (λ _. self.new.stopped ≡ false)) }
        ensures after { IfErr result (AfterError M.cells self.old self.new) }
        ensures state { OnExpiry result (Unit {0}) (λ session. hosted M.cells self.new.core ≡ replay_entry (hosted_told M.decides) 0 (hosted M.cells self.old.core)
            ((hosted M.cells self.old.core).last + 1, record { time = time; body = body.Close session true })) }
        ensures confirmed { OnExpiry result (Unit {0}) (λ session. confirmed_positions self.new.core.sessions.beside ≡ confirmed_after ((hosted M.cells self.old.core).last + 1) (Expired time session)
            (confirmed_positions self.old.core.sessions.beside)) }
        ensures stands { IsTrue D.tells → (items : List Item) → StandsAt M.decides D.view M.cells self.old items
            → OnExpiry result (StandsAt M.decides D.view M.cells self.new items) (λ session. StandsAt M.decides D.view M.cells self.new (items ++ Expired time session ∷ [])) }
        ensures layout { IsTrue D.tells → OnExpiry result (Unit {0}) (λ _. layout_in (D.view self.new.disk) self.new.parts ≡ with_entry self.old.size (layout_in (D.view self.old.disk) self.old.parts)) }
        ensures any_moment { IsTrue D.tells → (items : List Item) → StandsAt M.decides D.view M.cells self.old items
            → LeavesOnly (D.view self.old.disk) (D.view self.new.disk) (StandsOrExpires M.decides self.old.parts.name items time
            (expiry_stored (hosted_expires (hosted M.cells self.old.core) time) self.old.parts)) }
        ensures empty { IsTrue D.tells → (items : List Item) → StandsAt M.decides D.view M.cells self.old items → IsEmptyWhereNone (D.view self.new.disk) self.old.parts.name }
        ensures others { IsTrue D.tells → KeepsNames (D.view self.old.disk) (D.view self.new.disk) self.old.parts.name }
        ensures name { self.new.parts.name ≡ self.old.parts.name }
        ensures size { self.new.size ≡ self.old.size }
        ensures cause { HasHostCause (D.faults self.old.disk) (D.faults self.new.disk) result }
    {
        if self.stopped {
            return Err(HostError::Stopped);
        }
        if time < self.core.now() {
            return Err(HostError::Refused(Refusal::Time {
                now: self.core.now(),
            }));
        }
        let Some(session) = self.core.sessions().due(time) else {
            return Ok(None);
        };
        if self.core.last() >= LAST_LIMIT {
            return Err(HostError::Refused(Refusal::LogEnd));
        }
        if let Some(why) = no_file(&self.parts) {
            return Err(HostError::Refused(why));
        }
        self.core.keeps();
        let index = self.core.last() + 1;
        match self.store(alloc, end_of(time, session)) {
            Ok(()) => Ok(Some((index, session))),
            Err(error) => Err(error),
        }
    }
}
