// What an entry does to a machine and to the sessions, and which commits go back.
ghost use Rattle.std.specs.Prelude.{◌≡◌, ◌≢◌, ℕ, Bool, ◌≤◌, ◌+◌, ◌==◌, not, [], ◌++◌, IfOk, OnOk};
ghost use Rattle.std.specs.List.{filter};
ghost use Rattle.host_types.specs.Cells.{Cells, places_of, without_owner};
ghost use Rattle.commit_lending.specs.Lent.{one_of};
ghost use Rattle.machine.specs.Release.{Releases};
ghost use Rattle.host_types.specs.declared.entry.Reply.{Reply as AnyReply};
ghost use Rattle.log_model.specs.cleaning.Cells.{after};
ghost use Rattle.log_model.specs.replay.Replay.{replay_alive, replay_reply};
ghost use Rattle.log_model.specs.hosted.Sound.{Rises};
ghost use Rattle.log_model.specs.plain.Step.{changed};
ghost use Rattle.log_model.specs.hosted.Parts.{machine_after};
ghost use Rattle.session_table.specs.Table.{IsOpen, IsSame, KeepsRoom, beside_alive, beside_changed, reply_room};
ghost use Rattle.session_table.specs.Places.{table_cells};
ghost use Rattle.host_core.specs.Batching.{AreBatchesOf, HaveBatchRoom, ended_by, told_above, told_by};
ghost use Rattle.host_core.specs.Entering.{AreKeptBefore, Entered, HasRoomFor, Meets, has_owner, held_at, held_with};

use crate::batching::{Batches, ended_by, gather, push_all, told_above};
use commit_lending::{Commit, Lender};
use host_types::{Body, Effect, Entry, Index, NoMemory, Reply, Time};
use machine::{Machine, close_own};
use session_table::Sessions;
use std::alloc::Global;

/// Whether the owner of what the effect puts is open, or nobody is to own it.
fn owner_stands(sessions: &Sessions, effect: &Effect) -> bool
    ensures { result ≡ has_owner sessions.now.sessions effect.now }
{
    match effect {
        Effect::Put {
            owner: Some(owner),
            ..
        } => sessions.find(*owner).is_some(),
        _ => true,
    }
}

/// Hands the commit of a command to the machine. What would belong to a session that isn't open isn't put.
fn enter_effect<M: Machine>(
    machine: &mut M,
    sessions: &Sessions,
    lender: &mut Lender,
    commit: Commit,
    effect: &Effect,
)
    requires meets { Meets commit (M.cells machine.old) sessions.now lender.old }
    requires ready { M.is_ready machine.old effect.now commit }
    ensures machine { (session seq : ℕ) (reply : AnyReply) → M.cells machine.new ≡ machine_after (M.cells machine.old ++ table_cells sessions.now) commit (Body.Command session seq effect.now reply) (M.cells machine.old) }
    ensures released { Releases (λ j. places_of (M.cells machine.old) j + one_of commit j) (places_of (M.cells machine.new)) commit lender.old lender.new }
{
    if owner_stands(sessions, effect) {
        machine.apply(commit, effect, lender);
    } else {
        close_own(commit, lender);
    }
}

/// Keeps the reply of a command above the cut whose sequence is above the session's last one. Else the last sequence is raised.
fn keep_reply(
    sessions: &mut Sessions,
    session: Index,
    seq: u64,
    index: Index,
    reply: Reply,
    cut: Index,
)
    requires index { 1 ≤ index }
    requires room { IsOpen session sessions.old → 1 ≤ reply_room session sessions.old }
    requires before { AreKeptBefore index sessions.old.sessions }
    requires rises { Rises sessions.old.sessions }
    ensures sessions { sessions.new.sessions ≡ changed session (replay_reply cut seq index reply) sessions.old.sessions }
    ensures beside { sessions.new.beside ≡ sessions.old.beside }
{
    let Some(view) = sessions.find(session) else {
        return;
    };
    if cut < index && view.seq < seq {
        sessions.keep(session, seq, index, reply);
    } else {
        sessions.note(session, seq);
    }
}

/// Takes a keep-alive. That of a session that isn't open is closed by its own index.
fn enter_alive(
    sessions: &mut Sessions,
    lender: &mut Lender,
    commit: Commit,
    time: Time,
    session: Index,
    seq: u64,
    event: Index,
)
    requires meets { (machine : Cells) × Meets commit machine sessions.old lender.old }
    ensures sessions { sessions.new.sessions ≡ changed session (replay_alive time seq event) sessions.old.sessions }
    ensures beside { sessions.new.beside ≡ beside_changed session (beside_alive commit event) sessions.old.beside }
    ensures table { table_cells sessions.new ≡ after (table_cells sessions.old) commit (record { time = time; body = Body.Alive session seq event }) }
    ensures released { Releases (λ j. places_of (table_cells sessions.old) j + one_of commit j) (places_of (table_cells sessions.new)) commit lender.old lender.new }
{
    if sessions.find(session).is_none() {
        close_own(commit, lender);
        return;
    }
    sessions.alive(session, commit, time, seq, event, lender);
    sessions.note(session, seq);
}

/// Ends a session: what it owns is dropped, and its own commits go back.
fn enter_close<M: Machine>(
    machine: &mut M,
    sessions: &mut Sessions,
    lender: &mut Lender,
    commit: Commit,
    session: Index,
)
    requires meets { Meets commit (M.cells machine.old) sessions.old lender.old }
    ensures machine { M.cells machine.new ≡ without_owner session (M.cells machine.old) }
    ensures sessions { sessions.new.sessions ≡ filter (λ x. not (x.id == session)) sessions.old.sessions }
    ensures beside { sessions.new.beside ≡ filter (λ b. not (b.id == session)) sessions.old.beside }
    ensures table { (time : ℕ) (expired : Bool) → table_cells sessions.new ≡ after (table_cells sessions.old) commit (record { time = time; body = Body.Close session expired }) }
    ensures rooms { (other : ℕ) → other ≢ session → KeepsRoom other sessions.old sessions.new }
    ensures released { Releases (held_with commit (M.cells machine.old) sessions.old) (held_at (M.cells machine.new) sessions.new) commit lender.old lender.new }
{
    let index = commit.index();
    machine.forget_owner(session, index, lender);
    if sessions.find(session).is_some() {
        sessions.close(session, index, lender);
    }
    close_own(commit, lender);
}

/// Does what the entry of the commit says, with replies kept above the cut, and gives the sessions their batches. All that it puts has
/// room.
pub(crate) fn enter<M: Machine>(
    machine: &mut M,
    sessions: &mut Sessions,
    lender: &mut Lender,
    commit: Commit,
    entry: Entry,
    batches: Batches,
    cut: Index,
)
    requires meets { Meets commit (M.cells machine.old) sessions.old lender.old }
    requires room { HasRoomFor (M.is_ready machine.old) sessions.old commit entry.body }
    requires batches { AreBatchesOf (told_above cut commit (told_by M.decides (M.cells machine.old) commit entry.body)) (ended_by entry.body) sessions.old.sessions batches.entries }
    requires batch_room { HaveBatchRoom (ended_by entry.body) sessions.old batches.entries }
    ensures { Entered commit entry cut (told_by M.decides (M.cells machine.old) commit entry.body) (M.cells machine.old) (M.cells machine.new) sessions.old sessions.new lender.old lender.new }
{
    let Entry { time, body } = entry;
    match body {
        Body::Register { timeout } => {
            drop(batches);
            sessions.register(commit, time, timeout);
        }
        Body::Alive {
            session,
            seq,
            event,
        } => {
            drop(batches);
            enter_alive(sessions, lender, commit, time, session, seq, event);
        }
        Body::Close { session, .. } => {
            let index = commit.index();
            enter_close(machine, sessions, lender, commit, session);
            push_all(sessions, index, batches);
        }
        Body::Tick => {
            drop(batches);
            close_own(commit, lender);
        }
        Body::Command {
            session,
            seq,
            effect,
            reply,
        } => {
            let index = commit.index();
            enter_effect(machine, sessions, lender, commit, &effect);
            push_all(sessions, index, batches);
            keep_reply(sessions, session, seq, index, reply, cut);
        }
    }
}

/// Makes room for what an entry of this index will put, and for its reply. The rest stays, whatever it answers.
fn prepare<M: Machine>(
    alloc: Global,
    machine: &mut M,
    sessions: &mut Sessions,
    index: Index,
    body: &Body,
) -> Result<(), NoMemory>
    ensures room { OnOk result (HasRoomFor (M.is_ready machine.new) sessions.new index body.now) }
    ensures machine { M.cells machine.new ≡ M.cells machine.old }
    ensures sessions { IsSame sessions.old sessions.new }
{
    match body {
        Body::Register { .. } => sessions.prepare_register(),
        Body::Command {
            session,
            effect,
            ..
        } => {
            machine.prepare(alloc, effect, index)?;
            if sessions.find(*session).is_some() {
                sessions.prepare_reply(*session)?;
            }
            Ok(())
        }
        _ => Ok(()),
    }
}

/// Makes room for what an entry of this index will put and keep, and the batches that it makes above the cut. The rest stays, whatever
/// it answers.
pub(crate) fn make_room<M: Machine>(
    alloc: Global,
    machine: &mut M,
    sessions: &mut Sessions,
    index: Index,
    body: &Body,
    cut: Index,
) -> Result<Batches, NoMemory>
    ensures room { OnOk result (HasRoomFor (M.is_ready machine.new) sessions.new index body.now) }
    ensures batches { IfOk result (λ batches. AreBatchesOf (told_above cut index (told_by M.decides (M.cells machine.old) index body.now)) (ended_by body.now) sessions.old.sessions batches.entries) }
    ensures batch_room { IfOk result (λ batches. HaveBatchRoom (ended_by body.now) sessions.new batches.entries) }
    ensures machine { M.cells machine.new ≡ M.cells machine.old }
    ensures sessions { IsSame sessions.old sessions.new }
{
    prepare(alloc, machine, sessions, index, body)?;
    let told = told_above(alloc, machine, index, body, cut)?;
    gather(alloc, sessions, told, ended_by(body))
}
