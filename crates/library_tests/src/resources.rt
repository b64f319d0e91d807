// A resource as it is used: each operation is decided, stored as the next entry, and applied.
ghost use Rattle.std.specs.Prelude.{◌≡◌, ℕ, ◌≤◌, ◌<◌, []};
ghost use Rattle.commit_lending.specs.Lent.{tokens};
ghost use Rattle.host_types.specs.Cells.{places_of};
ghost use Rattle.machine.specs.Release.{AreOut};

use crate::asks::{Ask, News, Say, answer_of, event_of, op_of};
use crate::checks::{closed, key, same};
use commit_lending::Lender;
use host_types::{Effect, Event, Index, Op, Reply};
use machine::{Decision, Place, Refuse, Resource};
use std::alloc::Global;
use std::process::Abort;

/// Applies an effect as the entry with this index.
fn store<R: Resource>(
    rt: &impl Abort,
    resource: &mut R,
    alloc: Global,
    lender: &mut Lender,
    effect: &Effect,
    index: Index,
)
    requires held { AreOut (places_of (R.cells resource.old)) lender.old }
    requires fresh { (j : ℕ) → index ≤ j → tokens lender.old j ≡ 0 }
    ensures held { AreOut (places_of (R.cells resource.new)) lender.new }
    ensures fresh { (j : ℕ) → index < j → tokens lender.new j ≡ 0 }
{
    if let Effect::Create { .. } = effect {
        panic!(rt; "a resource creates a name");
    }
    resource.prepare(alloc, effect, index).expect(rt, "memory");
    lender.reserve().expect(rt, "memory");
    let commit = lender.lend(index);
    resource.apply(commit, effect, lender);
}

/// Decides an operation of session 1, and applies it as the entry with this index.
fn step<R: Resource>(
    rt: &impl Abort,
    resource: &mut R,
    alloc: Global,
    lender: &mut Lender,
    op: &Op,
    index: Index,
) -> Result<Reply, Refuse>
    requires held { AreOut (places_of (R.cells resource.old)) lender.old }
    requires fresh { (j : ℕ) → index ≤ j → tokens lender.old j ≡ 0 }
    ensures held { AreOut (places_of (R.cells resource.new)) lender.new }
    ensures fresh { (j : ℕ) → index < j → tokens lender.new j ≡ 0 }
{
    match resource.resolve(alloc, op, 1, index) {
        Ok(Decision { effect, reply }) => {
            store(rt, resource, alloc, lender, &effect, index);
            drop(effect);
            Ok(reply)
        }
        Err(why) => Err(why),
    }
}

/// What is asked, and what is answered.
pub type Row = (Ask, Say);

/// Makes the operation of a row, as the entry with this index, and asserts its answer.
fn answers<R: Resource>(
    rt: &impl Abort,
    resource: &mut R,
    alloc: Global,
    lender: &mut Lender,
    row: &Row,
    index: Index,
)
    requires held { AreOut (places_of (R.cells resource.old)) lender.old }
    requires fresh { (j : ℕ) → index ≤ j → tokens lender.old j ≡ 0 }
    ensures held { AreOut (places_of (R.cells resource.new)) lender.new }
    ensures fresh { (j : ℕ) → index < j → tokens lender.new j ≡ 0 }
{
    let (ask, say) = *row;
    let op = op_of(rt, alloc, ask);
    let answer = step(rt, resource, alloc, lender, &op, index);
    same(rt, (index, answer), (index, answer_of(rt, alloc, say)));
    drop(op);
}

/// The entry of the first row has index 1.
fn answers_all<R: Resource>(
    rt: &impl Abort,
    resource: &mut R,
    alloc: Global,
    lender: &mut Lender,
    rows: &[Row],
)
    requires empty { R.cells resource.old ≡ [] }
    requires none { (j : ℕ) → tokens lender.old j ≡ 0 }
    ensures { AreOut (places_of (R.cells resource.new)) lender.new }
{
    for at in 0..rows.len() {
        answers(rt, resource, alloc, lender, &rows[at], at as u64 + 1);
    }
}

/// What a resource lists. Nobody is told of an effect that is nothing, nor of the end of session 1, the only one.
fn listed<R: Resource>(rt: &impl Abort, resource: &R, alloc: Global) -> Vec<Place> {
    let mut cells = Vec::new(alloc);
    resource.list(alloc, &mut cells).expect(rt, "memory");
    let name = key(rt, alloc, b"r");
    let told = resource
        .tells(alloc, &name, &Effect::Nothing, 90)
        .expect(rt, "memory");
    same(rt, told.into_items().len(), 0);
    let told = resource.tells_close(alloc, &name, 1).expect(rt, "memory");
    same(rt, told.into_items().len(), 0);
    drop(name);
    cells
}

/// The rows of a resource's life, what `get` and `size` show then, and the pairs that are closed at its end.
pub struct Life {
    pub rows: &'static [Row],
    pub get: Say,
    pub size: Say,
    pub closed: &'static [(Index, Index)],
}

/// A resource from its beginning to its end. Answers what it lists after the rows.
pub fn lives<R: Resource>(
    rt: &impl Abort,
    alloc: Global,
    mut resource: R,
    life: &Life,
) -> Vec<Place>
    requires { R.cells resource ≡ [] }
{
    let mut lender = Lender::new(alloc);
    answers_all(rt, &mut resource, alloc, &mut lender, life.rows);
    let cells = listed(rt, &resource, alloc);
    same(
        rt,
        resource.look(alloc, &Op::Get),
        answer_of(rt, alloc, life.get),
    );
    same(
        rt,
        resource.look(alloc, &Op::Size),
        answer_of(rt, alloc, life.size),
    );
    resource.forget_owner(1, 91, &mut lender);
    resource.end(&mut lender);
    let pairs = closed(rt, alloc, &mut lender);
    same(rt, pairs.as_slice(), life.closed);
    drop(pairs);
    drop(lender);
    cells
}

/// The events that are told to each session, in order.
type Telling = &'static [(Index, News)];

/// A session, what it asks, what it is answered, and what is told of it.
pub type Turn = (Index, Ask, Say, Telling);

/// The events of the resource `r`.
fn events_of(rt: &impl Abort, alloc: Global, telling: Telling) -> Vec<(Index, Event)> {
    let mut events = Vec::new(alloc);
    for (session, news) in telling {
        let event = event_of(rt, alloc, b'r', *news);
        events.push((*session, event)).expect(rt, "memory");
    }
    events
}

/// Asserts what an effect tells, as that of the entry with this index.
fn tells<R: Resource>(
    rt: &impl Abort,
    resource: &R,
    alloc: Global,
    effect: &Effect,
    index: Index,
    telling: Telling,
) {
    let name = key(rt, alloc, b"r");
    let told = resource
        .tells(alloc, &name, effect, index)
        .expect(rt, "memory");
    same(
        rt,
        (index, told.into_items()),
        (index, events_of(rt, alloc, telling)),
    );
    drop(name);
}

/// Makes the operation of a turn, as the entry with this index, and asserts its answer and what it tells.
fn turns<R: Resource>(
    rt: &impl Abort,
    resource: &mut R,
    alloc: Global,
    lender: &mut Lender,
    turn: &Turn,
    index: Index,
)
    requires held { AreOut (places_of (R.cells resource.old)) lender.old }
    requires fresh { (j : ℕ) → index ≤ j → tokens lender.old j ≡ 0 }
    ensures held { AreOut (places_of (R.cells resource.new)) lender.new }
    ensures fresh { (j : ℕ) → index < j → tokens lender.new j ≡ 0 }
{
    let (session, ask, say, telling) = *turn;
    let op = op_of(rt, alloc, ask);
    let Decision { effect, reply } = resource
        .resolve(alloc, &op, session, index)
        .expect(rt, "it is decided");
    drop(op);
    tells(rt, resource, alloc, &effect, index, telling);
    store(rt, resource, alloc, lender, &effect, index);
    drop(effect);
    same(rt, (index, Ok(reply)), (index, answer_of(rt, alloc, say)));
}

/// The entry of the first turn has index 1.
fn turns_all<R: Resource>(
    rt: &impl Abort,
    resource: &mut R,
    alloc: Global,
    lender: &mut Lender,
    rows: &[Turn],
)
    requires empty { R.cells resource.old ≡ [] }
    requires none { (j : ℕ) → tokens lender.old j ≡ 0 }
    ensures { AreOut (places_of (R.cells resource.new)) lender.new }
{
    for at in 0..rows.len() {
        turns(rt, resource, alloc, lender, &rows[at], at as u64 + 1);
    }
}

/// Asserts what the end of each session would tell.
fn tells_ends<R: Resource>(
    rt: &impl Abort,
    resource: &R,
    alloc: Global,
    ends: &[(Index, Telling)],
) {
    let name = key(rt, alloc, b"r");
    for (owner, telling) in ends {
        let told = resource
            .tells_close(alloc, &name, *owner)
            .expect(rt, "memory");
        same(
            rt,
            (*owner, told.into_items()),
            (*owner, events_of(rt, alloc, telling)),
        );
    }
    drop(name);
}

/// The turns of some sessions, and what the end of each would tell then.
pub struct Talk {
    pub turns: &'static [Turn],
    pub ends: &'static [(Index, Telling)],
}

/// A resource that tells, through some turns.
pub fn talks<R: Resource>(rt: &impl Abort, alloc: Global, mut resource: R, talk: &Talk)
    requires { R.cells resource ≡ [] }
{
    let mut lender = Lender::new(alloc);
    turns_all(rt, &mut resource, alloc, &mut lender, talk.turns);
    tells_ends(rt, &resource, alloc, talk.ends);
    resource.end(&mut lender);
    drop(lender);
}
