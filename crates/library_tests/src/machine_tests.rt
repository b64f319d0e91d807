// The traits, used through their bounds alone: what holds of whatever resources and machines.
ghost use Rattle.std.specs.Prelude.{◌≡◌, ℕ, [], false};
ghost use Rattle.commit_lending.specs.Lent.{tokens};
ghost use Rattle.host_types.specs.Cells.{Cells, places_of, is_create};
ghost use Rattle.host_types.specs.Decision.{Decides, IsAsked};
ghost use Rattle.host_types.specs.Ranges.{IsIndex};
ghost use Rattle.host_types.specs.declared.entry.Op.{Op as AnyOp};
ghost use Rattle.host_types.specs.declared.entry.Effect.{Effect as AnyEffect};
ghost use Rattle.host_types.specs.declared.entry.Reply.{Reply as AnyReply};
ghost use Rattle.machine.specs.Release.{AreOut, AreApart, Releases};
ghost use Rattle.library_tests.specs.Machines.{held_by_both};

use crate::asks::Say;
use crate::checks::{closed, key, same};
use crate::machines::{listed, shows, store};
use commit_lending::Lender;
use host_types::{Effect, Event, Index, Op};
use machine::{Machine, Refuse, Resource, Told};
use resource_catalog::Catalog;
use std::alloc::Global;
use std::process::Abort;

/// What a resource decides is never a new name: by the law of the bound.
fn never_creates<R: Resource>()
    ensures { (instance : ℕ) (cells : Cells) (op : AnyOp) (session index : ℕ) (effect : AnyEffect) (reply : AnyReply) → IsIndex instance → IsAsked cells op session index → R.decides.resolve instance cells op session index ≡ Decides effect reply → is_create effect ≡ false }
{}

/// One resource beside another that holds other indexes: what both drop for a session.
fn forget_both<A: Resource, B: Resource>(
    first: &mut A,
    second: &mut B,
    owner: Index,
    by: Index,
    lender: &mut Lender,
)
    requires held { AreOut (held_by_both (A.cells first.old) (B.cells second.old)) lender.old }
    requires apart { AreApart (places_of (A.cells first.old)) (places_of (B.cells second.old)) }
    ensures { Releases (held_by_both (A.cells first.old) (B.cells second.old)) (held_by_both (A.cells first.new) (B.cells second.new)) by lender.old lender.new }
{
    first.forget_owner(owner, by, lender);
    second.forget_owner(owner, by, lender);
}

/// One effect as entry 6, what is seen then, the end of a session, and the end.
fn use_machine<M: Machine>(rt: &impl Abort, alloc: Global, mut machine: M, lender: &mut Lender)
    requires empty { M.cells machine ≡ [] }
    requires none { (j : ℕ) → tokens lender.old j ≡ 0 }
{
    store(rt, &mut machine, alloc, lender, &Effect::Nothing, 6);
    machine.forget_owner(2, 7, lender);
    let cells = listed(rt, &machine, alloc);
    same(rt, cells.len(), 0);
    drop(cells);
    let name = key(rt, alloc, b"t1");
    same(
        rt,
        machine.resolve(alloc, &name, &Op::Poll, 2, 7),
        Err(Refuse::NoName),
    );
    drop(name);
    shows(rt, &machine, alloc, [b't', b'1'], Say::NoName);
    machine.end(lender);
}

#[test]
fn a_machine_is_used_through_its_bound(rt: HostRuntime) {
    let mut lender = Lender::new(rt.alloc());
    use_machine(&rt, rt.alloc(), Catalog::new(rt.alloc()), &mut lender);
    let pairs = closed(&rt, rt.alloc(), &mut lender);
    same(&rt, pairs.as_slice(), &[(6, 6)]);
    drop(pairs);
    drop(lender);
}

fn left(rt: &impl Abort, alloc: Global) -> Event {
    let name = key(rt, alloc, b"t");
    Event::Left { name, member: 6 }
}

/// The sessions that are told, in order.
fn sessions_of(rt: &impl Abort, alloc: Global, told: Told) -> Vec<Index> {
    let mut sessions = Vec::new(alloc);
    for (session, _) in told.into_items() {
        sessions.push(session).expect(rt, "memory");
    }
    sessions
}

#[test]
fn events_are_told_in_order(rt: HostRuntime) {
    let alloc = rt.alloc();
    let mut told = Told::new(alloc);
    told.push((2, left(&rt, alloc))).expect(&rt, "memory");
    told.push((1, left(&rt, alloc))).expect(&rt, "memory");
    let mut more = Told::new(alloc);
    more.push((3, left(&rt, alloc))).expect(&rt, "memory");
    told.append(more).expect(&rt, "memory");
    let sessions = sessions_of(&rt, alloc, told);
    same(&rt, sessions.as_slice(), &[2, 1, 3]);
    drop(sessions);
}
