// The life of some commits, with ample memory.
ghost use Rattle.std.specs.Prelude.{◌≡◌, ℕ, ◌+◌};
ghost use Rattle.commit_lending.specs.Lent.{tokens, one_of};

use crate::checks::{closed, same};
use commit_lending::{Commit, Lender};
use std::process::Abort;

/// Lends the commit of an index that isn't out.
fn lent(rt: &impl Abort, lender: &mut Lender, index: u64) -> Commit
    requires { tokens lender.old index ≡ 0 }
    ensures index { result ≡ index }
    ensures tokens { (j : ℕ) → tokens lender.new j ≡ tokens lender.old j + one_of index j }
{
    lender.reserve().expect(rt, "memory");
    lender.lend(index)
}

#[test]
fn commits_are_lent_and_come_back(rt: HostRuntime) {
    let mut lender = Lender::new(rt.alloc());
    same(&rt, lender.pop_closed(), None);
    let third = lent(&rt, &mut lender, 3);
    let fifth = lent(&rt, &mut lender, 5);
    same(&rt, third.index(), 3);
    lender.close(third, 5);
    let seventh = lent(&rt, &mut lender, 7);
    lender.close(seventh, 7);
    lender.retire(fifth);
    let pairs = closed(&rt, rt.alloc(), &mut lender);
    same(&rt, pairs.as_slice(), &[(3, 5), (7, 7)]);
    drop(pairs);
    drop(lender);
}
