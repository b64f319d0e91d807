// Commits that cells were held by go back.
ghost use Rattle.std.specs.Prelude.{◌≡◌, ℕ, ◌+◌};
ghost use Rattle.commit_lending.specs.Lent.{one_of, tokens};
ghost use Rattle.machine.specs.Holding.{held_by, IsLent};
ghost use Rattle.machine.specs.Release.{AreOut, Releases, Retires};

use commit_lending::{Commit, Lender};
use host_types::Index;

/// Closes the commit that held a cell, if there was one, for the entry with the index `by`, which put or dropped the cell.
///
/// Where the whole of a resource is out at the lender, the step is what the release law asks of a resource that loses just this
/// place.
pub fn close_held(commit: Option<Commit>, by: Index, lender: &mut Lender)
    requires { IsLent commit lender.old }
    ensures { (was held : ℕ → ℕ) → AreOut was lender.old → ((j : ℕ) → held j + held_by commit j ≡ was j) → Releases was held by lender.old lender.new }
{
    match commit {
        Some(commit) => lender.close(commit, by),
        None => {}
    }
}

/// Closes a commit that holds no cell, by its own index.
///
/// Beside whatever is held and isn't its own, the step is what the release law asks of an entry that puts no cell.
pub fn close_own(commit: Commit, lender: &mut Lender)
    requires { tokens lender.old commit ≡ 1 }
    ensures { (held : ℕ → ℕ) → held commit ≡ 0 → Releases (λ j. held j + one_of commit j) held commit lender.old lender.new }
{
    let index = commit.index();
    lender.close(commit, index);
}

/// Retires the commit that held a cell, if there was one.
pub fn retire_held(commit: Option<Commit>, lender: &mut Lender)
    requires { IsLent commit lender.old }
    ensures { Retires (held_by commit) lender.old lender.new }
{
    match commit {
        Some(commit) => lender.retire(commit),
        None => {}
    }
}
