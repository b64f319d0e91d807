// A commit. Contracts see it as its index.
ghost use Rattle.std.specs.Prelude.{◌≡◌};

use std::marker::Model;

/// The token of one stored entry, known by its index. Whoever keeps a cell that the entry put keeps its commit.
///
/// It can be neither copied nor dropped, so each commit that a lender lends comes back to a lender: it is closed, or it
/// is retired. Only a lender makes one.
pub struct Commit {
    index: u64,
}

impl Model for Commit {
    ghost use Rattle.std.specs.Prelude.{ℕ};

    ghost Value = { ℕ };

    ghost view = { λ c. c.index };
}

impl Commit {
    // For the lender alone.
    pub(crate) fn of(index: u64) -> Commit
        ensures { result ≡ index }
    {
        Commit { index }
    }

    // The end of a commit, for the lender alone.
    pub(crate) fn into_index(self) -> u64
        ensures { result ≡ self }
    {
        let Commit { index } = self;
        index
    }

    /// The index of the entry.
    pub fn index(&self) -> u64
        ensures { result ≡ self.now }
    {
        self.index
    }
}
