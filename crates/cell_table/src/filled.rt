// What a cell holds, with the commit of the entry that put it.
ghost use Rattle.std.specs.Prelude.{◌≡◌};
ghost use Rattle.std.specs.Option.{option_map};

use commit_lending::Commit;
use host_types::{Content, Index};

/// What a cell holds, with the commit of the entry that put it.
pub(crate) struct Filled {
    pub(crate) commit: Commit,
    pub(crate) content: Content,
    pub(crate) owner: Option<Index>,
}

pub(crate) fn commit_of(filled: Option<Filled>) -> Option<Commit>
    ensures { result ≡ option_map (λ f. f.commit) filled }
{
    match filled {
        Some(
            Filled {
                commit,
                content: _,
                owner: _,
            },
        ) => Some(commit),
        None => None,
    }
}
