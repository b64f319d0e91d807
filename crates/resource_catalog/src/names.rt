// The names of a catalog.
ghost use Rattle.std.specs.Prelude.{◌≡◌, ◌<◌, ◌++◌, [], None, IsTrue, OnOk, length, option_copied, take};
ghost use Rattle.std.specs.Option.{option_map};
ghost use Rattle.std.specs.Vec.{vec_len, vec_capacity};
ghost use Rattle.std.specs.FinMap.Entries.{find, put, is_sorted};
ghost use Rattle.host_types.specs.Cells.{text_cmp, places_of};
ghost use Rattle.machine.specs.Listing.{listed};
ghost use Rattle.machine.specs.Release.{AreOut, Releases, Retires};
ghost use Rattle.resource_catalog.specs.Parts.{name_cells};
ghost use Rattle.resource_catalog.specs.Steps.{without_name};

use crate::sorted::place_of;
use commit_lending::{Commit, Lender};
use host_types::{Cell, Content, Index, Key, Kind, NoMemory};
use machine::Place;
use std::alloc::Global;

/// What stands at a name: the commit of the entry that created it, whose index names the instance, and its kind.
pub struct Named {
    pub commit: Commit,
    pub kind: Kind,
}

/// The names, by rising key. Finding one takes time logarithmic in their number.
pub(crate) struct Names {
    pub(crate) entries: Vec<(Key, Named)>,
    pub ghost rises: { IsTrue (is_sorted text_cmp entries.items) },
}

impl Names {
    /// No name. It takes no memory.
    pub(crate) fn new(alloc: Global) -> Names
        ensures { result.entries.items ≡ [] }
    {
        Names {
            entries: Vec::new(alloc),
        }
    }

    /// What stands at a name.
    pub(crate) fn get(&self, name: &Key) -> Option<&Named>
        ensures { option_copied result ≡ find text_cmp name.now self.now.entries.items }
    {
        match place_of(&self.entries, name) {
            Ok(at) => Some(&self.entries[at].1),
            Err(_) => None,
        }
    }

    /// Puts a name that isn't there, into room that was made.
    pub(crate) fn add(&mut self, name: Key, named: Named)
        requires room { vec_len self.old.entries < vec_capacity self.old.entries }
        requires absent { find text_cmp name self.old.entries.items ≡ None }
        ensures { self.new.entries.items ≡ put text_cmp name named self.old.entries.items }
    {
        match place_of(&self.entries, &name) {
            Ok(_) => unreachable!(),
            Err(at) => match self.entries.insert(at, (name, named)) {
                Ok(()) => {}
                Err(_refused) => unreachable!(),
            },
        }
    }

    /// Takes a name out, and closes its commit for the entry with the index `by`. It answers the instance that had the name.
    pub(crate) fn take(&mut self, name: &Key, by: Index, lender: &mut Lender) -> Option<Index>
        requires { AreOut (places_of (name_cells self.old.entries.items)) lender.old }
        ensures names { self.new.entries.items ≡ without_name name.now self.old.entries.items }
        ensures instance { result ≡ option_map (λ n. n.commit) (find text_cmp name.now self.old.entries.items) }
        ensures released { Releases (places_of (name_cells self.old.entries.items)) (places_of (name_cells self.new.entries.items)) by lender.old lender.new }
    {
        match place_of(&self.entries, name) {
            Ok(at) => {
                let (_, Named { commit, kind: _ }) = self.entries.remove(at);
                let index = commit.index();
                lender.close(commit, by);
                Some(index)
            }
            Err(_) => None,
        }
    }

    /// Appends each name as a cell of instance 0. After an error the list begins as before.
    pub(crate) fn list(&self, out: &mut Vec<Place>) -> Result<(), NoMemory>
        ensures ok { OnOk result (out.new.items ≡ out.old.items ++ listed (name_cells self.now.entries.items)) }
        ensures begins { take (length out.old.items) out.new.items ≡ out.old.items }
    {
        for (name, named) in &self.entries {
            out.push(Place {
                instance: 0,
                cell: Cell::Named(name.copy()?),
                index: named.commit.index(),
                content: Content::Mark,
                owner: None,
            })?;
        }
        Ok(())
    }

    /// Retires the commits of all names.
    pub(crate) fn end(self, lender: &mut Lender)
        requires { AreOut (places_of (name_cells self.entries.items)) lender.old }
        ensures { Retires (places_of (name_cells self.entries.items)) lender.old lender.new }
    {
        let Names { mut entries } = self;
        while let Some((_, Named { commit, kind: _ })) = entries.pop() {
            lender.retire(commit);
        }
        entries.destroy_empty();
    }
}
