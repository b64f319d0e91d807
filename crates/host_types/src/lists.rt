// Lists that a reply has. Contracts see them as lists.
ghost use Rattle.std.specs.Prelude.{◌≡◌, ◌≤◌, ◌<◌, [], ◌∷◌, ◌++◌, length, nat_eq, IfOk, OnOk, OnErr};
ghost use Rattle.std.specs.Cmp.Lexicographic.{pointwise};
ghost use Rattle.std.specs.Cmp.Rules.{comparing};
ghost use Rattle.std.proofs.Common.{rules};
ghost use Rattle.host_types.specs.Limits.{words_limit, indexes_limit};

use crate::NoMemory;
use crate::entry::Index;
use crate::text::Word;
use std::alloc::Global;
use std::marker::Model;

/// At most 16 words, in order: some of those of a key.
#[derive(Debug, Drop)]
pub struct Words {
    items: Vec<Word>,
}

impl Model for Words {
    ghost use Rattle.std.specs.Prelude.{ℕ, ◌≤◌, List, length};
    ghost use Rattle.host_types.specs.Limits.{words_limit};

    ghost Value = { List (List ℕ) };

    ghost view = { λ list. list.items.items };

    ghost invariant = { λ list. length list.items.items ≤ words_limit };
}

impl Words {
    /// The empty list. It takes no memory.
    pub fn new(alloc: Global) -> Words
        ensures { result ≡ [] }
    {
        Words {
            items: Vec::new(alloc),
        }
    }

    /// Puts one more at its end. The limit mustn't be reached.
    pub fn push(&mut self, one: Word) -> Result<(), NoMemory>
        requires { length self.old < words_limit }
        ensures ok { OnOk result (self.new ≡ self.old ++ one ∷ []) }
        ensures err { OnErr result (self.new ≡ self.old) }
    {
        self.items.push(one)?;
        Ok(())
    }

    /// All of them, in order.
    pub fn as_slice(&self) -> &[Word]
        ensures items { result.now ≡ self.now }
        ensures few { length result.now ≤ words_limit }
    {
        &self.items
    }

    /// The same once more.
    pub fn copy(&self) -> Result<Words, NoMemory>
        ensures { IfOk result (λ copy. copy ≡ self.now) }
    {
        let mut items = Vec::with_capacity(*self.items.allocator(), self.items.len())?;
        for word in &self.items {
            items.push(word.copy()?)?;
        }
        Ok(Words { items })
    }
}

impl PartialEq for Words {
    ghost eq = { pointwise (pointwise nat_eq) };

    ghost laws = { Prim.search (comparing, rules) };

    fn eq(&self, other: &Words) -> bool {
        self.as_slice() == other.as_slice()
    }
}

impl Eq for Words {
    ghost laws = { Prim.search (comparing, rules) };
}

/// At most 64 indexes, in order: some of the members of a group.
#[derive(Debug, Drop)]
pub struct Indexes {
    items: Vec<Index>,
}

impl Model for Indexes {
    ghost use Rattle.std.specs.Prelude.{ℕ, ◌≤◌, List, length};
    ghost use Rattle.host_types.specs.Limits.{indexes_limit};

    ghost Value = { List ℕ };

    ghost view = { λ list. list.items.items };

    ghost invariant = { λ list. length list.items.items ≤ indexes_limit };
}

impl Indexes {
    /// The empty list. It takes no memory.
    pub fn new(alloc: Global) -> Indexes
        ensures { result ≡ [] }
    {
        Indexes {
            items: Vec::new(alloc),
        }
    }

    /// Puts one more at its end. The limit mustn't be reached.
    pub fn push(&mut self, one: Index) -> Result<(), NoMemory>
        requires { length self.old < indexes_limit }
        ensures ok { OnOk result (self.new ≡ self.old ++ one ∷ []) }
        ensures err { OnErr result (self.new ≡ self.old) }
    {
        self.items.push(one)?;
        Ok(())
    }

    /// All of them, in order.
    pub fn as_slice(&self) -> &[Index]
        ensures items { result.now ≡ self.now }
        ensures few { length result.now ≤ indexes_limit }
    {
        &self.items
    }

    /// The same once more.
    pub fn copy(&self) -> Result<Indexes, NoMemory>
        ensures { IfOk result (λ copy. copy ≡ self.now) }
    {
        Ok(Indexes {
            items: self.items.clone()?,
        })
    }
}

impl PartialEq for Indexes {
    ghost eq = { pointwise nat_eq };

    ghost laws = { Prim.search (comparing, rules) };

    fn eq(&self, other: &Indexes) -> bool {
        self.as_slice() == other.as_slice()
    }
}

impl Eq for Indexes {
    ghost laws = { Prim.search (comparing, rules) };
}
