// What sessions are told. Contracts see it as a list.
ghost use Rattle.std.specs.Prelude.{◌≡◌, [], ◌∷◌, ◌++◌, OnOk, OnErr};

use host_types::{Event, Index, NoMemory};
use std::alloc::Global;
use std::marker::Model;

/// The events that one entry makes, in their order, each with the session that is told.
#[derive(Debug, Drop)]
pub struct Told {
    items: Vec<(Index, Event)>,
}

impl Model for Told {
    ghost use Rattle.std.specs.Prelude.{ℕ, List};
    ghost use Rattle.host_types.specs.declared.entry.Event.{Event};

    ghost Value = { List (ℕ × Event) };

    ghost view = { λ told. told.items.items };
}

impl Told {
    /// The empty list. It takes no memory.
    pub fn new(alloc: Global) -> Told
        ensures { result ≡ [] }
    {
        Told {
            items: Vec::new(alloc),
        }
    }

    /// Puts one more at its end. After an error all is as before.
    pub fn push(&mut self, one: (Index, Event)) -> Result<(), NoMemory>
        ensures ok { OnOk result (self.new ≡ self.old ++ one ∷ []) }
        ensures err { OnErr result (self.new ≡ self.old) }
    {
        self.items.push(one)?;
        Ok(())
    }

    /// Moves the events of another list behind its own. After an error all of its own are as before.
    pub fn append(&mut self, more: Told) -> Result<(), NoMemory>
        ensures ok { OnOk result (self.new ≡ self.old ++ more) }
        ensures err { OnErr result (self.new ≡ self.old) }
    {
        let Told { mut items } = more;
        self.items.append(&mut items)?;
        Ok(())
    }

    /// All of them, in order.
    pub fn into_items(self) -> Vec<(Index, Event)>
        ensures { result.items ≡ self }
    {
        let Told { items } = self;
        items
    }
}
