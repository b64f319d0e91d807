// The events of one batch. Contracts see them as a list.
ghost use Rattle.std.specs.Prelude.{◌≡◌, ◌<◌, [], ◌∷◌, ◌++◌, Some, length, slice_get, OnOk, OnErr};

use host_types::{Event, NoMemory};
use smallvec::SmallVec;
use std::alloc::Global;
use std::marker::Model;

/// A list of events. Most batches have one or two, and then the list takes no memory of its own.
#[derive(Drop)]
pub struct Events {
    // Each is there: an event has no blank value, which a small vector wants for its unused places.
    items: SmallVec<Option<Event>, 2>,
}

impl Model for Events {
    ghost use Rattle.std.specs.Prelude.{◌≡◌, List, map, Some};
    ghost use Rattle.std.specs.List.{filter_map};
    ghost use Rattle.host_types.specs.declared.entry.Event.{Event};

    ghost Value = { List Event };

    ghost view = { λ e. filter_map (λ o. o) e.items.items };

    ghost invariant = { λ e. e.items.items ≡ map Some (filter_map (λ o. o) e.items.items) };
}

impl Events {
    /// The empty list. It takes no memory.
    pub fn new(alloc: Global) -> Events
        ensures { result ≡ [] }
    {
        Events {
            items: SmallVec::new(alloc),
        }
    }

    /// Puts one more at its end. After an error all is as before.
    pub fn push(&mut self, one: Event) -> Result<(), NoMemory>
        ensures ok { OnOk result (self.new ≡ self.old ++ one ∷ []) }
        ensures err { OnErr result (self.new ≡ self.old) }
    {
        self.items.push(Some(one))?;
        Ok(())
    }

    /// How many they are.
    pub fn len(&self) -> usize
        ensures { result ≡ length self.now }
    {
        self.items.len()
    }

    /// The event at this place, counted from 0, which has to be below the length.
    pub fn at(&self, place: usize) -> &Event
        requires { place < length self.now }
        ensures { slice_get self.now place ≡ Some result.now }
    {
        match &self.items.as_slice()[place] {
            Some(event) => event,
            None => unreachable!(),
        }
    }
}
