// When the open sessions are due, with the first time of all at hand.
ghost use Rattle.std.specs.Prelude.{◌≡◌, ◌*◌, ◌<◌, ◌≤◌, [], length, drop, slice_set, IfOk, OnOk};
ghost use Rattle.session_table.specs.Deadlines.{deadline_at, AreMore, IsAtMostEach, LeastIsAbove};

use host_types::{NoMemory, Time};
use std::alloc::Global;
use std::marker::Model;

// A deadline for each key: nobody is due up to the least of them. Contracts see them as a list.
//
// The nodes are a binary tree: its root is at 1, and the two nodes below `n` are at `2 * n` and `2 * n + 1`. The second half are its
// leaves, the deadlines by key. Each node above is the least of the two below it.
#[derive(Drop)]
pub(crate) struct Deadlines {
    count: usize,
    nodes: Vec<u64>,
}

impl Model for Deadlines {
    ghost use Rattle.std.specs.Prelude.{ℕ, List};

    ghost Value = { List ℕ };

    ghost use Rattle.session_table.specs.DeadlinesInside.{leaves, IsTree};

    ghost view = { leaves };

    ghost invariant = { IsTree };
}

impl Deadlines {
    pub(crate) fn new(alloc: Global) -> Deadlines
        ensures { result ≡ [] }
    {
        Deadlines {
            count: 0,
            nodes: Vec::new(alloc),
        }
    }

    // So many, at the last time, after which nobody can be due.
    fn never(alloc: Global, count: usize) -> Result<Deadlines, NoMemory>
        ensures { IfOk result (λ all. length all ≡ count) }
    {
        match count.checked_mul(2) {
            Some(nodes) => Ok(Deadlines {
                count,
                nodes: vec![in alloc; u64::MAX; nodes]?,
            }),
            None => Err(NoMemory),
        }
    }

    // The same, and more keys.
    fn grown(&self, count: usize) -> Result<Deadlines, NoMemory>
        requires { length self.now ≤ count }
        ensures count { IfOk result (λ all. length all ≡ count) }
        ensures more { IfOk result (λ all. AreMore self.now all) }
    {
        let mut all = Deadlines::never(*self.nodes.allocator(), count)?;
        for key in 0..self.count {
            all.set(key, self.nodes[self.count + key]);
        }
        Ok(all)
    }

    // Makes room for so many keys.
    pub(crate) fn prepare(&mut self, count: usize) -> Result<(), NoMemory>
        ensures ok { OnOk result (count ≤ length self.new) }
        ensures more { AreMore self.old self.new }
    {
        if count > self.count {
            *self = self.grown(count)?;
        }
        Ok(())
    }

    // No deadline is below this.
    pub(crate) fn least(&self) -> Time
        ensures { IsAtMostEach result self.now }
    {
        if self.count > 0 {
            self.nodes[1]
        } else {
            u64::MAX
        }
    }

    pub(crate) fn set(&mut self, key: usize, deadline: Time)
        requires { key < length self.old }
        ensures { self.new ≡ slice_set self.old key deadline }
    {
        set_leaf(self.nodes.as_mut_slice(), self.count, key, deadline);
    }
}

// Sets the leaf of a key, and each node above it to the least of the two below it.
fn set_leaf(nodes: &mut [u64], count: usize, key: usize, deadline: u64)
    requires halves { length nodes.old ≡ 2 * count }
    requires key { key < count }
    requires least { LeastIsAbove nodes.old }
    ensures leaves { drop count nodes.new ≡ slice_set (drop count nodes.old) key deadline }
    ensures least { LeastIsAbove nodes.new }
{
    let mut node = count + key;
    nodes[node] = deadline;
    while node > 1 {
        node /= 2;
        nodes[node] = nodes[2 * node].min(nodes[2 * node + 1]);
    }
}
