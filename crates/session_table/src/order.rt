// The commits of the open sessions, by rising id.
ghost use Rattle.std.specs.Prelude.{◌≡◌, ℕ, ◌+◌, ◌<◌, ◌≤◌, map, nat_le, Some, IfSome, IsSome};
ghost use Rattle.std.specs.List.{find, slice_get};
ghost use Rattle.std.specs.Option.{option_map, option_copied};
ghost use Rattle.std.specs.VecDeque.{deque_len};
ghost use Rattle.commit_lending.specs.Lent.{tokens, one_of};
ghost use Rattle.machine.specs.Holding.{held_by};
ghost use Rattle.event_batches.specs.Rising.{Rises};
ghost use Rattle.session_table.specs.Rows.{row_at, row_in, kept_in, ClosesBoth};

use crate::open_session::OpenSession;
use commit_lending::{Commit, Lender};
use host_types::Index;
use machine::close_held;
use slab::Slab;
use std::collections::VecDeque;

// The commits of one open session, and the key of the rest of it. The index of the register entry is the session's id.
pub(crate) struct Row {
    pub(crate) register: Commit,
    pub(crate) alive: Option<Commit>,
    pub(crate) slot: usize,
}

// Where the first row with this id or above it stands, or would stand.
fn place_from(order: &VecDeque<Row>, id: Index) -> usize
    requires { Rises 0 (map (λ row. row.register) order.now.items) }
    ensures { slice_get order.now.items result ≡ find (λ row. nat_le id row.register) order.now.items }
{
    order.partition_point(|row| row.register.index() < id)
}

// Where the row of a session stands.
pub(crate) fn place_of(order: &VecDeque<Row>, id: Index) -> Option<usize>
    requires { Rises 0 (map (λ row. row.register) order.now.items) }
    ensures row { row_in result order.now.items ≡ row_at id order.now.items }
    ensures within { IfSome result (λ place. place < deque_len order.now) }
{
    let place = place_from(order, id);
    match order.get(place) {
        Some(row) => {
            if row.register.index() == id {
                Some(place)
            } else {
                None
            }
        }
        None => None,
    }
}

// Where the row of an open session stands.
pub(crate) fn open_place(order: &VecDeque<Row>, id: Index) -> usize
    requires rising { Rises 0 (map (λ row. row.register) order.now.items) }
    requires open { IsSome (row_at id order.now.items) }
    ensures row { row_in (Some result) order.now.items ≡ row_at id order.now.items }
    ensures within { result < deque_len order.now }
{
    match place_of(order, id) {
        Some(place) => place,
        None => unreachable!(),
    }
}

// The key of an open session.
pub(crate) fn open_slot(order: &VecDeque<Row>, id: Index) -> usize
    requires rising { Rises 0 (map (λ row. row.register) order.now.items) }
    requires open { IsSome (row_at id order.now.items) }
    ensures { option_map (λ row. row.slot) (row_at id order.now.items) ≡ Some result }
{
    order[open_place(order, id)].slot
}

// A session, if it is open.
pub(crate) fn session_in<'a>(
    order: &VecDeque<Row>,
    slots: &'a Slab<OpenSession>,
    id: Index,
) -> Option<&'a OpenSession>
    requires { Rises 0 (map (λ row. row.register) order.now.items) }
    ensures { option_copied result ≡ kept_in (row_at id order.now.items) slots.now }
{
    match place_of(order, id) {
        Some(place) => slots.get(order[place].slot),
        None => None,
    }
}

// Closes both commits of a session that ends. The key of the rest of it is answered.
pub(crate) fn close_row(row: Row, by: Index, lender: &mut Lender) -> usize
    requires { (j : ℕ) → one_of row.register j + held_by row.alive j ≤ tokens lender.old j }
    ensures slot { result ≡ row.slot }
    ensures released { ClosesBoth row.register row.alive by lender.old lender.new }
{
    let Row {
        register,
        alive,
        slot,
    } = row;
    lender.close(register, by);
    close_held(alive, by, lender);
    slot
}
