// The members of a group, one after the other.
ghost use Rattle.std.specs.Prelude.{◌≡◌, ◌≤◌, ◌<◌, ◌+◌, ℕ, ◌++◌, length, take, IfOk, OnOk, IfSome};
ghost use Rattle.std.specs.List.{list_any, flat_map};
ghost use Rattle.std.specs.Option.{option_map};
ghost use Rattle.std.specs.Ordering.{nat_cmp};
ghost use Rattle.host_types.specs.declared.entry.Cell.TheVariants.{At};
ghost use Rattle.host_types.specs.declared.entry.Kind.TheVariants.{Group};
ghost use Rattle.cell_table.specs.Lookups.{found, held_of, and_above, cells_above, cells_from};
ghost use Rattle.log_model.specs.plain.Plain.{head_of, without_item};
ghost use Rattle.log_model.specs.kinds.Reading.{listeners_in};
ghost use Rattle.lock_group.specs.Members.{members_in, members_from, members_above, member_seen, indexes_of, members_of, noted, noted_of, before_listeners, is_of_session, its_cells, members_on, seen_in, left_of, told_left, told_by_cell};

use cell_table::{CellTable, Standing};
use host_types::{Cell, Content, Event, Index, Indexes, Key, NoMemory};
use machine::Told;
use std::alloc::Global;

// The member of a cell, by its index and its session.
fn member_of(standing: Standing<'_>) -> Option<(Index, Index)>
    ensures { result ≡ member_seen standing.entry.cell.now (held_of standing.entry) }
{
    match (standing.cell, standing.content) {
        (Cell::At(index), Content::Text(_)) => Some((*index, standing.owner.unwrap_or(0))),
        _ => None,
    }
}

/// What a cell holds is a member of this session.
pub(crate) fn is_of_session(standing: Option<Standing<'_>>, session: Index) -> bool
    ensures { result ≡ is_of_session session (option_map held_of standing.entry) }
{
    match standing {
        Some(standing) => match standing.content {
            Content::Text(_) => standing.owner.unwrap_or(0) == session,
            _ => false,
        },
        None => false,
    }
}

// The cell, unless it is a listener's.
fn unless_listening<'a>(standing: Option<Standing<'a>>) -> Option<Standing<'a>>
    ensures { found result ≡ before_listeners (found standing.entry) }
{
    match standing {
        Some(standing) => match standing.cell {
            Cell::Of(_) => None,
            _ => Some(standing),
        },
        None => None,
    }
}

// The first cell of a member, if there is one: the listeners' stand behind them.
fn first_member(table: &CellTable) -> Option<Standing<'_>>
    ensures { members_from table.now.instance table.now.cells (found result) ≡ members_in table.now.instance table.now.cells }
{
    table.in_order();
    let least = Cell::At(0);
    let first = table.first_from(&least);
    drop(least);
    unless_listening(first)
}

// The first cell of a member above this cell, if there is one.
fn member_above<'a>(table: &'a CellTable, cell: &Cell) -> Option<Standing<'a>>
    ensures members { members_from table.now.instance table.now.cells (found result) ≡ members_above table.now.instance table.now.cells cell.now }
    ensures fewer { length (and_above table.now.instance table.now.cells (found result)) ≤ length (cells_above table.now.instance cell.now table.now.cells) }
{
    unless_listening(table.first_above(cell))
}

/// The least member.
pub(crate) fn leader(table: &CellTable) -> Option<Index>
    ensures { result ≡ option_map (λ x. x.index) (head_of (members_in table.now.instance table.now.cells)) }
{
    let mut next = first_member(table);
    while let Some(standing) = next {
        if let Some((index, _)) = member_of(standing) {
            return Some(index);
        }
        next = member_above(table, standing.cell);
    }
    None
}

fn note(indexes: &mut Indexes, member: Option<(Index, Index)>) -> Result<(), NoMemory>
    requires { length indexes.old < 64 }
    ensures { OnOk result (indexes.new ≡ indexes.old ++ noted member) }
{
    if let Some((index, _)) = member {
        indexes.push(index)?;
    }
    Ok(())
}

/// The 64 least members, rising, or fewer.
pub(crate) fn least_members(table: &CellTable, alloc: Global) -> Result<Indexes, NoMemory>
    ensures { IfOk result (λ indexes. indexes ≡ take 64 (indexes_of (members_in table.now.instance table.now.cells))) }
{
    let mut indexes = Indexes::new(alloc);
    let mut next = first_member(table);
    while let Some(standing) = next {
        if indexes.as_slice().len() >= 64 {
            return Ok(indexes);
        }
        note(&mut indexes, member_of(standing))?;
        next = member_above(table, standing.cell);
    }
    // its type has at most 64
    let _least = indexes.as_slice();
    Ok(indexes)
}

fn count_one(count: usize, member: Option<(Index, Index)>) -> Result<usize, NoMemory>
    ensures { IfOk result (λ sum. sum ≡ count + length (noted member)) }
{
    match member {
        Some(_) => count.checked_add(1).ok_or(NoMemory),
        None => Ok(count),
    }
}

/// How many members there are. No memory holds too many to be counted.
pub(crate) fn count_members(table: &CellTable) -> Result<usize, NoMemory>
    ensures { IfOk result (λ count. count ≡ length (members_in table.now.instance table.now.cells)) }
{
    let mut count = 0;
    let mut next = first_member(table);
    while let Some(standing) = next {
        count = count_one(count, member_of(standing))?;
        next = member_above(table, standing.cell);
    }
    Ok(count)
}

fn note_gone(
    gone: &mut Vec<Index>,
    member: Option<(Index, Index)>,
    session: Index,
) -> Result<(), NoMemory>
    ensures { OnOk result (gone.new.items ≡ gone.old.items ++ noted_of session member) }
{
    if let Some((index, owner)) = member {
        if owner == session {
            gone.push(index)?;
        }
    }
    Ok(())
}

// The first of the session's cells at this one or above it. Members that nobody owns, of which no log has any, count as those of
// session 0.
fn first_of<'a>(table: &'a CellTable, session: Index, from: &Cell) -> Option<Standing<'a>>
    ensures { cells_from table.now.instance from.now (its_cells session table.now.cells) ≡ and_above table.now.instance (its_cells session table.now.cells) (found result) }
{
    if session == 0 {
        table.first_from(from)
    } else {
        table.first_owned(session, from)
    }
}

fn seen_in(standing: Option<Standing<'_>>) -> Option<(Index, Index)>
    ensures { result ≡ seen_in (found standing.entry) }
{
    match standing {
        Some(standing) => member_of(standing),
        None => None,
    }
}

// The first member of the session at this index or above it, by its index and its session.
fn member_from(table: &CellTable, session: Index, from: Index) -> Option<(Index, Index)>
    requires { table.now.kind ≡ Group }
    ensures members { left_of table.now.instance (its_cells session table.now.cells) session result ≡ indexes_of (members_of session (members_on table.now.instance (its_cells session table.now.cells) from)) }
    ensures fewer { IfSome result (λ w. length (cells_from table.now.instance (At (w.0 + 1)) (its_cells session table.now.cells)) < length (cells_from table.now.instance (At from) (its_cells session table.now.cells))) }
{
    table.in_order();
    let cell = Cell::At(from);
    let first = seen_in(first_of(table, session, &cell));
    drop(cell);
    first
}

/// The members of a session. Where it has none, that is seen by one look-up. No index is too great for the next one: no log has such
/// an index.
pub(crate) fn members_of(
    table: &CellTable,
    alloc: Global,
    session: Index,
) -> Result<Vec<Index>, NoMemory>
    requires { table.now.kind ≡ Group }
    ensures { IfOk result (λ gone. gone.items ≡ indexes_of (members_of session (members_in table.now.instance table.now.cells))) }
{
    table.in_order();
    let mut gone = Vec::new(alloc);
    let mut next = member_from(table, session, 0);
    while let Some((index, _)) = next {
        note_gone(&mut gone, next, session)?;
        match index.checked_add(1) {
            Some(from) => next = member_from(table, session, from),
            None => return Err(NoMemory),
        }
    }
    Ok(gone)
}

// Tells one session that these members left.
fn tell_left(told: &mut Told, name: &Key, gone: &[Index], session: Index) -> Result<(), NoMemory>
    ensures { OnOk result (told.new ≡ told.old ++ told_left name.now gone.now session) }
{
    for member in gone {
        let name = name.copy()?;
        told.push((
            session,
            Event::Left {
                name,
                member: *member,
            },
        ))?;
    }
    Ok(())
}

// Tells the session of a listener's cell, unless it is the closed one.
fn tell_by_cell(
    told: &mut Told,
    name: &Key,
    gone: &[Index],
    closed: Index,
    cell: &Cell,
) -> Result<(), NoMemory>
    ensures { OnOk result (told.new ≡ told.old ++ told_by_cell name.now gone.now closed cell.now) }
{
    match cell {
        Cell::Of(session) => {
            if closed.cmp(session).is_eq() {
                Ok(())
            } else {
                tell_left(told, name, gone, *session)
            }
        }
        _ => Ok(()),
    }
}

/// That these members of the closed session left, for each other listener, by rising session. Where none left, nobody is looked for.
pub(crate) fn tell_others(
    table: &CellTable,
    alloc: Global,
    name: &Key,
    gone: &[Index],
    closed: Index,
) -> Result<Told, NoMemory>
    ensures { IfOk result (λ told. told ≡ flat_map (told_left name.now gone.now) (without_item nat_cmp closed (listeners_in table.now.instance table.now.cells))) }
{
    table.in_order();
    let mut told = Told::new(alloc);
    if gone.is_empty() {
        return Ok(told);
    }
    let least = Cell::Of(0);
    let mut next = table.first_from(&least);
    drop(least);
    while let Some(standing) = next {
        tell_by_cell(&mut told, name, gone, closed, standing.cell)?;
        next = table.first_above(standing.cell);
    }
    Ok(told)
}
