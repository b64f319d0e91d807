// What an effect is to the cells of an instance.
ghost use Rattle.std.specs.Prelude.{◌≡◌, cond};
ghost use Rattle.host_types.specs.Cells.{is_of_kind};
ghost use Rattle.cell_table.specs.Changes.{change_of};
ghost use Rattle.cell_table.specs.declared.change.Change.TheVariants as keeps;

use host_types::{Cell, Content, Effect, Index, Kind};

/// What an effect is to the cells of an instance.
#[derive(Drop)]
pub(crate) enum Change {
    /// It puts a cell.
    Puts,
    /// It takes one cell out.
    Drops,
    /// It takes all out.
    Empties,
    /// It takes out the pairs of a key.
    Wipes,
    /// It leaves the cells alone.
    Keeps,
}

fn suits(kind: Kind, cell: &Cell, content: &Content) -> bool
    ensures { result ≡ is_of_kind kind cell.now content.now }
{
    match (kind, cell, content) {
        (Kind::Value, Cell::One, Content::Text(_)) => true,
        (Kind::Counter, Cell::One, Content::Number(_)) => true,
        (Kind::Map, Cell::Named(_), Content::Text(_)) => true,
        (Kind::Multimap, Cell::Pair(..), Content::Mark) => true,
        (Kind::Set, Cell::Member(_), Content::Mark) => true,
        (Kind::Queue, Cell::At(_), Content::Text(_)) => true,
        (Kind::Lock, Cell::Waiter { .. }, Content::Mark) => true,
        (Kind::Group, Cell::At(_), Content::Text(_)) => true,
        (Kind::Group, Cell::Of(_), Content::Mark) => true,
        (Kind::Topic, Cell::Of(_), Content::Mark) => true,
        _ => false,
    }
}

fn either(holds: bool, change: Change) -> Change
    ensures { result ≡ cond holds change keeps.Keeps }
{
    if holds { change } else { Change::Keeps }
}

pub(crate) fn change_of(kind: Kind, instance: Index, effect: &Effect) -> Change
    ensures { result ≡ change_of kind instance effect.now }
{
    match effect {
        Effect::Put {
            instance: other,
            cell,
            content,
            ..
        } => either(
            instance == *other && suits(kind, cell, content),
            Change::Puts,
        ),
        Effect::Delete {
            name: _,
            instance: other,
        } => either(instance == *other, Change::Empties),
        Effect::Drop {
            instance: other,
            ..
        } => either(instance == *other, Change::Drops),
        Effect::Wipe { instance: other } => either(instance == *other, Change::Empties),
        Effect::WipeKey {
            instance: other,
            ..
        } => either(instance == *other, Change::Wipes),
        _ => Change::Keeps,
    }
}
