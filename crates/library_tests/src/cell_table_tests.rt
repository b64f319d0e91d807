// A table of cells against a plain list of them, over random steps with ample memory: after each step every look-up and every pair
// that was closed is that of the list.
use crate::checks::{key, same, word};
use crate::plain_cells::{PlainCells, Row, Spot, Which};
use cell_table::{CellTable, Standing, least_pair};
use commit_lending::Lender;
use host_types::{Cell, Content, Effect, Index, Kind};
use machine::Place;
use std::alloc::Global;
use std::marker::Model;
use std::process::Abort;

/// The instance of the tables.
const HERE: Index = 7;

/// The letters of the spots that are looked at: those that are put, and one below and one above them.
const LETTERS: &[u8] = b"Abcdefz";

/// The sessions that own cells, and one that owns none.
const SESSIONS: &[Index] = &[1, 2, 3, 4];

/// A generator of numbers: Lehmer's, with the multiplier 48271.
#[derive(Drop)]
struct Dice {
    seed: u64,
}

impl Dice {
    /// The next number, below 2^31.
    fn roll(&mut self) -> u64 {
        self.seed = self.seed % 2_147_483_647 * 48_271 % 2_147_483_647;
        self.seed / 16
    }

    fn letter(&mut self) -> u8 {
        match self.roll() % 5 {
            0 => b'b',
            1 => b'c',
            2 => b'd',
            3 => b'e',
            _ => b'f',
        }
    }

    fn spot(&mut self) -> Spot {
        (self.letter(), self.letter())
    }

    fn owner(&mut self) -> Option<Index> {
        match self.roll() % 4 {
            0 => None,
            session => Some(session),
        }
    }

    /// What the next entry puts.
    fn row(&mut self, index: Index) -> Row {
        Row {
            spot: self.spot(),
            index,
            letter: self.letter(),
            owner: self.owner(),
        }
    }

    fn step(&mut self, index: Index) -> Step {
        match self.roll() % 20 {
            0..=11 => Step::Put(self.row(index)),
            12..=14 => Step::Drop(self.spot()),
            15 | 16 => Step::WipeKey(self.letter()),
            17 | 18 => Step::Forget(self.roll() % 4 + 1),
            _ => Step::Wipe,
        }
    }
}

/// What an entry does.
#[derive(Clone, Copy)]
enum Step {
    Put(Row),
    Drop(Spot),
    Wipe,
    WipeKey(u8),
    /// It ends a session.
    Forget(Index),
}

/// The cell of the kind at a spot.
fn cell_at(rt: &impl Abort, alloc: Global, kind: Kind, spot: Spot) -> Cell {
    let (first, second) = spot;
    match kind {
        Kind::Map => Cell::Named(key(rt, alloc, &[first, second])),
        Kind::Multimap => Cell::Pair(key(rt, alloc, &[first]), word(rt, alloc, &[second])),
        _ => Cell::Waiter {
            session: u64::from(first),
            id: u64::from(second),
        },
    }
}

fn content_of(rt: &impl Abort, alloc: Global, kind: Kind, row: Row) -> Content {
    match kind {
        Kind::Map => Content::Text(word(rt, alloc, &[row.letter])),
        _ => Content::Mark,
    }
}

/// The effect of a step that is a command.
fn effect_of(rt: &impl Abort, alloc: Global, kind: Kind, instance: Index, step: Step) -> Effect {
    match step {
        Step::Put(row) => Effect::Put {
            instance,
            cell: cell_at(rt, alloc, kind, row.spot),
            content: content_of(rt, alloc, kind, row),
            owner: row.owner,
        },
        Step::Drop(spot) => Effect::Drop {
            instance,
            cell: cell_at(rt, alloc, kind, spot),
        },
        Step::Wipe => Effect::Wipe { instance },
        Step::WipeKey(letter) => Effect::WipeKey {
            instance,
            key: key(rt, alloc, &[letter]),
        },
        Step::Forget(_) => Effect::Nothing,
    }
}

/// A table with its lender, and the next index.
struct Bench {
    table: CellTable,
    lender: Lender,
    next: Index,
}

impl Model for Bench {
    ghost use Rattle.std.specs.Prelude.{ℕ};
    ghost use Rattle.library_tests.specs.Benches.{IsSound};

    ghost Value = { ℕ };

    ghost view = { λ bench. bench.next };

    ghost invariant = { λ bench. IsSound bench.table.cells bench.lender bench.next };
}

impl Bench {
    fn new(alloc: Global, kind: Kind) -> Bench {
        Bench {
            table: CellTable::new(alloc, kind, HERE),
            lender: Lender::new(alloc),
            next: 1,
        }
    }

    /// Applies an effect as the next entry.
    fn apply(&mut self, rt: &impl Abort, alloc: Global, effect: Effect) {
        let index = self.next;
        assert!(rt; index < u64::MAX);
        if let Effect::Create { .. } = &effect {
            panic!(rt; "a table creates a name");
        }
        self.table
            .prepare(alloc, &effect, index)
            .expect(rt, "memory");
        self.lender.reserve().expect(rt, "memory");
        let commit = self.lender.lend(index);
        self.table.apply(commit, &effect, &mut self.lender);
        drop(effect);
        self.next = index + 1;
    }

    /// Ends a session by the next entry.
    fn forget(&mut self, rt: &impl Abort, session: Index) {
        let index = self.next;
        assert!(rt; index < u64::MAX);
        self.table.forget_owner(session, index, &mut self.lender);
        self.next = index + 1;
    }

    fn table(&self) -> &CellTable {
        &self.table
    }

    fn next(&self) -> Index {
        self.next
    }

    /// The first of the pairs that were closed.
    fn pop_closed(&mut self) -> Option<(Index, Index)> {
        self.lender.pop_closed()
    }

    /// The pairs that were closed, sorted: 64 at most.
    fn closed(&mut self, rt: &impl Abort, alloc: Global) -> Vec<(Index, Index)> {
        let mut pairs = Vec::new(alloc);
        for _ in 0..64 {
            if let Some(pair) = self.pop_closed() {
                pairs.push(pair).expect(rt, "memory");
            }
        }
        pairs.sort().expect(rt, "memory");
        pairs
    }

    /// All goes back.
    fn end(self) {
        let Bench {
            table,
            mut lender,
            next: _,
        } = self;
        table.end(&mut lender);
        drop(lender);
    }
}

/// What a step takes out of a table of the kind.
fn taken_by(kind: Kind, step: Step) -> Which {
    match step {
        Step::Put(row) => Which::At(row.spot),
        Step::Drop(spot) => Which::At(spot),
        Step::Wipe => Which::All,
        Step::WipeKey(letter) => pairs_of(kind, letter),
        Step::Forget(session) => Which::OwnedBy(session),
    }
}

/// The pairs of a key, which only a multimap has.
fn pairs_of(kind: Kind, letter: u8) -> Which {
    match kind {
        Kind::Multimap => Which::Key(letter),
        _ => Which::Nothing,
    }
}

/// Makes the step in the list, as the entry with this index. Answers the pairs that it closes, sorted.
fn closed_by(
    rt: &impl Abort,
    alloc: Global,
    plain: &mut PlainCells,
    kind: Kind,
    step: Step,
    index: Index,
) -> Vec<(Index, Index)> {
    let mut pairs = Vec::new(alloc);
    for held in &plain.take(rt, alloc, taken_by(kind, step)) {
        pairs.push((*held, index)).expect(rt, "memory");
    }
    match step {
        Step::Put(row) => plain.put(rt, row),
        Step::Forget(_) => {}
        _ => pairs.push((index, index)).expect(rt, "memory"),
    }
    pairs.sort().expect(rt, "memory");
    pairs
}

/// A step of the table and of the list.
fn steps(
    rt: &impl Abort,
    alloc: Global,
    kind: Kind,
    bench: &mut Bench,
    plain: &mut PlainCells,
    dice: &mut Dice,
) {
    let index = bench.next();
    let step = dice.step(index);
    let wanted = closed_by(rt, alloc, plain, kind, step, index);
    match step {
        Step::Forget(session) => bench.forget(rt, session),
        _ => bench.apply(rt, alloc, effect_of(rt, alloc, kind, HERE, step)),
    }
    let pairs = bench.closed(rt, alloc);
    same(rt, pairs.as_slice(), wanted.as_slice());
    drop(pairs);
    drop(wanted);
}

/// A step of another instance, which leaves the cells alone.
fn passes(rt: &impl Abort, alloc: Global, kind: Kind, bench: &mut Bench, dice: &mut Dice) {
    let index = bench.next();
    let step = dice.step(index);
    bench.apply(rt, alloc, effect_of(rt, alloc, kind, HERE + 1, step));
    let pairs = bench.closed(rt, alloc);
    same(rt, pairs.as_slice(), &[(index, index)]);
    drop(pairs);
}

/// What a look-up found, and what the list has in its place.
fn agrees(
    rt: &impl Abort,
    alloc: Global,
    kind: Kind,
    found: Option<Standing>,
    wanted: Option<Row>,
) {
    let found = match found {
        Some(standing) => Some((
            standing.cell,
            standing.index,
            standing.content,
            standing.owner,
        )),
        None => None,
    };
    match wanted {
        Some(row) => {
            let cell = cell_at(rt, alloc, kind, row.spot);
            let content = content_of(rt, alloc, kind, row);
            same(rt, found, Some((&cell, row.index, &content, row.owner)));
            drop(content);
            drop(cell);
        }
        None => same(rt, found, None),
    }
}

/// Asserts what each look-up by this cell finds.
fn finds(
    rt: &impl Abort,
    alloc: Global,
    kind: Kind,
    table: &CellTable,
    plain: &PlainCells,
    spot: Spot,
) {
    let cell = cell_at(rt, alloc, kind, spot);
    let there = plain.at(spot);
    agrees(rt, alloc, kind, table.at(&cell), there);
    same(rt, table.contains(&cell), there.is_some());
    same(rt, table.content(&cell).is_some(), there.is_some());
    let first = plain.first_from(Which::All, spot);
    agrees(rt, alloc, kind, table.first_from(&cell), first);
    let above = plain.first_above(Which::All, spot);
    agrees(rt, alloc, kind, table.first_above(&cell), above);
    for session in SESSIONS {
        let owned = plain.first_from(Which::OwnedBy(*session), spot);
        agrees(rt, alloc, kind, table.first_owned(*session, &cell), owned);
    }
    drop(cell);
}

fn finds_with(
    rt: &impl Abort,
    alloc: Global,
    kind: Kind,
    table: &CellTable,
    plain: &PlainCells,
    first: u8,
) {
    for second in LETTERS {
        finds(rt, alloc, kind, table, plain, (first, *second));
    }
}

fn is_meant(which: Which, standing: Standing) -> bool {
    match (which, standing.cell) {
        (Which::Key(letter), Cell::Pair(key, _)) => key.bytes().first() == Some(&letter),
        (Which::OwnedBy(session), _) => standing.owner == Some(session),
        _ => false,
    }
}

/// Those of the cells that are meant, by the indexes that hold them, from this cell on.
fn walk(
    rt: &impl Abort,
    alloc: Global,
    table: &CellTable,
    from: &Cell,
    which: Which,
) -> Vec<Index> {
    let mut indexes = Vec::new(alloc);
    let mut next = table.first_from(from);
    for _ in 0..table.len() {
        if let Some(standing) = next {
            if is_meant(which, standing) {
                indexes.push(standing.index).expect(rt, "memory");
            }
            next = table.first_above(standing.cell);
        }
    }
    same(rt, next.is_none(), true);
    indexes
}

fn indexes_of(rt: &impl Abort, alloc: Global, plain: &PlainCells, which: Which) -> Vec<Index> {
    let mut indexes = Vec::new(alloc);
    for row in &plain.in_order(rt, alloc, which) {
        indexes.push(row.index).expect(rt, "memory");
    }
    indexes
}

/// Asserts which cells a walk finds.
fn walks(
    rt: &impl Abort,
    alloc: Global,
    table: &CellTable,
    plain: &PlainCells,
    from: &Cell,
    which: Which,
) {
    let found = walk(rt, alloc, table, from, which);
    let wanted = indexes_of(rt, alloc, plain, which);
    same(rt, found.as_slice(), wanted.as_slice());
    drop(found);
    drop(wanted);
}

/// Asserts the pairs of the key with this letter.
fn has_pairs(
    rt: &impl Abort,
    alloc: Global,
    kind: Kind,
    table: &CellTable,
    plain: &PlainCells,
    letter: u8,
) {
    let key = key(rt, alloc, &[letter]);
    let least = least_pair(alloc, &key).expect(rt, "memory");
    let found = walk(rt, alloc, table, &least, Which::Key(letter));
    let wanted = indexes_of(rt, alloc, plain, pairs_of(kind, letter));
    same(rt, found.as_slice(), wanted.as_slice());
    drop(found);
    drop(wanted);
    drop(least);
    drop(key);
}

/// The cells as they should be listed.
fn places(rt: &impl Abort, alloc: Global, kind: Kind, plain: &PlainCells) -> Vec<Place> {
    let mut places = Vec::new(alloc);
    for row in &plain.in_order(rt, alloc, Which::All) {
        let place = Place {
            instance: HERE,
            cell: cell_at(rt, alloc, kind, row.spot),
            index: row.index,
            content: content_of(rt, alloc, kind, *row),
            owner: row.owner,
        };
        places.push(place).expect(rt, "memory");
    }
    places
}

fn lists(rt: &impl Abort, alloc: Global, kind: Kind, table: &CellTable, plain: &PlainCells) {
    let mut found = Vec::new(alloc);
    table.list(&mut found).expect(rt, "memory");
    let wanted = places(rt, alloc, kind, plain);
    same(rt, found.as_slice(), wanted.as_slice());
    drop(found);
    drop(wanted);
}

/// Asserts who came first, from each index on.
fn waits(
    rt: &impl Abort,
    alloc: Global,
    kind: Kind,
    table: &CellTable,
    plain: &PlainCells,
    last: Index,
) {
    for from in 0..last {
        let wanted = match kind {
            Kind::Lock => plain.first_arrived(from),
            _ => None,
        };
        agrees(rt, alloc, kind, table.first_waiter(from), wanted);
    }
}

/// Asserts that a table is seen as the list.
fn is_seen(
    rt: &impl Abort,
    alloc: Global,
    kind: Kind,
    table: &CellTable,
    plain: &PlainCells,
    next: Index,
) {
    same(rt, table.len(), plain.len());
    lists(rt, alloc, kind, table, plain);
    waits(rt, alloc, kind, table, plain, next);
    for session in SESSIONS {
        let which = Which::OwnedBy(*session);
        walks(rt, alloc, table, plain, &Cell::One, which);
    }
    for letter in LETTERS {
        has_pairs(rt, alloc, kind, table, plain, *letter);
        finds_with(rt, alloc, kind, table, plain, *letter);
    }
}

/// 120 steps on a table of the kind, and some of another instance between them.
fn lasts(rt: &impl Abort, alloc: Global, kind: Kind, seed: u64) {
    let mut dice = Dice { seed };
    let mut bench = Bench::new(alloc, kind);
    let mut plain = PlainCells::new(alloc);
    for turn in 0..120 {
        steps(rt, alloc, kind, &mut bench, &mut plain, &mut dice);
        if turn % 8 == 0 {
            passes(rt, alloc, kind, &mut bench, &mut dice);
        }
        is_seen(rt, alloc, kind, bench.table(), &plain, bench.next());
    }
    bench.end();
    drop(plain);
    drop(dice);
}

#[test]
fn a_map_is_as_a_plain_list(rt: HostRuntime) {
    lasts(&rt, rt.alloc(), Kind::Map, 1);
}

#[test]
fn a_multimap_is_as_a_plain_list(rt: HostRuntime) {
    lasts(&rt, rt.alloc(), Kind::Multimap, 2);
}

#[test]
fn a_lock_is_as_a_plain_list(rt: HostRuntime) {
    lasts(&rt, rt.alloc(), Kind::Lock, 3);
}
