// The cells of one instance as a plain list, of which each question and each change reads all.
use host_types::Index;
use std::alloc::Global;
use std::process::Abort;

/// Two letters in place of a cell. Spots rise as their cells do.
pub type Spot = (u8, u8);

/// What stands at a spot.
#[derive(Clone, Copy, Debug, PartialEq, Eq)]
pub struct Row {
    pub spot: Spot,
    /// The entry that holds it.
    pub index: Index,
    pub letter: u8,
    pub owner: Option<Index>,
}

/// Which rows are meant.
#[derive(Clone, Copy)]
pub enum Which {
    All,
    Nothing,
    At(Spot),
    /// Those with this first letter.
    Key(u8),
    OwnedBy(Index),
}

impl Which {
    fn has(self, row: &Row) -> bool {
        match self {
            Which::All => true,
            Which::Nothing => false,
            Which::At(spot) => row.spot == spot,
            Which::Key(letter) => row.spot.0 == letter,
            Which::OwnedBy(session) => row.owner == Some(session),
        }
    }
}

/// The rows, in no order.
#[derive(Drop)]
pub struct PlainCells {
    rows: Vec<Row>,
}

impl PlainCells {
    pub fn new(alloc: Global) -> PlainCells {
        PlainCells {
            rows: Vec::new(alloc),
        }
    }

    pub fn put(&mut self, rt: &impl Abort, row: Row) {
        self.rows.push(row).expect(rt, "memory");
    }

    /// Takes these out. Answers the indexes that held them.
    pub fn take(&mut self, rt: &impl Abort, alloc: Global, which: Which) -> Vec<Index> {
        let mut left = Vec::new(alloc);
        let mut taken = Vec::new(alloc);
        for row in &self.rows {
            if which.has(row) {
                taken.push(row.index).expect(rt, "memory");
            } else {
                left.push(*row).expect(rt, "memory");
            }
        }
        self.rows = left;
        taken
    }

    pub fn len(&self) -> usize {
        self.rows.len()
    }

    /// These by rising spot.
    pub fn in_order(&self, rt: &impl Abort, alloc: Global, which: Which) -> Vec<Row> {
        let mut rows = Vec::new(alloc);
        let mut next = self.first_from(which, (0, 0));
        for _ in 0..self.rows.len() {
            if let Some(row) = next {
                rows.push(row).expect(rt, "memory");
                next = self.first_above(which, row.spot);
            }
        }
        rows
    }

    pub fn at(&self, spot: Spot) -> Option<Row> {
        let mut found = None;
        for row in &self.rows {
            if row.spot == spot {
                found = Some(*row);
            }
        }
        found
    }

    /// Of these the one at the least spot, from this one on.
    pub fn first_from(&self, which: Which, from: Spot) -> Option<Row> {
        let mut first = None;
        for row in &self.rows {
            if which.has(row) && row.spot >= from {
                first = lower(first, *row);
            }
        }
        first
    }

    /// Of these the one at the least spot above this one.
    pub fn first_above(&self, which: Which, below: Spot) -> Option<Row> {
        let mut first = None;
        for row in &self.rows {
            if which.has(row) && row.spot > below {
                first = lower(first, *row);
            }
        }
        first
    }

    /// The one that the least index holds, from this index on.
    pub fn first_arrived(&self, from: Index) -> Option<Row> {
        let mut first = None;
        for row in &self.rows {
            if row.index >= from {
                first = earlier(first, *row);
            }
        }
        first
    }
}

fn lower(first: Option<Row>, row: Row) -> Option<Row> {
    match first {
        Some(other) if other.spot < row.spot => Some(other),
        _ => Some(row),
    }
}

fn earlier(first: Option<Row>, row: Row) -> Option<Row> {
    match first {
        Some(other) if other.index < row.index => Some(other),
        _ => Some(row),
    }
}
