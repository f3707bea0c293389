//! The lists that a fold of a brick works in.

ghost use Rattle.std.specs.Prelude.{◌≡◌, length, vec_len, OnOk};

use crate::dense::Dense;
use cube_values::BoundQuery;
use std::alloc::{AllocError, Global};

/// Lists that a fold of a brick works in, and that the next one finds as it left them.
#[derive(Debug, Drop)]
pub struct FoldLists {
    /// The cells of rows that are looked at at once.
    pub numbers: Vec<u32>,
    /// Their offsets in a dimension.
    pub offsets: Vec<u32>,
    /// What all cells have.
    pub dense: Dense,
    /// The key of a cell.
    pub key: Vec<u32>,
    /// What a cell has of the numbers of each item.
    pub sums: Vec<i128>,
    pub lows: Vec<i64>,
    pub highs: Vec<i64>,
    /// The coordinates and the metrics of a row.
    pub coords: Vec<u32>,
    pub metrics: Vec<i64>,
}

impl FoldLists {
    /// Empty lists. They take no memory.
    pub fn new(alloc: Global) -> FoldLists {
        FoldLists {
            numbers: Vec::new(alloc),
            offsets: Vec::new(alloc),
            dense: Dense::new(alloc),
            key: Vec::new(alloc),
            sums: Vec::new(alloc),
            lows: Vec::new(alloc),
            highs: Vec::new(alloc),
            coords: Vec::new(alloc),
            metrics: Vec::new(alloc),
        }
    }

    /// Makes the lists that a fold by cells works in as long as so many rows at once and the query want them.
    pub fn fit(&mut self, query: &BoundQuery, rows: usize) -> Result<(), AllocError>
        ensures numbers { OnOk result (vec_len self.new.numbers ≡ rows) }
        ensures offsets { OnOk result (vec_len self.new.offsets ≡ rows) }
        ensures key { OnOk result (vec_len self.new.key ≡ length query.now.group) }
        ensures sums { OnOk result (vec_len self.new.sums ≡ length query.now.items) }
        ensures lows { OnOk result (vec_len self.new.lows ≡ length query.now.items) }
        ensures highs { OnOk result (vec_len self.new.highs ≡ length query.now.items) }
    {
        let dims = query.group.len();
        let items = query.items.len();
        self.numbers.resize(rows, 0)?;
        self.offsets.resize(rows, 0)?;
        self.key.resize(dims, 0)?;
        self.sums.resize(items, 0)?;
        self.lows.resize(items, 0)?;
        self.highs.resize(items, 0)?;
        Ok(())
    }
}
