//! What was done to a shard, in plain lists, and what of it a snapshot sees.

use cube_values::{BoundQuery, Snapshot, Span};
use std::alloc::{AllocError, Global};

/// A row that was appended. Of its metrics the first cube has the first alone.
#[derive(Clone, Copy, Debug)]
pub struct PlainRow {
    pub coords: [u32; 2],
    pub metrics: [i64; 2],
}

/// Rows are appended, or those in a box deleted.
#[derive(Debug, Drop)]
pub enum Act {
    Append(Vec<PlainRow>),
    Delete(Span),
}

/// What an epoch did to a cube by a call.
#[derive(Debug, Drop)]
pub struct Deed {
    /// The number of the call.
    pub call: u64,
    pub cube: u32,
    pub epoch: u64,
    pub act: Act,
}

/// The number of the brick of a row of a cube.
pub fn number_of(cube: u32, row: &PlainRow) -> u32 {
    let [x, y] = row.coords;
    if cube == 0 {
        (x / 2).saturating_mul(3).saturating_add(y / 3)
    } else {
        x.saturating_mul(3).saturating_add(y / 4)
    }
}

impl Deed {
    /// The rows that it appended.
    fn rows(&self) -> &[PlainRow] {
        match &self.act {
            Act::Append(rows) => rows.as_slice(),
            Act::Delete(_) => &[],
        }
    }

    /// Whether it hides a row that another appended: one of an earlier epoch, or an earlier one of its own.
    fn hides(&self, other: &Deed, row: &PlainRow) -> bool {
        let earlier = other.epoch < self.epoch
            || (other.epoch == self.epoch && other.call < self.call);
        match &self.act {
            Act::Append(_) => false,
            Act::Delete(span) => earlier && other.cube == self.cube && span.has(&row.coords),
        }
    }
}

/// What was done to a shard in order, without what was rolled back.
#[derive(Debug, Drop)]
pub struct Past {
    pub deeds: Vec<Deed>,
    /// Up to which epoch was purged.
    pub purged: u64,
    /// Cubes and numbers of the bricks in which a row ever came.
    born: Vec<(u32, u32)>,
}

impl Past {
    /// Nothing was done.
    pub fn new(alloc: Global) -> Past {
        Past {
            deeds: Vec::new(alloc),
            purged: 0,
            born: Vec::new(alloc),
        }
    }

    /// A deed was done.
    pub fn push(&mut self, deed: Deed) -> Result<(), AllocError> {
        for row in deed.rows() {
            let number = number_of(deed.cube, row);
            if !self.has_brick(deed.cube, number) {
                self.born.push((deed.cube, number))?;
            }
        }
        self.deeds.push(deed)?;
        Ok(())
    }

    /// Whether a row ever came in a brick.
    fn has_brick(&self, cube: u32, number: u32) -> bool {
        self.born
            .iter()
            .any(|(of, there)| *of == cube && *there == number)
    }

    /// In how many bricks a row ever came.
    pub fn bricks(&self) -> usize {
        self.born.len()
    }

    /// An epoch was rolled back.
    pub fn rollback(&mut self, epoch: u64) {
        self.deeds.retain(|deed| deed.epoch != epoch);
    }

    /// It was purged at an epoch.
    pub fn purge(&mut self, epoch: u64) {
        self.purged = self.purged.max(epoch);
    }

    /// Whether a snapshot sees a row of a deed, by a look at every deed.
    fn sees(&self, snapshot: &Snapshot, by: &Deed, row: &PlainRow) -> bool {
        for deed in self.deeds.iter() {
            if snapshot.sees(deed.epoch) && deed.hides(by, row) {
                return false;
            }
        }
        snapshot.sees(by.epoch)
    }

    /// Whether there is a snapshot, and it sees a row of a deed.
    fn is_seen(&self, snapshot: Option<&Snapshot>, by: &Deed, row: &PlainRow) -> bool {
        match snapshot {
            Some(snapshot) => self.sees(snapshot, by, row),
            None => false,
        }
    }

    /// The rows of a query's cube in its span that one snapshot sees, and another does not where there is one.
    pub fn rows_seen(
        &self,
        alloc: Global,
        query: &BoundQuery,
        one: &Snapshot,
        other: Option<&Snapshot>,
    ) -> Result<Vec<PlainRow>, AllocError> {
        let mut rows = Vec::new(alloc);
        for deed in self.deeds.iter() {
            for row in deed.rows() {
                let asked = deed.cube == query.cube && query.span.has(&row.coords);
                if asked && self.sees(one, deed, row) && !self.is_seen(other, deed, row) {
                    rows.push(*row)?;
                }
            }
        }
        Ok(rows)
    }

    /// Whether no purge took a row of a deed out.
    fn keeps(&self, by: &Deed, row: &PlainRow) -> bool {
        for deed in self.deeds.iter() {
            if deed.epoch <= self.purged && deed.hides(by, row) {
                return false;
            }
        }
        true
    }

    /// How many rows there are that no purge took out.
    pub fn rows(&self) -> u64 {
        let mut rows: u64 = 0;
        for deed in self.deeds.iter() {
            for row in deed.rows() {
                if self.keeps(deed, row) {
                    rows = rows.saturating_add(1);
                }
            }
        }
        rows
    }

    /// Whether a brick has rows that no purge took out.
    pub fn has_rows(&self, cube: u32, number: u32) -> bool {
        for deed in self.deeds.iter() {
            for row in deed.rows() {
                let there = deed.cube == cube && number_of(cube, row) == number;
                if there && self.keeps(deed, row) {
                    return true;
                }
            }
        }
        false
    }
}
