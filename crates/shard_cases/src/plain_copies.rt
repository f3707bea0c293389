//! What a round has of a shard, by a walk over plain lists.

use crate::past::{Act, Past, PlainRow, number_of};
use cube_rounds::{RoundBrick, RoundBricks};
use cube_values::{CodedRows, Entries, Entry};
use std::alloc::{AllocError, Global};

/// What a round has of a brick, in plain lists.
#[derive(Drop)]
struct PlainPart {
    entries: Vec<Entry>,
    rows: Vec<PlainRow>,
}

impl PlainPart {
    /// The entry after others; a run of the epoch of the last one makes that longer, and a mark equal to the last
    /// adds none.
    fn push(&mut self, entry: Entry) -> Result<(), AllocError> {
        let joins = match (self.entries.as_slice().last(), entry) {
            (Some(Entry::Run { epoch: last, .. }), Entry::Run { epoch, .. }) => *last == epoch,
            (Some(last), _) => *last == entry,
            (None, _) => false,
        };
        if joins {
            self.entries.pop();
        }
        self.entries.push(entry)?;
        Ok(())
    }

    /// The brick gains a row.
    fn put_row(&mut self, epoch: u64, row: PlainRow) -> Result<(), AllocError> {
        self.rows.push(row)?;
        let end = self.rows.len() as u64;
        self.push(Entry::Run { epoch, end })
    }

    /// The brick of a number gains its rows among those of a cube.
    fn put_rows(
        &mut self,
        cube: u32,
        number: u32,
        epoch: u64,
        rows: &[PlainRow],
    ) -> Result<(), AllocError> {
        for row in rows {
            if number_of(cube, row) == number {
                self.put_row(epoch, *row)?;
            }
        }
        Ok(())
    }

    /// The brick is marked.
    fn put_mark(&mut self, epoch: u64) -> Result<(), AllocError> {
        let at = self.rows.len() as u64;
        self.push(Entry::Mark { epoch, at })
    }
}

/// The first coordinates of a brick of a cube.
fn first_coords(cube: u32, number: u32) -> [u32; 2] {
    if cube == 0 {
        [number / 3 * 2, number % 3 * 3]
    } else {
        [number / 3, number % 3 * 4]
    }
}

/// What was done to a brick by the epochs above one and up to another.
fn part_of(
    alloc: Global,
    past: &Past,
    cube: u32,
    number: u32,
    from: u64,
    to: u64,
) -> Result<PlainPart, AllocError> {
    let mut part = PlainPart {
        entries: Vec::new(alloc),
        rows: Vec::new(alloc),
    };
    let coords = first_coords(cube, number);
    for deed in past.deeds.iter() {
        let epoch = deed.epoch;
        if deed.cube != cube || epoch <= from || to < epoch {
            continue;
        }
        match &deed.act {
            Act::Append(rows) => part.put_rows(cube, number, epoch, rows.as_slice())?,
            Act::Delete(span) => {
                if span.has(&coords) {
                    part.put_mark(epoch)?;
                }
            }
        }
    }
    Ok(part)
}

/// Whether metrics are those of a row, which has one in the first cube and two in the second.
fn are_metrics(metrics: &[i64], cube: u32, row: &PlainRow) -> bool {
    let [m, n] = row.metrics;
    match metrics {
        [first] => cube == 0 && *first == m,
        [first, second] => cube == 1 && *first == m && *second == n,
        _ => false,
    }
}

/// Whether rows are these, in order.
fn are_rows(rows: &CodedRows, cube: u32, wanted: &[PlainRow]) -> bool {
    if rows.len() != wanted.len() {
        return false;
    }
    for i in 0..rows.len() {
        let row = &wanted[i];
        if rows.coords_of(i) != row.coords.as_slice()
            || !are_metrics(rows.metrics_of(i), cube, row)
        {
            return false;
        }
    }
    true
}

/// The part of a brick among those of a round.
fn find(parts: &[RoundBrick], number: u32) -> Option<&RoundBrick> {
    parts.iter().find(|part| part.brick() == u64::from(number))
}

/// Whether the parts rise by the numbers of their bricks, which are below another number.
fn do_rise(parts: &[RoundBrick], bricks: u32) -> bool {
    let mut low = 0;
    for part in parts {
        if part.brick() < low || part.brick() >= u64::from(bricks) {
            return false;
        }
        low = part.brick() + 1;
    }
    true
}

/// Whether the parts of a cube have what was done to each brick. That of a brick without rows may be left out.
fn are_parts(
    alloc: Global,
    parts: &[RoundBrick],
    past: &Past,
    cube: u32,
    from: u64,
    to: u64,
) -> Result<bool, AllocError> {
    let bricks = if cube == 0 { 9 } else { 12 };
    for number in 0..bricks {
        let wanted = part_of(alloc, past, cube, number, from, to)?;
        let same = match find(parts, number) {
            Some(part) => is_part(part, cube, &wanted),
            None => wanted.entries.is_empty() || !past.has_rows(cube, number),
        };
        if !same {
            return Ok(false);
        }
    }
    Ok(do_rise(parts, bricks))
}

/// Whether a part is this one, and has entries.
fn is_part(part: &RoundBrick, cube: u32, wanted: &PlainPart) -> bool {
    !wanted.entries.is_empty()
        && part.entries() == wanted.entries.as_slice()
        && are_rows(part.rows(), cube, wanted.rows.as_slice())
}

/// Whether a round from one epoch up to another has of each brick what was done to it.
pub fn is_round(
    alloc: Global,
    round: &RoundBricks,
    past: &Past,
    from: u64,
    to: u64,
) -> Result<bool, AllocError> {
    match round.as_slice() {
        [first, second, others @ ..] => {
            let has_first = are_parts(alloc, first.as_slice(), past, 0, from, to)?;
            let has_second = are_parts(alloc, second.as_slice(), past, 1, from, to)?;
            Ok(has_first && has_second && others.iter().all(|parts| parts.is_empty()))
        }
        _ => Ok(false),
    }
}
