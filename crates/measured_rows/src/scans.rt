//! A brick scanned for an answer.

ghost use Rattle.std.specs.Prelude.{◌≡◌, ◌<◌, ◌^◌, length, All, IfOk};
ghost use Rattle.cube_values.specs.Queries.{IsSoundQuery};
ghost use Rattle.cube_values.specs.Spans.{IsSoundPart};
ghost use Rattle.agg_fold.specs.Standing.{StandsFor};
ghost use Rattle.brick_store.specs.Rows.{rows_shown};
ghost use Rattle.measured_rows.specs.OneBrick.{one_brick};
ghost use Rattle.measured_rows.specs.Scanned.{all_coords, all_epochs, count_alone, scanned_sum, sums_and_counts};

use crate::groups::table_sum;
use crate::one_brick::{BATCH, append_all, batch, one_brick};
use agg_fold::Partial;
use brick_store::{Brick, Scratch};
use cube_values::{
    BoundItem, BoundItems, BoundQuery, Coords, EpochList, NameLists, Part, Parts, Snapshot, Span,
};
use std::alloc::{AllocError, Global};
use timed_work::Work;

/// A brick of so many rows, in batches.
fn filled(alloc: Global, items: u32) -> Result<Brick, AllocError>
    ensures home { IfOk result (λ brick. brick.home ≡ one_brick) }
    ensures few { IfOk result (λ brick. length brick.rows < 2 ^ 63) }
{
    let batch = batch(alloc)?;
    let mut brick = one_brick(alloc)?;
    append_all(&mut brick, &batch, items / BATCH as u32)?;
    Ok(brick)
}

/// All coordinates.
fn all_coords(alloc: Global) -> Result<Span, AllocError>
    ensures { IfOk result (λ span. span ≡ all_coords) }
{
    Ok(Span {
        parts: Parts::from_vec(vec![in alloc; Part::All, Part::All]?),
    })
}

/// A sum and a count for each coordinate of the first dimension.
fn sums_and_counts(alloc: Global) -> Result<BoundQuery, AllocError>
    ensures { IfOk result (λ query. query ≡ sums_and_counts) }
{
    Ok(BoundQuery {
        cube: 0,
        span: all_coords(alloc)?,
        group: Coords::from_vec(vec![in alloc; 0]?),
        items: BoundItems::from_vec(vec![in alloc;
            BoundItem::Group(0),
            BoundItem::Sum(0),
            BoundItem::Count,
        ]?),
    })
}

/// A count over all rows.
fn count_alone(alloc: Global) -> Result<BoundQuery, AllocError>
    ensures { IfOk result (λ query. query ≡ count_alone) }
{
    Ok(BoundQuery {
        cube: 0,
        span: all_coords(alloc)?,
        group: Coords::new(alloc),
        items: BoundItems::from_vec(vec![in alloc; BoundItem::Count]?),
    })
}

/// The rows of a brick, all of which are seen, as a partial.
fn scanned(alloc: Global, brick: &Brick, query: &BoundQuery) -> Result<Partial, AllocError>
    requires sound { IsSoundQuery query.now (length brick.now.home.sizes) brick.now.home.metrics }
    requires parts { All IsSoundPart query.now.span.parts }
    requires few { length brick.now.rows < 2 ^ 63 }
    ensures { IfOk result (λ partial. StandsFor query.now
        (rows_shown query.now.span all_epochs brick.now.entries brick.now.rows) partial.groups) }
{
    let snapshot = Snapshot {
        epoch: u64::MAX,
        deps: EpochList::new(),
        own: false,
    };
    let mut partial = Partial::new(alloc);
    let mut scratch = Scratch::new(alloc)?;
    brick.scan(query, &snapshot, &mut scratch, &mut partial)?;
    Ok(partial)
}

/// The sum of the whole numbers in the answer over a brick, all of whose rows are seen.
fn scanned_sum(alloc: Global, brick: &Brick, query: &BoundQuery) -> Result<u64, AllocError>
    requires sound { IsSoundQuery query.now (length brick.now.home.sizes) brick.now.home.metrics }
    requires parts { All IsSoundPart query.now.span.parts }
    requires few { length brick.now.rows < 2 ^ 63 }
    ensures { IfOk result (λ sum. sum ≡ scanned_sum query.now brick.now) }
{
    let partial = scanned(alloc, brick, query)?;
    let table = partial.finish(query, &NameLists::new(alloc))?;
    Ok(table_sum(table.as_slice()))
}

/// A brick, and a query for a sum and a count by eight coordinates.
#[derive(Drop)]
pub struct Scan {
    brick: Brick,
    query: BoundQuery,
    ghost home: { brick.home ≡ one_brick },
    ghost few: { length brick.rows < 2 ^ 63 },
    ghost query_is: { query ≡ sums_and_counts },
}

impl Work for Scan {
    fn prepared(alloc: Global, items: u32) -> Result<Scan, AllocError> {
        Ok(Scan {
            brick: filled(alloc, items)?,
            query: sums_and_counts(alloc)?,
        })
    }

    /// The checksum is the sum of the whole numbers in the answer.
    fn work(&mut self, alloc: Global) -> Result<u64, AllocError>
        ensures { IfOk result (λ sum. sum ≡ scanned_sum sums_and_counts self.old.brick) }
    {
        scanned_sum(alloc, &self.brick, &self.query)
    }
}

/// A brick, and a query for a count.
#[derive(Drop)]
pub struct Count {
    brick: Brick,
    query: BoundQuery,
    ghost home: { brick.home ≡ one_brick },
    ghost few: { length brick.rows < 2 ^ 63 },
    ghost query_is: { query ≡ count_alone },
}

impl Work for Count {
    fn prepared(alloc: Global, items: u32) -> Result<Count, AllocError> {
        Ok(Count {
            brick: filled(alloc, items)?,
            query: count_alone(alloc)?,
        })
    }

    /// The checksum is the count.
    fn work(&mut self, alloc: Global) -> Result<u64, AllocError>
        ensures { IfOk result (λ sum. sum ≡ scanned_sum count_alone self.old.brick) }
    {
        scanned_sum(alloc, &self.brick, &self.query)
    }
}
