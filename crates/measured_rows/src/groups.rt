//! Rows folded into groups.

ghost use Rattle.std.specs.Prelude.{◌≡◌, ◌%◌, ◌^◌, List, [], length, map, IfOk};
ghost use Rattle.cube_values.specs.Answer.{table_of};
ghost use Rattle.cube_values.specs.declared.row.CodedRow.{CodedRow};
ghost use Rattle.agg_fold.specs.Coded.{row_for};
ghost use Rattle.agg_fold.specs.Standing.{StandsFor};
ghost use Rattle.measured_rows.specs.Sums.{field_count, line_sum, table_sum};
ghost use Rattle.measured_rows.specs.Folded.{eight_groups};

use agg_fold::Partial;
use cube_values::{
    BoundItem, BoundItems, BoundQuery, Coords, Field, Line, NameLists, Part, Parts, Span,
};
use std::alloc::{AllocError, Global};
use timed_work::{Work, below, seeded};

/// How many rows are made; they are folded again and again.
const ROWS: u32 = 65_536;

/// One more than the greatest checksum.
const ROUND: u128 = 1 << 64;

/// A row of two coordinates and two metrics.
#[derive(Clone, Copy, Debug)]
struct Made {
    coords: [u32; 2],
    metrics: [i64; 2],
}

/// Rows, and how many are to be folded.
#[derive(Drop)]
pub struct Fold {
    rows: Vec<Made>,
    items: u32,
    ghost full: { length rows.items ≡ 65_536 },
}

/// All rows of a cube of two dimensions and two metrics, by the first dimension.
fn eight_groups(alloc: Global) -> Result<BoundQuery, AllocError>
    ensures { IfOk result (λ query. query ≡ eight_groups) }
{
    Ok(BoundQuery {
        cube: 0,
        span: Span {
            parts: Parts::from_vec(vec![in alloc; Part::All, Part::All]?),
        },
        group: Coords::from_vec(vec![in alloc; 0]?),
        items: BoundItems::from_vec(vec![in alloc;
            BoundItem::Group(0),
            BoundItem::Count,
            BoundItem::Sum(0),
            BoundItem::Max(1),
        ]?),
    })
}

/// A partial of so many rows.
fn folded(
    alloc: Global,
    query: &BoundQuery,
    rows: &[Made],
    items: u32,
) -> Result<Partial, AllocError>
    requires query { query.now ≡ eight_groups }
    requires full { length rows.now ≡ ROWS }
    ensures { IfOk result (λ partial. (rs : List CodedRow)
        × StandsFor query.now rs partial.groups × (length rs ≡ items)) }
{
    let mut partial = Partial::new(alloc);
    'items: for i in 0..items {
        let row = &rows[(i % ROWS) as usize];
        partial.add_row(query, &row.coords, &row.metrics)?;
    }
    Ok(partial)
}

/// What a field counts, in 64 bits.
fn field_count(field: &Field) -> u64
    ensures { result ≡ field_count field.now % 2 ^ 64 }
{
    match field {
        Field::Whole(n) => (n.unsigned_abs() % ROUND) as u64,
        _ => 0,
    }
}

/// The sum of the whole numbers of a line, without their signs.
fn line_sum(line: &[Field]) -> u64
    ensures { result ≡ line_sum line.now }
{
    let mut sum: u64 = 0;
    let mut left = line;
    'fields: while let [field, rest @ ..] = left {
        sum = sum.wrapping_add(field_count(field));
        left = rest;
    }
    sum
}

/// The sum of the whole numbers of a table, without their signs.
pub fn table_sum(table: &[Line]) -> u64
    ensures { result ≡ table_sum table.now }
{
    let mut sum: u64 = 0;
    let mut left = table;
    'lines: while let [line, rest @ ..] = left {
        sum = sum.wrapping_add(line_sum(line.as_slice()));
        left = rest;
    }
    sum
}

impl Work for Fold {
    fn prepared(alloc: Global, items: u32) -> Result<Fold, AllocError> {
        let mut numbers = seeded();
        let mut rows = Vec::with_capacity(alloc, ROWS as usize)?;
        'rows: for _row in 0..ROWS {
            let coords = [below(&mut numbers, 8), below(&mut numbers, 1_000)];
            let amount = i64::from(below(&mut numbers, 2_000)) - 1_000;
            let price = i64::from(below(&mut numbers, 1_000_000));
            rows.push(Made {
                coords,
                metrics: [amount, price],
            })?;
        }
        Ok(Fold { rows, items })
    }

    /// The checksum is the sum of the whole numbers in the answer.
    fn work(&mut self, alloc: Global) -> Result<u64, AllocError>
        ensures { IfOk result (λ sum. (rows : List CodedRow) × (length rows ≡ self.old.items)
            × (sum ≡ table_sum (table_of eight_groups.group eight_groups.items (map
            (row_for []) rows)))) }
    {
        let query = eight_groups(alloc)?;
        let partial = folded(alloc, &query, self.rows.as_slice(), self.items)?;
        let table = partial.finish(&query, &NameLists::new(alloc))?;
        Ok(table_sum(table.as_slice()))
    }
}
