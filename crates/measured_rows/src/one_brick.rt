//! A brick of eight coordinates by a thousand, and rows by chance in it.

ghost use Rattle.std.specs.Prelude.{◌≡◌, ◌+◌, ◌*◌, ◌<◌, [], length, All, IfOk, OnOk};
ghost use Rattle.brick_store.specs.Bricks.{IsRowOf};
ghost use Rattle.cube_values.specs.Shapes.{IsSoundShape, bricks_of};
ghost use Rattle.measured_rows.specs.OneBrick.{one_brick};

use brick_store::Brick;
use cube_values::{CodedRows, Shape, Size, Sizes};
use rand_pcg::Pcg32;
use std::alloc::{AllocError, Global};
use timed_work::{below, seeded};

/// The rows of a batch.
pub const BATCH: usize = 1_000;

/// How many coordinates the first dimension has.
pub const EIGHT: u32 = 8;

/// How many coordinates the second dimension has.
pub const THOUSAND: u32 = 1_000;

/// The dimensions of its cube, of which it is the only brick.
pub fn one_shape(alloc: Global) -> Result<Shape, AllocError>
    ensures sizes { IfOk result (λ shape. shape.sizes ≡ one_brick.sizes) }
    ensures sound { IfOk result (λ shape. IsSoundShape shape) }
    ensures brick { IfOk result (λ shape. 0 < bricks_of shape.sizes) }
{
    let eight = Size {
        cardinality: EIGHT,
        range: EIGHT,
    };
    let thousand = Size {
        cardinality: THOUSAND,
        range: THOUSAND,
    };
    let mut sizes = Sizes::new(alloc);
    sizes.push(eight)?;
    sizes.push(thousand)?;
    Ok(Shape { sizes })
}

/// The brick, without rows.
pub fn one_brick(alloc: Global) -> Result<Brick, AllocError>
    ensures home { IfOk result (λ brick. brick.home ≡ one_brick) }
    ensures rows { IfOk result (λ brick. brick.rows ≡ []) }
{
    Brick::new(alloc, &one_shape(alloc)?, 1, 0)
}

/// Puts a row of the brick at the end of a batch.
fn push_row(rows: &mut CodedRows, numbers: &mut Pcg32)
    requires dims { rows.old.dims ≡ 2 }
    requires width { rows.old.width ≡ 1 }
    requires room { length rows.old.rows < rows.old.room }
    requires rows { All (IsRowOf one_brick) rows.old.rows }
    ensures rows { All (IsRowOf one_brick) rows.new.rows }
    ensures length { length rows.new.rows ≡ length rows.old.rows + 1 }
    ensures dims { rows.new.dims ≡ 2 }
    ensures width { rows.new.width ≡ 1 }
    ensures room { rows.new.room ≡ rows.old.room }
{
    let coords = [below(numbers, EIGHT), below(numbers, THOUSAND)];
    rows.push(&coords, &[i64::from(below(numbers, 100))]);
}

/// A batch of rows of the brick by chance.
pub fn batch(alloc: Global) -> Result<CodedRows, AllocError>
    ensures rows { IfOk result (λ batch. All (IsRowOf one_brick) batch.rows) }
    ensures length { IfOk result (λ batch. length batch.rows ≡ BATCH) }
{
    let mut numbers = seeded();
    let mut rows = CodedRows::new(alloc, 2, 1);
    rows.reserve(BATCH)?;
    'rows: for _row in 0..BATCH {
        push_row(&mut rows, &mut numbers);
    }
    Ok(rows)
}

/// Appends a batch so many times, each time as the rows of an epoch of its own.
pub fn append_all(brick: &mut Brick, batch: &CodedRows, times: u32) -> Result<(), AllocError>
    requires rows { All (IsRowOf brick.old.home) batch.now.rows }
    requires some { 0 < length batch.now.rows }
    ensures home { brick.new.home ≡ brick.old.home }
    ensures length { OnOk result
        (length brick.new.rows ≡ length brick.old.rows + times * length batch.now.rows) }
{
    let rows = batch.len();
    'times: for time in 0..times {
        brick.prepare(rows as u64, 1)?;
        brick.append(u64::from(time) + 1, batch, 0, rows);
    }
    Ok(())
}
