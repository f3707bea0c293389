//! Batches of rows of a cube of many bricks.

ghost use Rattle.std.specs.Prelude.{◌≡◌, ◌+◌, ◌*◌, ◌/◌, ◌<◌, ◌≤◌, length, All, IfOk};
ghost use Rattle.brick_map.specs.Batches.{IsRowOfCube};
ghost use Rattle.measured_shards.specs.InBatches.{AreBatchesOf};
ghost use Rattle.measured_shards.specs.ManyBricks.{many_bricks};

use cube_values::CodedRows;
use rand_pcg::Pcg32;
use std::alloc::{AllocError, Global};
use timed_work::{below, seeded};

/// The rows of a batch.
pub const BATCH: u32 = 4_096;

/// How many bricks the rows of batches lie in.
pub const BRICKS: u32 = 96;

/// How many bricks a cube has at most.
pub const MILLION: u32 = 1_000_000;

/// How many coordinates the first dimension has, all of which lie in each brick.
pub const EIGHT: u32 = 8;

/// How many coordinates of the second dimension lie in a brick.
pub const THOUSAND: u32 = 1_000;

/// Rows in batches: one so many times, and another that may be short.
#[derive(Drop)]
pub struct Batches {
    pub full: CodedRows,
    pub times: u32,
    pub rest: CodedRows,
}

/// So many rows in batches.
pub fn batches_of(alloc: Global, items: u32) -> Result<Batches, AllocError>
    ensures { IfOk result (AreBatchesOf items) }
{
    Ok(Batches {
        full: sorted_batch(alloc, BRICKS, BATCH)?,
        times: items / BATCH,
        rest: sorted_batch(alloc, BRICKS, items % BATCH)?,
    })
}

/// The brick of a row, where rows lie evenly over bricks and in their order.
fn brick_of_row(row: u32, rows: u32, bricks: u32) -> u32
    requires row { row < rows }
    ensures value { result ≡ row * bricks / rows }
    ensures below { 0 < bricks → result < bricks }
{
    (u64::from(row) * u64::from(bricks) / u64::from(rows)) as u32
}

/// Puts a row by chance in a brick at the end of a batch.
fn push_row(batch: &mut CodedRows, numbers: &mut Pcg32, bricks: u32, brick: u32)
    requires few { bricks ≤ MILLION }
    requires brick { brick < bricks }
    requires dims { batch.old.dims ≡ 2 }
    requires width { batch.old.width ≡ 1 }
    requires room { length batch.old.rows < batch.old.room }
    requires rows { All (IsRowOfCube (many_bricks bricks)) batch.old.rows }
    ensures rows { All (IsRowOfCube (many_bricks bricks)) batch.new.rows }
    ensures length { length batch.new.rows ≡ length batch.old.rows + 1 }
    ensures dims { batch.new.dims ≡ 2 }
    ensures width { batch.new.width ≡ 1 }
    ensures room { batch.new.room ≡ batch.old.room }
{
    let first = below(numbers, EIGHT);
    let second = brick * THOUSAND + below(numbers, THOUSAND);
    batch.push(&[first, second], &[i64::from(below(numbers, 100))]);
}

/// So many rows by chance, evenly over so many bricks and in their order.
pub fn sorted_batch(alloc: Global, bricks: u32, rows: u32) -> Result<CodedRows, AllocError>
    requires some { 0 < bricks }
    requires few { bricks ≤ MILLION }
    ensures rows { IfOk result (λ batch. All (IsRowOfCube (many_bricks bricks)) batch.rows) }
    ensures length { IfOk result (λ batch. length batch.rows ≡ rows) }
{
    let mut numbers = seeded();
    let mut batch = CodedRows::new(alloc, 2, 1);
    batch.reserve(rows as usize)?;
    'rows: for row in 0..rows {
        push_row(
            &mut batch,
            &mut numbers,
            bricks,
            brick_of_row(row, rows, bricks),
        );
    }
    Ok(batch)
}
