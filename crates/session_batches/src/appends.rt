//! The calls that append batches to their shards.

ghost use Rattle.std.specs.Prelude.{◌≡◌, ◌≤◌, ◌++◌, length, All, IfOk, OnOk};
ghost use Rattle.cube_values.specs.Batches.{coded_row_at};
ghost use Rattle.cube_values.specs.Shapes.{IsSoundCube};
ghost use Rattle.brick_map.specs.Batches.{IsRowOfCube};
ghost use Rattle.shard_batches.specs.ShardBatches.{shard_of_row};
ghost use Rattle.session_batches.specs.BatchCalls.{AreAppendsOf, append_call, append_calls, number_with_rows, numbers_with_rows};

use brick_address::brick_of;
use cube_core::ShardCall;
use cube_values::{Boxed, CodedRows, SharedShape};
use shard_batches::split_by_shard;
use std::alloc::{AllocError, Global};

/// Calls, each with the number of its shard.
#[derive(Drop)]
pub struct NumberedCalls {
    pub numbers: Vec<u32>,
    pub calls: Vec<ShardCall>,
}

/// The calls that append the rows of a batch, each to the shard of its brick. A shard without rows has no
/// call. One row goes as the batch that it is, and none is made for the other shards.
pub fn appends_for(
    alloc: Global,
    shards: u32,
    cube: u32,
    shape: &SharedShape,
    epoch: u64,
    rows: CodedRows,
) -> Result<NumberedCalls, AllocError>
    requires sound { IsSoundCube shape.now }
    requires some { 1 ≤ shards }
    requires rows { All (IsRowOfCube shape.now) rows.rows }
    ensures { IfOk result
        (λ a. AreAppendsOf shards cube shape.now epoch rows a.numbers.items a.calls.items) }
{
    if rows.len() == 1 {
        return one_append(alloc, shards, cube, shape, epoch, rows);
    }
    let batches = split_by_shard(alloc, &shape.shape().shape, shards, rows)?;
    appends_of(alloc, shards, cube, shape, epoch, batches)
}

// The call that appends a batch of one row, which goes to its shard as it is.
fn one_append(
    alloc: Global,
    shards: u32,
    cube: u32,
    shape: &SharedShape,
    epoch: u64,
    rows: CodedRows,
) -> Result<NumberedCalls, AllocError>
    requires sound { IsSoundCube shape.now }
    requires some { 1 ≤ shards }
    requires rows { All (IsRowOfCube shape.now) rows.rows }
    requires one { length rows.rows ≡ 1 }
    ensures { IfOk result
        (λ a. AreAppendsOf shards cube shape.now epoch rows a.numbers.items a.calls.items) }
{
    let number = shard_of_first(shape, shards, &rows);
    let shared = shape.share()?;
    let rows = Boxed::new(alloc, rows)?;
    let mut numbers = Vec::with_capacity(alloc, 1)?;
    numbers.push_reserved(number);
    let mut calls = Vec::with_capacity(alloc, 1)?;
    calls.push_reserved(ShardCall::Append {
        cube,
        shape: shared,
        epoch,
        rows,
    });
    Ok(NumberedCalls { numbers, calls })
}

// The shard of the first row.
fn shard_of_first(shape: &SharedShape, shards: u32, rows: &CodedRows) -> u32
    requires sound { IsSoundCube shape.now }
    requires some { 1 ≤ shards }
    requires rows { All (IsRowOfCube shape.now) rows.now.rows }
    requires there { 1 ≤ length rows.now.rows }
    ensures { result ≡ shard_of_row shape.now.shape.sizes shards (coded_row_at rows.now.rows 0) }
{
    (brick_of(&shape.shape().shape, rows.coords_of(0)) % u64::from(shards)) as u32
}

// The calls that append batches, the first that of shard 0.
fn appends_of(
    alloc: Global,
    shards: u32,
    cube: u32,
    shape: &SharedShape,
    epoch: u64,
    batches: Vec<CodedRows>,
) -> Result<NumberedCalls, AllocError>
    requires { length batches.items ≡ shards }
    ensures numbers { IfOk result (λ a. a.numbers.items ≡ numbers_with_rows 0 batches.items) }
    ensures calls { IfOk result
        (λ a. a.calls.items ≡ append_calls cube shape.now epoch batches.items) }
{
    let mut left = batches;
    let mut numbers = Vec::with_capacity(alloc, shards as usize)?;
    // Mostly the rows of a statement lie in one shard.
    let mut calls = Vec::with_capacity(alloc, 1)?;
    'shards: for number in 0..shards {
        let batch = left.remove(0);
        add_append(
            alloc,
            &mut numbers,
            &mut calls,
            number,
            cube,
            shape,
            epoch,
            batch,
        )?;
    }
    Ok(NumberedCalls { numbers, calls })
}

// Adds the call that appends a batch, where it has rows.
fn add_append(
    alloc: Global,
    numbers: &mut Vec<u32>,
    calls: &mut Vec<ShardCall>,
    number: u32,
    cube: u32,
    shape: &SharedShape,
    epoch: u64,
    batch: CodedRows,
) -> Result<(), AllocError>
    ensures numbers { OnOk result
        (numbers.new.items ≡ numbers.old.items ++ number_with_rows number batch) }
    ensures calls { OnOk result
        (calls.new.items ≡ calls.old.items ++ append_call cube shape.now epoch batch) }
{
    if batch.len() == 0 {
        return Ok(());
    }
    let shared = shape.share()?;
    let rows = Boxed::new(alloc, batch)?;
    numbers.push(number)?;
    calls.push(ShardCall::Append {
        cube,
        shape: shared,
        epoch,
        rows,
    })?;
    Ok(())
}
