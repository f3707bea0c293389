//! What the calls of a brick do to its parts.

ghost use Rattle.std.specs.Prelude.{◌≡◌, ◌+◌, ◌<◌, ◌≤◌, true, length, replicate, IfOk};
ghost use Rattle.std.specs.List.{items_where_true};
ghost use Rattle.cube_values.specs.BitRows.{set_bits};
ghost use Rattle.cube_values.specs.EpochsVector.{IsVector, rows_of};
ghost use Rattle.cube_values.specs.Shapes.{IsSoundShape, bricks_of};
ghost use Rattle.purge_plan.specs.Purged.{spared_bits, purged_entries};
ghost use Rattle.brick_store.specs.Whole.{starts_of};

use brick_address::coord_of;
use brick_columns::Columns;
use cube_values::{Bits, Shape};
use epochs_vector::Epochs;
use purge_plan::plan;
use std::alloc::{AllocError, Global};

/// The same shape.
pub fn copy_of(shape: &Shape) -> Result<Shape, AllocError>
    ensures { IfOk result (λ s. s ≡ shape.now) }
{
    shape.clone()
}

/// The first coordinate of a brick in each dimension.
pub fn starts_of(alloc: Global, shape: &Shape, number: u64) -> Result<Vec<u32>, AllocError>
    requires shape { IsSoundShape shape.now }
    requires number { number < bricks_of shape.now.sizes }
    ensures { IfOk result (λ starts. starts.items ≡ starts_of shape.now.sizes number) }
{
    let dims = shape.sizes.len();
    let mut starts = Vec::with_capacity(alloc, dims)?;
    for dim in 0..dims {
        starts.push_reserved(coord_of(shape, number, dim as u32, 0));
    }
    Ok(starts)
}

/// Purges the vector, and leaves a bit of `keep` set where the row stays.
pub fn purge_entries(epochs: &mut Epochs, epoch: u64, keep: &mut Bits)
    requires { keep.old.bits ≡ replicate (rows_of epochs.old.entries) true }
    ensures entries { epochs.new.entries ≡ purged_entries epoch epochs.old.entries }
    ensures keep { keep.new.bits ≡ spared_bits epoch epochs.old.entries }
    ensures vector { IsVector epochs.new.entries (set_bits keep.new.bits) }
    ensures room { keep.new.room ≡ keep.old.room }
    ensures spare { epochs.old.spare ≤ epochs.new.spare }
{
    let _entries = epochs.entries();
    epochs.with_entries(keep, |entries, bits| plan(entries, epoch, bits));
}

/// Leaves the rows whose bit is set. Where all are, no column is touched.
pub fn leave_rows(columns: &mut Columns, keep: &Bits)
    requires { length keep.now.bits ≡ length columns.old.rows }
    ensures layout { columns.new.layout ≡ columns.old.layout }
    ensures rows { columns.new.rows ≡ items_where_true keep.now.bits columns.old.rows }
    ensures room { length columns.new.rows + columns.new.spare
        ≡ length columns.old.rows + columns.old.spare }
    ensures spare { columns.old.spare ≤ columns.new.spare }
{
    if keep.ones() < columns.len() {
        columns.keep(keep);
    }
}
