//! A batch is appended, run by run.

ghost use Rattle.std.specs.Prelude.{ℕ, All};
ghost use Rattle.brick_map.specs.Appended.{AreAppended};
ghost use Rattle.brick_map.specs.Batches.{AreRuns, IsRowOfCube};
ghost use Rattle.brick_map.specs.Lists.{IsBrickOf};
ghost use Rattle.brick_map.specs.Waiting.{IsReadyFor};

use crate::list::BrickList;
use crate::runs::BatchRun;
use cube_values::{CodedRows, CubeShape};

/// Appends the runs of a batch to their bricks, which have room for them. It takes no memory.
pub fn append_runs(
    list: &mut BrickList,
    shape: &CubeShape,
    epoch: u64,
    batch: &CodedRows,
    runs: &[BatchRun],
)
    requires runs { AreRuns shape.now.shape.sizes batch.now.rows 0 runs.now }
    requires rows { All (IsRowOfCube shape.now) batch.now.rows }
    requires bricks { All (IsBrickOf shape.now) list.old }
    requires room { (number : ℕ) → IsReadyFor runs.now list.old number }
    ensures { AreAppended shape.now epoch batch.now.rows list.old list.new }
{
    for run in runs {
        list.append(run.number, epoch, batch, run.from, run.to);
    }
}
