//! Batches appended to a shard.

ghost use Rattle.std.specs.Prelude.{◌≡◌, IfOk};

use crate::batches::{BRICKS, batches_of};
use crate::filled::FilledShard;
use std::alloc::Global;
use std::io;
use std::time::{Clock, Instant};
use timed_work::{Measured, measured_since};

/// The time that it takes to append so many rows to a shard that has none, in batches whose rows lie evenly over the
/// bricks and in their order; only the last batch may be short. The checksum is the number of rows. The errors are
/// those of the clock, and want of memory.
pub fn measure_shard_append<R: Clock>(clock: &R, alloc: Global, items: u32) -> io::Result<Measured>
    ensures { IfOk result (λ measured. measured.checksum ≡ items) }
{
    let batches = batches_of(alloc, items)?;
    let mut filled = FilledShard::new(alloc, BRICKS)?;
    let start = Instant::now(clock)?;
    filled.append_all(&batches)?;
    measured_since(clock, start, filled.rows())
}
