//! Batches appended to a brick.

ghost use Rattle.std.specs.Prelude.{◌≡◌, ◌*◌, ◌/◌, IfOk};

use crate::one_brick::{BATCH, append_all, batch, one_brick};
use std::alloc::Global;
use std::io;
use std::time::{Clock, Instant};
use timed_work::{Measured, measured_since};

/// The time that it takes to append so many rows to a brick that has none, in batches that are sorted as far as bricks
/// go; a batch that is not full is left out. The checksum is the number of rows. The errors are those of the clock, and
/// want of memory.
pub fn measure_append<R: Clock>(clock: &R, alloc: Global, items: u32) -> io::Result<Measured>
    ensures { IfOk result (λ measured. measured.checksum ≡ items / BATCH * BATCH) }
{
    let batch = batch(alloc)?;
    let mut brick = one_brick(alloc)?;
    let start = Instant::now(clock)?;
    append_all(&mut brick, &batch, items / BATCH as u32)?;
    measured_since(clock, start, brick.len())
}
