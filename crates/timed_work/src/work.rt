//! What is measured, and how its time is taken.

ghost use Rattle.std.specs.Prelude.{◌≡◌, IfOk};

use std::alloc::{AllocError, Global};
use std::io;
use std::time::{Clock, Instant};

/// A hot call on data that is made before the clock starts.
pub trait Work: Sized {
    /// The data for so many items.
    fn prepared(alloc: Global, items: u32) -> Result<Self, AllocError>;

    /// The hot call. The answer is a checksum of what it gave.
    fn work(&mut self, alloc: Global) -> Result<u64, AllocError>;
}

/// What a hot call gave, and how long it took.
#[derive(Clone, Copy, Debug)]
pub struct Measured {
    pub checksum: u64,
    pub nanoseconds: u64,
}

/// Makes the data, and runs the hot call once between two looks at the clock. The errors are those of the
/// clock, and want of memory.
pub fn measure<W: Work + Drop, R: Clock>(
    clock: &R,
    alloc: Global,
    items: u32,
) -> io::Result<Measured> {
    let mut data = W::prepared(alloc, items)?;
    let start = Instant::now(clock)?;
    let checksum = data.work(alloc)?;
    measured_since(clock, start, checksum)
}

/// What a hot call gave that began at `start` and has just ended. The error is the clock's.
pub fn measured_since<R: Clock>(clock: &R, start: Instant, checksum: u64) -> io::Result<Measured>
    ensures { IfOk result (λ measured. measured.checksum ≡ checksum) }
{
    let spent = start.elapsed(clock)?;
    Ok(Measured {
        checksum,
        nanoseconds: u64::try_from(spent.as_nanos()).unwrap_or(u64::MAX),
    })
}
