//! Calls on a board's counters, and a lock to compare them with. A board is let go only where it is shut, so the
//! clock is read before it is made, and its making is in the time.

ghost use Rattle.std.specs.Prelude.{◌≡◌};
ghost use Rattle.measures.specs.Checksums.{counters_sum};

use std::alloc::Global;
use std::io;
use std::sync::{Mutex, Wait};
use std::thread::Threads;
use std::time::{Clock, Instant};
use timed_work::{Measured, measured_since};
use turn_board_uses::{count, count_in_four, counters};

/// Locks a mutex and lets it go, so many times, with 1 added to the number in it. The checksum is that number.
pub(crate) fn measure_locks<R: Clock + Wait>(rt: &R, items: u32) -> io::Result<Measured> {
    let start = Instant::now(rt)?;
    let number = Mutex::new(0u64);
    for _ in 0..items {
        let mut guard = number.lock(rt);
        *guard = guard.wrapping_add(1);
    }
    measured_since(rt, start, number.into_inner())
}

/// Adds 1 to a counter on a board, so many times. The checksum is the counter.
pub(crate) fn measure_calls<R: Clock + Wait>(
    rt: &R,
    alloc: Global,
    items: u32,
) -> io::Result<Measured> {
    let start = Instant::now(rt)?;
    let (board, pass) = counters(alloc, 1, 1)?;
    let pass = count(rt, &board, pass, 0, items);
    let left = board.shut(rt, pass);
    measured_since(rt, start, total(left.as_slice()))
}

/// Adds 1 to four counters on a board, to each by a thread of its own and so many times. The checksum is their sum.
pub(crate) fn measure_cells<R: Clock + Threads + Wait + Sync>(
    rt: &R,
    alloc: Global,
    items: u32,
) -> io::Result<Measured> {
    let start = Instant::now(rt)?;
    let (board, pass) = counters(alloc, 4, 4)?;
    let pass = count_in_four(rt, &board, pass, (0, 1, 2, 3), items);
    let left = board.shut(rt, pass);
    measured_since(rt, start, total(left.as_slice()))
}

/// The sum in 64 bits.
fn total(counters: &[u64]) -> u64
    ensures { result ≡ counters_sum counters.now }
{
    let mut sum: u64 = 0;
    let mut left = counters;
    'counters: while let [counter, rest @ ..] = left {
        sum = sum.wrapping_add(*counter);
        left = rest;
    }
    sum
}
