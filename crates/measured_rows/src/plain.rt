//! What rows are held against: a list that is copied, and one that is summed.

ghost use Rattle.std.specs.Prelude.{◌≡◌, ◌*◌, ◌<◌, length, IfOk};
ghost use Rattle.measured_rows.specs.Sums.{list_sum};

use crate::one_brick::BATCH;
use std::alloc::{AllocError, Global};
use timed_work::{Work, below, seeded};

/// How many numbers of eight bytes a row takes in a batch.
const WORDS: usize = 2;

/// A list of the bytes of a batch, which is put again and again behind what was put.
#[derive(Drop)]
pub struct Copies {
    batch: Vec<u64>,
    times: u32,
}

/// A list of numbers by chance.
fn numbers_below(alloc: Global, count: usize, bound: u32) -> Result<Vec<u64>, AllocError>
    requires { 0 < bound }
{
    let mut seed = seeded();
    let mut numbers = Vec::with_capacity(alloc, count)?;
    for _number in 0..count {
        numbers.push(u64::from(below(&mut seed, bound)))?;
    }
    Ok(numbers)
}

/// A list, so many times.
fn copied(alloc: Global, batch: &[u64], times: u32) -> Result<Vec<u64>, AllocError>
    ensures { IfOk result (λ out. length out.items ≡ times * length batch.now) }
{
    let mut out = Vec::new(alloc);
    'times: for _time in 0..times {
        out.extend_from_slice(batch)?;
    }
    Ok(out)
}

impl Work for Copies {
    fn prepared(alloc: Global, items: u32) -> Result<Copies, AllocError> {
        Ok(Copies {
            batch: numbers_below(alloc, BATCH * WORDS, 1_000)?,
            times: items / BATCH as u32,
        })
    }

    /// The checksum is the number of numbers in the list.
    fn work(&mut self, alloc: Global) -> Result<u64, AllocError>
        ensures { IfOk result (λ sum. sum ≡ self.old.times * length self.old.batch.items) }
    {
        Ok(copied(alloc, self.batch.as_slice(), self.times)?.len() as u64)
    }
}

/// A list of numbers.
#[derive(Drop)]
pub struct Sum {
    numbers: Vec<u64>,
}

/// The sum of numbers, in 64 bits.
fn sum_of(numbers: &[u64]) -> u64
    ensures { result ≡ list_sum numbers.now }
{
    let mut sum: u64 = 0;
    'numbers: for number in numbers {
        sum = sum.wrapping_add(*number);
    }
    sum
}

impl Work for Sum {
    fn prepared(alloc: Global, items: u32) -> Result<Sum, AllocError> {
        Ok(Sum {
            numbers: numbers_below(alloc, items as usize, 1_000)?,
        })
    }

    /// The checksum is the sum.
    fn work(&mut self, _alloc: Global) -> Result<u64, AllocError>
        ensures { IfOk result (λ sum. sum ≡ list_sum self.old.numbers.items) }
    {
        Ok(sum_of(self.numbers.as_slice()))
    }
}
