//! The rows of a brick of the seeded cases, and the steps that make it.

ghost use Rattle.std.specs.Prelude.{◌≡◌};

use crate::making::put;
use crate::plain::next;
use cube_values::{CodedRows, Snapshot};
use std::alloc::{AllocError, Global};
use std::process::Abort;

const STEPS: usize = 12;

// What was done to a brick: its steps, each an epoch and a number of rows or none, which is a deletion; then
// an epoch was rolled back and one purged, 0 where none was.
#[derive(Debug, Drop)]
pub struct Past {
    pub steps: Vec<(u64, usize)>,
    pub number: u64,
    pub rolled: u64,
    pub purged: u64,
}

impl Past {
    // How many rows were appended.
    pub fn rows(&self) -> usize {
        let mut rows: usize = 0;
        for at in 0..self.steps.len() {
            let (_, more) = self.steps[at];
            rows = rows.saturating_add(more);
        }
        rows
    }

    // Whether a snapshot sees the rows of a step, by a look at every step.
    pub fn sees(&self, snapshot: &Snapshot, at: usize) -> bool {
        if at >= self.steps.len() {
            return false;
        }
        let (epoch, _) = self.steps[at];
        if epoch == self.rolled || !snapshot.sees(epoch) {
            return false;
        }
        for place in 0..self.steps.len() {
            let (mark, rows) = self.steps[place];
            let hides = epoch < mark || (epoch == mark && at < place);
            if rows == 0 && mark != self.rolled && snapshot.sees(mark) && hides {
                return false;
            }
        }
        true
    }
}

// Epochs 1 to 5, each with a number of rows or with none.
pub fn some_steps(alloc: Global, seed: &mut u64) -> Result<Vec<(u64, usize)>, AllocError> {
    let mut steps = Vec::new(alloc);
    for _ in 0..STEPS {
        let epoch = 1 + next(seed) % 5;
        let rows = match next(seed) % 8 {
            0 | 1 | 2 => 0,
            3 => 1 + next(seed) % 300,
            _ => 1 + next(seed) % 3,
        };
        steps.push((epoch, rows as usize))?;
    }
    Ok(steps)
}

// The coordinates of row i of a brick: the first, the last or others of its ranges.
pub fn coords_of(number: u64, i: u64) -> [u32; 2] {
    let short = number / 2 % 3 == 2;
    let x = if short { 0 } else { (i % 2) as u32 };
    let last = if number % 2 == 1 { 399 } else { 599 };
    let y = match i % 3 {
        0 => 0,
        1 => last,
        _ => (i % 50) as u32,
    };
    [
        2 * (number / 2 % 3) as u32 + x,
        600 * (number % 2) as u32 + y,
    ]
}

// The metric of row i, some close to the ends of 64 bits.
pub fn metric_of(i: u64) -> i64 {
    let small = (i.wrapping_mul(37) % 101) as i64;
    match i % 16 {
        0 => i64::MIN + small,
        1 => i64::MAX - small,
        _ => small - 50,
    }
}

// Puts so many rows of a brick.
pub fn put_rows(rt: &impl Abort, batch: &mut CodedRows, number: u64, rows: u64)
    requires { batch.old.width ≡ 1 }
{
    'rows: for i in 0..rows {
        put(rt, batch, &coords_of(number, i), metric_of(i));
    }
}
