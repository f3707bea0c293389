//! Copies of bricks made from a seed, against a walk over the steps that made them.

use crate::steps::{Past, coords_of, metric_of};
use brick_store::Brick;
use cube_values::{CodedRows, Entry};
use std::alloc::{AllocError, Global};
use std::process::Abort;

// The entry after others; rows of the same epoch make the last one longer, and a mark equal to the last adds none.
fn put_entry(
    entries: &mut Vec<Entry>,
    epoch: u64,
    rows: usize,
    end: u64,
) -> Result<(), AllocError> {
    let entry = if rows == 0 {
        Entry::Mark { epoch, at: end }
    } else {
        Entry::Run { epoch, end }
    };
    let joins = match entries.as_slice().last() {
        Some(Entry::Run { epoch: last, .. }) => rows > 0 && *last == epoch,
        Some(last) => *last == entry,
        None => false,
    };
    if joins {
        entries.pop();
    }
    entries.push(entry)?;
    Ok(())
}

// Writes the entries of the epochs above one and up to another, and the numbers of their rows.
fn walk(
    past: &Past,
    from: u64,
    to: u64,
    entries: &mut Vec<Entry>,
    rows: &mut Vec<u64>,
) -> Result<(), AllocError> {
    let mut first: u64 = 0;
    for at in 0..past.steps.len() {
        let (epoch, more) = past.steps[at];
        if epoch != past.rolled && from < epoch && epoch <= to {
            for k in 0..more as u64 {
                rows.push(first.wrapping_add(k))?;
            }
            put_entry(entries, epoch, more, rows.len() as u64)?;
        }
        first = first.wrapping_add(more as u64);
    }
    Ok(())
}

// Whether rows are those of a brick with these numbers.
fn are_rows(rows: &CodedRows, number: u64, numbers: &[u64]) -> bool {
    if rows.len() != numbers.len() {
        return false;
    }
    for at in 0..rows.len() {
        let i = numbers[at];
        if rows.coords_of(at) != coords_of(number, i).as_slice()
            || rows.metrics_of(at) != [metric_of(i)].as_slice()
        {
            return false;
        }
    }
    true
}

// Compares the copy of the epochs above one and up to another.
fn compare_copy(rt: &impl Abort, alloc: Global, brick: &Brick, past: &Past, from: u64, to: u64) {
    let mut entries = Vec::new(alloc);
    let mut rows = Vec::new(alloc);
    walk(past, from, to, &mut entries, &mut rows).expect(rt, "memory");
    let part = brick.copy(from, to).expect(rt, "memory");
    assert_eq!(rt; part.brick(), past.number);
    assert_eq!(rt; part.entries(), entries.as_slice());
    assert!(rt; are_rows(part.rows(), past.number, rows.as_slice()));
}

/// Compares the copies from and to each pair of epochs, from that of the last purge on.
pub fn compare_copies(rt: &impl Abort, alloc: Global, brick: &Brick, past: &Past) {
    for from in past.purged..6 {
        for to in 0..7 {
            compare_copy(rt, alloc, brick, past, from, to);
        }
    }
}
