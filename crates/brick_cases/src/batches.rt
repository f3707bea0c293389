//! Rows put into a batch, and the same batch used again.

use cube_values::CodedRows;
use std::alloc::AllocError;

// The coordinates and the metric of a row: the last is the first with another metric.
fn row(at: usize) -> ([u32; 2], [i64; 1]) {
    match at {
        0 => ([1, 2], [-5]),
        1 => ([3, 0], [7]),
        _ => ([1, 2], [i64::MIN]),
    }
}

fn put_row(batch: &mut CodedRows, at: usize) {
    let (coords, metrics) = row(at);
    if batch.len() < batch.room() && batch.dims() == 2 && batch.width() == 1 {
        batch.push(coords.as_slice(), metrics.as_slice());
    }
}

fn has_row(batch: &CodedRows, at: usize) -> bool {
    let (coords, metrics) = row(at);
    at < batch.len()
        && batch.coords_of(at) == coords.as_slice()
        && batch.metrics_of(at) == metrics.as_slice()
}

// Whether a batch takes three rows and then none are left.
fn keeps_three(batch: &mut CodedRows) -> Result<bool, AllocError> {
    batch.reserve(3)?;
    for at in 0..3 {
        put_row(batch, at);
    }
    let has_all = batch.len() == 3 && has_row(batch, 0) && has_row(batch, 1) && has_row(batch, 2);
    batch.clear();
    Ok(has_all && batch.len() == 0)
}

#[test]
fn keeps_rows(rt: HostRuntime) {
    let mut batch = CodedRows::new(rt.alloc(), 2, 1);
    for round in 0..2 {
        assert!(rt; keeps_three(&mut batch) == Ok(true), "round {round}");
    }
}
