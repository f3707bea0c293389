//! The bytes of a round of the generator's cube, put together field by field.

ghost use Rattle.std.specs.Prelude.{◌<◌};

use cube_gen::cubes_text;
use gate_writes::OPEN_GATE;
use rand_pcg::Pcg32;
use round_fields::digest_of;
use std::alloc::{AllocError, Global};
use timed_work::{below, seeded};

/// How many regions there are; each is a range of its own.
const REGIONS: u32 = 8;

/// How many ranges the days have.
const DAY_RANGES: u32 = 12;

/// The days of a range that rows have: as many as the last range has.
const DAYS: u32 = 24;

/// From the first day of a range to that of the next.
const RANGE: u32 = 31;

fn put_four(out: &mut Vec<u8>, n: u32) -> Result<(), AllocError> {
    out.extend_from_slice(&n.to_le_bytes())
}

fn put_eight(out: &mut Vec<u8>, n: u64) -> Result<(), AllocError> {
    out.extend_from_slice(&n.to_le_bytes())
}

/// The regions' names, behind their number.
fn put_names(out: &mut Vec<u8>) -> Result<(), AllocError> {
    put_eight(out, u64::from(REGIONS))?;
    for digit in b"01234567" {
        out.push(2)?;
        out.push(b'r')?;
        out.push(*digit)?;
    }
    Ok(())
}

/// A row of a region and a range of days: its coordinates and its likes.
fn put_row(
    out: &mut Vec<u8>,
    numbers: &mut Pcg32,
    region: u32,
    range: u32,
) -> Result<(), AllocError> {
    put_four(out, region)?;
    let day = range
        .saturating_mul(RANGE)
        .saturating_add(below(numbers, DAYS));
    put_four(out, day)?;
    put_eight(out, u64::from(below(numbers, 100)))
}

/// A brick with one entry, a run of rows of epoch 1.
fn put_brick(
    out: &mut Vec<u8>,
    numbers: &mut Pcg32,
    region: u32,
    range: u32,
    rows: u32,
) -> Result<(), AllocError> {
    let number = region.saturating_mul(DAY_RANGES).saturating_add(range);
    put_eight(out, u64::from(number))?;
    put_eight(out, 1)?;
    out.push(0)?;
    put_eight(out, 1)?;
    put_eight(out, u64::from(rows))?;
    for _row in 0..rows {
        put_row(out, numbers, region, range)?;
    }
    Ok(())
}

/// So many rows in each brick of the cube.
fn put_bricks(out: &mut Vec<u8>, rows: u32) -> Result<(), AllocError> {
    let mut numbers = seeded();
    put_eight(out, u64::from(REGIONS * DAY_RANGES))?;
    for region in 0..REGIONS {
        for range in 0..DAY_RANGES {
            put_brick(out, &mut numbers, region, range, rows)?;
        }
    }
    Ok(())
}

/// What stands before the digest of a round up to epoch 1. It has so many rows, as near as bricks with equally
/// many come to it, and at least one in each brick.
pub fn round_front(alloc: Global, items: u32) -> Result<Vec<u8>, AllocError> {
    let mut payload = Vec::new(alloc);
    put_eight(&mut payload, 1)?;
    put_names(&mut payload)?;
    put_bricks(&mut payload, (items / (REGIONS * DAY_RANGES)).max(1))?;
    let mut out = Vec::new(alloc);
    put_eight(&mut out, 1)?;
    put_eight(&mut out, 0)?;
    put_eight(&mut out, payload.len() as u64)?;
    out.extend_from_slice(payload.as_slice())?;
    Ok(out)
}

/// The same round with its digest and a gate that is shut.
pub fn round_of(alloc: Global, items: u32) -> Result<Vec<u8>, AllocError> {
    let mut out = round_front(alloc, items)?;
    let digest = digest_of(out.as_slice());
    out.extend_from_slice(&digest)?;
    out.push(0)?;
    Ok(out)
}

/// The header of a store for the generator's cube, of generation 1, without a gate behind it.
fn header(alloc: Global) -> Result<Vec<u8>, AllocError> {
    let text = cubes_text();
    let mut head = Vec::from_slice(alloc, b"CUBRICK")?;
    put_four(&mut head, 2)?;
    put_four(&mut head, u32::try_from(text.len()).unwrap_or(u32::MAX))?;
    put_eight(&mut head, 1)?;
    head.extend_from_slice(text.as_bytes())?;
    let mut out = Vec::from_slice(alloc, &[OPEN_GATE])?;
    out.extend_from_slice(head.as_slice())?;
    out.extend_from_slice(&digest_of(head.as_slice()))?;
    Ok(out)
}

/// The file of a store with that round.
pub fn store_of(alloc: Global, items: u32) -> Result<Vec<u8>, AllocError> {
    let mut out = header(alloc)?;
    out.push(OPEN_GATE)?;
    out.extend_from_slice(round_of(alloc, items)?.as_slice())?;
    Ok(out)
}
