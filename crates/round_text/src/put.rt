//! The parts of a round, each put at the end of a buffer.

ghost use Rattle.std.specs.Prelude.{◌≡◌, ◌-◌, ◌^◌, ◌<◌, ◌≤◌, ◌++◌, ◌∷◌, length, All, OnOk};
ghost use Rattle.std.specs.List.{flat_map};
ghost use Rattle.cube_values.specs.EpochsVector.{IsVector};
ghost use Rattle.cube_values.specs.declared.entry.Entry.TheVariants.{Run, Mark};
ghost use Rattle.cube_rounds.specs.Bricks.{entries_with_rows};
ghost use Rattle.cube_values.specs.Batches.{coded_row_at, rows_between};
ghost use Rattle.cube_rounds.specs.Bytes.{four_bytes, eight_bytes, signed_bytes, counted_bytes, name_bytes, row_bytes, entry_rows_bytes, entries_bytes, brick_bytes};

use cube_rounds::RoundBrick;
use cube_values::{CodedRows, Entry, Text};
use std::alloc::AllocError;

/// The first byte of a run, and of a mark.
pub(crate) const RUN: u8 = 0;

pub(crate) const MARK: u8 = 1;

/// Puts a number in four bytes.
#[tactic(auto, unfolding(cube_rounds::specs::Bytes::four_bytes))]
pub(crate) fn put_four(out: &mut Vec<u8>, n: u32) -> Result<(), AllocError>
    ensures { OnOk result (out.new.items ≡ out.old.items ++ four_bytes n) }
{
    out.extend_from_slice(&n.to_le_bytes())
}

/// Puts a number in eight bytes.
#[tactic(auto, unfolding(cube_rounds::specs::Bytes::eight_bytes))]
pub(crate) fn put_eight(out: &mut Vec<u8>, n: u64) -> Result<(), AllocError>
    ensures { OnOk result (out.new.items ≡ out.old.items ++ eight_bytes n) }
{
    out.extend_from_slice(&n.to_le_bytes())
}

/// Puts a number with a sign.
#[tactic(auto, unfolding(cube_rounds::specs::Bytes::signed_bytes))]
pub(crate) fn put_signed(out: &mut Vec<u8>, n: i64) -> Result<(), AllocError>
    ensures { OnOk result (out.new.items ≡ out.old.items ++ signed_bytes n) }
{
    out.extend_from_slice(&n.to_le_bytes())
}

/// Puts a name behind its length.
pub(crate) fn put_name(out: &mut Vec<u8>, name: &Text) -> Result<(), AllocError>
    requires { length name.now < 2 ^ 8 }
    ensures { OnOk result (out.new.items ≡ out.old.items ++ name_bytes name.now) }
{
    out.push(name.len() as u8)?;
    out.extend_from_slice(name.as_bytes())
}

fn put_each_name(out: &mut Vec<u8>, names: &[Text]) -> Result<(), AllocError>
    requires { All (λ name. length name < 2 ^ 8) names.now }
    ensures { OnOk result (out.new.items ≡ out.old.items ++ flat_map name_bytes names.now) }
{
    'names: for name in names {
        put_name(out, name)?;
    }
    Ok(())
}

/// Puts names behind their number.
pub(crate) fn put_names(out: &mut Vec<u8>, names: &[Text]) -> Result<(), AllocError>
    requires { All (λ name. length name < 2 ^ 8) names.now }
    ensures { OnOk result (out.new.items ≡ out.old.items ++ counted_bytes name_bytes names.now) }
{
    put_eight(out, names.len() as u64)?;
    put_each_name(out, names)
}

fn put_coords(out: &mut Vec<u8>, coords: &[u32]) -> Result<(), AllocError>
    ensures { OnOk result (out.new.items ≡ out.old.items ++ flat_map four_bytes coords.now) }
{
    'coords: for coord in coords {
        put_four(out, *coord)?;
    }
    Ok(())
}

fn put_metrics(out: &mut Vec<u8>, metrics: &[i64]) -> Result<(), AllocError>
    ensures { OnOk result (out.new.items ≡ out.old.items ++ flat_map signed_bytes metrics.now) }
{
    'metrics: for metric in metrics {
        put_signed(out, *metric)?;
    }
    Ok(())
}

fn put_row(out: &mut Vec<u8>, rows: &CodedRows, i: usize) -> Result<(), AllocError>
    requires { i < length rows.now.rows }
    ensures { OnOk result (out.new.items
        ≡ out.old.items ++ row_bytes (coded_row_at rows.now.rows i)) }
{
    put_coords(out, rows.coords_of(i))?;
    put_metrics(out, rows.metrics_of(i))
}

/// Puts the rows from one place up to another.
fn put_rows(out: &mut Vec<u8>, rows: &CodedRows, from: usize, end: usize) -> Result<(), AllocError>
    requires from { from ≤ end }
    requires end { end ≤ length rows.now.rows }
    ensures { OnOk result (out.new.items
        ≡ out.old.items ++ flat_map row_bytes (rows_between from end rows.now.rows)) }
{
    'rows: for i in from..end {
        put_row(out, rows, i)?;
    }
    Ok(())
}

fn put_run(
    out: &mut Vec<u8>,
    epoch: u64,
    rows: &CodedRows,
    from: usize,
    end: usize,
) -> Result<(), AllocError>
    requires from { from ≤ end }
    requires end { end ≤ length rows.now.rows }
    ensures { OnOk result (out.new.items
        ≡ out.old.items ++ entry_rows_bytes (Run epoch end) (rows_between from end rows.now.rows)) }
{
    out.push(RUN)?;
    put_eight(out, epoch)?;
    put_eight(out, (end - from) as u64)?;
    put_rows(out, rows, from, end)
}

fn put_mark(out: &mut Vec<u8>, epoch: u64) -> Result<(), AllocError>
    ensures { OnOk result (out.new.items ≡ out.old.items ++ 1 ∷ eight_bytes epoch) }
{
    out.push(MARK)?;
    put_eight(out, epoch)
}

/// Puts the entries of a vector over these rows, each with the rows that it appended.
fn put_entries(out: &mut Vec<u8>, entries: &[Entry], rows: &CodedRows) -> Result<(), AllocError>
    requires { IsVector entries.now (length rows.now.rows) }
    ensures { OnOk result (out.new.items
        ≡ out.old.items ++ entries_bytes (entries_with_rows 0 rows.now.rows entries.now)) }
{
    let mut from = 0;
    let mut left = entries;
    'entries: while let [entry, rest @ ..] = left {
        match *entry {
            Entry::Run { epoch, end } => {
                put_run(out, epoch, rows, from, end as usize)?;
                from = end as usize;
            }
            Entry::Mark { epoch, .. } => put_mark(out, epoch)?,
        }
        left = rest;
    }
    Ok(())
}

/// Puts a brick.
fn put_brick(out: &mut Vec<u8>, brick: &RoundBrick) -> Result<(), AllocError>
    ensures { OnOk result (out.new.items ≡ out.old.items ++ brick_bytes brick.now) }
{
    put_eight(out, brick.brick())?;
    put_eight(out, brick.entries().len() as u64)?;
    put_entries(out, brick.entries(), brick.rows())
}

fn put_each_brick(out: &mut Vec<u8>, bricks: &[RoundBrick]) -> Result<(), AllocError>
    ensures { OnOk result (out.new.items ≡ out.old.items ++ flat_map brick_bytes bricks.now) }
{
    'bricks: for brick in bricks {
        put_brick(out, brick)?;
    }
    Ok(())
}

/// Puts bricks behind their number.
pub(crate) fn put_bricks(out: &mut Vec<u8>, bricks: &[RoundBrick]) -> Result<(), AllocError>
    ensures { OnOk result (out.new.items ≡ out.old.items ++ counted_bytes brick_bytes bricks.now) }
{
    put_eight(out, bricks.len() as u64)?;
    put_each_brick(out, bricks)
}
