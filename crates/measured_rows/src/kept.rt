//! Rows of columns, half of which stay.

ghost use Rattle.std.specs.Prelude.{◌≡◌, ◌+◌, ◌∷◌, [], ◌<◌, ◌≤◌, length, IfOk};
ghost use Rattle.std.specs.List.{items_where_true};
ghost use Rattle.brick_columns.specs.Rows.{BrickRows};
ghost use Rattle.measured_rows.specs.Columns.{one_layout};

use crate::one_brick::{EIGHT, THOUSAND, one_shape};
use brick_columns::Columns;
use cube_values::Bits;
use rand_pcg::Pcg32;
use std::alloc::{AllocError, Global};
use timed_work::{Work, below, seeded};

/// Rows, and a bit for each.
#[derive(Drop)]
pub struct Keep {
    columns: Columns,
    keep: Bits,
    ghost one_each: { length keep.bits ≡ length columns.rows },
}

/// Columns of eight offsets by a thousand and a metric, with room for so many rows.
fn columns_for(alloc: Global, items: u32) -> Result<Columns, AllocError>
    ensures layout { IfOk result (λ columns. columns.layout ≡ one_layout) }
    ensures rows { IfOk result (λ columns. columns.rows ≡ []) }
    ensures room { IfOk result (λ columns. items ≤ columns.spare) }
{
    let mut columns = Columns::new(alloc, &one_shape(alloc)?, 1)?;
    columns.reserve(u64::from(items))?;
    Ok(columns)
}

/// Puts a row by chance at the end.
fn push_row(columns: &mut Columns, numbers: &mut Pcg32)
    requires layout { columns.old.layout ≡ one_layout }
    requires room { 1 ≤ columns.old.spare }
    ensures layout { columns.new.layout ≡ one_layout }
    ensures length { length columns.new.rows ≡ length columns.old.rows + 1 }
    ensures spare { columns.new.spare + 1 ≡ columns.old.spare }
{
    let offsets = [below(numbers, EIGHT), below(numbers, THOUSAND)];
    columns.push_row(&offsets, &[i64::from(below(numbers, 100))]);
}

/// Columns of so many rows by chance.
fn filled(alloc: Global, items: u32) -> Result<Columns, AllocError>
    ensures { IfOk result (λ columns. length columns.rows ≡ items) }
{
    let mut numbers = seeded();
    let mut columns = columns_for(alloc, items)?;
    'rows: for _row in 0..items {
        push_row(&mut columns, &mut numbers);
    }
    Ok(columns)
}

/// So many bits, half of them set by chance.
fn by_chance(alloc: Global, items: u32) -> Result<Bits, AllocError>
    ensures { IfOk result (λ bits. length bits.bits ≡ items) }
{
    let mut numbers = seeded();
    let mut bits = Bits::new(alloc, u64::from(items))?;
    'bits: for i in 0..items {
        bits.set(u64::from(i), below(&mut numbers, 2) == 1);
    }
    Ok(bits)
}

impl Work for Keep {
    fn prepared(alloc: Global, items: u32) -> Result<Keep, AllocError> {
        Ok(Keep {
            columns: filled(alloc, items)?,
            keep: by_chance(alloc, items)?,
        })
    }

    /// The checksum is the number of rows that stay.
    fn work(&mut self, _alloc: Global) -> Result<u64, AllocError>
        ensures { IfOk result (λ sum. sum
            ≡ length (items_where_true self.old.keep.bits self.old.columns.rows)) }
    {
        let _bits = self.keep.len();
        self.columns.keep(&self.keep);
        let rows = self.columns.len();
        self.keep.reset(rows);
        Ok(rows)
    }
}
