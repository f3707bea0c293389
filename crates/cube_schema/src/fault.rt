//! Why a declaration cannot be stored.

ghost use Rattle.std.specs.Prelude.{◌≡◌, ◌^◌, ◌<◌, ◌||◌, false, nat_lt, length, find, option_copied, IfOk};
ghost use Rattle.cube_values.specs.Shapes.{ranges_of, bricks_of};
ghost use Rattle.cube_language.specs.Cubes.{column_names, dim_names, duplicate_in, has_zero, zero_in, has_large_range, large_range_in, schema_fault, size_of, sizes_of};
ghost use Rattle.cube_schema.specs.Dimensions.{AreNotZero};
ghost use Rattle.cube_schema.specs.Repeats.{names_lent};

use crate::repeat::first_repeat;
use cube_language::{Decl, DimDecl, SchemaFault};
use cube_values::{MOST_BRICKS, MOST_COLUMNS, Text};
use std::alloc::{AllocError, Global};

/// Why a declaration cannot be stored, the first that applies, or None where it can.
pub(crate) fn fault_of(alloc: Global, decl: &Decl) -> Result<Option<SchemaFault>, AllocError>
    ensures { IfOk result (λ found. found ≡ schema_fault decl.now) }
{
    if let Some(fault) = duplicate_in(alloc, decl)? {
        return Ok(Some(fault));
    }
    if let Some(fault) = zero_in(decl)? {
        return Ok(Some(fault));
    }
    if let Some(fault) = large_range_in(decl)? {
        return Ok(Some(fault));
    }
    if has_many_bricks(decl.dims.as_slice()) {
        return Ok(Some(SchemaFault::TooManyBricks));
    }
    if has_many_columns(decl) {
        return Ok(Some(SchemaFault::TooManyColumns));
    }
    if decl.metrics.len() == 0 {
        return Ok(Some(SchemaFault::NoMetric));
    }
    Ok(None)
}

/// The names of dimensions.
fn dim_names(alloc: Global, dims: &[DimDecl]) -> Result<Vec<&str>, AllocError>
    ensures { IfOk result (λ names. names_lent names.items ≡ dim_names dims.now) }
{
    let mut names = Vec::new(alloc);
    'dims: for dim in dims {
        names.push(dim.name.as_str())?;
    }
    Ok(names)
}

/// The names of the columns, dimensions first.
fn column_names(alloc: Global, decl: &Decl) -> Result<Vec<&str>, AllocError>
    ensures { IfOk result (λ names. names_lent names.items ≡ column_names decl.now) }
{
    let mut names = dim_names(alloc, decl.dims.as_slice())?;
    'metrics: for name in decl.metrics.as_slice() {
        names.push(name.as_str())?;
    }
    Ok(names)
}

fn duplicate_in(alloc: Global, decl: &Decl) -> Result<Option<SchemaFault>, AllocError>
    ensures { IfOk result (λ found. found ≡ duplicate_in decl.now) }
{
    let names = column_names(alloc, decl)?;
    match first_repeat(alloc, names.as_slice())? {
        Some(place) => {
            let name = Text::new(alloc, names[place])?;
            Ok(Some(SchemaFault::DuplicateName { name }))
        }
        None => Ok(None),
    }
}

fn has_zero(dim: &DimDecl) -> bool
    ensures { result ≡ has_zero dim.now }
{
    dim.cardinality == 0 || dim.range == 0
}

fn first_zero(dims: &[DimDecl]) -> Option<&DimDecl>
    ensures { option_copied result ≡ find has_zero dims.now }
{
    dims.iter().find(|dim| has_zero(dim))
}

fn zero_in(decl: &Decl) -> Result<Option<SchemaFault>, AllocError>
    ensures { IfOk result (λ found. found ≡ zero_in decl.now) }
{
    match first_zero(decl.dims.as_slice()) {
        Some(dim) => Ok(Some(SchemaFault::ZeroCardinality {
            name: dim.name.copy()?,
        })),
        None => Ok(None),
    }
}

fn has_large_range(dim: &DimDecl) -> bool
    ensures { result ≡ has_large_range dim.now }
{
    dim.cardinality < dim.range
}

fn first_large_range(dims: &[DimDecl]) -> Option<&DimDecl>
    ensures { option_copied result ≡ find has_large_range dims.now }
{
    dims.iter().find(|dim| has_large_range(dim))
}

fn large_range_in(decl: &Decl) -> Result<Option<SchemaFault>, AllocError>
    ensures { IfOk result (λ found. found ≡ large_range_in decl.now) }
{
    match first_large_range(decl.dims.as_slice()) {
        Some(dim) => Ok(Some(SchemaFault::RangeTooLarge {
            name: dim.name.copy()?,
        })),
        None => Ok(None),
    }
}

/// How many ranges a dimension has.
fn ranges(dim: &DimDecl) -> u64
    requires { has_zero dim.now ≡ false }
    ensures value { result ≡ ranges_of (size_of dim.now) }
    ensures few { result < 2 ^ 33 }
{
    let range = u64::from(dim.range);
    (u64::from(dim.cardinality) + (range - 1)) / range
}

/// Whether there are more bricks than a cube has at most. It ends at the first product above that.
fn has_many_bricks(dims: &[DimDecl]) -> bool
    requires { AreNotZero dims.now }
    ensures { result ≡ nat_lt MOST_BRICKS (bricks_of (sizes_of dims.now)) }
{
    let mut bricks: u128 = 1;
    'dims: for dim in dims {
        let more = bricks * u128::from(ranges(dim));
        if u128::from(MOST_BRICKS) < more {
            return true;
        }
        bricks = more;
    }
    false
}

fn has_many_columns(decl: &Decl) -> bool
    ensures { result ≡ (nat_lt MOST_COLUMNS (length decl.now.dims)
        || nat_lt MOST_COLUMNS (length decl.now.metrics)) }
{
    let most = MOST_COLUMNS as usize;
    decl.dims.len() > most || decl.metrics.len() > most
}
