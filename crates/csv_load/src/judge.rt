//! Whether a record is a row.

ghost use Rattle.std.specs.Prelude.{◌≡◌, ◌≤◌, ◌+◌, ◌<◌, ◌==◌, [], None, length, get_or, drop, IfOk, IsTrue};
ghost use Rattle.cube_language.specs.declared.bad_row.BadRow.TheVariants as bad;
ghost use Rattle.csv.specs.Records.{fields_of};
ghost use Rattle.csv_load.specs.FileRecords.{field_coords, dims_fault, metrics_fault, field_numbers};
ghost use Rattle.csv_load.specs.Loads.{IsJudged};

use crate::field::{field_coord, field_metric};
use crate::step::Step;
use csv::ByteRecord;
use cube_language::{BadRow, Decl, DimDecl, Reason};
use cube_values::Text;
use std::alloc::AllocError;

/// The field at a place.
#[tactic(auto, using(crate::proofs::Judged::field_there, crate::proofs::Judged::field_is))]
pub(crate) fn field(read: &ByteRecord, i: usize) -> &[u8]
    requires { i < length (fields_of read.now) }
    ensures { result.now ≡ get_or (fields_of read.now) i [] }
{
    read.get(i).unwrap()
}

/// The field at a place, counted from another on.
#[tactic(auto, using(crate::proofs::Judged::field_back))]
fn field_from(read: &ByteRecord, first: usize, i: usize) -> &[u8]
    requires { first + i < length (fields_of read.now) }
    ensures { result.now ≡ get_or (drop first (fields_of read.now)) i [] }
{
    // The places of fields fit 64 bits, as their number does.
    let _count = read.len();
    field(read, first + i)
}

/// Whether a record of so many fields has one for each dimension and metric.
fn has_width(len: usize, dims: usize, metrics: usize) -> bool
    ensures value { result ≡ (len == dims + metrics) }
    ensures fact { IsTrue result → len ≡ dims + metrics }
{
    len as u128 == dims as u128 + metrics as u128
}

fn column_fault(name: &Text, reason: Reason) -> Result<BadRow, AllocError>
    ensures { IfOk result (λ fault. fault ≡ bad.Column name.now reason) }
{
    Ok(BadRow::Column {
        name: name.copy()?,
        reason,
    })
}

/// The first of the dimensions that its field does not fit. Where there is none, `coords` has the
/// coordinates.
fn dims_fault(
    dims: &[DimDecl],
    read: &ByteRecord,
    coords: &mut Vec<u32>,
) -> Result<Option<BadRow>, AllocError>
    requires { length dims.now ≤ length (fields_of read.now) }
    ensures fault { IfOk result (λ found. found ≡ dims_fault dims.now (fields_of read.now)) }
    ensures coords { IfOk result (λ found.
        found ≡ None → coords.new.items ≡ field_coords dims.now (fields_of read.now)) }
{
    coords.clear();
    'dims: for (i, dim) in dims.iter().enumerate() {
        match field_coord(dim, field(read, i)) {
            Ok(coord) => coords.push(coord)?,
            Err(reason) => return Ok(Some(column_fault(&dim.name, reason)?)),
        }
    }
    Ok(None)
}

/// The first of the metrics that its field does not fit; `first` is the place of the first metric. Where
/// there is none, `metrics` has the numbers.
fn metrics_fault(
    names: &[Text],
    read: &ByteRecord,
    first: usize,
    metrics: &mut Vec<i64>,
) -> Result<Option<BadRow>, AllocError>
    requires { length (fields_of read.now) ≡ first + length names.now }
    ensures fault { IfOk result (λ found.
        found ≡ metrics_fault names.now (drop first (fields_of read.now))) }
    ensures numbers { IfOk result (λ found.
        found ≡ None → metrics.new.items ≡ field_numbers (drop first (fields_of read.now))) }
{
    metrics.clear();
    'names: for (i, name) in names.iter().enumerate() {
        match field_metric(field_from(read, first, i)) {
            Ok(number) => metrics.push(number)?,
            Err(reason) => return Ok(Some(column_fault(name, reason)?)),
        }
    }
    Ok(None)
}

/// Whether a record is a row, with its coordinates and metrics, or why it is none.
#[tactic(auto, using(crate::proofs::Judged::texts_are, crate::proofs::Judged::coords_count))]
pub(crate) fn judge(
    decl: &Decl,
    read: &ByteRecord,
    coords: &mut Vec<u32>,
    metrics: &mut Vec<i64>,
) -> Result<Step, AllocError>
    ensures { IfOk result (λ step.
        IsJudged decl.now (fields_of read.now) coords.new.items metrics.new.items step) }
{
    let dims = decl.dims.len();
    if !has_width(read.len(), dims, decl.metrics.len()) {
        return Ok(Step::Bad(BadRow::WrongCount {
            values: read.len() as u64,
        }));
    }
    if let Some(fault) = dims_fault(decl.dims.as_slice(), read, coords)? {
        return Ok(Step::Bad(fault));
    }
    match metrics_fault(decl.metrics.as_slice(), read, dims, metrics)? {
        Some(fault) => Ok(Step::Bad(fault)),
        None => Ok(Step::Good),
    }
}
