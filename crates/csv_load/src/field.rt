//! What a field is for a column.

ghost use Rattle.std.specs.Prelude.{◌≡◌, None, Some, IfOk, IfErr, unsigned_abs};
ghost use Rattle.std.specs.Str.{is_utf8};
ghost use Rattle.cube_language.specs.RowFaults.{coord_reason};
ghost use Rattle.csv_load.specs.Fields.{dim_field_reason, field_coord, field_number, coord_field_reason, metric_field_reason, text_field_reason};

use crate::number::spelled_number;
use cube_language::{DimDecl, Reason, TEXT_BYTES};
use std::str;

/// Whether bytes are UTF-8. Most texts are ASCII alone, which is seen sooner.
#[tactic(auto, using(crate::proofs::Texts::ascii_is, crate::proofs::Texts::text_is, crate::proofs::Texts::text_is_not))]
fn is_utf8(field: &[u8]) -> bool
    ensures { result ≡ is_utf8 field.now }
{
    if field.is_ascii() {
        return true;
    }
    match str::from_utf8(field) {
        Ok(_) => true,
        Err(_) => false,
    }
}

/// Why a field is no text of a dimension, if so.
fn text_field_reason(field: &[u8]) -> Option<Reason>
    ensures { result ≡ text_field_reason field.now }
{
    if !is_utf8(field) {
        return Some(Reason::NotText);
    }
    if field.len() > TEXT_BYTES {
        return Some(Reason::TooLong);
    }
    None
}

/// A number as a coordinate below this one.
fn coord_below(cardinality: u32, n: i64) -> Result<u32, Reason>
    ensures fits { IfOk result (λ coord. coord_reason cardinality n ≡ None) }
    ensures coord { IfOk result (λ coord. coord ≡ unsigned_abs n) }
    ensures fault { IfErr result (λ reason. coord_reason cardinality n ≡ Some reason) }
{
    match u32::try_from(n) {
        Ok(coord) if coord < cardinality => Ok(coord),
        _ => Err(Reason::OutOfRange),
    }
}

/// What a field spells as a coordinate below this one.
fn number_coord(cardinality: u32, field: &[u8]) -> Result<u32, Reason>
    ensures fits { IfOk result (λ coord. coord_field_reason cardinality field.now ≡ None) }
    ensures coord { IfOk result (λ coord. coord ≡ unsigned_abs (field_number field.now)) }
    ensures fault { IfErr result (λ why. coord_field_reason cardinality field.now ≡ Some why) }
{
    match spelled_number(field) {
        Some(n) => coord_below(cardinality, n),
        None => Err(Reason::NotNumber),
    }
}

/// The coordinate of a field that fits a dimension, 0 for a text, or why it does not fit.
pub(crate) fn field_coord(dim: &DimDecl, field: &[u8]) -> Result<u32, Reason>
    ensures fits { IfOk result (λ coord. dim_field_reason dim.now field.now ≡ None) }
    ensures coord { IfOk result (λ coord. coord ≡ field_coord dim.now field.now) }
    ensures fault { IfErr result (λ reason. dim_field_reason dim.now field.now ≡ Some reason) }
{
    if dim.text {
        match text_field_reason(field) {
            Some(reason) => Err(reason),
            None => Ok(0),
        }
    } else {
        number_coord(dim.cardinality, field)
    }
}

/// The number of a field that fits a metric, or why it does not fit.
pub(crate) fn field_metric(field: &[u8]) -> Result<i64, Reason>
    ensures fits { IfOk result (λ n. metric_field_reason field.now ≡ None) }
    ensures number { IfOk result (λ n. n ≡ field_number field.now) }
    ensures fault { IfErr result (λ reason. metric_field_reason field.now ≡ Some reason) }
{
    match spelled_number(field) {
        Some(n) => Ok(n),
        None => Err(Reason::NotNumber),
    }
}
