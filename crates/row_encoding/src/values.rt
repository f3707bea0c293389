//! The values of a row's dimensions as coordinates.

ghost use Rattle.std.specs.Prelude.{◌≡◌, ◌<◌, ◌≤◌, None, true, length, pos, IfOk, IfSome, IfNone};
ghost use Rattle.cube_language.specs.Cubes.{sizes_of};
ghost use Rattle.cube_language.specs.RowFaults.{coord_reason, dim_reason};
ghost use Rattle.cube_language.specs.declared.bad_row.TheConstants.{TEXT_BYTES};
ghost use Rattle.brick_address.specs.Addresses.{AreCoords};
ghost use Rattle.condition_spans.specs.Codes.{texts_at};
ghost use Rattle.row_encoding.specs.FinalCodes.{dim_at, code_number, IsFinalNumber, InTheEnd, IsDimText, HaveNumbers, Grow};
ghost use Rattle.row_encoding.specs.CodedValues.{FitDims, HaveText, IsTextValue, IsItsText, HasTextAt, IsFinalCoord, AreCodedAs};

use crate::encoder::Encoder;
use cube_schema::Schema;
use cube_values::Value;
use names_dict::Code;
use std::alloc::AllocError;

/// The number that a code gives to its text.
fn code_number(code: Code) -> Option<u32>
    ensures { result ≡ code_number code }
{
    match code {
        Code::Known(n) | Code::Added(n) => Some(n),
        Code::Full => None,
    }
}

/// The number of a text in a dimension of texts, or None where it finds no place.
pub(crate) fn encode_text<E: Encoder>(
    encoder: &mut E,
    place: u32,
    cube: &Schema,
    dim: u32,
    text: &str,
) -> Result<Option<u32>, AllocError>
    requires suits { E.suits encoder.old place cube.now }
    requires text { (dim_at cube.now.dims dim).text ≡ true }
    requires short { length text.now ≤ TEXT_BYTES }
    ensures number { IfOk result (λ number. InTheEnd (E.may_end encoder.new) place (λ lists.
        IsFinalNumber (dim_at cube.now.dims dim) (texts_at lists dim) text.now number)) }
    ensures inside { IfOk result (λ number.
        IfSome number (λ n. n < (dim_at cube.now.dims dim).cardinality)) }
    ensures given { IfOk result (λ number. IfSome number (E.has_given encoder.new place dim)) }
    ensures grow { Grow E.may_end E.suits E.has_name E.keeps place cube.now (IsDimText dim text.now)
        encoder.old encoder.new }
{
    Ok(code_number(encoder.encode(place, cube, dim, text)?))
}

/// A number that fits a dimension as its coordinate.
fn coord_of(cardinality: u32, n: i64) -> u32
    requires { coord_reason cardinality n ≡ None }
    ensures coord { n ≡ pos result }
    ensures below { result < cardinality }
{
    n as u32
}

/// The coordinate of a value that fits its dimension, or None where it is a text that finds no
/// place.
fn encode_value<E: Encoder>(
    encoder: &mut E,
    place: u32,
    cube: &Schema,
    dim: u32,
    value: &Value,
) -> Result<Option<u32>, AllocError>
    requires suits { E.suits encoder.old place cube.now }
    requires dim { dim < length cube.now.dims }
    requires fits { dim_reason (dim_at cube.now.dims dim) value.now ≡ None }
    ensures coord { IfOk result (λ coord. InTheEnd (E.may_end encoder.new) place (λ lists.
        IsFinalCoord (dim_at cube.now.dims dim) (texts_at lists dim) value.now coord)) }
    ensures inside { IfOk result (λ coord.
        IfSome coord (λ c. c < (dim_at cube.now.dims dim).cardinality)) }
    ensures given { IfOk result (λ coord. IfSome coord (λ c. (dim_at cube.now.dims dim).text ≡ true
        → E.has_given encoder.new place dim c)) }
    ensures text { IfOk result (λ coord. IfNone coord (IsTextValue value.now)) }
    ensures grow { Grow E.may_end E.suits E.has_name E.keeps place cube.now (IsItsText dim value.now)
        encoder.old encoder.new }
{
    match value {
        Value::Text(text) => encode_text(encoder, place, cube, dim, text.as_str()),
        Value::Int(n) => {
            let dims = cube.decl().dims.as_slice();
            Ok(Some(coord_of(dims[dim as usize].cardinality, *n)))
        }
    }
}

/// The place of one of the dimensions in 32 bits. Each has coordinates.
pub(crate) fn narrow(cube: &Schema, dim: usize) -> u32
    requires { dim < length cube.now.dims }
    ensures place { result ≡ dim }
    ensures some { 0 < (dim_at cube.now.dims dim).cardinality }
{
    let _shape = cube.cube_shape();
    dim as u32
}

/// Puts the coordinates of the values of a row's dimensions, which fit, into `coords`, and gives
/// their texts to the dictionaries from left to right. The answer is None, or the first dimension
/// whose text finds no place; the texts before it keep theirs. The error is out of memory.
pub fn encode_values<E: Encoder>(
    encoder: &mut E,
    place: u32,
    cube: &Schema,
    values: &[Value],
    coords: &mut Vec<u32>,
) -> Result<Option<u32>, AllocError>
    requires suits { E.suits encoder.old place cube.now }
    requires fit { FitDims cube.now.dims values.now }
    ensures coords { IfOk result (λ full. InTheEnd (E.may_end encoder.new) place (λ lists.
        AreCodedAs cube.now lists values.now coords.new.items full)) }
    ensures inside { IfOk result (λ full.
        IfNone full (AreCoords (sizes_of cube.now.dims) coords.new.items)) }
    ensures numbers { IfOk result (λ full. IfNone full
        (HaveNumbers (E.has_given encoder.new place) cube.now.dims coords.new.items)) }
    ensures text { IfOk result (λ full. IfSome full (HasTextAt values.now)) }
    ensures grow { Grow E.may_end E.suits E.has_name E.keeps place cube.now (HaveText values.now)
        encoder.old encoder.new }
{
    coords.clear();
    'values: for (i, value) in values.iter().enumerate() {
        let dim = narrow(cube, i);
        match encode_value(encoder, place, cube, dim, value)? {
            Some(coord) => coords.push(coord)?,
            None => return Ok(Some(dim)),
        }
    }
    Ok(None)
}
