//! A record of a file as a row by coordinates.

ghost use Rattle.std.specs.Prelude.{◌≡◌, ◌<◌, ◌++◌, [], ◌∷◌, None, true, length, IfOk, IfSome, IfNone, OnErr};
ghost use Rattle.cube_language.specs.Cubes.{sizes_of};
ghost use Rattle.agg_fold.specs.Coded.{coded_row};
ghost use Rattle.brick_address.specs.Addresses.{AreCoords};
ghost use Rattle.condition_spans.specs.Codes.{texts_at};
ghost use Rattle.csv_load.specs.FileRecords.{dim_values, record_row};
ghost use Rattle.row_encoding.specs.FinalCodes.{dim_at, InTheEnd, HaveNumbers, Grow};
ghost use Rattle.row_encoding.specs.CodedValues.{HaveText, IsTextValue, IsItsText, HasTextAt, IsFinalCoord, AreCodedAs};
ghost use Rattle.row_encoding.specs.CodedRecords.{ReadRow, value_read, RecordHasText, IsCodedRecord};

use crate::encoder::Encoder;
use crate::values::{encode_text, narrow};
use csv_load::Loader;
use cube_language::{BadRow, Reason};
use cube_schema::Schema;
use cube_values::CodedRows;
use std::alloc::AllocError;

/// The coordinate of a dimension in the row that was read last, or None where its text finds no
/// place.
fn encode_field<E: Encoder>(
    encoder: &mut E,
    place: u32,
    cube: &Schema,
    load: &Loader,
    dim: u32,
) -> Result<Option<u32>, AllocError>
    requires suits { E.suits encoder.old place cube.now }
    requires row { ReadRow cube.now load.now }
    requires dim { dim < length cube.now.dims }
    ensures coord { IfOk result (λ coord. InTheEnd (E.may_end encoder.new) place (λ lists.
        IsFinalCoord (dim_at cube.now.dims dim) (texts_at lists dim)
        (value_read cube.now load.now dim) coord)) }
    ensures inside { IfOk result (λ coord.
        IfSome coord (λ c. c < (dim_at cube.now.dims dim).cardinality)) }
    ensures given { IfOk result (λ coord. IfSome coord (λ c. (dim_at cube.now.dims dim).text ≡ true
        → E.has_given encoder.new place dim c)) }
    ensures text { IfOk result (λ coord.
        IfNone coord (IsTextValue (value_read cube.now load.now dim))) }
    ensures grow { Grow E.may_end E.suits E.has_name E.keeps place cube.now
        (IsItsText dim (value_read cube.now load.now dim)) encoder.old encoder.new }
{
    let dims = cube.decl().dims.as_slice();
    if dims[dim as usize].text {
        encode_text(encoder, place, cube, dim, load.text(dim as usize))
    } else {
        Ok(Some(load.coord(dim as usize)))
    }
}

/// Leaves the coordinates of the row that was read last in `coords`, as `encode_values` does.
fn encode_fields<E: Encoder>(
    encoder: &mut E,
    place: u32,
    cube: &Schema,
    load: &Loader,
    coords: &mut Vec<u32>,
) -> Result<Option<u32>, AllocError>
    requires suits { E.suits encoder.old place cube.now }
    requires row { ReadRow cube.now load.now }
    ensures coords { IfOk result (λ full. InTheEnd (E.may_end encoder.new) place (λ lists.
        AreCodedAs cube.now lists (dim_values cube.now.dims load.now.fields) coords.new.items
        full)) }
    ensures inside { IfOk result (λ full.
        IfNone full (AreCoords (sizes_of cube.now.dims) coords.new.items)) }
    ensures numbers { IfOk result (λ full. IfNone full
        (HaveNumbers (E.has_given encoder.new place) cube.now.dims coords.new.items)) }
    ensures text { IfOk result (λ full. IfSome full (λ dim. dim < length cube.now.dims)) }
    ensures grow { Grow E.may_end E.suits E.has_name E.keeps place cube.now
        (RecordHasText cube.now load.now) encoder.old encoder.new }
{
    coords.clear();
    let count = cube.decl().dims.len();
    'dims: for i in 0..count {
        let dim = narrow(cube, i);
        match encode_field(encoder, place, cube, load, dim)? {
            Some(coord) => coords.push(coord)?,
            None => return Ok(Some(dim)),
        }
    }
    Ok(None)
}

/// Puts the row that a load of a file read last at the end of a batch, where there is room, and
/// gives its texts to the dictionaries from left to right. Its coordinates are left in `coords`.
/// The answer is None, or why the record is bad all the same: its first text that finds no place;
/// then the batch stays as it is, and the texts before that keep their places. The error is out of
/// memory.
pub fn encode_record<E: Encoder>(
    encoder: &mut E,
    place: u32,
    cube: &Schema,
    load: &Loader,
    coords: &mut Vec<u32>,
    batch: &mut CodedRows,
) -> Result<Option<BadRow>, AllocError>
    requires suits { E.suits encoder.old place cube.now }
    requires row { ReadRow cube.now load.now }
    requires room { length batch.old.rows < batch.old.room }
    requires dims { batch.old.dims ≡ length cube.now.dims }
    requires width { batch.old.width ≡ length cube.now.metrics }
    ensures row { IfOk result (λ fault. InTheEnd (E.may_end encoder.new) place (λ lists.
        IsCodedRecord cube.now lists (record_row cube.now load.now.fields)
        (coded_row coords.new.items load.now.metrics) fault)) }
    ensures pushed { IfOk result (λ fault. IfNone fault (batch.new ≡ record batch.old {
      rows =
          batch.old.rows ++ coded_row coords.new.items load.now.metrics ∷ [];
    })) }
    ensures same { IfOk result (λ fault. IfSome fault (λ _. batch.new ≡ batch.old)) }
    ensures err { OnErr result (batch.new ≡ batch.old) }
    ensures inside { IfOk result (λ fault.
        IfNone fault (AreCoords (sizes_of cube.now.dims) coords.new.items)) }
    ensures numbers { IfOk result (λ fault. IfNone fault
        (HaveNumbers (E.has_given encoder.new place) cube.now.dims coords.new.items)) }
    ensures grow { Grow E.may_end E.suits E.has_name E.keeps place cube.now
        (RecordHasText cube.now load.now) encoder.old encoder.new }
{
    match encode_fields(encoder, place, cube, load, coords)? {
        None => {
            batch.push(coords.as_slice(), load.metrics());
            Ok(None)
        }
        Some(dim) => Ok(Some(BadRow::Column {
            name: cube.decl().dims.as_slice()[dim as usize].name.copy()?,
            reason: Reason::DictionaryFull,
        })),
    }
}
