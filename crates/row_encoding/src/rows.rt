//! The rows of an INSERT as rows by coordinates.

ghost use Rattle.std.specs.Prelude.{◌≡◌, ◌<◌, ◌++◌, [], ◌∷◌, None, length, map, take, drop, All, IfOk, IfSome, IfNone, OnOk, OnErr};
ghost use Rattle.cube_language.specs.Cubes.{sizes_of};
ghost use Rattle.cube_language.specs.RowFaults.{row_fault, first_bad_row};
ghost use Rattle.cube_run.specs.LoadedRows.{metric_value};
ghost use Rattle.agg_fold.specs.Coded.{coded_row};
ghost use Rattle.brick_address.specs.Addresses.{AreCoords};
ghost use Rattle.row_encoding.specs.FinalCodes.{InTheEnd, HaveNumbers, Grow};
ghost use Rattle.row_encoding.specs.CodedValues.{HaveText, HasTextAt, AreCodedAs};
ghost use Rattle.row_encoding.specs.CodedInserts.{HaveTextIn, HasCoords, HasNumbers, AreCodedRows};

use crate::encoder::Encoder;
use crate::values::encode_values;
use cube_schema::Schema;
use cube_values::{CodedRows, Text, Value, Values};
use std::alloc::{AllocError, Global};

fn metric_value(value: &Value) -> i64
    ensures { result ≡ metric_value value.now }
{
    match value {
        Value::Int(n) => *n,
        Value::Text(_) => 0,
    }
}

/// Leaves the numbers of values in `metrics`.
fn put_metrics(values: &[Value], metrics: &mut Vec<i64>) -> Result<(), AllocError>
    ensures { OnOk result (metrics.new.items ≡ map metric_value values.now) }
{
    metrics.clear();
    'values: for value in values {
        metrics.push(metric_value(value))?;
    }
    Ok(())
}

/// A copy of the text at a place.
fn text_at(values: &[Value], dim: u32) -> Result<Text, AllocError>
    requires { HasTextAt values.now dim }
    ensures { IfOk result (λ text. HaveText values.now dim text) }
{
    match values.get(dim as usize) {
        Some(Value::Text(text)) => text.copy(),
        _ => unreachable!(),
    }
}

/// Memory for the coordinates and the metrics of one row, which is used for each.
#[derive(Drop)]
struct Scratch {
    coords: Vec<u32>,
    metrics: Vec<i64>,
}

/// Puts a row whose values fit at the end of a batch, where there is room. The answer is None, or
/// the first dimension whose text finds no place, and then the batch stays as it is.
fn encode_row<E: Encoder>(
    encoder: &mut E,
    place: u32,
    cube: &Schema,
    values: &[Value],
    scratch: &mut Scratch,
    batch: &mut CodedRows,
) -> Result<Option<u32>, AllocError>
    requires suits { E.suits encoder.old place cube.now }
    requires fit { row_fault cube.now values.now ≡ None }
    requires room { length batch.old.rows < batch.old.room }
    requires dims { batch.old.dims ≡ length cube.now.dims }
    requires width { batch.old.width ≡ length cube.now.metrics }
    ensures coords { IfOk result (λ full. InTheEnd (E.may_end encoder.new) place (λ lists.
        AreCodedAs cube.now lists (take (length cube.now.dims) values.now)
        scratch.new.coords.items full)) }
    ensures metrics { IfOk result (λ full. IfNone full
        (scratch.new.metrics.items ≡ map metric_value (drop (length cube.now.dims) values.now))) }
    ensures pushed { IfOk result (λ full. IfNone full (batch.new ≡ record batch.old {
      rows =
          batch.old.rows ++ coded_row scratch.new.coords.items scratch.new.metrics.items ∷ [];
    })) }
    ensures same { IfOk result (λ full. IfSome full (λ _. batch.new ≡ batch.old)) }
    ensures err { OnErr result (batch.new ≡ batch.old) }
    ensures inside { IfOk result (λ full.
        IfNone full (AreCoords (sizes_of cube.now.dims) scratch.new.coords.items)) }
    ensures numbers { IfOk result (λ full. IfNone full
        (HaveNumbers (E.has_given encoder.new place) cube.now.dims scratch.new.coords.items)) }
    ensures text { IfOk result (λ full. IfSome full (HasTextAt values.now)) }
    ensures grow { Grow E.may_end E.suits E.has_name E.keeps place cube.now (HaveText values.now)
        encoder.old encoder.new }
{
    let (dims, metrics) = values.split_at(cube.decl().dims.len());
    if let Some(dim) = encode_values(encoder, place, cube, dims, &mut scratch.coords)? {
        return Ok(Some(dim));
    }
    put_metrics(metrics, &mut scratch.metrics)?;
    batch.push(scratch.coords.as_slice(), scratch.metrics.as_slice());
    Ok(None)
}

/// Leaves the rows of an INSERT, which fit, in a batch of their cube, and gives their texts to the
/// dictionaries by rows and then from left to right. The answer is None, or the first text that
/// finds no place; the texts before it keep theirs, and what the batch has is then no answer. The
/// error is out of memory. It takes memory at its beginning, for all rows, and for the text that it
/// answers.
pub fn encode_rows<E: Encoder>(
    alloc: Global,
    encoder: &mut E,
    place: u32,
    cube: &Schema,
    rows: &[Values],
    batch: &mut CodedRows,
) -> Result<Option<Text>, AllocError>
    requires suits { E.suits encoder.old place cube.now }
    requires fit { first_bad_row cube.now rows.now ≡ None }
    requires dims { batch.old.dims ≡ length cube.now.dims }
    requires width { batch.old.width ≡ length cube.now.metrics }
    ensures rows { IfOk result (λ lacking. InTheEnd (E.may_end encoder.new) place (λ lists.
        AreCodedRows cube.now lists rows.now batch.new.rows lacking)) }
    ensures inside { IfOk result (λ lacking.
        IfNone lacking (All (HasCoords cube.now) batch.new.rows)) }
    ensures numbers { IfOk result (λ lacking. IfNone lacking
        (All (HasNumbers (E.has_given encoder.new place) cube.now) batch.new.rows)) }
    ensures grow { Grow E.may_end E.suits E.has_name E.keeps place cube.now (HaveTextIn rows.now)
        encoder.old encoder.new }
    ensures dims { batch.new.dims ≡ batch.old.dims }
    ensures width { batch.new.width ≡ batch.old.width }
{
    batch.clear();
    batch.reserve(rows.len())?;
    let mut scratch = Scratch {
        coords: Vec::with_capacity(alloc, cube.decl().dims.len())?,
        metrics: Vec::with_capacity(alloc, cube.decl().metrics.len())?,
    };
    'rows: for values in rows {
        let lacking = encode_row(encoder, place, cube, values.as_slice(), &mut scratch, batch)?;
        if let Some(dim) = lacking {
            return Ok(Some(text_at(values.as_slice(), dim)?));
        }
    }
    Ok(None)
}
