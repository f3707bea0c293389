//! A record as a row of its own.

ghost use Rattle.std.specs.Prelude.{◌≡◌, ◌≤◌, true, length, IfOk, IsUtf8};
ghost use Rattle.csv.specs.Records.{fields_of};
ghost use Rattle.csv_load.specs.FileRecords.{dim_value, dim_values};
ghost use Rattle.csv_load.specs.Loads.{AreTexts};

use crate::judge::field;
use crate::number::spelled_number;
use csv::ByteRecord;
use cube_language::{DimDecl, text_of};
use cube_values::{Numbers, Row, Text, Value, Values};
use std::alloc::{AllocError, Global};

/// The value of a field that fits a dimension.
fn dim_value(alloc: Global, dim: &DimDecl, field: &[u8]) -> Result<Value, AllocError>
    requires { dim.now.text ≡ true → IsUtf8 field.now }
    ensures { IfOk result (λ value. value ≡ dim_value dim.now field.now) }
{
    if dim.text {
        Ok(Value::Text(Text::new(alloc, text_of(field))?))
    } else {
        Ok(Value::Int(spelled_number(field).unwrap_or(0)))
    }
}

fn dim_values(alloc: Global, dims: &[DimDecl], read: &ByteRecord) -> Result<Values, AllocError>
    requires fields { length dims.now ≤ length (fields_of read.now) }
    requires texts { AreTexts dims.now (fields_of read.now) }
    ensures { IfOk result (λ values. values ≡ dim_values dims.now (fields_of read.now)) }
{
    let mut values = Values::new(alloc);
    'dims: for (i, dim) in dims.iter().enumerate() {
        values.push(dim_value(alloc, dim, field(read, i))?)?;
    }
    Ok(values)
}

/// The row of a record whose fields fit, with these metrics.
pub(crate) fn record_row(
    alloc: Global,
    dims: &[DimDecl],
    read: &ByteRecord,
    metrics: &[i64],
) -> Result<Row, AllocError>
    requires fields { length dims.now ≤ length (fields_of read.now) }
    requires texts { AreTexts dims.now (fields_of read.now) }
    ensures { IfOk result (λ row. row ≡ record {
      dims = dim_values dims.now (fields_of read.now);
      metrics = metrics.now;
    }) }
{
    Ok(Row {
        dims: dim_values(alloc, dims, read)?,
        metrics: Numbers::from_vec(Vec::from_slice(alloc, metrics)?),
    })
}
