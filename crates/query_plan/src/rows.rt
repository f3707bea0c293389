//! The rows of an INSERT.

ghost use Rattle.std.specs.Prelude.{◌≡◌, map, IfOk};
ghost use Rattle.cube_run.specs.LoadedRows.{metric_value, row_of_values};

use cube_language::Decl;
use cube_values::{Numbers, Row, Rows, Value, Values};
use std::alloc::{AllocError, Global};

/// A metric's value.
fn metric_value(value: &Value) -> i64
    ensures { result ≡ metric_value value.now }
{
    match value {
        Value::Int(n) => *n,
        Value::Text(_) => 0,
    }
}

fn copy_all(alloc: Global, values: &[Value]) -> Result<Values, AllocError>
    ensures { IfOk result (λ copied. copied ≡ values.now) }
{
    let mut copied = Vec::new(alloc);
    let mut left = values;
    'values: while let [value, rest @ ..] = left {
        copied.push(value.copy()?)?;
        left = rest;
    }
    Ok(Values::from_vec(copied))
}

fn metric_values(alloc: Global, values: &[Value]) -> Result<Vec<i64>, AllocError>
    ensures { IfOk result (λ metrics. metrics.items ≡ map metric_value values.now) }
{
    values.iter().map(metric_value).collect(alloc)
}

/// The row of values, dimensions first.
fn row_of_values(alloc: Global, decl: &Decl, values: &[Value]) -> Result<Row, AllocError>
    ensures { IfOk result (λ row. row ≡ row_of_values decl.now values.now) }
{
    let most = decl.dims.len();
    if values.len() < most {
        return Ok(Row {
            dims: copy_all(alloc, values)?,
            metrics: Numbers::new(alloc),
        });
    }
    let (dims, metrics) = values.split_at(most);
    Ok(Row {
        dims: copy_all(alloc, dims)?,
        metrics: Numbers::from_vec(metric_values(alloc, metrics)?),
    })
}

/// The rows of lists of values.
pub fn rows_of_values(alloc: Global, decl: &Decl, tuples: &[Values]) -> Result<Rows, AllocError>
    ensures { IfOk result (λ rows. rows ≡ map (row_of_values decl.now) tuples.now) }
{
    let mut rows = Vec::new(alloc);
    let mut left = tuples;
    'tuples: while let [values, rest @ ..] = left {
        rows.push(row_of_values(alloc, decl, values.as_slice())?)?;
        left = rest;
    }
    Ok(Rows::from_vec(rows))
}
