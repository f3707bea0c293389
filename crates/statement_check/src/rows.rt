//! The rows of an INSERT: the first that cannot be stored.

ghost use Rattle.std.specs.Prelude.{◌≡◌, ◌==◌, map, length, IfOk};
ghost use Rattle.std.specs.Option.{option_map};
ghost use Rattle.cube_language.specs.Columns.{columns_of};
ghost use Rattle.cube_language.specs.RowFaults.{text_reason, coord_reason, dim_reason, value_reason, column_fault, row_fault, first_bad_row};
ghost use Rattle.cube_language.specs.declared.decl.Column.TheVariants.{Metric};
ghost use Rattle.statement_check.specs.ColumnFaults.{column_found, row_found};

use cube_language::{BadRow, Decl, DimDecl, Reason, TEXT_BYTES};
use cube_values::{Text, Value, Values};
use std::alloc::AllocError;

/// The first bad row of an INSERT.
#[derive(Drop)]
pub(crate) struct FirstBadRow {
    /// Its number, counted from 1.
    pub row: u64,
    pub why: BadRow,
}

/// The first column of a row that its value does not fit.
#[derive(Drop)]
struct ColumnFault<'a> {
    name: &'a Text,
    reason: Reason,
}

fn text_reason(text: &Text) -> Option<Reason>
    ensures { result ≡ text_reason text.now }
{
    if text.len() > TEXT_BYTES {
        Some(Reason::TooLong)
    } else {
        None
    }
}

fn coord_reason(cardinality: u32, n: i64) -> Option<Reason>
    ensures { result ≡ coord_reason cardinality n }
{
    if 0 <= n && n < i64::from(cardinality) {
        None
    } else {
        Some(Reason::OutOfRange)
    }
}

/// Why a value does not fit a dimension.
fn dim_reason(dim: &DimDecl, value: &Value) -> Option<Reason>
    ensures { result ≡ dim_reason dim.now value.now }
{
    match value {
        Value::Text(text) => {
            if dim.text {
                text_reason(text)
            } else {
                Some(Reason::NotNumber)
            }
        }
        Value::Int(n) => {
            if dim.text {
                Some(Reason::NotText)
            } else {
                coord_reason(dim.cardinality, *n)
            }
        }
    }
}

fn metric_reason(name: &Text, value: &Value) -> Option<Reason>
    ensures { result ≡ value_reason (Metric name.now) value.now }
{
    match value {
        Value::Int(_) => None,
        Value::Text(_) => Some(Reason::NotNumber),
    }
}

/// The first of metrics that its value does not fit.
fn metric_fault<'a>(metrics: &'a [Text], values: &[Value]) -> Option<ColumnFault<'a>>
    ensures { option_map column_found result ≡ column_fault (map Metric metrics.now) values.now }
{
    let mut columns_left = metrics;
    let mut values_left = values;
    'metrics: while let [name, columns_rest @ ..] = columns_left {
        let [value, values_rest @ ..] = values_left else {
            return None;
        };
        if let Some(reason) = metric_reason(name, value) {
            return Some(ColumnFault { name, reason });
        }
        columns_left = columns_rest;
        values_left = values_rest;
    }
    None
}

/// The first of the columns that its value does not fit.
fn column_fault<'a>(decl: &'a Decl, values: &[Value]) -> Option<ColumnFault<'a>>
    ensures { option_map column_found result ≡ column_fault (columns_of decl.now) values.now }
{
    let mut columns_left = decl.dims.as_slice();
    let mut values_left = values;
    'dims: while let [dim, columns_rest @ ..] = columns_left {
        let [value, values_rest @ ..] = values_left else {
            return None;
        };
        if let Some(reason) = dim_reason(dim, value) {
            return Some(ColumnFault {
                name: &dim.name,
                reason,
            });
        }
        columns_left = columns_rest;
        values_left = values_rest;
    }
    metric_fault(decl.metrics.as_slice(), values_left)
}

/// Whether there is a value for each column.
fn has_each(decl: &Decl, values: &[Value]) -> bool
    ensures { result ≡ (length values.now == length (columns_of decl.now)) }
{
    values.len().checked_sub(decl.dims.len()) == Some(decl.metrics.len())
}

/// Why a row cannot be stored.
fn row_fault(decl: &Decl, values: &[Value]) -> Result<Option<BadRow>, AllocError>
    ensures { IfOk result (λ why. why ≡ row_fault decl.now values.now) }
{
    if !has_each(decl, values) {
        return Ok(Some(BadRow::WrongCount {
            values: values.len() as u64,
        }));
    }
    match column_fault(decl, values) {
        Some(fault) => Ok(Some(BadRow::Column {
            name: fault.name.copy()?,
            reason: fault.reason,
        })),
        None => Ok(None),
    }
}

/// The first row that cannot be stored.
pub(crate) fn first_bad_row(decl: &Decl, rows: &[Values]) -> Result<Option<FirstBadRow>, AllocError>
    ensures { IfOk result (λ found. option_map row_found found ≡ first_bad_row decl.now rows.now) }
{
    let mut row = 1;
    let mut left = rows;
    'rows: while let [values, rest @ ..] = left {
        if let Some(why) = row_fault(decl, values.as_slice())? {
            return Ok(Some(FirstBadRow { row, why }));
        }
        row += 1;
        left = rest;
    }
    Ok(None)
}
