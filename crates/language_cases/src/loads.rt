//! Files with their records, worked out by hand.

mod files;

use crate::tables::{first_other, first_other_bytes};
use csv_load::{Loader, Record, Step};
use cube_schema::{Schema, read_cubes};
use cube_values::Value;
use files::{FEW_AND_MANY, LENT, POINTS, VISITS};
use std::alloc::{AllocError, Global};

/// The cube that a text declares.
fn schema_of(alloc: Global, text: &str) -> Result<Schema, AllocError> {
    match read_cubes(alloc, text.as_bytes()) {
        Ok(cubes) => cubes.into_iter().next().ok_or(AllocError),
        Err(_) => Err(AllocError),
    }
}

/// The values of a row, one after the other.
fn row_shown(alloc: Global, dims: &[Value], metrics: &[i64]) -> Result<String, AllocError> {
    let mut shown = String::new(alloc);
    for value in dims {
        match value {
            Value::Text(text) => shown.push_str(text.as_str())?,
            Value::Int(n) => shown.push_str(format!(in alloc; "{n}")?.as_str())?,
        }
        shown.push_str(" ")?;
    }
    for metric in metrics {
        shown.push_str(format!(in alloc; "{metric} ")?.as_str())?;
    }
    Ok(shown)
}

/// A record: a row by its values, and another by its reason.
fn record_shown(alloc: Global, record: &Record) -> Result<String, AllocError> {
    match record {
        Record::Good { number, row } => {
            let values = row_shown(alloc, row.dims.as_slice(), row.metrics.as_slice())?;
            format!(in alloc; "{number}: {values}")
        }
        Record::Bad { number, reason } => format!(in alloc; "{number} {reason} "),
        Record::End => Ok(String::new(alloc)),
    }
}

/// The next record of a load.
fn next_shown(alloc: Global, loader: &mut Loader) -> Result<String, AllocError> {
    let record = loader.next()?;
    record_shown(alloc, &record)
}

/// What so many calls tell of a load.
fn calls_shown(alloc: Global, loader: &mut Loader, calls: u32) -> Result<String, AllocError> {
    let mut shown = String::new(alloc);
    for _call in 0..calls {
        let record = next_shown(alloc, loader)?;
        shown.push_str(record.as_str())?;
    }
    Ok(shown)
}

/// What a hundred calls tell of a file, which has fewer records.
fn shown(alloc: Global, cube: &str, file: &[u8]) -> Result<String, AllocError> {
    let schema = schema_of(alloc, cube)?;
    let mut loader = Loader::new(alloc, Vec::from_slice(alloc, file)?, &schema)?;
    calls_shown(alloc, &mut loader, 100)
}

fn visits_shown(alloc: Global, file: &[u8]) -> Result<String, AllocError> {
    shown(
        alloc,
        "cube visits\ndim region text 4 2\ndim gender text 4 1\nmetric likes\nmetric comments\n",
        file,
    )
}

fn points_shown(alloc: Global, file: &[u8]) -> Result<String, AllocError> {
    shown(alloc, "cube t\ndim x int 5 2\nmetric m\n", file)
}

/// The same of a file behind the text of its cube.
fn shown_of_both(alloc: Global, both: &str) -> Result<String, AllocError> {
    match both.split_once(';') {
        Some((cube, file)) => shown(alloc, cube, file.as_bytes()),
        None => String::from_str(alloc, "no file"),
    }
}

#[test]
fn files_of_visits(rt: HostRuntime) {
    assert_eq!(rt;
        first_other_bytes(rt.alloc(), VISITS, visits_shown),
        Ok(None)
    );
}

#[test]
fn files_of_points(rt: HostRuntime) {
    assert_eq!(rt;
        first_other_bytes(rt.alloc(), POINTS, points_shown),
        Ok(None)
    );
}

#[test]
fn few_and_many_dimensions(rt: HostRuntime) {
    assert_eq!(rt;
        first_other(rt.alloc(), FEW_AND_MANY, shown_of_both),
        Ok(None)
    );
}

/// What the loader lends of the first record of a file, where it is a row of two dimensions, a text and
/// a number.
#[tactic(auto, using(crate::proofs::LoadTexts::text_at))]
fn lent(alloc: Global, schema: &Schema, file: &[u8]) -> Result<String, AllocError> {
    let mut loader = Loader::new(alloc, Vec::from_slice(alloc, file)?, schema)?;
    match (loader.step()?, schema.decl().dims.as_slice()) {
        (Step::Good, [first, _]) if first.text => {
            let row = row_shown(alloc, &[], loader.metrics())?;
            format!(in alloc;
                "{} {} {} {row}",
                loader.number(),
                loader.text(0),
                loader.coord(1)
            )
        }
        _ => Ok(String::new(alloc)),
    }
}

fn lent_shown(alloc: Global, file: &[u8]) -> Result<String, AllocError> {
    let schema = schema_of(
        alloc,
        "cube v\ndim region text 4 2\ndim day int 365 31\nmetric m\n",
    )?;
    lent(alloc, &schema, file)
}

#[test]
fn a_row_is_lent(rt: HostRuntime) {
    assert_eq!(rt; first_other_bytes(rt.alloc(), LENT, lent_shown), Ok(None));
}
