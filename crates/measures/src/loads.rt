//! Reading the records of a file that the generator made, alone and with every check of a load.

ghost use Rattle.std.specs.Prelude.{◌≡◌, ◌+◌, ◌%◌, ◌^◌, [], IfOk, IfNone, IfSome, if◌then◌else◌};
ghost use Rattle.measures.specs.Loads.{TakesRow, records_sum, rows_sum};

use csv_load::{Loader, Source, Step};
use cube_gen::{cubes_text, part};
use cube_schema::read_cubes;
use std::alloc::{AllocError, Global};
use timed_work::Work;

/// A file of so many records: a quarter of the rows that the generator makes.
fn file_of(alloc: Global, items: u32) -> Result<Vec<u8>, AllocError> {
    part(alloc, u64::from(items) * 4, 1)
}

/// A file whose records are read.
#[derive(Drop)]
pub(crate) struct Records {
    source: Source,
}

impl Work for Records {
    fn prepared(alloc: Global, items: u32) -> Result<Records, AllocError> {
        Ok(Records {
            source: Source::new(alloc, file_of(alloc, items)?)?,
        })
    }

    /// The checksum is the number of records.
    fn work(&mut self, _alloc: Global) -> Result<u64, AllocError>
        ensures { IfOk result (λ sum. sum ≡ records_sum self.old.source.left) }
    {
        count_records(&mut self.source)
    }
}

/// How many records a source has left.
#[tactic(auto, using(crate::proofs::RecordCounts::counted_one, crate::proofs::RecordCounts::counted_all))]
fn count_records(source: &mut Source) -> Result<u64, AllocError>
    ensures { IfOk result (λ sum. sum ≡ records_sum source.old.left) }
{
    let mut records = 0u64;
    'records: while source.read()? {
        records = records.wrapping_add(1);
    }
    Ok(records)
}

/// A file whose records are read and checked.
#[derive(Drop)]
pub(crate) struct LoadStep {
    loader: Loader,
}

/// Whether the next record is a row, where there is one.
fn next_is_row(loader: &mut Loader) -> Result<Option<bool>, AllocError>
    ensures none { IfOk result (λ found. IfNone found (loader.old.left ≡ [])) }
    ensures some { IfOk result (λ found. IfSome found (TakesRow loader.old loader.new)) }
{
    match loader.step()? {
        Step::Good => Ok(Some(true)),
        Step::Bad(_) => Ok(Some(false)),
        Step::End => Ok(None),
    }
}

/// A count with one more, where it is a row.
fn counted(rows: u64, is_row: bool) -> u64
    ensures { result ≡ (rows + (if is_row then 1 else 0)) % 2 ^ 64 }
{
    if is_row { rows.wrapping_add(1) } else { rows }
}

/// How many of the records that a load has left are rows.
#[tactic(auto, using(crate::proofs::RecordCounts::row_counted))]
fn count_rows(loader: &mut Loader) -> Result<u64, AllocError>
    ensures { IfOk result (λ sum. sum ≡ rows_sum loader.old.decl loader.old.left) }
{
    let mut rows = 0u64;
    'rows: while let Some(is_row) = next_is_row(loader)? {
        rows = counted(rows, is_row);
    }
    Ok(rows)
}

impl Work for LoadStep {
    fn prepared(alloc: Global, items: u32) -> Result<LoadStep, AllocError> {
        // The generator's text declares one cube, so only memory can be wanted here.
        let Ok(cubes) = read_cubes(alloc, cubes_text().as_bytes()) else {
            return Err(AllocError);
        };
        let [visits] = cubes.as_slice() else {
            return Err(AllocError);
        };
        Ok(LoadStep {
            loader: Loader::new(alloc, file_of(alloc, items)?, visits)?,
        })
    }

    /// The checksum is the number of records that are rows.
    fn work(&mut self, _alloc: Global) -> Result<u64, AllocError>
        ensures { IfOk result (λ sum. sum ≡ rows_sum self.old.loader.decl self.old.loader.left) }
    {
        count_rows(&mut self.loader)
    }
}
