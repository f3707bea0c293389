//! The records of a file as rows by coordinates, one batch after the other.

ghost use Rattle.std.specs.Prelude.{◌≡◌, ◌+◌, ◌-◌, ◌≤◌, ◌<◌, List, ◌++◌, [], ◌∷◌, length, All, IfOk, OnOk, OnErr};
ghost use Rattle.cube_journal.specs.declared.reply.Rejection.{Rejection};
ghost use Rattle.agg_fold.specs.Coded.{coded_row};
ghost use Rattle.row_encoding.specs.FinalCodes.{InTheEnd, Grow};
ghost use Rattle.row_encoding.specs.CodedInserts.{HasCoords, HasNumbers};
ghost use Rattle.row_encoding.specs.CodedLoads.{IsTaken, IsFoundRecord, rows_then, LoadGoesOn, Tell, TakesBatch, BatchHasEnded, HaveTextAmong, HaveTextLookedAt, HaveTextNext};

use crate::encoder::Encoder;
use crate::records::encode_record;
use csv_load::{Loader, Step};
use cube_journal::{Rejection, Rejections};
use cube_language::BadRow;
use cube_schema::Schema;
use cube_values::CodedRows;
use std::alloc::{AllocError, Global};

/// How many rows a batch of a LOAD has at most.
pub const BATCH_ROWS: usize = 4_096;

/// How many bad records of a LOAD are shown at most.
const SHOWN_REJECTIONS: usize = 100;

/// The bad records of a LOAD: how many there are, and the first hundred of them.
#[derive(Debug, Drop)]
pub struct BadRecords {
    pub count: u64,
    pub first: Rejections,
}

/// What a record of a file turned out to be.
#[derive(Debug, Drop)]
pub(crate) enum RecordOutcome {
    /// A row, which the batch now has.
    Row,
    Bad(BadRow),
    /// There was no record left.
    End,
}

/// How a batch of a LOAD ended.
#[derive(Clone, Copy, Debug, PartialEq, Eq)]
pub enum BatchEnd {
    /// It has as many rows as it may have, and there may be more records.
    Full,
    /// No record is left.
    End,
    /// It came to one bad record more than are allowed, and took none behind that.
    TooMany,
}

impl BadRecords {
    /// No bad record.
    pub fn none(alloc: Global) -> BadRecords
        ensures { Tell result [] }
    {
        BadRecords {
            count: 0,
            first: Rejections::new(alloc),
        }
    }

    /// Counts a bad record, and keeps it if it is among the first hundred.
    fn add(&mut self, number: u64, why: BadRow) -> Result<(), AllocError>
        requires { self.old.count < number }
        ensures count { self.new.count ≡ self.old.count + 1 }
        ensures told { OnOk result ((all : List Rejection) → Tell self.old all
            → Tell self.new (all ++ record { number = number; why = why } ∷ [])) }
    {
        self.count += 1;
        if self.first.len() < SHOWN_REJECTIONS {
            self.first.push(Rejection { number, why })?;
        }
        Ok(())
    }
}

/// Takes the next record of a file and puts it into a batch, if it is a row, where there is room.
fn load_record<E: Encoder>(
    encoder: &mut E,
    place: u32,
    cube: &Schema,
    load: &mut Loader,
    coords: &mut Vec<u32>,
    batch: &mut CodedRows,
) -> Result<RecordOutcome, AllocError>
    requires suits { E.suits encoder.old place cube.now }
    requires cube { load.old.decl ≡ cube.now }
    requires room { length batch.old.rows < batch.old.room }
    requires dims { batch.old.dims ≡ length cube.now.dims }
    requires width { batch.old.width ≡ length cube.now.metrics }
    ensures taken { IfOk result (IsTaken load.old load.new) }
    ensures found { IfOk result (λ found. InTheEnd (E.may_end encoder.new) place (λ lists.
        IsFoundRecord cube.now lists load.new.fields
        (coded_row coords.new.items load.new.metrics) found)) }
    ensures rows { IfOk result (λ found. batch.new ≡ record batch.old {
      rows =
          rows_then batch.old.rows (coded_row coords.new.items load.new.metrics) found;
    }) }
    ensures inside { IfOk result (λ found.
        All (HasCoords cube.now) batch.old.rows → All (HasCoords cube.now) batch.new.rows) }
    ensures numbers { OnOk result (All (HasNumbers (E.has_given encoder.old place) cube.now)
        batch.old.rows → All (HasNumbers (E.has_given encoder.new place) cube.now) batch.new.rows) }
    ensures grow { Grow E.may_end E.suits E.has_name E.keeps place cube.now
        (HaveTextNext cube.now load.old) encoder.old encoder.new }
    ensures given { OnOk result (Grow E.may_end E.suits E.has_name E.keeps place cube.now
        (HaveTextAmong cube.now load.old load.new) encoder.old encoder.new) }
{
    match load.step()? {
        Step::End => Ok(RecordOutcome::End),
        Step::Bad(why) => Ok(RecordOutcome::Bad(why)),
        Step::Good => match encode_record(encoder, place, cube, load, coords, batch)? {
            None => Ok(RecordOutcome::Row),
            Some(why) => Ok(RecordOutcome::Bad(why)),
        },
    }
}

/// Leaves the next rows of a file in a batch of their cube, at most 4,096, and gives their texts to
/// the dictionaries, record by record and then from left to right. Bad records are added to `bad`.
/// It ends with as many rows, where no record is left, and at the first bad record that is one more
/// than are allowed. The error is out of memory, and after it the load is to be dropped.
pub fn load_rows<E: Encoder>(
    alloc: Global,
    encoder: &mut E,
    place: u32,
    cube: &Schema,
    load: &mut Loader,
    allowed: u64,
    bad: &mut BadRecords,
    batch: &mut CodedRows,
) -> Result<BatchEnd, AllocError>
    requires suits { E.suits encoder.old place cube.now }
    requires cube { load.old.decl ≡ cube.now }
    requires few { bad.old.count ≤ allowed }
    requires counted { bad.old.count ≤ load.old.number }
    requires dims { batch.old.dims ≡ length cube.now.dims }
    requires width { batch.old.width ≡ length cube.now.metrics }
    ensures goes_on { OnOk result (LoadGoesOn load.old load.new) }
    ensures batch { IfOk result (λ ended. InTheEnd (E.may_end encoder.new) place (λ lists.
        TakesBatch cube.now lists allowed load.old load.new bad.old bad.new batch.new.rows ended)) }
    ensures ended { IfOk result (BatchHasEnded allowed load.new bad.new batch.new.rows) }
    ensures inside { OnOk result (All (HasCoords cube.now) batch.new.rows) }
    ensures numbers { OnOk result
        (All (HasNumbers (E.has_given encoder.new place) cube.now) batch.new.rows) }
    ensures grow { Grow E.may_end E.suits E.has_name E.keeps place cube.now
        (HaveTextLookedAt (E.may_end encoder.new) place cube.now (allowed - bad.old.count) load.old)
        encoder.old encoder.new }
    ensures given { OnOk result (Grow E.may_end E.suits E.has_name E.keeps place cube.now
        (HaveTextAmong cube.now load.old load.new) encoder.old encoder.new) }
    ensures counted { OnOk result (bad.new.count ≤ load.new.number) }
    ensures dims { OnOk result (batch.new.dims ≡ batch.old.dims) }
    ensures width { OnOk result (batch.new.width ≡ batch.old.width) }
{
    batch.clear();
    batch.reserve(BATCH_ROWS)?;
    let mut coords = Vec::with_capacity(alloc, cube.decl().dims.len())?;
    'records: while batch.len() < BATCH_ROWS {
        match load_record(encoder, place, cube, load, &mut coords, batch)? {
            RecordOutcome::Row => {}
            RecordOutcome::Bad(why) => {
                bad.add(load.number(), why)?;
                if bad.count > allowed {
                    return Ok(BatchEnd::TooMany);
                }
            }
            RecordOutcome::End => return Ok(BatchEnd::End),
        }
    }
    Ok(BatchEnd::Full)
}
