//! The records of a file as rows of a cube, one after the other.

ghost use Rattle.std.specs.Prelude.{◌≡◌, ◌<◌, [], length, get_or, IsUtf8, IfOk, OnErr};
ghost use Rattle.csv_load.specs.Loads.{BeginsLoad, IsNextRecord, IsLoadStep};

use crate::judge::{field, judge};
use crate::row::record_row;
use crate::source::Source;
use crate::step::{Record, Step};
use cube_language::{Decl, text_of};
use cube_schema::Schema;
use std::alloc::{AllocError, Global};
use std::marker::Model;

/// A load of a file into a cube. It keeps one record, and what is told of it is lent.
#[derive(Drop)]
pub struct Loader {
    alloc: Global,
    source: Source,
    decl: Decl,
    coords: Vec<u32>,
    metrics: Vec<i64>,
    number: u64,
}

impl Model for Loader {
    ghost use Rattle.std.specs.Prelude.{◌<◌, ◌+◌, ◌^◌, length};
    ghost use Rattle.csv_load.specs.Loads.{LoadState};

    ghost Value = { LoadState };

    ghost view = { λ l. record {
      decl = l.decl;
      number = l.number;
      fields = l.source.fields;
      coords = l.coords.items;
      metrics = l.metrics.items;
      left = l.source.left;
    } };

    ghost invariant = { λ l. l.number + length l.source.left < 2 ^ 64 };
}

fn copy_decl(decl: &Decl) -> Result<Decl, AllocError>
    ensures { IfOk result (λ d. d ≡ decl.now) }
{
    decl.clone()
}

impl Loader {
    /// A load of a file of these bytes at its beginning.
    #[tactic(auto, using(crate::proofs::Counts::few_records))]
    pub fn new(alloc: Global, bytes: Vec<u8>, schema: &Schema) -> Result<Loader, AllocError>
        ensures { IfOk result (λ load. BeginsLoad load schema.now bytes.items) }
    {
        let decl = schema.decl();
        Ok(Loader {
            alloc,
            source: Source::new(alloc, bytes)?,
            decl: copy_decl(decl)?,
            coords: Vec::with_capacity(alloc, decl.dims.len())?,
            metrics: Vec::with_capacity(alloc, decl.metrics.len())?,
            number: 0,
        })
    }

    /// Reads the next record and says whether it is a row. The error is out of memory, and after it
    /// the load is to be dropped.
    pub fn step(&mut self) -> Result<Step, AllocError>
        ensures { IfOk result (λ answer. IsLoadStep self.old self.new answer) }
    {
        if !self.source.read()? {
            return Ok(Step::End);
        }
        self.number += 1;
        judge(
            &self.decl,
            self.source.last(),
            &mut self.coords,
            &mut self.metrics,
        )
    }

    /// The next record as a value of its own, with its number. The error is that of `step`.
    pub fn next(&mut self) -> Result<Record, AllocError>
        ensures { IfOk result (λ answer. IsNextRecord self.old self.new answer) }
    {
        match self.step()? {
            Step::Good => Ok(Record::Good {
                number: self.number,
                row: record_row(
                    self.alloc,
                    self.decl.dims.as_slice(),
                    self.source.last(),
                    self.metrics.as_slice(),
                )?,
            }),
            Step::Bad(reason) => Ok(Record::Bad {
                number: self.number,
                reason,
            }),
            Step::End => Ok(Record::End),
        }
    }

    /// How many records were read.
    pub fn number(&self) -> u64
        ensures { result ≡ self.now.number }
    {
        self.number
    }

    /// The text of a dimension in the record that was read last.
    pub fn text(&self, dim: usize) -> &str
        requires there { dim < length self.now.fields }
        requires text { IsUtf8 (get_or self.now.fields dim []) }
        ensures { result.now ≡ get_or self.now.fields dim [] }
    {
        text_of(field(self.source.last(), dim))
    }

    /// The coordinate of a dimension of numbers in the row that was read last.
    pub fn coord(&self, dim: usize) -> u32
        requires { dim < length self.now.coords }
        ensures { result ≡ get_or self.now.coords dim 0 }
    {
        self.coords[dim]
    }

    /// The metrics of the row that was read last.
    pub fn metrics(&self) -> &[i64]
        ensures { result.now ≡ self.now.metrics }
    {
        self.metrics.as_slice()
    }
}
