//! The records of bytes in memory, one after the other in one buffer.

ghost use Rattle.std.specs.Prelude.{◌≡◌, [], IfOk, OnErr};
ghost use Rattle.csv.specs.Records.{fields_of};
ghost use Rattle.csv_load.specs.FileRecords.{records_of};
ghost use Rattle.csv_load.specs.Sources.{TakesNext, gave_record};

use csv::{ByteRecord, Error, Reader, ReaderBuilder};
use std::alloc::{AllocError, Global};
use std::io::Cursor;
use std::marker::Model;

/// How many bytes of a record there is room for at first, and how many fields.
const RECORD_BYTES: usize = 8_192;

const RECORD_FIELDS: usize = 64;

/// A file's records. Contracts see the fields that were read last and the records that are left.
#[derive(Drop)]
pub struct Source {
    reader: Reader<Cursor<Vec<u8>>>,
    last: ByteRecord,
    /// Whether the reader may give more: neither the end came nor did memory run out.
    live: bool,
}

impl Model for Source {
    ghost use Rattle.std.specs.Prelude.{◌≡◌, true, [], Some, if◌then◌else◌};
    ghost use Rattle.std.specs.Io.Cursor.{cursor_remaining};
    ghost use Rattle.csv.specs.Reading.{reader_state, source_of};
    ghost use Rattle.csv.specs.Records.{fields_of};
    ghost use Rattle.csv_load.specs.Sources.{IsBetween, RecordSource, known_records, remaining_in};

    ghost Value = { RecordSource };

    ghost view = { λ s. record {
      fields = fields_of s.last;
      left =
          if s.live
          then known_records (reader_state s.reader) (source_of remaining_in s.reader)
          else [];
    } };

    ghost invariant = { λ s. s.live ≡ true → IsBetween remaining_in s.reader };
}

impl Source {
    /// The records of these bytes.
    pub fn new(alloc: Global, bytes: Vec<u8>) -> Result<Source, AllocError>
        ensures { IfOk result (λ s. s.left ≡ records_of bytes.items) }
    {
        let reader = ReaderBuilder::new()
            .has_headers(false)
            .flexible(true)
            .from_reader(alloc, Cursor::new(bytes));
        Ok(Source {
            reader,
            last: ByteRecord::with_capacity(alloc, RECORD_BYTES, RECORD_FIELDS)?,
            live: true,
        })
    }

    /// Reads the next record, if there is one. The error is out of memory, and after it there is no
    /// record left.
    pub fn read(&mut self) -> Result<bool, AllocError>
        ensures next { IfOk result (λ found. TakesNext self.old self.new found) }
        ensures lost { OnErr result (self.new.left ≡ []) }
    {
        if !self.live {
            return Ok(false);
        }
        let found = self.reader.read_byte_record(&mut self.last);
        self.live = gave_record(&found);
        match found {
            Ok(found) => Ok(found),
            Err(_) => Err(AllocError),
        }
    }

    /// The record that was read last.
    pub fn last(&self) -> &ByteRecord
        ensures { fields_of result.now ≡ self.now.fields }
    {
        &self.last
    }
}

fn gave_record(found: &Result<bool, Error>) -> bool
    ensures { result ≡ gave_record found.now }
{
    match found {
        Ok(found) => *found,
        Err(_) => false,
    }
}
