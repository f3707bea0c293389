//! A round written and read, and its bytes digested.

ghost use Rattle.std.specs.Prelude.{◌≡◌, ◌+◌, List, length, slice_index, IfOk, IfSome, IfNone};
ghost use Rattle.cube_rounds.specs.Bytes.{round_bytes};
ghost use Rattle.cube_language.specs.declared.decl.Decl.{Decl};
ghost use Rattle.cube_rounds.specs.declared.round.Round.{Round as ARound};
ghost use Rattle.cube_rounds.specs.Demands.{BeginsWithRound};
ghost use Rattle.measured_rows.specs.Rounds.{IsRoundSize, round_size_found};
ghost use Rattle.sha2.specs.Sha256.{sha256};

use crate::round_made::{round_front, round_of};
use cube_gen::cubes_text;
use cube_rounds::Round;
use cube_schema::{Schema, read_cubes};
use cube_values::{CallError, NameLists};
use round_fields::digest_of;
use round_reading::{have_dims, no_names_of, read_round};
use round_text::write_round;
use std::alloc::{AllocError, Global};
use std::io;
use std::time::{Clock, Instant};
use timed_work::{Measured, Work, measured_since};

/// The generator's cube. Its text declares it, so only memory can be wanted here.
fn cubes(alloc: Global) -> Result<Vec<Schema>, AllocError> {
    read_cubes(alloc, cubes_text().as_bytes()).map_err(|_| AllocError)
}

/// The bytes of a round of so many rows, without the digest and the gate.
#[derive(Drop)]
pub struct Digest {
    bytes: Vec<u8>,
}

impl Work for Digest {
    fn prepared(alloc: Global, items: u32) -> Result<Digest, AllocError> {
        Ok(Digest {
            bytes: round_front(alloc, items)?,
        })
    }

    /// The checksum is the first byte of the digest.
    fn work(&mut self, _alloc: Global) -> Result<u64, AllocError>
        ensures { IfOk result (λ sum. sum ≡ slice_index (sha256 self.old.bytes.items) 0) }
    {
        Ok(u64::from(digest_of(self.bytes.as_slice())[0]))
    }
}

/// The round at the front of bytes, and how many bytes it has, where one is there.
fn round_in(
    alloc: Global,
    bytes: &[u8],
    cubes: &[Schema],
    names: &NameLists,
) -> Result<Option<(Round, usize)>, AllocError>
    ensures found { IfOk result (λ found. IfSome found (λ x.
        BeginsWithRound sha256 cubes.now names.now x.0 bytes.now
        × (x.1 ≡ length (round_bytes sha256 cubes.now x.0) + 1))) }
    ensures none { IfOk result (λ found. IfNone found ((round : ARound)
        → BeginsWithRound sha256 cubes.now names.now round bytes.now → ⊥)) }
{
    if !have_dims(cubes, names) {
        return Ok(None);
    }
    match read_round(alloc, bytes, cubes, names) {
        Ok(found) => Ok(Some(found)),
        Err(CallError::Fault(_)) => Ok(None),
        Err(CallError::NoMemory) => Err(AllocError),
    }
}

/// How many bytes a round has that was found, 0 where none was.
fn round_size_found(found: &Option<(Round, usize)>) -> u64
    ensures { result ≡ round_size_found found.now }
{
    match found {
        Some((_, size)) => *size as u64,
        None => 0,
    }
}

/// The bytes of a round, with the cubes and the names that it stands behind.
#[derive(Drop)]
pub struct ReadRound {
    bytes: Vec<u8>,
    cubes: Vec<Schema>,
    names: NameLists,
}

impl Work for ReadRound {
    fn prepared(alloc: Global, items: u32) -> Result<ReadRound, AllocError> {
        let cubes = cubes(alloc)?;
        let names = no_names_of(alloc, cubes.as_slice())?;
        Ok(ReadRound {
            bytes: round_of(alloc, items)?,
            cubes,
            names,
        })
    }

    /// The checksum is the number of bytes that the round has, 0 where there is none.
    fn work(&mut self, alloc: Global) -> Result<u64, AllocError>
        ensures { IfOk result (λ sum.
            IsRoundSize self.old.cubes.items self.old.names self.old.bytes.items sum) }
    {
        let cubes = self.cubes.as_slice();
        let found = round_in(alloc, self.bytes.as_slice(), cubes, &self.names)?;
        Ok(round_size_found(&found))
    }
}

/// The time that it takes to write a round of so many rows. The checksum is the number of bytes that are written.
/// The errors are those of the clock, and want of memory.
pub fn measure_write<R: Clock>(clock: &R, alloc: Global, items: u32) -> io::Result<Measured>
    ensures { IfOk result (λ measured. (cubes : List Decl) × (round : ARound)
        × (measured.checksum ≡ length (round_bytes sha256 cubes round) + 1)) }
{
    let data = ReadRound::prepared(alloc, items)?;
    let bytes = data.bytes.as_slice();
    // The bytes are those of a round, so only memory can be wanted here.
    let Some((round, _)) = round_in(alloc, bytes, data.cubes.as_slice(), &data.names)? else {
        return Err(io::Error::from(AllocError));
    };
    let start = Instant::now(clock)?;
    let written = write_round(alloc, &round, data.cubes.as_slice())?;
    measured_since(clock, start, written.len() as u64)
}
