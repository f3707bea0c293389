//! Rounds byte for byte, and bytes that are none.

mod bytes;
mod places;

use bytes::{ROUND, TWO_CUBES};
use cube_rounds::Round;
use cube_schema::{Schema, read_cubes};
use cube_values::{CallError, Entry, NameLists, Text, TextLists, Texts};
use places::PLACES;
use round_fields::digest_of;
use round_reading::{FormatFault, have_dims, read_round};
use round_text::write_round;
use std::alloc::{AllocError, Global};
use std::test::*;

/// The cube of the worked round.
const X: &str = "cube t\ndim x int 5 2\nmetric m\n";

/// The cube before the round of two cubes.
const A: &str = "cube a\ndim n text 3 1\nmetric m\n";

/// The cubes of a text.
fn cubes_of(alloc: Global, text: &str) -> Result<Vec<Schema>, AllocError> {
    match read_cubes(alloc, text.as_bytes()) {
        Ok(cubes) => Ok(cubes),
        Err(CallError::Fault(_)) => Ok(Vec::new(alloc)),
        Err(CallError::NoMemory) => Err(AllocError),
    }
}

/// A list of names for the one dimension of one cube: this name, or none.
fn names_of(alloc: Global, name: Option<&str>) -> Result<NameLists, AllocError> {
    let mut texts = Texts::new(alloc);
    if let Some(name) = name {
        texts.push(Text::new(alloc, name)?)?;
    }
    let mut lists = TextLists::new(alloc);
    lists.push(texts)?;
    let mut names = NameLists::new(alloc);
    names.push(lists)?;
    Ok(names)
}

/// What reading bytes as a round gives: its size, or the place of a broken rule, or 255 where the
/// digest is another.
fn found(
    alloc: Global,
    bytes: &[u8],
    cubes: &[Schema],
    names: &NameLists,
) -> Result<u64, AllocError> {
    if !have_dims(cubes, names) {
        return Ok(254);
    }
    match read_round(alloc, bytes, cubes, names) {
        Ok((_, size)) => Ok(size as u64),
        Err(CallError::Fault(FormatFault::BadText { at })) => Ok(at),
        Err(CallError::Fault(FormatFault::BadDigest { .. })) => Ok(255),
        Err(CallError::NoMemory) => Err(AllocError),
    }
}

/// Whether bytes are a round that is written as these very bytes again.
fn is_written(
    alloc: Global,
    bytes: &[u8],
    cubes: &[Schema],
    names: &NameLists,
) -> Result<bool, AllocError> {
    if !have_dims(cubes, names) {
        return Ok(false);
    }
    match read_round(alloc, bytes, cubes, names) {
        Ok((round, _)) => {
            let written = write_round(alloc, &round, cubes)?;
            Ok(written.as_slice() == bytes)
        }
        Err(CallError::Fault(_)) => Ok(false),
        Err(CallError::NoMemory) => Err(AllocError),
    }
}

/// Whether a round has one cube with one brick of this number, an entry and a row.
fn is_one_row(round: &Round, brick: u64, entry: Entry, coord: u32, metric: i64) -> bool {
    match round.cubes.as_slice() {
        [cube] => match cube.bricks.as_slice() {
            [found] => {
                let rows = found.rows();
                found.brick() == brick
                    && found.entries() == [entry].as_slice()
                    && rows.len() == 1
                    && rows.coords_of(0) == [coord].as_slice()
                    && rows.metrics_of(0) == [metric].as_slice()
            }
            _ => false,
        },
        _ => false,
    }
}

/// Whether the worked round is read as its row.
fn is_worked(alloc: Global, cubes: &[Schema], names: &NameLists) -> Result<bool, AllocError> {
    if !have_dims(cubes, names) {
        return Ok(false);
    }
    match read_round(alloc, ROUND, cubes, names) {
        Ok((round, size)) => Ok(
            size == 118
                && round.from == 0
                && round.epoch == 1
                && round.made.is_empty()
                && is_one_row(&round, 2, Entry::Run { epoch: 1, end: 1 }, 4, 7),
        ),
        Err(CallError::Fault(_)) => Ok(false),
        Err(CallError::NoMemory) => Err(AllocError),
    }
}

#[test]
fn one_row(rt: HostRuntime) -> Result<(), Fail> {
    let alloc = rt.alloc();
    let cubes = cubes_of(alloc, X)?;
    let names = names_of(alloc, None)?;
    assert!(rt; is_worked(alloc, cubes.as_slice(), &names)?);
    assert!(rt; is_written(alloc, ROUND, cubes.as_slice(), &names)?);
    Ok(())
}

#[test]
fn a_cube_made_by_a_session(rt: HostRuntime) -> Result<(), Fail> {
    let alloc = rt.alloc();
    let cubes = cubes_of(alloc, A)?;
    let names = names_of(alloc, Some("j"))?;
    assert!(rt; is_written(alloc, TWO_CUBES, cubes.as_slice(), &names)?);
    Ok(())
}

/// Bytes with another one at a place, and the right digest of what stands before it, where this has
/// `size` bytes.
fn turned(alloc: Global, round: &[u8], place: usize, size: usize) -> Result<Vec<u8>, AllocError> {
    let mut bytes = Vec::new(alloc);
    if size < round.len() && place < size {
        bytes.extend_from_slice(&round[..size])?;
        bytes[place] = bytes[place].wrapping_add(1);
        let digest = digest_of(bytes.as_slice());
        bytes.extend_from_slice(&digest)?;
        bytes.push(0)?;
    }
    Ok(bytes)
}

/// The first place whose turning gives another fault than the table says.
fn first_other(
    alloc: Global,
    cubes: &[Schema],
    names: &NameLists,
) -> Result<Option<usize>, AllocError> {
    for (i, place) in PLACES.iter().enumerate() {
        let bytes = turned(alloc, TWO_CUBES, i, 195)?;
        let at = found(alloc, bytes.as_slice(), cubes, names)?;
        let shown = if *place == 255 { 228 } else { *place };
        if at != shown {
            return Ok(Some(i));
        }
    }
    Ok(None)
}

#[test]
fn each_byte_turned(rt: HostRuntime) -> Result<(), Fail> {
    let alloc = rt.alloc();
    let cubes = cubes_of(alloc, A)?;
    let names = names_of(alloc, Some("j"))?;
    assert_eq!(rt; first_other(alloc, cubes.as_slice(), &names)?, None);
    Ok(())
}

/// The first cut of the worked round that is not refused at its first byte.
fn first_cut(
    alloc: Global,
    cubes: &[Schema],
    names: &NameLists,
) -> Result<Option<usize>, AllocError> {
    for end in 0..ROUND.len() {
        if found(alloc, &ROUND[..end], cubes, names)? != 0 {
            return Ok(Some(end));
        }
    }
    Ok(None)
}

#[test]
fn each_cut(rt: HostRuntime) -> Result<(), Fail> {
    let alloc = rt.alloc();
    let cubes = cubes_of(alloc, X)?;
    let names = names_of(alloc, None)?;
    assert_eq!(rt; first_cut(alloc, cubes.as_slice(), &names)?, None);
    Ok(())
}
