//! Rounds that break a rule in the middle of their payload, each beside one that just keeps it. The places are worked
//! out by hand: a payload begins at 24, and a number has 8 bytes.

mod cases;
mod fields;

use cases::CASES;
use cube_schema::{Schema, read_cubes};
use cube_values::{CallError, NameLists, Text, TextLists, Texts};
use fields::{Field, put};
use round_fields::digest_of;
use round_reading::{FormatFault, have_dims, read_round};
use std::alloc::{AllocError, Global};
use std::test::*;

/// What the bytes of a round give.
#[derive(Clone, Copy, Debug, PartialEq, Eq)]
pub enum Found {
    /// A round of so many bytes.
    Round(usize),
    /// A fault at a place.
    Fault(u64),
    /// Another digest, or lists of names that are not those of the cubes.
    Other,
}

/// The cube before a round, with its first names, the epochs of the round, its payload, and what reading gives.
pub struct Case {
    pub cube: &'static str,
    pub names: &'static [&'static str],
    pub from: u64,
    pub epoch: u64,
    pub payload: &'static [Field],
    pub found: Found,
}

/// The names of the one dimension of one cube.
fn names_of(alloc: Global, names: &[&str]) -> Result<NameLists, AllocError> {
    let mut texts = Texts::new(alloc);
    for name in names {
        texts.push(Text::new(alloc, name)?)?;
    }
    let mut lists = TextLists::new(alloc);
    lists.push(texts)?;
    let mut all = NameLists::new(alloc);
    all.push(lists)?;
    Ok(all)
}

/// The bytes of a round with the right length and digest, and a gate that is shut.
fn bytes_of(alloc: Global, case: &Case) -> Result<Vec<u8>, AllocError> {
    let mut payload = Vec::new(alloc);
    for field in case.payload {
        put(&mut payload, field)?;
    }
    let mut bytes = Vec::new(alloc);
    bytes.extend_from_slice(&case.epoch.to_le_bytes())?;
    bytes.extend_from_slice(&case.from.to_le_bytes())?;
    bytes.extend_from_slice(&(payload.len() as u64).to_le_bytes())?;
    bytes.extend_from_slice(payload.as_slice())?;
    let digest = digest_of(bytes.as_slice());
    bytes.extend_from_slice(&digest)?;
    bytes.push(0)?;
    Ok(bytes)
}

fn outcome_of(
    alloc: Global,
    bytes: &[u8],
    cubes: &[Schema],
    names: &NameLists,
) -> Result<Found, AllocError> {
    if !have_dims(cubes, names) {
        return Ok(Found::Other);
    }
    match read_round(alloc, bytes, cubes, names) {
        Ok((_, size)) => Ok(Found::Round(size)),
        Err(CallError::Fault(FormatFault::BadText { at })) => Ok(Found::Fault(at)),
        Err(CallError::Fault(FormatFault::BadDigest { .. })) => Ok(Found::Other),
        Err(CallError::NoMemory) => Err(AllocError),
    }
}

/// What reading the round of a case gives.
fn outcome_in(alloc: Global, case: &Case) -> Result<Found, AllocError> {
    let bytes = bytes_of(alloc, case)?;
    let names = names_of(alloc, case.names)?;
    match read_cubes(alloc, case.cube.as_bytes()) {
        Ok(cubes) => outcome_of(alloc, bytes.as_slice(), cubes.as_slice(), &names),
        Err(CallError::Fault(_)) => Ok(Found::Other),
        Err(CallError::NoMemory) => Err(AllocError),
    }
}

/// The first case that gives something else than the table says.
fn first_other(alloc: Global) -> Result<Option<(usize, Found)>, AllocError> {
    for (i, case) in CASES.iter().enumerate() {
        let found = outcome_in(alloc, case)?;
        if found != case.found {
            return Ok(Some((i, found)));
        }
    }
    Ok(None)
}

#[test]
fn rules_of_the_payload(rt: HostRuntime) -> Result<(), Fail> {
    assert_eq!(rt; first_other(rt.alloc())?, None);
    Ok(())
}
