//! Headers byte for byte, and bytes that are none.

mod bytes;

use bytes::{HEADER_1, HEADER_2};
use cube_values::CallError;
use round_fields::digest_of;
use round_text::{FormatFault, read_header, write_header};
use std::alloc::{AllocError, Global};
use std::test::*;

/// The cube of the worked header.
const X: &str = "cube t\ndim x int 5 2\nmetric m\n";

/// A header that is read, and written again in version 2 where it has a generation.
fn written_again(alloc: Global, bytes: &[u8]) -> Result<Option<Vec<u8>>, AllocError> {
    match read_header(alloc, bytes) {
        Ok(header) => {
            if header.generation == 0 {
                return Ok(None);
            }
            Ok(Some(write_header(alloc, header.generation, header.cubes.as_slice())?))
        }
        Err(CallError::Fault(_)) => Ok(None),
        Err(CallError::NoMemory) => Err(AllocError),
    }
}

#[test]
fn headers_of_both_versions(rt: HostRuntime) -> Result<(), Fail> {
    let alloc = rt.alloc();
    assert!(rt; reads_as(alloc, HEADER_1, 79, 0)?);
    assert!(rt; reads_as(alloc, HEADER_2, 87, 1)?);
    assert!(rt; is_written(alloc, HEADER_2)?);
    Ok(())
}

/// Whether bytes are a header of this size and generation with the worked cube.
fn reads_as(alloc: Global, bytes: &[u8], size: u64, generation: u64) -> Result<bool, AllocError> {
    match read_header(alloc, bytes) {
        Ok(header) => Ok(
            header.size == size
                && header.generation == generation
                && header.cubes.as_slice() == X.as_bytes(),
        ),
        Err(CallError::Fault(_)) => Ok(false),
        Err(CallError::NoMemory) => Err(AllocError),
    }
}

/// Whether a header that is read is written as these very bytes.
fn is_written(alloc: Global, bytes: &[u8]) -> Result<bool, AllocError> {
    match written_again(alloc, bytes)? {
        Some(written) => Ok(written.as_slice() == bytes),
        None => Ok(false),
    }
}

/// What reading bytes as a header gives: its size, or the place of a broken rule, or 0 where the
/// digest is another.
fn found(alloc: Global, bytes: &[u8]) -> Result<u64, AllocError> {
    match read_header(alloc, bytes) {
        Ok(header) => Ok(header.size),
        Err(CallError::Fault(FormatFault::BadText { at })) => Ok(at),
        Err(CallError::Fault(FormatFault::BadDigest { .. })) => Ok(0),
        Err(CallError::NoMemory) => Err(AllocError),
    }
}

#[test]
fn each_cut(rt: HostRuntime) -> Result<(), Fail> {
    for end in 0..HEADER_2.len() {
        assert_eq!(rt; found(rt.alloc(), &HEADER_2[..end])?, 12, "{end}");
    }
    Ok(())
}

/// The header of version 2 with another byte at a place.
fn turned(alloc: Global, place: usize) -> Result<Vec<u8>, AllocError> {
    let mut bytes = Vec::from_slice(alloc, HEADER_2)?;
    if place < bytes.len() {
        bytes[place] = bytes[place].wrapping_add(1);
    }
    Ok(bytes)
}

#[test]
fn each_byte_turned(rt: HostRuntime) -> Result<(), Fail> {
    for place in 0..HEADER_2.len() {
        let bytes = turned(rt.alloc(), place)?;
        let shown = if place < 16 {
            12
        } else if place < 86 {
            0
        } else {
            87
        };
        assert_eq!(rt; found(rt.alloc(), bytes.as_slice())?, shown, "{place}");
    }
    Ok(())
}

/// A header with a right digest over these bytes and this text.
fn sealed(alloc: Global, front: &[u8], text: &str) -> Result<Vec<u8>, AllocError> {
    let mut bytes = Vec::from_slice(alloc, b"CUBRICK")?;
    bytes.extend_from_slice(front)?;
    bytes.extend_from_slice(text.as_bytes())?;
    let digest = digest_of(bytes.as_slice());
    let mut whole = Vec::from_slice(alloc, b"\xa5")?;
    whole.extend_from_slice(bytes.as_slice())?;
    whole.extend_from_slice(&digest)?;
    whole.push(0)?;
    Ok(whole)
}

/// What stands before a text, the text, and what reading gives.
const SEALED: &[(&str, &[u8], &str, u64)] = &[
    ("right", b"\x02\0\0\0\x1e\0\0\0\x01\0\0\0\0\0\0\0", X, 87),
    (
        "the last generation",
        b"\x02\0\0\0\x1e\0\0\0\0\0\0\0\0\0\0\x40",
        X,
        87,
    ),
    (
        "a generation too great",
        b"\x02\0\0\0\x1e\0\0\0\x01\0\0\0\0\0\0\x40",
        X,
        12,
    ),
    (
        "generation 0",
        b"\x02\0\0\0\x1e\0\0\0\0\0\0\0\0\0\0\0",
        X,
        12,
    ),
    ("version 1", b"\x01\0\0\0\x1e\0\0\0", X, 79),
    (
        "version 3",
        b"\x03\0\0\0\x1e\0\0\0\x01\0\0\0\0\0\0\0",
        X,
        12,
    ),
    ("no cubes", b"\x01\0\0\0\0\0\0\0", "", 49),
    ("no cube", b"\x01\0\0\0\x09\0\0\0", "metric m\n", 12),
    (
        "a zero too many",
        b"\x01\0\0\0\x1f\0\0\0",
        "cube t\ndim x int 05 2\nmetric m\n",
        12,
    ),
    (
        "no line's end",
        b"\x01\0\0\0\x1d\0\0\0",
        "cube t\ndim x int 5 2\nmetric m",
        12,
    ),
    (
        "a range too large",
        b"\x01\0\0\0\x1e\0\0\0",
        "cube t\ndim x int 5 6\nmetric m\n",
        12,
    ),
];

#[test]
fn right_digests(rt: HostRuntime) -> Result<(), Fail> {
    for (shows, front, text, size) in SEALED {
        let bytes = sealed(rt.alloc(), front, text)?;
        assert_eq!(rt; found(rt.alloc(), bytes.as_slice())?, *size, "{shows}");
    }
    Ok(())
}
