//! New stores and their first round, with disks that stop at each call.

ghost use Rattle.std.specs.Prelude.{IfOk, IsSome, ◌↔◌};
ghost use Rattle.cube_rounds.specs.Headers.{FitsHeader};
ghost use Rattle.outside_disk.specs.Memory.{disk_view};
ghost use Rattle.outside_disk.specs.Views.{IsSynced};

use crate::attempts::{
    Attempt, FILLS, Files, Found, NO_STOP, Stops, add, disk_of, files_of, found_in, stops_at,
};
use crate::bytes::{GENERATION_1, GENERATION_2, STORE_2};
use cube_values::CallError;
use outside_disk::{Disk, DiskMemory};
use round_store::{Store, create_store};
use round_text::read_header;
use std::alloc::{AllocError, Global};
use std::test::*;
use store_reading::{Kept, declared_cubes};

/// The text of the cube `t`, in the header of a store.
fn text_of(alloc: Global) -> Result<Vec<u8>, AllocError>
    ensures { IfOk result (λ text. FitsHeader 1 text.items) }
{
    match read_header(alloc, GENERATION_1) {
        Ok(header) if header.generation == 1 => Ok(header.cubes.into_vec()),
        Ok(_) => Err(AllocError),
        Err(_) => Err(AllocError),
    }
}

/// Makes a store and adds the round up to epoch 1, and answers whether all of it succeeds.
fn make(alloc: Global, disk: &mut DiskMemory, other: &mut DiskMemory) -> Result<bool, AllocError>
    requires first { IsSynced (disk_view disk.old) }
    requires second { IsSynced (disk_view other.old) }
    requires both { IsSome (disk_view disk.old).told ↔ IsSome (disk_view other.old).told }
{
    let text = text_of(alloc)?;
    match create_store(alloc, disk, other, text.as_slice()) {
        Ok(mut store) => {
            let kept = Kept::of_cubes(alloc, declared_cubes(alloc, text.as_slice())?)?;
            add(alloc, &mut store, &kept, disk, other, 1)
        }
        Err(CallError::Fault(_)) => Ok(false),
        Err(CallError::NoMemory) => Err(AllocError),
    }
}

/// Chooses the file of the first disk, and makes a store with a round over these files.
fn made(alloc: Global, files: &Files, stops: Stops) -> Result<Attempt, AllocError> {
    let mut disk = disk_of(alloc, files.first.as_slice(), stops.first)?;
    let mut other = disk_of(alloc, files.second.as_slice(), stops.second)?;
    let done = match disk.choose("s") {
        Ok(()) => make(alloc, &mut disk, &mut other)?,
        Err(_) => false,
    };
    Ok(Attempt { done, disk, other })
}

/// What the images of a crash are opened to, with each fill.
fn found_with_fills(alloc: Global, attempt: &Attempt) -> Result<[Found; 4], AllocError> {
    let mut found = [None; 4];
    for (i, fill) in FILLS.iter().enumerate() {
        let files = attempt.files(fill)?;
        if i < 4 {
            found[i] = found_in(alloc, files.first.as_slice(), files.second.as_slice())?;
        }
    }
    Ok(found)
}

/// Nothing; a store without rounds; one with the round up to epoch 1.
const NONE: Found = None;

const EMPTY: Found = Some((0, 0));

const ROUND: Found = Some((1, 1));

/// Whether the second disk is the one that stops, at which call, and what is then found with each fill: the bytes that
/// were written, 00, A5 and 5A. On the first disk call 0 chooses the file, 1 to 7 make the store, and 8 to 11 add
/// the round.
type Line = (bool, u64, Found, Found, Found, Found);

/// Over files without a byte.
const NEW: &[Line] = &[
    (true, 0, NONE, NONE, NONE, NONE),
    (false, 0, NONE, NONE, NONE, NONE),
    (false, 1, NONE, NONE, NONE, NONE),
    (false, 2, NONE, NONE, NONE, NONE),
    (false, 3, NONE, NONE, NONE, NONE),
    (false, 4, NONE, NONE, NONE, NONE),
    (false, 5, NONE, NONE, NONE, NONE),
    (false, 6, EMPTY, NONE, EMPTY, NONE),
    (false, 7, EMPTY, NONE, EMPTY, NONE),
    (false, 8, EMPTY, EMPTY, EMPTY, EMPTY),
    (false, 9, EMPTY, EMPTY, EMPTY, EMPTY),
    (false, 10, ROUND, EMPTY, ROUND, EMPTY),
    (false, 11, ROUND, EMPTY, ROUND, EMPTY),
    (false, 12, ROUND, ROUND, ROUND, ROUND),
    (true, 1, ROUND, ROUND, ROUND, ROUND),
];

/// Over an older store, whose second file is current and has no round, and whose first file has one. Call 0 on the
/// second disk asks its size, 1 and 2 shut its gate.
const ANEW: &[Line] = &[
    (true, 0, EMPTY, EMPTY, EMPTY, EMPTY),
    (true, 1, ROUND, ROUND, EMPTY, ROUND),
    (true, 2, ROUND, ROUND, EMPTY, ROUND),
    (false, 0, EMPTY, EMPTY, EMPTY, EMPTY),
    (false, 1, NONE, NONE, ROUND, NONE),
    (false, 2, NONE, NONE, ROUND, NONE),
    (false, 3, NONE, NONE, NONE, NONE),
    (false, 4, NONE, NONE, NONE, NONE),
    (false, 5, NONE, NONE, NONE, NONE),
    (false, 6, EMPTY, NONE, EMPTY, NONE),
    (false, 7, EMPTY, NONE, EMPTY, NONE),
    (false, 8, EMPTY, EMPTY, EMPTY, EMPTY),
    (false, 9, EMPTY, EMPTY, EMPTY, EMPTY),
    (false, 10, ROUND, EMPTY, ROUND, EMPTY),
    (false, 11, ROUND, EMPTY, ROUND, EMPTY),
    (false, 12, ROUND, ROUND, ROUND, ROUND),
    (true, 3, ROUND, ROUND, ROUND, ROUND),
];

/// Whether a store that is made over these files is found as each line says.
fn are_found_so(alloc: Global, files: &Files, lines: &[Line]) -> Result<bool, AllocError> {
    for (second, stop, plain, zeros, open, other) in lines {
        let attempt = made(alloc, files, stops_at(*second, *stop))?;
        if found_with_fills(alloc, &attempt)? != [*plain, *zeros, *open, *other] {
            return Ok(false);
        }
    }
    Ok(true)
}

/// Whether a store that is made over these files leaves these.
fn is_left(alloc: Global, files: &Files, first: &[u8], second: &[u8]) -> Result<bool, AllocError> {
    let attempt = made(alloc, files, NO_STOP)?;
    let left = attempt.files(&[])?;
    Ok(attempt.done && left.first.as_slice() == first && left.second.as_slice() == second)
}

#[test]
fn a_new_store(rt: HostRuntime) -> Result<(), Fail> {
    let files = files_of(rt.alloc(), &[], &[])?;
    assert!(rt; is_left(rt.alloc(), &files, STORE_2, &[])?);
    assert!(rt; are_found_so(rt.alloc(), &files, NEW)?);
    Ok(())
}

#[test]
fn a_new_store_over_an_older_one(rt: HostRuntime) -> Result<(), Fail> {
    let files = files_of(rt.alloc(), STORE_2, GENERATION_2)?;
    let mut shut = Vec::from_slice(rt.alloc(), GENERATION_2)?;
    shut[0] = 0;
    assert!(rt; is_left(rt.alloc(), &files, STORE_2, shut.as_slice())?);
    assert!(rt; are_found_so(rt.alloc(), &files, ANEW)?);
    Ok(())
}
