//! Sixty-four rounds in a file and the whole one in the other, with disks that stop at each call, once and twice.

use crate::attempts::{Attempt, Files, Found, NO_STOP, added, files_of, found_in, stops_at};
use crate::bytes::{
    FIRST_AT_64, FIRST_AT_129, GENERATION_1, SECOND_AT_65, SECOND_AT_128, STORE_1, WHOLE_AT_2,
};
use round_fields::digest_of;
use std::alloc::{AllocError, Global};
use std::test::*;

/// No attempt makes so many calls on a disk.
const MOST_CALLS: u64 = 16;

/// The epoch of a round, and what is kept before and with it.
#[derive(Clone, Copy, Debug)]
struct Addition {
    epoch: u64,
    before: Found,
    after: Found,
}

/// The files of a store that got a round for each epoch up to this one, from these on.
fn grown(alloc: Global, begun: Files, from: u64, epochs: u64) -> Result<Files, AllocError> {
    let mut files = begun;
    for before in from..epochs {
        let left = added(alloc, &files, NO_STOP, before.saturating_add(1))?;
        files = left.files(&[])?;
    }
    Ok(files)
}

/// The files of a new store that got so many rounds.
fn grown_new(alloc: Global, epochs: u64) -> Result<Files, AllocError> {
    grown(alloc, files_of(alloc, GENERATION_1, &[])?, 0, epochs)
}

/// Whether each image stands for what is kept before or with the round, and for the latter where that was added.
fn are_either(alloc: Global, left: &Attempt, addition: Addition) -> Result<bool, AllocError> {
    for files in &left.images(alloc)? {
        let found = found_in(alloc, files.first.as_slice(), files.second.as_slice())?;
        if found != addition.after && (left.done || found != addition.before) {
            return Ok(false);
        }
    }
    Ok(true)
}

/// How many calls on a disk there are until the round is added, where each image of each attempt that is stopped
/// before stands for what is kept before or with the round.
fn calls_made(
    alloc: Global,
    files: &Files,
    second: bool,
    addition: Addition,
) -> Result<Option<u64>, AllocError> {
    for stop in 0..MOST_CALLS {
        let left = added(alloc, files, stops_at(second, stop), addition.epoch)?;
        if !are_either(alloc, &left, addition)? {
            return Ok(None);
        }
        if left.done {
            return Ok(Some(stop));
        }
    }
    Ok(None)
}

/// Whether the round is made again over files that a crash left, with a stop at each call on its disk, as it should be.
/// Where they stand for what is kept with the round, that is not made again.
fn is_made_again(
    alloc: Global,
    files: &Files,
    second: bool,
    addition: Addition,
) -> Result<bool, AllocError> {
    let found = found_in(alloc, files.first.as_slice(), files.second.as_slice())?;
    if found == addition.after {
        return Ok(true);
    }
    Ok(calls_made(alloc, files, second, addition)?.is_some())
}

fn have(images: &[Files], files: &Files) -> bool {
    for image in images {
        if image.is_as(files) {
            return true;
        }
    }
    false
}

/// The images that a crash leaves with a stop at each of so many calls, each once.
fn images_of_stops(
    alloc: Global,
    files: &Files,
    second: bool,
    calls: u64,
    addition: Addition,
) -> Result<Vec<Files>, AllocError> {
    let mut images = Vec::new(alloc);
    for stop in 0..calls {
        let left = added(alloc, files, stops_at(second, stop), addition.epoch)?;
        for image in left.images(alloc)? {
            if !have(images.as_slice(), &image) {
                images.push(image)?;
            }
        }
    }
    Ok(images)
}

/// Whether the round is made again so over each of these images.
fn are_made_again(
    alloc: Global,
    images: &[Files],
    second: bool,
    addition: Addition,
) -> Result<bool, AllocError> {
    for image in images {
        if !is_made_again(alloc, image, second, addition)? {
            return Ok(false);
        }
    }
    Ok(true)
}

/// Whether a whole round is added to the other file so, with stops at each call on its disk, once and twice. The other
/// disk is only read, with two calls.
fn is_added_so(
    alloc: Global,
    files: &Files,
    second: bool,
    calls: u64,
    addition: Addition,
) -> Result<bool, AllocError> {
    if calls_made(alloc, files, !second, addition)? != Some(2)
        || calls_made(alloc, files, second, addition)? != Some(calls)
    {
        return Ok(false);
    }
    let images = images_of_stops(alloc, files, second, calls, addition)?;
    are_made_again(alloc, images.as_slice(), second, addition)
}

/// Whether two files have these digests.
fn have_digests(files: &Files, first: &[u8; 32], second: &[u8; 32]) -> bool {
    digest_of(files.first.as_slice()) == *first && digest_of(files.second.as_slice()) == *second
}

#[test]
fn the_sixty_fifth_round(rt: HostRuntime) -> Result<(), Fail> {
    let files = grown_new(rt.alloc(), 64)?;
    assert!(rt; files.second.is_empty());
    assert!(rt; digest_of(files.first.as_slice()) == FIRST_AT_64);
    let with_it = grown(rt.alloc(), files, 64, 65)?;
    assert!(rt; have_digests(&with_it, &FIRST_AT_64, &SECOND_AT_65));
    Ok(())
}

#[test]
fn stops_of_the_sixty_fifth_round(rt: HostRuntime) -> Result<(), Fail> {
    let files = grown_new(rt.alloc(), 64)?;
    let addition = Addition {
        epoch: 65,
        before: Some((64, 64)),
        after: Some((65, 1)),
    };
    assert!(rt; is_added_so(rt.alloc(), &files, true, 8, addition)?);
    Ok(())
}

#[test]
fn the_round_behind_two_files(rt: HostRuntime) -> Result<(), Fail> {
    let files = grown_new(rt.alloc(), 128)?;
    assert!(rt; have_digests(&files, &FIRST_AT_64, &SECOND_AT_128));
    let with_it = grown(rt.alloc(), files, 128, 129)?;
    assert!(rt; have_digests(&with_it, &FIRST_AT_129, &SECOND_AT_128));
    Ok(())
}

#[test]
fn stops_of_the_round_behind_two_files(rt: HostRuntime) -> Result<(), Fail> {
    let files = grown_new(rt.alloc(), 128)?;
    let addition = Addition {
        epoch: 129,
        before: Some((128, 64)),
        after: Some((129, 1)),
    };
    assert!(rt; is_added_so(rt.alloc(), &files, false, 9, addition)?);
    Ok(())
}

#[test]
fn a_migration(rt: HostRuntime) -> Result<(), Fail> {
    let files = files_of(rt.alloc(), STORE_1, &[])?;
    let addition = Addition {
        epoch: 2,
        before: Some((1, 1)),
        after: Some((2, 1)),
    };
    assert!(rt; is_added_so(rt.alloc(), &files, true, 8, addition)?);
    let migrated = grown(rt.alloc(), files, 1, 2)?;
    assert!(rt; migrated.first.as_slice() == STORE_1);
    assert!(rt; digest_of(migrated.second.as_slice()) == WHOLE_AT_2);
    Ok(())
}
