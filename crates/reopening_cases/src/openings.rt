//! Which faults a store is refused with: of its files, and of its disks.

use crate::attempts::read_disk_of;
use crate::bytes::{
    FOUND, GENERATION_2, KEPT, LAST_GENERATION, SPENT_GENERATION, STORE_1, STORE_2,
};
use cube_values::CallError;
use round_store::{OpenFault, open_store};
use std::alloc::{AllocError, Global};
use std::test::*;
use store_reading::PairFault;

/// What a store is opened to: its epoch, or why it is refused.
type Opening = Result<u64, OpenFault>;

/// What two disks that stop at these calls are opened to.
fn opening_of(
    alloc: Global,
    first: (&[u8], Option<u64>),
    second: (&[u8], Option<u64>),
) -> Result<Opening, AllocError> {
    let mut disk = read_disk_of(alloc, first.0, first.1)?;
    let mut other = read_disk_of(alloc, second.0, second.1)?;
    match open_store(alloc, &mut disk, &mut other) {
        Ok((_, kept)) => Ok(Ok(kept.epoch)),
        Err(CallError::Fault(fault)) => Ok(Err(fault)),
        Err(CallError::NoMemory) => Err(AllocError),
    }
}

/// What two files are opened to.
fn opening_of_files(alloc: Global, first: &[u8], second: &[u8]) -> Result<Opening, AllocError> {
    opening_of(alloc, (first, None), (second, None))
}

fn damaged(at: u64) -> Opening {
    Err(OpenFault::Pair(PairFault::Damaged { at }))
}

/// Two files, and what they are opened to.
const PAIRS: &[(&str, &[u8], &[u8], Opening)] = &[
    ("a store", STORE_2, b"", Ok(1)),
    ("a store of version 1", STORE_1, b"", Ok(1)),
    (
        "no store",
        b"hello",
        b"",
        Err(OpenFault::Pair(PairFault::NotAStore)),
    ),
    (
        "two files of one generation",
        STORE_2,
        STORE_2,
        Err(OpenFault::Pair(PairFault::TwoGenerations { generation: 1 })),
    ),
    ("the last generation", STORE_2, LAST_GENERATION, Ok(0)),
    (
        "a generation too great",
        STORE_2,
        SPENT_GENERATION,
        Err(OpenFault::Pair(PairFault::GenerationsSpent {
            generation: (1 << 61) + 1,
        })),
    ),
];

#[test]
fn pairs_of_files(rt: HostRuntime) -> Result<(), Fail> {
    for (shows, first, second, wanted) in PAIRS {
        assert_eq!(rt;
            opening_of_files(rt.alloc(), first, second)?,
            *wanted,
            "{shows}"
        );
    }
    Ok(())
}

/// What a cut of a file of a header alone gives.
fn cut_of(end: usize, beside: u64, whole: u64) -> Opening {
    if end < 16 {
        Ok(beside)
    } else if end < 87 {
        damaged(12)
    } else {
        Ok(whole)
    }
}

#[test]
fn each_cut_of_the_second_file(rt: HostRuntime) -> Result<(), Fail> {
    for end in 0..GENERATION_2.len() + 1 {
        let found = opening_of_files(rt.alloc(), STORE_2, &GENERATION_2[..end])?;
        assert_eq!(rt; found, cut_of(end, 1, 0), "{end}");
    }
    Ok(())
}

/// Of the file that is not current the header alone counts.
#[test]
fn each_cut_of_the_first_file(rt: HostRuntime) -> Result<(), Fail> {
    for end in 0..STORE_2.len() + 1 {
        let found = opening_of_files(rt.alloc(), &STORE_2[..end], GENERATION_2)?;
        assert_eq!(rt; found, cut_of(end, 0, 0), "{end}");
    }
    Ok(())
}

/// A file, how many of its bytes are left, and where it is damaged.
const CUTS: &[(&[u8], usize, u64)] = &[(STORE_2, 150, 87), (STORE_1, 150, 79)];

#[test]
fn files_cut_short(rt: HostRuntime) -> Result<(), Fail> {
    for (file, end, at) in CUTS {
        let (front, _) = file.split_at(file.len().min(*end));
        assert_eq!(rt;
            opening_of_files(rt.alloc(), front, &[])?,
            damaged(*at),
            "{at}"
        );
    }
    Ok(())
}

/// A place, the byte that is put there, and what the store is opened to.
const TURNED: &[(usize, u8, Opening)] = &[
    (8, 9, Err(OpenFault::Pair(PairFault::Version { found: 9 }))),
    (
        164,
        8,
        Err(OpenFault::Pair(PairFault::DamagedRound {
            round: 1,
            kept: KEPT,
            found: FOUND,
        })),
    ),
];

#[test]
fn bytes_turned(rt: HostRuntime) -> Result<(), Fail> {
    for (place, byte, wanted) in TURNED {
        let mut bytes = Vec::from_slice(rt.alloc(), STORE_2)?;
        if *place < bytes.len() {
            bytes[*place] = *byte;
        }
        let found = opening_of_files(rt.alloc(), bytes.as_slice(), &[])?;
        assert_eq!(rt; found, *wanted, "{place}");
    }
    Ok(())
}

/// A disk asks its file's size and reads it; then it is not called any more.
#[test]
fn each_call_stops(rt: HostRuntime) -> Result<(), Fail> {
    for stop in 0..4 {
        let wanted = if stop < 2 {
            Err(OpenFault::Disk)
        } else {
            Ok(0)
        };
        let stopped = (STORE_2, Some(stop));
        let found = opening_of(rt.alloc(), stopped, (GENERATION_2, None))?;
        assert_eq!(rt; found, wanted, "first {stop}");
        let stopped = (GENERATION_2, Some(stop));
        let found = opening_of(rt.alloc(), (STORE_2, None), stopped)?;
        assert_eq!(rt; found, wanted, "second {stop}");
    }
    Ok(())
}
