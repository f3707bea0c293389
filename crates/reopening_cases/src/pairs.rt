//! Pairs of files: what they keep, or their first fault.

use crate::bytes::{
    FOUND, GENERATION_2, KEPT, LAST_GENERATION, SPENT_GENERATION, STORE_1, STORE_2,
};
use cube_values::CallError;
use std::alloc::{AllocError, Global};
use std::test::*;
use store_reading::{PairFault, read_pair};

/// What a pair of files is opened to: an epoch, so many rounds and the place of the last gate, or a fault.
#[derive(Clone, Copy, Debug, PartialEq, Eq)]
enum Answer {
    Kept {
        second: bool,
        epoch: u64,
        rounds: usize,
        end: u64,
    },
    Fault(PairFault),
}

fn answer_of(alloc: Global, first: &[u8], second: &[u8]) -> Result<Answer, AllocError> {
    match read_pair(alloc, first, second) {
        Ok(opened) => Ok(Answer::Kept {
            second: opened.place.second,
            epoch: opened.kept.epoch,
            rounds: opened.kept.rounds.len(),
            end: opened.place.end,
        }),
        Err(CallError::Fault(fault)) => Ok(Answer::Fault(fault)),
        Err(CallError::NoMemory) => Err(AllocError),
    }
}

/// What each cut of a store gives, beside an empty file: the place behind the version in the header,
/// the round's first byte behind it, and epoch 1 for the whole.
fn cut_of(end: usize, header: usize, whole: usize) -> Answer {
    if end < 16 {
        Answer::Fault(PairFault::NotAStore)
    } else if end < header {
        Answer::Fault(PairFault::Damaged { at: 12 })
    } else if end < whole {
        Answer::Fault(PairFault::Damaged { at: header as u64 })
    } else {
        Answer::Kept {
            second: false,
            epoch: 1,
            rounds: 1,
            end: end as u64 - 1,
        }
    }
}

#[test]
fn each_cut_of_version_2(rt: HostRuntime) -> Result<(), Fail> {
    for end in 0..STORE_2.len() + 1 {
        let found = answer_of(rt.alloc(), &STORE_2[..end], &[])?;
        assert_eq!(rt; found, cut_of(end, 87, 205), "{end}");
    }
    Ok(())
}

#[test]
fn each_cut_of_version_1(rt: HostRuntime) -> Result<(), Fail> {
    for end in 0..STORE_1.len() + 1 {
        let found = answer_of(rt.alloc(), &STORE_1[..end], &[])?;
        assert_eq!(rt; found, cut_of(end, 79, 197), "{end}");
    }
    Ok(())
}

/// Two files, and what they are opened to.
const PAIRS: &[(&str, &[u8], &[u8], Answer)] = &[
    (
        "a store",
        STORE_2,
        b"",
        Answer::Kept {
            second: false,
            epoch: 1,
            rounds: 1,
            end: 204,
        },
    ),
    (
        "a store in the second file",
        b"hello",
        STORE_2,
        Answer::Kept {
            second: true,
            epoch: 1,
            rounds: 1,
            end: 204,
        },
    ),
    (
        "no store",
        b"hello",
        b"",
        Answer::Fault(PairFault::NotAStore),
    ),
    (
        "a newer file without rounds",
        STORE_2,
        GENERATION_2,
        Answer::Kept {
            second: true,
            epoch: 0,
            rounds: 0,
            end: 86,
        },
    ),
    (
        "an older second file",
        GENERATION_2,
        STORE_2,
        Answer::Kept {
            second: false,
            epoch: 0,
            rounds: 0,
            end: 86,
        },
    ),
    (
        "version 1 is generation 0",
        STORE_1,
        STORE_2,
        Answer::Kept {
            second: true,
            epoch: 1,
            rounds: 1,
            end: 204,
        },
    ),
    (
        "two of one generation",
        STORE_2,
        STORE_2,
        Answer::Fault(PairFault::TwoGenerations { generation: 1 }),
    ),
    (
        "two of version 1",
        STORE_1,
        STORE_1,
        Answer::Fault(PairFault::TwoGenerations { generation: 0 }),
    ),
    (
        "the last generation",
        LAST_GENERATION,
        STORE_2,
        Answer::Kept {
            second: false,
            epoch: 0,
            rounds: 0,
            end: 86,
        },
    ),
    (
        "a generation too great",
        STORE_2,
        SPENT_GENERATION,
        Answer::Fault(PairFault::GenerationsSpent {
            generation: (1 << 61) + 1,
        }),
    ),
];

#[test]
fn pairs(rt: HostRuntime) -> Result<(), Fail> {
    for (shows, first, second, wanted) in PAIRS {
        assert_eq!(rt; answer_of(rt.alloc(), first, second)?, *wanted, "{shows}");
    }
    Ok(())
}

/// The store of version 2 with another byte at a place.
fn turned(alloc: Global, place: usize, byte: u8) -> Result<Vec<u8>, AllocError> {
    let mut bytes = Vec::from_slice(alloc, STORE_2)?;
    if place < bytes.len() {
        bytes[place] = byte;
    }
    Ok(bytes)
}

/// A place, the byte that is put there, and what the store is opened to.
const TURNED: &[(usize, u8, Answer)] = &[
    (0, 0, Answer::Fault(PairFault::NotAStore)),
    (7, 0x4c, Answer::Fault(PairFault::NotAStore)),
    (8, 9, Answer::Fault(PairFault::Version { found: 9 })),
    (
        86,
        0xa4,
        Answer::Kept {
            second: false,
            epoch: 0,
            rounds: 0,
            end: 86,
        },
    ),
    (95, 1, Answer::Fault(PairFault::Damaged { at: 87 })),
    (
        164,
        8,
        Answer::Fault(PairFault::DamagedRound {
            round: 1,
            kept: KEPT,
            found: FOUND,
        }),
    ),
    (204, 0xa5, Answer::Fault(PairFault::Damaged { at: 205 })),
    (
        204,
        7,
        Answer::Kept {
            second: false,
            epoch: 1,
            rounds: 1,
            end: 204,
        },
    ),
];

#[test]
fn bytes_turned(rt: HostRuntime) -> Result<(), Fail> {
    for (place, byte, wanted) in TURNED {
        let bytes = turned(rt.alloc(), *place, *byte)?;
        assert_eq!(rt;
            answer_of(rt.alloc(), bytes.as_slice(), &[])?,
            *wanted,
            "{place}"
        );
    }
    Ok(())
}
