//! Which store a run takes, and why it has none.

ghost use Rattle.std.specs.Prelude.{IfOk, IsSome};
ghost use Rattle.cube_schema.specs.Texts.{AreDeclared};
ghost use Rattle.outside_disk.specs.Memory.{disk_view};
ghost use Rattle.outside_disk.specs.Views.{IsSynced};

use crate::bytes::{
    GENERATION_2, LAST_EPOCH, MADE_CUBE, SPENT_EPOCH, SPENT_GENERATION, STORE_1, STORE_2,
};
use cube_schema::{Schema, read_cubes};
use cube_values::CallError;
use opened_store::{StoreFault, take_store};
use outside_disk::DiskMemory;
use std::alloc::{AllocError, Global};
use std::test::*;

/// What a store keeps, as its epoch and its number of cubes; or why there is none.
type Taken = Result<(u64, usize), StoreFault>;

/// A file, and the call of its disk from which on all fail.
#[derive(Clone, Copy)]
struct OnDisk<'a> {
    file: &'a [u8],
    stop: Option<u64>,
}

/// How the two disks stop.
const NO_STOP: (Option<u64>, Option<u64>) = (None, None);

/// The cubes of a text that declares them.
pub(crate) fn cubes_of(alloc: Global, text: &str) -> Result<Vec<Schema>, AllocError>
    ensures { IfOk result (λ cubes. AreDeclared cubes.items) }
{
    match read_cubes(alloc, text.as_bytes()) {
        Ok(cubes) => Ok(cubes),
        Err(_) => Err(AllocError),
    }
}

fn disk_of(alloc: Global, on: OnDisk) -> Result<DiskMemory, AllocError>
    ensures told { IfOk result (λ disk. IsSome (disk_view disk).told) }
    ensures synced { IfOk result (λ disk. IsSynced (disk_view disk)) }
{
    let bytes = Vec::from_slice(alloc, on.file)?;
    DiskMemory::new(alloc, bytes, 200, Vec::new(alloc), on.stop)
}

/// What is taken for these cubes, and what the two disks then have.
fn taken_on(
    alloc: Global,
    is_new: bool,
    text: &str,
    first: OnDisk,
    second: OnDisk,
) -> Result<(Taken, Vec<u8>, Vec<u8>), AllocError> {
    let cubes = cubes_of(alloc, text)?;
    let mut disk = disk_of(alloc, first)?;
    let mut other = disk_of(alloc, second)?;
    let taken = match take_store(alloc, "s", is_new, cubes.as_slice(), &mut disk, &mut other) {
        Ok(opened) => Ok((opened.kept.epoch, opened.kept.cubes.len())),
        Err(CallError::Fault(fault)) => Err(fault),
        Err(CallError::NoMemory) => return Err(AllocError),
    };
    Ok((taken, disk.crash(&[])?, other.crash(&[])?))
}

/// What is opened for these cubes from two files.
fn opened_from(
    alloc: Global,
    text: &str,
    first: &[u8],
    second: &[u8],
    stops: (Option<u64>, Option<u64>),
) -> Result<Taken, AllocError> {
    let first = OnDisk {
        file: first,
        stop: stops.0,
    };
    let second = OnDisk {
        file: second,
        stop: stops.1,
    };
    let (taken, _, _) = taken_on(alloc, false, text, first, second)?;
    Ok(taken)
}

const T: &str = "cube t\ndim x int 5 2\nmetric m\n";

const OTHER_T: &str = "cube t\ndim x int 5 1\nmetric m\n";

const T_U: &str = "cube t\ndim x int 5 2\nmetric m\ncube u\ndim y int 4 4\nmetric k\n";

const U_T: &str = "cube u\ndim y int 4 4\nmetric k\ncube t\ndim x int 5 2\nmetric m\n";

/// The declared cubes, the two files, and what is opened.
const OPENINGS: &[(&str, &str, &[u8], &[u8], Taken)] = &[
    ("a store", T, STORE_2, b"", Ok((1, 1))),
    ("of version 1", T, STORE_1, b"", Ok((1, 1))),
    ("in the second file", T, b"", STORE_2, Ok((1, 1))),
    ("of two generations", T, STORE_2, GENERATION_2, Ok((0, 1))),
    ("a cube of a session", T, MADE_CUBE, b"", Ok((2, 2))),
    ("up to the last epoch", T, LAST_EPOCH, b"", Ok((1 << 61, 1))),
    (
        "up to an epoch too great",
        T,
        SPENT_EPOCH,
        b"",
        Err(StoreFault::EpochsSpent {
            epoch: (1 << 61) + 1,
        }),
    ),
    (
        "other cubes before that",
        OTHER_T,
        SPENT_EPOCH,
        b"",
        Err(StoreFault::SchemaDiffers { place: 0 }),
    ),
    (
        "another range",
        OTHER_T,
        STORE_2,
        b"",
        Err(StoreFault::SchemaDiffers { place: 0 }),
    ),
    (
        "a cube more",
        T_U,
        STORE_2,
        b"",
        Err(StoreFault::SchemaDiffers { place: 1 }),
    ),
    (
        "a cube of a session declared",
        T_U,
        MADE_CUBE,
        b"",
        Err(StoreFault::SchemaDiffers { place: 1 }),
    ),
    (
        "another order",
        U_T,
        STORE_2,
        b"",
        Err(StoreFault::SchemaDiffers { place: 0 }),
    ),
    ("no store", T, b"hello", b"", Err(StoreFault::NotAStore)),
    (
        "two files of one generation",
        T,
        STORE_2,
        STORE_2,
        Err(StoreFault::TwoGenerations { generation: 1 }),
    ),
    (
        "a generation too great",
        OTHER_T,
        STORE_2,
        SPENT_GENERATION,
        Err(StoreFault::GenerationsSpent {
            generation: (1 << 61) + 1,
        }),
    ),
];

#[test]
fn stores_are_opened(rt: HostRuntime) -> Result<(), Fail> {
    for (shows, text, first, second, wanted) in OPENINGS {
        let found = opened_from(rt.alloc(), text, first, second, NO_STOP)?;
        assert_eq!(rt; found, *wanted, "{shows}");
    }
    Ok(())
}

/// A store whose first file is cut, and what is opened.
const CUTS: &[(&[u8], usize, Taken)] = &[
    (STORE_2, 150, Err(StoreFault::Damaged { at: 87 })),
    (STORE_1, 150, Err(StoreFault::Damaged { at: 79 })),
    (STORE_1, 15, Err(StoreFault::NotAStore)),
];

#[test]
fn cut_stores_are_refused(rt: HostRuntime) -> Result<(), Fail> {
    for (file, end, wanted) in CUTS {
        let (front, _) = file.split_at(file.len().min(*end));
        let found = opened_from(rt.alloc(), T, front, b"", NO_STOP)?;
        assert_eq!(rt; found, *wanted, "{end}");
    }
    Ok(())
}

/// Each disk fixes its file, asks its size and reads it; then it is not called any more. That a disk fails is said
/// before what is wrong with the files.
#[test]
fn disks_stop_at_opening(rt: HostRuntime) -> Result<(), Fail> {
    for stop in 0..4 {
        let (wanted, files) = if stop < 3 {
            (Err(StoreFault::DiskFault), b"hello".as_slice())
        } else {
            (Ok((0, 1)), STORE_2)
        };
        let stops = (Some(stop), None);
        let found = opened_from(rt.alloc(), T, files, GENERATION_2, stops)?;
        assert_eq!(rt; found, wanted, "first {stop}");
        let stops = (None, Some(stop));
        let found = opened_from(rt.alloc(), T, files, GENERATION_2, stops)?;
        assert_eq!(rt; found, wanted, "second {stop}");
    }
    Ok(())
}

/// What is created over two files, and what is opened then.
fn created_over(
    alloc: Global,
    first: &[u8],
    second: &[u8],
    stop: Option<u64>,
) -> Result<(Taken, Taken), AllocError> {
    let first = OnDisk { file: first, stop };
    let second = OnDisk {
        file: second,
        stop: None,
    };
    let (created, disk, other) = taken_on(alloc, true, T, first, second)?;
    let opened = opened_from(alloc, T, disk.as_slice(), other.as_slice(), NO_STOP)?;
    Ok((created, opened))
}

/// A new store, and one in the place of another, keep the cubes alone.
#[test]
fn stores_are_created(rt: HostRuntime) -> Result<(), Fail> {
    let wanted = (Ok((0, 1)), Ok((0, 1)));
    assert_eq!(rt; created_over(rt.alloc(), b"", b"", None)?, wanted);
    assert_eq!(rt; created_over(rt.alloc(), STORE_2, b"", None)?, wanted);
    assert_eq!(rt; created_over(rt.alloc(), b"", STORE_2, None)?, wanted);
    Ok(())
}

/// What the files read as when the first disk stops at a call while a store is created over another: the old store
/// before anything is written, the new one once its gate is, and between none.
#[test]
fn disks_stop_at_creation(rt: HostRuntime) -> Result<(), Fail> {
    for stop in 0..8 {
        let opened = match stop {
            0 => Ok((1, 1)),
            6 | 7 => Ok((0, 1)),
            _ => Err(StoreFault::NotAStore),
        };
        let found = created_over(rt.alloc(), STORE_2, b"", Some(stop))?;
        assert_eq!(rt; found, (Err(StoreFault::DiskFault), opened), "{stop}");
    }
    let found = created_over(rt.alloc(), STORE_2, b"", Some(8))?;
    assert_eq!(rt; found, (Ok((0, 1)), Ok((0, 1))), "no call is left");
    Ok(())
}
