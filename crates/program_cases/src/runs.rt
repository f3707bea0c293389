//! One run, over files, disks and output in memory.

ghost use Rattle.std.specs.Prelude.{IfOk, IsSome};
ghost use Rattle.outside_disk.specs.Memory.{disk_view};
ghost use Rattle.outside_disk.specs.Views.{IsSynced};

use crate::files::FILES;
use cubrick_top::{Ended, Finish, Outside, run};
use outside::{ShelfMemory, SinkMemory};
use outside_disk::{DiskMemory, Gate};
use std::alloc::{AllocError, Global};
use std::sync::Wait;
use std::thread::Threads;
use threaded_callers::ThreadStarter;

// How many shelves a run has.
const SHELVES: usize = 16;

// Of how many dimensions of the first cube, and how many names of each, a run tells.
const MOST_DIMENSIONS: u32 = 2;

const MOST_NAMES: u32 = 4;

// The room of a disk: each call uses up one, and one for each byte.
const DISK_ROOM: u64 = 20_000;

/// A disk: its file, the calls that fail, and the call from which on all do.
#[derive(Clone, Copy)]
pub(crate) struct OnDisk<'a> {
    pub(crate) file: &'a [u8],
    pub(crate) failing: &'a [u64],
    pub(crate) stop: Option<u64>,
}

/// A disk on which no call fails.
pub(crate) fn sound_disk(file: &[u8]) -> OnDisk {
    OnDisk {
        file,
        failing: &[],
        stop: None,
    }
}

/// What a run has of the outside.
#[derive(Clone, Copy)]
pub(crate) struct Given<'a> {
    /// The scripts, one on each line. On the shelves they are the files `1`, `2` and so on.
    pub(crate) scripts: &'a str,
    /// Files that the first shelf has besides.
    pub(crate) own: &'a [(&'a str, &'a [u8])],
    /// The calls on the first shelf that fail.
    pub(crate) shelf_failing: &'a [u64],
    /// How many bytes the output takes.
    pub(crate) room: u64,
    /// The calls on the output that fail.
    pub(crate) sink_failing: &'a [u64],
    pub(crate) disk: OnDisk<'a>,
    pub(crate) other: OnDisk<'a>,
}

/// Scripts with disks that hold nothing, and nothing that fails.
pub(crate) fn given_scripts(scripts: &str) -> Given {
    Given {
        scripts,
        own: &[],
        shelf_failing: &[],
        room: 100_000,
        sink_failing: &[],
        disk: sound_disk(&[]),
        other: sound_disk(&[]),
    }
}

/// How a run ended, and what it left.
#[derive(Drop)]
pub(crate) struct Outcome {
    /// The status, and behind it the text of the fault, if there is one.
    pub(crate) ends: String,
    pub(crate) text: Vec<u8>,
    /// The names of the first cube: for each dimension a line with its number and its names, and a line end before the first.
    pub(crate) names: String,
    pub(crate) disk: DiskMemory,
    pub(crate) other: DiskMemory,
}

// The words of a line.
fn words_of(alloc: Global, line: &str) -> Result<Vec<String>, AllocError> {
    let mut words = Vec::new(alloc);
    for word in line.split(' ') {
        if !word.is_empty() {
            words.push(String::from_str(alloc, word)?)?;
        }
    }
    Ok(words)
}

// Puts a file on a shelf.
fn put_file(
    alloc: Global,
    files: &mut Vec<(String, Vec<u8>)>,
    name: &str,
    bytes: &[u8],
) -> Result<(), AllocError> {
    let name = String::from_str(alloc, name)?;
    let bytes = Vec::from_slice(alloc, bytes)?;
    files.push((name, bytes))?;
    Ok(())
}

// The files that each shelf has.
fn files_of(alloc: Global, scripts: &str) -> Result<Vec<(String, Vec<u8>)>, AllocError> {
    let mut files = Vec::new(alloc);
    for (name, bytes) in FILES {
        put_file(alloc, &mut files, name, bytes)?;
    }
    for (place, script) in scripts.split('\n').enumerate() {
        let name = format!(in alloc; "{}", place.saturating_add(1))?;
        put_file(alloc, &mut files, name.as_str(), script.as_bytes())?;
    }
    Ok(files)
}

// The shelves of a run.
fn shelves_of(alloc: Global, given: Given) -> Result<Vec<ShelfMemory>, AllocError> {
    let mut files = files_of(alloc, given.scripts)?;
    for (name, bytes) in given.own {
        put_file(alloc, &mut files, name, bytes)?;
    }
    let failing = Vec::from_slice(alloc, given.shelf_failing)?;
    let mut shelves = Vec::new(alloc);
    shelves.push(ShelfMemory::new(files, failing))?;
    for _ in 1..SHELVES {
        let files = files_of(alloc, given.scripts)?;
        shelves.push(ShelfMemory::new(files, Vec::new(alloc)))?;
    }
    Ok(shelves)
}

fn disk_of(alloc: Global, on: OnDisk) -> Result<DiskMemory, AllocError>
    ensures told { IfOk result (λ disk. IsSome (disk_view disk).told) }
    ensures synced { IfOk result (λ disk. IsSynced (disk_view disk)) }
{
    let file = Vec::from_slice(alloc, on.file)?;
    let failing = Vec::from_slice(alloc, on.failing)?;
    DiskMemory::new(alloc, file, DISK_ROOM, failing, on.stop)
}

// The status, and behind it the text of the fault.
fn ends_of(alloc: Global, finish: &Finish) -> Result<String, AllocError> {
    let status = finish.status;
    match &finish.fault {
        None => format!(in alloc; "{status}"),
        Some(fault) => format!(in alloc; "{status} {fault}"),
    }
}

// The names of the first cube: for each dimension a line with its number and its names.
fn names_of(alloc: Global, finish: &Finish) -> Result<String, AllocError> {
    let mut out = String::from_str(alloc, "\n")?;
    for dimension in 0..MOST_DIMENSIONS {
        out.push_str(format!(in alloc; "{dimension}")?.as_str())?;
        for number in 0..MOST_NAMES {
            if let Some(name) = finish.names.name_of(0, dimension, number) {
                out.push_str(" ")?;
                out.push_str(name)?;
            }
        }
        out.push_str("\n")?;
    }
    Ok(out)
}

// How a run ended, and its names. All else that it handed out goes here.
fn told_by(alloc: Global, finish: Finish) -> Result<(String, String), AllocError> {
    Ok((ends_of(alloc, &finish)?, names_of(alloc, &finish)?))
}

// The outside of a run.
fn outside_of(alloc: Global, given: Given) -> Result<Outside<ShelfMemory, DiskMemory>, AllocError>
    ensures first_told { IfOk result (λ outside. IsSome (disk_view outside.disk).told) }
    ensures second_told { IfOk result (λ outside. IsSome (disk_view outside.other).told) }
    ensures first_synced { IfOk result (λ outside. IsSynced (disk_view outside.disk)) }
    ensures second_synced { IfOk result (λ outside. IsSynced (disk_view outside.other)) }
{
    Ok(Outside {
        shelves: shelves_of(alloc, given)?,
        disk: disk_of(alloc, given.disk)?,
        other: disk_of(alloc, given.other)?,
    })
}

/// How a run of these words ends, whose threads a gate may hold up.
pub(crate) fn run_held<R: Threads + Wait + Sync, G: Gate + Sync>(
    rt: &R,
    alloc: Global,
    words: &str,
    given: Given,
    gate: &G,
) -> Result<Outcome, AllocError> {
    let words = words_of(alloc, words)?;
    let outside = outside_of(alloc, given)?;
    let failing = Vec::from_slice(alloc, given.sink_failing)?;
    let mut sink = SinkMemory::new(alloc, given.room, failing)?;
    if outside.shelves.len() != SHELVES {
        return Err(AllocError);
    }
    let starter = ThreadStarter::new(u64::MAX);
    let Ended { finish, outside } = run(
        rt,
        alloc,
        starter,
        words.as_slice(),
        outside,
        &mut sink,
        gate,
    );
    let Outside {
        shelves,
        disk,
        other,
    } = outside;
    if shelves.len() != SHELVES {
        return Err(AllocError);
    }
    let (ends, names) = told_by(alloc, finish)?;
    let text = Vec::from_slice(alloc, sink.taken())?;
    Ok(Outcome {
        ends,
        text,
        names,
        disk,
        other,
    })
}
