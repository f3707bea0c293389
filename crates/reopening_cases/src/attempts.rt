//! Stores on disks that stop at a call, and what a crash then leaves.

ghost use Rattle.std.specs.Prelude.{◌≡◌, ◌≤◌, length, IfOk, IsSome};
ghost use Rattle.cube_rounds.specs.Demands.{FitsRound};
ghost use Rattle.outside_disk.specs.Memory.{disk_view};
ghost use Rattle.outside_disk.specs.Views.{IsSynced};
ghost use Rattle.round_store.specs.States.{IsAt, MayFollowKept, kept_before};

use cube_rounds::Round;
use cube_schema::Schema;
use cube_values::{CallError, NameLists};
use outside_disk::DiskMemory;
use round_fields::digest_of;
use round_reading::{have_dims, no_names_of, read_round};
use round_store::{OpenFault, Store, open_store};
use std::alloc::{AllocError, Global};
use store_reading::Kept;

/// What stands in the place of the bytes that are not safe: those that were written, or these.
pub const FILLS: [&[u8]; 4] = [&[], &[0], &[0xa5], &[0x5a]];

/// The room of a disk that is written: each call uses up one, and one for each byte.
const ROOM: u64 = 5_000;

/// The two files of a store.
#[derive(Drop)]
pub struct Files {
    pub first: Vec<u8>,
    pub second: Vec<u8>,
}

pub fn files_of(alloc: Global, first: &[u8], second: &[u8]) -> Result<Files, AllocError> {
    Ok(Files {
        first: Vec::from_slice(alloc, first)?,
        second: Vec::from_slice(alloc, second)?,
    })
}

/// From which of its calls on each disk fails.
#[derive(Clone, Copy, Debug)]
pub struct Stops {
    pub first: Option<u64>,
    pub second: Option<u64>,
}

pub const NO_STOP: Stops = Stops {
    first: None,
    second: None,
};

/// One of the disks stops.
pub fn stops_at(second: bool, stop: u64) -> Stops {
    if second {
        return Stops {
            first: None,
            second: Some(stop),
        };
    }
    Stops {
        first: Some(stop),
        second: None,
    }
}

/// Two disks behind calls on them, and whether all of these succeeded.
#[derive(Drop)]
pub struct Attempt {
    pub done: bool,
    pub disk: DiskMemory,
    pub other: DiskMemory,
}

/// The epoch and the number of rounds of what two files keep, and none where they stand for nothing.
pub type Found = Option<(u64, usize)>;

fn disk_with_room(
    alloc: Global,
    file: &[u8],
    room: u64,
    stop: Option<u64>,
) -> Result<DiskMemory, AllocError>
    ensures told { IfOk result (λ disk. IsSome (disk_view disk).told) }
    ensures synced { IfOk result (λ disk. IsSynced (disk_view disk)) }
{
    DiskMemory::new(
        alloc,
        Vec::from_slice(alloc, file)?,
        room,
        Vec::new(alloc),
        stop,
    )
}

/// A disk that holds this file.
pub fn disk_of(alloc: Global, file: &[u8], stop: Option<u64>) -> Result<DiskMemory, AllocError>
    ensures told { IfOk result (λ disk. IsSome (disk_view disk).told) }
    ensures synced { IfOk result (λ disk. IsSynced (disk_view disk)) }
{
    disk_with_room(alloc, file, ROOM, stop)
}

/// A disk that holds this file and is only read.
pub fn read_disk_of(alloc: Global, file: &[u8], stop: Option<u64>) -> Result<DiskMemory, AllocError>
    ensures told { IfOk result (λ disk. IsSome (disk_view disk).told) }
    ensures synced { IfOk result (λ disk. IsSynced (disk_view disk)) }
{
    disk_with_room(alloc, file, 0, stop)
}

/// What two files are opened to.
pub fn found_in(alloc: Global, first: &[u8], second: &[u8]) -> Result<Found, AllocError> {
    let mut disk = read_disk_of(alloc, first, None)?;
    let mut other = read_disk_of(alloc, second, None)?;
    match open_store(alloc, &mut disk, &mut other) {
        Ok((_, kept)) => Ok(Some((kept.epoch, kept.rounds.len()))),
        Err(CallError::Fault(OpenFault::Pair(_))) => Ok(None),
        Err(CallError::Fault(OpenFault::Disk)) => Err(AllocError),
        Err(CallError::NoMemory) => Err(AllocError),
    }
}

impl Files {
    pub fn is_as(&self, files: &Files) -> bool {
        self.first.as_slice() == files.first.as_slice()
            && self.second.as_slice() == files.second.as_slice()
    }
}

impl Attempt {
    /// What a crash leaves.
    pub fn files(&self, fill: &[u8]) -> Result<Files, AllocError> {
        Ok(Files {
            first: self.disk.crash(fill)?,
            second: self.other.crash(fill)?,
        })
    }

    /// What a crash leaves with each fill, but for what is as without one.
    pub fn images(&self, alloc: Global) -> Result<Vec<Files>, AllocError> {
        let plain = self.files(&[])?;
        let mut images = Vec::new(alloc);
        for fill in FILLS {
            let files = self.files(fill)?;
            if !files.is_as(&plain) {
                images.push(files)?;
            }
        }
        images.push(plain)?;
        Ok(images)
    }
}

fn put_eight(out: &mut Vec<u8>, n: u64) -> Result<(), AllocError> {
    out.extend_from_slice(&n.to_le_bytes())
}

/// A run of one row of the cube `t`: x is 4, and the metric is the epoch and 6 more.
fn put_entry(out: &mut Vec<u8>, epoch: u64) -> Result<(), AllocError> {
    out.push(0)?;
    put_eight(out, epoch)?;
    put_eight(out, 1)?;
    out.extend_from_slice(&[4, 0, 0, 0])?;
    put_eight(out, epoch.saturating_add(6))
}

/// A round with a row of each of its epochs, and a gate that is shut.
fn round_bytes(alloc: Global, from: u64, epoch: u64) -> Result<Vec<u8>, AllocError> {
    let mut payload = Vec::new(alloc);
    for n in [1, 1, 2, epoch.saturating_sub(from)] {
        put_eight(&mut payload, n)?;
    }
    for before in from..epoch {
        put_entry(&mut payload, before.saturating_add(1))?;
    }
    let mut out = Vec::new(alloc);
    for n in [epoch, from, payload.len() as u64] {
        put_eight(&mut out, n)?;
    }
    out.extend_from_slice(payload.as_slice())?;
    let digest = digest_of(out.as_slice());
    out.extend_from_slice(&digest)?;
    out.push(0)?;
    Ok(out)
}

/// The round up to an epoch that may stand behind these cubes with these names.
fn round_behind(
    alloc: Global,
    cubes: &[Schema],
    names: &NameLists,
    from: u64,
    epoch: u64,
) -> Result<Round, AllocError>
    ensures from { IfOk result (λ round. round.from ≡ from) }
    ensures fits { IfOk result (λ round. FitsRound cubes.now names.now round) }
{
    let bytes = round_bytes(alloc, from, epoch)?;
    if !have_dims(cubes, names) {
        return Err(AllocError);
    }
    match read_round(alloc, bytes.as_slice(), cubes, names) {
        Ok((round, _)) if round.from == from => Ok(round),
        Ok(_) => Err(AllocError),
        Err(_) => Err(AllocError),
    }
}

/// The next round of a store, up to an epoch.
fn next_round(alloc: Global, store: &Store, kept: &Kept, epoch: u64) -> Result<Round, AllocError>
    requires { kept.now.declared ≤ length kept.now.cubes }
    ensures { IfOk result (λ round. MayFollowKept (kept_before store.now kept.now) round) }
{
    if store.wants_whole() {
        let (cubes, _) = kept.cubes.as_slice().split_at(kept.declared as usize);
        let names = no_names_of(alloc, cubes)?;
        return round_behind(alloc, cubes, &names, 0, epoch);
    }
    round_behind(alloc, kept.cubes.as_slice(), &kept.names, kept.epoch, epoch)
}

/// Adds the next round, and answers whether that succeeds.
pub fn add(
    alloc: Global,
    store: &mut Store,
    kept: &Kept,
    disk: &mut DiskMemory,
    other: &mut DiskMemory,
    epoch: u64,
) -> Result<bool, AllocError>
    requires { IsAt store.old kept.now (disk_view disk.old) (disk_view other.old) }
{
    let round = next_round(alloc, store, kept, epoch)?;
    match store.add_round(disk, other, &round) {
        Ok(()) => Ok(true),
        Err(CallError::Fault(_)) => Ok(false),
        Err(CallError::NoMemory) => Err(AllocError),
    }
}

/// Opens a store and adds the round up to an epoch.
pub fn added(
    alloc: Global,
    files: &Files,
    stops: Stops,
    epoch: u64,
) -> Result<Attempt, AllocError> {
    let mut disk = disk_of(alloc, files.first.as_slice(), stops.first)?;
    let mut other = disk_of(alloc, files.second.as_slice(), stops.second)?;
    let done = match open_store(alloc, &mut disk, &mut other) {
        Ok((mut store, kept)) => add(alloc, &mut store, &kept, &mut disk, &mut other, epoch)?,
        Err(CallError::Fault(_)) => false,
        Err(CallError::NoMemory) => return Err(AllocError),
    };
    Ok(Attempt { done, disk, other })
}
