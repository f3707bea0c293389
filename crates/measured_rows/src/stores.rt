//! A store with one round, opened, and its file read.

ghost use Rattle.std.specs.Prelude.{◌≡◌, IfOk, IsSome};
ghost use Rattle.cube_rounds.specs.Stands.{Kept};
ghost use Rattle.outside_disk.specs.Memory.{disk_view};
ghost use Rattle.outside_disk.specs.Views.{IsSynced};
ghost use Rattle.round_store.specs.States.{StoreState, IsAt};

use crate::round_made::store_of;
use cube_values::CallError;
use outside_disk::{DiskMemory, read_disk};
use round_store::open_store;
use std::alloc::{AllocError, Global};
use std::io;
use std::time::{Clock, Instant};
use timed_work::{Measured, measured_since};

/// A disk that holds this file and is only read.
fn disk_of(alloc: Global, file: Vec<u8>) -> Result<DiskMemory, AllocError>
    ensures told { IfOk result (λ disk. IsSome (disk_view disk).told) }
    ensures synced { IfOk result (λ disk. IsSynced (disk_view disk)) }
{
    DiskMemory::new(alloc, file, 0, Vec::new(alloc), None)
}

/// The time that it takes to read the file of a store with so many rows from a disk in memory. The checksum is the
/// number of its bytes. The errors are those of the clock, and want of memory.
pub fn measure_store_read<R: Clock>(clock: &R, alloc: Global, items: u32) -> io::Result<Measured> {
    let mut disk = disk_of(alloc, store_of(alloc, items)?)?;
    let start = Instant::now(clock)?;
    match read_disk(alloc, &mut disk) {
        Ok(bytes) => measured_since(clock, start, bytes.len() as u64),
        Err(_) => Err(io::Error::from(AllocError)),
    }
}

/// The epoch up to which two disks keep everything. They hold a store, so only memory can be wanted here.
fn opened_epoch(
    alloc: Global,
    disk: &mut DiskMemory,
    other: &mut DiskMemory,
) -> Result<u64, AllocError>
    requires first_told { IsSome (disk_view disk.old).told }
    requires second_told { IsSome (disk_view other.old).told }
    requires first_synced { IsSynced (disk_view disk.old) }
    requires second_synced { IsSynced (disk_view other.old) }
    ensures { IfOk result (λ epoch. (store : StoreState) × (kept : Kept)
        × IsAt store kept (disk_view disk.new) (disk_view other.new) × (epoch ≡ kept.epoch)) }
{
    match open_store(alloc, disk, other) {
        Ok((_, kept)) => Ok(kept.epoch),
        Err(CallError::Fault(_)) => Err(AllocError),
        Err(CallError::NoMemory) => Err(AllocError),
    }
}

/// The time that it takes to open a store with so many rows over disks in memory. The checksum is the epoch of the
/// store. The errors are those of the clock, and want of memory.
pub fn measure_store_open<R: Clock>(clock: &R, alloc: Global, items: u32) -> io::Result<Measured> {
    let mut disk = disk_of(alloc, store_of(alloc, items)?)?;
    let mut other = disk_of(alloc, Vec::new(alloc))?;
    let start = Instant::now(clock)?;
    let epoch = opened_epoch(alloc, &mut disk, &mut other)?;
    measured_since(clock, start, epoch)
}
