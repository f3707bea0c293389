//! Opening of a store.

ghost use Rattle.std.specs.Prelude.{◌≡◌, ◌⊎◌, ◌↔◌, length, IfOk, IfSome, IsSome, IsErrOf, MatchResult};
ghost use Rattle.cube_rounds.specs.Stands.{Kept as KeptData, Stands};
ghost use Rattle.cube_values.specs.declared.call_error.CallError.TheVariants.{Fault, NoMemory};
ghost use Rattle.outside.specs.Counts.{Rose};
ghost use Rattle.outside_disk.specs.Reads.{IsUntouched};
ghost use Rattle.outside_disk.specs.Views.{IsSynced};
ghost use Rattle.sha2.specs.Sha256.{sha256};
ghost use Rattle.store_reading.specs.Pairs.{file_of};
ghost use Rattle.round_store.specs.Counts.{counts_of};
ghost use Rattle.round_store.specs.Opening.{OpensFiles, OpensFilesAs, IsNoRefusal};
ghost use Rattle.round_store.specs.States.{HoldsForFiles, IsStoreOf, AreFilesOf, IsAt};
ghost use Rattle.round_store.specs.declared.fault.OpenFault.TheVariants.{Disk as DiskFault};

use crate::data::{StoreData, counts_of};
use crate::fault::OpenFault;
use crate::store::Store;
use cube_schema::copy_cubes;
use cube_values::CallError;
use gate_writes::has_shut_gate;
use outside_disk::{Disk, read_disk};
use std::alloc::{AllocError, Global};
use store_reading::{Kept, StorePlace, read_pair};

/// A store of what is kept, which goes on at this place; `shut` tells whether the other file has a gate
/// that is shut.
pub(crate) fn store_of(
    alloc: Global,
    kept: &Kept,
    place: StorePlace,
    shut: bool,
) -> Result<Store, AllocError>
    ensures { IfOk result (λ s. s ≡ record {
      cubes = kept.now.cubes;
      declared = kept.now.declared;
      rounds = length kept.now.rounds;
      counts = counts_of kept.now.names;
      place = place;
      shut = shut;
    }) }
{
    let cubes = copy_cubes(alloc, kept.cubes.as_slice())?;
    let counts = counts_of(alloc, kept.names.as_slice())?;
    Ok(Store {
        alloc,
        data: StoreData::new(alloc, cubes, counts)?,
        declared: kept.declared,
        rounds: kept.rounds.len() as u64,
        place,
        shut,
    })
}

/// The store that two files stand for.
fn store_of_files(
    alloc: Global,
    first: &[u8],
    second: &[u8],
) -> Result<(Store, Kept), CallError<OpenFault>>
    ensures store { IfOk result (λ x. IsStoreOf x.0 x.1) }
    ensures files { IfOk result (λ x. AreFilesOf x.0 x.1
        (file_of x.0.place.second first.now second.now)
        (file_of x.0.place.second second.now first.now)) }
    ensures only { (kept : KeptData) → Stands sha256 kept first.now second.now
        → MatchResult result (λ x. x.1 ≡ kept) (λ e. e ≡ NoMemory) }
    ensures exact { OpensFilesAs result first.now second.now }
    ensures never { IsErrOf result (Fault DiskFault) → ⊥ }
{
    match read_pair(alloc, first, second) {
        Ok(opened) => {
            let place = opened.place;
            let shut = has_shut_gate(if place.second { first } else { second });
            let store = store_of(alloc, &opened.kept, place, shut)?;
            Ok((store, opened.kept))
        }
        Err(CallError::Fault(fault)) => Err(CallError::Fault(OpenFault::Pair(fault))),
        Err(CallError::NoMemory) => Err(CallError::NoMemory),
    }
}

/// The bytes of a disk's file.
fn file_of_disk<D: Disk>(alloc: Global, disk: &mut D) -> Result<Vec<u8>, CallError<OpenFault>>
    ensures bytes { IfSome (D.view disk.old).told (λ f.
        IfOk result (λ bytes. bytes.items ≡ f)) }
    ensures untouched { IsUntouched (D.view disk.old) (D.view disk.new) }
    ensures failed { IsErrOf result (Fault DiskFault)
        → Rose (D.view disk.old).faults (D.view disk.new).faults }
    ensures other { MatchResult result (λ bytes. Unit {0}) IsNoRefusal }
{
    match read_disk(alloc, disk) {
        Ok(bytes) => Ok(bytes),
        Err(CallError::Fault(_)) => Err(CallError::Fault(OpenFault::Disk)),
        Err(CallError::NoMemory) => Err(CallError::NoMemory),
    }
}

/// The store that two disks stand for, and what it keeps. Each disk has one image; both tell their
/// files, or neither does. The disks stay as they are.
///
/// What the two files stand for is answered, and where they stand for nothing the first fault of the
/// reading of both; from disks that do not tell their files, the answer for some two files. `Disk` comes
/// only where a disk's count rose. It takes time by the number of bytes.
pub fn open_store<D: Disk>(
    alloc: Global,
    disk: &mut D,
    other: &mut D,
) -> Result<(Store, Kept), CallError<OpenFault>>
    requires first_synced { IsSynced (D.view disk.old) }
    requires second_synced { IsSynced (D.view other.old) }
    requires both { IsSome (D.view disk.old).told ↔ IsSome (D.view other.old).told }
    ensures stands { IfOk result (λ x. IsAt x.0 x.1 (D.view disk.new) (D.view other.new)) }
    ensures opens { HoldsForFiles (D.view disk.old) (D.view other.old) (OpensFiles result) }
    ensures first_untouched { IsUntouched (D.view disk.old) (D.view disk.new) }
    ensures second_untouched { IsUntouched (D.view other.old) (D.view other.new) }
    ensures failed { IsErrOf result (Fault DiskFault)
        → Rose (D.view disk.old).faults (D.view disk.new).faults
        ⊎ Rose (D.view other.old).faults (D.view other.new).faults }
{
    let first = file_of_disk(alloc, disk)?;
    let second = file_of_disk(alloc, other)?;
    store_of_files(alloc, first.as_slice(), second.as_slice())
}
