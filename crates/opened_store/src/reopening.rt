//! A store that two files stand for.

ghost use Rattle.std.specs.Prelude.{◌≡◌, ◌≤◌, ◌⊎◌, ◌↔◌, length, IfOk, IsErrOf, IsSome};
ghost use Rattle.cube_values.specs.declared.call_error.CallError.TheVariants.{Fault};
ghost use Rattle.kept_data.specs.KeptFiles.{IsKeptByFile};
ghost use Rattle.outside.specs.Counts.{Rose};
ghost use Rattle.outside_disk.specs.Reads.{IsUntouched};
ghost use Rattle.outside_disk.specs.Views.{IsSynced};
ghost use Rattle.round_store.specs.States.{IsAt, HoldsForFiles};
ghost use Rattle.opened_store.specs.declared.fault.StoreFault.TheVariants.{DiskFault};
ghost use Rattle.opened_store.specs.Causes.{FitsRun};
ghost use Rattle.opened_store.specs.Opened.{ShowsFiles};
ghost use Rattle.opened_store.specs.Steps.{fault_of_open, IsGivenFor};

use crate::fault::{StoreFault, fault_of_pair};
use crate::fitting::fault_of_kept;
use cube_schema::Schema;
use cube_values::CallError;
use kept_data::kept_data_are_sound;
use outside_disk::Disk;
use round_store::{OpenFault, Store, open_store};
use std::alloc::Global;
use store_reading::Kept;

/// A store, and what it keeps.
#[derive(Drop)]
pub struct OpenedStore {
    pub store: Store,
    pub kept: Kept,
}

/// Why a store is not opened, as a fault of the run.
fn fault_of_open(fault: OpenFault) -> StoreFault
    ensures { result ≡ fault_of_open fault }
{
    match fault {
        OpenFault::Pair(fault) => fault_of_pair(fault),
        OpenFault::Disk => StoreFault::DiskFault,
    }
}

/// A store, where a run over these cubes can go on from what it keeps.
fn store_for(
    store: Store,
    kept: Kept,
    cubes: &[Schema],
) -> Result<OpenedStore, CallError<StoreFault>>
    requires { kept.declared ≤ length kept.cubes }
    ensures { IsGivenFor cubes.now store kept result }
{
    match fault_of_kept(&kept, cubes) {
        None => Ok(OpenedStore { store, kept }),
        Some(fault) => Err(CallError::Fault(fault)),
    }
}

/// Opens the store of two disks for a run over these cubes. Each disk has one image and stays as it is.
pub(crate) fn open_for_run<D: Disk>(
    alloc: Global,
    cubes: &[Schema],
    disk: &mut D,
    other: &mut D,
) -> Result<OpenedStore, CallError<StoreFault>>
    requires first_synced { IsSynced (D.view disk.old) }
    requires second_synced { IsSynced (D.view other.old) }
    requires both { IsSome (D.view disk.old).told ↔ IsSome (D.view other.old).told }
    ensures opens { HoldsForFiles (D.view disk.old) (D.view other.old)
        (ShowsFiles cubes.now result) }
    ensures at { IfOk result (λ o. IsAt o.store o.kept (D.view disk.new) (D.view other.new)) }
    ensures kept { IfOk result (λ o. IsKeptByFile o.kept) }
    ensures fits { IfOk result (λ o. FitsRun cubes.now o.kept) }
    ensures first_untouched { IsUntouched (D.view disk.old) (D.view disk.new) }
    ensures second_untouched { IsUntouched (D.view other.old) (D.view other.new) }
    ensures failed { IsErrOf result (Fault DiskFault)
        → Rose (D.view disk.old).faults (D.view disk.new).faults
        ⊎ Rose (D.view other.old).faults (D.view other.new).faults }
{
    kept_data_are_sound();
    match open_store(alloc, disk, other) {
        Ok((store, kept)) => store_for(store, kept, cubes),
        Err(CallError::Fault(fault)) => Err(CallError::Fault(fault_of_open(fault))),
        Err(CallError::NoMemory) => Err(CallError::NoMemory),
    }
}
