//! A new store for a run.

ghost use Rattle.std.specs.Prelude.{◌≡◌, ◌≤◌, ◌⊎◌, ◌↔◌, IfOk, IsErrOf, IsSome};
ghost use Rattle.cube_rounds.specs.Stands.{kept_of_cubes};
ghost use Rattle.cube_schema.specs.Texts.{AreDeclared};
ghost use Rattle.cube_values.specs.Faults.{IfFault};
ghost use Rattle.cube_values.specs.declared.call_error.CallError.TheVariants.{NoMemory};
ghost use Rattle.kept_data.specs.KeptFiles.{IsKeptByFile};
ghost use Rattle.outside.specs.Counts.{Rose};
ghost use Rattle.outside_disk.specs.Views.{IsSynced};
ghost use Rattle.round_store.specs.Creation.{AreCreating};
ghost use Rattle.round_store.specs.States.{IsAt, WhereTold};
ghost use Rattle.opened_store.specs.Causes.{FitsRun};
ghost use Rattle.opened_store.specs.Meanwhile.{KeepTo};
ghost use Rattle.opened_store.specs.Opened.{CreatesStore};

use crate::fault::StoreFault;
use crate::reopening::OpenedStore;
use cube_schema::{Schema, copy_cubes, print_cubes, what_is_printed_declares_its_cubes};
use cube_values::CallError;
use kept_data::kept_data_are_sound;
use outside_disk::Disk;
use round_store::create_store;
use round_text::canonical_texts_are_short;
use std::alloc::{AllocError, Global};
use store_reading::Kept;

/// What a run over these cubes begins with where it opens no store.
pub fn kept_at_start(alloc: Global, cubes: &[Schema]) -> Result<Kept, AllocError>
    requires { AreDeclared cubes.now }
    ensures cubes { IfOk result (λ kept. kept ≡ kept_of_cubes cubes.now) }
    ensures kept { IfOk result (λ kept. IsKeptByFile kept) }
    ensures fits { IfOk result (λ kept. FitsRun cubes.now kept) }
{
    kept_data_are_sound();
    Kept::of_cubes(alloc, copy_cubes(alloc, cubes)?)
}

/// Creates a store for these cubes on two disks, each of which has one image.
pub(crate) fn create_for_run<D: Disk>(
    alloc: Global,
    cubes: &[Schema],
    disk: &mut D,
    other: &mut D,
) -> Result<OpenedStore, CallError<StoreFault>>
    requires declared { AreDeclared cubes.now }
    requires first_synced { IsSynced (D.view disk.old) }
    requires second_synced { IsSynced (D.view other.old) }
    requires both { IsSome (D.view disk.old).told ↔ IsSome (D.view other.old).told }
    ensures creates { CreatesStore cubes.now result }
    ensures at { IfOk result (λ o. IsAt o.store o.kept (D.view disk.new) (D.view other.new)) }
    ensures kept { IfOk result (λ o. IsKeptByFile o.kept) }
    ensures fits { IfOk result (λ o. FitsRun cubes.now o.kept) }
    ensures moves { WhereTold (D.view disk.old) (D.view other.old) (λ f g.
        KeepTo (AreCreating cubes.now f g) f (D.view disk.old) (D.view disk.new)
        (D.view other.old) (D.view other.new)) }
    ensures first_tells { IsSome (D.view disk.old).told ↔ IsSome (D.view disk.new).told }
    ensures second_tells { IsSome (D.view other.old).told ↔ IsSome (D.view other.new).told }
    ensures first_count { (D.view disk.old).faults ≤ (D.view disk.new).faults }
    ensures second_count { (D.view other.old).faults ≤ (D.view other.new).faults }
    ensures memory { IsErrOf result NoMemory
        → (disk.new ≡ disk.old) × (other.new ≡ other.old) }
    ensures failed { IfFault result (λ fault.
        Rose (D.view disk.old).faults (D.view disk.new).faults
        ⊎ Rose (D.view other.old).faults (D.view other.new).faults) }
{
    what_is_printed_declares_its_cubes();
    canonical_texts_are_short();
    let text = print_cubes(alloc, cubes)?;
    let kept = kept_at_start(alloc, cubes)?;
    match create_store(alloc, disk, other, text.as_slice()) {
        Ok(store) => Ok(OpenedStore { store, kept }),
        Err(CallError::Fault(_)) => Err(CallError::Fault(StoreFault::DiskFault)),
        Err(CallError::NoMemory) => Err(CallError::NoMemory),
    }
}
