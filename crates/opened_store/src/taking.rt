//! The store of a run.

ghost use Rattle.std.specs.Prelude.{◌≡◌, ◌≤◌, ◌⊎◌, ◌↔◌, false, IfOk, IsErrOf, IsSome};
ghost use Rattle.cube_schema.specs.Texts.{AreDeclared};
ghost use Rattle.cube_values.specs.declared.call_error.CallError.TheVariants.{Fault, NoMemory};
ghost use Rattle.kept_data.specs.KeptFiles.{IsKeptByFile};
ghost use Rattle.outside.specs.Counts.{Rose};
ghost use Rattle.outside_disk.specs.Views.{IsSynced};
ghost use Rattle.round_store.specs.States.{IsAt, WhereTold};
ghost use Rattle.opened_store.specs.declared.fault.StoreFault.TheVariants.{DiskFault};
ghost use Rattle.opened_store.specs.Causes.{FitsRun};
ghost use Rattle.opened_store.specs.Meanwhile.{AreUntouched, KeepTo, MayBeTaken};
ghost use Rattle.opened_store.specs.Opened.{TakesStore};

use crate::choosing::choose_files;
use crate::creating::create_for_run;
use crate::fault::StoreFault;
use crate::reopening::{OpenedStore, open_for_run};
use cube_schema::Schema;
use cube_values::CallError;
use outside_disk::Disk;
use std::alloc::Global;

/// Creates or opens the store of a run on two disks whose files are fixed.
fn store_on<D: Disk>(
    alloc: Global,
    is_new: bool,
    cubes: &[Schema],
    disk: &mut D,
    other: &mut D,
) -> Result<OpenedStore, CallError<StoreFault>>
    requires declared { AreDeclared cubes.now }
    requires first_synced { IsSynced (D.view disk.old) }
    requires second_synced { IsSynced (D.view other.old) }
    requires both { IsSome (D.view disk.old).told ↔ IsSome (D.view other.old).told }
    ensures takes { TakesStore is_new cubes.now (D.view disk.old) (D.view other.old) result }
    ensures at { IfOk result (λ o. IsAt o.store o.kept (D.view disk.new) (D.view other.new)) }
    ensures kept { IfOk result (λ o. IsKeptByFile o.kept) }
    ensures fits { IfOk result (λ o. FitsRun cubes.now o.kept) }
    ensures moves { WhereTold (D.view disk.old) (D.view other.old) (λ f g.
        KeepTo (MayBeTaken is_new cubes.now f g) f (D.view disk.old) (D.view disk.new)
        (D.view other.old) (D.view other.new)) }
    ensures still { (is_new ≡ false) ⊎ IsErrOf result NoMemory
        → AreUntouched (D.view disk.old) (D.view disk.new) (D.view other.old) (D.view other.new) }
    ensures first_tells { IsSome (D.view disk.old).told ↔ IsSome (D.view disk.new).told }
    ensures second_tells { IsSome (D.view other.old).told ↔ IsSome (D.view other.new).told }
    ensures first_count { (D.view disk.old).faults ≤ (D.view disk.new).faults }
    ensures second_count { (D.view other.old).faults ≤ (D.view other.new).faults }
    ensures failed { IsErrOf result (Fault DiskFault)
        → Rose (D.view disk.old).faults (D.view disk.new).faults
        ⊎ Rose (D.view other.old).faults (D.view other.new).faults }
{
    if is_new {
        create_for_run(alloc, cubes, disk, other)
    } else {
        open_for_run(alloc, cubes, disk, other)
    }
}

/// Takes the store of a run over these cubes, which some text declares. Its two files are those of the name
/// on `disk` and of the name with `.2` at its end on `other`; they are fixed first. Each disk has one image;
/// both tell their files, or neither does. A new store is created in place of what the files were. An old
/// one is opened, and the disks stay as they are; so they do where memory runs out. In any case each disk
/// tells its file where it did before, and its count of faults has not fallen.
///
/// Of an old store the first fault that applies is answered: a disk failed; the first fault of the two
/// files; the cubes of its header are not those of the run; no epochs are left. A new store is refused only
/// by a disk. From disks that do not tell their files the answer is that of some two files.
///
/// What the store keeps may be opened as a core: it is kept by a file, up to an epoch of at most 2^61.
pub fn take_store<D: Disk>(
    alloc: Global,
    name: &str,
    is_new: bool,
    cubes: &[Schema],
    disk: &mut D,
    other: &mut D,
) -> Result<OpenedStore, CallError<StoreFault>>
    requires declared { AreDeclared cubes.now }
    requires first_synced { IsSynced (D.view disk.old) }
    requires second_synced { IsSynced (D.view other.old) }
    requires both { IsSome (D.view disk.old).told ↔ IsSome (D.view other.old).told }
    ensures takes { TakesStore is_new cubes.now (D.view disk.old) (D.view other.old) result }
    ensures at { IfOk result (λ o. IsAt o.store o.kept (D.view disk.new) (D.view other.new)) }
    ensures kept { IfOk result (λ o. IsKeptByFile o.kept) }
    ensures fits { IfOk result (λ o. FitsRun cubes.now o.kept) }
    ensures moves { WhereTold (D.view disk.old) (D.view other.old) (λ f g.
        KeepTo (MayBeTaken is_new cubes.now f g) f (D.view disk.old) (D.view disk.new)
        (D.view other.old) (D.view other.new)) }
    ensures still { (is_new ≡ false) ⊎ IsErrOf result NoMemory
        → AreUntouched (D.view disk.old) (D.view disk.new) (D.view other.old) (D.view other.new) }
    ensures first_tells { IsSome (D.view disk.old).told ↔ IsSome (D.view disk.new).told }
    ensures second_tells { IsSome (D.view other.old).told ↔ IsSome (D.view other.new).told }
    ensures first_count { (D.view disk.old).faults ≤ (D.view disk.new).faults }
    ensures second_count { (D.view other.old).faults ≤ (D.view other.new).faults }
    ensures failed { IsErrOf result (Fault DiskFault)
        → Rose (D.view disk.old).faults (D.view disk.new).faults
        ⊎ Rose (D.view other.old).faults (D.view other.new).faults }
{
    match choose_files(alloc, name, disk, other) {
        Ok(()) => store_on(alloc, is_new, cubes, disk, other),
        Err(CallError::Fault(_)) => Err(CallError::Fault(StoreFault::DiskFault)),
        Err(CallError::NoMemory) => Err(CallError::NoMemory),
    }
}
