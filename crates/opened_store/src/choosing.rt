//! The two files of a store by their names.

ghost use Rattle.std.specs.Prelude.{◌≡◌, ◌⊎◌, ◌++◌, IfOk, OnErr, codes, string_bytes};
ghost use Rattle.cube_values.specs.Faults.{IfFault};
ghost use Rattle.outside.specs.Counts.{Rose};
ghost use Rattle.outside_disk.specs.Reads.{IsUntouched};

use cube_values::CallError;
use outside_disk::{Disk, Failed};
use std::alloc::{AllocError, Global};

/// The name of the second file of a store, by that of the first.
fn second_name(alloc: Global, name: &str) -> Result<String, AllocError>
    ensures { IfOk result (λ second. string_bytes second ≡ name.now ++ codes ".2") }
{
    format!(in alloc; "{name}.2")
}

/// Fixes the files of two disks.
fn choose_both<D: Disk>(disk: &mut D, name: &str, other: &mut D, second: &str) -> Result<(), Failed>
    ensures first_untouched { IsUntouched (D.view disk.old) (D.view disk.new) }
    ensures second_untouched { IsUntouched (D.view other.old) (D.view other.new) }
    ensures failed { OnErr result (Rose (D.view disk.old).faults (D.view disk.new).faults
        ⊎ Rose (D.view other.old).faults (D.view other.new).faults) }
{
    disk.choose(name)?;
    other.choose(second)
}

/// Fixes the two files of the store of this name, whose second file has the name with `.2` at its end.
pub(crate) fn choose_files<D: Disk>(
    alloc: Global,
    name: &str,
    disk: &mut D,
    other: &mut D,
) -> Result<(), CallError<Failed>>
    ensures first_untouched { IsUntouched (D.view disk.old) (D.view disk.new) }
    ensures second_untouched { IsUntouched (D.view other.old) (D.view other.new) }
    ensures failed { IfFault result (λ fault.
        Rose (D.view disk.old).faults (D.view disk.new).faults
        ⊎ Rose (D.view other.old).faults (D.view other.new).faults) }
{
    let second = second_name(alloc, name)?;
    match choose_both(disk, name, other, second.as_str()) {
        Ok(()) => Ok(()),
        Err(fault) => Err(CallError::Fault(fault)),
    }
}
