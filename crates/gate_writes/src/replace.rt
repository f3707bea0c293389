//! A file that is replaced.

ghost use Rattle.std.specs.Prelude.{◌≡◌, ◌≤◌, ◌∷◌, Some, OnOk, OnErr, IfSome, ◌↔◌, IsSome};
ghost use Rattle.cube_rounds.specs.Headers.{open_gate};
ghost use Rattle.outside.specs.Counts.{Rose};
ghost use Rattle.outside_disk.specs.Views.{IsSynced, LeavesOnly};
ghost use Rattle.gate_writes.specs.Gates.{has_shut_gate, Replacing};

use crate::fill::{fill_file, shut_front};
use outside_disk::{Disk, Failed};

/// Replaces a file by these bytes behind an open gate. `shut` tells whether its first gate is there and
/// shut already; such a gate is not written before the bytes behind it are safe. A crash at any moment
/// leaves the old file, a closed one, or the new one.
#[tactic(auto, using(crate::proofs::Fills::replacing_started, crate::proofs::Fills::shut_after, crate::proofs::Fills::replaced_file))]
pub fn replace_file<D: Disk>(disk: &mut D, shut: bool, bytes: &[u8]) -> Result<(), Failed>
    requires gate { IfSome (D.view disk.old).told (λ f. has_shut_gate f ≡ shut) }
    requires synced { IsSynced (D.view disk.old) }
    ensures any_moment { IfSome (D.view disk.old).told (λ f.
        LeavesOnly (D.view disk.old) (D.view disk.new) (Replacing f bytes.now)) }
    ensures written { IfSome (D.view disk.old).told (λ f.
        OnOk result ((D.view disk.new).told ≡ Some (open_gate ∷ bytes.now))) }
    ensures synced { OnOk result (IsSynced (D.view disk.new)) }
    ensures tells { IsSome (D.view disk.old).told ↔ IsSome (D.view disk.new).told }
    ensures count { (D.view disk.old).faults ≤ (D.view disk.new).faults }
    ensures failed { OnErr result (Rose (D.view disk.old).faults (D.view disk.new).faults) }
    ensures quiet { OnOk result ((D.view disk.new).faults ≡ (D.view disk.old).faults) }
{
    if shut {
        return fill_file(disk, bytes);
    }
    shut_front(disk)?;
    fill_file(disk, bytes)
}
