//! A file that is written anew behind its first gate.

ghost use Rattle.std.specs.Prelude.{◌≡◌, ◌≤◌, ◌↔◌, ◌∷◌, true, Some, IsSome, OnOk, OnErr, IfSome};
ghost use Rattle.outside.specs.Counts.{Rose};
ghost use Rattle.outside_disk.specs.Views.{IsSynced, AnyMoment, LeavesOnly};
ghost use Rattle.cube_rounds.specs.Headers.{open_gate};
ghost use Rattle.gate_writes.specs.Gates.{has_shut_gate, Filling, HasAnyFront, with_shut_front};

use crate::gate::{OPEN_GATE, SHUT_GATE};
use outside_disk::{Disk, Failed, replace_from, write_through};

/// Shuts the first gate of a file, or makes one that is shut where the file is empty.
#[tactic(auto, using(crate::proofs::Fills::from_the_start, crate::proofs::Fills::shutting_moves))]
pub fn shut_front<D: Disk>(disk: &mut D) -> Result<(), Failed>
    requires synced { IsSynced (D.view disk.old) }
    ensures any_moment { AnyMoment HasAnyFront (D.view disk.old) (D.view disk.new) }
    ensures written { IfSome (D.view disk.old).told (λ f.
        OnOk result ((D.view disk.new).told ≡ Some (with_shut_front f))) }
    ensures synced { OnOk result (IsSynced (D.view disk.new)) }
    ensures tells { IsSome (D.view disk.old).told ↔ IsSome (D.view disk.new).told }
    ensures count { (D.view disk.old).faults ≤ (D.view disk.new).faults }
    ensures failed { OnErr result (Rose (D.view disk.old).faults (D.view disk.new).faults) }
    ensures quiet { OnOk result ((D.view disk.new).faults ≡ (D.view disk.old).faults) }
{
    write_through(disk, 0, &[SHUT_GATE])
}

/// Writes bytes behind the first gate of a file, which is shut, and then opens it.
#[tactic(auto, using(crate::proofs::Fills::from_the_start, crate::proofs::Fills::shut_is_long, crate::proofs::Fills::filling_begun))]
pub fn fill_file<D: Disk>(disk: &mut D, bytes: &[u8]) -> Result<(), Failed>
    requires shut { IfSome (D.view disk.old).told (λ f. has_shut_gate f ≡ true) }
    requires synced { IsSynced (D.view disk.old) }
    ensures any_moment { IfSome (D.view disk.old).told (λ f.
        LeavesOnly (D.view disk.old) (D.view disk.new) (Filling bytes.now)) }
    ensures written { IfSome (D.view disk.old).told (λ f.
        OnOk result ((D.view disk.new).told ≡ Some (open_gate ∷ bytes.now))) }
    ensures synced { OnOk result (IsSynced (D.view disk.new)) }
    ensures tells { IsSome (D.view disk.old).told ↔ IsSome (D.view disk.new).told }
    ensures count { (D.view disk.old).faults ≤ (D.view disk.new).faults }
    ensures failed { OnErr result (Rose (D.view disk.old).faults (D.view disk.new).faults) }
    ensures quiet { OnOk result ((D.view disk.new).faults ≡ (D.view disk.old).faults) }
{
    replace_from(disk, 1, bytes)?;
    write_through(disk, 0, &[OPEN_GATE])
}
