//! A round behind those of a file.

ghost use Rattle.std.specs.Prelude.{◌≡◌, ◌+◌, ◌<◌, ◌≤◌, ◌^◌, ℕ, List, length, OnOk, OnErr, IfSome, ◌↔◌, IsSome};
ghost use Rattle.outside.specs.Counts.{Rose};
ghost use Rattle.outside_disk.specs.Views.{IsSynced, LeavesOnly};
ghost use Rattle.gate_writes.specs.Gates.{EndsShut, EndsOpen, Appending};

use crate::gate::OPEN_GATE;
use outside_disk::{Disk, Failed, write_through};

/// Writes bytes behind the gate that is shut at a place, and then opens this gate. A crash at any
/// moment leaves the file up to the gate as it was: with a gate that is shut, or one that is open with
/// these bytes behind it.
#[tactic(auto, using(crate::proofs::Writes::next_place, crate::proofs::Writes::place_stays))]
pub fn append_bytes<D: Disk>(disk: &mut D, end: u64, bytes: &[u8]) -> Result<(), Failed>
    requires place { IfSome (D.view disk.old).told (λ f. end < length f) }
    requires small { end + 1 < 2 ^ 64 }
    requires synced { IsSynced (D.view disk.old) }
    ensures any_moment { (front : List ℕ) → length front ≡ end
        → IfSome (D.view disk.old).told (λ f. EndsShut front f
        → LeavesOnly (D.view disk.old) (D.view disk.new) (Appending front bytes.now)) }
    ensures written { (front : List ℕ) → length front ≡ end
        → IfSome (D.view disk.old).told (λ f. EndsShut front f
        → OnOk result (IfSome (D.view disk.new).told (EndsOpen front bytes.now))) }
    ensures synced { OnOk result (IsSynced (D.view disk.new)) }
    ensures tells { IsSome (D.view disk.old).told ↔ IsSome (D.view disk.new).told }
    ensures count { (D.view disk.old).faults ≤ (D.view disk.new).faults }
    ensures failed { OnErr result (Rose (D.view disk.old).faults (D.view disk.new).faults) }
    ensures quiet { OnOk result ((D.view disk.new).faults ≡ (D.view disk.old).faults) }
{
    write_through(disk, end + 1, bytes)?;
    write_through(disk, end, &[OPEN_GATE])
}
