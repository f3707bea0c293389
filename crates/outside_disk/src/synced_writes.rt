//! Writing from a synced disk to a synced disk.

ghost use Rattle.std.specs.Prelude.{◌≡◌, ◌≤◌, ◌↔◌, length, take, ◌++◌, Some, IsSome, OnOk, OnErr, IfSome};
ghost use Rattle.outside.specs.Counts.{Rose};
ghost use Rattle.outside_disk.specs.Views.{IsSynced, AnyMoment};
ghost use Rattle.outside_disk.specs.Effects.{Torn, AnyFrom, with_bytes};

use crate::disk::{Disk, Failed};

/// Writes bytes and syncs. A crash at any moment leaves the file with any bytes in the range of the
/// write and past its old end, and the same elsewhere.
pub fn write_through<D: Disk>(disk: &mut D, at: u64, bytes: &[u8]) -> Result<(), Failed>
    requires at { IfSome (D.view disk.old).told (λ f. at ≤ length f) }
    requires synced { IsSynced (D.view disk.old) }
    ensures written { IfSome (D.view disk.old).told (λ f.
        OnOk result ((D.view disk.new).told ≡ Some (with_bytes at bytes.now f))) }
    ensures synced { OnOk result (IsSynced (D.view disk.new)) }
    ensures tells { IsSome (D.view disk.old).told ↔ IsSome (D.view disk.new).told }
    ensures any_moment { AnyMoment (Torn at (length bytes.now))
        (D.view disk.old) (D.view disk.new) }
    ensures count { (D.view disk.old).faults ≤ (D.view disk.new).faults }
    ensures failed { OnErr result (Rose (D.view disk.old).faults (D.view disk.new).faults) }
    ensures quiet { OnOk result ((D.view disk.new).faults ≡ (D.view disk.old).faults) }
{
    disk.write_at(at, bytes)?;
    disk.sync()
}

/// Cuts the file to a length, writes bytes there and syncs. A crash at any moment leaves the file the
/// same up to the cut, and behind it any bytes, at most as many as there were or are written.
pub fn replace_from<D: Disk>(disk: &mut D, at: u64, bytes: &[u8]) -> Result<(), Failed>
    requires at { IfSome (D.view disk.old).told (λ f. at ≤ length f) }
    requires synced { IsSynced (D.view disk.old) }
    ensures written { IfSome (D.view disk.old).told (λ f.
        OnOk result ((D.view disk.new).told ≡ Some (take at f ++ bytes.now))) }
    ensures synced { OnOk result (IsSynced (D.view disk.new)) }
    ensures tells { IsSome (D.view disk.old).told ↔ IsSome (D.view disk.new).told }
    ensures any_moment { AnyMoment (AnyFrom at (length bytes.now))
        (D.view disk.old) (D.view disk.new) }
    ensures count { (D.view disk.old).faults ≤ (D.view disk.new).faults }
    ensures failed { OnErr result (Rose (D.view disk.old).faults (D.view disk.new).faults) }
    ensures quiet { OnOk result ((D.view disk.new).faults ≡ (D.view disk.old).faults) }
{
    disk.cut(at)?;
    disk.write_at(at, bytes)?;
    disk.sync()
}
