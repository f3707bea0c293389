//! A new store.

ghost use Rattle.std.specs.Prelude.{◌≡◌, ◌≤◌, ◌⊎◌, ◌∷◌, ◌==◌, ◌↔◌, ℕ, List, false, length, drop, Some, IfOk, OnOk, OnErr, IfSome, IsSome, IsErrOf};
ghost use Rattle.cube_values.specs.declared.call_error.CallError.TheVariants.{NoMemory};
ghost use Rattle.cube_values.specs.Faults.{IfFault};
ghost use Rattle.cube_language.specs.declared.decl.Decl.{Decl};
ghost use Rattle.cube_rounds.specs.Headers.{IsCanonical, open_gate, FitsHeader};
ghost use Rattle.cube_rounds.specs.Stands.{kept_of_cubes};
ghost use Rattle.gate_writes.specs.Gates.{Filling, HasAnyFront, has_shut_gate};
ghost use Rattle.outside.specs.Counts.{Rose};
ghost use Rattle.outside_disk.specs.Reads.{IsUntouched};
ghost use Rattle.outside_disk.specs.Views.{IsSynced, AnyMoment, LeavesOnly};
ghost use Rattle.round_store.specs.Creation.{AreCreating, with_any_front_shut, IsShutNow};
ghost use Rattle.round_store.specs.States.{whole_place, IsStoreOf, IsAt, WhereTold};
ghost use Rattle.round_store.specs.Wholes.{IsBegun};

use crate::old_store::store_of;
use crate::store::Store;
use cube_schema::a_text_declares_or_has_one_fault;
use cube_values::CallError;
use gate_writes::{fill_file, shut_front};
use outside_disk::{Disk, Failed};
use round_text::write_header;
use std::alloc::{AllocError, Global};
use store_reading::{Kept, StorePlace, declared_cubes};

/// A store without rounds for these cubes, and the bytes of its file.
#[tactic(auto, using(crate::proofs::NewLaws::has_first))]
fn new_store(alloc: Global, cubes: &[u8]) -> Result<(Store, Vec<u8>), AllocError>
    requires fits { FitsHeader 1 cubes.now }
    ensures store { (list : List Decl) → IsCanonical cubes.now list
        → IfOk result (λ x. IsStoreOf x.0 (kept_of_cubes list)) }
    ensures begun { IfOk result (λ x. IsBegun 1 cubes.now (drop 1 x.1.items)) }
    ensures place { IfOk result (λ x. x.0.place ≡ whole_place false 1 (drop 1 x.1.items)) }
    ensures long { IfOk result (λ x. 1 ≤ length x.1.items) }
{
    a_text_declares_or_has_one_fault();
    let kept = Kept::of_cubes(alloc, declared_cubes(alloc, cubes)?)?;
    let file = write_header(alloc, 1, cubes)?;
    let place = StorePlace {
        second: false,
        generation: 1,
        end: file.len() as u64 - 1,
    };
    let store = store_of(alloc, &kept, place, false)?;
    Ok((store, file))
}

/// Whether a file has no bytes.
fn is_empty<D: Disk>(disk: &mut D) -> Result<bool, Failed>
    ensures untouched { IsUntouched (D.view disk.old) (D.view disk.new) }
    ensures answer { IfSome (D.view disk.old).told (λ f.
        IfOk result (λ none. none ≡ (length f == 0))) }
    ensures failed { OnErr result (Rose (D.view disk.old).faults (D.view disk.new).faults) }
{
    Ok(disk.size()? == 0)
}

/// Shuts the first gate of a file that is not empty, and answers whether there is one.
fn shut_any_front<D: Disk>(disk: &mut D) -> Result<bool, Failed>
    requires synced { IsSynced (D.view disk.old) }
    ensures any_moment { AnyMoment HasAnyFront (D.view disk.old) (D.view disk.new) }
    ensures shut { OnOk result (IsShutNow (D.view disk.old) (D.view disk.new)) }
    ensures answer { IfSome (D.view disk.old).told (λ f.
        IfOk result (λ some. has_shut_gate (with_any_front_shut f) ≡ some)) }
    ensures tells { IsSome (D.view disk.old).told ↔ IsSome (D.view disk.new).told }
    ensures count { (D.view disk.old).faults ≤ (D.view disk.new).faults }
    ensures failed { OnErr result (Rose (D.view disk.old).faults (D.view disk.new).faults) }
{
    if is_empty(disk)? {
        return Ok(false);
    }
    shut_front(disk)?;
    Ok(true)
}

/// Writes the file of a new store behind a gate that it shuts before and opens at the end.
#[tactic(auto, using(gate_writes::proofs::Fills::shut_after, gate_writes::proofs::Fills::replaced_file))]
fn begin_first<D: Disk>(disk: &mut D, bytes: &[u8]) -> Result<(), Failed>
    requires synced { IsSynced (D.view disk.old) }
    ensures any_moment { IfSome (D.view disk.old).told (λ f.
        LeavesOnly (D.view disk.old) (D.view disk.new)
        (λ c. HasAnyFront f c ⊎ Filling bytes.now c)) }
    ensures written { IfSome (D.view disk.old).told (λ f.
        OnOk result ((D.view disk.new).told ≡ Some (open_gate ∷ bytes.now))) }
    ensures tells { IsSome (D.view disk.old).told ↔ IsSome (D.view disk.new).told }
    ensures synced { OnOk result (IsSynced (D.view disk.new)) }
    ensures count { (D.view disk.old).faults ≤ (D.view disk.new).faults }
    ensures failed { OnErr result (Rose (D.view disk.old).faults (D.view disk.new).faults) }
{
    shut_front(disk)?;
    fill_file(disk, bytes)
}

/// Shuts what an earlier store may have left in the second file, and then writes the file of a new store.
/// It answers whether the second file has a gate.
fn begin_files<D: Disk>(disk: &mut D, other: &mut D, bytes: &[u8]) -> Result<bool, Failed>
    requires first_synced { IsSynced (D.view disk.old) }
    requires second_synced { IsSynced (D.view other.old) }
    ensures second_moves { AnyMoment HasAnyFront (D.view other.old) (D.view other.new) }
    ensures first_moves { IfSome (D.view disk.old).told (λ f.
        LeavesOnly (D.view disk.old) (D.view disk.new) (λ c. HasAnyFront f c
        ⊎ (Filling bytes.now c × IsShutNow (D.view other.old) (D.view other.new)))) }
    ensures written { IfSome (D.view disk.old).told (λ f.
        OnOk result ((D.view disk.new).told ≡ Some (open_gate ∷ bytes.now))) }
    ensures tells { IsSome (D.view disk.old).told ↔ IsSome (D.view disk.new).told }
    ensures second_tells { IsSome (D.view other.old).told ↔ IsSome (D.view other.new).told }
    ensures first_count { (D.view disk.old).faults ≤ (D.view disk.new).faults }
    ensures second_count { (D.view other.old).faults ≤ (D.view other.new).faults }
    ensures shut { OnOk result (IsShutNow (D.view other.old) (D.view other.new)) }
    ensures answer { IfSome (D.view other.old).told (λ g.
        IfOk result (λ some. has_shut_gate (with_any_front_shut g) ≡ some)) }
    ensures synced { OnOk result (IsSynced (D.view disk.new)) }
    ensures order { OnErr result ((disk.new ≡ disk.old)
        ⊎ IsShutNow (D.view other.old) (D.view other.new)) }
    ensures failed { OnErr result (Rose (D.view disk.old).faults (D.view disk.new).faults
        ⊎ Rose (D.view other.old).faults (D.view other.new).faults) }
{
    let some = shut_any_front(other)?;
    begin_first(disk, bytes)?;
    Ok(some)
}

/// A new store for these cubes, whose text is canonical. Each disk has one image; both tell their files,
/// or neither does.
///
/// The first disk is not called before the gate of the second is shut. At every moment the two files
/// stand for none, are the old ones with any byte at the front of each, or stand for the new store; after
/// Ok it is the last. A fault comes only where a disk's count rose. Want of memory leaves both disks as
/// they were. In any case each disk tells its file where it did before. It takes time by the number of
/// bytes.
pub fn create_store<D: Disk>(
    alloc: Global,
    disk: &mut D,
    other: &mut D,
    cubes: &[u8],
) -> Result<Store, CallError<Failed>>
    requires first_synced { IsSynced (D.view disk.old) }
    requires second_synced { IsSynced (D.view other.old) }
    requires both { IsSome (D.view disk.old).told ↔ IsSome (D.view other.old).told }
    requires fits { FitsHeader 1 cubes.now }
    ensures second_moves { (list : List Decl) → IsCanonical cubes.now list
        → WhereTold (D.view disk.old) (D.view other.old) (λ f g.
        LeavesOnly (D.view other.old) (D.view other.new) (λ d. AreCreating list f g f d)) }
    ensures first_moves { (list : List Decl) → IsCanonical cubes.now list
        → WhereTold (D.view disk.old) (D.view other.old) (λ f g.
        LeavesOnly (D.view disk.old) (D.view disk.new) (λ c.
        (d : List ℕ) → (D.view other.new).image d → AreCreating list f g c d)) }
    ensures created { (list : List Decl) → IsCanonical cubes.now list → IfOk result (λ s.
        IsAt s (kept_of_cubes list) (D.view disk.new) (D.view other.new)) }
    ensures order { IfFault result (λ f. (disk.new ≡ disk.old)
        ⊎ IsShutNow (D.view other.old) (D.view other.new)) }
    ensures first_tells { IsSome (D.view disk.old).told ↔ IsSome (D.view disk.new).told }
    ensures second_tells { IsSome (D.view other.old).told ↔ IsSome (D.view other.new).told }
    ensures memory { IsErrOf result NoMemory
        → (disk.new ≡ disk.old) × (other.new ≡ other.old) }
    ensures first_count { (D.view disk.old).faults ≤ (D.view disk.new).faults }
    ensures second_count { (D.view other.old).faults ≤ (D.view other.new).faults }
    ensures failed { IfFault result (λ f. Rose (D.view disk.old).faults (D.view disk.new).faults
        ⊎ Rose (D.view other.old).faults (D.view other.new).faults) }
{
    let (mut store, file) = new_store(alloc, cubes)?;
    let (_, bytes) = file.split_at(1);
    match begin_files(disk, other, bytes) {
        Ok(shut) => {
            store.beside(shut);
            Ok(store)
        }
        Err(fault) => Err(CallError::Fault(fault)),
    }
}

impl Store {
    /// The store beside a file of which `shut` tells whether it has a gate that is shut.
    fn beside(&mut self, shut: bool)
        ensures { self.new ≡ record self.old { shut = shut } }
    {
        self.shut = shut;
    }
}
