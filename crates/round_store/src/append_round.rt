//! A round behind those of the current file.

ghost use Rattle.std.specs.Prelude.{◌≡◌, ◌≤◌, ◌⊎◌, ℕ, List, OnOk, OnErr, IfSome, IsErrOf, IfErr, ◌↔◌, IsSome};
ghost use Rattle.cube_values.specs.declared.call_error.CallError.TheVariants.{NoMemory};
ghost use Rattle.cube_rounds.specs.Stands.{Kept, kept_with, IsCurrent};
ghost use Rattle.cube_values.specs.Faults.{IfFault};
ghost use Rattle.outside.specs.Counts.{Rose};
ghost use Rattle.outside_disk.specs.Views.{IsSynced, LeavesOnly};
ghost use Rattle.sha2.specs.Sha256.{sha256};
ghost use Rattle.round_store.specs.States.{IsStoreOf, AreFilesOf, MayFollowKept, IsEither};

use crate::store::Store;
use cube_rounds::Round;
use cube_values::CallError;
use gate_writes::append_bytes;
use outside_disk::{Disk, Failed};

impl Store {
    /// Puts a round behind those of the current file.
    pub(crate) fn append_round<D: Disk>(
        &mut self,
        current: &mut D,
        round: &Round,
    ) -> Result<(), CallError<Failed>>
        requires synced { IsSynced (D.view current.old) }
        requires follows { (kept : Kept) × IsStoreOf self.old kept × MayFollowKept kept round.now
            × IfSome (D.view current.old).told (λ f. (g : List ℕ) × AreFilesOf self.old kept f g) }
        ensures any_moment { (kept : Kept) (g : List ℕ) → IsStoreOf self.old kept
            → MayFollowKept kept round.now
            → IfSome (D.view current.old).told (λ f. AreFilesOf self.old kept f g
            → LeavesOnly (D.view current.old) (D.view current.new)
            (IsEither kept (kept_with kept round.now) g)) }
        ensures added { (kept : Kept) (g : List ℕ) → IsStoreOf self.old kept
            → MayFollowKept kept round.now
            → IfSome (D.view current.old).told (λ f. AreFilesOf self.old kept f g
            → OnOk result (IfSome (D.view current.new).told (λ c.
            AreFilesOf self.new (kept_with kept round.now) c g))) }
        ensures store { (kept : Kept) → IsStoreOf self.old kept → MayFollowKept kept round.now
            → OnOk result (IsStoreOf self.new (kept_with kept round.now)) }
        ensures place { self.new.place.second ≡ self.old.place.second }
        ensures synced { OnOk result (IsSynced (D.view current.new)) }
        ensures tells { IsSome (D.view current.old).told ↔ IsSome (D.view current.new).told }
        ensures memory { IsErrOf result NoMemory
            → (current.new ≡ current.old) × (self.new ≡ self.old) }
        ensures count { (D.view current.old).faults ≤ (D.view current.new).faults }
        ensures failed { IfFault result (λ f.
            Rose (D.view current.old).faults (D.view current.new).faults) }
        ensures quiet { OnOk result
            ((D.view current.new).faults ≡ (D.view current.old).faults) }
    {
        let next = self.next_behind(round)?;
        match append_bytes(current, self.place.end, next.bytes.as_slice()) {
            Ok(()) => {
                let shut = self.shut;
                self.go_on(next, shut);
                Ok(())
            }
            Err(fault) => Err(CallError::Fault(fault)),
        }
    }
}
