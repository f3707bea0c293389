//! A whole round in the other file, which is then the current one.

ghost use Rattle.std.specs.Prelude.{◌≡◌, ◌≤◌, true, not, ℕ, List, OnOk, IfSome, IsErrOf, ◌↔◌, IsSome};
ghost use Rattle.cube_rounds.specs.Stands.{Kept, kept_of_cubes, kept_with};
ghost use Rattle.cube_values.specs.declared.call_error.CallError.TheVariants.{NoMemory};
ghost use Rattle.cube_values.specs.Faults.{IfFault};
ghost use Rattle.outside.specs.Counts.{Rose};
ghost use Rattle.outside_disk.specs.Views.{IsSynced, LeavesOnly};
ghost use Rattle.round_store.specs.States.{wants_whole, header_cubes, IsStoreOf, AreFilesOf, MayFollowKept, IsBesideEither};

use crate::store::Store;
use cube_rounds::Round;
use cube_values::CallError;
use gate_writes::replace_file;
use outside_disk::{Disk, Failed};

impl Store {
    /// Begins the other file with a whole round.
    pub(crate) fn begin_file<D: Disk>(
        &mut self,
        target: &mut D,
        round: &Round,
    ) -> Result<(), CallError<Failed>>
        requires synced { IsSynced (D.view target.old) }
        requires wants { wants_whole self.old ≡ true }
        requires follows { (kept : Kept) × IsStoreOf self.old kept
            × MayFollowKept (kept_of_cubes (header_cubes kept)) round.now
            × IfSome (D.view target.old).told (λ g. (f : List ℕ) × AreFilesOf self.old kept f g) }
        ensures any_moment { (kept : Kept) (f : List ℕ) → IsStoreOf self.old kept
            → MayFollowKept (kept_of_cubes (header_cubes kept)) round.now
            → IfSome (D.view target.old).told (λ g. AreFilesOf self.old kept f g
            → LeavesOnly (D.view target.old) (D.view target.new) (IsBesideEither kept
            (kept_with (kept_of_cubes (header_cubes kept)) round.now) f)) }
        ensures added { (kept : Kept) (f : List ℕ) → IsStoreOf self.old kept
            → MayFollowKept (kept_of_cubes (header_cubes kept)) round.now
            → IfSome (D.view target.old).told (λ g. AreFilesOf self.old kept f g
            → OnOk result (IfSome (D.view target.new).told (λ c. AreFilesOf self.new
            (kept_with (kept_of_cubes (header_cubes kept)) round.now) c f))) }
        ensures store { (kept : Kept) → IsStoreOf self.old kept
            → MayFollowKept (kept_of_cubes (header_cubes kept)) round.now
            → OnOk result (IsStoreOf self.new
            (kept_with (kept_of_cubes (header_cubes kept)) round.now)) }
        ensures place { OnOk result (self.new.place.second ≡ not self.old.place.second) }
        ensures synced { OnOk result (IsSynced (D.view target.new)) }
        ensures tells { IsSome (D.view target.old).told ↔ IsSome (D.view target.new).told }
        ensures memory { IsErrOf result NoMemory
            → (target.new ≡ target.old) × (self.new ≡ self.old) }
        ensures count { (D.view target.old).faults ≤ (D.view target.new).faults }
        ensures failed { IfFault result (λ f.
            Rose (D.view target.old).faults (D.view target.new).faults) }
        ensures quiet { OnOk result
            ((D.view target.new).faults ≡ (D.view target.old).faults) }
    {
        let next = self.next_whole(round)?;
        match replace_file(target, self.shut, next.bytes.as_slice()) {
            Ok(()) => {
                self.go_on(next, false);
                Ok(())
            }
            Err(fault) => Err(CallError::Fault(fault)),
        }
    }
}
