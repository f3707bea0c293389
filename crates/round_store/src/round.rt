//! The next round of a store.

ghost use Rattle.std.specs.Prelude.{◌≡◌, ◌≤◌, ◌+◌, ◌⊎◌, true, false, ℕ, List, OnOk, OnErr, IfSome, IsErrOf};
ghost use Rattle.cube_values.specs.declared.call_error.CallError.TheVariants.{NoMemory};
ghost use Rattle.cube_values.specs.Faults.{IfFault};
ghost use Rattle.cube_rounds.specs.Stands.{Kept};
ghost use Rattle.outside.specs.Counts.{Rose};
ghost use Rattle.outside_disk.specs.Views.{LeavesOnly};
ghost use Rattle.round_store.specs.States.{IsAt, WhereTold, MayFollowKept, kept_before, kept_after, StandForEither, goes_second};

use crate::store::Store;
use cube_rounds::Round;
use cube_values::CallError;
use outside_disk::{Disk, Failed};

impl Store {
    /// Adds a round. `disk` and `other` are the store's two, which nobody else changed, and the round
    /// may stand behind what is kept; a whole one behind the header's cubes alone.
    ///
    /// One of the disks is called and the other one stays as it is. At every moment the two files stand
    /// for what was kept or for what is kept with the round, and after Ok for the latter. A fault comes
    /// only where a disk's count rose; the store is then to be opened again. Want of memory leaves the
    /// store and both disks as they were. It takes time by the number of bytes of the round.
    pub fn add_round<D: Disk>(
        &mut self,
        disk: &mut D,
        other: &mut D,
        round: &Round,
    ) -> Result<(), CallError<Failed>>
        requires { (kept : Kept) × IsAt self.old kept (D.view disk.old) (D.view other.old)
            × MayFollowKept (kept_before self.old kept) round.now }
        ensures first_still { goes_second self.old ≡ true → disk.new ≡ disk.old }
        ensures second_still { goes_second self.old ≡ false → other.new ≡ other.old }
        ensures first_moves { (kept : Kept) → IsAt self.old kept (D.view disk.old)
            (D.view other.old)
            → MayFollowKept (kept_before self.old kept) round.now
            → WhereTold (D.view disk.old) (D.view other.old) (λ f g.
            LeavesOnly (D.view disk.old) (D.view disk.new) (λ c.
            StandForEither kept (kept_after self.old kept round.now) c g)) }
        ensures second_moves { (kept : Kept) → IsAt self.old kept (D.view disk.old)
            (D.view other.old)
            → MayFollowKept (kept_before self.old kept) round.now
            → WhereTold (D.view disk.old) (D.view other.old) (λ f g.
            LeavesOnly (D.view other.old) (D.view other.new) (λ d.
            StandForEither kept (kept_after self.old kept round.now) f d)) }
        ensures added { (kept : Kept) → IsAt self.old kept (D.view disk.old) (D.view other.old)
            → MayFollowKept (kept_before self.old kept) round.now
            → OnOk result (IsAt self.new (kept_after self.old kept round.now)
            (D.view disk.new) (D.view other.new)) }
        ensures memory { IsErrOf result NoMemory → (self.new ≡ self.old)
            × (disk.new ≡ disk.old) × (other.new ≡ other.old) }
        ensures failed { IfFault result (λ f.
            Rose (D.view disk.old).faults (D.view disk.new).faults
            ⊎ Rose (D.view other.old).faults (D.view other.new).faults) }
        ensures first_count { (D.view disk.old).faults ≤ (D.view disk.new).faults }
        ensures second_count { (D.view other.old).faults ≤ (D.view other.new).faults }
    {
        if self.wants_whole() {
            if self.place.second {
                return self.begin_file(disk, round);
            }
            return self.begin_file(other, round);
        }
        if self.place.second {
            return self.append_round(other, round);
        }
        self.append_round(disk, round)
    }
}
