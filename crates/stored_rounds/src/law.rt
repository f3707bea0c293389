//! What the images of two disks stand for once a round was added or lost.
ghost use Rattle.std.specs.Prelude.{ℕ, List};
ghost use Rattle.cube_rounds.specs.Stands.{Kept};
ghost use Rattle.cube_rounds.specs.declared.round.Round.{Round};
ghost use Rattle.round_store.specs.States.{StandForEither, WhereTold, kept_after};
ghost use Rattle.stored_rounds.specs.RoundsInStore.{AddsTo};
ghost use Rattle.stored_rounds.specs.declared.stored.StoredRounds.{StoredRounds};

use outside_disk::Disk;

/// Once a round was added, or was lost as it was added, any two images of the disks stand for what was
/// kept or for that with the round, where the disks told their files before.
pub fn two_images_stand_for_either<D: Disk>()
    ensures { (kept : Kept) (round : Round) (before after : StoredRounds D)
        → AddsTo D.view kept round before after
        → WhereTold (D.view before.first) (D.view before.second) (λ f g.
        (one two : List ℕ) → (D.view after.first).image one → (D.view after.second).image two
        → StandForEither kept (kept_after before.store kept round) one two) }
{}
