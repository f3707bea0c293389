//! What the images of a store's two disks stand for once a run has ended.

ghost use Rattle.std.specs.Prelude.{◌≡◌, ◌⊎◌, List, false, true};
ghost use Rattle.core_agreements.specs.ScriptedRuns.{IsScriptedRun};
ghost use Rattle.core_events.specs.Cells.{counters_of_run};
ghost use Rattle.core_events.specs.Clients.{calls_of};
ghost use Rattle.core_events.specs.Events.{ClientCall, CoreEvent, Opening, flusher};
ghost use Rattle.core_events.specs.Runs.{IsCoreRun};
ghost use Rattle.core_records.specs.CoreRecords.{RunScripts, record_of};
ghost use Rattle.core_serial.specs.Journals.{journal_of};
ghost use Rattle.cube_rounds.specs.Stands.{Kept};
ghost use Rattle.recorded_images.specs.AtEveryMoment.{KeepWhereTold};
ghost use Rattle.recorded_images.specs.RecordedImages.{HoldsOfImages, StandForEvents, StandForRecord, has_lost_store, lse_on_record};
ghost use Rattle.stored_rounds.specs.RoundsInStore.{HasLostRound, KeepsOfRun};
ghost use Rattle.stored_rounds.specs.declared.stored.StoredRounds.{StoredRounds};

use kept_data::{kept_data_are_sound, kept_rounds_lie_in_their_cubes};
use outside_disk::Disk;
use stored_rounds::two_images_stand_for_either;

/// Once a run has ended, any two images of the disks stand for what is kept of the run on record up to LSE,
/// where the disks tell their files. Where a round was lost to a disk, they stand for that or for what is
/// kept up to the epoch of that round, where the disks told their files before it.
pub fn images_of_a_store_stand_for_the_record<D: Disk>()
    ensures kept { (o : Opening) (given : RunScripts) (run : List CoreEvent) (kept : Kept)
        (calls : List ClientCall) (begun m : StoredRounds D) → IsScriptedRun o given run
        → KeepsOfRun D.view begun m kept o run calls → calls ≡ calls_of (flusher o) run
        → has_lost_store (record_of o given run).journal ≡ false
        → HoldsOfImages (D.view m.first) (D.view m.second) (D.view m.first) (D.view m.second)
        (StandForRecord (record_of o given run) (lse_on_record (record_of o given run))) }
    ensures lost { (o : Opening) (given : RunScripts) (run : List CoreEvent) (kept : Kept)
        (calls : List ClientCall) (begun m : StoredRounds D) → IsScriptedRun o given run
        → KeepsOfRun D.view begun m kept o run calls → calls ≡ calls_of (flusher o) run
        → has_lost_store (record_of o given run).journal ≡ true
        → (lost : HasLostRound D.view m kept o run)
        × HoldsOfImages (D.view lost.before.first) (D.view lost.before.second) (D.view m.first)
        (D.view m.second) (λ one two.
        StandForRecord (record_of o given run) (lse_on_record (record_of o given run)) one two
        ⊎ StandForRecord (record_of o given run) lost.round.epoch one two) }
{
    kept_data_are_sound();
    kept_rounds_lie_in_their_cubes();
    two_images_stand_for_either::<D>();
}

/// The same of every run of the core, also one whose sessions did not all play their scripts to the end, by
/// its events.
pub fn images_of_a_store_stand_for_the_events<D: Disk>()
    ensures kept { (o : Opening) (run : List CoreEvent) (kept : Kept) (calls : List ClientCall)
        (begun m : StoredRounds D) → IsCoreRun o run → KeepsOfRun D.view begun m kept o run calls
        → calls ≡ calls_of (flusher o) run
        → has_lost_store (journal_of o run) ≡ false
        → HoldsOfImages (D.view m.first) (D.view m.second) (D.view m.first) (D.view m.second)
        (StandForEvents o run (counters_of_run o run).lse) }
    ensures lost { (o : Opening) (run : List CoreEvent) (kept : Kept) (calls : List ClientCall)
        (begun m : StoredRounds D) → IsCoreRun o run → KeepsOfRun D.view begun m kept o run calls
        → calls ≡ calls_of (flusher o) run
        → has_lost_store (journal_of o run) ≡ true
        → (lost : HasLostRound D.view m kept o run)
        × HoldsOfImages (D.view lost.before.first) (D.view lost.before.second) (D.view m.first)
        (D.view m.second) (λ one two. StandForEvents o run (counters_of_run o run).lse one two
        ⊎ StandForEvents o run lost.round.epoch one two) }
{
    two_images_stand_for_either::<D>();
}

/// At every moment of a run whose sessions follow their scripts the disks keep it, where they told their files
/// when it began. Where a round is opened any two images stand for what is kept of the run on record up to
/// LSE, as the journal has it by then; a crash at any moment of it leaves images for that, or for what is
/// kept up to the epoch of the round. So it is in the end, by LSE.
pub fn a_store_keeps_the_record_at_every_moment<D: Disk>()
    ensures { (o : Opening) (given : RunScripts) (run : List CoreEvent) (kept : Kept)
        (calls : List ClientCall) (begun m : StoredRounds D) → IsScriptedRun o given run
        → KeepsOfRun D.view begun m kept o run calls → calls ≡ calls_of (flusher o) run
        → KeepWhereTold D.view (StandForRecord (record_of o given run)) (record_of o given run).safe
        (record { first = begun.first; second = begun.second })
        (record { first = m.first; second = m.second }) (record_of o given run).journal }
{
    kept_data_are_sound();
    kept_rounds_lie_in_their_cubes();
    two_images_stand_for_either::<D>();
}

/// The same of every run of the core, by its events.
pub fn a_store_keeps_the_events_at_every_moment<D: Disk>()
    ensures { (o : Opening) (run : List CoreEvent) (kept : Kept) (calls : List ClientCall)
        (begun m : StoredRounds D) → IsCoreRun o run → KeepsOfRun D.view begun m kept o run calls
        → calls ≡ calls_of (flusher o) run
        → KeepWhereTold D.view (StandForEvents o run) o.safe
        (record { first = begun.first; second = begun.second })
        (record { first = m.first; second = m.second }) (journal_of o run) }
{
    two_images_stand_for_either::<D>();
}
