//! The laws of what a maker of rounds has kept when a run begins.

ghost use Rattle.std.specs.Prelude.{◌+◌, ◌≤◌, ℕ, List, []};
ghost use Rattle.core_events.specs.Events.{CoreEvent, Opening};
ghost use Rattle.core_events.specs.Runs.{IsCoreRun};
ghost use Rattle.core_program.specs.CoreFits.{CoreEntry, OpensCells};
ghost use Rattle.cube_core.specs.declared.cell.CoreCell.{CoreCell};
ghost use Rattle.cube_rounds.specs.Stands.{Kept};
ghost use Rattle.flush_loop.specs.declared.no_store.NoStore.{NoStore};
ghost use Rattle.kept_data.specs.KeptFiles.{IsKeptByFile};
ghost use Rattle.linked_shards.specs.CellShards.{CoreShardStands};
ghost use Rattle.linked_shards.specs.declared.cell.CoreShard.{CoreShard};
ghost use Rattle.opened_core.specs.Openings.{AreCellsOver, OpenOver};
ghost use Rattle.run_threads.specs.CoreWorks.{KeepsRounds, MayFlush};
ghost use Rattle.shard_events.specs.ShardsInRuns.{FitsShard, ShardAnswerSays};
ghost use Rattle.stored_rounds.specs.RoundsInStore.{IsKeptInRun, StandsAt};
ghost use Rattle.stored_rounds.specs.declared.stored.StoredRounds.{StoredRounds};

use flush_loop::{MakesRounds, NoStore};
use following_rounds::what_is_kept_stays_and_grows_by_rounds;
use kept_data::{kept_data_are_sound, kept_names_are_found, kept_rounds_lie_in_their_cubes};
use linked_shards::CoreShard;
use opened_rows::{an_opened_core_has_the_kept_rows, an_opened_core_opens_for_rounds};
use outside_disk::Disk;
use run_threads::callers_of_an_opened_core_may_begin;
use stored_rounds::StoredRounds;

/// In whatever way a run opens with the cells of a core over what a file keeps, this is there in the run:
/// its cubes are the first of the desk's, its names the first of each dictionary, its epoch is the latest
/// safe one, and its rows are those that the transactions leave which are committed up to that. So much a
/// flusher knows that has made no call.
pub fn what_is_kept_is_there_in_each_run()
    ensures { (kept : Kept) (shards sessions : ℕ) (cells : List (CoreCell CoreShard))
        → IsKeptByFile kept → AreCellsOver kept shards sessions cells
        → (o : Opening) (log : List CoreEntry) (run : List CoreEvent)
        → OpensCells FitsShard CoreShardStands ShardAnswerSays o cells log
        → IsCoreRun o run → IsKeptInRun kept o run [] }
{
    kept_data_are_sound();
    kept_names_are_found();
    kept_rounds_lie_in_their_cubes();
    an_opened_core_has_the_kept_rows();
    what_is_kept_stays_and_grows_by_rounds();
}

/// A store that stands for what a file keeps makes the rounds of a core that opened over it, and has kept
/// what its flusher begins with.
pub fn a_store_keeps_rounds_of_its_core<D: Disk>()
    ensures { (kept : Kept) (shards sessions caller : ℕ) (cells : List (CoreCell CoreShard))
        (maker : StoredRounds D)
        → IsKeptByFile kept → AreCellsOver kept shards sessions cells
        → StandsAt D.view maker kept
        → KeepsRounds ⟦<StoredRounds<D> as MakesRounds<CoreShard>>⟧.serves
        ⟦<StoredRounds<D> as MakesRounds<CoreShard>>⟧.has_kept sessions maker maker cells caller [] }
{
    an_opened_core_opens_for_rounds();
    what_is_kept_is_there_in_each_run();
}

/// Without a store rounds are made of every core, and before its first call the flusher has lost none to a disk.
pub fn a_core_without_a_store_keeps_no_rounds()
    ensures { (sessions caller : ℕ) (cells : List (CoreCell CoreShard)) (maker : NoStore)
        → KeepsRounds ⟦<NoStore as MakesRounds<CoreShard>>⟧.serves
        ⟦<NoStore as MakesRounds<CoreShard>>⟧.has_kept sessions maker maker cells caller [] }
{}

/// On a board over the cells of a core that opened over what a store keeps, with all its callers, the
/// flusher may begin with that store.
pub fn flusher_of_a_store_may_begin<D: Disk>()
    ensures { (kept : Kept) (shards sessions callers : ℕ) (cells : List (CoreCell CoreShard))
        (maker : StoredRounds D)
        → IsKeptByFile kept → AreCellsOver kept shards sessions cells
        → OpenOver kept shards sessions cells → 1 ≤ shards → sessions + 2 + shards ≤ callers
        → StandsAt D.view maker kept
        → MayFlush ⟦<StoredRounds<D> as MakesRounds<CoreShard>>⟧.serves
        ⟦<StoredRounds<D> as MakesRounds<CoreShard>>⟧.has_kept shards sessions maker callers cells
        (sessions + 1 + shards) }
{
    callers_of_an_opened_core_may_begin::<StoredRounds<D>>();
    a_store_keeps_rounds_of_its_core::<D>();
}

/// So it may without a store.
pub fn flusher_without_a_store_may_begin()
    ensures { (kept : Kept) (shards sessions callers : ℕ) (cells : List (CoreCell CoreShard))
        (maker : NoStore)
        → AreCellsOver kept shards sessions cells → OpenOver kept shards sessions cells
        → 1 ≤ shards → sessions + 2 + shards ≤ callers
        → MayFlush ⟦<NoStore as MakesRounds<CoreShard>>⟧.serves
        ⟦<NoStore as MakesRounds<CoreShard>>⟧.has_kept shards sessions maker callers cells
        (sessions + 1 + shards) }
{
    callers_of_an_opened_core_may_begin::<NoStore>();
    a_core_without_a_store_keeps_no_rounds();
}
