//! The laws of an opened core's rows, and of how its runs open.

ghost use Rattle.std.specs.Prelude.{◌≡◌, ◌≤◌, ℕ, List, [], length, All};
ghost use Rattle.core_agreements.specs.ScriptedRuns.{OpensWithCubes};
ghost use Rattle.cube_core.specs.Links.{AreEventsOf};
ghost use Rattle.cube_core.specs.BoardCells.{IsEntryEvent};
ghost use Rattle.core_events.specs.Cells.{desk_of, rows_of_brick};
ghost use Rattle.core_events.specs.Events.{CoreEvent, Opening};
ghost use Rattle.core_events.specs.Runs.{IsCoreRun};
ghost use Rattle.core_program.specs.CoreFits.{CoreEntry, OpensCells};
ghost use Rattle.core_rows.specs.RowsOfCubes.{IsCubeRow};
ghost use Rattle.cube_core.specs.declared.cell.CoreCell.{CoreCell};
ghost use Rattle.cube_rounds.specs.Stands.{Kept};
ghost use Rattle.following_rounds.specs.FollowingRounds.{OpensForRounds};
ghost use Rattle.kept_data.specs.KeptFiles.{IsKeptByFile};
ghost use Rattle.linked_shards.specs.CellShards.{CoreShardStands};
ghost use Rattle.linked_shards.specs.declared.cell.CoreShard.{CoreShard};
ghost use Rattle.opened_core.specs.KeptShards.{kept_in_brick};
ghost use Rattle.opened_core.specs.Openings.{AreCellsOver};
ghost use Rattle.shard_events.specs.ShardsInRuns.{FitsShard, ShardAnswerSays};

use following_rounds::declared_cubes_can_be_made;
use kept_data::{kept_data_are_sound, kept_names_are_found, kept_rounds_lie_in_their_cubes};
use known_cubes::desk_cubes_are_those_of_the_history;
use linked_shards::CoreShard;
use opened_callers::an_opened_core_has_its_dictionaries;

/// In whatever way a run opens with the cells of a core over what is kept, it has in each brick the kept
/// rows of the brick. Over what a file keeps, the rows with which it opens are rows of its cubes, with
/// names that are there, and there are none past its cubes.
pub fn an_opened_core_has_the_kept_rows()
    ensures bricks { (kept : Kept) (shards sessions : ℕ) (cells : List (CoreCell CoreShard))
        → AreCellsOver kept shards sessions cells → (o : Opening) (log : List CoreEntry)
        → OpensCells FitsShard CoreShardStands ShardAnswerSays o cells log
        → (cube brick : ℕ)
        → rows_of_brick o cube brick (o.rows cube) ≡ kept_in_brick kept cube brick }
    ensures rows { (kept : Kept) (shards sessions : ℕ) (cells : List (CoreCell CoreShard))
        → IsKeptByFile kept → AreCellsOver kept shards sessions cells
        → (o : Opening) (log : List CoreEntry)
        → OpensCells FitsShard CoreShardStands ShardAnswerSays o cells log
        → (cube : ℕ) → All (IsCubeRow o [] cube) (o.rows cube) }
    ensures none { (kept : Kept) (shards sessions : ℕ) (cells : List (CoreCell CoreShard))
        → IsKeptByFile kept → AreCellsOver kept shards sessions cells
        → (o : Opening) (log : List CoreEntry)
        → OpensCells FitsShard CoreShardStands ShardAnswerSays o cells log
        → (cube : ℕ) → length o.cubes ≤ cube → o.rows cube ≡ [] }
{
    kept_data_are_sound();
    kept_names_are_found();
    kept_rounds_lie_in_their_cubes();
}

/// Over the cells of a core that opened over what a file keeps, a run opens with the cubes that it has in
/// the end: they have their shapes and dictionaries, and those of the opening are named apart and have
/// rows.
pub fn an_opened_core_opens_with_its_cubes()
    ensures { (kept : Kept) (shards sessions : ℕ) (cells : List (CoreCell CoreShard))
        → IsKeptByFile kept → AreCellsOver kept shards sessions cells
        → (o : Opening) (log : List CoreEntry) (run : List CoreEvent)
        → OpensCells FitsShard CoreShardStands ShardAnswerSays o cells log
        → AreEventsOf (IsEntryEvent FitsShard CoreShardStands ShardAnswerSays o) log run
        → IsCoreRun o run → OpensWithCubes o (desk_of o run).cubes }
{
    kept_data_are_sound();
    desk_cubes_are_those_of_the_history::<CoreShard>();
    an_opened_core_has_its_dictionaries();
    an_opened_core_has_the_kept_rows();
}

/// So it opens for rounds: the cubes of the opening can be made besides.
pub fn an_opened_core_opens_for_rounds()
    ensures { (kept : Kept) (shards sessions : ℕ) (cells : List (CoreCell CoreShard))
        → IsKeptByFile kept → AreCellsOver kept shards sessions cells
        → (o : Opening) (log : List CoreEntry) (run : List CoreEvent)
        → OpensCells FitsShard CoreShardStands ShardAnswerSays o cells log
        → AreEventsOf (IsEntryEvent FitsShard CoreShardStands ShardAnswerSays o) log run
        → IsCoreRun o run → OpensForRounds o (desk_of o run).cubes }
{
    declared_cubes_can_be_made();
    an_opened_core_opens_with_its_cubes();
}
