//! The laws of an opened core's cubes and dictionaries.

ghost use Rattle.std.specs.Prelude.{ℕ, List};
ghost use Rattle.cube_core.specs.Links.{AreEventsOf};
ghost use Rattle.cube_core.specs.BoardCells.{IsEntryEvent};
ghost use Rattle.core_events.specs.Cells.{desk_of};
ghost use Rattle.core_events.specs.Events.{CoreEvent, Opening};
ghost use Rattle.core_events.specs.Runs.{IsCoreRun};
ghost use Rattle.core_program.specs.CoreFits.{CoreEntry, OpensCells};
ghost use Rattle.core_records.specs.OpeningNames.{OpensWithNames};
ghost use Rattle.cube_core.specs.declared.cell.CoreCell.{CoreCell};
ghost use Rattle.cube_rounds.specs.Stands.{Kept};
ghost use Rattle.kept_data.specs.KeptFiles.{IsKeptByFile};
ghost use Rattle.known_cubes.specs.KnownCubes.{OpenWithStorableCubes};
ghost use Rattle.linked_shards.specs.CellShards.{CoreShardStands};
ghost use Rattle.linked_shards.specs.declared.cell.CoreShard.{CoreShard};
ghost use Rattle.opened_core.specs.Openings.{AreCellsOver};
ghost use Rattle.shard_events.specs.ShardsInRuns.{FitsShard, ShardAnswerSays};

use kept_data::{kept_data_are_sound, kept_names_are_found};
use known_cubes::desk_cubes_are_those_of_the_history;
use linked_shards::CoreShard;

/// Over the cells of a core that opened over what a file keeps, the cubes with which a run opens can be
/// stored.
pub fn an_opened_core_knows_its_cubes()
    ensures { (kept : Kept) (shards sessions : ℕ) (cells : List (CoreCell CoreShard))
        → IsKeptByFile kept → AreCellsOver kept shards sessions cells
        → OpenWithStorableCubes FitsShard CoreShardStands ShardAnswerSays cells }
{
    kept_data_are_sound();
}

/// Over these cells a run opens with a dictionary for each dimension of its cubes, those that it makes
/// among them: distinct short names, as many as there is room for. A cube that is made has no names yet.
pub fn an_opened_core_has_its_dictionaries()
    ensures { (kept : Kept) (shards sessions : ℕ) (cells : List (CoreCell CoreShard))
        → IsKeptByFile kept → AreCellsOver kept shards sessions cells
        → (o : Opening) (log : List CoreEntry) (run : List CoreEvent)
        → OpensCells FitsShard CoreShardStands ShardAnswerSays o cells log
        → AreEventsOf (IsEntryEvent FitsShard CoreShardStands ShardAnswerSays o) log run
        → IsCoreRun o run → OpensWithNames o (desk_of o run).cubes }
{
    kept_data_are_sound();
    kept_names_are_found();
    desk_cubes_are_those_of_the_history::<CoreShard>();
}
