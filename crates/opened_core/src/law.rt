//! The law of openings.
ghost use Rattle.std.specs.Prelude.{ℕ, List};
ghost use Rattle.cube_core.specs.declared.cell.CoreCell.{CoreCell};
ghost use Rattle.cube_rounds.specs.Stands.{Kept};
ghost use Rattle.kept_data.specs.KeptFiles.{IsKeptByFile};
ghost use Rattle.linked_shards.specs.declared.cell.CoreShard.{CoreShard};
ghost use Rattle.opened_core.specs.Openings.{AreCellsOver, HasLimits, OpenOver};

use kept_data::{kept_data_are_sound, kept_rounds_lie_in_their_cubes};

/// A run opens with cells over what a file keeps, whatever cubes its history makes.
pub fn kept_cells_open_runs()
    ensures { (kept : Kept) (shards sessions : ℕ) (cells : List (CoreCell CoreShard))
        → HasLimits kept shards sessions → IsKeptByFile kept
        → AreCellsOver kept shards sessions cells → OpenOver kept shards sessions cells }
{
    kept_data_are_sound();
    kept_rounds_lie_in_their_cubes();
}
