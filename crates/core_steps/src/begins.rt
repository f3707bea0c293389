//! What a session knows before its first call.
ghost use Rattle.std.specs.Prelude.{ℕ, ◌≤◌, List, []};
ghost use Rattle.core_steps.specs.Holding.{BeginsOnCore};
ghost use Rattle.cube_core.specs.declared.cell.CoreCell.{CoreCell};
ghost use Rattle.linked_shards.specs.declared.cell.CoreShard.{CoreShard};
ghost use Rattle.small_core.specs.Openings.{AreCellsOfCore};

use linked_shards::CoreShard;
use opened_callers::{an_opened_core_knows_its_callers, an_opened_core_knows_its_cubes};
use session_snapshots::sessions_begin_with_nothing;

/// Before its first call a session of a small core holds nothing, and the history without calls has its calls.
pub(crate) fn sessions_begin_on_a_core()
    ensures { (cells : List (CoreCell CoreShard)) (session : ℕ) → AreCellsOfCore 2 3 cells
        → 1 ≤ session → session ≤ 3 → BeginsOnCore 2 cells session session [] }
{
    an_opened_core_knows_its_callers();
    an_opened_core_knows_its_cubes();
    sessions_begin_with_nothing::<CoreShard>();
}
