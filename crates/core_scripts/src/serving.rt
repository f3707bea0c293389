//! The law of the sessions of an opened core.
ghost use Rattle.std.specs.Prelude.{ℕ, ◌≤◌, List};
ghost use Rattle.core_watches.specs.BoundReaders.{OpenWithRowsOfCubes};
ghost use Rattle.cube_core.specs.declared.cell.CoreCell.{CoreCell};
ghost use Rattle.cube_rounds.specs.Stands.{Kept};
ghost use Rattle.kept_data.specs.KeptFiles.{IsKeptByFile};
ghost use Rattle.linked_shards.specs.declared.cell.CoreShard.{CoreShard};
ghost use Rattle.opened_core.specs.Openings.{AreCellsOver, OpenOver};
ghost use Rattle.scripted_pasts.specs.Served.{IsServed};

use opened_callers::{
    an_opened_core_has_its_dictionaries, an_opened_core_knows_its_callers,
    an_opened_core_knows_its_cubes,
};
use opened_rows::an_opened_core_has_the_kept_rows;

/// Over the cells of a core that opened over what a file keeps, each session is served under its own number: each shard has
/// its mail, and so has the flusher; the cubes can be stored and have their dictionaries. In whatever way a run opens with
/// the cells, the kept rows are rows of their cubes.
pub fn an_opened_core_serves_its_sessions()
    ensures served { (kept : Kept) (shards sessions session : ℕ) (cells : List (CoreCell CoreShard))
        → IsKeptByFile kept → AreCellsOver kept shards sessions cells
        → OpenOver kept shards sessions cells → 1 ≤ shards → 1 ≤ session → session ≤ sessions
        → IsServed cells session session shards }
    ensures rows { (kept : Kept) (shards sessions : ℕ) (cells : List (CoreCell CoreShard))
        → IsKeptByFile kept → AreCellsOver kept shards sessions cells
        → OpenWithRowsOfCubes cells }
{
    an_opened_core_knows_its_callers();
    an_opened_core_knows_its_cubes();
    an_opened_core_has_its_dictionaries();
    an_opened_core_has_the_kept_rows();
}
