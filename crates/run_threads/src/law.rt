//! The laws of a core that is run on threads: its callers may begin, and what they leave is a run.
ghost use Rattle.std.specs.Prelude.{ℕ, ◌+◌, ◌<◌, ◌≤◌, List, []};
ghost use Rattle.core_events.specs.Events.{Opening};
ghost use Rattle.core_program.specs.CoreFits.{CoreEntry, FitsOwnCalls, OpensCells};
ghost use Rattle.cube_core.specs.CoreSteps.{CoreStep};
ghost use Rattle.cube_core.specs.declared.cell.CoreCell.{CoreCell};
ghost use Rattle.cube_rounds.specs.Stands.{Kept};
ghost use Rattle.linked_shards.specs.CellShards.{CoreShardStands, CoreShardStep};
ghost use Rattle.linked_shards.specs.declared.cell.CoreShard.{CoreShard};
ghost use Rattle.opened_core.specs.Openings.{AreCellsOver, OpenOver};
ghost use Rattle.run_threads.specs.CoreRuns.{IsRunTo};
ghost use Rattle.run_threads.specs.CoreWorks.{KeepsRounds, MayClose, MayFlush, MayServeShard};
ghost use Rattle.shard_events.specs.ShardsInRuns.{FitsShard, ShardAnswerSays};
ghost use Rattle.threaded_callers.specs.Ends.{IsHistoryTo};

use cube_core::histories_are_core_runs;
use flush_loop::MakesRounds;
use linked_shards::{CoreShard, ShardCells};
use opened_callers::an_opened_core_knows_its_callers;

/// On a board over the cells of an opened core, with all its callers, main, the worker of each shard and
/// the flusher may begin with their works, by their numbers.
pub fn callers_of_an_opened_core_may_begin<M: MakesRounds<CoreShard>>()
    ensures main { (kept : Kept) (shards sessions callers : ℕ) (cells : List (CoreCell CoreShard))
        → AreCellsOver kept shards sessions cells → OpenOver kept shards sessions cells
        → 1 ≤ shards → sessions + 2 + shards ≤ callers
        → MayClose shards sessions callers cells }
    ensures worker { (kept : Kept) (shards sessions callers number : ℕ)
        (cells : List (CoreCell CoreShard))
        → AreCellsOver kept shards sessions cells → OpenOver kept shards sessions cells
        → number < shards → sessions + 2 + shards ≤ callers
        → MayServeShard shards sessions number callers cells (sessions + 1 + number) }
    ensures flusher { (kept : Kept) (shards sessions callers : ℕ) (maker : M)
        (cells : List (CoreCell CoreShard))
        → AreCellsOver kept shards sessions cells → OpenOver kept shards sessions cells
        → 1 ≤ shards → sessions + 2 + shards ≤ callers
        → KeepsRounds M.serves M.has_kept sessions maker maker cells (sessions + 1 + shards) []
        → MayFlush M.serves M.has_kept shards sessions maker callers cells
        (sessions + 1 + shards) }
{
    an_opened_core_knows_its_callers();
}

/// The one history that a board leaves is a run of the core, however the core opens with the board's
/// cells: each entry is one event, and each cell that is left is what the run made of it.
pub fn ended_boards_are_core_runs()
    ensures { (o : Opening) (callers : ℕ) (opening cells : List (CoreCell CoreShard))
        (log : List CoreEntry)
        → OpensCells FitsShard CoreShardStands ShardAnswerSays o opening log
        → IsHistoryTo (CoreStep CoreShardStep)
        (FitsOwnCalls FitsShard CoreShardStands ShardAnswerSays) callers opening cells log
        → IsRunTo o cells log }
{
    histories_are_core_runs::<ShardCells>();
}
