//! Laws of runs on threads, as `run_core` gives them.

ghost use Rattle.std.specs.Prelude.{◌≡◌, ◌+◌, ℕ, IsSomeAnd, List, Some, true};
ghost use Rattle.core_agreements.specs.ScriptedRuns.{IsScriptedRun};
ghost use Rattle.core_events.specs.Events.{Opening};
ghost use Rattle.core_records.specs.CoreRecords.{RunScripts, record_of};
ghost use Rattle.core_program.specs.CoreFits.{OpensCells};
ghost use Rattle.cube_run.specs.Merge.{IsMerge};
ghost use Rattle.flush_loop.specs.declared.round_result.RoundResult.{RoundResult};
ghost use Rattle.last_rounds.specs.SavedEpochs.{HasSaved};
ghost use Rattle.linked_shards.specs.CellShards.{CoreShardStands};
ghost use Rattle.run_ends.specs.AllSafeEnds.{EndsWithAllSafe};
ghost use Rattle.run_ends.specs.RunEnds.{FlushesLast, IsEndedRun};
ghost use Rattle.run_threads.specs.CoreWorks.{OpeningCells};
ghost use Rattle.shard_events.specs.ShardsInRuns.{FitsShard, ShardAnswerSays};
ghost use Rattle.threaded_core.specs.CoreParts.{IsLeftByRun};
ghost use Rattle.threaded_core.specs.RanCores.{HasRunOnThreads};
ghost use Rattle.threaded_core.specs.declared.cores.RanCore.{RanCore};

use flush_loop::MakesRounds;
use linked_shards::{CoreShard, ShardCells};
use threaded_callers::CallerWork;

/// Where the sessions of a core on threads had begun, its run is one that main ended by a purge, at the
/// counters that are told. A flusher that made a last round went on to it behind the last calls of the
/// sessions. So it is however a run opens with the cells, with as many sessions as there were.
pub fn runs_on_threads_end_in_order<W: CallerWork<ShardCells>, M: MakesRounds<CoreShard>>()
    ensures purged { (shards sessions : ℕ) (cells : OpeningCells) (works : List W) (maker : M)
        (ran : RanCore W M) (o : Opening)
        → (h : HasRunOnThreads W.has_done M.serves M.has_kept M.becomes shards sessions cells works
        maker ran) → (r : IsLeftByRun o h.log h.left ran.left)
        → OpensCells FitsShard CoreShardStands ShardAnswerSays o cells h.log → o.sessions ≡ sessions
        → ran.began ≡ true → IsSomeAnd ran.counters (λ counters.
        IsEndedRun o counters (sessions + 2 + shards) cells h.left h.log r.to.es) }
    ensures flushed { (shards sessions : ℕ) (cells : OpeningCells) (works : List W) (maker : M)
        (ran : RanCore W M) (o : Opening) (how : RoundResult)
        → (h : HasRunOnThreads W.has_done M.serves M.has_kept M.becomes shards sessions cells works
        maker ran) → OpensCells FitsShard CoreShardStands ShardAnswerSays o cells h.log
        → o.sessions ≡ sessions → ran.last_round ≡ Some how → FlushesLast o how cells h.log }
{}

/// Where its sessions played their scripts to the end besides, so that its run is on record as that of the
/// scripts and the journal is a merge of them, and its last round ended as Safe or Idle, it ends with all
/// safe: so the desk and the shards that are left show, by the counters that are told.
pub fn runs_on_threads_end_with_all_safe<W: CallerWork<ShardCells>, M: MakesRounds<CoreShard>>()
    ensures { (shards sessions epoch : ℕ) (cells : OpeningCells) (works : List W) (maker : M)
        (ran : RanCore W M) (o : Opening) (how : RoundResult) (given : RunScripts)
        → (h : HasRunOnThreads W.has_done M.serves M.has_kept M.becomes shards sessions cells works
        maker ran) → (r : IsLeftByRun o h.log h.left ran.left)
        → OpensCells FitsShard CoreShardStands ShardAnswerSays o cells h.log → o.sessions ≡ sessions
        → ran.began ≡ true → ran.last_round ≡ Some how → HasSaved epoch how
        → IsScriptedRun o given r.to.es → IsMerge (record_of o given r.to.es)
        → IsSomeAnd ran.counters (λ counters. EndsWithAllSafe (record_of o given r.to.es) counters
        ran.left.desk ran.left.shards.items) }
{}
