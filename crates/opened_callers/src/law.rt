//! The law of an opened core's callers.

ghost use Rattle.std.specs.Prelude.{◌+◌, ◌<◌, ◌≤◌, ℕ, List};
ghost use Rattle.core_program.specs.Knowing.{IsClientOf, IsSessionOf, IsMailAt, ServesClient};
ghost use Rattle.core_program.specs.Flushing.{IsFlusherOf};
ghost use Rattle.core_program.specs.Workers.{IsWorkerOf};
ghost use Rattle.cube_core.specs.declared.cell.CoreCell.{CoreCell};
ghost use Rattle.cube_rounds.specs.Stands.{Kept};
ghost use Rattle.job_groups.specs.AskedEach.{AreShardMails};
ghost use Rattle.linked_shards.specs.CellShards.{CoreShardStands};
ghost use Rattle.linked_shards.specs.declared.cell.CoreShard.{CoreShard};
ghost use Rattle.opened_core.specs.Openings.{AreCellsOver, OpenOver};
ghost use Rattle.shard_events.specs.ShardsInRuns.{FitsShard, ShardAnswerSays};

/// Over the cells of a core that opened with so many shards and sessions, main and the sessions are
/// clients by their numbers, from 1 on as sessions, the callers behind them are the workers of the
/// shards, and the last is the flusher, which is the client behind the sessions; the mails stand behind
/// the shards, serve main and the sessions, and those of the shards the flusher.
pub fn an_opened_core_knows_its_callers()
    ensures client { (kept : Kept) (shards sessions caller : ℕ) (cells : List (CoreCell CoreShard))
        → AreCellsOver kept shards sessions cells → OpenOver kept shards sessions cells
        → caller ≤ sessions
        → IsClientOf FitsShard CoreShardStands ShardAnswerSays cells caller caller }
    ensures session { (kept : Kept) (shards sessions session : ℕ)
        (cells : List (CoreCell CoreShard)) → AreCellsOver kept shards sessions cells
        → 1 ≤ session → session ≤ sessions
        → IsSessionOf FitsShard CoreShardStands ShardAnswerSays cells session }
    ensures worker { (kept : Kept) (shards sessions number : ℕ) (cells : List (CoreCell CoreShard))
        → AreCellsOver kept shards sessions cells → OpenOver kept shards sessions cells
        → number < shards → IsWorkerOf FitsShard CoreShardStands ShardAnswerSays cells
        (sessions + 1 + number) number (2 + shards + number) }
    ensures flusher { (kept : Kept) (shards sessions : ℕ) (cells : List (CoreCell CoreShard))
        → AreCellsOver kept shards sessions cells → OpenOver kept shards sessions cells
        → IsFlusherOf FitsShard CoreShardStands ShardAnswerSays cells
        (sessions + 1 + shards) (sessions + 1) shards }
    ensures flusher_client { (kept : Kept) (shards sessions : ℕ)
        (cells : List (CoreCell CoreShard)) → AreCellsOver kept shards sessions cells
        → OpenOver kept shards sessions cells
        → IsClientOf FitsShard CoreShardStands ShardAnswerSays cells
        (sessions + 1 + shards) (sessions + 1) }
    ensures mail { (kept : Kept) (shards sessions number : ℕ) (cells : List (CoreCell CoreShard))
        → AreCellsOver kept shards sessions cells → number ≤ shards
        → IsMailAt FitsShard CoreShardStands ShardAnswerSays cells number (2 + shards + number) }
    ensures mails { (kept : Kept) (shards sessions client : ℕ) (cells : List (CoreCell CoreShard))
        → AreCellsOver kept shards sessions cells → client ≤ sessions + 1
        → AreShardMails FitsShard CoreShardStands ShardAnswerSays cells client shards (2 + shards) }
    ensures serves { (kept : Kept) (shards sessions client number : ℕ)
        (cells : List (CoreCell CoreShard)) → AreCellsOver kept shards sessions cells
        → client ≤ sessions
        → ServesClient FitsShard CoreShardStands ShardAnswerSays cells client number }
{}
