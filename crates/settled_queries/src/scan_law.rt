//! The law of a session's scans, over every run that may come.

ghost use Rattle.std.specs.Prelude.{ℕ, List};
ghost use Rattle.agg_fold.specs.Standing.{StandsFor};
ghost use Rattle.agg_fold.specs.declared.groups.Groups.{Groups};
ghost use Rattle.core_program.specs.Knowing.{IsClientOf, IsLaterRun, IsSessionOf};
ghost use Rattle.core_events.specs.Events.{CoreEvent, Opening};
ghost use Rattle.core_program.specs.CoreFits.{CoreEntry};
ghost use Rattle.core_serial.specs.CubeRows.{rows_to_find};
ghost use Rattle.cube_core.specs.declared.cell.CoreCell.{CoreCell};
ghost use Rattle.cube_values.specs.declared.query.BoundQuery.{BoundQuery};
ghost use Rattle.cube_values.specs.declared.snapshot.Snapshot.{Snapshot};
ghost use Rattle.session_snapshots.specs.KnownHolds.{HoldsReader, HoldsWriter};
ghost use Rattle.linked_shards.specs.CellShards.{CoreShardStands};
ghost use Rattle.session_groups.specs.ShardGroups.{HasFoundRows, KnowsOfShards};
ghost use Rattle.settled_queries.specs.FoundSoFar.{HasFoundSoFar};
ghost use Rattle.shard_events.specs.ShardsInRuns.{FitsShard, ShardAnswerSays};

use crate::law::later_runs_pass_the_moment;
use linked_shards::CoreShard;

/// What a session's scan has found stays the plain fold, whatever comes later: in each run in which its
/// own calls begin so, the merged groups stand for the rows that the transactions which count for its
/// snapshot leave in the whole run, a writer's own with the operations that it had posted.
pub fn scans_stay_plain_folds()
    ensures reader { (cells : List (CoreCell CoreShard)) (caller session : ℕ)
        (own log : List CoreEntry) (o : Opening) (run : List CoreEvent) (query : BoundQuery)
        (s : Snapshot) (groups : Groups)
        → IsClientOf FitsShard CoreShardStands ShardAnswerSays cells caller session
        → IsSessionOf FitsShard CoreShardStands ShardAnswerSays cells session
        → HoldsReader FitsShard CoreShardStands ShardAnswerSays cells caller session own s
        → KnowsOfShards cells caller session own (HasFoundRows session query s groups)
        → IsLaterRun FitsShard CoreShardStands ShardAnswerSays cells o caller own log run
        → StandsFor query (rows_to_find o run query s) groups }
    ensures writer { (cells : List (CoreCell CoreShard)) (caller session : ℕ)
        (own log : List CoreEntry) (o : Opening) (run : List CoreEvent) (query : BoundQuery)
        (s : Snapshot) (groups : Groups)
        → IsClientOf FitsShard CoreShardStands ShardAnswerSays cells caller session
        → IsSessionOf FitsShard CoreShardStands ShardAnswerSays cells session
        → HoldsWriter FitsShard CoreShardStands ShardAnswerSays cells caller session own s
        → KnowsOfShards cells caller session own (HasFoundRows session query s groups)
        → IsLaterRun FitsShard CoreShardStands ShardAnswerSays cells o caller own log run
        → HasFoundSoFar o session own run query s groups }
{
    later_runs_pass_the_moment::<CoreShard>();
}
