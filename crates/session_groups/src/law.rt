//! The laws of a session's groups.

ghost use Rattle.std.specs.Prelude.{◌≡◌, ◌≤◌, ℕ, List, map};
ghost use Rattle.agg_fold.specs.Coded.{row_for};
ghost use Rattle.agg_fold.specs.Standing.{IsTable, StandsFor};
ghost use Rattle.agg_fold.specs.declared.groups.Groups.{Groups};
ghost use Rattle.core_program.specs.Knowing.{HasRunOfClient};
ghost use Rattle.core_events.specs.Events.{Opening};
ghost use Rattle.core_events.specs.Jobs.{DropBox, Rollback, Scan};
ghost use Rattle.core_program.specs.CoreFits.{CoreEntry};
ghost use Rattle.core_serial.specs.CubeRows.{rows_to_find};
ghost use Rattle.cube_core.specs.declared.cell.CoreCell.{CoreCell};
ghost use Rattle.cube_core.specs.declared.shard.ShardCall.TheVariants as call;
ghost use Rattle.cube_values.specs.Answer.{table_of};
ghost use Rattle.cube_values.specs.declared.query.BoundQuery.{BoundQuery};
ghost use Rattle.cube_values.specs.declared.shape.CubeShape.{CubeShape};
ghost use Rattle.cube_values.specs.declared.snapshot.Snapshot.{Snapshot};
ghost use Rattle.cube_values.specs.declared.span.Span.{Span};
ghost use Rattle.cube_values.specs.declared.table.Field.{Field};
ghost use Rattle.session_snapshots.specs.KnownHolds.{HoldsWriter};
ghost use Rattle.linked_shards.specs.CellShards.{CoreShardStands};
ghost use Rattle.linked_shards.specs.declared.cell.CoreShard.{CoreShard};
ghost use Rattle.session_groups.specs.GroupOperations.{LearnsOfOperations};
ghost use Rattle.session_groups.specs.ShardGroups.{HasAskedAll, HasFoundRows, KnowsOfShards};
ghost use Rattle.shard_events.specs.ShardsInRuns.{FitsShard, ShardAnswerSays};

/// What a session's scan has found is the plain fold: at the moment after it, the merged groups
/// stand for the rows that the transactions which count for its snapshot leave, run one after the
/// other in the order of their epochs, and the table of the groups is the answer over these.
pub fn scans_are_plain_folds()
    ensures stands { (cells : List (CoreCell CoreShard)) (caller session : ℕ)
        (own log : List CoreEntry) (o : Opening) (query : BoundQuery) (s : Snapshot)
        (groups : Groups)
        → KnowsOfShards cells caller session own (HasFoundRows session query s groups)
        → (r : HasRunOfClient FitsShard CoreShardStands ShardAnswerSays cells o caller session own
        log)
        → StandsFor query (rows_to_find o r.run query s) groups }
    ensures table { (cells : List (CoreCell CoreShard)) (caller session : ℕ)
        (own log : List CoreEntry) (o : Opening) (query : BoundQuery) (s : Snapshot)
        (groups : Groups) (lists : List (List (List ℕ))) (table : List (List Field))
        → KnowsOfShards cells caller session own (HasFoundRows session query s groups)
        → IsTable query lists groups table
        → (r : HasRunOfClient FitsShard CoreShardStands ShardAnswerSays cells o caller session own
        log)
        → table
        ≡ table_of query.group query.items (map (row_for lists) (rows_to_find o r.run query s)) }
{}

/// A group of each shard adds its job's operation once to those of the session's transactions: a
/// deletion its box, a scan and a rollback none.
pub fn groups_add_their_operation_once()
    ensures scan { (cells : List (CoreCell CoreShard)) (caller session shards : ℕ)
        (own now : List CoreEntry) (shape : CubeShape) (query : BoundQuery) (s : Snapshot)
        → HasAskedAll cells caller session shards (call.Scan shape query s) own now
        → LearnsOfOperations cells caller session (Scan query s) own now }
    ensures rollback { (cells : List (CoreCell CoreShard)) (caller session shards : ℕ)
        (own now : List CoreEntry) (epoch : ℕ)
        → HasAskedAll cells caller session shards (call.Rollback epoch) own now
        → LearnsOfOperations cells caller session (Rollback epoch) own now }
    ensures deletion { (cells : List (CoreCell CoreShard)) (caller session shards : ℕ)
        (own now : List CoreEntry) (cube : ℕ) (shape : CubeShape) (box : Span) (s : Snapshot)
        → 1 ≤ shards
        → HoldsWriter FitsShard CoreShardStands ShardAnswerSays cells caller session own s
        → HasAskedAll cells caller session shards (call.DropBox cube shape s.epoch box) own now
        → LearnsOfOperations cells caller session (DropBox cube s.epoch box) own now }
{}
