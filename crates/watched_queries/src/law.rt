//! Laws of watches in runs.

ghost use Rattle.std.specs.Prelude.{ℕ, List};
ghost use Rattle.agg_fold.specs.declared.groups.Groups.{Groups};
ghost use Rattle.core_program.specs.Knowing.{IsClientOf};
ghost use Rattle.core_events.specs.Clients.{reader_up_to};
ghost use Rattle.core_program.specs.CoreFits.{CoreEntry};
ghost use Rattle.cube_core.specs.declared.cell.CoreCell.{CoreCell};
ghost use Rattle.cube_values.specs.declared.query.BoundQuery.{BoundQuery};
ghost use Rattle.job_groups.specs.AskedEach.{HasMore};
ghost use Rattle.linked_shards.specs.CellShards.{CoreShardStands};
ghost use Rattle.linked_shards.specs.declared.cell.CoreShard.{CoreShard};
ghost use Rattle.session_groups.specs.ShardGroups.{HasFoundRows, KnowsOfShards};
ghost use Rattle.session_watches.specs.ComparedShards.{HasFoundChange};
ghost use Rattle.shard_events.specs.ShardsInRuns.{FitsShard, ShardAnswerSays};
ghost use Rattle.standing_query.specs.declared.change.Change.{Change};
ghost use Rattle.watched_queries.specs.ReadersInRuns.{ChangeLeadsUpTo, StandUpTo};
ghost use Rattle.watched_queries.specs.WatchesInRuns.{IsPlainFold, IsWatchOf, ShowsUpTo};
ghost use Rattle.watched_queries.specs.declared.watch.SessionWatch.{SessionWatch};

/// What a scan by a reader has found stands for the rows up to the reader's epoch, at the moment after it
/// and at every later one, whether or not the reader is still held.
pub fn scans_stand_for_their_readers()
    ensures { (cells : List (CoreCell CoreShard)) (caller session epoch : ℕ)
        (own : List CoreEntry) (query : BoundQuery) (groups : Groups)
        → IsClientOf FitsShard CoreShardStands ShardAnswerSays cells caller session
        → KnowsOfShards cells caller session own
        (HasFoundRows session query (reader_up_to epoch) groups)
        → StandUpTo cells caller own query epoch groups }
{}

/// By what a delta between two readers has found, the rows up to the epoch of the one become those up to
/// the epoch of the other, at the moment after it and at every later one.
pub fn changes_lead_from_reader_to_reader()
    ensures { (cells : List (CoreCell CoreShard)) (caller session from to : ℕ)
        (own : List CoreEntry) (query : BoundQuery) (change : Change)
        → IsClientOf FitsShard CoreShardStands ShardAnswerSays cells caller session
        → KnowsOfShards cells caller session own (HasFoundChange session query from to change)
        → ChangeLeadsUpTo cells caller own query from to change }
{}

/// A watch of a session stays one, whatever calls the session makes besides, and its table is the plain
/// fold.
pub fn watches_stay()
    ensures more { (cells : List (CoreCell CoreShard)) (caller session : ℕ)
        (own now : List CoreEntry) (w : SessionWatch) → HasMore own now
        → IsWatchOf cells caller own session w → IsWatchOf cells caller now session w }
    ensures fold { (cells : List (CoreCell CoreShard)) (caller session : ℕ)
        (own : List CoreEntry) (w : SessionWatch)
        → IsWatchOf cells caller own session w → IsPlainFold cells caller own w }
{}
