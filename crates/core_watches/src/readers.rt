//! The laws of a watch's readers and of the names by which its query is bound.

ghost use Rattle.std.specs.Prelude.{◌≡◌, ℕ, List};
ghost use mathlib.Core.List.{IsPrefix};
ghost use Rattle.agg_fold.specs.declared.groups.Groups.{Groups};
ghost use Rattle.core_watches.specs.BoundReaders.{HasReader, IsBoundInRuns, OpenWithRowsOfCubes};
ghost use Rattle.condition_spans.specs.Codes.{lists_at};
ghost use Rattle.copied_names.specs.CopiedNames.{AreCopiedBetween};
ghost use Rattle.core_names.specs.NamesInTheEnd.{OpenWithNames};
ghost use Rattle.core_program.specs.CoreFits.{CoreEntry};
ghost use Rattle.core_program.specs.Knowing.{IsClientOf, IsSessionOf};
ghost use Rattle.cube_core.specs.declared.cell.CoreCell.{CoreCell};
ghost use Rattle.cube_language.specs.Misfits.{FitsCube};
ghost use Rattle.cube_language.specs.declared.decl.Decl.{Decl};
ghost use Rattle.cube_language.specs.declared.statement.Statement.{Statement};
ghost use Rattle.cube_values.specs.declared.query.BoundQuery.{BoundQuery};
ghost use Rattle.known_cubes.specs.KnownCubes.{IsToldOfCube};
ghost use Rattle.linked_shards.specs.CellShards.{CoreShardStands};
ghost use Rattle.shard_events.specs.ShardsInRuns.{FitsShard, ShardAnswerSays};
ghost use Rattle.linked_shards.specs.declared.cell.CoreShard.{CoreShard};
ghost use Rattle.query_plan.specs.Bindings.{IsQueryOn};
ghost use Rattle.query_plan.specs.Ties.{AreDistinct};
ghost use Rattle.session_watches.specs.KnownReaders.{HoldersHave};
ghost use Rattle.watch_holds.specs.HolderStates.{HeldReaders};
ghost use Rattle.watched_queries.specs.ReadersInRuns.{StandUpTo};

/// Where a session's holders have a reader, and the names of a cube are copied after that, each query of the
/// cube that is bound by these names is bound at the reader. It stays so with more calls.
pub fn readers_bind_their_queries()
    ensures bound { (cells : List (CoreCell CoreShard)) (caller session number epoch place : ℕ)
        (own now : List CoreEntry) (readers : HeldReaders) (name : List ℕ) (d : Decl)
        (s : Statement) (names : List (List (List (List ℕ)))) (query : BoundQuery)
        → IsClientOf FitsShard CoreShardStands ShardAnswerSays cells caller session
        → IsSessionOf FitsShard CoreShardStands ShardAnswerSays cells session → IsPrefix own now
        → HoldersHave FitsShard CoreShardStands ShardAnswerSays cells caller session own readers
        → HasReader number epoch readers → IsToldOfCube own name place d → FitsCube d s
        → AreCopiedBetween FitsShard CoreShardStands ShardAnswerSays cells caller own now place d
        names → AreDistinct (lists_at names place) → query.cube ≡ place → IsQueryOn d names s query
        → IsBoundInRuns cells caller now number epoch names d s query }
    ensures more { (cells : List (CoreCell CoreShard)) (caller number epoch : ℕ)
        (own now : List CoreEntry) (d : Decl) (s : Statement)
        (names : List (List (List (List ℕ)))) (query : BoundQuery) → IsPrefix own now
        → IsBoundInRuns cells caller own number epoch names d s query
        → IsBoundInRuns cells caller now number epoch names d s query }
{}

/// Names only come. So by names that are copied later a statement's query takes the same of the rows up to the
/// epoch of an earlier reader, and what stands for the one stands for the other, where the kept rows are rows of their
/// cubes.
pub fn watches_are_bound_anew()
    ensures { (cells : List (CoreCell CoreShard)) (caller number epoch : ℕ)
        (own now : List CoreEntry) (d : Decl) (s : Statement)
        (names named : List (List (List (List ℕ)))) (old new : BoundQuery) (groups : Groups)
        → OpenWithNames FitsShard CoreShardStands ShardAnswerSays cells
        → OpenWithRowsOfCubes cells → IsPrefix own now
        → IsBoundInRuns cells caller own number epoch names d s old
        → AreCopiedBetween FitsShard CoreShardStands ShardAnswerSays cells caller own now old.cube d
        named → AreDistinct (lists_at named old.cube) → new.cube ≡ old.cube
        → IsQueryOn d named s new → StandUpTo cells caller own old epoch groups
        → StandUpTo cells caller now new epoch groups }
{}
