//! Laws of a round that the flusher copied, by its own calls.

ghost use Rattle.std.specs.Prelude.{◌++◌, ℕ, List};
ghost use Rattle.copied_rounds.specs.CopiedRounds.{
  AreKeptInRuns,
  HaveShapesAndCounts,
  IsRoundBehindKept,
  OpenForRounds,
};
ghost use Rattle.core_program.specs.Flushing.{IsFlusherOf};
ghost use Rattle.core_program.specs.Knowing.{IsLaterRun};
ghost use Rattle.core_events.specs.Events.{CoreEvent, Opening};
ghost use Rattle.core_program.specs.CoreFits.{CoreEntry};
ghost use Rattle.cube_core.specs.declared.cell.CoreCell.{CoreCell};
ghost use Rattle.cube_language.specs.declared.decl.Decl.{Decl};
ghost use Rattle.cube_rounds.specs.Demands.{DimNames, FitsRound};
ghost use Rattle.cube_rounds.specs.Stands.{names_behind};
ghost use Rattle.cube_rounds.specs.declared.round.Round.{Round};
ghost use Rattle.cube_values.specs.declared.shape.CubeShape.{CubeShape};
ghost use Rattle.following_rounds.specs.FollowingRounds.{IsStorableRound};
ghost use Rattle.linked_shards.specs.CellShards.{CoreShardStands};
ghost use Rattle.linked_shards.specs.declared.cell.CoreShard.{CoreShard};
ghost use Rattle.round_copies.specs.RoundCopies.{IsCopiedRound};
ghost use Rattle.round_copies.specs.WithinRounds.{HasHistory};
ghost use Rattle.round_copies.specs.declared.span.RoundSpan.{RoundSpan};
ghost use Rattle.shard_events.specs.ShardsInRuns.{FitsShard, ShardAnswerSays};

/// In each run that goes on from its own calls, what the flusher copied is a round of the run,
/// behind cubes and names that a store keeps of it, where these were there before it copied.
pub fn copied_rounds_are_of_their_runs()
    ensures { (cells : List (CoreCell CoreShard)) (caller client shards : ℕ)
        → IsFlusherOf FitsShard CoreShardStands ShardAnswerSays cells caller client shards
        → (before own : List CoreEntry) (span : RoundSpan) (shapes : List CubeShape)
        (counts : List (List ℕ)) (round : Round)
        → IsCopiedRound cells caller client before own span shapes counts round
        → (cubes : List Decl) (names : List DimNames)
        → HaveShapesAndCounts cubes names shapes counts
        → (o : Opening) → AreKeptInRuns cells o caller before cubes names
        → (log : List CoreEntry) (run : List CoreEvent)
        → IsLaterRun FitsShard CoreShardStands ShardAnswerSays cells o caller own log run
        → IsRoundBehindKept o run client cubes names round }
{}

/// What the flusher copied fits as a round behind these cubes and names, where each run with its
/// calls opens for rounds, and a store has bytes for the round's values. A history has its calls.
pub fn copied_rounds_may_follow_what_is_kept()
    ensures { (cells : List (CoreCell CoreShard)) (caller client shards : ℕ)
        → IsFlusherOf FitsShard CoreShardStands ShardAnswerSays cells caller client shards
        → (before own : List CoreEntry) (span : RoundSpan) (shapes : List CubeShape)
        (counts : List (List ℕ)) (round : Round)
        → IsCopiedRound cells caller client before own span shapes counts round
        → (cubes : List Decl) (names : List DimNames)
        → HaveShapesAndCounts cubes names shapes counts
        → ((o : Opening) → AreKeptInRuns cells o caller before cubes names)
        → ((o : Opening) → OpenForRounds cells o caller own) → HasHistory cells caller own
        → IsStorableRound round → FitsRound cubes names round }
{}

/// With what the flusher copied a store keeps as much of each run that goes on: the round's cubes
/// behind the earlier ones, and its names behind theirs.
pub fn what_is_kept_grows_by_copied_rounds()
    ensures { (cells : List (CoreCell CoreShard)) (caller client shards : ℕ)
        → IsFlusherOf FitsShard CoreShardStands ShardAnswerSays cells caller client shards
        → (before own : List CoreEntry) (span : RoundSpan) (shapes : List CubeShape)
        (counts : List (List ℕ)) (round : Round)
        → IsCopiedRound cells caller client before own span shapes counts round
        → (cubes : List Decl) (names : List DimNames)
        → HaveShapesAndCounts cubes names shapes counts
        → (o : Opening) → AreKeptInRuns cells o caller before cubes names
        → AreKeptInRuns cells o caller own (cubes ++ round.made) (names_behind names round) }
{}
