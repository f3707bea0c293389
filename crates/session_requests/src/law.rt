//! The law of LSE as the desk shows it.

ghost use Rattle.std.specs.Prelude.{ℕ, List, [], ◌∷◌, ◌++◌};
ghost use Rattle.core_program.specs.ClientCalls.{desk_entry};
ghost use Rattle.core_cells.specs.declared.desk.DeskAnswer.TheVariants as answer;
ghost use Rattle.core_cells.specs.declared.desk.DeskCall.TheVariants as call;
ghost use Rattle.core_program.specs.Knowing.{IsClientOf};
ghost use Rattle.core_program.specs.CoreFits.{CoreEntry};
ghost use Rattle.cube_core.specs.declared.cell.CoreCell.{CoreCell};
ghost use Rattle.cube_journal.specs.declared.counters.Counters.{Counters};
ghost use Rattle.cube_journal.specs.declared.note.Note.{Note};
ghost use Rattle.linked_shards.specs.CellShards.{CoreShardStands};
ghost use Rattle.linked_shards.specs.declared.cell.CoreShard.{CoreShard};
ghost use Rattle.session_requests.specs.SessionRequests.{IsToldSafe};
ghost use Rattle.shard_events.specs.ShardsInRuns.{FitsShard, ShardAnswerSays};

/// A session that was just shown the counters, because it asked for them or left a note, was told of
/// their LSE, and that the desk showed just this one.
pub fn sessions_know_the_lse_they_saw()
    ensures counted { (cells : List (CoreCell CoreShard)) (caller session : ℕ)
        (own : List CoreEntry) (now : Counters)
        → IsClientOf FitsShard CoreShardStands ShardAnswerSays cells caller session
        → IsToldSafe cells caller session
        (own ++ desk_entry caller call.Counters (answer.Counted now) ∷ []) now.lse }
    ensures noted { (cells : List (CoreCell CoreShard)) (caller session : ℕ)
        (own : List CoreEntry) (note : Note) (now : Counters)
        → IsClientOf FitsShard CoreShardStands ShardAnswerSays cells caller session
        → IsToldSafe cells caller session
        (own ++ desk_entry caller (call.Note note) (answer.Counted now) ∷ []) now.lse }
{}
