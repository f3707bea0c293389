//! The law of sessions that have played their scripts to the end.
ghost use Rattle.std.specs.Prelude.{◌≡◌, ℕ, List};
ghost use Rattle.core_program.specs.CoreFits.{CoreEntry};
ghost use Rattle.core_program.specs.Knowing.{IsClientOf};
ghost use Rattle.core_scripts.specs.PlayedWhole.{PlaysToTheEnd};
ghost use Rattle.core_scripts.specs.ToldFiles.{ShelfTold, files_told};
ghost use Rattle.cube_core.specs.declared.cell.CoreCell.{CoreCell};
ghost use Rattle.cube_journal.specs.declared.reply.Reply.{Reply};
ghost use Rattle.cube_run.specs.RunRecords.{Sentence};
ghost use Rattle.linked_shards.specs.CellShards.{CoreShardStands};
ghost use Rattle.linked_shards.specs.declared.cell.CoreShard.{CoreShard};
ghost use Rattle.scripted_ends.specs.EndedScripts.{HasPlayedToTheEnd};
ghost use Rattle.shard_events.specs.ShardsInRuns.{FitsShard, ShardAnswerSays};
ghost use Rattle.turn_board.specs.History.{of_caller};

/// A session whose caller has in a history just the calls by which it played its script to the end has played it to the
/// end there.
pub fn played_scripts_are_in_their_history()
    ensures { (told : ShelfTold) (cells : List (CoreCell CoreShard)) (caller session every : ℕ)
        (script : List Sentence) (replies : List Reply) (own log : List CoreEntry)
        → IsClientOf FitsShard CoreShardStands ShardAnswerSays cells caller session
        → of_caller caller log ≡ own
        → PlaysToTheEnd told cells caller session every script replies own
        → HasPlayedToTheEnd FitsShard CoreShardStands ShardAnswerSays cells (files_told told) every
        session script replies log }
{}
