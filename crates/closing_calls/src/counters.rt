//! Main reads the counters.
ghost use Rattle.std.specs.Prelude.{◌≡◌, [], ◌∷◌, ◌++◌};
ghost use Rattle.core_program.specs.ClientCalls.{desk_entry};
ghost use Rattle.closing_calls.specs.ClosingCalls.{MainStays};
ghost use Rattle.core_program.specs.AnswersOfCalls.{DeskAnswers};
ghost use Rattle.core_cells.specs.declared.desk.DeskAnswer.TheVariants as answer;
ghost use Rattle.core_cells.specs.declared.desk.DeskCall.TheVariants as call;
ghost use Rattle.core_program.specs.Knowing.{IsClientOf};
ghost use Rattle.linked_shards.specs.CellShards.{CoreShardStands};
ghost use Rattle.session_requests.specs.SessionRequests.{KnowsSafe};
ghost use Rattle.shard_events.specs.ShardsInRuns.{FitsShard, ShardAnswerSays};

use board_callers::CellCaller;
use core_cells::{DeskAnswer, DeskCall};
use core_program::call_desk_cell;
use cube_journal::Counters;
use linked_shards::{CoreShard, ShardCells};
use session_requests::sessions_know_the_lse_they_saw;
use std::sync::Wait;
use turn_board::Board;

/// Reads the counters. Main then knows that LSE is the one that they show, or more.
pub fn read_run_counters<R: Wait, P: CellCaller<ShardCells>>(
    rt: &R,
    board: &Board<ShardCells>,
    caller: &mut P,
) -> Counters
    requires board { P.calls_on board.now caller.old }
    requires main { P.number caller.old ≡ 0 }
    requires client { IsClientOf FitsShard CoreShardStands ShardAnswerSays (P.opening caller.old)
        0 0 }
    ensures board { P.calls_on board.now caller.new }
    ensures opening { P.opening caller.new ≡ P.opening caller.old }
    ensures number { P.number caller.new ≡ P.number caller.old }
    ensures others { P.others caller.new ≡ P.others caller.old }
    ensures own { P.own caller.new
        ≡ P.own caller.old ++ desk_entry 0 call.Counters (answer.Counted result) ∷ [] }
    ensures safe { KnowsSafe (P.opening caller.new) 0 0 (P.own caller.new) result.lse }
    ensures stays { MainStays (P.opening caller.old) (P.own caller.old) (P.opening caller.new)
        (P.own caller.new) }
{
    sessions_know_the_lse_they_saw();
    counters_in(call_desk_cell::<CoreShard, R, P>(rt, board, caller, 0, DeskCall::Counters))
}

// The counters.
fn counters_in(said: DeskAnswer) -> Counters
    requires { DeskAnswers call.Counters said }
    ensures { said ≡ answer.Counted result }
{
    match said {
        DeskAnswer::Counted(counters) => counters,
        _ => unreachable!(),
    }
}
