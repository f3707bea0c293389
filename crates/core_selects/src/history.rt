//! A session reads the counters, and a history has its calls.
ghost use Rattle.std.specs.Prelude.{◌≡◌, [], Option};
ghost use Rattle.core_selects.specs.ReadLines.{GoesOnHolding};
ghost use Rattle.board_callers.specs.Callers.{HasHistoryOf};
ghost use Rattle.core_cells.specs.declared.desk.DeskAnswer.TheVariants as said;
ghost use Rattle.core_cells.specs.declared.desk.DeskCall.TheVariants as desk;
ghost use Rattle.core_program.specs.AnswersOfCalls.{CoreAnswers, DeskAnswers};
ghost use Rattle.core_program.specs.CoreFits.{FitsOwnCalls};
ghost use Rattle.core_program.specs.Knowing.{IsClientOf, IsSessionOf};
ghost use Rattle.cube_core.specs.CoreSteps.{CoreStep};
ghost use Rattle.cube_core.specs.declared.cell.CoreAnswer.TheVariants as answer;
ghost use Rattle.cube_core.specs.declared.cell.CoreCall.TheVariants as call;
ghost use Rattle.linked_shards.specs.CellShards.{CoreShardStands, CoreShardStep};
ghost use Rattle.shard_events.specs.ShardsInRuns.{FitsShard, ShardAnswerSays};

use board_callers::CellCaller;
use core_cells::{DeskAnswer, DeskCall};
use core_program::{answers_fit_their_calls, clients_fit_by_what_they_know};
use cube_core::{CoreAnswer, CoreCall};
use cube_journal::Counters;
use linked_shards::{CoreShard, ShardCells};
use std::sync::Wait;
use turn_board::Board;

fn counters_in(came: DeskAnswer) -> Counters
    requires { DeskAnswers desk.Counters came }
    ensures { came ≡ said.Counted result }
{
    match came {
        DeskAnswer::Counted(counters) => counters,
        _ => unreachable!(),
    }
}

fn counters_of(came: CoreAnswer) -> Counters
    requires { CoreAnswers (call.Desk desk.Counters) came }
    ensures { came ≡ answer.Desk (said.Counted result) }
{
    match came {
        CoreAnswer::Desk(said) => counters_in(said),
        _ => unreachable!(),
    }
}

/// Reads the counters after a scan. By this call a history has the scan, so that there is a run in which the shards gave
/// what was found.
pub(crate) fn read_after_scan<R: Wait, P: CellCaller<ShardCells>>(
    rt: &R,
    board: &Board<ShardCells>,
    caller: &mut P,
    session: u32,
) -> Counters
    requires board { P.calls_on board.now caller.old }
    requires client { IsClientOf FitsShard CoreShardStands ShardAnswerSays (P.opening caller.old)
        (P.number caller.old) session }
    requires session { IsSessionOf FitsShard CoreShardStands ShardAnswerSays (P.opening caller.old)
        session }
    ensures board { P.calls_on board.now caller.new }
    ensures opening { P.opening caller.new ≡ P.opening caller.old }
    ensures number { P.number caller.new ≡ P.number caller.old }
    ensures others { P.others caller.new ≡ P.others caller.old }
    ensures holding { GoesOnHolding (P.opening caller.old) (P.number caller.old) session
        (P.own caller.old) (P.own caller.new) }
    ensures history { HasHistoryOf (CoreStep CoreShardStep)
        (FitsOwnCalls FitsShard CoreShardStands ShardAnswerSays) (P.opening caller.old)
        (P.number caller.old) (P.own caller.new) }
{
    clients_fit_by_what_they_know::<CoreShard>();
    answers_fit_their_calls::<CoreShard>();
    counters_of(caller.call(rt, board, 0, CoreCall::Desk(DeskCall::Counters)))
}
