//! A call on the desk, and one on the names, with the history that they leave.
ghost use Rattle.std.specs.Prelude.{◌≡◌, ℕ, [], ◌∷◌, ◌++◌};
ghost use Rattle.core_program.specs.ClientCalls.{desk_entry, names_entry};
ghost use Rattle.core_program.specs.AnswersOfCalls.{CoreAnswers, DeskAnswers, NamesAnswers};
ghost use Rattle.core_cells.specs.declared.desk.DeskCall.{DeskCall as DeskAsked};
ghost use Rattle.core_cells.specs.declared.names.NamesCall.{NamesCall as NamesAsked};
ghost use Rattle.core_program.specs.Knowing.{IsClientOf, Knows, MayCallDesk, MayCallNames};
ghost use Rattle.cube_core.specs.declared.cell.CoreAnswer.TheVariants as answer;
ghost use Rattle.cube_core.specs.declared.cell.CoreCall.TheVariants as call;
ghost use Rattle.linked_shards.specs.CellShards.{CoreShardStands};
ghost use Rattle.round_copies.specs.WithinRounds.{HasHistory};
ghost use Rattle.shard_events.specs.ShardsInRuns.{FitsShard, ShardAnswerSays};

use board_callers::CellCaller;
use core_cells::{DeskAnswer, DeskCall, NamesAnswer, NamesCall};
use core_program::{answers_fit_their_calls, clients_fit_by_what_they_know};
use cube_core::{CoreAnswer, CoreCall};
use linked_shards::{CoreShard, ShardCells};
use std::sync::Wait;
use turn_board::Board;

fn desk_answer_in(came: CoreAnswer) -> DeskAnswer
    requires { (c : DeskAsked) × CoreAnswers (call.Desk c) came }
    ensures { came ≡ answer.Desk result }
{
    match came {
        CoreAnswer::Desk(said) => said,
        _ => unreachable!(),
    }
}

fn names_answer_in(came: CoreAnswer) -> NamesAnswer
    requires { (c : NamesAsked) × CoreAnswers (call.Names c) came }
    ensures { came ≡ answer.Names result }
{
    match came {
        CoreAnswer::Names(said) => said,
        _ => unreachable!(),
    }
}

/// Makes a call on the desk that the client knows it may make.
pub(crate) fn ask_desk<R: Wait, P: CellCaller<ShardCells>>(
    rt: &R,
    board: &Board<ShardCells>,
    caller: &mut P,
    client: u32,
    call: DeskCall,
) -> DeskAnswer
    requires board { P.calls_on board.now caller.old }
    requires client { IsClientOf FitsShard CoreShardStands ShardAnswerSays (P.opening caller.old)
        (P.number caller.old) client }
    requires may { Knows FitsShard CoreShardStands ShardAnswerSays (P.opening caller.old)
        (P.number caller.old) client (P.own caller.old) (MayCallDesk client call) }
    ensures board { P.calls_on board.now caller.new }
    ensures opening { P.opening caller.new ≡ P.opening caller.old }
    ensures number { P.number caller.new ≡ P.number caller.old }
    ensures others { P.others caller.new ≡ P.others caller.old }
    ensures own { P.own caller.new
        ≡ P.own caller.old ++ desk_entry (P.number caller.old) call result ∷ [] }
    ensures answers { DeskAnswers call result }
    ensures history { HasHistory (P.opening caller.new) (P.number caller.new) (P.own caller.new) }
{
    clients_fit_by_what_they_know::<CoreShard>();
    answers_fit_their_calls::<CoreShard>();
    desk_answer_in(caller.call(rt, board, 0, CoreCall::Desk(call)))
}

/// Makes a call on the names that the client knows it may make.
pub(crate) fn ask_names<R: Wait, P: CellCaller<ShardCells>>(
    rt: &R,
    board: &Board<ShardCells>,
    caller: &mut P,
    client: u32,
    call: NamesCall,
) -> NamesAnswer
    requires board { P.calls_on board.now caller.old }
    requires client { IsClientOf FitsShard CoreShardStands ShardAnswerSays (P.opening caller.old)
        (P.number caller.old) client }
    requires may { Knows FitsShard CoreShardStands ShardAnswerSays (P.opening caller.old)
        (P.number caller.old) client (P.own caller.old) (MayCallNames client call) }
    ensures board { P.calls_on board.now caller.new }
    ensures opening { P.opening caller.new ≡ P.opening caller.old }
    ensures number { P.number caller.new ≡ P.number caller.old }
    ensures others { P.others caller.new ≡ P.others caller.old }
    ensures own { P.own caller.new
        ≡ P.own caller.old ++ names_entry (P.number caller.old) call result ∷ [] }
    ensures answers { NamesAnswers call result }
    ensures history { HasHistory (P.opening caller.new) (P.number caller.new) (P.own caller.new) }
{
    clients_fit_by_what_they_know::<CoreShard>();
    answers_fit_their_calls::<CoreShard>();
    names_answer_in(caller.call(rt, board, 1, CoreCall::Names(call)))
}
