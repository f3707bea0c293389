//! A call on the desk, and one on the names.
ghost use Rattle.std.specs.Prelude.{◌≡◌, [], ◌∷◌, ◌++◌};
ghost use Rattle.core_program.specs.ClientCalls.{desk_entry, names_entry};
ghost use Rattle.core_program.specs.AnswersOfCalls.{DeskAnswers, NamesAnswers};
ghost use Rattle.core_program.specs.Knowing.{IsClientOf, Knows, MayCallDesk, MayCallNames};

use crate::answer_kinds::{desk_answer_in, names_answer_in};
use crate::answers::answers_fit_their_calls;
use crate::cells::CoreCells;
use crate::clients::clients_fit_by_what_they_know;
use board_callers::CellCaller;
use core_cells::{DeskAnswer, DeskCall, NamesAnswer, NamesCall};
use cube_core::{CoreCall, LinkedShard};
use std::sync::Wait;
use turn_board::Board;

/// Makes a call on the desk that the client knows it may make. The answer is one that the call may have.
#[inline(always)]
pub fn call_desk_cell<S: LinkedShard, R: Wait, P: CellCaller<CoreCells<S>>>(
    rt: &R,
    board: &Board<CoreCells<S>>,
    caller: &mut P,
    client: u32,
    call: DeskCall,
) -> DeskAnswer
    requires board { P.calls_on board.now caller.old }
    requires client { IsClientOf S.fits S.stands S.says (P.opening caller.old)
        (P.number caller.old) client }
    requires may { Knows S.fits S.stands S.says (P.opening caller.old) (P.number caller.old) client
        (P.own caller.old) (MayCallDesk client call) }
    ensures board { P.calls_on board.now caller.new }
    ensures opening { P.opening caller.new ≡ P.opening caller.old }
    ensures number { P.number caller.new ≡ P.number caller.old }
    ensures others { P.others caller.new ≡ P.others caller.old }
    ensures own { P.own caller.new
        ≡ P.own caller.old ++ desk_entry (P.number caller.old) call result ∷ [] }
    ensures answers { DeskAnswers call result }
{
    clients_fit_by_what_they_know::<S>();
    answers_fit_their_calls::<S>();
    desk_answer_in(caller.call(rt, board, 0, CoreCall::Desk(call)))
}

/// Makes a call on the names that the client knows it may make. The answer is one that the call may have.
#[inline(always)]
pub fn call_names_cell<S: LinkedShard, R: Wait, P: CellCaller<CoreCells<S>>>(
    rt: &R,
    board: &Board<CoreCells<S>>,
    caller: &mut P,
    client: u32,
    call: NamesCall,
) -> NamesAnswer
    requires board { P.calls_on board.now caller.old }
    requires client { IsClientOf S.fits S.stands S.says (P.opening caller.old)
        (P.number caller.old) client }
    requires may { Knows S.fits S.stands S.says (P.opening caller.old) (P.number caller.old) client
        (P.own caller.old) (MayCallNames client call) }
    ensures board { P.calls_on board.now caller.new }
    ensures opening { P.opening caller.new ≡ P.opening caller.old }
    ensures number { P.number caller.new ≡ P.number caller.old }
    ensures others { P.others caller.new ≡ P.others caller.old }
    ensures own { P.own caller.new
        ≡ P.own caller.old ++ names_entry (P.number caller.old) call result ∷ [] }
    ensures answers { NamesAnswers call result }
{
    clients_fit_by_what_they_know::<S>();
    answers_fit_their_calls::<S>();
    names_answer_in(caller.call(rt, board, 1, CoreCall::Names(call)))
}
