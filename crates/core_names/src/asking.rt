//! The call that asks the dictionaries for the code of a text.

ghost use Rattle.std.specs.Prelude.{◌≡◌, ℕ, List, [], ◌∷◌, ◌++◌};
ghost use Rattle.board_callers.specs.Callers.{HasHistoryOf};
ghost use Rattle.core_program.specs.AnswersOfCalls.{CoreAnswers, NamesAnswers};
ghost use Rattle.core_cells.specs.declared.names.NamesCall.TheVariants as names;
ghost use Rattle.core_program.specs.Knowing.{IsClientOf, Knows, MayCallNames};
ghost use Rattle.core_names.specs.AskedNames.{coded_answer, encode_entry};
ghost use Rattle.core_program.specs.CoreFits.{FitsOwnCalls};
ghost use Rattle.cube_core.specs.CoreSteps.{CoreStep};
ghost use Rattle.cube_core.specs.declared.cell.CoreAnswer.TheVariants as answer;
ghost use Rattle.cube_core.specs.declared.cell.CoreCall.TheVariants as call;
ghost use Rattle.cube_values.specs.declared.shape.CubeShape.{CubeShape};

use board_callers::CellCaller;
use core_cells::{NamesAnswer, NamesCall};
use core_program::{CoreCells, answers_fit_their_calls, clients_fit_by_what_they_know};
use cube_core::{CoreAnswer, CoreCall, LinkedShard};
use cube_values::{SharedShape, Text};
use names_dict::Code;
use std::alloc::AllocError;
use std::sync::Wait;
use turn_board::Board;

// The code that the names answered, or that they are out of memory.
fn code_in_names(came: NamesAnswer) -> Result<Code, AllocError>
    requires { (cube dim : ℕ) × (shape : CubeShape) × (text : List ℕ)
        × NamesAnswers (names.Encode cube dim shape text) came }
    ensures { came ≡ coded_answer result }
{
    match came {
        NamesAnswer::Coded(code) => Ok(code),
        NamesAnswer::NoMemory => Err(AllocError),
        _ => unreachable!(),
    }
}

// The same, as the answer of a cell.
fn code_in(came: CoreAnswer) -> Result<Code, AllocError>
    requires { (cube dim : ℕ) × (shape : CubeShape) × (text : List ℕ)
        × CoreAnswers (call.Names (names.Encode cube dim shape text)) came }
    ensures { came ≡ answer.Names (coded_answer result) }
{
    match came {
        CoreAnswer::Names(said) => code_in_names(said),
        _ => unreachable!(),
    }
}

/// Asks the names for the code of a text in a dimension of a cube, as the client knows that it may.
pub(crate) fn ask_for_code<S: LinkedShard, R: Wait, P: CellCaller<CoreCells<S>>>(
    rt: &R,
    board: &Board<CoreCells<S>>,
    caller: &mut P,
    client: u32,
    cube: u32,
    dim: u32,
    shape: SharedShape,
    name: Text,
) -> Result<Code, AllocError>
    requires board { P.calls_on board.now caller.old }
    requires client { IsClientOf S.fits S.stands S.says (P.opening caller.old)
        (P.number caller.old) client }
    requires may { Knows S.fits S.stands S.says (P.opening caller.old) (P.number caller.old) client
        (P.own caller.old) (MayCallNames client (names.Encode cube dim shape name)) }
    ensures board { P.calls_on board.now caller.new }
    ensures opening { P.opening caller.new ≡ P.opening caller.old }
    ensures number { P.number caller.new ≡ P.number caller.old }
    ensures others { P.others caller.new ≡ P.others caller.old }
    ensures own { P.own caller.new ≡ P.own caller.old
        ++ encode_entry (P.number caller.old) cube dim shape name result ∷ [] }
    ensures history { HasHistoryOf (CoreStep S.step) (FitsOwnCalls S.fits S.stands S.says)
        (P.opening caller.new) (P.number caller.new) (P.own caller.new) }
{
    clients_fit_by_what_they_know::<S>();
    answers_fit_their_calls::<S>();
    let asked = NamesCall::Encode {
        cube,
        dim,
        shape,
        name,
    };
    code_in(caller.call(rt, board, 1, CoreCall::Names(asked)))
}
