//! The call that copies the names of a dimension.

ghost use Rattle.std.specs.Prelude.{◌≡◌, ℕ, [], ◌∷◌, ◌++◌};
ghost use Rattle.board_callers.specs.Callers.{HasHistoryOf};
ghost use Rattle.copied_names.specs.CopiedNames.{copied_answer, copy_entry};
ghost use Rattle.core_program.specs.AnswersOfCalls.{CoreAnswers, NamesAnswers};
ghost use Rattle.core_program.specs.Knowing.{IsClientOf, Knows, MayCallNames};
ghost use Rattle.core_cells.specs.declared.names.NamesCall.TheVariants as names;
ghost use Rattle.core_program.specs.CoreFits.{FitsOwnCalls};
ghost use Rattle.cube_core.specs.CoreSteps.{CoreStep};
ghost use Rattle.cube_core.specs.declared.cell.CoreAnswer.TheVariants as answer;
ghost use Rattle.cube_core.specs.declared.cell.CoreCall.TheVariants as call;

use board_callers::CellCaller;
use core_cells::{NamesAnswer, NamesCall};
use core_program::{CoreCells, answers_fit_their_calls, clients_fit_by_what_they_know};
use cube_core::{CoreAnswer, CoreCall, LinkedShard};
use cube_values::Texts;
use std::alloc::AllocError;
use std::sync::Wait;
use turn_board::Board;

// The names that were copied. It is an error where the dictionaries are out of memory.
fn copy_in_names(came: NamesAnswer) -> Result<Texts, AllocError>
    requires { (cube dim from : ℕ) × NamesAnswers (names.CopyFrom cube dim from) came }
    ensures { came ≡ copied_answer result }
{
    match came {
        NamesAnswer::Copied(list) => Ok(list),
        NamesAnswer::NoMemory => Err(AllocError),
        _ => unreachable!(),
    }
}

// The same, as the answer of a cell.
fn copy_in(came: CoreAnswer) -> Result<Texts, AllocError>
    requires { (cube dim from : ℕ) × CoreAnswers (call.Names (names.CopyFrom cube dim from)) came }
    ensures { came ≡ answer.Names (copied_answer result) }
{
    match came {
        CoreAnswer::Names(said) => copy_in_names(said),
        _ => unreachable!(),
    }
}

/// Copies all names of a dimension of a cube, as the client knows that it may.
pub(crate) fn ask_for_copy<S: LinkedShard, R: Wait, P: CellCaller<CoreCells<S>>>(
    rt: &R,
    board: &Board<CoreCells<S>>,
    caller: &mut P,
    client: u32,
    cube: u32,
    dim: u32,
) -> Result<Texts, AllocError>
    requires board { P.calls_on board.now caller.old }
    requires client { IsClientOf S.fits S.stands S.says (P.opening caller.old)
        (P.number caller.old) client }
    requires may { Knows S.fits S.stands S.says (P.opening caller.old) (P.number caller.old) client
        (P.own caller.old) (MayCallNames client (names.CopyFrom cube dim 0)) }
    ensures board { P.calls_on board.now caller.new }
    ensures opening { P.opening caller.new ≡ P.opening caller.old }
    ensures number { P.number caller.new ≡ P.number caller.old }
    ensures others { P.others caller.new ≡ P.others caller.old }
    ensures own { P.own caller.new ≡ P.own caller.old
        ++ copy_entry (P.number caller.old) cube dim result ∷ [] }
    ensures history { HasHistoryOf (CoreStep S.step) (FitsOwnCalls S.fits S.stands S.says)
        (P.opening caller.new) (P.number caller.new) (P.own caller.new) }
{
    clients_fit_by_what_they_know::<S>();
    answers_fit_their_calls::<S>();
    let asked = NamesCall::CopyFrom { cube, dim, from: 0 };
    copy_in(caller.call(rt, board, 1, CoreCall::Names(asked)))
}
