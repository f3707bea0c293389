//! The box of a DELETE.

ghost use Rattle.std.specs.Prelude.{◌≡◌, ◌⊎◌, ℕ, List, [], ◌∷◌, IfOk};
ghost use Rattle.cube_language.specs.Misfits.{HasMisfit};
ghost use Rattle.cube_values.specs.Faults.{IfFault};
ghost use Rattle.core_names.specs.AskedNames.{GoOnByNames, HasAskedFor};
ghost use Rattle.core_names.specs.CoreEncoders.{MayAskForCodes};
ghost use Rattle.dropped_regions.specs.DeleteBoxes.{IsBoxOf, IsDeleteText};
ghost use Rattle.query_plan.specs.Bindings.{DeletesRows, IsDropPlan};

use crate::codes::encode_conditions;
use crate::plans::{plan_on, span_on};
use board_callers::CellCaller;
use core_names::CubeTexts;
use core_program::CoreCells;
use cube_core::LinkedShard;
use cube_language::{Misfit, Statement};
use cube_schema::Schema;
use cube_values::{CallError, Span};
use query_plan::{DropPlan, statements_are_bound_to_what_they_ask};
use std::alloc::{AllocError, Global};
use std::sync::Wait;
use turn_board::Board;

// The box of a DELETE with its plan.
fn box_of_plan<S: LinkedShard, R: Wait, P: CellCaller<CoreCells<S>>>(
    rt: &R,
    board: &Board<CoreCells<S>>,
    caller: &mut P,
    known: &mut CubeTexts,
    alloc: Global,
    session: u32,
    place: u32,
    cube: &Schema,
    statement: &Statement,
    plan: &DropPlan,
) -> Result<Span, AllocError>
    requires plan { IsDropPlan (cube.now ∷ []) statement.now plan.now }
    requires board { P.calls_on board.now caller.old }
    requires may { MayAskForCodes S.fits S.stands S.says (P.opening caller.old)
        (P.number caller.old) (P.own caller.old) session known.old place cube.now }
    ensures board { P.calls_on board.now caller.new }
    ensures opening { P.opening caller.new ≡ P.opening caller.old }
    ensures number { P.number caller.new ≡ P.number caller.old }
    ensures others { P.others caller.new ≡ P.others caller.old }
    ensures asks { GoOnByNames (P.number caller.old) (P.own caller.old) (P.own caller.new) }
    ensures asked { (p k : ℕ) (t : List ℕ) → HasAskedFor (P.own caller.new) p k t
        → HasAskedFor (P.own caller.old) p k t
        ⊎ IsDeleteText place cube.now statement.now p k t }
    ensures may { MayAskForCodes S.fits S.stands S.says (P.opening caller.new)
        (P.number caller.new) (P.own caller.new) session known.new place cube.now }
    ensures span { IfOk result (IsBoxOf S.fits S.stands S.says (P.opening caller.new)
        (P.number caller.new) (P.own caller.new) place cube.now statement.now) }
{
    statements_are_bound_to_what_they_ask();
    let conditions = plan.conditions.as_slice();
    let codes = encode_conditions(
        rt, board, caller, known, alloc, session, place, cube, conditions,
    )?;
    span_on(alloc, cube, plan, codes.as_slice())
}

/// The box of the rows that a DELETE is about, on the cube that it needs and of which the session was told. Each text that
/// it compares with is read as its code, which the session asks the names for where it does not know it; a text that no
/// row can ever have matches nothing, so that the box may be empty. The DELETE is refused for the first test that it fails
/// on the cube, without a call.
pub fn box_of_delete<S: LinkedShard, R: Wait, P: CellCaller<CoreCells<S>>>(
    rt: &R,
    board: &Board<CoreCells<S>>,
    caller: &mut P,
    known: &mut CubeTexts,
    alloc: Global,
    session: u32,
    place: u32,
    cube: &Schema,
    statement: &Statement,
) -> Result<Span, CallError<Misfit>>
    requires deletes { DeletesRows statement.now }
    requires board { P.calls_on board.now caller.old }
    requires may { MayAskForCodes S.fits S.stands S.says (P.opening caller.old)
        (P.number caller.old) (P.own caller.old) session known.old place cube.now }
    ensures board { P.calls_on board.now caller.new }
    ensures opening { P.opening caller.new ≡ P.opening caller.old }
    ensures number { P.number caller.new ≡ P.number caller.old }
    ensures others { P.others caller.new ≡ P.others caller.old }
    ensures asks { GoOnByNames (P.number caller.old) (P.own caller.old) (P.own caller.new) }
    ensures asked { (p k : ℕ) (t : List ℕ) → HasAskedFor (P.own caller.new) p k t
        → HasAskedFor (P.own caller.old) p k t
        ⊎ IsDeleteText place cube.now statement.now p k t }
    ensures may { MayAskForCodes S.fits S.stands S.says (P.opening caller.new)
        (P.number caller.new) (P.own caller.new) session known.new place cube.now }
    ensures span { IfOk result (IsBoxOf S.fits S.stands S.says (P.opening caller.new)
        (P.number caller.new) (P.own caller.new) place cube.now statement.now) }
    ensures fault { IfFault result (HasMisfit cube.now statement.now) }
    ensures no_call { IfFault result (λ misfit. P.own caller.new ≡ P.own caller.old) }
{
    match plan_on(alloc, cube, statement) {
        Ok(plan) => Ok(box_of_plan(
            rt, board, caller, known, alloc, session, place, cube, statement, &plan,
        )?),
        Err(CallError::Fault(misfit)) => Err(CallError::Fault(misfit)),
        Err(CallError::NoMemory) => Err(CallError::NoMemory),
    }
}
