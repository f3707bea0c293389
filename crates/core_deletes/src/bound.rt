//! A DELETE that found its cube is bound to it.
ghost use Rattle.std.specs.Prelude.{◌≡◌, ◌+◌, ◌≤◌, [], List, length, replicate, IfOk};
ghost use Rattle.core_changes.specs.ChangesUnderWay.{HasChangedNothing, MayChange};
ghost use Rattle.core_deletes.specs.DeleteEnds.{AnswersAsDelete, IsRefusalOn};
ghost use Rattle.core_program.specs.CoreFits.{CoreEntry};
ghost use Rattle.core_names.specs.CoreEncoders.{MayAskForCodes};
ghost use Rattle.dropped_regions.specs.DeleteBoxes.{IsDeleteText, IsToldOfPlace};
ghost use Rattle.linked_shards.specs.CellShards.{CoreShardStands};
ghost use Rattle.shard_events.specs.ShardsInRuns.{FitsShard, ShardAnswerSays};
ghost use Rattle.query_plan.specs.Bindings.{DeletesRows};
ghost use Rattle.turn_board.specs.Passes.{callers_of};

use crate::dropping::delete_box;
use board_callers::CellCaller;
use core_names::{CubeTexts, known_numbers_stay_told, names_calls_keep_what_is_held};
use core_program::CoreSize;
use core_states::{CoreSession, refuse_plainly};
use cube_journal::Refusal;
use cube_language::{Decl, Statement};
use cube_schema::Schema;
use cube_values::CallError;
use dropped_regions::box_of_delete;
use linked_shards::{CoreShard, ShardCells};
use session_desk::Answered;
use std::alloc::{AllocError, Global};
use std::sync::Wait;
use turn_board::Board;

/// Refuses a counted DELETE before it has changed anything.
pub(crate) fn refuse_delete<R: Wait, P: CellCaller<ShardCells>>(
    rt: &R,
    board: &Board<ShardCells>,
    caller: &mut P,
    size: &CoreSize,
    session: &CoreSession,
    statement: &Statement,
    place: u32,
    decl: &Decl,
    refusal: Refusal,
) -> Answered
    requires board { P.calls_on board.now caller.old }
    requires may { MayChange (P.opening caller.old) (P.number caller.old) size.now.shards
        session.now (P.own caller.old) }
    requires why { IsRefusalOn decl.now statement.now refusal }
    ensures board { P.calls_on board.now caller.new }
    ensures opening { P.opening caller.new ≡ P.opening caller.old }
    ensures number { P.number caller.new ≡ P.number caller.old }
    ensures others { P.others caller.new ≡ P.others caller.old }
    ensures answered { (first : List CoreEntry)
        → HasChangedNothing (P.opening caller.old) (P.number caller.old) session.now statement.now
        first (P.own caller.old) (IsDeleteText place decl.now statement.now)
        → AnswersAsDelete (P.opening caller.old) (P.number caller.old) session.now statement.now first
        (P.own caller.new) place decl.now session.now result }
{
    refuse_plainly::<CoreShard, R, P>(rt, board, caller, session, refusal)
}

// No texts are known yet of the dimensions of a cube.
fn no_texts(alloc: Global, cube: &Schema) -> Result<CubeTexts, AllocError>
    ensures { IfOk result (λ texts. texts ≡ replicate (length cube.now.dims) []) }
{
    CubeTexts::new(alloc, cube.decl().dims.len())
}

// Binds a counted DELETE to its cube, with texts of the cube that the session knows, and drops its box.
fn delete_knowing<R: Wait, P: CellCaller<ShardCells>>(
    rt: &R,
    board: &Board<ShardCells>,
    caller: &mut P,
    size: &CoreSize,
    session: &mut CoreSession,
    statement: &Statement,
    place: u32,
    cube: &Schema,
    known: &mut CubeTexts,
    alloc: Global,
) -> Answered
    requires board { P.calls_on board.now caller.old }
    requires callers { size.now.sessions + 2 + size.now.shards ≤ callers_of board.now }
    requires may { MayChange (P.opening caller.old) (P.number caller.old) size.now.shards
        session.old (P.own caller.old) }
    requires deletes { DeletesRows statement.now }
    requires asks { MayAskForCodes FitsShard CoreShardStands ShardAnswerSays (P.opening caller.old)
        (P.number caller.old) (P.own caller.old) session.old.number known.old place cube.now }
    ensures board { P.calls_on board.now caller.new }
    ensures opening { P.opening caller.new ≡ P.opening caller.old }
    ensures number { P.number caller.new ≡ P.number caller.old }
    ensures others { P.others caller.new ≡ P.others caller.old }
    ensures answered { AnswersAsDelete (P.opening caller.old) (P.number caller.old) session.old
        statement.now (P.own caller.old) (P.own caller.new) place cube.now session.new result }
{
    names_calls_keep_what_is_held::<CoreShard>();
    let number = session.number;
    match box_of_delete::<CoreShard, R, P>(
        rt, board, caller, known, alloc, number, place, cube, statement,
    ) {
        Ok(span) => delete_box(
            rt, board, caller, size, session, statement, place, cube, &span, alloc,
        ),
        Err(CallError::Fault(misfit)) => {
            let refusal = Refusal::of_misfit(misfit);
            let decl = cube.decl();
            refuse_delete(
                rt, board, caller, size, session, statement, place, decl, refusal,
            )
        }
        Err(CallError::NoMemory) => {
            let refusal = Refusal::NoMemory;
            let decl = cube.decl();
            refuse_delete(
                rt, board, caller, size, session, statement, place, decl, refusal,
            )
        }
    }
}

/// A counted DELETE whose cube the session was told of.
pub(crate) fn delete_bound<R: Wait, P: CellCaller<ShardCells>>(
    rt: &R,
    board: &Board<ShardCells>,
    caller: &mut P,
    size: &CoreSize,
    session: &mut CoreSession,
    statement: &Statement,
    place: u32,
    cube: &Schema,
    alloc: Global,
) -> Answered
    requires board { P.calls_on board.now caller.old }
    requires callers { size.now.sessions + 2 + size.now.shards ≤ callers_of board.now }
    requires may { MayChange (P.opening caller.old) (P.number caller.old) size.now.shards
        session.old (P.own caller.old) }
    requires deletes { DeletesRows statement.now }
    requires told { IsToldOfPlace (P.own caller.old) place cube.now }
    ensures board { P.calls_on board.now caller.new }
    ensures opening { P.opening caller.new ≡ P.opening caller.old }
    ensures number { P.number caller.new ≡ P.number caller.old }
    ensures others { P.others caller.new ≡ P.others caller.old }
    ensures answered { AnswersAsDelete (P.opening caller.old) (P.number caller.old) session.old
        statement.now (P.own caller.old) (P.own caller.new) place cube.now session.new result }
{
    known_numbers_stay_told();
    match no_texts(alloc, cube) {
        Ok(mut known) => delete_knowing(
            rt, board, caller, size, session, statement, place, cube, &mut known, alloc,
        ),
        Err(_) => {
            let refusal = Refusal::NoMemory;
            let decl = cube.decl();
            refuse_delete(
                rt, board, caller, size, session, statement, place, decl, refusal,
            )
        }
    }
}
