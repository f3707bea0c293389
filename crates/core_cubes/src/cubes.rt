//! CREATE CUBE.
ghost use Rattle.std.specs.Prelude.{◌≡◌, ◌+◌, ◌<◌, ◌≤◌, [], None, Some, IfOk};
ghost use mathlib.Core.List.{IsPrefix};
ghost use Rattle.core_program.specs.Knowing.{IsClientOf, IsSessionOf};
ghost use Rattle.core_cubes.specs.MadeAndFound.{IsToldWhereMade};
ghost use Rattle.core_cubes.specs.StatementCalls.{IsCallFor};
ghost use Rattle.core_events.specs.Fitting.{CanBeMade};
ghost use Rattle.core_states.specs.ExecutedInCore.{ExecutesInCore, HasOneMore};
ghost use Rattle.core_states.specs.LeftBehind.{GoOnByCalls, LeavesBehind};
ghost use Rattle.core_states.specs.StandingInCore.{HoldsForMode};
ghost use Rattle.cube_language.specs.Cubes.{IsStorable, schema_fault};
ghost use Rattle.cube_language.specs.Grammar.{IsProper};
ghost use Rattle.cube_language.specs.declared.statement.Statement.TheVariants as asked;
ghost use Rattle.cube_run.specs.RunRecords.{Says};
ghost use Rattle.cube_run.specs.SessionStates.{Idle};
ghost use Rattle.cube_run.specs.StepOutcomes.{refused_by_mode};
ghost use Rattle.session_desk.specs.CubeReplies.{created_reply};
ghost use Rattle.session_desk.specs.Executed.{IfReplied, OnStopped};
ghost use Rattle.session_replies.specs.Modes.{mode_of};

use aosi_desk::CubeAnswer;
use board_callers::CellCaller;
use core_program::CoreCells;
use core_states::{CoreSession, refuse_memory, refuse_plainly};
use cube_core::LinkedShard;
use cube_journal::{Refusal, Reply};
use cube_language::{Decl, MOST_STATEMENTS, SchemaFault};
use cube_schema::check;
use cube_values::{CallError, Text};
use session_desk::Answered;
use std::alloc::{AllocError, Global};
use std::sync::Wait;
use turn_board::Board;

// The reply to who asked for a cube of this name.
fn created_reply(answer: CubeAnswer, name: Text) -> Reply
    ensures { result ≡ created_reply answer name }
{
    match answer {
        CubeAnswer::Created { epoch, .. } => Reply::Created { epoch },
        CubeAnswer::Exists => Reply::Refused {
            refusal: Refusal::CubeExists { name },
        },
        CubeAnswer::TooMany => Reply::Refused {
            refusal: Refusal::TooManyCubes,
        },
    }
}

fn copy_name(name: &Text) -> Result<Text, AllocError>
    ensures { IfOk result (λ n. n ≡ name.now) }
{
    name.clone()
}

// Refuses a CREATE CUBE for which memory ran out.
fn refuse_create<S: LinkedShard, R: Wait, P: CellCaller<CoreCells<S>>>(
    rt: &R,
    board: &Board<CoreCells<S>>,
    caller: &mut P,
    session: &mut CoreSession,
    decl: &Decl,
) -> Answered
    requires board { P.calls_on board.now caller.old }
    requires client { IsClientOf S.fits S.stands S.says (P.opening caller.old)
        (P.number caller.old) session.old.number }
    requires session { IsSessionOf S.fits S.stands S.says (P.opening caller.old)
        session.old.number }
    requires holds { HoldsForMode S.fits S.stands S.says (P.opening caller.old)
        (P.number caller.old) session.old.number (P.own caller.old) (mode_of session.old.mode) }
    requires few { session.old.statements < MOST_STATEMENTS }
    requires counted { session.old.commits ≤ session.old.statements }
    ensures board { P.calls_on board.now caller.new }
    ensures opening { P.opening caller.new ≡ P.opening caller.old }
    ensures number { P.number caller.new ≡ P.number caller.old }
    ensures others { P.others caller.new ≡ P.others caller.old }
    ensures holds { HoldsForMode S.fits S.stands S.says (P.opening caller.new)
        (P.number caller.new) session.new.number (P.own caller.new) (mode_of session.new.mode) }
    ensures calls { GoOnByCalls S.fits S.stands S.says (P.opening caller.old)
        (P.number caller.old) session.old.number
        (IsCallFor (session.old.statements + 1) (asked.CreateCube decl.now)) (P.own caller.old)
        (P.own caller.new) }
    ensures more { HasOneMore session.old session.new }
    ensures goes_on { IsPrefix (P.own caller.old) (P.own caller.new) }
    ensures told { IfReplied result (IsToldWhereMade (P.own caller.new) decl.now) }
    ensures executed { IfReplied result (ExecutesInCore S.fits S.stands S.says
        (P.opening caller.old) (P.number caller.old) (Says (asked.CreateCube decl.now)) session.old
        (P.own caller.old) session.new (P.own caller.new)) }
    ensures stopped { OnStopped result (LeavesBehind S.fits S.stands S.says
        (P.opening caller.old) (P.number caller.old) session.old.number (P.own caller.old)
        (P.own caller.new) []) }
{
    refuse_memory(rt, board, caller, session)
}

// Refuses a CREATE CUBE whose declaration cannot be stored.
fn refuse_fault<S: LinkedShard, R: Wait, P: CellCaller<CoreCells<S>>>(
    rt: &R,
    board: &Board<CoreCells<S>>,
    caller: &mut P,
    session: &mut CoreSession,
    decl: &Decl,
    fault: SchemaFault,
) -> Answered
    requires board { P.calls_on board.now caller.old }
    requires client { IsClientOf S.fits S.stands S.says (P.opening caller.old)
        (P.number caller.old) session.old.number }
    requires session { IsSessionOf S.fits S.stands S.says (P.opening caller.old)
        session.old.number }
    requires holds { HoldsForMode S.fits S.stands S.says (P.opening caller.old)
        (P.number caller.old) session.old.number (P.own caller.old) (mode_of session.old.mode) }
    requires few { session.old.statements < MOST_STATEMENTS }
    requires counted { session.old.commits ≤ session.old.statements }
    requires idle { mode_of session.old.mode ≡ Idle }
    requires fault { schema_fault decl.now ≡ Some fault }
    ensures board { P.calls_on board.now caller.new }
    ensures opening { P.opening caller.new ≡ P.opening caller.old }
    ensures number { P.number caller.new ≡ P.number caller.old }
    ensures others { P.others caller.new ≡ P.others caller.old }
    ensures holds { HoldsForMode S.fits S.stands S.says (P.opening caller.new)
        (P.number caller.new) session.new.number (P.own caller.new) (mode_of session.new.mode) }
    ensures calls { GoOnByCalls S.fits S.stands S.says (P.opening caller.old)
        (P.number caller.old) session.old.number
        (IsCallFor (session.old.statements + 1) (asked.CreateCube decl.now)) (P.own caller.old)
        (P.own caller.new) }
    ensures more { HasOneMore session.old session.new }
    ensures goes_on { IsPrefix (P.own caller.old) (P.own caller.new) }
    ensures told { IfReplied result (IsToldWhereMade (P.own caller.new) decl.now) }
    ensures executed { IfReplied result (ExecutesInCore S.fits S.stands S.says
        (P.opening caller.old) (P.number caller.old) (Says (asked.CreateCube decl.now)) session.old
        (P.own caller.old) session.new (P.own caller.new)) }
    ensures stopped { OnStopped result (LeavesBehind S.fits S.stands S.says
        (P.opening caller.old) (P.number caller.old) session.old.number (P.own caller.old)
        (P.own caller.new) []) }
{
    session.statements += 1;
    refuse_plainly(rt, board, caller, session, Refusal::BadCube { fault })
}

// Makes a cube that can be made, if none has its name, of which this is a copy, and there is a
// place for it.
fn create_named<S: LinkedShard, R: Wait, P: CellCaller<CoreCells<S>>>(
    rt: &R,
    board: &Board<CoreCells<S>>,
    caller: &mut P,
    session: &mut CoreSession,
    decl: Decl,
    name: Text,
) -> Answered
    requires board { P.calls_on board.now caller.old }
    requires client { IsClientOf S.fits S.stands S.says (P.opening caller.old)
        (P.number caller.old) session.old.number }
    requires session { IsSessionOf S.fits S.stands S.says (P.opening caller.old)
        session.old.number }
    requires holds { HoldsForMode S.fits S.stands S.says (P.opening caller.old)
        (P.number caller.old) session.old.number (P.own caller.old) (mode_of session.old.mode) }
    requires few { session.old.statements < MOST_STATEMENTS }
    requires counted { session.old.commits ≤ session.old.statements }
    requires idle { mode_of session.old.mode ≡ Idle }
    requires made { CanBeMade decl }
    requires copy { name ≡ decl.name }
    ensures board { P.calls_on board.now caller.new }
    ensures opening { P.opening caller.new ≡ P.opening caller.old }
    ensures number { P.number caller.new ≡ P.number caller.old }
    ensures others { P.others caller.new ≡ P.others caller.old }
    ensures holds { HoldsForMode S.fits S.stands S.says (P.opening caller.new)
        (P.number caller.new) session.new.number (P.own caller.new) (mode_of session.new.mode) }
    ensures calls { GoOnByCalls S.fits S.stands S.says (P.opening caller.old)
        (P.number caller.old) session.old.number
        (IsCallFor (session.old.statements + 1) (asked.CreateCube decl)) (P.own caller.old)
        (P.own caller.new) }
    ensures more { HasOneMore session.old session.new }
    ensures goes_on { IsPrefix (P.own caller.old) (P.own caller.new) }
    ensures told { IfReplied result (IsToldWhereMade (P.own caller.new) decl) }
    ensures executed { IfReplied result (ExecutesInCore S.fits S.stands S.says
        (P.opening caller.old) (P.number caller.old) (Says (asked.CreateCube decl)) session.old
        (P.own caller.old) session.new (P.own caller.new)) }
    ensures stopped { OnStopped result (LeavesBehind S.fits S.stands S.says
        (P.opening caller.old) (P.number caller.old) session.old.number (P.own caller.old)
        (P.own caller.new) []) }
{
    session.statements += 1;
    let number = session.number;
    match session_snapshots::create_cube(rt, board, caller, number, session.statements, decl) {
        Some(made) => Answered::Replied(created_reply(made, name)),
        None => refuse_plainly(rt, board, caller, session, Refusal::NoMemory),
    }
}

// Makes a cube that can be made, if none has its name and there is a place for it.
fn create_storable<S: LinkedShard, R: Wait, P: CellCaller<CoreCells<S>>>(
    rt: &R,
    board: &Board<CoreCells<S>>,
    caller: &mut P,
    session: &mut CoreSession,
    decl: Decl,
) -> Answered
    requires board { P.calls_on board.now caller.old }
    requires client { IsClientOf S.fits S.stands S.says (P.opening caller.old)
        (P.number caller.old) session.old.number }
    requires session { IsSessionOf S.fits S.stands S.says (P.opening caller.old)
        session.old.number }
    requires holds { HoldsForMode S.fits S.stands S.says (P.opening caller.old)
        (P.number caller.old) session.old.number (P.own caller.old) (mode_of session.old.mode) }
    requires few { session.old.statements < MOST_STATEMENTS }
    requires counted { session.old.commits ≤ session.old.statements }
    requires idle { mode_of session.old.mode ≡ Idle }
    requires proper { IsProper (asked.CreateCube decl) }
    requires storable { IsStorable decl }
    ensures board { P.calls_on board.now caller.new }
    ensures opening { P.opening caller.new ≡ P.opening caller.old }
    ensures number { P.number caller.new ≡ P.number caller.old }
    ensures others { P.others caller.new ≡ P.others caller.old }
    ensures holds { HoldsForMode S.fits S.stands S.says (P.opening caller.new)
        (P.number caller.new) session.new.number (P.own caller.new) (mode_of session.new.mode) }
    ensures calls { GoOnByCalls S.fits S.stands S.says (P.opening caller.old)
        (P.number caller.old) session.old.number
        (IsCallFor (session.old.statements + 1) (asked.CreateCube decl)) (P.own caller.old)
        (P.own caller.new) }
    ensures more { HasOneMore session.old session.new }
    ensures goes_on { IsPrefix (P.own caller.old) (P.own caller.new) }
    ensures told { IfReplied result (IsToldWhereMade (P.own caller.new) decl) }
    ensures executed { IfReplied result (ExecutesInCore S.fits S.stands S.says
        (P.opening caller.old) (P.number caller.old) (Says (asked.CreateCube decl)) session.old
        (P.own caller.old) session.new (P.own caller.new)) }
    ensures stopped { OnStopped result (LeavesBehind S.fits S.stands S.says
        (P.opening caller.old) (P.number caller.old) session.old.number (P.own caller.old)
        (P.own caller.new) []) }
{
    match copy_name(&decl.name) {
        Ok(name) => create_named(rt, board, caller, session, decl, name),
        Err(_) => refuse_create(rt, board, caller, session, &decl),
    }
}

/// CREATE CUBE: makes the cube, if it can be stored, none has its name and there is a place for it.
/// The session is then told of it.
pub fn create_cube<S: LinkedShard, R: Wait, P: CellCaller<CoreCells<S>>>(
    rt: &R,
    board: &Board<CoreCells<S>>,
    caller: &mut P,
    session: &mut CoreSession,
    decl: Decl,
    alloc: Global,
) -> Answered
    requires board { P.calls_on board.now caller.old }
    requires client { IsClientOf S.fits S.stands S.says (P.opening caller.old)
        (P.number caller.old) session.old.number }
    requires session { IsSessionOf S.fits S.stands S.says (P.opening caller.old)
        session.old.number }
    requires holds { HoldsForMode S.fits S.stands S.says (P.opening caller.old)
        (P.number caller.old) session.old.number (P.own caller.old) (mode_of session.old.mode) }
    requires few { session.old.statements < MOST_STATEMENTS }
    requires counted { session.old.commits ≤ session.old.statements }
    requires proper { IsProper (asked.CreateCube decl) }
    requires may { refused_by_mode (mode_of session.old.mode) (asked.CreateCube decl) ≡ None }
    ensures board { P.calls_on board.now caller.new }
    ensures opening { P.opening caller.new ≡ P.opening caller.old }
    ensures number { P.number caller.new ≡ P.number caller.old }
    ensures others { P.others caller.new ≡ P.others caller.old }
    ensures holds { HoldsForMode S.fits S.stands S.says (P.opening caller.new)
        (P.number caller.new) session.new.number (P.own caller.new) (mode_of session.new.mode) }
    ensures calls { GoOnByCalls S.fits S.stands S.says (P.opening caller.old)
        (P.number caller.old) session.old.number
        (IsCallFor (session.old.statements + 1) (asked.CreateCube decl)) (P.own caller.old)
        (P.own caller.new) }
    ensures more { HasOneMore session.old session.new }
    ensures goes_on { IsPrefix (P.own caller.old) (P.own caller.new) }
    ensures told { IfReplied result (IsToldWhereMade (P.own caller.new) decl) }
    ensures executed { IfReplied result (ExecutesInCore S.fits S.stands S.says
        (P.opening caller.old) (P.number caller.old) (Says (asked.CreateCube decl)) session.old
        (P.own caller.old) session.new (P.own caller.new)) }
    ensures stopped { OnStopped result (LeavesBehind S.fits S.stands S.says
        (P.opening caller.old) (P.number caller.old) session.old.number (P.own caller.old)
        (P.own caller.new) []) }
{
    match check(alloc, &decl) {
        Ok(_) => create_storable(rt, board, caller, session, decl),
        Err(CallError::Fault(fault)) => refuse_fault(rt, board, caller, session, &decl, fault),
        Err(_) => refuse_create(rt, board, caller, session, &decl),
    }
}
