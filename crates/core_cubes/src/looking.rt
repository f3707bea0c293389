//! The cube of the name of which a statement speaks.
ghost use Rattle.std.specs.Prelude.{◌≡◌, ◌+◌, ◌<◌, ◌≤◌, [], IfErr, IfOk, None, OnOk, Some};
ghost use mathlib.Core.List.{IsPrefix};
ghost use Rattle.core_program.specs.Knowing.{IsClientOf, IsSessionOf};
ghost use Rattle.core_cubes.specs.ExecutedWatched.{ExecutesWatched};
ghost use Rattle.core_cubes.specs.MadeAndFound.{IsRefusedByName, cube_or_refusal};
ghost use Rattle.core_cubes.specs.StandingCubes.{HasFound, StandsBefore};
ghost use Rattle.core_cubes.specs.StatementCalls.{IsCallFor};
ghost use Rattle.core_states.specs.ExecutedInCore.{HasOneMore};
ghost use Rattle.core_states.specs.LeftBehind.{GoOnByCalls, LeavesBehind};
ghost use Rattle.core_states.specs.StandingInCore.{HoldsForMode};
ghost use Rattle.cube_run.specs.RunRecords.{cube_needed};
ghost use Rattle.cube_run.specs.StepOutcomes.{refused_by_mode};
ghost use Rattle.known_cubes.specs.KnownCubes.{IsToldOfCube};
ghost use Rattle.session_desk.specs.Executed.{IfReplied, OnStopped};
ghost use Rattle.session_replies.specs.Modes.{mode_of};

use crate::naming::NamedCube;
use aosi_desk::CubeFound;
use board_callers::CellCaller;
use core_program::CoreCells;
use core_states::{CoreSession, refuse_memory, refuse_plainly};
use cube_core::LinkedShard;
use cube_journal::{Refusal, Reply};
use cube_language::{MOST_STATEMENTS, Statement};
use cube_values::Text;
use session_desk::Answered;
use session_snapshots::find_cube;
use std::alloc::AllocError;
use std::sync::Wait;
use turn_board::Board;

// What was found, or the refusal because no cube has the name.
fn cube_or_refusal(found: CubeFound, name: Text) -> Result<NamedCube, Answered>
    ensures { result ≡ cube_or_refusal found name }
{
    match found {
        CubeFound::Found { place, decl } => Ok(NamedCube { place, decl }),
        CubeFound::Unknown => Err(Answered::Replied(Reply::Refused {
            refusal: Refusal::UnknownCube { name },
        })),
    }
}

fn two_copies(name: &Text) -> Result<(Text, Text), AllocError>
    ensures { IfOk result (λ copies. (copies.0 ≡ name.now) × (copies.1 ≡ name.now)) }
{
    let one = name.clone()?;
    let other = name.clone()?;
    Ok((one, other))
}

// Refuses a statement for which memory ran out.
fn refuse_search<S: LinkedShard, R: Wait, P: CellCaller<CoreCells<S>>>(
    rt: &R,
    board: &Board<CoreCells<S>>,
    caller: &mut P,
    session: &mut CoreSession,
    statement: &Statement,
    name: &Text,
) -> Answered
    requires board { P.calls_on board.now caller.old }
    requires client { IsClientOf S.fits S.stands S.says (P.opening caller.old)
        (P.number caller.old) session.old.number }
    requires session { IsSessionOf S.fits S.stands S.says (P.opening caller.old)
        session.old.number }
    requires holds { HoldsForMode S.fits S.stands S.says (P.opening caller.old)
        (P.number caller.old) session.old.number (P.own caller.old) (mode_of session.old.mode) }
    requires few { session.old.statements < MOST_STATEMENTS }
    requires counted { session.old.commits ≤ session.old.statements }
    ensures board { P.calls_on board.now caller.new }
    ensures opening { P.opening caller.new ≡ P.opening caller.old }
    ensures number { P.number caller.new ≡ P.number caller.old }
    ensures others { P.others caller.new ≡ P.others caller.old }
    ensures holds { HoldsForMode S.fits S.stands S.says (P.opening caller.new)
        (P.number caller.new) session.new.number (P.own caller.new) (mode_of session.new.mode) }
    ensures calls { GoOnByCalls S.fits S.stands S.says (P.opening caller.old)
        (P.number caller.old) session.old.number
        (IsCallFor (session.old.statements + 1) statement.now) (P.own caller.old)
        (P.own caller.new) }
    ensures more { HasOneMore session.old session.new }
    ensures goes_on { IsPrefix (P.own caller.old) (P.own caller.new) }
    ensures said { IfReplied result (IsRefusedByName name.now) }
    ensures executed { IfReplied result (ExecutesWatched S.fits S.stands S.says
        (P.opening caller.old) (P.number caller.old) statement.now session.old (P.own caller.old)
        session.new (P.own caller.new)) }
    ensures stopped { OnStopped result (LeavesBehind S.fits S.stands S.says
        (P.opening caller.old) (P.number caller.old) session.old.number (P.own caller.old)
        (P.own caller.new) []) }
{
    refuse_memory(rt, board, caller, session)
}

// Looks for the cube of a name, of which these are two copies.
fn find_copied<S: LinkedShard, R: Wait, P: CellCaller<CoreCells<S>>>(
    rt: &R,
    board: &Board<CoreCells<S>>,
    caller: &mut P,
    session: &mut CoreSession,
    statement: &Statement,
    wanted: Text,
    name: Text,
) -> Result<NamedCube, Answered>
    requires board { P.calls_on board.now caller.old }
    requires client { IsClientOf S.fits S.stands S.says (P.opening caller.old)
        (P.number caller.old) session.old.number }
    requires session { IsSessionOf S.fits S.stands S.says (P.opening caller.old)
        session.old.number }
    requires holds { HoldsForMode S.fits S.stands S.says (P.opening caller.old)
        (P.number caller.old) session.old.number (P.own caller.old) (mode_of session.old.mode) }
    requires few { session.old.statements < MOST_STATEMENTS }
    requires counted { session.old.commits ≤ session.old.statements }
    requires may { refused_by_mode (mode_of session.old.mode) statement.now ≡ None }
    requires needs { cube_needed statement.now ≡ Some name }
    requires copy { wanted ≡ name }
    ensures board { P.calls_on board.now caller.new }
    ensures opening { P.opening caller.new ≡ P.opening caller.old }
    ensures number { P.number caller.new ≡ P.number caller.old }
    ensures others { P.others caller.new ≡ P.others caller.old }
    ensures holds { HoldsForMode S.fits S.stands S.says (P.opening caller.new)
        (P.number caller.new) session.new.number (P.own caller.new) (mode_of session.new.mode) }
    ensures calls { GoOnByCalls S.fits S.stands S.says (P.opening caller.old)
        (P.number caller.old) session.old.number
        (IsCallFor (session.old.statements + 1) statement.now) (P.own caller.old)
        (P.own caller.new) }
    ensures more { HasOneMore session.old session.new }
    ensures goes_on { IsPrefix (P.own caller.old) (P.own caller.new) }
    ensures counted { OnOk result (session.new
        ≡ record session.old { statements = session.old.statements + 1 }) }
    ensures found { OnOk result (LeavesBehind S.fits S.stands S.says (P.opening caller.old)
        (P.number caller.old) session.old.number (P.own caller.old) (P.own caller.new) []) }
    ensures told { IfOk result
        (λ cube. IsToldOfCube (P.own caller.new) name cube.place cube.decl) }
    ensures searched { IfOk result
        (λ cube. HasFound (P.own caller.new) name cube.place cube.decl) }
    ensures stands { IfOk result (λ cube. StandsBefore S.fits S.stands S.says
        (P.opening caller.old) (P.number caller.old) session.old.number
        (session.old.statements + 1) (P.own caller.old) (P.own caller.new) name cube.place
        cube.decl) }
    ensures said { IfErr result (λ answered. IfReplied answered (IsRefusedByName name)) }
    ensures executed { IfErr result (λ answered. IfReplied answered
        (ExecutesWatched S.fits S.stands S.says (P.opening caller.old) (P.number caller.old)
        statement.now session.old (P.own caller.old) session.new (P.own caller.new))) }
    ensures stopped { IfErr result (λ answered. OnStopped answered
        (LeavesBehind S.fits S.stands S.says (P.opening caller.old) (P.number caller.old)
        session.old.number (P.own caller.old) (P.own caller.new) [])) }
{
    session.statements += 1;
    match find_cube(
        rt,
        board,
        caller,
        session.number,
        session.statements,
        wanted,
    ) {
        Some(found) => cube_or_refusal(found, name),
        None => Err(refuse_plainly(rt, board, caller, session, Refusal::NoMemory)),
    }
}

/// Looks for the cube that a statement needs, by its name. The statement is then counted. Where the
/// cube is found, no entry is left yet, and the session is told of its place and its declaration.
/// Else the statement is refused, and the error is what it is answered.
pub fn find_named<S: LinkedShard, R: Wait, P: CellCaller<CoreCells<S>>>(
    rt: &R,
    board: &Board<CoreCells<S>>,
    caller: &mut P,
    session: &mut CoreSession,
    statement: &Statement,
    name: &Text,
) -> Result<NamedCube, Answered>
    requires board { P.calls_on board.now caller.old }
    requires client { IsClientOf S.fits S.stands S.says (P.opening caller.old)
        (P.number caller.old) session.old.number }
    requires session { IsSessionOf S.fits S.stands S.says (P.opening caller.old)
        session.old.number }
    requires holds { HoldsForMode S.fits S.stands S.says (P.opening caller.old)
        (P.number caller.old) session.old.number (P.own caller.old) (mode_of session.old.mode) }
    requires few { session.old.statements < MOST_STATEMENTS }
    requires counted { session.old.commits ≤ session.old.statements }
    requires may { refused_by_mode (mode_of session.old.mode) statement.now ≡ None }
    requires needs { cube_needed statement.now ≡ Some name.now }
    ensures board { P.calls_on board.now caller.new }
    ensures opening { P.opening caller.new ≡ P.opening caller.old }
    ensures number { P.number caller.new ≡ P.number caller.old }
    ensures others { P.others caller.new ≡ P.others caller.old }
    ensures holds { HoldsForMode S.fits S.stands S.says (P.opening caller.new)
        (P.number caller.new) session.new.number (P.own caller.new) (mode_of session.new.mode) }
    ensures calls { GoOnByCalls S.fits S.stands S.says (P.opening caller.old)
        (P.number caller.old) session.old.number
        (IsCallFor (session.old.statements + 1) statement.now) (P.own caller.old)
        (P.own caller.new) }
    ensures more { HasOneMore session.old session.new }
    ensures goes_on { IsPrefix (P.own caller.old) (P.own caller.new) }
    ensures counted { OnOk result (session.new
        ≡ record session.old { statements = session.old.statements + 1 }) }
    ensures found { OnOk result (LeavesBehind S.fits S.stands S.says (P.opening caller.old)
        (P.number caller.old) session.old.number (P.own caller.old) (P.own caller.new) []) }
    ensures told { IfOk result
        (λ cube. IsToldOfCube (P.own caller.new) name.now cube.place cube.decl) }
    ensures searched { IfOk result
        (λ cube. HasFound (P.own caller.new) name.now cube.place cube.decl) }
    ensures stands { IfOk result (λ cube. StandsBefore S.fits S.stands S.says
        (P.opening caller.old) (P.number caller.old) session.old.number
        (session.old.statements + 1) (P.own caller.old) (P.own caller.new) name.now cube.place
        cube.decl) }
    ensures said { IfErr result (λ answered. IfReplied answered (IsRefusedByName name.now)) }
    ensures executed { IfErr result (λ answered. IfReplied answered
        (ExecutesWatched S.fits S.stands S.says (P.opening caller.old) (P.number caller.old)
        statement.now session.old (P.own caller.old) session.new (P.own caller.new))) }
    ensures stopped { IfErr result (λ answered. OnStopped answered
        (LeavesBehind S.fits S.stands S.says (P.opening caller.old) (P.number caller.old)
        session.old.number (P.own caller.old) (P.own caller.new) [])) }
{
    match two_copies(name) {
        Ok((wanted, told)) => find_copied(rt, board, caller, session, statement, wanted, told),
        Err(_) => Err(refuse_search(rt, board, caller, session, statement, name)),
    }
}
