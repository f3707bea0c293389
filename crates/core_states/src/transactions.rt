//! BEGIN, and ROLLBACK of a transaction that a fault ended.
ghost use Rattle.std.specs.Prelude.{◌≡◌, ◌<◌, ◌≤◌, [], None};
ghost use Rattle.core_program.specs.Knowing.{IsClientOf, IsSessionOf};
ghost use Rattle.core_states.specs.ExecutedInCore.{ExecutesInCore, HasOneMore};
ghost use Rattle.core_states.specs.LeftBehind.{GoOnByCalls, IsPlainCall, LeavesBehind};
ghost use Rattle.core_states.specs.StandingInCore.{HoldsForMode};
ghost use Rattle.cube_language.specs.declared.statement.Statement.TheVariants as asked;
ghost use Rattle.cube_run.specs.RunRecords.{Says};
ghost use Rattle.cube_run.specs.StepOutcomes.{refused_by_mode};
ghost use Rattle.session_desk.specs.Executed.{IfReplied, OnStopped};
ghost use Rattle.session_replies.specs.Modes.{mode_of};
ghost use Rattle.session_replies.specs.declared.mode.SessionMode.TheVariants as variant;

use crate::refusing::refuse_plainly;
use crate::session::CoreSession;
use board_callers::CellCaller;
use core_program::CoreCells;
use cube_core::LinkedShard;
use cube_journal::{Note, Refusal, Reply};
use cube_language::MOST_STATEMENTS;
use session_desk::Answered;
use session_replies::SessionMode;
use session_snapshots::{leave_note, open_writer, plain_notes_are_allowed};
use std::sync::Wait;
use turn_board::Board;

/// BEGIN: opens a writer.
pub fn begin<S: LinkedShard, R: Wait, P: CellCaller<CoreCells<S>>>(
    rt: &R,
    board: &Board<CoreCells<S>>,
    caller: &mut P,
    session: &mut CoreSession,
) -> Answered
    requires board { P.calls_on board.now caller.old }
    requires client { IsClientOf S.fits S.stands S.says (P.opening caller.old)
        (P.number caller.old) session.old.number }
    requires session { IsSessionOf S.fits S.stands S.says (P.opening caller.old)
        session.old.number }
    requires holds { HoldsForMode S.fits S.stands S.says (P.opening caller.old)
        (P.number caller.old) session.old.number (P.own caller.old) (mode_of session.old.mode) }
    requires few { session.old.statements < MOST_STATEMENTS }
    requires counted { session.old.commits ≤ session.old.statements }
    requires may { refused_by_mode (mode_of session.old.mode) asked.Begin ≡ None }
    ensures board { P.calls_on board.now caller.new }
    ensures opening { P.opening caller.new ≡ P.opening caller.old }
    ensures number { P.number caller.new ≡ P.number caller.old }
    ensures others { P.others caller.new ≡ P.others caller.old }
    ensures holds { HoldsForMode S.fits S.stands S.says (P.opening caller.new)
        (P.number caller.new) session.new.number (P.own caller.new) (mode_of session.new.mode) }
    ensures plain { GoOnByCalls S.fits S.stands S.says (P.opening caller.old)
        (P.number caller.old) session.old.number IsPlainCall (P.own caller.old)
        (P.own caller.new) }
    ensures more { HasOneMore session.old session.new }
    ensures executed { IfReplied result (ExecutesInCore S.fits S.stands S.says
        (P.opening caller.old) (P.number caller.old) (Says asked.Begin) session.old (P.own caller.old)
        session.new (P.own caller.new)) }
    ensures stopped { OnStopped result (LeavesBehind S.fits S.stands S.says
        (P.opening caller.old) (P.number caller.old) session.old.number (P.own caller.old)
        (P.own caller.new) []) }
{
    session.statements += 1;
    match open_writer(rt, board, caller, session.number, session.statements) {
        Some(writer) => {
            let epoch = writer.epoch;
            session.mode = SessionMode::Open { writer };
            Answered::Replied(Reply::Begun { epoch })
        }
        None => refuse_plainly(rt, board, caller, session, Refusal::NoMemory),
    }
}

/// ROLLBACK of a transaction that a fault ended: the session leaves it behind.
pub fn clear<S: LinkedShard, R: Wait, P: CellCaller<CoreCells<S>>>(
    rt: &R,
    board: &Board<CoreCells<S>>,
    caller: &mut P,
    session: &mut CoreSession,
    epoch: u64,
) -> Answered
    requires board { P.calls_on board.now caller.old }
    requires client { IsClientOf S.fits S.stands S.says (P.opening caller.old)
        (P.number caller.old) session.old.number }
    requires session { IsSessionOf S.fits S.stands S.says (P.opening caller.old)
        session.old.number }
    requires holds { HoldsForMode S.fits S.stands S.says (P.opening caller.old)
        (P.number caller.old) session.old.number (P.own caller.old) (mode_of session.old.mode) }
    requires few { session.old.statements < MOST_STATEMENTS }
    requires counted { session.old.commits ≤ session.old.statements }
    requires aborted { session.old.mode ≡ variant.Aborted epoch }
    ensures board { P.calls_on board.now caller.new }
    ensures opening { P.opening caller.new ≡ P.opening caller.old }
    ensures number { P.number caller.new ≡ P.number caller.old }
    ensures others { P.others caller.new ≡ P.others caller.old }
    ensures holds { HoldsForMode S.fits S.stands S.says (P.opening caller.new)
        (P.number caller.new) session.new.number (P.own caller.new) (mode_of session.new.mode) }
    ensures plain { GoOnByCalls S.fits S.stands S.says (P.opening caller.old)
        (P.number caller.old) session.old.number IsPlainCall (P.own caller.old)
        (P.own caller.new) }
    ensures more { HasOneMore session.old session.new }
    ensures executed { IfReplied result (ExecutesInCore S.fits S.stands S.says
        (P.opening caller.old) (P.number caller.old) (Says asked.Rollback) session.old (P.own caller.old)
        session.new (P.own caller.new)) }
    ensures stopped { OnStopped result (LeavesBehind S.fits S.stands S.says
        (P.opening caller.old) (P.number caller.old) session.old.number (P.own caller.old)
        (P.own caller.new) []) }
{
    session.statements += 1;
    plain_notes_are_allowed::<S>();
    let cleared = Note::Cleared {
        session: session.number,
        statement: session.statements,
    };
    match leave_note(rt, board, caller, session.number, cleared) {
        Some(_) => {
            session.mode = SessionMode::Idle;
            Answered::Replied(Reply::RolledBack { epoch })
        }
        None => refuse_plainly(rt, board, caller, session, Refusal::NoMemory),
    }
}
