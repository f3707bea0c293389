//! Statements that are refused at once.
ghost use Rattle.std.specs.Prelude.{◌≡◌, ◌<◌, ◌≤◌, [], Some};
ghost use mathlib.Core.List.{IsPrefix};
ghost use Rattle.core_program.specs.Knowing.{IsClientOf, IsSessionOf};
ghost use Rattle.core_states.specs.ExecutedInCore.{ExecutesInCore, HasOneMore};
ghost use Rattle.core_states.specs.LeftBehind.{GoOnByCalls, IsPlainCall, LeavesBehind};
ghost use Rattle.core_states.specs.StandingInCore.{HoldsForMode};
ghost use Rattle.cube_journal.specs.declared.refusal.Refusal.TheVariants as cause;
ghost use Rattle.cube_journal.specs.declared.reply.Reply.TheVariants as reply;
ghost use Rattle.cube_language.specs.declared.statement.Statement.{Statement};
ghost use Rattle.cube_run.specs.RunRecords.{Says, SaysNone, Sentence};
ghost use Rattle.cube_run.specs.StepOutcomes.{refused_by_mode};
ghost use Rattle.session_desk.specs.Executed.{IfReplied, OnStopped};
ghost use Rattle.session_replies.specs.Modes.{mode_of};

use crate::refusing::refuse_plainly;
use crate::session::CoreSession;
use board_callers::CellCaller;
use core_program::CoreCells;
use cube_core::LinkedShard;
use cube_journal::Refusal;
use cube_language::{MOST_STATEMENTS, Syntax};
use session_desk::Answered;
use std::sync::Wait;
use turn_board::Board;

/// A text that spells no statement.
pub fn refuse_syntax<S: LinkedShard, R: Wait, P: CellCaller<CoreCells<S>>>(
    rt: &R,
    board: &Board<CoreCells<S>>,
    caller: &mut P,
    session: &mut CoreSession,
    fault: Syntax,
) -> Answered
    requires board { P.calls_on board.now caller.old }
    requires client { IsClientOf S.fits S.stands S.says (P.opening caller.old)
        (P.number caller.old) session.old.number }
    requires session { IsSessionOf S.fits S.stands S.says (P.opening caller.old)
        session.old.number }
    requires holds { HoldsForMode S.fits S.stands S.says (P.opening caller.old)
        (P.number caller.old) session.old.number (P.own caller.old) (mode_of session.old.mode) }
    requires few { session.old.statements < MOST_STATEMENTS }
    requires counted { session.old.commits ≤ session.old.statements }
    ensures board { P.calls_on board.now caller.new }
    ensures opening { P.opening caller.new ≡ P.opening caller.old }
    ensures number { P.number caller.new ≡ P.number caller.old }
    ensures others { P.others caller.new ≡ P.others caller.old }
    ensures holds { HoldsForMode S.fits S.stands S.says (P.opening caller.new)
        (P.number caller.new) session.new.number (P.own caller.new) (mode_of session.new.mode) }
    ensures plain { GoOnByCalls S.fits S.stands S.says (P.opening caller.old)
        (P.number caller.old) session.old.number IsPlainCall (P.own caller.old)
        (P.own caller.new) }
    ensures more { HasOneMore session.old session.new }
    ensures goes_on { IsPrefix (P.own caller.old) (P.own caller.new) }
    ensures said { IfReplied result (λ said. said ≡ reply.Refused (cause.Syntax fault)) }
    ensures executed { IfReplied result (ExecutesInCore S.fits S.stands S.says
        (P.opening caller.old) (P.number caller.old) (SaysNone fault.at) session.old (P.own caller.old)
        session.new (P.own caller.new)) }
    ensures stopped { OnStopped result (LeavesBehind S.fits S.stands S.says
        (P.opening caller.old) (P.number caller.old) session.old.number (P.own caller.old)
        (P.own caller.new) []) }
{
    session.statements += 1;
    refuse_plainly(rt, board, caller, session, Refusal::Syntax(fault))
}

/// A statement that the session's mode refuses.
pub fn refuse_by_mode<S: LinkedShard, R: Wait, P: CellCaller<CoreCells<S>>>(
    rt: &R,
    board: &Board<CoreCells<S>>,
    caller: &mut P,
    session: &mut CoreSession,
    refusal: Refusal,
) -> Answered
    requires board { P.calls_on board.now caller.old }
    requires client { IsClientOf S.fits S.stands S.says (P.opening caller.old)
        (P.number caller.old) session.old.number }
    requires session { IsSessionOf S.fits S.stands S.says (P.opening caller.old)
        session.old.number }
    requires holds { HoldsForMode S.fits S.stands S.says (P.opening caller.old)
        (P.number caller.old) session.old.number (P.own caller.old) (mode_of session.old.mode) }
    requires few { session.old.statements < MOST_STATEMENTS }
    requires counted { session.old.commits ≤ session.old.statements }
    requires refused { (s : Statement)
        × (refused_by_mode (mode_of session.old.mode) s ≡ Some refusal) }
    ensures board { P.calls_on board.now caller.new }
    ensures opening { P.opening caller.new ≡ P.opening caller.old }
    ensures number { P.number caller.new ≡ P.number caller.old }
    ensures others { P.others caller.new ≡ P.others caller.old }
    ensures holds { HoldsForMode S.fits S.stands S.says (P.opening caller.new)
        (P.number caller.new) session.new.number (P.own caller.new) (mode_of session.new.mode) }
    ensures plain { GoOnByCalls S.fits S.stands S.says (P.opening caller.old)
        (P.number caller.old) session.old.number IsPlainCall (P.own caller.old)
        (P.own caller.new) }
    ensures more { HasOneMore session.old session.new }
    ensures goes_on { IsPrefix (P.own caller.old) (P.own caller.new) }
    ensures said { IfReplied result (λ said. said ≡ reply.Refused refusal) }
    ensures executed { IfReplied result (λ said. (s : Statement)
        → refused_by_mode (mode_of session.old.mode) s ≡ Some refusal
        → ExecutesInCore S.fits S.stands S.says (P.opening caller.old) (P.number caller.old)
        (Says s) session.old (P.own caller.old) session.new (P.own caller.new) said) }
    ensures stopped { OnStopped result (LeavesBehind S.fits S.stands S.says
        (P.opening caller.old) (P.number caller.old) session.old.number (P.own caller.old)
        (P.own caller.new) []) }
{
    session.statements += 1;
    refuse_plainly(rt, board, caller, session, refusal)
}

/// A statement for which memory ran out before it changed anything.
pub fn refuse_memory<S: LinkedShard, R: Wait, P: CellCaller<CoreCells<S>>>(
    rt: &R,
    board: &Board<CoreCells<S>>,
    caller: &mut P,
    session: &mut CoreSession,
) -> Answered
    requires board { P.calls_on board.now caller.old }
    requires client { IsClientOf S.fits S.stands S.says (P.opening caller.old)
        (P.number caller.old) session.old.number }
    requires session { IsSessionOf S.fits S.stands S.says (P.opening caller.old)
        session.old.number }
    requires holds { HoldsForMode S.fits S.stands S.says (P.opening caller.old)
        (P.number caller.old) session.old.number (P.own caller.old) (mode_of session.old.mode) }
    requires few { session.old.statements < MOST_STATEMENTS }
    requires counted { session.old.commits ≤ session.old.statements }
    ensures board { P.calls_on board.now caller.new }
    ensures opening { P.opening caller.new ≡ P.opening caller.old }
    ensures number { P.number caller.new ≡ P.number caller.old }
    ensures others { P.others caller.new ≡ P.others caller.old }
    ensures holds { HoldsForMode S.fits S.stands S.says (P.opening caller.new)
        (P.number caller.new) session.new.number (P.own caller.new) (mode_of session.new.mode) }
    ensures plain { GoOnByCalls S.fits S.stands S.says (P.opening caller.old)
        (P.number caller.old) session.old.number IsPlainCall (P.own caller.old)
        (P.own caller.new) }
    ensures more { HasOneMore session.old session.new }
    ensures goes_on { IsPrefix (P.own caller.old) (P.own caller.new) }
    ensures said { IfReplied result (λ said. said ≡ reply.Refused cause.NoMemory) }
    ensures executed { IfReplied result (λ said. (sentence : Sentence)
        → ExecutesInCore S.fits S.stands S.says (P.opening caller.old) (P.number caller.old)
        sentence session.old (P.own caller.old) session.new (P.own caller.new) said) }
    ensures stopped { OnStopped result (LeavesBehind S.fits S.stands S.says
        (P.opening caller.old) (P.number caller.old) session.old.number (P.own caller.old)
        (P.own caller.new) []) }
{
    session.statements += 1;
    refuse_plainly(rt, board, caller, session, Refusal::NoMemory)
}
