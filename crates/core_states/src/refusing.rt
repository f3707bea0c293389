//! Refusals of a session's statement, which is counted already.
ghost use Rattle.std.specs.Prelude.{◌≡◌, ◌≢◌, false, [], ◌∷◌};
ghost use Rattle.aosi_desk.specs.Desks.{is_cube_code};
ghost use Rattle.core_program.specs.Knowing.{IsClientOf, IsSessionOf};
ghost use Rattle.core_states.specs.LeftBehind.{LeavesBehind};
ghost use Rattle.core_states.specs.StandingInCore.{HoldsForMode};
ghost use Rattle.cube_journal.specs.Refusals.{code};
ghost use Rattle.cube_journal.specs.declared.journal_entry.JournalEntry.TheVariants as entry;
ghost use Rattle.cube_journal.specs.declared.note.Note.TheVariants as note;
ghost use Rattle.cube_journal.specs.declared.reply.Reply.TheVariants as reply;
ghost use Rattle.session_desk.specs.Executed.{IfReplied, OnStopped};
ghost use Rattle.session_replies.specs.Modes.{mode_of};
ghost use Rattle.session_snapshots.specs.SessionCalls.{MayLeaveNote};

use crate::session::CoreSession;
use board_callers::CellCaller;
use core_program::CoreCells;
use cube_core::LinkedShard;
use cube_journal::{Note, Refusal, Reply};
use session_desk::Answered;
use session_snapshots::{leave_note, plain_notes_are_allowed};
use std::sync::Wait;
use turn_board::Board;

/// Leaves the note of a refusal, and answers it. It stops where the desk is out of memory.
pub fn refuse<S: LinkedShard, R: Wait, P: CellCaller<CoreCells<S>>>(
    rt: &R,
    board: &Board<CoreCells<S>>,
    caller: &mut P,
    session: &CoreSession,
    refusal: Refusal,
) -> Answered
    requires board { P.calls_on board.now caller.old }
    requires client { IsClientOf S.fits S.stands S.says (P.opening caller.old)
        (P.number caller.old) session.now.number }
    requires session { IsSessionOf S.fits S.stands S.says (P.opening caller.old)
        session.now.number }
    requires holds { HoldsForMode S.fits S.stands S.says (P.opening caller.old)
        (P.number caller.old) session.now.number (P.own caller.old) (mode_of session.now.mode) }
    requires may { MayLeaveNote S.fits S.stands S.says (P.opening caller.old)
        (P.number caller.old) session.now.number (P.own caller.old)
        (note.Refused session.now.number session.now.statements (code refusal)) }
    ensures board { P.calls_on board.now caller.new }
    ensures opening { P.opening caller.new ≡ P.opening caller.old }
    ensures number { P.number caller.new ≡ P.number caller.old }
    ensures others { P.others caller.new ≡ P.others caller.old }
    ensures holds { HoldsForMode S.fits S.stands S.says (P.opening caller.new)
        (P.number caller.new) session.now.number (P.own caller.new) (mode_of session.now.mode) }
    ensures said { IfReplied result (λ said. said ≡ reply.Refused refusal) }
    ensures left { IfReplied result (λ said. LeavesBehind S.fits S.stands S.says
        (P.opening caller.old) (P.number caller.old) session.now.number (P.own caller.old)
        (P.own caller.new)
        (entry.Refused session.now.number session.now.statements (code refusal) ∷ [])) }
    ensures stopped { OnStopped result (LeavesBehind S.fits S.stands S.says
        (P.opening caller.old) (P.number caller.old) session.now.number (P.own caller.old)
        (P.own caller.new) []) }
{
    let refused = Note::Refused {
        session: session.number,
        statement: session.statements,
        code: refusal.code(),
    };
    match leave_note(rt, board, caller, session.number, refused) {
        Some(_) => Answered::Replied(Reply::Refused { refusal }),
        None => Answered::Stopped,
    }
}

/// The same of a refusal that neither the list of cubes nor the store is the cause of.
pub fn refuse_plainly<S: LinkedShard, R: Wait, P: CellCaller<CoreCells<S>>>(
    rt: &R,
    board: &Board<CoreCells<S>>,
    caller: &mut P,
    session: &CoreSession,
    refusal: Refusal,
) -> Answered
    requires board { P.calls_on board.now caller.old }
    requires client { IsClientOf S.fits S.stands S.says (P.opening caller.old)
        (P.number caller.old) session.now.number }
    requires session { IsSessionOf S.fits S.stands S.says (P.opening caller.old)
        session.now.number }
    requires holds { HoldsForMode S.fits S.stands S.says (P.opening caller.old)
        (P.number caller.old) session.now.number (P.own caller.old) (mode_of session.now.mode) }
    requires cubes { is_cube_code (code refusal) ≡ false }
    requires store { code refusal ≢ 17 }
    ensures board { P.calls_on board.now caller.new }
    ensures opening { P.opening caller.new ≡ P.opening caller.old }
    ensures number { P.number caller.new ≡ P.number caller.old }
    ensures others { P.others caller.new ≡ P.others caller.old }
    ensures holds { HoldsForMode S.fits S.stands S.says (P.opening caller.new)
        (P.number caller.new) session.now.number (P.own caller.new) (mode_of session.now.mode) }
    ensures said { IfReplied result (λ said. said ≡ reply.Refused refusal) }
    ensures left { IfReplied result (λ said. LeavesBehind S.fits S.stands S.says
        (P.opening caller.old) (P.number caller.old) session.now.number (P.own caller.old)
        (P.own caller.new)
        (entry.Refused session.now.number session.now.statements (code refusal) ∷ [])) }
    ensures stopped { OnStopped result (LeavesBehind S.fits S.stands S.says
        (P.opening caller.old) (P.number caller.old) session.now.number (P.own caller.old)
        (P.own caller.new) []) }
{
    plain_notes_are_allowed::<S>();
    refuse(rt, board, caller, session, refusal)
}
