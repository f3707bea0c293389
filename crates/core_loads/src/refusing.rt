//! A LOAD that found its cube is refused before it has changed anything.
ghost use Rattle.std.specs.Prelude.{◌≡◌, ◌≢◌, ℕ, false, List};
ghost use Rattle.core_changes.specs.ChangesUnderWay.{HasChangedNothing, MayChange};
ghost use Rattle.core_loads.specs.LoadEnds.{AnswersAsLoad, IsRefusalOf, NoText};
ghost use Rattle.core_program.specs.CoreFits.{CoreEntry};
ghost use Rattle.cube_journal.specs.Refusals.{code};
ghost use Rattle.aosi_desk.specs.Desks.{is_cube_code};
ghost use Rattle.cube_journal.specs.declared.reply.Reply.TheVariants as reply;
ghost use Rattle.cube_language.specs.declared.decl.Decl.{Decl};
ghost use Rattle.cube_run.specs.RunRecords.{LoadedFile};
ghost use Rattle.session_desk.specs.Executed.{IfReplied};
ghost use Rattle.session_replies.specs.Modes.{mode_of};

use board_callers::CellCaller;
use core_program::CoreSize;
use core_states::{CoreSession, refuse_plainly};
use cube_journal::Refusal;
use cube_language::Statement;
use linked_shards::{CoreShard, ShardCells};
use session_desk::Answered;
use std::sync::Wait;
use turn_board::Board;

/// Refuses a counted LOAD before it has changed anything.
pub(crate) fn refuse_load<R: Wait, P: CellCaller<ShardCells>>(
    rt: &R,
    board: &Board<ShardCells>,
    caller: &mut P,
    size: &CoreSize,
    session: &CoreSession,
    statement: &Statement,
    refusal: Refusal,
) -> Answered
    requires board { P.calls_on board.now caller.old }
    requires may { MayChange (P.opening caller.old) (P.number caller.old) size.now.shards
        session.now (P.own caller.old) }
    requires cubes { is_cube_code (code refusal) ≡ false }
    requires store { code refusal ≢ 17 }
    ensures board { P.calls_on board.now caller.new }
    ensures opening { P.opening caller.new ≡ P.opening caller.old }
    ensures number { P.number caller.new ≡ P.number caller.old }
    ensures others { P.others caller.new ≡ P.others caller.old }
    ensures said { IfReplied result (λ said. said ≡ reply.Refused refusal) }
    ensures answered { (first : List CoreEntry) (file : LoadedFile) (place : ℕ) (d : Decl)
        → IsRefusalOf (mode_of session.now.mode) file refusal
        → HasChangedNothing (P.opening caller.old) (P.number caller.old) session.now statement.now
        first (P.own caller.old) NoText
        → AnswersAsLoad (P.opening caller.old) (P.number caller.old) session.now statement.now file first
        (P.own caller.new) place d session.now result }
{
    refuse_plainly::<CoreShard, R, P>(rt, board, caller, session, refusal)
}
