//! Statements that are not looked at further.

ghost use Rattle.std.specs.Prelude.{◌≡◌, ◌+◌, ◌<◌, Some, None};
ghost use Rattle.aosi_desk.specs.Desks.{opening_of};
ghost use Rattle.cube_language.specs.declared.statement.Statement.{Statement};
ghost use Rattle.cube_journal.specs.declared.refusal.Refusal.TheVariants as cause;
ghost use Rattle.cube_journal.specs.declared.reply.Reply.TheVariants as reply;
ghost use Rattle.cube_run.specs.RunRecords.{Says, SaysNone, Sentence};
ghost use Rattle.cube_run.specs.StepOutcomes.{refused_by_mode};
ghost use Rattle.session_replies.specs.Modes.{mode_of};
ghost use Rattle.session_desk.specs.AtDesk.{IsAtDesk};
ghost use Rattle.session_desk.specs.Executed.{ExecutesAtDesk, IfReplied};
ghost use Rattle.session_desk.specs.FileReplies.{IsRefusedUnread, SpeaksOfNoFile};
ghost use Rattle.session_desk.specs.Moves.{MovesOn, OpenStays};

use crate::answered::Answered;
use crate::refusing::refuse;
use crate::session::Session;
use aosi_desk::Desk;
use cube_journal::Refusal;
use cube_language::{MOST_STATEMENTS, Syntax};

/// A text that spells no statement.
pub fn refuse_syntax(desk: &mut Desk, session: &mut Session, fault: Syntax) -> Answered
    requires at { IsAtDesk desk.old session.old }
    requires few { session.old.statements < MOST_STATEMENTS }
    ensures at { IsAtDesk desk.new session.new }
    ensures opening { opening_of desk.new ≡ opening_of desk.old }
    ensures number { session.new.statements ≡ session.old.statements + 1 }
    ensures cubes { desk.new.cubes ≡ desk.old.cubes }
    ensures moves { MovesOn None desk.old desk.new }
    ensures turns { OpenStays desk.old session.old session.new }
    ensures said { IfReplied result (λ said. said ≡ reply.Refused (cause.Syntax fault)) }
    ensures no_file { IfReplied result SpeaksOfNoFile }
    ensures executed { IfReplied result
        (ExecutesAtDesk (SaysNone fault.at) desk.old session.old desk.new session.new) }
{
    session.statements += 1;
    refuse(desk, session.statements, Refusal::Syntax(fault))
}

/// A statement that the session's mode refuses.
pub fn refuse_by_mode(desk: &mut Desk, session: &mut Session, refusal: Refusal) -> Answered
    requires at { IsAtDesk desk.old session.old }
    requires few { session.old.statements < MOST_STATEMENTS }
    requires refused { (s : Statement)
        × (refused_by_mode (mode_of session.old.mode) s ≡ Some refusal) }
    ensures at { IsAtDesk desk.new session.new }
    ensures opening { opening_of desk.new ≡ opening_of desk.old }
    ensures number { session.new.statements ≡ session.old.statements + 1 }
    ensures cubes { desk.new.cubes ≡ desk.old.cubes }
    ensures moves { MovesOn None desk.old desk.new }
    ensures turns { OpenStays desk.old session.old session.new }
    ensures said { IfReplied result (λ said. said ≡ reply.Refused refusal) }
    ensures no_file { IfReplied result SpeaksOfNoFile }
    ensures unread { IfReplied result IsRefusedUnread }
    ensures executed { IfReplied result (λ said. (s : Statement)
        → refused_by_mode (mode_of session.old.mode) s ≡ Some refusal
        → ExecutesAtDesk (Says s) desk.old session.old desk.new session.new said) }
{
    session.statements += 1;
    refuse(desk, session.statements, refusal)
}

/// A statement for which memory ran out before it changed anything.
pub fn refuse_memory(desk: &mut Desk, session: &mut Session) -> Answered
    requires at { IsAtDesk desk.old session.old }
    requires few { session.old.statements < MOST_STATEMENTS }
    ensures at { IsAtDesk desk.new session.new }
    ensures opening { opening_of desk.new ≡ opening_of desk.old }
    ensures number { session.new.statements ≡ session.old.statements + 1 }
    ensures cubes { desk.new.cubes ≡ desk.old.cubes }
    ensures moves { MovesOn None desk.old desk.new }
    ensures turns { OpenStays desk.old session.old session.new }
    ensures said { IfReplied result (λ said. said ≡ reply.Refused cause.NoMemory) }
    ensures no_file { IfReplied result SpeaksOfNoFile }
    ensures executed { IfReplied result (λ said. (sentence : Sentence)
        → ExecutesAtDesk sentence desk.old session.old desk.new session.new said) }
{
    session.statements += 1;
    refuse(desk, session.statements, Refusal::NoMemory)
}
