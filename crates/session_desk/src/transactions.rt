//! BEGIN, COMMIT and ROLLBACK.

ghost use Rattle.std.specs.Prelude.{◌≡◌, ◌+◌, ◌<◌, None};
ghost use Rattle.aosi_desk.specs.Desks.{opening_of};
ghost use Rattle.cube_language.specs.declared.statement.Statement.TheVariants as statement;
ghost use Rattle.cube_run.specs.RunRecords.{Says};
ghost use Rattle.cube_run.specs.StepOutcomes.{refused_by_mode};
ghost use Rattle.session_replies.specs.Modes.{mode_of};
ghost use Rattle.session_replies.specs.declared.mode.SessionMode.TheVariants as variant;
ghost use Rattle.session_desk.specs.AtDesk.{IsAtDesk, IsOpen, IsOpenAt};
ghost use Rattle.session_desk.specs.Executed.{ExecutesAtDesk, IfReplied};
ghost use Rattle.session_desk.specs.FileReplies.{SpeaksOfNoFile};
ghost use Rattle.session_desk.specs.Moves.{NothingIsOpen, MovesOn, OpenStays, epoch_open_in};

use crate::answered::Answered;
use crate::refusing::refuse;
use crate::rounds::follow_commit;
use crate::session::{SESSION, Session};
use aosi_desk::Desk;
use cube_journal::{AbortCause, Note, Refusal, Reply};
use cube_language::MOST_STATEMENTS;
use session_replies::{SessionMode, round_follows};

/// BEGIN: opens a writer.
pub fn begin(desk: &mut Desk, session: &mut Session) -> Answered
    requires at { IsAtDesk desk.old session.old }
    requires few { session.old.statements < MOST_STATEMENTS }
    requires may { refused_by_mode (mode_of session.old.mode) statement.Begin ≡ None }
    ensures at { IsAtDesk desk.new session.new }
    ensures opening { opening_of desk.new ≡ opening_of desk.old }
    ensures number { session.new.statements ≡ session.old.statements + 1 }
    ensures cubes { desk.new.cubes ≡ desk.old.cubes }
    ensures moves { MovesOn None desk.old desk.new }
    ensures turns { OpenStays desk.old session.old session.new }
    ensures no_file { IfReplied result SpeaksOfNoFile }
    ensures executed { IfReplied result
        (ExecutesAtDesk (Says statement.Begin) desk.old session.old desk.new session.new) }
{
    session.statements += 1;
    match desk.open_write(SESSION, session.statements) {
        Ok(writer) => {
            let epoch = writer.epoch;
            session.mode = SessionMode::Open { writer };
            Answered::Replied(Reply::Begun { epoch })
        }
        Err(_) => refuse(desk, session.statements, Refusal::NoMemory),
    }
}

/// The epoch of the transaction that is open.
fn open_epoch(mode: &SessionMode) -> u64
    requires { IsOpen mode.now }
    ensures { IsOpenAt mode.now result }
{
    match mode {
        SessionMode::Open { writer } => writer.epoch,
        SessionMode::Idle | SessionMode::Aborted { .. } => unreachable!(),
    }
}

/// COMMIT: ends the writer of the transaction that is open. A round follows where one is due.
pub fn commit(desk: &mut Desk, session: &mut Session) -> Answered
    requires at { IsAtDesk desk.old session.old }
    requires few { session.old.statements < MOST_STATEMENTS }
    requires may { refused_by_mode (mode_of session.old.mode) statement.Commit ≡ None }
    ensures at { IsAtDesk desk.new session.new }
    ensures opening { opening_of desk.new ≡ opening_of desk.old }
    ensures number { session.new.statements ≡ session.old.statements + 1 }
    ensures cubes { desk.new.cubes ≡ desk.old.cubes }
    ensures moves { MovesOn (epoch_open_in (mode_of session.old.mode)) desk.old desk.new }
    ensures turns { NothingIsOpen (mode_of session.new.mode) }
    ensures no_file { IfReplied result SpeaksOfNoFile }
    ensures executed { IfReplied result
        (ExecutesAtDesk (Says statement.Commit) desk.old session.old desk.new session.new) }
{
    let epoch = open_epoch(&session.mode);
    session.statements += 1;
    desk.commit(SESSION, session.statements);
    let is_due = round_follows(session.round_every, session.commits);
    session.commits += 1;
    session.mode = SessionMode::Idle;
    if follow_commit(desk, session.statements, is_due) {
        Answered::Replied(Reply::Committed { epoch })
    } else {
        Answered::Stopped
    }
}

/// ROLLBACK of the transaction that is open.
fn roll_back_open(desk: &mut Desk, session: &mut Session) -> Answered
    requires at { IsAtDesk desk.old session.old }
    requires few { session.old.statements < MOST_STATEMENTS }
    requires open { IsOpen session.old.mode }
    ensures at { IsAtDesk desk.new session.new }
    ensures opening { opening_of desk.new ≡ opening_of desk.old }
    ensures number { session.new.statements ≡ session.old.statements + 1 }
    ensures cubes { desk.new.cubes ≡ desk.old.cubes }
    ensures moves { MovesOn None desk.old desk.new }
    ensures turns { NothingIsOpen (mode_of session.new.mode) }
    ensures no_file { IfReplied result SpeaksOfNoFile }
    ensures executed { IfReplied result
        (ExecutesAtDesk (Says statement.Rollback) desk.old session.old desk.new session.new) }
{
    let epoch = open_epoch(&session.mode);
    session.statements += 1;
    desk.abort_end(SESSION, session.statements, AbortCause::Asked);
    session.mode = SessionMode::Idle;
    Answered::Replied(Reply::RolledBack { epoch })
}

/// ROLLBACK of a transaction that a fault ended.
fn clear(desk: &mut Desk, session: &mut Session, epoch: u64) -> Answered
    requires at { IsAtDesk desk.old session.old }
    requires few { session.old.statements < MOST_STATEMENTS }
    requires aborted { session.old.mode ≡ variant.Aborted epoch }
    ensures at { IsAtDesk desk.new session.new }
    ensures opening { opening_of desk.new ≡ opening_of desk.old }
    ensures number { session.new.statements ≡ session.old.statements + 1 }
    ensures cubes { desk.new.cubes ≡ desk.old.cubes }
    ensures moves { MovesOn None desk.old desk.new }
    ensures turns { NothingIsOpen (mode_of session.new.mode) }
    ensures no_file { IfReplied result SpeaksOfNoFile }
    ensures executed { IfReplied result
        (ExecutesAtDesk (Says statement.Rollback) desk.old session.old desk.new session.new) }
{
    session.statements += 1;
    let cleared = Note::Cleared {
        session: SESSION,
        statement: session.statements,
    };
    match desk.note(&cleared) {
        Ok(_) => {
            session.mode = SessionMode::Idle;
            Answered::Replied(Reply::RolledBack { epoch })
        }
        Err(_) => refuse(desk, session.statements, Refusal::NoMemory),
    }
}

/// ROLLBACK: ends the writer of the transaction that is open, or leaves behind the one that a fault ended.
/// What it wrote is to be undone beside this. Nothing is open then, also where that is refused.
pub fn rollback(desk: &mut Desk, session: &mut Session) -> Answered
    requires at { IsAtDesk desk.old session.old }
    requires few { session.old.statements < MOST_STATEMENTS }
    requires may { refused_by_mode (mode_of session.old.mode) statement.Rollback ≡ None }
    ensures at { IsAtDesk desk.new session.new }
    ensures opening { opening_of desk.new ≡ opening_of desk.old }
    ensures number { session.new.statements ≡ session.old.statements + 1 }
    ensures cubes { desk.new.cubes ≡ desk.old.cubes }
    ensures moves { MovesOn None desk.old desk.new }
    ensures turns { NothingIsOpen (mode_of session.new.mode) }
    ensures no_file { IfReplied result SpeaksOfNoFile }
    ensures executed { IfReplied result
        (ExecutesAtDesk (Says statement.Rollback) desk.old session.old desk.new session.new) }
{
    match session.mode {
        SessionMode::Aborted { epoch } => clear(desk, session, epoch),
        _ => roll_back_open(desk, session),
    }
}
