//! FLUSH, PURGE and SHOW EPOCHS, in whatever mode.

ghost use Rattle.std.specs.Prelude.{◌≡◌, ◌+◌, ◌<◌, None};
ghost use Rattle.cube_language.specs.declared.statement.Statement.TheVariants as statement;
ghost use Rattle.cube_run.specs.RunRecords.{Says};
ghost use Rattle.session_desk.specs.AtDesk.{IsAtDesk};
ghost use Rattle.cube_journal.specs.Legal.{WasFlushed};
ghost use Rattle.cube_journal.specs.declared.journal_entry.JournalEntry.TheVariants as entry;
ghost use Rattle.cube_journal.specs.declared.reply.Reply.TheVariants as reply;
ghost use Rattle.aosi_desk.specs.State.{state_of};
ghost use Rattle.aosi_desk.specs.Desks.{desk_with_entry, opening_of};
ghost use Rattle.session_desk.specs.Executed.{ExecutesAtDesk, IfReplied, OnStopped};
ghost use Rattle.session_desk.specs.FileReplies.{SpeaksOfNoFile};
ghost use Rattle.session_desk.specs.Moves.{MovesOn, OpenStays};

use crate::answered::Answered;
use crate::refusing::refuse;
use crate::rounds::make_round;
use crate::session::{SESSION, Session};
use aosi_desk::Desk;
use cube_journal::{Note, Refusal, Reply};
use cube_language::MOST_STATEMENTS;

/// Notes a FLUSH, once its round is made, and answers it with the latest safe epoch.
fn note_flush(desk: &mut Desk, statement: u32) -> Answered
    requires { WasFlushed 1 desk.old.register.journal }
    ensures opening { opening_of desk.new ≡ opening_of desk.old }
    ensures desk { IfReplied result (λ said. desk.new
        ≡ desk_with_entry desk.old (entry.Flushed 1 statement)) }
    ensures said { IfReplied result (λ said. said
        ≡ reply.Flushed (state_of desk.old.register).lse) }
    ensures same { OnStopped result (desk.new ≡ desk.old) }
    ensures no_file { IfReplied result SpeaksOfNoFile }
    ensures cubes { desk.new.cubes ≡ desk.old.cubes }
    ensures moves { MovesOn None desk.old desk.new }
{
    let flushed = Note::Flushed {
        session: SESSION,
        statement,
    };
    match desk.note(&flushed) {
        Ok(counters) => Answered::Replied(Reply::Flushed {
            epoch: counters.lse,
        }),
        Err(_) => Answered::Stopped,
    }
}

/// FLUSH: makes a round. Once the round is made, want of memory for the entry of the FLUSH is `Stopped`.
pub fn flush(desk: &mut Desk, session: &mut Session) -> Answered
    requires at { IsAtDesk desk.old session.old }
    requires few { session.old.statements < MOST_STATEMENTS }
    ensures at { IsAtDesk desk.new session.new }
    ensures opening { opening_of desk.new ≡ opening_of desk.old }
    ensures number { session.new.statements ≡ session.old.statements + 1 }
    ensures cubes { desk.new.cubes ≡ desk.old.cubes }
    ensures moves { MovesOn None desk.old desk.new }
    ensures turns { OpenStays desk.old session.old session.new }
    ensures no_file { IfReplied result SpeaksOfNoFile }
    ensures executed { IfReplied result
        (ExecutesAtDesk (Says statement.Flush) desk.old session.old desk.new session.new) }
{
    session.statements += 1;
    match make_round(desk) {
        Ok(()) => note_flush(desk, session.statements),
        Err(_) => refuse(desk, session.statements, Refusal::NoMemory),
    }
}

/// PURGE: the latest safe epoch is told. Rows without marks need no purge.
pub fn purge(desk: &mut Desk, session: &mut Session) -> Answered
    requires at { IsAtDesk desk.old session.old }
    requires few { session.old.statements < MOST_STATEMENTS }
    ensures at { IsAtDesk desk.new session.new }
    ensures opening { opening_of desk.new ≡ opening_of desk.old }
    ensures number { session.new.statements ≡ session.old.statements + 1 }
    ensures cubes { desk.new.cubes ≡ desk.old.cubes }
    ensures moves { MovesOn None desk.old desk.new }
    ensures turns { OpenStays desk.old session.old session.new }
    ensures no_file { IfReplied result SpeaksOfNoFile }
    ensures executed { IfReplied result
        (ExecutesAtDesk (Says statement.Purge) desk.old session.old desk.new session.new) }
{
    session.statements += 1;
    let epoch = desk.counters().lse;
    let purged = Note::Purged {
        session: SESSION,
        statement: session.statements,
        epoch,
    };
    match desk.note(&purged) {
        Ok(_) => Answered::Replied(Reply::Purged { epoch }),
        Err(_) => refuse(desk, session.statements, Refusal::NoMemory),
    }
}

/// SHOW EPOCHS: the counters are told.
pub fn show_epochs(desk: &mut Desk, session: &mut Session) -> Answered
    requires at { IsAtDesk desk.old session.old }
    requires few { session.old.statements < MOST_STATEMENTS }
    ensures at { IsAtDesk desk.new session.new }
    ensures opening { opening_of desk.new ≡ opening_of desk.old }
    ensures number { session.new.statements ≡ session.old.statements + 1 }
    ensures cubes { desk.new.cubes ≡ desk.old.cubes }
    ensures moves { MovesOn None desk.old desk.new }
    ensures turns { OpenStays desk.old session.old session.new }
    ensures no_file { IfReplied result SpeaksOfNoFile }
    ensures executed { IfReplied result
        (ExecutesAtDesk (Says statement.ShowEpochs) desk.old session.old desk.new session.new) }
{
    session.statements += 1;
    let show = Note::Show {
        session: SESSION,
        statement: session.statements,
    };
    match desk.note(&show) {
        Ok(counters) => Answered::Replied(Reply::Epochs { counters }),
        Err(_) => refuse(desk, session.statements, Refusal::NoMemory),
    }
}
