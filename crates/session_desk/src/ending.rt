//! The end of the script, and the closing round.

ghost use Rattle.std.specs.Prelude.{◌≡◌, ◌≤◌, OnOk, OnErr, None};
ghost use Rattle.aosi_desk.specs.Desks.{opening_of};
ghost use Rattle.one_session.specs.Pasts.{Beginning, SessionPast};
ghost use Rattle.cube_run.specs.SessionStates.{SessionState};
ghost use Rattle.aosi_desk.specs.State.{state_of};
ghost use Rattle.session_replies.specs.Modes.{mode_of};
ghost use Rattle.session_desk.specs.AtDesk.{IsAtDesk, IsOpen, desk_with_entries};
ghost use Rattle.session_desk.specs.Entries.{round_entries};
ghost use Rattle.session_desk.specs.Ended.{EndsAtDesk, HasEnded};
ghost use Rattle.session_desk.specs.Moves.{NothingIsOpen, MovesOn};

use crate::rounds::make_round;
use crate::session::{SESSION, Session};
use aosi_desk::Desk;
use cube_journal::AbortCause;
use cube_language::MOST_STATEMENTS;
use session_replies::SessionMode;
use std::alloc::AllocError;

/// The end of the script: a transaction that is open is rolled back. What it wrote is to be undone beside this.
pub fn end(desk: &mut Desk, session: &mut Session)
    requires at { IsAtDesk desk.old session.old }
    requires few { session.old.statements ≤ MOST_STATEMENTS }
    ensures at { IsAtDesk desk.new session.new }
    ensures opening { opening_of desk.new ≡ opening_of desk.old }
    ensures closed { IsOpen session.new.mode → ⊥ }
    ensures ended { EndsAtDesk desk.old session.old desk.new }
    ensures cubes { desk.new.cubes ≡ desk.old.cubes }
    ensures moves { MovesOn None desk.old desk.new }
    ensures turns { NothingIsOpen (mode_of session.new.mode) }
{
    if let SessionMode::Open { .. } = session.mode {
        desk.abort_end(SESSION, session.statements + 1, AbortCause::EndOfScript);
        session.mode = SessionMode::Idle;
    }
}

/// The closing round, once the script has ended. The only error is out of memory.
pub fn close(desk: &mut Desk, session: &Session) -> Result<(), AllocError>
    requires at { IsAtDesk desk.old session.now }
    ensures at { IsAtDesk desk.new session.now }
    ensures opening { opening_of desk.new ≡ opening_of desk.old }
    ensures ended { OnOk result ((beginning : Beginning) (past : SessionPast) (state : SessionState)
        → HasEnded beginning past state desk.old → HasEnded beginning past state desk.new) }
    ensures made { OnOk result (desk.new
        ≡ desk_with_entries desk.old (round_entries (state_of desk.old.register))) }
    ensures same { OnErr result (desk.new ≡ desk.old) }
    ensures cubes { desk.new.cubes ≡ desk.old.cubes }
    ensures moves { MovesOn None desk.old desk.new }
{
    make_round(desk)
}
