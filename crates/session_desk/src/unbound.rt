//! Statements that are bound to none of the desk's cubes.

ghost use Rattle.std.specs.Prelude.{◌≡◌, ◌+◌, ◌<◌, None, OnOk, OnErr};
ghost use Rattle.cube_journal.specs.declared.journal_entry.JournalEntry.TheVariants as entry;
ghost use Rattle.cube_run.specs.RunRecords.{Says, cube_called};
ghost use Rattle.cube_run.specs.StepOutcomes.{refused_by_mode};
ghost use Rattle.query_plan.specs.Bindings.{FailsOnCube, IsBindFault, LacksCube};
ghost use Rattle.aosi_desk.specs.Desks.{desk_with_entry, opening_of};
ghost use Rattle.session_replies.specs.Modes.{mode_of};
ghost use Rattle.session_desk.specs.AtDesk.{IsAtDesk};
ghost use Rattle.session_desk.specs.Entries.{HasRefusal};
ghost use Rattle.session_desk.specs.Executed.{ExecutesAtDesk, IfReplied};
ghost use Rattle.session_desk.specs.FileReplies.{IsRefusedUnread, SpeaksOfNoFile};
ghost use Rattle.session_desk.specs.Moves.{MovesOn, OpenStays};

use crate::answered::Answered;
use crate::refusing::refuse;
use crate::session::{SESSION, Session};
use aosi_desk::{CubeFound, Desk};
use cube_journal::{Refusal, Reply};
use cube_language::{MOST_STATEMENTS, Misfit, Statement};
use cube_values::Text;
use query_plan::BindFault;
use std::alloc::AllocError;

/// Adds the entry which says that no cube has a name. The only error is out of memory.
fn note_unknown(desk: &mut Desk, statement: u32, name: &str) -> Result<(), AllocError>
    requires { cube_called desk.old.cubes name.now ≡ None }
    ensures opening { opening_of desk.new ≡ opening_of desk.old }
    ensures desk { OnOk result (desk.new
        ≡ desk_with_entry desk.old (entry.Refused 1 statement 2)) }
    ensures same { OnErr result (desk.new ≡ desk.old) }
{
    match desk.find_cube(SESSION, statement, name)? {
        CubeFound::Unknown => Ok(()),
        CubeFound::Found { .. } => unreachable!(),
    }
}

/// Refuses a statement because no cube has the name that it needs.
fn refuse_unknown(
    desk: &mut Desk,
    session: &mut Session,
    statement: &Statement,
    name: Text,
) -> Answered
    requires at { IsAtDesk desk.old session.old }
    requires few { session.old.statements < MOST_STATEMENTS }
    requires may { refused_by_mode (mode_of session.old.mode) statement.now ≡ None }
    requires lacks { LacksCube desk.old.cubes statement.now name }
    ensures at { IsAtDesk desk.new session.new }
    ensures opening { opening_of desk.new ≡ opening_of desk.old }
    ensures number { session.new.statements ≡ session.old.statements + 1 }
    ensures cubes { desk.new.cubes ≡ desk.old.cubes }
    ensures counted { session.new
        ≡ record session.old { statements = session.old.statements + 1 } }
    ensures refused { IfReplied result
        (λ said. HasRefusal session.new.statements desk.old desk.new) }
    ensures moves { MovesOn None desk.old desk.new }
    ensures turns { OpenStays desk.old session.old session.new }
    ensures no_file { IfReplied result SpeaksOfNoFile }
    ensures unread { IfReplied result IsRefusedUnread }
    ensures executed { IfReplied result
        (ExecutesAtDesk (Says statement.now) desk.old session.old desk.new session.new) }
{
    session.statements += 1;
    match note_unknown(desk, session.statements, name.as_str()) {
        Ok(()) => Answered::Replied(Reply::Refused {
            refusal: Refusal::UnknownCube { name },
        }),
        Err(_) => refuse(desk, session.statements, Refusal::NoMemory),
    }
}

/// Refuses a statement because it fails a test on its cube.
fn refuse_unfit(
    desk: &mut Desk,
    session: &mut Session,
    statement: &Statement,
    misfit: Misfit,
) -> Answered
    requires at { IsAtDesk desk.old session.old }
    requires few { session.old.statements < MOST_STATEMENTS }
    requires may { refused_by_mode (mode_of session.old.mode) statement.now ≡ None }
    requires fails { FailsOnCube desk.old.cubes statement.now misfit }
    ensures at { IsAtDesk desk.new session.new }
    ensures opening { opening_of desk.new ≡ opening_of desk.old }
    ensures number { session.new.statements ≡ session.old.statements + 1 }
    ensures cubes { desk.new.cubes ≡ desk.old.cubes }
    ensures counted { session.new
        ≡ record session.old { statements = session.old.statements + 1 } }
    ensures refused { IfReplied result
        (λ said. HasRefusal session.new.statements desk.old desk.new) }
    ensures moves { MovesOn None desk.old desk.new }
    ensures turns { OpenStays desk.old session.old session.new }
    ensures no_file { IfReplied result SpeaksOfNoFile }
    ensures unread { IfReplied result IsRefusedUnread }
    ensures executed { IfReplied result
        (ExecutesAtDesk (Says statement.now) desk.old session.old desk.new session.new) }
{
    desk.is_in_order();
    session.statements += 1;
    refuse(desk, session.statements, Refusal::of_misfit(misfit))
}

/// Refuses a statement that is bound to none of the desk's cubes: no cube has the name that it needs, or it fails a
/// test on its cube.
pub fn refuse_unbound(
    desk: &mut Desk,
    session: &mut Session,
    statement: &Statement,
    fault: BindFault,
) -> Answered
    requires at { IsAtDesk desk.old session.old }
    requires few { session.old.statements < MOST_STATEMENTS }
    requires may { refused_by_mode (mode_of session.old.mode) statement.now ≡ None }
    requires fault { IsBindFault desk.old.cubes statement.now fault }
    ensures at { IsAtDesk desk.new session.new }
    ensures opening { opening_of desk.new ≡ opening_of desk.old }
    ensures number { session.new.statements ≡ session.old.statements + 1 }
    ensures cubes { desk.new.cubes ≡ desk.old.cubes }
    ensures counted { session.new
        ≡ record session.old { statements = session.old.statements + 1 } }
    ensures refused { IfReplied result
        (λ said. HasRefusal session.new.statements desk.old desk.new) }
    ensures moves { MovesOn None desk.old desk.new }
    ensures turns { OpenStays desk.old session.old session.new }
    ensures no_file { IfReplied result SpeaksOfNoFile }
    ensures unread { IfReplied result IsRefusedUnread }
    ensures executed { IfReplied result
        (ExecutesAtDesk (Says statement.now) desk.old session.old desk.new session.new) }
{
    match fault {
        BindFault::UnknownCube { name } => refuse_unknown(desk, session, statement, name),
        BindFault::Unfit { misfit } => refuse_unfit(desk, session, statement, misfit),
    }
}
