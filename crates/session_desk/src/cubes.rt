//! CREATE CUBE.

ghost use Rattle.std.specs.Prelude.{◌≡◌, ◌+◌, ◌<◌, None, Some, IfOk, length, vec_capacity};
ghost use Rattle.aosi_desk.specs.Desks.{opening_of};
ghost use Rattle.cube_language.specs.declared.statement.Statement.TheVariants as statement;
ghost use Rattle.cube_language.specs.Cubes.{IsStorable, schema_fault};
ghost use Rattle.cube_journal.specs.declared.refusal.Refusal.TheVariants as cause;
ghost use Rattle.cube_journal.specs.declared.reply.Reply.TheVariants as reply;
ghost use Rattle.cube_run.specs.RunRecords.{Says};
ghost use Rattle.cube_run.specs.SessionStates.{Idle};
ghost use Rattle.cube_run.specs.StepOutcomes.{refused_by_mode};
ghost use Rattle.session_replies.specs.Modes.{mode_of};
ghost use Rattle.session_desk.specs.AtDesk.{IsAtDesk};
ghost use Rattle.session_desk.specs.CubeReplies.{HasNewName, created_reply, cubes_after_answer, cubes_after_create};
ghost use Rattle.session_desk.specs.Executed.{ExecutesAtDesk, IfReplied};
ghost use Rattle.session_desk.specs.FileReplies.{SpeaksOfNoFile};
ghost use Rattle.session_desk.specs.Moves.{MovesOn, OpenStays};

use crate::answered::Answered;
use crate::refusals::refuse_memory;
use crate::refusing::refuse;
use crate::session::{SESSION, Session};
use aosi_desk::{CubeAnswer, Desk};
use cube_journal::{Refusal, Reply};
use cube_language::{Decl, MOST_STATEMENTS, SchemaFault};
use cube_schema::{Schema, check};
use cube_values::{CallError, Text};
use std::alloc::{AllocError, Global};

/// The reply to who asked for a cube of this name.
fn created_reply(answer: CubeAnswer, name: Text) -> Reply
    ensures { result ≡ created_reply answer name }
{
    match answer {
        CubeAnswer::Created { epoch, .. } => Reply::Created { epoch },
        CubeAnswer::Exists => Reply::Refused {
            refusal: Refusal::CubeExists { name },
        },
        CubeAnswer::TooMany => Reply::Refused {
            refusal: Refusal::TooManyCubes,
        },
    }
}

/// Where a cube was made, its schema joins those of the others.
fn join(cubes: &mut Vec<Schema>, schema: Schema, answer: CubeAnswer)
    requires { length cubes.old.items < vec_capacity cubes.old }
    ensures { cubes.new.items ≡ cubes_after_answer cubes.old.items schema answer }
{
    match answer {
        CubeAnswer::Created { .. } => cubes.push_reserved(schema),
        CubeAnswer::Exists | CubeAnswer::TooMany => {}
    }
}

/// Makes a cube that can be stored, if none has its name, of which this is a copy, and there is a place for it.
fn create_named(
    desk: &mut Desk,
    cubes: &mut Vec<Schema>,
    session: &mut Session,
    schema: Schema,
    decl: Decl,
    name: Text,
) -> Answered
    requires at { IsAtDesk desk.old session.old }
    requires few { session.old.statements < MOST_STATEMENTS }
    requires idle { mode_of session.old.mode ≡ Idle }
    requires storable { IsStorable decl }
    requires copy { name ≡ decl.name }
    requires checked { schema ≡ decl }
    requires room { length cubes.old.items < vec_capacity cubes.old }
    ensures at { IsAtDesk desk.new session.new }
    ensures opening { opening_of desk.new ≡ opening_of desk.old }
    ensures number { session.new.statements ≡ session.old.statements + 1 }
    ensures cubes { desk.new.cubes ≡ cubes_after_create desk.old.cubes decl result }
    ensures moves { MovesOn None desk.old desk.new }
    ensures turns { OpenStays desk.old session.old session.new }
    ensures schemas { cubes.new.items ≡ cubes_after_create cubes.old.items decl result }
    ensures new { HasNewName desk.old.cubes decl result }
    ensures no_file { IfReplied result SpeaksOfNoFile }
    ensures executed { IfReplied result
        (ExecutesAtDesk (Says (statement.CreateCube decl))
        desk.old session.old desk.new session.new) }
{
    desk.is_in_order();
    session.statements += 1;
    match desk.create_cube(SESSION, session.statements, decl) {
        Ok(answer) => {
            join(cubes, schema, answer);
            Answered::Replied(created_reply(answer, name))
        }
        Err(_) => refuse(desk, session.statements, Refusal::NoMemory),
    }
}

fn copy_name(name: &Text) -> Result<Text, AllocError>
    ensures { IfOk result (λ n. n ≡ name.now) }
{
    name.clone()
}

/// Refuses a CREATE CUBE for which memory ran out.
fn refuse_create(desk: &mut Desk, session: &mut Session, decl: &Decl) -> Answered
    requires at { IsAtDesk desk.old session.old }
    requires few { session.old.statements < MOST_STATEMENTS }
    ensures at { IsAtDesk desk.new session.new }
    ensures opening { opening_of desk.new ≡ opening_of desk.old }
    ensures number { session.new.statements ≡ session.old.statements + 1 }
    ensures cubes { desk.new.cubes ≡ desk.old.cubes }
    ensures moves { MovesOn None desk.old desk.new }
    ensures turns { OpenStays desk.old session.old session.new }
    ensures said { IfReplied result (λ said. said ≡ reply.Refused cause.NoMemory) }
    ensures no_file { IfReplied result SpeaksOfNoFile }
    ensures executed { IfReplied result (ExecutesAtDesk (Says (statement.CreateCube decl.now))
        desk.old session.old desk.new session.new) }
{
    refuse_memory(desk, session)
}

/// Makes a cube that can be stored, if none has its name and there is a place for it. There is room for its schema.
fn create_with_room(
    desk: &mut Desk,
    cubes: &mut Vec<Schema>,
    session: &mut Session,
    schema: Schema,
    decl: Decl,
) -> Answered
    requires at { IsAtDesk desk.old session.old }
    requires few { session.old.statements < MOST_STATEMENTS }
    requires idle { mode_of session.old.mode ≡ Idle }
    requires storable { IsStorable decl }
    requires checked { schema ≡ decl }
    requires room { length cubes.old.items < vec_capacity cubes.old }
    ensures at { IsAtDesk desk.new session.new }
    ensures opening { opening_of desk.new ≡ opening_of desk.old }
    ensures number { session.new.statements ≡ session.old.statements + 1 }
    ensures cubes { desk.new.cubes ≡ cubes_after_create desk.old.cubes decl result }
    ensures moves { MovesOn None desk.old desk.new }
    ensures turns { OpenStays desk.old session.old session.new }
    ensures schemas { cubes.new.items ≡ cubes_after_create cubes.old.items decl result }
    ensures new { HasNewName desk.old.cubes decl result }
    ensures no_file { IfReplied result SpeaksOfNoFile }
    ensures executed { IfReplied result
        (ExecutesAtDesk (Says (statement.CreateCube decl))
        desk.old session.old desk.new session.new) }
{
    match copy_name(&decl.name) {
        Ok(name) => create_named(desk, cubes, session, schema, decl, name),
        Err(_) => refuse_create(desk, session, &decl),
    }
}

/// Makes a cube that can be stored, if none has its name and there is a place for it.
fn create_storable(
    desk: &mut Desk,
    cubes: &mut Vec<Schema>,
    session: &mut Session,
    schema: Schema,
    decl: Decl,
) -> Answered
    requires at { IsAtDesk desk.old session.old }
    requires few { session.old.statements < MOST_STATEMENTS }
    requires idle { mode_of session.old.mode ≡ Idle }
    requires storable { IsStorable decl }
    requires checked { schema ≡ decl }
    ensures at { IsAtDesk desk.new session.new }
    ensures opening { opening_of desk.new ≡ opening_of desk.old }
    ensures number { session.new.statements ≡ session.old.statements + 1 }
    ensures cubes { desk.new.cubes ≡ cubes_after_create desk.old.cubes decl result }
    ensures moves { MovesOn None desk.old desk.new }
    ensures turns { OpenStays desk.old session.old session.new }
    ensures schemas { cubes.new.items ≡ cubes_after_create cubes.old.items decl result }
    ensures new { HasNewName desk.old.cubes decl result }
    ensures no_file { IfReplied result SpeaksOfNoFile }
    ensures executed { IfReplied result
        (ExecutesAtDesk (Says (statement.CreateCube decl))
        desk.old session.old desk.new session.new) }
{
    match cubes.reserve(1) {
        Ok(()) => create_with_room(desk, cubes, session, schema, decl),
        Err(_) => refuse_create(desk, session, &decl),
    }
}

/// Refuses a CREATE CUBE whose declaration cannot be stored.
fn refuse_fault(desk: &mut Desk, session: &mut Session, decl: &Decl, fault: SchemaFault) -> Answered
    requires at { IsAtDesk desk.old session.old }
    requires few { session.old.statements < MOST_STATEMENTS }
    requires idle { mode_of session.old.mode ≡ Idle }
    requires fault { schema_fault decl.now ≡ Some fault }
    ensures at { IsAtDesk desk.new session.new }
    ensures opening { opening_of desk.new ≡ opening_of desk.old }
    ensures number { session.new.statements ≡ session.old.statements + 1 }
    ensures cubes { desk.new.cubes ≡ desk.old.cubes }
    ensures moves { MovesOn None desk.old desk.new }
    ensures turns { OpenStays desk.old session.old session.new }
    ensures said { IfReplied result (λ said. said ≡ reply.Refused (cause.BadCube fault)) }
    ensures no_file { IfReplied result SpeaksOfNoFile }
    ensures executed { IfReplied result (ExecutesAtDesk (Says (statement.CreateCube decl.now))
        desk.old session.old desk.new session.new) }
{
    session.statements += 1;
    refuse(desk, session.statements, Refusal::BadCube { fault })
}

/// CREATE CUBE: makes the cube, if it can be stored, none has its name and there is a place for it. Its schema then
/// joins those of the others. Its dictionaries and rows are to be made beside this.
pub fn create_cube(
    alloc: Global,
    desk: &mut Desk,
    cubes: &mut Vec<Schema>,
    session: &mut Session,
    decl: Decl,
) -> Answered
    requires at { IsAtDesk desk.old session.old }
    requires few { session.old.statements < MOST_STATEMENTS }
    requires may { refused_by_mode (mode_of session.old.mode) (statement.CreateCube decl) ≡ None }
    ensures at { IsAtDesk desk.new session.new }
    ensures opening { opening_of desk.new ≡ opening_of desk.old }
    ensures number { session.new.statements ≡ session.old.statements + 1 }
    ensures cubes { desk.new.cubes ≡ cubes_after_create desk.old.cubes decl result }
    ensures moves { MovesOn None desk.old desk.new }
    ensures turns { OpenStays desk.old session.old session.new }
    ensures schemas { cubes.new.items ≡ cubes_after_create cubes.old.items decl result }
    ensures new { HasNewName desk.old.cubes decl result }
    ensures no_file { IfReplied result SpeaksOfNoFile }
    ensures executed { IfReplied result
        (ExecutesAtDesk (Says (statement.CreateCube decl))
        desk.old session.old desk.new session.new) }
{
    match check(alloc, &decl) {
        Ok(schema) => create_storable(desk, cubes, session, schema, decl),
        Err(CallError::Fault(fault)) => refuse_fault(desk, session, &decl, fault),
        Err(_) => refuse_create(desk, session, &decl),
    }
}
