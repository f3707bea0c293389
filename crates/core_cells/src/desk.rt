//! The calls on the desk.

ghost use Rattle.core_cells.specs.DeskCalls.{CanCallDesk, DeskStep};

use aosi_desk::{CubeAnswer, CubeFound, Decls, Desk, RoundAnswer, RoundEnd};
use cube_journal::{AbortCause, Counters, Note};
use cube_language::Decl;
use cube_values::{Snapshot, Text};
use std::alloc::{AllocError, Global};

/// A call on the desk.
#[derive(Debug, Drop)]
pub enum DeskCall {
    /// Opens the writer of a session.
    OpenWrite {
        session: u32,
        statement: u32,
    },
    /// Opens the reader of a session or a holder number.
    OpenRead {
        session: u32,
        statement: u32,
    },
    /// Ends the writer of a session; what it wrote stays.
    Commit {
        session: u32,
        statement: u32,
    },
    /// Ends the writer of a session; nothing that it wrote stays.
    AbortEnd {
        session: u32,
        statement: u32,
        cause: AbortCause,
    },
    /// Ends the reader of a session or a holder number.
    CloseRead {
        session: u32,
        statement: u32,
    },
    /// Leaves a note.
    Note {
        note: Note,
    },
    /// Makes a cube.
    CreateCube {
        session: u32,
        statement: u32,
        decl: Decl,
    },
    /// Looks for the cube of a name.
    FindCube {
        session: u32,
        statement: u32,
        name: Text,
    },
    /// The cubes from a place on.
    CubesFrom {
        place: u32,
    },
    /// Asks for a round.
    RoundOpen,
    /// Closes the open round.
    RoundClose {
        epoch: u64,
        end: RoundEnd,
    },
    /// The counters.
    Counters,
    /// Whether a round was lost to the disk.
    StoreFailed,
}

/// What the desk answers.
#[derive(Debug, Drop)]
pub enum DeskAnswer {
    Opened(Snapshot),
    Done,
    Counted(Counters),
    Created(CubeAnswer),
    Found(CubeFound),
    Cubes(Decls),
    Round(RoundAnswer),
    Failed(bool),
    /// Memory ran out; nothing changed.
    NoMemory,
}

/// Makes a call on the desk.
#[inline(always)]
pub fn call_desk(alloc: Global, desk: &mut Desk, call: DeskCall) -> DeskAnswer
    requires { CanCallDesk desk.old call }
    ensures { DeskStep desk.old call result desk.new }
{
    match call {
        DeskCall::OpenWrite { session, statement } => match desk.open_write(session, statement) {
            Ok(snapshot) => DeskAnswer::Opened(snapshot),
            Err(AllocError) => DeskAnswer::NoMemory,
        },
        DeskCall::OpenRead { session, statement } => match desk.open_read(session, statement) {
            Ok(snapshot) => DeskAnswer::Opened(snapshot),
            Err(AllocError) => DeskAnswer::NoMemory,
        },
        DeskCall::Commit { session, statement } => {
            desk.commit(session, statement);
            DeskAnswer::Done
        }
        DeskCall::AbortEnd {
            session,
            statement,
            cause,
        } => {
            desk.abort_end(session, statement, cause);
            DeskAnswer::Done
        }
        DeskCall::CloseRead { session, statement } => {
            desk.close_read(session, statement);
            DeskAnswer::Done
        }
        DeskCall::Note { note } => match desk.note(&note) {
            Ok(counters) => DeskAnswer::Counted(counters),
            Err(AllocError) => DeskAnswer::NoMemory,
        },
        DeskCall::CreateCube {
            session,
            statement,
            decl,
        } => match desk.create_cube(session, statement, decl) {
            Ok(answer) => DeskAnswer::Created(answer),
            Err(AllocError) => DeskAnswer::NoMemory,
        },
        DeskCall::FindCube {
            session,
            statement,
            name,
        } => match desk.find_cube(session, statement, name.as_str()) {
            Ok(found) => DeskAnswer::Found(found),
            Err(AllocError) => DeskAnswer::NoMemory,
        },
        DeskCall::CubesFrom { place } => match desk.cubes_from(alloc, place) {
            Ok(cubes) => DeskAnswer::Cubes(cubes),
            Err(AllocError) => DeskAnswer::NoMemory,
        },
        DeskCall::RoundOpen => match desk.round_open() {
            Ok(answer) => DeskAnswer::Round(answer),
            Err(AllocError) => DeskAnswer::NoMemory,
        },
        DeskCall::RoundClose { epoch, end } => {
            desk.round_close(epoch, end);
            DeskAnswer::Done
        }
        DeskCall::Counters => DeskAnswer::Counted(desk.counters()),
        DeskCall::StoreFailed => DeskAnswer::Failed(desk.store_failed()),
    }
}
