//! What the desk answers, by the kind of the call.
ghost use Rattle.std.specs.Prelude.{◌≡◌, ℕ, List, IfSome};
ghost use Rattle.std.specs.Option.{option_map_or};
ghost use Rattle.cube_journal.specs.declared.note.Note.{Note};
ghost use Rattle.cube_language.specs.declared.decl.Decl.{Decl};
ghost use Rattle.core_program.specs.AnswersOfCalls.{DeskAnswers};
ghost use Rattle.core_cells.specs.declared.desk.DeskAnswer.TheVariants as answer;
ghost use Rattle.core_cells.specs.declared.desk.DeskCall.{DeskCall};
ghost use Rattle.core_cells.specs.declared.desk.DeskCall.TheVariants as call;
ghost use Rattle.core_events.specs.Clients.{reader_up_to, writer_at};
ghost use Rattle.session_snapshots.specs.SessionCalls.{IsEndingCall};

use aosi_desk::{CubeAnswer, CubeFound};
use core_cells::DeskAnswer;
use cube_journal::Counters;
use cube_values::Snapshot;

// The writer that was opened.
#[inline(always)]
pub(crate) fn writer_in(said: DeskAnswer) -> Option<Snapshot>
    requires { (session statement : ℕ) × DeskAnswers (call.OpenWrite session statement) said }
    ensures said { said ≡ option_map_or answer.Opened result answer.NoMemory }
    ensures writer { IfSome result (λ s. s ≡ writer_at s.epoch s.deps) }
{
    match said {
        DeskAnswer::Opened(writer) => Some(writer),
        DeskAnswer::NoMemory => None,
        _ => unreachable!(),
    }
}

// The reader that was opened.
#[inline(always)]
pub(crate) fn reader_in(said: DeskAnswer) -> Option<Snapshot>
    requires { (number statement : ℕ) × DeskAnswers (call.OpenRead number statement) said }
    ensures said { said ≡ option_map_or answer.Opened result answer.NoMemory }
    ensures reader { IfSome result (λ s. s ≡ reader_up_to s.epoch) }
{
    match said {
        DeskAnswer::Opened(reader) => Some(reader),
        DeskAnswer::NoMemory => None,
        _ => unreachable!(),
    }
}

// A snapshot was ended.
#[inline(always)]
pub(crate) fn expect_done(said: DeskAnswer)
    requires { (c : DeskCall) × IsEndingCall c × DeskAnswers c said }
    ensures { said ≡ answer.Done }
{
    match said {
        DeskAnswer::Done => {}
        _ => unreachable!(),
    }
}

// What was found of a cube.
#[inline(always)]
pub(crate) fn found_in(said: DeskAnswer) -> Option<CubeFound>
    requires { (session statement : ℕ) × (name : List ℕ)
        × DeskAnswers (call.FindCube session statement name) said }
    ensures { said ≡ option_map_or answer.Found result answer.NoMemory }
{
    match said {
        DeskAnswer::Found(found) => Some(found),
        DeskAnswer::NoMemory => None,
        _ => unreachable!(),
    }
}

// What became of a cube that was to be made.
#[inline(always)]
pub(crate) fn created_in(said: DeskAnswer) -> Option<CubeAnswer>
    requires { (session statement : ℕ) × (decl : Decl)
        × DeskAnswers (call.CreateCube session statement decl) said }
    ensures { said ≡ option_map_or answer.Created result answer.NoMemory }
{
    match said {
        DeskAnswer::Created(made) => Some(made),
        DeskAnswer::NoMemory => None,
        _ => unreachable!(),
    }
}

// The counters with which a note was taken.
#[inline(always)]
pub(crate) fn noted_in(said: DeskAnswer) -> Option<Counters>
    requires { (note : Note) × DeskAnswers (call.Note note) said }
    ensures { said ≡ option_map_or answer.Counted result answer.NoMemory }
{
    match said {
        DeskAnswer::Counted(counters) => Some(counters),
        DeskAnswer::NoMemory => None,
        _ => unreachable!(),
    }
}

// The counters.
#[inline(always)]
pub(crate) fn counters_in(said: DeskAnswer) -> Counters
    requires { DeskAnswers call.Counters said }
    ensures { said ≡ answer.Counted result }
{
    match said {
        DeskAnswer::Counted(counters) => counters,
        _ => unreachable!(),
    }
}
