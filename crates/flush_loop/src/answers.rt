//! What the desk answers to the calls of a round, and what the flusher replies once it has ended.
ghost use Rattle.std.specs.Prelude.{◌≡◌, ℕ};
ghost use Rattle.std.specs.Option.{option_map_or};
ghost use Rattle.aosi_desk.specs.declared.answer.RoundEnd.{RoundEnd};
ghost use Rattle.core_program.specs.AnswersOfCalls.{CoreAnswers, DeskAnswers};
ghost use Rattle.core_cells.specs.declared.desk.DeskAnswer.TheVariants as answer;
ghost use Rattle.core_cells.specs.declared.desk.DeskCall.TheVariants as call;
ghost use Rattle.cube_core.specs.declared.cell.CoreAnswer.TheVariants as cell_answer;
ghost use Rattle.cube_core.specs.declared.cell.CoreCall.TheVariants as cell_call;
ghost use Rattle.flush_loop.specs.RoundResults.{flush_answer, loses_store};

use crate::round_result::RoundResult;
use aosi_desk::RoundAnswer;
use core_cells::DeskAnswer;
use cube_core::{CoreAnswer, FlushAnswer};
use cube_journal::LostCause;

// What became of a round that was asked for. None: the desk was out of memory.
fn round_in_desk(said: DeskAnswer) -> Option<RoundAnswer>
    requires { DeskAnswers call.RoundOpen said }
    ensures { said ≡ option_map_or answer.Round result answer.NoMemory }
{
    match said {
        DeskAnswer::Round(asked) => Some(asked),
        DeskAnswer::NoMemory => None,
        _ => unreachable!(),
    }
}

// The same, as the answer of a cell.
pub(crate) fn round_in(came: CoreAnswer) -> Option<RoundAnswer>
    requires { CoreAnswers (cell_call.Desk call.RoundOpen) came }
    ensures { came ≡ cell_answer.Desk (option_map_or answer.Round result answer.NoMemory) }
{
    match came {
        CoreAnswer::Desk(said) => round_in_desk(said),
        _ => unreachable!(),
    }
}

// A round is closed.
pub(crate) fn expect_closed(said: DeskAnswer)
    requires { (epoch : ℕ) × (end : RoundEnd) × DeskAnswers (call.RoundClose epoch end) said }
    ensures { said ≡ answer.Done }
{
    match said {
        DeskAnswer::Done => {}
        _ => unreachable!(),
    }
}

// What is replied to a FLUSH once its round has ended so.
pub(crate) fn answer_to_flush(ended: RoundResult) -> FlushAnswer
    ensures { result ≡ flush_answer ended }
{
    match ended {
        RoundResult::Safe(_) | RoundResult::Idle(_) => FlushAnswer::Done,
        RoundResult::Lost(LostCause::Disk) => FlushAnswer::StoreFailed,
        RoundResult::Lost(LostCause::Memory) | RoundResult::NoMemory => FlushAnswer::NoMemory,
    }
}

// A round that ended so has lost the store.
pub(crate) fn has_lost_store(ended: RoundResult) -> bool
    ensures { result ≡ loses_store ended }
{
    match ended {
        RoundResult::Lost(LostCause::Disk) => true,
        RoundResult::Lost(LostCause::Memory) => false,
        RoundResult::Safe(_) | RoundResult::Idle(_) | RoundResult::NoMemory => false,
    }
}
