//! What the desk answers to the calls for a holder.
ghost use Rattle.std.specs.Prelude.{◌≡◌, ℕ};
ghost use Rattle.std.specs.Option.{option_map_or};
ghost use Rattle.core_program.specs.AnswersOfCalls.{DeskAnswers};
ghost use Rattle.core_cells.specs.declared.desk.DeskAnswer.TheVariants as answer;
ghost use Rattle.core_cells.specs.declared.desk.DeskCall.TheVariants as call;
ghost use Rattle.session_watches.specs.KnownReaders.{opened_reader};

use core_cells::DeskAnswer;

// The epoch of the reader that was opened.
pub(crate) fn reader_in(said: DeskAnswer) -> Option<u64>
    requires { (number statement : ℕ) × DeskAnswers (call.OpenRead number statement) said }
    ensures { said ≡ option_map_or opened_reader result answer.NoMemory }
{
    match said {
        DeskAnswer::Opened(reader) => Some(reader.epoch),
        DeskAnswer::NoMemory => None,
        _ => unreachable!(),
    }
}

// The reader was closed.
pub(crate) fn expect_closed(said: DeskAnswer)
    requires { (number statement : ℕ) × DeskAnswers (call.CloseRead number statement) said }
    ensures { said ≡ answer.Done }
{
    match said {
        DeskAnswer::Done => {}
        _ => unreachable!(),
    }
}
