//! Whether all shards did what they were asked.
ghost use Rattle.std.specs.Prelude.{◌≡◌};
ghost use Rattle.std.specs.List.{list_any};
ghost use Rattle.session_groups.specs.AnswersInTurn.{is_flush_undone, is_said_undone, is_undone};

use cube_core::{FlushAnswer, JobAnswer, ShardAnswer};

// Some shard did not do it.
pub(crate) fn any_undone(answers: &[JobAnswer]) -> bool
    ensures { result ≡ list_any is_undone answers.now }
{
    answers.iter().any(|said| undone(said))
}

fn undone(said: &JobAnswer) -> bool
    ensures { result ≡ is_undone said.now }
{
    match said {
        JobAnswer::Shard(said) => said_undone(said.answer()),
        JobAnswer::Flush(said) => flush_undone(*said),
    }
}

fn said_undone(said: &ShardAnswer) -> bool
    ensures { result ≡ is_said_undone said.now }
{
    match said {
        ShardAnswer::Done => false,
        _ => true,
    }
}

fn flush_undone(said: FlushAnswer) -> bool
    ensures { result ≡ is_flush_undone said }
{
    match said {
        FlushAnswer::Done => false,
        _ => true,
    }
}
