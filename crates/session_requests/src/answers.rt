//! How a round ended, by the answer of its mail.
ghost use Rattle.std.specs.Prelude.{◌≡◌};
ghost use Rattle.cube_core.specs.declared.jobs.JobAnswer.TheVariants as reply;
ghost use Rattle.session_requests.specs.SessionRequests.{TellsRound, round_told};

use cube_core::{FlushAnswer, JobAnswer, ShardAnswer};

pub(crate) fn round_answer_in(said: JobAnswer) -> FlushAnswer
    requires { TellsRound said }
    ensures { result ≡ round_told said }
{
    match said {
        JobAnswer::Flush(said) => said,
        JobAnswer::Shard(said) => shard_answer_in(said.into_answer()),
    }
}

fn shard_answer_in(said: ShardAnswer) -> FlushAnswer
    requires { TellsRound (reply.Shard said) }
    ensures { result ≡ round_told (reply.Shard said) }
{
    match said {
        ShardAnswer::Done => FlushAnswer::Done,
        ShardAnswer::NoMemory => FlushAnswer::NoMemory,
        _ => unreachable!(),
    }
}
