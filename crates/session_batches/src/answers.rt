//! What shards answer when rows are put.

ghost use Rattle.std.specs.Prelude.{◌≡◌};
ghost use Rattle.session_batches.specs.Refusals.{first_refusal, put_by_answer, put_by_flush, put_by_shard};

use cube_core::{FlushAnswer, JobAnswer, ShardAnswer};

/// What came of rows that were put.
#[derive(Clone, Copy, Debug, PartialEq, Eq)]
pub enum PutEnd {
    /// Each shard has its rows.
    Done,
    /// A shard has so many rows, and its own are too many besides.
    ShardFull { shard: u32, rows: u64 },
    /// A shard was out of memory.
    OutOfMemory { shard: u32 },
}

// What an answer of a shard tells.
fn put_by_shard(shard: u32, said: &ShardAnswer) -> PutEnd
    ensures { result ≡ put_by_shard shard said.now }
{
    match said {
        ShardAnswer::ShardFull { rows } => PutEnd::ShardFull { shard, rows: *rows },
        ShardAnswer::NoMemory => PutEnd::OutOfMemory { shard },
        _ => PutEnd::Done,
    }
}

// What an answer of the flusher would tell.
fn put_by_flush(shard: u32, said: FlushAnswer) -> PutEnd
    ensures { result ≡ put_by_flush shard said }
{
    match said {
        FlushAnswer::Done => PutEnd::Done,
        _ => PutEnd::OutOfMemory { shard },
    }
}

// What the answer to an append tells.
fn put_by_answer(shard: u32, said: &JobAnswer) -> PutEnd
    ensures { result ≡ put_by_answer shard said.now }
{
    match said {
        JobAnswer::Shard(said) => put_by_shard(shard, said.answer()),
        JobAnswer::Flush(said) => put_by_flush(shard, *said),
    }
}

/// The first refusal of those of some shards, in their order.
pub fn first_refusal(shards: &[u32], answers: &[JobAnswer]) -> PutEnd
    ensures { result ≡ first_refusal put_by_answer shards.now answers.now }
{
    let mut shards_left = shards;
    let mut answers_left = answers;
    'shards: while let [shard, shards_rest @ ..] = shards_left {
        let [said, answers_rest @ ..] = answers_left else {
            return PutEnd::Done;
        };
        match put_by_answer(*shard, said) {
            PutEnd::Done => {}
            refused => return refused,
        }
        shards_left = shards_rest;
        answers_left = answers_rest;
    }
    PutEnd::Done
}
