//! Rows that were posted to their shards and whose answers are not fetched.

ghost use Rattle.std.specs.Prelude.{◌≡◌, ℕ, []};
ghost use Rattle.session_batches.specs.RowsOut.{MayBeFetched};

use cube_core::JobAnswer;
use std::alloc::Global;

/// Rows that are out: the shards that were asked to append them, and room for their answers.
#[derive(Drop)]
pub struct RowsOut {
    pub shards: Vec<u32>,
    pub answers: Vec<JobAnswer>,
}

impl RowsOut {
    /// No rows, at no shard.
    pub fn none(alloc: Global) -> Self
        ensures shards { result.shards.items ≡ [] }
        ensures fetched { (shards : ℕ) → MayBeFetched shards result }
    {
        RowsOut {
            shards: Vec::new(alloc),
            answers: Vec::new(alloc),
        }
    }
}
