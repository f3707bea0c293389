//! A shard that does not take a batch.

/// So many rows the shard has, and with those of the batch they would be too many.
#[derive(Clone, Copy, Debug)]
pub struct ShardFull {
    pub rows: u64,
}
