//! A shard that does not take what is kept.

/// A shard has so many of the kept rows, and with those of the next cube they would be too many.
#[derive(Clone, Copy, Debug, PartialEq, Eq)]
pub struct FullShard {
    pub shard: u32,
    pub rows: u64,
}
