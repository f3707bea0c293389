//! Which bricks a batch is of.

ghost use Rattle.std.specs.Prelude.{◌≡◌, ◌%◌, ◌==◌, ◌≤◌};

/// The bricks of the cube at a place that are in one shard: those whose number leaves `shard` on
/// division by the number of shards.
#[derive(Clone, Copy, Debug)]
pub struct BrickSet {
    pub place: usize,
    pub shards: u64,
    pub shard: u64,
}

impl BrickSet {
    /// Whether it has the brick of a number.
    pub fn has(&self, number: u64) -> bool
        requires { 1 ≤ self.now.shards }
        ensures { result ≡ (number % self.now.shards == self.now.shard) }
    {
        number % self.shards == self.shard
    }
}
