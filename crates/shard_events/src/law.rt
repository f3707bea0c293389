//! What follows from the definitions, for whoever reasons with them.

ghost use Rattle.shard_events.specs.ShardsInRuns.{ShardsAreLinked};

/// A shard that is what a view shows of its bricks can take each call that fits. The call is then the job of
/// the core, its answer is one of that view, and the shard is what the job makes of the view.
#[tactic(auto, using(crate::proofs::LinkedCalls::shards_are_linked))]
pub fn shards_are_linked()
    ensures { ShardsAreLinked }
{}
