//! What follows from the definitions, for whoever reasons with them.

ghost use Rattle.shard_events.specs.ViewedShards.{PurgesAreViewed, PurgesTheSame, ShardsAnswerAsViewed, ShardsAreViewed};

/// A purge makes of a brick what the core's words say, to whoever does not tell the epochs up to that of the
/// purge apart.
#[tactic(auto, using(crate::proofs::Purges::purges_the_same))]
pub fn purges_are_the_same()
    ensures { PurgesTheSame }
{}

/// A shard that is what the core takes it for still is, after an append, a deletion or a rollback of an epoch
/// above that of the last purge, and after a purge, also of bricks that are not there yet.
pub fn shards_are_viewed()
    ensures calls { ShardsAreViewed }
    ensures purged { PurgesAreViewed }
{}

/// What a shard answers of each brick is what the core's words say of its view, to snapshots that do not tell
/// the epochs up to that of the last purge apart and to rounds from there on.
#[tactic(auto, using(crate::proofs::ShardAnswers::shards_answer_as_viewed))]
pub fn shards_answer_as_viewed()
    ensures { ShardsAnswerAsViewed }
{}
