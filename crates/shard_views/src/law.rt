//! What follows from the definitions, for whoever reasons with them.

ghost use Rattle.shard_views.specs.Views.{CallsGrowTheSame, ContentsAreWhole, CopiesTheSame, RollsBackTheSame, SeesApartTheSame, SnapshotsSeeTheSame};

/// What snapshots see of a brick by its vector of epochs, alone or apart from another, is what they see by its
/// runs and marks in the core's words.
#[tactic(auto, using(crate::proofs::Seen::sees_the_same, crate::proofs::Seen::sees_apart_the_same))]
pub fn snapshots_see_the_same()
    ensures seen { SnapshotsSeeTheSame }
    ensures apart { SeesApartTheSame }
{}

/// The entries of a brick are a vector over its rows, whatever calls were made.
#[tactic(auto, using(crate::proofs::Grown::contents_are_whole))]
pub fn contents_are_whole()
    ensures { ContentsAreWhole }
{}

/// An append and a deletion make of a brick what the core's words say, to whoever does not tell the epochs up
/// to that of the last purge apart.
#[tactic(auto, using(crate::proofs::Grown::calls_grow_the_same))]
pub fn calls_grow_the_same()
    ensures { CallsGrowTheSame }
{}

/// A rollback makes of a brick what the core's words say, whoever looks.
#[tactic(auto, using(crate::proofs::Rollbacks::rolls_back_the_same))]
pub fn rollbacks_are_the_same()
    ensures { RollsBackTheSame }
{}

/// What a round has of a brick is what the core's words say, whoever looks.
pub fn copies_are_the_same()
    ensures { CopiesTheSame }
{}
