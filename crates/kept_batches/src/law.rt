//! What follows from the definitions, for whoever reasons with them.

ghost use Rattle.kept_batches.specs.StoredRounds.{FilesHaveFittingRounds, StoredRoundsFit};

/// Rounds that were stored one after the other behind some cubes are the kept ones, fit the shape of
/// each kept cube at its place, have nothing of other cubes, and end by the kept epoch. So it is of
/// the rounds of a file that stands for what is kept.
#[tactic(auto, using(crate::proofs::Fitting::stored_rounds_fit, crate::proofs::Fitting::files_have_fitting_rounds))]
pub fn stored_rounds_fit_each_cube()
    ensures rounds { StoredRoundsFit }
    ensures file { FilesHaveFittingRounds }
{}
