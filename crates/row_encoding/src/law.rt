//! What follows from the definitions, for whoever begins and ends with dictionaries in one memory.

ghost use Rattle.row_encoding.specs.DictsAsEncoder.{NoneSuit, MayEndAsTheyAre};

/// Dictionaries that are not made suit each cube.
#[tactic(auto, using(crate::proofs::CubeEnds::none_suit))]
pub fn dictionaries_that_are_not_made_suit()
    ensures { NoneSuit }
{}

/// What is said of the names in the end holds of the names that the last dictionaries have.
pub fn dictionaries_may_end_as_they_are()
    ensures { MayEndAsTheyAre }
{}
