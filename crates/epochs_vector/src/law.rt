//! What follows from the definitions, for whoever reasons with them.

ghost use Rattle.epochs_vector.specs.Without.{ChangesNoOtherRow};

/// Taking an epoch out of a vector changes for no snapshot that does not see the epoch which of the
/// other rows it sees.
#[tactic(auto, using(crate::proofs::SameRows::no_other_row))]
pub fn removal_changes_no_other_row()
    ensures { ChangesNoOtherRow }
{}
