//! What a session has behind it.

ghost use Rattle.cube_run.specs.RunRecords.{RunRecord};

/// What a session has behind it, and the runs that may go on from there: those that began so, in which the
/// session has done what it did, and nothing that was then in the journal or in a dictionary is another.
pub trait Behind {
    ghost goes_on: { Self → RunRecord → Type 0 };
}
