//! What follows from the definitions, for whoever reasons with them.

ghost use Rattle.purge_plan.specs.Sight.{ChangesNothingSeen, KeepsLaterEpochs, LeavesNoOldMark};

/// A purge changes for no snapshot that is admissible for its epoch which rows it sees.
pub fn purge_changes_nothing_seen()
    ensures { ChangesNothingSeen }
{}

/// A purge leaves the rows that are kept of the epochs that they are of, but for those at or below its own,
/// which count as one.
pub fn purge_keeps_later_epochs()
    ensures { KeepsLaterEpochs }
{}

/// A purge leaves no mark at or below its epoch.
pub fn purge_leaves_no_old_mark()
    ensures { LeavesNoOldMark }
{}
