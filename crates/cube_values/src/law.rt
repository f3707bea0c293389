//! What follows from the definitions, for whoever reasons with them.

ghost use Rattle.cube_values.specs.Running.{SeesWhatIsLeft};

/// What a snapshot sees is, row for row, what the transactions that it sees leave, run one after the
/// other in the order of their epochs, where a put appends its rows and a drop keeps the rows outside
/// its region.
pub fn visible_is_what_running_leaves()
    ensures { SeesWhatIsLeft }
{}
