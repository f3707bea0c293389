//! The law of main before its first call.

ghost use Rattle.std.specs.Prelude.{List, []};
ghost use Rattle.closing_calls.specs.ClosingCalls.{MainIsReady};
ghost use Rattle.cube_core.specs.declared.cell.CoreCell.{CoreCell};
ghost use Rattle.linked_shards.specs.declared.cell.CoreShard.{CoreShard};

/// Before its first call main is ready.
pub fn main_begins_ready()
    ensures { (cells : List (CoreCell CoreShard)) → MainIsReady cells [] }
{}
