//! The law of what a session keeps of its watch through its other statements.

ghost use Rattle.std.specs.Prelude.{ℕ, List, [], None, Option};
ghost use mathlib.Core.List.{IsPrefix};
ghost use Rattle.core_program.specs.CoreFits.{CoreEntry};
ghost use Rattle.core_watches.specs.KeptWatches.{KeepsWatchOrNone};
ghost use Rattle.core_watches.specs.declared.kept.CoreWatch.{CoreWatch};
ghost use Rattle.cube_core.specs.declared.cell.CoreCell.{CoreCell};
ghost use Rattle.linked_shards.specs.declared.cell.CoreShard.{CoreShard};
ghost use Rattle.scripted_pasts.specs.Served.{LeavesItsWatch};

/// Before its first call a session has no watch. What it keeps of its watch, or that it has none, it keeps by
/// calls that leave the watch as it is.
pub fn watches_are_kept()
    ensures begins { (cells : List (CoreCell CoreShard)) (caller session : ℕ)
        → KeepsWatchOrNone cells caller session [] None }
    ensures stays { (cells : List (CoreCell CoreShard)) (caller session : ℕ)
        (own now : List CoreEntry) (kept : Option CoreWatch) → IsPrefix own now
        → LeavesItsWatch cells caller session own now
        → KeepsWatchOrNone cells caller session own kept
        → KeepsWatchOrNone cells caller session now kept }
{}
