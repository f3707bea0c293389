//! Laws of what a session knows that it holds.

ghost use Rattle.std.specs.Prelude.{ℕ, List, [], Some};
ghost use Rattle.cube_values.specs.declared.snapshot.Snapshot.{Snapshot};
ghost use Rattle.core_program.specs.CoreFits.{CoreEntry};
ghost use Rattle.cube_core.specs.declared.cell.CoreCell.{CoreCell};
ghost use Rattle.session_snapshots.specs.KnownHolds.{HoldsNothing, HoldsReader, HoldsReady, HoldsWriter};

use cube_core::LinkedShard;

/// Before its first call a session holds nothing.
pub fn sessions_begin_with_nothing<S: LinkedShard>()
    ensures { (cells : List (CoreCell S)) (caller session : ℕ)
        → HoldsNothing S.fits S.stands S.says cells caller session [] }
{}

/// A session that holds a reader or a writer is ready with it.
pub fn snapshot_holders_are_ready<S: LinkedShard>()
    ensures reader { (cells : List (CoreCell S)) (caller session : ℕ) (own : List CoreEntry)
        (s : Snapshot) → HoldsReader S.fits S.stands S.says cells caller session own s
        → HoldsReady S.fits S.stands S.says cells caller session own (Some s) }
    ensures writer { (cells : List (CoreCell S)) (caller session : ℕ) (own : List CoreEntry)
        (s : Snapshot) → HoldsWriter S.fits S.stands S.says cells caller session own s
        → HoldsReady S.fits S.stands S.says cells caller session own (Some s) }
{}
