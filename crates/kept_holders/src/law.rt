//! The law of what a session's holders keep.

ghost use Rattle.std.specs.Prelude.{ℕ, List};
ghost use mathlib.Core.List.{IsPrefix};
ghost use Rattle.core_cubes.specs.StatementCalls.{IsCallFor};
ghost use Rattle.core_program.specs.CoreFits.{CoreEntry};
ghost use Rattle.core_states.specs.LeftBehind.{GoOnByCalls, IsPlainCall};
ghost use Rattle.cube_core.specs.declared.cell.CoreCell.{CoreCell};
ghost use Rattle.cube_language.specs.declared.statement.Statement.{Statement};
ghost use Rattle.cube_core.specs.HoldStates.{IsUnderOwnNumber};
ghost use Rattle.session_watches.specs.KnownReaders.{HoldersKeep};

use cube_core::LinkedShard;

/// Plain calls, and the calls of a statement that changes no rows, are under their session's own number.
/// Calls that are so, one after the other, leave its holders what they hold.
pub fn other_calls_leave_the_holders<S: LinkedShard>()
    ensures plain { (cells : List (CoreCell S)) (caller session : ℕ) (own now : List CoreEntry)
        → GoOnByCalls S.fits S.stands S.says cells caller session IsPlainCall own now
        → GoOnByCalls S.fits S.stands S.says cells caller session (IsUnderOwnNumber session) own
        now }
    ensures statement { (cells : List (CoreCell S)) (caller session number : ℕ) (s : Statement)
        (own now : List CoreEntry)
        → GoOnByCalls S.fits S.stands S.says cells caller session (IsCallFor number s) own now
        → GoOnByCalls S.fits S.stands S.says cells caller session (IsUnderOwnNumber session) own
        now }
    ensures more { (cells : List (CoreCell S)) (caller session : ℕ) (own mid now : List CoreEntry)
        → IsPrefix mid now
        → GoOnByCalls S.fits S.stands S.says cells caller session (IsUnderOwnNumber session) own mid
        → GoOnByCalls S.fits S.stands S.says cells caller session (IsUnderOwnNumber session) mid now
        → GoOnByCalls S.fits S.stands S.says cells caller session (IsUnderOwnNumber session) own
        now }
    ensures holders { (cells : List (CoreCell S)) (caller session : ℕ) (own now : List CoreEntry)
        → IsPrefix own now
        → GoOnByCalls S.fits S.stands S.says cells caller session (IsUnderOwnNumber session) own now
        → HoldersKeep S.fits S.stands S.says session cells caller own cells caller now }
{}
