//! The laws of the beginning, and of plain calls.

ghost use Rattle.std.specs.Prelude.{◌≡◌, ℕ, List, [], ◌++◌};
ghost use Rattle.std.specs.List.{AllByRecursion};
ghost use Rattle.core_events.specs.Events.{ClientCall, Opening};
ghost use Rattle.core_states.specs.CorePasts.{nothing_behind};
ghost use Rattle.core_records.specs.ScriptedCalls.{SpeaksByScript};
ghost use Rattle.core_serial.specs.OwnOperations.{operations_by_calls};
ghost use Rattle.core_states.specs.LeftBehind.{IsPlainCall};
ghost use Rattle.core_states.specs.StandingInCore.{HoldsForMode, StandsInCore};
ghost use Rattle.cube_core.specs.declared.cell.CoreCell.{CoreCell};
ghost use Rattle.cube_run.specs.RunRecords.{Sentence};
ghost use Rattle.cube_run.specs.SessionStates.{Idle};

use crate::desk_calls_leave_entries;
use cube_core::LinkedShard;
use session_snapshots::sessions_begin_with_nothing;

/// Before its first statement nothing is behind a session, and it holds nothing.
pub fn sessions_stand_at_their_beginning<S: LinkedShard>()
    ensures stands { (cells : List (CoreCell S)) (caller session : ℕ)
        → StandsInCore S.fits S.stands S.says cells caller session [] nothing_behind }
    ensures holds { (cells : List (CoreCell S)) (caller session : ℕ)
        → HoldsForMode S.fits S.stands S.says cells caller session [] Idle }
{
    desk_calls_leave_entries::<S>();
    sessions_begin_with_nothing::<S>();
}

/// Plain calls of a session add no operation to its transactions, and whatever its script is, they
/// speak by it.
pub fn plain_calls_change_no_rows()
    ensures operations { (o : Opening) (session cube epoch : ℕ) (added past : List ClientCall)
        → AllByRecursion IsPlainCall added
        → operations_by_calls o session cube (added ++ past) epoch
        ≡ operations_by_calls o session cube past epoch }
    ensures speaks { (script : List Sentence) (added past : List ClientCall)
        → AllByRecursion IsPlainCall added → AllByRecursion (SpeaksByScript script) past
        → AllByRecursion (SpeaksByScript script) (added ++ past) }
{}
