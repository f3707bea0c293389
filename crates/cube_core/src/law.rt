//! The law of entries, for all shards that are linked to the core.

ghost use Rattle.std.specs.Prelude.{ℕ, ◌≤◌, ◌<◌, List};
ghost use Rattle.cube_core.specs.Links.{HangsOn, IsCallLinked, IsToldByCaller, MakesCalls, MakesMoves};
ghost use Rattle.cube_core.specs.BoardCells.{FitsBoardEntry, IsClientCaller, IsEntryEvent, StandsInCell, client_of, server_of, flusher_part};
ghost use Rattle.core_events.specs.Cells.{worker_of};
ghost use Rattle.core_events.specs.Clients.{calls_of};
ghost use Rattle.core_events.specs.Events.{Opening, CoreEvent, flush_mail};
ghost use Rattle.core_events.specs.Runs.{IsCoreRun};
ghost use Rattle.cube_core.specs.CoreSteps.{CanTake, CoreStep};
ghost use Rattle.cube_core.specs.declared.cell.CoreAnswer.{CoreAnswer};
ghost use Rattle.cube_core.specs.declared.cell.CoreCall.{CoreCall};
ghost use Rattle.cube_core.specs.declared.cell.CoreCell.{CoreCell};
ghost use Rattle.turn_board.specs.declared.history.Event.{Event};

use crate::linked::LinkedShard;

/// A cell can take a call that fits. An entry is one event, with which the run goes on; its cell is
/// then what the events have made of it, and so are the other cells.
pub fn entries_are_events<S: LinkedShard>()
    ensures can { (o : Opening) (es : List CoreEvent) (caller k : ℕ) (call : CoreCall)
        (x : CoreCell S) → IsCoreRun o es → FitsBoardEntry S.fits S.stands S.says o es caller k call
        → StandsInCell S.fits S.stands S.says o k x es → CanTake S.can x call }
    ensures steps { (o : Opening) (es : List CoreEvent) (e : Event CoreCall CoreAnswer)
        (x y : CoreCell S) → IsCoreRun o es
        → FitsBoardEntry S.fits S.stands S.says o es e.caller e.cell e.call
        → StandsInCell S.fits S.stands S.says o e.cell x es → CoreStep S.step x e.call e.answer y
        → IsCallLinked (IsEntryEvent S.fits S.stands S.says o)
        (StandsInCell S.fits S.stands S.says o) o es e y }
{}

/// The calls of a client are made by the caller that acts as it, and the moves of a worker by the
/// caller that is it; and which event an entry is hangs on no more than what these tell. Rounds are the flusher's.
pub fn callers_make_their_own<S: LinkedShard>()
    ensures calls { (o : Opening) (caller : ℕ) → IsClientCaller o caller
        → MakesCalls (IsEntryEvent S.fits S.stands S.says o) caller (client_of o caller) }
    ensures moves { (o : Opening) (number : ℕ)
        → MakesMoves (IsEntryEvent S.fits S.stands S.says o) (server_of o number) number }
    ensures clients { (o : Opening) (caller : ℕ) → caller ≤ o.sessions
        → HangsOn (IsEntryEvent S.fits S.stands S.says o) caller (calls_of caller) }
    ensures workers { (o : Opening) (number : ℕ) → number < o.shards → HangsOn
        (IsEntryEvent S.fits S.stands S.says o) (server_of o number) (worker_of number) }
    ensures flusher { (o : Opening) → HangsOn (IsEntryEvent S.fits S.stands S.says o)
        (server_of o (flush_mail o)) (flusher_part o) }
    ensures told { (o : Opening) → IsToldByCaller (IsEntryEvent S.fits S.stands S.says o)
        (server_of o (flush_mail o)) (flusher_part o) }
{}
