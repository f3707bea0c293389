//! The laws of statements that put rows or drop a region, and of what calls add to operations.

ghost use Rattle.std.specs.Prelude.{◌≡◌, ℕ, true, false, List, ◌∷◌, [], ◌++◌};
ghost use Rattle.std.specs.List.{AllByRecursion};
ghost use mathlib.Core.List.{IsPrefix};
ghost use Rattle.core_agreements.specs.PostsForOperations.{batches_posted};
ghost use Rattle.core_events.specs.Events.{ClientCall, Opening};
ghost use Rattle.core_events.specs.Jobs.{DropBox};
ghost use Rattle.core_events.specs.Serial.{DropRows, operations_with};
ghost use Rattle.core_states.specs.CorePasts.{CorePast, IsInTurn, IsOneMore, last_step};
ghost use Rattle.core_program.specs.CoreFits.{CoreEntry};
ghost use Rattle.core_serial.specs.OwnOperations.{operations_by_calls};
ghost use Rattle.core_states.specs.LeftBehind.{IsPlainCall};
ghost use Rattle.cube_core.specs.declared.cell.CoreCell.{CoreCell};
ghost use Rattle.cube_journal.specs.declared.journal_entry.JournalEntry.{JournalEntry};
ghost use Rattle.cube_journal.specs.declared.refusal.Refusal.{Refusal};
ghost use Rattle.cube_journal.specs.declared.reply.Reply.TheVariants.{Refused};
ghost use Rattle.cube_language.specs.declared.statement.Statement.{Statement};
ghost use Rattle.cube_run.specs.RunRecords.{RunRecord, Says, SaysNone, Sentence};
ghost use Rattle.cube_run.specs.Merge.{IsOutcome};
ghost use Rattle.cube_run.specs.RunText.{IsReply};
ghost use Rattle.cube_run.specs.SessionStates.{SessionState, session_after};
ghost use Rattle.cube_run.specs.SessionSteps.{SessionStep};
ghost use Rattle.cube_run.specs.StatementEntries.{RefusedWith, is_change};
ghost use Rattle.cube_values.specs.declared.row.CodedRow.{CodedRow};
ghost use Rattle.cube_values.specs.declared.span.Span.{Span};
ghost use Rattle.posted_pasts.specs.DoneChanges.{AsksCubesApart, HasDroppedRegion, HasNoOperation, HasPutRows};
ghost use Rattle.posted_pasts.specs.PostsAdded.{
  AddsAtEpoch,
  AddsNoOperation,
  AddsOperations,
  LearnsThat,
  PostsAtEpoch,
  PostsNoChange,
  PostsRowsAt,
  batches_among,
};
ghost use Rattle.posted_pasts.specs.PostsBehind.{InEachRun, PostsStandBehind};

use core_states::Besides;
use cube_core::LinkedShard;

/// A statement has done nothing to rows where it says no change of them, where it ended refused, and
/// where a refusal is its reply.
pub fn statements_do_nothing_to_rows()
    ensures no_statement { (run : RunRecord) (step : SessionStep) (at : ℕ)
        → step.sentence ≡ SaysNone at → HasNoOperation run step }
    ensures no_change { (run : RunRecord) (step : SessionStep) (s : Statement)
        → step.sentence ≡ Says s → is_change s ≡ false → HasNoOperation run step }
    ensures ended { (run : RunRecord) (step : SessionStep) (r : Refusal)
        → IsOutcome run step (RefusedWith r) → HasNoOperation run step }
    ensures refused { (run : RunRecord) (step : SessionStep) (r : Refusal)
        → IsReply run step (Refused r) → HasNoOperation run step }
{}

/// Calls that post neither rows nor a deletion add no operation, and so plain calls add none. Those
/// that post changes at one epoch alone add none at another, and those that post only rows of a cube
/// add their batches. A deletion that a group of each shard asks for is one operation.
pub fn calls_add_operations()
    ensures none { (o : Opening) (session : ℕ) (added past : List ClientCall)
        → AllByRecursion PostsNoChange added → AddsNoOperation session o past (added ++ past) }
    ensures plain { (o : Opening) (session : ℕ) (added past : List ClientCall)
        → AllByRecursion IsPlainCall added → AddsNoOperation session o past (added ++ past) }
    ensures epoch { (o : Opening) (session epoch : ℕ) (added past : List ClientCall)
        → AllByRecursion (PostsAtEpoch epoch) added
        → AddsAtEpoch epoch session o past (added ++ past) }
    ensures rows { (o : Opening) (session cube epoch : ℕ) (added past : List ClientCall)
        → AllByRecursion (PostsRowsAt cube epoch) added
        → AddsOperations cube epoch (batches_posted (batches_among added)) session o past
        (added ++ past) }
    ensures once { (o : Opening) (session cube epoch : ℕ) (box : Span)
        (before after : List ClientCall)
        → ((c e : ℕ) → operations_by_calls o session c after e
        ≡ operations_with c e true (DropBox cube epoch box)
        (operations_by_calls o session c before e))
        → AddsOperations cube epoch (DropRows box ∷ []) session o before after }
{}

/// Posts stand for what is behind with a statement more that put rows of a cube, where the calls of
/// the session added batches that stand for them, and no other operation; and with one that dropped a
/// region, where they added its box.
pub fn changes_are_posted<S: LinkedShard, B: Besides>()
    ensures put { (asked : B) (cells : List (CoreCell S)) (caller session cube epoch : ℕ)
        (batches : List (List CodedRow)) (before after : CorePast) (own now : List CoreEntry)
        (state : SessionState) (sentence : Sentence) (added : List JournalEntry)
        → IsInTurn before → IsOneMore before after sentence added → IsPrefix own now
        → LearnsThat S.fits S.stands S.says (AddsOperations cube epoch (batches_posted batches))
        cells caller session own now
        → AsksCubesApart (B.claim asked)
        → InEachRun S.fits S.stands S.says cells caller session (B.claim asked) after
        (λ run. HasPutRows run (last_step session after state sentence added) cube epoch batches)
        → PostsStandBehind S.fits S.stands S.says cells caller session (B.claim asked) before own
        state
        → PostsStandBehind S.fits S.stands S.says cells caller session (B.claim asked) after now
        (session_after state sentence added) }
    ensures dropped { (asked : B) (cells : List (CoreCell S)) (caller session cube epoch : ℕ) (box : Span)
        (before after : CorePast) (own now : List CoreEntry) (state : SessionState)
        (sentence : Sentence) (added : List JournalEntry)
        → IsInTurn before → IsOneMore before after sentence added → IsPrefix own now
        → LearnsThat S.fits S.stands S.says (AddsOperations cube epoch (DropRows box ∷ []))
        cells caller session own now
        → AsksCubesApart (B.claim asked)
        → InEachRun S.fits S.stands S.says cells caller session (B.claim asked) after
        (λ run. HasDroppedRegion run (last_step session after state sentence added) cube epoch box)
        → PostsStandBehind S.fits S.stands S.says cells caller session (B.claim asked) before own
        state
        → PostsStandBehind S.fits S.stands S.says cells caller session (B.claim asked) after now
        (session_after state sentence added) }
{}
