//! The laws of the beginning, and of statements that do nothing to rows.

ghost use Rattle.std.specs.Prelude.{◌≡◌, ℕ, true, List, []};
ghost use Rattle.std.specs.List.{list_any};
ghost use mathlib.Core.List.{IsPrefix};
ghost use Rattle.core_states.specs.CorePasts.{CorePast, IsInTurn, IsOneMore, last_step, nothing_behind};
ghost use Rattle.core_program.specs.CoreFits.{CoreEntry};
ghost use Rattle.core_states.specs.LeftBehind.{GoOnByCalls, IsPlainCall};
ghost use Rattle.cube_core.specs.declared.cell.CoreCell.{CoreCell};
ghost use Rattle.cube_journal.specs.declared.journal_entry.JournalEntry.{JournalEntry};
ghost use Rattle.cube_run.specs.RunRecords.{Sentence};
ghost use Rattle.cube_run.specs.SessionStates.{SessionState, fresh_session, session_after};
ghost use Rattle.posted_pasts.specs.DoneChanges.{HasNoOperation};
ghost use Rattle.posted_pasts.specs.PostsAdded.{AddsAtEpoch, AddsNoOperation, LearnsThat};
ghost use Rattle.posted_pasts.specs.PostsBehind.{InEachRun, PostsStandBehind, is_abort_of};

use core_states::Besides;
use cube_core::LinkedShard;

/// Before its first call a session has posted nothing, and nothing is behind it.
pub fn posts_stand_at_the_beginning<S: LinkedShard, B: Besides>()
    ensures { (asked : B) (cells : List (CoreCell S)) (caller session : ℕ)
        → PostsStandBehind S.fits S.stands S.says cells caller session (B.claim asked) nothing_behind []
        fresh_session }
{}

/// Posts stand for what is behind also after calls that add no operation, as plain calls do; and with a
/// statement more behind that does nothing to rows, also where it failed and its epoch is aborted.
pub fn posts_stay<S: LinkedShard, B: Besides>()
    ensures calls { (asked : B) (cells : List (CoreCell S)) (caller session : ℕ) (past : CorePast)
        (own now : List CoreEntry) (state : SessionState) → IsPrefix own now
        → LearnsThat S.fits S.stands S.says AddsNoOperation cells caller session own now
        → PostsStandBehind S.fits S.stands S.says cells caller session (B.claim asked) past own
        state
        → PostsStandBehind S.fits S.stands S.says cells caller session (B.claim asked) past now
        state }
    ensures plain { (asked : B) (cells : List (CoreCell S)) (caller session : ℕ) (past : CorePast)
        (own now : List CoreEntry) (state : SessionState) → IsPrefix own now
        → GoOnByCalls S.fits S.stands S.says cells caller session IsPlainCall own now
        → PostsStandBehind S.fits S.stands S.says cells caller session (B.claim asked) past own
        state
        → PostsStandBehind S.fits S.stands S.says cells caller session (B.claim asked) past now
        state }
    ensures statement { (asked : B) (cells : List (CoreCell S)) (caller session : ℕ) (before after : CorePast)
        (own : List CoreEntry) (state : SessionState) (sentence : Sentence)
        (added : List JournalEntry) → IsInTurn before → IsOneMore before after sentence added
        → InEachRun S.fits S.stands S.says cells caller session (B.claim asked) after
        (λ run. HasNoOperation run (last_step session after state sentence added))
        → PostsStandBehind S.fits S.stands S.says cells caller session (B.claim asked) before own
        state
        → PostsStandBehind S.fits S.stands S.says cells caller session (B.claim asked) after own
        (session_after state sentence added) }
    ensures failed { (asked : B) (cells : List (CoreCell S)) (caller session epoch : ℕ)
        (before after : CorePast) (own now : List CoreEntry) (state : SessionState)
        (sentence : Sentence) (added : List JournalEntry) → IsInTurn before
        → IsOneMore before after sentence added
        → InEachRun S.fits S.stands S.says cells caller session (B.claim asked) after
        (λ run. HasNoOperation run (last_step session after state sentence added))
        → IsPrefix own now
        → LearnsThat S.fits S.stands S.says (AddsAtEpoch epoch) cells caller session own now
        → list_any (is_abort_of epoch) added ≡ true
        → PostsStandBehind S.fits S.stands S.says cells caller session (B.claim asked) before own
        state
        → PostsStandBehind S.fits S.stands S.says cells caller session (B.claim asked) after now
        (session_after state sentence added) }
{}
