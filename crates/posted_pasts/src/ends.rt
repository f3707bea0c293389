//! The laws of what is committed, and of statements inside a transaction.

ghost use Rattle.std.specs.Prelude.{◌≡◌, ℕ, ◌+◌, true, List, ◌++◌, Some, slice_get};
ghost use Rattle.core_agreements.specs.ScriptedRuns.{CommitsStand, IsAtStatement};
ghost use Rattle.core_events.specs.Cells.{counters_of_run};
ghost use Rattle.core_events.specs.Clients.{calls_of};
ghost use Rattle.core_events.specs.Events.{CoreEvent, IsSession, Opening};
ghost use Rattle.core_states.specs.CorePasts.{CorePast, last_number};
ghost use Rattle.core_states.specs.Endings.{HasEnded, IsScriptedHistory};
ghost use Rattle.core_program.specs.CoreFits.{CoreEntry};
ghost use Rattle.core_records.specs.CoreRecords.{RunScripts, record_of};
ghost use Rattle.core_states.specs.StandingInCore.{StandsInCore};
ghost use Rattle.cube_core.specs.declared.cell.CoreCell.{CoreCell};
ghost use Rattle.cube_journal.specs.Counters.{held_by};
ghost use Rattle.cube_journal.specs.declared.reply.Reply.{Reply};
ghost use Rattle.cube_language.specs.declared.decl.Decl.{Decl};
ghost use Rattle.cube_run.specs.RunRecords.{catalog_of};
ghost use Rattle.cube_run.specs.SessionStates.{SessionState};
ghost use Rattle.cube_values.specs.declared.snapshot.Snapshot.{Snapshot};
ghost use Rattle.posted_pasts.specs.PostsBehind.{IsRunWithCalls, PostsStandBehind};

use core_states::Besides;
use cube_core::LinkedShard;

/// Where a session has played its script, whatever its replies are promised for, and its posts stand for
/// what is behind it, so do those of each transaction that it committed.
pub fn posts_stand_for_commits<S: LinkedShard, B: Besides, J: Besides>()
    ensures { (asked : B) (judged : J) (cells : List (CoreCell S)) (o : Opening) (given : RunScripts)
        (log : List CoreEntry) (events : List CoreEvent) (session : ℕ) (replies : List Reply)
        (state : SessionState) → IsScriptedHistory S.fits S.stands S.says cells o given log events
        → IsSession o session → B.claim asked o given events
        → (ended : HasEnded S.fits S.stands S.says cells o given log (J.claim judged) session replies)
        → PostsStandBehind S.fits S.stands S.says cells ended.caller session (B.claim asked)
        ended.past (ended.past.own ++ ended.ending) state
        → CommitsStand o given events session }
{}

/// A session that holds a writer, and whose posts stand for what is behind it, is at its next statement
/// inside the transaction: at the moment after its calls so far, in each run that goes on.
pub fn posts_stand_in_transactions<S: LinkedShard, B: Besides>()
    ensures { (asked : B) (cells : List (CoreCell S)) (caller session cube : ℕ) (past : CorePast)
        (own : List CoreEntry) (state : SessionState) (o : Opening) (given : RunScripts)
        (later es mine : List CoreEvent) (d : Decl) (s : Snapshot)
        → StandsInCore S.fits S.stands S.says cells caller session own past
        → PostsStandBehind S.fits S.stands S.says cells caller session (B.claim asked) past own state
        → IsRunWithCalls S.fits S.stands S.says cells caller session (B.claim asked) past own o given
        (later ++ es) mine → calls_of session es ≡ calls_of session mine
        → IsSession o session → held_by (counters_of_run o es).snapshots session ≡ Some s
        → s.own ≡ true
        → slice_get (catalog_of (record_of o given (later ++ es))).cubes cube ≡ Some d
        → IsAtStatement o (record_of o given (later ++ es)) es session (last_number past + 1) cube
        d s }
{}
