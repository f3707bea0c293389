//! The laws of what is behind a session of the core.

ghost use Rattle.std.specs.Prelude.{◌≡◌, ℕ, ◌+◌, List, [], filter};
ghost use Rattle.core_program.specs.Knowing.{IsLaterRun};
ghost use Rattle.core_events.specs.Events.{CoreEvent, Opening};
ghost use Rattle.core_serial.specs.Journals.{journal_of};
ghost use Rattle.core_states.specs.CorePasts.{CorePast, IsInTurn, IsNumberBehind, IsOneMore, last_number, last_step, nothing_behind};
ghost use Rattle.core_states.specs.RunsFrom.{GoesOn, IsRunFrom};
ghost use Rattle.core_program.specs.CoreFits.{CoreEntry};
ghost use Rattle.core_records.specs.CoreRecords.{RunScripts, record_of};
ghost use Rattle.core_records.specs.ScriptedCalls.{FollowScripts};
ghost use Rattle.cube_core.specs.declared.cell.CoreCell.{CoreCell};
ghost use Rattle.cube_journal.specs.declared.journal_entry.JournalEntry.{JournalEntry};
ghost use Rattle.cube_journal.specs.declared.reply.Reply.{Reply};
ghost use Rattle.cube_run.specs.RunRecords.{RunRecord, Sentence};
ghost use Rattle.cube_run.specs.RunText.{IsReply};
ghost use Rattle.cube_run.specs.SessionStates.{SessionState, session_after};
ghost use Rattle.cube_run.specs.SessionSteps.{entries_of, is_of_statement, step_at};
ghost use Rattle.played_scripts.specs.Promises.{IsExecuted};

use crate::besides::Besides;
use cube_core::LinkedShard;

/// Each run in which the sessions follow their scripts goes on from nothing. A run that goes on with one statement more
/// behind goes on from what was behind before it, and the entries stay in turn.
pub fn a_longer_past_goes_on<S: LinkedShard, B: Besides>()
    ensures beginning { (cells : List (CoreCell S)) (caller session : ℕ) (o : Opening)
        (given : RunScripts) (log : List CoreEntry) (events : List CoreEvent)
        → IsLaterRun S.fits S.stands S.says cells o caller [] log events
        → FollowScripts o given events
        → IsRunFrom S.fits S.stands S.says cells caller session nothing_behind o given events }
    ensures runs { (cells : List (CoreCell S)) (caller session : ℕ) (before after : CorePast)
        (sentence : Sentence) (added : List JournalEntry) (o : Opening) (given : RunScripts)
        (events : List CoreEvent) → IsOneMore before after sentence added
        → IsRunFrom S.fits S.stands S.says cells caller session after o given events
        → IsRunFrom S.fits S.stands S.says cells caller session before o given events }
    ensures earlier { (asked : B) (cells : List (CoreCell S)) (caller session : ℕ) (before after : CorePast)
        (sentence : Sentence) (added : List JournalEntry) (run : RunRecord)
        → IsOneMore before after sentence added
        → GoesOn S.fits S.stands S.says cells caller session (B.claim asked) after run
        → GoesOn S.fits S.stands S.says cells caller session (B.claim asked) before run }
    ensures turn { (before after : CorePast) (sentence : Sentence) (added : List JournalEntry)
        → IsOneMore before after sentence added → IsInTurn before → IsInTurn after }
{}

/// What a run has of a statement behind is what the entries behind have of it, and the statement that came last has
/// just the entries that were added; so it has the same step in each run that goes on.
pub fn what_is_behind_stays<S: LinkedShard>()
    ensures entries { (cells : List (CoreCell S)) (caller session : ℕ) (past : CorePast)
        (o : Opening) (given : RunScripts) (events : List CoreEvent) (number : ℕ)
        → IsRunFrom S.fits S.stands S.says cells caller session past o given events
        → IsNumberBehind past number
        → entries_of session number (journal_of o events)
        ≡ filter (is_of_statement number) past.entries }
    ensures last { (cells : List (CoreCell S)) (caller session : ℕ) (before after : CorePast)
        (sentence : Sentence) (added : List JournalEntry) (o : Opening) (given : RunScripts)
        (events : List CoreEvent) → IsInTurn before → IsOneMore before after sentence added
        → IsRunFrom S.fits S.stands S.says cells caller session after o given events
        → entries_of session (last_number before + 1) (journal_of o events) ≡ added }
    ensures step { (cells : List (CoreCell S)) (caller session : ℕ) (before after : CorePast)
        (state : SessionState) (sentence : Sentence) (added : List JournalEntry) (o : Opening)
        (given : RunScripts) (events : List CoreEvent) → IsInTurn before
        → IsOneMore before after sentence added
        → IsRunFrom S.fits S.stands S.says cells caller session after o given events
        → step_at (record_of o given events) session (last_number before + 1) state sentence
        ≡ last_step session after state sentence added }
{}

/// A statement is executed, for the law of scripts that are played, where each run that goes on with it behind answers
/// it so.
pub fn one_more_is_executed<S: LinkedShard, B: Besides>()
    ensures { (asked : B) (cells : List (CoreCell S)) (caller session : ℕ) (before after : CorePast)
        (state : SessionState) (sentence : Sentence) (added : List JournalEntry) (said : Reply)
        → IsInTurn before → IsOneMore before after sentence added
        → ((o : Opening) (given : RunScripts) (events : List CoreEvent)
        → IsRunFrom S.fits S.stands S.says cells caller session after o given events
        → B.claim asked o given events
        → IsReply (record_of o given events) (last_step session after state sentence added) said)
        → IsExecuted (GoesOn S.fits S.stands S.says cells caller session (B.claim asked)) session
        (last_number before + 1) state sentence before after said
        (session_after state sentence added) }
{}
