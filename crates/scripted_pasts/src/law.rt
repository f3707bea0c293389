//! The laws of the beginning, and of statements that do nothing to rows.

ghost use Rattle.std.specs.Prelude.{ℕ, ◌+◌, List, [], ◌∷◌, ◌++◌, Option};
ghost use Rattle.core_program.specs.ClientCalls.{desk_entry};
ghost use Rattle.core_cells.specs.declared.desk.DeskAnswer.TheVariants as answer;
ghost use Rattle.core_cells.specs.declared.desk.DeskCall.TheVariants as desk;
ghost use Rattle.core_cubes.specs.ExecutedWatched.{ExecutesWatched};
ghost use Rattle.core_cubes.specs.StatementCalls.{IsCallFor};
ghost use Rattle.core_events.specs.Events.{ClientCall, CoreEvent, Opening};
ghost use Rattle.core_states.specs.CorePasts.{nothing_behind};
ghost use Rattle.core_program.specs.CoreFits.{CoreEntry};
ghost use Rattle.core_program.specs.Knowing.{IsClientOf};
ghost use Rattle.core_records.specs.CoreRecords.{RunScripts};
ghost use Rattle.core_states.specs.ExecutedInCore.{ExecutesInCore};
ghost use Rattle.core_states.specs.LeftBehind.{GoOnByCalls, IsPlainCall, LeavesBehind};
ghost use Rattle.core_states.specs.declared.session.CoreSession.{CoreSession};
ghost use Rattle.cube_core.specs.declared.cell.CoreCell.{CoreCell};
ghost use Rattle.cube_journal.specs.declared.journal_entry.JournalEntry.{JournalEntry};
ghost use Rattle.cube_journal.specs.declared.journal_entry.JournalEntry.TheVariants as entry;
ghost use Rattle.cube_journal.specs.declared.reply.Reply.{Reply};
ghost use Rattle.cube_language.specs.declared.statement.Statement.{Statement};
ghost use Rattle.cube_run.specs.RunRecords.{Says, Sentence};
ghost use Rattle.cube_run.specs.SessionStates.{KeptWatch, fresh_session};
ghost use Rattle.scripted_pasts.specs.BehindScripts.{StandsForScript};
ghost use Rattle.scripted_pasts.specs.Performed.{Performs, PerformsWatched, WhateverFile};
ghost use Rattle.scripted_pasts.specs.QuietCalls.{IsQuietCall, LeavesQuietly};
ghost use Rattle.scripted_pasts.specs.ScriptClaims.{IsRunOfScripts, OpensForScripts};
ghost use Rattle.scripted_pasts.specs.UnchangedRows.{ChangesNoRows};

use cube_core::LinkedShard;

/// A run of scripts opens with the cubes that it has. So what a session's posts stand for in runs that open so, they
/// stand for in runs of scripts.
pub fn runs_of_scripts_open()
    ensures { (every : ℕ) (o : Opening) (given : RunScripts) (events : List CoreEvent)
        → IsRunOfScripts every o given events → OpensForScripts every o given events }
{}

/// A plain call changes no rows and speaks of no cube. So plain calls leave their entries quietly, and so does a call
/// that closes a reader. Quiet calls one after the other leave the entries of both.
pub fn quiet_calls_leave_entries<S: LinkedShard>()
    ensures quiet { (call : ClientCall) → IsPlainCall call → IsQuietCall call }
    ensures plain { (cells : List (CoreCell S)) (caller session : ℕ) (own now : List CoreEntry)
        (added : List JournalEntry)
        → LeavesBehind S.fits S.stands S.says cells caller session own now added
        → LeavesQuietly S.fits S.stands S.says cells caller session own now added }
    ensures closed { (cells : List (CoreCell S)) (caller session holder statement : ℕ)
        (own : List CoreEntry) → IsClientOf S.fits S.stands S.says cells caller session
        → LeavesQuietly S.fits S.stands S.says cells caller session own
        (own ++ desk_entry caller (desk.CloseRead holder statement) answer.Done ∷ [])
        (entry.ReadEnd holder statement ∷ []) }
    ensures then { (cells : List (CoreCell S)) (caller session : ℕ) (own mid now : List CoreEntry)
        (added more : List JournalEntry)
        → LeavesQuietly S.fits S.stands S.says cells caller session own mid added
        → LeavesQuietly S.fits S.stands S.says cells caller session mid now more
        → LeavesQuietly S.fits S.stands S.says cells caller session own now (added ++ more) }
{}

/// Before its first call nothing is behind a session, and that stands for its script.
pub fn scripts_begin<S: LinkedShard>()
    ensures { (cells : List (CoreCell S)) (caller session every : ℕ)
        → StandsForScript S.fits S.stands S.says cells caller session [] every nothing_behind
        fresh_session }
{}

/// A statement that is executed by calls which post no change, and that does nothing to rows, is performed: with
/// whatever watch the session has, or with whatever watch lets the statement. The calls are plain, or are those of
/// such a statement, which may make a cube or find that there is none.
pub fn plain_statements_are_performed<S: LinkedShard>()
    ensures in_core { (cells : List (CoreCell S)) (caller : ℕ) (sentence : Sentence)
        (old new : CoreSession) (own now : List CoreEntry) (said : Reply)
        → ExecutesInCore S.fits S.stands S.says cells caller sentence old own new now said
        → GoOnByCalls S.fits S.stands S.says cells caller old.number IsPlainCall own now
        → ChangesNoRows sentence said → (watch : Option KeptWatch)
        → Performs S.fits S.stands S.says cells caller WhateverFile sentence old watch own new watch
        now said }
    ensures lets { (cells : List (CoreCell S)) (caller : ℕ) (s : Statement)
        (old new : CoreSession) (own now : List CoreEntry) (said : Reply)
        → ((watch : Option KeptWatch) → Performs S.fits S.stands S.says cells caller WhateverFile
        (Says s) old watch own new watch now said)
        → PerformsWatched S.fits S.stands S.says cells caller WhateverFile s old own new now said }
    ensures watched { (cells : List (CoreCell S)) (caller : ℕ) (s : Statement)
        (old new : CoreSession) (own now : List CoreEntry) (said : Reply)
        → ExecutesWatched S.fits S.stands S.says cells caller s old own new now said
        → GoOnByCalls S.fits S.stands S.says cells caller old.number
        (IsCallFor (old.statements + 1) s) own now
        → ChangesNoRows (Says s) said
        → PerformsWatched S.fits S.stands S.says cells caller WhateverFile s old own new now said }
    ensures plainly { (cells : List (CoreCell S)) (caller : ℕ) (s : Statement)
        (old new : CoreSession) (own now : List CoreEntry) (said : Reply)
        → ExecutesWatched S.fits S.stands S.says cells caller s old own new now said
        → GoOnByCalls S.fits S.stands S.says cells caller old.number IsPlainCall own now
        → ChangesNoRows (Says s) said
        → PerformsWatched S.fits S.stands S.says cells caller WhateverFile s old own new now said }
{}
