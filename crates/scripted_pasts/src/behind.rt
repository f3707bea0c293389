//! Laws of the names that stand behind a session, statement by statement, and in the run in which it has ended its
//! script.

ghost use Rattle.std.specs.Prelude.{◌≡◌, ℕ, true, List, [], ◌++◌, Contains, Some, None, slice_get};
ghost use mathlib.Core.List.{IsPrefix};
ghost use Rattle.condition_spans.specs.Codes.{lists_at};
ghost use Rattle.core_events.specs.Clients.{calls_of};
ghost use Rattle.core_events.specs.Events.{CoreEvent, IsSession, Opening};
ghost use Rattle.core_names.specs.AskedNames.{HasAskedFor};
ghost use Rattle.core_program.specs.CoreFits.{CoreEntry};
ghost use Rattle.core_program.specs.Knowing.{IsClientOf, IsLaterRun};
ghost use Rattle.core_records.specs.CoreRecords.{RunScripts, record_of};
ghost use Rattle.core_states.specs.CorePasts.{CorePast, IsInTurn, IsOneMore, last_step, nothing_behind};
ghost use Rattle.core_states.specs.Endings.{HasEnded, IsScriptedHistory};
ghost use Rattle.core_states.specs.LeftBehind.{AsksForNone, GoOnByCalls};
ghost use Rattle.core_states.specs.RunsFrom.{IsRunFrom};
ghost use Rattle.cube_core.specs.BoardCells.{IsEntryEvent};
ghost use Rattle.cube_core.specs.Links.{AreEventsOf};
ghost use Rattle.cube_core.specs.declared.cell.CoreCell.{CoreCell};
ghost use Rattle.cube_journal.specs.Refusals.{code};
ghost use Rattle.cube_journal.specs.declared.journal_entry.JournalEntry.{JournalEntry};
ghost use Rattle.cube_journal.specs.declared.refusal.Refusal.{Refusal};
ghost use Rattle.cube_journal.specs.declared.reply.Reply.{Reply};
ghost use Rattle.cube_journal.specs.declared.reply.Reply.TheVariants as reply;
ghost use Rattle.cube_language.specs.Cubes.{IsStorable};
ghost use Rattle.cube_language.specs.ResolvedNames.{resolved_region};
ghost use Rattle.cube_language.specs.declared.decl.Decl.{Decl};
ghost use Rattle.cube_language.specs.declared.decl.DimDecl.{DimDecl};
ghost use Rattle.cube_language.specs.declared.statement.Cond.{Cond};
ghost use Rattle.cube_language.specs.declared.statement.Statement.{Statement};
ghost use Rattle.cube_language.specs.declared.statement.Statement.TheVariants.{Delete};
ghost use Rattle.cube_run.specs.FinalNames.{Offers};
ghost use Rattle.cube_run.specs.RunRecords.{RunRecord, Says, Sentence, catalog_of, script_of};
ghost use Rattle.cube_run.specs.RunText.{IsReply};
ghost use Rattle.cube_run.specs.SessionStates.{SessionState, fresh_session};
ghost use Rattle.cube_run.specs.SessionSteps.{SessionStep, all_steps, last_state, steps_of};
ghost use Rattle.cube_run.specs.StatementEntries.{is_change};
ghost use Rattle.cube_run.specs.StepOutcomes.{refused_by_mode};
ghost use Rattle.cube_values.specs.declared.row.CodedRow.{CodedRow};
ghost use Rattle.scripted_pasts.specs.AskedTexts.{IsAskedForBy};
ghost use Rattle.scripted_pasts.specs.NamesBehind.{AskForMoreOffered, NamesStandBehind};
ghost use Rattle.scripted_pasts.specs.NamesStand.{IsNamedStep, NamesStand};
ghost use Rattle.scripted_pasts.specs.StepTexts.{HasTextFor};
ghost use Rattle.one_session.specs.Changes.{AreNamedApart};
ghost use Rattle.posted_pasts.specs.DoneChanges.{HasNoOperation, HasPutRows};
ghost use Rattle.posted_pasts.specs.PostsBehind.{InEachRun};
ghost use Rattle.row_encoding.specs.CodedTexts.{HavePlaces};
ghost use Rattle.session_replies.specs.RowSteps.{FitsItsCube, IsOnCube, final_names};

use core_states::Besides;
use cube_core::LinkedShard;

/// Before its first call a session has asked for no text, and nothing is behind it.
pub fn names_stand_at_the_beginning<S: LinkedShard, B: Besides>()
    ensures { (asked : B) (cells : List (CoreCell S)) (caller session : ℕ)
        → NamesStandBehind S.fits S.stands S.says cells caller session (B.claim asked)
        nothing_behind [] }
{}

/// Names stand behind a session also after calls that ask for no text; and with a statement more, where its calls ask
/// for no text but what is offered, as calls do that ask for none, and where its step is named.
pub fn names_stay<S: LinkedShard, B: Besides>()
    ensures calls { (asked : B) (cells : List (CoreCell S)) (caller session : ℕ) (past : CorePast)
        (own now : List CoreEntry) → IsPrefix own now
        → GoOnByCalls S.fits S.stands S.says cells caller session AsksForNone own now
        → NamesStandBehind S.fits S.stands S.says cells caller session (B.claim asked) past own
        → NamesStandBehind S.fits S.stands S.says cells caller session (B.claim asked) past now }
    ensures none { (asked : B) (cells : List (CoreCell S)) (caller session : ℕ) (past : CorePast)
        (own now : List CoreEntry)
        → GoOnByCalls S.fits S.stands S.says cells caller session AsksForNone own now
        → AskForMoreOffered S.fits S.stands S.says cells caller session (B.claim asked) past own now }
    ensures statement { (asked : B) (cells : List (CoreCell S)) (caller session : ℕ)
        (before after : CorePast) (state : SessionState) (sentence : Sentence)
        (added : List JournalEntry) (own now : List CoreEntry) → IsInTurn before
        → IsOneMore before after sentence added → IsPrefix own now
        → InEachRun S.fits S.stands S.says cells caller session (B.claim asked) before
        (λ run. last_state fresh_session (steps_of run session before.sentences) ≡ state)
        → AskForMoreOffered S.fits S.stands S.says cells caller session (B.claim asked) after own now
        → InEachRun S.fits S.stands S.says cells caller session (B.claim asked) after
        (λ run. IsNamedStep run (last_step session after state sentence added))
        → NamesStandBehind S.fits S.stands S.says cells caller session (B.claim asked) before own
        → NamesStandBehind S.fits S.stands S.says cells caller session (B.claim asked) after now }
{}

/// A step is named that has done nothing to rows, or has put rows of a cube for which batches stand; and so is that of
/// a DELETE where each text that it compares with has its place in the end.
pub fn steps_are_named()
    ensures nothing { (run : RunRecord) (step : SessionStep) → HasNoOperation run step
        → IsNamedStep run step }
    ensures put { (run : RunRecord) (step : SessionStep) (cube epoch : ℕ)
        (batches : List (List CodedRow)) → AreNamedApart (catalog_of run).cubes
        → HasPutRows run step cube epoch batches → IsNamedStep run step }
    ensures deleted { (run : RunRecord) (step : SessionStep) (name : List ℕ) (conds : List Cond)
        (cube : ℕ) (d : Decl) → AreNamedApart (catalog_of run).cubes
        → step.sentence ≡ Says (Delete name conds) → IsOnCube run step (Delete name conds) d
        → slice_get (catalog_of run).cubes cube ≡ Some d → IsStorable d
        → HavePlaces d.dims (lists_at run.names cube) (resolved_region d conds).conditions
        → IsNamedStep run step }
{}

/// The step of the statement that came last is one of each run of its session that goes on from there.
pub fn last_steps_are_of_their_runs<S: LinkedShard>()
    ensures { (cells : List (CoreCell S)) (caller session : ℕ) (before after : CorePast)
        (state : SessionState) (sentence : Sentence) (added : List JournalEntry) → IsInTurn before
        → IsOneMore before after sentence added → (o : Opening) (given : RunScripts)
        (events : List CoreEvent) → IsSession o session
        → IsRunFrom S.fits S.stands S.says cells caller session after o given events
        → last_state fresh_session (steps_of (record_of o given events) session before.sentences)
        ≡ state
        → Contains (all_steps (record_of o given events))
        (last_step session after state sentence added) }
{}

/// A change of rows that fits its cube, and is not told that there is no such cube, offers the texts that it has for
/// the dimensions.
pub fn changes_offer_their_texts()
    ensures { (run : RunRecord) (step : SessionStep) (s : Statement) (d : Decl) (dim : DimDecl)
        (cube place : ℕ) (text : List ℕ) (said : Reply) → Contains (all_steps run) step
        → step.sentence ≡ Says s → is_change s ≡ true
        → refused_by_mode step.state.mode s ≡ None → FitsItsCube run step s d
        → final_names run d ≡ lists_at run.names cube → IsReply run step said
        → ((r : Refusal) → said ≡ reply.Refused r → code r ≡ 2 → ⊥)
        → slice_get d.dims place ≡ Some dim → HasTextFor run step d place text s
        → Offers run d dim place text }
{}

/// In each run in which a session's own calls begin so, its own entries ask for the codes of just those texts
/// for which
/// its calls ask.
pub fn entries_ask_as_calls<S: LinkedShard>()
    ensures calls { (cells : List (CoreCell S)) (caller session : ℕ) (o : Opening)
        (log : List CoreEntry) (run es : List CoreEvent) (own : List CoreEntry)
        → IsClientOf S.fits S.stands S.says cells caller session
        → IsLaterRun S.fits S.stands S.says cells o caller own log run
        → AreEventsOf (IsEntryEvent S.fits S.stands S.says o) own es
        → (place dim : ℕ) (text : List ℕ) → IsAskedForBy (calls_of session es) place dim text
        → HasAskedFor own place dim text }
    ensures entries { (cells : List (CoreCell S)) (caller session : ℕ) (o : Opening)
        (log : List CoreEntry) (run es : List CoreEvent) (own : List CoreEntry)
        → IsClientOf S.fits S.stands S.says cells caller session
        → IsLaterRun S.fits S.stands S.says cells o caller own log run
        → AreEventsOf (IsEntryEvent S.fits S.stands S.says o) own es
        → (place dim : ℕ) (text : List ℕ) → HasAskedFor own place dim text
        → IsAskedForBy (calls_of session es) place dim text }
{}

/// Where a session has played its script, whatever its replies are promised for, and names stand behind it, they stand
/// for all its calls and statements.
pub fn names_stand_in_the_end<S: LinkedShard, B: Besides, J: Besides>()
    ensures { (asked : B) (judged : J) (cells : List (CoreCell S)) (o : Opening) (given : RunScripts)
        (log : List CoreEntry) (events : List CoreEvent) (session : ℕ) (replies : List Reply)
        → IsScriptedHistory S.fits S.stands S.says cells o given log events
        → IsSession o session → B.claim asked o given events
        → (ended : HasEnded S.fits S.stands S.says cells o given log (J.claim judged) session replies)
        → NamesStandBehind S.fits S.stands S.says cells ended.caller session (B.claim asked)
        ended.past (ended.past.own ++ ended.ending)
        → NamesStand (record_of o given events) session (script_of (record_of o given events) session)
        (calls_of session events) }
{}
