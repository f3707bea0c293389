//! What holds of statements on rows by what stands behind the session.

ghost use Rattle.std.specs.Prelude.{◌≡◌, ℕ, true, List, ◌++◌, Option, Some, slice_get};
ghost use Rattle.std.specs.List.{list_any};
ghost use Rattle.cube_values.specs.declared.snapshot.Snapshot.{Snapshot};
ghost use Rattle.cube_language.specs.declared.decl.Decl.{Decl};
ghost use Rattle.cube_language.specs.declared.statement.Statement.{Statement};
ghost use Rattle.cube_journal.specs.Counters.{journal_state};
ghost use Rattle.cube_journal.specs.declared.journal_entry.JournalEntry.{JournalEntry};
ghost use Rattle.cube_journal.specs.declared.reply.Reply.{Reply};
ghost use Rattle.cube_run.specs.RunRecords.{IsLegalRun, LoadedFile, RunRecord, Says, Sentence, cube_needed};
ghost use Rattle.cube_run.specs.RunText.{IsReply};
ghost use Rattle.cube_run.specs.RunTransactions.{DoneOperation};
ghost use Rattle.cube_run.specs.SessionStates.{Open, SessionState};
ghost use Rattle.cube_run.specs.SessionSteps.{session_part};
ghost use Rattle.condition_spans.specs.Codes.{lists_at};
ghost use Rattle.one_session.specs.Behind.{HasDone, IsSettled, last_step};
ghost use Rattle.one_session.specs.Changes.{AreNamedApart, is_begin_of};
ghost use Rattle.one_session.specs.Pasts.{Beginning, GoesOn, IsOneMore, NamesOnlyCome, SessionPast};
ghost use Rattle.aosi_desk.specs.State.{state_of};
ghost use Rattle.aosi_desk.specs.Desks.{AreCubes, DeskState};
ghost use Rattle.session_replies.specs.Modes.{mode_of};
ghost use Rattle.session_replies.specs.RowSteps.{IsOnCube, final_names};
ghost use Rattle.session_desk.specs.declared.session.Session.{Session};
ghost use Rattle.session_desk.specs.AtDesk.{IsServing};
ghost use Rattle.session_desk.specs.Ended.{HasEnded};
ghost use Rattle.session_desk.specs.Executed.{HasExecuted};
ghost use Rattle.session_desk.specs.RowsDone.{AddsEntries, EpochsRise, done_with, next_change, past_with};
ghost use Rattle.session_desk.specs.Standing.{StandsBehind, World, session_state};

/// No two cubes of a desk have one name.
pub fn cubes_of_a_desk_are_named_apart()
    ensures { (cubes : List Decl) → AreCubes cubes → AreNamedApart cubes }
{}

/// A statement that needs a cube which the desk has is about that cube in each run that goes on, and the dictionaries in the
/// end are those at its place.
pub fn statements_find_their_cubes()
    ensures cube { (beginning : Beginning) (before after : SessionPast) (now : World)
        (s : Statement) (added : List JournalEntry) (run : RunRecord) (place : ℕ) (d : Decl)
        → StandsBehind beginning before now → IsOneMore before after (Says s) added
        → GoesOn beginning after run → AreNamedApart now.desk.cubes
        → slice_get now.desk.cubes place ≡ Some d → cube_needed s ≡ Some d.name
        → IsOnCube run (last_step after (session_state now.session) (Says s) added) s d }
    ensures names { (beginning : Beginning) (past : SessionPast) (now : World) (run : RunRecord)
        (place : ℕ) (d : Decl)
        → StandsBehind beginning past now → GoesOn beginning past run
        → AreNamedApart now.desk.cubes → slice_get now.desk.cubes place ≡ Some d
        → final_names run d ≡ lists_at run.names place }
{}

/// A statement on rows is executed where the desk gains its entries, the dictionaries only gain names, it has done what is
/// done more, at an epoch from the last next one up to the new, and each run that goes on answers it so.
pub fn statements_on_rows_are_executed()
    ensures { (beginning : Beginning) (past : SessionPast) (sentence : Sentence) (file : LoadedFile)
        (added : List JournalEntry) (desk : DeskState) (session : Session) (new_desk : DeskState)
        (now : Session) (names new_names : List (List (List (List ℕ))))
        (done : List DoneOperation) (operation : Option DoneOperation) (said : Reply)
        → StandsBehind beginning past (record {
          desk = desk;
          names = names;
          session = session;
          done = done;
        })
        → AddsEntries sentence added desk session new_desk now → NamesOnlyCome names new_names
        → EpochsRise operation (next_change desk session) (next_change new_desk now)
        (session_part 1 (past.journal ++ added))
        → HasDone beginning (past_with past sentence file added new_names)
        (last_step (past_with past sentence file added new_names)
        (session_state session) sentence added) operation
        → ((run : RunRecord) → GoesOn beginning (past_with past sentence file added new_names) run
        → IsReply run (last_step (past_with past sentence file added new_names)
        (session_state session) sentence added) said)
        → HasExecuted beginning past sentence
        (record { desk = desk; names = names; session = session; done = done })
        (record {
          desk = new_desk;
          names = new_names;
          session = now;
          done = done_with done operation;
        })
        said }
{}

/// The transaction that a session has open at its desk was begun by one of its statements behind.
pub fn an_open_transaction_was_begun()
    ensures { (beginning : Beginning) (past : SessionPast) (now : World) (safe : ℕ)
        (writer : Snapshot)
        → StandsBehind beginning past now
        → IsServing (state_of now.desk.register) safe (mode_of now.session.mode)
        → mode_of now.session.mode ≡ Open writer
        → list_any (is_begin_of writer.epoch) (session_part 1 past.journal) ≡ true }
{}

/// What comes of the epochs before the next change of a session at its desk is settled, whatever may follow.
pub fn a_session_at_its_desk_is_settled()
    ensures { (beginning : Beginning) (past : SessionPast) (now : World) (safe : ℕ)
        → StandsBehind beginning past now
        → IsServing (state_of now.desk.register) safe (mode_of now.session.mode)
        → IsSettled (journal_state beginning.safe past.journal) (mode_of now.session.mode)
        (next_change now.desk now.session) }
{}

/// The journal of a run of one session that has ended at its desk is legal.
pub fn a_run_that_has_ended_is_legal()
    ensures { (beginning : Beginning) (past : SessionPast) (now : World) (state : SessionState)
        (desk : DeskState) (run : RunRecord)
        → StandsBehind beginning past now → HasEnded beginning past state desk
        → GoesOn beginning past run → run.journal ≡ desk.register.journal
        → IsLegalRun run }
{}
