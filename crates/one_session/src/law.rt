//! What is settled by what is behind a session.

ghost use Rattle.std.specs.Prelude.{
  ◌≡◌,
  ℕ,
  ◌+◌,
  ◌<◌,
  ◌≤◌,
  ◌⊎◌,
  List,
  [],
  ◌∷◌,
  ◌++◌,
  true,
  Some,
  None,
  IsSome,
  length,
  filter,
  fold,
  map,
  slice_get,
};
ghost use Rattle.std.specs.List.{AllByRecursion, AllZip, list_all, list_any};
ghost use Rattle.cube_journal.specs.declared.journal_entry.JournalEntry.{JournalEntry};
ghost use Rattle.cube_journal.specs.declared.reply.Reply.{Reply};
ghost use Rattle.cube_values.specs.declared.query.BoundQuery.{BoundQuery};
ghost use Rattle.cube_values.specs.declared.query.Query.{Query};
ghost use Rattle.cube_values.specs.declared.row.CodedRow.{CodedRow};
ghost use Rattle.cube_values.specs.declared.row.StoredRow.{StoredRow};
ghost use Rattle.cube_values.specs.Answer.{answer, table_of};
ghost use Rattle.cube_language.specs.declared.decl.Decl.{Decl};
ghost use Rattle.cube_language.specs.declared.statement.Statement.{Statement};
ghost use Rattle.cube_language.specs.Misfits.{FitsCube};
ghost use Rattle.cube_language.specs.ResolvedNames.{resolved_query};
ghost use Rattle.query_plan.specs.Bindings.{IsQueryOn};
ghost use Rattle.query_plan.specs.Ties.{AreDistinct, rows_taken, stored_for};
ghost use Rattle.condition_spans.specs.Codes.{lists_at};
ghost use Rattle.cube_values.specs.declared.snapshot.Snapshot.{Snapshot};
ghost use Rattle.cube_values.specs.Running.{after_operation};
ghost use Rattle.cube_values.specs.Sees.{sees};
ghost use Rattle.cube_values.specs.Visible.{visible_rows};
ghost use Rattle.cube_journal.specs.Counters.{journal_state};
ghost use Rattle.cube_journal.specs.Legal.{CountersAllowAll};
ghost use Rattle.cube_language.specs.declared.decl.DimDecl.{DimDecl};
ghost use Rattle.cube_run.specs.FinalNames.{HasDimension, names_at};
ghost use Rattle.cube_run.specs.LoadedRows.{has_no_place_for};
ghost use Rattle.std.specs.Str.{bytes_eq};
ghost use Rattle.cube_run.specs.Merge.{has_owner};
ghost use Rattle.cube_run.specs.StatementEntries.{script_end};
ghost use Rattle.cube_run.specs.RunRecords.{Catalog, RunRecord, Sentence, catalog_of, cube_called, cubes_at, declaration_of, names_of_cube, script_of};
ghost use Rattle.cube_run.specs.RunText.{IsReply, reader_of};
ghost use Rattle.cube_run.specs.RunTransactions.{DoneOperation, run_transactions, transactions_inside};
ghost use Rattle.cube_run.specs.SessionStates.{Mode, SessionState, fresh_session, session_after};
ghost use Rattle.cube_run.specs.SessionSteps.{belongs_to, entries_of, journal_before, session_part, steps_of};
ghost use Rattle.played_scripts.specs.Promises.{IsExecuted, IsPlayed};
ghost use Rattle.played_scripts.specs.PlayedRuns.{HavePlayed};
ghost use Rattle.one_session.specs.Changes.{
  AllStandForValues,
  AreNamedApart,
  ChangeAt,
  ComeFor,
  IsReadBy,
  AreInEpochOrder,
  StandsForDone,
  operation_counts,
  is_begin_of,
  rows_in_cube,
  rows_with_changes,
};
ghost use Rattle.one_session.specs.Pasts.{
  Beginning,
  EndsWithMore,
  GoesOn,
  IsInTurn,
  IsNumberBehind,
  IsOneMore,
  IsOwned,
  SessionPast,
  beginning_of,
  last_number,
  nothing_behind,
};
ghost use Rattle.one_session.specs.Behind.{
  HasDone,
  HaveDone,
  IsOpenFrom,
  IsSettled,
  cubes_behind,
  last_step,
  steps_behind,
  transactions_at,
  transactions_behind,
};

/// Each run of one session goes on from nothing. A run that goes on with one statement more behind goes on from what was
/// behind before it, and the entries stay in turn.
pub fn a_longer_past_goes_on()
    ensures beginning { (run : RunRecord) (script : List Sentence)
        → run.scripts ≡ script ∷ [] → CountersAllowAll run.safe [] run.journal
        → EndsWithMore run run.kept_names
        → GoesOn (beginning_of run) (nothing_behind (beginning_of run)) run }
    ensures earlier { (beginning : Beginning) (before after : SessionPast) (sentence : Sentence)
        (added : List JournalEntry) (run : RunRecord)
        → IsOneMore before after sentence added → GoesOn beginning after run
        → GoesOn beginning before run }
    ensures turn { (before after : SessionPast) (sentence : Sentence) (added : List JournalEntry)
        → IsOneMore before after sentence added → IsInTurn before → IsInTurn after }
{}

/// What a run has of a statement behind is what the journal behind has of it, and the statement that came last has
/// just the entries that were added; so the steps of the statements behind are the same in each run that goes on.
pub fn what_is_behind_stays()
    ensures entries { (beginning : Beginning) (past : SessionPast) (run : RunRecord) (number : ℕ)
        → GoesOn beginning past run → IsNumberBehind past number
        → entries_of 1 number run.journal ≡ entries_of 1 number past.journal }
    ensures last { (beginning : Beginning) (before after : SessionPast) (sentence : Sentence)
        (added : List JournalEntry) (run : RunRecord)
        → IsOneMore before after sentence added → IsInTurn before → GoesOn beginning after run
        → entries_of 1 (last_number before + 1) run.journal ≡ session_part 1 added }
    ensures steps { (beginning : Beginning) (past : SessionPast) (run : RunRecord)
        → GoesOn beginning past run → steps_of run 1 past.sentences ≡ steps_behind beginning past }
{}

/// A statement is executed, for the law of scripts that are played, where each run that goes on with it behind answers
/// it so.
pub fn one_more_is_executed()
    ensures { (beginning : Beginning) (before after : SessionPast) (state : SessionState)
        (sentence : Sentence)
        (added : List JournalEntry) (said : Reply)
        → IsInTurn before → IsOneMore before after sentence added
        → ((run : RunRecord) → GoesOn beginning after run
        → IsReply run (last_step after state sentence added) said)
        → IsExecuted (GoesOn beginning) 1 (last_number before + 1) state sentence before after said
        (session_after state sentence (session_part 1 added)) }
{}

/// What the statements behind have done of rows: nothing at the beginning; and a statement more adds its operation, if
/// each run that goes on has it so, or none.
pub fn operations_are_done_by_statements()
    ensures none { (beginning : Beginning) → HaveDone beginning
        (nothing_behind beginning) [] fresh_session }
    ensures no_change { (beginning : Beginning) (before after : SessionPast)
        (done : List DoneOperation)
        (state : SessionState) (sentence : Sentence) (added : List JournalEntry)
        → HaveDone beginning before done state → IsOneMore before after sentence added
        → HasDone beginning after (last_step after state sentence added) None
        → HaveDone beginning after done (session_after state sentence (session_part 1 added)) }
    ensures change { (beginning : Beginning) (before after : SessionPast)
        (done : List DoneOperation)
        (state : SessionState) (sentence : Sentence) (added : List JournalEntry)
        (operation : DoneOperation)
        → HaveDone beginning before done state → IsOneMore before after sentence added
        → HasDone beginning after (last_step after state sentence added) (Some operation)
        → HaveDone beginning after (done ++ operation ∷ []) (session_after state sentence
        (session_part 1 added)) }
{}

/// In a legal journal that is settled up to a bound which neither EC nor a pending epoch is below.
pub fn what_is_not_pending_is_settled()
    ensures { (safe : ℕ) (journal : List JournalEntry) (mode : Mode) (bound : ℕ)
        → CountersAllowAll safe [] journal → bound ≤ (journal_state safe journal).ec
        → AllByRecursion (λ epoch. bound ≤ epoch) (journal_state safe journal).pending
        → IsOpenFrom bound mode
        → IsSettled (journal_state safe journal) mode bound }
{}

/// A reader of an epoch that is settled sees in each run that goes on the kept rows and what is committed behind.
pub fn a_reader_sees_what_is_behind()
    ensures { (beginning : Beginning) (past : SessionPast) (run : RunRecord)
        (done : List DoneOperation)
        (state : SessionState) (bound epoch : ℕ)
        → HaveDone beginning past done state → GoesOn beginning past run
        → IsSettled (journal_state beginning.safe past.journal) state.mode bound → epoch < bound
        → visible_rows (reader_of epoch) (run_transactions run)
        ≡ visible_rows (reader_of epoch) (transactions_behind beginning past done) }
{}

/// A writer below whose epoch all is settled sees at its next statement, in each run that goes on, the same and what
/// its own statements have done so far.
pub fn a_writer_sees_what_is_behind()
    ensures { (beginning : Beginning) (past : SessionPast) (run : RunRecord)
        (done : List DoneOperation)
        (state : SessionState) (writer : Snapshot)
        → HaveDone beginning past done state → GoesOn beginning past run
        → IsSettled (journal_state beginning.safe past.journal) state.mode writer.epoch
        → visible_rows writer (transactions_inside run 1 (script_of run 1)
        (last_number past + 1) writer.epoch)
        ≡ visible_rows writer (transactions_at beginning past done writer.epoch) }
{}

/// What a snapshot sees of what is behind is what the operations leave that count for it, run in their order from the
/// kept rows.
pub fn what_is_seen_is_what_operations_leave()
    ensures reader { (beginning : Beginning) (past : SessionPast) (done : List DoneOperation)
        (high epoch : ℕ)
        → CountersAllowAll beginning.safe [] past.journal → AreInEpochOrder past done high
        → sees (reader_of epoch) beginning.safe ≡ true
        → visible_rows (reader_of epoch) (transactions_behind beginning past done)
        ≡ fold after_operation beginning.kept
        (map (λ o. o.operation) (filter (operation_counts past (reader_of epoch)) done)) }
    ensures writer { (beginning : Beginning) (past : SessionPast) (done : List DoneOperation)
        (high : ℕ)
        (writer : Snapshot)
        → CountersAllowAll beginning.safe [] past.journal → AreInEpochOrder past done high
        → beginning.safe < writer.epoch → sees writer beginning.safe ≡ true
        → sees writer writer.epoch ≡ true
        → writer.own ≡ true
        → visible_rows writer (transactions_at beginning past done writer.epoch)
        ≡ fold after_operation beginning.kept (map (λ o. o.operation) (filter
        (operation_counts past writer) done)) }
{}

/// Operations stand in order from one statement to the next.
pub fn operations_stay_in_order()
    ensures none { (beginning : Beginning) → AreInEpochOrder (nothing_behind beginning) [] 0 }
    ensures no_change { (before after : SessionPast) (sentence : Sentence)
        (added : List JournalEntry)
        (done : List DoneOperation) (high : ℕ)
        → IsOneMore before after sentence added → AreInEpochOrder before done high
        → AreInEpochOrder after done high }
    ensures change { (before after : SessionPast) (sentence : Sentence) (added : List JournalEntry)
        (done : List DoneOperation) (high : ℕ) (operation : DoneOperation)
        → IsOneMore before after sentence added → AreInEpochOrder before done high
        → high ≤ operation.epoch
        → list_any (is_begin_of operation.epoch) (session_part 1 after.journal) ≡ true
        → AreInEpochOrder after (done ++ operation ∷ []) operation.epoch }
{}

/// Where changes by coordinates stand for operations one by one, what they leave of the rows of a cube stands, row for
/// row, for what the operations leave of it.
pub fn changes_leave_what_operations_leave()
    ensures { (catalog : Catalog) (cube : ℕ) (d : Decl) (rows : List CodedRow)
        (stored : List StoredRow)
        (changes : List ChangeAt) (done : List DoneOperation)
        → AreNamedApart catalog.cubes → slice_get catalog.cubes cube ≡ Some d
        → AllZip (StandsForDone catalog) changes done
        → ComeFor d (lists_at catalog.names cube) rows (rows_in_cube d.name stored)
        → ComeFor d (lists_at catalog.names cube) (rows_with_changes cube rows changes)
        (rows_in_cube d.name (fold after_operation stored (map (λ o. o.operation) done))) }
{}

/// A dictionary that is full gains no name, whatever may follow; so a text that stands in a dictionary, or that a full one
/// lacks, has in the end a place or none as it has now.
pub fn full_dictionaries_stay()
    ensures place { (beginning : Beginning) (past : SessionPast) (run : RunRecord)
        (cube place : ℕ) (d : Decl)
        (dim : DimDecl) (text : List ℕ)
        → GoesOn beginning past run → HasDimension run cube place d dim
        → (list_any (λ name. bytes_eq name text) (names_at past.names cube place) ≡ true)
        ⊎ (dim.cardinality ≤ length (names_at past.names cube place))
        → has_no_place_for dim (names_at run.names cube place) text
        ≡ has_no_place_for dim (names_at past.names cube place) text }
    ensures names { (beginning : Beginning) (past : SessionPast) (run : RunRecord)
        (cube place : ℕ) (d : Decl)
        (dim : DimDecl)
        → GoesOn beginning past run → HasDimension run cube place d dim
        → dim.cardinality ≤ length (names_at past.names cube place)
        → names_at run.names cube place ≡ names_at past.names cube place }
{}

/// Rows by coordinates that stand for values by the names so far stand for the same by the names in the end, whichever
/// may come.
pub fn rows_keep_their_values()
    ensures { (beginning : Beginning) (past : SessionPast) (run : RunRecord) (cube : ℕ) (d : Decl)
        (rows : List CodedRow)
        → GoesOn beginning past run → slice_get (catalog_of run).cubes cube ≡ Some d
        → AllStandForValues d (lists_at past.names cube) rows
        → ComeFor d (lists_at run.names cube) rows (map (stored_for d.name
        (lists_at past.names cube)) rows) }
{}

/// An answer is of the rows of its query's cube alone; so the table of the rows by coordinates that a query takes, which
/// was bound by the names so far, is the statement's answer over all that they stand for in the end.
pub fn queries_answer_for_all_that_go_on()
    ensures of_cube { (query : Query) (rows : List StoredRow)
        → answer query rows ≡ answer query (rows_in_cube query.region.cube rows) }
    ensures table { (beginning : Beginning) (past : SessionPast) (run : RunRecord) (d : Decl)
        (s : Statement)
        (query : BoundQuery) (rows : List CodedRow) (stored : List StoredRow)
        → GoesOn beginning past run → slice_get (catalog_of run).cubes query.cube ≡ Some d
        → FitsCube d s
        → AreDistinct (lists_at past.names query.cube) → IsQueryOn d past.names s query
        → AllStandForValues d (lists_at past.names query.cube) rows
        → ComeFor d (lists_at run.names query.cube) rows (rows_in_cube d.name stored)
        → table_of query.group query.items (rows_taken (lists_at past.names query.cube) query rows)
        ≡ answer (resolved_query d s) stored }
{}

/// The cubes that are there are there in each run that goes on, at the same places.
pub fn cubes_behind_stay()
    ensures all { (beginning : Beginning) (past : SessionPast) (run : RunRecord)
        → GoesOn beginning past run → IsInTurn past → IsOwned past
        → cubes_at run past.journal ≡ cubes_behind beginning past }
    ensures each { (beginning : Beginning) (past : SessionPast) (run : RunRecord) (cube : ℕ)
        (d : Decl)
        → GoesOn beginning past run → IsInTurn past → IsOwned past
        → slice_get (cubes_behind beginning past) cube ≡ Some d
        → slice_get (catalog_of run).cubes cube ≡ Some d }
{}

/// A cube that is there is the one of its name in each run that goes on, with the dictionaries at its place.
pub fn declarations_behind_stay()
    ensures declaration { (beginning : Beginning) (past : SessionPast) (run : RunRecord)
        (cube : ℕ) (d : Decl)
        → GoesOn beginning past run → IsInTurn past → IsOwned past
        → AreNamedApart (cubes_behind beginning past)
        → slice_get (cubes_behind beginning past) cube ≡ Some d
        → declaration_of (catalog_of run) d.name ≡ d }
    ensures names { (beginning : Beginning) (past : SessionPast) (run : RunRecord) (cube : ℕ)
        (d : Decl)
        → GoesOn beginning past run → IsInTurn past → IsOwned past
        → AreNamedApart (cubes_behind beginning past)
        → slice_get (cubes_behind beginning past) cube ≡ Some d
        → names_of_cube (catalog_of run) d.name ≡ lists_at run.names cube }
{}

/// What a query of the session is answered in each run that goes on is the table of the rows by coordinates that it takes
/// now: of a reader of a settled epoch, and of the writer of the transaction that is open.
pub fn a_session_reads_by_coordinates()
    ensures reader { (beginning : Beginning) (past : SessionPast) (run : RunRecord)
        (done : List DoneOperation)
        (state : SessionState) (high bound epoch : ℕ) (d : Decl) (s : Statement)
        (query : BoundQuery)
        (kept : List CodedRow) (changes : List ChangeAt)
        → HaveDone beginning past done state → AreInEpochOrder past done high → IsOwned past
        → GoesOn beginning past run → IsSettled
        (journal_state beginning.safe past.journal) state.mode bound
        → beginning.safe ≤ epoch → epoch < bound
        → IsReadBy beginning past run d s query kept changes (filter (operation_counts past
        (reader_of epoch)) done)
        → answer (resolved_query d s) (visible_rows (reader_of epoch) (run_transactions run))
        ≡ table_of query.group query.items
        (rows_taken (lists_at past.names query.cube) query
        (rows_with_changes query.cube kept changes)) }
    ensures writer { (beginning : Beginning) (past : SessionPast) (run : RunRecord)
        (done : List DoneOperation)
        (state : SessionState) (high : ℕ) (writer : Snapshot) (d : Decl) (s : Statement)
        (query : BoundQuery)
        (kept : List CodedRow) (changes : List ChangeAt)
        → HaveDone beginning past done state → AreInEpochOrder past done high → IsOwned past
        → GoesOn beginning past run → IsSettled
        (journal_state beginning.safe past.journal) state.mode writer.epoch
        → beginning.safe < writer.epoch → sees writer beginning.safe ≡ true
        → sees writer writer.epoch ≡ true
        → writer.own ≡ true
        → IsReadBy beginning past run d s query kept changes (filter
        (operation_counts past writer) done)
        → answer (resolved_query d s)
        (visible_rows writer (transactions_inside run 1 (script_of run 1)
        (last_number past + 1) writer.epoch))
        ≡ table_of query.group query.items
        (rows_taken (lists_at past.names query.cube) query
        (rows_with_changes query.cube kept changes)) }
{}

/// What stands before the statement that came last: all that was behind before it, where its own entry comes first of
/// what was added; and in any case each cube that was there.
pub fn what_was_behind_stands_before()
    ensures journal { (beginning : Beginning) (before after : SessionPast) (sentence : Sentence)
        (e : JournalEntry)
        (added : List JournalEntry) (run : RunRecord)
        → IsInTurn before → IsOneMore before after sentence (e ∷ added) → belongs_to 1 e ≡ true
        → GoesOn beginning after run
        → journal_before 1 (last_number before + 1) run.journal ≡ before.journal }
    ensures cube { (beginning : Beginning) (before after : SessionPast) (sentence : Sentence)
        (added : List JournalEntry) (run : RunRecord) (cube : ℕ) (d : Decl)
        → IsInTurn before → IsOwned before → IsOneMore before after sentence added
        → GoesOn beginning after run
        → slice_get (cubes_behind beginning before) cube ≡ Some d
        → IsSome (cube_called (cubes_at run (journal_before 1
        (last_number before + 1) run.journal)) d.name) }
{}

/// Where the script is played and its end has left its entries, the run is played.
pub fn the_end_completes_a_run()
    ensures { (beginning : Beginning) (past : SessionPast) (run : RunRecord) (replies : List Reply)
        (state : SessionState) (added : List JournalEntry)
        → IsPlayed (GoesOn beginning) 1 past.sentences past replies state → IsInTurn past
        → GoesOn beginning past run
        → run.scripts ≡ past.sentences ∷ [] → run.journal ≡ past.journal ++ added
        → session_part 1 added ≡ script_end 1 (last_number past + 1) state.mode state.watch
        → list_all (has_owner run) run.journal ≡ true → HavePlayed run (replies ∷ []) }
{}
