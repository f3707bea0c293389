//! The replies that the entries of an INSERT, a LOAD and a DELETE tell, in any run and at any session.

ghost use Rattle.std.specs.Prelude.{◌≡◌, ℕ, ◌≤◌, ◌<◌, true, List, [], Some, None, Result, length, take};
ghost use Rattle.cube_values.specs.declared.row.Row.{Row};
ghost use Rattle.cube_values.specs.declared.snapshot.Snapshot.{Snapshot};
ghost use Rattle.cube_values.specs.declared.value.Value.{Value};
ghost use Rattle.cube_language.specs.declared.bad_row.BadRow.{BadRow};
ghost use Rattle.cube_language.specs.declared.decl.Decl.{Decl};
ghost use Rattle.cube_language.specs.declared.statement.Cond.{Cond};
ghost use Rattle.cube_language.specs.declared.statement.Statement.{Statement};
ghost use Rattle.cube_language.specs.declared.statement.Statement.TheVariants.{Insert, Load, Delete};
ghost use Rattle.cube_journal.specs.declared.journal_entry.AbortCause.TheVariants as abort;
ghost use Rattle.cube_journal.specs.declared.journal_entry.JournalEntry.{JournalEntry};
ghost use Rattle.cube_journal.specs.declared.refusal.Refusal.TheVariants as refusal;
ghost use Rattle.cube_journal.specs.declared.reply.Reply.TheVariants as reply;
ghost use Rattle.cube_run.specs.LoadedRows.{first_without_place, rejections_among, rows_among};
ghost use Rattle.cube_run.specs.RunRecords.{Missing, RunRecord, Says, TooLarge};
ghost use Rattle.cube_run.specs.RunText.{IsReply, shown_rejections};
ghost use Rattle.cube_run.specs.SessionStates.{Mode, Idle, Open};
ghost use Rattle.cube_run.specs.SessionSteps.{SessionStep};
ghost use Rattle.cube_run.specs.StatementEntries.{is_change};
ghost use Rattle.cube_run.specs.StepOutcomes.{refused_by_mode};
ghost use Rattle.session_replies.specs.RowEntries.{IsRoundAfter, lone_refusal, open_abort, own_abort, own_commit};
ghost use Rattle.session_replies.specs.RowSteps.{FitsItsCube, GivesRecords, final_names};
ghost use Rattle.session_replies.specs.StepParts.{IsStep};

/// An INSERT of rows that fit their cube, each of whose texts has a place in its dictionary, is stored: by a transaction of
/// its own, after which a round may be due, or in the one that is open. A shard that is full ends that. Where a text has no
/// place, the INSERT is refused for the first such.
pub fn inserts_are_answered()
    ensures alone { (run : RunRecord) (step : SessionStep) (cube : List ℕ)
        (rows : List (List Value)) (d : Decl) (epoch : ℕ) (deps : List ℕ)
        (round : List JournalEntry)
        → IsStep step Idle (Says (Insert cube rows)) (own_commit step epoch deps round)
        → IsRoundAfter run step round → FitsItsCube run step (Insert cube rows) d
        → first_without_place d (final_names run d) rows ≡ None
        → IsReply run step (reply.Stored (length rows) epoch) }
    ensures inside { (run : RunRecord) (step : SessionStep) (cube : List ℕ)
        (rows : List (List Value)) (d : Decl) (writer : Snapshot)
        → IsStep step (Open writer) (Says (Insert cube rows)) []
        → FitsItsCube run step (Insert cube rows) d
        → first_without_place d (final_names run d) rows ≡ None
        → IsReply run step (reply.Stored (length rows) writer.epoch) }
    ensures full { (run : RunRecord) (step : SessionStep) (mode : Mode) (cube : List ℕ)
        (rows : List (List Value)) (d : Decl) (text : List ℕ)
        → IsStep step mode (Says (Insert cube rows)) (lone_refusal step 15)
        → refused_by_mode mode (Insert cube rows) ≡ None → FitsItsCube run step (Insert cube rows) d
        → first_without_place d (final_names run d) rows ≡ Some text
        → IsReply run step (reply.Refused (refusal.DictionaryFull text)) }
    ensures shard_alone { (run : RunRecord) (step : SessionStep) (cube : List ℕ)
        (rows : List (List Value)) (d : Decl) (epoch : ℕ) (deps : List ℕ) (shard count : ℕ)
        → IsStep step Idle (Says (Insert cube rows))
        (own_abort step epoch deps (abort.ShardFull shard count))
        → FitsItsCube run step (Insert cube rows) d
        → first_without_place d (final_names run d) rows ≡ None
        → IsReply run step (reply.Refused (refusal.ShardFull shard count)) }
    ensures shard_inside { (run : RunRecord) (step : SessionStep) (cube : List ℕ)
        (rows : List (List Value)) (d : Decl) (writer : Snapshot) (shard count : ℕ)
        → IsStep step (Open writer) (Says (Insert cube rows))
        (open_abort step writer.epoch (abort.ShardFull shard count))
        → FitsItsCube run step (Insert cube rows) d
        → first_without_place d (final_names run d) rows ≡ None
        → IsReply run step (reply.Refused (refusal.ShardFull shard count)) }
{}

/// A DELETE that fits its cube is done: by a transaction of its own, after which a round may be due, or in the one that is
/// open.
pub fn deletes_are_answered()
    ensures alone { (run : RunRecord) (step : SessionStep) (cube : List ℕ) (conds : List Cond)
        (d : Decl) (epoch : ℕ) (deps : List ℕ) (round : List JournalEntry)
        → IsStep step Idle (Says (Delete cube conds)) (own_commit step epoch deps round)
        → IsRoundAfter run step round → FitsItsCube run step (Delete cube conds) d
        → IsReply run step (reply.Dropped epoch) }
    ensures inside { (run : RunRecord) (step : SessionStep) (cube : List ℕ) (conds : List Cond)
        (d : Decl) (writer : Snapshot)
        → IsStep step (Open writer) (Says (Delete cube conds)) []
        → FitsItsCube run step (Delete cube conds) d
        → IsReply run step (reply.Dropped writer.epoch) }
{}

/// A LOAD that fits its cube, and no more of whose records are bad than it allows, as far as it looks, is stored: by a
/// transaction of its own, after which a round may be due, or in the one that is open. A shard that is full ends that.
pub fn loads_are_answered()
    ensures alone { (run : RunRecord) (step : SessionStep) (cube path : List ℕ) (reject : ℕ)
        (d : Decl) (looked : List (Result Row BadRow)) (epoch : ℕ) (deps : List ℕ)
        (round : List JournalEntry)
        → IsStep step Idle (Says (Load cube path reject)) (own_commit step epoch deps round)
        → IsRoundAfter run step round → FitsItsCube run step (Load cube path reject) d
        → GivesRecords run step d reject looked → length (rejections_among looked) ≤ reject
        → IsReply run step
        (reply.Loaded (length (rows_among looked)) (length (rejections_among looked))
        (take shown_rejections (rejections_among looked)) epoch) }
    ensures inside { (run : RunRecord) (step : SessionStep) (cube path : List ℕ) (reject : ℕ)
        (d : Decl) (looked : List (Result Row BadRow)) (writer : Snapshot)
        → IsStep step (Open writer) (Says (Load cube path reject)) []
        → FitsItsCube run step (Load cube path reject) d → GivesRecords run step d reject looked
        → length (rejections_among looked) ≤ reject
        → IsReply run step
        (reply.Loaded (length (rows_among looked)) (length (rejections_among looked))
        (take shown_rejections (rejections_among looked)) writer.epoch) }
    ensures shard_alone { (run : RunRecord) (step : SessionStep) (cube path : List ℕ) (reject : ℕ)
        (d : Decl) (looked : List (Result Row BadRow)) (epoch : ℕ) (deps : List ℕ) (shard count : ℕ)
        → IsStep step Idle (Says (Load cube path reject))
        (own_abort step epoch deps (abort.ShardFull shard count))
        → FitsItsCube run step (Load cube path reject) d → GivesRecords run step d reject looked
        → length (rejections_among looked) ≤ reject
        → IsReply run step (reply.Refused (refusal.ShardFull shard count)) }
    ensures shard_inside { (run : RunRecord) (step : SessionStep) (cube path : List ℕ) (reject : ℕ)
        (d : Decl) (looked : List (Result Row BadRow)) (writer : Snapshot) (shard count : ℕ)
        → IsStep step (Open writer) (Says (Load cube path reject))
        (open_abort step writer.epoch (abort.ShardFull shard count))
        → FitsItsCube run step (Load cube path reject) d → GivesRecords run step d reject looked
        → length (rejections_among looked) ≤ reject
        → IsReply run step (reply.Refused (refusal.ShardFull shard count)) }
{}

/// A LOAD that its file refuses: there is none, or it is too long; or one bad record more than it allows ends its own
/// transaction, or the one that is open; or the file cannot be read, which ends the one that is open and leaves of an idle
/// session a refusal alone.
pub fn files_refuse_loads()
    ensures missing { (run : RunRecord) (step : SessionStep) (mode : Mode) (cube path : List ℕ)
        (reject : ℕ) (d : Decl)
        → IsStep step mode (Says (Load cube path reject)) (lone_refusal step 8)
        → refused_by_mode mode (Load cube path reject) ≡ None
        → FitsItsCube run step (Load cube path reject) d → step.file ≡ Missing
        → IsReply run step (reply.Refused refusal.NoSuchFile) }
    ensures too_long { (run : RunRecord) (step : SessionStep) (mode : Mode) (cube path : List ℕ)
        (reject : ℕ) (d : Decl) (size : ℕ)
        → IsStep step mode (Says (Load cube path reject)) (lone_refusal step 9)
        → refused_by_mode mode (Load cube path reject) ≡ None
        → FitsItsCube run step (Load cube path reject) d → step.file ≡ TooLarge size
        → IsReply run step (reply.Refused (refusal.FileTooLong size)) }
    ensures rejected_alone { (run : RunRecord) (step : SessionStep) (cube path : List ℕ)
        (reject : ℕ) (d : Decl) (looked : List (Result Row BadRow)) (epoch : ℕ) (deps : List ℕ)
        → IsStep step Idle (Says (Load cube path reject))
        (own_abort step epoch deps abort.TooManyRejected)
        → FitsItsCube run step (Load cube path reject) d → GivesRecords run step d reject looked
        → reject < length (rejections_among looked)
        → IsReply run step
        (reply.Refused (refusal.TooManyRejected (length (rejections_among looked)) reject)) }
    ensures rejected_inside { (run : RunRecord) (step : SessionStep) (cube path : List ℕ)
        (reject : ℕ) (d : Decl) (looked : List (Result Row BadRow)) (writer : Snapshot)
        → IsStep step (Open writer) (Says (Load cube path reject))
        (open_abort step writer.epoch abort.TooManyRejected)
        → FitsItsCube run step (Load cube path reject) d → GivesRecords run step d reject looked
        → reject < length (rejections_among looked)
        → IsReply run step
        (reply.Refused (refusal.TooManyRejected (length (rejections_among looked)) reject)) }
    ensures unread_alone { (run : RunRecord) (step : SessionStep) (cube path : List ℕ) (reject : ℕ)
        (d : Decl)
        → IsStep step Idle (Says (Load cube path reject)) (lone_refusal step 11)
        → FitsItsCube run step (Load cube path reject) d
        → IsReply run step (reply.Refused refusal.ReadFault) }
    ensures unread_inside { (run : RunRecord) (step : SessionStep) (cube path : List ℕ) (reject : ℕ)
        (d : Decl) (writer : Snapshot)
        → IsStep step (Open writer) (Says (Load cube path reject))
        (open_abort step writer.epoch abort.ReadFault)
        → FitsItsCube run step (Load cube path reject) d
        → IsReply run step (reply.Refused refusal.ReadFault) }
{}

/// An INSERT, a LOAD or a DELETE for which memory runs out after its beginning ends its own transaction, or the one that is
/// open.
pub fn changes_without_memory_are_answered()
    ensures alone { (run : RunRecord) (step : SessionStep) (s : Statement) (epoch : ℕ)
        (deps : List ℕ)
        → IsStep step Idle (Says s) (own_abort step epoch deps abort.NoMemory) → is_change s ≡ true
        → IsReply run step (reply.Refused refusal.NoMemory) }
    ensures inside { (run : RunRecord) (step : SessionStep) (s : Statement) (writer : Snapshot)
        → IsStep step (Open writer) (Says s) (open_abort step writer.epoch abort.NoMemory)
        → is_change s ≡ true → IsReply run step (reply.Refused refusal.NoMemory) }
{}
