//! The replies that the entries of a SELECT tell, and those of a statement that does not fit its cube, in any run and at any
//! session.

ghost use Rattle.std.specs.Prelude.{◌≡◌, ℕ, true, [], ◌++◌, None};
ghost use Rattle.cube_values.specs.Answer.{answer};
ghost use Rattle.cube_values.specs.First.{first_rows};
ghost use Rattle.cube_values.specs.Visible.{visible_rows};
ghost use Rattle.cube_values.specs.declared.snapshot.Snapshot.{Snapshot};
ghost use Rattle.cube_language.specs.Misfits.{HasMisfit};
ghost use Rattle.cube_language.specs.ResolvedNames.{resolved_plan, resolved_query};
ghost use Rattle.cube_language.specs.declared.decl.Decl.{Decl};
ghost use Rattle.cube_language.specs.declared.misfit.Misfit.{Misfit};
ghost use Rattle.cube_language.specs.declared.statement.Statement.{Statement};
ghost use Rattle.cube_journal.specs.Refusals.{code, of_misfit};
ghost use Rattle.cube_journal.specs.declared.refusal.Refusal.TheVariants as refusal;
ghost use Rattle.cube_journal.specs.declared.reply.Reply.TheVariants as reply;
ghost use Rattle.cube_run.specs.RunRecords.{RunRecord, Says, script_of};
ghost use Rattle.cube_run.specs.RunText.{IsReply, reader_of};
ghost use Rattle.cube_run.specs.RunTransactions.{run_transactions, transactions_inside};
ghost use Rattle.cube_run.specs.SessionStates.{Mode, Idle, Open};
ghost use Rattle.cube_run.specs.SessionSteps.{SessionStep};
ghost use Rattle.cube_run.specs.StatementEntries.{is_select};
ghost use Rattle.cube_run.specs.StepOutcomes.{refused_by_mode, refused_by_watch};
ghost use Rattle.session_replies.specs.RowEntries.{lone_refusal, own_reading};
ghost use Rattle.session_replies.specs.RowSteps.{FitsItsCube, IsOnCube};
ghost use Rattle.session_replies.specs.StepParts.{IsStep};

/// A SELECT that fits its cube is answered over what a reader of its own sees, or over what the transaction that is open has so
/// far. Where memory runs out after its reader was opened, that is closed.
pub fn selects_are_answered()
    ensures alone { (run : RunRecord) (step : SessionStep) (s : Statement) (d : Decl) (epoch : ℕ)
        → IsStep step Idle (Says s) (own_reading step epoch) → is_select s ≡ true
        → FitsItsCube run step s d
        → IsReply run step
        (reply.Rows epoch
        (first_rows (resolved_plan s)
        (answer (resolved_query d s) (visible_rows (reader_of epoch) (run_transactions run))))) }
    ensures inside { (run : RunRecord) (step : SessionStep) (s : Statement) (d : Decl)
        (writer : Snapshot)
        → IsStep step (Open writer) (Says s) [] → is_select s ≡ true → FitsItsCube run step s d
        → IsReply run step
        (reply.Rows writer.epoch
        (first_rows (resolved_plan s)
        (answer (resolved_query d s)
        (visible_rows writer
        (transactions_inside run step.session
        (script_of run step.session) step.number writer.epoch))))) }
    ensures no_memory { (run : RunRecord) (step : SessionStep) (s : Statement) (epoch : ℕ)
        → IsStep step Idle (Says s) (own_reading step epoch ++ lone_refusal step 16)
        → is_select s ≡ true → IsReply run step (reply.Refused refusal.NoMemory) }
{}

/// A statement that neither its session's mode nor its watch refuses, and that fails a test on its cube, is refused for the
/// first one that it fails.
pub fn misfits_are_answered()
    ensures { (run : RunRecord) (step : SessionStep) (mode : Mode) (s : Statement) (d : Decl)
        (misfit : Misfit)
        → IsStep step mode (Says s) (lone_refusal step (code (of_misfit misfit)))
        → refused_by_mode mode s ≡ None → refused_by_watch step.state.watch s ≡ None
        → IsOnCube run step s d → HasMisfit d s misfit
        → IsReply run step (reply.Refused (of_misfit misfit)) }
{}
