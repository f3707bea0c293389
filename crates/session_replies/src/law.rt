//! The replies that the entries of a statement tell, in any run and at any session.

ghost use Rattle.std.specs.Prelude.{◌≡◌, ℕ, List, [], ◌∷◌, IsSome, Some, None};
ghost use Rattle.cube_language.specs.Cubes.{schema_fault};
ghost use Rattle.cube_language.specs.Misfits.{FitsCube, HasMisfit};
ghost use Rattle.cube_language.specs.declared.cubes_fault.SchemaFault.{SchemaFault};
ghost use Rattle.cube_language.specs.declared.decl.Decl.{Decl};
ghost use Rattle.cube_language.specs.declared.misfit.Misfit.{Misfit};
ghost use Rattle.cube_language.specs.declared.statement.Statement.{Statement};
ghost use Rattle.cube_language.specs.declared.statement.Statement.TheVariants.{Begin, Commit, Rollback, Flush, Purge, ShowEpochs, CreateCube};
ghost use Rattle.cube_journal.specs.Counters.{counters};
ghost use Rattle.cube_journal.specs.Refusals.{code, of_misfit};
ghost use Rattle.cube_journal.specs.declared.journal_entry.AbortCause.TheVariants as abort;
ghost use Rattle.cube_journal.specs.declared.journal_entry.JournalEntry.{JournalEntry};
ghost use Rattle.cube_journal.specs.declared.journal_entry.JournalEntry.TheVariants as entry;
ghost use Rattle.cube_journal.specs.declared.refusal.Refusal.{Refusal};
ghost use Rattle.cube_journal.specs.declared.refusal.Refusal.TheVariants as refusal;
ghost use Rattle.cube_journal.specs.declared.reply.Reply.TheVariants as reply;
ghost use Rattle.cube_values.specs.declared.snapshot.Snapshot.{Snapshot};
ghost use Rattle.cube_run.specs.Merge.{RoundFollows};
ghost use Rattle.cube_run.specs.RunRecords.{RunRecord, Sentence, Says, SaysNone, cube_needed};
ghost use Rattle.cube_run.specs.RunText.{IsReply, state_before};
ghost use Rattle.cube_run.specs.SessionStates.{Mode, Idle, Open, Aborted};
ghost use Rattle.cube_run.specs.SessionSteps.{SessionStep, journal_before};
ghost use Rattle.cube_run.specs.StepOutcomes.{refused_by_mode, refused_by_watch};
ghost use Rattle.session_replies.specs.Modes.{round_follows};
ghost use Rattle.session_replies.specs.StepParts.{IsStep};

/// A BEGIN, a COMMIT and a ROLLBACK, each by what it leaves. A COMMIT has a round after it where one is due.
pub fn transactions_are_answered()
    ensures begun { (run : RunRecord) (step : SessionStep) (epoch : ℕ) (deps : List ℕ)
        → IsStep step Idle (Says Begin) (entry.Begin step.session step.number epoch deps ∷ [])
        → IsReply run step (reply.Begun epoch) }
    ensures committed { (run : RunRecord) (step : SessionStep) (writer : Snapshot)
        (round : List JournalEntry)
        → IsStep step (Open writer) (Says Commit)
        (entry.Committed step.session step.number writer.epoch ∷ round)
        → RoundFollows step.session step.number
        (round_follows run.round_every step.state.commits) round
        → IsReply run step (reply.Committed writer.epoch) }
    ensures rolled_back { (run : RunRecord) (step : SessionStep) (writer : Snapshot)
        → IsStep step (Open writer) (Says Rollback)
        (entry.Aborted step.session step.number writer.epoch abort.Asked ∷ [])
        → IsReply run step (reply.RolledBack writer.epoch) }
    ensures cleared { (run : RunRecord) (step : SessionStep) (epoch : ℕ)
        → IsStep step (Aborted epoch) (Says Rollback) (entry.Cleared step.session step.number ∷ [])
        → IsReply run step (reply.RolledBack epoch) }
{}

/// A FLUSH, a PURGE and a SHOW EPOCHS, in whatever mode. What FLUSH and SHOW EPOCHS tell is as it was before their first
/// entry.
pub fn requests_are_answered()
    ensures flushed { (run : RunRecord) (step : SessionStep) (mode : Mode)
        → IsStep step mode (Says Flush) (entry.Flushed step.session step.number ∷ [])
        → IsReply run step (reply.Flushed (state_before run step).lse) }
    ensures purged { (run : RunRecord) (step : SessionStep) (mode : Mode) (epoch : ℕ)
        → IsStep step mode (Says Purge) (entry.Purged step.session step.number epoch ∷ [])
        → IsReply run step (reply.Purged epoch) }
    ensures shown { (run : RunRecord) (step : SessionStep) (mode : Mode)
        → IsStep step mode (Says ShowEpochs) (entry.Show step.session step.number ∷ [])
        → IsReply run step
        (reply.Epochs (counters run.safe (journal_before step.session step.number run.journal))) }
{}

/// A CREATE CUBE, by what its declaration and the list of cubes say.
pub fn cubes_are_answered()
    ensures created { (run : RunRecord) (step : SessionStep) (d : Decl) (epoch : ℕ)
        → IsStep step Idle (Says (CreateCube d)) (entry.Cube step.session step.number epoch ∷ [])
        → schema_fault d ≡ None → IsReply run step (reply.Created epoch) }
    ensures faulty { (run : RunRecord) (step : SessionStep) (d : Decl) (fault : SchemaFault)
        → IsStep step Idle (Says (CreateCube d)) (entry.Refused step.session step.number 20 ∷ [])
        → schema_fault d ≡ Some fault → IsReply run step (reply.Refused (refusal.BadCube fault)) }
    ensures exists { (run : RunRecord) (step : SessionStep) (d : Decl)
        → IsStep step Idle (Says (CreateCube d)) (entry.Refused step.session step.number 19 ∷ [])
        → schema_fault d ≡ None → IsReply run step (reply.Refused (refusal.CubeExists d.name)) }
    ensures too_many { (run : RunRecord) (step : SessionStep) (d : Decl)
        → IsStep step Idle (Says (CreateCube d)) (entry.Refused step.session step.number 21 ∷ [])
        → schema_fault d ≡ None → IsReply run step (reply.Refused refusal.TooManyCubes) }
{}

/// A statement that leaves nothing but a Refused: for want of memory, in whatever mode; for its text; for its session's
/// mode; and because no cube has the name that it needs.
pub fn refusals_are_answered()
    ensures no_memory { (run : RunRecord) (step : SessionStep) (mode : Mode) (sentence : Sentence)
        → IsStep step mode sentence (entry.Refused step.session step.number 16 ∷ [])
        → IsReply run step (reply.Refused refusal.NoMemory) }
    ensures syntax { (run : RunRecord) (step : SessionStep) (mode : Mode) (at : ℕ)
        → IsStep step mode (SaysNone at) (entry.Refused step.session step.number 1 ∷ [])
        → IsReply run step (reply.Refused (refusal.Syntax (record { at = at }))) }
    ensures by_mode { (run : RunRecord) (step : SessionStep) (mode : Mode) (s : Statement)
        (r : Refusal)
        → IsStep step mode (Says s) (entry.Refused step.session step.number (code r) ∷ [])
        → refused_by_mode mode s ≡ Some r → IsReply run step (reply.Refused r) }
    ensures unknown { (run : RunRecord) (step : SessionStep) (mode : Mode) (s : Statement)
        (name : List ℕ)
        → IsStep step mode (Says s) (entry.Refused step.session step.number 2 ∷ [])
        → refused_by_mode mode s ≡ None → refused_by_watch step.state.watch s ≡ None
        → cube_needed s ≡ Some name → IsReply run step (reply.Refused (refusal.UnknownCube name)) }
{}
