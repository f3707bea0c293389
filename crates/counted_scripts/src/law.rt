//! Which replies tell of files, and what all replies of a session tell of its shelf.

ghost use Rattle.std.specs.Prelude.{◌≡◌, ℕ, true, List, []};
ghost use Rattle.std.specs.List.{AllZip};
ghost use Rattle.cube_journal.specs.declared.refusal.Refusal.TheVariants as refusal;
ghost use Rattle.cube_journal.specs.declared.reply.Reply.{Reply};
ghost use Rattle.cube_journal.specs.declared.reply.Reply.TheVariants as reply;
ghost use Rattle.cube_run.specs.RunRecords.{RunRecord, Sentence, script_of};
ghost use Rattle.cube_run.specs.RunText.{IsReply};
ghost use Rattle.cube_run.specs.SessionSteps.{SessionStep, steps_of};
ghost use Rattle.cube_run.specs.StepOutcomes.{is_load};
ghost use Rattle.counted_scripts.specs.CountedLoads.{CountsInTurn};
ghost use Rattle.counted_scripts.specs.RepliesOfSessions.{replies_of_session};
ghost use Rattle.loaded_files.specs.CountedReplies.{
  CountsAbsence,
  CountsEach,
  CountsFault,
  GainsReplies,
};
ghost use Rattle.played_scripts.specs.PlayedRuns.{HavePlayed};

/// Only a LOAD is answered that its file is not there or could not be read.
pub fn only_loads_fail_by_files()
    ensures fault { (run : RunRecord) (step : SessionStep)
        → IsReply run step (reply.Refused refusal.ReadFault) → is_load step.sentence ≡ true }
    ensures absence { (run : RunRecord) (step : SessionStep)
        → IsReply run step (reply.Refused refusal.NoSuchFile) → is_load step.sentence ≡ true }
{}

/// Where the counts of a session's shelf go on by the LOADs of its script, they go on as its replies alone
/// show; and so in each session of a run whose sessions have played their scripts to the end.
pub fn replies_tell_the_counts()
    ensures faults { (run : RunRecord) (session : ℕ) (script : List Sentence) (replies : List Reply)
        (faults new_faults : ℕ)
        → AllZip (IsReply run) (steps_of run session script) replies
        → CountsInTurn CountsFault script replies faults new_faults
        → CountsEach CountsFault replies faults new_faults }
    ensures absences { (run : RunRecord) (session : ℕ) (script : List Sentence) (replies : List Reply)
        (absences new_absences : ℕ)
        → AllZip (IsReply run) (steps_of run session script) replies
        → CountsInTurn CountsAbsence script replies absences new_absences
        → CountsEach CountsAbsence replies absences new_absences }
    ensures gained { (run : RunRecord) (session : ℕ) (script : List Sentence) (replies : List Reply)
        (faults new_faults absences new_absences : ℕ)
        → AllZip (IsReply run) (steps_of run session script) replies
        → CountsInTurn CountsFault script replies faults new_faults
        → CountsInTurn CountsAbsence script replies absences new_absences
        → GainsReplies [] replies faults new_faults absences new_absences }
    ensures each { (run : RunRecord) (replies : List (List Reply)) (session : ℕ)
        (faults new_faults absences new_absences : ℕ)
        → HavePlayed run replies
        → CountsInTurn CountsFault (script_of run session) (replies_of_session replies session)
        faults new_faults
        → CountsInTurn CountsAbsence (script_of run session) (replies_of_session replies session)
        absences new_absences
        → GainsReplies [] (replies_of_session replies session) faults new_faults absences
        new_absences }
{}
