//! From single statements to whole scripts, and from scripts to the text.

ghost use Rattle.std.specs.Prelude.{◌≡◌, ℕ, ◌+◌, List, [], ◌∷◌, ◌++◌, length};
ghost use Rattle.cube_journal.specs.declared.reply.Reply.{Reply};
ghost use Rattle.cube_journal.specs.WholeText.{whole_text};
ghost use Rattle.cube_run.specs.Merge.{IsMerge};
ghost use Rattle.cube_run.specs.RunRecords.{RunRecord, Sentence};
ghost use Rattle.cube_run.specs.RunText.{IsText};
ghost use Rattle.cube_run.specs.SessionStates.{SessionState, fresh_session};
ghost use Rattle.played_scripts.specs.PlayedRuns.{HavePlayed};
ghost use Rattle.played_scripts.specs.Promises.{IsExecuted, IsPlayed};

use crate::behind::Behind;

/// A script is played statement by statement: before the first nothing is, and a statement that is executed
/// joins those before it.
pub fn a_script_is_played_by_statements<B: Behind>()
    ensures none { (session : ℕ) (past : B) → IsPlayed B.goes_on session [] past [] fresh_session }
    ensures next { (session : ℕ) (script : List Sentence) (sentence : Sentence) (before after : B)
        (replies : List Reply) (said : Reply) (state next : SessionState)
        → IsPlayed B.goes_on session script before replies state
        → IsExecuted B.goes_on session (length script + 1) state sentence before after said next
        → IsPlayed B.goes_on session (script ++ sentence ∷ []) after (replies ++ said ∷ []) next }
{}

/// Where each session of a run has played its script to the end, the journal is a merge of the scripts, and
/// the text of the run is that of its replies.
pub fn played_scripts_make_the_text()
    ensures merge { (run : RunRecord) (replies : List (List Reply))
        → HavePlayed run replies → IsMerge run }
    ensures text { (run : RunRecord) (replies : List (List Reply))
        → HavePlayed run replies → IsText run (whole_text run.safe replies run.journal) }
{}
