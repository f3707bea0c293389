//! The law of the end of all scripts.

ghost use Rattle.std.specs.Prelude.{ℕ, List};
ghost use Rattle.core_events.specs.Events.{CoreEvent, Opening};
ghost use Rattle.core_program.specs.CoreFits.{CoreEntry};
ghost use Rattle.cube_core.specs.declared.cell.CoreCell.{CoreCell};
ghost use Rattle.cube_journal.specs.declared.reply.Reply.{Reply};
ghost use Rattle.cube_run.specs.RunRecords.{Sentence};
ghost use Rattle.scripted_ends.specs.PlayedHistories.{HaveAllPlayed, IsPlayedRun, IsRunOfHistory};

use cube_core::LinkedShard;
use scripted_pasts::KnowsFiles;

/// Where a history is a run of the core, and each session has played its script to the end by its own calls, the run is
/// on record with these scripts and the files that they had: its journal is a legal merge of the scripts, and its text
/// is that of the sessions' replies and of the journal.
pub fn scripts_end_in_a_run<S: LinkedShard, F: KnowsFiles>()
    ensures { (known : ℕ → F) (cells : List (CoreCell S)) (o : Opening) (log : List CoreEntry)
        (events : List CoreEvent) (every : ℕ) (scripts : List (List Sentence))
        (replies : List (List Reply))
        → IsRunOfHistory S.fits S.stands S.says cells o log events
        → HaveAllPlayed S.fits S.stands S.says cells o log
        (λ session. F.is_file (known session)) every scripts replies
        → IsPlayedRun (λ session. F.is_file (known session)) every scripts replies o events }
{}
