//! The law of what a run leaves.
ghost use Rattle.std.specs.Prelude.{◌≡◌, ◌≤◌, ℕ, Bool, List, length};
ghost use Rattle.std.specs.Bool.{OnTrue};
ghost use Rattle.std.specs.List.{AllByRecursion};
ghost use Rattle.core_records.specs.CoreRecords.{record_of};
ghost use Rattle.core_scripts.specs.ToldFiles.{ShelfTold, files_told};
ghost use Rattle.core_events.specs.Events.{CoreEvent};
ghost use Rattle.core_program.specs.CoreFits.{CoreEntry};
ghost use Rattle.cube_journal.specs.declared.reply.Reply.{Reply};
ghost use Rattle.cube_language.specs.declared.piece.TheConstants.{MOST_STATEMENTS};
ghost use Rattle.cube_rounds.specs.Stands.{Kept};
ghost use Rattle.cube_run.specs.RunRecords.{Sentence};
ghost use Rattle.kept_data.specs.KeptFiles.{IsKeptByFile};
ghost use Rattle.opened_core.specs.Openings.{opening_over};
ghost use Rattle.run_threads.specs.CoreWorks.{OpeningCells};
ghost use Rattle.scripted_ends.specs.PlayedHistories.{IsPlayedRun};
ghost use Rattle.threaded_core.specs.CoreParts.{IsLeftByRun};
ghost use Rattle.threaded_core.specs.declared.cores.CoreLeft.{CoreLeft};
ghost use Rattle.played_runs.specs.RunsOnRecord.{EndsSafe, IsOnRecord, LeavesLegal, told_to};

use core_records::dictionaries_are_on_record;
use core_serial::journals_are_legal;
use kept_data::{kept_data_are_sound, kept_names_are_found};

/// A run over what a file keeps that leaves this has left a legal journal. Where it is on record with scripts
/// that were played and with their replies, that is just the run of these scripts over what is kept: its journal
/// is a merge of them, its text is that of the replies and of the journal, and the dictionaries that are left fit
/// it. Where it ended with all safe as it is on record, so it did as the run over what is kept. What is left
/// counts from the kept epoch on. No session has more replies than a script may have statements, if no script
/// has more.
pub fn what_is_left_is_on_record()
    ensures legal { (kept : Kept) (shards sessions : ℕ) (cells : OpeningCells)
        (log : List CoreEntry) (left : CoreLeft)
        → IsLeftByRun (opening_over kept shards sessions log) log cells left
        → LeavesLegal kept left.desk.register.journal }
    ensures safe { (kept : Kept) (shards sessions : ℕ) (cells : OpeningCells)
        (log : List CoreEntry) (left : CoreLeft)
        → IsLeftByRun (opening_over kept shards sessions log) log cells left
        → left.desk.register.safe ≡ kept.epoch }
    ensures run { (kept : Kept) (shards sessions every : ℕ) (cells : OpeningCells)
        (log : List CoreEntry) (left : CoreLeft) (tells : List ShelfTold)
        (scripts : List (List Sentence)) (replies : List (List Reply)) → IsKeptByFile kept
        → (l : IsLeftByRun (opening_over kept shards sessions log) log cells left)
        → length scripts ≡ sessions
        → (p : IsPlayedRun (λ session. files_told (told_to tells session)) every scripts replies
        (opening_over kept shards sessions log) l.to.es) → (saved : Bool)
        → OnTrue saved (EndsSafe (record_of (opening_over kept shards sessions log) p.given l.to.es)
        left.shards.items)
        → IsOnRecord kept every tells scripts replies left.names left.desk.register.journal saved
        left.shards.items (record_of (opening_over kept shards sessions log) p.given l.to.es) }
    ensures few { (kept : Kept) (shards sessions every : ℕ) (log : List CoreEntry)
        (tells : List ShelfTold) (scripts : List (List Sentence)) (replies : List (List Reply))
        (es : List CoreEvent)
        → IsPlayedRun (λ session. files_told (told_to tells session)) every scripts replies
        (opening_over kept shards sessions log) es
        → AllByRecursion (λ script. length script ≤ MOST_STATEMENTS) scripts
        → AllByRecursion (λ said. length said ≤ MOST_STATEMENTS) replies }
{
    dictionaries_are_on_record();
    journals_are_legal();
    kept_data_are_sound();
    kept_names_are_found();
}
