//! The law of scripts that were played on threads.
ghost use Rattle.std.specs.Prelude.{◌≡◌, ℕ, true, List, map};
ghost use Rattle.core_events.specs.Events.{Opening};
ghost use Rattle.core_program.specs.CoreFits.{OpensCells};
ghost use Rattle.core_scripts.specs.ScriptWorks.{HasPlayedOut, script_in};
ghost use Rattle.core_scripts.specs.declared.work.ScriptWork.{ScriptWork};
ghost use Rattle.cube_core.specs.declared.cell.CoreCell.{CoreCell};
ghost use Rattle.cube_rounds.specs.Stands.{Kept};
ghost use Rattle.kept_data.specs.KeptFiles.{IsKeptByFile};
ghost use Rattle.linked_shards.specs.CellShards.{CoreShardStands};
ghost use Rattle.linked_shards.specs.declared.cell.CoreShard.{CoreShard};
ghost use Rattle.opened_core.specs.Openings.{AreCellsOver, OpenOver};
ghost use Rattle.shard_events.specs.ShardsInRuns.{FitsShard, ShardAnswerSays};
ghost use Rattle.scripted_ends.specs.PlayedHistories.{IsPlayedRun};
ghost use Rattle.threaded_core.specs.RanCores.{HasRunOnThreads};
ghost use Rattle.threaded_core.specs.declared.cores.RanCore.{RanCore};
ghost use Rattle.core_scripts.specs.ScriptsOnThreads.{AreOfSessions, AreShelvesOf, AreWhole, files_of_shelves, replies_in};

use crate::told_files::FromShelf;
use flush_loop::MakesRounds;
use linked_shards::CoreShard;
use opened_callers::an_opened_core_knows_its_callers;
use opened_rows::an_opened_core_opens_with_its_cubes;
use outside::Shelf;
use scripted_ends::scripts_end_in_a_run;

/// Where a core over what a file keeps ran on threads, the works of its sessions began, and each was played to its end,
/// then, however a run opens with the core's cells, the run that the one history of all calls is has played the scripts of
/// all sessions: its journal is a legal merge of the scripts, and its text is that of the replies and of the journal. The
/// files of each session are as its own shelf tells them.
pub fn scripts_on_threads_end_in_a_run<H: Shelf, G, M: MakesRounds<CoreShard>>()
    ensures { (kept : Kept) (shards sessions every : ℕ) (cells : List (CoreCell CoreShard))
        (works : List (ScriptWork H G)) (shelves : ℕ → H) (maker : M)
        (ran : RanCore (ScriptWork H G) M) → IsKeptByFile kept
        → AreCellsOver kept shards sessions cells → OpenOver kept shards sessions cells
        → AreOfSessions sessions every works → AreShelvesOf sessions works shelves
        → (h : HasRunOnThreads (HasPlayedOut H.told H.fault_count H.absence_count) M.serves
        M.has_kept M.becomes shards sessions cells works maker ran)
        → ran.began ≡ true → AreWhole sessions ran.sessions.items → (o : Opening)
        → (opens : OpensCells FitsShard CoreShardStands ShardAnswerSays o cells h.log)
        → IsPlayedRun (files_of_shelves H.told shelves) every (map script_in works)
        (map replies_in ran.sessions.items) o (h.runs o opens).to.es }
{
    an_opened_core_knows_its_callers();
    an_opened_core_opens_with_its_cubes();
    scripts_end_in_a_run::<CoreShard, FromShelf<H>>();
}
