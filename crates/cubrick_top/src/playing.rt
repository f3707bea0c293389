//! The scripts of a run are played over what is kept, and the text is written.
ghost use Rattle.std.specs.Prelude.{◌≡◌, ◌+◌, ◌≤◌, ◌^◌, ℕ, List, [], Some, length, map, unwrap_or};
ghost use Rattle.std.specs.Bool.{OnTrue};
ghost use Rattle.std.specs.List.{AllByRecursion};
ghost use Rattle.script_sentences.specs.GivenTexts.{MayBeSaid};
ghost use Rattle.cube_core.specs.declared.cell.CoreCell.{CoreCell};
ghost use Rattle.cube_journal.specs.Counters.{counters};
ghost use Rattle.cube_journal.specs.WholeText.{whole_text};
ghost use Rattle.cube_language.specs.declared.piece.TheConstants.{MOST_STATEMENTS};
ghost use Rattle.kept_data.specs.KeptFiles.{IsKeptByFile};
ghost use Rattle.linked_shards.specs.declared.cell.CoreShard.{CoreShard};
ghost use Rattle.opened_core.specs.Openings.{AreCellsOver};
ghost use Rattle.run_threads.specs.CoreWorks.{KeepsRounds};
ghost use Rattle.played_runs.specs.ReadySessions.{said_in, sentences_of};
ghost use Rattle.cubrick_top.specs.KeptRuns.{HasKeptOfRecord, HasKeptOfRun};
ghost use Rattle.cubrick_top.specs.PlayedEnds.{IsLeft, LeavesNothing, OutputRises, PlayedEnds};
ghost use Rattle.cubrick_top.specs.Statuses.{status_of};
ghost use Rattle.cubrick_top.specs.Unplayed.{fault_of_full};

use crate::fault::{Fault, Finish, finish_unplayed, status_of};
use crate::writing::write_run;
use core_program::CoreSize;
use cube_values::CallError;
use flush_loop::MakesRounds;
use linked_shards::CoreShard;
use opened_core::FullShard;
use opened_store::StoreFault;
use outside::{Shelf, Sink};
use outside_disk::Gate;
use played_runs::{PlayedRun, UnplayedRun, play_run};
use run_words::Settings;
use script_sentences::Said;
use std::alloc::Global;
use std::sync::Wait;
use std::thread::Threads;
use store_reading::Kept;
use threaded_callers::ThreadStarter;

/// How a run over what is kept ended, and what it gives back.
#[derive(Drop)]
pub(crate) struct Closed<H, M> {
    pub(crate) finish: Finish,
    pub(crate) shelves: Vec<H>,
    pub(crate) maker: M,
}

// The fault of a run that no session began.
fn fault_of_full(cause: CallError<FullShard>) -> Fault
    ensures { result ≡ fault_of_full cause }
{
    match cause {
        CallError::Fault(full) => Fault::Store {
            fault: StoreFault::ShardFull {
                shard: full.shard,
                rows: full.rows,
            },
        },
        CallError::NoMemory => Fault::NoMemory,
    }
}

// Writes the text of what was played, and ends the run.
fn close_run<H: Drop, M, K: Sink>(
    alloc: Global,
    sink: &mut K,
    stored: bool,
    ran: PlayedRun<H, M>,
) -> Closed<H, M>
    requires many { length ran.replies.items ≤ 16 }
    requires few { OnTrue ran.whole
        (AllByRecursion (λ said. length said ≤ MOST_STATEMENTS) (map said_in ran.replies.items)) }
    ensures status { result.finish.status ≡ status_of result.finish.fault }
    ensures journal { result.finish.journal.items ≡ ran.journal.items }
    ensures names { result.finish.names ≡ ran.names }
    ensures shards { result.finish.shards ≡ ran.shards }
    ensures shelves { result.shelves.items ≡ ran.shelves.items }
    ensures maker { result.maker ≡ ran.maker }
    ensures output { OutputRises result.finish.fault
        (K.fault_count sink.old) (K.fault_count sink.new) }
    ensures left { (safe : ℕ) → ran.counters ≡ counters safe ran.journal.items
        → IsLeft stored ran.whole ran.journal.items ran.last_round
        (whole_text safe (map said_in ran.replies.items) ran.journal.items)
        (K.taken sink.old) (K.taken sink.new) result.finish.fault }
{
    let PlayedRun {
        replies,
        whole,
        journal,
        counters,
        names,
        shards,
        last_round,
        shelves,
        maker,
    } = ran;
    let fault = write_run(
        alloc,
        sink,
        stored,
        whole,
        replies.as_slice(),
        journal.as_slice(),
        &counters,
        last_round,
    );
    Closed {
        finish: Finish {
            status: status_of(&fault),
            fault,
            journal,
            names,
            shards,
        },
        shelves,
        maker,
    }
}

// Ends a run that no session began.
fn close_unplayed<H, M>(alloc: Global, run: UnplayedRun<H, M>) -> Closed<H, M>
    ensures fault { result.finish.fault ≡ Some (fault_of_full run.cause) }
    ensures status { result.finish.status ≡ status_of result.finish.fault }
    ensures nothing { LeavesNothing result.finish }
    ensures shelves { result.shelves.items ≡ run.shelves.items }
    ensures maker { result.maker ≡ run.maker }
{
    let UnplayedRun {
        cause,
        shelves,
        maker,
    } = run;
    Closed {
        finish: finish_unplayed(alloc, fault_of_full(cause)),
        shelves,
        maker,
    }
}

/// Plays the scripts over what is kept, and writes the text. `stored` says whether the rounds are kept in a store.
pub(crate) fn play_kept<
    R: Threads + Wait + Sync,
    H: Shelf + Send + Drop,
    M: MakesRounds<CoreShard> + Send + Drop,
    K: Sink,
    G: Gate + Sync,
>(
    rt: &R,
    alloc: Global,
    starter: ThreadStarter,
    settings: Settings,
    stored: bool,
    kept: &Kept,
    scripts: Vec<Vec<Said>>,
    shelves: Vec<H>,
    maker: M,
    gate: &G,
    sink: &mut K,
) -> Closed<H, M>
    requires kept { IsKeptByFile kept.now }
    requires small { kept.now.epoch ≤ 2 ^ 61 }
    requires some_shards { 1 ≤ settings.shards }
    requires few_shards { settings.shards ≤ 64 }
    requires some { 1 ≤ length scripts.items }
    requires few { length scripts.items ≤ 16 }
    requires said { AllByRecursion MayBeSaid scripts.items }
    requires shelves { length scripts.items ≤ length shelves.items }
    requires keeps { (cells : List (CoreCell CoreShard))
        → AreCellsOver kept.now settings.shards (length scripts.items) cells
        → KeepsRounds M.serves M.has_kept (length scripts.items) maker maker cells
        (length scripts.items + 1 + settings.shards) [] }
    ensures status { result.finish.status ≡ status_of result.finish.fault }
    ensures output { OutputRises result.finish.fault
        (K.fault_count sink.old) (K.fault_count sink.new) }
    ensures same { map H.told result.shelves.items ≡ map H.told shelves.items }
    ensures made { M.becomes maker result.maker }
    ensures ends { PlayedEnds H.told H.fault_count H.absence_count
        (λ run. HasKeptOfRecord M.has_kept maker result.maker run)
        (λ journal. HasKeptOfRun M.has_kept maker result.maker kept.now settings.shards
        (length (map sentences_of scripts.items)) journal)
        stored kept.now settings.shards
        (unwrap_or settings.round_every 0) (map sentences_of scripts.items)
        shelves.items result.shelves.items result.finish
        (K.taken sink.old) (K.taken sink.new) result.finish.fault }
{
    let size = CoreSize::new(settings.shards, scripts.len() as u32);
    match play_run(
        rt,
        alloc,
        starter,
        size,
        settings.round_every,
        kept,
        scripts,
        0,
        shelves,
        maker,
        gate,
    ) {
        Ok(ran) => close_run(alloc, sink, stored, ran),
        Err(unplayed) => close_unplayed(alloc, unplayed),
    }
}
