//! Scripts that are played by sessions of a core on threads.
ghost use Rattle.std.specs.Prelude.{◌≡◌, ◌+◌, ◌≤◌, [], IfErr, IfOk, IsTrue, length};
ghost use Rattle.run_threads.specs.CoreWorks.{KeepsRounds};
ghost use Rattle.threaded_callers.specs.Starts.{HaveThreads};
ghost use Rattle.threaded_core.specs.RanCores.{IsAsItWas};
ghost use Rattle.core_scripts.specs.GivenScripts.{AreCellsOfCore, AreReadyWorks, HavePlayedOnThreads};

use crate::on_record::scripts_on_threads_end_in_a_run;
use crate::serving::an_opened_core_serves_its_sessions;
use crate::work::ScriptWork;
use core_program::CoreSize;
use cube_core::CoreCell;
use flush_loop::MakesRounds;
use linked_shards::CoreShard;
use outside::Shelf;
use outside_disk::Gate;
use std::alloc::Global;
use std::sync::Wait;
use std::thread::Threads;
use threaded_callers::ThreadStarter;
use threaded_core::{RanCore, ReadyCore, run_core};

/// Plays the scripts of all sessions on threads by their works, over a core with these cells: each session on a thread of
/// its own, beside a worker for each shard and the flusher. The only error is want of memory, before any session began; the
/// core is then as it was, with the works and with what makes the rounds.
pub fn play_on_threads<
    'g,
    R: Threads + Wait + Sync,
    H: Shelf + Send + Drop,
    M: MakesRounds<CoreShard> + Send + Drop,
    G: Gate + Sync,
>(
    rt: &R,
    alloc: Global,
    starter: ThreadStarter,
    size: CoreSize,
    cells: Vec<CoreCell<CoreShard>>,
    works: Vec<ScriptWork<'g, H, G>>,
    maker: M,
    gate: &'g G,
) -> Result<RanCore<ScriptWork<'g, H, G>, M>, ReadyCore<ScriptWork<'g, H, G>, M>>
    requires some { 1 ≤ size.shards }
    requires core { AreCellsOfCore size.shards size.sessions cells.items }
    requires as_many { length works.items ≡ size.sessions }
    requires works { AreReadyWorks size 1 works.items }
    requires keeps { KeepsRounds M.serves M.has_kept size.sessions maker maker cells.items
        (size.sessions + 1 + size.shards) [] }
    ensures threads { IfOk result
        (λ ran. HaveThreads (1 + size.shards) ran.began starter ran.starter) }
    ensures first { IfOk result (λ ran. IsTrue ran.began → IsTrue ran.flushed) }
    ensures played { IfOk result (HavePlayedOnThreads H.told H.fault_count H.absence_count M.serves
        M.has_kept M.becomes size cells.items works.entry.items maker) }
    ensures as_it_was { IfErr result (IsAsItWas (record {
      size = size;
      cells = cells;
      sessions = works.entry;
      maker = maker;
    })) }
{
    an_opened_core_serves_its_sessions();
    scripts_on_threads_end_in_a_run::<H, G, M>();
    let core = ReadyCore {
        size,
        cells,
        sessions: works,
        maker,
    };
    run_core(rt, alloc, starter, core, gate)
}
