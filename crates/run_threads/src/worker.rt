//! The work of a shard's worker, as that of a caller on a thread.
ghost use Rattle.std.specs.Prelude.{◌≡◌, ◌+◌, [], refl};
ghost use Rattle.run_threads.specs.CoreWorks.{MayServeShard};
ghost use Rattle.shard_work.proofs.Served.{served-none};
ghost use Rattle.shard_work.specs.Serving.{HasServed, HasServedAll, HasServedWaiting};

use board_callers::CellCaller;
use core_program::CoreSize;
use linked_shards::{CoreShard, ShardCells};
use outside_disk::Gate;
use shard_work::{serve_waiting, work};
use std::sync::Wait;
use threaded_callers::{CallerWork, StepWork};
use turn_board::Board;

/// The worker of a shard, which the gate may keep before a job.
#[derive(Drop)]
pub struct ShardWorker<'g, G> {
    pub size: CoreSize,
    pub number: u32,
    pub gate: &'g G,
}

impl<'g, G: Gate> CallerWork<ShardCells> for ShardWorker<'g, G> {
    ghost may_begin = { λ w callers cells caller.
        MayServeShard w.size.shards w.size.sessions w.number callers cells caller };

    ghost has_done = { λ before after cells caller own.
        HasServedAll caller before.number (2 + before.size.shards + before.number) [] own };

    fn work<R: Wait, P: CellCaller<ShardCells>>(
        &mut self,
        rt: &R,
        board: &Board<ShardCells>,
        caller: &mut P,
    ) {
        work::<CoreShard, R, P, G>(rt, board, caller, &self.size, self.number, self.gate);
    }
}

impl<'g, G: Gate> StepWork<ShardCells> for ShardWorker<'g, G> {
    ghost so_far = { λ before after cells caller own. (after ≡ before)
        × HasServed caller before.number (2 + before.size.shards + before.number) [] own };

    ghost has_stepped = { λ w cells caller before now. HasServedWaiting caller w.number
        (2 + w.size.shards + w.number) (w.size.sessions + 2 + w.size.shards) before now };

    fn step<R: Wait, P: CellCaller<ShardCells>>(
        &mut self,
        rt: &R,
        board: &Board<ShardCells>,
        caller: &mut P,
    ) -> bool {
        serve_waiting::<CoreShard, R, P, G>(rt, board, caller, &self.size, self.number, self.gate)
    }

    // The mails of the workers stand behind the cell of the desk, that of the names, and those of the shards.
    fn server_of(cell: u32, works: usize) -> usize {
        (cell as usize).saturating_sub(works.saturating_add(2))
    }

    ghost begun = { λ work callers cells caller may. (
      refl,
      served-none caller work.number
          (2 + work.size.shards + work.number) [] refl,
    ) };
}
