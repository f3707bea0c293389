//! The work of the flusher, as that of a caller on a thread.
ghost use Rattle.run_threads.specs.CoreWorks.{HasFlushedAll, MayFlush};

use board_callers::CellCaller;
use core_program::CoreSize;
use flush_loop::{MakesRounds, RoundResult, flush_loop};
use flusher_mail::the_flusher_begins_free;
use linked_shards::{CoreShard, ShardCells};
use std::sync::Wait;
use threaded_callers::CallerWork;
use turn_board::Board;

/// The flusher, with what makes its rounds, and how the last round of the run ended. None: a round was
/// lost to the disk before, or none was made yet.
#[derive(Drop)]
pub struct FlusherWork<M> {
    pub size: CoreSize,
    pub maker: M,
    pub last_round: Option<RoundResult>,
}

impl<M: MakesRounds<CoreShard>> CallerWork<ShardCells> for FlusherWork<M> {
    ghost may_begin = { λ w callers cells caller. MayFlush M.serves M.has_kept w.size.shards
        w.size.sessions w.maker callers cells caller };

    ghost has_done = { λ before after cells caller own. HasFlushedAll M.serves M.has_kept M.becomes
        before.size.shards before.size.sessions before.maker after.maker after.last_round cells
        caller own };

    fn work<R: Wait, P: CellCaller<ShardCells>>(
        &mut self,
        rt: &R,
        board: &Board<ShardCells>,
        caller: &mut P,
    ) {
        the_flusher_begins_free::<CoreShard>();
        let last = flush_loop::<CoreShard, R, P, M>(rt, board, caller, &self.size, &mut self.maker);
        self.last_round = last;
    }
}
