//! Main's work: it closes the mails, and where the sessions had begun it has the shards purge before.
ghost use Rattle.std.specs.Prelude.{◌≡◌, ◌+◌, ◌≤◌, [], ◌∷◌, ◌++◌};
ghost use Rattle.closing_calls.specs.ClosingCalls.{MainIsReady};
ghost use Rattle.core_program.specs.Knowing.{IsClientOf};
ghost use Rattle.job_groups.specs.AskedEach.{AreShardMails};
ghost use Rattle.linked_shards.specs.CellShards.{CoreShardStands};
ghost use Rattle.run_threads.specs.CoreWorks.{HasClosedFlusher, HasClosedShards, MayClose, PurgesAtEnd};
ghost use Rattle.shard_events.specs.ShardsInRuns.{FitsShard, ShardAnswerSays};
ghost use Rattle.turn_board.specs.Passes.{callers_of};

use board_callers::CellCaller;
use closing_calls::{close_flusher_mail, close_shard_mails, main_begins_ready, purge_up_to_lse};
use core_program::CoreSize;
use cube_journal::Counters;
use linked_shards::ShardCells;
use std::sync::Wait;
use threaded_callers::MainWork;
use turn_board::Board;

/// Main, and the counters of the desk up to whose LSE the shards purged at the end. None: no session had
/// begun, or none has ended yet.
#[derive(Drop)]
pub struct ClosingMain {
    pub size: CoreSize,
    pub counters: Option<Counters>,
}

impl MainWork<ShardCells> for ClosingMain {
    ghost may_begin = { λ w callers cells. MayClose w.size.shards w.size.sessions callers cells };

    ghost has_stopped = { λ before after callers cells own.
        HasClosedFlusher before.size.shards before.size.sessions callers cells own
        × (after ≡ before) };

    ghost has_ended = { λ before after cells began own now.
        HasClosedShards before.size.shards began after.counters cells own now };

    fn stop_flusher<R: Wait, P: CellCaller<ShardCells>>(
        &mut self,
        rt: &R,
        board: &Board<ShardCells>,
        caller: &mut P,
    ) {
        main_begins_ready();
        close_flusher_mail(rt, board, caller, &self.size);
    }

    fn stop_workers<R: Wait, P: CellCaller<ShardCells>>(
        &mut self,
        rt: &R,
        board: &Board<ShardCells>,
        caller: &mut P,
        began: bool,
    ) {
        self.counters = purge_where(rt, board, caller, &self.size, began);
        close_shard_mails(rt, board, caller, &self.size);
    }
}

// Has the shards purge up to the LSE that main then reads, where the sessions had begun.
fn purge_where<R: Wait, P: CellCaller<ShardCells>>(
    rt: &R,
    board: &Board<ShardCells>,
    caller: &mut P,
    size: &CoreSize,
    began: bool,
) -> Option<Counters>
    requires board { P.calls_on board.now caller.old }
    requires callers { size.now.sessions + 2 + size.now.shards ≤ callers_of board.now }
    requires some { 1 ≤ size.now.shards }
    requires main { P.number caller.old ≡ 0 }
    requires client { IsClientOf FitsShard CoreShardStands ShardAnswerSays (P.opening caller.old)
        0 0 }
    requires mails { AreShardMails FitsShard CoreShardStands ShardAnswerSays (P.opening caller.old)
        0 size.now.shards (2 + size.now.shards) }
    requires ready { MainIsReady (P.opening caller.old) (P.own caller.old) }
    ensures board { P.calls_on board.now caller.new }
    ensures opening { P.opening caller.new ≡ P.opening caller.old }
    ensures number { P.number caller.new ≡ P.number caller.old }
    ensures others { P.others caller.new ≡ P.others caller.old }
    ensures purges { PurgesAtEnd size.now.shards (P.opening caller.old) began result
        (P.own caller.old) (P.own caller.new) }
{
    if began {
        Some(purge_up_to_lse(rt, board, caller, size))
    } else {
        None
    }
}
