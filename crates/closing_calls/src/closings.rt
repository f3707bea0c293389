//! Main closes the mails.
ghost use Rattle.std.specs.Prelude.{◌≡◌, ◌+◌, ◌≤◌, ◌<◌, [], ◌∷◌, ◌++◌};
ghost use Rattle.core_program.specs.ClientCalls.{close_entry};
ghost use Rattle.closing_calls.specs.ClosingCalls.{MainStays, close_entries};
ghost use Rattle.core_program.specs.Knowing.{IsClientOf, IsMailAt};
ghost use Rattle.job_groups.specs.AskedEach.{AreShardMails};
ghost use Rattle.linked_shards.specs.CellShards.{CoreShardStands};
ghost use Rattle.shard_events.specs.ShardsInRuns.{FitsShard, ShardAnswerSays};
ghost use Rattle.turn_board.specs.Passes.{callers_of};

use board_callers::CellCaller;
use core_program::{CoreSize, clients_learn_by_each_call, close_mail};
use linked_shards::{CoreShard, ShardCells};
use std::sync::Wait;
use turn_board::Board;

/// Closes the flusher's mail: no session is to ask for a round any more.
pub fn close_flusher_mail<R: Wait, P: CellCaller<ShardCells>>(
    rt: &R,
    board: &Board<ShardCells>,
    caller: &mut P,
    size: &CoreSize,
)
    requires board { P.calls_on board.now caller.old }
    requires callers { size.now.sessions + 2 + size.now.shards ≤ callers_of board.now }
    requires main { P.number caller.old ≡ 0 }
    requires client { IsClientOf FitsShard CoreShardStands ShardAnswerSays (P.opening caller.old)
        0 0 }
    requires mail { IsMailAt FitsShard CoreShardStands ShardAnswerSays (P.opening caller.old)
        size.now.shards (2 + size.now.shards + size.now.shards) }
    ensures board { P.calls_on board.now caller.new }
    ensures opening { P.opening caller.new ≡ P.opening caller.old }
    ensures number { P.number caller.new ≡ P.number caller.old }
    ensures others { P.others caller.new ≡ P.others caller.old }
    ensures own { P.own caller.new ≡ P.own caller.old
        ++ close_entry 0 (2 + size.now.shards + size.now.shards) ∷ [] }
    ensures stays { MainStays (P.opening caller.old) (P.own caller.old) (P.opening caller.new)
        (P.own caller.new) }
{
    clients_learn_by_each_call::<CoreShard>();
    close_mail::<CoreShard, R, P>(rt, board, caller, size, size.shards);
}

/// Closes the mail of each shard: nobody is to ask one any more.
pub fn close_shard_mails<R: Wait, P: CellCaller<ShardCells>>(
    rt: &R,
    board: &Board<ShardCells>,
    caller: &mut P,
    size: &CoreSize,
)
    requires board { P.calls_on board.now caller.old }
    requires callers { size.now.sessions + 2 + size.now.shards ≤ callers_of board.now }
    requires main { P.number caller.old ≡ 0 }
    requires client { IsClientOf FitsShard CoreShardStands ShardAnswerSays (P.opening caller.old)
        0 0 }
    requires mails { AreShardMails FitsShard CoreShardStands ShardAnswerSays (P.opening caller.old)
        0 size.now.shards (2 + size.now.shards) }
    ensures board { P.calls_on board.now caller.new }
    ensures opening { P.opening caller.new ≡ P.opening caller.old }
    ensures number { P.number caller.new ≡ P.number caller.old }
    ensures others { P.others caller.new ≡ P.others caller.old }
    ensures own { P.own caller.new
        ≡ P.own caller.old ++ close_entries (2 + size.now.shards) size.now.shards }
    ensures stays { MainStays (P.opening caller.old) (P.own caller.old) (P.opening caller.new)
        (P.own caller.new) }
{
    clients_learn_by_each_call::<CoreShard>();
    'closings: for number in 0..size.shards {
        close_mail::<CoreShard, R, P>(rt, board, caller, size, number);
    }
}
