//! Main has every shard purge.
ghost use Rattle.std.specs.Prelude.{◌≡◌, ◌+◌, ◌≤◌, [], ◌∷◌, ◌++◌};
ghost use Rattle.core_program.specs.ClientCalls.{desk_entry};
ghost use Rattle.closing_calls.specs.ClosingCalls.{HasPurgedAll, MainIsReady, MainKnows, MainStays};
ghost use Rattle.core_program.specs.Knowing.{IsClientOf};
ghost use Rattle.core_cells.specs.declared.desk.DeskAnswer.TheVariants as answer;
ghost use Rattle.core_cells.specs.declared.desk.DeskCall.TheVariants as desk;
ghost use Rattle.cube_core.specs.declared.shard.ShardCall.TheVariants as call;
ghost use Rattle.job_groups.specs.AskedEach.{AreShardMails};
ghost use Rattle.linked_shards.specs.CellShards.{CoreShardStands};
ghost use Rattle.session_groups.specs.ShardGroups.{HasAskedAll};
ghost use Rattle.session_requests.specs.SessionRequests.{KnowsSafe};
ghost use Rattle.shard_events.specs.ShardsInRuns.{FitsShard, ShardAnswerSays};
ghost use Rattle.turn_board.specs.Passes.{callers_of};

use crate::counters::read_run_counters;
use board_callers::CellCaller;
use core_program::{CoreSize, clients_learn_by_each_call, fetch_answer, post_job};
use cube_core::{Job, ShardCall, Work};
use cube_journal::Counters;
use linked_shards::{CoreShard, ShardCells};
use std::sync::Wait;
use turn_board::Board;

/// Has each shard purge up to LSE, as the counters show it that it then answers.
pub fn purge_up_to_lse<R: Wait, P: CellCaller<ShardCells>>(
    rt: &R,
    board: &Board<ShardCells>,
    caller: &mut P,
    size: &CoreSize,
) -> Counters
    requires board { P.calls_on board.now caller.old }
    requires callers { size.now.sessions + 2 + size.now.shards ≤ callers_of board.now }
    requires some { 1 ≤ size.now.shards }
    requires main { P.number caller.old ≡ 0 }
    requires client { IsClientOf FitsShard CoreShardStands ShardAnswerSays (P.opening caller.old)
        0 0 }
    requires mails { AreShardMails FitsShard CoreShardStands ShardAnswerSays (P.opening caller.old)
        0 size.now.shards (2 + size.now.shards) }
    requires ready { MainIsReady (P.opening caller.old) (P.own caller.old) }
    ensures board { P.calls_on board.now caller.new }
    ensures opening { P.opening caller.new ≡ P.opening caller.old }
    ensures number { P.number caller.new ≡ P.number caller.old }
    ensures others { P.others caller.new ≡ P.others caller.old }
    ensures asked { HasAskedAll (P.opening caller.old) 0 0 size.now.shards (call.Purge result.lse)
        (P.own caller.old ++ desk_entry 0 desk.Counters (answer.Counted result) ∷ [])
        (P.own caller.new) }
    ensures purged { MainKnows (P.opening caller.new) (P.own caller.new)
        (HasPurgedAll result.lse) }
    ensures stays { MainStays (P.opening caller.old) (P.own caller.old) (P.opening caller.new)
        (P.own caller.new) }
{
    let counters = read_run_counters(rt, board, caller);
    purge_all(rt, board, caller, size, counters.lse);
    counters
}

/// Has each shard purge up to an epoch that main was told of as LSE, and waits for the answer of each. It
/// takes no memory, and no shard refuses.
pub fn purge_all<R: Wait, P: CellCaller<ShardCells>>(
    rt: &R,
    board: &Board<ShardCells>,
    caller: &mut P,
    size: &CoreSize,
    epoch: u64,
)
    requires board { P.calls_on board.now caller.old }
    requires callers { size.now.sessions + 2 + size.now.shards ≤ callers_of board.now }
    requires some { 1 ≤ size.now.shards }
    requires main { P.number caller.old ≡ 0 }
    requires client { IsClientOf FitsShard CoreShardStands ShardAnswerSays (P.opening caller.old)
        0 0 }
    requires mails { AreShardMails FitsShard CoreShardStands ShardAnswerSays (P.opening caller.old)
        0 size.now.shards (2 + size.now.shards) }
    requires ready { MainIsReady (P.opening caller.old) (P.own caller.old) }
    requires safe { KnowsSafe (P.opening caller.old) 0 0 (P.own caller.old) epoch }
    ensures board { P.calls_on board.now caller.new }
    ensures opening { P.opening caller.new ≡ P.opening caller.old }
    ensures number { P.number caller.new ≡ P.number caller.old }
    ensures others { P.others caller.new ≡ P.others caller.old }
    ensures asked { HasAskedAll (P.opening caller.old) 0 0 size.now.shards (call.Purge epoch)
        (P.own caller.old) (P.own caller.new) }
    ensures purged { MainKnows (P.opening caller.new) (P.own caller.new) (HasPurgedAll epoch) }
    ensures stays { MainStays (P.opening caller.old) (P.own caller.old) (P.opening caller.new)
        (P.own caller.new) }
{
    clients_learn_by_each_call::<CoreShard>();
    'posts: for number in 0..size.shards {
        let job = Job {
            session: 0,
            statement: 0,
            work: Work::Shard(ShardCall::Purge { epoch }),
        };
        post_job::<CoreShard, R, P>(rt, board, caller, size, 0, number, job, true);
    }
    'fetches: for number in 0..size.shards {
        let _ = fetch_answer::<CoreShard, R, P>(rt, board, caller, size, 0, number);
    }
}
