//! A round, asked of the flusher.
ghost use Rattle.std.specs.Prelude.{◌≡◌, ◌+◌, ◌≤◌, Option};
ghost use Rattle.core_program.specs.Knowing.{IsClientOf, IsMailAt, IsSessionOf, ServesClient};
ghost use Rattle.cube_values.specs.declared.snapshot.Snapshot.{Snapshot};
ghost use Rattle.job_groups.specs.AskedEach.{HasMore};
ghost use Rattle.session_snapshots.specs.KnownHolds.{HoldsReady, HoldsTheSame};
ghost use Rattle.linked_shards.specs.CellShards.{CoreShardStands};
ghost use Rattle.session_requests.specs.SessionRequests.{LearnsOfRound, MayNoteRound};
ghost use Rattle.shard_events.specs.ShardsInRuns.{FitsShard, ShardAnswerSays};
ghost use Rattle.turn_board.specs.Passes.{callers_of};

use crate::answers::round_answer_in;
use board_callers::CellCaller;
use core_program::{CoreSize, fetch_answer, post_job};
use cube_core::{FlushAnswer, Job, Work};
use linked_shards::{CoreShard, ShardCells};
use std::sync::Wait;
use turn_board::Board;

/// Asks the flusher for a round and waits until it has ended. Whatever the session holds, it then
/// holds the same, and may note a round that was done, or refuse as 17 one that was lost to the disk.
pub fn ask_flush<R: Wait, P: CellCaller<ShardCells>>(
    rt: &R,
    board: &Board<ShardCells>,
    caller: &mut P,
    size: &CoreSize,
    session: u32,
    statement: u32,
) -> FlushAnswer
    requires board { P.calls_on board.now caller.old }
    requires callers { size.now.sessions + 2 + size.now.shards ≤ callers_of board.now }
    requires client { IsClientOf FitsShard CoreShardStands ShardAnswerSays (P.opening caller.old)
        (P.number caller.old) session }
    requires session { IsSessionOf FitsShard CoreShardStands ShardAnswerSays (P.opening caller.old)
        session }
    requires mail { IsMailAt FitsShard CoreShardStands ShardAnswerSays (P.opening caller.old)
        size.now.shards (2 + size.now.shards + size.now.shards) }
    requires serves { ServesClient FitsShard CoreShardStands ShardAnswerSays (P.opening caller.old)
        session size.now.shards }
    requires ready { (held : Option Snapshot) × HoldsReady FitsShard CoreShardStands
        ShardAnswerSays (P.opening caller.old) (P.number caller.old) session (P.own caller.old)
        held }
    ensures board { P.calls_on board.now caller.new }
    ensures opening { P.opening caller.new ≡ P.opening caller.old }
    ensures number { P.number caller.new ≡ P.number caller.old }
    ensures others { P.others caller.new ≡ P.others caller.old }
    ensures more { HasMore (P.own caller.old) (P.own caller.new) }
    ensures learns { LearnsOfRound (P.opening caller.old) (P.number caller.old) session result
        (P.own caller.old) (P.own caller.new) }
    ensures same { HoldsTheSame FitsShard CoreShardStands ShardAnswerSays session
        (P.opening caller.old) (P.number caller.old) (P.own caller.old) (P.opening caller.new)
        (P.number caller.new) (P.own caller.new) }
    ensures notes { MayNoteRound (P.opening caller.new) (P.number caller.new) session
        (P.own caller.new) result }
{
    let job = Job {
        session,
        statement,
        work: Work::Flush,
    };
    post_job::<CoreShard, R, P>(rt, board, caller, size, session, size.shards, job, true);
    round_answer_in(fetch_answer::<CoreShard, R, P>(rt, board, caller, size, session, size.shards))
}
