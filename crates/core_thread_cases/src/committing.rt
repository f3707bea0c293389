//! The work of a session that commits, and asks for a round.
ghost use Rattle.std.specs.Prelude.{◌≡◌, []};
ghost use Rattle.core_thread_cases.specs.Sessions.{MayAskRounds, committer_may};
ghost use Rattle.cube_values.specs.declared.snapshot.Snapshot.{Snapshot};
ghost use Rattle.linked_shards.specs.CellShards.{CoreShardStands};
ghost use Rattle.session_snapshots.specs.KnownHolds.{HoldsWriter};
ghost use Rattle.shard_events.specs.ShardsInRuns.{FitsShard, ShardAnswerSays};
ghost use Rattle.turn_board.specs.Passes.{callers_of};

use board_callers::CellCaller;
use core_program::CoreSize;
use cube_core::FlushAnswer;
use linked_shards::{CoreShard, ShardCells};
use session_requests::ask_flush;
use session_snapshots::{commit, open_writer, sessions_begin_with_nothing};
use std::sync::Wait;
use threaded_callers::CallerWork;
use turn_board::Board;

/// A session, and whether its transaction was committed and a round was then made.
#[derive(Drop)]
pub(crate) struct Committer {
    pub(crate) size: CoreSize,
    pub(crate) session: u32,
    pub(crate) done: bool,
}

impl CallerWork<ShardCells> for Committer {
    ghost may_begin = { committer_may };

    ghost has_done = { λ before after cells caller own. Unit {0} };

    fn work<R: Wait, P: CellCaller<ShardCells>>(
        &mut self,
        rt: &R,
        board: &Board<ShardCells>,
        caller: &mut P,
    ) {
        self.done = commit_and_flush(rt, board, caller, &self.size, self.session);
    }
}

// Opens a writer and commits it, and asks for a round. False: memory ran out.
fn commit_and_flush<R: Wait, P: CellCaller<ShardCells>>(
    rt: &R,
    board: &Board<ShardCells>,
    caller: &mut P,
    size: &CoreSize,
    session: u32,
) -> bool
    requires board { P.calls_on board.now caller.old }
    requires fresh { P.own caller.old ≡ [] }
    requires number { P.number caller.old ≡ session }
    requires may { MayAskRounds size.now.shards size.now.sessions (callers_of board.now)
        (P.opening caller.old) session }
    ensures board { P.calls_on board.now caller.new }
    ensures opening { P.opening caller.new ≡ P.opening caller.old }
    ensures number { P.number caller.new ≡ P.number caller.old }
    ensures others { P.others caller.new ≡ P.others caller.old }
{
    sessions_begin_with_nothing::<CoreShard>();
    match open_writer::<CoreShard, R, P>(rt, board, caller, session, 1) {
        Some(_) => end_with_round(rt, board, caller, size, session),
        None => false,
    }
}

// Commits, and asks for a round. False: the round was lost.
fn end_with_round<R: Wait, P: CellCaller<ShardCells>>(
    rt: &R,
    board: &Board<ShardCells>,
    caller: &mut P,
    size: &CoreSize,
    session: u32,
) -> bool
    requires board { P.calls_on board.now caller.old }
    requires number { P.number caller.old ≡ session }
    requires may { MayAskRounds size.now.shards size.now.sessions (callers_of board.now)
        (P.opening caller.old) session }
    requires holds { (s : Snapshot) × HoldsWriter FitsShard CoreShardStands ShardAnswerSays
        (P.opening caller.old) (P.number caller.old) session (P.own caller.old) s }
    ensures board { P.calls_on board.now caller.new }
    ensures opening { P.opening caller.new ≡ P.opening caller.old }
    ensures number { P.number caller.new ≡ P.number caller.old }
    ensures others { P.others caller.new ≡ P.others caller.old }
{
    commit::<CoreShard, R, P>(rt, board, caller, session, 1);
    ask_flush(rt, board, caller, size, session, 2) == FlushAnswer::Done
}
