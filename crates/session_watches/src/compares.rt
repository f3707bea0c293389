//! What came and went between two readers, asked of all shards.
ghost use Rattle.std.specs.Prelude.{◌≡◌, ◌+◌, ◌≤◌, ℕ, IfOk, OnOk, Option};
ghost use Rattle.board_callers.specs.Callers.{HasHistoryOf};
ghost use Rattle.core_program.specs.Knowing.{IsClientOf, IsSessionOf};
ghost use Rattle.core_program.specs.CoreFits.{FitsOwnCalls};
ghost use Rattle.cube_core.specs.CoreSteps.{CoreStep};
ghost use Rattle.cube_core.specs.declared.shard.ShardCall.TheVariants as call;
ghost use Rattle.cube_values.specs.declared.snapshot.Snapshot.{Snapshot};
ghost use Rattle.job_groups.specs.AskedEach.{AreShardMails};
ghost use Rattle.session_snapshots.specs.KnownHolds.{HoldsReady, HoldsTheSame};
ghost use Rattle.linked_shards.specs.CellShards.{CoreShardStands, CoreShardStep};
ghost use Rattle.session_groups.specs.ShardGroups.{HasAskedAll, KnowsOfShards, MayHaveAsked, MayQuery};
ghost use Rattle.session_watches.specs.ComparedShards.{HasFoundChange};
ghost use Rattle.session_watches.specs.KnownReaders.{HoldersHave, HoldersKeep};
ghost use Rattle.shard_events.specs.ShardsInRuns.{FitsShard, ShardAnswerSays};
ghost use Rattle.turn_board.specs.Passes.{callers_of};
ghost use Rattle.watch_holds.specs.HolderStates.{TwoReaders};

use crate::calls::delta_calls;
use crate::changes::merge_changes;
use board_callers::CellCaller;
use core_program::CoreSize;
use cube_values::{BoundQuery, SharedShape};
use job_groups::ask_each_shard;
use linked_shards::{CoreShard, ShardCells};
use standing_query::Change;
use std::alloc::{AllocError, Global};
use std::sync::Wait;
use turn_board::Board;

/// Asks each shard for the rows of a query that came and went from the older reader of the session's
/// holders to the newer, which are readers up to these epochs, and merges the changes that they answer.
/// It is an error where this session or a shard is out of memory: then either no shard was asked, or
/// all have answered. Whatever the session and its holders held, they hold.
pub fn compare_shards<R: Wait, P: CellCaller<ShardCells>>(
    rt: &R,
    board: &Board<ShardCells>,
    caller: &mut P,
    size: &CoreSize,
    session: u32,
    statement: u32,
    shape: &SharedShape,
    query: &BoundQuery,
    from: u64,
    to: u64,
    alloc: Global,
) -> Result<Change, AllocError>
    requires board { P.calls_on board.now caller.old }
    requires callers { size.now.sessions + 2 + size.now.shards ≤ callers_of board.now }
    requires some { 1 ≤ size.now.shards }
    requires client { IsClientOf FitsShard CoreShardStands ShardAnswerSays (P.opening caller.old)
        (P.number caller.old) session }
    requires session { IsSessionOf FitsShard CoreShardStands ShardAnswerSays (P.opening caller.old)
        session }
    requires mails { AreShardMails FitsShard CoreShardStands ShardAnswerSays (P.opening caller.old)
        session size.now.shards (2 + size.now.shards) }
    requires ready { (held : Option Snapshot) × HoldsReady FitsShard CoreShardStands
        ShardAnswerSays (P.opening caller.old) (P.number caller.old) session (P.own caller.old)
        held }
    requires readers { (older newer : ℕ) × HoldersHave FitsShard CoreShardStands ShardAnswerSays
        (P.opening caller.old) (P.number caller.old) session (P.own caller.old)
        (TwoReaders older from newer to) }
    requires query { KnowsOfShards (P.opening caller.old) (P.number caller.old) session
        (P.own caller.old) (MayQuery session shape.now query.now) }
    ensures board { P.calls_on board.now caller.new }
    ensures opening { P.opening caller.new ≡ P.opening caller.old }
    ensures number { P.number caller.new ≡ P.number caller.old }
    ensures others { P.others caller.new ≡ P.others caller.old }
    ensures asked { MayHaveAsked (P.opening caller.old) (P.number caller.old) session
        size.now.shards (call.Delta shape.now query.now from to) (P.own caller.old)
        (P.own caller.new) }
    ensures same { HoldsTheSame FitsShard CoreShardStands ShardAnswerSays session
        (P.opening caller.old) (P.number caller.old) (P.own caller.old) (P.opening caller.new)
        (P.number caller.new) (P.own caller.new) }
    ensures holders { HoldersKeep FitsShard CoreShardStands ShardAnswerSays session
        (P.opening caller.old) (P.number caller.old) (P.own caller.old) (P.opening caller.new)
        (P.number caller.new) (P.own caller.new) }
    ensures all { OnOk result (HasAskedAll (P.opening caller.old) (P.number caller.old) session
        size.now.shards (call.Delta shape.now query.now from to) (P.own caller.old)
        (P.own caller.new)) }
    ensures history { OnOk result (HasHistoryOf (CoreStep CoreShardStep)
        (FitsOwnCalls FitsShard CoreShardStands ShardAnswerSays) (P.opening caller.new)
        (P.number caller.new) (P.own caller.new)) }
    ensures found { IfOk result (λ change. KnowsOfShards (P.opening caller.new)
        (P.number caller.new) session (P.own caller.new)
        (HasFoundChange session query.now from to change)) }
{
    let calls = delta_calls(alloc, size.shards, shape, query, from, to)?;
    let room = Vec::with_capacity(alloc, size.shards as usize)?;
    let answers = ask_each_shard::<CoreShard, R, P>(
        rt, board, caller, size, session, statement, calls, room,
    );
    merge_changes(query, answers.as_slice(), alloc)
}
