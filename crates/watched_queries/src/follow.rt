//! A watch follows its rows to a newer reader.
ghost use Rattle.std.specs.Prelude.{◌≡◌, ◌+◌, ◌≤◌, All, IfOk, Option};
ghost use Rattle.agg_fold.specs.Tallies.{IsAdditive};
ghost use Rattle.core_program.specs.Knowing.{IsClientOf, IsSessionOf};
ghost use Rattle.cube_core.specs.declared.shard.ShardCall.TheVariants as call;
ghost use Rattle.cube_values.specs.declared.snapshot.Snapshot.{Snapshot};
ghost use Rattle.job_groups.specs.AskedEach.{AreShardMails};
ghost use Rattle.session_snapshots.specs.KnownHolds.{HoldsReady, HoldsTheSame};
ghost use Rattle.linked_shards.specs.CellShards.{CoreShardStands};
ghost use Rattle.session_groups.specs.ShardGroups.{HasAskedAll, KnowsOfShards, MayHaveAsked, MayQuery};
ghost use Rattle.session_watches.specs.KnownReaders.{HoldersHave, HoldersKeep};
ghost use Rattle.shard_events.specs.ShardsInRuns.{FitsShard, ShardAnswerSays};
ghost use Rattle.turn_board.specs.Passes.{callers_of};
ghost use Rattle.watch_holds.specs.HolderStates.{IsHolderOf, TwoReaders};
ghost use Rattle.watched_queries.specs.ReadersInRuns.{StandUpTo};
ghost use Rattle.watched_queries.specs.WatchesInRuns.{IsPlainFold, IsWatchOf};

use crate::watch::{SessionWatch, followed_watch};
use board_callers::CellCaller;
use core_program::CoreSize;
use cube_values::{BoundQuery, SharedShape};
use linked_shards::ShardCells;
use session_watches::compare_shards;
use std::alloc::{AllocError, Global};
use std::sync::Wait;
use turn_board::Board;

/// The watch at a newer reader, once both are held: it asks each shard for what came and went between the
/// two, by a query that has found the same at the older, and applies that to a copy. Both readers stay held, so that
/// whoever has no memory to show it can still close the newer and keep the old watch. It is an error where
/// memory is wanted here, or where there is no room for what came. The old watch stands.
pub fn follow_watch<R: Wait, P: CellCaller<ShardCells>>(
    rt: &R,
    board: &Board<ShardCells>,
    caller: &mut P,
    size: &CoreSize,
    session: u32,
    statement: u32,
    shape: &SharedShape,
    watch: &SessionWatch,
    query: &BoundQuery,
    holder: u32,
    epoch: u64,
    alloc: Global,
) -> Result<SessionWatch, AllocError>
    requires board { P.calls_on board.now caller.old }
    requires callers { size.now.sessions + 2 + size.now.shards ≤ callers_of board.now }
    requires some { 1 ≤ size.now.shards }
    requires client { IsClientOf FitsShard CoreShardStands ShardAnswerSays (P.opening caller.old)
        (P.number caller.old) session }
    requires session { IsSessionOf FitsShard CoreShardStands ShardAnswerSays (P.opening caller.old)
        session }
    requires mails { AreShardMails FitsShard CoreShardStands ShardAnswerSays (P.opening caller.old)
        session size.now.shards (2 + size.now.shards) }
    requires ready { (held : Option Snapshot) × HoldsReady FitsShard CoreShardStands
        ShardAnswerSays (P.opening caller.old) (P.number caller.old) session (P.own caller.old)
        held }
    requires holder { IsHolderOf session holder }
    requires readers { HoldersHave FitsShard CoreShardStands ShardAnswerSays (P.opening caller.old)
        (P.number caller.old) session (P.own caller.old)
        (TwoReaders watch.now.holder watch.now.epoch holder epoch) }
    requires additive { All IsAdditive query.now.items }
    requires shows { StandUpTo (P.opening caller.old) (P.number caller.old) (P.own caller.old)
        query.now watch.now.epoch watch.now.kept.groups }
    requires query { KnowsOfShards (P.opening caller.old) (P.number caller.old) session
        (P.own caller.old) (MayQuery session shape.now query.now) }
    ensures board { P.calls_on board.now caller.new }
    ensures opening { P.opening caller.new ≡ P.opening caller.old }
    ensures number { P.number caller.new ≡ P.number caller.old }
    ensures others { P.others caller.new ≡ P.others caller.old }
    ensures same { HoldsTheSame FitsShard CoreShardStands ShardAnswerSays session
        (P.opening caller.old) (P.number caller.old) (P.own caller.old) (P.opening caller.new)
        (P.number caller.new) (P.own caller.new) }
    ensures holders { HoldersKeep FitsShard CoreShardStands ShardAnswerSays session
        (P.opening caller.old) (P.number caller.old) (P.own caller.old) (P.opening caller.new)
        (P.number caller.new) (P.own caller.new) }
    ensures asked { MayHaveAsked (P.opening caller.old) (P.number caller.old) session
        size.now.shards (call.Delta shape.now query.now watch.now.epoch epoch)
        (P.own caller.old) (P.own caller.new) }
    ensures all { IfOk result (λ w. HasAskedAll (P.opening caller.old) (P.number caller.old)
        session size.now.shards (call.Delta shape.now query.now watch.now.epoch epoch)
        (P.own caller.old) (P.own caller.new)) }
    ensures holder { IfOk result (λ w. w.holder ≡ holder) }
    ensures epoch { IfOk result (λ w. w.epoch ≡ epoch) }
    ensures query { IfOk result (λ w. w.query ≡ query.now) }
    ensures watch { IfOk result (IsWatchOf (P.opening caller.new) (P.number caller.new)
        (P.own caller.new) session) }
    ensures fold { IfOk result (IsPlainFold (P.opening caller.new) (P.number caller.new)
        (P.own caller.new)) }
{
    let change = compare_shards(
        rt,
        board,
        caller,
        size,
        session,
        statement,
        shape,
        query,
        watch.epoch,
        epoch,
        alloc,
    )?;
    followed_watch(&watch.kept, query, holder, epoch, &change)
}
