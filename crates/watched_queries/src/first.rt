//! A watch begins.
ghost use Rattle.std.specs.Prelude.{◌≡◌, ◌+◌, ◌≤◌, All, IfOk, Option};
ghost use Rattle.agg_fold.specs.Tallies.{IsAdditive};
ghost use Rattle.core_program.specs.Knowing.{IsClientOf, IsSessionOf};
ghost use Rattle.core_events.specs.Clients.{reader_up_to};
ghost use Rattle.cube_core.specs.declared.shard.ShardCall.TheVariants as call;
ghost use Rattle.cube_values.specs.declared.snapshot.Snapshot.{Snapshot};
ghost use Rattle.job_groups.specs.AskedEach.{AreShardMails};
ghost use Rattle.session_snapshots.specs.KnownHolds.{HoldsReady, HoldsTheSame};
ghost use Rattle.linked_shards.specs.CellShards.{CoreShardStands};
ghost use Rattle.session_groups.specs.ShardGroups.{HasAskedAll, KnowsOfShards, MayHaveAsked, MayQuery};
ghost use Rattle.session_watches.specs.KnownReaders.{HoldersHave, HoldersKeep};
ghost use Rattle.shard_events.specs.ShardsInRuns.{FitsShard, ShardAnswerSays};
ghost use Rattle.turn_board.specs.Passes.{callers_of};
ghost use Rattle.watch_holds.specs.HolderStates.{IsHolderOf, LeadingReader};
ghost use Rattle.watched_queries.specs.WatchesInRuns.{IsPlainFold, IsWatchOf};

use crate::watch::{SessionWatch, first_watch};
use board_callers::CellCaller;
use core_program::CoreSize;
use cube_values::{BoundQuery, SharedShape};
use linked_shards::ShardCells;
use session_watches::scan_shards_at_holder;
use std::alloc::{AllocError, Global};
use std::sync::Wait;
use turn_board::Board;

/// Begins a watch of a query, once a reader of the session's leads: it asks each shard for the rows that
/// the reader sees. It is an error where memory is wanted anywhere. Whatever the session and its holders
/// held, they hold.
pub fn begin_watch<R: Wait, P: CellCaller<ShardCells>>(
    rt: &R,
    board: &Board<ShardCells>,
    caller: &mut P,
    size: &CoreSize,
    session: u32,
    statement: u32,
    shape: &SharedShape,
    query: &BoundQuery,
    holder: u32,
    epoch: u64,
    alloc: Global,
) -> Result<SessionWatch, AllocError>
    requires board { P.calls_on board.now caller.old }
    requires callers { size.now.sessions + 2 + size.now.shards ≤ callers_of board.now }
    requires some { 1 ≤ size.now.shards }
    requires client { IsClientOf FitsShard CoreShardStands ShardAnswerSays (P.opening caller.old)
        (P.number caller.old) session }
    requires session { IsSessionOf FitsShard CoreShardStands ShardAnswerSays (P.opening caller.old)
        session }
    requires mails { AreShardMails FitsShard CoreShardStands ShardAnswerSays (P.opening caller.old)
        session size.now.shards (2 + size.now.shards) }
    requires ready { (held : Option Snapshot) × HoldsReady FitsShard CoreShardStands
        ShardAnswerSays (P.opening caller.old) (P.number caller.old) session (P.own caller.old)
        held }
    requires holder { IsHolderOf session holder }
    requires leads { HoldersHave FitsShard CoreShardStands ShardAnswerSays (P.opening caller.old)
        (P.number caller.old) session (P.own caller.old) (LeadingReader holder epoch) }
    requires query { KnowsOfShards (P.opening caller.old) (P.number caller.old) session
        (P.own caller.old) (MayQuery session shape.now query.now) }
    requires additive { All IsAdditive query.now.items }
    ensures board { P.calls_on board.now caller.new }
    ensures opening { P.opening caller.new ≡ P.opening caller.old }
    ensures number { P.number caller.new ≡ P.number caller.old }
    ensures others { P.others caller.new ≡ P.others caller.old }
    ensures same { HoldsTheSame FitsShard CoreShardStands ShardAnswerSays session
        (P.opening caller.old) (P.number caller.old) (P.own caller.old) (P.opening caller.new)
        (P.number caller.new) (P.own caller.new) }
    ensures holders { HoldersKeep FitsShard CoreShardStands ShardAnswerSays session
        (P.opening caller.old) (P.number caller.old) (P.own caller.old) (P.opening caller.new)
        (P.number caller.new) (P.own caller.new) }
    ensures asked { MayHaveAsked (P.opening caller.old) (P.number caller.old) session
        size.now.shards (call.Scan shape.now query.now (reader_up_to epoch)) (P.own caller.old)
        (P.own caller.new) }
    ensures all { IfOk result (λ w. HasAskedAll (P.opening caller.old) (P.number caller.old)
        session size.now.shards (call.Scan shape.now query.now (reader_up_to epoch))
        (P.own caller.old) (P.own caller.new)) }
    ensures holder { IfOk result (λ w. w.holder ≡ holder) }
    ensures epoch { IfOk result (λ w. w.epoch ≡ epoch) }
    ensures query { IfOk result (λ w. w.query ≡ query.now) }
    ensures watch { IfOk result (IsWatchOf (P.opening caller.new) (P.number caller.new)
        (P.own caller.new) session) }
    ensures fold { IfOk result (IsPlainFold (P.opening caller.new) (P.number caller.new)
        (P.own caller.new)) }
{
    let first = scan_shards_at_holder(
        rt, board, caller, size, session, statement, shape, query, epoch, alloc,
    )?;
    first_watch(query, holder, epoch, &first)
}
