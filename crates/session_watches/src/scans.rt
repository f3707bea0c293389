//! The rows of a query that a leading reader sees, asked of all shards.
ghost use Rattle.std.specs.Prelude.{◌≡◌, ◌+◌, ◌≤◌, ℕ, IfOk, OnOk, Option};
ghost use Rattle.board_callers.specs.Callers.{HasHistoryOf};
ghost use Rattle.core_program.specs.Knowing.{IsClientOf, IsSessionOf};
ghost use Rattle.core_events.specs.Clients.{reader_up_to};
ghost use Rattle.core_program.specs.CoreFits.{FitsOwnCalls};
ghost use Rattle.cube_core.specs.CoreSteps.{CoreStep};
ghost use Rattle.cube_core.specs.declared.shard.ShardCall.TheVariants as call;
ghost use Rattle.cube_values.specs.declared.snapshot.Snapshot.{Snapshot};
ghost use Rattle.job_groups.specs.AskedEach.{AreShardMails};
ghost use Rattle.session_snapshots.specs.KnownHolds.{HoldsReady, HoldsTheSame};
ghost use Rattle.linked_shards.specs.CellShards.{CoreShardStands, CoreShardStep};
ghost use Rattle.session_groups.specs.ShardGroups.{HasAskedAll, HasFoundRows, KnowsOfShards, MayHaveAsked, MayQuery};
ghost use Rattle.session_watches.specs.KnownReaders.{HoldersHave, HoldersKeep};
ghost use Rattle.shard_events.specs.ShardsInRuns.{FitsShard, ShardAnswerSays};
ghost use Rattle.turn_board.specs.Passes.{callers_of};
ghost use Rattle.watch_holds.specs.HolderStates.{LeadingReader};

use crate::calls::scan_calls;
use crate::merging::merge_answers;
use agg_fold::Partial;
use board_callers::CellCaller;
use core_program::CoreSize;
use cube_values::{BoundQuery, SharedShape};
use job_groups::ask_each_shard;
use linked_shards::{CoreShard, ShardCells};
use std::alloc::{AllocError, Global};
use std::sync::Wait;
use turn_board::Board;

/// Asks each shard for the rows of a query that the session's leading reader sees, which is one up to
/// this epoch, and merges the partials that they answer. It is an error where this session or a shard
/// is out of memory: then either no shard was asked, or all have answered. Whatever the session and its
/// holders held, they hold.
pub fn scan_shards_at_holder<R: Wait, P: CellCaller<ShardCells>>(
    rt: &R,
    board: &Board<ShardCells>,
    caller: &mut P,
    size: &CoreSize,
    session: u32,
    statement: u32,
    shape: &SharedShape,
    query: &BoundQuery,
    epoch: u64,
    alloc: Global,
) -> Result<Partial, AllocError>
    requires board { P.calls_on board.now caller.old }
    requires callers { size.now.sessions + 2 + size.now.shards ≤ callers_of board.now }
    requires some { 1 ≤ size.now.shards }
    requires client { IsClientOf FitsShard CoreShardStands ShardAnswerSays (P.opening caller.old)
        (P.number caller.old) session }
    requires session { IsSessionOf FitsShard CoreShardStands ShardAnswerSays (P.opening caller.old)
        session }
    requires mails { AreShardMails FitsShard CoreShardStands ShardAnswerSays (P.opening caller.old)
        session size.now.shards (2 + size.now.shards) }
    requires ready { (held : Option Snapshot) × HoldsReady FitsShard CoreShardStands
        ShardAnswerSays (P.opening caller.old) (P.number caller.old) session (P.own caller.old)
        held }
    requires leads { (holder : ℕ) × HoldersHave FitsShard CoreShardStands ShardAnswerSays
        (P.opening caller.old) (P.number caller.old) session (P.own caller.old)
        (LeadingReader holder epoch) }
    requires query { KnowsOfShards (P.opening caller.old) (P.number caller.old) session
        (P.own caller.old) (MayQuery session shape.now query.now) }
    ensures board { P.calls_on board.now caller.new }
    ensures opening { P.opening caller.new ≡ P.opening caller.old }
    ensures number { P.number caller.new ≡ P.number caller.old }
    ensures others { P.others caller.new ≡ P.others caller.old }
    ensures asked { MayHaveAsked (P.opening caller.old) (P.number caller.old) session
        size.now.shards (call.Scan shape.now query.now (reader_up_to epoch)) (P.own caller.old)
        (P.own caller.new) }
    ensures same { HoldsTheSame FitsShard CoreShardStands ShardAnswerSays session
        (P.opening caller.old) (P.number caller.old) (P.own caller.old) (P.opening caller.new)
        (P.number caller.new) (P.own caller.new) }
    ensures holders { HoldersKeep FitsShard CoreShardStands ShardAnswerSays session
        (P.opening caller.old) (P.number caller.old) (P.own caller.old) (P.opening caller.new)
        (P.number caller.new) (P.own caller.new) }
    ensures all { OnOk result (HasAskedAll (P.opening caller.old) (P.number caller.old) session
        size.now.shards (call.Scan shape.now query.now (reader_up_to epoch)) (P.own caller.old)
        (P.own caller.new)) }
    ensures history { OnOk result (HasHistoryOf (CoreStep CoreShardStep)
        (FitsOwnCalls FitsShard CoreShardStands ShardAnswerSays) (P.opening caller.new)
        (P.number caller.new) (P.own caller.new)) }
    ensures found { IfOk result (λ p. KnowsOfShards (P.opening caller.new) (P.number caller.new)
        session (P.own caller.new)
        (HasFoundRows session query.now (reader_up_to epoch) p.groups)) }
{
    let calls = scan_calls(alloc, size.shards, shape, query, epoch)?;
    let room = Vec::with_capacity(alloc, size.shards as usize)?;
    let answers = ask_each_shard::<CoreShard, R, P>(
        rt, board, caller, size, session, statement, calls, room,
    );
    merge_answers(query, answers.as_slice(), alloc)
}
