//! A deletion on all shards.
ghost use Rattle.std.specs.Prelude.{◌≡◌, ◌+◌, ◌≤◌, IfOk, OnErr, OnOk};
ghost use Rattle.core_program.specs.Knowing.{IsClientOf, IsSessionOf};
ghost use Rattle.cube_core.specs.declared.shard.ShardCall.TheVariants as call;
ghost use Rattle.job_groups.specs.AskedEach.{AreShardMails};
ghost use Rattle.linked_shards.specs.CellShards.{CoreShardStands};
ghost use Rattle.std.specs.List.{list_any};
ghost use Rattle.session_groups.specs.AnswersInTurn.{is_undone};
ghost use Rattle.session_snapshots.specs.KnownHolds.{HoldsWriter};
ghost use Rattle.session_groups.specs.ShardGroups.{HasAskedAll, HoldsAfterWrite, KnowsOfShards, MayDelete, end_by_refusals};
ghost use Rattle.shard_events.specs.ShardsInRuns.{FitsShard, ShardAnswerSays};
ghost use Rattle.turn_board.specs.Passes.{callers_of};

use crate::answers::any_undone;
use crate::calls::drop_calls;
use board_callers::CellCaller;
use core_program::CoreSize;
use cube_core::JobAnswer;
use cube_values::{SharedShape, Snapshot, Span};
use job_groups::ask_each_shard;
use linked_shards::{CoreShard, ShardCells};
use std::alloc::{AllocError, Global};
use std::sync::Wait;
use turn_board::Board;

/// How a write on several shards ended.
#[derive(Clone, Copy, Debug, PartialEq, Eq)]
pub enum WriteEnd {
    /// Each shard did it.
    Done,
    /// Some shard refused it, so that the transaction can only be rolled back.
    Refused,
}

/// Deletes the rows of a box on each shard, at the epoch of the session's writer. It is an error
/// where there is no memory for the calls: then no shard was asked.
pub fn drop_on_shards<R: Wait, P: CellCaller<ShardCells>>(
    rt: &R,
    board: &Board<ShardCells>,
    caller: &mut P,
    size: &CoreSize,
    session: u32,
    statement: u32,
    cube: u32,
    shape: &SharedShape,
    span: &Span,
    writer: &Snapshot,
    alloc: Global,
) -> Result<WriteEnd, AllocError>
    requires board { P.calls_on board.now caller.old }
    requires callers { size.now.sessions + 2 + size.now.shards ≤ callers_of board.now }
    requires some { 1 ≤ size.now.shards }
    requires client { IsClientOf FitsShard CoreShardStands ShardAnswerSays (P.opening caller.old)
        (P.number caller.old) session }
    requires session { IsSessionOf FitsShard CoreShardStands ShardAnswerSays (P.opening caller.old)
        session }
    requires mails { AreShardMails FitsShard CoreShardStands ShardAnswerSays (P.opening caller.old)
        session size.now.shards (2 + size.now.shards) }
    requires holds { HoldsWriter FitsShard CoreShardStands ShardAnswerSays (P.opening caller.old)
        (P.number caller.old) session (P.own caller.old) writer.now }
    requires deletes { KnowsOfShards (P.opening caller.old) (P.number caller.old) session
        (P.own caller.old) (MayDelete session cube shape.now span.now) }
    ensures board { P.calls_on board.now caller.new }
    ensures opening { P.opening caller.new ≡ P.opening caller.old }
    ensures number { P.number caller.new ≡ P.number caller.old }
    ensures others { P.others caller.new ≡ P.others caller.old }
    ensures asked { OnOk result (HasAskedAll (P.opening caller.old) (P.number caller.old) session
        size.now.shards (call.DropBox cube shape.now writer.now.epoch span.now)
        (P.own caller.old) (P.own caller.new)) }
    ensures holds { IfOk result (λ end. HoldsAfterWrite (P.opening caller.new)
        (P.number caller.new) session (P.own caller.new) writer.now end) }
    ensures err { OnErr result (P.own caller.new ≡ P.own caller.old) }
{
    let calls = drop_calls(alloc, size.shards, cube, shape, writer.epoch, span)?;
    let room = Vec::with_capacity(alloc, size.shards as usize)?;
    let answers = ask_each_shard::<CoreShard, R, P>(
        rt, board, caller, size, session, statement, calls, room,
    );
    Ok(write_end(answers.as_slice()))
}

fn write_end(answers: &[JobAnswer]) -> WriteEnd
    ensures { result ≡ end_by_refusals (list_any is_undone answers.now) }
{
    if any_undone(answers) {
        WriteEnd::Refused
    } else {
        WriteEnd::Done
    }
}
