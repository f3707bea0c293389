//! Dropping the box of a DELETE on every shard.

ghost use Rattle.std.specs.Prelude.{◌≡◌, ◌+◌, ◌≤◌, [], ◌∷◌, IfOk, OnErr, OnOk};
ghost use Rattle.core_events.specs.Serial.{DropRows};
ghost use Rattle.core_program.specs.Knowing.{IsClientOf, IsSessionOf};
ghost use Rattle.cube_core.specs.declared.shard.ShardCall.TheVariants as call;
ghost use Rattle.cube_schema.specs.Schemas.{cube_of};
ghost use Rattle.dropped_regions.specs.DeleteBoxes.{IsToldOfPlace, IsWholeBox};
ghost use Rattle.job_groups.specs.AskedEach.{AreShardMails};
ghost use Rattle.known_cubes.specs.KnownCubes.{OpenWithStorableCubes};
ghost use Rattle.session_snapshots.specs.KnownHolds.{HoldsWriter};
ghost use Rattle.linked_shards.specs.CellShards.{CoreShardStands};
ghost use Rattle.posted_pasts.specs.PostsAdded.{AddsOperations, LearnsThat};
ghost use Rattle.session_groups.specs.ShardGroups.{HasAskedAll, HoldsAfterWrite};
ghost use Rattle.shard_events.specs.ShardsInRuns.{FitsShard, ShardAnswerSays};
ghost use Rattle.turn_board.specs.Passes.{callers_of};

use board_callers::CellCaller;
use core_program::CoreSize;
use cube_schema::Schema;
use cube_values::{Snapshot, Span};
use linked_shards::ShardCells;
use session_groups::{WriteEnd, drop_on_shards};
use std::alloc::{AllocError, Global};
use std::sync::Wait;
use turn_board::Board;

/// Drops a box of the cube that the session was told of, on each shard and at the epoch of the session's writer. However
/// many shards there are and whatever they answer, that is one operation more of the transaction, also where the box has
/// no coordinates. It is an error where there is no memory for the calls: then no shard was asked.
pub fn drop_region<R: Wait, P: CellCaller<ShardCells>>(
    rt: &R,
    board: &Board<ShardCells>,
    caller: &mut P,
    size: &CoreSize,
    session: u32,
    statement: u32,
    place: u32,
    cube: &Schema,
    span: &Span,
    writer: &Snapshot,
    alloc: Global,
) -> Result<WriteEnd, AllocError>
    requires board { P.calls_on board.now caller.old }
    requires callers { size.now.sessions + 2 + size.now.shards ≤ callers_of board.now }
    requires some { 1 ≤ size.now.shards }
    requires client { IsClientOf FitsShard CoreShardStands ShardAnswerSays (P.opening caller.old)
        (P.number caller.old) session }
    requires session { IsSessionOf FitsShard CoreShardStands ShardAnswerSays (P.opening caller.old)
        session }
    requires mails { AreShardMails FitsShard CoreShardStands ShardAnswerSays (P.opening caller.old)
        session size.now.shards (2 + size.now.shards) }
    requires storable { OpenWithStorableCubes FitsShard CoreShardStands ShardAnswerSays
        (P.opening caller.old) }
    requires told { IsToldOfPlace (P.own caller.old) place cube.now }
    requires whole { IsWholeBox cube.now span.now }
    requires holds { HoldsWriter FitsShard CoreShardStands ShardAnswerSays (P.opening caller.old)
        (P.number caller.old) session (P.own caller.old) writer.now }
    ensures board { P.calls_on board.now caller.new }
    ensures opening { P.opening caller.new ≡ P.opening caller.old }
    ensures number { P.number caller.new ≡ P.number caller.old }
    ensures others { P.others caller.new ≡ P.others caller.old }
    ensures asked { OnOk result (HasAskedAll (P.opening caller.old) (P.number caller.old) session
        size.now.shards (call.DropBox place (cube_of cube.now) writer.now.epoch span.now)
        (P.own caller.old) (P.own caller.new)) }
    ensures operations { OnOk result (LearnsThat FitsShard CoreShardStands ShardAnswerSays
        (AddsOperations place writer.now.epoch (DropRows span.now ∷ [])) (P.opening caller.old)
        (P.number caller.old) session (P.own caller.old) (P.own caller.new)) }
    ensures holds { IfOk result (λ end. HoldsAfterWrite (P.opening caller.new)
        (P.number caller.new) session (P.own caller.new) writer.now end) }
    ensures err { OnErr result (P.own caller.new ≡ P.own caller.old) }
{
    let shape = cube.shared_shape();
    drop_on_shards(
        rt, board, caller, size, session, statement, place, shape, span, writer, alloc,
    )
}
