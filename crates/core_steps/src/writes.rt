//! A session writes: within a transaction, or in one of its own.
ghost use Rattle.std.specs.Prelude.{◌≡◌, ◌+◌, ◌≤◌, All, IfSome};
ghost use Rattle.brick_map.specs.Batches.{IsRowOfCube};
ghost use Rattle.core_program.specs.Knowing.{Knows};
ghost use Rattle.core_steps.specs.OnCore.{IsOnCore};
ghost use Rattle.cube_values.specs.Shapes.{IsSoundCube};
ghost use Rattle.session_snapshots.specs.KnownHolds.{HoldsNothing, HoldsWriter};
ghost use Rattle.linked_shards.specs.CellShards.{CoreShardStands};
ghost use Rattle.session_batches.specs.PutRows.{MayPutRows};
ghost use Rattle.shard_events.specs.ShardsInRuns.{FitsShard, ShardAnswerSays};
ghost use Rattle.turn_board.specs.Passes.{callers_of};

use crate::boxes::whole_box;
use crate::cubes::look_for;
use crate::rows::row_of_numbers;
use crate::transactions::{begin, commit_writer};
use board_callers::CellCaller;
use core_program::CoreSize;
use cube_values::{CodedRows, SharedShape, Snapshot};
use linked_shards::{CoreShard, ShardCells};
use session_batches::{PutEnd, put_rows};
use session_groups::{WriteEnd, drop_on_shards};
use session_snapshots::snapshot_holders_are_ready;
use std::alloc::Global;
use std::sync::Wait;
use turn_board::Board;

/// Puts rows that the session may put. None: a shard refused them, or memory ran out.
pub(crate) fn put_batch<R: Wait, P: CellCaller<ShardCells>>(
    rt: &R,
    board: &Board<ShardCells>,
    caller: &mut P,
    size: &CoreSize,
    session: u32,
    place: u32,
    shape: &SharedShape,
    rows: CodedRows,
    writer: &Snapshot,
    alloc: Global,
) -> Option<()>
    requires board { P.calls_on board.now caller.old }
    requires callers { size.now.sessions + 2 + size.now.shards ≤ callers_of board.now }
    requires some { 1 ≤ size.now.shards }
    requires on_core { IsOnCore size.now.shards (P.opening caller.old) (P.number caller.old)
        session }
    requires sound { IsSoundCube shape.now }
    requires rows { All (IsRowOfCube shape.now) rows.rows }
    requires may { Knows FitsShard CoreShardStands ShardAnswerSays (P.opening caller.old)
        (P.number caller.old) session (P.own caller.old)
        (MayPutRows session size.now.shards place shape.now rows.rows) }
    requires holds { HoldsWriter FitsShard CoreShardStands ShardAnswerSays (P.opening caller.old)
        (P.number caller.old) session (P.own caller.old) writer.now }
    ensures board { P.calls_on board.now caller.new }
    ensures on_core { IsOnCore size.now.shards (P.opening caller.new) (P.number caller.new)
        session }
    ensures holds { IfSome result (λ _. HoldsWriter FitsShard CoreShardStands ShardAnswerSays
        (P.opening caller.new) (P.number caller.new) session (P.own caller.new) writer.now) }
{
    match put_rows(
        rt, board, caller, size, session, 0, place, shape, rows, writer, alloc,
    ) {
        Ok(PutEnd::Done) => Some(()),
        _ => None,
    }
}

/// Puts a row of a cube of one dimension and one metric, both of numbers. None: the cube is no such, a
/// shard refused the row, or memory ran out.
pub(crate) fn put_row<R: Wait, P: CellCaller<ShardCells>>(
    rt: &R,
    board: &Board<ShardCells>,
    caller: &mut P,
    size: &CoreSize,
    session: u32,
    name: &str,
    coord: u32,
    metric: i64,
    writer: &Snapshot,
    alloc: Global,
) -> Option<()>
    requires board { P.calls_on board.now caller.old }
    requires callers { size.now.sessions + 2 + size.now.shards ≤ callers_of board.now }
    requires some { 1 ≤ size.now.shards }
    requires on_core { IsOnCore size.now.shards (P.opening caller.old) (P.number caller.old)
        session }
    requires holds { HoldsWriter FitsShard CoreShardStands ShardAnswerSays (P.opening caller.old)
        (P.number caller.old) session (P.own caller.old) writer.now }
    ensures board { P.calls_on board.now caller.new }
    ensures on_core { IsOnCore size.now.shards (P.opening caller.new) (P.number caller.new)
        session }
    ensures holds { IfSome result (λ _. HoldsWriter FitsShard CoreShardStands ShardAnswerSays
        (P.opening caller.new) (P.number caller.new) session (P.own caller.new) writer.now) }
{
    snapshot_holders_are_ready::<CoreShard>();
    let cube = look_for(rt, board, caller, size, session, name, alloc)?;
    let shape = cube.schema.shared_shape();
    let rows = row_of_numbers(alloc, shape.shape(), &[coord], &[metric])?;
    put_batch(
        rt, board, caller, size, session, cube.place, shape, rows, writer, alloc,
    )
}

/// Deletes the rows of a cube of one dimension between two coordinates. None: the cube is no such, the box
/// cuts a brick, a shard refused it, or memory ran out.
pub(crate) fn delete_between<R: Wait, P: CellCaller<ShardCells>>(
    rt: &R,
    board: &Board<ShardCells>,
    caller: &mut P,
    size: &CoreSize,
    session: u32,
    name: &str,
    low: u32,
    high: u32,
    writer: &Snapshot,
    alloc: Global,
) -> Option<()>
    requires board { P.calls_on board.now caller.old }
    requires callers { size.now.sessions + 2 + size.now.shards ≤ callers_of board.now }
    requires some { 1 ≤ size.now.shards }
    requires on_core { IsOnCore size.now.shards (P.opening caller.old) (P.number caller.old)
        session }
    requires holds { HoldsWriter FitsShard CoreShardStands ShardAnswerSays (P.opening caller.old)
        (P.number caller.old) session (P.own caller.old) writer.now }
    ensures board { P.calls_on board.now caller.new }
    ensures on_core { IsOnCore size.now.shards (P.opening caller.new) (P.number caller.new)
        session }
    ensures holds { IfSome result (λ _. HoldsWriter FitsShard CoreShardStands ShardAnswerSays
        (P.opening caller.new) (P.number caller.new) session (P.own caller.new) writer.now) }
{
    snapshot_holders_are_ready::<CoreShard>();
    let cube = look_for(rt, board, caller, size, session, name, alloc)?;
    let shape = cube.schema.shared_shape();
    let span = whole_box(alloc, shape.shape(), low, high)?;
    match drop_on_shards(
        rt, board, caller, size, session, 0, cube.place, shape, &span, writer, alloc,
    ) {
        Ok(WriteEnd::Done) => Some(()),
        _ => None,
    }
}

/// Puts a row in a transaction of its own, and gives its epoch.
pub(crate) fn write_row<R: Wait, P: CellCaller<ShardCells>>(
    rt: &R,
    board: &Board<ShardCells>,
    caller: &mut P,
    size: &CoreSize,
    session: u32,
    name: &str,
    coord: u32,
    metric: i64,
    alloc: Global,
) -> Option<u64>
    requires board { P.calls_on board.now caller.old }
    requires callers { size.now.sessions + 2 + size.now.shards ≤ callers_of board.now }
    requires some { 1 ≤ size.now.shards }
    requires on_core { IsOnCore size.now.shards (P.opening caller.old) (P.number caller.old)
        session }
    requires holds { HoldsNothing FitsShard CoreShardStands ShardAnswerSays (P.opening caller.old)
        (P.number caller.old) session (P.own caller.old) }
    ensures board { P.calls_on board.now caller.new }
    ensures on_core { IsOnCore size.now.shards (P.opening caller.new) (P.number caller.new)
        session }
    ensures holds { IfSome result (λ _. HoldsNothing FitsShard CoreShardStands ShardAnswerSays
        (P.opening caller.new) (P.number caller.new) session (P.own caller.new)) }
{
    let writer = begin(rt, board, caller, size, session)?;
    put_row(
        rt, board, caller, size, session, name, coord, metric, &writer, alloc,
    )?;
    Some(commit_writer(rt, board, caller, size, session, writer))
}

/// Deletes rows in a transaction of its own, and gives its epoch.
pub(crate) fn delete_rows<R: Wait, P: CellCaller<ShardCells>>(
    rt: &R,
    board: &Board<ShardCells>,
    caller: &mut P,
    size: &CoreSize,
    session: u32,
    name: &str,
    low: u32,
    high: u32,
    alloc: Global,
) -> Option<u64>
    requires board { P.calls_on board.now caller.old }
    requires callers { size.now.sessions + 2 + size.now.shards ≤ callers_of board.now }
    requires some { 1 ≤ size.now.shards }
    requires on_core { IsOnCore size.now.shards (P.opening caller.old) (P.number caller.old)
        session }
    requires holds { HoldsNothing FitsShard CoreShardStands ShardAnswerSays (P.opening caller.old)
        (P.number caller.old) session (P.own caller.old) }
    ensures board { P.calls_on board.now caller.new }
    ensures on_core { IsOnCore size.now.shards (P.opening caller.new) (P.number caller.new)
        session }
    ensures holds { IfSome result (λ _. HoldsNothing FitsShard CoreShardStands ShardAnswerSays
        (P.opening caller.new) (P.number caller.new) session (P.own caller.new)) }
{
    let writer = begin(rt, board, caller, size, session)?;
    delete_between(
        rt, board, caller, size, session, name, low, high, &writer, alloc,
    )?;
    Some(commit_writer(rt, board, caller, size, session, writer))
}
