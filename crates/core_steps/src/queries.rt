//! A session asks for totals.
ghost use Rattle.std.specs.Prelude.{◌≡◌, ◌+◌, ◌≤◌, ◌∷◌, [], All, IfSome, Some, length};
ghost use Rattle.core_steps.specs.OnCore.{IsOnCore};
ghost use Rattle.core_steps.specs.Totals.{AsksTotals, HasReadTotals, KnowsTotals};
ghost use Rattle.cube_values.specs.Queries.{IsSoundQuery};
ghost use Rattle.cube_values.specs.Spans.{IsSoundPart};
ghost use Rattle.session_snapshots.specs.KnownHolds.{HoldsNothing, HoldsReady, HoldsTheSame, HoldsWriter};
ghost use Rattle.linked_shards.specs.CellShards.{CoreShardStands};
ghost use Rattle.shard_events.specs.ShardsInRuns.{FitsShard, ShardAnswerSays};
ghost use Rattle.turn_board.specs.Passes.{callers_of};

use crate::boxes::box_between;
use crate::cubes::look_for;
use crate::totals::{Totals, totals_found};
use crate::traced::TracedCaller;
use core_program::CoreSize;
use cube_values::{BoundItem, BoundItems, BoundQuery, Coords, CubeShape, Snapshot};
use linked_shards::{CoreShard, ShardCells};
use session_groups::scan_shards;
use session_snapshots::{close_reader, open_reader, snapshot_holders_are_ready};
use std::alloc::Global;
use std::sync::Wait;
use turn_board::Board;

// The query for the totals of the rows between two coordinates of the cube at a place. None: the cube has not
// one dimension, or no metric, or memory ran out.
fn totals_between(
    alloc: Global,
    place: u32,
    shape: &CubeShape,
    low: u32,
    high: u32,
) -> Option<BoundQuery>
    ensures cube { IfSome result (λ q. q.cube ≡ place) }
    ensures asks { IfSome result (AsksTotals low high) }
    ensures sound { IfSome result (λ q. IsSoundQuery q (length shape.now.shape.sizes)
        shape.now.metrics) }
    ensures parts { IfSome result (λ q. All IsSoundPart q.span.parts) }
{
    if shape.shape.sizes.len() != 1 {
        return None;
    }
    if shape.metrics == 0 {
        return None;
    }
    let span = box_between(alloc, low, high)?;
    Some(BoundQuery {
        cube: place,
        span,
        group: Coords::new(alloc),
        items: BoundItems::from_vec(vec![in alloc; BoundItem::Count, BoundItem::Sum(0)].ok()?),
    })
}

/// The totals of the rows between two coordinates of a cube that the snapshot sees which the session holds. It
/// holds that then, too. None: there is no such cube, it has not one dimension or no metric, or memory ran out.
pub(crate) fn totals_seen<R: Wait, P: TracedCaller>(
    rt: &R,
    board: &Board<ShardCells>,
    caller: &mut P,
    size: &CoreSize,
    session: u32,
    name: &str,
    low: u32,
    high: u32,
    snapshot: &Snapshot,
    alloc: Global,
) -> Option<Totals>
    requires board { P.calls_on board.now caller.old }
    requires callers { size.now.sessions + 2 + size.now.shards ≤ callers_of board.now }
    requires some { 1 ≤ size.now.shards }
    requires on_core { IsOnCore size.now.shards (P.opening caller.old) (P.number caller.old)
        session }
    requires holds { HoldsReady FitsShard CoreShardStands ShardAnswerSays (P.opening caller.old)
        (P.number caller.old) session (P.own caller.old) (Some snapshot.now) }
    ensures board { P.calls_on board.now caller.new }
    ensures on_core { IsOnCore size.now.shards (P.opening caller.new) (P.number caller.new)
        session }
    ensures same { IfSome result (λ _. HoldsTheSame FitsShard CoreShardStands ShardAnswerSays
        session (P.opening caller.old) (P.number caller.old) (P.own caller.old)
        (P.opening caller.new) (P.number caller.new) (P.own caller.new)) }
    ensures found { IfSome result (KnowsTotals (P.opening caller.new) (P.number caller.new) session
        low high (P.own caller.new) snapshot.now) }
{
    let cube = look_for(rt, board, caller, size, session, name, alloc)?;
    let shape = cube.schema.shared_shape();
    let query = totals_between(alloc, cube.place, shape.shape(), low, high)?;
    match scan_shards(
        rt, board, caller, size, session, 0, shape, &query, snapshot, alloc,
    ) {
        Ok(found) => totals_found(alloc, &query, &found),
        Err(_) => None,
    }
}

/// The totals of the rows that a writer sees which the session holds. It holds that then, too.
pub(crate) fn totals_of_writer<R: Wait, P: TracedCaller>(
    rt: &R,
    board: &Board<ShardCells>,
    caller: &mut P,
    size: &CoreSize,
    session: u32,
    name: &str,
    low: u32,
    high: u32,
    writer: &Snapshot,
    alloc: Global,
) -> Option<Totals>
    requires board { P.calls_on board.now caller.old }
    requires callers { size.now.sessions + 2 + size.now.shards ≤ callers_of board.now }
    requires some { 1 ≤ size.now.shards }
    requires on_core { IsOnCore size.now.shards (P.opening caller.old) (P.number caller.old)
        session }
    requires holds { HoldsWriter FitsShard CoreShardStands ShardAnswerSays (P.opening caller.old)
        (P.number caller.old) session (P.own caller.old) writer.now }
    ensures board { P.calls_on board.now caller.new }
    ensures on_core { IsOnCore size.now.shards (P.opening caller.new) (P.number caller.new)
        session }
    ensures holds { IfSome result (λ _. HoldsWriter FitsShard CoreShardStands ShardAnswerSays
        (P.opening caller.new) (P.number caller.new) session (P.own caller.new) writer.now) }
    ensures found { IfSome result (KnowsTotals (P.opening caller.new) (P.number caller.new) session
        low high (P.own caller.new) writer.now) }
{
    snapshot_holders_are_ready::<CoreShard>();
    totals_seen(
        rt, board, caller, size, session, name, low, high, writer, alloc,
    )
}

/// At which epoch a reader was, and what it saw.
#[derive(Clone, Copy)]
pub struct TotalsRead {
    pub epoch: u64,
    pub totals: Totals,
}

/// The totals of the rows that a reader sees, which the session opens and closes.
pub(crate) fn read_totals<R: Wait, P: TracedCaller>(
    rt: &R,
    board: &Board<ShardCells>,
    caller: &mut P,
    size: &CoreSize,
    session: u32,
    name: &str,
    low: u32,
    high: u32,
    alloc: Global,
) -> Option<TotalsRead>
    requires board { P.calls_on board.now caller.old }
    requires callers { size.now.sessions + 2 + size.now.shards ≤ callers_of board.now }
    requires some { 1 ≤ size.now.shards }
    requires on_core { IsOnCore size.now.shards (P.opening caller.old) (P.number caller.old)
        session }
    requires holds { HoldsNothing FitsShard CoreShardStands ShardAnswerSays (P.opening caller.old)
        (P.number caller.old) session (P.own caller.old) }
    ensures board { P.calls_on board.now caller.new }
    ensures on_core { IsOnCore size.now.shards (P.opening caller.new) (P.number caller.new)
        session }
    ensures holds { IfSome result (λ _. HoldsNothing FitsShard CoreShardStands ShardAnswerSays
        (P.opening caller.new) (P.number caller.new) session (P.own caller.new)) }
    ensures found { IfSome result (HasReadTotals (P.opening caller.new) (P.number caller.new)
        session low high (P.own caller.new)) }
{
    snapshot_holders_are_ready::<CoreShard>();
    let reader = open_reader(rt, board, caller, session, 0)?;
    let totals = totals_seen(
        rt, board, caller, size, session, name, low, high, &reader, alloc,
    )?;
    close_reader(rt, board, caller, session, 0);
    Some(TotalsRead {
        epoch: reader.epoch,
        totals,
    })
}
