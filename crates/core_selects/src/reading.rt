//! A session reads the lines of a SELECT by the snapshot that it holds.
ghost use Rattle.std.specs.Prelude.{◌≡◌, ◌+◌, ◌≤◌, true, ℕ, List, IfOk, Some};
ghost use Rattle.core_selects.specs.ReadLines.{GoesOnHolding, HasReadLines};
ghost use Rattle.condition_spans.specs.Codes.{lists_at};
ghost use Rattle.core_selects.specs.ScanSteps.{HasNamedLines, HasScannedLines};
ghost use Rattle.cube_run.specs.StatementEntries.{is_select};
ghost use Rattle.known_cubes.specs.KnownCubes.{IsToldOfCube};
ghost use Rattle.session_snapshots.specs.KnownHolds.{HoldsReady};
ghost use Rattle.linked_shards.specs.CellShards.{CoreShardStands};
ghost use Rattle.shard_events.specs.ShardsInRuns.{FitsShard, ShardAnswerSays};
ghost use Rattle.query_plan.specs.Ties.{AreDistinct};
ghost use Rattle.scripted_pasts.specs.Served.{IsServed};
ghost use Rattle.session_groups.specs.ShardGroups.{KnowsOfShards, MayQuery};
ghost use Rattle.turn_board.specs.Passes.{callers_of};

use crate::binding::query_by;
use crate::history::read_after_scan;
use crate::lines::lines_of;
use board_callers::CellCaller;
use copied_names::copy_names_of_cube;
use core_program::CoreSize;
use cube_language::Statement;
use cube_schema::Schema;
use cube_values::{BoundQuery, NameLists, SharedShape, Snapshot, Table};
use linked_shards::{CoreShard, ShardCells};
use session_groups::scan_shards;
use std::alloc::{AllocError, Global};
use std::sync::Wait;
use turn_board::Board;

// The lines of a query, of which all shards are asked. The names are those of the one cube that there is.
fn read_scanned<R: Wait, P: CellCaller<ShardCells>>(
    rt: &R,
    board: &Board<ShardCells>,
    caller: &mut P,
    size: &CoreSize,
    session: u32,
    number: u32,
    statement: &Statement,
    shape: &SharedShape,
    query: BoundQuery,
    names: NameLists,
    snapshot: &Snapshot,
    alloc: Global,
) -> Result<Table, AllocError>
    requires board { P.calls_on board.now caller.old }
    requires callers { size.now.sessions + 2 + size.now.shards ≤ callers_of board.now }
    requires served { IsServed (P.opening caller.old) (P.number caller.old) session
        size.now.shards }
    requires ready { HoldsReady FitsShard CoreShardStands ShardAnswerSays (P.opening caller.old)
        (P.number caller.old) session (P.own caller.old) (Some snapshot.now) }
    requires asks { KnowsOfShards (P.opening caller.old) (P.number caller.old) session
        (P.own caller.old) (MayQuery session shape.now query) }
    ensures board { P.calls_on board.now caller.new }
    ensures opening { P.opening caller.new ≡ P.opening caller.old }
    ensures number { P.number caller.new ≡ P.number caller.old }
    ensures others { P.others caller.new ≡ P.others caller.old }
    ensures holding { GoesOnHolding (P.opening caller.old) (P.number caller.old) session
        (P.own caller.old) (P.own caller.new) }
    ensures read { IfOk result (HasScannedLines (P.opening caller.old) (P.number caller.old) session
        statement.now (lists_at names 0) query snapshot.now (P.own caller.old)
        (P.own caller.new)) }
{
    match scan_shards(
        rt, board, caller, size, session, number, shape, &query, snapshot, alloc,
    ) {
        Ok(found) => {
            read_after_scan(rt, board, caller, session);
            lines_of(alloc, &found, query, &names, statement)
        }
        Err(_) => Err(AllocError),
    }
}

// The lines of a statement that fits its cube, by names that were copied of it.
fn read_named<R: Wait, P: CellCaller<ShardCells>>(
    rt: &R,
    board: &Board<ShardCells>,
    caller: &mut P,
    size: &CoreSize,
    session: u32,
    number: u32,
    statement: &Statement,
    place: u32,
    cube: &Schema,
    names: NameLists,
    snapshot: &Snapshot,
    alloc: Global,
) -> Result<Table, AllocError>
    requires board { P.calls_on board.now caller.old }
    requires callers { size.now.sessions + 2 + size.now.shards ≤ callers_of board.now }
    requires served { IsServed (P.opening caller.old) (P.number caller.old) session
        size.now.shards }
    requires ready { HoldsReady FitsShard CoreShardStands ShardAnswerSays (P.opening caller.old)
        (P.number caller.old) session (P.own caller.old) (Some snapshot.now) }
    requires told { (name : List ℕ) × IsToldOfCube (P.own caller.old) name place cube.now }
    requires form { is_select statement.now ≡ true }
    requires distinct { AreDistinct (lists_at names place) }
    ensures board { P.calls_on board.now caller.new }
    ensures opening { P.opening caller.new ≡ P.opening caller.old }
    ensures number { P.number caller.new ≡ P.number caller.old }
    ensures others { P.others caller.new ≡ P.others caller.old }
    ensures holding { GoesOnHolding (P.opening caller.old) (P.number caller.old) session
        (P.own caller.old) (P.own caller.new) }
    ensures read { IfOk result (HasNamedLines (P.opening caller.old) (P.number caller.old) session
        place cube.now statement.now snapshot.now names (P.own caller.old) (P.own caller.new)) }
{
    match query_by(alloc, statement, place, cube, names) {
        Ok((query, only)) => read_scanned(
            rt,
            board,
            caller,
            size,
            session,
            number,
            statement,
            cube.shared_shape(),
            query,
            only,
            snapshot,
            alloc,
        ),
        Err(_) => Err(AllocError),
    }
}

/// The lines of a SELECT that fits its cube, as the snapshot sees this that the session holds: the names of the cube are
/// copied, the statement is bound by them, and all shards are asked. The only error is out of memory, of this session or
/// of a cell. Whatever the session held, it holds.
pub(crate) fn read_lines<R: Wait, P: CellCaller<ShardCells>>(
    rt: &R,
    board: &Board<ShardCells>,
    caller: &mut P,
    size: &CoreSize,
    session: u32,
    number: u32,
    statement: &Statement,
    place: u32,
    cube: &Schema,
    snapshot: &Snapshot,
    alloc: Global,
) -> Result<Table, AllocError>
    requires board { P.calls_on board.now caller.old }
    requires callers { size.now.sessions + 2 + size.now.shards ≤ callers_of board.now }
    requires served { IsServed (P.opening caller.old) (P.number caller.old) session
        size.now.shards }
    requires ready { HoldsReady FitsShard CoreShardStands ShardAnswerSays (P.opening caller.old)
        (P.number caller.old) session (P.own caller.old) (Some snapshot.now) }
    requires told { (name : List ℕ) × IsToldOfCube (P.own caller.old) name place cube.now }
    requires form { is_select statement.now ≡ true }
    ensures board { P.calls_on board.now caller.new }
    ensures opening { P.opening caller.new ≡ P.opening caller.old }
    ensures number { P.number caller.new ≡ P.number caller.old }
    ensures others { P.others caller.new ≡ P.others caller.old }
    ensures holding { GoesOnHolding (P.opening caller.old) (P.number caller.old) session
        (P.own caller.old) (P.own caller.new) }
    ensures read { IfOk result (HasReadLines (P.opening caller.old) (P.number caller.old) session
        place cube.now statement.now snapshot.now (P.own caller.old) (P.own caller.new)) }
{
    match copy_names_of_cube::<CoreShard, R, P>(rt, board, caller, alloc, session, place, cube) {
        Ok(names) => read_named(
            rt, board, caller, size, session, number, statement, place, cube, names, snapshot,
            alloc,
        ),
        Err(_) => Err(AllocError),
    }
}
