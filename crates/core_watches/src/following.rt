//! A watch follows its rows to a newer reader.
ghost use Rattle.std.specs.Prelude.{◌≡◌, ◌+◌, ◌≤◌, [], ℕ, true, List, Option, IfOk};
ghost use Rattle.core_watches.specs.BoundReaders.{IsBoundInRuns, IsBoundWatch, OpenWithRowsOfCubes};
ghost use Rattle.core_watches.specs.WatchEnds.{WatchesCube};
ghost use Rattle.condition_spans.specs.Codes.{lists_at};
ghost use Rattle.core_watches.specs.KeptWatches.{HoldersHold, IsShownAt};
ghost use Rattle.cube_language.specs.Misfits.{FitsCube};
ghost use Rattle.cube_run.specs.StatementEntries.{is_watch};
ghost use Rattle.cube_values.specs.declared.query.BoundQuery.{BoundQuery};
ghost use Rattle.cube_values.specs.declared.snapshot.Snapshot.{Snapshot};
ghost use Rattle.known_cubes.specs.KnownCubes.{IsToldOfCube};
ghost use Rattle.session_snapshots.specs.KnownHolds.{HoldsReady, HoldsTheSame};
ghost use Rattle.linked_shards.specs.CellShards.{CoreShardStands};
ghost use Rattle.query_plan.specs.Bindings.{IsQueryOn};
ghost use Rattle.query_plan.specs.Ties.{AreDistinct};
ghost use Rattle.scripted_pasts.specs.Served.{IsServed};
ghost use Rattle.session_watches.specs.KnownReaders.{HoldersKeep};
ghost use Rattle.shard_events.specs.ShardsInRuns.{FitsShard, ShardAnswerSays};
ghost use Rattle.shard_statements.specs.OverShards.{LeavesOverShards};
ghost use Rattle.turn_board.specs.Passes.{callers_of};
ghost use Rattle.watch_holds.specs.HolderStates.{IsHolderOf, TwoReaders};
ghost use Rattle.watched_queries.specs.ReadersInRuns.{StandUpTo};

use crate::binding::{query_by, with_table};
use crate::kept::{CoreWatch, ShownWatch};
use board_callers::CellCaller;
use copied_names::copy_names_of_cube;
use core_program::CoreSize;
use core_states::CoreSession;
use cube_language::Statement;
use cube_schema::Schema;
use cube_values::NameLists;
use linked_shards::{CoreShard, ShardCells};
use std::alloc::{AllocError, Global};
use std::sync::Wait;
use turn_board::Board;
use watched_queries::{SessionWatch, follow_watch};

// The watch by names that were copied of its cube since the newer reader was opened.
fn follow_by_names<R: Wait, P: CellCaller<ShardCells>>(
    rt: &R,
    board: &Board<ShardCells>,
    caller: &mut P,
    size: &CoreSize,
    session: &CoreSession,
    statement: &Statement,
    place: u32,
    cube: &Schema,
    older: &SessionWatch,
    names: NameLists,
    holder: u32,
    epoch: u64,
    alloc: Global,
) -> Result<ShownWatch, AllocError>
    requires board { P.calls_on board.now caller.old }
    requires callers { size.now.sessions + 2 + size.now.shards ≤ callers_of board.now }
    requires served { IsServed (P.opening caller.old) (P.number caller.old) session.now.number
        size.now.shards }
    requires ready { (held : Option Snapshot) × HoldsReady FitsShard CoreShardStands
        ShardAnswerSays (P.opening caller.old) (P.number caller.old) session.now.number
        (P.own caller.old) held }
    requires holder { IsHolderOf session.now.number holder }
    requires readers { HoldersHold (P.opening caller.old) (P.number caller.old)
        session.now.number (P.own caller.old)
        (TwoReaders older.now.holder older.now.epoch holder epoch) }
    requires form { is_watch statement.now ≡ true }
    requires fits { FitsCube cube.now statement.now }
    requires told { (name : List ℕ) × IsToldOfCube (P.own caller.old) name place cube.now }
    requires binds { (query : BoundQuery) → query.cube ≡ place
        → IsQueryOn cube.now names statement.now query
        → IsBoundInRuns (P.opening caller.old) (P.number caller.old) (P.own caller.old) holder
        epoch names cube.now statement.now query }
    requires distinct { AreDistinct (lists_at names place) }
    requires shows { (query : BoundQuery) → query.cube ≡ place
        → IsQueryOn cube.now names statement.now query
        → StandUpTo (P.opening caller.old) (P.number caller.old) (P.own caller.old) query
        older.now.epoch older.now.kept.groups }
    ensures board { P.calls_on board.now caller.new }
    ensures opening { P.opening caller.new ≡ P.opening caller.old }
    ensures number { P.number caller.new ≡ P.number caller.old }
    ensures others { P.others caller.new ≡ P.others caller.old }
    ensures same { HoldsTheSame FitsShard CoreShardStands ShardAnswerSays session.now.number
        (P.opening caller.old) (P.number caller.old) (P.own caller.old) (P.opening caller.new)
        (P.number caller.new) (P.own caller.new) }
    ensures holders { HoldersKeep FitsShard CoreShardStands ShardAnswerSays session.now.number
        (P.opening caller.old) (P.number caller.old) (P.own caller.old) (P.opening caller.new)
        (P.number caller.new) (P.own caller.new) }
    ensures left { LeavesOverShards (P.opening caller.old) (P.number caller.old)
        session.now.number (P.own caller.old) (P.own caller.new) [] }
    ensures shown { IfOk result (IsShownAt (P.opening caller.new) (P.number caller.new)
        session.now.number (P.own caller.new) holder epoch place cube.now statement.now) }
{
    let bound = query_by(alloc, statement, place, cube, names)?;
    let shape = cube.shared_shape();
    let watch = follow_watch(
        rt,
        board,
        caller,
        size,
        session.number,
        session.statements,
        shape,
        older,
        &bound.query,
        holder,
        epoch,
        alloc,
    )?;
    with_table(watch, &bound.names)
}

/// The watch at a newer reader, once both are held: the names of the cube are copied anew, since more may have come that
/// the statement asks for, it is bound by them, and all shards are asked for what came and went. The only error is
/// out of memory. Whatever the session and its holders held, they hold.
pub(crate) fn follow_shown<R: Wait, P: CellCaller<ShardCells>>(
    rt: &R,
    board: &Board<ShardCells>,
    caller: &mut P,
    size: &CoreSize,
    session: &CoreSession,
    kept: &CoreWatch,
    holder: u32,
    epoch: u64,
    alloc: Global,
) -> Result<ShownWatch, AllocError>
    requires board { P.calls_on board.now caller.old }
    requires callers { size.now.sessions + 2 + size.now.shards ≤ callers_of board.now }
    requires served { IsServed (P.opening caller.old) (P.number caller.old) session.now.number
        size.now.shards }
    requires ready { (held : Option Snapshot) × HoldsReady FitsShard CoreShardStands
        ShardAnswerSays (P.opening caller.old) (P.number caller.old) session.now.number
        (P.own caller.old) held }
    requires rows { OpenWithRowsOfCubes (P.opening caller.old) }
    requires holder { IsHolderOf session.now.number holder }
    requires readers { HoldersHold (P.opening caller.old) (P.number caller.old)
        session.now.number (P.own caller.old)
        (TwoReaders kept.now.watch.holder kept.now.watch.epoch holder epoch) }
    requires bound { IsBoundWatch (P.opening caller.old) (P.number caller.old) (P.own caller.old)
        session.now.number kept.now.cube kept.now.asked kept.now.watch }
    requires watches { WatchesCube kept.now.asked kept.now.watch.query.cube kept.now.cube
        (P.own caller.old) }
    ensures board { P.calls_on board.now caller.new }
    ensures opening { P.opening caller.new ≡ P.opening caller.old }
    ensures number { P.number caller.new ≡ P.number caller.old }
    ensures others { P.others caller.new ≡ P.others caller.old }
    ensures same { HoldsTheSame FitsShard CoreShardStands ShardAnswerSays session.now.number
        (P.opening caller.old) (P.number caller.old) (P.own caller.old) (P.opening caller.new)
        (P.number caller.new) (P.own caller.new) }
    ensures holders { HoldersKeep FitsShard CoreShardStands ShardAnswerSays session.now.number
        (P.opening caller.old) (P.number caller.old) (P.own caller.old) (P.opening caller.new)
        (P.number caller.new) (P.own caller.new) }
    ensures left { LeavesOverShards (P.opening caller.old) (P.number caller.old)
        session.now.number (P.own caller.old) (P.own caller.new) [] }
    ensures shown { IfOk result (IsShownAt (P.opening caller.new) (P.number caller.new)
        session.now.number (P.own caller.new) holder epoch kept.now.watch.query.cube
        kept.now.cube kept.now.asked) }
{
    let place = kept.watch.query.cube;
    let names = copy_names_of_cube::<CoreShard, R, P>(
        rt,
        board,
        caller,
        alloc,
        session.number,
        place,
        &kept.cube,
    )?;
    follow_by_names(
        rt,
        board,
        caller,
        size,
        session,
        &kept.asked,
        place,
        &kept.cube,
        &kept.watch,
        names,
        holder,
        epoch,
        alloc,
    )
}
