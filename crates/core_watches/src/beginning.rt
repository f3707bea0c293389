//! A watch begins at a reader that leads.
ghost use Rattle.std.specs.Prelude.{◌≡◌, ◌+◌, ◌≤◌, [], ℕ, true, List, Option, IfOk};
ghost use Rattle.core_watches.specs.BoundReaders.{IsBoundInRuns};
ghost use Rattle.condition_spans.specs.Codes.{lists_at};
ghost use Rattle.core_watches.specs.KeptWatches.{HoldersHold, IsShownAt};
ghost use Rattle.cube_language.specs.Misfits.{FitsCube};
ghost use Rattle.cube_run.specs.StatementEntries.{is_watch};
ghost use Rattle.cube_values.specs.declared.query.BoundQuery.{BoundQuery};
ghost use Rattle.cube_values.specs.declared.snapshot.Snapshot.{Snapshot};
ghost use Rattle.known_cubes.specs.KnownCubes.{IsToldOfCube};
ghost use Rattle.session_snapshots.specs.KnownHolds.{HoldsReady, HoldsTheSame};
ghost use Rattle.linked_shards.specs.CellShards.{CoreShardStands};
ghost use Rattle.query_plan.specs.Bindings.{IsQueryOn};
ghost use Rattle.query_plan.specs.Ties.{AreDistinct};
ghost use Rattle.scripted_pasts.specs.Served.{IsServed};
ghost use Rattle.session_watches.specs.KnownReaders.{HoldersKeep};
ghost use Rattle.shard_events.specs.ShardsInRuns.{FitsShard, ShardAnswerSays};
ghost use Rattle.shard_statements.specs.OverShards.{LeavesOverShards};
ghost use Rattle.turn_board.specs.Passes.{callers_of};
ghost use Rattle.watch_holds.specs.HolderStates.{IsHolderOf, LeadingReader};

use crate::binding::{query_by, with_table};
use crate::kept::ShownWatch;
use board_callers::CellCaller;
use copied_names::copy_names_of_cube;
use core_program::CoreSize;
use core_states::CoreSession;
use cube_language::Statement;
use cube_schema::Schema;
use cube_values::NameLists;
use linked_shards::{CoreShard, ShardCells};
use std::alloc::{AllocError, Global};
use std::sync::Wait;
use turn_board::Board;
use watched_queries::begin_watch;

// The watch by names that were copied of its cube since the reader was opened.
fn begin_by_names<R: Wait, P: CellCaller<ShardCells>>(
    rt: &R,
    board: &Board<ShardCells>,
    caller: &mut P,
    size: &CoreSize,
    session: &CoreSession,
    statement: &Statement,
    place: u32,
    cube: &Schema,
    names: NameLists,
    holder: u32,
    epoch: u64,
    alloc: Global,
) -> Result<ShownWatch, AllocError>
    requires board { P.calls_on board.now caller.old }
    requires callers { size.now.sessions + 2 + size.now.shards ≤ callers_of board.now }
    requires served { IsServed (P.opening caller.old) (P.number caller.old) session.now.number
        size.now.shards }
    requires ready { (held : Option Snapshot) × HoldsReady FitsShard CoreShardStands
        ShardAnswerSays (P.opening caller.old) (P.number caller.old) session.now.number
        (P.own caller.old) held }
    requires holder { IsHolderOf session.now.number holder }
    requires leads { HoldersHold (P.opening caller.old) (P.number caller.old) session.now.number
        (P.own caller.old) (LeadingReader holder epoch) }
    requires form { is_watch statement.now ≡ true }
    requires fits { FitsCube cube.now statement.now }
    requires told { (name : List ℕ) × IsToldOfCube (P.own caller.old) name place cube.now }
    requires binds { (query : BoundQuery) → query.cube ≡ place
        → IsQueryOn cube.now names statement.now query
        → IsBoundInRuns (P.opening caller.old) (P.number caller.old) (P.own caller.old) holder
        epoch names cube.now statement.now query }
    requires distinct { AreDistinct (lists_at names place) }
    ensures board { P.calls_on board.now caller.new }
    ensures opening { P.opening caller.new ≡ P.opening caller.old }
    ensures number { P.number caller.new ≡ P.number caller.old }
    ensures others { P.others caller.new ≡ P.others caller.old }
    ensures same { HoldsTheSame FitsShard CoreShardStands ShardAnswerSays session.now.number
        (P.opening caller.old) (P.number caller.old) (P.own caller.old) (P.opening caller.new)
        (P.number caller.new) (P.own caller.new) }
    ensures holders { HoldersKeep FitsShard CoreShardStands ShardAnswerSays session.now.number
        (P.opening caller.old) (P.number caller.old) (P.own caller.old) (P.opening caller.new)
        (P.number caller.new) (P.own caller.new) }
    ensures left { LeavesOverShards (P.opening caller.old) (P.number caller.old)
        session.now.number (P.own caller.old) (P.own caller.new) [] }
    ensures shown { IfOk result (IsShownAt (P.opening caller.new) (P.number caller.new)
        session.now.number (P.own caller.new) holder epoch place cube.now statement.now) }
{
    let bound = query_by(alloc, statement, place, cube, names)?;
    let shape = cube.shared_shape();
    let watch = begin_watch(
        rt,
        board,
        caller,
        size,
        session.number,
        session.statements,
        shape,
        &bound.query,
        holder,
        epoch,
        alloc,
    )?;
    with_table(watch, &bound.names)
}

/// Begins the watch of a statement that fits its cube, once a reader leads: the names of the cube are copied, the statement
/// is bound by them, and all shards are asked for what the reader sees. The only error is out of memory. Whatever the
/// session and its holders held, they hold.
pub(crate) fn begin_shown<R: Wait, P: CellCaller<ShardCells>>(
    rt: &R,
    board: &Board<ShardCells>,
    caller: &mut P,
    size: &CoreSize,
    session: &CoreSession,
    statement: &Statement,
    place: u32,
    cube: &Schema,
    holder: u32,
    epoch: u64,
    alloc: Global,
) -> Result<ShownWatch, AllocError>
    requires board { P.calls_on board.now caller.old }
    requires callers { size.now.sessions + 2 + size.now.shards ≤ callers_of board.now }
    requires served { IsServed (P.opening caller.old) (P.number caller.old) session.now.number
        size.now.shards }
    requires ready { (held : Option Snapshot) × HoldsReady FitsShard CoreShardStands
        ShardAnswerSays (P.opening caller.old) (P.number caller.old) session.now.number
        (P.own caller.old) held }
    requires holder { IsHolderOf session.now.number holder }
    requires leads { HoldersHold (P.opening caller.old) (P.number caller.old) session.now.number
        (P.own caller.old) (LeadingReader holder epoch) }
    requires form { is_watch statement.now ≡ true }
    requires fits { FitsCube cube.now statement.now }
    requires told { (name : List ℕ) × IsToldOfCube (P.own caller.old) name place cube.now }
    ensures board { P.calls_on board.now caller.new }
    ensures opening { P.opening caller.new ≡ P.opening caller.old }
    ensures number { P.number caller.new ≡ P.number caller.old }
    ensures others { P.others caller.new ≡ P.others caller.old }
    ensures same { HoldsTheSame FitsShard CoreShardStands ShardAnswerSays session.now.number
        (P.opening caller.old) (P.number caller.old) (P.own caller.old) (P.opening caller.new)
        (P.number caller.new) (P.own caller.new) }
    ensures holders { HoldersKeep FitsShard CoreShardStands ShardAnswerSays session.now.number
        (P.opening caller.old) (P.number caller.old) (P.own caller.old) (P.opening caller.new)
        (P.number caller.new) (P.own caller.new) }
    ensures left { LeavesOverShards (P.opening caller.old) (P.number caller.old)
        session.now.number (P.own caller.old) (P.own caller.new) [] }
    ensures shown { IfOk result (IsShownAt (P.opening caller.new) (P.number caller.new)
        session.now.number (P.own caller.new) holder epoch place cube.now statement.now) }
{
    let names = copy_names_of_cube::<CoreShard, R, P>(
        rt,
        board,
        caller,
        alloc,
        session.number,
        place,
        cube,
    )?;
    begin_by_names(
        rt, board, caller, size, session, statement, place, cube, names, holder, epoch, alloc,
    )
}
