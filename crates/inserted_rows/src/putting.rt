//! Rows by coordinates are put on the shards of their bricks.

ghost use Rattle.std.specs.Prelude.{◌≡◌, ◌+◌, ◌≤◌, IfOk, OnErr};
ghost use mathlib.Core.List.{IsPrefix};
ghost use Rattle.core_program.specs.Knowing.{IsClientOf, IsSessionOf};
ghost use Rattle.cube_schema.specs.Schemas.{cube_of};
ghost use Rattle.inserted_rows.specs.RowsInTheEnd.{AreToldRows, IsToldOfCubeAt};
ghost use Rattle.job_groups.specs.AskedEach.{AreShardMails};
ghost use Rattle.known_cubes.specs.KnownCubes.{OpenWithStorableCubes};
ghost use Rattle.session_snapshots.specs.KnownHolds.{HoldsWriter};
ghost use Rattle.linked_shards.specs.CellShards.{CoreShardStands};
ghost use Rattle.session_batches.specs.PutRows.{HoldsAfterPut, LearnsOfRows};
ghost use Rattle.shard_events.specs.ShardsInRuns.{FitsShard, ShardAnswerSays};
ghost use Rattle.turn_board.specs.Passes.{callers_of};

use board_callers::CellCaller;
use core_program::CoreSize;
use cube_schema::Schema;
use cube_values::{CodedRows, Snapshot};
use linked_shards::ShardCells;
use session_batches::{PutEnd, put_rows};
use std::alloc::{AllocError, Global};
use std::sync::Wait;
use turn_board::Board;

/// Puts rows of a cube that the session was told of, by numbers that it was told, at the epoch of its writer. The first
/// shard that refuses its rows is handed back, and the session has then spoiled its write. Where memory is wanted for
/// the batches, nothing was posted.
pub fn put_told_rows<R: Wait, P: CellCaller<ShardCells>>(
    rt: &R,
    board: &Board<ShardCells>,
    caller: &mut P,
    size: &CoreSize,
    session: u32,
    statement: u32,
    place: u32,
    cube: &Schema,
    rows: CodedRows,
    writer: &Snapshot,
    alloc: Global,
) -> Result<PutEnd, AllocError>
    requires board { P.calls_on board.now caller.old }
    requires callers { size.now.sessions + 2 + size.now.shards ≤ callers_of board.now }
    requires some { 1 ≤ size.now.shards }
    requires client { IsClientOf FitsShard CoreShardStands ShardAnswerSays (P.opening caller.old)
        (P.number caller.old) session }
    requires session { IsSessionOf FitsShard CoreShardStands ShardAnswerSays (P.opening caller.old)
        session }
    requires mails { AreShardMails FitsShard CoreShardStands ShardAnswerSays (P.opening caller.old)
        session size.now.shards (2 + size.now.shards) }
    requires storable { OpenWithStorableCubes FitsShard CoreShardStands ShardAnswerSays
        (P.opening caller.old) }
    requires told { IsToldOfCubeAt (P.own caller.old) place cube.now }
    requires rows { AreToldRows (P.own caller.old) place cube.now rows }
    requires holds { HoldsWriter FitsShard CoreShardStands ShardAnswerSays (P.opening caller.old)
        (P.number caller.old) session (P.own caller.old) writer.now }
    ensures board { P.calls_on board.now caller.new }
    ensures opening { P.opening caller.new ≡ P.opening caller.old }
    ensures number { P.number caller.new ≡ P.number caller.old }
    ensures others { P.others caller.new ≡ P.others caller.old }
    ensures more { IsPrefix (P.own caller.old) (P.own caller.new) }
    ensures holds { IfOk result (λ end. HoldsAfterPut (P.opening caller.new) (P.number caller.new)
        session (P.own caller.new) writer.now end) }
    ensures learns { IfOk result (λ end. LearnsOfRows (P.opening caller.old) (P.number caller.old)
        session size.now.shards place (cube_of cube.now) writer.now.epoch rows.rows end
        (P.own caller.old) (P.own caller.new)) }
    ensures err { OnErr result (P.own caller.new ≡ P.own caller.old) }
{
    let shape = cube.shared_shape();
    let _rows = rows.len();
    put_rows(
        rt, board, caller, size, session, statement, place, shape, rows, writer, alloc,
    )
}
