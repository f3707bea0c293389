//! The records that are left when a shard was full.

ghost use Rattle.std.specs.Prelude.{◌≡◌, ◌-◌, ◌≤◌, IfOk};
ghost use Rattle.core_names.specs.AskedNames.{GoOnByNames};
ghost use Rattle.core_names.specs.CoreEncoders.{MayAskForCodes};
ghost use Rattle.linked_shards.specs.CellShards.{CoreShardStands};
ghost use Rattle.shard_events.specs.ShardsInRuns.{FitsShard, ShardAnswerSays};
ghost use Rattle.loaded_batches.specs.LoadFronts.{IsAfterRest};
ghost use Rattle.loaded_batches.specs.LoadTexts.{HasAskedForSuch};

use crate::batches::MOST_BATCHES;
use crate::taking::load_rows_by_caller;
use board_callers::CellCaller;
use core_names::CubeTexts;
use csv_load::Loader;
use cube_schema::Schema;
use cube_values::CodedRows;
use linked_shards::{CoreShard, ShardCells};
use row_encoding::{BadRecords, BatchEnd};
use std::alloc::{AllocError, Global};
use std::sync::Wait;
use turn_board::Board;

/// Takes the records that a file has left, of which no row is put any more: whether too many of them are bad
/// is the answer to the LOAD all the same. The error is out of memory, and after it the load is to be
/// dropped.
pub(crate) fn take_rest<R: Wait, P: CellCaller<ShardCells>>(
    rt: &R,
    board: &Board<ShardCells>,
    caller: &mut P,
    session: u32,
    place: u32,
    cube: &Schema,
    known: &mut CubeTexts,
    load: &mut Loader,
    allowed: u64,
    bad: &mut BadRecords,
    alloc: Global,
) -> Result<BatchEnd, AllocError>
    requires board { P.calls_on board.now caller.old }
    requires may { MayAskForCodes FitsShard CoreShardStands ShardAnswerSays (P.opening caller.old)
        (P.number caller.old) (P.own caller.old) session known.old place cube.now }
    requires cube { load.old.decl ≡ cube.now }
    requires few { bad.old.count ≤ allowed }
    requires counted { bad.old.count ≤ load.old.number }
    ensures board { P.calls_on board.now caller.new }
    ensures opening { P.opening caller.new ≡ P.opening caller.old }
    ensures number { P.number caller.new ≡ P.number caller.old }
    ensures others { P.others caller.new ≡ P.others caller.old }
    ensures asks { GoOnByNames (P.number caller.old) (P.own caller.old) (P.own caller.new) }
    ensures asked { HasAskedForSuch (P.opening caller.new) (P.number caller.new) place cube.now
        (allowed - bad.old.count) load.old (P.own caller.old) (P.own caller.new) }
    ensures may { MayAskForCodes FitsShard CoreShardStands ShardAnswerSays (P.opening caller.new)
        (P.number caller.new) (P.own caller.new) session known.new place cube.now }
    ensures rest { IfOk result (IsAfterRest (P.opening caller.new) (P.number caller.new) place
        cube.now allowed (P.own caller.new) load.old load.new bad.old bad.new) }
{
    let decl = cube.decl();
    let mut rows = CodedRows::new(alloc, decl.dims.len(), decl.metrics.len());
    'batches: for _batch in 0..MOST_BATCHES {
        match load_rows_by_caller::<CoreShard, R, P>(
            rt, board, caller, known, alloc, session, place, cube, load, allowed, bad, &mut rows,
        )? {
            BatchEnd::Full => {}
            BatchEnd::End => return Ok(BatchEnd::End),
            BatchEnd::TooMany => return Ok(BatchEnd::TooMany),
        }
    }
    Err(AllocError)
}
