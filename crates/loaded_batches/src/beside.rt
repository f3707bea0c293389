//! The next records are read while the rows before them are appended.

ghost use Rattle.std.specs.Prelude.{◌≡◌, ℕ, ◌+◌, ◌-◌, ◌≤◌, length, All, IfOk, OnOk};
ghost use Rattle.core_names.specs.CoreEncoders.{MayAskForCodes};
ghost use Rattle.core_names.specs.KnownNumbers.{HasToldNumber};
ghost use Rattle.cube_values.specs.declared.snapshot.Snapshot.{Snapshot};
ghost use Rattle.job_groups.specs.AskedEach.{AreShardMails};
ghost use Rattle.linked_shards.specs.CellShards.{CoreShardStands};
ghost use Rattle.posted_pasts.specs.PostsAdded.{AddsNoOperation, LearnsThat};
ghost use Rattle.row_encoding.specs.CodedInserts.{HasCoords, HasNumbers};
ghost use Rattle.session_batches.specs.RowsOut.{HoldsRowsOut, HoldsSomeRowsOut, MayBeFetched};
ghost use Rattle.session_groups.specs.ShardGroups.{HoldsOpenWriter};
ghost use Rattle.shard_events.specs.ShardsInRuns.{FitsShard, ShardAnswerSays};
ghost use Rattle.loaded_batches.specs.LoadFronts.{HoldsAfterReading, IsAfterReading, IsReadingOf, IsReadingOfRows};
ghost use Rattle.loaded_batches.specs.LoadTexts.{AsksForSuch};
ghost use Rattle.loaded_batches.specs.LoadingCalls.{GoesOnLoading};

use crate::putting::fetch_told;
use crate::taking::load_rows_by_caller;
use crate::turns::Reading;
use board_callers::CellCaller;
use core_names::CubeTexts;
use core_program::CoreSize;
use csv_load::Loader;
use cube_schema::Schema;
use cube_values::CodedRows;
use linked_shards::{CoreShard, ShardCells};
use row_encoding::{BadRecords, BatchEnd};
use session_batches::{PutEnd, RowsOut};
use std::alloc::{AllocError, Global};
use std::sync::Wait;
use turn_board::Board;

// What came of records, by how they ended and by what came of the rows before them.
fn reading_so(ended: Result<BatchEnd, AllocError>, put: PutEnd) -> Result<Reading, AllocError>
    ensures { IfOk result (IsReadingOf ended put) }
{
    match ended {
        Err(full) => Err(full),
        Ok(BatchEnd::TooMany) => match put {
            PutEnd::OutOfMemory { .. } => Err(AllocError),
            _ => Ok(Reading::TooMany),
        },
        Ok(BatchEnd::Full) => reading_rows(false, put),
        Ok(BatchEnd::End) => reading_rows(true, put),
    }
}

// Of rows that may be put.
fn reading_rows(last: bool, put: PutEnd) -> Result<Reading, AllocError>
    ensures { IfOk result (IsReadingOfRows last put) }
{
    match put {
        PutEnd::Done => Ok(Reading::Rows { last }),
        PutEnd::ShardFull { shard, rows } => Ok(Reading::ShardFull { shard, rows }),
        PutEnd::OutOfMemory { .. } => Err(AllocError),
    }
}

/// Leaves the next rows of a file in a batch while the shards append those before them, and then fetches what
/// came of these. The error is out of memory, here or at a shard, and after it the load is to be dropped.
pub(crate) fn read_beside<R: Wait, P: CellCaller<ShardCells>>(
    rt: &R,
    board: &Board<ShardCells>,
    caller: &mut P,
    size: &CoreSize,
    session: u32,
    place: u32,
    cube: &Schema,
    known: &mut CubeTexts,
    load: &mut Loader,
    allowed: u64,
    bad: &mut BadRecords,
    batch: &mut CodedRows,
    out: RowsOut,
    alloc: Global,
) -> Result<Reading, AllocError>
    requires board { P.calls_on board.now caller.old }
    requires mails { AreShardMails FitsShard CoreShardStands ShardAnswerSays (P.opening caller.old)
        session size.now.shards (2 + size.now.shards) }
    requires may { MayAskForCodes FitsShard CoreShardStands ShardAnswerSays (P.opening caller.old)
        (P.number caller.old) (P.own caller.old) session known.old place cube.now }
    requires out { MayBeFetched size.now.shards out }
    requires waits { HoldsSomeRowsOut (P.opening caller.old) (P.number caller.old) session
        (P.own caller.old) out.shards.items }
    requires cube { load.old.decl ≡ cube.now }
    requires few { bad.old.count ≤ allowed }
    requires counted { bad.old.count ≤ load.old.number }
    requires dims { batch.old.dims ≡ length cube.now.dims }
    requires width { batch.old.width ≡ length cube.now.metrics }
    ensures board { P.calls_on board.now caller.new }
    ensures opening { P.opening caller.new ≡ P.opening caller.old }
    ensures number { P.number caller.new ≡ P.number caller.old }
    ensures others { P.others caller.new ≡ P.others caller.old }
    ensures goes { (epoch : ℕ) → GoesOnLoading (P.opening caller.old) (P.number caller.old) session
        place epoch (P.own caller.old) (P.own caller.new) }
    ensures asked { AsksForSuch (P.opening caller.old) (P.number caller.old) place cube.now session
        (allowed - bad.old.count) load.old (P.own caller.old) (P.own caller.new) }
    ensures adds { LearnsThat FitsShard CoreShardStands ShardAnswerSays AddsNoOperation
        (P.opening caller.old) (P.number caller.old) session (P.own caller.old) (P.own caller.new) }
    ensures may { MayAskForCodes FitsShard CoreShardStands ShardAnswerSays (P.opening caller.new)
        (P.number caller.new) (P.own caller.new) session known.new place cube.now }
    ensures open { (writer : Snapshot)
        → HoldsRowsOut (P.opening caller.old) (P.number caller.old) session (P.own caller.old)
        writer out.shards.items
        → HoldsOpenWriter (P.opening caller.new) (P.number caller.new) session (P.own caller.new)
        writer }
    ensures holds { (writer : Snapshot)
        → HoldsRowsOut (P.opening caller.old) (P.number caller.old) session (P.own caller.old)
        writer out.shards.items
        → IfOk result (HoldsAfterReading (P.opening caller.new) (P.number caller.new) session
        (P.own caller.new) writer) }
    ensures read { IfOk result (IsAfterReading (P.opening caller.new) (P.number caller.new) place
        cube.now allowed (P.own caller.new) load.old load.new bad.old bad.new batch.new.rows) }
    ensures inside { OnOk result (All (HasCoords cube.now) batch.new.rows) }
    ensures told { OnOk result
        (All (HasNumbers (HasToldNumber (P.own caller.new) place) cube.now) batch.new.rows) }
    ensures width { OnOk result (batch.new.width ≡ length cube.now.metrics) }
{
    let ended = load_rows_by_caller::<CoreShard, R, P>(
        rt, board, caller, known, alloc, session, place, cube, load, allowed, bad, batch,
    );
    let put = fetch_told(rt, board, caller, size, session, out);
    reading_so(ended, put)
}
