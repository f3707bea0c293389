//! The rows of a batch are posted to the shards of their bricks, and their answers fetched.

ghost use Rattle.std.specs.Prelude.{◌≡◌, ℕ, ◌+◌, ◌≤◌, length, All, IfOk, OnErr};
ghost use Rattle.core_names.specs.KnownNumbers.{HasToldNumber};
ghost use Rattle.core_program.specs.Knowing.{IsClientOf};
ghost use Rattle.cube_values.specs.Batches.{HasWidths};
ghost use Rattle.cube_values.specs.declared.snapshot.Snapshot.{Snapshot};
ghost use Rattle.posted_pasts.specs.PostsAdded.{AddsNoOperation, LearnsThat};
ghost use Rattle.core_states.specs.LeftBehind.{AsksForNone, GoOnByCalls};
ghost use Rattle.job_groups.specs.AskedEach.{AreShardMails};
ghost use Rattle.session_snapshots.specs.KnownHolds.{HoldsWriter};
ghost use Rattle.linked_shards.specs.CellShards.{CoreShardStands};
ghost use Rattle.shard_events.specs.ShardsInRuns.{FitsShard, ShardAnswerSays};
ghost use Rattle.row_encoding.specs.CodedInserts.{HasCoords, HasNumbers};
ghost use Rattle.session_batches.specs.PutRows.{HoldsAfterPut};
ghost use Rattle.session_batches.specs.RowsOut.{HoldsRowsOut, HoldsSomeRowsOut, MayBeFetched};
ghost use Rattle.turn_board.specs.Passes.{callers_of};
ghost use Rattle.loaded_batches.specs.LoadFronts.{MayPutInto};
ghost use Rattle.loaded_batches.specs.LoadingCalls.{ArePosted, GoesOnLoading};

use board_callers::CellCaller;
use core_names::given_numbers_may_be_put;
use core_program::CoreSize;
use cube_schema::Schema;
use cube_values::{CodedRows, Snapshot};
use linked_shards::{CoreShard, ShardCells};
use posted_changes::{posted_rows_are_operations, posted_rows_stand_for_rows};
use session_batches::{PutEnd, RowsOut, fetch_rows, post_rows};
use std::alloc::{AllocError, Global};
use std::sync::Wait;
use turn_board::Board;

// Each row of a batch has as many items as the batch says.
fn rows_have_widths(rows: &CodedRows)
    ensures { All (HasWidths rows.now.dims rows.now.width) rows.now.rows }
{
    let _count = rows.len();
}

/// Posts the rows of a batch of the cube that the session was told of, where it was told of each number that
/// these have; whether it fetches the answers at once is said. Where memory is wanted for them nothing was posted.
pub(crate) fn post_told<R: Wait, P: CellCaller<ShardCells>>(
    rt: &R,
    board: &Board<ShardCells>,
    caller: &mut P,
    size: &CoreSize,
    session: u32,
    statement: u32,
    place: u32,
    cube: &Schema,
    rows: CodedRows,
    writer: &Snapshot,
    waits: bool,
    alloc: Global,
) -> Result<RowsOut, AllocError>
    requires board { P.calls_on board.now caller.old }
    requires callers { size.now.sessions + 2 + size.now.shards ≤ callers_of board.now }
    requires some { 1 ≤ size.now.shards }
    requires mails { AreShardMails FitsShard CoreShardStands ShardAnswerSays (P.opening caller.old)
        session size.now.shards (2 + size.now.shards) }
    requires into { MayPutInto (P.opening caller.old) (P.number caller.old) session
        (P.own caller.old) place cube.now }
    requires holds { HoldsWriter FitsShard CoreShardStands ShardAnswerSays (P.opening caller.old)
        (P.number caller.old) session (P.own caller.old) writer.now }
    requires inside { All (HasCoords cube.now) rows.rows }
    requires told { All (HasNumbers (HasToldNumber (P.own caller.old) place) cube.now) rows.rows }
    requires width { rows.width ≡ length cube.now.metrics }
    ensures board { P.calls_on board.now caller.new }
    ensures opening { P.opening caller.new ≡ P.opening caller.old }
    ensures number { P.number caller.new ≡ P.number caller.old }
    ensures others { P.others caller.new ≡ P.others caller.old }
    ensures goes { GoesOnLoading (P.opening caller.old) (P.number caller.old) session place
        writer.now.epoch (P.own caller.old) (P.own caller.new) }
    ensures none { GoOnByCalls FitsShard CoreShardStands ShardAnswerSays (P.opening caller.old)
        (P.number caller.old) session AsksForNone (P.own caller.old) (P.own caller.new) }
    ensures out { IfOk result (MayBeFetched size.now.shards) }
    ensures holds { IfOk result (λ out. HoldsRowsOut (P.opening caller.new) (P.number caller.new)
        session (P.own caller.new) writer.now out.shards.items) }
    ensures posted { IfOk result (λ out. ArePosted (P.opening caller.old) (P.number caller.old)
        session place writer.now.epoch rows.rows (P.own caller.old) (P.own caller.new)) }
    ensures err { OnErr result (P.own caller.new ≡ P.own caller.old) }
{
    given_numbers_may_be_put::<CoreShard>();
    posted_rows_are_operations();
    posted_rows_stand_for_rows();
    rows_have_widths(&rows);
    let shape = cube.shared_shape();
    post_rows(
        rt, board, caller, size, session, statement, place, shape, rows, writer, waits, alloc,
    )
}

/// Fetches the answers of rows that are out. It posts nothing, and asks for no text.
pub(crate) fn fetch_told<R: Wait, P: CellCaller<ShardCells>>(
    rt: &R,
    board: &Board<ShardCells>,
    caller: &mut P,
    size: &CoreSize,
    session: u32,
    out: RowsOut,
) -> PutEnd
    requires board { P.calls_on board.now caller.old }
    requires client { IsClientOf FitsShard CoreShardStands ShardAnswerSays (P.opening caller.old)
        (P.number caller.old) session }
    requires mails { AreShardMails FitsShard CoreShardStands ShardAnswerSays (P.opening caller.old)
        session size.now.shards (2 + size.now.shards) }
    requires out { MayBeFetched size.now.shards out }
    requires waits { HoldsSomeRowsOut (P.opening caller.old) (P.number caller.old) session
        (P.own caller.old) out.shards.items }
    ensures board { P.calls_on board.now caller.new }
    ensures opening { P.opening caller.new ≡ P.opening caller.old }
    ensures number { P.number caller.new ≡ P.number caller.old }
    ensures others { P.others caller.new ≡ P.others caller.old }
    ensures goes { (cube epoch : ℕ) → GoesOnLoading (P.opening caller.old) (P.number caller.old)
        session cube epoch (P.own caller.old) (P.own caller.new) }
    ensures none { GoOnByCalls FitsShard CoreShardStands ShardAnswerSays (P.opening caller.old)
        (P.number caller.old) session AsksForNone (P.own caller.old) (P.own caller.new) }
    ensures adds { LearnsThat FitsShard CoreShardStands ShardAnswerSays AddsNoOperation
        (P.opening caller.old) (P.number caller.old) session (P.own caller.old) (P.own caller.new) }
    ensures holds { (writer : Snapshot)
        → HoldsRowsOut (P.opening caller.old) (P.number caller.old) session (P.own caller.old)
        writer out.shards.items
        → HoldsAfterPut (P.opening caller.new) (P.number caller.new) session (P.own caller.new)
        writer result }
{
    fetch_rows(rt, board, caller, size, session, out)
}
