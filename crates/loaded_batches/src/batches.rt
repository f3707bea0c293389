//! The records of a file, one batch after the other.

ghost use Rattle.std.specs.Prelude.{◌≡◌, ℕ, ◌+◌, ◌-◌, ◌≤◌, length, All, IfOk, OnErr};
ghost use Rattle.core_names.specs.CoreEncoders.{MayAskForCodes};
ghost use Rattle.core_names.specs.KnownNumbers.{HasToldNumber};
ghost use Rattle.core_program.specs.Knowing.{IsClientOf};
ghost use Rattle.core_states.specs.LeftBehind.{AsksForNone, GoOnByCalls};
ghost use Rattle.job_groups.specs.AskedEach.{AreShardMails};
ghost use Rattle.session_snapshots.specs.KnownHolds.{HoldsWriter};
ghost use Rattle.linked_shards.specs.CellShards.{CoreShardStands};
ghost use Rattle.shard_events.specs.ShardsInRuns.{FitsShard, ShardAnswerSays};
ghost use Rattle.posted_pasts.specs.PostsAdded.{AddsNoOperation, LearnsThat};
ghost use Rattle.row_encoding.specs.CodedInserts.{HasCoords, HasNumbers};
ghost use Rattle.session_batches.specs.RowsOut.{HoldsRowsOut, MayBeFetched};
ghost use Rattle.session_groups.specs.ShardGroups.{HoldsOpenWriter};
ghost use Rattle.turn_board.specs.Passes.{callers_of};
ghost use Rattle.loaded_batches.specs.LoadFronts.{HoldsAfterTurn, IsAfterLast, IsAfterTurn, IsAfterTurns, IsPostedAs, MayBeFetchedAfter, MayPutInto};
ghost use Rattle.loaded_batches.specs.LoadTexts.{AsksForSuch};
ghost use Rattle.loaded_batches.specs.LoadingCalls.{ArePosted, GoesOnLoading};

use crate::beside::read_beside;
use crate::putting::{fetch_told, post_told};
use crate::turns::{LoadStop, LoadTurn, Reading};
use board_callers::CellCaller;
use core_names::CubeTexts;
use core_program::CoreSize;
use csv_load::Loader;
use cube_schema::Schema;
use cube_values::{CodedRows, Snapshot};
use linked_shards::ShardCells;
use row_encoding::BadRecords;
use session_batches::{PutEnd, RowsOut};
use std::alloc::{AllocError, Global};
use std::sync::Wait;
use turn_board::Board;

/// How many batches are taken at most. No file that is loaded has as many.
pub(crate) const MOST_BATCHES: u32 = 4_294_967_295;

// Posts the rows of a batch, the last or not. Who posts the last waits for its answers.
fn post_turn<R: Wait, P: CellCaller<ShardCells>>(
    rt: &R,
    board: &Board<ShardCells>,
    caller: &mut P,
    size: &CoreSize,
    session: u32,
    statement: u32,
    place: u32,
    cube: &Schema,
    rows: CodedRows,
    last: bool,
    writer: &Snapshot,
    alloc: Global,
) -> Result<LoadTurn, AllocError>
    requires board { P.calls_on board.now caller.old }
    requires callers { size.now.sessions + 2 + size.now.shards ≤ callers_of board.now }
    requires some { 1 ≤ size.now.shards }
    requires mails { AreShardMails FitsShard CoreShardStands ShardAnswerSays (P.opening caller.old)
        session size.now.shards (2 + size.now.shards) }
    requires into { MayPutInto (P.opening caller.old) (P.number caller.old) session
        (P.own caller.old) place cube.now }
    requires holds { HoldsWriter FitsShard CoreShardStands ShardAnswerSays (P.opening caller.old)
        (P.number caller.old) session (P.own caller.old) writer.now }
    requires inside { All (HasCoords cube.now) rows.rows }
    requires told { All (HasNumbers (HasToldNumber (P.own caller.old) place) cube.now) rows.rows }
    requires width { rows.width ≡ length cube.now.metrics }
    ensures board { P.calls_on board.now caller.new }
    ensures opening { P.opening caller.new ≡ P.opening caller.old }
    ensures number { P.number caller.new ≡ P.number caller.old }
    ensures others { P.others caller.new ≡ P.others caller.old }
    ensures goes { GoesOnLoading (P.opening caller.old) (P.number caller.old) session place
        writer.now.epoch (P.own caller.old) (P.own caller.new) }
    ensures none { GoOnByCalls FitsShard CoreShardStands ShardAnswerSays (P.opening caller.old)
        (P.number caller.old) session AsksForNone (P.own caller.old) (P.own caller.new) }
    ensures open { OnErr result (HoldsOpenWriter (P.opening caller.new) (P.number caller.new)
        session (P.own caller.new) writer.now) }
    ensures holds { IfOk result (HoldsAfterTurn (P.opening caller.new) (P.number caller.new)
        session (P.own caller.new) writer.now) }
    ensures out { IfOk result (MayBeFetchedAfter size.now.shards) }
    ensures posted { IfOk result (λ turn. ArePosted (P.opening caller.old) (P.number caller.old)
        session place writer.now.epoch rows.rows (P.own caller.old) (P.own caller.new)) }
    ensures turn { IfOk result (IsPostedAs last) }
{
    let out = post_told(
        rt, board, caller, size, session, statement, place, cube, rows, writer, last, alloc,
    )?;
    Ok(LoadTurn::Posted { out, last })
}

// Reads the next records of a file, at most a batch, while the rows before them are appended, and then posts the
// rows among them, unless one bad record too many was found or a shard was full. The error is out of memory, and
// after it the load is to be dropped.
fn load_turn<R: Wait, P: CellCaller<ShardCells>>(
    rt: &R,
    board: &Board<ShardCells>,
    caller: &mut P,
    size: &CoreSize,
    session: u32,
    statement: u32,
    place: u32,
    cube: &Schema,
    known: &mut CubeTexts,
    load: &mut Loader,
    allowed: u64,
    bad: &mut BadRecords,
    writer: &Snapshot,
    out: RowsOut,
    alloc: Global,
) -> Result<LoadTurn, AllocError>
    requires board { P.calls_on board.now caller.old }
    requires callers { size.now.sessions + 2 + size.now.shards ≤ callers_of board.now }
    requires some { 1 ≤ size.now.shards }
    requires mails { AreShardMails FitsShard CoreShardStands ShardAnswerSays (P.opening caller.old)
        session size.now.shards (2 + size.now.shards) }
    requires may { MayAskForCodes FitsShard CoreShardStands ShardAnswerSays (P.opening caller.old)
        (P.number caller.old) (P.own caller.old) session known.old place cube.now }
    requires out { MayBeFetched size.now.shards out }
    requires holds { HoldsRowsOut (P.opening caller.old) (P.number caller.old) session
        (P.own caller.old) writer.now out.shards.items }
    requires cube { load.old.decl ≡ cube.now }
    requires few { bad.old.count ≤ allowed }
    requires counted { bad.old.count ≤ load.old.number }
    ensures board { P.calls_on board.now caller.new }
    ensures opening { P.opening caller.new ≡ P.opening caller.old }
    ensures number { P.number caller.new ≡ P.number caller.old }
    ensures others { P.others caller.new ≡ P.others caller.old }
    ensures goes { GoesOnLoading (P.opening caller.old) (P.number caller.old) session place
        writer.now.epoch (P.own caller.old) (P.own caller.new) }
    ensures asked { AsksForSuch (P.opening caller.old) (P.number caller.old) place cube.now session
        (allowed - bad.old.count) load.old (P.own caller.old) (P.own caller.new) }
    ensures may { MayAskForCodes FitsShard CoreShardStands ShardAnswerSays (P.opening caller.new)
        (P.number caller.new) (P.own caller.new) session known.new place cube.now }
    ensures open { OnErr result (HoldsOpenWriter (P.opening caller.new) (P.number caller.new)
        session (P.own caller.new) writer.now) }
    ensures holds { IfOk result (HoldsAfterTurn (P.opening caller.new) (P.number caller.new)
        session (P.own caller.new) writer.now) }
    ensures out { IfOk result (MayBeFetchedAfter size.now.shards) }
    ensures turn { IfOk result (IsAfterTurn (P.opening caller.new) (P.number caller.new) session
        place cube.now allowed writer.now (P.own caller.old) (P.own caller.new) load.old load.new
        bad.old bad.new) }
{
    let decl = cube.decl();
    let mut rows = CodedRows::new(alloc, decl.dims.len(), decl.metrics.len());
    match read_beside(
        rt, board, caller, size, session, place, cube, known, load, allowed, bad, &mut rows, out,
        alloc,
    )? {
        Reading::Rows { last } => post_turn(
            rt, board, caller, size, session, statement, place, cube, rows, last, writer, alloc,
        ),
        Reading::TooMany => Ok(LoadTurn::TooMany),
        Reading::ShardFull { shard, rows } => Ok(LoadTurn::ShardFull { shard, rows }),
    }
}

// Fetches the answers of the last rows, which are out. The error is out of memory at a shard.
fn end_turns<R: Wait, P: CellCaller<ShardCells>>(
    rt: &R,
    board: &Board<ShardCells>,
    caller: &mut P,
    size: &CoreSize,
    session: u32,
    writer: &Snapshot,
    out: RowsOut,
) -> Result<LoadStop, AllocError>
    requires board { P.calls_on board.now caller.old }
    requires client { IsClientOf FitsShard CoreShardStands ShardAnswerSays (P.opening caller.old)
        (P.number caller.old) session }
    requires mails { AreShardMails FitsShard CoreShardStands ShardAnswerSays (P.opening caller.old)
        session size.now.shards (2 + size.now.shards) }
    requires out { MayBeFetched size.now.shards out }
    requires holds { HoldsRowsOut (P.opening caller.old) (P.number caller.old) session
        (P.own caller.old) writer.now out.shards.items }
    ensures board { P.calls_on board.now caller.new }
    ensures opening { P.opening caller.new ≡ P.opening caller.old }
    ensures number { P.number caller.new ≡ P.number caller.old }
    ensures others { P.others caller.new ≡ P.others caller.old }
    ensures goes { (cube epoch : ℕ) → GoesOnLoading (P.opening caller.old) (P.number caller.old)
        session cube epoch (P.own caller.old) (P.own caller.new) }
    ensures none { GoOnByCalls FitsShard CoreShardStands ShardAnswerSays (P.opening caller.old)
        (P.number caller.old) session AsksForNone (P.own caller.old) (P.own caller.new) }
    ensures adds { LearnsThat FitsShard CoreShardStands ShardAnswerSays AddsNoOperation
        (P.opening caller.old) (P.number caller.old) session (P.own caller.old) (P.own caller.new) }
    ensures holds { HoldsOpenWriter (P.opening caller.new) (P.number caller.new) session
        (P.own caller.new) writer.now }
    ensures stop { IfOk result (IsAfterLast (P.opening caller.new) (P.number caller.new) session
        (P.own caller.new) writer.now) }
{
    match fetch_told(rt, board, caller, size, session, out) {
        PutEnd::Done => Ok(LoadStop::Done),
        PutEnd::ShardFull { shard, rows } => Ok(LoadStop::ShardFull { shard, rows }),
        PutEnd::OutOfMemory { .. } => Err(AllocError),
    }
}

/// Takes the records of a file and puts the rows among them, batch by batch, until no record is left, one bad
/// record too many is found, or a shard is full. While a batch is appended the next is read. The error is out of memory, and after it the load is to be
/// dropped.
pub(crate) fn load_turns<R: Wait, P: CellCaller<ShardCells>>(
    rt: &R,
    board: &Board<ShardCells>,
    caller: &mut P,
    size: &CoreSize,
    session: u32,
    statement: u32,
    place: u32,
    cube: &Schema,
    known: &mut CubeTexts,
    load: &mut Loader,
    allowed: u64,
    bad: &mut BadRecords,
    writer: &Snapshot,
    alloc: Global,
) -> Result<LoadStop, AllocError>
    requires board { P.calls_on board.now caller.old }
    requires callers { size.now.sessions + 2 + size.now.shards ≤ callers_of board.now }
    requires some { 1 ≤ size.now.shards }
    requires mails { AreShardMails FitsShard CoreShardStands ShardAnswerSays (P.opening caller.old)
        session size.now.shards (2 + size.now.shards) }
    requires may { MayAskForCodes FitsShard CoreShardStands ShardAnswerSays (P.opening caller.old)
        (P.number caller.old) (P.own caller.old) session known.old place cube.now }
    requires holds { HoldsWriter FitsShard CoreShardStands ShardAnswerSays (P.opening caller.old)
        (P.number caller.old) session (P.own caller.old) writer.now }
    requires cube { load.old.decl ≡ cube.now }
    requires few { bad.old.count ≤ allowed }
    requires counted { bad.old.count ≤ load.old.number }
    ensures board { P.calls_on board.now caller.new }
    ensures opening { P.opening caller.new ≡ P.opening caller.old }
    ensures number { P.number caller.new ≡ P.number caller.old }
    ensures others { P.others caller.new ≡ P.others caller.old }
    ensures goes { GoesOnLoading (P.opening caller.old) (P.number caller.old) session place
        writer.now.epoch (P.own caller.old) (P.own caller.new) }
    ensures asked { AsksForSuch (P.opening caller.old) (P.number caller.old) place cube.now session
        (allowed - bad.old.count) load.old (P.own caller.old) (P.own caller.new) }
    ensures may { MayAskForCodes FitsShard CoreShardStands ShardAnswerSays (P.opening caller.new)
        (P.number caller.new) (P.own caller.new) session known.new place cube.now }
    ensures holds { HoldsOpenWriter (P.opening caller.new) (P.number caller.new) session
        (P.own caller.new) writer.now }
    ensures turns { IfOk result (IsAfterTurns (P.opening caller.new) (P.number caller.new) session
        place cube.now allowed writer.now (P.own caller.old) (P.own caller.new) load.old load.new
        bad.old bad.new) }
{
    let mut out = RowsOut::none(alloc);
    'turns: for _turn in 0..MOST_BATCHES {
        match load_turn(
            rt, board, caller, size, session, statement, place, cube, known, load, allowed, bad,
            writer, out, alloc,
        )? {
            LoadTurn::Posted { out: posted, last } => {
                if last {
                    return end_turns(rt, board, caller, size, session, writer, posted);
                }
                out = posted;
            }
            LoadTurn::TooMany => return Ok(LoadStop::TooMany),
            LoadTurn::ShardFull { shard, rows } => return Ok(LoadStop::ShardFull { shard, rows }),
        }
    }
    end_turns(rt, board, caller, size, session, writer, out)?;
    Err(AllocError)
}
