//! All records of a file.

ghost use Rattle.std.specs.Prelude.{◌≡◌, ◌+◌, ◌-◌, ◌≤◌, IfOk};
ghost use Rattle.core_names.specs.AskedNames.{GoOnByNames};
ghost use Rattle.core_names.specs.CoreEncoders.{MayAskForCodes};
ghost use Rattle.job_groups.specs.AskedEach.{AreShardMails};
ghost use Rattle.session_snapshots.specs.KnownHolds.{HoldsWriter};
ghost use Rattle.linked_shards.specs.CellShards.{CoreShardStands};
ghost use Rattle.session_groups.specs.ShardGroups.{HoldsOpenWriter};
ghost use Rattle.shard_events.specs.ShardsInRuns.{FitsShard, ShardAnswerSays};
ghost use Rattle.turn_board.specs.Passes.{callers_of};
ghost use Rattle.loaded_batches.specs.LoadEnds.{HasEndedSo, HoldsAfterLoad};
ghost use Rattle.loaded_batches.specs.LoadFronts.{IsEndOfRest, end_of_rest};
ghost use Rattle.loaded_batches.specs.LoadTexts.{AsksForSuch, HasAskedForSuch};
ghost use Rattle.loaded_batches.specs.LoadingCalls.{GoesOnLoading};

use crate::batches::load_turns;
use crate::rest::take_rest;
use crate::turns::LoadStop;
use board_callers::CellCaller;
use core_names::CubeTexts;
use core_program::CoreSize;
use csv_load::Loader;
use cube_schema::Schema;
use cube_values::Snapshot;
use linked_shards::ShardCells;
use row_encoding::{BadRecords, BatchEnd};
use std::alloc::{AllocError, Global};
use std::sync::Wait;
use turn_board::Board;

/// What came of the records of a LOAD.
#[derive(Debug, Drop)]
pub enum LoadEnd {
    /// The rows among them are with their shards, so many, and these records are bad.
    Stored { rows: u64, bad: BadRecords },
    /// So many are bad, one more than are allowed.
    TooMany { rejected: u64 },
    /// A shard has so many rows, and its own are too many besides.
    ShardFull { shard: u32, rows: u64 },
    /// Memory ran out, here or at a shard.
    OutOfMemory,
}

// The end of a LOAD of which a shard was full, by how the records ended that were left.
fn end_of_rest(ended: BatchEnd, bad: &BadRecords, shard: u32, rows: u64) -> LoadEnd
    ensures { result ≡ end_of_rest ended bad.now shard rows }
{
    match ended {
        BatchEnd::End => LoadEnd::ShardFull { shard, rows },
        BatchEnd::TooMany => LoadEnd::TooMany {
            rejected: bad.count,
        },
        BatchEnd::Full => LoadEnd::OutOfMemory,
    }
}

// Looks at the records that are left when a shard was full, which is the answer unless too many are bad.
fn refuse_full<R: Wait, P: CellCaller<ShardCells>>(
    rt: &R,
    board: &Board<ShardCells>,
    caller: &mut P,
    session: u32,
    place: u32,
    cube: &Schema,
    known: &mut CubeTexts,
    load: &mut Loader,
    allowed: u64,
    bad: &mut BadRecords,
    shard: u32,
    rows: u64,
    alloc: Global,
) -> Result<LoadEnd, AllocError>
    requires board { P.calls_on board.now caller.old }
    requires may { MayAskForCodes FitsShard CoreShardStands ShardAnswerSays (P.opening caller.old)
        (P.number caller.old) (P.own caller.old) session known.old place cube.now }
    requires cube { load.old.decl ≡ cube.now }
    requires few { bad.old.count ≤ allowed }
    requires counted { bad.old.count ≤ load.old.number }
    ensures board { P.calls_on board.now caller.new }
    ensures opening { P.opening caller.new ≡ P.opening caller.old }
    ensures number { P.number caller.new ≡ P.number caller.old }
    ensures others { P.others caller.new ≡ P.others caller.old }
    ensures asks { GoOnByNames (P.number caller.old) (P.own caller.old) (P.own caller.new) }
    ensures asked { HasAskedForSuch (P.opening caller.new) (P.number caller.new) place cube.now
        (allowed - bad.old.count) load.old (P.own caller.old) (P.own caller.new) }
    ensures may { MayAskForCodes FitsShard CoreShardStands ShardAnswerSays (P.opening caller.new)
        (P.number caller.new) (P.own caller.new) session known.new place cube.now }
    ensures ended { IfOk result (IsEndOfRest (P.opening caller.new) (P.number caller.new) place
        cube.now allowed (P.own caller.new) load.old load.new bad.old bad.new) }
{
    let ended = take_rest(
        rt, board, caller, session, place, cube, known, load, allowed, bad, alloc,
    )?;
    Ok(end_of_rest(ended, bad, shard, rows))
}

// Puts the rows among all records of a file. The error is out of memory.
fn put_all<R: Wait, P: CellCaller<ShardCells>>(
    rt: &R,
    board: &Board<ShardCells>,
    caller: &mut P,
    size: &CoreSize,
    session: u32,
    statement: u32,
    place: u32,
    cube: &Schema,
    known: &mut CubeTexts,
    records: Loader,
    allowed: u64,
    writer: &Snapshot,
    alloc: Global,
) -> Result<LoadEnd, AllocError>
    requires board { P.calls_on board.now caller.old }
    requires callers { size.now.sessions + 2 + size.now.shards ≤ callers_of board.now }
    requires some { 1 ≤ size.now.shards }
    requires mails { AreShardMails FitsShard CoreShardStands ShardAnswerSays (P.opening caller.old)
        session size.now.shards (2 + size.now.shards) }
    requires may { MayAskForCodes FitsShard CoreShardStands ShardAnswerSays (P.opening caller.old)
        (P.number caller.old) (P.own caller.old) session known.old place cube.now }
    requires holds { HoldsWriter FitsShard CoreShardStands ShardAnswerSays (P.opening caller.old)
        (P.number caller.old) session (P.own caller.old) writer.now }
    requires cube { records.decl ≡ cube.now }
    requires begins { records.number ≡ 0 }
    ensures board { P.calls_on board.now caller.new }
    ensures opening { P.opening caller.new ≡ P.opening caller.old }
    ensures number { P.number caller.new ≡ P.number caller.old }
    ensures others { P.others caller.new ≡ P.others caller.old }
    ensures goes { GoesOnLoading (P.opening caller.old) (P.number caller.old) session place
        writer.now.epoch (P.own caller.old) (P.own caller.new) }
    ensures asked { AsksForSuch (P.opening caller.old) (P.number caller.old) place cube.now session
        allowed records (P.own caller.old) (P.own caller.new) }
    ensures may { MayAskForCodes FitsShard CoreShardStands ShardAnswerSays (P.opening caller.new)
        (P.number caller.new) (P.own caller.new) session known.new place cube.now }
    ensures held { HoldsOpenWriter (P.opening caller.new) (P.number caller.new) session
        (P.own caller.new) writer.now }
    ensures holds { IfOk result (HoldsAfterLoad (P.opening caller.new) (P.number caller.new) session
        writer.now (P.own caller.new)) }
    ensures ended { IfOk result (HasEndedSo (P.opening caller.new) (P.number caller.new) session
        place writer.now cube.now allowed records (P.own caller.old) (P.own caller.new)) }
{
    let mut load = records;
    let mut bad = BadRecords::none(alloc);
    match load_turns(
        rt, board, caller, size, session, statement, place, cube, known, &mut load, allowed,
        &mut bad, writer, alloc,
    )? {
        LoadStop::Done => Ok(LoadEnd::Stored {
            rows: load.number() - bad.count,
            bad,
        }),
        LoadStop::TooMany => Ok(LoadEnd::TooMany {
            rejected: bad.count,
        }),
        LoadStop::ShardFull { shard, rows } => refuse_full(
            rt, board, caller, session, place, cube, known, &mut load, allowed, &mut bad, shard,
            rows, alloc,
        ),
    }
}

/// Puts the rows among the records of a file on the shards of their bricks, batch by batch, at the epoch of the session's
/// writer. The records are those at which a LOAD looks that allows so many bad ones: up to the one that is one too
/// many, or all; also where a shard was full they are looked at to the end. A record is bad also where one of its
/// texts finds no place in the dictionary of its dimension. The session asks for no text but those of such
/// records.
pub fn put_records<R: Wait, P: CellCaller<ShardCells>>(
    rt: &R,
    board: &Board<ShardCells>,
    caller: &mut P,
    size: &CoreSize,
    session: u32,
    statement: u32,
    place: u32,
    cube: &Schema,
    known: &mut CubeTexts,
    records: Loader,
    allowed: u64,
    writer: &Snapshot,
    alloc: Global,
) -> LoadEnd
    requires board { P.calls_on board.now caller.old }
    requires callers { size.now.sessions + 2 + size.now.shards ≤ callers_of board.now }
    requires some { 1 ≤ size.now.shards }
    requires mails { AreShardMails FitsShard CoreShardStands ShardAnswerSays (P.opening caller.old)
        session size.now.shards (2 + size.now.shards) }
    requires may { MayAskForCodes FitsShard CoreShardStands ShardAnswerSays (P.opening caller.old)
        (P.number caller.old) (P.own caller.old) session known.old place cube.now }
    requires holds { HoldsWriter FitsShard CoreShardStands ShardAnswerSays (P.opening caller.old)
        (P.number caller.old) session (P.own caller.old) writer.now }
    requires cube { records.decl ≡ cube.now }
    requires begins { records.number ≡ 0 }
    ensures board { P.calls_on board.now caller.new }
    ensures opening { P.opening caller.new ≡ P.opening caller.old }
    ensures number { P.number caller.new ≡ P.number caller.old }
    ensures others { P.others caller.new ≡ P.others caller.old }
    ensures goes { GoesOnLoading (P.opening caller.old) (P.number caller.old) session place
        writer.now.epoch (P.own caller.old) (P.own caller.new) }
    ensures asked { AsksForSuch (P.opening caller.old) (P.number caller.old) place cube.now session
        allowed records (P.own caller.old) (P.own caller.new) }
    ensures may { MayAskForCodes FitsShard CoreShardStands ShardAnswerSays (P.opening caller.new)
        (P.number caller.new) (P.own caller.new) session known.new place cube.now }
    ensures holds { HoldsAfterLoad (P.opening caller.new) (P.number caller.new) session writer.now
        (P.own caller.new) result }
    ensures ended { HasEndedSo (P.opening caller.new) (P.number caller.new) session place
        writer.now cube.now allowed records (P.own caller.old) (P.own caller.new) result }
{
    match put_all(
        rt, board, caller, size, session, statement, place, cube, known, records, allowed, writer,
        alloc,
    ) {
        Ok(ended) => ended,
        Err(_) => LoadEnd::OutOfMemory,
    }
}
