//! Rows are posted in one part, and their answers fetched in another.
ghost use Rattle.std.specs.Prelude.{◌≡◌, ◌+◌, ◌<◌, ◌≤◌, [], length, nat_eq, All, IfOk, OnErr, vec_capacity};
ghost use Rattle.std.specs.List.{IsDistinct};
ghost use Rattle.brick_map.specs.Batches.{IsRowOfCube};
ghost use Rattle.core_program.specs.Knowing.{IsClientOf, IsSessionOf, Knows};
ghost use Rattle.cube_values.specs.Shapes.{IsSoundCube};
ghost use Rattle.cube_values.specs.declared.snapshot.Snapshot.{Snapshot};
ghost use Rattle.job_groups.specs.AskedEach.{AreShardMails, HasMore};
ghost use Rattle.job_groups.specs.AskedSome.{MayAskSome, posts_to};
ghost use Rattle.session_snapshots.specs.KnownHolds.{HoldsWriter};
ghost use Rattle.linked_shards.specs.CellShards.{CoreShardStands};
ghost use Rattle.shard_events.specs.ShardsInRuns.{FitsShard, ShardAnswerSays};
ghost use Rattle.session_batches.specs.BatchCalls.{AreAppends};
ghost use Rattle.session_batches.specs.PutRows.{HoldsAfterPut, MayPutRows};
ghost use Rattle.session_batches.specs.RowsOut.{HoldsRowsOut, HoldsSomeRowsOut, LearnsOfAppends, LearnsOfFetchedRows, LearnsOfPostedRows, MayBeFetched};
ghost use Rattle.turn_board.specs.Passes.{callers_of};

use crate::answers::{PutEnd, first_refusal};
use crate::appends::{NumberedCalls, appends_for};
use crate::rows_out::RowsOut;
use board_callers::CellCaller;
use core_program::{CoreSize, own_calls_go_on};
use cube_core::{JobAnswer, sessions_write_to_their_shards};
use cube_values::{CodedRows, SharedShape, Snapshot};
use job_groups::{fetch_some_shards, groups_have_their_answers, post_some_shards};
use linked_shards::{CoreShard, ShardCells};
use std::alloc::{AllocError, Global};
use std::sync::Wait;
use turn_board::Board;

/// Posts rows of a cube at the epoch of the session's writer: each shard is asked to append those whose
/// bricks it has, and the shards without rows are not. The answers are to be fetched by `fetch_rows`, and till
/// then the session makes no calls but on the names; whether it fetches them at once is said, so that it
/// may do the only append itself. Where memory is wanted for the batches, nothing was posted.
pub fn post_rows<R: Wait, P: CellCaller<ShardCells>>(
    rt: &R,
    board: &Board<ShardCells>,
    caller: &mut P,
    size: &CoreSize,
    session: u32,
    statement: u32,
    cube: u32,
    shape: &SharedShape,
    rows: CodedRows,
    writer: &Snapshot,
    waits: bool,
    alloc: Global,
) -> Result<RowsOut, AllocError>
    requires board { P.calls_on board.now caller.old }
    requires callers { size.now.sessions + 2 + size.now.shards ≤ callers_of board.now }
    requires some { 1 ≤ size.now.shards }
    requires client { IsClientOf FitsShard CoreShardStands ShardAnswerSays (P.opening caller.old)
        (P.number caller.old) session }
    requires session { IsSessionOf FitsShard CoreShardStands ShardAnswerSays (P.opening caller.old)
        session }
    requires mails { AreShardMails FitsShard CoreShardStands ShardAnswerSays (P.opening caller.old)
        session size.now.shards (2 + size.now.shards) }
    requires sound { IsSoundCube shape.now }
    requires rows { All (IsRowOfCube shape.now) rows.rows }
    requires holds { HoldsWriter FitsShard CoreShardStands ShardAnswerSays (P.opening caller.old)
        (P.number caller.old) session (P.own caller.old) writer.now }
    requires may { Knows FitsShard CoreShardStands ShardAnswerSays (P.opening caller.old)
        (P.number caller.old) session (P.own caller.old)
        (MayPutRows session size.now.shards cube shape.now rows.rows) }
    ensures board { P.calls_on board.now caller.new }
    ensures opening { P.opening caller.new ≡ P.opening caller.old }
    ensures number { P.number caller.new ≡ P.number caller.old }
    ensures others { P.others caller.new ≡ P.others caller.old }
    ensures more { HasMore (P.own caller.old) (P.own caller.new) }
    ensures out { IfOk result (MayBeFetched size.now.shards) }
    ensures holds { IfOk result (λ out. HoldsRowsOut (P.opening caller.new) (P.number caller.new)
        session (P.own caller.new) writer.now out.shards.items) }
    ensures learns { IfOk result (λ out. LearnsOfPostedRows (P.opening caller.old)
        (P.number caller.old) session size.now.shards cube shape.now writer.now.epoch rows.rows
        (P.own caller.old) (P.own caller.new)) }
    ensures err { OnErr result (P.own caller.new ≡ P.own caller.old) }
{
    own_calls_go_on::<CoreShard>();
    sessions_write_to_their_shards();
    let appends = appends_for(alloc, size.shards, cube, shape, writer.epoch, rows)?;
    let answers = Vec::with_capacity(alloc, appends.numbers.len())?;
    Ok(post_appends(
        rt, board, caller, size, session, statement, appends, waits, answers,
    ))
}

// Posts each append to its shard. Without appends nothing is posted.
fn post_appends<R: Wait, P: CellCaller<ShardCells>>(
    rt: &R,
    board: &Board<ShardCells>,
    caller: &mut P,
    size: &CoreSize,
    session: u32,
    statement: u32,
    appends: NumberedCalls,
    waits: bool,
    answers: Vec<JobAnswer>,
) -> RowsOut
    requires board { P.calls_on board.now caller.old }
    requires callers { size.now.sessions + 2 + size.now.shards ≤ callers_of board.now }
    requires client { IsClientOf FitsShard CoreShardStands ShardAnswerSays (P.opening caller.old)
        (P.number caller.old) session }
    requires mails { AreShardMails FitsShard CoreShardStands ShardAnswerSays (P.opening caller.old)
        session size.now.shards (2 + size.now.shards) }
    requires below { All (λ number. number < size.now.shards) appends.numbers.items }
    requires once { IsDistinct nat_eq appends.numbers.items }
    requires each { length appends.calls.items ≡ length appends.numbers.items }
    requires appends { AreAppends appends.calls.items }
    requires may { Knows FitsShard CoreShardStands ShardAnswerSays (P.opening caller.old)
        (P.number caller.old) session (P.own caller.old)
        (MayAskSome FitsShard session appends.numbers.items appends.calls.items) }
    requires empty { answers.items ≡ [] }
    requires room { length appends.numbers.items ≤ vec_capacity answers }
    ensures board { P.calls_on board.now caller.new }
    ensures opening { P.opening caller.new ≡ P.opening caller.old }
    ensures number { P.number caller.new ≡ P.number caller.old }
    ensures others { P.others caller.new ≡ P.others caller.old }
    ensures more { HasMore (P.own caller.old) (P.own caller.new) }
    ensures shards { result.shards.items ≡ appends.numbers.items }
    ensures out { MayBeFetched size.now.shards result }
    ensures learns { LearnsOfAppends (P.opening caller.old) (P.number caller.old) session
        appends.numbers.items (posts_to appends.numbers.items appends.calls.items)
        (P.own caller.old) (P.own caller.new) }
{
    let shards = appends.numbers;
    if shards.len() == 0 {
        return RowsOut { shards, answers };
    }
    post_some_shards(
        rt,
        board,
        caller,
        size,
        session,
        statement,
        shards.as_slice(),
        appends.calls,
        waits,
    );
    RowsOut { shards, answers }
}

/// Fetches the answers of rows that are out. The first refusal, in the order of the shards, is handed back, and
/// the session has then spoiled its write; else it holds its writer as it did before it posted them.
pub fn fetch_rows<R: Wait, P: CellCaller<ShardCells>>(
    rt: &R,
    board: &Board<ShardCells>,
    caller: &mut P,
    size: &CoreSize,
    session: u32,
    out: RowsOut,
) -> PutEnd
    requires board { P.calls_on board.now caller.old }
    requires client { IsClientOf FitsShard CoreShardStands ShardAnswerSays (P.opening caller.old)
        (P.number caller.old) session }
    requires mails { AreShardMails FitsShard CoreShardStands ShardAnswerSays (P.opening caller.old)
        session size.now.shards (2 + size.now.shards) }
    requires out { MayBeFetched size.now.shards out }
    requires waits { HoldsSomeRowsOut (P.opening caller.old) (P.number caller.old) session
        (P.own caller.old) out.shards.items }
    ensures board { P.calls_on board.now caller.new }
    ensures opening { P.opening caller.new ≡ P.opening caller.old }
    ensures number { P.number caller.new ≡ P.number caller.old }
    ensures others { P.others caller.new ≡ P.others caller.old }
    ensures more { HasMore (P.own caller.old) (P.own caller.new) }
    ensures holds { (writer : Snapshot)
        → HoldsRowsOut (P.opening caller.old) (P.number caller.old) session (P.own caller.old)
        writer out.shards.items
        → HoldsAfterPut (P.opening caller.new) (P.number caller.new) session (P.own caller.new)
        writer result }
    ensures learns { LearnsOfFetchedRows (P.opening caller.old) (P.number caller.old) session
        out.shards.items result (P.own caller.old) (P.own caller.new) }
{
    groups_have_their_answers();
    sessions_write_to_their_shards();
    if out.shards.len() == 0 {
        return PutEnd::Done;
    }
    let shards = out.shards;
    let answers = fetch_some_shards(
        rt,
        board,
        caller,
        size,
        session,
        shards.as_slice(),
        out.answers,
    );
    first_refusal(shards.as_slice(), answers.as_slice())
}
