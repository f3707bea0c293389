//! Rows are split by shard, posted, and the answers fetched.
ghost use Rattle.std.specs.Prelude.{◌≡◌, ◌+◌, ◌<◌, ◌≤◌, [], length, nat_eq, All, IfOk, OnErr, vec_capacity};
ghost use Rattle.std.specs.List.{IsDistinct};
ghost use Rattle.cube_values.specs.Shapes.{IsSoundCube};
ghost use Rattle.brick_map.specs.Batches.{IsRowOfCube};
ghost use Rattle.core_program.specs.Knowing.{IsClientOf, IsSessionOf, Knows};
ghost use Rattle.job_groups.specs.AskedEach.{AreShardMails, HasMore};
ghost use Rattle.job_groups.specs.AskedSome.{MayAskSome, posts_to};
ghost use Rattle.session_snapshots.specs.KnownHolds.{HoldsWriter};
ghost use Rattle.linked_shards.specs.CellShards.{CoreShardStands};
ghost use Rattle.shard_events.specs.ShardsInRuns.{FitsShard, ShardAnswerSays};
ghost use Rattle.session_batches.specs.BatchCalls.{AreAppends};
ghost use Rattle.session_batches.specs.PutRows.{HoldsAfterPut, LearnsOfPut, LearnsOfRows, MayPutRows};
ghost use Rattle.turn_board.specs.Passes.{callers_of};

use crate::answers::{PutEnd, first_refusal};
use crate::appends::{NumberedCalls, appends_for};
use board_callers::CellCaller;
use core_program::{CoreSize, own_calls_go_on};
use cube_core::{JobAnswer, sessions_write_to_their_shards};
use cube_values::{CodedRows, SharedShape, Snapshot};
use job_groups::{ask_some_shards, groups_have_their_answers};
use linked_shards::{CoreShard, ShardCells};
use std::alloc::{AllocError, Global};
use std::sync::Wait;
use turn_board::Board;

/// Puts rows of a cube at the epoch of the session's writer: each shard is asked to append those whose
/// bricks it has, the shards without rows are not, and all answers are fetched. The first refusal, in the
/// order of the shards, is handed back, and the session has then spoiled its write. Where memory is
/// wanted for the batches, nothing was posted.
pub fn put_rows<R: Wait, P: CellCaller<ShardCells>>(
    rt: &R,
    board: &Board<ShardCells>,
    caller: &mut P,
    size: &CoreSize,
    session: u32,
    statement: u32,
    cube: u32,
    shape: &SharedShape,
    rows: CodedRows,
    writer: &Snapshot,
    alloc: Global,
) -> Result<PutEnd, AllocError>
    requires board { P.calls_on board.now caller.old }
    requires callers { size.now.sessions + 2 + size.now.shards ≤ callers_of board.now }
    requires some { 1 ≤ size.now.shards }
    requires client { IsClientOf FitsShard CoreShardStands ShardAnswerSays (P.opening caller.old)
        (P.number caller.old) session }
    requires session { IsSessionOf FitsShard CoreShardStands ShardAnswerSays (P.opening caller.old)
        session }
    requires mails { AreShardMails FitsShard CoreShardStands ShardAnswerSays (P.opening caller.old)
        session size.now.shards (2 + size.now.shards) }
    requires sound { IsSoundCube shape.now }
    requires rows { All (IsRowOfCube shape.now) rows.rows }
    requires holds { HoldsWriter FitsShard CoreShardStands ShardAnswerSays (P.opening caller.old)
        (P.number caller.old) session (P.own caller.old) writer.now }
    requires may { Knows FitsShard CoreShardStands ShardAnswerSays (P.opening caller.old)
        (P.number caller.old) session (P.own caller.old)
        (MayPutRows session size.now.shards cube shape.now rows.rows) }
    ensures board { P.calls_on board.now caller.new }
    ensures opening { P.opening caller.new ≡ P.opening caller.old }
    ensures number { P.number caller.new ≡ P.number caller.old }
    ensures others { P.others caller.new ≡ P.others caller.old }
    ensures more { HasMore (P.own caller.old) (P.own caller.new) }
    ensures holds { IfOk result (λ end. HoldsAfterPut (P.opening caller.new) (P.number caller.new)
        session (P.own caller.new) writer.now end) }
    ensures learns { IfOk result (λ end. LearnsOfRows (P.opening caller.old) (P.number caller.old)
        session size.now.shards cube shape.now writer.now.epoch rows.rows end (P.own caller.old)
        (P.own caller.new)) }
    ensures err { OnErr result (P.own caller.new ≡ P.own caller.old) }
{
    own_calls_go_on::<CoreShard>();
    groups_have_their_answers();
    sessions_write_to_their_shards();
    let appends = appends_for(alloc, size.shards, cube, shape, writer.epoch, rows)?;
    let answers = Vec::with_capacity(alloc, appends.numbers.len())?;
    Ok(ask_appends(
        rt, board, caller, size, session, statement, appends, answers,
    ))
}

// Posts each append to its shard, and then fetches all answers. Without appends nothing is posted.
fn ask_appends<R: Wait, P: CellCaller<ShardCells>>(
    rt: &R,
    board: &Board<ShardCells>,
    caller: &mut P,
    size: &CoreSize,
    session: u32,
    statement: u32,
    appends: NumberedCalls,
    answers: Vec<JobAnswer>,
) -> PutEnd
    requires board { P.calls_on board.now caller.old }
    requires callers { size.now.sessions + 2 + size.now.shards ≤ callers_of board.now }
    requires client { IsClientOf FitsShard CoreShardStands ShardAnswerSays (P.opening caller.old)
        (P.number caller.old) session }
    requires mails { AreShardMails FitsShard CoreShardStands ShardAnswerSays (P.opening caller.old)
        session size.now.shards (2 + size.now.shards) }
    requires below { All (λ number. number < size.now.shards) appends.numbers.items }
    requires once { IsDistinct nat_eq appends.numbers.items }
    requires each { length appends.calls.items ≡ length appends.numbers.items }
    requires appends { AreAppends appends.calls.items }
    requires may { Knows FitsShard CoreShardStands ShardAnswerSays (P.opening caller.old)
        (P.number caller.old) session (P.own caller.old)
        (MayAskSome FitsShard session appends.numbers.items appends.calls.items) }
    requires empty { answers.items ≡ [] }
    requires room { length appends.numbers.items ≤ vec_capacity answers }
    ensures board { P.calls_on board.now caller.new }
    ensures opening { P.opening caller.new ≡ P.opening caller.old }
    ensures number { P.number caller.new ≡ P.number caller.old }
    ensures others { P.others caller.new ≡ P.others caller.old }
    ensures more { HasMore (P.own caller.old) (P.own caller.new) }
    ensures learns { LearnsOfPut (P.opening caller.old) (P.number caller.old) session
        appends.numbers.items (posts_to appends.numbers.items appends.calls.items) result
        (P.own caller.old) (P.own caller.new) }
{
    if appends.numbers.len() == 0 {
        return PutEnd::Done;
    }
    let numbers = appends.numbers;
    let answers = ask_some_shards(
        rt,
        board,
        caller,
        size,
        session,
        statement,
        numbers.as_slice(),
        appends.calls,
        answers,
    );
    first_refusal(numbers.as_slice(), answers.as_slice())
}
