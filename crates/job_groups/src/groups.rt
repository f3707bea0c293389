//! One call for each shard.
ghost use Rattle.std.specs.Prelude.{◌≡◌, ◌+◌, ◌≤◌, [], length, vec_capacity};
ghost use Rattle.board_callers.specs.Callers.{HasHistoryOf};
ghost use Rattle.core_program.specs.Knowing.{IsClientOf, Knows};
ghost use Rattle.core_program.specs.CoreFits.{FitsOwnCalls};
ghost use Rattle.cube_core.specs.CoreSteps.{CoreStep};
ghost use Rattle.job_groups.specs.AskedEach.{AreOfOneKind, AreShardMails, HasMore, MayAskEach};
ghost use Rattle.job_groups.specs.EachPosted.{LearnsOfEach};
ghost use Rattle.turn_board.specs.Passes.{callers_of};

use board_callers::CellCaller;
use core_program::{CoreCells, CoreSize, clients_learn_by_each_call, fetch_answer, post_job};
use cube_core::{Job, JobAnswer, LinkedShard, ShardCall, Work};
use std::sync::Wait;
use turn_board::Board;

/// Posts each call to its shard, the first to shard 0, and then fetches all answers, in the same order.
/// The client knows that it may. The list of answers is given empty, with room for one of each shard.
pub fn ask_each_shard<S: LinkedShard, R: Wait, P: CellCaller<CoreCells<S>>>(
    rt: &R,
    board: &Board<CoreCells<S>>,
    caller: &mut P,
    size: &CoreSize,
    client: u32,
    statement: u32,
    calls: Vec<ShardCall>,
    answers: Vec<JobAnswer>,
) -> Vec<JobAnswer>
    requires board { P.calls_on board.now caller.old }
    requires callers { size.now.sessions + 2 + size.now.shards ≤ callers_of board.now }
    requires some { 1 ≤ size.now.shards }
    requires client { IsClientOf S.fits S.stands S.says (P.opening caller.old)
        (P.number caller.old) client }
    requires mails { AreShardMails S.fits S.stands S.says (P.opening caller.old) client
        size.now.shards (2 + size.now.shards) }
    requires each { length calls.items ≡ size.now.shards }
    requires kind { AreOfOneKind calls.items }
    requires may { Knows S.fits S.stands S.says (P.opening caller.old) (P.number caller.old) client
        (P.own caller.old) (MayAskEach S.fits client calls.items) }
    requires empty { answers.items ≡ [] }
    requires room { size.now.shards ≤ vec_capacity answers }
    ensures board { P.calls_on board.now caller.new }
    ensures opening { P.opening caller.new ≡ P.opening caller.old }
    ensures number { P.number caller.new ≡ P.number caller.old }
    ensures others { P.others caller.new ≡ P.others caller.old }
    ensures answers { length result.items ≡ size.now.shards }
    ensures more { HasMore (P.own caller.old) (P.own caller.new) }
    ensures learns { LearnsOfEach S.fits S.stands S.says (P.opening caller.old)
        (P.number caller.old) client calls.items result.items (P.own caller.old)
        (P.own caller.new) }
    ensures history { HasHistoryOf (CoreStep S.step) (FitsOwnCalls S.fits S.stands S.says)
        (P.opening caller.new) (P.number caller.new) (P.own caller.new) }
{
    clients_learn_by_each_call::<S>();
    let mut calls = calls;
    let mut answers = answers;
    // One job may be done here. More are done beside each other.
    let wakes = size.shards != 1 || !caller.helps();
    'posts: for number in 0..size.shards {
        let call = calls.remove(0);
        let job = Job {
            session: client,
            statement,
            work: Work::Shard(call),
        };
        post_job(rt, board, caller, size, client, number, job, wakes);
    }
    caller.rest(rt, board);
    'fetches: for number in 0..size.shards {
        let answer = fetch_answer(rt, board, caller, size, client, number);
        answers.push_reserved(answer);
    }
    answers
}
