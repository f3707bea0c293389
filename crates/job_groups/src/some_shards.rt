//! One call for each of some shards, in one part or in two.
ghost use Rattle.std.specs.Prelude.{◌≡◌, ◌+◌, ◌<◌, ◌≤◌, [], length, nat_eq, All, vec_capacity};
ghost use Rattle.std.specs.List.{IsDistinct};
ghost use Rattle.core_program.specs.Knowing.{IsClientOf, Knows};
ghost use Rattle.job_groups.specs.AskedEach.{AreOfOneKind, AreShardMails, HasMore};
ghost use Rattle.job_groups.specs.AskedSome.{LearnsOfSome, MayAskSome};
ghost use Rattle.job_groups.specs.PostedSome.{AwaitsSome, LearnsOfFetches, LearnsOfPosts};
ghost use Rattle.turn_board.specs.Passes.{callers_of};

use board_callers::CellCaller;
use core_program::{CoreCells, CoreSize, clients_learn_by_each_call, fetch_answer, post_job};
use cube_core::{Job, JobAnswer, LinkedShard, ShardCall, Work};
use std::sync::Wait;
use turn_board::Board;

/// Posts each call to the shard of its number, and then fetches all answers, in the same order. No shard
/// is asked twice. The client knows that it may. The list of answers is given empty, with room for one to
/// each call.
pub fn ask_some_shards<S: LinkedShard, R: Wait, P: CellCaller<CoreCells<S>>>(
    rt: &R,
    board: &Board<CoreCells<S>>,
    caller: &mut P,
    size: &CoreSize,
    client: u32,
    statement: u32,
    numbers: &[u32],
    calls: Vec<ShardCall>,
    answers: Vec<JobAnswer>,
) -> Vec<JobAnswer>
    requires board { P.calls_on board.now caller.old }
    requires callers { size.now.sessions + 2 + size.now.shards ≤ callers_of board.now }
    requires some { 1 ≤ length numbers.now }
    requires client { IsClientOf S.fits S.stands S.says (P.opening caller.old)
        (P.number caller.old) client }
    requires mails { AreShardMails S.fits S.stands S.says (P.opening caller.old) client
        size.now.shards (2 + size.now.shards) }
    requires below { All (λ number. number < size.now.shards) numbers.now }
    requires once { IsDistinct nat_eq numbers.now }
    requires each { length calls.items ≡ length numbers.now }
    requires kind { AreOfOneKind calls.items }
    requires may { Knows S.fits S.stands S.says (P.opening caller.old) (P.number caller.old) client
        (P.own caller.old) (MayAskSome S.fits client numbers.now calls.items) }
    requires empty { answers.items ≡ [] }
    requires room { length numbers.now ≤ vec_capacity answers }
    ensures board { P.calls_on board.now caller.new }
    ensures opening { P.opening caller.new ≡ P.opening caller.old }
    ensures number { P.number caller.new ≡ P.number caller.old }
    ensures others { P.others caller.new ≡ P.others caller.old }
    ensures answers { length result.items ≡ length numbers.now }
    ensures more { HasMore (P.own caller.old) (P.own caller.new) }
    ensures learns { LearnsOfSome S.fits S.stands S.says (P.opening caller.old)
        (P.number caller.old) client numbers.now calls.items result.items (P.own caller.old)
        (P.own caller.new) }
{
    post_some_shards(
        rt, board, caller, size, client, statement, numbers, calls, true,
    );
    fetch_some_shards(rt, board, caller, size, client, numbers, answers)
}

/// Posts each call to the shard of its number. No shard is asked twice. The client knows that it may. Where it
/// goes on to wait for the answers, the only job may be done by itself; else each shard's worker is woken.
pub fn post_some_shards<S: LinkedShard, R: Wait, P: CellCaller<CoreCells<S>>>(
    rt: &R,
    board: &Board<CoreCells<S>>,
    caller: &mut P,
    size: &CoreSize,
    client: u32,
    statement: u32,
    numbers: &[u32],
    calls: Vec<ShardCall>,
    waits: bool,
)
    requires board { P.calls_on board.now caller.old }
    requires callers { size.now.sessions + 2 + size.now.shards ≤ callers_of board.now }
    requires some { 1 ≤ length numbers.now }
    requires client { IsClientOf S.fits S.stands S.says (P.opening caller.old)
        (P.number caller.old) client }
    requires mails { AreShardMails S.fits S.stands S.says (P.opening caller.old) client
        size.now.shards (2 + size.now.shards) }
    requires below { All (λ number. number < size.now.shards) numbers.now }
    requires once { IsDistinct nat_eq numbers.now }
    requires each { length calls.items ≡ length numbers.now }
    requires kind { AreOfOneKind calls.items }
    requires may { Knows S.fits S.stands S.says (P.opening caller.old) (P.number caller.old) client
        (P.own caller.old) (MayAskSome S.fits client numbers.now calls.items) }
    ensures board { P.calls_on board.now caller.new }
    ensures opening { P.opening caller.new ≡ P.opening caller.old }
    ensures number { P.number caller.new ≡ P.number caller.old }
    ensures others { P.others caller.new ≡ P.others caller.old }
    ensures more { HasMore (P.own caller.old) (P.own caller.new) }
    ensures learns { LearnsOfPosts S.fits S.stands S.says (P.opening caller.old)
        (P.number caller.old) client numbers.now calls.items (P.own caller.old)
        (P.own caller.new) }
{
    clients_learn_by_each_call::<S>();
    let mut calls = calls;
    // One job may be done here. More are done beside each other.
    let wakes = !waits || numbers.len() != 1 || !caller.helps();
    'posts: for place in 0..numbers.len() {
        let call = calls.remove(0);
        let job = Job {
            session: client,
            statement,
            work: Work::Shard(call),
        };
        post_job(rt, board, caller, size, client, numbers[place], job, wakes);
    }
}

/// Fetches the answers of the shards of these numbers, in the same order, where the client's group waits for
/// them. The list of answers is given empty, with room for one of each shard.
pub fn fetch_some_shards<S: LinkedShard, R: Wait, P: CellCaller<CoreCells<S>>>(
    rt: &R,
    board: &Board<CoreCells<S>>,
    caller: &mut P,
    size: &CoreSize,
    client: u32,
    numbers: &[u32],
    answers: Vec<JobAnswer>,
) -> Vec<JobAnswer>
    requires board { P.calls_on board.now caller.old }
    requires client { IsClientOf S.fits S.stands S.says (P.opening caller.old)
        (P.number caller.old) client }
    requires mails { AreShardMails S.fits S.stands S.says (P.opening caller.old) client
        size.now.shards (2 + size.now.shards) }
    requires below { All (λ number. number < size.now.shards) numbers.now }
    requires once { IsDistinct nat_eq numbers.now }
    requires awaits { Knows S.fits S.stands S.says (P.opening caller.old) (P.number caller.old)
        client (P.own caller.old) (AwaitsSome client numbers.now) }
    requires empty { answers.items ≡ [] }
    requires room { length numbers.now ≤ vec_capacity answers }
    ensures board { P.calls_on board.now caller.new }
    ensures opening { P.opening caller.new ≡ P.opening caller.old }
    ensures number { P.number caller.new ≡ P.number caller.old }
    ensures others { P.others caller.new ≡ P.others caller.old }
    ensures answers { length result.items ≡ length numbers.now }
    ensures more { HasMore (P.own caller.old) (P.own caller.new) }
    ensures learns { LearnsOfFetches S.fits S.stands S.says (P.opening caller.old)
        (P.number caller.old) client numbers.now result.items (P.own caller.old)
        (P.own caller.new) }
{
    let mut answers = answers;
    caller.rest(rt, board);
    'fetches: for place in 0..numbers.len() {
        let answer = fetch_answer(rt, board, caller, size, client, numbers[place]);
        answers.push_reserved(answer);
    }
    answers
}
