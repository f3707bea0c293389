//! A job from taking it to the reply.
ghost use Rattle.std.specs.Prelude.{◌≡◌, ◌+◌, ◌<◌, ◌≤◌, ℕ, [], ◌∷◌, ◌++◌};
ghost use Rattle.core_program.specs.Workers.{IsShardWork, IsWorkerOf, JobDone, JobTaken, NoneInHand, in_hand};
ghost use Rattle.cube_core.specs.declared.jobs.Job.{Job};
ghost use Rattle.cube_core.specs.declared.jobs.Work.TheVariants as work;
ghost use Rattle.shard_work.specs.Serving.{HasDoneJob, IsForShard, call_entry, reply_entry, take_entry};
ghost use Rattle.turn_board.specs.Passes.{callers_of};

use crate::answers::{expect_done, shard_answer_in, shard_call_in, taken_in};
use board_callers::CellCaller;
use core_cells::MailCall;
use core_program::{CoreCells, CoreSize, answers_fit_their_calls, workers_serve_their_shards};
use cube_core::{AnsweredCall, CoreCall, Job, JobAnswer, LinkedShard, ShardCall};
use mail_cell::Taken;
use outside_disk::Gate;
use std::sync::Wait;
use turn_board::Board;

// Takes the job that was posted first to the worker's mail.
#[inline(always)]
pub(crate) fn take_job<S: LinkedShard, R: Wait, P: CellCaller<CoreCells<S>>>(
    rt: &R,
    board: &Board<CoreCells<S>>,
    caller: &mut P,
    size: &CoreSize,
    number: u32,
) -> Taken<Job>
    requires board { P.calls_on board.now caller.old }
    requires there { number < size.now.shards }
    requires worker { IsWorkerOf S.fits S.stands S.says (P.opening caller.old) (P.number caller.old)
        number (2 + size.now.shards + number) }
    requires idle { in_hand (P.own caller.old) ≡ NoneInHand }
    ensures board { P.calls_on board.now caller.new }
    ensures opening { P.opening caller.new ≡ P.opening caller.old }
    ensures number { P.number caller.new ≡ P.number caller.old }
    ensures others { P.others caller.new ≡ P.others caller.old }
    ensures own { P.own caller.new ≡ P.own caller.old
        ++ take_entry (P.number caller.old) (2 + size.now.shards + number) result ∷ [] }
    ensures work { IsForShard result }
{
    workers_serve_their_shards::<S>();
    answers_fit_their_calls::<S>();
    let cell = size.mail_cell(number);
    taken_in(caller.call(rt, board, cell, CoreCall::Mail(MailCall::Take)))
}

// Does the call of the job that was taken.
#[inline(always)]
pub(crate) fn make_call<S: LinkedShard, R: Wait, P: CellCaller<CoreCells<S>>>(
    rt: &R,
    board: &Board<CoreCells<S>>,
    caller: &mut P,
    size: &CoreSize,
    number: u32,
    call: ShardCall,
) -> AnsweredCall
    requires board { P.calls_on board.now caller.old }
    requires there { number < size.now.shards }
    requires worker { IsWorkerOf S.fits S.stands S.says (P.opening caller.old) (P.number caller.old)
        number (2 + size.now.shards + number) }
    requires taken { (client : ℕ) × (job : Job) × (in_hand (P.own caller.old) ≡ JobTaken client job)
        × (job.work ≡ work.Shard call) }
    ensures board { P.calls_on board.now caller.new }
    ensures opening { P.opening caller.new ≡ P.opening caller.old }
    ensures number { P.number caller.new ≡ P.number caller.old }
    ensures others { P.others caller.new ≡ P.others caller.old }
    ensures own { P.own caller.new ≡ P.own caller.old
        ++ call_entry (P.number caller.old) number call result ∷ [] }
{
    workers_serve_their_shards::<S>();
    answers_fit_their_calls::<S>();
    let cell = size.shard_cell(number);
    shard_answer_in(caller.call(rt, board, cell, CoreCall::Shard(call)))
}

// Replies the answer to the client that posted the job, and wakes it.
#[inline(always)]
pub(crate) fn reply_to<S: LinkedShard, R: Wait, P: CellCaller<CoreCells<S>>>(
    rt: &R,
    board: &Board<CoreCells<S>>,
    caller: &mut P,
    size: &CoreSize,
    number: u32,
    client: u32,
    answer: AnsweredCall,
)
    requires board { P.calls_on board.now caller.old }
    requires callers { size.now.sessions + 2 + size.now.shards ≤ callers_of board.now }
    requires there { number < size.now.shards }
    requires worker { IsWorkerOf S.fits S.stands S.says (P.opening caller.old) (P.number caller.old)
        number (2 + size.now.shards + number) }
    requires done { (job : Job) × (in_hand (P.own caller.old) ≡ JobDone client job answer) }
    ensures board { P.calls_on board.now caller.new }
    ensures opening { P.opening caller.new ≡ P.opening caller.old }
    ensures number { P.number caller.new ≡ P.number caller.old }
    ensures others { P.others caller.new ≡ P.others caller.old }
    ensures own { P.own caller.new ≡ P.own caller.old
        ++ reply_entry (P.number caller.old) (2 + size.now.shards + number) client answer ∷ [] }
{
    workers_serve_their_shards::<S>();
    answers_fit_their_calls::<S>();
    let cell = size.mail_cell(number);
    let reply = MailCall::Reply {
        client,
        answer: JobAnswer::Shard(answer),
    };
    expect_done(caller.call(rt, board, cell, CoreCall::Mail(reply)));
    board.ring(size.caller_of(client));
}

// Does a job that was taken, and replies. The gate may keep the worker before the job's call; a job of
// main or the flusher asks no gate.
#[inline(always)]
pub(crate) fn do_job<S: LinkedShard, R: Wait, P: CellCaller<CoreCells<S>>, G: Gate>(
    rt: &R,
    board: &Board<CoreCells<S>>,
    caller: &mut P,
    size: &CoreSize,
    number: u32,
    gate: &G,
    client: u32,
    job: Job,
)
    requires board { P.calls_on board.now caller.old }
    requires callers { size.now.sessions + 2 + size.now.shards ≤ callers_of board.now }
    requires there { number < size.now.shards }
    requires worker { IsWorkerOf S.fits S.stands S.says (P.opening caller.old) (P.number caller.old)
        number (2 + size.now.shards + number) }
    requires taken { in_hand (P.own caller.old) ≡ JobTaken client job }
    requires work { IsShardWork job.work }
    ensures board { P.calls_on board.now caller.new }
    ensures opening { P.opening caller.new ≡ P.opening caller.old }
    ensures number { P.number caller.new ≡ P.number caller.old }
    ensures others { P.others caller.new ≡ P.others caller.old }
    ensures done { HasDoneJob (P.number caller.old) number (2 + size.now.shards + number) client job
        (P.own caller.old) (P.own caller.new) }
{
    if job.session != 0 {
        gate.within(number, job.session, job.statement);
    }
    let call = shard_call_in(job.work);
    let answer = make_call(rt, board, caller, size, number, call);
    reply_to(rt, board, caller, size, number, client, answer);
}
