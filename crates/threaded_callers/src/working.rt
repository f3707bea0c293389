//! Tasks that are worked on, each on a thread of its own.
ghost use Rattle.std.specs.Prelude.{◌≡◌, ℕ, ◌+◌, ◌<◌, length, slice_index_or};
ghost use Rattle.threaded_callers.specs.Ends.{TaskEnds};
ghost use Rattle.threaded_callers.specs.Tasks.{AreReady, GoesOn, IsDoneSoFar, IsReady, IsWorked};

use crate::helping::{Help, work_helping};
use crate::station::Roster;
use crate::task::Task;
use crate::work::{CallerWork, StepWork};
use std::snapshot::Snapshot;
use std::sync::Wait;
use std::thread;
use std::thread::{Promise, Threads};
use turn_board::{Board, Cells};

// Does the work of a task.
pub(crate) fn work_task<C: Cells, R: Wait, W: CallerWork<C>>(
    rt: &R,
    board: &Board<C>,
    task: &mut Task<C, W>,
)
    requires ready { (number : ℕ) × IsReady W.may_begin board.now number task.old }
    ensures { IsWorked W.has_done board.now task.old task.new }
{
    match &mut task.pass {
        Some(pass) => task.work.work(rt, board, pass),
        None => unreachable!(),
    }
}

// Does it, and gives the task back.
pub(crate) fn work_through<C: Cells, R: Wait, W: CallerWork<C>>(
    rt: &R,
    board: &Board<C>,
    task: Task<C, W>,
) -> Task<C, W>
    requires ready { (number : ℕ) × IsReady W.may_begin board.now number task }
    ensures { IsWorked W.has_done board.now task result }
{
    let mut task = task;
    work_task(rt, board, &mut task);
    task
}

// What is known of a task that comes back from another thread: its work was done.
#[derive(Drop)]
pub(crate) struct WorkPromise<'b, C: Cells, W> {
    pub(crate) board: &'b Board<C>,
    pub(crate) before: Snapshot<Task<C, W>>,
}

impl<'b, C: Cells, W: CallerWork<C>> Promise<Task<C, W>> for WorkPromise<'b, C, W> {
    ghost kept_by = { λ p task. IsWorked W.has_done p.board.now p.before.value task };
}

// Does the works of all tasks, each on a thread of its own where one can be started. They help the workers while they wait.
pub(crate) fn work_all<
    C: Cells + Send + Sync,
    R: Threads + Wait + Sync,
    W: CallerWork<C> + Send,
    K: StepWork<C> + Send + Drop,
    L: Roster<C, C::Cell, C::Call, C::Answer, K> + Send + Sync,
>(rt: &R, board: &Board<C>, help: &Help<'_, '_, C, K, L>, tasks: &mut [Task<C, W>])
where
    C::Cell: Send + Sync,
    requires ready { (from : ℕ) × AreReady W.may_begin board.now from tasks.old }
    ensures { (k : ℕ) (d : _) → k < length tasks.old → IsWorked W.has_done board.now
        (slice_index_or tasks.old k d) (slice_index_or tasks.new k d) }
{
    thread::for_each_mut(
        rt,
        tasks,
        tasks.len().max(1),
        &|_, task: &mut Task<C, W>|
            requires ready { (number : ℕ) × IsReady W.may_begin board.now number task.old }
            ensures { IsWorked W.has_done board.entry.now task.old task.new }
        { work_helping(rt, board, help, task) },
    );
}

// Goes on with the work of a task.
fn finish_task<C: Cells, R: Wait, W: CallerWork<C>>(rt: &R, board: &Board<C>, task: &mut Task<C, W>)
    requires done { IsDoneSoFar W.may_begin W.has_done board.now task.old }
    ensures { GoesOn W.may_begin W.has_done board.now task.old task.new }
{
    match &mut task.pass {
        Some(pass) => task.work.finish(rt, board, pass),
        None => unreachable!(),
    }
}

// Goes on with the works of all tasks, one after the other.
fn finish_all<C: Cells, R: Wait, W: CallerWork<C>>(
    rt: &R,
    board: &Board<C>,
    tasks: &mut [Task<C, W>],
)
    requires done { (k : ℕ) (d : _) → k < length tasks.old
        → IsDoneSoFar W.may_begin W.has_done board.now (slice_index_or tasks.old k d) }
    ensures { (k : ℕ) (d : _) → k < length tasks.old → GoesOn W.may_begin W.has_done board.now
        (slice_index_or tasks.old k d) (slice_index_or tasks.new k d) }
{
    for k in 0..tasks.len() {
        finish_task(rt, board, &mut tasks[k]);
    }
}

// Does the works of all tasks, or of none. Once all are done, each goes on here.
pub(crate) fn work_where<
    C: Cells + Send + Sync,
    R: Threads + Wait + Sync,
    W: CallerWork<C> + Send,
    K: StepWork<C> + Send + Drop,
    L: Roster<C, C::Cell, C::Call, C::Answer, K> + Send + Sync,
>(rt: &R, board: &Board<C>, help: &Help<'_, '_, C, K, L>, tasks: &mut [Task<C, W>], begins: bool)
where
    C::Cell: Send + Sync,
    requires ready { (from : ℕ) × AreReady W.may_begin board.now from tasks.old }
    ensures { (from k : ℕ) (d : _) → AreReady W.may_begin board.now from tasks.old
        → k < length tasks.old → TaskEnds W.has_done board.now begins (from + k)
        (slice_index_or tasks.old k d) (slice_index_or tasks.new k d) }
{
    if begins {
        work_all(rt, board, help, tasks);
        finish_all(rt, board, tasks);
    }
}
