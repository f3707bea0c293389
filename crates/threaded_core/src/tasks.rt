//! Works as tasks, and tasks as works again.
ghost use Rattle.std.specs.Prelude.{◌≡◌, ◌+◌, ◌<◌, ◌≤◌, ℕ, [], length, map, take, vec_capacity, slice_index_or};
ghost use Rattle.threaded_core.specs.TaskLists.{AreNumbered, work_in};

use crate::numbered::NumberedWork;
use core_program::CoreSize;
use linked_shards::ShardCells;
use run_threads::ShardWorker;
use threaded_callers::Task;
use turn_board::Cells;

/// A task for the work of each session, in their order. The tasks have room.
pub(crate) fn session_tasks<C: Cells, W: Drop>(
    works: Vec<W>,
    tasks: Vec<Task<C, NumberedWork<W>>>,
    count: u32,
) -> Vec<Task<C, NumberedWork<W>>>
    requires count { length works.items ≡ count }
    requires empty { tasks.items ≡ [] }
    requires room { count ≤ vec_capacity tasks }
    ensures { AreNumbered works.items result.items }
{
    let mut left = works;
    let mut tasks = tasks;
    'works: for number in 0..count {
        let work = left.remove(0);
        tasks.push_reserved(Task::new(NumberedWork {
            number: number + 1,
            work,
        }));
    }
    tasks
}

/// A task for the worker of each shard, in their order. The tasks have room.
pub(crate) fn worker_tasks<'g, G>(
    size: CoreSize,
    gate: &'g G,
    tasks: Vec<Task<ShardCells, ShardWorker<'g, G>>>,
) -> Vec<Task<ShardCells, ShardWorker<'g, G>>>
    requires empty { tasks.items ≡ [] }
    requires room { size.shards ≤ vec_capacity tasks }
    ensures long { length result.items ≡ size.shards }
    ensures numbers { (k : ℕ) (d : _) → k < size.shards
        → (slice_index_or result.items k d).work.number ≡ k }
    ensures sizes { (k : ℕ) (d : _) → k < size.shards
        → (slice_index_or result.items k d).work.size ≡ size }
{
    let mut tasks = tasks;
    'workers: for number in 0..size.shards {
        tasks.push_reserved(Task::new(ShardWorker { size, number, gate }));
    }
    tasks
}

/// The works of so many tasks, the first ones, in their order. The works have room.
pub(crate) fn works_of<C: Cells, W: Drop>(
    tasks: Vec<Task<C, NumberedWork<W>>>,
    works: Vec<W>,
    count: u32,
) -> Vec<W>
    requires there { count ≤ length tasks.items }
    requires empty { works.items ≡ [] }
    requires room { count ≤ vec_capacity works }
    ensures { result.items ≡ map work_in (take count tasks.items) }
{
    let mut left = tasks;
    let mut works = works;
    left.truncate(count as usize);
    'tasks: for _number in 0..count {
        let Task { work, .. } = left.remove(0);
        works.push_reserved(work.work);
    }
    works
}
