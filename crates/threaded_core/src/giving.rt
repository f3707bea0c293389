//! The works of all callers as tasks, with their callers.
ghost use Rattle.std.specs.Prelude.{◌≡◌, ◌+◌, ◌<◌, ℕ, length, slice_index_or};
ghost use Rattle.threaded_callers.specs.Sides.{MayPlay};
ghost use Rattle.threaded_callers.specs.Tasks.{AreReady, IsReady};
ghost use Rattle.turn_board.specs.Calls.{IsFirst};
ghost use Rattle.turn_board.specs.Passes.{IsPassOf, callers_of, opening_of, view_of};

use threaded_callers::{CallerWork, MainWork, Task, give_callers};
use turn_board::{Board, Cells, Pass};

/// The tasks of all callers of a board.
pub(crate) struct AllTasks<C: Cells, M, W, K, F> {
    pub(crate) main: Task<C, M>,
    pub(crate) sessions: Vec<Task<C, W>>,
    pub(crate) workers: Vec<Task<C, K>>,
    pub(crate) flusher: Task<C, F>,
}

/// Gives each task a caller of the board's first pass.
pub(crate) fn with_callers<
    C: Cells,
    M: MainWork<C>,
    W: CallerWork<C>,
    K: CallerWork<C>,
    F: CallerWork<C>,
>(board: &Board<C>, pass: Pass<C>, tasks: AllTasks<C, M, W, K, F>) -> AllTasks<C, M, W, K, F>
    requires pass { IsPassOf board.now pass }
    requires first { IsFirst (callers_of board.now) (opening_of board.now) (view_of pass) }
    requires callers { callers_of board.now
        ≡ 2 + length tasks.sessions.items + length tasks.workers.items }
    requires main { M.may_begin tasks.main.work (callers_of board.now) (opening_of board.now) }
    requires sessions { (k : ℕ) (d : _) → k < length tasks.sessions.items
        → W.may_begin (slice_index_or tasks.sessions.items k d).work (callers_of board.now)
        (opening_of board.now) (1 + k) }
    requires workers { (k : ℕ) (d : _) → k < length tasks.workers.items
        → K.may_begin (slice_index_or tasks.workers.items k d).work (callers_of board.now)
        (opening_of board.now) (1 + length tasks.sessions.items + k) }
    requires flusher { F.may_begin tasks.flusher.work (callers_of board.now) (opening_of board.now)
        (1 + length tasks.sessions.items + length tasks.workers.items) }
    ensures play { MayPlay M.may_begin W.may_begin board.now result.main result.sessions.items }
    ensures serve { AreReady K.may_begin board.now (1 + length result.sessions.items)
        result.workers.items }
    ensures flush { IsReady F.may_begin board.now
        (1 + length result.sessions.items + length result.workers.items) result.flusher }
    ensures main_work { result.main.work ≡ tasks.main.work }
    ensures flusher_work { result.flusher.work ≡ tasks.flusher.work }
    ensures as_many_sessions { length result.sessions.items ≡ length tasks.sessions.items }
    ensures sessions_work { (k : ℕ) (d : _) → k < length tasks.sessions.items
        → (slice_index_or result.sessions.items k d).work
        ≡ (slice_index_or tasks.sessions.items k d).work }
    ensures as_many_workers { length result.workers.items ≡ length tasks.workers.items }
    ensures workers_work { (k : ℕ) (d : _) → k < length tasks.workers.items
        → (slice_index_or result.workers.items k d).work
        ≡ (slice_index_or tasks.workers.items k d).work }
{
    let AllTasks {
        mut main,
        mut sessions,
        mut workers,
        mut flusher,
    } = tasks;
    give_callers(
        board,
        pass,
        &mut main,
        &mut flusher,
        sessions.as_mut_slice(),
        workers.as_mut_slice(),
    );
    AllTasks {
        main,
        sessions,
        workers,
        flusher,
    }
}
