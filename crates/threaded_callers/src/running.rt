//! All works on threads, and the board that is shut behind them.
ghost use Rattle.std.specs.Prelude.{◌≡◌, ◌+◌, ◌<◌, ◌≤◌, ℕ, [], false, IsTrue, length, slice_index_or};
ghost use Rattle.threaded_callers.specs.Ends.{HaveRun};
ghost use Rattle.threaded_callers.specs.Sides.{MayPlay};
ghost use Rattle.threaded_callers.specs.Starts.{HaveThreads};
ghost use Rattle.threaded_callers.specs.Tasks.{AreReady, IsReady};
ghost use Rattle.turn_board.specs.Calls.{IsFirst};
ghost use Rattle.turn_board.specs.Passes.{IsPassOf, callers_of, opening_of, view_of};

use crate::main_task::gather_into;
use crate::playing::Played;
use crate::serving::{Joined, Served, serve};
use crate::sharing::{share_out, split_first};
use crate::starter::ThreadStarter;
use crate::task::Task;
use crate::work::{CallerWork, MainWork, StepWork};
use std::alloc::Global;
use std::sync::Wait;
use std::thread::Threads;
use turn_board::{Board, Cells, Pass};

/// The cells that a board left, the tasks once all have ended, and who started their threads.
pub struct Ended<C: Cells, M, W, K, F> {
    pub cells: Vec<C::Cell>,
    pub workers: Vec<Task<C, K>>,
    pub played: Played<C, M, W, F>,
    pub starter: ThreadStarter,
}

/// Gives each task a caller of a board's first pass: main the first, the sessions, the workers and the
/// flusher those that follow.
pub fn give_callers<C: Cells, M: MainWork<C>, W: CallerWork<C>, K: CallerWork<C>, F: CallerWork<C>>(
    board: &Board<C>,
    pass: Pass<C>,
    main: &mut Task<C, M>,
    flusher: &mut Task<C, F>,
    sessions: &mut [Task<C, W>],
    workers: &mut [Task<C, K>],
)
    requires pass { IsPassOf board.now pass }
    requires first { IsFirst (callers_of board.now) (opening_of board.now) (view_of pass) }
    requires callers { callers_of board.now ≡ 2 + length sessions.old + length workers.old }
    requires main { M.may_begin main.old.work (callers_of board.now) (opening_of board.now) }
    requires sessions { (k : ℕ) (d : _) → k < length sessions.old
        → W.may_begin (slice_index_or sessions.old k d).work (callers_of board.now)
        (opening_of board.now) (1 + k) }
    requires workers { (k : ℕ) (d : _) → k < length workers.old
        → K.may_begin (slice_index_or workers.old k d).work (callers_of board.now)
        (opening_of board.now) (1 + length sessions.old + k) }
    requires flusher { F.may_begin flusher.old.work (callers_of board.now) (opening_of board.now)
        (1 + length sessions.old + length workers.old) }
    ensures play { MayPlay M.may_begin W.may_begin board.now main.new sessions.new }
    ensures serve { AreReady K.may_begin board.now (1 + length sessions.new) workers.new }
    ensures flush { IsReady F.may_begin board.now (1 + length sessions.new + length workers.new)
        flusher.new }
    ensures main_work { main.new.work ≡ main.old.work }
    ensures flusher_work { flusher.new.work ≡ flusher.old.work }
    ensures sessions_work { (k : ℕ) (d : _) → k < length sessions.old
        → (slice_index_or sessions.new k d).work ≡ (slice_index_or sessions.old k d).work }
    ensures workers_work { (k : ℕ) (d : _) → k < length workers.old
        → (slice_index_or workers.new k d).work ≡ (slice_index_or workers.old k d).work }
{
    let (first, rest) = split_first(board, pass);
    let rest = share_out(board, rest, sessions);
    let last = share_out(board, rest, workers);
    main.give(first);
    flusher.give(last);
}

/// Does all works: those of the sessions, the workers and the flusher, each on a thread of its own, and
/// that of main here, in order: once the sessions have ended it stops the flusher, and once that has
/// ended the workers. Then the board is shut.
///
/// A session whose thread is refused is done here. A worker or the flusher has to work beside the
/// sessions: where one of these is refused a thread no session begins, main stops the others, and what
/// has no thread is done here then. So nobody waits for a thread that there is not.
///
/// Where it lends, a session that rests does first what its last call left to do, if no worker is at it.
/// So it goes without a thread's waking. Without memory for that it is done by the workers alone.
pub fn run_on_threads<
    C: Cells + Send + Sync,
    R: Threads + Wait + Sync,
    M: MainWork<C> + Drop,
    W: CallerWork<C> + Send + Drop,
    K: StepWork<C> + Send + Drop,
    F: CallerWork<C> + Send + Drop,
>(
    rt: &R,
    alloc: Global,
    lends: bool,
    starter: ThreadStarter,
    board: Board<C>,
    main: Task<C, M>,
    sessions: Vec<Task<C, W>>,
    workers: Vec<Task<C, K>>,
    flusher: Task<C, F>,
) -> Ended<C, M, W, K, F>
where
    C::Cell: Send + Sync,
    requires callers { 1 + length sessions.items + length workers.items ≤ callers_of board }
    requires play { MayPlay M.may_begin W.may_begin board main sessions.items }
    requires serve { AreReady K.may_begin board (1 + length sessions.items) workers.items }
    requires flush { IsReady F.may_begin board (1 + length sessions.items + length workers.items)
        flusher }
    ensures threads { HaveThreads (1 + length workers.items) result.played.began starter
        result.starter }
    ensures first { IsTrue result.played.began → IsTrue result.played.flushed }
    ensures run { HaveRun C.step C.fits M.has_stopped M.has_ended W.has_done K.has_done F.has_done
        (callers_of board) (opening_of board) result.played.began result.played.flushed main.work
        result.played.main.work sessions.items result.played.sessions.items workers.items
        result.workers.items flusher.work result.played.flusher.work result.cells.items }
{
    let Joined { served, starter } = serve(
        rt, alloc, lends, starter, &board, main, sessions, workers, flusher,
    );
    let Served {
        mut workers,
        mut played,
    } = served;
    gather_into(&board, &mut played.main, workers.as_mut_slice());
    let pass = played.main.take_pass(&board);
    let cells = board.shut(rt, pass);
    Ended {
        cells,
        workers,
        played,
        starter,
    }
}
