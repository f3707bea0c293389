//! Sessions add to one cell, and the flusher and the workers wait each for a cell of its own.
ghost use Rattle.std.specs.Prelude.{◌≡◌, ◌+◌, ◌<◌, ◌^◌, length, IfOk, refl};
ghost use Rattle.turn_board.specs.Calls.{IsFirst};
ghost use Rattle.turn_board.specs.Passes.{callers_of, opening_of, view_of, IsPassOf};

use board_callers::CellCaller;
use std::alloc::{AllocError, Global};
use std::sync::Wait;
use std::thread::Threads;
use threaded_callers::{
    CallerWork, Ended, MainWork, StepWork, Task, ThreadStarter, give_callers, run_on_threads,
};
use turn_board::{Board, Cells, NoMemory, Pass};

// Cells that a call adds to, and that answer what they are then.
struct Counts;

impl Cells for Counts {
    type Cell = u64;

    type Call = u64;

    type Answer = u64;

    ghost step = { λ _ _ _ _. Unit {0} };

    ghost can = { λ _ _. Unit {0} };

    ghost fits = { λ _ _ _ _ _. Unit {0} };

    fn apply(cell: &mut u64, call: u64) -> u64 {
        *cell = cell.wrapping_add(call);
        *cell
    }

    ghost safe = { λ opening log by k call x y run at leads fit. tt };
}

// A session: it adds 1 to the first cell so many times.
#[derive(Drop)]
struct Adder {
    times: u32,
    done: bool,
}

impl CallerWork<Counts> for Adder {
    ghost may_begin = { λ work callers opening number. 0 < length opening };

    ghost has_done = { λ before after opening number own. Unit {0} };

    fn work<R: Wait, P: CellCaller<Counts>>(
        &mut self,
        rt: &R,
        board: &Board<Counts>,
        caller: &mut P,
    ) {
        add_often(rt, board, caller, self.times);
        self.done = true;
    }
}

fn add_often<R: Wait, P: CellCaller<Counts>>(
    rt: &R,
    board: &Board<Counts>,
    caller: &mut P,
    times: u32,
)
    requires board { P.calls_on board.now caller.old }
    requires there { 0 < length (P.opening caller.old) }
    ensures board { P.calls_on board.now caller.new }
    ensures opening { P.opening caller.new ≡ P.opening caller.old }
    ensures number { P.number caller.new ≡ P.number caller.old }
    ensures others { P.others caller.new ≡ P.others caller.old }
{
    for _ in 0..times {
        caller.call(rt, board, 0, 1);
    }
}

// A worker, or the flusher: it waits until somebody has added to its cell.
#[derive(Drop)]
struct Waiter {
    cell: u32,
    told: u64,
}

impl CallerWork<Counts> for Waiter {
    ghost may_begin = { λ work callers opening number. work.cell < length opening };

    ghost has_done = { λ before after opening number own. Unit {0} };

    fn work<R: Wait, P: CellCaller<Counts>>(
        &mut self,
        rt: &R,
        board: &Board<Counts>,
        caller: &mut P,
    ) {
        self.told = wait_until_told(rt, board, caller, self.cell);
    }
}

impl StepWork<Counts> for Waiter {
    ghost so_far = { λ before after opening number own. after.cell ≡ before.cell };

    ghost has_stepped = { λ work opening number before now. Unit {0} };

    fn step<R: Wait, P: CellCaller<Counts>>(
        &mut self,
        rt: &R,
        board: &Board<Counts>,
        caller: &mut P,
    ) -> bool {
        self.told = caller.call(rt, board, self.cell, 0);
        self.told != 0
    }

    // Cell 2 is that of the first worker.
    fn server_of(cell: u32, _works: usize) -> usize {
        (cell as usize).wrapping_sub(2)
    }

    ghost begun = { λ work callers opening number may. refl };
}

fn wait_until_told<R: Wait, P: CellCaller<Counts>>(
    rt: &R,
    board: &Board<Counts>,
    caller: &mut P,
    cell: u32,
) -> u64
    requires board { P.calls_on board.now caller.old }
    requires there { cell < length (P.opening caller.old) }
    ensures board { P.calls_on board.now caller.new }
    ensures opening { P.opening caller.new ≡ P.opening caller.old }
    ensures number { P.number caller.new ≡ P.number caller.old }
    ensures others { P.others caller.new ≡ P.others caller.old }
{
    for _ in rt.forever() {
        let told = caller.call(rt, board, cell, 0);
        if told != 0 {
            return told;
        }
        caller.rest(rt, board);
    }
    unreachable!()
}

// Main: it adds to the flusher's cell 1 more than the first cell has, and to each worker's cell 1.
#[derive(Drop)]
struct Teller {
    workers: u32,
    began: bool,
}

impl MainWork<Counts> for Teller {
    ghost may_begin = { λ work callers opening.
        (1 + work.workers < length opening) × (work.workers < 2 ^ 16) };

    ghost has_stopped = { λ before after callers opening own.
        (1 + after.workers < length opening) × (after.workers < 2 ^ 16) };

    ghost has_ended = { λ before after opening began own own'. Unit {0} };

    fn stop_flusher<R: Wait, P: CellCaller<Counts>>(
        &mut self,
        rt: &R,
        board: &Board<Counts>,
        caller: &mut P,
    ) {
        let all = caller.call(rt, board, 0, 0);
        caller.call(rt, board, 1, all.wrapping_add(1));
    }

    fn stop_workers<R: Wait, P: CellCaller<Counts>>(
        &mut self,
        rt: &R,
        board: &Board<Counts>,
        caller: &mut P,
        began: bool,
    ) {
        tell_all(rt, board, caller, self.workers);
        self.began = began;
    }
}

fn tell_all<R: Wait, P: CellCaller<Counts>>(
    rt: &R,
    board: &Board<Counts>,
    caller: &mut P,
    workers: u32,
)
    requires board { P.calls_on board.now caller.old }
    requires there { 1 + workers < length (P.opening caller.old) }
    requires few { workers < 2 ^ 16 }
    ensures board { P.calls_on board.now caller.new }
    ensures opening { P.opening caller.new ≡ P.opening caller.old }
    ensures number { P.number caller.new ≡ P.number caller.old }
    ensures others { P.others caller.new ≡ P.others caller.old }
{
    for k in 0..workers {
        caller.call(rt, board, 2 + k, 1);
    }
}

// A board of counts for three sessions, two workers, main and the flusher.
fn counting(alloc: Global) -> Result<(Board<Counts>, Pass<Counts>), AllocError>
    ensures pass { IfOk result (λ r. IsPassOf r.0 r.1) }
    ensures first { IfOk result (λ r. IsFirst 7 (opening_of r.0) (view_of r.1)) }
    ensures callers { IfOk result (λ r. callers_of r.0 ≡ 7) }
    ensures cells { IfOk result (λ r. length (opening_of r.0) ≡ 4) }
{
    let zeros = Vec::from_elem(alloc, 0u64, 4)?;
    match Board::new(alloc, zeros, 7) {
        Ok(made) => Ok(made),
        Err(NoMemory { cells: _ }) => Err(AllocError),
    }
}

// Whether a run ends as it may by how many threads it may have for two workers and the flusher. With a thread
// for each of these it leaves what all sessions added, tells the flusher of it, and tells each worker. With
// fewer no session begins, and the flusher works only where both workers have a thread.
fn ends_as_it_may<R: Threads + Wait + Sync>(
    rt: &R,
    alloc: Global,
    times: u32,
    most_threads: u64,
    lends: bool,
) -> bool {
    let adder = || Task::new(Adder { times, done: false });
    let Ok(mut sessions) = vec![in alloc; adder(), adder(), adder()] else {
        return false;
    };
    let worker = |cell: u32| Task::new(Waiter { cell, told: 0 });
    let Ok(mut workers) = vec![in alloc; worker(2), worker(3)] else {
        return false;
    };
    let Ok((board, pass)) = counting(alloc) else {
        return false;
    };
    let mut main = Task::new(Teller {
        workers: 2,
        began: false,
    });
    let mut flusher = worker(1);
    give_callers(
        &board,
        pass,
        &mut main,
        &mut flusher,
        sessions.as_mut_slice(),
        workers.as_mut_slice(),
    );
    let Ended {
        cells,
        workers,
        played,
        starter,
    } = run_on_threads(
        rt,
        alloc,
        lends,
        ThreadStarter::new(most_threads),
        board,
        main,
        sessions,
        workers,
        flusher,
    );
    let begins = most_threads > 2;
    let flushes = most_threads > 1;
    let all = if begins { 3 * u64::from(times) } else { 0 };
    let told = if flushes { all + 1 } else { 0 };
    played.began == begins
        && starter.has_refused() != begins
        && cells.as_slice() == [all, all + 1, 1, 1].as_slice()
        && played.flusher.work.told == told
        && workers.iter().all(|worker| worker.work.told == 1)
        && played
            .sessions
            .iter()
            .all(|session| session.work.done == begins)
}

#[test]
fn all_works_are_done(rt: HostRuntime) {
    assert!(rt; ends_as_it_may(&rt, rt.alloc(), 10_000, 3, true));
}

#[test]
fn runs_with_too_few_threads_end(rt: HostRuntime) {
    for most_threads in 0..3 {
        assert!(rt; ends_as_it_may(&rt, rt.alloc(), 100, most_threads, most_threads == 2));
    }
}

#[test]
fn many_runs_end(rt: HostRuntime) {
    for times in 1..200 {
        assert!(rt; ends_as_it_may(&rt, rt.alloc(), times, u64::MAX, times % 2 == 0));
    }
}
