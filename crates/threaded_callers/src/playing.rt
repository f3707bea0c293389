//! Main's side: the sessions, and the flusher beside them.
ghost use Rattle.std.specs.Prelude.{◌≡◌, ℕ, true, false, [], IsTrue};
ghost use Rattle.threaded_callers.specs.Sides.{HasEnded, HasFinished, HaveEnded, MayPlay};
ghost use Rattle.threaded_callers.specs.Starts.{HaveThreads};
ghost use Rattle.threaded_callers.specs.Tasks.{IsHeldBy, IsReady, IsTaskOf, IsWorked};

use crate::helping::Help;
use crate::main_task::{gather_into, gather_one_into, stop_flusher, stop_workers};
use crate::starter::ThreadStarter;
use crate::station::Roster;
use crate::task::Task;
use crate::work::{CallerWork, MainWork, StepWork};
use crate::working::{WorkPromise, work_through, work_where};
use std::snapshot::Snapshot;
use std::sync::Wait;
use std::thread::{Scope, Threads};
use turn_board::{Board, Cells};

/// Main, the sessions and the flusher, once their works have ended, and whose were begun.
#[derive(Drop)]
pub struct Played<C: Cells, M, W, F> {
    pub main: Task<C, M>,
    pub sessions: Vec<Task<C, W>>,
    pub flusher: Task<C, F>,
    pub began: bool,
    pub flushed: bool,
}

// Main and the sessions.
#[derive(Drop)]
struct MainSide<C: Cells, M, W> {
    main: Task<C, M>,
    sessions: Vec<Task<C, W>>,
}

// The sessions work, each on a thread of its own where one can be had, or none does. Then main stops the flusher.
fn play_sessions<
    C: Cells + Send + Sync,
    R: Threads + Wait + Sync,
    M: MainWork<C>,
    W: CallerWork<C> + Send,
    K: StepWork<C> + Send + Drop,
    L: Roster<C, C::Cell, C::Call, C::Answer, K> + Send + Sync,
>(
    rt: &R,
    board: &Board<C>,
    help: &Help<'_, '_, C, K, L>,
    begins: bool,
    main: &mut Task<C, M>,
    sessions: &mut [Task<C, W>],
)
where
    C::Cell: Send + Sync,
    requires may { MayPlay M.may_begin W.may_begin board.now main.old sessions.old }
    ensures { HaveEnded M.has_stopped W.has_done board.now begins main.old main.new sessions.old
        sessions.new }
{
    work_where(rt, board, help, sessions, begins);
    gather_into(board, main, sessions);
    stop_flusher(rt, board, main);
}

// So they do, as main's side.
fn play_side<
    C: Cells + Send + Sync,
    R: Threads + Wait + Sync,
    M: MainWork<C> + Drop,
    W: CallerWork<C> + Send + Drop,
    K: StepWork<C> + Send + Drop,
    L: Roster<C, C::Cell, C::Call, C::Answer, K> + Send + Sync,
>(
    rt: &R,
    board: &Board<C>,
    help: &Help<'_, '_, C, K, L>,
    begins: bool,
    main: Task<C, M>,
    sessions: Vec<Task<C, W>>,
) -> MainSide<C, M, W>
where
    C::Cell: Send + Sync,
    requires may { MayPlay M.may_begin W.may_begin board.now main sessions.items }
    ensures { HaveEnded M.has_stopped W.has_done board.now begins main result.main sessions.items
        result.sessions.items }
{
    let mut main = main;
    let mut sessions = sessions;
    play_sessions(rt, board, help, begins, &mut main, sessions.as_mut_slice());
    MainSide { main, sessions }
}

// Main's side and the flusher, whose work was done on some thread.
struct FlushedSide<C: Cells, M, W, F> {
    side: MainSide<C, M, W>,
    flusher: Task<C, F>,
    began: bool,
}

// The flusher works on a thread of its own, and the sessions beside it. Where it gets none, no session begins, and its work
// is done here once main has stopped it.
fn flush_beside<
    's,
    E,
    C: Cells + Send + Sync + 's,
    R: Threads + Wait + Sync + 's,
    M: MainWork<C> + Drop,
    W: CallerWork<C> + Send + Drop,
    F: CallerWork<C> + Send + Drop + 's,
    K: StepWork<C> + Send + Drop + 's,
    L: Roster<C, C::Cell, C::Call, C::Answer, K> + Send + Sync + 's,
>(
    rt: &'s R,
    scope: &Scope<'s, E>,
    starter: &mut ThreadStarter,
    board: &'s Board<C>,
    help: &Help<'_, '_, C, K, L>,
    main: Task<C, M>,
    sessions: Vec<Task<C, W>>,
    flusher: Task<C, F>,
) -> FlushedSide<C, M, W, F>
where
    C::Cell: Send + Sync,
    requires may { MayPlay M.may_begin W.may_begin board.now main sessions.items }
    requires flusher { (number : ℕ) × IsReady F.may_begin board.now number flusher }
    ensures flusher { IsWorked F.has_done board.now flusher result.flusher }
    ensures ended { HaveEnded M.has_stopped W.has_done board.now result.began main
        result.side.main sessions.items result.side.sessions.items }
    ensures threads { HaveThreads 1 result.began starter.old starter.new }
{
    let promise = WorkPromise {
        board,
        before: Snapshot::of(&flusher),
    };
    match starter.start(
        scope,
        promise,
        move || -> Task<C, F>
            requires ready { (number : ℕ) × IsReady F.may_begin board.now number flusher }
            ensures { IsWorked F.has_done board.entry.now flusher result }
        { work_through(rt, board, flusher) },
    ) {
        Ok(handle) => {
            let side = play_side(rt, board, help, true, main, sessions);
            FlushedSide {
                side,
                flusher: handle.join(rt),
                began: true,
            }
        }
        Err(refused) => {
            let side = play_side(rt, board, help, false, main, sessions);
            FlushedSide {
                side,
                flusher: (refused.value)(),
                began: false,
            }
        }
    }
}

// So it does, and main takes its pass in.
fn play_beside_flusher<
    's,
    E,
    C: Cells + Send + Sync + 's,
    R: Threads + Wait + Sync + 's,
    M: MainWork<C> + Drop,
    W: CallerWork<C> + Send + Drop,
    F: CallerWork<C> + Send + Drop + 's,
    K: StepWork<C> + Send + Drop + 's,
    L: Roster<C, C::Cell, C::Call, C::Answer, K> + Send + Sync + 's,
>(
    rt: &'s R,
    scope: &Scope<'s, E>,
    starter: &mut ThreadStarter,
    board: &'s Board<C>,
    help: &Help<'_, '_, C, K, L>,
    main: Task<C, M>,
    sessions: Vec<Task<C, W>>,
    flusher: Task<C, F>,
) -> Played<C, M, W, F>
where
    C::Cell: Send + Sync,
    requires may { MayPlay M.may_begin W.may_begin board.now main sessions.items }
    requires flusher { (number : ℕ) × IsReady F.may_begin board.now number flusher }
    ensures threads { HaveThreads 1 result.began starter.old starter.new }
    ensures flushed { result.flushed ≡ true }
    ensures ended { (number : ℕ) → IsHeldBy board.now number [] flusher
        → HasEnded M.has_stopped W.has_done F.has_done board.now result.began true number main
        result.main sessions.items result.sessions.items flusher result.flusher }
{
    let FlushedSide {
        side,
        mut flusher,
        began,
    } = flush_beside(rt, scope, starter, board, help, main, sessions, flusher);
    let MainSide { mut main, sessions } = side;
    gather_one_into(board, &mut main, &mut flusher);
    Played {
        main,
        sessions,
        flusher,
        began,
        flushed: true,
    }
}

// Nobody of main's side works: a worker was refused a thread.
fn play_nothing<
    C: Cells + Send + Sync,
    R: Threads + Wait + Sync,
    M: MainWork<C> + Drop,
    W: CallerWork<C> + Send + Drop,
    F: CallerWork<C> + Drop,
    K: StepWork<C> + Send + Drop,
    L: Roster<C, C::Cell, C::Call, C::Answer, K> + Send + Sync,
>(
    rt: &R,
    _starter: &ThreadStarter,
    board: &Board<C>,
    help: &Help<'_, '_, C, K, L>,
    main: Task<C, M>,
    sessions: Vec<Task<C, W>>,
    flusher: Task<C, F>,
) -> Played<C, M, W, F>
where
    C::Cell: Send + Sync,
    requires refused { _starter.now.refused ≡ true }
    requires may { MayPlay M.may_begin W.may_begin board.now main sessions.items }
    requires flusher { IsTaskOf board.now flusher }
    ensures threads { HaveThreads 1 result.began _starter.now _starter.now }
    ensures began { result.began ≡ false }
    ensures flushed { result.flushed ≡ false }
    ensures ended { (number : ℕ) → IsHeldBy board.now number [] flusher
        → HasEnded M.has_stopped W.has_done F.has_done board.now false false number main
        result.main sessions.items result.sessions.items flusher result.flusher }
{
    let mut flusher = flusher;
    let MainSide { mut main, sessions } = play_side(rt, board, help, false, main, sessions);
    gather_one_into(board, &mut main, &mut flusher);
    Played {
        main,
        sessions,
        flusher,
        began: false,
        flushed: false,
    }
}

// The sessions and the flusher work where no worker was refused a thread. The flusher waits for workers, so it does not work
// here unless each of them has one.
fn play<
    's,
    E,
    C: Cells + Send + Sync + 's,
    R: Threads + Wait + Sync + 's,
    M: MainWork<C> + Drop,
    W: CallerWork<C> + Send + Drop,
    F: CallerWork<C> + Send + Drop + 's,
    K: StepWork<C> + Send + Drop + 's,
    L: Roster<C, C::Cell, C::Call, C::Answer, K> + Send + Sync + 's,
>(
    rt: &'s R,
    scope: &Scope<'s, E>,
    starter: &mut ThreadStarter,
    board: &'s Board<C>,
    help: &Help<'_, '_, C, K, L>,
    main: Task<C, M>,
    sessions: Vec<Task<C, W>>,
    flusher: Task<C, F>,
) -> Played<C, M, W, F>
where
    C::Cell: Send + Sync,
    requires may { MayPlay M.may_begin W.may_begin board.now main sessions.items }
    requires flusher { (number : ℕ) × IsReady F.may_begin board.now number flusher }
    ensures threads { HaveThreads 1 result.began starter.old starter.new }
    ensures first { IsTrue result.began → IsTrue result.flushed }
    ensures ended { (number : ℕ) → IsHeldBy board.now number [] flusher
        → HasEnded M.has_stopped W.has_done F.has_done board.now result.began result.flushed number
        main result.main sessions.items result.sessions.items flusher result.flusher }
{
    let refused = starter.has_refused();
    if refused {
        play_nothing(rt, starter, board, help, main, sessions, flusher)
    } else {
        play_beside_flusher(rt, scope, starter, board, help, main, sessions, flusher)
    }
}

// So they do, and then main ends its work.
pub(crate) fn play_whole<
    's,
    E,
    C: Cells + Send + Sync + 's,
    R: Threads + Wait + Sync + 's,
    M: MainWork<C> + Drop,
    W: CallerWork<C> + Send + Drop,
    F: CallerWork<C> + Send + Drop + 's,
    K: StepWork<C> + Send + Drop + 's,
    L: Roster<C, C::Cell, C::Call, C::Answer, K> + Send + Sync + 's,
>(
    rt: &'s R,
    scope: &Scope<'s, E>,
    starter: &mut ThreadStarter,
    board: &'s Board<C>,
    help: &Help<'_, '_, C, K, L>,
    main: Task<C, M>,
    sessions: Vec<Task<C, W>>,
    flusher: Task<C, F>,
) -> Played<C, M, W, F>
where
    C::Cell: Send + Sync,
    requires may { MayPlay M.may_begin W.may_begin board.now main sessions.items }
    requires flusher { (number : ℕ) × IsReady F.may_begin board.now number flusher }
    ensures threads { HaveThreads 1 result.began starter.old starter.new }
    ensures first { IsTrue result.began → IsTrue result.flushed }
    ensures ended { (number : ℕ) → IsHeldBy board.now number [] flusher
        → HasFinished M.has_stopped M.has_ended W.has_done F.has_done board.now result.began
        result.flushed number main result.main sessions.items result.sessions.items flusher
        result.flusher }
{
    let mut played = play(rt, scope, starter, board, help, main, sessions, flusher);
    stop_workers(rt, board, &mut played.main, played.began);
    played
}
