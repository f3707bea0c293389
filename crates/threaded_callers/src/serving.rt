//! The workers, each on a thread of its own, and main's side beside them.
ghost use Rattle.std.specs.Prelude.{◌≡◌, ◌+◌, ◌<◌, ◌≤◌, ℕ, [], ◌++◌, IsTrue, ◌↔◌, length, slice_index_or, vec_len, vec_capacity, Some, IsSome, IfSome, MatchOption, option_to_list};
ghost use Rattle.threaded_callers.specs.Sides.{HasFinished, HaveServed, MayPlay, MayServe};
ghost use Rattle.threaded_callers.specs.Starts.{HaveThreads};
ghost use Rattle.threaded_callers.specs.Stations.{AreListed, IsListed};
ghost use Rattle.threaded_callers.specs.Tasks.{AreReady, IsHeldBy, IsReady, IsWorked};
ghost use Rattle.turn_board.specs.Passes.{callers_of};

use crate::helping::Help;
use crate::playing::{Played, play_whole};
use crate::starter::ThreadStarter;
use crate::station::{Roster, Slot, work_lent};
use crate::task::Task;
use crate::work::{CallerWork, MainWork, StepWork};
use crate::working::{WorkPromise, work_through};
use std::alloc::Global;
use std::marker::Brand;
use std::snapshot::Snapshot;
use std::sync::{Mutex, Wait};
use std::thread;
use std::thread::{Scope, Threads};
use turn_board::{Board, Cells};

// The workers and main's side, once all works have ended.
pub(crate) struct Served<C: Cells, M, W, K, F> {
    pub(crate) workers: Vec<Task<C, K>>,
    pub(crate) played: Played<C, M, W, F>,
}

// And who started their threads.
pub(crate) struct Joined<C: Cells, M, W, K, F> {
    pub(crate) served: Served<C, M, W, K, F>,
    pub(crate) starter: ThreadStarter,
}

// Takes the last worker out of the list, if there is one. It is listed at its place, and so are those that are left.
fn take_last<C: Cells, K: CallerWork<C>, L: Roster<C, C::Cell, C::Call, C::Answer, K>>(
    _board: &Board<C>,
    workers: &mut Vec<Task<C, K>>,
) -> Option<Task<C, K>>
    requires listed { AreListed K.may_begin _board.now L.works L.from workers.old.items }
    ensures items { workers.old.items ≡ workers.new.items ++ option_to_list result }
    ensures variant { IsSome result ↔ (0 < vec_len workers.old) }
    ensures len { vec_len workers.new + length (option_to_list result) ≡ vec_len workers.old }
    ensures capacity { vec_capacity workers.new ≡ vec_capacity workers.old }
    ensures cases { MatchOption result ((vec_len workers.old ≡ 0) × (vec_len workers.new ≡ 0))
        (λ _. vec_len workers.new + 1 ≡ vec_len workers.old) }
    ensures listed { AreListed K.may_begin _board.now L.works L.from workers.new.items }
    ensures worker { IfSome result (λ worker. IsListed K.may_begin _board.now L.works L.from
        (length workers.new.items) worker) }
{
    workers.pop()
}

// The work of a listed worker is done here, and lent out meanwhile where it has a slot.
fn work_at<C: Cells, R: Wait, K: StepWork<C> + Drop, L: Roster<C, C::Cell, C::Call, C::Answer, K>>(
    rt: &R,
    board: &Board<C>,
    help: &Help<'_, '_, C, K, L>,
    place: usize,
    worker: Task<C, K>,
) -> Task<C, K>
    requires roster { L.board ≡ Some board.now }
    requires listed { IsListed K.may_begin board.now L.works L.from place worker }
    ensures { IsWorked K.has_done board.now worker result }
{
    let Some(slot) = help.slots.get(place) else {
        return work_through(rt, board, worker);
    };
    match help.number_of(place) {
        Some(number) => work_lent(rt, board, slot, number, place, worker),
        None => work_through(rt, board, worker),
    }
}

// The workers work, the last one first, each on a thread of its own, and main's side beside them. Where one is refused a thread
// the sessions do not begin, and the works that have no thread are done here, once main has stopped them.
fn serve_from<
    's,
    E,
    C: Cells + Send + Sync + 's,
    R: Threads + Wait + Sync + 's,
    M: MainWork<C> + Drop,
    W: CallerWork<C> + Send + Drop,
    K: StepWork<C> + Send + Drop + 's,
    F: CallerWork<C> + Send + Drop + 's,
    L: Roster<C, C::Cell, C::Call, C::Answer, K> + Send + Sync + 's,
>(
    rt: &'s R,
    scope: &Scope<'s, E>,
    starter: &mut ThreadStarter,
    board: &'s Board<C>,
    help: &'s Help<'s, 's, C, K, L>,
    main: Task<C, M>,
    sessions: Vec<Task<C, W>>,
    workers: Vec<Task<C, K>>,
    flusher: Task<C, F>,
) -> Served<C, M, W, K, F>
where
    C::Cell: Send + Sync,
    requires may { MayPlay M.may_begin W.may_begin board.now main sessions.items }
    requires roster { L.board ≡ Some board.now }
    requires listed { AreListed K.may_begin board.now L.works L.from workers.items }
    requires flusher { (number : ℕ) × IsReady F.may_begin board.now number flusher }
    ensures room { vec_capacity workers ≤ vec_capacity result.workers }
    ensures long { length result.workers.items ≡ length workers.items }
    ensures worked { (k : ℕ) (d : _) → k < length workers.items → IsWorked K.has_done board.now
        (slice_index_or workers.items k d) (slice_index_or result.workers.items k d) }
    ensures threads { HaveThreads (1 + length workers.items) result.played.began starter.old
        starter.new }
    ensures first { IsTrue result.played.began → IsTrue result.played.flushed }
    ensures ended { (number : ℕ) → IsHeldBy board.now number [] flusher
        → HasFinished M.has_stopped M.has_ended W.has_done F.has_done board.now
        result.played.began result.played.flushed number main result.played.main sessions.items
        result.played.sessions.items flusher result.played.flusher }
{
    let mut workers = workers;
    let Some(worker) = take_last::<C, K, L>(board, &mut workers) else {
        let played = play_whole(rt, scope, starter, board, help, main, sessions, flusher);
        return Served { workers, played };
    };
    let place = workers.len();
    let promise = WorkPromise {
        board,
        before: Snapshot::of(&worker),
    };
    match starter.start(
        scope,
        promise,
        move || -> Task<C, K>
            requires roster { L.board ≡ Some board.now }
            requires listed { IsListed K.may_begin board.now L.works L.from place worker }
            ensures { IsWorked K.has_done board.entry.now worker result }
        { work_at(rt, board, help, place, worker) },
    ) {
        Ok(handle) => {
            let mut served = serve_from(
                rt,
                scope,
                &mut *starter,
                board,
                help,
                main,
                sessions,
                workers,
                flusher,
            );
            served.workers.push_reserved(handle.join(rt));
            served
        }
        Err(refused) => {
            let mut served = serve_from(
                rt,
                scope,
                &mut *starter,
                board,
                help,
                main,
                sessions,
                workers,
                flusher,
            );
            served.workers.push_reserved((refused.value)());
            served
        }
    }
}

// So they do, and the starter is given back.
fn serve_all<
    's,
    E,
    C: Cells + Send + Sync + 's,
    R: Threads + Wait + Sync + 's,
    M: MainWork<C> + Drop,
    W: CallerWork<C> + Send + Drop,
    K: StepWork<C> + Send + Drop + 's,
    F: CallerWork<C> + Send + Drop + 's,
    L: Roster<C, C::Cell, C::Call, C::Answer, K> + Send + Sync + 's,
>(
    rt: &'s R,
    scope: &Scope<'s, E>,
    starter: ThreadStarter,
    board: &'s Board<C>,
    help: &'s Help<'s, 's, C, K, L>,
    main: Task<C, M>,
    sessions: Vec<Task<C, W>>,
    workers: Vec<Task<C, K>>,
    flusher: Task<C, F>,
) -> Joined<C, M, W, K, F>
where
    C::Cell: Send + Sync,
    requires roster { L.board ≡ Some board.now }
    requires may { MayServe M.may_begin W.may_begin K.may_begin F.may_begin board.now L.works L.from main
        sessions.items workers.items flusher }
    ensures { HaveServed M.has_stopped M.has_ended W.has_done K.has_done F.has_done board.now
        result.served.played.began result.served.played.flushed main result.served.played.main
        sessions.items result.served.played.sessions.items workers.items
        result.served.workers.items flusher result.served.played.flusher starter result.starter }
{
    let mut starter = starter;
    let served = serve_from(
        rt,
        scope,
        &mut starter,
        board,
        help,
        main,
        sessions,
        workers,
        flusher,
    );
    Joined { served, starter }
}

// A slot for each work that is lent out, or none where none is or there is no memory for them.
fn slots_for<C: Cells, K: StepWork<C> + Drop, L: Roster<C, C::Cell, C::Call, C::Answer, K>>(
    alloc: Global,
    lends: bool,
    count: usize,
) -> Vec<Slot<C, K, L>>
    ensures { vec_len result ≤ count }
{
    if !lends {
        return Vec::new(alloc);
    }
    let Ok(mut slots) = Vec::with_capacity(alloc, count) else {
        return Vec::new(alloc);
    };
    for _ in 0..count {
        slots.push_reserved(Mutex::new(None));
    }
    slots
}

// The number of the caller behind so many sessions.
fn caller_behind(sessions: usize) -> u32
    ensures { result ≤ 1 + sessions }
{
    match u32::try_from(sessions) {
        Ok(sessions) => sessions.saturating_add(1),
        Err(_) => 0,
    }
}

// So they do, and all threads have ended. The workers' works are lent out where that is asked for.
fn serve_lent<
    C: Cells + Send + Sync,
    R: Threads + Wait + Sync,
    M: MainWork<C> + Drop,
    W: CallerWork<C> + Send + Drop,
    K: StepWork<C> + Send + Drop,
    F: CallerWork<C> + Send + Drop,
    L: Roster<C, C::Cell, C::Call, C::Answer, K> + Send + Sync,
>(
    rt: &R,
    alloc: Global,
    lends: bool,
    starter: ThreadStarter,
    board: &Board<C>,
    main: Task<C, M>,
    sessions: Vec<Task<C, W>>,
    workers: Vec<Task<C, K>>,
    flusher: Task<C, F>,
) -> Joined<C, M, W, K, F>
where
    C::Cell: Send + Sync,
    requires board { L.board ≡ Some board.now }
    requires from { L.from ≡ 1 + length sessions.items }
    requires callers { 1 + length sessions.items + length workers.items ≤ callers_of board.now }
    requires may { MayServe M.may_begin W.may_begin K.may_begin F.may_begin board.now L.works L.from main
        sessions.items workers.items flusher }
    ensures { HaveServed M.has_stopped M.has_ended W.has_done K.has_done F.has_done board.now
        result.served.played.began result.served.played.flushed main result.served.played.main
        sessions.items result.served.played.sessions.items workers.items
        result.served.workers.items flusher result.served.played.flusher starter result.starter }
{
    let slots = slots_for::<C, K, L>(alloc, lends, workers.len());
    let help = Help {
        board,
        slots: slots.as_slice(),
        first: caller_behind(sessions.len()),
    };
    let help = &help;
    thread::scope(
        thread::scope_env(),
        rt,
        move |scope| -> Joined<C, M, W, K, F>
            requires roster { L.board ≡ Some board.now }
            requires may { MayServe M.may_begin W.may_begin K.may_begin F.may_begin board.now L.works
                L.from main sessions.items workers.items flusher }
            ensures { HaveServed M.has_stopped M.has_ended W.has_done K.has_done F.has_done
                board.entry.now result.served.played.began result.served.played.flushed main
                result.served.played.main sessions.items result.served.played.sessions.items
                workers.items result.served.workers.items flusher result.served.played.flusher
                starter result.starter }
        {
            serve_all(
                rt, scope, starter, board, help, main, sessions, workers, flusher,
            )
        },
    )
}

// So they do. The works that stand at the stations are the workers', and the first is that of the caller behind the sessions.
pub(crate) fn serve<
    C: Cells + Send + Sync,
    R: Threads + Wait + Sync,
    M: MainWork<C> + Drop,
    W: CallerWork<C> + Send + Drop,
    K: StepWork<C> + Send + Drop,
    F: CallerWork<C> + Send + Drop,
>(
    rt: &R,
    alloc: Global,
    lends: bool,
    starter: ThreadStarter,
    board: &Board<C>,
    main: Task<C, M>,
    sessions: Vec<Task<C, W>>,
    workers: Vec<Task<C, K>>,
    flusher: Task<C, F>,
) -> Joined<C, M, W, K, F>
where
    C::Cell: Send + Sync,
    requires callers { 1 + length sessions.items + length workers.items ≤ callers_of board.now }
    requires may { MayPlay M.may_begin W.may_begin board.now main sessions.items }
    requires workers { AreReady K.may_begin board.now (1 + length sessions.items) workers.items }
    requires flusher { (number : ℕ) × IsReady F.may_begin board.now number flusher }
    ensures { HaveServed M.has_stopped M.has_ended W.has_done K.has_done F.has_done board.now
        result.served.played.began result.served.played.flushed main result.served.played.main
        sessions.items result.served.played.sessions.items workers.items
        result.served.workers.items flusher result.served.played.flusher starter result.starter }
{
    serve_lent::<C, R, M, W, K, F, Brand>(
        rt, alloc, lends, starter, board, main, sessions, workers, flusher,
    )
}
