//! A core runs on threads.
ghost use Rattle.std.specs.Prelude.{◌≡◌, ◌+◌, ◌<◌, ◌≤◌, ◌^◌, [], IfErr, IfOk, IsTrue, length, vec_capacity};
ghost use Rattle.threaded_callers.specs.Sides.{MayPlay};
ghost use Rattle.threaded_callers.specs.Starts.{HaveThreads};
ghost use Rattle.threaded_callers.specs.Tasks.{AreReady, IsReady};
ghost use Rattle.threaded_core.specs.RanCores.{HasRunOnThreads, IsAsItWas, MayRun};
ghost use Rattle.threaded_core.specs.Rooms.{IsRoomFor};
ghost use Rattle.threaded_core.specs.TaskLists.{AreTasksOf, flusher_may, main_may, numbered_may, worker_may};
ghost use Rattle.turn_board.specs.Calls.{IsFirst};
ghost use Rattle.turn_board.specs.Passes.{IsPassOf, callers_of, opening_of, view_of};

use crate::cores::{RanCore, ReadyCore};
use crate::giving::{AllTasks, with_callers};
use crate::numbered::NumberedWork;
use crate::room::RunRoom;
use crate::taking::take_apart;
use crate::tasks::{session_tasks, worker_tasks, works_of};
use core_program::CoreSize;
use flush_loop::MakesRounds;
use linked_shards::{CoreShard, ShardCells};
use outside_disk::Gate;
use run_threads::{
    ClosingMain, FlusherWork, ShardWorker, callers_of_an_opened_core_may_begin,
    ended_boards_are_core_runs,
};
use std::alloc::{AllocError, Global};
use std::sync::Wait;
use std::thread::Threads;
use threaded_callers::{CallerWork, Ended, Played, Task, ThreadStarter, run_on_threads};
use turn_board::{Board, NoMemory, Pass};

// The tasks of all callers of a core.
type CoreTasks<'g, W, M, G> = AllTasks<
    ShardCells,
    ClosingMain,
    NumberedWork<W>,
    ShardWorker<'g, G>,
    FlusherWork<M>,
>;

// The works of main, the sessions, the workers and the flusher as tasks, each with its caller.
fn begin_all<'g, W: CallerWork<ShardCells> + Drop, M: MakesRounds<CoreShard>, G: Gate>(
    board: &Board<ShardCells>,
    pass: Pass<ShardCells>,
    size: CoreSize,
    works: Vec<W>,
    maker: M,
    gate: &'g G,
    sessions: Vec<Task<ShardCells, NumberedWork<W>>>,
    workers: Vec<Task<ShardCells, ShardWorker<'g, G>>>,
) -> CoreTasks<'g, W, M, G>
    requires pass { IsPassOf board.now pass }
    requires first { IsFirst (callers_of board.now) (opening_of board.now) (view_of pass) }
    requires callers { callers_of board.now ≡ size.sessions + 2 + size.shards }
    requires may { MayRun W.may_begin M.serves M.has_kept size.shards size.sessions
        (opening_of board.now) works.items maker }
    requires no_session { sessions.items ≡ [] }
    requires for_sessions { size.sessions ≤ vec_capacity sessions }
    requires no_worker { workers.items ≡ [] }
    requires for_workers { size.shards ≤ vec_capacity workers }
    ensures play { MayPlay main_may (numbered_may W.may_begin) board.now result.main
        result.sessions.items }
    ensures serve { AreReady worker_may board.now (1 + length result.sessions.items)
        result.workers.items }
    ensures flush { IsReady (flusher_may M.serves M.has_kept) board.now
        (1 + length result.sessions.items + length result.workers.items) result.flusher }
    ensures tasks { AreTasksOf size works.items maker result }
{
    callers_of_an_opened_core_may_begin::<M>();
    let tasks = AllTasks {
        main: Task::new(ClosingMain {
            size,
            counters: None,
        }),
        sessions: session_tasks(works, sessions, size.sessions),
        workers: worker_tasks(size, gate, workers),
        flusher: Task::new(FlusherWork {
            size,
            maker,
            last_round: None,
        }),
    };
    with_callers(board, pass, tasks)
}

// The works of all callers are done, and what they leave is taken apart.
fn run_on_board<
    R: Threads + Wait + Sync,
    W: CallerWork<ShardCells> + Send + Drop,
    M: MakesRounds<CoreShard> + Send + Drop,
    G: Gate + Sync,
>(
    rt: &R,
    alloc: Global,
    starter: ThreadStarter,
    board: Board<ShardCells>,
    pass: Pass<ShardCells>,
    size: CoreSize,
    sessions: Vec<W>,
    maker: M,
    gate: &G,
    room: RunRoom<W, G>,
) -> RanCore<W, M>
    requires pass { IsPassOf board pass }
    requires first { IsFirst (callers_of board) (opening_of board) (view_of pass) }
    requires callers { callers_of board ≡ size.sessions + 2 + size.shards }
    requires may { MayRun W.may_begin M.serves M.has_kept size.shards size.sessions
        (opening_of board) sessions.items maker }
    requires room { IsRoomFor size.shards size.sessions room }
    ensures threads { HaveThreads (1 + size.shards) result.began starter result.starter }
    ensures first { IsTrue result.began → IsTrue result.flushed }
    ensures run { HasRunOnThreads W.has_done M.serves M.has_kept M.becomes size.shards size.sessions
        (opening_of board) sessions.items maker result }
{
    let RunRoom {
        sessions: session_room,
        workers: worker_room,
        works,
        shards,
    } = room;
    let AllTasks {
        main,
        sessions,
        workers,
        flusher,
    } = begin_all(
        &board,
        pass,
        size,
        sessions,
        maker,
        gate,
        session_room,
        worker_room,
    );
    ended_boards_are_core_runs();
    let Ended {
        cells,
        workers: _,
        played,
        starter,
    } = run_on_threads(
        rt,
        alloc,
        !gate.may_hold(),
        starter,
        board,
        main,
        sessions,
        workers,
        flusher,
    );
    let Played {
        main,
        sessions,
        flusher,
        began,
        flushed,
    } = played;
    let Task { work: main, .. } = main;
    let Task { work: flusher, .. } = flusher;
    RanCore {
        left: take_apart(cells, shards, size.shards),
        sessions: works_of(sessions, works, size.sessions),
        began,
        maker: flusher.maker,
        last_round: flusher.last_round,
        flushed,
        counters: main.counters,
        starter,
    }
}

// It runs once there is room for what it leaves.
fn run_with_room<
    R: Threads + Wait + Sync,
    W: CallerWork<ShardCells> + Send + Drop,
    M: MakesRounds<CoreShard> + Send + Drop,
    G: Gate + Sync,
>(
    rt: &R,
    alloc: Global,
    starter: ThreadStarter,
    core: ReadyCore<W, M>,
    gate: &G,
    room: RunRoom<W, G>,
) -> Result<RanCore<W, M>, ReadyCore<W, M>>
    requires may { MayRun W.may_begin M.serves M.has_kept core.size.shards core.size.sessions
        core.cells.items core.sessions.items core.maker }
    requires room { IsRoomFor core.size.shards core.size.sessions room }
    ensures threads { IfOk result
        (λ ran. HaveThreads (1 + core.size.shards) ran.began starter ran.starter) }
    ensures first { IfOk result (λ ran. IsTrue ran.began → IsTrue ran.flushed) }
    ensures run { IfOk result (HasRunOnThreads W.has_done M.serves M.has_kept M.becomes
        core.size.shards core.size.sessions core.cells.items core.sessions.items core.maker) }
    ensures refused { IfErr result (IsAsItWas core) }
{
    let ReadyCore {
        size,
        cells,
        sessions,
        maker,
    } = core;
    match Board::new(alloc, cells, size.callers()) {
        Ok((board, pass)) => Ok(run_on_board(
            rt, alloc, starter, board, pass, size, sessions, maker, gate, room,
        )),
        Err(NoMemory { cells }) => Err(ReadyCore {
            size,
            cells,
            sessions,
            maker,
        }),
    }
}

/// Runs a core on threads: main here, each session, the worker of each shard and the flusher on a thread
/// of its own. It ends once the sessions have ended, the flusher has then made its last round, and the
/// workers have served all; what its cells held is then moved out.
///
/// No session begins where a worker or the flusher is refused a thread. The only error is want of
/// memory, before anything is called; the core is then as it was.
pub fn run_core<
    R: Threads + Wait + Sync,
    W: CallerWork<ShardCells> + Send + Drop,
    M: MakesRounds<CoreShard> + Send + Drop,
    G: Gate + Sync,
>(
    rt: &R,
    alloc: Global,
    starter: ThreadStarter,
    core: ReadyCore<W, M>,
    gate: &G,
) -> Result<RanCore<W, M>, ReadyCore<W, M>>
    requires may { MayRun W.may_begin M.serves M.has_kept core.size.shards core.size.sessions
        core.cells.items core.sessions.items core.maker }
    ensures threads { IfOk result
        (λ ran. HaveThreads (1 + core.size.shards) ran.began starter ran.starter) }
    ensures first { IfOk result (λ ran. IsTrue ran.began → IsTrue ran.flushed) }
    ensures run { IfOk result (HasRunOnThreads W.has_done M.serves M.has_kept M.becomes
        core.size.shards core.size.sessions core.cells.items core.sessions.items core.maker) }
    ensures refused { IfErr result (IsAsItWas core) }
{
    match RunRoom::of(alloc, &core.size) {
        Ok(room) => run_with_room(rt, alloc, starter, core, gate, room),
        Err(AllocError) => Err(core),
    }
}
