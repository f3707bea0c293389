//! The threads of an interleaving: a worker for each shard, the flusher and three sessions, each at its place in an order.
ghost use Rattle.std.specs.Prelude.{◌≡◌, ◌+◌, ◌<◌};
ghost use Rattle.small_core.specs.Openings.{IsNewCaller};
ghost use Rattle.turn_board.specs.Passes.{IsPassOf, callers_of};

use crate::draws::CUBE;
use crate::plain::PlainRun;
use crate::sessions::{SessionEnd, TakenStep, play_session};
use linked_shards::ShardCells;
use ordered_callers::{OrderPlace, OrderedCaller, order_places};
use small_core::{
    CoreCallers, CoreOnBoard, close_mails, core_on_board, end_core, serve, serve_flushes,
};
use std::alloc::Global;
use std::sync::Wait;
use std::thread::{Threads, join};
use turn_board::{Board, Pass};

// The worker of a shard, until main closes its mail.
fn serve_shard<R: Wait>(
    rt: &R,
    board: &Board<ShardCells>,
    caller: OrderedCaller<Pass<ShardCells>>,
    number: u32,
) -> Pass<ShardCells>
    requires caller { IsNewCaller board.now (4 + number) caller.caller }
    requires callers { callers_of board.now ≡ 7 }
    requires there { number < 2 }
    ensures { IsPassOf board.now result }
{
    let mut caller = caller;
    serve(rt, board, &mut caller, number);
    caller.into_caller(rt)
}

// The flusher, until main closes its mail.
fn flush<R: Wait>(
    rt: &R,
    board: &Board<ShardCells>,
    caller: OrderedCaller<Pass<ShardCells>>,
) -> Pass<ShardCells>
    requires caller { IsNewCaller board.now 6 caller.caller }
    requires callers { callers_of board.now ≡ 7 }
    ensures { IsPassOf board.now result }
{
    let mut caller = caller;
    serve_flushes(rt, board, &mut caller);
    caller.into_caller(rt)
}

// The workers and the flusher, who have served.
struct ServedAll {
    worker: Pass<ShardCells>,
    other_worker: Pass<ShardCells>,
    flusher: Pass<ShardCells>,
}

// The workers and the flusher, each on a thread.
fn serve_all<R: Threads + Wait + Sync>(
    rt: &R,
    board: &Board<ShardCells>,
    worker: OrderedCaller<Pass<ShardCells>>,
    other_worker: OrderedCaller<Pass<ShardCells>>,
    flusher: OrderedCaller<Pass<ShardCells>>,
) -> ServedAll
    requires worker { IsNewCaller board.now 4 worker.caller }
    requires other_worker { IsNewCaller board.now 5 other_worker.caller }
    requires flusher { IsNewCaller board.now 6 flusher.caller }
    requires callers { callers_of board.now ≡ 7 }
    ensures worker { IsPassOf board.now result.worker }
    ensures other_worker { IsPassOf board.now result.other_worker }
    ensures flusher { IsPassOf board.now result.flusher }
{
    let (worker, (other_worker, flusher)) = join(
        rt,
        || -> Pass<ShardCells>
            requires caller { IsNewCaller board.now 4 worker.caller }
            requires callers { callers_of board.now ≡ 7 }
            ensures { IsPassOf board.entry.now result }
        { serve_shard(rt, board, worker, 0) },
        || -> (Pass<ShardCells>, Pass<ShardCells>)
            requires other_worker { IsNewCaller board.now 5 other_worker.caller }
            requires flusher { IsNewCaller board.now 6 flusher.caller }
            requires callers { callers_of board.now ≡ 7 }
            ensures other_worker { IsPassOf board.entry.now result.0 }
            ensures flusher { IsPassOf board.entry.now result.1 }
        {
            join(
                rt,
                || -> Pass<ShardCells>
                    requires caller { IsNewCaller board.now 5 other_worker.caller }
                    requires callers { callers_of board.now ≡ 7 }
                    ensures { IsPassOf board.entry.now result }
                { serve_shard(rt, board, other_worker, 1) },
                || -> Pass<ShardCells>
                    requires caller { IsNewCaller board.now 6 flusher.caller }
                    requires callers { callers_of board.now ≡ 7 }
                    ensures { IsPassOf board.entry.now result }
                { flush(rt, board, flusher) },
            )
        },
    );
    ServedAll {
        worker,
        other_worker,
        flusher,
    }
}

// The sessions, who have taken their steps, and main.
struct PlayedAll {
    first: SessionEnd,
    second: SessionEnd,
    third: SessionEnd,
}

// The sessions, each on a thread, with steps that are drawn.
fn play_all<R: Threads + Wait + Sync>(
    rt: &R,
    board: &Board<ShardCells>,
    first: OrderedCaller<Pass<ShardCells>>,
    second: OrderedCaller<Pass<ShardCells>>,
    third: OrderedCaller<Pass<ShardCells>>,
    seed: u64,
    alloc: Global,
) -> PlayedAll
    requires first { IsNewCaller board.now 1 first.caller }
    requires second { IsNewCaller board.now 2 second.caller }
    requires third { IsNewCaller board.now 3 third.caller }
    requires callers { callers_of board.now ≡ 7 }
    ensures first { IsPassOf board.now result.first.pass }
    ensures second { IsPassOf board.now result.second.pass }
    ensures third { IsPassOf board.now result.third.pass }
{
    let seeds = seed.wrapping_mul(3);
    let (first, (second, third)) = join(
        rt,
        || -> SessionEnd
            requires caller { IsNewCaller board.now 1 first.caller }
            requires callers { callers_of board.now ≡ 7 }
            ensures { IsPassOf board.entry.now result.pass }
        { play_session(rt, board, first, 1, seeds, alloc) },
        || -> (SessionEnd, SessionEnd)
            requires second { IsNewCaller board.now 2 second.caller }
            requires third { IsNewCaller board.now 3 third.caller }
            requires callers { callers_of board.now ≡ 7 }
            ensures second { IsPassOf board.entry.now result.0.pass }
            ensures third { IsPassOf board.entry.now result.1.pass }
        {
            join(
                rt,
                || -> SessionEnd
                    requires caller { IsNewCaller board.now 2 second.caller }
                    requires callers { callers_of board.now ≡ 7 }
                    ensures { IsPassOf board.entry.now result.pass }
                { play_session(rt, board, second, 2, seeds.wrapping_add(1), alloc) },
                || -> SessionEnd
                    requires caller { IsNewCaller board.now 3 third.caller }
                    requires callers { callers_of board.now ≡ 7 }
                    ensures { IsPassOf board.entry.now result.pass }
                { play_session(rt, board, third, 3, seeds.wrapping_add(2), alloc) },
            )
        },
    );
    PlayedAll {
        first,
        second,
        third,
    }
}

// The places of an order for six.
#[derive(Drop)]
struct SixPlaces {
    first: OrderPlace,
    second: OrderPlace,
    third: OrderPlace,
    fourth: OrderPlace,
    fifth: OrderPlace,
    sixth: OrderPlace,
}

// The six places of the order of a seed. None: memory ran out.
fn six_places(alloc: Global, seed: u64) -> Option<SixPlaces> {
    let mut places = order_places(alloc, 6, seed).ok()?;
    let sixth = places.pop()?;
    let fifth = places.pop()?;
    let fourth = places.pop()?;
    let third = places.pop()?;
    let second = places.pop()?;
    let first = places.pop()?;
    Some(SixPlaces {
        first,
        second,
        third,
        fourth,
        fifth,
        sixth,
    })
}

// The sessions take their steps, and then main closes the mails.
fn play_and_close<R: Threads + Wait + Sync>(
    rt: &R,
    board: &Board<ShardCells>,
    main: Pass<ShardCells>,
    first: OrderedCaller<Pass<ShardCells>>,
    second: OrderedCaller<Pass<ShardCells>>,
    third: OrderedCaller<Pass<ShardCells>>,
    seed: u64,
    alloc: Global,
) -> (Pass<ShardCells>, PlayedAll)
    requires main { IsNewCaller board.now 0 main }
    requires first { IsNewCaller board.now 1 first.caller }
    requires second { IsNewCaller board.now 2 second.caller }
    requires third { IsNewCaller board.now 3 third.caller }
    requires callers { callers_of board.now ≡ 7 }
    ensures main { IsPassOf board.now result.0 }
    ensures first { IsPassOf board.now result.1.first.pass }
    ensures second { IsPassOf board.now result.1.second.pass }
    ensures third { IsPassOf board.now result.1.third.pass }
{
    let played = play_all(rt, board, first, second, third, seed, alloc);
    let mut main = main;
    close_mails(rt, board, &mut main);
    (main, played)
}

// What the sessions did, and all callers.
struct Interleaved {
    callers: CoreCallers,
    steps: SessionSteps,
}

// The steps of the three sessions, none where one of a session failed.
#[derive(Drop)]
struct SessionSteps {
    first: Option<Vec<TakenStep>>,
    second: Option<Vec<TakenStep>>,
    third: Option<Vec<TakenStep>>,
}

// All callers act, in the order of the places, the sessions by the steps of a seed.
fn interleave<R: Threads + Wait + Sync>(
    rt: &R,
    board: &Board<ShardCells>,
    callers: CoreCallers,
    places: SixPlaces,
    seed: u64,
    alloc: Global,
) -> Interleaved
    requires main { IsNewCaller board.now 0 callers.main }
    requires first { IsNewCaller board.now 1 callers.first }
    requires second { IsNewCaller board.now 2 callers.second }
    requires third { IsNewCaller board.now 3 callers.third }
    requires worker { IsNewCaller board.now 4 callers.worker }
    requires other_worker { IsNewCaller board.now 5 callers.other_worker }
    requires flusher { IsNewCaller board.now 6 callers.flusher }
    requires callers { callers_of board.now ≡ 7 }
    ensures main { IsPassOf board.now result.callers.main }
    ensures first { IsPassOf board.now result.callers.first }
    ensures second { IsPassOf board.now result.callers.second }
    ensures third { IsPassOf board.now result.callers.third }
    ensures worker { IsPassOf board.now result.callers.worker }
    ensures other_worker { IsPassOf board.now result.callers.other_worker }
    ensures flusher { IsPassOf board.now result.callers.flusher }
{
    let CoreCallers {
        main,
        first,
        second,
        third,
        worker,
        other_worker,
        flusher,
    } = callers;
    let SixPlaces {
        first: at_first,
        second: at_second,
        third: at_third,
        fourth: at_fourth,
        fifth: at_fifth,
        sixth: at_sixth,
    } = places;
    let first = OrderedCaller::new(at_first, first);
    let second = OrderedCaller::new(at_second, second);
    let third = OrderedCaller::new(at_third, third);
    let worker = OrderedCaller::new(at_fourth, worker);
    let other_worker = OrderedCaller::new(at_fifth, other_worker);
    let flusher = OrderedCaller::new(at_sixth, flusher);
    let (served, (main, played)) = join(
        rt,
        || -> ServedAll
            requires worker { IsNewCaller board.now 4 worker.caller }
            requires other_worker { IsNewCaller board.now 5 other_worker.caller }
            requires flusher { IsNewCaller board.now 6 flusher.caller }
            requires callers { callers_of board.now ≡ 7 }
            ensures worker { IsPassOf board.entry.now result.worker }
            ensures other_worker { IsPassOf board.entry.now result.other_worker }
            ensures flusher { IsPassOf board.entry.now result.flusher }
        { serve_all(rt, board, worker, other_worker, flusher) },
        || -> (Pass<ShardCells>, PlayedAll)
            requires main { IsNewCaller board.now 0 main }
            requires first { IsNewCaller board.now 1 first.caller }
            requires second { IsNewCaller board.now 2 second.caller }
            requires third { IsNewCaller board.now 3 third.caller }
            requires callers { callers_of board.now ≡ 7 }
            ensures main { IsPassOf board.entry.now result.0 }
            ensures first { IsPassOf board.entry.now result.1.first.pass }
            ensures second { IsPassOf board.entry.now result.1.second.pass }
            ensures third { IsPassOf board.entry.now result.1.third.pass }
        { play_and_close(rt, board, main, first, second, third, seed, alloc) },
    );
    let PlayedAll {
        first,
        second,
        third,
    } = played;
    let SessionEnd {
        steps: first_steps,
        pass: first,
    } = first;
    let SessionEnd {
        steps: second_steps,
        pass: second,
    } = second;
    let SessionEnd {
        steps: third_steps,
        pass: third,
    } = third;
    let ServedAll {
        worker,
        other_worker,
        flusher,
    } = served;
    Interleaved {
        callers: CoreCallers {
            main,
            first,
            second,
            third,
            worker,
            other_worker,
            flusher,
        },
        steps: SessionSteps {
            first: first_steps,
            second: second_steps,
            third: third_steps,
        },
    }
}

impl SessionSteps {
    // What the sessions did, None where a step failed or memory ran out.
    fn plain_run(&self, alloc: Global) -> Option<PlainRun> {
        let mut run = PlainRun::new(alloc);
        run.take(alloc, self.first.as_ref()?.as_slice()).ok()?;
        run.take(alloc, self.second.as_ref()?.as_slice()).ok()?;
        run.take(alloc, self.third.as_ref()?.as_slice()).ok()?;
        Some(run)
    }
}

/// What sessions did on a core of their own, with the steps of one seed and in the order of another. None: a step
/// failed, or memory ran out.
pub(crate) fn play<R: Threads + Wait + Sync>(
    rt: &R,
    alloc: Global,
    steps: u64,
    order: u64,
) -> Option<PlainRun> {
    let places = six_places(alloc, order)?;
    let CoreOnBoard { board, callers } = core_on_board(alloc, CUBE)?;
    let Interleaved { callers, steps } = interleave(rt, &board, callers, places, steps, alloc);
    end_core(rt, board, callers);
    steps.plain_run(alloc)
}
