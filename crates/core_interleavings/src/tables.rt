//! The threads of a case: a worker for each shard, and the steps of the sessions.
ghost use Rattle.std.specs.Prelude.{◌≡◌, ◌+◌, ◌<◌, ◌≤◌};
ghost use Rattle.small_core.specs.Openings.{IsNewCaller};
ghost use Rattle.core_interleavings.specs.Seats.{IsSeatOf};
ghost use Rattle.turn_board.specs.Passes.{IsPassOf, callers_of};

use crate::lines::{Asked, CaseLine, insert_text, line_in, number_text, step_text};
use core_steps::Seat;
use linked_shards::ShardCells;
use small_core::{CoreCallers, CoreOnBoard, close_mails, core_on_board, end_core, serve};
use std::alloc::Global;
use std::sync::Wait;
use std::thread::{Threads, join};
use turn_board::{Board, Pass};

// What the core says to what a session asks.
fn ask<R: Wait>(
    rt: &R,
    board: &Board<ShardCells>,
    seat: &mut Seat<Pass<ShardCells>>,
    asked: Asked,
    alloc: Global,
) -> Option<String>
    requires seat { IsSeatOf board.now seat.old }
    requires callers { callers_of board.now ≡ 7 }
    ensures { IsSeatOf board.now seat.new }
{
    match asked {
        Asked::Step(step) => {
            let answer = seat.take_step(rt, board, "c", step, alloc)?;
            step_text(alloc, &answer).ok()
        }
        Asked::Insert(name) => {
            let added = seat.insert_name(rt, board, "c", name, alloc)?;
            insert_text(alloc, added).ok()
        }
        Asked::Find(name) => {
            let number = seat.find_name(rt, board, "c", name, alloc)?;
            number_text(alloc, number).ok()
        }
    }
}

// The seats of the three sessions.
struct Seats {
    first: Seat<Pass<ShardCells>>,
    second: Seat<Pass<ShardCells>>,
    third: Seat<Pass<ShardCells>>,
}

// Whether the core says to a line what it has.
fn line_holds<R: Wait>(
    rt: &R,
    board: &Board<ShardCells>,
    seats: &mut Seats,
    line: CaseLine,
    alloc: Global,
) -> bool
    requires first { IsSeatOf board.now seats.old.first }
    requires second { IsSeatOf board.now seats.old.second }
    requires third { IsSeatOf board.now seats.old.third }
    requires callers { callers_of board.now ≡ 7 }
    ensures first { IsSeatOf board.now seats.new.first }
    ensures second { IsSeatOf board.now seats.new.second }
    ensures third { IsSeatOf board.now seats.new.third }
{
    match line.session {
        "1" => is_said(
            ask(rt, board, &mut seats.first, line.asked, alloc),
            line.said,
        ),
        "2" => is_said(
            ask(rt, board, &mut seats.second, line.asked, alloc),
            line.said,
        ),
        _ => is_said(
            ask(rt, board, &mut seats.third, line.asked, alloc),
            line.said,
        ),
    }
}

// Whether this is what is wanted.
fn is_said(said: Option<String>, wanted: &str) -> bool {
    match said {
        Some(said) => said.as_str() == wanted,
        None => false,
    }
}

// Whether the core says to each line of a table what it has.
fn table_holds<R: Wait>(
    rt: &R,
    board: &Board<ShardCells>,
    seats: &mut Seats,
    case: Case,
    alloc: Global,
) -> bool
    requires first { IsSeatOf board.now seats.old.first }
    requires second { IsSeatOf board.now seats.old.second }
    requires third { IsSeatOf board.now seats.old.third }
    requires callers { callers_of board.now ≡ 7 }
    ensures first { IsSeatOf board.now seats.new.first }
    ensures second { IsSeatOf board.now seats.new.second }
    ensures third { IsSeatOf board.now seats.new.third }
{
    'lines: for line in case.table.lines() {
        let Some(line) = line_in(line, case.last) else {
            return false;
        };
        if !line_holds(rt, board, seats, line, alloc) {
            return false;
        }
    }
    true
}

// The worker of a shard.
fn serve_shard<R: Wait>(
    rt: &R,
    board: &Board<ShardCells>,
    pass: Pass<ShardCells>,
    number: u32,
) -> Pass<ShardCells>
    requires caller { IsNewCaller board.now (4 + number) pass }
    requires callers { callers_of board.now ≡ 7 }
    requires there { number < 2 }
    ensures { IsPassOf board.now result }
{
    let mut pass = pass;
    serve(rt, board, &mut pass, number);
    pass
}

// The seat of a session that has made no call.
fn seat_of(
    _board: &Board<ShardCells>,
    pass: Pass<ShardCells>,
    number: u32,
) -> Seat<Pass<ShardCells>>
    requires some { 1 ≤ number }
    requires below { number ≤ 3 }
    requires caller { IsNewCaller _board.now number pass }
    ensures { IsSeatOf _board.now result }
{
    Seat::new(pass, number)
}

// Main and the sessions, and whether the table holds.
struct Acted {
    holds: bool,
    main: Pass<ShardCells>,
    first: Pass<ShardCells>,
    second: Pass<ShardCells>,
    third: Pass<ShardCells>,
}

// The sessions take the steps of a table, and then main closes.
fn act<R: Wait>(
    rt: &R,
    board: &Board<ShardCells>,
    main: Pass<ShardCells>,
    first: Pass<ShardCells>,
    second: Pass<ShardCells>,
    third: Pass<ShardCells>,
    case: Case,
    alloc: Global,
) -> Acted
    requires main { IsNewCaller board.now 0 main }
    requires first { IsNewCaller board.now 1 first }
    requires second { IsNewCaller board.now 2 second }
    requires third { IsNewCaller board.now 3 third }
    requires callers { callers_of board.now ≡ 7 }
    ensures main { IsPassOf board.now result.main }
    ensures first { IsPassOf board.now result.first }
    ensures second { IsPassOf board.now result.second }
    ensures third { IsPassOf board.now result.third }
{
    let mut seats = Seats {
        first: seat_of(board, first, 1),
        second: seat_of(board, second, 2),
        third: seat_of(board, third, 3),
    };
    let holds = table_holds(rt, board, &mut seats, case, alloc);
    let mut main = main;
    close_mails(rt, board, &mut main);
    let Seats {
        first,
        second,
        third,
    } = seats;
    Acted {
        holds,
        main,
        first: first.into_caller(),
        second: second.into_caller(),
        third: third.into_caller(),
    }
}

// Plays a table with a thread for each worker and one for the sessions.
fn play_on<R: Threads + Wait + Sync>(
    rt: &R,
    board: &Board<ShardCells>,
    callers: CoreCallers,
    case: Case,
    alloc: Global,
) -> (bool, CoreCallers)
    requires main { IsNewCaller board.now 0 callers.main }
    requires first { IsNewCaller board.now 1 callers.first }
    requires second { IsNewCaller board.now 2 callers.second }
    requires third { IsNewCaller board.now 3 callers.third }
    requires worker { IsNewCaller board.now 4 callers.worker }
    requires other_worker { IsNewCaller board.now 5 callers.other_worker }
    requires flusher { IsNewCaller board.now 6 callers.flusher }
    requires callers { callers_of board.now ≡ 7 }
    ensures main { IsPassOf board.now result.1.main }
    ensures first { IsPassOf board.now result.1.first }
    ensures second { IsPassOf board.now result.1.second }
    ensures third { IsPassOf board.now result.1.third }
    ensures worker { IsPassOf board.now result.1.worker }
    ensures other_worker { IsPassOf board.now result.1.other_worker }
    ensures flusher { IsPassOf board.now result.1.flusher }
{
    let CoreCallers {
        main,
        first,
        second,
        third,
        worker,
        other_worker,
        flusher,
    } = callers;
    let (worker, (other_worker, acted)) = join(
        rt,
        || -> Pass<ShardCells>
            requires caller { IsNewCaller board.now 4 worker }
            requires callers { callers_of board.now ≡ 7 }
            ensures { IsPassOf board.entry.now result }
        { serve_shard(rt, board, worker, 0) },
        || -> (Pass<ShardCells>, Acted)
            requires caller { IsNewCaller board.now 5 other_worker }
            requires main { IsNewCaller board.now 0 main }
            requires first { IsNewCaller board.now 1 first }
            requires second { IsNewCaller board.now 2 second }
            requires third { IsNewCaller board.now 3 third }
            requires callers { callers_of board.now ≡ 7 }
            ensures worker { IsPassOf board.entry.now result.0 }
            ensures main { IsPassOf board.entry.now result.1.main }
            ensures first { IsPassOf board.entry.now result.1.first }
            ensures second { IsPassOf board.entry.now result.1.second }
            ensures third { IsPassOf board.entry.now result.1.third }
        {
            join(
                rt,
                || -> Pass<ShardCells>
                    requires caller { IsNewCaller board.now 5 other_worker }
                    requires callers { callers_of board.now ≡ 7 }
                    ensures { IsPassOf board.entry.now result }
                { serve_shard(rt, board, other_worker, 1) },
                || -> Acted
                    requires main { IsNewCaller board.now 0 main }
                    requires first { IsNewCaller board.now 1 first }
                    requires second { IsNewCaller board.now 2 second }
                    requires third { IsNewCaller board.now 3 third }
                    requires callers { callers_of board.now ≡ 7 }
                    ensures main { IsPassOf board.entry.now result.main }
                    ensures first { IsPassOf board.entry.now result.first }
                    ensures second { IsPassOf board.entry.now result.second }
                    ensures third { IsPassOf board.entry.now result.third }
                { act(rt, board, main, first, second, third, case, alloc) },
            )
        },
    );
    let Acted {
        holds,
        main,
        first,
        second,
        third,
    } = acted;
    let callers = CoreCallers {
        main,
        first,
        second,
        third,
        worker,
        other_worker,
        flusher,
    };
    (holds, callers)
}

/// A case: the text of its cube, the last coordinate of that, and the table.
#[derive(Clone, Copy)]
pub(crate) struct Case {
    pub(crate) cube: &'static str,
    pub(crate) last: u32,
    pub(crate) table: &'static str,
}

/// Whether the core says to each line of a case what it has.
pub(crate) fn plays<R: Threads + Wait + Sync>(rt: &R, alloc: Global, case: Case) -> bool {
    let Some(CoreOnBoard { board, callers }) = core_on_board(alloc, case.cube) else {
        return false;
    };
    let (holds, callers) = play_on(rt, &board, callers, case, alloc);
    end_core(rt, board, callers);
    holds
}
