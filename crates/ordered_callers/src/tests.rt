//! Orders of the calls of three callers, each on a thread of its own.
ghost use Rattle.std.specs.Prelude.{◌≡◌, ◌<◌, length, IfOk};
ghost use Rattle.turn_board.specs.Passes.{cells_of, hands_of, IsPassOf};

use crate::{OrderPlace, OrderedCaller, order_places};
use board_callers::CellCaller;
use std::alloc::{AllocError, Global};
use std::sync::Wait;
use std::thread::{Threads, join};
use turn_board::{Board, Cells, NoMemory, Pass};

// Cells that log who called, as a digit for each call.
struct CallLogs;

impl Cells for CallLogs {
    type Cell = Vec<u8>;

    type Call = u8;

    type Answer = bool;

    ghost step = { λ _ _ _ _. Unit {0} };

    ghost can = { λ _ _. Unit {0} };

    ghost fits = { λ _ _ _ _ _. Unit {0} };

    // The answer is whether there was memory.
    fn apply(cell: &mut Vec<u8>, call: u8) -> bool {
        cell.push(call).is_ok()
    }

    ghost safe = { λ opening log by k call x y run at leads fit. tt };
}

// A board with one log, for three callers.
fn logging(alloc: Global) -> Result<(Board<CallLogs>, Pass<CallLogs>), AllocError>
    ensures pass { IfOk result (λ r. IsPassOf r.0 r.1) }
    ensures cells { IfOk result (λ r. cells_of r.0 ≡ 1) }
    ensures hands { IfOk result (λ r. length (hands_of r.1) ≡ 3) }
{
    let mut logs = Vec::with_capacity(alloc, 1)?;
    logs.push_reserved(Vec::new(alloc));
    match Board::new(alloc, logs, 3) {
        Ok(made) => Ok(made),
        Err(NoMemory { cells: _ }) => Err(AllocError),
    }
}

// Makes so many calls, and rests after each fourth.
fn call_often<R: Wait, P: CellCaller<CallLogs>>(
    rt: &R,
    board: &Board<CallLogs>,
    caller: &mut P,
    digit: u8,
    calls: u32,
)
    requires board { P.calls_on board.now caller.old }
    requires there { 0 < length (P.opening caller.old) }
    ensures board { P.calls_on board.now caller.new }
{
    for k in 0..calls {
        caller.call(rt, board, 0, digit);
        if k % 4 == 3 {
            caller.rest(rt, board);
        }
    }
}

// Makes so many calls and leaves: one caller by itself, the others as they give their pass back.
fn call_and_leave<R: Wait>(
    rt: &R,
    board: &Board<CallLogs>,
    caller: OrderedCaller<Pass<CallLogs>>,
    digit: u8,
    calls: u32,
) -> Pass<CallLogs>
    requires pass { IsPassOf board.now caller.caller }
    requires cell { 0 < cells_of board.now }
    ensures { IsPassOf board.now result }
{
    let mut caller = caller;
    call_often(rt, board, &mut caller, digit, calls);
    if digit == b'1' {
        caller.leave(rt);
    }
    caller.into_caller(rt)
}

// Three callers make so many calls each.
fn call_in_three<R: Threads + Wait + Sync>(
    rt: &R,
    board: &Board<CallLogs>,
    pass: Pass<CallLogs>,
    places: (OrderPlace, OrderPlace, OrderPlace),
    calls: (u32, u32, u32),
) -> Pass<CallLogs>
    requires pass { IsPassOf board.now pass }
    requires cell { 0 < cells_of board.now }
    requires three { 2 < length (hands_of pass) }
    ensures { IsPassOf board.now result }
{
    let mut first = pass;
    let third = board.split(&mut first, 1);
    let second = board.split(&mut first, 1);
    let (first_place, second_place, third_place) = places;
    let (first_calls, second_calls, third_calls) = calls;
    let first = OrderedCaller::new(first_place, first);
    let second = OrderedCaller::new(second_place, second);
    let third = OrderedCaller::new(third_place, third);
    let (mut all, (two, three)) = join(
        rt,
        || -> Pass<CallLogs>
            requires pass { IsPassOf board.now first.caller }
            requires cell { 0 < cells_of board.now }
            ensures { IsPassOf board.entry.now result }
        { call_and_leave(rt, board, first, b'0', first_calls) },
        || -> (Pass<CallLogs>, Pass<CallLogs>)
            requires second { IsPassOf board.now second.caller }
            requires third { IsPassOf board.now third.caller }
            requires cell { 0 < cells_of board.now }
            ensures { IsPassOf board.entry.now result.0 × IsPassOf board.entry.now result.1 }
        {
            join(
                rt,
                || -> Pass<CallLogs>
                    requires pass { IsPassOf board.now second.caller }
                    requires cell { 0 < cells_of board.now }
                    ensures { IsPassOf board.entry.now result }
                { call_and_leave(rt, board, second, b'1', second_calls) },
                || -> Pass<CallLogs>
                    requires pass { IsPassOf board.now third.caller }
                    requires cell { 0 < cells_of board.now }
                    ensures { IsPassOf board.entry.now result }
                { call_and_leave(rt, board, third, b'2', third_calls) },
            )
        },
    );
    board.gather(&mut all, two);
    board.gather(&mut all, three);
    all
}

// The log of three callers that make so many calls each. There is none where memory ran out.
fn call_log<R: Threads + Wait + Sync>(
    rt: &R,
    alloc: Global,
    seed: u64,
    calls: (u32, u32, u32),
) -> Option<Vec<u8>> {
    let mut places = order_places(alloc, 3, seed).ok()?;
    let third = places.pop()?;
    let second = places.pop()?;
    let first = places.pop()?;
    let (board, pass) = logging(alloc).ok()?;
    let all = call_in_three(rt, &board, pass, (first, second, third), calls);
    board.shut(rt, all).pop()
}

// Whether two runs of the seed have this order.
fn has_order<R: Threads + Wait + Sync>(
    rt: &R,
    alloc: Global,
    seed: u64,
    calls: (u32, u32, u32),
    order: &str,
) -> bool {
    let Some(once) = call_log(rt, alloc, seed, calls) else {
        return false;
    };
    let Some(again) = call_log(rt, alloc, seed, calls) else {
        return false;
    };
    once.as_slice() == order.as_bytes() && again.as_slice() == order.as_bytes()
}

// The orders come from a model in Python of the numbers and of the baton, which has nothing of this crate.
#[test]
fn orders(rt: HostRuntime) {
    for (seed, calls, order) in [
        (
            1,
            (30, 30, 30),
            "121200202011121010222010121222011000211120012210001000112220021101210022110011021102022222",
        ),
        (
            2,
            (30, 30, 30),
            "000010012201120101021120120211102102211000022010200202121012201212101100211022021111222222",
        ),
        (
            20_261_127,
            (12, 12, 12),
            "111100101120101210121020000202222222",
        ),
        (5, (30, 0, 7), "0222022220000000000000000000000000000"),
        (6, (0, 0, 3), "222"),
    ] {
        assert!(rt;
            has_order(&rt, rt.alloc(), seed, calls, order),
            "the order of {seed}"
        );
    }
}

#[test]
fn two_hundred_seeds_end(rt: HostRuntime) {
    for seed in 0..200 {
        let log = call_log(&rt, rt.alloc(), seed, (30, 30, 30));
        assert!(rt; log.map_or(0, |log| log.len()) == 90, "the calls of {seed}");
    }
}
