//! Counters that several threads work on.
ghost use Rattle.std.specs.Prelude.{◌≡◌, ◌<◌, length, IfOk, IfSome};
ghost use Rattle.turn_board.specs.Passes.{callers_of, cells_of, hands_of, IsPassOf};

use crate::counter::{CounterCall, CounterCells};
use std::alloc::{AllocError, Global};
use std::sync::Wait;
use std::thread::{Threads, join};
use turn_board::{Board, NoMemory, Pass};

/// A board of counters at 0, and its first pass.
pub fn counters(
    alloc: Global,
    cells: u32,
    callers: u32,
) -> Result<(Board<CounterCells>, Pass<CounterCells>), AllocError>
    requires some_cell { 0 < cells }
    requires few_cells { cells < 65536 }
    requires some_caller { 0 < callers }
    requires few_callers { callers < 65536 }
    ensures pass { IfOk result (λ r. IsPassOf r.0 r.1) }
    ensures cells { IfOk result (λ r. cells_of r.0 ≡ cells) }
    ensures callers { IfOk result (λ r. callers_of r.0 ≡ callers) }
    ensures hands { IfOk result (λ r. length (hands_of r.1) ≡ callers) }
{
    let zeros = Vec::from_elem(alloc, 0u64, cells as usize)?;
    match Board::new(alloc, zeros, callers) {
        Ok(made) => Ok(made),
        Err(NoMemory { cells: _ }) => Err(AllocError),
    }
}

/// Adds 1 to a counter so many times.
pub fn count<R: Wait>(
    rt: &R,
    board: &Board<CounterCells>,
    pass: Pass<CounterCells>,
    cell: u32,
    times: u32,
) -> Pass<CounterCells>
    requires pass { IsPassOf board.now pass }
    requires cell { cell < cells_of board.now }
    ensures { IsPassOf board.now result }
{
    let mut pass = pass;
    for _ in 0..times {
        board.call(rt, &mut pass, cell, CounterCall::Add(1));
    }
    pass
}

/// Two threads add to two counters or to one, so many times each. The pass is split on the thread that calls.
pub fn count_in_two<R: Threads + Wait + Sync>(
    rt: &R,
    board: &Board<CounterCells>,
    pass: Pass<CounterCells>,
    cells: (u32, u32),
    times: u32,
) -> Pass<CounterCells>
    requires pass { IsPassOf board.now pass }
    requires two { 1 < length (hands_of pass) }
    requires first_cell { cells.0 < cells_of board.now }
    requires second_cell { cells.1 < cells_of board.now }
    ensures { IsPassOf board.now result }
{
    let (first_cell, second_cell) = cells;
    let mut first = pass;
    let second = board.split(&mut first, 1);
    let (mut one, two) = join(
        rt,
        || -> Pass<CounterCells>
            requires pass { IsPassOf board.now first }
            requires cell { first_cell < cells_of board.now }
            ensures { IsPassOf board.entry.now result }
        { count(rt, board, first, first_cell, times) },
        || -> Pass<CounterCells>
            requires pass { IsPassOf board.now second }
            requires cell { second_cell < cells_of board.now }
            ensures { IsPassOf board.entry.now result }
        { count(rt, board, second, second_cell, times) },
    );
    board.gather(&mut one, two);
    one
}

/// Three threads do so. The pass of two of them is split again on its thread.
pub fn count_in_three<R: Threads + Wait + Sync>(
    rt: &R,
    board: &Board<CounterCells>,
    pass: Pass<CounterCells>,
    cells: (u32, u32, u32),
    times: u32,
) -> Pass<CounterCells>
    requires pass { IsPassOf board.now pass }
    requires three { 2 < length (hands_of pass) }
    requires first_cell { cells.0 < cells_of board.now }
    requires second_cell { cells.1 < cells_of board.now }
    requires third_cell { cells.2 < cells_of board.now }
    ensures { IsPassOf board.now result }
{
    let (first_cell, second_cell, third_cell) = cells;
    let mut first = pass;
    let others = board.split(&mut first, 2);
    let (mut one, two) = join(
        rt,
        || -> Pass<CounterCells>
            requires pass { IsPassOf board.now first }
            requires cell { first_cell < cells_of board.now }
            ensures { IsPassOf board.entry.now result }
        { count(rt, board, first, first_cell, times) },
        || -> Pass<CounterCells>
            requires pass { IsPassOf board.now others }
            requires two { 1 < length (hands_of others) }
            requires second_cell { second_cell < cells_of board.now }
            requires third_cell { third_cell < cells_of board.now }
            ensures { IsPassOf board.entry.now result }
        { count_in_two(rt, board, others, (second_cell, third_cell), times) },
    );
    board.gather(&mut one, two);
    one
}

/// Four threads do so.
pub fn count_in_four<R: Threads + Wait + Sync>(
    rt: &R,
    board: &Board<CounterCells>,
    pass: Pass<CounterCells>,
    cells: (u32, u32, u32, u32),
    times: u32,
) -> Pass<CounterCells>
    requires pass { IsPassOf board.now pass }
    requires four { 3 < length (hands_of pass) }
    requires first_cell { cells.0 < cells_of board.now }
    requires second_cell { cells.1 < cells_of board.now }
    requires third_cell { cells.2 < cells_of board.now }
    requires fourth_cell { cells.3 < cells_of board.now }
    ensures { IsPassOf board.now result }
{
    let (first_cell, second_cell, third_cell, fourth_cell) = cells;
    let mut firsts = pass;
    let others = board.split(&mut firsts, 2);
    let (mut one, two) = join(
        rt,
        || -> Pass<CounterCells>
            requires pass { IsPassOf board.now firsts }
            requires two { 1 < length (hands_of firsts) }
            requires first_cell { first_cell < cells_of board.now }
            requires second_cell { second_cell < cells_of board.now }
            ensures { IsPassOf board.entry.now result }
        { count_in_two(rt, board, firsts, (first_cell, second_cell), times) },
        || -> Pass<CounterCells>
            requires pass { IsPassOf board.now others }
            requires two { 1 < length (hands_of others) }
            requires third_cell { third_cell < cells_of board.now }
            requires fourth_cell { fourth_cell < cells_of board.now }
            ensures { IsPassOf board.entry.now result }
        { count_in_two(rt, board, others, (third_cell, fourth_cell), times) },
    );
    board.gather(&mut one, two);
    one
}

/// The counters of a new board to which three threads have added, or two where the third cell is none of it. There are
/// no counters where the first cell or the second is none, or a board takes fewer cells.
pub fn counted<R: Threads + Wait + Sync>(
    rt: &R,
    alloc: Global,
    cells: u32,
    targets: (u32, u32, u32),
    times: u32,
) -> Result<Option<Vec<u64>>, AllocError>
    ensures { IfOk result (λ o. IfSome o (λ v. length v.items ≡ cells)) }
{
    let (first, second, third) = targets;
    if 65_535 < cells || cells <= first || cells <= second {
        return Ok(None);
    }
    let (board, pass) = counters(alloc, cells, 3)?;
    let all = if third < cells {
        count_in_three(rt, &board, pass, (first, second, third), times)
    } else {
        count_in_two(rt, &board, pass, (first, second), times)
    };
    Ok(Some(board.shut(rt, all)))
}
