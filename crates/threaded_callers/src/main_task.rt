//! What main does with its own pass.
ghost use Rattle.std.specs.Prelude.{◌≡◌, ◌<◌, ℕ, List, [], length, slice_index_or};
ghost use mathlib.Core.List.{IsPrefix};
ghost use Rattle.board_callers.specs.Callers.{first_calls, other_hands};
ghost use Rattle.threaded_callers.specs.Hands.{AreAmong, KeepsMain};
ghost use Rattle.threaded_callers.specs.Tasks.{HasStopped, IsMain, IsTaskOf, hands_in, others_in, view_in};
ghost use Rattle.turn_board.specs.Hands.{HasCallsOf, first_number};
ghost use Rattle.turn_board.specs.Passes.{IsPassOf, callers_of, hands_of, opening_of, view_of};

use crate::later::{LaterPass, Moment};
use crate::sharing::{gather_all, gather_task};
use crate::task::Task;
use crate::work::MainWork;
use std::marker::Brand;
use std::sync::Wait;
use turn_board::{Board, Cells, Pass};

// Main stops the flusher.
pub(crate) fn stop_flusher<C: Cells, R: Wait, M: MainWork<C>>(
    rt: &R,
    board: &Board<C>,
    main: &mut Task<C, M>,
)
    requires main { IsMain board.now [] main.old }
    requires may { M.may_begin main.old.work (callers_of board.now) (opening_of board.now) }
    ensures stopped { HasStopped M.has_stopped board.now main.old main.new }
    ensures others { others_in main.new ≡ others_in main.old }
    ensures past { IsPrefix (view_in main.old).past (view_in main.new).past }
{
    let pass = main.take_pass(board);
    let pass = stop_flusher_from::<C, R, M, Brand>(rt, board, &mut main.work, pass);
    main.give(pass);
}

fn stop_flusher_from<C: Cells, R: Wait, M: MainWork<C>, E: Moment<C::Call, C::Answer>>(
    rt: &R,
    board: &Board<C>,
    work: &mut M,
    pass: Pass<C>,
) -> Pass<C>
    requires moment { E.past ≡ (view_of pass).past }
    requires pass { IsPassOf board.now pass }
    requires number { first_number (hands_of pass) ≡ 0 }
    requires fresh { first_calls (hands_of pass) ≡ [] }
    requires may { M.may_begin work.old (callers_of board.now) (opening_of board.now) }
    ensures past { IsPrefix E.past (view_of result).past }
    ensures pass { IsPassOf board.now result }
    ensures number { first_number (hands_of result) ≡ 0 }
    ensures others { other_hands (hands_of result) ≡ other_hands (hands_of pass) }
    ensures stopped { M.has_stopped work.old work.new (callers_of board.now) (opening_of board.now)
        (first_calls (hands_of result)) }
{
    let mut later = LaterPass::<C, E>::of(pass);
    work.stop_flusher(rt, board, &mut later);
    later.into_pass()
}

// Main ends its work, and stops the workers.
pub(crate) fn stop_workers<C: Cells, R: Wait, M: MainWork<C>>(
    rt: &R,
    board: &Board<C>,
    main: &mut Task<C, M>,
    began: bool,
)
    requires main { IsTaskOf board.now main.old }
    requires number { first_number (hands_in main.old) ≡ 0 }
    requires stopped { (first : M) × M.has_stopped first main.old.work (callers_of board.now)
        (opening_of board.now) (first_calls (hands_in main.old)) }
    ensures main { IsTaskOf board.now main.new }
    ensures number { first_number (hands_in main.new) ≡ 0 }
    ensures ended { M.has_ended main.old.work main.new.work (opening_of board.now) began
        (first_calls (hands_in main.old)) (first_calls (hands_in main.new)) }
    ensures others { others_in main.new ≡ others_in main.old }
    ensures past { IsPrefix (view_in main.old).past (view_in main.new).past }
{
    let pass = main.take_pass(board);
    let pass = stop_workers_from::<C, R, M, Brand>(rt, board, &mut main.work, pass, began);
    main.give(pass);
}

fn stop_workers_from<C: Cells, R: Wait, M: MainWork<C>, E: Moment<C::Call, C::Answer>>(
    rt: &R,
    board: &Board<C>,
    work: &mut M,
    pass: Pass<C>,
    began: bool,
) -> Pass<C>
    requires moment { E.past ≡ (view_of pass).past }
    requires pass { IsPassOf board.now pass }
    requires number { first_number (hands_of pass) ≡ 0 }
    requires stopped { (first : M) × M.has_stopped first work.old (callers_of board.now)
        (opening_of board.now) (first_calls (hands_of pass)) }
    ensures past { IsPrefix E.past (view_of result).past }
    ensures pass { IsPassOf board.now result }
    ensures number { first_number (hands_of result) ≡ 0 }
    ensures others { other_hands (hands_of result) ≡ other_hands (hands_of pass) }
    ensures ended { M.has_ended work.old work.new (opening_of board.now) began
        (first_calls (hands_of pass)) (first_calls (hands_of result)) }
{
    let mut later = LaterPass::<C, E>::of(pass);
    work.stop_workers(rt, board, &mut later, began);
    later.into_pass()
}

// Main's pass takes in those of all tasks.
pub(crate) fn gather_into<C: Cells, M, W>(
    board: &Board<C>,
    main: &mut Task<C, M>,
    tasks: &mut [Task<C, W>],
)
    requires main { IsTaskOf board.now main.old }
    requires number { first_number (hands_in main.old) ≡ 0 }
    requires tasks { (k : ℕ) (d : _) → k < length tasks.old
        → IsTaskOf board.now (slice_index_or tasks.old k d) }
    ensures main { IsTaskOf board.now main.new }
    ensures work { main.new.work ≡ main.old.work }
    ensures works { (k : ℕ) (d : _) → k < length tasks.old
        → (slice_index_or tasks.new k d).work ≡ (slice_index_or tasks.old k d).work }
    ensures keeps { KeepsMain (view_in main.old) (view_in main.new) }
    ensures gathered { (k : ℕ) (d : _) → k < length tasks.old
        → AreAmong (hands_in (slice_index_or tasks.old k d)) (others_in main.new) }
{
    let mut pass = main.take_pass(board);
    gather_all(board, &mut pass, tasks);
    main.give(pass);
}

// It takes in that of one task.
pub(crate) fn gather_one_into<C: Cells, M, W>(
    board: &Board<C>,
    main: &mut Task<C, M>,
    task: &mut Task<C, W>,
)
    requires main { IsTaskOf board.now main.old }
    requires number { first_number (hands_in main.old) ≡ 0 }
    requires task { IsTaskOf board.now task.old }
    ensures main { IsTaskOf board.now main.new }
    ensures work { main.new.work ≡ main.old.work }
    ensures task { task.new.work ≡ task.old.work }
    ensures keeps { KeepsMain (view_in main.old) (view_in main.new) }
    ensures own { HasCallsOf (view_in main.new).past (hands_in main.new) }
    ensures gathered { AreAmong (hands_in task.old) (others_in main.new) }
{
    let mut pass = main.take_pass(board);
    gather_task(board, &mut pass, task);
    main.give(pass);
}
