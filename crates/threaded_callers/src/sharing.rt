//! A pass is shared out among tasks, and taken together again.
ghost use Rattle.std.specs.Prelude.{◌≡◌, ◌<◌, ℕ, length, take, drop, slice_index_or};
ghost use Rattle.board_callers.specs.Callers.{other_hands};
ghost use Rattle.threaded_callers.specs.Hands.{AreAmong, KeepsMain};
ghost use Rattle.threaded_callers.specs.Tasks.{HasHands, IsTaskOf, hands_in};
ghost use Rattle.turn_board.specs.Hands.{HasCallsOf, first_number};
ghost use Rattle.turn_board.specs.Passes.{hands_of, view_of, IsPassOf};

use crate::task::Task;
use turn_board::{Board, Cells, Pass};

// The first caller of a pass, and a pass of the others.
pub(crate) fn split_first<C: Cells>(board: &Board<C>, pass: Pass<C>) -> (Pass<C>, Pass<C>)
    requires pass { IsPassOf board.now pass }
    requires more { 1 < length (hands_of pass) }
    ensures passes { IsPassOf board.now result.0 × IsPassOf board.now result.1 }
    ensures first { hands_of result.0 ≡ take 1 (hands_of pass) }
    ensures others { hands_of result.1 ≡ drop 1 (hands_of pass) }
    ensures past { (view_of result.0).past ≡ (view_of pass).past }
{
    let mut first = pass;
    let spare = first.spare();
    let others = board.split(&mut first, spare);
    (first, others)
}

// Each task gets one of the pass's callers, from the first on. A pass of the others is left.
pub(crate) fn share_out<C: Cells, W>(
    board: &Board<C>,
    pass: Pass<C>,
    tasks: &mut [Task<C, W>],
) -> Pass<C>
    requires pass { IsPassOf board.now pass }
    requires more { length tasks.old < length (hands_of pass) }
    ensures pass { IsPassOf board.now result }
    ensures others { hands_of result ≡ drop (length tasks.old) (hands_of pass) }
    ensures works { (k : ℕ) (d : _) → k < length tasks.old
        → (slice_index_or tasks.new k d).work ≡ (slice_index_or tasks.old k d).work }
    ensures given { (k : ℕ) (d : _) → k < length tasks.old
        → HasHands board.now (take 1 (drop k (hands_of pass))) (slice_index_or tasks.new k d) }
{
    let mut rest = pass;
    for k in 0..tasks.len() {
        let (first, others) = split_first(board, rest);
        tasks[k].give(first);
        rest = others;
    }
    rest
}

// Main's pass takes in that of a task.
pub(crate) fn gather_task<C: Cells, W>(board: &Board<C>, pass: &mut Pass<C>, task: &mut Task<C, W>)
    requires pass { IsPassOf board.now pass.old }
    requires main { first_number (hands_of pass.old) ≡ 0 }
    requires task { IsTaskOf board.now task.old }
    ensures pass { IsPassOf board.now pass.new }
    ensures work { task.new.work ≡ task.old.work }
    ensures keeps { KeepsMain (view_of pass.old) (view_of pass.new) }
    ensures own { HasCallsOf (view_of pass.new).past (hands_of pass.new) }
    ensures gathered { AreAmong (hands_in task.old) (other_hands (hands_of pass.new)) }
{
    let other = task.take_pass(board);
    board.gather(pass, other);
}

// It takes in those of all tasks.
pub(crate) fn gather_all<C: Cells, W>(
    board: &Board<C>,
    pass: &mut Pass<C>,
    tasks: &mut [Task<C, W>],
)
    requires pass { IsPassOf board.now pass.old }
    requires main { first_number (hands_of pass.old) ≡ 0 }
    requires tasks { (k : ℕ) (d : _) → k < length tasks.old
        → IsTaskOf board.now (slice_index_or tasks.old k d) }
    ensures pass { IsPassOf board.now pass.new }
    ensures works { (k : ℕ) (d : _) → k < length tasks.old
        → (slice_index_or tasks.new k d).work ≡ (slice_index_or tasks.old k d).work }
    ensures keeps { KeepsMain (view_of pass.old) (view_of pass.new) }
    ensures gathered { (k : ℕ) (d : _) → k < length tasks.old
        → AreAmong (hands_in (slice_index_or tasks.old k d)) (other_hands (hands_of pass.new)) }
{
    for k in 0..tasks.len() {
        gather_task(board, pass, &mut tasks[k]);
    }
}
