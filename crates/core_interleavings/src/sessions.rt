//! A session takes steps that it draws.
ghost use Rattle.std.specs.Prelude.{◌≡◌, ◌≤◌};
ghost use Rattle.small_core.specs.Openings.{IsNewCaller};
ghost use Rattle.core_steps.specs.Seats.{IsSeated};
ghost use Rattle.turn_board.specs.Passes.{IsPassOf, callers_of};

use crate::draws::Draws;
use board_callers::CellCaller;
use core_steps::{Seat, Step, StepAnswer};
use linked_shards::ShardCells;
use ordered_callers::OrderedCaller;
use std::alloc::Global;
use std::sync::Wait;
use turn_board::{Board, Pass};

/// How many steps a session draws.
const STEPS: u32 = 14;

/// A step that was taken, and what became of it.
#[derive(Drop)]
pub(crate) struct TakenStep {
    pub(crate) step: Step,
    pub(crate) answer: StepAnswer,
}

/// The steps that a session took, none where one of them failed, and its caller.
pub(crate) struct SessionEnd {
    pub(crate) steps: Option<Vec<TakenStep>>,
    pub(crate) pass: Pass<ShardCells>,
}

// Whether the session is within a transaction after a step.
fn is_within(before: bool, answer: &StepAnswer) -> bool {
    match answer {
        StepAnswer::Begun(_) => true,
        StepAnswer::Committed { epoch: _ } | StepAnswer::RolledBack { epoch: _ } => false,
        _ => before,
    }
}

// Takes so many steps, and ends its transaction.
fn take_steps<R: Wait, P: CellCaller<ShardCells>>(
    rt: &R,
    board: &Board<ShardCells>,
    seat: &mut Seat<P>,
    seed: u64,
    alloc: Global,
) -> Option<Vec<TakenStep>>
    requires board { P.calls_on board.now seat.old.traced.caller }
    requires callers { 7 ≤ callers_of board.now }
    requires sits { IsSeated seat.old (P.opening seat.old.traced.caller)
        (P.number seat.old.traced.caller) (P.own seat.old.traced.caller) }
    ensures { P.calls_on board.now seat.new.traced.caller }
{
    let mut draws = Draws::new(seed);
    let mut within = false;
    let mut steps = Vec::new(alloc);
    'steps: for _ in 0..STEPS {
        let step = draws.step(within);
        let answer = seat.take_step(rt, board, "c", step, alloc)?;
        within = is_within(within, &answer);
        steps.push(TakenStep { step, answer }).ok()?;
    }
    let step = Step::Commit;
    let answer = seat.take_step(rt, board, "c", step, alloc)?;
    steps.push(TakenStep { step, answer }).ok()?;
    Some(steps)
}

/// A session draws its steps, takes them at its place in an order, and leaves that.
pub(crate) fn play_session<R: Wait>(
    rt: &R,
    board: &Board<ShardCells>,
    caller: OrderedCaller<Pass<ShardCells>>,
    number: u32,
    seed: u64,
    alloc: Global,
) -> SessionEnd
    requires some { 1 ≤ number }
    requires below { number ≤ 3 }
    requires caller { IsNewCaller board.now number caller.caller }
    requires callers { callers_of board.now ≡ 7 }
    ensures { IsPassOf board.now result.pass }
{
    let mut seat = Seat::new(caller, number);
    let steps = take_steps(rt, board, &mut seat, seed, alloc);
    SessionEnd {
        steps,
        pass: seat.into_caller().into_caller(rt),
    }
}
