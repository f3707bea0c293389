//! Callers that do what others have left to do, while they wait.
ghost use Rattle.std.specs.Prelude.{◌≡◌, ℕ, ◌+◌, ◌≤◌, Some, IfSome, length};
ghost use Rattle.board_callers.specs.Callers.{first_calls, other_hands};
ghost use Rattle.threaded_callers.specs.Tasks.{IsReady, IsWorked};
ghost use Rattle.turn_board.specs.Hands.{first_number};
ghost use Rattle.turn_board.specs.Passes.{IsPassOf, callers_of, hands_of, view_of};

use crate::station::{Roster, Slot, step_slot};
use crate::task::Task;
use crate::work::{CallerWork, StepWork};
use board_callers::CellCaller;
use std::sync::Wait;
use turn_board::{Board, Cells, Pass};

/// The works that are lent out, each in a slot by its place, and the number of the caller that does the first. Where
/// there is no slot, none is lent.
#[derive(Drop)]
pub(crate) struct Help<
    'b,
    'h,
    C: Cells,
    K: StepWork<C>,
    L: Roster<C, C::Cell, C::Call, C::Answer, K>,
> {
    pub(crate) board: &'b Board<C>,
    pub(crate) slots: &'h [Slot<C, K, L>],
    pub(crate) first: u32,
    ghost of: { L.board ≡ Some board.now },
    ghost numbers: { first + length slots.now ≤ callers_of board.now },
}

impl<'b, 'h, C: Cells, K: StepWork<C> + Drop, L: Roster<C, C::Cell, C::Call, C::Answer, K>> Help<
    'b,
    'h,
    C,
    K,
    L,
> {
    /// The number of the caller that does the work of a place.
    pub(crate) fn number_of(&self, place: usize) -> Option<u32>
        ensures { IfSome result (λ number. number ≡ self.now.first + place) }
    {
        let place = u32::try_from(place).ok()?;
        self.first.checked_add(place)
    }

    // Does what a call on a cell left to do. Where somebody else is at the work it is rung for.
    fn serve<R: Wait>(&self, rt: &R, cell: u32) {
        let place = K::server_of(cell, self.slots.len());
        let Some(slot) = self.slots.get(place) else {
            return;
        };
        if step_slot(rt, self.board, slot) {
            return;
        }
        if let Some(number) = self.number_of(place) {
            self.board.ring(number);
        }
    }
}

// A pass whose rest does what its last call left to do.
#[derive(Drop)]
struct HelpingPass<'b, 'h, C: Cells, K: StepWork<C>, L: Roster<C, C::Cell, C::Call, C::Answer, K>> {
    pass: Pass<C>,
    help: &'h Help<'b, 'h, C, K, L>,
    last: u32,
}

impl<
    'b,
    'h,
    C: Cells,
    K: StepWork<C> + Drop,
    L: Roster<C, C::Cell, C::Call, C::Answer, K>,
> CellCaller<C> for HelpingPass<'b, 'h, C, K, L> {
    ghost calls_on = { λ board p. IsPassOf board p.pass };

    ghost opening = { λ p. (view_of p.pass).opening };

    ghost number = { λ p. first_number (hands_of p.pass) };

    ghost own = { λ p. first_calls (hands_of p.pass) };

    ghost others = { λ p. other_hands (hands_of p.pass) };

    #[inline(always)]
    fn call<R: Wait>(&mut self, rt: &R, board: &Board<C>, cell: u32, call: C::Call) -> C::Answer {
        self.last = cell;
        board.call(rt, &mut self.pass, cell, call)
    }

    fn rest<R: Wait>(&self, rt: &R, board: &Board<C>) -> u64 {
        self.help.serve(rt, self.last);
        board.rest(rt, &self.pass)
    }

    fn helps(&self) -> bool {
        !self.help.slots.is_empty()
    }
}

/// Does the work of a task, and what others have left to do while it waits.
pub(crate) fn work_helping<
    C: Cells,
    R: Wait,
    W: CallerWork<C>,
    K: StepWork<C> + Drop,
    L: Roster<C, C::Cell, C::Call, C::Answer, K>,
>(rt: &R, board: &Board<C>, help: &Help<'_, '_, C, K, L>, task: &mut Task<C, W>)
    requires ready { (number : ℕ) × IsReady W.may_begin board.now number task.old }
    ensures { IsWorked W.has_done board.now task.old task.new }
{
    let pass = task.take_pass(board);
    let mut helping = HelpingPass {
        pass,
        help,
        last: 0,
    };
    task.work.work(rt, board, &mut helping);
    let HelpingPass { pass, .. } = helping;
    task.give(pass);
}
