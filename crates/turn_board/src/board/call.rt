//! A call on a board.
ghost use Rattle.std.specs.Prelude.{◌≡◌, ◌<◌};
ghost use Rattle.turn_board.specs.Passes.{cells_of, HasCalled, IsPassOf, MayCall};

use crate::board::Board;
use crate::cells::Cells;
use crate::pass::Pass;
use std::marker::Brand;
use std::snapshot::Snapshot;
use std::sync::Wait;

impl<C: Cells> Board<C> {
    /// Makes a call on a cell, for the number that the pass acts as. It waits for its turn.
    #[inline(always)]
    pub fn call<R: Wait>(&self, rt: &R, pass: &mut Pass<C>, cell: u32, call: C::Call) -> C::Answer
        requires pass { IsPassOf self.now pass.old }
        requires cell { cell < cells_of self.now }
        requires fits { MayCall pass.old cell call }
        ensures pass { IsPassOf self.now pass.new }
        ensures called { HasCalled pass.old cell call result pass.new }
    {
        self.take_turn(rt, &mut pass.seat, cell);
        let asked = Snapshot::of(&call);
        let answer = self.apply(&mut pass.seat, cell, call);
        self.pass_on::<Brand>(&mut pass.seat, cell, &asked, &answer);
        answer
    }

    /// How many cells the board has.
    pub fn cells(&self) -> u32
        ensures { result ≡ cells_of self.now }
    {
        self.cells
    }
}
