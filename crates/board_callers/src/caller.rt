//! A caller of a board.
ghost use Rattle.std.specs.Prelude.{◌≡◌, ◌<◌, ℕ, List, [], ◌∷◌, ◌++◌, length};
ghost use Rattle.board_callers.specs.Callers.{HasHistoryOf, first_calls, other_hands};
ghost use Rattle.turn_board.specs.Hands.{first_number};
ghost use Rattle.turn_board.specs.History.{event};
ghost use Rattle.turn_board.specs.Passes.{IsPassOf, hands_of, view_of};
ghost use Rattle.turn_board.specs.declared.board.Board.{Board};
ghost use Rattle.turn_board.specs.declared.history.Event.{Event};
ghost use Rattle.turn_board.specs.declared.history.Hand.{Hand};

use std::sync::Wait;
use turn_board::{Board, Cells, Pass};

/// Whoever makes calls on the cells of a board, one after the other, by one number.
pub trait CellCaller<C: Cells> {
    /// It makes its calls on this board.
    ghost calls_on: { Board C C.Cell C.Call C.Answer → Self → Type 0 };

    /// The cells that the board opened with.
    ghost opening: { Self → List C.Cell };

    /// Its number.
    ghost number: { Self → ℕ };

    /// The calls that it made, the oldest first.
    ghost own: { Self → List (Event C.Call C.Answer) };

    /// The other callers that go with it.
    ghost others: { Self → List (Hand C.Call C.Answer) };

    /// Makes a call on a cell. It waits for its turn. A history of the board has all its calls.
    fn call<R: Wait>(&mut self, rt: &R, board: &Board<C>, cell: u32, call: C::Call) -> C::Answer
        requires board { calls_on board.now self.old }
        requires there { cell < length (opening self.old) }
        requires fits { C.fits (opening self.old) (number self.old) (own self.old) cell call }
        ensures board { calls_on board.now self.new }
        ensures opening { opening self.new ≡ opening self.old }
        ensures number { number self.new ≡ number self.old }
        ensures own { own self.new ≡ own self.old ++ event (number self.old) cell call result ∷ [] }
        ensures others { others self.new ≡ others self.old }
        ensures history { HasHistoryOf C.step C.fits (opening self.new) (number self.new)
            (own self.new) };

    /// Sleeps until it is rung, and some milliseconds at most. It tells how often it was rung since it last slept,
    /// which is a hint.
    fn rest<R: Wait>(&self, rt: &R, board: &Board<C>) -> u64
        requires board { calls_on board.now self.now };

    /// Whether its rest does what others have left to do, so that it need not wake them. It is a hint.
    fn helps(&self) -> bool {
        false
    }
}

impl<C: Cells> CellCaller<C> for Pass<C> {
    ghost calls_on = { λ board p. IsPassOf board p };

    ghost opening = { λ p. (view_of p).opening };

    ghost number = { λ p. first_number (hands_of p) };

    ghost own = { λ p. first_calls (hands_of p) };

    ghost others = { λ p. other_hands (hands_of p) };

    #[inline(always)]
    fn call<R: Wait>(&mut self, rt: &R, board: &Board<C>, cell: u32, call: C::Call) -> C::Answer {
        board.call(rt, self, cell, call)
    }

    fn rest<R: Wait>(&self, rt: &R, board: &Board<C>) -> u64 {
        board.rest(rt, self)
    }
}
