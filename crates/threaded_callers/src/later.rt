//! Main's pass from a moment on.
ghost use Rattle.std.specs.Prelude.{◌≡◌, length, take};
ghost use mathlib.Core.List.{IsPrefix};
ghost use Rattle.board_callers.specs.Callers.{first_calls, other_hands};
ghost use Rattle.turn_board.specs.Hands.{first_number};
ghost use Rattle.turn_board.specs.Passes.{IsPassOf, hands_of, view_of};

use board_callers::CellCaller;
use std::marker::{Brand, PhantomData};
use std::sync::Wait;
use turn_board::{Board, Cells, Pass};

/// A moment: the history as it then stood. Each call of a function picks it.
pub(crate) trait Moment<Q, A> {
    ghost use Rattle.std.specs.Prelude.{List};
    ghost use Rattle.turn_board.specs.declared.history.Event.{Event};

    ghost past: { List (Event Q A) };
}

impl<Q, A> Moment<Q, A> for Brand {
    ghost use Rattle.std.specs.Prelude.{[]};

    ghost past = { [] };
}

/// A pass that knows how the history goes on from a moment.
pub(crate) struct LaterPass<C: Cells, E: Moment<C::Call, C::Answer>> {
    pass: Pass<C>,
    moment: PhantomData<E>,
    ghost later: { take (length E.past) (view_of pass).past ≡ E.past },
}

impl<C: Cells, E: Moment<C::Call, C::Answer>> CellCaller<C> for LaterPass<C, E> {
    ghost calls_on = { λ board p. IsPassOf board p.pass };

    ghost opening = { λ p. (view_of p.pass).opening };

    ghost number = { λ p. first_number (hands_of p.pass) };

    ghost own = { λ p. first_calls (hands_of p.pass) };

    ghost others = { λ p. other_hands (hands_of p.pass) };

    fn call<R: Wait>(&mut self, rt: &R, board: &Board<C>, cell: u32, call: C::Call) -> C::Answer {
        board.call(rt, &mut self.pass, cell, call)
    }

    fn rest<R: Wait>(&self, rt: &R, board: &Board<C>) -> u64 {
        board.rest(rt, &self.pass)
    }
}

impl<C: Cells, E: Moment<C::Call, C::Answer>> LaterPass<C, E> {
    /// The pass at that moment.
    pub(crate) fn of(pass: Pass<C>) -> LaterPass<C, E>
        requires { E.past ≡ (view_of pass).past }
        ensures { result.pass ≡ pass }
    {
        LaterPass {
            pass,
            moment: PhantomData,
        }
    }

    /// The pass, as it is now.
    pub(crate) fn into_pass(self) -> Pass<C>
        ensures pass { result ≡ self.pass }
        ensures later { IsPrefix E.past (view_of result).past }
    {
        let LaterPass { pass, moment: _ } = self;
        pass
    }
}
