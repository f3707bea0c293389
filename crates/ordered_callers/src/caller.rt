//! A caller with a place in an order.
ghost use Rattle.std.specs.Prelude.{◌≡◌};

use crate::order::OrderPlace;
use board_callers::CellCaller;
use std::sync::Wait;
use turn_board::{Board, Cells};

/// A caller of a board that makes its calls in an order. It is told by the calls of the caller in it.
///
/// Each call and each rest passes the baton on, and waits for it (`OrderPlace`). A rest does no more than that: it lets
/// others run, and rings no bell.
#[derive(Drop)]
pub struct OrderedCaller<P> {
    place: Option<OrderPlace>,
    caller: P,
}

impl<P> OrderedCaller<P> {
    /// The caller at this place.
    pub fn new(place: OrderPlace, caller: P) -> OrderedCaller<P>
        ensures { result.caller ≡ caller }
    {
        OrderedCaller {
            place: Some(place),
            caller,
        }
    }

    /// Leaves the order for ever. Calls and rests are from then on those of the caller in it.
    pub fn leave<R: Wait>(&mut self, rt: &R)
        ensures { self.new.caller ≡ self.old.caller }
    {
        if let Some(place) = self.place.take() {
            place.leave(rt);
        }
    }

    /// Leaves the order, if it has not, and gives the caller back.
    pub fn into_caller<R: Wait>(self, rt: &R) -> P
        ensures { result ≡ self.caller }
    {
        let OrderedCaller { place, caller } = self;
        if let Some(place) = place {
            place.leave(rt);
        }
        caller
    }
}

impl<C: Cells, P: CellCaller<C>> CellCaller<C> for OrderedCaller<P> {
    ghost calls_on = { λ board ordered. P.calls_on board ordered.caller };

    ghost opening = { λ ordered. P.opening ordered.caller };

    ghost number = { λ ordered. P.number ordered.caller };

    ghost own = { λ ordered. P.own ordered.caller };

    ghost others = { λ ordered. P.others ordered.caller };

    fn call<R: Wait>(&mut self, rt: &R, board: &Board<C>, cell: u32, call: C::Call) -> C::Answer {
        if let Some(place) = &self.place {
            place.take_baton(rt);
        }
        self.caller.call(rt, board, cell, call)
    }

    fn rest<R: Wait>(&self, rt: &R, board: &Board<C>) -> u64 {
        match &self.place {
            Some(place) => {
                place.take_baton(rt);
                1
            }
            None => self.caller.rest(rt, board),
        }
    }
}
