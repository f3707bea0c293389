//! A pass, with which a thread makes calls on a board.
ghost use Rattle.std.specs.Prelude.{◌≡◌, [], map, length};
ghost use Rattle.turn_board.specs.Hands.{hand_number};
ghost use Rattle.turn_board.specs.Seats.{IsUnqueued};

mod callers;

use crate::cells::Cells;
use crate::lane::Lane;
use crate::numbers::Chain;
use crate::view::PassView;
use atomic_table::Seat;

/// A pass of a board. It has one caller number or more, and goes from thread to thread.
pub struct Pass<C: Cells> {
    pub(crate) numbers: Chain,
    pub(crate) count: u32,
    pub(crate) seat: Seat<Lane<C::Cell>, PassView<C::Cell, C::Call, C::Answer>>,
    ghost idle: { IsUnqueued seat.me },
    ghost unshut: { seat.me.0.shut ≡ [] },
    ghost numbered: { numbers ≡ map hand_number seat.me.0.hands },
    ghost counted: { count ≡ length seat.me.0.hands },
}

impl<C: Cells> Pass<C> {
    // Its numbers, how many they are, and its seat.
    pub(crate) fn into_parts(
        self,
    ) -> (
        Chain,
        u32,
        Seat<Lane<C::Cell>, PassView<C::Cell, C::Call, C::Answer>>,
    )
        ensures numbers { (result.0 ≡ self.numbers) × (result.1 ≡ self.count) }
        ensures seat { result.2 ≡ self.seat }
    {
        let Pass {
            numbers,
            count,
            seat,
        } = self;
        (numbers, count, seat)
    }
}

impl<C: Cells> Drop for Pass<C> {
    fn drop(self) {
        let Self {
            numbers: _,
            count: _,
            seat: _,
        } = self;
    }
}
