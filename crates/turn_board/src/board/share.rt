//! Passes are split and gathered, and callers rest until they are rung.
ghost use Rattle.std.specs.Prelude.{◌≡◌, ◌<◌, ◌≤◌, ◌≢◌, [], length};
ghost use Rattle.turn_board.specs.Calls.{HasPart};
ghost use Rattle.turn_board.specs.Hands.{all_but, last_of};
ghost use Rattle.turn_board.specs.Passes.{callers_of, hands_of, view_of, HasGathered, IsPassOf};
ghost use Rattle.turn_board.specs.Seats.{IsUnqueued};
ghost use Rattle.turn_board.specs.Steps.{first_part, last_part, HasSettled};

use crate::board::Board;
use crate::cells::Cells;
use crate::lane::Lane;
use crate::pass::Pass;
use crate::plays::{CutSeat, Cutting, Glue, Settle};
use crate::view::PassView;
use atomic_table::Seat;
use std::marker::Brand;
use std::sync::Wait;

impl<C: Cells> Board<C> {
    /// A pass with the highest numbers, so many, and their own calls. It knows what the giver knows.
    pub fn split(&self, pass: &mut Pass<C>, give: u32) -> Pass<C>
        requires pass { IsPassOf self.now pass.old }
        requires some { 0 < give }
        requires spare { give < length (hands_of pass.old) }
        ensures passes { IsPassOf self.now pass.new × IsPassOf self.now result }
        ensures kept { HasPart (all_but give) (view_of pass.old) (view_of pass.new) }
        ensures given { HasPart (last_of give) (view_of pass.old) (view_of result) }
    {
        let keep = pass.count - give;
        let seat = self.split_seat::<Brand>(&mut pass.seat, keep);
        let numbers = pass.numbers.cut(keep);
        pass.count = keep;
        Pass {
            numbers,
            count: give,
            seat,
        }
    }

    fn split_seat<E: Cutting>(
        &self,
        seat: &mut Seat<Lane<C::Cell>, PassView<C::Cell, C::Call, C::Answer>>,
        _keep: u32,
    ) -> Seat<Lane<C::Cell>, PassView<C::Cell, C::Call, C::Answer>>
        requires keep { E.count ≡ _keep }
        requires table { seat.old.table_id ≡ self.now.table.shared.table_id }
        requires opening { seat.old.me.0.opening ≡ self.now.table.shared.key.cells.value.items }
        requires idle { IsUnqueued seat.old.me }
        requires unshut { seat.old.me.0.shut ≡ [] }
        requires some { 0 < _keep }
        requires more { _keep < length seat.old.me.0.hands }
        ensures table { seat.new.table_id ≡ seat.old.table_id }
        ensures other { result.table_id ≡ seat.old.table_id }
        ensures kept { seat.new.me ≡ (first_part _keep seat.old.me.0, []) }
        ensures given { result.me ≡ (last_part _keep seat.old.me.0, []) }
    {
        self.table.shared.split_seat::<CutSeat<E>>(seat)
    }

    /// Takes in the numbers of another pass, their own calls and what it knows.
    pub fn gather(&self, pass: &mut Pass<C>, other: Pass<C>)
        requires pass { IsPassOf self.now pass.old }
        requires other { IsPassOf self.now other }
        ensures pass { IsPassOf self.now pass.new }
        ensures gathered { HasGathered pass.old other pass.new }
    {
        let (numbers, count, seat) = other.into_parts();
        self.table.shared.join_seat::<Glue>(&mut pass.seat, seat);
        self.settle(&mut pass.seat);
        pass.numbers.merge(numbers);
        pass.count += count;
    }

    // The pass knows the longer of the two pasts.
    fn settle(&self, seat: &mut Seat<Lane<C::Cell>, PassView<C::Cell, C::Call, C::Answer>>)
        requires table { seat.old.table_id ≡ self.now.table.shared.table_id }
        requires opening { seat.old.me.0.opening ≡ self.now.table.shared.key.cells.value.items }
        requires hands { seat.old.me.0.hands ≢ [] }
        ensures table { seat.new.table_id ≡ seat.old.table_id }
        ensures settled { HasSettled C.step C.fits seat.old.me seat.new.me }
    {
        self.table.shared.load::<Settle<C>>(seat, 0);
    }

    /// Waits until the number that the pass acts as is rung, or was since its last rest, and ten milliseconds at most.
    /// Nothing else changes. It tells how often the number was rung since then, which is a hint.
    pub fn rest<R: Wait>(&self, rt: &R, pass: &Pass<C>) -> u64
        requires { IsPassOf self.now pass.now }
    {
        self.rest_for(rt, pass.number())
    }

    /// The same for a number whose pass is elsewhere. One thread at a time rests for a number.
    pub fn rest_for<R: Wait>(&self, rt: &R, number: u32) -> u64 {
        match self.bells.get(number as usize) {
            Some(bell) => bell.rest(rt),
            None => 0,
        }
    }

    /// Rings a number, so that its rest ends.
    pub fn ring(&self, number: u32)
        requires { number < callers_of self.now }
    {
        self.bells[number as usize].ring();
    }
}
