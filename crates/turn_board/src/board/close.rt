//! A board is shut.
ghost use Rattle.std.specs.Prelude.{◌≡◌, ◌<◌, ◌≤◌, ◌≢◌, [], length, vec_len, vec_capacity};
ghost use Rattle.std.specs.Mem.Slots.{slots_items, slots_len, IsFull};
ghost use Rattle.turn_board.specs.Lanes.{lane_values};
ghost use Rattle.turn_board.specs.Passes.{AreLeft, IsPassOf};
ghost use Rattle.turn_board.specs.Seats.{IsUnqueued, IsKept, IsKeeper};
ghost use Rattle.turn_board.specs.Steps.{ShutAt};
ghost use Rattle.turn_board.specs.declared.view.Stage.TheVariants.{Queued};

use crate::board::Board;
use crate::cells::Cells;
use crate::lane::Lane;
use crate::pass::Pass;
use crate::plays::Shut;
use crate::view::PassView;
use atomic_table::{Closed, Seat};
use std::alloc::Global;
use std::sync::Wait;
use std::thread;

impl<C: Cells> Board<C> {
    /// Waits for the turn of each cell, and takes its value out.
    pub fn shut<R: Wait>(self, rt: &R, pass: Pass<C>) -> Vec<C::Cell>
        requires { IsPassOf self pass }
        ensures { AreLeft self pass result.items }
    {
        let (_, _, mut seat) = pass.into_parts();
        self.keep_all(rt, &mut seat);
        let Board {
            table,
            cells,
            room,
            bells: _,
        } = self;
        empty(table.close_with(seat), cells as usize, room)
    }

    // Waits for the turn of each cell, and keeps it for good.
    fn keep_all<R: Wait>(
        &self,
        rt: &R,
        seat: &mut Seat<Lane<C::Cell>, PassView<C::Cell, C::Call, C::Answer>>,
    )
        requires table { seat.old.table_id ≡ self.now.table.shared.table_id }
        requires opening { seat.old.me.0.opening ≡ self.now.table.shared.key.cells.value.items }
        requires idle { IsUnqueued seat.old.me }
        requires unshut { seat.old.me.0.shut ≡ [] }
        ensures table { seat.new.table_id ≡ seat.old.table_id }
        ensures kept { IsKeeper seat.old.me seat.new.me }
        ensures all { length seat.new.me.0.shut ≡ self.now.cells }
    {
        let mut cell = 0;
        while cell < self.cells {
            self.keep_turn(rt, seat, cell);
            cell += 1;
        }
    }

    // Waits for the turn of the next cell, and keeps it for good.
    fn keep_turn<R: Wait>(
        &self,
        rt: &R,
        seat: &mut Seat<Lane<C::Cell>, PassView<C::Cell, C::Call, C::Answer>>,
        cell: u32,
    )
        requires table { seat.old.table_id ≡ self.now.table.shared.table_id }
        requires cell { cell < self.now.cells }
        requires opening { seat.old.me.0.opening ≡ self.now.table.shared.key.cells.value.items }
        requires idle { IsUnqueued seat.old.me }
        requires next { cell ≡ length seat.old.me.0.shut }
        ensures table { seat.new.table_id ≡ seat.old.table_id }
        ensures kept { IsKept seat.old.me seat.new.me }
    {
        let ticket = self.draw(seat, cell);
        for _ in rt.forever() {
            if self.look_to_keep(seat, cell) == ticket {
                return;
            }
            thread::yield_now();
        }
        unreachable!()
    }

    // Looks whether the turn of the next cell has come, and keeps it if so.
    fn look_to_keep(
        &self,
        seat: &mut Seat<Lane<C::Cell>, PassView<C::Cell, C::Call, C::Answer>>,
        cell: u32,
    ) -> u64
        requires table { seat.old.table_id ≡ self.now.table.shared.table_id }
        requires cell { cell < self.now.cells }
        requires opening { seat.old.me.0.opening ≡ self.now.table.shared.key.cells.value.items }
        requires queued { (p : _) × (seat.old.me.0.stage ≡ Queued cell p) }
        requires hands { seat.old.me.0.hands ≢ [] }
        requires next { cell ≡ length seat.old.me.0.shut }
        ensures table { seat.new.table_id ≡ seat.old.table_id }
        ensures looked { ShutAt result seat.old.me seat.new.me seat.old.me.0.stage }
    {
        self.table.shared.load::<Shut>(seat, 16 * cell as usize + 1)
    }
}

// The values of a closed table, in order.
fn empty<T>(closed: Closed<Lane<T>, Global>, cells: usize, values: Vec<T>) -> Vec<T>
    requires full { IsFull closed.slots }
    requires cells { slots_len closed.slots ≡ cells }
    requires empty { values.items ≡ [] }
    requires roomy { cells ≤ vec_capacity values }
    ensures { result.items ≡ lane_values (slots_items closed.slots) }
{
    let mut closed = closed;
    let mut values = values;
    for i in 0..cells {
        values.push_reserved(closed.take(i).into_value());
    }
    closed.free();
    values
}
