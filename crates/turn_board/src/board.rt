//! The board, and the steps of a call.
ghost use Rattle.std.specs.Prelude.{◌≡◌, ℕ, ◌*◌, ◌<◌, ◌≤◌, ◌≢◌, [], ◌∷◌, length, vec_len, vec_capacity, Some};
ghost use Rattle.turn_board.specs.declared.view.Stage.TheVariants.{Unqueued, Queued};
ghost use Rattle.turn_board.specs.Calls.{FitsNext};
ghost use Rattle.turn_board.specs.Hands.{event_of};
ghost use Rattle.turn_board.specs.Steps.{LookedAt, HasJoined};
ghost use Rattle.turn_board.specs.Seats.{IsUnqueued, IsQueued, TakesTurn, HasStepped, HasAnswered, HasPassedOn};

mod call;
mod close;
mod open;
mod share;

use crate::bell::Bell;
use crate::cells::Cells;
use crate::lane::Lane;
use crate::plays::{Draw, Look, Naming, PassOn};
use crate::rule::{BoardRule, Opening};
use crate::view::PassView;
use atomic_table::{Seat, Table};
pub use open::NoMemory;
use std::alloc::Global;
use std::hint::spin_loop;
use std::snapshot::Snapshot;
use std::sync::Wait;
use std::thread;

// How often a pass looks whether its turn has come before it lets other threads run.
const LOOKS: u32 = 300;

/// Cells that threads work on, each call at its turn. Only `shut` ends a board.
pub struct Board<C: Cells> {
    table: Table<
        Lane<C::Cell>,
        PassView<C::Cell, C::Call, C::Answer>,
        Opening<C::Cell>,
        BoardRule<C>,
        Global,
    >,
    cells: u32,
    room: Vec<C::Cell>,
    bells: Vec<Bell>,
    ghost counted: { cells ≡ length table.shared.key.cells.value.items },
    ghost words: { table.shared.table_id.words ≡ 16 * cells },
    ghost slots: { table.shared.table_id.slots ≡ cells },
    ghost some: { 0 < cells },
    ghost few: { cells < 65536 },
    ghost empty: { room.items ≡ [] },
    ghost roomy: { cells ≤ vec_capacity room },
    ghost each_bell: { vec_len bells ≡ table.shared.key.callers },
}

impl<C: Cells> Board<C> {
    // Draws a ticket of the cell.
    fn draw(
        &self,
        seat: &mut Seat<Lane<C::Cell>, PassView<C::Cell, C::Call, C::Answer>>,
        cell: u32,
    ) -> u64
        requires table { seat.old.table_id ≡ self.now.table.shared.table_id }
        requires cell { cell < self.now.cells }
        requires opening { seat.old.me.0.opening ≡ self.now.table.shared.key.cells.value.items }
        requires idle { IsUnqueued seat.old.me }
        requires behind { length seat.old.me.0.shut ≤ cell }
        ensures table { seat.new.table_id ≡ seat.old.table_id }
        ensures queued { IsQueued cell result seat.old.me seat.new.me }
    {
        self.table
            .shared
            .fetch_add::<Draw>(seat, 16 * cell as usize, 1)
    }

    // Looks whether the turn has come, and takes the cell's slot if so.
    fn look(
        &self,
        seat: &mut Seat<Lane<C::Cell>, PassView<C::Cell, C::Call, C::Answer>>,
        cell: u32,
    ) -> u64
        requires table { seat.old.table_id ≡ self.now.table.shared.table_id }
        requires cell { cell < self.now.cells }
        requires opening { seat.old.me.0.opening ≡ self.now.table.shared.key.cells.value.items }
        requires queued { (p : ℕ) × (seat.old.me.0.stage ≡ Queued cell p) }
        requires hands { seat.old.me.0.hands ≢ [] }
        ensures table { seat.new.table_id ≡ seat.old.table_id }
        ensures looked { LookedAt C.can C.fits result seat.old.me seat.new.me seat.old.me.0.stage }
    {
        self.table
            .shared
            .load::<Look<C>>(seat, 16 * cell as usize + 1)
    }

    // Waits for a turn of the cell.
    fn take_turn<R: Wait>(
        &self,
        rt: &R,
        seat: &mut Seat<Lane<C::Cell>, PassView<C::Cell, C::Call, C::Answer>>,
        cell: u32,
    )
        requires table { seat.old.table_id ≡ self.now.table.shared.table_id }
        requires cell { cell < self.now.cells }
        requires opening { seat.old.me.0.opening ≡ self.now.table.shared.key.cells.value.items }
        requires idle { IsUnqueued seat.old.me }
        requires unshut { seat.old.me.0.shut ≡ [] }
        ensures table { seat.new.table_id ≡ seat.old.table_id }
        ensures turn { TakesTurn C.can C.fits cell seat.old.me seat.new.me }
    {
        let ticket = self.draw(seat, cell);
        let mut looks: u32 = 0;
        for _ in rt.forever() {
            if self.look(seat, cell) == ticket {
                return;
            }
            if looks < LOOKS {
                looks += 1;
                spin_loop();
            } else {
                thread::yield_now();
            }
        }
        unreachable!()
    }

    // Makes the call on the cell in its place.
    #[inline(always)]
    fn apply(
        &self,
        seat: &mut Seat<Lane<C::Cell>, PassView<C::Cell, C::Call, C::Answer>>,
        cell: u32,
        call: C::Call,
    ) -> C::Answer
        requires table { seat.old.table_id ≡ self.now.table.shared.table_id }
        requires turn { (lane : _) × (seat.old.me.1 ≡ (cell, lane) ∷ []) × C.can lane.value call }
        ensures table { seat.new.table_id ≡ seat.old.table_id }
        ensures view { seat.new.me.0 ≡ seat.old.me.0 }
        ensures stepped { HasStepped C.step cell call result seat.old.me.1 seat.new.me.1 }
    {
        let lane = seat.slot_mut(&self.table.shared, cell as usize);
        C::apply(&mut lane.value, call)
    }

    // Passes the turn on. The event joins the history.
    #[inline(always)]
    fn pass_on<E: Naming<C::Call, C::Answer>>(
        &self,
        seat: &mut Seat<Lane<C::Cell>, PassView<C::Cell, C::Call, C::Answer>>,
        cell: u32,
        _asked: &Snapshot<C::Call>,
        _answer: &C::Answer,
    )
        requires table { seat.old.table_id ≡ self.now.table.shared.table_id }
        requires cell { cell < self.now.cells }
        requires opening { seat.old.me.0.opening ≡ self.now.table.shared.key.cells.value.items }
        requires named { E.event ≡ event_of seat.old.me.0.hands cell _asked.now.value _answer.now }
        requires hands { seat.old.me.0.hands ≢ [] }
        requires also { seat.old.me.0.also ≡ [] }
        requires fits { FitsNext C.fits seat.old.me.0 cell _asked.now.value }
        requires turn { HasAnswered C.step cell _asked.now.value _answer.now seat.old.me }
        ensures table { seat.new.table_id ≡ seat.old.table_id }
        ensures joined { HasPassedOn C.step C.fits E.event seat.old.me seat.new.me }
    {
        self.table
            .shared
            .fetch_add::<PassOn<C, E>>(seat, 16 * cell as usize + 1, 1);
    }
}
