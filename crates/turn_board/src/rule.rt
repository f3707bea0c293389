//! The table's rule as a type.
ghost use Rattle.turn_board.specs.Rule.{HasAccount, first_view};

use crate::cells::Cells;
use crate::lane::Lane;
use crate::view::PassView;
use atomic_table::TableRule;
use std::marker::PhantomData;
use std::snapshot::Snapshot;

// What the table is told when it is made.
pub struct Opening<T> {
    pub cells: Snapshot<Vec<T>>,
    pub callers: u64,
}

pub struct BoardRule<C> {
    cells: PhantomData<C>,
}

impl<C: Cells> TableRule<Lane<C::Cell>, PassView<C::Cell, C::Call, C::Answer>, Opening<C::Cell>>
    for BoardRule<C> {
    ghost holds = { λ key. HasAccount C.step C.fits key.cells.value.items key.callers };

    ghost first = { λ key. first_view key.cells.value.items key.callers };
}

impl<T> Drop for Opening<T> {
    fn drop(self) {
        let Self {
            cells: _,
            callers: _,
        } = self;
    }
}
