//! Cells whose calls are made one after the other.
ghost use Rattle.sequential_cells.specs.Pasts.{FitsAfterPast, IsPast, PastsGrow};
ghost use Rattle.std.specs.Prelude.{◌≡◌, []};

use std::marker::Model;
use turn_board::Cells;

/// The cells of a board in the hands of one thread. It keeps no history: contracts speak of each past that leads to the
/// cells.
pub struct SequentialCells<C: Cells> {
    cells: Vec<C::Cell>,
}

impl<C: Cells> Model for SequentialCells<C> {
    ghost use Rattle.std.specs.Prelude.{List};

    ghost Value = { List C.Cell };

    ghost view = { λ c. c.cells.items };
}

impl<C: Cells> SequentialCells<C> {
    /// These cells, on which no call was made.
    pub fn of(cells: Vec<C::Cell>) -> SequentialCells<C>
        ensures cells { result ≡ cells.items }
        ensures past { IsPast C.step C.fits cells.items [] result }
    {
        SequentialCells { cells }
    }

    /// Makes a caller's call on a cell. It is one entry more in each past after which it fits.
    pub fn step(&mut self, caller: u32, cell: u32, call: C::Call) -> C::Answer
        requires { FitsAfterPast C.step C.fits self.old caller cell call }
        ensures { PastsGrow C.step C.fits self.old caller cell call result self.new }
    {
        C::apply(&mut self.cells[cell as usize], call)
    }

    /// The cells.
    pub fn into_cells(self) -> Vec<C::Cell>
        ensures { result.items ≡ self }
    {
        let SequentialCells { cells } = self;
        cells
    }
}
