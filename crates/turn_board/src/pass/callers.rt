//! The numbers of a pass.
ghost use Rattle.std.specs.Prelude.{◌≡◌, ◌+◌, length};
ghost use Rattle.turn_board.specs.Hands.{first_number};
ghost use Rattle.turn_board.specs.Passes.{view_of};

use crate::cells::Cells;
use crate::pass::Pass;

impl<C: Cells> Pass<C> {
    /// The number that the pass acts as, the least of its numbers.
    pub fn number(&self) -> u32
        ensures { result ≡ first_number (view_of self.now).hands }
    {
        self.numbers.first()
    }

    /// How many numbers it can give to another pass.
    pub fn spare(&self) -> u32
        ensures { result + 1 ≡ length (view_of self.now).hands }
    {
        self.count - 1
    }
}
