//! What a board is generic in: its cells, the calls on them, and which call a caller may make.
ghost use Rattle.turn_board.specs.History.{CellStep, CallFit, IsSafe};

/// The cells of a board, and the calls on them.
pub trait Cells {
    type Cell;

    type Call;

    type Answer;

    /// The cell before a call, the call, its answer, and a cell that it may leave.
    ghost step: { CellStep Self.Cell Self.Call Self.Answer };

    /// The cell can take the call.
    ghost can: { Self.Cell → Self.Call → Type 0 };

    /// Of the opening cells, a caller's number, its own earlier calls, and the cell and the call that it makes next.
    ghost fits: { CallFit Self.Cell Self.Call Self.Answer };

    /// Makes the call on the cell.
    fn apply(cell: &mut Self::Cell, call: Self::Call) -> Self::Answer
        requires { can cell.old call }
        ensures { step cell.old call result cell.new };

    /// In a run in which each call fitted, a cell can take each further call that fits.
    ghost safe: { IsSafe step fits can };
}
