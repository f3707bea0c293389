//! What cells have to be so that a history of calls on them is a run of the core.
ghost use Rattle.std.specs.Prelude.{ℕ, List};
ghost use Rattle.cube_core.specs.Links.{EventOf, IsLinked};
ghost use Rattle.core_events.specs.Events.{Opening, CoreEvent};
ghost use Rattle.turn_board.specs.declared.history.Event.{Event};

use turn_board::Cells;

/// Cells whose entries are events of the core. Each call on a cell is one step of it, and the cell
/// is then what the events have made of it.
pub trait CoreBoard: Cells {
    /// How the cells open, for a history of calls on them: what an opening says of cubes that the
    /// history makes later is true.
    ghost opens: { Opening → List Self.Cell → List (Event Self.Call Self.Answer) → Type 0 };

    /// Which event an entry may be, behind the events of the entries before it.
    ghost event: { Opening → EventOf Self.Call Self.Answer };

    /// A cell, by its number and its value, is what events have made of it.
    ghost stands: { Opening → ℕ → Self.Cell → List CoreEvent → Type 0 };

    /// The cells open as the events do, and each call that fits is such a step.
    ghost linked: { IsLinked Self.step Self.fits opens event stands };
}
