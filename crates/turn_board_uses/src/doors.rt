//! Doors, of which caller 0 may close each, once. A closed door cannot be closed.
ghost use Rattle.turn_board_uses.specs.Closing.{CanTake, Moves, FitsDoor};
ghost use Rattle.turn_board_uses.specs.StaysOpen.{safe_door};

use turn_board::Cells;

/// A door.
#[derive(Drop)]
pub enum Door {
    Open,
    Closed,
}

/// What is done with a door.
pub enum Push {
    Close,
    Try,
}

/// Doors. Closing one fits caller 0, where it was open at first and the caller has not closed it.
pub struct Doors;

impl Cells for Doors {
    type Cell = Door;

    type Call = Push;

    type Answer = bool;

    ghost step = { Moves };

    ghost can = { CanTake };

    ghost fits = { FitsDoor };

    fn apply(cell: &mut Door, call: Push) -> bool {
        match call {
            Push::Close => match cell {
                Door::Open => {
                    *cell = Door::Closed;
                    true
                }
                Door::Closed => unreachable!(),
            },
            Push::Try => match cell {
                Door::Open => true,
                Door::Closed => false,
            },
        }
    }

    ghost safe = { safe_door };
}
