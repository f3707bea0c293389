//! Cells that count.
ghost use Rattle.turn_board_uses.specs.Counting.{AddUp, CounterStep};

use turn_board::Cells;

/// What a counter is asked.
pub enum CounterCall {
    Add(u64),
    Get,
}

/// Counters modulo 2^64. Each call fits.
pub struct CounterCells;

impl Cells for CounterCells {
    type Cell = u64;

    type Call = CounterCall;

    type Answer = u64;

    ghost step = { CounterStep };

    ghost can = { λ _ _. Unit {0} };

    ghost fits = { λ _ _ _ _ _. Unit {0} };

    fn apply(cell: &mut u64, call: CounterCall) -> u64 {
        match call {
            CounterCall::Add(n) => {
                *cell = cell.wrapping_add(n);
                *cell
            }
            CounterCall::Get => *cell,
        }
    }

    ghost safe = { λ opening log by k call x y run at leads fit. tt };
}

/// A counter holds what was added to it: this is said of any events that lead from one value to another.
pub fn adds_up()
    ensures { AddUp }
{}
