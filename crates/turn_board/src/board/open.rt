//! A board is made.
ghost use Rattle.std.specs.Prelude.{◌≡◌, ◌*◌, ◌<◌, ◌≤◌, [], length, vec_len, vec_capacity, replicate, IfOk, IfErr};
ghost use Rattle.turn_board.specs.Lanes.{lane_values};
ghost use Rattle.turn_board.specs.Calls.{IsFirst};
ghost use Rattle.turn_board.specs.Rising.{numbers_from};
ghost use Rattle.turn_board.specs.Passes.{opening_of, callers_of, view_of, IsPassOf};

use crate::bell::Bell;
use crate::board::Board;
use crate::cells::Cells;
use crate::lane::{Lane, from_lanes, into_lanes};
use crate::numbers::Chain;
use crate::pass::Pass;
use crate::rule::Opening;
use atomic_table::{Refused, Table};
use std::alloc::{AllocError, Global};
use std::snapshot::Snapshot;

/// There was no memory for a board. The cells come back.
pub struct NoMemory<T> {
    pub cells: Vec<T>,
}

// The memory of a board.
struct BoardMemory<T> {
    words: Vec<u64>,
    lanes: Vec<Lane<T>>,
    bells: Vec<Bell>,
    numbers: Chain,
}

impl<T> BoardMemory<T> {
    fn of(alloc: Global, cells: usize, callers: u32) -> Result<BoardMemory<T>, AllocError>
        requires { cells < 65536 }
        ensures words { IfOk result (λ m. m.words.items ≡ replicate (16 * cells) 0) }
        ensures lanes { IfOk result (λ m. (m.lanes.items ≡ []) × (cells ≤ vec_capacity m.lanes)) }
        ensures bells { IfOk result (λ m. vec_len m.bells ≡ callers) }
        ensures numbers { IfOk result (λ m. m.numbers ≡ numbers_from 0 callers) }
    {
        let words = Vec::from_elem(alloc, 0u64, 16 * cells)?;
        let numbers = Chain::below(alloc, callers)?;
        let bells = new_bells(alloc, callers as usize)?;
        let lanes = Vec::with_capacity(alloc, cells)?;
        Ok(BoardMemory {
            words,
            lanes,
            bells,
            numbers,
        })
    }
}

fn new_bells(alloc: Global, count: usize) -> Result<Vec<Bell>, AllocError>
    ensures { IfOk result (λ v. vec_len v ≡ count) }
{
    let mut bells = Vec::with_capacity(alloc, count)?;
    for _ in 0..count {
        bells.push_reserved(Bell::new());
    }
    Ok(bells)
}

impl<C: Cells> Board<C> {
    /// A board with these cells, and its first pass, which has all caller numbers and acts as number 0.
    pub fn new(
        alloc: Global,
        cells: Vec<C::Cell>,
        callers: u32,
    ) -> Result<(Board<C>, Pass<C>), NoMemory<C::Cell>>
        requires some_cell { 0 < length cells.items }
        requires few_cells { length cells.items < 65536 }
        requires some_caller { 0 < callers }
        requires few_callers { callers < 65536 }
        ensures opening { IfOk result (λ r. opening_of r.0 ≡ cells.items) }
        ensures callers { IfOk result (λ r. callers_of r.0 ≡ callers) }
        ensures pass { IfOk result (λ r. IsPassOf r.0 r.1) }
        ensures first { IfOk result (λ r. IsFirst callers cells.items (view_of r.1)) }
        ensures refused { IfErr result (λ e. e.cells.items ≡ cells.items) }
    {
        let count = cells.len();
        let Ok(memory) = BoardMemory::of(alloc, count, callers) else {
            return Err(NoMemory { cells });
        };
        let BoardMemory {
            words,
            lanes,
            bells,
            numbers,
        } = memory;
        let opening = Opening {
            cells: Snapshot::of(&cells),
            callers: callers as u64,
        };
        let (lanes, room) = into_lanes(cells, lanes);
        match Table::new(alloc, words.as_slice(), lanes, &opening) {
            Ok((table, seat)) => {
                let board = Board {
                    table,
                    cells: count as u32,
                    room,
                    bells,
                };
                let pass = Pass {
                    numbers,
                    count: callers,
                    seat,
                };
                Ok((board, pass))
            }
            Err(Refused { slots }) => Err(NoMemory {
                cells: from_lanes(slots, room),
            }),
        }
    }
}
