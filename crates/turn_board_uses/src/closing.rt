//! Two doors, of which caller 0 closes the first.
use crate::doors::{Door, Doors, Push};
use std::alloc::{AllocError, Global};
use std::sync::Wait;
use turn_board::{Board, NoMemory};

/// Whether the first door was open, whether it still is, whether the second is, and the doors.
#[derive(Drop)]
pub struct ClosedDoors {
    pub was_open: bool,
    pub first: bool,
    pub second: bool,
    pub doors: Vec<Door>,
}

/// Closes the first of two doors, and tries both.
pub fn closed_doors<R: Wait>(rt: &R, alloc: Global) -> Result<ClosedDoors, AllocError> {
    let mut doors = Vec::with_capacity(alloc, 2)?;
    doors.push_reserved(Door::Open);
    doors.push_reserved(Door::Open);
    match Board::<Doors>::new(alloc, doors, 1) {
        Err(NoMemory { cells: _ }) => Err(AllocError),
        Ok((board, mut pass)) => {
            let was_open = board.call(rt, &mut pass, 0, Push::Close);
            let first = board.call(rt, &mut pass, 0, Push::Try);
            let second = board.call(rt, &mut pass, 1, Push::Try);
            let doors = board.shut(rt, pass);
            Ok(ClosedDoors {
                was_open,
                first,
                second,
                doors,
            })
        }
    }
}
