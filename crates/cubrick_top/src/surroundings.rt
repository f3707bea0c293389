//! What a run uses of the outside.

use crate::fault::Finish;

/// What a run may use of the outside besides its output: a shelf for each session, by its number, of which the first gives
/// the cubes file and the scripts too, and the disks of a store's two files.
#[derive(Drop)]
pub struct Outside<H, D> {
    pub shelves: Vec<H>,
    pub disk: D,
    pub other: D,
}

/// How a run ended, and what it used of the outside, which it gives back.
#[derive(Drop)]
pub struct Ended<H, D> {
    pub finish: Finish,
    pub outside: Outside<H, D>,
}
