//! What all shards copied of some cubes.
ghost use Rattle.std.specs.Prelude.{◌≡◌, ◌≤◌, length, All, IfOk};
ghost use Rattle.joined_copies.specs.JoinedCopies.{AreJoinedByCube, AreRisingByCube};

use crate::cube::join_cube;
use cube_rounds::{RoundBrickList, RoundBricks};
use std::alloc::{AllocError, Global};

/// Joins what the shards copied of so many cubes. There is at least one shard. Where each shard's parts
/// rise by number, the joined ones do. No part is copied; it takes time by the number of parts and its
/// logarithm.
pub fn join_copies(
    alloc: Global,
    copies: Vec<RoundBricks>,
    cubes: usize,
) -> Result<Vec<RoundBrickList>, AllocError>
    requires { 1 ≤ length copies.items }
    ensures count { IfOk result (λ lists. length lists.items ≡ cubes) }
    ensures joined { IfOk result (λ lists. AreJoinedByCube copies.items lists.items) }
    ensures rising { IfOk result (λ lists. All AreRisingByCube copies.items
        → AreRisingByCube lists.items) }
{
    let mut left = copies;
    let mut lists = Vec::with_capacity(alloc, cubes)?;
    'cubes: for _ in 0..cubes {
        let (parts, rest) = join_cube(alloc, left)?;
        lists.push_reserved(parts);
        left = rest;
    }
    Ok(lists)
}
