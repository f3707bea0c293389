//! What a round has of the bricks of a list.

ghost use Rattle.std.specs.Prelude.{◌≡◌, ◌++◌, [], ℕ, slice_get, IfOk, OnOk};
ghost use Rattle.std.specs.BTreeMap.{get};
ghost use Rattle.std.specs.Option.{option_map_or};
ghost use Rattle.std.specs.Ordering.{nat_cmp};
ghost use Rattle.cube_rounds.specs.Demands.{AreRising};
ghost use Rattle.brick_store.specs.Copies.{round_part};
ghost use Rattle.brick_map.specs.Copied.{part_numbered, part_with_entries, parts_at};
ghost use Rattle.brick_map.specs.Places.{brick_place};

use brick_store::Brick;
use cube_rounds::RoundBrick;
use std::alloc::{AllocError, Global};
use std::collections::BTreeMap;

/// What a round from one epoch up to another has of each brick with entries of it, by rising number. The map
/// has the places of the bricks.
pub fn copy_by_number(
    alloc: Global,
    bricks: &[Brick],
    places: &BTreeMap<u64, usize>,
    from: u64,
    to: u64,
) -> Result<Vec<RoundBrick>, AllocError>
    requires { (number : ℕ) → get nat_cmp places.now number ≡ brick_place number bricks.now }
    ensures rising { IfOk result (λ parts. AreRising 0 parts.items) }
    ensures parts { IfOk result (λ parts. (number : ℕ)
        → part_numbered number parts.items ≡ slice_get (parts_at from to bricks.now number) 0) }
{
    let _entries = places.len();
    let mut parts = Vec::new(alloc);
    'places: for (number, place) in places {
        let _number = *number;
        add_part_at(&mut parts, bricks, *place, from, to)?;
    }
    Ok(parts)
}

// Adds what a round has of the brick at a place to other parts.
fn add_part_at(
    parts: &mut Vec<RoundBrick>,
    bricks: &[Brick],
    place: usize,
    from: u64,
    to: u64,
) -> Result<(), AllocError>
    ensures { OnOk result (parts.new.items ≡ parts.old.items
        ++ option_map_or (λ b. part_with_entries (round_part from to b))
        (slice_get bricks.now place) []) }
{
    match bricks.get(place) {
        None => Ok(()),
        Some(brick) => add_part(parts, brick, from, to),
    }
}

// Adds what a round has of a brick to other parts, where it has entries of the round.
fn add_part(
    parts: &mut Vec<RoundBrick>,
    brick: &Brick,
    from: u64,
    to: u64,
) -> Result<(), AllocError>
    ensures { OnOk result (parts.new.items
        ≡ parts.old.items ++ part_with_entries (round_part from to brick.now)) }
{
    let part = brick.copy(from, to)?;
    if part.entries().len() != 0 {
        parts.push(part)?;
    }
    Ok(())
}
