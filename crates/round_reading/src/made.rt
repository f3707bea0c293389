//! The cubes that are new with a round, by their text.

ghost use Rattle.std.specs.Prelude.{◌≡◌, ◌||◌, ℕ, List, Option, is_none};
ghost use Rattle.std.specs.List.{list_any};
ghost use Rattle.std.specs.Str.{bytes_eq};
ghost use Rattle.cube_language.specs.declared.decl.Decl.{Decl};
ghost use Rattle.cube_language.specs.Cubes.{repeated_after};
ghost use Rattle.cube_rounds.specs.Demands.{cube_names_of};
ghost use Rattle.round_fields.specs.Canonical.{TellsCubes};
ghost use Rattle.round_fields.specs.Reading.{GivesRead};
ghost use Rattle.round_reading.specs.Payload.{made_from};

use cube_schema::Schema;
use cube_values::CallError;
use round_fields::{canonical_cubes, eight_of};
use std::alloc::Global;

fn bears_name(cube: &Schema, name: &[u8]) -> bool
    ensures { result ≡ bytes_eq name.now cube.now.name }
{
    name == cube.decl().name.as_bytes()
}

/// Whether one of the cubes has the name.
fn has_name(cubes: &[Schema], name: &[u8]) -> bool
    ensures { result ≡ list_any (bytes_eq name.now) (cube_names_of cubes.now) }
{
    'cubes: for cube in cubes {
        if bears_name(cube, name) {
            return true;
        }
    }
    false
}

/// Whether a cube has the name of one of these.
fn is_repeated(before: &[Schema], made: &[Schema], cube: &Schema) -> bool
    ensures { result ≡ (list_any (bytes_eq cube.now.name) (cube_names_of made.now)
        || list_any (bytes_eq cube.now.name) (cube_names_of before.now)) }
{
    let name = cube.decl().name.as_bytes();
    has_name(made, name) || has_name(before, name)
}

/// Whether no new cube has the name of a cube before it.
fn are_apart(before: &[Schema], made: &[Schema]) -> bool
    ensures { result
        ≡ is_none (repeated_after (cube_names_of before.now) (cube_names_of made.now)) }
{
    'cubes: for (i, cube) in made.iter().enumerate() {
        let (front, _) = made.split_at(i);
        if is_repeated(before, front, cube) {
            return false;
        }
    }
    true
}

/// So many new cubes by their text, whose size stands before it; nothing where there are none.
#[tactic(auto, unfolding(crate::specs::Payload::made_from))]
pub(crate) fn take_made<'a>(
    bytes: &'a [u8],
    alloc: Global,
    before: &[Schema],
    count: usize,
) -> Result<(Vec<Schema>, &'a [u8]), CallError<usize>>
    ensures { (told : List ℕ → Option (List Decl)) → TellsCubes told
        → GivesRead (λ x. (x.0.items, x.1.now)) result (made_from told before.now count bytes.now) }
{
    if count == 0 {
        return Ok((Vec::new(alloc), bytes));
    }
    let (size, rest) = eight_of(bytes)?;
    if (rest.len() as u64) < size {
        return Err(CallError::Fault(rest.len()));
    }
    let (text, behind) = rest.split_at(size as usize);
    match canonical_cubes(alloc, text)? {
        Some(made) => {
            if made.len() == count && are_apart(before, made.as_slice()) {
                Ok((made, behind))
            } else {
                Err(CallError::Fault(rest.len()))
            }
        }
        None => Err(CallError::Fault(rest.len())),
    }
}
