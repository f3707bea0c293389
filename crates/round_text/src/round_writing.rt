//! A round as bytes.

ghost use Rattle.std.specs.Prelude.{◌≡◌, ◌+◌, ◌-◌, ◌≤◌, ◌<◌, ◌^◌, ◌++◌, [], ◌∷◌, List, length, take, drop, All, slice_get, Some, OnOk, IfOk};
ghost use Rattle.std.specs.List.{flat_map, zip, AllZip};
ghost use Rattle.cube_language.specs.Cubes.{cubes_text, IsStorable};
ghost use Rattle.cube_language.specs.CubesText.{Declares};
ghost use Rattle.cube_rounds.specs.Bytes.{eight_bytes, names_bytes, cube_bytes, made_bytes, payload_bytes, body_bytes, round_bytes};
ghost use Rattle.cube_rounds.specs.Demands.{DimNames, FitsRound};
ghost use Rattle.cube_rounds.specs.Headers.{shut_gate};
ghost use Rattle.round_text.specs.Writing.{AreShort, HasNames};
ghost use Rattle.sha2.specs.Sha256.{sha256};

use crate::header_writing::SHUT_GATE;
use crate::put::{put_bricks, put_eight, put_names};
use cube_language::{Decl, DimDecl};
use cube_rounds::{Round, RoundCube};
use cube_schema::{Schema, check, print_cubes};
use cube_values::{CallError, Text, Texts};
use round_fields::digest_of;
use std::alloc::{AllocError, Global};

/// Puts the new names of a dimension.
fn put_dim(out: &mut Vec<u8>, dim: &DimDecl, names: &[Text]) -> Result<(), AllocError>
    requires { All (λ name. length name < 2 ^ 8) names.now }
    ensures { OnOk result (out.new.items ≡ out.old.items ++ names_bytes dim.now names.now) }
{
    if dim.text {
        put_names(out, names)
    } else {
        Ok(())
    }
}

/// Puts the new names of each dimension.
fn put_dims(out: &mut Vec<u8>, dims: &[DimDecl], lists: &[Texts]) -> Result<(), AllocError>
    requires dims { length lists.now ≡ length dims.now }
    requires short { AreShort lists.now }
    ensures { OnOk result (out.new.items
        ≡ out.old.items ++ flat_map (λ d. names_bytes d.0 d.1) (zip dims.now lists.now)) }
{
    'dims: for (i, dim) in dims.iter().enumerate() {
        put_dim(out, dim, lists[i].as_slice())?;
    }
    Ok(())
}

/// Puts what a round has of a cube.
fn put_cube(out: &mut Vec<u8>, cube: &Decl, part: &RoundCube) -> Result<(), AllocError>
    requires { HasNames cube.now part.now }
    ensures { OnOk result (out.new.items ≡ out.old.items ++ cube_bytes cube.now part.now) }
{
    put_dims(out, cube.dims.as_slice(), part.names.as_slice())?;
    put_bricks(out, part.bricks.as_slice())
}

/// A declaration that can be stored as a schema.
fn schema_of(alloc: Global, cube: &Decl) -> Result<Schema, AllocError>
    requires { IsStorable cube.now }
    ensures { IfOk result (λ schema. schema ≡ cube.now) }
{
    match check(alloc, cube) {
        Ok(schema) => Ok(schema),
        Err(CallError::Fault(_)) => unreachable!(),
        Err(CallError::NoMemory) => Err(AllocError),
    }
}

/// The cubes before a round, and those made in it, as schemas.
fn schemas_of(alloc: Global, made: &[Decl]) -> Result<Vec<Schema>, AllocError>
    requires { All IsStorable made.now }
    ensures { IfOk result (λ schemas. schemas.items ≡ made.now) }
{
    let mut schemas = Vec::new(alloc);
    'cubes: for cube in made {
        schemas.push(schema_of(alloc, cube)?)?;
    }
    Ok(schemas)
}

/// Puts the new cubes by their text, its length before it.
fn put_made(out: &mut Vec<u8>, alloc: Global, made: &[Decl]) -> Result<(), AllocError>
    requires { Declares (cubes_text made.now) made.now }
    ensures { OnOk result (out.new.items ≡ out.old.items ++ made_bytes made.now) }
{
    if made.is_empty() {
        return Ok(());
    }
    let schemas = schemas_of(alloc, made)?;
    let text = print_cubes(alloc, schemas.as_slice())?;
    put_eight(out, text.len() as u64)?;
    out.extend_from_slice(text.as_slice())
}

/// Cube `i` of those before a round and those made in it.
fn cube_at<'a>(before: &'a [Schema], made: &'a [Decl], i: usize) -> &'a Decl
    requires { i < length before.now + length made.now }
    ensures { slice_get (before.now ++ made.now) i ≡ Some result.now }
{
    if i < before.len() {
        before[i].decl()
    } else {
        &made[i - before.len()]
    }
}

/// About how many bytes a round has, so that its buffer seldom grows.
fn room_for(round: &Round) -> usize {
    let mut room = 64usize;
    for cube in round.cubes.as_slice() {
        for brick in cube.bricks.as_slice() {
            let rows = brick.rows();
            let row = rows
                .dims()
                .saturating_mul(4)
                .saturating_add(rows.width().saturating_mul(8));
            room = room.saturating_add(rows.len().saturating_mul(row));
            room = room.saturating_add(brick.entries().len().saturating_mul(17));
            room = room.saturating_add(16);
        }
        room = room.saturating_add(room_for_names(cube.names.as_slice()));
    }
    room
}

fn room_for_names(lists: &[Texts]) -> usize {
    let mut room = 8usize;
    for names in lists {
        for name in names.as_slice() {
            room = room.saturating_add(name.len()).saturating_add(1);
        }
        room = room.saturating_add(8);
    }
    room
}

/// Puts what a round has of each cube.
fn put_cubes(
    out: &mut Vec<u8>,
    before: &[Schema],
    made: &[Decl],
    parts: &[RoundCube],
) -> Result<(), AllocError>
    requires { AllZip HasNames (before.now ++ made.now) parts.now }
    ensures { OnOk result (out.new.items ≡ out.old.items
        ++ flat_map (λ c. cube_bytes c.0 c.1) (zip (before.now ++ made.now) parts.now)) }
{
    'cubes: for (i, part) in parts.iter().enumerate() {
        put_cube(out, cube_at(before, made, i), part)?;
    }
    Ok(())
}

/// Puts the payload of a round.
fn put_payload(
    out: &mut Vec<u8>,
    alloc: Global,
    round: &Round,
    cubes: &[Schema],
) -> Result<(), AllocError>
    requires made { Declares (cubes_text round.now.made) round.now.made }
    requires names { AllZip HasNames (cubes.now ++ round.now.made) round.now.cubes }
    ensures { OnOk result (out.new.items ≡ out.old.items ++ payload_bytes cubes.now round.now) }
{
    let made = round.made.as_slice();
    put_eight(out, cubes.len() as u64 + made.len() as u64)?;
    put_made(out, alloc, made)?;
    put_cubes(out, cubes, made, round.cubes.as_slice())?;
    Ok(())
}

/// The numbers before a payload, with 0 for its length.
fn front_of(alloc: Global, round: &Round) -> Result<Vec<u8>, AllocError>
    ensures { IfOk result (λ out. out.items
        ≡ (eight_bytes round.now.epoch ++ eight_bytes round.now.from) ++ eight_bytes 0) }
{
    // Before the payload stand 24 bytes, and behind it the 32 of the digest and the gate.
    let mut out = Vec::with_capacity(alloc, room_for(round).saturating_add(57))?;
    put_eight(&mut out, round.epoch)?;
    put_eight(&mut out, round.from)?;
    put_eight(&mut out, 0)?;
    Ok(out)
}

/// Puts how many bytes stand behind the first 24 over the last eight of these.
#[tactic(auto, unfolding(cube_rounds::specs::Bytes::eight_bytes))]
fn set_length(out: &mut Vec<u8>)
    requires { 24 ≤ length out.old.items }
    ensures { out.new.items ≡ take 16 out.old.items
        ++ (eight_bytes (length out.old.items - 24) ++ drop 24 out.old.items) }
{
    let size = (out.len() - 24) as u64;
    out[16..24].copy_from_slice(&size.to_le_bytes());
}

/// The numbers before a payload, and the payload, built in one buffer.
fn body_of(alloc: Global, round: &Round, cubes: &[Schema]) -> Result<Vec<u8>, AllocError>
    requires made { Declares (cubes_text round.now.made) round.now.made }
    requires names { AllZip HasNames (cubes.now ++ round.now.made) round.now.cubes }
    ensures { IfOk result (λ out. out.items ≡ body_bytes cubes.now round.now) }
{
    let mut out = front_of(alloc, round)?;
    put_payload(&mut out, alloc, round, cubes)?;
    set_length(&mut out);
    Ok(out)
}

/// The bytes of a round behind these cubes, with its digest and a gate that is shut behind it. The round may
/// stand behind the cubes and some names. It takes time by the number of bytes.
#[tactic(auto, unfolding(cube_rounds::specs::Bytes::round_bytes))]
pub fn write_round(alloc: Global, round: &Round, cubes: &[Schema]) -> Result<Vec<u8>, AllocError>
    requires { (names : List DimNames) × FitsRound cubes.now names round.now }
    ensures { IfOk result (λ out.
        out.items ≡ round_bytes sha256 cubes.now round.now ++ shut_gate ∷ []) }
{
    let mut out = body_of(alloc, round, cubes)?;
    let digest = digest_of(out.as_slice());
    out.extend_from_slice(&digest)?;
    out.push(SHUT_GATE)?;
    Ok(out)
}
