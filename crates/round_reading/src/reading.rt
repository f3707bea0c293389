//! A round from its bytes.

ghost use Rattle.std.specs.Prelude.{◌≡◌, ℕ, ◌+◌, ◌&&◌, List, length, nat_le, All, Option, Ok, IfOk, MatchResult};
ghost use Rattle.cube_values.specs.declared.call_error.CallError.TheVariants.{NoMemory};
ghost use Rattle.cube_language.specs.declared.decl.Decl.{Decl as Declaration};
ghost use Rattle.cube_language.specs.declared.decl.TheConstants.{MOST_CUBES};
ghost use Rattle.cube_language.specs.Cubes.{IsStorable};
ghost use Rattle.cube_rounds.specs.declared.round.Round.{Round as ARound};
ghost use Rattle.cube_rounds.specs.Bytes.{round_bytes};
ghost use Rattle.cube_rounds.specs.Demands.{HaveDims, BeginsWithRound};
ghost use Rattle.round_fields.specs.Canonical.{TellsCubes};
ghost use Rattle.round_fields.specs.Reading.{GivesRead, with_test, eight_from};
ghost use Rattle.round_reading.specs.Payload.{payload_content, payload_from};
ghost use Rattle.round_reading.specs.RoundReading.{front_from, round_behind, round_from};
ghost use Rattle.sha2.specs.Sha256.{sha256};

use crate::cubes::{no_names_of, take_cubes};
use crate::entries::RoundEpochs;
use crate::front::RoundFront;
use crate::made::take_made;
use cube_language::{Decl, MOST_CUBES};
use cube_rounds::{Round, RoundCubes};
use cube_schema::{Schema, a_text_declares_or_has_one_fault};
use cube_values::{CallError, NameLists, Sequence};
use round_fields::{FormatFault, digest_in, digest_of, eight_of};
use std::alloc::{AllocError, Global};

/// The numbers before a payload.
#[tactic(auto, unfolding(crate::specs::RoundReading::front_from))]
fn front_of(bytes: &[u8]) -> Result<(RoundFront, &[u8]), CallError<usize>>
    ensures { GivesRead (λ x. (x.0, x.1.now)) result (front_from bytes.now) }
{
    let (epoch, rest) = eight_of(bytes)?;
    let (from, rest) = eight_of(rest)?;
    let (size, rest) = eight_of(rest)?;
    Ok((RoundFront { epoch, from, size }, rest))
}

/// How many cubes there are with the new ones.
fn cubes_count(bytes: &[u8], before: usize) -> Result<(u64, &[u8]), CallError<usize>>
    ensures { GivesRead (λ x. (x.0, x.1.now)) result
        (with_test (λ n. nat_le before n && nat_le n MOST_CUBES) eight_from bytes.now) }
{
    let (count, rest) = eight_of(bytes)?;
    if count < before as u64 || count > MOST_CUBES as u64 {
        return Err(CallError::Fault(bytes.len()));
    }
    Ok((count, rest))
}

fn copy_of(decl: &Decl) -> Result<Decl, AllocError>
    ensures { IfOk result (λ copy. copy ≡ decl.now) }
{
    decl.clone()
}

/// The declarations of new cubes.
fn decls_of(alloc: Global, schemas: &[Schema]) -> Result<Sequence<Decl>, AllocError>
    ensures { IfOk result (λ decls. decls ≡ schemas.now) }
{
    let mut decls = Sequence::new(alloc);
    'schemas: for schema in schemas {
        decls.push(copy_of(schema.decl())?)?;
    }
    Ok(decls)
}

/// What a payload has, and nothing is left of it.
#[tactic(auto, unfolding(crate::specs::Payload::payload_from))]
fn payload_of(
    alloc: Global,
    bytes: &[u8],
    cubes: &[Schema],
    names: &NameLists,
    epochs: RoundEpochs,
) -> Result<(Sequence<Decl>, RoundCubes), CallError<usize>>
    requires { HaveDims cubes.now names.now }
    ensures { (told : List ℕ → Option (List Declaration)) → TellsCubes told
        → GivesRead (λ x. payload_content x.0 x.1) result
        (payload_from told cubes.now names.now epochs.from epochs.epoch bytes.now) }
{
    let (count, rest) = cubes_count(bytes, cubes.len())?;
    let (made, rest) = take_made(rest, alloc, cubes, count as usize - cubes.len())?;
    let mut parts = Vec::new(alloc);
    let rest = take_cubes(rest, alloc, cubes, names.as_slice(), epochs, &mut parts)?;
    let new_names = no_names_of(alloc, made.as_slice())?;
    let rest = take_cubes(
        rest,
        alloc,
        made.as_slice(),
        new_names.as_slice(),
        epochs,
        &mut parts,
    )?;
    if !rest.is_empty() {
        return Err(CallError::Fault(rest.len()));
    }
    Ok((
        decls_of(alloc, made.as_slice())?,
        RoundCubes::from_vec(parts),
    ))
}

/// A round by its first numbers, where `rest` is left of the bytes behind them.
fn round_behind(
    alloc: Global,
    bytes: &[u8],
    front: RoundFront,
    rest: &[u8],
    cubes: &[Schema],
    names: &NameLists,
) -> Result<(Round, usize), CallError<FormatFault>>
    requires dims { HaveDims cubes.now names.now }
    requires rest { length rest.now + 24 ≡ length bytes.now }
    ensures { (told : List ℕ → Option (List Declaration)) → TellsCubes told
        → GivesRead (λ x. x) result
        (round_behind sha256 told cubes.now names.now bytes.now (Ok (front, rest.now))) }
{
    let epochs = RoundEpochs {
        from: front.from,
        epoch: front.epoch,
    };
    if epochs.from >= epochs.epoch || epochs.epoch >= 1 << 63 {
        return Err(CallError::Fault(FormatFault::BadText { at: 0 }));
    }
    let left = rest.len() as u64;
    if left < 33 || left - 33 < front.size {
        return Err(CallError::Fault(FormatFault::BadText { at: 0 }));
    }
    let size = front.size as usize;
    let (payload, behind) = rest.split_at(size);
    let kept = digest_in(behind);
    let found = digest_of(&bytes[..size + 24]);
    if kept != found {
        return Err(CallError::Fault(FormatFault::BadDigest { kept, found }));
    }
    match payload_of(alloc, payload, cubes, names, epochs) {
        Ok((made, parts)) => Ok((
            Round {
                from: epochs.from,
                epoch: epochs.epoch,
                made,
                cubes: parts,
            },
            size + 57,
        )),
        Err(CallError::Fault(left)) => Err(CallError::Fault(FormatFault::BadText {
            at: (size + 24).saturating_sub(left) as u64,
        })),
        Err(CallError::NoMemory) => Err(CallError::NoMemory),
    }
}

/// The round at the front of the bytes, and how many bytes it has.
#[tactic(auto, unfolding(crate::specs::RoundReading::round_from))]
fn round_in(
    alloc: Global,
    bytes: &[u8],
    cubes: &[Schema],
    names: &NameLists,
) -> Result<(Round, usize), CallError<FormatFault>>
    requires { HaveDims cubes.now names.now }
    ensures { (told : List ℕ → Option (List Declaration)) → TellsCubes told
        → GivesRead (λ x. x) result (round_from sha256 told cubes.now names.now bytes.now) }
{
    match front_of(bytes) {
        Ok((front, rest)) => round_behind(alloc, bytes, front, rest, cubes, names),
        Err(CallError::Fault(_)) => Err(CallError::Fault(FormatFault::BadText { at: 0 })),
        Err(CallError::NoMemory) => Err(CallError::NoMemory),
    }
}

/// Each of the cubes can be stored, since schemas can.
fn are_storable(cubes: &[Schema])
    ensures { All IsStorable cubes.now }
{
    'cubes: for cube in cubes {
        cube.decl();
    }
}

/// The round at the front of the bytes, and how many bytes it has, the gate behind it included. `cubes` are
/// the cubes before it and `names` their names so far.
///
/// Where no round stands there, `BadText` has the place of the first part that breaks a rule: 0 for the numbers
/// before the payload and for bytes that do not hold the round whole, else a place in the payload. `BadDigest` comes
/// where those are right and the digest is another. It takes time by the number of bytes and of names.
pub fn read_round(
    alloc: Global,
    bytes: &[u8],
    cubes: &[Schema],
    names: &NameLists,
) -> Result<(Round, usize), CallError<FormatFault>>
    requires { HaveDims cubes.now names.now }
    ensures found { IfOk result (λ x.
        BeginsWithRound sha256 cubes.now names.now x.0 bytes.now) }
    ensures size { IfOk result (λ x.
        x.1 ≡ length (round_bytes sha256 cubes.now x.0) + 1) }
    ensures only { (round : ARound)
        → BeginsWithRound sha256 cubes.now names.now round bytes.now
        → MatchResult result (λ x. x.0 ≡ round) (λ e. e ≡ NoMemory) }
    ensures exact { (told : List ℕ → Option (List Declaration)) → TellsCubes told
        → GivesRead (λ x. x) result (round_from sha256 told cubes.now names.now bytes.now) }
{
    a_text_declares_or_has_one_fault();
    are_storable(cubes);
    round_in(alloc, bytes, cubes, names)
}
