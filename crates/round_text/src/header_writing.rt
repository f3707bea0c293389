//! A header as bytes.

ghost use Rattle.std.specs.Prelude.{◌≡◌, ◌≤◌, ◌<◌, ◌^◌, ◌++◌, [], ◌∷◌, length, IfOk};
ghost use Rattle.cube_rounds.specs.Headers.{shut_gate, head_bytes, header_bytes, FitsHeader};
ghost use Rattle.sha2.specs.Sha256.{sha256};

use crate::put::{put_eight, put_four};
use round_fields::digest_of;
use std::alloc::{AllocError, Global};

/// A gate that is open, and one that is shut.
pub(crate) const OPEN_GATE: u8 = 0xa5;

pub(crate) const SHUT_GATE: u8 = 0;

/// What the header of a store begins with, behind its gate.
pub(crate) const MAGIC: &[u8; 7] = b"CUBRICK";

/// What a header of version 2 has between its gate and its digest.
fn head_of(alloc: Global, generation: u64, cubes: &[u8]) -> Result<Vec<u8>, AllocError>
    requires first { 1 ≤ generation }
    requires long { length cubes.now < 2 ^ 32 }
    ensures { IfOk result (λ head. head.items ≡ head_bytes generation cubes.now) }
{
    let mut head = Vec::with_capacity(alloc, cubes.len().saturating_add(23))?;
    head.extend_from_slice(MAGIC)?;
    put_four(&mut head, 2)?;
    put_four(&mut head, cubes.len() as u32)?;
    put_eight(&mut head, generation)?;
    head.extend_from_slice(cubes)?;
    Ok(head)
}

/// The bytes of a header of version 2, behind an open gate and with a gate that is shut behind it. `cubes`
/// is the canonical text of some cubes.
#[tactic(auto, unfolding(cube_rounds::specs::Headers::header_bytes))]
pub fn write_header(alloc: Global, generation: u64, cubes: &[u8]) -> Result<Vec<u8>, AllocError>
    requires first { 1 ≤ generation }
    requires fits { FitsHeader generation cubes.now }
    ensures { IfOk result (λ out.
        out.items ≡ header_bytes sha256 generation cubes.now ++ shut_gate ∷ []) }
{
    let head = head_of(alloc, generation, cubes)?;
    let digest = digest_of(head.as_slice());
    let mut out = Vec::with_capacity(alloc, head.len().saturating_add(34))?;
    out.push(OPEN_GATE)?;
    out.extend_from_slice(head.as_slice())?;
    out.extend_from_slice(&digest)?;
    out.push(SHUT_GATE)?;
    Ok(out)
}
