//! A header from its bytes.

ghost use Rattle.std.specs.Prelude.{◌≡◌, ℕ, ◌+◌, ◌≤◌, List, length, take, drop, Option, true, bytes_eq, IfOk, MatchResult};
ghost use Rattle.cube_values.specs.declared.call_error.CallError.TheVariants.{NoMemory};
ghost use Rattle.cube_language.specs.declared.decl.Decl.{Decl as Declaration};
ghost use Rattle.cube_rounds.specs.Bytes.{four_bytes};
ghost use Rattle.cube_rounds.specs.Headers.{header_bytes, BeginsWithHeader};
ghost use Rattle.round_fields.specs.Reading.{GivesRead};
ghost use Rattle.round_fields.specs.Canonical.{TellsCubes};
ghost use Rattle.round_text.specs.HeaderReading.{version_front, header_at_text, is_right_generation, second_of_size, second_header_from, first_header_from, header_from};
ghost use Rattle.sha2.specs.Sha256.{sha256};

use crate::header::{Bytes, Header};
use cube_schema::a_text_declares_or_has_one_fault;
use cube_values::CallError;
use round_fields::{FormatFault, canonical_cubes, digest_in, digest_of, eight_of, four_of};
use std::alloc::Global;

/// What is wrong with a header but for its digest.
const NO_HEADER: FormatFault = FormatFault::BadText { at: 12 };

/// Whether bytes begin as a header of version 1 does, its gate open.
#[tactic(auto, unfolding(cube_rounds::specs::Bytes::four_bytes))]
fn has_version_1(bytes: &[u8]) -> bool
    requires { 12 ≤ length bytes.now }
    ensures { result ≡ bytes_eq (take 12 bytes.now) (version_front 1) }
{
    &bytes[..12] == b"\xa5CUBRICK\x01\x00\x00\x00".as_slice()
}

/// As `has_version_1`, for version 2.
#[tactic(auto, unfolding(cube_rounds::specs::Bytes::four_bytes))]
fn has_version_2(bytes: &[u8]) -> bool
    requires { 12 ≤ length bytes.now }
    ensures { result ≡ bytes_eq (take 12 bytes.now) (version_front 2) }
{
    &bytes[..12] == b"\xa5CUBRICK\x02\x00\x00\x00".as_slice()
}

/// The header whose text begins at `start`, where `left` is left of the bytes.
fn header_of_text(
    alloc: Global,
    bytes: &[u8],
    left: &[u8],
    start: usize,
    size: u32,
    generation: u64,
    right: bool,
) -> Result<Header, CallError<FormatFault>>
    requires first { 1 ≤ start }
    requires left { start + length left.now ≡ length bytes.now }
    ensures { (told : List ℕ → Option (List Declaration)) → TellsCubes told
        → GivesRead (λ h. h) result
        (header_at_text sha256 told bytes.now start size generation right left.now) }
{
    let size = size as usize;
    if left.len() < size + 33 {
        return Err(CallError::Fault(NO_HEADER));
    }
    let (text, behind) = left.split_at(size);
    let kept = digest_in(behind);
    let found = digest_of(&bytes[1..start + size]);
    if kept != found {
        return Err(CallError::Fault(FormatFault::BadDigest { kept, found }));
    }
    if !right || canonical_cubes(alloc, text)?.is_none() {
        return Err(CallError::Fault(NO_HEADER));
    }
    Ok(Header {
        cubes: Bytes::from_vec(Vec::from_slice(alloc, text)?),
        size: (start + size + 33) as u64,
        generation,
    })
}

/// A header of version 2 with a text of this size.
fn second_of_size(
    alloc: Global,
    bytes: &[u8],
    size: u32,
    rest: &[u8],
) -> Result<Header, CallError<FormatFault>>
    requires { length rest.now + 16 ≡ length bytes.now }
    ensures { (told : List ℕ → Option (List Declaration)) → TellsCubes told
        → GivesRead (λ h. h) result (second_of_size sha256 told bytes.now size rest.now) }
{
    match eight_of(rest) {
        Ok((generation, left)) => {
            let right = 1 <= generation && generation <= 1 << 62;
            header_of_text(alloc, bytes, left, 24, size, generation, right)
        }
        Err(CallError::Fault(_)) => Err(CallError::Fault(NO_HEADER)),
        Err(CallError::NoMemory) => Err(CallError::NoMemory),
    }
}

/// A header of version 2.
#[tactic(auto, unfolding(crate::specs::HeaderReading::second_header_from))]
fn second_header(alloc: Global, bytes: &[u8]) -> Result<Header, CallError<FormatFault>>
    requires { 12 ≤ length bytes.now }
    ensures { (told : List ℕ → Option (List Declaration)) → TellsCubes told
        → GivesRead (λ h. h) result (second_header_from sha256 told bytes.now) }
{
    let (_, behind) = bytes.split_at(12);
    match four_of(behind) {
        Ok((size, rest)) => second_of_size(alloc, bytes, size, rest),
        Err(CallError::Fault(_)) => Err(CallError::Fault(NO_HEADER)),
        Err(CallError::NoMemory) => Err(CallError::NoMemory),
    }
}

/// A header of version 1.
#[tactic(auto, unfolding(crate::specs::HeaderReading::first_header_from))]
fn first_header(alloc: Global, bytes: &[u8]) -> Result<Header, CallError<FormatFault>>
    requires { 12 ≤ length bytes.now }
    ensures { (told : List ℕ → Option (List Declaration)) → TellsCubes told
        → GivesRead (λ h. h) result (first_header_from sha256 told bytes.now) }
{
    let (_, behind) = bytes.split_at(12);
    match four_of(behind) {
        Ok((size, left)) => header_of_text(alloc, bytes, left, 16, size, 0, true),
        Err(CallError::Fault(_)) => Err(CallError::Fault(NO_HEADER)),
        Err(CallError::NoMemory) => Err(CallError::NoMemory),
    }
}

/// A header of either version.
#[tactic(auto, unfolding(crate::specs::HeaderReading::header_from))]
fn header_in(alloc: Global, bytes: &[u8]) -> Result<Header, CallError<FormatFault>>
    ensures { (told : List ℕ → Option (List Declaration)) → TellsCubes told
        → GivesRead (λ h. h) result (header_from sha256 told bytes.now) }
{
    if bytes.len() < 12 {
        return Err(CallError::Fault(NO_HEADER));
    }
    if has_version_2(bytes) {
        second_header(alloc, bytes)
    } else if has_version_1(bytes) {
        first_header(alloc, bytes)
    } else {
        Err(CallError::Fault(NO_HEADER))
    }
}

/// The header at the front of the bytes, of version 1 or 2, behind an open gate.
///
/// Where none stands there, it is `BadDigest` where one lies whole with another digest, else
/// `BadText` at 12.
pub fn read_header(alloc: Global, bytes: &[u8]) -> Result<Header, CallError<FormatFault>>
    ensures found { IfOk result (λ h.
        BeginsWithHeader sha256 h.generation h.cubes bytes.now) }
    ensures size { IfOk result (λ h.
        h.size ≡ length (header_bytes sha256 h.generation h.cubes) + 1) }
    ensures only { (generation : ℕ) (text : List ℕ)
        → BeginsWithHeader sha256 generation text bytes.now
        → MatchResult result (λ h. (h.generation ≡ generation) × (h.cubes ≡ text))
        (λ e. e ≡ NoMemory) }
    ensures exact { (told : List ℕ → Option (List Declaration)) → TellsCubes told
        → GivesRead (λ h. h) result (header_from sha256 told bytes.now) }
{
    a_text_declares_or_has_one_fault();
    header_in(alloc, bytes)
}
