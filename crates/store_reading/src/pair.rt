//! Two files.

ghost use Rattle.std.specs.Prelude.{◌≡◌, List, ℕ, Option, Some, IfOk, MatchResult};
ghost use Rattle.cube_values.specs.declared.call_error.CallError.TheVariants.{NoMemory};
ghost use Rattle.cube_language.specs.declared.decl.Decl.{Decl};
ghost use Rattle.cube_rounds.specs.Headers.{IsCanonical};
ghost use Rattle.cube_rounds.specs.Stands.{Kept as KeptData, Stands};
ghost use Rattle.round_fields.specs.Canonical.{TellsCubes};
ghost use Rattle.round_fields.specs.Reading.{GivesRead};
ghost use Rattle.sha2.specs.Sha256.{sha256};
ghost use Rattle.store_reading.specs.Fronts.{HasFrontHeader};
ghost use Rattle.store_reading.specs.Pairs.{unspent, newer_of, current_of, content_from, file_of, pair_content, pair_from, StandsAt};

use crate::fault::PairFault;
use crate::front::front_of;
use crate::kept::Kept;
use crate::rounds::rounds_of;
use cube_schema::{Schemas, a_text_declares_or_has_one_fault};
use cube_values::CallError;
use round_fields::canonical_cubes;
use round_text::Header;
use std::alloc::{AllocError, Global};

/// Where a store goes on: which of its two files is current, of which generation, and the place of the
/// gate that is shut behind its last round.
#[derive(Clone, Copy, Debug, PartialEq, Eq)]
pub struct StorePlace {
    /// Whether the second file is the current one.
    pub second: bool,
    /// 0 under version 1.
    pub generation: u64,
    pub end: u64,
}

/// What two files keep, and where the store goes on.
#[derive(Debug, Drop)]
pub struct OpenedPair {
    pub kept: Kept,
    pub place: StorePlace,
}

/// The current file, where a generation can follow its own.
fn unspent(second: bool, header: Header) -> Result<(bool, Header), PairFault>
    ensures { result ≡ unspent second header }
{
    if header.generation > 1 << 61 {
        return Err(PairFault::GenerationsSpent {
            generation: header.generation,
        });
    }
    Ok((second, header))
}

/// Of two files that are not closed, the current one.
fn newer_of(first: Header, second: Header) -> Result<(bool, Header), PairFault>
    ensures { result ≡ newer_of first second }
{
    if first.generation == second.generation {
        return Err(PairFault::TwoGenerations {
            generation: first.generation,
        });
    }
    if first.generation < second.generation {
        unspent(true, second)
    } else {
        unspent(false, first)
    }
}

/// The current file of two.
fn current_of(first: Option<Header>, second: Option<Header>) -> Result<(bool, Header), PairFault>
    ensures { result ≡ current_of first second }
{
    match (first, second) {
        (Some(first), Some(second)) => newer_of(first, second),
        (Some(first), None) => unspent(false, first),
        (None, Some(second)) => unspent(true, second),
        (None, None) => Err(PairFault::NotAStore),
    }
}

/// The cubes of their canonical text.
pub fn declared_cubes(alloc: Global, text: &[u8]) -> Result<Schemas, AllocError>
    requires { (cubes : List Decl) × IsCanonical text.now cubes }
    ensures told { (told : List ℕ → Option (List Decl)) → TellsCubes told
        → IfOk result (λ cubes. told text.now ≡ Some cubes) }
    ensures canonical { IfOk result (IsCanonical text.now) }
{
    a_text_declares_or_has_one_fault();
    match canonical_cubes(alloc, text)? {
        Some(cubes) => Ok(Schemas::from_vec(cubes)),
        None => unreachable!(),
    }
}

/// The content of the current file.
fn content_of(
    alloc: Global,
    current: (bool, Header),
    file: &[u8],
) -> Result<OpenedPair, CallError<PairFault>>
    requires begins { HasFrontHeader sha256 file.now current.1 }
    ensures { (told : List ℕ → Option (List Decl)) → TellsCubes told
        → GivesRead (λ o. pair_content o.kept o.place) result
        (content_from sha256 told current file.now) }
{
    let (second, header) = current;
    let cubes = declared_cubes(alloc, header.cubes.as_slice())?;
    let begun = Kept::of_cubes(alloc, cubes)?;
    let (_, bytes) = file.split_at(header.size as usize - 1);
    let (kept, left) = rounds_of(alloc, file.len(), begun, bytes)?;
    Ok(OpenedPair {
        kept,
        place: StorePlace {
            second,
            generation: header.generation,
            end: (file.len() - left.len()) as u64,
        },
    })
}

/// One of two files.
fn file_of<'a>(second: bool, first: &'a [u8], other: &'a [u8]) -> &'a [u8]
    ensures { result.now ≡ file_of second first.now other.now }
{
    if second { other } else { first }
}

/// The content of two files.
fn content_of_pair(
    alloc: Global,
    first: &[u8],
    second: &[u8],
) -> Result<OpenedPair, CallError<PairFault>>
    ensures { (told : List ℕ → Option (List Decl)) → TellsCubes told
        → GivesRead (λ o. pair_content o.kept o.place) result
        (pair_from sha256 told first.now second.now) }
{
    let first_header = front_of(alloc, first)?;
    let second_header = front_of(alloc, second)?;
    match current_of(first_header, second_header) {
        Ok(current) => {
            let file = file_of(current.0, first, second);
            content_of(alloc, current, file)
        }
        Err(fault) => Err(CallError::Fault(fault)),
    }
}

/// What two files keep: the rounds of the current one, which has the greater generation, up to its
/// first gate that is shut.
///
/// The first fault that applies is answered: neither file is a store's; a version or a fault of a
/// header, the first file before the second; one generation in both; a generation that none can
/// follow; a fault of the first round of the current file that has one. Of the other file only the
/// header counts. It takes time by the number of bytes.
pub fn read_pair(
    alloc: Global,
    first: &[u8],
    second: &[u8],
) -> Result<OpenedPair, CallError<PairFault>>
    ensures found { IfOk result (λ o. StandsAt sha256 (pair_content o.kept o.place)
        (file_of o.place.second first.now second.now)
        (file_of o.place.second second.now first.now)) }
    ensures only { (kept : KeptData) → Stands sha256 kept first.now second.now
        → MatchResult result (λ o. o.kept ≡ kept) (λ e. e ≡ NoMemory) }
    ensures exact { (told : List ℕ → Option (List Decl)) → TellsCubes told
        → GivesRead (λ o. pair_content o.kept o.place) result
        (pair_from sha256 told first.now second.now) }
{
    a_text_declares_or_has_one_fault();
    content_of_pair(alloc, first, second)
}
