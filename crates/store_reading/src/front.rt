//! The header of one file.

ghost use Rattle.std.specs.Prelude.{◌≡◌, ◌≤◌, ◌+◌, length, List, ℕ, Option, IfOk, IfSome};
ghost use Rattle.cube_language.specs.declared.decl.Decl.{Decl};
ghost use Rattle.cube_rounds.specs.Headers.{BeginsWithHeader, header_bytes};
ghost use Rattle.round_fields.specs.Canonical.{TellsCubes};
ghost use Rattle.round_fields.specs.Reading.{GivesRead};
ghost use Rattle.sha2.specs.Sha256.{sha256};
ghost use Rattle.store_reading.specs.Fronts.{is_closed, header_or_closed, opened_front, HasFrontHeader};

use crate::fault::{PairFault, header_fault};
use cube_values::CallError;
use round_fields::four_of;
use round_text::{Header, read_header};
use std::alloc::Global;

/// Whether a file is too short for a header, or has a gate that is shut, or is of another kind.
fn is_closed(file: &[u8]) -> bool
    ensures { result ≡ is_closed file.now }
{
    file.len() < 16 || &file[..8] != b"\xa5CUBRICK".as_slice()
}

/// The header of a file of a known version.
fn opened_front(alloc: Global, file: &[u8]) -> Result<Option<Header>, CallError<PairFault>>
    requires { 16 ≤ length file.now }
    ensures exact { (told : List ℕ → Option (List Decl)) → TellsCubes told
        → GivesRead (λ h. h) result (opened_front sha256 told file.now) }
    ensures found { IfOk result (λ o. IfSome o (HasFrontHeader sha256 file.now)) }
{
    let (_, rest) = file.split_at(8);
    match four_of(rest) {
        Ok((version, _)) => {
            if version != 1 && version != 2 {
                return Err(CallError::Fault(PairFault::Version { found: version }));
            }
        }
        Err(CallError::Fault(_)) => return Err(CallError::Fault(PairFault::NotAStore)),
        Err(CallError::NoMemory) => return Err(CallError::NoMemory),
    }
    match read_header(alloc, file) {
        Ok(header) => Ok(Some(header)),
        Err(CallError::Fault(fault)) => Err(CallError::Fault(header_fault(fault))),
        Err(CallError::NoMemory) => Err(CallError::NoMemory),
    }
}

/// The header of a file, and none where the file is closed.
pub(crate) fn front_of(alloc: Global, file: &[u8]) -> Result<Option<Header>, CallError<PairFault>>
    ensures exact { (told : List ℕ → Option (List Decl)) → TellsCubes told
        → GivesRead (λ h. h) result (header_or_closed sha256 told file.now) }
    ensures found { IfOk result (λ o. IfSome o (HasFrontHeader sha256 file.now)) }
{
    if is_closed(file) {
        return Ok(None);
    }
    opened_front(alloc, file)
}
