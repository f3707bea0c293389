//! The rounds of one file.

ghost use Rattle.std.specs.Prelude.{◌≡◌, ◌+◌, ◌≤◌, ◌<◌, ◌^◌, length, List, ℕ, Option, IfOk, IfSome};
ghost use Rattle.cube_language.specs.declared.decl.Decl.{Decl};
ghost use Rattle.cube_rounds.specs.Demands.{HaveDims};
ghost use Rattle.round_fields.specs.Canonical.{TellsCubes};
ghost use Rattle.round_fields.specs.Reading.{GivesRead};
ghost use Rattle.sha2.specs.Sha256.{sha256};
ghost use Rattle.store_reading.specs.Rounds.{begins_at, following_from, next_from, rounds_from, rounds_end, IsReadable, IsNextRound};

use crate::fault::{PairFault, round_fault};
use crate::kept::Kept;
use cube_rounds::Round;
use cube_schema::a_text_declares_or_has_one_fault;
use cube_values::CallError;
use round_fields::eight_of;
use round_reading::read_round;
use std::alloc::{AllocError, Global};

/// A gate that is open.
const OPEN_GATE: u8 = 0xa5;

/// Whether a round's bytes say that it begins at this epoch.
fn begins_at(bytes: &[u8], epoch: u64) -> Result<bool, AllocError>
    ensures { IfOk result (λ says. says ≡ begins_at epoch bytes.now) }
{
    let (_, rest) = bytes.split_at(bytes.len().min(8));
    match eight_of(rest) {
        Ok((from, _)) => Ok(from == epoch),
        Err(CallError::Fault(_)) => Ok(false),
        Err(CallError::NoMemory) => Err(AllocError),
    }
}

/// The round at the front of the bytes, which begin at a place of their file.
fn following_round(
    alloc: Global,
    kept: &Kept,
    start: u64,
    bytes: &[u8],
) -> Result<Option<(Round, usize)>, CallError<PairFault>>
    requires place { start + length bytes.now < 2 ^ 64 }
    requires number { length kept.now.rounds + 1 < 2 ^ 64 }
    requires dims { HaveDims kept.now.cubes kept.now.names }
    ensures exact { (told : List ℕ → Option (List Decl)) → TellsCubes told
        → GivesRead (λ x. x) result (following_from sha256 told kept.now start bytes.now) }
{
    a_text_declares_or_has_one_fault();
    if !begins_at(bytes, kept.epoch)? {
        return Err(CallError::Fault(PairFault::Damaged { at: start }));
    }
    match read_round(alloc, bytes, kept.cubes.as_slice(), &kept.names) {
        Ok(round) => Ok(Some(round)),
        Err(CallError::Fault(fault)) => {
            let number = kept.rounds.len() as u64 + 1;
            Err(CallError::Fault(round_fault(number, start, fault)))
        }
        Err(CallError::NoMemory) => Err(CallError::NoMemory),
    }
}

/// The round behind the gate at the front of what is left of a file of this size, and how many bytes
/// there are from this gate to the next; none where the gate is shut.
#[tactic(auto, unfolding(crate::specs::Rounds::next_from))]
fn next_round(
    alloc: Global,
    size: usize,
    kept: &Kept,
    left: &[u8],
) -> Result<Option<(Round, usize)>, CallError<PairFault>>
    requires size { length kept.now.rounds + length left.now ≤ size }
    requires small { size < 2 ^ 63 }
    requires readable { IsReadable kept.now }
    ensures exact { (told : List ℕ → Option (List Decl)) → TellsCubes told
        → GivesRead (λ x. x) result (next_from sha256 told size kept.now left.now) }
{
    let [gate, bytes @ ..] = left else {
        return Ok(None);
    };
    if *gate != OPEN_GATE {
        return Ok(None);
    }
    following_round(alloc, kept, (size - bytes.len()) as u64, bytes)
}

/// The same, with what is known of a round that is there.
fn found_round(
    alloc: Global,
    size: usize,
    kept: &Kept,
    left: &[u8],
) -> Result<Option<(Round, usize)>, CallError<PairFault>>
    requires size { length kept.now.rounds + length left.now ≤ size }
    requires small { size < 2 ^ 63 }
    requires readable { IsReadable kept.now }
    ensures exact { (told : List ℕ → Option (List Decl)) → TellsCubes told
        → GivesRead (λ x. x) result (next_from sha256 told size kept.now left.now) }
    ensures found { IfOk result (λ next. IfSome next (IsNextRound sha256 kept.now left.now)) }
{
    a_text_declares_or_has_one_fault();
    next_round(alloc, size, kept, left)
}

/// What is kept with the rounds of a file of this size from here on, up to the first gate that is
/// shut, and what is left.
pub(crate) fn rounds_of<'a>(
    alloc: Global,
    size: usize,
    begun: Kept,
    bytes: &'a [u8],
) -> Result<(Kept, &'a [u8]), CallError<PairFault>>
    requires size { length begun.rounds + length bytes.now ≤ size }
    requires small { size < 2 ^ 63 }
    requires readable { IsReadable begun }
    ensures exact { (told : List ℕ → Option (List Decl)) → TellsCubes told
        → GivesRead (λ x. rounds_end x.0 x.1.now) result
        (rounds_from sha256 told size size begun bytes.now) }
    ensures within { IfOk result (λ x. length x.1.now ≤ size) }
{
    let mut kept = begun;
    let mut left = bytes;
    'rounds: while let Some((round, n)) = found_round(alloc, size, &kept, left)? {
        let (_, behind) = left.split_at(n);
        left = behind;
        kept = kept.with_round(alloc, round)?;
    }
    Ok((kept, left))
}
