//! Numbers and names at the front of bytes.

ghost use Rattle.std.specs.Prelude.{◌≡◌, ◌&&◌, nat_lt, nat_le};
ghost use Rattle.round_fields.specs.Reading.{GivesRead, with_test, byte_from, four_from, eight_from, signed_from, short_from};

use cube_values::CallError;

/// A number of four bytes.
#[inline(always)]
#[tactic(auto, unfolding(crate::specs::Reading::four_from))]
pub fn four_of(bytes: &[u8]) -> Result<(u32, &[u8]), CallError<usize>>
    ensures { GivesRead (λ x. (x.0, x.1.now)) result (four_from bytes.now) }
{
    if bytes.len() < 4 {
        return Err(CallError::Fault(bytes.len()));
    }
    let (front, rest) = bytes.split_at(4);
    let number = u32::from_le_bytes([front[0], front[1], front[2], front[3]]);
    Ok((number, rest))
}

/// A number of eight bytes.
#[inline(always)]
#[tactic(auto, unfolding(crate::specs::Reading::eight_from))]
pub fn eight_of(bytes: &[u8]) -> Result<(u64, &[u8]), CallError<usize>>
    ensures { GivesRead (λ x. (x.0, x.1.now)) result (eight_from bytes.now) }
{
    if bytes.len() < 8 {
        return Err(CallError::Fault(bytes.len()));
    }
    let (front, rest) = bytes.split_at(8);
    let number = u64::from_le_bytes([
        front[0], front[1], front[2], front[3], front[4], front[5], front[6], front[7],
    ]);
    Ok((number, rest))
}

/// A number with a sign.
#[inline(always)]
#[tactic(auto, unfolding(crate::specs::Reading::signed_from))]
pub fn signed_of(bytes: &[u8]) -> Result<(i64, &[u8]), CallError<usize>>
    ensures { GivesRead (λ x. (x.0, x.1.now)) result (signed_from bytes.now) }
{
    if bytes.len() < 8 {
        return Err(CallError::Fault(bytes.len()));
    }
    let (front, rest) = bytes.split_at(8);
    let number = i64::from_le_bytes([
        front[0], front[1], front[2], front[3], front[4], front[5], front[6], front[7],
    ]);
    Ok((number, rest))
}

/// A number that is not 0.
pub fn count_of(bytes: &[u8]) -> Result<(u64, &[u8]), CallError<usize>>
    ensures { GivesRead (λ x. (x.0, x.1.now)) result (with_test (nat_lt 0) eight_from bytes.now) }
{
    let (count, rest) = eight_of(bytes)?;
    if count == 0 {
        return Err(CallError::Fault(bytes.len()));
    }
    Ok((count, rest))
}

/// A number from `least` on and below `end`.
pub fn number_within(bytes: &[u8], least: u64, end: u64) -> Result<(u64, &[u8]), CallError<usize>>
    ensures { GivesRead (λ x. (x.0, x.1.now)) result
        (with_test (λ n. nat_le least n && nat_lt n end) eight_from bytes.now) }
{
    let (number, rest) = eight_of(bytes)?;
    if number < least || end <= number {
        return Err(CallError::Fault(bytes.len()));
    }
    Ok((number, rest))
}

/// The first byte of an entry.
pub fn kind_of(bytes: &[u8]) -> Result<(u8, &[u8]), CallError<usize>>
    ensures { GivesRead (λ x. (x.0, x.1.now)) result
        (with_test (λ kind. nat_lt kind 2) byte_from bytes.now) }
{
    match bytes {
        [] => Err(CallError::Fault(0)),
        [kind, rest @ ..] => {
            if *kind < 2 {
                Ok((*kind, rest))
            } else {
                Err(CallError::Fault(bytes.len()))
            }
        }
    }
}

/// The bytes of a name behind its length.
#[tactic(auto, unfolding(crate::specs::Reading::short_from))]
pub fn short_of(bytes: &[u8]) -> Result<(&[u8], &[u8]), CallError<usize>>
    ensures { GivesRead (λ x. (x.0.now, x.1.now)) result (short_from bytes.now) }
{
    let [size, rest @ ..] = bytes else {
        return Err(CallError::Fault(0));
    };
    let size = usize::from(*size);
    if rest.len() < size {
        return Err(CallError::Fault(bytes.len()));
    }
    Ok(rest.split_at(size))
}
