//! Numbers: digits, perhaps directly behind a minus sign.

ghost use Rattle.std.specs.Prelude.{◌≡◌, true, IsTrue, IfSome, IfNone, FitsSigned};
ghost use Rattle.std.specs.Char.{is_ascii_digit};
ghost use Rattle.std.specs.Int.{w64};
ghost use Rattle.std.specs.List.{prefix_len};
ghost use Rattle.std.specs.Str.Parse.{digits_value, signed_digits_value};
ghost use Rattle.cube_language.specs.declared.token.TokenKind.TheVariants as kind;
ghost use Rattle.cube_language.specs.Tokens.{is_number};
ghost use Rattle.sql_words.specs.Fronts.{first_passes, begins_number, number_len, BeginsWideNumber, HasValue, IsFront};

use cube_language::text_of;

fn begins_digits(bytes: &[u8]) -> bool
    ensures { result ≡ first_passes is_ascii_digit bytes.now }
{
    match bytes {
        [] => false,
        [first, ..] => first.is_ascii_digit(),
    }
}

/// Whether a number begins here: a digit, or a minus sign before one.
pub(crate) fn begins_number(bytes: &[u8]) -> bool
    ensures { result ≡ begins_number bytes.now }
{
    match bytes {
        [] => false,
        [first, behind @ ..] => {
            if *first == b'-' {
                begins_digits(behind)
            } else {
                first.is_ascii_digit()
            }
        }
    }
}

fn digits_len(bytes: &[u8]) -> usize
    ensures { result ≡ prefix_len is_ascii_digit bytes.now }
{
    bytes
        .iter()
        .take_while(|byte| byte.is_ascii_digit())
        .count()
}

/// How many bytes the number at the front has.
#[tactic(auto, using(crate::proofs::Prefixes::prefix_within))]
fn number_len(bytes: &[u8]) -> usize
    ensures { result ≡ number_len bytes.now }
{
    match bytes {
        [] => 0,
        [first, behind @ ..] => {
            if *first == b'-' {
                1 + digits_len(behind)
            } else {
                digits_len(bytes)
            }
        }
    }
}

/// What digits write, or None where it is no number of 64 bits without a sign.
#[tactic(auto, using(crate::proofs::Numbers::digits_value_whole))]
fn digits_value(digits: &[u8]) -> Option<u64>
    ensures { IfSome result (λ n. n ≡ digits_value 10 digits.now) }
{
    let mut value: u64 = 0;
    'digits: for digit in digits {
        if !digit.is_ascii_digit() {
            return None;
        }
        value = value
            .checked_mul(10)?
            .checked_add(u64::from(*digit - b'0'))?;
    }
    Some(value)
}

/// The value of a number without a minus sign, or None where it has one or is not one of 64 bits.
#[tactic(auto, using(crate::proofs::Numbers::plain_value))]
fn plain_value(number: &[u8]) -> Option<i64>
    requires { IsTrue (is_number number.now) }
    ensures { IfSome result (HasValue number.now) }
{
    match number {
        [first, ..] if *first != b'-' => i64::try_from(digits_value(number)?).ok(),
        _ => None,
    }
}

/// The value of a number, or None where it is not one of 64 bits.
#[tactic(auto, using(crate::proofs::Numbers::number_is_text, crate::proofs::Numbers::number_is_numeral))]
fn value_of(number: &[u8]) -> Option<i64>
    requires { IsTrue (is_number number.now) }
    ensures some { IfSome result (HasValue number.now) }
    ensures none { IfNone result (FitsSigned w64 (signed_digits_value 10 number.now) → ⊥) }
{
    match plain_value(number) {
        Some(value) => Some(value),
        None => text_of(number).parse::<i64>().ok(),
    }
}

/// The value of the number at the front and how many bytes it has, or None where it is not one of 64 bits.
#[tactic(auto, using(crate::proofs::TokenFronts::number_within, crate::proofs::TokenFronts::number_is, crate::proofs::TokenFronts::number_stands, crate::proofs::TokenFronts::number_fails))]
pub(crate) fn number_first(bytes: &[u8]) -> Option<(i64, usize)>
    requires { begins_number bytes.now ≡ true }
    ensures some { IfSome result (λ number. IsFront bytes.now (kind.Number number.0) number.1) }
    ensures none { IfNone result (BeginsWideNumber bytes.now) }
{
    let len = number_len(bytes);
    let (number, _) = bytes.split_at(len);
    match value_of(number) {
        Some(value) => Some((value, len)),
        None => None,
    }
}
