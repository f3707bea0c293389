//! The number that a field spells.

ghost use Rattle.std.specs.Prelude.{◌≡◌, ◌^◌, ◌*◌, ◌+◌, ◌<◌, ◌≤◌, true, false, length, IfSome, IfNone, IsTrue};
ghost use Rattle.std.specs.Char.{is_ascii_digit, digit_value};
ghost use Rattle.std.specs.List.{list_all};
ghost use Rattle.std.specs.Str.{all_ascii_digits};
ghost use Rattle.std.specs.Str.Parse.{digits_value};
ghost use Rattle.cube_language.specs.Tokens.{is_digits};
ghost use Rattle.csv_load.specs.Fields.{minus_number, narrow_number, plain_number, spelled_number};

/// So many digits spell a number below 10 ^ 18, which 64 bits with a sign can hold.
const FEW_DIGITS: usize = 18;

/// The number that a field spells, or None where it spells none of 64 bits.
#[tactic(auto, using(crate::proofs::Narrow::spelled_plain, crate::proofs::Narrow::spelled_minus))]
pub(crate) fn spelled_number(field: &[u8]) -> Option<i64>
    ensures { result ≡ spelled_number field.now }
{
    match field {
        [b'-', digits @ ..] => minus_number(digits),
        _ => plain_number(field),
    }
}

fn plain_number(digits: &[u8]) -> Option<i64>
    ensures { result ≡ plain_number digits.now }
{
    if digits.len() <= FEW_DIGITS {
        few_plain(digits)
    } else {
        many_plain(digits)
    }
}

fn minus_number(digits: &[u8]) -> Option<i64>
    ensures { result ≡ minus_number digits.now }
{
    if digits.len() <= FEW_DIGITS {
        few_minus(digits)
    } else {
        many_minus(digits)
    }
}

// ---- a few digits, which cannot spell too great a number: one pass

/// A number with one digit more at its end.
fn longer(n: u64, digit: u8) -> u64
    requires digit { is_ascii_digit digit ≡ true }
    requires room { n < 10 ^ 17 }
    ensures { result ≡ n * 10 + digit_value digit }
{
    n * 10 + u64::from(digit - b'0')
}

/// The number that bytes spell, of which there are at most 18, or None where one of them is no digit.
fn few_digits(bytes: &[u8]) -> Option<u64>
    requires { length bytes.now ≤ 18 }
    ensures digits { IfSome result (λ n. all_ascii_digits bytes.now ≡ true) }
    ensures value { IfSome result (λ n. digits_value 10 bytes.now ≡ n) }
    ensures below { IfSome result (λ n. n < 10 ^ 18) }
    ensures other { IfNone result (all_ascii_digits bytes.now ≡ false) }
{
    let mut n = 0u64;
    let mut left = bytes;
    'digits: while let [digit, rest @ ..] = left {
        if !digit.is_ascii_digit() {
            return None;
        }
        n = longer(n, *digit);
        left = rest;
    }
    Some(n)
}

#[tactic(auto, using(crate::proofs::FewDigits::none_plain, crate::proofs::FewDigits::other_plain, crate::proofs::FewDigits::few_plain))]
fn few_plain(digits: &[u8]) -> Option<i64>
    requires { length digits.now ≤ 18 }
    ensures { result ≡ plain_number digits.now }
{
    if digits.is_empty() {
        return None;
    }
    let n = few_digits(digits)?;
    Some(n as i64)
}

#[tactic(auto, using(crate::proofs::FewDigits::none_minus, crate::proofs::FewDigits::other_minus, crate::proofs::FewDigits::few_minus))]
fn few_minus(digits: &[u8]) -> Option<i64>
    requires { length digits.now ≤ 18 }
    ensures { result ≡ minus_number digits.now }
{
    if digits.is_empty() {
        return None;
    }
    let n = few_digits(digits)?;
    Some(-(n as i64))
}

// ---- digits of any number, among them zeros at the front: two passes, the second with a test at each digit

fn all_digits(bytes: &[u8]) -> bool
    ensures { result ≡ list_all is_ascii_digit bytes.now }
{
    bytes.iter().all(|byte| byte.is_ascii_digit())
}

#[tactic(auto, using(crate::proofs::Digits::digits_are))]
fn is_digits(bytes: &[u8]) -> bool
    ensures { result ≡ is_digits bytes.now }
{
    !bytes.is_empty() && all_digits(bytes)
}

/// A number with one digit more at its end, or None where it has more than 64 bits.
fn grown(n: u64, digit: u8) -> Option<u64>
    requires { is_ascii_digit digit ≡ true }
    ensures some { IfSome result (λ more. more ≡ n * 10 + digit_value digit) }
    ensures none { IfNone result (2 ^ 64 ≤ n * 10 + digit_value digit) }
{
    let tens = n.checked_mul(10)?;
    tens.checked_add(u64::from(digit - b'0'))
}

/// The number that digits spell, or None where it has more than 64 bits.
fn magnitude(digits: &[u8]) -> Option<u64>
    requires { IsTrue (is_digits digits.now) }
    ensures some { IfSome result (λ n. digits_value 10 digits.now ≡ n) }
    ensures none { IfNone result (2 ^ 64 ≤ digits_value 10 digits.now) }
{
    let mut n = 0u64;
    'digits: for digit in digits {
        n = grown(n, *digit)?;
    }
    Some(n)
}

/// A number, where 64 bits can hold it.
#[tactic(auto, using(crate::proofs::Narrow::fits_narrow, crate::proofs::Narrow::narrow_fits))]
fn narrow_number(n: i128) -> Option<i64>
    ensures { result ≡ narrow_number n }
{
    i64::try_from(n).ok()
}

#[tactic(auto, using(crate::proofs::Narrow::wide_plain))]
fn many_plain(digits: &[u8]) -> Option<i64>
    ensures { result ≡ plain_number digits.now }
{
    if !is_digits(digits) {
        return None;
    }
    narrow_number(i128::from(magnitude(digits)?))
}

#[tactic(auto, using(crate::proofs::Narrow::wide_minus))]
fn many_minus(digits: &[u8]) -> Option<i64>
    ensures { result ≡ minus_number digits.now }
{
    if !is_digits(digits) {
        return None;
    }
    narrow_number(-i128::from(magnitude(digits)?))
}
