//! The average of numbers, by their sum and count.

ghost use Rattle.std.specs.Prelude.{◌≡◌, ◌<◌, ◌==◌, ◌&&◌, not};
ghost use Rattle.std.specs.Int.{is_negative};
ghost use Rattle.cube_values.specs.Answer.{average};

use crate::table::Field;

/// A sum divided by a count, cut toward zero to four decimals. The whole part comes first, and only the
/// remainder, which is below the count, is multiplied.
pub fn average(sum: i128, count: u64) -> Field
    requires { 0 < count }
    ensures { result ≡ average sum count }
{
    let size = sum.unsigned_abs();
    let parts = count as u128;
    let whole = size / parts;
    let four = (size % parts * 10_000 / parts) as u16;
    let neg = is_below_zero(sum, whole, four);
    Field::Decimal { neg, whole, four }
}

// Whether these parts are those of a number below zero: there is no negative 0.
fn is_below_zero(sum: i128, whole: u128, four: u16) -> bool
    ensures { result ≡ (is_negative sum && not (whole == 0 && four == 0)) }
{
    sum < 0 && !(whole == 0 && four == 0)
}
