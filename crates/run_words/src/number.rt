//! The number of an option.

ghost use Rattle.std.specs.Prelude.{IfSome, IsNone};
ghost use Rattle.run_words.specs.Numbers.{IsNoNumberUpTo, IsNumberUpTo};

use itoa::Buffer;

/// The number that a text spells, in decimal digits without a sign and without leading zeros, where it is from 1 up to
/// the most.
pub(crate) fn number_up_to(most: u32, text: &str) -> Option<u32>
    ensures some { IfSome result (IsNumberUpTo most text.now) }
    ensures none { IsNone result → IsNoNumberUpTo most text.now }
{
    let Ok(number) = text.parse::<u32>() else {
        return None;
    };
    if number < 1 || number > most || Buffer::new().format(number) != text {
        return None;
    }
    Some(number)
}
