//! Which of two lines comes first.

ghost use Rattle.std.specs.Prelude.{◌≡◌, ◌+◌, ◌*◌};
ghost use Rattle.std.specs.Ordering.{nat_cmp, int_cmp};
ghost use Rattle.cube_values.specs.First.{decimal_size, field_at};
ghost use Rattle.top_rows.specs.Order.{variant_of, any_field_cmp, any_key_cmp, any_line_cmp};

use cube_values::{BoundKey, Field};
use std::cmp::Ordering;

/// A decimal number: its sign, its whole part and its ten-thousandths.
#[derive(Clone, Copy, Debug)]
struct Decimal {
    neg: bool,
    whole: u128,
    four: u16,
}

/// Which of two decimals without their signs is less. What one whole part has more than the other is cut
/// to 7, which in ten-thousandths is above every `four`.
fn compare_sizes(a: Decimal, b: Decimal) -> Ordering
    ensures { result ≡ nat_cmp (a.whole * 10000 + a.four) (b.whole * 10000 + b.four) }
{
    let more = a.whole.saturating_sub(b.whole).min(7) as u32;
    let less = b.whole.saturating_sub(a.whole).min(7) as u32;
    (more * 10000 + u32::from(a.four)).cmp(&(less * 10000 + u32::from(b.four)))
}

/// Which of two decimals is less. 0 has no sign.
fn compare_decimals(a: Decimal, b: Decimal) -> Ordering
    ensures { result
        ≡ int_cmp (decimal_size a.neg a.whole a.four) (decimal_size b.neg b.whole b.four) }
{
    let are_zero = a.whole == 0 && a.four == 0 && b.whole == 0 && b.four == 0;
    match (a.neg, b.neg) {
        (false, false) => compare_sizes(a, b),
        (true, true) => compare_sizes(b, a),
        _ if are_zero => Ordering::Equal,
        (true, false) => Ordering::Less,
        (false, true) => Ordering::Greater,
    }
}

/// The place of a field's variant among the variants.
pub fn variant_of(field: &Field) -> u8
    ensures { result ≡ variant_of field.now }
{
    match field {
        Field::Text(_) => 0,
        Field::Whole(_) => 1,
        Field::Decimal { .. } => 2,
        Field::Null => 3,
    }
}

/// Which of two fields comes first: fields of one variant go by size, or as texts by their bytes.
fn compare_fields(a: &Field, b: &Field) -> Ordering
    ensures { result ≡ any_field_cmp a.now b.now }
{
    match (a, b) {
        (Field::Text(x), Field::Text(y)) => x.cmp(y),
        (Field::Whole(x), Field::Whole(y)) => x.cmp(y),
        (
            Field::Decimal { neg, whole, four },
            Field::Decimal {
                neg: less,
                whole: units,
                four: parts,
            },
        ) => compare_decimals(
            Decimal {
                neg: *neg,
                whole: *whole,
                four: *four,
            },
            Decimal {
                neg: *less,
                whole: *units,
                four: *parts,
            },
        ),
        _ => variant_of(a).cmp(&variant_of(b)),
    }
}

/// Which of two lines a key puts first.
fn compare_at(key: BoundKey, a: &[Field], b: &[Field]) -> Ordering
    ensures { result ≡ any_key_cmp key a.now b.now }
{
    let place = key.place as usize;
    let order = compare_fields(
        a.get(place).unwrap_or(&Field::Null),
        b.get(place).unwrap_or(&Field::Null),
    );
    if key.desc { order.reverse() } else { order }
}

/// Which of two lines comes first: the first key by which they differ says it.
pub fn compare_lines(keys: &[BoundKey], a: &[Field], b: &[Field]) -> Ordering
    ensures { result ≡ any_line_cmp keys.now a.now b.now }
{
    let mut left = keys;
    'keys: while let [key, rest @ ..] = left {
        match compare_at(*key, a, b) {
            Ordering::Equal => left = rest,
            order => return order,
        }
    }
    Ordering::Equal
}
