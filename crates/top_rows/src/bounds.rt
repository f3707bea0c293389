//! Which lines pass the tests of a plan.

ghost use Rattle.std.specs.Prelude.{◌≡◌};
ghost use Rattle.std.specs.List.{list_any};
ghost use Rattle.std.specs.Ordering.{int_eq};
ghost use Rattle.cube_values.specs.First.{bound_has, bound_has_field, field_at, passes_all};

use cube_values::{Bound, BoundTest, Field};

/// Whether a number is one of these.
fn is_among(wanted: &[i64], n: i128) -> bool
    ensures { result ≡ list_any (λ w. int_eq w n) wanted.now }
{
    wanted.iter().any(|w| i128::from(*w) == n)
}

/// Whether a bound lets a number pass.
fn bound_has(bound: &Bound, n: i128) -> bool
    ensures { result ≡ bound_has bound.now n }
{
    match bound {
        Bound::Equal(wanted) => i128::from(*wanted) == n,
        Bound::In(wanted) => is_among(wanted.as_slice(), n),
        Bound::Between(low, high) => i128::from(*low) <= n && n <= i128::from(*high),
    }
}

/// Whether a line passes a test: it has a whole number at the place, which the bound lets pass.
fn passes(test: &BoundTest, line: &[Field]) -> bool
    ensures { result ≡ bound_has_field test.now.bound (field_at line.now test.now.place) }
{
    match line.get(test.place as usize) {
        Some(Field::Whole(n)) => bound_has(&test.bound, *n),
        _ => false,
    }
}

/// Whether a line passes each test.
pub fn passes_all(tests: &[BoundTest], line: &[Field]) -> bool
    ensures { result ≡ passes_all tests.now line.now }
{
    tests.iter().all(|test| passes(test, line))
}
