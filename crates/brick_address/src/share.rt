//! How much of a range of coordinates a part of a span has.

ghost use Rattle.std.specs.Prelude.{◌≡◌, ◌<◌, ℕ, ◌-◌, ◌==◌, count_by};
ghost use Rattle.std.specs.List.{list_any};
ghost use Rattle.cube_values.specs.Spans.{part_has, IsSoundPart, Rises};
ghost use Rattle.brick_address.specs.Shares.{is_within, IsShare};

use cube_values::Part;

/// How much of something is there.
#[derive(Clone, Copy)]
pub enum Share {
    /// All of it.
    Whole,
    /// Nothing.
    Empty,
    /// Some of it, and not all.
    Partial,
}

/// How much of `start .. end` lies between two coordinates, both included.
fn share_between(first: u32, last: u32, start: u32, end: u32) -> Share
    requires { start < end }
    ensures { IsShare (λ c. part_has (Part.Between first last) c) start end result }
{
    if last < first || last < start || end <= first {
        Share::Empty
    } else if first <= start && end - 1 <= last {
        Share::Whole
    } else {
        Share::Partial
    }
}

/// How many of the coordinates lie in `start .. end`.
fn count_within(coords: &[u32], start: u32, end: u32) -> usize
    ensures { result ≡ count_by (λ c. is_within start end c) coords.now }
{
    coords.iter().filter(|c| start <= **c && **c < end).count()
}

/// How much of `start .. end` is in a list that rises strictly.
fn share_listed(coords: &[u32], start: u32, end: u32) -> Share
    requires range { start < end }
    requires rises { Rises coords.now }
    ensures { IsShare (λ c. list_any (λ d. d == c) coords.now) start end result }
{
    let count = count_within(coords, start, end);
    if count == 0 {
        Share::Empty
    } else if count == (end - start) as usize {
        Share::Whole
    } else {
        Share::Partial
    }
}

/// How much of `start .. end` a part has. It takes time by the length of a listed part.
pub fn share_of(part: &Part, start: u32, end: u32) -> Share
    requires range { start < end }
    requires part { IsSoundPart part.now }
    ensures { IsShare (λ c. part_has part.now c) start end result }
{
    match part {
        Part::All => Share::Whole,
        Part::Between(first, last) => share_between(*first, *last, start, end),
        Part::Listed(coords) => share_listed(coords.as_slice(), start, end),
    }
}
