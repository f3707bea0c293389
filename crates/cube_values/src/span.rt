//! Sets of coordinates.

ghost use Rattle.std.specs.Prelude.{◌≡◌, ◌==◌, IfOk};
ghost use Rattle.std.specs.List.{list_any};
ghost use Rattle.cube_values.specs.Spans.{part_has, span_has, parts_have};

use crate::row::Coords;
use crate::sequence::Sequence;
use std::alloc::AllocError;

/// A set of coordinates of one dimension.
#[derive(Clone, Debug, PartialEq, Eq, Drop)]
pub enum Part {
    /// Every coordinate.
    All,
    /// From the first to the second, both included; none where the first is above the second.
    Between(u32, u32),
    /// These coordinates, which rise strictly.
    Listed(Coords),
}

/// Parts, one per dimension.
pub type Parts = Sequence<Part>;

/// A set of rows by their coordinates: a row is in it where each coordinate is in the part of its
/// dimension.
#[derive(Clone, Debug, PartialEq, Eq, Drop)]
pub struct Span {
    pub parts: Parts,
}

fn is_listed(coords: &[u32], coord: u32) -> bool
    ensures { result ≡ list_any (λ c. c == coord) coords.now }
{
    coords.contains(&coord)
}

impl Part {
    /// Whether the coordinate is in the part.
    pub fn has(&self, coord: u32) -> bool
        ensures { result ≡ part_has self.now coord }
    {
        match self {
            Part::All => true,
            Part::Between(first, last) => *first <= coord && coord <= *last,
            Part::Listed(coords) => is_listed(coords.as_slice(), coord),
        }
    }
}

fn each_has(parts: &[Part], coords: &[u32]) -> bool
    ensures { result ≡ parts_have parts.now coords.now }
{
    let mut parts_left = parts;
    let mut coords_left = coords;
    'parts: while let [part, parts_rest @ ..] = parts_left {
        let [coord, coords_rest @ ..] = coords_left else {
            return false;
        };
        if !part.has(*coord) {
            return false;
        }
        parts_left = parts_rest;
        coords_left = coords_rest;
    }
    coords_left.is_empty()
}

impl Span {
    /// Whether the span has the coordinates. It has none of another number than its parts.
    pub fn has(&self, coords: &[u32]) -> bool
        ensures { result ≡ span_has self.now coords.now }
    {
        each_has(self.parts.as_slice(), coords)
    }

    /// The same span.
    pub fn copy(&self) -> Result<Span, AllocError>
        ensures { IfOk result (λ s. s ≡ self.now) }
    {
        self.clone()
    }
}
