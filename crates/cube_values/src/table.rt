//! The answer to a query, and the names behind coordinates.

use crate::sequence::Sequence;
use crate::text::Text;

/// A field of an answer.
#[derive(Clone, Debug, PartialEq, Eq, Drop)]
pub enum Field {
    Text(Text),
    Whole(i128),
    /// A number with four decimals: its sign, its whole part and its ten-thousandths. The sign is never
    /// negative where both are 0.
    Decimal { neg: bool, whole: u128, four: u16 },
    /// What SUM, MIN, MAX and AVG give over no rows.
    Null,
}

/// The fields of one group, in the order of the items.
pub type Line = Sequence<Field>;

/// The lines of an answer, one per group.
pub type Table = Sequence<Line>;

/// Texts, the number of each being its place.
pub type Texts = Sequence<Text>;

/// Texts for each dimension of a cube.
pub type TextLists = Sequence<Texts>;

/// For each cube and each of its dimensions the texts behind its coordinates; none for a dimension of
/// numbers.
pub type NameLists = Sequence<TextLists>;
