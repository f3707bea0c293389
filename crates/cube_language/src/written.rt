//! What a text chooses where a statement has several forms.

use crate::statement::Item;
use cube_values::Sequence;

/// What a text writes behind the item of a key of ORDER BY.
#[derive(Clone, Copy, Debug, PartialEq, Eq)]
pub enum Direction {
    /// Nothing, which means ASC.
    Unsaid,
    /// `ASC`
    Asc,
    /// `DESC`
    Desc,
}

/// A key of ORDER BY as a text writes it.
#[derive(Clone, Debug, PartialEq, Eq, Drop)]
pub struct WrittenKey {
    pub item: Item,
    pub direction: Direction,
}

/// Keys as a text writes them, in order.
pub type WrittenKeys = Sequence<WrittenKey>;
