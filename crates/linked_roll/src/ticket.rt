//! The ticket of an item.

/// By what an item is found in its roll. Once the item is taken out, a later one may get the same ticket.
#[derive(Clone, Copy, Debug, PartialEq, Eq)]
pub struct Ticket {
    pub(crate) key: usize,
}
