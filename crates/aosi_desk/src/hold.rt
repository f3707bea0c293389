//! The tickets of what a session holds.

use linked_roll::Ticket;

/// What a session, or a holder number, holds.
#[derive(Clone, Copy, Debug, PartialEq, Eq)]
pub(crate) enum Hold {
    /// No snapshot.
    Free,
    /// A reader, by the ticket of its open snapshot.
    Reader(Ticket),
    /// A writer, by the tickets of its open snapshot and of its pending epoch.
    Writer { ticket: Ticket, pending: Ticket },
}
