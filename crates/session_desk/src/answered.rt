//! What executing a statement gives.

use cube_journal::Reply;

/// What executing a statement gives.
#[derive(Debug, Drop)]
pub enum Answered {
    /// The reply to the statement.
    Replied(Reply),
    /// The journal had no memory for a note, so there is no reply, and the session does nothing more but end.
    Stopped,
}
