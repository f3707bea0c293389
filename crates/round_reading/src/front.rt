//! What stands before a payload.

/// The epochs of a round, above `from` and up to `epoch`, and how many bytes its payload has.
#[derive(Clone, Copy, Debug)]
pub(crate) struct RoundFront {
    pub epoch: u64,
    pub from: u64,
    pub size: u64,
}
