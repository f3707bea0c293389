//! Why bytes are no header or no round.

/// What is wrong with bytes.
#[derive(Clone, Copy, Debug, PartialEq, Eq)]
pub enum FormatFault {
    /// They break a rule; `at` is the place of the first part that does.
    BadText { at: u64 },
    /// The digest that stands there is not that of what stands before it.
    BadDigest { kept: [u8; 32], found: [u8; 32] },
}
