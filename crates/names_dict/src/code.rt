//! What a dictionary makes of a name.

/// The answer to a name that is to be encoded.
#[derive(Clone, Copy, Debug, PartialEq, Eq)]
pub enum Code {
    /// The dictionary has the name, with this number.
    Known(u32),
    /// The name is new and has got this number, the next one.
    Added(u32),
    /// The name is new, and the dictionary has as many names as it may have.
    Full,
}
