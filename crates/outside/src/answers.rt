//! What a shelf and a sink answer to a call.

/// The answer of [`Shelf::size`](crate::Shelf).
#[derive(Clone, Copy, Debug, PartialEq, Eq)]
pub enum SizeAnswer {
    /// The file is there, with this many bytes.
    Size(u64),
    /// There is no file of that name.
    Absent,
    /// The shelf could not say, and counted a fault.
    Failed,
}

/// The answer of [`Shelf::read`](crate::Shelf).
#[derive(Clone, Copy, Debug, PartialEq, Eq)]
pub enum ReadAnswer {
    /// So many bytes were put at the front of the piece; 0 for a piece that is not empty is the end
    /// of the file.
    Got(usize),
    /// The shelf could not read, and counted a fault.
    Failed,
}

/// The answer of [`Sink::put`](crate::Sink).
#[derive(Clone, Copy, Debug, PartialEq, Eq)]
pub enum PutAnswer {
    /// So many bytes from the front of the piece were taken.
    Took(usize),
    /// Nothing was taken, and a fault was counted.
    Failed,
}
