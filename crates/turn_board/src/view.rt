//! What a pass knows. No value of these types is made: contracts and the board's rule alone speak of them.
use crate::history::{Event, Hand};
use std::collections::LinkedList;

/// How far a pass is with a call: the cell, its ticket, and the cell's value once the turn has come.
pub enum Stage<T> {
    Unqueued,
    Queued(u32, u64),
    Turn(u32, u64, T),
}

/// What a pass knows of its board.
pub struct PassView<T, Q, A> {
    /// The cells that the board opened with.
    pub opening: LinkedList<T>,
    pub stage: Stage<T>,
    /// Its callers, by rising number, each with its own calls.
    pub hands: LinkedList<Hand<Q, A>>,
    /// The whole history as it stood at the last call that the pass made or was told of.
    pub past: LinkedList<Event<Q, A>>,
    /// The past of a pass that it has just taken in.
    pub also: LinkedList<Event<Q, A>>,
    /// The values of the first cells, whose turns it keeps for good.
    pub shut: LinkedList<T>,
}
