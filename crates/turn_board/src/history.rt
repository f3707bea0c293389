//! What a history consists of. No value of these types is made: contracts alone speak of them.
use std::collections::LinkedList;

/// One call on a cell, with its answer.
pub struct Event<Q, A> {
    pub caller: u32,
    pub cell: u32,
    pub call: Q,
    pub answer: A,
}

/// The number of a caller, and the calls that it made, oldest first.
pub struct Hand<Q, A> {
    pub number: u32,
    pub made: LinkedList<Event<Q, A>>,
}
