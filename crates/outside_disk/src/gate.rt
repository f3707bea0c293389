//! The trait of what may hold threads up between statements and jobs, for tests of their order.

/// Is called as statements and jobs begin. It tells nothing, and has no count of faults.
pub trait Gate {
    /// A session is about to run this statement.
    fn before(&self, session: u32, statement: u32);

    /// A thread is about to do a job of this statement on a shard.
    fn within(&self, shard: u32, session: u32, statement: u32);

    /// Whether it may hold a thread up. It is a hint.
    fn may_hold(&self) -> bool {
        true
    }
}

/// A gate that holds nothing up.
#[derive(Debug, Drop, Clone, Copy)]
pub struct NoGate;

impl Gate for NoGate {
    fn before(&self, _session: u32, _statement: u32) {}

    fn within(&self, _shard: u32, _session: u32, _statement: u32) {}

    fn may_hold(&self) -> bool {
        false
    }
}
