//! What came and what went between two moments.

use agg_fold::Partial;

/// The rows that came between two moments and those that went, each under one query.
#[derive(Drop)]
pub struct Change {
    pub came: Partial,
    pub went: Partial,
}
