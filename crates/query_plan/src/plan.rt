//! What a deletion and an insertion are by the places of their cube.

use cube_values::{Conditions, Rows};

/// A deletion: the place of its cube among the cubes, from 0, and its conditions. Their texts are those of
/// the statement, in its order.
#[derive(Debug, Drop)]
pub struct DropPlan {
    pub cube: u32,
    pub conditions: Conditions,
}

/// Rows to be put: the place of their cube among the cubes, from 0, and the rows of an INSERT. Those of a
/// LOAD stand in its file.
#[derive(Debug, Drop)]
pub struct RowPlan {
    pub cube: u32,
    pub rows: Rows,
}
