//! What a scan of many bricks works in.

ghost use Rattle.std.specs.Prelude.{◌≡◌, ◌<◌, length, filter, map, All, IsTrue, OnOk};
ghost use Rattle.std.specs.List.{items_where_true};
ghost use Rattle.cube_values.specs.EpochsVector.{rows_of};
ghost use Rattle.cube_values.specs.Queries.{IsSoundQuery};
ghost use Rattle.epochs_vector.specs.Seen.{seen_rows};
ghost use Rattle.agg_fold.specs.Standing.{Gains, HasRoom};
ghost use Rattle.brick_store.specs.Deltas.{seen_apart};
ghost use Rattle.cube_values.specs.Spans.{span_has_row};
ghost use Rattle.brick_store.specs.Whole.{HaveCoordsFrom, row_with_coords};

use crate::delta::{show_apart_in, show_in};
use crate::fold_lists::FoldLists;
use crate::scan::fold_rows;
use agg_fold::Partial;
use brick_columns::Columns;
use cube_values::{Bits, BoundQuery, Snapshot};
use epochs_vector::Epochs;
use std::alloc::{AllocError, Global};
use std::marker::Model;

/// The memory that scans and deltas of bricks work in. It stays from brick to brick, and grows where a brick
/// wants more. What stands in it is of no more use when a call ends.
#[derive(Drop)]
pub struct Scratch {
    seen: Bits,
    others: Bits,
    lists: FoldLists,
}

impl Model for Scratch {
    ghost Value = { Unit {0} };

    ghost view = { λ _. tt };
}

impl Scratch {
    /// Without memory yet.
    pub fn new(alloc: Global) -> Result<Scratch, AllocError> {
        Ok(Scratch {
            seen: Bits::new(alloc, 0)?,
            others: Bits::new(alloc, 0)?,
            lists: FoldLists::new(alloc),
        })
    }

    /// Adds the rows of columns that the snapshot sees and the query's span has, which may have all.
    pub(crate) fn fold_seen(
        &mut self,
        epochs: &Epochs,
        columns: &Columns,
        starts: &[u32],
        query: &BoundQuery,
        snapshot: &Snapshot,
        all: bool,
        into: &mut Partial,
    ) -> Result<(), AllocError>
        requires rows { rows_of epochs.now.entries ≡ length columns.now.rows }
        requires readable { HaveCoordsFrom starts.now columns.now }
        requires sound { IsSoundQuery query.now (length starts.now) columns.now.layout.metrics }
        requires all { IsTrue all → All (λ row. IsTrue (span_has_row query.now.span row))
            (map (row_with_coords starts.now) columns.now.rows) }
        requires room { HasRoom query.now (length columns.now.rows) into.old.groups }
        ensures { OnOk result (Gains query.now
            (filter (span_has_row query.now.span)
            (items_where_true (seen_rows snapshot.now epochs.now.entries)
            (map (row_with_coords starts.now) columns.now.rows)))
            into.old.groups into.new.groups) }
    {
        let bits = &mut self.seen;
        show_in(bits, epochs, snapshot)?;
        fold_rows(&mut self.lists, columns, starts, bits, query, all, into)
    }

    /// Adds the rows of columns that one snapshot sees, another does not, and the query's span has, which may
    /// have all.
    pub(crate) fn fold_apart(
        &mut self,
        epochs: &Epochs,
        columns: &Columns,
        starts: &[u32],
        query: &BoundQuery,
        one: &Snapshot,
        other: &Snapshot,
        all: bool,
        into: &mut Partial,
    ) -> Result<(), AllocError>
        requires rows { rows_of epochs.now.entries ≡ length columns.now.rows }
        requires readable { HaveCoordsFrom starts.now columns.now }
        requires sound { IsSoundQuery query.now (length starts.now) columns.now.layout.metrics }
        requires all { IsTrue all → All (λ row. IsTrue (span_has_row query.now.span row))
            (map (row_with_coords starts.now) columns.now.rows) }
        requires room { HasRoom query.now (length columns.now.rows) into.old.groups }
        ensures { OnOk result (Gains query.now
            (filter (span_has_row query.now.span)
            (items_where_true (seen_apart one.now other.now epochs.now.entries)
            (map (row_with_coords starts.now) columns.now.rows)))
            into.old.groups into.new.groups) }
    {
        let bits = &mut self.seen;
        show_apart_in(bits, &mut self.others, epochs, one, other)?;
        fold_rows(&mut self.lists, columns, starts, bits, query, all, into)
    }
}
