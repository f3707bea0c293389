//! A query whose answer is kept.

ghost use Rattle.std.specs.Prelude.{All, IfOk, OnOk, OnErr};
ghost use Rattle.agg_fold.specs.Coded.{texts_for};
ghost use Rattle.agg_fold.specs.Standing.{HasRoom, IsTable};
ghost use Rattle.agg_fold.specs.Tallies.{IsAdditive};
ghost use Rattle.standing_query.specs.Watches.{BeginsWatch, CanChange, Follows, ShowsAlike};

use crate::change::Change;
use agg_fold::Partial;
use cube_values::{BoundQuery, NameLists, Table};
use std::alloc::AllocError;
use std::marker::Model;

/// A query without MIN and MAX, and the rows that it shows by their groups. Contracts see both, and say
/// which lists of rows it shows.
#[derive(Drop)]
pub struct Watch {
    query: BoundQuery,
    kept: Partial,
}

impl Model for Watch {
    ghost use Rattle.std.specs.Prelude.{All};
    ghost use Rattle.agg_fold.specs.Standing.{HasRoom};
    ghost use Rattle.agg_fold.specs.Tallies.{IsAdditive};
    ghost use Rattle.standing_query.specs.Watches.{WatchState};

    ghost Value = { WatchState };

    ghost view = { λ w. record { query = w.query; groups = w.kept.groups } };

    ghost invariant = { λ w. All IsAdditive w.query.items × HasRoom w.query 0 w.kept.groups };
}

impl Watch {
    /// A watch that shows the rows of a first answer. The only error is out of memory.
    pub fn new(query: BoundQuery, first: &Partial) -> Result<Watch, AllocError>
        requires additive { All IsAdditive query.items }
        requires rows { HasRoom query 0 first.now.groups }
        ensures { IfOk result (λ watch. BeginsWatch query first.now.groups watch) }
    {
        let kept = first.copy()?;
        Ok(Watch { query, kept })
    }

    /// Takes the rows out that went, and adds those that came. Where memory is wanted it shows what it
    /// showed.
    pub fn apply(&mut self, change: &Change) -> Result<(), AllocError>
        requires { CanChange self.old change.now.came.groups change.now.went.groups }
        ensures ok { OnOk result
            (Follows change.now.came.groups change.now.went.groups self.old self.new) }
        ensures err { OnErr result (ShowsAlike self.old self.new) }
    {
        // What comes is added first: only that may want memory.
        self.kept.merge(&self.query, &change.came)?;
        self.kept.remove(&self.query, &change.went);
        Ok(())
    }

    /// A watch of the same query that shows the same rows. The only error is out of memory.
    pub fn copy(&self) -> Result<Watch, AllocError>
        ensures { IfOk result (λ watch. ShowsAlike self.now watch) }
    {
        let query = self.query.copy()?;
        let kept = self.kept.copy()?;
        Ok(Watch { query, kept })
    }

    /// The answer to the query over the rows that it shows. A group without rows has no line; without a
    /// group the one line stays. The only error is out of memory.
    pub fn table(&self, names: &NameLists) -> Result<Table, AllocError>
        ensures { IfOk result (λ table. IsTable self.now.query
            (texts_for self.now.query names.now) self.now.groups table) }
    {
        self.kept.finish(&self.query, names)
    }
}
