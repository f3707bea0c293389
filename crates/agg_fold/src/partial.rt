//! A part of an answer, from which rows and other parts make the whole.

ghost use Rattle.std.specs.Prelude.{◌≡◌, ◌<◌, IsTrue, [], ◌∷◌, All, length, IfOk, OnOk, OnErr};
ghost use Rattle.cube_values.specs.declared.query.BoundQuery.{BoundQuery};
ghost use Rattle.cube_values.specs.Queries.{IsSoundQuery};
ghost use Rattle.cube_values.specs.Spans.{span_has};
ghost use Rattle.agg_fold.specs.Tallies.{IsAdditive};
ghost use Rattle.agg_fold.specs.Coded.{coded_key, texts_for};
ghost use Rattle.agg_fold.specs.Standing.{StandsFor, HasRoom, StandsAlike, IsCopy, IsRowCount, Gains, Adds, HasRowsOf, Removes, IsTable};
ghost use Rattle.agg_fold.specs.Totals.{AreSomeRows, GainsGroup};

use crate::finish::{table_for, texts_for};
use crate::groups::Groups;
use crate::tallies::gather_told;
use crate::tally::Tally;
use cube_values::{BoundQuery, NameLists, Table};
use std::alloc::{AllocError, Global};

/// The groups of rows under a query, with what its items need of each. It is used with one query.
/// Contracts say which lists of rows its groups stand for.
#[derive(Drop)]
pub struct Partial {
    groups: Groups,
    /// The key of the row that is added.
    key: Vec<u32>,
    /// The tallies of the rows that are added.
    tallies: Vec<Tally>,
    alloc: Global,
}

impl Partial {
    /// A partial of no rows.
    pub fn new(alloc: Global) -> Partial
        ensures { (query : BoundQuery) → StandsFor query [] result.groups }
    {
        Partial {
            groups: Groups::new(alloc),
            key: Vec::new(alloc),
            tallies: Vec::new(alloc),
            alloc,
        }
    }

    /// A partial that stands for the same lists.
    pub fn copy(&self) -> Result<Partial, AllocError>
        ensures { IfOk result (λ p. IsCopy self.now.groups p.groups) }
    {
        Ok(Partial {
            groups: self.groups.copy(self.alloc)?,
            key: Vec::new(self.alloc),
            tallies: Vec::new(self.alloc),
            alloc: self.alloc,
        })
    }

    /// Adds a row of the query's cube that its span has, by its coordinates and its metrics. Where
    /// memory is wanted it stands for the rows without this one.
    pub fn add_row(
        &mut self,
        query: &BoundQuery,
        coords: &[u32],
        metrics: &[i64],
    ) -> Result<(), AllocError>
        requires sound { IsSoundQuery query.now (length coords.now) (length metrics.now) }
        requires inside { IsTrue (span_has query.now.span coords.now) }
        requires room { HasRoom query.now 1 self.old.groups }
        ensures ok { OnOk result (Gains query.now (record {
          coords = coords.now;
          metrics = metrics.now;
        } ∷ []) self.old.groups self.new.groups) }
        ensures err { OnErr result (StandsAlike query.now self.old.groups self.new.groups) }
    {
        gather(&mut self.key, query.group.as_slice(), coords)?;
        let place = self.groups.place(query, self.key.as_slice())?;
        self.groups.add(query, place, coords, metrics);
        Ok(())
    }

    /// Adds some rows of one key by their totals: how many they are, and for each item their sum, their
    /// least and their greatest number, of which only the one counts that the item asks for. Where
    /// memory is wanted it stands for the rows without these.
    pub fn add_group(
        &mut self,
        query: &BoundQuery,
        key: &[u32],
        rows: u64,
        sums: &[i128],
        least: &[i64],
        greatest: &[i64],
    ) -> Result<(), AllocError>
        requires wide { length key.now ≡ length query.now.group }
        requires room { HasRoom query.now rows self.old.groups }
        requires some { AreSomeRows query.now key.now (record {
          rows = rows;
          sums = sums.now;
          least = least.now;
          greatest = greatest.now;
        }) }
        ensures ok { OnOk result (GainsGroup query.now key.now (record {
          rows = rows;
          sums = sums.now;
          least = least.now;
          greatest = greatest.now;
        }) self.old.groups self.new.groups) }
        ensures err { OnErr result (StandsAlike query.now self.old.groups self.new.groups) }
    {
        let items = query.items.as_slice();
        gather_told(&mut self.tallies, items, sums, least, greatest)?;
        let place = self.groups.place(query, key)?;
        self.groups
            .add_totals(query, place, rows, self.tallies.as_slice());
        Ok(())
    }

    /// Adds the rows of another partial under the same query. Where memory is wanted it stands for the
    /// rows that it stood for.
    pub fn merge(&mut self, query: &BoundQuery, other: &Partial) -> Result<(), AllocError>
        requires room { HasRoom query.now other.now.groups.rows self.old.groups }
        requires other { HasRoom query.now 0 other.now.groups }
        ensures ok { OnOk result (Adds query.now other.now.groups self.old.groups self.new.groups) }
        ensures err { OnErr result (StandsAlike query.now self.old.groups self.new.groups) }
    {
        self.groups.join(self.alloc, query, &other.groups)
    }

    /// Takes the rows of another partial out, under a query of which no item is Min or Max.
    pub fn remove(&mut self, query: &BoundQuery, other: &Partial)
        requires additive { All IsAdditive query.now.items }
        requires held { HasRowsOf query.now other.now.groups self.old.groups }
        ensures { Removes query.now other.now.groups self.old.groups self.new.groups }
    {
        self.groups.remove(query, &other.groups);
    }

    /// The answer over the rows that it stands for: a line for each group, sorted by the values of the
    /// group's columns, or one line where the query has no such column. `names` has the texts that
    /// coordinates stand for; a coordinate without its text stands for the empty text.
    pub fn finish(&self, query: &BoundQuery, names: &NameLists) -> Result<Table, AllocError>
        requires { HasRoom query.now 0 self.now.groups }
        ensures { IfOk result (IsTable query.now (texts_for query.now names.now) self.now.groups) }
    {
        let table = table_for(self.alloc, query, &self.groups, texts_for(query, names))?;
        Ok(table)
    }

    /// How many rows it stands for.
    pub fn rows(&self) -> u64
        ensures { IsRowCount self.now.groups result }
    {
        self.groups.rows
    }
}

/// The coordinates of a row in the dimensions of the group.
fn gather(key: &mut Vec<u32>, group: &[u32], coords: &[u32]) -> Result<(), AllocError>
    requires { All (λ dim. dim < length coords.now) group.now }
    ensures { OnOk result (key.new.items ≡ coded_key group.now coords.now) }
{
    key.clear();
    'dims: for dim in group {
        key.push(coords[*dim as usize])?;
    }
    Ok(())
}
