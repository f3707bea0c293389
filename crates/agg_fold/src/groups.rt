//! Groups of rows, with the tallies of each.

ghost use Rattle.std.specs.Prelude.{◌≡◌, ◌++◌, ◌+◌, ◌<◌, false, IsTrue, [], ◌∷◌, All, length, IfOk, OnOk, OnErr};
ghost use Rattle.cube_values.specs.declared.query.BoundQuery.{BoundQuery};
ghost use Rattle.cube_values.specs.Queries.{IsSoundQuery};
ghost use Rattle.cube_values.specs.Spans.{span_has};
ghost use Rattle.agg_fold.specs.Tallies.{IsAdditive};
ghost use Rattle.agg_fold.specs.Coded.{coded_key, coded_row};
ghost use Rattle.agg_fold.specs.Places.{is_among, IsKeyAt, PlacesStay, group_key};
ghost use Rattle.agg_fold.specs.Standing.{StandsFor, HasRoom, StandsAlike, IsCopy, Gains, Adds, HasRowsOf, Removes, ArePlaces};
ghost use Rattle.agg_fold.specs.Totals.{HasTotals, GainsTotals, CanLoseTotals, LosesTotals, CanLoseGroup, LosesGroup, HasEmptyTallies};

use crate::group_keys::GroupKeys;
use crate::tallies::{add_all_at, add_row_at, chunk, push_empty, take_all_at};
use crate::tally::Tally;
use cube_values::{BoundItem, BoundQuery};
use std::alloc::{AllocError, Global};

/// Groups of rows by their keys. The group at place p has the tallies from p times the number of items
/// on, one for each item.
#[derive(Drop)]
pub struct Groups {
    /// How many rows there are in all.
    pub rows: u64,
    pub keys: GroupKeys,
    /// How many rows each group has.
    pub counts: Vec<u64>,
    pub tallies: Vec<Tally>,
}

impl Groups {
    /// No groups.
    pub fn new(alloc: Global) -> Groups
        ensures { (query : BoundQuery) → StandsFor query [] result }
    {
        Groups {
            rows: 0,
            keys: GroupKeys::new(alloc),
            counts: Vec::new(alloc),
            tallies: Vec::new(alloc),
        }
    }

    /// The same groups.
    pub fn copy(&self, alloc: Global) -> Result<Groups, AllocError>
        ensures { IfOk result (IsCopy self.now) }
    {
        Ok(Groups {
            rows: self.rows,
            keys: self.keys.copy()?,
            counts: Vec::from_slice(alloc, self.counts.as_slice())?,
            tallies: Vec::from_slice(alloc, self.tallies.as_slice())?,
        })
    }

    /// The place of a key's group, which is made where there is none.
    pub fn place(&mut self, query: &BoundQuery, key: &[u32]) -> Result<usize, AllocError>
        requires held { HasRoom query.now 0 self.old }
        requires wide { length key.now ≡ length query.now.group }
        ensures same { StandsAlike query.now self.old self.new }
        ensures rows { self.new.rows ≡ self.old.rows }
        ensures place { IfOk result (λ p. IsKeyAt self.new.keys p key.now) }
        ensures stay { PlacesStay self.old.keys self.new.keys }
    {
        if query.group.is_empty() && self.keys.len() > 0 {
            return Ok(0);
        }
        if let Some(place) = self.keys.find(key) {
            return Ok(place);
        }
        let place = self.keys.len();
        self.push(query.items.as_slice(), key)?;
        Ok(place)
    }

    /// Adds a row with the key of the group at a place.
    pub fn add(&mut self, query: &BoundQuery, place: usize, coords: &[u32], metrics: &[i64])
        requires held { HasRoom query.now 1 self.old }
        requires place { IsKeyAt self.old.keys place (coded_key query.now.group coords.now) }
        requires sound { IsSoundQuery query.now (length coords.now) (length metrics.now) }
        requires inside { IsTrue (span_has query.now.span coords.now) }
        ensures { Gains query.now (coded_row coords.now metrics.now ∷ []) self.old self.new }
    {
        self.rows += 1;
        self.counts[place] += 1;
        add_row_at(
            self.tallies.as_mut_slice(),
            place,
            query.items.as_slice(),
            metrics,
        );
    }

    /// Adds rows, by their totals, to the group at a place.
    pub fn add_totals(&mut self, query: &BoundQuery, place: usize, count: u64, more: &[Tally])
        requires place { place < length self.old.keys }
        requires held { HasRoom query.now count self.old }
        requires some { HasTotals query.now (group_key self.old.keys place) count more.now }
        ensures keys { self.new.keys ≡ self.old.keys }
        ensures rows { self.new.rows ≡ self.old.rows + count }
        ensures gains { GainsTotals query.now place count more.now self.old self.new }
    {
        self.rows += count;
        self.counts[place] += count;
        add_all_at(self.tallies.as_mut_slice(), place, more);
    }

    /// Takes rows, by their totals, out of the group at a place.
    fn take_totals(&mut self, query: &BoundQuery, place: usize, count: u64, less: &[Tally])
        requires additive { All IsAdditive query.now.items }
        requires place { place < length self.old.keys }
        requires held { CanLoseTotals query.now place count less.now self.old }
        ensures keys { self.new.keys ≡ self.old.keys }
        ensures loses { LosesTotals query.now place count less.now self.old self.new }
    {
        self.rows -= count;
        self.counts[place] -= count;
        take_all_at(self.tallies.as_mut_slice(), place, less);
    }

    /// Adds the rows of others. Where memory is wanted they stand for what they stood for.
    pub fn join(
        &mut self,
        alloc: Global,
        query: &BoundQuery,
        other: &Groups,
    ) -> Result<(), AllocError>
        requires held { HasRoom query.now other.now.rows self.old }
        requires other { HasRoom query.now 0 other.now }
        ensures ok { OnOk result (Adds query.now other.now self.old self.new) }
        ensures err { OnErr result (StandsAlike query.now self.old self.new) }
    {
        let places = self.places_of(alloc, query, other)?;
        self.add_groups(query, other, places.as_slice());
        Ok(())
    }

    /// The places of the keys of others, for which groups are made where there are none.
    fn places_of(
        &mut self,
        alloc: Global,
        query: &BoundQuery,
        other: &Groups,
    ) -> Result<Vec<usize>, AllocError>
        requires held { HasRoom query.now 0 self.old }
        requires other { HasRoom query.now 0 other.now }
        ensures same { StandsAlike query.now self.old self.new }
        ensures rows { self.new.rows ≡ self.old.rows }
        ensures places { IfOk result (λ ps. ArePlaces self.new.keys ps.items other.now.keys) }
    {
        let mut places = Vec::with_capacity(alloc, other.keys.len())?;
        'groups: for theirs in 0..other.keys.len() {
            let place = self.place(query, other.keys.at(theirs))?;
            places.push(place)?;
        }
        Ok(places)
    }

    /// Adds the rows of others, group by group, to the groups at these places.
    fn add_groups(&mut self, query: &BoundQuery, other: &Groups, places: &[usize])
        requires held { HasRoom query.now other.now.rows self.old }
        requires other { HasRoom query.now 0 other.now }
        requires places { ArePlaces self.old.keys places.now other.now.keys }
        ensures { Adds query.now other.now self.old self.new }
    {
        let width = query.items.len();
        'groups: for theirs in 0..other.keys.len() {
            let more = chunk(other.tallies.as_slice(), theirs, width);
            self.add_totals(query, places[theirs], other.counts[theirs], more);
        }
    }

    /// Takes the rows of others out.
    pub fn remove(&mut self, query: &BoundQuery, other: &Groups)
        requires additive { All IsAdditive query.now.items }
        requires held { HasRowsOf query.now other.now self.old }
        ensures { Removes query.now other.now self.old self.new }
    {
        'groups: for theirs in 0..other.keys.len() {
            self.take_group(query, other, theirs);
        }
    }

    /// Takes the rows of a group of others out. They have none where its key has no group here.
    fn take_group(&mut self, query: &BoundQuery, other: &Groups, theirs: usize)
        requires additive { All IsAdditive query.now.items }
        requires theirs { theirs < length other.now.keys }
        requires held { CanLoseGroup query.now other.now theirs self.old }
        ensures { LosesGroup query.now other.now theirs self.old self.new }
    {
        if let Some(place) = self.keys.find(other.keys.at(theirs)) {
            let less = chunk(other.tallies.as_slice(), theirs, query.items.len());
            self.take_totals(query, place, other.counts[theirs], less);
        }
    }

    /// Adds a group without rows. Where memory is wanted nothing changes.
    fn push(&mut self, items: &[BoundItem], key: &[u32]) -> Result<(), AllocError>
        requires { is_among self.old.keys key.now ≡ false }
        ensures rows { self.new.rows ≡ self.old.rows }
        ensures keys { OnOk result (self.new.keys ≡ self.old.keys ++ key.now ∷ []) }
        ensures counts { OnOk result (self.new.counts.items ≡ self.old.counts.items ++ 0 ∷ []) }
        ensures tallies { OnOk result (HasEmptyTallies items.now self.old self.new) }
        ensures keys_stay { OnErr result (self.new.keys ≡ self.old.keys) }
        ensures counts_stay { OnErr result (self.new.counts.items ≡ self.old.counts.items) }
        ensures tallies_stay { OnErr result (self.new.tallies.items ≡ self.old.tallies.items) }
    {
        self.counts.reserve(1)?;
        self.tallies.reserve(items.len())?;
        self.keys.push(key)?;
        self.counts.push_reserved(0);
        push_empty(&mut self.tallies, items);
        Ok(())
    }
}
