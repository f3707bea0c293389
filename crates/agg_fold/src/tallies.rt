//! The tallies of groups, item by item: those of a group stand in one row.

ghost use Rattle.std.specs.Prelude.{◌≡◌, ◌++◌, ◌+◌, ◌*◌, ◌≤◌, ℕ, [], List, All, length, map, OnOk, vec_capacity, vec_len};
ghost use Rattle.cube_values.specs.Queries.{IsSoundItem};
ghost use Rattle.agg_fold.specs.Tallies.{tally_of, Fits, IsSmall, tallies_with_row, tally_sums, tally_differences, AreTold, chunk_of, with_row_at, sums_at, differences_at};

use crate::tally::Tally;
use cube_values::BoundItem;
use std::alloc::AllocError;

/// The tallies of the group at a place, where each has so many.
pub fn chunk(tallies: &[Tally], place: usize, width: usize) -> &[Tally]
    requires { place * width + width ≤ length tallies.now }
    ensures { result.now ≡ chunk_of place width tallies.now }
{
    let first = place * width;
    &tallies[first..first + width]
}

/// Adds a row to the group at a place.
pub fn add_row_at(tallies: &mut [Tally], place: usize, items: &[BoundItem], metrics: &[i64])
    requires within { place * length items.now + length items.now ≤ length tallies.old }
    requires small { All IsSmall (chunk_of place (length items.now) tallies.old) }
    requires items { (group : List ℕ) × All (IsSoundItem group (length metrics.now)) items.now }
    ensures fit { All (Fits metrics.now) items.now }
    ensures more { tallies.new ≡ with_row_at place items.now metrics.now tallies.old }
{
    let first = place * items.len();
    add_row(&mut tallies[first..first + items.len()], items, metrics)
}

/// Adds rows, by their tallies, to the group at a place.
pub fn add_all_at(tallies: &mut [Tally], place: usize, more: &[Tally])
    requires within { place * length more.now + length more.now ≤ length tallies.old }
    requires small { All IsSmall (chunk_of place (length more.now) tallies.old) }
    requires more { All IsSmall more.now }
    ensures { tallies.new ≡ sums_at place more.now tallies.old }
{
    let first = place * more.len();
    add_all(&mut tallies[first..first + more.len()], more)
}

/// Takes rows, by their tallies, out of the group at a place.
pub fn take_all_at(tallies: &mut [Tally], place: usize, less: &[Tally])
    requires within { place * length less.now + length less.now ≤ length tallies.old }
    requires small { All IsSmall (chunk_of place (length less.now) tallies.old) }
    requires less { All IsSmall less.now }
    ensures { tallies.new ≡ differences_at place less.now tallies.old }
{
    let first = place * less.len();
    take_all(&mut tallies[first..first + less.len()], less)
}

/// Adds a row, item by item.
fn add_row(tallies: &mut [Tally], items: &[BoundItem], metrics: &[i64])
    requires long { length tallies.old ≡ length items.now }
    requires small { All IsSmall tallies.old }
    requires items { (group : List ℕ) × All (IsSoundItem group (length metrics.now)) items.now }
    ensures fit { All (Fits metrics.now) items.now }
    ensures more { tallies.new ≡ tallies_with_row metrics.now items.now tallies.old }
{
    'items: for i in 0..items.len() {
        tallies[i] = tallies[i].with_row(items[i], metrics);
    }
}

/// Adds rows by their tallies, item by item.
pub fn add_all(tallies: &mut [Tally], more: &[Tally])
    requires long { length tallies.old ≡ length more.now }
    requires small { All IsSmall tallies.old }
    requires more { All IsSmall more.now }
    ensures { tallies.new ≡ tally_sums tallies.old more.now }
{
    'items: for i in 0..more.len() {
        tallies[i] = tallies[i].sum(more[i]);
    }
}

/// Takes rows out by their tallies, item by item.
fn take_all(tallies: &mut [Tally], less: &[Tally])
    requires long { length tallies.old ≡ length less.now }
    requires small { All IsSmall tallies.old }
    requires less { All IsSmall less.now }
    ensures { tallies.new ≡ tally_differences tallies.old less.now }
{
    'items: for i in 0..less.len() {
        tallies[i] = tallies[i].difference(less[i]);
    }
}

/// Adds the tallies of no rows, for which there is room.
pub fn push_empty(tallies: &mut Vec<Tally>, items: &[BoundItem])
    requires { vec_len tallies.old + length items.now ≤ vec_capacity tallies.old }
    ensures { tallies.new.items ≡ tallies.old.items ++ map (tally_of []) items.now }
{
    'items: for item in items {
        tallies.push_reserved(Tally::empty(*item));
    }
}

/// Puts in place of what is there the tallies of rows of which the numbers are told.
pub fn gather_told(
    tallies: &mut Vec<Tally>,
    items: &[BoundItem],
    sums: &[i128],
    least: &[i64],
    greatest: &[i64],
) -> Result<(), AllocError>
    requires sums { length items.now ≤ length sums.now }
    requires least { length items.now ≤ length least.now }
    requires greatest { length items.now ≤ length greatest.now }
    ensures { OnOk result (AreTold items.now sums.now least.now greatest.now tallies.new.items) }
{
    tallies.clear();
    'items: for i in 0..items.len() {
        tallies.push(Tally::told(items[i], sums[i], least[i], greatest[i]))?;
    }
    Ok(())
}
