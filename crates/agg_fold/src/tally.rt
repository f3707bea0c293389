//! What a group has of its rows for an item of a query.

ghost use Rattle.std.specs.Prelude.{◌≡◌, ℕ, [], List, length};
ghost use Rattle.cube_values.specs.Queries.{IsSoundItem};
ghost use Rattle.agg_fold.specs.Tallies.{tally_of, metric_asked, Fits, IsSmall, tally_with, tally_with_row, tally_sum, tally_difference, told_tally};

use cube_values::BoundItem;

/// What a group has of a metric of its rows.
#[derive(Clone, Copy, Debug)]
pub enum Tally {
    /// Nothing: the item asks for no metric.
    Unused,
    /// The sum.
    Total(i128),
    /// The least number, and the greatest of 64 bits where there is no row.
    Least(i64),
    /// The greatest number, and the least of 64 bits where there is no row.
    Greatest(i64),
}

impl Tally {
    /// The tally of no rows.
    pub fn empty(item: BoundItem) -> Tally
        ensures { result ≡ tally_of [] item }
    {
        match item {
            BoundItem::Group(_) | BoundItem::Count => Tally::Unused,
            BoundItem::Sum(_) | BoundItem::Avg(_) => Tally::Total(0),
            BoundItem::Min(_) => Tally::Least(i64::MAX),
            BoundItem::Max(_) => Tally::Greatest(i64::MIN),
        }
    }

    /// The tally of rows of which the sum, the least and the greatest number are told.
    pub fn told(item: BoundItem, sum: i128, least: i64, greatest: i64) -> Tally
        ensures { result ≡ told_tally item sum least greatest }
    {
        match item {
            BoundItem::Group(_) | BoundItem::Count => Tally::Unused,
            BoundItem::Sum(_) | BoundItem::Avg(_) => Tally::Total(sum),
            BoundItem::Min(_) => Tally::Least(least),
            BoundItem::Max(_) => Tally::Greatest(greatest),
        }
    }

    /// With a row more.
    pub fn with_row(self, item: BoundItem, metrics: &[i64]) -> Tally
        requires small { IsSmall self }
        requires item { (group : List ℕ) × IsSoundItem group (length metrics.now) item }
        ensures fit { Fits metrics.now item }
        ensures more { result ≡ tally_with_row metrics.now item self }
    {
        match metric_asked(item) {
            None => self,
            Some(metric) => self.with(metrics[metric as usize]),
        }
    }

    /// With a number more.
    fn with(self, n: i64) -> Tally
        requires { IsSmall self }
        ensures { result ≡ tally_with self n }
    {
        match self {
            Tally::Unused => self,
            Tally::Total(sum) => Tally::Total(sum + i128::from(n)),
            Tally::Least(least) => Tally::Least(least.min(n)),
            Tally::Greatest(greatest) => Tally::Greatest(greatest.max(n)),
        }
    }

    /// Of the rows of both.
    pub fn sum(self, other: Tally) -> Tally
        requires small { IsSmall self }
        requires other_small { IsSmall other }
        ensures { result ≡ tally_sum self other }
    {
        match (self, other) {
            (Tally::Total(sum), Tally::Total(more)) => Tally::Total(sum + more),
            (Tally::Least(least), Tally::Least(n)) => Tally::Least(least.min(n)),
            (Tally::Greatest(greatest), Tally::Greatest(n)) => Tally::Greatest(greatest.max(n)),
            _ => self,
        }
    }

    /// A sum without that of other rows.
    pub fn difference(self, other: Tally) -> Tally
        requires small { IsSmall self }
        requires other_small { IsSmall other }
        ensures { result ≡ tally_difference self other }
    {
        match (self, other) {
            (Tally::Total(sum), Tally::Total(less)) => Tally::Total(sum - less),
            _ => self,
        }
    }
}

/// The metric that an item asks for.
fn metric_asked(item: BoundItem) -> Option<u32>
    ensures { result ≡ metric_asked item }
{
    match item {
        BoundItem::Group(_) | BoundItem::Count => None,
        BoundItem::Sum(metric) => Some(metric),
        BoundItem::Min(metric) => Some(metric),
        BoundItem::Max(metric) => Some(metric),
        BoundItem::Avg(metric) => Some(metric),
    }
}
