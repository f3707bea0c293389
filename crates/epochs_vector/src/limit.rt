//! The greatest of some marks. It alone says which rows they hide.

ghost use Rattle.std.specs.Prelude.{◌≡◌, ℕ, ◌<◌, ◌≤◌, ◌||◌, nat_lt};
ghost use Rattle.std.specs.List.{list_any};
ghost use Rattle.cube_values.specs.EpochsVector.{is_hidden_by, mark_hides};
ghost use Rattle.epochs_vector.specs.Limits.{is_below};

use cube_values::{Entry, Snapshot};

/// Hidden are the rows of all epochs below this one, and of this epoch the rows below `row`.
#[derive(Clone, Copy, Debug)]
pub struct Limit {
    pub epoch: u64,
    pub row: u64,
}

impl Limit {
    /// The greater of the limit and a mark of `epoch` at row `at`: what either hides.
    pub fn or(self, epoch: u64, at: u64) -> Limit
        ensures { (j i : ℕ) → is_below result j i ≡ (is_below self j i || mark_hides epoch at j i) }
    {
        if self.epoch < epoch || (self.epoch == epoch && self.row < at) {
            Limit { epoch, row: at }
        } else {
            self
        }
    }

    /// Of the rows from `from` up to `end` of an epoch, the first that is not hidden, or `end`.
    pub fn first_shown(&self, epoch: u64, from: u64, end: u64) -> u64
        requires { from ≤ end }
        ensures low { from ≤ result }
        ensures high { result ≤ end }
        ensures first { (i : ℕ) → from ≤ i → i < end → is_below self.now epoch i ≡ nat_lt i result }
    {
        if epoch < self.epoch {
            end
        } else if epoch == self.epoch {
            self.row.max(from).min(end)
        } else {
            from
        }
    }
}

/// What the marks hide that the snapshot sees.
pub(crate) fn limit_of(entries: &[Entry], snapshot: &Snapshot) -> Limit
    ensures { (j i : ℕ)
        → list_any (is_hidden_by snapshot.now j i) entries.now ≡ is_below result j i }
{
    let mut limit = Limit { epoch: 0, row: 0 };
    for entry in entries {
        limit = with_mark(limit, *entry, snapshot);
    }
    limit
}

// What the limit hides and the entry besides, where it is a mark that the snapshot sees.
fn with_mark(limit: Limit, entry: Entry, snapshot: &Snapshot) -> Limit
    ensures { (j i : ℕ)
        → is_below result j i ≡ (is_below limit j i || is_hidden_by snapshot.now j i entry) }
{
    match entry {
        Entry::Run { .. } => limit,
        Entry::Mark { epoch, at } => {
            if snapshot.sees(epoch) {
                limit.or(epoch, at)
            } else {
                limit
            }
        }
    }
}
