//! What the marks at or below an epoch remove: the greatest of them alone says it.

ghost use Rattle.std.specs.Prelude.{◌≡◌, ℕ, ◌||◌};
ghost use Rattle.std.specs.List.{list_any};
ghost use Rattle.epochs_vector.specs.Limits.{is_below};
ghost use Rattle.purge_plan.specs.Purged.{is_removed_by};

use cube_values::Entry;
use epochs_vector::Limit;

/// What the marks at or below the epoch remove.
pub fn limit_of(entries: &[Entry], epoch: u64) -> Limit
    ensures { (j i : ℕ) → list_any (is_removed_by epoch j i) entries.now ≡ is_below result j i }
{
    let mut limit = Limit { epoch: 0, row: 0 };
    for entry in entries {
        limit = with_mark(limit, *entry, epoch);
    }
    limit
}

// What the limit removes and the entry besides, where it is a mark at or below `most`.
fn with_mark(limit: Limit, entry: Entry, most: u64) -> Limit
    ensures { (j i : ℕ)
        → is_below result j i ≡ (is_below limit j i || is_removed_by most j i entry) }
{
    match entry {
        Entry::Run { .. } => limit,
        Entry::Mark { epoch, at } => {
            if epoch <= most {
                limit.or(epoch, at)
            } else {
                limit
            }
        }
    }
}
