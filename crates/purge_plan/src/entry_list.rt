//! Single entries, and entries put at the front of a list in place.

ghost use Rattle.std.specs.Prelude.{◌≡◌, ℕ, ◌+◌, ◌<◌, ◌≤◌, ◌||◌, length, take, drop};
ghost use Rattle.cube_values.specs.EpochsVector.{rows_of, is_one_with};
ghost use Rattle.purge_plan.specs.Purged.{is_old_mark, are_old_runs, merged_entry, with_merged_entry, with_counted_entry};

use cube_values::Entry;

/// Puts an entry after the first `len`, which lead to `rows` rows, as a purge at `epoch` does: a run
/// that adds no row is left out, and what joins the last of them takes its place. Answers how many they
/// then are.
pub fn put(entries: &mut [Entry], len: usize, rows: u64, new: Entry, epoch: u64) -> usize
    requires room { len < length entries.old }
    requires rows { rows_of (take len entries.old) ≡ rows }
    ensures front { take result entries.new ≡ with_counted_entry epoch (take len entries.old) new }
    ensures rest { (n : ℕ) → len < n → drop n entries.new ≡ drop n entries.old }
    ensures within { result ≤ len + 1 }
    ensures long { length entries.new ≡ length entries.old }
{
    match new {
        Entry::Run { end, .. } if end == rows => len,
        _ => put_merged(entries, len, new, epoch),
    }
}

// The same for an entry that is no empty run.
fn put_merged(entries: &mut [Entry], len: usize, new: Entry, epoch: u64) -> usize
    requires { len < length entries.old }
    ensures front { take result entries.new ≡ with_merged_entry epoch (take len entries.old) new }
    ensures rest { (n : ℕ) → len < n → drop n entries.new ≡ drop n entries.old }
    ensures within { result ≤ len + 1 }
    ensures long { length entries.new ≡ length entries.old }
{
    if len > 0 && are_merged(entries[len - 1], new, epoch) {
        entries[len - 1] = merged_entry(entries[len - 1], new);
        len
    } else {
        entries[len] = new;
        len + 1
    }
}

// Whether two neighbours become one in a purge at `most`.
fn are_merged(a: Entry, b: Entry, most: u64) -> bool
    ensures { result ≡ (is_one_with a b || are_old_runs most a b) }
{
    a.is_one_with(b) || are_old(a, b, most)
}

// Whether two entries are runs at or below `most`.
fn are_old(a: Entry, b: Entry, most: u64) -> bool
    ensures { result ≡ are_old_runs most a b }
{
    match (a, b) {
        (Entry::Run { epoch, .. }, Entry::Run { epoch: next, .. }) => epoch <= most && next <= most,
        _ => false,
    }
}

// What two neighbours become that are merged.
fn merged_entry(a: Entry, b: Entry) -> Entry
    ensures { result ≡ merged_entry a b }
{
    match (a, b) {
        (Entry::Run { epoch, .. }, Entry::Run { epoch: next, end }) => Entry::Run {
            epoch: epoch.max(next),
            end,
        },
        _ => b,
    }
}

/// Whether the entry is a mark at or below `most`.
pub fn is_old(entry: Entry, most: u64) -> bool
    ensures { result ≡ is_old_mark most entry }
{
    match entry {
        Entry::Run { .. } => false,
        Entry::Mark { epoch, .. } => epoch <= most,
    }
}
