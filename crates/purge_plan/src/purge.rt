//! Purges the entries of a brick in place: one pass finds the greatest old mark, one leaves what stays.

ghost use Rattle.std.specs.Prelude.{◌≡◌, ℕ, ◌≤◌, true, length, take, replicate, vec_len, vec_capacity};
ghost use Rattle.std.specs.List.{list_any};
ghost use Rattle.cube_values.specs.BitRows.{set_bits};
ghost use Rattle.cube_values.specs.EpochsVector.{IsVector};
ghost use Rattle.epochs_vector.specs.Limits.{is_below};
ghost use Rattle.purge_plan.specs.Purged.{is_removed_by, spared_bits, purged_entries};

use crate::entry_list::{is_old, put};
use crate::limit::limit_of;
use cube_values::{Bits, Entry};
use epochs_vector::Limit;

/// Purges at `epoch`. Rows that a mark at or below `epoch` hides are removed, whoever looks, and with
/// them the marks at or below `epoch`; neighbouring runs at or below `epoch` become one run of their
/// greatest epoch. `keep` has one bit for each row, all set, and is left set where the row stays. The work
/// is linear in entries and words of bits, and takes no memory.
pub fn plan(entries: &mut Vec<Entry>, epoch: u64, keep: &mut Bits)
    requires vector { IsVector entries.old.items (length keep.old.bits) }
    requires all { keep.old.bits ≡ replicate (length keep.old.bits) true }
    ensures entries { entries.new.items ≡ purged_entries epoch entries.old.items }
    ensures keep { keep.new.bits ≡ spared_bits epoch entries.old.items }
    ensures vector { IsVector entries.new.items (set_bits keep.new.bits) }
    ensures fewer { vec_len entries.new ≤ vec_len entries.old }
    ensures capacity { vec_capacity entries.new ≡ vec_capacity entries.old }
    ensures room { keep.new.room ≡ keep.old.room }
{
    let limit = limit_of(entries.as_slice(), epoch);
    let len = leave(entries.as_mut_slice(), epoch, &limit, keep);
    entries.truncate(len);
}

// Leaves the purged entries at the front, clears the bits of the rows below the limit, and answers how
// many entries are left.
fn leave(entries: &mut [Entry], epoch: u64, limit: &Limit, keep: &mut Bits) -> usize
    requires vector { IsVector entries.old (length keep.old.bits) }
    requires all { keep.old.bits ≡ replicate (length keep.old.bits) true }
    requires limit { (j i : ℕ)
        → list_any (is_removed_by epoch j i) entries.old ≡ is_below limit.now j i }
    ensures front { take result entries.new ≡ purged_entries epoch entries.old }
    ensures within { result ≤ length entries.old }
    ensures keep { keep.new.bits ≡ spared_bits epoch entries.old }
    ensures room { keep.new.room ≡ keep.old.room }
{
    let mut len = 0;
    let mut rows = 0;
    let mut from = 0;
    for at in 0..entries.len() {
        let entry = entries[at];
        let to = entry.rows_after();
        let first = limit.first_shown(entry.maker(), from, to);
        keep.fill(from, first, false);
        let more = rows + (to - first);
        if !is_old(entry, epoch) {
            len = put(entries, len, rows, entry.with_rows_after(more), epoch);
        }
        rows = more;
        from = to;
    }
    len
}
