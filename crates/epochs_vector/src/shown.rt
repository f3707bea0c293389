//! Sets the bits of the rows that a snapshot sees, a run at a time.

ghost use Rattle.std.specs.Prelude.{◌≡◌, ℕ, ◌<◌, ◌≤◌, false, length, slice_index_or};
ghost use Rattle.cube_values.specs.EpochsVector.{Leads, epoch_at};
ghost use Rattle.epochs_vector.specs.Seen.{is_shown, ShowsRun};

use crate::limit::Limit;
use cube_values::{Bits, Entry, Snapshot};

/// Of bits that are all clear, one for each row, sets those of the rows that the snapshot sees.
pub fn show_rows(bits: &mut Bits, entries: &[Entry], snapshot: &Snapshot, limit: &Limit)
    requires leads { Leads 0 entries.now (length bits.old.bits) }
    requires clear { (i : ℕ) → slice_index_or bits.old.bits i false ≡ false }
    ensures long { length bits.new.bits ≡ length bits.old.bits }
    ensures shown { (i : ℕ) → i < length bits.old.bits
        → slice_index_or bits.new.bits i false
        ≡ is_shown snapshot.now limit.now (epoch_at entries.now i) i }
    ensures room { bits.new.room ≡ bits.old.room }
{
    let mut from = 0;
    let mut left = entries;
    'entries: while let [first, rest @ ..] = left {
        if let Entry::Run { epoch, end } = *first {
            show_run(bits, snapshot, limit, epoch, from, end);
            from = end;
        }
        left = rest;
    }
}

// Sets the bits of the rows of one run that the snapshot sees.
fn show_run(bits: &mut Bits, snapshot: &Snapshot, limit: &Limit, epoch: u64, from: u64, end: u64)
    requires order { from ≤ end }
    requires within { end ≤ length bits.old.bits }
    requires clear { (i : ℕ) → from ≤ i → slice_index_or bits.old.bits i false ≡ false }
    ensures shown { ShowsRun snapshot.now limit.now epoch from end bits.old.bits bits.new.bits }
    ensures room { bits.new.room ≡ bits.old.room }
{
    if snapshot.sees(epoch) {
        bits.fill(limit.first_shown(epoch, from, end), end, true);
    }
}
