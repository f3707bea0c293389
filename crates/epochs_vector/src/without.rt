//! Takes the entries and the rows of one epoch out, in place and in one pass.

ghost use Rattle.std.specs.Prelude.{◌≡◌, ℕ, ◌+◌, ◌<◌, ◌≤◌, true, length, take, drop, replicate};
ghost use Rattle.cube_values.specs.BitRows.{set_bits};
ghost use Rattle.cube_values.specs.EpochsVector.{IsVector, vector_with_entry};
ghost use Rattle.epochs_vector.specs.Without.{staying_bits, entries_without};

use cube_values::{Bits, Entry};

/// How many entries and rows are left.
#[derive(Clone, Copy, Debug)]
pub struct Left {
    pub entries: usize,
    pub rows: u64,
}

/// Leaves the entries without the epoch at the front, and clears the bits of its rows.
pub fn take_out(entries: &mut [Entry], epoch: u64, keep: &mut Bits) -> Left
    requires vector { IsVector entries.old (length keep.old.bits) }
    requires all { keep.old.bits ≡ replicate (length keep.old.bits) true }
    ensures front { take result.entries entries.new ≡ entries_without epoch entries.old }
    ensures within { result.entries ≤ length entries.old }
    ensures rows { result.rows ≡ set_bits (staying_bits epoch entries.old) }
    ensures keep { keep.new.bits ≡ staying_bits epoch entries.old }
    ensures room { keep.new.room ≡ keep.old.room }
{
    let mut len = 0;
    let mut rows = 0;
    let mut from = 0;
    for at in 0..entries.len() {
        let entry = entries[at];
        let to = entry.rows_after();
        if entry.maker() == epoch {
            keep.fill(from, to, false);
        } else {
            rows += to - from;
            len = put_at(entries, len, entry.with_rows_after(rows));
        }
        from = to;
    }
    Left { entries: len, rows }
}

// Puts an entry after the first `len`, in the place of the last of them where the two are one, and
// answers how many they then are.
fn put_at(entries: &mut [Entry], len: usize, new: Entry) -> usize
    requires { len < length entries.old }
    ensures front { take result entries.new ≡ vector_with_entry (take len entries.old) new }
    ensures rest { (n : ℕ) → len < n → drop n entries.new ≡ drop n entries.old }
    ensures within { result ≤ len + 1 }
    ensures long { length entries.new ≡ length entries.old }
{
    if len > 0 && entries[len - 1].is_one_with(new) {
        entries[len - 1] = new;
        len
    } else {
        entries[len] = new;
        len + 1
    }
}
