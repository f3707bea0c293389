//! Worked cases, and many small vectors beside a look at every run and every mark.

ghost use Rattle.std.specs.Prelude.{◌≡◌, [], length, vec_capacity};
ghost use Rattle.cube_values.specs.EpochsVector.{IsVector};

use crate::looks::{all_rows, are_entries, is_seen, next, put, vector_of};
use cube_values::{Bits, Entry, EpochList, Snapshot};
use epochs_vector::Epochs;
use std::alloc::{AllocError, Global};
use std::process::Abort;

const RUNS_AND_MARKS: usize = 8;

// A reader at the epoch.
fn reader(epoch: u64) -> Snapshot {
    Snapshot {
        epoch,
        deps: EpochList::new(),
        own: false,
    }
}

// Leaves no entry and no bit of a vector that has a bit for each row.
fn clear_all(entries: &mut Vec<Entry>, bits: &mut Bits)
    requires { IsVector entries.old.items (length bits.old.bits) }
    ensures entries { entries.new.items ≡ [] }
    ensures memory { vec_capacity entries.new ≡ vec_capacity entries.old }
    ensures bits { bits.new.bits ≡ [] }
{
    entries.clear();
    bits.clear(0);
}

// Whether the bits are those of a text, with a 1 for each one that is set.
fn are_bits(bits: &Bits, shown: &str) -> bool {
    let shown = shown.as_bytes();
    if bits.len() != shown.len() as u64 {
        return false;
    }
    for i in 0..shown.len() {
        if bits.get(i as u64) != (shown[i] == b'1') {
            return false;
        }
    }
    true
}

fn shows_to(epochs: &Epochs, snapshot: &Snapshot, shown: &str) -> Result<bool, AllocError> {
    let bits = epochs.visible_bits(snapshot)?;
    Ok(are_bits(&bits, shown))
}

#[test]
fn runs_are_extended_and_seen(rt: HostRuntime) {
    let mut epochs = vector_of(&rt, rt.alloc(), "1:2 2:3 1:1");
    assert!(rt; are_entries(epochs.entries(), "run:1:2 run:2:5 run:1:6"));
    assert!(rt; put(&mut epochs, 1, 4) == Ok(()));
    assert!(rt; are_entries(epochs.entries(), "run:1:2 run:2:5 run:1:10"));
    assert!(rt; shows_to(&epochs, &reader(1), "1100011111") == Ok(true));
}

// Whether the epoch's removal leaves these entries, and the rows that are shown by a 1.
fn leaves(
    rt: &impl Abort,
    alloc: Global,
    steps: &str,
    epoch: u64,
    entries: &str,
    rows: &str,
) -> bool {
    let mut epochs = vector_of(rt, alloc, steps);
    let mut keep = all_rows(rt, alloc, epochs.rows());
    epochs.remove_epoch(epoch, &mut keep);
    are_entries(epochs.entries(), entries)
        && are_bits(&keep, rows)
        && keep.ones() == rows.matches('1').count() as u64
}

#[test]
fn removal_leaves_the_others(rt: HostRuntime) {
    let steps = "1:2 2:2 2:0 1:1 3:1";
    assert!(rt; leaves(&rt, rt.alloc(), steps, 2, "run:1:3 run:3:4", "110011"));
}

#[test]
fn removal_leaves_one_of_equal_marks(rt: HostRuntime) {
    // The second mark stands at row 2 until the rows before it are taken out.
    assert!(rt; leaves(&rt, rt.alloc(), "5:0 3:2 5:0", 3, "mark:5:0", "00"));
}

#[test]
fn a_function_changes_entries_and_bits(rt: HostRuntime) {
    let mut epochs = vector_of(&rt, rt.alloc(), "1:2 2:0 1:3");
    let mut keep = all_rows(&rt, rt.alloc(), epochs.rows());
    assert!(rt; epochs.entries().len() == 3);
    epochs.with_entries(&mut keep, |entries, bits| clear_all(entries, bits));
    assert!(rt; epochs.rows() == 0 && epochs.entries().len() == 0 && keep.len() == 0);
}

// A small vector of epochs 1 to 5.
fn some_epochs(rt: &impl Abort, alloc: Global, seed: &mut u64) -> Epochs {
    let mut epochs = Epochs::new(alloc);
    for _ in 0..RUNS_AND_MARKS {
        let epoch = 1 + next(seed) % 5;
        let rows = match next(seed) % 4 {
            0 => 0,
            1 => 1 + next(seed) % 40,
            _ => 1 + next(seed) % 3,
        };
        put(&mut epochs, epoch, rows).expect(rt, "memory");
    }
    epochs
}

// A snapshot with deps among the epochs 1 to 5.
fn some_snapshot(seed: &mut u64) -> Snapshot {
    let mut snapshot = reader(next(seed) % 7);
    for epoch in 1..6 {
        if next(seed) % 4 == 0 && snapshot.deps.as_slice().len() < EpochList::MOST {
            snapshot.deps.push(epoch);
        }
    }
    snapshot
}

// Whether the bits of the rows that are seen are those of a plain look.
fn bits_are_plain(epochs: &Epochs, snapshot: &Snapshot) -> Result<bool, AllocError> {
    let bits = epochs.visible_bits(snapshot)?;
    if bits.len() != epochs.rows() {
        return Ok(false);
    }
    for row in 0..bits.len() {
        if bits.get(row) != is_seen(epochs.entries(), snapshot, row) {
            return Ok(false);
        }
    }
    Ok(true)
}

fn some_bits_are_plain(rt: &impl Abort, alloc: Global, seed: &mut u64) -> bool {
    let epochs = some_epochs(rt, alloc, seed);
    let snapshot = some_snapshot(seed);
    bits_are_plain(&epochs, &snapshot) == Ok(true)
}

#[test]
fn bits_are_those_of_a_plain_look(rt: HostRuntime) {
    let mut seed = 1;
    for case in 0..3000 {
        assert!(rt;
            some_bits_are_plain(&rt, rt.alloc(), &mut seed),
            "case {case}"
        );
    }
}

// Whether the rows that stay are seen as before, and no other row was seen.
fn agree_on_kept(before: &Bits, keep: &Bits, after: &Bits) -> bool {
    if keep.len() != before.len() || keep.ones() != after.len() {
        return false;
    }
    let mut left = 0;
    for row in 0..before.len() {
        if keep.get(row) {
            if left >= after.len() || after.get(left) != before.get(row) {
                return false;
            }
            left += 1;
        } else if before.get(row) {
            return false;
        }
    }
    true
}

// Whether the epoch's removal changes nothing else that the snapshot sees.
fn keeps_the_others(
    rt: &impl Abort,
    alloc: Global,
    epochs: &mut Epochs,
    snapshot: &Snapshot,
    epoch: u64,
) -> bool {
    let before = epochs.visible_bits(snapshot).expect(rt, "memory");
    let mut keep = all_rows(rt, alloc, epochs.rows());
    epochs.remove_epoch(epoch, &mut keep);
    let after = epochs.visible_bits(snapshot).expect(rt, "memory");
    agree_on_kept(&before, &keep, &after)
}

// The same for a snapshot that does not see the epoch.
fn some_removal_keeps_the_others(rt: &impl Abort, alloc: Global, seed: &mut u64) -> bool {
    let mut epochs = some_epochs(rt, alloc, seed);
    let mut snapshot = some_snapshot(seed);
    let epoch = 1 + next(seed) % 5;
    if snapshot.sees(epoch) && snapshot.deps.as_slice().len() < EpochList::MOST {
        snapshot.deps.push(epoch);
    }
    keeps_the_others(rt, alloc, &mut epochs, &snapshot, epoch)
}

#[test]
fn removal_changes_no_other_row(rt: HostRuntime) {
    let mut seed = 2;
    for case in 0..3000 {
        assert!(rt;
            some_removal_keeps_the_others(&rt, rt.alloc(), &mut seed),
            "case {case}"
        );
    }
}
