//! Worked cases, and many small vectors beside a look at every row and every mark.

ghost use Rattle.std.specs.Prelude.{◌≡◌, ◌≤◌, true, replicate};
ghost use Rattle.cube_values.specs.EpochsVector.{rows_of};
ghost use Rattle.purge_plan.specs.Purged.{spared_bits, purged_entries};

use crate::looks::{all_rows, are_entries, epoch_of, hides, is_seen, next, put, vector_of};
use cube_values::{Bits, Entry, EpochList, Snapshot};
use epochs_vector::Epochs;
use purge_plan::{
    plan, purge_changes_nothing_seen, purge_keeps_later_epochs, purge_leaves_no_old_mark,
};
use std::alloc::{AllocError, Global};
use std::process::Abort;

const RUNS_AND_MARKS: usize = 8;

// What a purge leaves: the entries, and for each row whether it stays.
#[derive(Debug, Drop)]
struct Left {
    entries: Vec<Entry>,
    keep: Bits,
}

// Purges a copy of the entries.
fn purge_alone(rt: &impl Abort, alloc: Global, epochs: &Epochs, epoch: u64) -> Left {
    let mut entries = Vec::from_slice(alloc, epochs.entries()).expect(rt, "memory");
    let mut keep = all_rows(rt, alloc, epochs.rows());
    plan(&mut entries, epoch, &mut keep);
    Left { entries, keep }
}

// Purges the vector itself.
fn purge_within(epochs: &mut Epochs, epoch: u64, keep: &mut Bits)
    requires { keep.old.bits ≡ replicate (rows_of epochs.old.entries) true }
    ensures entries { epochs.new.entries ≡ purged_entries epoch epochs.old.entries }
    ensures keep { keep.new.bits ≡ spared_bits epoch epochs.old.entries }
    ensures spare { epochs.old.spare ≤ epochs.new.spare }
{
    let _entries = epochs.entries();
    epochs.with_entries(keep, |entries, bits| plan(entries, epoch, bits));
}

// Whether the bits that are set are those at `rows`, which rise.
fn are_set(keep: &Bits, rows: &[u64]) -> bool {
    let mut found = 0;
    for row in 0..keep.len() {
        if keep.get(row) {
            if found >= rows.len() || rows[found] != row {
                return false;
            }
            found += 1;
        }
    }
    found == rows.len()
}

// A purge of what the steps make, and what is left of it: the numbers of rows, and entries.
#[derive(Clone, Copy)]
struct Purge<'a> {
    steps: &'a str,
    epoch: u64,
    rows: &'a str,
    entries: &'a str,
}

// The purge of a row of a table, behind what it shows.
fn purge_of(row: &str) -> Option<Purge> {
    let (_, row) = row.split_once('|')?;
    let (steps, row) = row.split_once('|')?;
    let (epoch, row) = row.split_once('|')?;
    let (rows, entries) = row.split_once('|')?;
    Some(Purge {
        steps,
        epoch: epoch.trim().parse::<u64>().ok()?,
        rows,
        entries,
    })
}

fn numbers_of(rt: &impl Abort, alloc: Global, text: &str) -> Vec<u64> {
    let mut numbers = Vec::new(alloc);
    for word in text.split_whitespace() {
        let number = word.parse::<u64>().ok().expect(rt, "a number");
        numbers.push(number).expect(rt, "memory");
    }
    numbers
}

fn is_done_alone(
    rt: &impl Abort,
    alloc: Global,
    epochs: &Epochs,
    purge: Purge,
    rows: &[u64],
) -> bool {
    let left = purge_alone(rt, alloc, epochs, purge.epoch);
    are_entries(left.entries.as_slice(), purge.entries) && are_set(&left.keep, rows)
}

fn is_done_within(
    rt: &impl Abort,
    alloc: Global,
    epochs: &mut Epochs,
    purge: Purge,
    rows: &[u64],
) -> bool {
    let mut keep = all_rows(rt, alloc, epochs.rows());
    purge_within(epochs, purge.epoch, &mut keep);
    are_entries(epochs.entries(), purge.entries)
        && are_set(&keep, rows)
        && epochs.rows() == rows.len() as u64
}

// Whether the purge, alone and within the vector, leaves what it should.
fn is_done(rt: &impl Abort, alloc: Global, purge: Purge) -> bool {
    let mut epochs = vector_of(rt, alloc, purge.steps);
    let rows = numbers_of(rt, alloc, purge.rows);
    is_done_alone(rt, alloc, &epochs, purge, rows.as_slice())
        && is_done_within(rt, alloc, &mut epochs, purge, rows.as_slice())
}

// Tries the rows of a table.
fn check_all(rt: &impl Abort, alloc: Global, table: &str) {
    for row in table.lines() {
        let purge = purge_of(row).expect(rt, "a purge");
        assert!(rt; is_done(rt, alloc, purge), "{row}");
    }
}

const REMOVALS: &str = "\
a mark removes the rows before it | 1:2 2:3 3:0 4:2 | 3 | 5 6 | run:4:2
the mark of epoch 2 removes the row of epoch 1 behind it as well | 1:2 2:2 2:0 1:1 3:1 | 2 | 5 | run:3:1
all rows before the two marks of epoch 5 go, and then the marks are one | 3:2 5:0 3:2 5:0 4:0 | 4 | | mark:5:0
a mark removes the rows of its own epoch before it | 2:3 2:0 2:2 | 2 | 3 4 | run:2:2
and rows of lower epochs behind it too | 2:2 3:0 1:2 3:1 | 3 | 4 | run:3:1
the run between two runs of one later epoch goes | 6:1 2:1 6:1 3:0 | 3 | 0 2 | run:6:2";

#[test]
fn marks_remove_rows(rt: HostRuntime) {
    check_all(&rt, rt.alloc(), REMOVALS);
}

const JOINED_RUNS: &str = "\
old runs become one | 1:2 2:3 4:2 | 3 | 0 1 2 3 4 5 6 | run:2:5 run:4:7
the greatest epoch stands first | 3:1 1:1 | 3 | 0 1 | run:3:2
a later run keeps them apart | 1:1 5:1 2:1 3:1 | 3 | 0 1 2 3 | run:1:1 run:5:2 run:3:4
a later mark keeps them apart | 1:1 5:0 2:1 | 3 | 0 1 | run:1:1 mark:5:1 run:2:2
at 0 there is nothing to do | 1:2 2:0 1:1 | 0 | 0 1 2 | run:1:2 mark:2:2 run:1:3";

#[test]
fn old_runs_become_one(rt: HostRuntime) {
    check_all(&rt, rt.alloc(), JOINED_RUNS);
}

fn run(epoch: u64, end: u64) -> Entry {
    Entry::Run { epoch, end }
}

fn mark(epoch: u64, at: u64) -> Entry {
    Entry::Mark { epoch, at }
}

// A small vector of epochs 1 to 5.
fn some_epochs(rt: &impl Abort, alloc: Global, seed: &mut u64) -> Epochs {
    let mut epochs = Epochs::new(alloc);
    for _ in 0..RUNS_AND_MARKS {
        let epoch = 1 + next(seed) % 5;
        let rows = match next(seed) % 8 {
            0 | 1 | 2 => 0,
            3 => 1 + next(seed) % 40,
            _ => 1 + next(seed) % 3,
        };
        put(&mut epochs, epoch, rows).expect(rt, "memory");
    }
    epochs
}

// Whether a purge removes the row, by a look at every mark.
fn is_removed(entries: &[Entry], purge: u64, row: u64) -> bool {
    let Some(epoch) = epoch_of(entries, row) else {
        return true;
    };
    for entry in entries {
        if let Entry::Mark { epoch: mark, .. } = *entry {
            if mark <= purge && hides(*entry, epoch, row) {
                return true;
            }
        }
    }
    false
}

// Adds one row of the epoch, which is then the last of `rows`.
fn add_row(left: &mut Vec<Entry>, purge: u64, epoch: u64, rows: u64) -> Result<(), AllocError> {
    let joined = match left.last() {
        Some(Entry::Run { epoch: last, .. })
            if *last == epoch || (*last <= purge && epoch <= purge) => { Some((*last).max(epoch)) }
        _ => None,
    };
    if let Some(greatest) = joined {
        let _last = left.pop();
        left.push(run(greatest, rows))?;
    } else {
        left.push(run(epoch, rows))?;
    }
    Ok(())
}

// The entries that a purge leaves, put together again row by row.
fn rebuilt(alloc: Global, entries: &[Entry], purge: u64) -> Result<Vec<Entry>, AllocError> {
    let mut left = Vec::new(alloc);
    let mut from = 0;
    let mut rows: u64 = 0;
    for entry in entries {
        match *entry {
            Entry::Run { epoch, end } => {
                for row in from..end {
                    if !is_removed(entries, purge, row) {
                        rows = rows.saturating_add(1);
                        add_row(&mut left, purge, epoch, rows)?;
                    }
                }
                from = end;
            }
            Entry::Mark { epoch, .. } => {
                if epoch > purge && left.last() != Some(&mark(epoch, rows)) {
                    left.push(mark(epoch, rows))?;
                }
            }
        }
    }
    Ok(left)
}

// A snapshot so far above an epoch; the bits of `deps` say which of the epochs above it are deps.
fn above(epoch: u64, own: bool, by: u64, deps: u64) -> Snapshot {
    let mut snapshot = Snapshot {
        epoch: epoch.saturating_add(by),
        deps: EpochList::new(),
        own,
    };
    for bit in 0..8 {
        if (deps >> bit) & 1 == 1 && snapshot.deps.as_slice().len() < EpochList::MOST {
            snapshot.deps.push(epoch.saturating_add(1 + bit));
        }
    }
    snapshot
}

// Whether the snapshot sees of the rows that stay those that it saw, and saw no row that goes.
fn sees_the_same(entries: &[Entry], left: &Left, snapshot: &Snapshot) -> bool {
    let mut number: u64 = 0;
    for row in 0..left.keep.len() {
        let seen = is_seen(entries, snapshot, row);
        if left.keep.get(row) {
            if seen != is_seen(left.entries.as_slice(), snapshot, number) {
                return false;
            }
            number = number.saturating_add(1);
        } else if seen {
            return false;
        }
    }
    true
}

// Whether the rows that stay are those that a plain look does not remove.
fn keeps_plain_rows(entries: &[Entry], keep: &Bits, purge: u64) -> bool {
    for row in 0..keep.len() {
        if keep.get(row) == is_removed(entries, purge, row) {
            return false;
        }
    }
    true
}

// Whether a snapshot so far above the purge is one that may be, and sees the same.
fn is_blind(entries: &[Entry], left: &Left, purge: u64, own: bool, by: u64, deps: u64) -> bool {
    let snapshot = above(purge, own, by, deps);
    snapshot.admissible(purge) && sees_the_same(entries, left, &snapshot)
}

fn are_blind(entries: &[Entry], left: &Left, purge: u64) -> bool {
    is_blind(entries, left, purge, false, 0, 0)
        && is_blind(entries, left, purge, false, 1, 0)
        && is_blind(entries, left, purge, false, 3, 0)
        && is_blind(entries, left, purge, true, 1, 0)
        && is_blind(entries, left, purge, true, 2, 1)
        && is_blind(entries, left, purge, true, 4, 5)
        && is_blind(entries, left, purge, true, 5, 6)
}

// What differs where a vector is purged at an epoch: rows, entries, or what snapshots see.
fn difference(rt: &impl Abort, alloc: Global, epochs: &Epochs, purge: u64) -> Option<&'static str> {
    let entries = epochs.entries();
    let left = purge_alone(rt, alloc, epochs, purge);
    let rebuilt = rebuilt(alloc, entries, purge).expect(rt, "memory");
    if !keeps_plain_rows(entries, &left.keep, purge) {
        Some("rows")
    } else if left.entries.as_slice() != rebuilt.as_slice() {
        Some("entries")
    } else if !are_blind(entries, &left, purge) {
        Some("snapshots")
    } else {
        None
    }
}

// Purges a vector at each of seven epochs.
fn check_plainly(rt: &impl Abort, alloc: Global, seed: &mut u64) {
    let epochs = some_epochs(rt, alloc, seed);
    for purge in 0..7 {
        assert_eq!(rt;
            difference(rt, alloc, &epochs, purge),
            None,
            "purge at {purge}"
        );
    }
}

#[test]
fn purges_are_those_of_a_plain_look(rt: HostRuntime) {
    // The laws do nothing when they run.
    purge_changes_nothing_seen();
    purge_keeps_later_epochs();
    purge_leaves_no_old_mark();
    let mut seed = 1;
    for _ in 0..2000 {
        check_plainly(&rt, rt.alloc(), &mut seed);
    }
}
