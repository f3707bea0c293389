//! Entries and rows of a brick worked out by hand.

ghost use Rattle.std.specs.Prelude.{◌≡◌, ◌∷◌, [], IfOk};

use crate::making::{batch_of, brick_of_steps, query, reader, shape_of, table};
use crate::tables::{are_entries, has_lines, steps_of};
use brick_store::Brick;
use cube_rounds::RoundBrick;
use cube_values::{BoundItem, BoundQuery, NameLists, Part, Shape};
use std::alloc::{AllocError, Global};
use std::process::Abort;

// A cube of x below five and y below four, in ranges of two.
const SIZES: &str = "5:2 4:2";

// Rows of brick 0, where row i has the metric 2 to the power i.
const POWERS: &str = "0 0 | 1, 0 1 | 2, 0 0 | 4, 0 1 | 8, 0 0 | 16, 0 1 | 32, 0 0 | 64, 0 1 | 128, \
    0 0 | 256, 0 1 | 512";

// For each x its number of rows and their sum.
fn by_x(alloc: Global) -> Result<BoundQuery, AllocError> {
    let parts = vec![in alloc; Part::All, Part::All]?;
    query(alloc, parts, &[0], &[BoundItem::Count, BoundItem::Sum(0)])
}

// The brick of some steps.
fn brick_of(rt: &impl Abort, alloc: Global, shape: &Shape, steps: &str) -> Brick
    ensures { result.home ≡ record { sizes = shape.now.sizes; metrics = 1; number = 0 } }
{
    let batch = batch_of(rt, alloc, 2, POWERS);
    let steps = steps_of(rt, alloc, steps);
    brick_of_steps(rt, alloc, shape, 0, &batch, steps.as_slice())
}

// What is done to a brick after its steps: an epoch is rolled back or one purged, 0 where none is.
#[derive(Clone, Copy, Debug)]
struct After {
    rolled: u64,
    purged: u64,
}

fn change(brick: &mut Brick, after: After)
    ensures { brick.new.home ≡ brick.old.home }
{
    if after.rolled > 0 {
        brick.rollback(after.rolled);
    }
    if after.purged > 0 {
        brick.purge(after.purged);
    }
}

// Whether a reader at an epoch finds the lines of a text, or no line.
fn finds(
    rt: &impl Abort,
    alloc: Global,
    brick: &Brick,
    shape: &Shape,
    epoch: u64,
    found: &str,
) -> bool
    requires shape { brick.now.home.sizes ≡ shape.now.sizes }
    requires metrics { brick.now.home.metrics ≡ 1 }
{
    let query = by_x(alloc).expect(rt, "memory");
    let names = NameLists::new(alloc);
    let table = table(rt, alloc, brick, shape, &query, &reader(epoch), &names);
    if found == "none" {
        table.len() == 0
    } else {
        has_lines(&table, found)
    }
}

// Steps, what comes after them, the entries that are then there, and what a reader at an epoch finds.
#[derive(Clone, Copy)]
struct Case<'a> {
    steps: &'a str,
    after: After,
    entries: &'a str,
    epoch: u64,
    found: &'a str,
}

fn number_of(word: &str) -> Option<u64> {
    word.trim().parse::<u64>().ok()
}

// The case of a row of a table, behind what it shows.
fn case_of(row: &str) -> Option<Case> {
    let (_, row) = row.split_once('|')?;
    let (steps, row) = row.split_once('|')?;
    let (rolled, row) = row.split_once('|')?;
    let (purged, row) = row.split_once('|')?;
    let (entries, row) = row.split_once('|')?;
    let (epoch, found) = row.split_once('|')?;
    let after = After {
        rolled: number_of(rolled)?,
        purged: number_of(purged)?,
    };
    Some(Case {
        steps,
        after,
        entries,
        epoch: number_of(epoch)?,
        found: found.trim(),
    })
}

// Whether the brick then has the entries and its reader finds the lines.
fn is_so(rt: &impl Abort, alloc: Global, case: Case) -> bool {
    let shape = shape_of(rt, alloc, SIZES);
    let mut brick = brick_of(rt, alloc, &shape, case.steps);
    change(&mut brick, case.after);
    are_entries(brick.entries(), case.entries)
        && finds(rt, alloc, &brick, &shape, case.epoch, case.found)
}

// What a row shows, the steps, the epoch that is rolled back or 0, the one that is purged or 0, the entries, an epoch, and
// for each x what its reader finds: x, how many rows and the sum of their metrics.
const CASES: &str = "\
rows 0, 1 and 5 to 9 are of epoch 1 | 1:2 2:3 1:1 1:4 | 0 | 0 | run:1:2 run:2:5 run:1:10 | 1 | 0 7 995
a deletion hides rows of lower epochs that come later | 2:0 1:1 3:1 | 0 | 0 | mark:2:0 run:1:1 run:3:2 | 3 | 0 1 2
from those who see it | 2:0 1:1 | 0 | 0 | mark:2:0 run:1:1 | 1 | 0 1 1
of its own epoch it hides the rows before it | 1:1 1:0 1:0 1:1 | 0 | 0 | run:1:1 mark:1:1 run:1:2 | 1 | 0 1 2
an epoch is rolled back | 1:2 2:2 2:0 1:1 3:1 | 2 | 0 | run:1:3 run:3:4 | 3 | 0 4 51
and equal marks become one | 5:0 3:2 5:0 | 3 | 0 | mark:5:0 | 5 | none
an epoch that is not there | 1:2 2:0 | 3 | 0 | run:1:2 mark:2:2 | 1 | 0 2 3
a purge removes what a mark hides | 1:2 2:3 3:0 4:2 | 0 | 3 | run:4:2 | 4 | 0 2 96
and joins old runs | 1:2 2:3 4:2 | 0 | 3 | run:2:5 run:4:7 | 4 | 0 7 127
and equal marks | 3:2 5:0 3:2 5:0 4:0 | 0 | 4 | mark:5:0 | 5 | none";

#[test]
fn steps_leave_entries_and_rows(rt: HostRuntime) {
    for row in CASES.lines() {
        let case = case_of(row).expect(&rt, "a case");
        assert!(rt; is_so(&rt, rt.alloc(), case), "{row}");
    }
}

// Whether the rows of a part have the metrics of a text.
fn has_metrics(part: &RoundBrick, text: &str) -> bool {
    let rows = part.rows();
    let mut at: usize = 0;
    for word in text.split_whitespace() {
        if at >= rows.len() || !is_metric(rows.metrics_of(at), word) {
            return false;
        }
        at = at.saturating_add(1);
    }
    at == rows.len()
}

fn is_metric(metrics: &[i64], word: &str) -> bool {
    let [metric] = metrics else {
        return false;
    };
    word.parse::<i64>() == Ok(*metric)
}

// Whether the copy of the epochs above one and up to another has these entries and metrics.
fn copies(rt: &impl Abort, alloc: Global, row: &str) -> Option<bool> {
    let (steps, row) = row.split_once('|')?;
    let (from, row) = row.split_once('|')?;
    let (to, row) = row.split_once('|')?;
    let (entries, metrics) = row.split_once('|')?;
    let from = number_of(from)?;
    let to = number_of(to)?;
    let shape = shape_of(rt, alloc, SIZES);
    let brick = brick_of(rt, alloc, &shape, steps);
    let part = brick.copy(from, to).expect(rt, "memory");
    Some(part.brick() == 0 && are_entries(part.entries(), entries) && has_metrics(&part, metrics))
}

// Steps, the epochs above which and up to which a brick is copied, and the entries and metrics of the copy. In the last two
// runs that were apart become neighbours, and so do equal marks.
const COPIES: &str = "\
1:2 2:3 3:0 4:2 | 1 | 3 | run:2:3 mark:3:3 | 4 8 16
1:2 2:3 3:0 4:2 | 3 | 4 | run:4:2 | 32 64
1:2 2:3 3:0 4:2 | 4 | 9 | |
1:2 2:1 1:1 | 0 | 1 | run:1:3 | 1 2 8
5:0 3:2 5:0 | 3 | 5 | mark:5:0 |";

#[test]
fn epochs_are_copied(rt: HostRuntime) {
    for row in COPIES.lines() {
        assert!(rt; copies(&rt, rt.alloc(), row) == Some(true), "{row}");
    }
}
