//! Small journals for one rule each, and the counters of a journal.

use super::changes::{Opening, entries, is_legal_run};
use super::journals::{append_lines, lines_in};
use plain_journal::{State, state_of};
use std::alloc::{AllocError, Global};
use std::process::Abort;

// A row of a table, behind what it shows: whether the run is legal, the cube of which its statements speak, and its
// entries.
#[derive(Clone, Copy)]
struct Row<'a> {
    is_legal: bool,
    name: &'a str,
    entries: &'a str,
}

fn row_in(row: &str) -> Option<Row> {
    let (_, row) = row.split_once('|')?;
    let (verdict, row) = row.split_once('|')?;
    let (name, entries) = row.split_once('|')?;
    let is_legal = match verdict {
        "legal" => true,
        "not" => false,
        _ => return None,
    };
    Some(Row {
        is_legal,
        name,
        entries,
    })
}

/// What a table begins with: the entries before those of its rows, and the cubes that are there.
#[derive(Clone, Copy)]
struct Start {
    entries: &'static str,
    cubes: &'static str,
}

/// How a run goes on after one stored row.
const AFTER_A_ROW: &str = "\
a round lost to memory refuses no FLUSH with 17|not|t|round 1, lost 1 memory, refused 1.2 code 17
and another round may follow|legal|t|round 1, lost 1 memory, round 1
after one lost to the disk none follows|not|t|round 1, lost 1 disk, round 1
and there is no Idle|not|t|round 1, lost 1 disk, idle 1
no FLUSH is done by a round that was lost|not|t|round 1, lost 1 memory, flushed 1.2
or by one that opened before the session's last entry|not|t|round 1, show 1.2, safe 1, flushed 1.3
but it may have opened before another session's|legal|t|round 1, show 2.2, safe 1, flushed 1.3
a PURGE goes by an epoch that was safe at first|legal|t|round 1, safe 1, purged 1.2 epoch 0
or since the session's last entry|legal|t|round 1, safe 1, purged 1.2 epoch 1
but not only before it|not|t|round 1, safe 1, show 1.2, purged 1.3 epoch 0
there is something to keep|not|t|idle 0
and then there is not|not|t|round 1, safe 1, round 1";

const ONE_ROW: Start = Start {
    entries: "begin 1.1 epoch 1 deps [], committed 1.1 epoch 1",
    cubes: "t",
};

/// How a run begins that has the cube `t`.
const AT_FIRST: &str = "\
deps are all pending epochs|legal|t|begin 1.1 epoch 1 deps [], begin 2.1 epoch 2 deps [1], begin 3.1 epoch 3 deps [1,2]
none is missing|not|t|begin 1.1 epoch 1 deps [], begin 2.1 epoch 2 deps []
and they rise|not|t|begin 1.1 epoch 1 deps [], begin 2.1 epoch 2 deps [1], begin 3.1 epoch 3 deps [2,1]
a session holds one snapshot|not|t|begin 1.1 epoch 1 deps [], read 1.2 epoch 0
and its holder numbers hold their own|legal|t|begin 1.1 epoch 1 deps [], read 17.2 epoch 0
a session that holds a snapshot makes no cube|not|u|read 1.1 epoch 0, cube 1.2 epoch 1
what is committed is a writer|not|t|read 1.1 epoch 0, committed 1.1 epoch 0
what ends is a reader|not|t|begin 1.1 epoch 1 deps [], readend 1.1
no cube is made twice|not|t|cube 1.1 epoch 1
a cube that is there is not unknown|not|t|refused 1.1 code 2
another cube is unknown|legal|u|refused 1.1 code 2
a cube that is there exists|legal|t|refused 1.1 code 19
there is room for another cube|not|u|refused 1.1 code 21";

const ONE_CUBE: Start = Start {
    entries: "",
    cubes: "t",
};

/// How a run begins that has as many cubes as there can be.
const FULL: &str = "\
there is no room for another cube|legal|u|refused 1.1 code 21
what is asked for is no cube that is there|not|t|refused 1.1 code 21
no cube is made|not|u|cube 1.1 epoch 1";

const SIXTEEN_CUBES: Start = Start {
    entries: "",
    cubes: "a b c d e f g h i j k l m n o t",
};

/// How a run begins that has one cube less.
const ONE_PLACE_LEFT: &str = "\
there is room for another cube|not|u|refused 1.1 code 21
a cube is made|legal|u|cube 1.1 epoch 1";

const FIFTEEN_CUBES: Start = Start {
    entries: "",
    cubes: "a b c d e f g h i j k l m n o",
};

// Whether the run of a row is legal or not, as the row says. A row that cannot be read is the error.
fn is_as_told(alloc: Global, start: Start, row: &str) -> Result<bool, AllocError> {
    let Row {
        is_legal,
        name,
        entries,
    } = row_in(row).ok_or(AllocError)?;
    let opening = Opening {
        safe: 0,
        cubes: start.cubes,
        name,
    };
    let mut lines = Vec::new(alloc);
    append_lines(&mut lines, start.entries, ", ")?;
    append_lines(&mut lines, entries, ", ")?;
    Ok(is_legal_run(alloc, opening, lines.as_slice())? == is_legal)
}

fn check_rows(rt: &impl Abort, alloc: Global, start: Start, table: &str) {
    for row in table.lines() {
        assert!(rt; is_as_told(alloc, start, row) == Ok(true), "{row}");
    }
}

#[test]
fn each_rule(rt: HostRuntime) {
    check_rows(&rt, rt.alloc(), ONE_ROW, AFTER_A_ROW);
    check_rows(&rt, rt.alloc(), ONE_CUBE, AT_FIRST);
}

#[test]
fn sixteen_cubes(rt: HostRuntime) {
    check_rows(&rt, rt.alloc(), SIXTEEN_CUBES, FULL);
    check_rows(&rt, rt.alloc(), FIFTEEN_CUBES, ONE_PLACE_LEFT);
}

const OLDER_IS_PENDING: &str = "\
begin 1.1 epoch 4 deps []
begin 2.1 epoch 5 deps [4]
committed 2.1 epoch 5
cube 3.1 epoch 6
read 17.1 epoch 3";

// What the journal of a text has come to that began with epoch 3 safe.
fn state_of_text(alloc: Global, text: &str) -> Result<State, AllocError> {
    let lines = lines_in(alloc, text, "\n")?;
    let journal = entries(alloc, lines.as_slice())?;
    state_of(alloc, 3, journal.as_slice())
}

#[test]
fn counters_while_an_older_epoch_is_pending(rt: HostRuntime) {
    let state = state_of_text(rt.alloc(), OLDER_IS_PENDING).expect(&rt, "a journal");
    let counters = [state.ec, state.lce(), state.lse, state.target()];
    assert_eq!(rt; counters, [7, 3, 3, 3]);
    assert_eq!(rt; state.pending.as_slice(), [4].as_slice());
    assert_eq!(rt; state.snapshots.len(), 2);
}
