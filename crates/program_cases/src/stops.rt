//! Runs with a store on disks that fail at a call, and what the next run then opens.

use crate::runs::{Given, OnDisk, given_scripts, sound_disk};
use crate::stores::{files_left, files_named, given_files};
use crate::tables::{RowEnd, tried, wrong_in};
use outside_disk::NoGate;
use std::alloc::{AllocError, Global};
use std::sync::Wait;
use std::test::Fail;
use std::thread::Threads;

// What stands in the place of the bytes that are not safe: those that were written, or these.
const FILLS: [&[u8]; 4] = [&[], &[0], &[0xa5], &[0x5a]];

/// A run with a store, as rows: with a disk that fails before a session begins, with one that fails in a round, and with
/// sound ones; and what the next run finds in the files without the round, and with it.
#[derive(Clone, Copy)]
struct Story {
    store: &'static str,
    none: &'static str,
    lost: &'static str,
    kept: &'static str,
    before: &'static str,
    with: &'static str,
    /// On each line a disk, a call on it, how the run ends where this fails, and what is found with each fill: nothing,
    /// what was before, or what is with the round.
    stops: &'static str,
}

const NOTHING: &str = "Nothing is found.
--cubes t --store s 1
SELECT SUM(m) FROM t
== 5 not a store
";

// On the first disk call 0 chooses the file, 1 to 7 make the store, and 8 to 11 make the round.
const CREATION: Story = Story {
    store: "new",
    none: "No session begins.
--cubes t --store s --new 1
INSERT INTO t VALUES (0,1); FLUSH;
== 6 disk fault
",
    lost: "The round is lost.
--cubes t --store s --new 1
INSERT INTO t VALUES (0,1); FLUSH;
== 6 disk fault
session 1
1.1 stored 1 epoch 1
1.2 refused 17 StoreFailed
journal 5
begin 1.1 epoch 1 deps []
committed 1.1 epoch 1
round 1
lost 1 disk
refused 1.2 code 17
end ec 2 lce 1 lse 0
",
    kept: "The round is kept.
--cubes t --store s --new 1
INSERT INTO t VALUES (0,1); FLUSH;
== 0
session 1
1.1 stored 1 epoch 1
1.2 flushed 1
journal 6
begin 1.1 epoch 1 deps []
committed 1.1 epoch 1
round 1
safe 1
flushed 1.2
idle 1
end ec 2 lce 1 lse 1
",
    before: "A store without rounds.
--cubes t --store s 1
SELECT SUM(m) FROM t
== 0
session 1
1.1 rows 1 epoch 0
NULL
journal 3
read 1.1 epoch 0
readend 1.1
idle 0
end ec 1 lce 0 lse 0
",
    with: "A store with the round.
--cubes t --store s 1
SELECT SUM(m) FROM t
== 0
session 1
1.1 rows 1 epoch 1
1
journal 3
read 1.1 epoch 1
readend 1.1
idle 1
end ec 2 lce 1 lse 1
",
    stops: "\
first 0 none ----
second 0 none ----
second 1 none ----
first 1 none ----
first 2 none ----
first 3 none ----
first 4 none ----
first 5 none ----
first 6 none b-b-
first 7 none b-b-
first 8 lost bbbb
first 9 lost bbbb
first 10 lost wbwb
first 11 lost wbwb
first 12 kept wwww
second 2 kept wwww",
};

// The first round behind a file of version 1 goes to the second file. Calls 0 to 2 on the first disk choose, measure and
// read the file; on the second one 0 and 1 choose and measure it, and 2 to 8 write it.
const MIGRATION: Story = Story {
    store: "version-1",
    none: "No session begins.
--cubes t --store s 1
INSERT INTO t VALUES (0,2); FLUSH;
== 6 disk fault
",
    lost: "The round is lost.
--cubes t --store s 1
INSERT INTO t VALUES (0,2); FLUSH;
== 6 disk fault
session 1
1.1 stored 1 epoch 2
1.2 refused 17 StoreFailed
journal 5
begin 1.1 epoch 2 deps []
committed 1.1 epoch 2
round 2
lost 2 disk
refused 1.2 code 17
end ec 3 lce 2 lse 1
",
    kept: "The round is kept.
--cubes t --store s 1
INSERT INTO t VALUES (0,2); FLUSH;
== 0
session 1
1.1 stored 1 epoch 2
1.2 flushed 2
journal 6
begin 1.1 epoch 2 deps []
committed 1.1 epoch 2
round 2
safe 2
flushed 1.2
idle 2
end ec 3 lce 2 lse 2
",
    before: "The file of version 1.
--cubes t --store s 1
SELECT SUM(m) FROM t
== 0
session 1
1.1 rows 1 epoch 1
7
journal 3
read 1.1 epoch 1
readend 1.1
idle 1
end ec 2 lce 1 lse 1
",
    with: "The file behind it.
--cubes t --store s 1
SELECT SUM(m) FROM t
== 0
session 1
1.1 rows 1 epoch 2
9
journal 3
read 1.1 epoch 2
readend 1.1
idle 2
end ec 3 lce 2 lse 2
",
    stops: "\
first 0 none bbbb
first 1 none bbbb
first 2 none bbbb
second 0 none bbbb
second 1 none bbbb
second 2 lost bbbb
second 3 lost bbbb
second 4 lost bbbb
second 5 lost bbbb
second 6 lost bbbb
second 7 lost wbwb
second 8 lost wbwb
first 3 kept wwww
second 9 kept wwww",
};

/// A call that fails, how the run ends, and what is found with each fill.
#[derive(Clone, Copy)]
struct Stop<'a> {
    disk: &'a str,
    call: u64,
    ends: &'a str,
    found: &'a str,
}

fn stop_in(line: &str) -> Option<Stop> {
    let (disk, rest) = line.split_once(' ')?;
    let (call, rest) = rest.split_once(' ')?;
    let (ends, found) = rest.split_once(' ')?;
    Some(Stop {
        disk,
        call: call.parse::<u64>().ok()?,
        ends,
        found,
    })
}

// The row of how a run ends.
fn row_of(story: Story, ends: &str) -> &'static str {
    match ends {
        "none" => story.none,
        "lost" => story.lost,
        _ => story.kept,
    }
}

// The row of what is found.
fn found_row(story: Story, found: char) -> &'static str {
    match found {
        'b' => story.before,
        'w' => story.with,
        _ => NOTHING,
    }
}

// What is given to the run of a story where these calls fail on a disk, and where all do from this one on.
fn given_at<'a>(
    disk: &str,
    first: &'a [u8],
    second: &'a [u8],
    failing: &'a [u64],
    stop: Option<u64>,
) -> Given<'a> {
    let sound = given_scripts("");
    if disk == "first" {
        return Given {
            disk: OnDisk {
                file: first,
                failing,
                stop,
            },
            other: sound_disk(second),
            ..sound
        };
    }
    Given {
        disk: sound_disk(first),
        other: OnDisk {
            file: second,
            failing,
            stop,
        },
        ..sound
    }
}

// What differs where a call fails so.
fn difference_at<R: Threads + Wait + Sync>(
    rt: &R,
    alloc: Global,
    story: Story,
    stop: Stop,
    failing: &[u64],
    from: Option<u64>,
) -> Result<Option<String>, AllocError> {
    let files = files_named(alloc, story.store)?;
    let first = files.first.as_slice();
    let second = files.second.as_slice();
    let given = given_at(stop.disk, first, second, failing, from);
    let RowEnd { wrong, left } = tried(rt, alloc, row_of(story, stop.ends), given, &NoGate)?;
    if wrong.is_some() {
        return Ok(wrong);
    }
    for (fill, found) in FILLS.iter().zip(stop.found.chars()) {
        let files = files_left(&left, fill)?;
        let given = given_files(&files);
        let wrong = wrong_in(rt, alloc, found_row(story, found), given, &NoGate)?;
        if wrong.is_some() {
            return Ok(wrong);
        }
    }
    Ok(None)
}

// The first of a story's calls at which something differs, with what that is: where the call alone fails, and where all
// do from there on.
fn first_difference_of<R: Threads + Wait + Sync>(
    rt: &R,
    alloc: Global,
    story: Story,
) -> Result<Option<String>, AllocError> {
    for line in story.stops.lines() {
        let Some(stop) = stop_in(line) else {
            return Ok(Some(String::from_str(alloc, line)?));
        };
        if let Some(wrong) = difference_at(rt, alloc, story, stop, &[stop.call], None)? {
            return Ok(Some(format!(in alloc; "{line} fails: {wrong}")?));
        }
        if let Some(wrong) = difference_at(rt, alloc, story, stop, &[], Some(stop.call))? {
            return Ok(Some(format!(in alloc; "{line} stops: {wrong}")?));
        }
    }
    Ok(None)
}

#[test]
fn each_call_of_a_creation_and_a_round_fails(rt: HostRuntime) -> Result<(), Fail> {
    let wrong = first_difference_of(&rt, rt.alloc(), CREATION)?;
    assert_eq!(rt; wrong.as_deref(), None);
    Ok(())
}

#[test]
fn each_call_of_a_migration_fails(rt: HostRuntime) -> Result<(), Fail> {
    let wrong = first_difference_of(&rt, rt.alloc(), MIGRATION)?;
    assert_eq!(rt; wrong.as_deref(), None);
    Ok(())
}

const UNWRITTEN: &str = "Of a lost round and an output that fails the output is told.
--cubes t --store s --new 1
INSERT INTO t VALUES (0,1); FLUSH;
== 7 output fault
";

#[test]
fn the_output_comes_before_the_disk(rt: HostRuntime) -> Result<(), Fail> {
    let failing = [9];
    let given = Given {
        sink_failing: &[0],
        ..given_at("first", &[], &[], &failing, None)
    };
    let wrong = wrong_in(&rt, rt.alloc(), UNWRITTEN, given, &NoGate)?;
    assert_eq!(rt; wrong.as_deref(), None);
    Ok(())
}
