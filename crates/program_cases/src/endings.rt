//! Words, files and output decide how a run ends.

use crate::runs::{Given, Outcome, given_scripts, run_held};
use crate::tables::{first_difference, wrong_in};
use outside_disk::NoGate;
use std::alloc::{AllocError, Global};
use std::sync::Wait;
use std::test::Fail;
use std::thread::Threads;

const ENDINGS: &str = "
# No words.

== 2 --cubes is missing
# No cubes file.
1
INSERT INTO t VALUES (0,1)
== 2 --cubes is missing
# No script.
--cubes t
== 2 no script is given
# A new store wants a name.
--cubes t --new 1
== 2 --new needs --store
# No help.
--help
== 2 usage: cubrick --cubes FILE [--store FILE] [--new] [--shards N] [--round-every N] SCRIPT..
# No such word.
--cube t 1
== 2 usage: cubrick --cubes FILE [--store FILE] [--new] [--shards N] [--round-every N] SCRIPT..
# Too many shards, which come before any file.
--cubes gone --shards 65 gone
== 2 --shards wants a number from 1 to 64
# Too many scripts.
--cubes t 1 1 1 1 1 1 1 1 1 1 1 1 1 1 1 1 1
== 2 more than 16 scripts are given
# No rows.
--generate 0
== 2 --generate wants a number from 1 to 1000000
# No number of rows.
--generate 01
== 2 --generate wants a number from 1 to 1000000
# One row more than there may be.
--generate 1000001
== 2 --generate wants a number from 1 to 1000000
# Generated rows go with nothing else.
--generate 1 --store new
== 2 --generate goes with no file, no script and no --new
# No cubes file of the name.
--cubes gone 1
== 3 no file gone
# The cubes file comes before the script.
--cubes gone lost
== 3 no file gone
# No script of the name.
--cubes t gone
== 3 no file gone
# A cubes file that is not in order comes before the script.
--cubes 1 gone
INSERT
== 4 cubes: BadLine 1
# The first script comes before the second.
--cubes t gone broken
== 3 no file gone
# The same, the other way round.
--cubes t broken gone
== 4 script 1: NotUtf8 1
# The second script.
--cubes t 1 gone

== 3 no file gone
# The second script is not in order.
--cubes t 1 late

== 4 script 2: NotUtf8 7
# Nothing is in order.
--cubes broken broken
== 4 cubes: NotUtf8 1
# A line in no form.
--cubes line-4 broken
== 4 cubes: BadLine 4
# A cube that was declared before.
--cubes again broken
== 4 cubes: DuplicateCube 4
# One cube more than there may be.
--cubes seventeen broken
== 4 cubes: TooManyCubes 17
# A column's name that stands twice.
--cubes same-name broken
== 4 cubes: Schema t DuplicateName x
# Ranges of nothing.
--cubes no-range broken
== 4 cubes: Schema t ZeroCardinality x
# A range above the cardinality.
--cubes large-range broken
== 4 cubes: Schema t RangeTooLarge x
# One range for all.
--cubes one-range 1

== 0
session 1
journal 1
idle 0
end ec 1 lce 0 lse 0
# Too many bricks.
--cubes bricks broken
== 4 cubes: Schema t TooManyBricks
# Too many metrics.
--cubes columns broken
== 4 cubes: Schema t TooManyColumns
# No metric.
--cubes no-metric broken
== 4 cubes: Schema t NoMetric
# A script that is no UTF-8.
--cubes t broken
== 4 script 1: NotUtf8 1
# The same behind a statement.
--cubes t late
== 4 script 1: NotUtf8 7
# The same behind a watch.
--cubes none shown
== 4 script 1: NotUtf8 12
# Files come before the store.
--cubes t --store hello broken
== 4 script 1: NotUtf8 1
# Then the store.
--cubes t --store hello 1
INSERT INTO t VALUES (0,1)
== 5 not a store
";

#[test]
fn words_and_files_decide_how_a_run_ends(rt: HostRuntime) -> Result<(), Fail> {
    let wrong = first_difference(&rt, rt.alloc(), ENDINGS, "")?;
    assert_eq!(rt; wrong.as_deref(), None);
    Ok(())
}

const NO_CUBES: &str = "The cubes file is not read.
--cubes visits 1
LOAD visits FROM 'v.csv' REJECT 3
== 3 cannot read visits
";

const NO_SCRIPT: &str = "The script is not read.
--cubes visits 1
LOAD visits FROM 'v.csv' REJECT 3
== 3 cannot read 1
";

const NOT_LOADED: &str = "The file is not read.
--cubes visits 1
LOAD visits FROM 'v.csv' REJECT 3
== 0
session 1
1.1 refused 11 ReadFault
journal 2
refused 1.1 code 11
idle 0
end ec 1 lce 0 lse 0
";

const ALL_READ: &str = "All files are read.
--cubes visits 1
LOAD visits FROM 'v.csv' REJECT 3
== 0
session 1
1.1 stored 2 rejected 3 epoch 1
reject 2 column likes NotNumber
reject 3 values 3 WrongCount
reject 4 column region NotText
journal 4
begin 1.1 epoch 1 deps []
committed 1.1 epoch 1
round 1
safe 1
end ec 2 lce 1 lse 1
";

// What a run writes where these calls on its shelf fail. Each file wants two calls, for its size and for its bytes.
#[test]
fn each_call_on_the_shelf_fails(rt: HostRuntime) -> Result<(), Fail> {
    for (place, lines) in [
        NO_CUBES, NO_CUBES, NO_SCRIPT, NO_SCRIPT, NOT_LOADED, NOT_LOADED, ALL_READ,
    ]
    .iter()
    .enumerate()
    {
        let failing = [place as u64];
        let given = Given {
            shelf_failing: &failing,
            ..given_scripts("")
        };
        let wrong = wrong_in(&rt, rt.alloc(), lines, given, &NoGate)?;
        assert_eq!(rt; wrong.as_deref(), None, "{place}");
    }
    Ok(())
}

const LOADS: &str =
    "A file that cannot be read, and one whose size cannot be told: only a transaction that is open ends.
--cubes visits 1
LOAD visits FROM 'one.csv' REJECT 0; BEGIN; LOAD visits FROM 'one.csv' REJECT 0; COMMIT; ROLLBACK; LOAD visits FROM 'one.csv' REJECT 0
== 0
session 1
1.1 refused 11 ReadFault
1.2 begun 1
1.3 refused 11 ReadFault
1.4 refused 14 TransactionAborted
1.5 rolled back 1
1.6 stored 1 rejected 0 epoch 2
journal 9
refused 1.1 code 11
begin 1.2 epoch 1 deps []
aborted 1.3 epoch 1 ReadFault
refused 1.4 code 14
cleared 1.5
begin 1.6 epoch 2 deps []
committed 1.6 epoch 2
round 2
safe 2
end ec 3 lce 2 lse 2
";

const LOAD_IN_A_TRANSACTION: &str = "A file that cannot be read ends the transaction that is open.
--cubes visits 1
BEGIN; LOAD visits FROM 'v.csv' REJECT 3; COMMIT; ROLLBACK
== 0
session 1
1.1 begun 1
1.2 refused 11 ReadFault
1.3 refused 14 TransactionAborted
1.4 rolled back 1
journal 6
begin 1.1 epoch 1 deps []
aborted 1.2 epoch 1 ReadFault
refused 1.3 code 14
cleared 1.4
round 1
safe 1
end ec 2 lce 1 lse 1
";

#[test]
fn loads_whose_calls_fail(rt: HostRuntime) -> Result<(), Fail> {
    for (lines, failing) in [(LOADS, [5, 6].as_slice()), (LOAD_IN_A_TRANSACTION, &[5])] {
        let given = Given {
            shelf_failing: failing,
            ..given_scripts("")
        };
        let wrong = wrong_in(&rt, rt.alloc(), lines, given, &NoGate)?;
        assert_eq!(rt; wrong.as_deref(), None);
    }
    Ok(())
}

const SCRIPT: &str =
    "INSERT INTO t VALUES (4,7); INSERT INTO t VALUES (0,-2); SELECT SUM(m) FROM t;";

const TEXT: &str = "session 1
1.1 stored 1 epoch 1
1.2 stored 1 epoch 2
1.3 rows 1 epoch 2
5
journal 8
begin 1.1 epoch 1 deps []
committed 1.1 epoch 1
begin 1.2 epoch 2 deps []
committed 1.2 epoch 2
read 1.3 epoch 2
readend 1.3
round 2
safe 2
end ec 3 lce 2 lse 2
";

// How the run of the script ends with such an output, and whether this many bytes of the text are written.
fn writes_so_many<R: Threads + Wait + Sync>(
    rt: &R,
    alloc: Global,
    room: u64,
    failing: &[u64],
    ends: &str,
    many: usize,
) -> Result<bool, AllocError> {
    let given = Given {
        room,
        sink_failing: failing,
        ..given_scripts(SCRIPT)
    };
    let left = run_held(rt, alloc, "--cubes t 1", given, &NoGate)?;
    Ok(
        left.ends.as_str() == ends
            && left.text.len() == many
            && TEXT.as_bytes().starts_with(left.text.as_slice()),
    )
}

#[test]
fn the_output_fails(rt: HostRuntime) -> Result<(), Fail> {
    let all = TEXT.len();
    let fault = "7 output fault";
    assert!(rt; writes_so_many(&rt, rt.alloc(), 1000, &[0], fault, 0)?);
    assert!(rt; writes_so_many(&rt, rt.alloc(), 0, &[], fault, 0)?);
    assert!(rt; writes_so_many(&rt, rt.alloc(), 20, &[], fault, 20)?);
    assert!(rt; writes_so_many(&rt, rt.alloc(), 20, &[1], fault, 20)?);
    assert!(rt; writes_so_many(&rt, rt.alloc(), 1000, &[1], "0", all)?);
    Ok(())
}

// A cubes file and a script, with their names.
fn long_files<'a>(cubes: &'a [u8], script: &'a [u8]) -> [(&'a str, &'a [u8]); 2] {
    [("long", cubes), ("script", script)]
}

// How a run with a cubes file and a script of so many of a byte each ends.
fn ends_with_sizes<R: Threads + Wait + Sync>(
    rt: &R,
    alloc: Global,
    cubes: usize,
    script: usize,
    byte: u8,
) -> Result<String, AllocError> {
    let cubes = vec![in alloc; b'#'; cubes]?;
    let script = vec![in alloc; byte; script]?;
    let own = long_files(cubes.as_slice(), script.as_slice());
    let given = Given {
        own: &own,
        ..given_scripts("")
    };
    let Outcome { ends, .. } = run_held(rt, alloc, "--cubes long script", given, &NoGate)?;
    Ok(ends)
}

#[test]
fn sizes_at_their_limits(rt: HostRuntime) -> Result<(), Fail> {
    for (cubes, script, byte, wanted) in [
        (1_048_576, 4_194_304, b' ', "0"),
        (1_048_577, 4_194_305, b' ', "4 cubes: CubesTooLong 1048577"),
        (0, 4_194_305, b' ', "4 script 1: ScriptTooLong 4194305"),
        (0, 65_537, b'x', "4 script 1: StatementTooLong 1"),
    ] {
        let ends = ends_with_sizes(&rt, rt.alloc(), cubes, script, byte)?;
        assert_eq!(rt; ends.as_str(), wanted);
    }
    Ok(())
}

#[test]
fn more_statements_than_are_allowed(rt: HostRuntime) -> Result<(), Fail> {
    let mut script = Vec::new(rt.alloc());
    for _ in 0..65_537 {
        script.extend_from_slice(b"x;")?;
    }
    let own = [("many", script.as_slice())];
    let given = Given {
        own: &own,
        ..given_scripts("")
    };
    let left = run_held(&rt, rt.alloc(), "--cubes t many", given, &NoGate)?;
    assert_eq!(rt; left.ends.as_str(), "4 script 1: TooManyStatements");
    Ok(())
}
