//! Stores that one run writes and the next one opens, and files that are refused.

use crate::bytes::{GENERATION_2, MIGRATED, SPENT_EPOCH, STORE_1, STORE_2};
use crate::runs::{Given, Outcome, given_scripts, run_held, sound_disk};
use crate::tables::first_difference;
use outside_disk::NoGate;
use std::alloc::{AllocError, Global};
use std::sync::Wait;
use std::test::Fail;
use std::thread::Threads;

/// The two files of a store.
#[derive(Drop)]
pub(crate) struct Files {
    pub(crate) first: Vec<u8>,
    pub(crate) second: Vec<u8>,
}

fn files_of(alloc: Global, first: &[u8], second: &[u8]) -> Result<Files, AllocError> {
    Ok(Files {
        first: Vec::from_slice(alloc, first)?,
        second: Vec::from_slice(alloc, second)?,
    })
}

/// What a crash leaves behind a run where bytes that are not safe are these over and over, or those that were written.
pub(crate) fn files_left(left: &Outcome, fill: &[u8]) -> Result<Files, AllocError> {
    Ok(Files {
        first: left.disk.crash(fill)?,
        second: left.other.crash(fill)?,
    })
}

/// These files on sound disks, without a script.
pub(crate) fn given_files(files: &Files) -> Given {
    Given {
        disk: sound_disk(files.first.as_slice()),
        other: sound_disk(files.second.as_slice()),
        ..given_scripts("")
    }
}

// A file up to a place, beside an empty one.
fn cut_file(alloc: Global, file: &[u8], end: usize) -> Result<Files, AllocError> {
    let (front, _) = file.split_at(file.len().min(end));
    files_of(alloc, front, &[])
}

// The store of version 2 with another byte at a place, beside an empty file.
fn turned_file(alloc: Global, place: usize, byte: u8) -> Result<Files, AllocError> {
    let mut files = files_of(alloc, STORE_2, &[])?;
    if place < files.first.len() {
        files.first[place] = byte;
    }
    Ok(files)
}

/// The files of a store of this name, before anything is written. Of every other name they have no byte.
pub(crate) fn files_named(alloc: Global, name: &str) -> Result<Files, AllocError> {
    match name {
        "version-1" => files_of(alloc, STORE_1, &[]),
        "version-2" => files_of(alloc, STORE_2, &[]),
        "newer" => files_of(alloc, STORE_2, GENERATION_2),
        "both" => files_of(alloc, STORE_2, STORE_2),
        "hello" => files_of(alloc, b"hello", &[]),
        "spent" => files_of(alloc, SPENT_EPOCH, &[]),
        "cut-1" => cut_file(alloc, STORE_1, 150),
        "cut-2" => cut_file(alloc, STORE_2, 150),
        "turned" => turned_file(alloc, 164, 8),
        "version-9" => turned_file(alloc, 8, 9),
        _ => files_of(alloc, &[], &[]),
    }
}

const STORES: &str = "
# A new store.
--cubes t --store new --new 1
INSERT INTO t VALUES (4,7)
== 0
session 1
1.1 stored 1 epoch 1
journal 4
begin 1.1 epoch 1 deps []
committed 1.1 epoch 1
round 1
safe 1
end ec 2 lce 1 lse 1
# then it is opened.
--cubes t --store new 1
SELECT SUM(m) FROM t;
== 0
session 1
1.1 rows 1 epoch 1
7
journal 3
read 1.1 epoch 1
readend 1.1
idle 1
end ec 2 lce 1 lse 1
# then it has as many shards as one likes.
--cubes t --store new --shards 1 1
INSERT INTO t VALUES (0,2); DELETE FROM t WHERE x = 4; INSERT INTO t VALUES (4,5)
== 0
session 1
1.1 stored 1 epoch 2
1.2 dropped epoch 3
1.3 stored 1 epoch 4
journal 8
begin 1.1 epoch 2 deps []
committed 1.1 epoch 2
begin 1.2 epoch 3 deps []
committed 1.2 epoch 3
begin 1.3 epoch 4 deps []
committed 1.3 epoch 4
round 4
safe 4
end ec 5 lce 4 lse 4
# then what was deleted does not come back.
--cubes t --store new --shards 64 1
SELECT x, SUM(m) FROM t GROUP BY x; FLUSH; PURGE; SHOW EPOCHS
== 0
session 1
1.1 rows 2 epoch 4
0,2
4,5
1.2 flushed 4
1.3 purged 4
1.4 epochs ec 5 lce 4 lse 4 pending []
journal 7
read 1.1 epoch 4
readend 1.1
idle 4
flushed 1.2
purged 1.3 epoch 4
show 1.4
idle 4
end ec 5 lce 4 lse 4
# then a new one takes its place.
--cubes t --store new --new 1
SELECT SUM(m), COUNT(*) FROM t
== 0
session 1
1.1 rows 1 epoch 0
NULL,0
journal 3
read 1.1 epoch 0
readend 1.1
idle 0
end ec 1 lce 0 lse 0
# A round after each commit.
--cubes t --store new --new --round-every 1 1
INSERT INTO t VALUES (0,1); BEGIN; INSERT INTO t VALUES (2,2); ROLLBACK; INSERT INTO t VALUES (3,4)
== 0
session 1
1.1 stored 1 epoch 1
1.2 begun 2
1.3 stored 1 epoch 2
1.4 rolled back 2
1.5 stored 1 epoch 3
journal 15
begin 1.1 epoch 1 deps []
committed 1.1 epoch 1
round 1
safe 1
flushed 1.1
purged 1.1 epoch 1
begin 1.2 epoch 2 deps []
aborted 1.4 epoch 2 Asked
begin 1.5 epoch 3 deps []
committed 1.5 epoch 3
round 3
safe 3
flushed 1.5
purged 1.5 epoch 3
idle 3
end ec 4 lce 3 lse 3
# then what was rolled back is not there.
--cubes t --store new 1
SELECT SUM(m), COUNT(*) FROM t
== 0
session 1
1.1 rows 1 epoch 3
5,2
journal 3
read 1.1 epoch 3
readend 1.1
idle 3
end ec 4 lce 3 lse 3
# A cube that a session makes.
--cubes t --store new --new 1
CREATE CUBE u (DIM y INT 4 4, METRIC k); INSERT INTO u VALUES (3,8); SELECT SUM(k) FROM u; CREATE CUBE u (METRIC k);
== 0
session 1
1.1 created epoch 1
1.2 stored 1 epoch 2
1.3 rows 1 epoch 2
8
1.4 refused 19 CubeExists u
journal 8
cube 1.1 epoch 1
begin 1.2 epoch 2 deps []
committed 1.2 epoch 2
read 1.3 epoch 2
readend 1.3
refused 1.4 code 19
round 2
safe 2
end ec 3 lce 2 lse 2
# then it is there, though no file declares it.
--cubes t --store new 1
SELECT SUM(k) FROM u
== 0
session 1
1.1 rows 1 epoch 2
8
journal 3
read 1.1 epoch 2
readend 1.1
idle 2
end ec 3 lce 2 lse 2
# then a file that declares it declares other cubes.
--cubes t-u --store new 1
SELECT SUM(k) FROM u
== 5 cubes differ at 1
# Names.
--cubes d --store new --new 1
INSERT INTO d VALUES ('a',1)
== 0
session 1
1.1 stored 1 epoch 1
journal 4
begin 1.1 epoch 1 deps []
committed 1.1 epoch 1
round 1
safe 1
end ec 2 lce 1 lse 1
# then they are kept.
--cubes d --store new 1
INSERT INTO d VALUES ('b',1); INSERT INTO d VALUES ('a',2); SELECT n, SUM(m) FROM d GROUP BY n
== 0
session 1
1.1 refused 15 DictionaryFull 'b'
1.2 stored 1 epoch 2
1.3 rows 1 epoch 2
'a',3
journal 7
refused 1.1 code 15
begin 1.2 epoch 2 deps []
committed 1.2 epoch 2
read 1.3 epoch 2
readend 1.3
round 2
safe 2
end ec 3 lce 2 lse 2
# A store of version 2.
--cubes t --store version-2 1
SELECT SUM(m) FROM t;
== 0
session 1
1.1 rows 1 epoch 1
7
journal 3
read 1.1 epoch 1
readend 1.1
idle 1
end ec 2 lce 1 lse 1
# A store of version 1.
--cubes t --store version-1 1
SELECT SUM(m) FROM t;
== 0
session 1
1.1 rows 1 epoch 1
7
journal 3
read 1.1 epoch 1
readend 1.1
idle 1
end ec 2 lce 1 lse 1
# then its next round goes to the second file.
--cubes t --store version-1 1
INSERT INTO t VALUES (0,2);
== 0
session 1
1.1 stored 1 epoch 2
journal 4
begin 1.1 epoch 2 deps []
committed 1.1 epoch 2
round 2
safe 2
end ec 3 lce 2 lse 2
# then both rows are there.
--cubes t --store version-1 1
SELECT SUM(m) FROM t
== 0
session 1
1.1 rows 1 epoch 2
9
journal 3
read 1.1 epoch 2
readend 1.1
idle 2
end ec 3 lce 2 lse 2
# The file of the greater generation counts.
--cubes t --store newer 1
SELECT SUM(m) FROM t
== 0
session 1
1.1 rows 1 epoch 0
NULL
journal 3
read 1.1 epoch 0
readend 1.1
idle 0
end ec 1 lce 0 lse 0
# Two files of one generation.
--cubes t --store both 1
SELECT SUM(m) FROM t
== 5 two files of generation 1
# No file has a byte.
--cubes t --store new 1
SELECT SUM(m) FROM t
== 5 not a store
# A file of something else.
--cubes t --store hello 1
SELECT SUM(m) FROM t
== 5 not a store
# A version that there is not.
--cubes t --store version-9 1
SELECT SUM(m) FROM t
== 5 store version 9
# A file of version 2 that is cut.
--cubes t --store cut-2 1
SELECT SUM(m) FROM t
== 5 damaged at 87
# A file of version 1 that is cut.
--cubes t --store cut-1 1
SELECT SUM(m) FROM t
== 5 damaged at 79
# A metric is another.
--cubes t --store turned 1
SELECT SUM(m) FROM t
== 5 round 1 kept a457b05d9f1aedb8451e06f4beb5e342a6cb6ce59af2a4102b859bdcbb0884af found 995c806212cd0894a05c8eb90229e552b184a4da84bb2a73a2cc751309048cc8
# Other cubes are declared.
--cubes one-range --store version-2 1
SELECT SUM(m) FROM t
== 5 cubes differ at 0
# No epoch is left.
--cubes t --store spent 1
SELECT SUM(m) FROM t
== 5 epochs spent at 2305843009213693953
";

#[test]
fn stores_are_written_and_opened(rt: HostRuntime) -> Result<(), Fail> {
    let wrong = first_difference(&rt, rt.alloc(), STORES, "")?;
    assert_eq!(rt; wrong.as_deref(), None);
    Ok(())
}

// Whether a run of a script over a first file leaves these two.
fn leaves<R: Threads + Wait + Sync>(
    rt: &R,
    alloc: Global,
    words: &str,
    script: &str,
    file: &[u8],
    first: &[u8],
    second: &[u8],
) -> Result<bool, AllocError> {
    let given = Given {
        disk: sound_disk(file),
        ..given_scripts(script)
    };
    let left = run_held(rt, alloc, words, given, &NoGate)?;
    let files = files_left(&left, &[])?;
    Ok(files.first.as_slice() == first && files.second.as_slice() == second)
}

#[test]
fn files_are_written_byte_for_byte(rt: HostRuntime) -> Result<(), Fail> {
    let words = "--cubes t --store s --new 1";
    let script = "INSERT INTO t VALUES (4,7)";
    assert!(rt; leaves(&rt, rt.alloc(), words, script, &[], STORE_2, &[])?);
    let words = "--cubes t --store s 1";
    let script = "SELECT SUM(m) FROM t";
    assert!(rt; leaves(&rt, rt.alloc(), words, script, STORE_1, STORE_1, &[])?);
    let script = "INSERT INTO t VALUES (0,2)";
    assert!(rt; leaves(&rt, rt.alloc(), words, script, STORE_1, STORE_1, MIGRATED)?);
    Ok(())
}
