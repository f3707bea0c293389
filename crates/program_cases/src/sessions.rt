//! Sessions beside each other, in whatever order.

use crate::runs::{Given, given_scripts, run_held};
use crate::stores::{Files, files_left, given_files};
use crate::tables::{RowEnd, difference_from, tried, wrong_in};
use outside_disk::NoGate;
use std::alloc::{AllocError, Global};
use std::sync::Wait;
use std::test::Fail;
use std::thread::Threads;

const OWN_SHELVES: &str = "Each session loads from its own shelf: only the first one has the file.
--cubes t 1 2
LOAD t FROM 'own' REJECT 0
LOAD t FROM 'own' REJECT 0
== 0
session 1
1.1 stored 2 rejected 0 epoch 1
session 2
2.1 refused 8 NoSuchFile
journal 5
..
round 1
safe 1
end ec 2 lce 1 lse 1
";

#[test]
fn sessions_load_from_their_own_shelves(rt: HostRuntime) -> Result<(), Fail> {
    let own = [("own", b"0,1\n3,5\n".as_slice())];
    let given = Given {
        own: &own,
        ..given_scripts("")
    };
    let wrong = wrong_in(&rt, rt.alloc(), OWN_SHELVES, given, &NoGate)?;
    assert_eq!(rt; wrong.as_deref(), None);
    Ok(())
}

const FIRST_NAMES: &str = "The first session's name has the place.
--cubes d 1 2
INSERT INTO d VALUES ('a',1)
INSERT INTO d VALUES ('b',1)
== 0
session 1
1.1 stored 1 epoch 1
session 2
2.1 refused 15 DictionaryFull 'b'
journal 5
..
round 1
safe 1
end ec 2 lce 1 lse 1
";

const SECOND_NAMES: &str = "The second session's name has the place.
--cubes d 1 2
INSERT INTO d VALUES ('a',1)
INSERT INTO d VALUES ('b',1)
== 0
session 1
1.1 refused 15 DictionaryFull 'a'
session 2
2.1 stored 1 epoch 1
journal 5
..
round 1
safe 1
end ec 2 lce 1 lse 1
";

// Whether one of two sessions finds a place for its name, which is then the only one, and the other does not.
fn one_name_has_the_place<R: Threads + Wait + Sync>(
    rt: &R,
    alloc: Global,
) -> Result<bool, AllocError> {
    let RowEnd { wrong, left } = tried(rt, alloc, FIRST_NAMES, given_scripts(""), &NoGate)?;
    let is_first = wrong.is_none() && left.names.find("\n0 a\n").is_some();
    let is_second = difference_from(alloc, SECOND_NAMES, &left)?.is_none()
        && left.names.find("\n0 b\n").is_some();
    Ok(is_first || is_second)
}

#[test]
fn two_names_for_one_place(rt: HostRuntime) -> Result<(), Fail> {
    for _ in 0..20 {
        assert!(rt; one_name_has_the_place(&rt, rt.alloc())?);
    }
    Ok(())
}

// Each of sixteen sessions stores two rows and deletes others, with a round after each commit.
const SIXTEEN: &str =
    "INSERT INTO t VALUES (4,7); SELECT SUM(m) FROM t; INSERT INTO t VALUES (0,-2); DELETE FROM t WHERE x IN (2, 3)";

const SIXTEEN_WORDS: &str =
    "--cubes t --shards 8 --round-every 1 --store s --new 1 1 1 1 1 1 1 1 1 1 1 1 1 1 1 1";

const ALL_SAFE: &str = "All is safe.
--cubes t --shards 8 --round-every 1 --store s --new 1 1 1 1 1 1 1 1 1 1 1 1 1 1 1 1
== 0
session 1
..
end ec 49 lce 48 lse 48
";

const ALL_OPENED: &str = "All rows are there again.
--cubes t --store s 1
SELECT x, SUM(m), COUNT(*) FROM t GROUP BY x
== 0
session 1
1.1 rows 2 epoch 48
0,-32,16
4,112,16
journal 3
read 1.1 epoch 48
readend 1.1
idle 48
end ec 49 lce 48 lse 48
";

// What differs where sixteen sessions have run, and where what they stored is opened again.
fn difference_of_sixteen<R: Threads + Wait + Sync>(
    rt: &R,
    alloc: Global,
) -> Result<Option<String>, AllocError> {
    let left = run_held(rt, alloc, SIXTEEN_WORDS, given_scripts(SIXTEEN), &NoGate)?;
    let wrong = difference_from(alloc, ALL_SAFE, &left)?;
    if wrong.is_some() {
        return Ok(wrong);
    }
    let files = files_left(&left, &[])?;
    difference_opened(rt, alloc, &files)
}

// What differs where the store of these files is opened.
fn difference_opened<R: Threads + Wait + Sync>(
    rt: &R,
    alloc: Global,
    files: &Files,
) -> Result<Option<String>, AllocError> {
    wrong_in(rt, alloc, ALL_OPENED, given_files(files), &NoGate)
}

#[test]
fn sixteen_sessions_end_many_times(rt: HostRuntime) -> Result<(), Fail> {
    for time in 0..20 {
        let wrong = difference_of_sixteen(&rt, rt.alloc())?;
        assert_eq!(rt; wrong.as_deref(), None, "time {time}");
    }
    Ok(())
}
