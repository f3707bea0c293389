//! Scripts of one session that are run whole, each with its text.

use crate::runs::{Given, given_scripts};
use crate::tables::{first_difference, wrong_in};
use outside_disk::NoGate;
use std::alloc::{AllocError, Global};
use std::test::Fail;

const ROWS: &str = "
# Nothing is asked.
--cubes visits 1

== 0
session 1
journal 1
idle 0
end ec 1 lce 0 lse 0
# Texts without a statement.
--cubes none blank

== 0
session 1
journal 1
idle 0
end ec 1 lce 0 lse 0
# Four rows of which two have one group.
--cubes visits 1
INSERT INTO visits VALUES ('CA','M',3,1); INSERT INTO visits VALUES ('NY','F',5,0); INSERT INTO visits VALUES ('CA','F',2,4); INSERT INTO visits VALUES ('TX','M',7,2); SELECT region, SUM(likes), COUNT(*) FROM visits GROUP BY region;
== 0
session 1
1.1 stored 1 epoch 1
1.2 stored 1 epoch 2
1.3 stored 1 epoch 3
1.4 stored 1 epoch 4
1.5 rows 3 epoch 4
'CA',5,2
'NY',5,1
'TX',7,1
journal 12
begin 1.1 epoch 1 deps []
committed 1.1 epoch 1
begin 1.2 epoch 2 deps []
committed 1.2 epoch 2
begin 1.3 epoch 3 deps []
committed 1.3 epoch 3
begin 1.4 epoch 4 deps []
committed 1.4 epoch 4
read 1.5 epoch 4
readend 1.5
round 4
safe 4
end ec 5 lce 4 lse 4
# A query over no rows has one line, and none by groups.
--cubes visits 1
SELECT SUM(likes), COUNT(*) FROM visits; SELECT region, COUNT(*) FROM visits GROUP BY region
== 0
session 1
1.1 rows 1 epoch 0
NULL,0
1.2 rows 0 epoch 0
journal 5
read 1.1 epoch 0
readend 1.1
read 1.2 epoch 0
readend 1.2
idle 0
end ec 1 lce 0 lse 0
# A row that does not fit takes no epoch.
--cubes t 1
INSERT INTO t VALUES (4,1); INSERT INTO t VALUES (5,1); INSERT INTO t VALUES (-1,1); INSERT INTO t VALUES (1)
== 0
session 1
1.1 stored 1 epoch 1
1.2 refused 7 BadRow row 1 column x OutOfRange
1.3 refused 7 BadRow row 1 column x OutOfRange
1.4 refused 7 BadRow row 1 values 1 WrongCount
journal 7
begin 1.1 epoch 1 deps []
committed 1.1 epoch 1
refused 1.2 code 7
refused 1.3 code 7
refused 1.4 code 7
round 1
safe 1
end ec 2 lce 1 lse 1
# A deletion hides the earlier rows of its own transaction.
--cubes visits 1
BEGIN; INSERT INTO visits VALUES ('CA','M',3,1); DELETE FROM visits; INSERT INTO visits VALUES ('CA','M',4,0); SELECT SUM(likes) FROM visits; COMMIT; SELECT SUM(likes) FROM visits
== 0
session 1
1.1 begun 1
1.2 stored 1 epoch 1
1.3 dropped epoch 1
1.4 stored 1 epoch 1
1.5 rows 1 epoch 1
4
1.6 committed 1
1.7 rows 1 epoch 1
4
journal 6
begin 1.1 epoch 1 deps []
committed 1.6 epoch 1
read 1.7 epoch 1
readend 1.7
round 1
safe 1
end ec 2 lce 1 lse 1
# Records that are no rows.
--cubes visits 1
LOAD visits FROM 'v.csv' REJECT 3
== 0
session 1
1.1 stored 2 rejected 3 epoch 1
reject 2 column likes NotNumber
reject 3 values 3 WrongCount
reject 4 column region NotText
journal 4
begin 1.1 epoch 1 deps []
committed 1.1 epoch 1
round 1
safe 1
end ec 2 lce 1 lse 1
# One more than is allowed.
--cubes visits 1
LOAD visits FROM 'v.csv' REJECT 2; SELECT COUNT(*) FROM visits
== 0
session 1
1.1 refused 10 TooManyRejected 3 allowed 2
1.2 rows 1 epoch 1
0
journal 6
begin 1.1 epoch 1 deps []
aborted 1.1 epoch 1 TooManyRejected
read 1.2 epoch 1
readend 1.2
round 1
safe 1
end ec 2 lce 1 lse 1
# Numbers at their edges.
--cubes t 1
LOAD t FROM 'h.csv' REJECT 8; LOAD t FROM 'h.csv' REJECT 7
== 0
session 1
1.1 stored 3 rejected 8 epoch 1
reject 2 column x OutOfRange
reject 3 column x OutOfRange
reject 4 column x NotNumber
reject 5 column x NotNumber
reject 6 column m NotNumber
reject 7 values 1 WrongCount
reject 8 values 3 WrongCount
reject 9 column m NotNumber
1.2 refused 10 TooManyRejected 8 allowed 7
journal 6
begin 1.1 epoch 1 deps []
committed 1.1 epoch 1
begin 1.2 epoch 2 deps []
aborted 1.2 epoch 2 TooManyRejected
round 2
safe 2
end ec 3 lce 2 lse 2
# A deletion that cuts a brick.
--cubes t 1
DELETE FROM t WHERE x = 0; DELETE FROM t WHERE x BETWEEN 0 AND 1; DELETE FROM t WHERE x = 4
== 0
session 1
1.1 refused 6 CutsBrick x
1.2 dropped epoch 1
1.3 dropped epoch 2
journal 7
refused 1.1 code 6
begin 1.2 epoch 1 deps []
committed 1.2 epoch 1
begin 1.3 epoch 2 deps []
committed 1.3 epoch 2
round 2
safe 2
end ec 3 lce 2 lse 2
# The same of texts.
--cubes visits 1
DELETE FROM visits WHERE region = 'CA'
== 0
session 1
1.1 refused 6 CutsBrick region
journal 2
refused 1.1 code 6
idle 0
end ec 1 lce 0 lse 0
# A round, a purge, and the counters.
--cubes t 1
INSERT INTO t VALUES (0,1); FLUSH; PURGE; SHOW EPOCHS;
== 0
session 1
1.1 stored 1 epoch 1
1.2 flushed 1
1.3 purged 1
1.4 epochs ec 2 lce 1 lse 1 pending []
journal 8
begin 1.1 epoch 1 deps []
committed 1.1 epoch 1
round 1
safe 1
flushed 1.2
purged 1.3 epoch 1
show 1.4
idle 1
end ec 2 lce 1 lse 1
# A cube that the script makes.
--cubes t 1
CREATE CUBE u (DIM y INT 4 4, METRIC k); INSERT INTO u VALUES (3,8); SELECT SUM(k) FROM u; CREATE CUBE u (METRIC k);
== 0
session 1
1.1 created epoch 1
1.2 stored 1 epoch 2
1.3 rows 1 epoch 2
8
1.4 refused 19 CubeExists u
journal 8
cube 1.1 epoch 1
begin 1.2 epoch 2 deps []
committed 1.2 epoch 2
read 1.3 epoch 2
readend 1.3
refused 1.4 code 19
round 2
safe 2
end ec 3 lce 2 lse 2
# No such cube, no such file.
--cubes t 1
SELECT COUNT(*) FROM w; LOAD t FROM 'g' REJECT 0
== 0
session 1
1.1 refused 2 UnknownCube w
1.2 refused 8 NoSuchFile
journal 3
refused 1.1 code 2
refused 1.2 code 8
idle 0
end ec 1 lce 0 lse 0
# The first lines of an answer, and a key that is no item.
--cubes visits 1
INSERT INTO visits VALUES ('CA','M',3,1); INSERT INTO visits VALUES ('NY','F',5,0); INSERT INTO visits VALUES ('CA','F',2,4); INSERT INTO visits VALUES ('TX','M',7,2); SELECT region, SUM(likes), COUNT(*) FROM visits GROUP BY region HAVING SUM(likes) BETWEEN 5 AND 7 ORDER BY COUNT(*) DESC, SUM(likes) LIMIT 2; SELECT region, SUM(likes), COUNT(*) FROM visits GROUP BY region ORDER BY SUM(likes) LIMIT 1; SELECT region, SUM(likes), COUNT(*) FROM visits GROUP BY region ORDER BY MIN(likes)
== 0
session 1
1.1 stored 1 epoch 1
1.2 stored 1 epoch 2
1.3 stored 1 epoch 3
1.4 stored 1 epoch 4
1.5 rows 2 epoch 4
'CA',5,2
'NY',5,1
1.6 rows 1 epoch 4
'CA',5,2
1.7 refused 26 NotAnItem MIN(likes)
journal 15
begin 1.1 epoch 1 deps []
committed 1.1 epoch 1
begin 1.2 epoch 2 deps []
committed 1.2 epoch 2
begin 1.3 epoch 3 deps []
committed 1.3 epoch 3
begin 1.4 epoch 4 deps []
committed 1.4 epoch 4
read 1.5 epoch 4
readend 1.5
read 1.6 epoch 4
readend 1.6
refused 1.7 code 26
round 4
safe 4
end ec 5 lce 4 lse 4
# A sum above 64 bits, and averages that are cut.
--cubes t 1
INSERT INTO t VALUES (0,9223372036854775807),(1,9223372036854775807),(2,9223372036854775807); SELECT SUM(m), AVG(m) FROM t; DELETE FROM t; INSERT INTO t VALUES (0,-1),(0,0); SELECT AVG(m), MIN(m), MAX(m) FROM t
== 0
session 1
1.1 stored 3 epoch 1
1.2 rows 1 epoch 1
27670116110564327421,9223372036854775807.0000
1.3 dropped epoch 2
1.4 stored 2 epoch 3
1.5 rows 1 epoch 3
-0.5000,-1,0
journal 12
begin 1.1 epoch 1 deps []
committed 1.1 epoch 1
read 1.2 epoch 1
readend 1.2
begin 1.3 epoch 2 deps []
committed 1.3 epoch 2
begin 1.4 epoch 3 deps []
committed 1.4 epoch 3
read 1.5 epoch 3
readend 1.5
round 3
safe 3
end ec 4 lce 3 lse 3
# A transaction that the end of the script rolls back.
--cubes t 1
BEGIN; INSERT INTO t VALUES (0,1)
== 0
session 1
1.1 begun 1
1.2 stored 1 epoch 1
journal 4
begin 1.1 epoch 1 deps []
aborted 1.3 epoch 1 EndOfScript
round 1
safe 1
end ec 2 lce 1 lse 1
# A text more than a dictionary has places for.
--cubes d 1
INSERT INTO d VALUES ('a',1); INSERT INTO d VALUES ('b',1); INSERT INTO d VALUES ('a',2); SELECT n, SUM(m) FROM d GROUP BY n
== 0
session 1
1.1 stored 1 epoch 1
1.2 refused 15 DictionaryFull 'b'
1.3 stored 1 epoch 2
1.4 rows 1 epoch 2
'a',3
journal 9
begin 1.1 epoch 1 deps []
committed 1.1 epoch 1
refused 1.2 code 15
begin 1.3 epoch 2 deps []
committed 1.3 epoch 2
read 1.4 epoch 2
readend 1.4
round 2
safe 2
end ec 3 lce 2 lse 2
# Texts that are no statements.
--cubes t 1
INSERT INTO t VALUES (4,7); SELECT FROM t; 'a;b'; x; INSERT INTO t VALUES (1,1) #; 'c;
== 0
session 1
1.1 stored 1 epoch 1
1.2 refused 1 Syntax at 7
1.3 refused 1 Syntax at 0
1.4 refused 1 Syntax at 0
1.5 refused 1 Syntax at 27
1.6 refused 1 Syntax at 0
journal 9
begin 1.1 epoch 1 deps []
committed 1.1 epoch 1
refused 1.2 code 1
refused 1.3 code 1
refused 1.4 code 1
refused 1.5 code 1
refused 1.6 code 1
round 1
safe 1
end ec 2 lce 1 lse 1
# A round after each commit.
--cubes t --round-every 1 1
INSERT INTO t VALUES (0,1); INSERT INTO t VALUES (2,2); SHOW EPOCHS
== 0
session 1
1.1 stored 1 epoch 1
1.2 stored 1 epoch 2
1.3 epochs ec 3 lce 2 lse 2 pending []
journal 14
begin 1.1 epoch 1 deps []
committed 1.1 epoch 1
round 1
safe 1
flushed 1.1
purged 1.1 epoch 1
begin 1.2 epoch 2 deps []
committed 1.2 epoch 2
round 2
safe 2
flushed 1.2
purged 1.2 epoch 2
show 1.3
idle 2
end ec 3 lce 2 lse 2
# A round after each second commit, of which a refused statement and a query are none.
--cubes t --round-every 2 1
BEGIN; INSERT INTO t VALUES (0,1); COMMIT; INSERT INTO t VALUES (5,1); SELECT COUNT(*) FROM t; DELETE FROM t; SHOW EPOCHS
== 0
session 1
1.1 begun 1
1.2 stored 1 epoch 1
1.3 committed 1
1.4 refused 7 BadRow row 1 column x OutOfRange
1.5 rows 1 epoch 1
1
1.6 dropped epoch 2
1.7 epochs ec 3 lce 2 lse 2 pending []
journal 13
begin 1.1 epoch 1 deps []
committed 1.3 epoch 1
refused 1.4 code 7
read 1.5 epoch 1
readend 1.5
begin 1.6 epoch 2 deps []
committed 1.6 epoch 2
round 2
safe 2
flushed 1.6
purged 1.6 epoch 2
show 1.7
idle 2
end ec 3 lce 2 lse 2
";

// How many shards there are is not seen.
#[test]
fn scripts_write_their_texts(rt: HostRuntime) -> Result<(), Fail> {
    for words in ["", "--shards 1", "--shards 3"] {
        let wrong = first_difference(&rt, rt.alloc(), ROWS, words)?;
        assert_eq!(rt; wrong.as_deref(), None, "{words}");
    }
    Ok(())
}

const LONG: &str = "Many records, and an average that is cut to nothing.
--cubes t 1
LOAD t FROM 'long.csv' REJECT 0; SELECT AVG(m), SUM(m), COUNT(*) FROM t
== 0
session 1
1.1 stored 100000 rejected 0 epoch 1
1.2 rows 1 epoch 1
0.0000,-1,100000
journal 6
begin 1.1 epoch 1 deps []
committed 1.1 epoch 1
read 1.2 epoch 1
readend 1.2
round 1
safe 1
end ec 2 lce 1 lse 1
";

// Records for `t`, of which the last one has the metric -1 and the others 0.
fn long_file(alloc: Global) -> Result<Vec<u8>, AllocError> {
    let mut bytes = Vec::new(alloc);
    for _ in 0..33_333 {
        bytes.extend_from_slice(b"0,0\n2,0\n4,0\n")?;
    }
    bytes.extend_from_slice(b"1,-1\n")?;
    Ok(bytes)
}

#[test]
fn many_records_are_loaded(rt: HostRuntime) -> Result<(), Fail> {
    let file = long_file(rt.alloc())?;
    let own = [("long.csv", file.as_slice())];
    let given = Given {
        own: &own,
        ..given_scripts("")
    };
    let wrong = wrong_in(&rt, rt.alloc(), LONG, given, &NoGate)?;
    assert_eq!(rt; wrong.as_deref(), None);
    Ok(())
}
