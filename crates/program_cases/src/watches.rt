//! Watches of one session, each with the text of its run.

use crate::tables::first_difference;
use std::test::Fail;

const WATCHES: &str = "
# An answer that is followed.
--cubes t 1
WATCH SELECT SUM(m), COUNT(*) FROM t; INSERT INTO t VALUES (0,5); SHOW WATCH; DELETE FROM t; SHOW WATCH;
== 0
session 1
1.1 watching 1 epoch 0
NULL,0
1.2 stored 1 epoch 1
1.3 watching 1 epoch 1
5,1
1.4 dropped epoch 2
1.5 watching 1 epoch 2
NULL,0
journal 12
read 17.1 epoch 0
begin 1.2 epoch 1 deps []
committed 1.2 epoch 1
read 33.3 epoch 1
readend 17.3
begin 1.4 epoch 2 deps []
committed 1.4 epoch 2
read 17.5 epoch 2
readend 33.5
readend 17.6
round 2
safe 2
end ec 3 lce 2 lse 2
# No watch.
--cubes t 1
SHOW WATCH
== 0
session 1
1.1 refused 24 NoWatch
journal 2
refused 1.1 code 24
idle 0
end ec 1 lce 0 lse 0
# Groups come with names that come later, and go with their rows.
--cubes visits 1
WATCH SELECT region, SUM(likes) FROM visits WHERE gender = 'F' GROUP BY region; INSERT INTO visits VALUES ('NY','F',5,0),('CA','M',3,1); SHOW WATCH; INSERT INTO visits VALUES ('CA','F',2,4); SHOW WATCH; DELETE FROM visits WHERE gender = 'F'; SHOW WATCH
== 0
session 1
1.1 watching 0 epoch 0
1.2 stored 2 epoch 1
1.3 watching 1 epoch 1
'NY',5
1.4 stored 1 epoch 2
1.5 watching 2 epoch 2
'CA',2
'NY',5
1.6 dropped epoch 3
1.7 watching 0 epoch 3
journal 16
read 17.1 epoch 0
begin 1.2 epoch 1 deps []
committed 1.2 epoch 1
read 33.3 epoch 1
readend 17.3
begin 1.4 epoch 2 deps []
committed 1.4 epoch 2
read 17.5 epoch 2
readend 33.5
begin 1.6 epoch 3 deps []
committed 1.6 epoch 3
read 33.7 epoch 3
readend 17.7
readend 33.8
round 3
safe 3
end ec 4 lce 3 lse 3
# The reader of a watch holds the latest safe epoch back.
--cubes t 1
INSERT INTO t VALUES (0,1); WATCH SELECT SUM(m) FROM t; INSERT INTO t VALUES (1,2); FLUSH; PURGE; SHOW EPOCHS; SHOW WATCH; FLUSH
== 0
session 1
1.1 stored 1 epoch 1
1.2 watching 1 epoch 1
1
1.3 stored 1 epoch 2
1.4 flushed 1
1.5 purged 1
1.6 epochs ec 3 lce 2 lse 1 pending []
1.7 watching 1 epoch 2
3
1.8 flushed 2
journal 17
begin 1.1 epoch 1 deps []
committed 1.1 epoch 1
read 17.2 epoch 1
begin 1.3 epoch 2 deps []
committed 1.3 epoch 2
round 1
safe 1
flushed 1.4
purged 1.5 epoch 1
show 1.6
read 33.7 epoch 2
readend 17.7
round 2
safe 2
flushed 1.8
readend 33.9
idle 2
end ec 3 lce 2 lse 2
# In an open transaction a watch does not see what is not committed.
--cubes t 1
BEGIN; INSERT INTO t VALUES (0,1); WATCH SELECT COUNT(*) FROM t; SHOW WATCH; COMMIT; SHOW WATCH
== 0
session 1
1.1 begun 1
1.2 stored 1 epoch 1
1.3 watching 1 epoch 0
0
1.4 watching 1 epoch 0
0
1.5 committed 1
1.6 watching 1 epoch 1
1
journal 10
begin 1.1 epoch 1 deps []
read 17.3 epoch 0
read 33.4 epoch 0
readend 17.4
committed 1.5 epoch 1
read 17.6 epoch 1
readend 33.6
readend 17.7
round 1
safe 1
end ec 2 lce 1 lse 1
# The end of the script rolls back, and closes the watch behind it.
--cubes t 1
BEGIN; WATCH SELECT COUNT(*) FROM t
== 0
session 1
1.1 begun 1
1.2 watching 1 epoch 0
0
journal 6
begin 1.1 epoch 1 deps []
read 17.2 epoch 0
aborted 1.3 epoch 1 EndOfScript
readend 17.3
round 1
safe 1
end ec 2 lce 1 lse 1
# Each refusal of a watch.
--cubes visits 1
SHOW WATCH; WATCH SELECT COUNT(*) FROM w; WATCH SELECT town FROM visits GROUP BY town; WATCH SELECT SUM(region) FROM visits; WATCH SELECT region FROM visits; WATCH SELECT COUNT(*), MAX(likes), MIN(likes) FROM visits; WATCH SELECT COUNT(*) FROM visits LIMIT 1; WATCH SELECT COUNT(*) FROM visits; WATCH SELECT COUNT(*) FROM w; SHOW WATCH
== 0
session 1
1.1 refused 24 NoWatch
1.2 refused 2 UnknownCube w
1.3 refused 3 UnknownColumn town
1.4 refused 4 WrongKind region
1.5 refused 5 NotGrouped region
1.6 refused 25 NotWatchable MAX(likes)
1.7 refused 1 Syntax at 34
1.8 watching 1 epoch 0
0
1.9 refused 23 WatchOpen
1.10 watching 1 epoch 0
0
journal 13
refused 1.1 code 24
refused 1.2 code 2
refused 1.3 code 3
refused 1.4 code 4
refused 1.5 code 5
refused 1.6 code 25
refused 1.7 code 1
read 17.8 epoch 0
refused 1.9 code 23
read 33.10 epoch 0
readend 17.10
readend 33.11
idle 0
end ec 1 lce 0 lse 0
# While a transaction waits for ROLLBACK a watch is kept, and neither shown nor opened.
--cubes visits 1
WATCH SELECT COUNT(*) FROM visits; BEGIN; LOAD visits FROM 'half.csv' REJECT 0; SHOW WATCH; WATCH SELECT COUNT(*) FROM visits; ROLLBACK; SHOW WATCH
== 0
session 1
1.1 watching 1 epoch 0
0
1.2 begun 1
1.3 refused 10 TooManyRejected 1 allowed 0
1.4 refused 14 TransactionAborted
1.5 refused 14 TransactionAborted
1.6 rolled back 1
1.7 watching 1 epoch 1
0
journal 11
read 17.1 epoch 0
begin 1.2 epoch 1 deps []
aborted 1.3 epoch 1 TooManyRejected
refused 1.4 code 14
refused 1.5 code 14
cleared 1.6
read 33.7 epoch 1
readend 17.7
readend 33.8
round 1
safe 1
end ec 2 lce 1 lse 1
";

#[test]
fn watches_follow_their_answers(rt: HostRuntime) -> Result<(), Fail> {
    for words in ["", "--shards 1"] {
        let wrong = first_difference(&rt, rt.alloc(), WATCHES, words)?;
        assert_eq!(rt; wrong.as_deref(), None, "{words}");
    }
    Ok(())
}
