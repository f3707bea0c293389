//! Each refusal in each state of a session in which it can come, but for want of memory, 16: that may come anywhere, and a
//! test has no allocator that fails (`make starve` runs the program with one).

use crate::runs::{Given, given_scripts};
use crate::tables::{first_difference, wrong_in};
use outside_disk::NoGate;
use std::test::Fail;

const REFUSALS: &str = "
# While no transaction is open. A LOAD that brings too many bad records has begun one of its own.
--cubes visits 1
x; SELECT COUNT(*) FROM w; SELECT town FROM visits GROUP BY town; SELECT SUM(region) FROM visits; SELECT region FROM visits; SELECT COUNT(*) FROM visits HAVING SUM(likes) = 1; SELECT AVG(likes) FROM visits HAVING AVG(likes) = 1; DELETE FROM visits WHERE region = 'CA'; INSERT INTO visits VALUES (1); LOAD visits FROM 'g' REJECT 0; LOAD visits FROM 'bad.csv' REJECT 0; COMMIT; ROLLBACK; CREATE CUBE u (DIM y INT 0 1, METRIC k); CREATE CUBE visits (METRIC k); INSERT INTO visits VALUES ('CA','a',1,1),('CA','b',1,1),('CA','c',1,1),('CA','d',1,1); INSERT INTO visits VALUES ('CA','it''s',1,1)
== 0
session 1
1.1 refused 1 Syntax at 0
1.2 refused 2 UnknownCube w
1.3 refused 3 UnknownColumn town
1.4 refused 4 WrongKind region
1.5 refused 5 NotGrouped region
1.6 refused 26 NotAnItem SUM(likes)
1.7 refused 27 BadHaving AVG(likes)
1.8 refused 6 CutsBrick region
1.9 refused 7 BadRow row 1 values 1 WrongCount
1.10 refused 8 NoSuchFile
1.11 refused 10 TooManyRejected 1 allowed 0
1.12 refused 13 NoTransaction
1.13 refused 13 NoTransaction
1.14 refused 20 BadCube ZeroCardinality y
1.15 refused 19 CubeExists visits
1.16 stored 4 epoch 2
1.17 refused 15 DictionaryFull 'it''s'
journal 21
refused 1.1 code 1
refused 1.2 code 2
refused 1.3 code 3
refused 1.4 code 4
refused 1.5 code 5
refused 1.6 code 26
refused 1.7 code 27
refused 1.8 code 6
refused 1.9 code 7
refused 1.10 code 8
begin 1.11 epoch 1 deps []
aborted 1.11 epoch 1 TooManyRejected
refused 1.12 code 13
refused 1.13 code 13
refused 1.14 code 20
refused 1.15 code 19
begin 1.16 epoch 2 deps []
committed 1.16 epoch 2
refused 1.17 code 15
round 2
safe 2
end ec 3 lce 2 lse 2
# Inside a transaction, which stays open.
--cubes visits 1
BEGIN; BEGIN; CREATE CUBE u (METRIC k); x; SELECT COUNT(*) FROM w; SELECT town FROM visits GROUP BY town; SELECT SUM(region) FROM visits; SELECT region FROM visits; SELECT COUNT(*) FROM visits ORDER BY MIN(likes); SELECT AVG(likes) FROM visits HAVING AVG(likes) = 1; DELETE FROM visits WHERE region = 'CA'; INSERT INTO visits VALUES ('CA','M',1,1),('CA','M','x',1); LOAD visits FROM 'g' REJECT 0; INSERT INTO visits VALUES ('CA','a',1,1),('CA','b',1,1),('CA','c',1,1),('CA','d',1,1); INSERT INTO visits VALUES ('CA','e',1,1); COMMIT; SELECT COUNT(*) FROM visits
== 0
session 1
1.1 begun 1
1.2 refused 12 TransactionOpen
1.3 refused 12 TransactionOpen
1.4 refused 1 Syntax at 0
1.5 refused 2 UnknownCube w
1.6 refused 3 UnknownColumn town
1.7 refused 4 WrongKind region
1.8 refused 5 NotGrouped region
1.9 refused 26 NotAnItem MIN(likes)
1.10 refused 27 BadHaving AVG(likes)
1.11 refused 6 CutsBrick region
1.12 refused 7 BadRow row 2 column likes NotNumber
1.13 refused 8 NoSuchFile
1.14 stored 4 epoch 1
1.15 refused 15 DictionaryFull 'e'
1.16 committed 1
1.17 rows 1 epoch 1
4
journal 19
begin 1.1 epoch 1 deps []
refused 1.2 code 12
refused 1.3 code 12
refused 1.4 code 1
refused 1.5 code 2
refused 1.6 code 3
refused 1.7 code 4
refused 1.8 code 5
refused 1.9 code 26
refused 1.10 code 27
refused 1.11 code 6
refused 1.12 code 7
refused 1.13 code 8
refused 1.15 code 15
committed 1.16 epoch 1
read 1.17 epoch 1
readend 1.17
round 1
safe 1
end ec 2 lce 1 lse 1
# A transaction that a LOAD ended waits for ROLLBACK.
--cubes visits 1
BEGIN; LOAD visits FROM 'half.csv' REJECT 0; SELECT COUNT(*) FROM visits; SELECT COUNT(*) FROM w; INSERT INTO visits VALUES (1); LOAD visits FROM 'g' REJECT 0; DELETE FROM visits WHERE region = 'CA'; BEGIN; COMMIT; CREATE CUBE visits (METRIC k); x; FLUSH; PURGE; SHOW EPOCHS; ROLLBACK; ROLLBACK; SELECT COUNT(*) FROM visits
== 0
session 1
1.1 begun 1
1.2 refused 10 TooManyRejected 1 allowed 0
1.3 refused 14 TransactionAborted
1.4 refused 14 TransactionAborted
1.5 refused 14 TransactionAborted
1.6 refused 14 TransactionAborted
1.7 refused 14 TransactionAborted
1.8 refused 14 TransactionAborted
1.9 refused 14 TransactionAborted
1.10 refused 14 TransactionAborted
1.11 refused 1 Syntax at 0
1.12 flushed 1
1.13 purged 1
1.14 epochs ec 2 lce 1 lse 1 pending []
1.15 rolled back 1
1.16 refused 13 NoTransaction
1.17 rows 1 epoch 1
0
journal 21
begin 1.1 epoch 1 deps []
aborted 1.2 epoch 1 TooManyRejected
refused 1.3 code 14
refused 1.4 code 14
refused 1.5 code 14
refused 1.6 code 14
refused 1.7 code 14
refused 1.8 code 14
refused 1.9 code 14
refused 1.10 code 14
refused 1.11 code 1
round 1
safe 1
flushed 1.12
purged 1.13 epoch 1
show 1.14
cleared 1.15
refused 1.16 code 13
read 1.17 epoch 1
readend 1.17
idle 1
end ec 2 lce 1 lse 1
# The sixteenth cube is the last.
--cubes fifteen 1
CREATE CUBE p (METRIC m); CREATE CUBE q (METRIC m); CREATE CUBE p (METRIC m); CREATE CUBE q (DIM y INT 0 1, METRIC m); BEGIN; CREATE CUBE q (METRIC m)
== 0
session 1
1.1 created epoch 1
1.2 refused 21 TooManyCubes
1.3 refused 19 CubeExists p
1.4 refused 20 BadCube ZeroCardinality y
1.5 begun 2
1.6 refused 12 TransactionOpen
journal 9
cube 1.1 epoch 1
refused 1.2 code 21
refused 1.3 code 19
refused 1.4 code 20
begin 1.5 epoch 2 deps []
refused 1.6 code 12
aborted 1.7 epoch 2 EndOfScript
round 2
safe 2
end ec 3 lce 2 lse 2
# What makes a cube none that can be stored.
--cubes none 1
CREATE CUBE u (DIM y INT 2 1, METRIC y); CREATE CUBE u (DIM y INT 2 3, METRIC k); CREATE CUBE u (DIM a INT 4294967295 1, DIM b INT 4294967295 1, DIM c INT 4294967295 1, METRIC k); CREATE CUBE u (METRIC a, METRIC b, METRIC c, METRIC d, METRIC e, METRIC f, METRIC g, METRIC h, METRIC i, METRIC j, METRIC k, METRIC l, METRIC m, METRIC n, METRIC o, METRIC p, METRIC q); CREATE CUBE u (DIM y INT 2 1)
== 0
session 1
1.1 refused 20 BadCube DuplicateName y
1.2 refused 20 BadCube RangeTooLarge y
1.3 refused 20 BadCube TooManyBricks
1.4 refused 20 BadCube TooManyColumns
1.5 refused 20 BadCube NoMetric
journal 6
refused 1.1 code 20
refused 1.2 code 20
refused 1.3 code 20
refused 1.4 code 20
refused 1.5 code 20
idle 0
end ec 1 lce 0 lse 0
# Of several refusals the first is told.
--cubes visits 1
COMMIT x; SELECT town FROM w; SELECT SUM(region), town FROM visits; SELECT region, SUM(gender) FROM visits; SELECT region FROM visits HAVING SUM(likes) = 1; SELECT COUNT(*) FROM visits HAVING AVG(likes) = 1; LOAD w FROM 'g' REJECT 0; CREATE CUBE visits (DIM y INT 0 1, METRIC k)
== 0
session 1
1.1 refused 1 Syntax at 7
1.2 refused 2 UnknownCube w
1.3 refused 3 UnknownColumn town
1.4 refused 4 WrongKind gender
1.5 refused 5 NotGrouped region
1.6 refused 26 NotAnItem AVG(likes)
1.7 refused 2 UnknownCube w
1.8 refused 20 BadCube ZeroCardinality y
journal 9
refused 1.1 code 1
refused 1.2 code 2
refused 1.3 code 3
refused 1.4 code 4
refused 1.5 code 5
refused 1.6 code 26
refused 1.7 code 2
refused 1.8 code 20
idle 0
end ec 1 lce 0 lse 0
";

#[test]
fn refusals_write_their_texts(rt: HostRuntime) -> Result<(), Fail> {
    let wrong = first_difference(&rt, rt.alloc(), REFUSALS, "")?;
    assert_eq!(rt; wrong.as_deref(), None);
    Ok(())
}

const LONG: &str = "A file that is too long is not read.
--cubes t 1
LOAD t FROM 'long' REJECT 0; BEGIN; LOAD t FROM 'long' REJECT 0; COMMIT
== 0
session 1
1.1 refused 9 FileTooLong 67108865
1.2 begun 1
1.3 refused 9 FileTooLong 67108865
1.4 committed 1
journal 6
refused 1.1 code 9
begin 1.2 epoch 1 deps []
refused 1.3 code 9
committed 1.4 epoch 1
round 1
safe 1
end ec 2 lce 1 lse 1
";

#[test]
fn a_file_above_its_limit_is_not_loaded(rt: HostRuntime) -> Result<(), Fail> {
    let file = vec![in rt.alloc(); b' '; 67_108_865]?;
    let own = [("long", file.as_slice())];
    let given = Given {
        own: &own,
        ..given_scripts("")
    };
    let wrong = wrong_in(&rt, rt.alloc(), LONG, given, &NoGate)?;
    assert_eq!(rt; wrong.as_deref(), None);
    Ok(())
}
