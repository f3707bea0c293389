//! Statements with what each shows, its text, and the first test that it fails on the cube, if any.

/// On the cube of visits: `region text 4 2`, `gender text 4 1`, and the metrics `likes` and `comments`.
pub(super) const VISITS: &str = r"
a query that fits|SELECT region, SUM(likes) FROM visits GROUP BY region||
items first|SELECT a, SUM(b) FROM visits WHERE c = 1|UnknownColumn a|
a metric that is not there|SELECT SUM(b) FROM visits GROUP BY c|UnknownColumn b|
conditions second|SELECT COUNT(*) FROM visits WHERE c = 1 GROUP BY d|UnknownColumn c|
the group third|SELECT COUNT(*) FROM visits GROUP BY d HAVING SUM(e) = 1|UnknownColumn d|
HAVING fourth|SELECT COUNT(*) FROM visits HAVING SUM(e) = 1 ORDER BY f|UnknownColumn e|
ORDER BY last|SELECT COUNT(*) FROM visits ORDER BY SUM(f)|UnknownColumn f|
a deletion|DELETE FROM visits WHERE gender = 'M' AND c = 1|UnknownColumn c|
a watch|WATCH SELECT SUM(b) FROM visits|UnknownColumn b|
the name of the cube is no column|SELECT SUM(visits) FROM visits|UnknownColumn visits|
unknown after wrong kind|SELECT SUM(region), SUM(b) FROM visits|UnknownColumn b|
unknown before wrong kind|SELECT SUM(b), SUM(region) FROM visits|UnknownColumn b|
a dimension is measured|SELECT SUM(region) FROM visits|WrongKind region|
a metric as a plain item|SELECT likes FROM visits|WrongKind likes|
a metric as a group|SELECT COUNT(*) FROM visits GROUP BY likes|WrongKind likes|
a metric is compared|SELECT COUNT(*) FROM visits WHERE likes = 1|WrongKind likes|
a text beside a number|SELECT COUNT(*) FROM visits WHERE region = 1|WrongKind region|
one of several values|DELETE FROM visits WHERE gender IN ('M', 1)|WrongKind gender|
texts have no order|DELETE FROM visits WHERE gender BETWEEN 1 AND 2|WrongKind gender|
in HAVING|SELECT COUNT(*) FROM visits HAVING SUM(region) = 1|WrongKind region|
in ORDER BY|SELECT COUNT(*) FROM visits ORDER BY likes|WrongKind likes|
two wrong kinds|SELECT MIN(gender) FROM visits WHERE region = 1|WrongKind gender|
the other two|SELECT AVG(likes) FROM visits WHERE gender = 1 GROUP BY likes|WrongKind gender|
no group|SELECT gender FROM visits|NotGrouped gender|
another group|SELECT gender, region FROM visits GROUP BY gender|NotGrouped region|
two not grouped|SELECT gender, region FROM visits|NotGrouped gender|
not grouped before no item|SELECT region FROM visits ORDER BY gender|NotGrouped region|
not an item|SELECT SUM(likes) FROM visits HAVING SUM(comments) = 1|NotAnItem SUM(comments)|
another function|SELECT MIN(likes) FROM visits ORDER BY MAX(likes)|NotAnItem MAX(likes)|
HAVING before ORDER BY|SELECT SUM(likes) FROM visits HAVING COUNT(*) = 1 ORDER BY MIN(likes)|NotAnItem COUNT(*)|
no item before AVG|SELECT AVG(likes) FROM visits HAVING AVG(likes) = 1 ORDER BY COUNT(*)|NotAnItem COUNT(*)|
AVG in HAVING|SELECT AVG(likes), COUNT(*) FROM visits HAVING COUNT(*) = 1 AND AVG(likes) = 1|BadHaving AVG(likes)|
AVG in ORDER BY|SELECT AVG(likes) FROM visits ORDER BY AVG(likes)||
the first extreme|WATCH SELECT SUM(likes), MAX(likes), MIN(likes) FROM visits|NotWatchable MAX(likes)|
not grouped before MIN|WATCH SELECT region, MIN(likes) FROM visits|NotGrouped region|
MIN without a watch|SELECT MIN(likes) FROM visits||
texts in long ranges|DELETE FROM visits WHERE gender = 'M' AND region = 'CA'|CutsBrick region|
texts in single ranges|DELETE FROM visits WHERE gender IN ('M', 'F')||
no conditions|DELETE FROM visits||
a number as a text|INSERT INTO visits VALUES ('CA', 'M', 3, 1), ('CA', 2, 'x', 1)|BadRow row 2 column gender NotText|
a region of 255 bytes|INSERT INTO visits VALUES ('{255 r}', 'M', 3, 1)||
a region of 256 bytes|INSERT INTO visits VALUES ('{256 r}', 'M', 3, 1)|BadRow row 1 column region TooLong|
";

/// On a cube of a dimension `x int 5 2` and a metric `m`. The ranges are 0 and 1, 2 and 3, and 4 alone.
pub(super) const NUMBERS: &str = r"
a text for a number|SELECT COUNT(*) FROM t WHERE x = 'a'|WrongKind x|
half of a range|DELETE FROM t WHERE x = 0|CutsBrick x|
the other half|DELETE FROM t WHERE x = 3|CutsBrick x|
the short last range|DELETE FROM t WHERE x = 4||
a range listed|DELETE FROM t WHERE x IN (1, 0, 1, 9)||
a range and a half|DELETE FROM t WHERE x IN (0, 1, 2)|CutsBrick x|
two halves|DELETE FROM t WHERE x IN (0, 3)|CutsBrick x|
a range between|DELETE FROM t WHERE x BETWEEN 0 AND 1||
between beyond the coordinates|DELETE FROM t WHERE x BETWEEN -7 AND 9||
to beyond the last|DELETE FROM t WHERE x BETWEEN 2 AND 5||
from within a range|DELETE FROM t WHERE x BETWEEN 1 AND 3|CutsBrick x|
to within a range|DELETE FROM t WHERE x BETWEEN 0 AND 2|CutsBrick x|
nothing between|DELETE FROM t WHERE x BETWEEN 3 AND 2||
no coordinate|DELETE FROM t WHERE x IN (5, -1)||
nothing in common|DELETE FROM t WHERE x = 0 AND x = 1||
a range in common|DELETE FROM t WHERE x BETWEEN 1 AND 4 AND x IN (0, 2, 3)||
half of a range in common|DELETE FROM t WHERE x BETWEEN 1 AND 4 AND x IN (0, 1)|CutsBrick x|
a query cuts ranges|SELECT COUNT(*) FROM t WHERE x = 0||
the last coordinate|INSERT INTO t VALUES (4, 1)||
no coordinate of the cube|INSERT INTO t VALUES (5, 1)|BadRow row 1 column x OutOfRange|
below the coordinates|INSERT INTO t VALUES (-1, 1)|BadRow row 1 column x OutOfRange|
too few values|INSERT INTO t VALUES (1)|BadRow row 1 values 1 WrongCount|
too many values|INSERT INTO t VALUES (0, 1), (5, 1, 2), (5, 1)|BadRow row 2 values 3 WrongCount|
a bad row before another|INSERT INTO t VALUES (0, 1), (5, 1), (1)|BadRow row 2 column x OutOfRange|
a text as a coordinate|INSERT INTO t VALUES ('a', 1)|BadRow row 1 column x NotNumber|
a text as a metric|INSERT INTO t VALUES (1, 'a')|BadRow row 1 column m NotNumber|
the first bad column|INSERT INTO t VALUES (5, 'a')|BadRow row 1 column x OutOfRange|
a statement without a cube|SHOW EPOCHS||
";

/// On a cube of the dimensions `a int 4294967295 65536` and `b int 10 5`. The last range of `a` begins at
/// 4,294,901,760, which is 65,535 times 65,536, and has one coordinate less than the others.
pub(super) const WIDE: &str = r"
the first range|DELETE FROM w WHERE a BETWEEN 0 AND 65535||
one more|DELETE FROM w WHERE a BETWEEN 0 AND 65536|CutsBrick a|
the last range|DELETE FROM w WHERE a BETWEEN 4294901760 AND 4294967294||
one less|DELETE FROM w WHERE a BETWEEN 4294901760 AND 4294967293|CutsBrick a|
one before it|DELETE FROM w WHERE a BETWEEN 4294901759 AND 4294967294|CutsBrick a|
all numbers|DELETE FROM w WHERE a BETWEEN -9223372036854775808 AND 9223372036854775807||
up to a range's end|DELETE FROM w WHERE a BETWEEN -9223372036854775808 AND 131071||
a coordinate of many|DELETE FROM w WHERE a = 70000|CutsBrick a|
the second dimension|DELETE FROM w WHERE b = 1|CutsBrick b|
the first in the cube|DELETE FROM w WHERE b = 1 AND a = 1|CutsBrick a|
";
