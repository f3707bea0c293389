//! Texts with a fault: what a text shows, the text, and its fault.

/// Lines in no form.
pub(super) const FORMS: &str = r"
a byte order mark|\xef\xbb\xbfcube t\ndim x int 5 2\nmetric m\n|BadLine 1|
a word that begins no line|cube t\nmetric m\ncubes u\n|BadLine 3|
a keyword in upper case|CUBE t\nmetric m\n|BadLine 1|
a dimension before any cube|# x\ndim x int 5 2\ncube t\nmetric m\n|BadLine 2|
a metric before any cube|\n\nmetric m\ncube t\n|BadLine 3|
no name of a cube|cube\n|BadLine 1|
two names of a cube|cube t u\n|BadLine 1|
no name of a metric|cube t\nmetric\n|BadLine 2|
two names of a metric|cube t\nmetric m n\n|BadLine 2|
no range|cube t\ndim x int 5\nmetric m\n|BadLine 2|
two ranges|cube t\ndim x int 5 2 1\nmetric m\n|BadLine 2|
a comment behind words|cube t # the cube\n|BadLine 1|
a mark behind words|cube t #\n|BadLine 1|
another kind|cube t\ndim x real 5 2\nmetric m\n|BadLine 2|
a kind in upper case|cube t\ndim x INT 5 2\nmetric m\n|BadLine 2|
CR within a line|cube t\rmetric m\n|BadLine 1|
two CRs at the end of a line|cube t\r\r\n|BadLine 1|
";

/// Words that are no names and no numbers.
pub(super) const WORDS: &str = r"
a digit first|cube t\nmetric 1m\n|BadLine 2|
another byte in a name|cube t\nmetric m-n\n|BadLine 2|
a letter that is not ASCII|cube t\nmetric é\n|BadLine 2|
a keyword as a cube|cube select\n|BadLine 1|
a keyword as a cube, in mixed case|cube Watch\n|BadLine 1|
a keyword as a dimension|cube t\ndim dim int 5 2\n|BadLine 2|
a keyword as a dimension, in upper case|cube t\ndim FROM text 5 2\n|BadLine 2|
a keyword as a metric|cube t\nmetric int\n|BadLine 2|
a keyword as a metric, in mixed case|cube t\nmetric sUm\n|BadLine 2|
33 bits of coordinates|cube t\ndim x int 4294967296 1\nmetric m\n|BadLine 2|
33 bits of a range|cube t\ndim x int 5 4294967296\nmetric m\n|BadLine 2|
a number of thirty digits|cube t\ndim x int 100000000000000000000000000005 1\nmetric m\n|BadLine 2|
a plus sign|cube t\ndim x int +5 2\nmetric m\n|BadLine 2|
a minus sign|cube t\ndim x int 5 -2\nmetric m\n|BadLine 2|
a letter in a number|cube t\ndim x int 5 2x\nmetric m\n|BadLine 2|
";

/// Faults of lines and cubes, beside one another.
pub(super) const CUBES: &str = r"
a cube twice|cube t\nmetric m\n\ncube t\nmetric m\n|DuplicateCube 4|
a cube three times|cube u\ncube t\ncube t\ncube u\ncube t\n|DuplicateCube 3|
a bad line behind a cube twice|cube t\ncube t\nmetrics\n|BadLine 3|
a bad line before a cube twice|metrics\ncube t\ncube t\n|BadLine 1|
no metric in a cube that stands twice|cube t\ncube t\nmetric m\n|DuplicateCube 2|
";

/// Declarations that cannot be stored.
pub(super) const DECLARATIONS: &str = r"
the first of two cubes that cannot be stored|cube s\nmetric m\ncube t\ncube u\nmetric m\nmetric m\n|Schema t NoMetric|
a dimension twice|cube t\ndim x int 5 2\ndim x text 5 2\nmetric m\n|Schema t DuplicateName x|
a metric twice|cube t\nmetric m\nmetric n\nmetric m\n|Schema t DuplicateName m|
a dimension as a metric|cube t\nmetric x\ndim x int 5 2\n|Schema t DuplicateName x|
dimensions come before metrics|cube t\nmetric m\nmetric m\ndim y int 5 2\ndim x int 5 2\ndim x int 5 2\n|Schema t DuplicateName x|
cardinality 0|cube t\ndim x int 0 1\nmetric m\n|Schema t ZeroCardinality x|
range 0|cube t\ndim x int 5 0\nmetric m\n|Schema t ZeroCardinality x|
the first of two zeros|cube t\ndim y int 5 2\ndim x int 5 0\ndim z int 0 5\nmetric m\n|Schema t ZeroCardinality x|
a range above the cardinality|cube t\ndim x int 5 6\nmetric m\n|Schema t RangeTooLarge x|
the first of two large ranges|cube t\ndim y int 5 5\ndim x int 5 6\ndim z int 1 9\nmetric m\n|Schema t RangeTooLarge x|
one range more than 2^62 bricks|cube t\ndim x int 2147483648 1\ndim y int 2147483649 1\nmetric m\n|Schema t TooManyBricks|
three large dimensions|cube t\ndim x int 4294967295 1\ndim y int 4294967295 1\ndim z int 4294967295 1\nmetric m\n|Schema t TooManyBricks|
no metric|cube t\ndim x int 5 2\n|Schema t NoMetric|
no column|cube t\n|Schema t NoMetric|
";

/// Declarations with two faults, in both orders.
pub(super) const TWO_FAULTS: &str = r"
a name twice and a zero|cube t\ndim x int 5 2\ndim x int 5 2\ndim z int 0 1\nmetric m\n|Schema t DuplicateName x|
a name twice and a zero, turned|cube t\ndim z int 0 1\ndim x int 5 2\ndim x int 5 2\nmetric m\n|Schema t DuplicateName x|
a name twice and a large range|cube t\ndim x int 5 2\ndim x int 5 2\ndim r int 5 6\nmetric m\n|Schema t DuplicateName x|
a name twice and a large range, turned|cube t\ndim r int 5 6\ndim x int 5 2\ndim x int 5 2\nmetric m\n|Schema t DuplicateName x|
a name twice and many bricks|cube t\ndim x int 5 2\ndim x int 5 2\ndim a int 4294967295 1\ndim b int 4294967295 1\nmetric m\n|Schema t DuplicateName x|
a name twice and many bricks, turned|cube t\ndim a int 4294967295 1\ndim b int 4294967295 1\ndim x int 5 2\ndim x int 5 2\nmetric m\n|Schema t DuplicateName x|
a name twice and no metric|cube t\ndim x int 5 2\ndim x int 5 2\n|Schema t DuplicateName x|
a zero and a large range|cube t\ndim z int 0 1\ndim r int 5 6\nmetric m\n|Schema t ZeroCardinality z|
a zero and a large range, turned|cube t\ndim r int 5 6\ndim z int 0 1\nmetric m\n|Schema t ZeroCardinality z|
a zero and many bricks|cube t\ndim z int 0 1\ndim a int 4294967295 1\ndim b int 4294967295 1\nmetric m\n|Schema t ZeroCardinality z|
a zero and many bricks, turned|cube t\ndim a int 4294967295 1\ndim b int 4294967295 1\ndim z int 0 1\nmetric m\n|Schema t ZeroCardinality z|
a zero and no metric|cube t\ndim z int 0 1\n|Schema t ZeroCardinality z|
a large range and many bricks|cube t\ndim r int 5 6\ndim a int 4294967295 1\ndim b int 4294967295 1\nmetric m\n|Schema t RangeTooLarge r|
a large range and many bricks, turned|cube t\ndim a int 4294967295 1\ndim b int 4294967295 1\ndim r int 5 6\nmetric m\n|Schema t RangeTooLarge r|
a large range and no metric|cube t\ndim r int 5 6\n|Schema t RangeTooLarge r|
many bricks and no metric|cube t\ndim a int 4294967295 1\ndim b int 4294967295 1\n|Schema t TooManyBricks|
";

/// Texts that are not UTF-8.
pub(super) const NO_TEXTS: &str = r"
a metric|cube t\nmetric m\nmetric \xff\n|NotUtf8 23|
behind a bad line|cubes\n\xc3|NotUtf8 6|
";

/// Seventeen dimensions beside other lines, which stand before them and behind them, and sixteen columns beside others.
pub(super) const MANY_COLUMNS: &str = r"
cube t\nmetric m\n{17 dim d# int 1 1\n}|Schema t TooManyColumns|
cube t\n{17 dim d# int 1 1\n}metric m\n|Schema t TooManyColumns|
cube t\ndim x int 5 2\nmetric x\n{17 dim d# int 1 1\n}|Schema t DuplicateName x|
cube t\n{17 dim d# int 1 1\n}dim x int 5 2\nmetric x\n|Schema t DuplicateName x|
cube t\ndim z int 0 1\nmetric m\n{17 dim d# int 1 1\n}|Schema t ZeroCardinality z|
cube t\n{17 dim d# int 1 1\n}dim z int 0 1\nmetric m\n|Schema t ZeroCardinality z|
cube t\ndim r int 5 6\nmetric m\n{17 dim d# int 1 1\n}|Schema t RangeTooLarge r|
cube t\n{17 dim d# int 1 1\n}dim r int 5 6\nmetric m\n|Schema t RangeTooLarge r|
cube t\ndim a int 4294967295 1\ndim b int 4294967295 1\n{17 dim d# int 1 1\n}|Schema t TooManyBricks|
cube t\n{17 dim d# int 1 1\n}dim a int 4294967295 1\ndim b int 4294967295 1\n|Schema t TooManyBricks|
cube t\n{16 dim d# int 1 1\n}{16 metric m#\n}||
cube t\n{16 metric m#\n}metric n\n|Schema t TooManyColumns|
cube t\n{16 dim d# int 1 1\n}dim e int 1 1\n|Schema t TooManyColumns|
";

/// Sixteen cubes on 32 lines, with lines behind them and before them.
pub(super) const MANY_CUBES: &str = r"
{16 cube c#\nmetric m\n}||
{16 cube c#\nmetric m\n}cube d\n|TooManyCubes 33|
{16 cube c#\nmetric m\n}# one more\ncube d\ncube e\n|TooManyCubes 34|
{16 cube c#\nmetric m\n}cube d\nmetric m\ncube c3\n|DuplicateCube 35|
{16 cube c#\nmetric m\n}cube d\nmetric\n|BadLine 34|
{16 cube c#\nmetric m\n}metric m\n|Schema c15 DuplicateName m|
cube d\n{16 cube c#\nmetric m\n}|TooManyCubes 32|
";

/// Names of 64 bytes and of 65, and two thousand names.
pub(super) const NAMES: &str = r"
cube t\nmetric {8 abcdefgh}\n||
cube t\nmetric {8 abcdefgh}n\n|BadLine 2|
{2000 cube n#\n}|TooManyCubes 17|
{2000 cube n#\n}cube n1999\n|DuplicateCube 2001|
cube t\n{2000 metric n#\n}metric n1999\n|Schema t DuplicateName n1999|
";
