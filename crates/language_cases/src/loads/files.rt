//! Files of two cubes, with what their records are.

/// Files of visits, which have two dimensions of texts and two metrics, and their records as they are shown.
pub(super) const VISITS: &str = r#"
CA,M,3,1\nCA,M,x,1\nCA,M,3\n\xff,M,3,1\nNY,F,5,0\n|1: CA M 3 1 2 column likes NotNumber 3 values 3 WrongCount 4 column region NotText 5: NY F 5 0 |
||
\n||
\n\r\n\n||
CA,M,3,1|1: CA M 3 1 |
CA,M,3,1\r\nNY,F,5,0\r\n|1: CA M 3 1 2: NY F 5 0 |
region,gender,likes,comments\n|1 column likes NotNumber |
"C,A","M","3",1\n|1: C,A M 3 1 |
"a""b","x\ny",3,1\n|1: a"b x\ny 3 1 |
"CA,M,3,1\nNY,F,5,0\n|1 values 1 WrongCount |
CA,"M,3,1|1 values 2 WrongCount |
\xef\xbb\xbfCA,M,3,1\n|1: CA M 3 1 |
CA,\xef\xbb\xbfM,3,1\n|1: CA \xef\xbb\xbfM 3 1 |
,,0,0\n|1:   0 0 |
\xff,\xff,x,x\n|1 column region NotText |
CA,M,\xff,x\n|1 column likes NotNumber |
CA,M,3,1,\xff\n|1 values 5 WrongCount |
{255 a},M,3,1\n|1: {255 a} M 3 1 |
{256 a},M,3,1\n|1 column region TooLong |
\xff{255 a},M,3,1\n|1 column region NotText |
"#;

/// The same of points, which have a dimension of numbers below 5 and a metric.
pub(super) const POINTS: &str = r"
4,1\n5,1\n-1,1\n+1,1\n 1,1\n1,\n1\n1,2,3\n1,9223372036854775808\n1,-9223372036854775808\n-0,1\n|1: 4 1 2 column x OutOfRange 3 column x OutOfRange 4 column x NotNumber 5 column x NotNumber 6 column m NotNumber 7 values 1 WrongCount 8 values 3 WrongCount 9 column m NotNumber 10: 1 -9223372036854775808 11: 0 1 |
1,9223372036854775807\n1,-9223372036854775809\n1,99999999999999999999\n|1: 1 9223372036854775807 2 column m NotNumber 3 column m NotNumber |
00000000000000000003,-00000000000000000007\n-,1\n1,--1\n1,1-\n1,1 \n|1: 3 -7 2 column x NotNumber 3 column m NotNumber 4 column m NotNumber 5 column m NotNumber |
99999999999999999999,x\n9223372036854775807,x\n|1 column x NotNumber 2 column x OutOfRange |
";

/// Cubes of one dimension less and of many, each with a file behind a semicolon.
pub(super) const FEW_AND_MANY: &str = r"
cube n\nmetric m\n;7\n\n8,\n|1: 7 2 values 2 WrongCount |
cube w\n{16 dim d# int 20 20\n}metric m\n;{16 #,}-5\n|1: 0 1 2 3 4 5 6 7 8 9 10 11 12 13 14 15 -5 |
";

/// Files of a text and a number, with what is lent of their first row.
pub(super) const LENT: &str = r"
CA,364,-2\n|1 CA 364 -2 |
CA,365,-2\n||
";
