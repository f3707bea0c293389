//! Texts that declare cubes.

/// What a text shows, the text, and the canonical text of its cubes.
pub(super) const DECLARING: &str = r"
the worked cube|cube t\ndim x int 5 2\nmetric m\n|cube t\ndim x int 5 2\nmetric m\n|
nothing|||
empty lines|\n\n\n||
comments alone|# cube t\n  #x\n\t# y z\n#||
no dimension|cube t\nmetric m\n|cube t\nmetric m\n|
no last line end|cube t\nmetric m|cube t\nmetric m\n|
CR LF|cube t\r\ndim x int 5 2\r\nmetric m\r\n|cube t\ndim x int 5 2\nmetric m\n|
a line of CR alone|cube t\n\r\nmetric m\n|cube t\nmetric m\n|
a CR at the end|cube t\nmetric m\r|cube t\nmetric m\n|
tabs and spaces|\tcube \t t  \n  dim\tx\tint\t5\t2\t\n metric  m\n|cube t\ndim x int 5 2\nmetric m\n|
lines that are skipped within|# a cube\ncube t\n\n# its columns\ndim x int 5 2\n   \nmetric m\n|cube t\ndim x int 5 2\nmetric m\n|
leading zeros|cube t\ndim x int 0005 00002\nmetric m\n|cube t\ndim x int 5 2\nmetric m\n|
thirty digits|cube t\ndim x int 000000000000000000000000000005 2\nmetric m\n|cube t\ndim x int 5 2\nmetric m\n|
the largest number|cube t\ndim x int 4294967295 4294967295\nmetric m\n|cube t\ndim x int 4294967295 4294967295\nmetric m\n|
texts|cube t\ndim x text 5 5\nmetric m\n|cube t\ndim x text 5 5\nmetric m\n|
dimensions and metrics mixed|cube t\nmetric m\ndim x int 5 2\nmetric a\ndim b text 3 1\nmetric c\n|cube t\ndim x int 5 2\ndim b text 3 1\nmetric m\nmetric a\nmetric c\n|
several cubes|cube b\nmetric m\ncube a\ndim m int 1 1\nmetric x\n# end\ncube B\nmetric m\n|cube b\nmetric m\ncube a\ndim m int 1 1\nmetric x\ncube B\nmetric m\n|
the name of the cube as a column|cube t\ndim t int 5 2\nmetric T\n|cube t\ndim t int 5 2\nmetric T\n|
names with keywords in them|cube cubes\ndim _dim int 1 1\nmetric metric1\n|cube cubes\ndim _dim int 1 1\nmetric metric1\n|
2^62 bricks|cube t\ndim x int 2147483648 1\ndim y int 4294967295 2\nmetric m\n|cube t\ndim x int 2147483648 1\ndim y int 4294967295 2\nmetric m\n|
";
