//! The files that each shelf of a run has.

/// Names and bytes of cubes files, of scripts and of files that are loaded.
pub(crate) const FILES: [(&str, &[u8]); 26] = [
    // Cubes.
    ("t", b"cube t\ndim x int 5 2\nmetric m\n"),
    (
        "t-u",
        b"cube t\ndim x int 5 2\nmetric m\ncube u\ndim y int 4 4\nmetric k\n",
    ),
    ("one-range", b"cube t\ndim x int 5 5\nmetric m\n"),
    (
        "visits",
        b"cube visits\ndim region text 4 2\ndim gender text 4 1\nmetric likes\nmetric comments\n",
    ),
    (
        "visits-t",
        b"cube visits\ndim region text 4 2\ndim gender text 4 1\nmetric likes\nmetric comments\ncube t\ndim x int 5 2\nmetric m\n",
    ),
    ("d", b"cube d\ndim n text 1 1\nmetric m\n"),
    ("none", b""),
    (
        "fifteen",
        b"cube a\nmetric m\ncube b\nmetric m\ncube c\nmetric m\ncube d\nmetric m\ncube e\nmetric m\ncube f\nmetric m\ncube g\nmetric m\ncube h\nmetric m\ncube i\nmetric m\ncube j\nmetric m\ncube k\nmetric m\ncube l\nmetric m\ncube m\nmetric m\ncube n\nmetric m\ncube o\nmetric m\n",
    ),
    // What is no UTF-8.
    ("broken", b"a\xff"),
    ("late", b"FLUSH; \xc3"),
    ("shown", b"SHOW WATCH; \xff"),
    // Cubes that are refused.
    ("line-4", b"cube t\nmetric m\ncube t\nx"),
    ("again", b"cube t\nmetric m\n\ncube t"),
    (
        "seventeen",
        b"cube a\ncube b\ncube c\ncube d\ncube e\ncube f\ncube g\ncube h\ncube i\ncube j\ncube k\ncube l\ncube m\ncube n\ncube o\ncube p\ncube q",
    ),
    ("same-name", b"cube t\ndim x int 5 2\nmetric x\n"),
    ("no-range", b"cube t\ndim x int 5 0\nmetric m\n"),
    ("large-range", b"cube t\ndim x int 5 6\nmetric m\n"),
    (
        "bricks",
        b"cube t\ndim x int 4294967295 1\ndim y int 4294967295 1\ndim z int 4294967295 1\nmetric m\n",
    ),
    (
        "columns",
        b"cube t\nmetric a\nmetric b\nmetric c\nmetric d\nmetric e\nmetric f\nmetric g\nmetric h\nmetric i\nmetric j\nmetric k\nmetric l\nmetric m\nmetric n\nmetric o\nmetric p\nmetric q",
    ),
    ("no-metric", b"cube t\ndim x int 5 5\n"),
    // A script without a statement.
    ("blank", b" \t\r\n;; -- ;\n;"),
    // Records for `visits`.
    ("one.csv", b"CA,M,3,1\n"),
    ("bad.csv", b"CA,M,x,1\n"),
    ("half.csv", b"CA,M,3,1\nCA,M,x,1\n"),
    (
        "v.csv",
        b"CA,M,3,1\nCA,M,x,1\nCA,M,3\n\xff,M,3,1\nNY,F,5,0\n",
    ),
    // Records for `t`.
    (
        "h.csv",
        b"4,1\n5,1\n-1,1\n+1,1\n 1,1\n1,\n1\n1,2,3\n1,9223372036854775808\n1,-9223372036854775808\n-0,1\n",
    ),
];
