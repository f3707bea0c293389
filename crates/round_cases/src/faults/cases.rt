//! The cases.

use super::fields::Field::{Byte, Long, Mark, Name, Number, Row, Run};
use super::{Case, Found};

/// A dimension of texts, three at most.
const TEXTS: &str = "cube a\ndim n text 3 1\nmetric m\n";

/// A dimension of five numbers, in three ranges of two.
const NUMBERS: &str = "cube t\ndim x int 5 2\nmetric m\n";

const J: &[&str] = &["j"];

const NONE: &[&str] = &[];

/// The cases in the order of the fields.
pub const CASES: &[Case] = &[
    // As many names as the cardinality.
    Case {
        cube: TEXTS,
        names: J,
        from: 3,
        epoch: 5,
        payload: &[Number(1), Number(2), Name(b"k"), Name(b"l"), Number(0)],
        found: Found::Round(85),
    },
    // A name more: its number stands at 32.
    Case {
        cube: TEXTS,
        names: J,
        from: 3,
        epoch: 5,
        payload: &[
            Number(1),
            Number(3),
            Name(b"k"),
            Name(b"l"),
            Name(b"m"),
            Number(0),
        ],
        found: Found::Fault(32),
    },
    // A name that this round has already, behind two bytes of the first.
    Case {
        cube: TEXTS,
        names: J,
        from: 3,
        epoch: 5,
        payload: &[Number(1), Number(2), Name(b"k"), Name(b"k"), Number(0)],
        found: Found::Fault(42),
    },
    // A name that an earlier round has.
    Case {
        cube: TEXTS,
        names: J,
        from: 3,
        epoch: 5,
        payload: &[Number(1), Number(2), Name(b"k"), Name(b"j"), Number(0)],
        found: Found::Fault(42),
    },
    // A byte that no text in UTF-8 has.
    Case {
        cube: TEXTS,
        names: J,
        from: 3,
        epoch: 5,
        payload: &[Number(1), Number(1), Name(b"\xff"), Number(0)],
        found: Found::Fault(40),
    },
    // A character that is cut off.
    Case {
        cube: TEXTS,
        names: J,
        from: 3,
        epoch: 5,
        payload: &[Number(1), Number(1), Name(b"k\xc3"), Number(0)],
        found: Found::Fault(40),
    },
    // The slash in two bytes.
    Case {
        cube: TEXTS,
        names: J,
        from: 3,
        epoch: 5,
        payload: &[Number(1), Number(1), Name(b"\xc0\xaf"), Number(0)],
        found: Found::Fault(40),
    },
    // A surrogate.
    Case {
        cube: TEXTS,
        names: J,
        from: 3,
        epoch: 5,
        payload: &[Number(1), Number(1), Name(b"\xed\xa0\x80"), Number(0)],
        found: Found::Fault(40),
    },
    // The last character there is.
    Case {
        cube: TEXTS,
        names: J,
        from: 3,
        epoch: 5,
        payload: &[Number(1), Number(1), Name(b"\xf4\x8f\xbf\xbf"), Number(0)],
        found: Found::Round(86),
    },
    // A name of no byte.
    Case {
        cube: TEXTS,
        names: J,
        from: 3,
        epoch: 5,
        payload: &[Number(1), Number(1), Name(b""), Number(0)],
        found: Found::Round(82),
    },
    // It stands twice.
    Case {
        cube: TEXTS,
        names: J,
        from: 3,
        epoch: 5,
        payload: &[Number(1), Number(2), Name(b""), Name(b""), Number(0)],
        found: Found::Fault(41),
    },
    // A name of 255 bytes.
    Case {
        cube: TEXTS,
        names: J,
        from: 3,
        epoch: 5,
        payload: &[Number(1), Number(1), Long(255), Number(0)],
        found: Found::Round(337),
    },
    // A name that is longer than what is left.
    Case {
        cube: TEXTS,
        names: J,
        from: 3,
        epoch: 5,
        payload: &[Number(1), Number(1), Byte(9), Number(0)],
        found: Found::Fault(40),
    },
    // A row of the name that comes with it.
    Case {
        cube: TEXTS,
        names: J,
        from: 3,
        epoch: 5,
        payload: &[
            Number(1),
            Number(1),
            Name(b"k"),
            Number(1),
            Number(1),
            Number(1),
            Run(4, 1),
            Row(1),
        ],
        found: Found::Round(128),
    },
    // A row of a name below the cardinality that has not come yet. Its coordinate stands at 83.
    Case {
        cube: TEXTS,
        names: J,
        from: 3,
        epoch: 5,
        payload: &[
            Number(1),
            Number(1),
            Name(b"k"),
            Number(1),
            Number(2),
            Number(1),
            Run(4, 1),
            Row(2),
        ],
        found: Found::Fault(83),
    },
    // Two bricks.
    Case {
        cube: NUMBERS,
        names: NONE,
        from: 3,
        epoch: 5,
        payload: &[
            Number(1),
            Number(2),
            Number(1),
            Number(1),
            Run(4, 1),
            Row(2),
            Number(2),
            Number(1),
            Run(4, 1),
            Row(4),
        ],
        found: Found::Round(163),
    },
    // They fall. The second begins at 85.
    Case {
        cube: NUMBERS,
        names: NONE,
        from: 3,
        epoch: 5,
        payload: &[
            Number(1),
            Number(2),
            Number(2),
            Number(1),
            Run(4, 1),
            Row(4),
            Number(1),
            Number(1),
            Run(4, 1),
            Row(2),
        ],
        found: Found::Fault(85),
    },
    // The same brick twice.
    Case {
        cube: NUMBERS,
        names: NONE,
        from: 3,
        epoch: 5,
        payload: &[
            Number(1),
            Number(2),
            Number(2),
            Number(1),
            Run(4, 1),
            Row(4),
            Number(2),
            Number(1),
            Run(5, 1),
            Row(4),
        ],
        found: Found::Fault(85),
    },
    // A brick that the cube has not.
    Case {
        cube: NUMBERS,
        names: NONE,
        from: 3,
        epoch: 5,
        payload: &[
            Number(1),
            Number(1),
            Number(3),
            Number(1),
            Run(4, 1),
            Row(4),
        ],
        found: Found::Fault(40),
    },
    // A row of another brick.
    Case {
        cube: NUMBERS,
        names: NONE,
        from: 3,
        epoch: 5,
        payload: &[
            Number(1),
            Number(1),
            Number(2),
            Number(1),
            Run(4, 1),
            Row(3),
        ],
        found: Found::Fault(73),
    },
    // The second row is of another brick.
    Case {
        cube: NUMBERS,
        names: NONE,
        from: 3,
        epoch: 5,
        payload: &[
            Number(1),
            Number(1),
            Number(2),
            Number(1),
            Run(4, 2),
            Row(4),
            Row(1),
        ],
        found: Found::Fault(85),
    },
    // A coordinate at the cardinality.
    Case {
        cube: NUMBERS,
        names: NONE,
        from: 3,
        epoch: 5,
        payload: &[
            Number(1),
            Number(1),
            Number(2),
            Number(1),
            Run(4, 1),
            Row(5),
        ],
        found: Found::Fault(73),
    },
    // No entry.
    Case {
        cube: NUMBERS,
        names: NONE,
        from: 3,
        epoch: 5,
        payload: &[Number(1), Number(1), Number(2), Number(0)],
        found: Found::Fault(48),
    },
    // A run of no row.
    Case {
        cube: NUMBERS,
        names: NONE,
        from: 3,
        epoch: 5,
        payload: &[Number(1), Number(1), Number(2), Number(1), Run(4, 0)],
        found: Found::Fault(65),
    },
    // An entry of a third kind.
    Case {
        cube: NUMBERS,
        names: NONE,
        from: 3,
        epoch: 5,
        payload: &[
            Number(1),
            Number(1),
            Number(2),
            Number(1),
            Byte(2),
            Number(4),
        ],
        found: Found::Fault(56),
    },
    // Runs of one epoch beside each other. The second begins at 85.
    Case {
        cube: NUMBERS,
        names: NONE,
        from: 3,
        epoch: 5,
        payload: &[
            Number(1),
            Number(1),
            Number(2),
            Number(2),
            Run(4, 1),
            Row(4),
            Run(4, 1),
            Row(4),
        ],
        found: Found::Fault(85),
    },
    // A mark between them.
    Case {
        cube: NUMBERS,
        names: NONE,
        from: 3,
        epoch: 5,
        payload: &[
            Number(1),
            Number(1),
            Number(2),
            Number(3),
            Run(4, 1),
            Row(4),
            Mark(4),
            Run(4, 1),
            Row(4),
        ],
        found: Found::Round(156),
    },
    // A mark twice. The second begins at 65.
    Case {
        cube: NUMBERS,
        names: NONE,
        from: 3,
        epoch: 5,
        payload: &[Number(1), Number(1), Number(2), Number(2), Mark(4), Mark(4)],
        found: Found::Fault(65),
    },
    // Marks of two epochs.
    Case {
        cube: NUMBERS,
        names: NONE,
        from: 3,
        epoch: 5,
        payload: &[Number(1), Number(1), Number(2), Number(2), Mark(5), Mark(4)],
        found: Found::Round(107),
    },
    // The round begins behind its first epoch.
    Case {
        cube: NUMBERS,
        names: NONE,
        from: 3,
        epoch: 5,
        payload: &[Number(1), Number(1), Number(2), Number(1), Mark(3)],
        found: Found::Fault(56),
    },
    // And ends with its last.
    Case {
        cube: NUMBERS,
        names: NONE,
        from: 3,
        epoch: 5,
        payload: &[Number(1), Number(1), Number(2), Number(1), Mark(5)],
        found: Found::Round(98),
    },
    // There is none behind it.
    Case {
        cube: NUMBERS,
        names: NONE,
        from: 3,
        epoch: 5,
        payload: &[Number(1), Number(1), Number(2), Number(1), Mark(6)],
        found: Found::Fault(56),
    },
    // The least epochs.
    Case {
        cube: NUMBERS,
        names: NONE,
        from: 0,
        epoch: 1,
        payload: &[Number(1), Number(1), Number(2), Number(1), Mark(1)],
        found: Found::Round(98),
    },
    // The greatest epochs.
    Case {
        cube: NUMBERS,
        names: NONE,
        from: 0x7fff_ffff_ffff_fffe,
        epoch: 0x7fff_ffff_ffff_ffff,
        payload: &[
            Number(1),
            Number(1),
            Number(2),
            Number(1),
            Mark(0x7fff_ffff_ffff_ffff),
        ],
        found: Found::Round(98),
    },
    // An epoch above the greatest.
    Case {
        cube: NUMBERS,
        names: NONE,
        from: 0x7fff_ffff_ffff_ffff,
        epoch: 0x8000_0000_0000_0000,
        payload: &[
            Number(1),
            Number(1),
            Number(2),
            Number(1),
            Mark(0x8000_0000_0000_0000),
        ],
        found: Found::Fault(0),
    },
    // No epoch.
    Case {
        cube: NUMBERS,
        names: NONE,
        from: 5,
        epoch: 5,
        payload: &[Number(1), Number(0)],
        found: Found::Fault(0),
    },
    // Epochs that fall.
    Case {
        cube: NUMBERS,
        names: NONE,
        from: 5,
        epoch: 4,
        payload: &[Number(1), Number(0)],
        found: Found::Fault(0),
    },
    // A round without bricks.
    Case {
        cube: NUMBERS,
        names: NONE,
        from: 3,
        epoch: 5,
        payload: &[Number(1), Number(0)],
        found: Found::Round(73),
    },
    // A byte behind its last brick.
    Case {
        cube: NUMBERS,
        names: NONE,
        from: 3,
        epoch: 5,
        payload: &[Number(1), Number(0), Byte(0)],
        found: Found::Fault(40),
    },
];
