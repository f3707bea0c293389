//! Verdicts on the journals of runs, whole and changed in one place, worked out by hand from the rules.

use super::changes::{Opening, is_legal_run, verdicts};
use super::journals::lines_in;
use std::alloc::{AllocError, Global};
use std::process::Abort;

// A run: on its first lines what it shows, the safe epoch at first and the cube of which all statements speak, then
// its journal, and behind a line `==` where it is still legal with the entry left out, doubled, swapped with the next
// or with its number raised.

const VISITS: &str = "\
four stored rows and a query
0 t
begin 1.1 epoch 1 deps []
committed 1.1 epoch 1
begin 1.2 epoch 2 deps []
committed 1.2 epoch 2
begin 1.3 epoch 3 deps []
committed 1.3 epoch 3
begin 1.4 epoch 4 deps []
committed 1.4 epoch 4
read 1.5 epoch 4
readend 1.5
round 4
safe 4
==
.........L.L
............
.........L.
.........L..
";

const PENDING: &str = "\
an older transaction is pending while session 2 commits and reads
0 t
begin 1.1 epoch 1 deps []
begin 2.1 epoch 2 deps [1]
committed 2.1 epoch 2
read 2.2 epoch 0
readend 2.2
committed 1.3 epoch 1
read 2.3 epoch 2
readend 2.3
round 2
safe 2
==
.......L.L
..........
....L..L.
....L..L..
";

const LOST: &str = "\
a round is lost to the disk, and the FLUSH that asked for it is refused
0 t
begin 1.1 epoch 1 deps []
committed 1.1 epoch 1
round 1
lost 1 disk
refused 1.2 code 17
==
....L
....L
....
....L
";

const FLUSHED: &str = "\
FLUSH, PURGE and SHOW EPOCHS after one stored row
0 t
begin 1.1 epoch 1 deps []
committed 1.1 epoch 1
round 1
safe 1
flushed 1.2
purged 1.3 epoch 1
show 1.4
idle 1
==
....LLLL
.....LLL
.....LL
....L.L.
";

const WATCH: &str = "\
a watch of session 1, shown twice: its readers are held by 17 and 33 in turn
0 t
read 17.1 epoch 0
begin 1.2 epoch 1 deps []
committed 1.2 epoch 1
read 33.3 epoch 1
readend 17.3
begin 1.4 epoch 2 deps []
committed 1.4 epoch 2
read 17.5 epoch 2
readend 33.5
readend 17.6
round 2
safe 2
==
.........L.L
............
L..LL..LLL.
....L...LL..
";

const ABORTED: &str = "\
a fault of a file aborts a transaction, which is then rolled back
0 t
begin 1.1 epoch 1 deps []
aborted 1.2 epoch 1 ReadFault
refused 1.3 code 14
cleared 1.4
round 1
safe 1
==
..LL.L
..LL..
.LLL.
..LL..
";

const REOPENED: &str = "\
a query over a store that keeps all up to epoch 1
1 t
read 1.1 epoch 1
readend 1.1
idle 1
==
.LL
..L
.L
.L.
";

const CUBES: &str = "\
a cube is made, filled and asked, and made once more
0 u
cube 1.1 epoch 1
begin 1.2 epoch 2 deps []
committed 1.2 epoch 2
read 1.3 epoch 2
readend 1.3
refused 1.4 code 19
round 2
safe 2
==
....LL.L
.....L..
....LL.
....LL..
";

#[derive(Clone, Copy)]
struct Run<'a> {
    opening: Opening<'a>,
    journal: &'a str,
    wanted: &'a str,
}

fn run_in(text: &str) -> Option<Run> {
    let (_, text) = text.split_once('\n')?;
    let (first, text) = text.split_once('\n')?;
    let (safe, name) = first.split_once(' ')?;
    let (journal, wanted) = text.split_once("\n==\n")?;
    let opening = Opening {
        safe: safe.parse::<u32>().ok()?,
        cubes: "t",
        name,
    };
    Some(Run {
        opening,
        journal,
        wanted,
    })
}

// The verdicts on the journal changed in each way at each place, where it is legal itself.
fn found(alloc: Global, run: Run) -> Result<String, AllocError> {
    let lines = lines_in(alloc, run.journal, "\n")?;
    if !is_legal_run(alloc, run.opening, lines.as_slice())? {
        return String::from_str(alloc, "not legal itself");
    }
    verdicts(alloc, run.opening, lines.as_slice())
}

fn check_run(rt: &impl Abort, alloc: Global, text: &str) {
    let run = run_in(text).expect(rt, "a run");
    let found = found(alloc, run).expect(rt, "entries and memory");
    assert_eq!(rt; found.as_str(), run.wanted, "{text}");
}

#[test]
fn journals_changed_in_one_place(rt: HostRuntime) {
    check_run(&rt, rt.alloc(), VISITS);
    check_run(&rt, rt.alloc(), PENDING);
    check_run(&rt, rt.alloc(), LOST);
    check_run(&rt, rt.alloc(), FLUSHED);
    check_run(&rt, rt.alloc(), WATCH);
    check_run(&rt, rt.alloc(), ABORTED);
    check_run(&rt, rt.alloc(), REOPENED);
    check_run(&rt, rt.alloc(), CUBES);
}
