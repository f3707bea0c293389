//! Sessions whose order a gate sets.

use crate::runs::given_scripts;
use crate::tables::{RowEnd, tried, wrong_in};
use outside_disk::Gate;
use std::alloc::{AllocError, Global};
use std::sync::Wait;
use std::sync::atomic::AtomicBool;
use std::sync::atomic::Ordering::SeqCst;
use std::test::Fail;
use std::thread::Threads;

// How often a hold looks at its flag before it gives up.
const LOOKS: u32 = 1_000_000_000;

/// What a gate is asked for.
#[derive(Clone, Copy, PartialEq, Eq)]
enum Asked {
    /// A statement that its session is about to begin.
    Before {
        session: u32,
        statement: u32,
    },
    /// A job of a statement on a shard.
    Within {
        shard: u32,
        session: u32,
        statement: u32,
    },
}

fn before(session: u32, statement: u32) -> Asked {
    Asked::Before { session, statement }
}

fn within(shard: u32, session: u32, statement: u32) -> Asked {
    Asked::Within {
        shard,
        session,
        statement,
    }
}

/// Who asks for the one is held until the gate was asked for the other.
#[derive(Drop)]
struct Hold {
    held: Asked,
    until: Asked,
    was_asked: AtomicBool,
}

/// A gate of holds.
#[derive(Drop)]
struct Holds {
    holds: Vec<Hold>,
    gave_up: AtomicBool,
}

impl Holds {
    fn new(alloc: Global, pairs: &[(Asked, Asked)]) -> Result<Holds, AllocError> {
        let mut holds = Vec::new(alloc);
        for (held, until) in pairs {
            holds.push(Hold {
                held: *held,
                until: *until,
                was_asked: AtomicBool::new(false),
            })?;
        }
        Ok(Holds {
            holds,
            gave_up: AtomicBool::new(false),
        })
    }

    fn ask(&self, asked: Asked) {
        for hold in &self.holds {
            if hold.until == asked {
                hold.was_asked.store(true, SeqCst);
            }
        }
        for hold in &self.holds {
            if hold.held == asked && !is_raised(&hold.was_asked) {
                self.gave_up.store(true, SeqCst);
            }
        }
    }
}

// Whether a flag is raised before its looker gives up.
fn is_raised(flag: &AtomicBool) -> bool {
    for _ in 0..LOOKS {
        if flag.load(SeqCst) {
            return true;
        }
    }
    false
}

impl Gate for Holds {
    fn before(&self, session: u32, statement: u32) {
        self.ask(before(session, statement));
    }

    fn within(&self, shard: u32, session: u32, statement: u32) {
        self.ask(within(shard, session, statement));
    }
}

const SIDE_BY_SIDE: &str = "Two sessions on two shards.
--cubes t --shards 2 1 2
INSERT INTO t VALUES (0,1)
INSERT INTO t VALUES (2,1); SELECT COUNT(*) FROM t; SHOW EPOCHS
== 0
session 1
..
round 2
safe 2
end ec 3 lce 2 lse 2
";

const EACH_IN_ITS_TURN: &str = "A statement begins once another one has ended.
--cubes t --shards 2 1 2
INSERT INTO t VALUES (0,1); SELECT COUNT(*) FROM t
SELECT COUNT(*) FROM t; SELECT COUNT(*) FROM t
== 0
session 1
1.1 stored 1 epoch 1
1.2 rows 1 epoch 1
1
session 2
2.1 rows 1 epoch 0
0
2.2 rows 1 epoch 1
1
journal 10
read 2.1 epoch 0
readend 2.1
begin 1.1 epoch 1 deps []
committed 1.1 epoch 1
..
round 1
safe 1
end ec 2 lce 1 lse 1
";

const PENDING_HIDES: &str = "What is committed stays unseen while an older transaction is pending.
--cubes t --shards 3 1 2
BEGIN; INSERT INTO t VALUES (0,1); INSERT INTO t VALUES (4,1); COMMIT; SELECT COUNT(*) FROM t
SELECT COUNT(*) FROM t; INSERT INTO t VALUES (2,1); SELECT COUNT(*) FROM t; SELECT COUNT(*) FROM t
== 0
session 1
1.1 begun 1
1.2 stored 1 epoch 1
1.3 stored 1 epoch 1
1.4 committed 1
1.5 rows 1 epoch 2
3
session 2
2.1 rows 1 epoch 0
0
2.2 stored 1 epoch 2
2.3 rows 1 epoch 0
0
2.4 rows 1 epoch 2
3
journal 14
..
begin 2.2 epoch 2 deps [1]
committed 2.2 epoch 2
read 2.3 epoch 0
committed 1.4 epoch 1
read 1.5 epoch 2
..
readend 2.3
..
read 2.4 epoch 2
..
round 2
safe 2
end ec 3 lce 2 lse 2
";

const DEPS_OF_A_WRITER: &str =
    "What was pending when a writer began it does not see, and the next writer does.
--cubes t --shards 3 1 2
BEGIN; INSERT INTO t VALUES (0,1); INSERT INTO t VALUES (4,1); COMMIT; SELECT COUNT(*) FROM t
SELECT COUNT(*) FROM t; BEGIN; SELECT COUNT(*) FROM t; COMMIT; BEGIN; SELECT COUNT(*) FROM t; COMMIT
== 0
session 1
1.1 begun 1
1.2 stored 1 epoch 1
1.3 stored 1 epoch 1
1.4 committed 1
1.5 rows 1 epoch 1
2
session 2
2.1 rows 1 epoch 0
0
2.2 begun 2
2.3 rows 1 epoch 2
0
2.4 committed 2
2.5 begun 3
2.6 rows 1 epoch 3
2
2.7 committed 3
journal 12
..
begin 2.2 epoch 2 deps [1]
committed 1.4 epoch 1
read 1.5 epoch 1
..
committed 2.4 epoch 2
..
begin 2.5 epoch 3 deps []
..
committed 2.7 epoch 3
..
round 3
safe 3
end ec 4 lce 3 lse 3
";

const DELETED_BEFORE_BIRTH: &str =
    "A deletion hides the row that an older transaction puts into a brick behind it.
--cubes visits-t --shards 3 1 2
INSERT INTO t VALUES (0,1); BEGIN; INSERT INTO t VALUES (1,1); INSERT INTO visits VALUES ('CA','M',3,1); COMMIT; SELECT COUNT(*) FROM visits
INSERT INTO t VALUES (2,1); DELETE FROM visits WHERE gender = 'M'; SELECT COUNT(*) FROM visits
== 0
session 1
..
1.2 begun 3
1.3 stored 1 epoch 3
1.4 stored 1 epoch 3
1.5 committed 3
1.6 rows 1 epoch 4
0
session 2
..
2.2 dropped epoch 4
2.3 rows 1 epoch 2
0
journal 14
..
begin 2.2 epoch 4 deps [3]
committed 2.2 epoch 4
read 2.3 epoch 2
..
committed 1.5 epoch 3
..
read 1.6 epoch 4
..
round 4
safe 4
end ec 5 lce 4 lse 4
";

const FIRST_HAS_THE_PLACE: &str = "The first session's name comes before the second one's.
--cubes d --shards 2 1 2
INSERT INTO d VALUES ('a',1)
SELECT COUNT(*) FROM d; INSERT INTO d VALUES ('b',1)
== 0
session 1
1.1 stored 1 epoch 1
session 2
2.1 rows 1 epoch 0
0
2.2 refused 15 DictionaryFull 'b'
journal 7
..
round 1
safe 1
end ec 2 lce 1 lse 1
";

const SECOND_HAS_THE_PLACE: &str = "The second session's name comes before the first one's.
--cubes d --shards 2 1 2
SELECT COUNT(*) FROM d; INSERT INTO d VALUES ('a',1)
INSERT INTO d VALUES ('b',1)
== 0
session 1
1.1 rows 1 epoch 0
0
1.2 refused 15 DictionaryFull 'a'
session 2
2.1 stored 1 epoch 1
journal 7
..
round 1
safe 1
end ec 2 lce 1 lse 1
";

// What a run did that did not end as its row says, or that left another name, or more than that one, in a dimension of the
// first cube, or that a hold gave up.
fn difference_named<R: Threads + Wait + Sync>(
    rt: &R,
    alloc: Global,
    lines: &str,
    pairs: &[(Asked, Asked)],
    names: &str,
) -> Result<Option<String>, AllocError> {
    let holds = Holds::new(alloc, pairs)?;
    let RowEnd { wrong, left } = tried(rt, alloc, lines, given_scripts(""), &holds)?;
    if holds.gave_up.load(SeqCst) {
        return Ok(Some(String::from_str(alloc, "a hold gave up")?));
    }
    if left.names.find(names).is_none() {
        return Ok(Some(String::from_str(alloc, "another name")?));
    }
    Ok(wrong)
}

// What a run did that did not end as its row says, or that a hold gave up.
fn difference_held<R: Threads + Wait + Sync>(
    rt: &R,
    alloc: Global,
    lines: &str,
    pairs: &[(Asked, Asked)],
) -> Result<Option<String>, AllocError> {
    let holds = Holds::new(alloc, pairs)?;
    let wrong = wrong_in(rt, alloc, lines, given_scripts(""), &holds)?;
    if holds.gave_up.load(SeqCst) {
        return Ok(Some(String::from_str(alloc, "a hold gave up")?));
    }
    Ok(wrong)
}

// Each session is within a shard while the other one is: scripts that run one after the other do not pass.
#[test]
fn sessions_run_side_by_side(rt: HostRuntime) -> Result<(), Fail> {
    let pairs = [
        (within(1, 2, 1), within(0, 1, 1)),
        (within(0, 1, 1), within(1, 2, 2)),
    ];
    let wrong = difference_held(&rt, rt.alloc(), SIDE_BY_SIDE, &pairs)?;
    assert_eq!(rt; wrong.as_deref(), None);
    Ok(())
}

// The one session's first statement begins behind the other one's, and that one's second behind this.
#[test]
fn statements_begin_in_their_turn(rt: HostRuntime) -> Result<(), Fail> {
    let pairs = [(before(1, 1), before(2, 2)), (before(2, 2), before(1, 2))];
    let wrong = difference_held(&rt, rt.alloc(), EACH_IN_ITS_TURN, &pairs)?;
    assert_eq!(rt; wrong.as_deref(), None);
    Ok(())
}

// The first session begins before the second one's statement 2, waits until that one's statement 3 has its snapshot, and
// commits before that statement ends.
fn in_turn() -> [(Asked, Asked); 4] {
    [
        (within(1, 2, 1), within(0, 1, 2)),
        (within(0, 1, 2), within(2, 2, 1)),
        (within(2, 1, 3), within(1, 2, 3)),
        (within(1, 2, 3), within(0, 1, 5)),
    ]
}

#[test]
fn a_pending_transaction_hides_later_ones(rt: HostRuntime) -> Result<(), Fail> {
    let wrong = difference_held(&rt, rt.alloc(), PENDING_HIDES, &in_turn())?;
    assert_eq!(rt; wrong.as_deref(), None);
    Ok(())
}

#[test]
fn a_writer_keeps_what_was_pending(rt: HostRuntime) -> Result<(), Fail> {
    let wrong = difference_held(&rt, rt.alloc(), DEPS_OF_A_WRITER, &in_turn())?;
    assert_eq!(rt; wrong.as_deref(), None);
    Ok(())
}

// The first session's BEGIN comes between the second one's statements 1 and 2. Its INSERT into `visits` is posted behind that
// statement 2, the DELETE, and held until the statement has ended.
fn behind_a_deletion() -> [(Asked, Asked); 4] {
    [
        (within(0, 1, 1), within(1, 2, 1)),
        (within(1, 2, 1), within(0, 1, 3)),
        (within(0, 1, 3), within(2, 2, 2)),
        (within(0, 1, 4), within(1, 2, 3)),
    ]
}

#[test]
fn a_deletion_comes_before_the_brick(rt: HostRuntime) -> Result<(), Fail> {
    let pairs = behind_a_deletion();
    let row = DELETED_BEFORE_BIRTH;
    let wrong = difference_named(&rt, rt.alloc(), row, &pairs, "\n1 M\n")?;
    assert_eq!(rt; wrong.as_deref(), None);
    Ok(())
}

// Each of two sessions waits within a shard until the other one is within the other: an INSERT has its name by then.
#[test]
fn the_name_that_comes_first_has_the_place(rt: HostRuntime) -> Result<(), Fail> {
    for (row, first, second, names) in [
        (
            FIRST_HAS_THE_PLACE,
            within(0, 1, 1),
            within(1, 2, 1),
            "\n0 a\n",
        ),
        (
            SECOND_HAS_THE_PLACE,
            within(0, 2, 1),
            within(1, 1, 1),
            "\n0 b\n",
        ),
    ] {
        let pairs = [(first, second), (second, first)];
        let wrong = difference_named(&rt, rt.alloc(), row, &pairs, names)?;
        assert_eq!(rt; wrong.as_deref(), None);
    }
    Ok(())
}
