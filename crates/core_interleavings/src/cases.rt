//! The cases. A line has the session, its step, and behind the bar what the core says. A session that puts, deletes or
//! inserts without having begun a transaction does so in one of its own.
use crate::tables::{Case, plays};

const NUMBERS: &str = "cube c\ndim d int 4 2\nmetric m\n";

// A committed transaction is hidden while an earlier one is pending.
const PENDING_HIDES: &str = "\
1 begin   | epoch 1 deps []
1 put 0 3 | written
2 put 2 4 | epoch 2
2 query   | epoch 0 rows 0
1 commit  | epoch 1
2 query   | epoch 2 rows 2 sum 7";

// What was pending when a writer began it never sees. A later writer does.
const DEPS_OF_A_WRITER: &str = "\
1 begin   | epoch 1 deps []
1 put 0 3 | written
2 begin   | epoch 2 deps [1]
1 commit  | epoch 1
2 query   | epoch 2 rows 0
2 commit  | epoch 2
3 begin   | epoch 3 deps []
3 query   | epoch 3 rows 1 sum 3";

// A deletion before its brick is there deletes the rows that an earlier transaction puts later.
const DELETION_BEFORE_BIRTH: &str = "\
1 begin   | epoch 1 deps []
2 delete  | epoch 2
1 put 0 3 | written
1 commit  | epoch 1
2 query   | epoch 2 rows 0";

// A deletion deletes what its own transaction put before it, and not what it puts later.
const DELETION_IN_A_TRANSACTION: &str = "\
1 begin    | epoch 1 deps []
1 put 0 3  | written
1 delete   | written
1 put 0 -5 | written
1 query    | epoch 1 rows 1 sum -5
1 commit   | epoch 1
1 query    | epoch 1 rows 1 sum -5";

const ONE_NAME: &str = "cube c\ndim n text 1 1\nmetric m\n";

// Of two names a dictionary that may have one takes that which comes first.
const FULL_DICTIONARY: &str = "\
1 insert a | epoch 1
2 insert b | full
3 find a   | number 0
3 find b   | none
3 query    | epoch 1 rows 1 sum 1";

const FULL_DICTIONARY_TURNED: &str = "\
2 insert b | epoch 1
1 insert a | full
3 find a   | none
3 find b   | number 0
3 query    | epoch 1 rows 1 sum 1";

#[test]
fn pending_hides(rt: HostRuntime) {
    let case = Case {
        cube: NUMBERS,
        last: 3,
        table: PENDING_HIDES,
    };
    assert!(rt; plays(&rt, rt.alloc(), case));
}

#[test]
fn deps_of_a_writer(rt: HostRuntime) {
    let case = Case {
        cube: NUMBERS,
        last: 3,
        table: DEPS_OF_A_WRITER,
    };
    assert!(rt; plays(&rt, rt.alloc(), case));
}

#[test]
fn deletion_before_birth(rt: HostRuntime) {
    let case = Case {
        cube: NUMBERS,
        last: 3,
        table: DELETION_BEFORE_BIRTH,
    };
    assert!(rt; plays(&rt, rt.alloc(), case));
}

#[test]
fn deletion_in_a_transaction(rt: HostRuntime) {
    let case = Case {
        cube: NUMBERS,
        last: 3,
        table: DELETION_IN_A_TRANSACTION,
    };
    assert!(rt; plays(&rt, rt.alloc(), case));
}

#[test]
fn full_dictionary(rt: HostRuntime) {
    let case = Case {
        cube: ONE_NAME,
        last: 0,
        table: FULL_DICTIONARY,
    };
    assert!(rt; plays(&rt, rt.alloc(), case));
}

#[test]
fn full_dictionary_turned(rt: HostRuntime) {
    let case = Case {
        cube: ONE_NAME,
        last: 0,
        table: FULL_DICTIONARY_TURNED,
    };
    assert!(rt; plays(&rt, rt.alloc(), case));
}
