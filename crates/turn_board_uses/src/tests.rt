//! What boards leave that threads have worked on.
use crate::closing::closed_doors;
use crate::counter::CounterCall;
use crate::doors::Door;
use crate::working::{counted, counters};

// The three cells are those that three threads add to, 100,000 times each. There are two threads where the third is none.
#[test]
fn threads(rt: HostRuntime) {
    for (cells, targets, want) in [
        (1, (0, 0, 1), [200_000, 0, 0, 0]),
        (1, (0, 0, 0), [300_000, 0, 0, 0]),
        (4, (1, 2, 4), [0, 100_000, 100_000, 0]),
        (4, (2, 1, 0), [100_000, 100_000, 100_000, 0]),
    ] {
        let Ok(Some(left)) = counted(&rt, rt.alloc(), cells, targets, 100_000) else {
            panic!(rt; "out of memory")
        };
        assert_eq!(rt; Some(left.as_slice()), want.get(..cells as usize));
    }
}

// Numbers that share a pass: it acts as the least of them.
#[test]
fn numbers(rt: HostRuntime) {
    let Ok((board, mut first)) = counters(rt.alloc(), 1, 3) else {
        panic!(rt; "out of memory")
    };
    let mut second = board.split(&mut first, 2);
    let mut third = board.split(&mut second, 1);
    let alone = [first.number(), second.number(), third.number()];
    let one = board.call(&rt, &mut first, 0, CounterCall::Add(1));
    let two = board.call(&rt, &mut second, 0, CounterCall::Add(2));
    let three = board.call(&rt, &mut third, 0, CounterCall::Add(4));
    board.ring(1);
    board.rest(&rt, &second);
    board.rest(&rt, &second);
    board.gather(&mut third, first);
    let shared = [third.number(), third.spare(), board.cells()];
    let four = board.call(&rt, &mut third, 0, CounterCall::Add(8));
    board.gather(&mut second, third);
    let all = [second.number(), second.spare()];
    let five = board.call(&rt, &mut second, 0, CounterCall::Get);
    let left = board.shut(&rt, second);
    assert_eq!(rt; alone, [0, 1, 2]);
    assert_eq!(rt; shared, [0, 1, 1]);
    assert_eq!(rt; all, [0, 2]);
    assert_eq!(rt; [one, two, three, four, five], [1, 3, 7, 15, 15]);
    assert_eq!(rt; left.as_slice(), [15].as_slice());
}

#[test]
fn doors(rt: HostRuntime) {
    let Ok(left) = closed_doors(&rt, rt.alloc()) else {
        panic!(rt; "out of memory")
    };
    assert_eq!(rt;
        [left.was_open, left.first, left.second],
        [true, false, true]
    );
    assert!(rt; matches!(left.doors.as_slice(), [Door::Closed, Door::Open]));
}
