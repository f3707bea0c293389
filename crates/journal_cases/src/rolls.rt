//! A roll of three, removals at each place, and a roll beside a plain list over many pushes and removals.
ghost use Rattle.std.specs.Prelude.{◌≡◌, ◌<◌};

use linked_roll::{Roll, Steps, Ticket};
use std::alloc::{AllocError, Global};
use std::marker::Brand;
use std::process::Abort;
use std::sync::ledger::{Blank, Ledger};
use std::test::Fail;

// The items in order.
fn listed(alloc: Global, roll: &Roll<u64>) -> Result<Vec<u64>, AllocError> {
    roll.items().copied().collect(alloc)
}

// Makes room where there is none and puts an item last.
fn pushed<L: Ledger>(
    roll: &mut Roll<u64>,
    item: u64,
    steps: &mut Steps<L>,
) -> Result<Ticket, AllocError> {
    roll.reserve(1)?;
    Ok(roll.push_back(item, steps))
}

// Takes an item out where the roll has its ticket.
fn taken<L: Ledger>(roll: &mut Roll<u64>, ticket: Ticket, steps: &mut Steps<L>) -> Option<u64> {
    if roll.get(ticket).is_some() {
        Some(roll.remove(ticket, steps))
    } else {
        None
    }
}

fn three<L: Ledger>(rt: &impl Abort, alloc: Global, blank: Blank) -> Result<(), Fail>
    requires name { blank.name ≡ L.name }
    requires parts { blank.parts ≡ L.parts }
    requires some { 0 < blank.parts }
{
    let mut steps = Steps::<L>::new(blank);
    let mut roll = Roll::new(alloc);
    assert!(rt; roll.front().is_none());
    roll.reserve(3)?;
    let _a = roll.push_back(10, &mut steps);
    let b = roll.push_back(20, &mut steps);
    let _c = roll.push_back(30, &mut steps);
    assert_eq!(rt; roll.get(b).copied(), Some(20));
    assert_eq!(rt; taken(&mut roll, b, &mut steps), Some(20));
    assert_eq!(rt; listed(alloc, &roll)?.as_slice(), [10, 30].as_slice());
    assert_eq!(rt; roll.front().copied(), Some(10));
    assert!(rt; roll.get(b).is_none());
    Ok(())
}

#[test]
fn a_roll_of_three(rt: HostRuntime) -> Result<(), Fail> {
    three::<Brand>(&rt, rt.alloc(), Blank::new(1))
}

// What a roll of so many items, 0 and on, holds once one of them is taken out and 9 is put last, or None where it
// is not this one that is taken out.
fn left_of<L: Ledger>(
    alloc: Global,
    steps: &mut Steps<L>,
    count: u64,
    out: u64,
) -> Result<Option<Vec<u64>>, AllocError> {
    let mut roll = Roll::new(alloc);
    let mut found = None;
    for item in 0..count {
        let ticket = pushed(&mut roll, item, steps)?;
        if item == out {
            found = Some(ticket);
        }
    }
    let Some(ticket) = found else {
        return Ok(None);
    };
    if taken(&mut roll, ticket, steps) != Some(out) {
        return Ok(None);
    }
    let _last = pushed(&mut roll, 9, steps)?;
    Ok(Some(listed(alloc, &roll)?))
}

// How many items, the one to take out, and what is left with 9 behind it.
const REMOVALS: &str = "\
1 0|9
2 1|0 9
3 0|1 2 9
3 1|0 2 9
3 2|0 1 9";

fn numbers_in(alloc: Global, text: &str) -> Result<Vec<u64>, AllocError> {
    let mut numbers = Vec::new(alloc);
    for word in text.split(' ') {
        numbers.push(word.parse::<u64>().map_err(|_| AllocError)?)?;
    }
    Ok(numbers)
}

// Whether that is left which a row says. A row that cannot be read is the error.
fn is_left<L: Ledger>(alloc: Global, steps: &mut Steps<L>, row: &str) -> Result<bool, AllocError> {
    let (removal, left) = row.split_once('|').ok_or(AllocError)?;
    let left = numbers_in(alloc, left)?;
    let removal = numbers_in(alloc, removal)?;
    match removal.as_slice() {
        [count, out] => Ok(left_of(alloc, steps, *count, *out)? == Some(left)),
        _ => Err(AllocError),
    }
}

fn removals<L: Ledger>(rt: &impl Abort, alloc: Global, blank: Blank)
    requires name { blank.name ≡ L.name }
    requires parts { blank.parts ≡ L.parts }
    requires some { 0 < blank.parts }
{
    let mut steps = Steps::<L>::new(blank);
    for row in REMOVALS.lines() {
        assert!(rt; is_left(alloc, &mut steps, row) == Ok(true), "{row}");
    }
}

#[test]
fn first_last_and_only(rt: HostRuntime) {
    removals::<Brand>(&rt, rt.alloc(), Blank::new(1));
}

fn beside_a_list<L: Ledger>(rt: &impl Abort, alloc: Global, blank: Blank) -> Result<(), Fail>
    requires name { blank.name ≡ L.name }
    requires parts { blank.parts ≡ L.parts }
    requires some { 0 < blank.parts }
{
    let mut steps = Steps::<L>::new(blank);
    let mut roll = Roll::new(alloc);
    let mut pushes: Vec<(Ticket, u64)> = Vec::new(alloc);
    let mut seed = 20_180_416u64;
    for step in 0..2_000u64 {
        seed = seed
            .wrapping_mul(6_364_136_223_846_793_005)
            .wrapping_add(1_442_695_040_888_963_407);
        if pushes.is_empty() || (seed >> 40) % 3 > 0 && pushes.len() < 16 {
            let ticket = pushed(&mut roll, step, &mut steps)?;
            pushes.push((ticket, step))?;
        } else {
            let (ticket, item) = pushes.remove((seed >> 33) as usize % pushes.len());
            assert_eq!(rt;
                taken(&mut roll, ticket, &mut steps),
                Some(item),
                "at step {step}"
            );
        }
        let items: Vec<u64> = pushes.iter().map(|push| push.1).collect(alloc)?;
        assert_eq!(rt; listed(alloc, &roll)?, items, "at step {step}");
    }
    Ok(())
}

#[test]
fn two_thousand_steps(rt: HostRuntime) -> Result<(), Fail> {
    beside_a_list::<Brand>(&rt, rt.alloc(), Blank::new(1))
}
