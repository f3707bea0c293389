//! Numbers, steps and entries in the rows of tables.

use cube_values::{Entry, Field, Table};
use std::alloc::Global;
use std::process::Abort;

/// The numbers of a text, with spaces between them.
pub fn numbers_of(rt: &impl Abort, alloc: Global, text: &str) -> Vec<u32> {
    let mut numbers = Vec::new(alloc);
    for word in text.split_whitespace() {
        let number = word.parse::<u32>().ok().expect(rt, "a number");
        numbers.push(number).expect(rt, "memory");
    }
    numbers
}

// Two numbers with a colon between them.
fn pair_of(word: &str) -> Option<(u64, u64)> {
    let (first, second) = word.split_once(':')?;
    Some((first.parse::<u64>().ok()?, second.parse::<u64>().ok()?))
}

/// Steps, each an epoch and a number of rows.
pub fn steps_of(rt: &impl Abort, alloc: Global, text: &str) -> Vec<(u64, usize)> {
    let mut steps = Vec::new(alloc);
    for word in text.split_whitespace() {
        let (epoch, rows) = pair_of(word).expect(rt, "a step");
        steps.push((epoch, rows as usize)).expect(rt, "memory");
    }
    steps
}

// An entry, as run:EPOCH:END or mark:EPOCH:AT.
fn entry_of(word: &str) -> Option<Entry> {
    let (kind, numbers) = word.split_once(':')?;
    let (epoch, at) = pair_of(numbers)?;
    if kind == "run" {
        Some(Entry::Run { epoch, end: at })
    } else if kind == "mark" {
        Some(Entry::Mark { epoch, at })
    } else {
        None
    }
}

/// Whether the entries are those of a text.
pub fn are_entries(entries: &[Entry], text: &str) -> bool {
    let mut left = entries;
    for word in text.split_whitespace() {
        let [entry, rest @ ..] = left else {
            return false;
        };
        if entry_of(word) != Some(*entry) {
            return false;
        }
        left = rest;
    }
    left.is_empty()
}

/// Whether a field is this number.
pub fn is_number(field: &Field, number: i128) -> bool {
    match field {
        Field::Whole(whole) => *whole == number,
        _ => false,
    }
}

// Whether the fields of a line are the numbers of a text.
fn are_numbers(fields: &[Field], text: &str) -> bool {
    let mut left = fields;
    for word in text.split_whitespace() {
        let [field, rest @ ..] = left else {
            return false;
        };
        match word.parse::<i128>() {
            Ok(number) => {
                if !is_number(field, number) {
                    return false;
                }
            }
            Err(_) => return false,
        }
        left = rest;
    }
    left.is_empty()
}

// Whether line `at` of a table has the numbers of a text.
fn is_line(table: &Table, at: usize, text: &str) -> bool {
    match table.as_slice().get(at) {
        Some(line) => are_numbers(line.as_slice(), text),
        None => false,
    }
}

/// Whether a table has the lines of a text, with commas between them, and no other.
pub fn has_lines(table: &Table, text: &str) -> bool {
    let mut at: usize = 0;
    for line in text.split(',') {
        if !is_line(table, at, line) {
            return false;
        }
        at = at.saturating_add(1);
    }
    table.len() == at
}
