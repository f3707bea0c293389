//! Rows of numbers in words of 64 bits, by tables.

ghost use Rattle.std.specs.Prelude.{◌≡◌, ◌≤◌, ◌^◌, ◌<◌, IfSome, IsTrue, All, sum};
ghost use Rattle.std.specs.List.{AllZip};
ghost use Rattle.packed_words.specs.declared.packed_rows.TheConstants.{MOST_BITS};
ghost use Rattle.packed_words.specs.Rows.{HasWidth};

use crate::tables::{are_words, numbers_of};
use cube_values::Bits;
use packed_words::{MOST_BITS, PackedRows};
use std::alloc::Global;
use std::process::Abort;

// The sum of widths, where none is above the most and the sum is small.
fn small_sum(widths: &[u64]) -> Option<u64>
    ensures narrow { IfSome result (λ n. All (λ width. width ≤ MOST_BITS) widths.now) }
    ensures sum { IfSome result (λ n. n ≡ sum widths.now) }
    ensures few { IfSome result (λ n. n < 2 ^ 32) }
{
    let [width, rest @ ..] = widths else {
        return Some(0);
    };
    let others = small_sum(rest)?;
    if *width <= MOST_BITS && others < 1 << 31 {
        Some(*width + others)
    } else {
        None
    }
}

// Whether each number can be written in its width.
fn have_widths(row: &[u32], widths: &[u64]) -> bool
    ensures { IsTrue result → AllZip HasWidth row.now widths.now }
{
    let [number, numbers @ ..] = row else {
        return widths.is_empty();
    };
    let [width, rest @ ..] = widths else {
        return false;
    };
    *width < 64 && u64::from(*number) < 1 << *width && have_widths(numbers, rest)
}

// No rows, of numbers with these widths.
fn none_of(rt: &impl Abort, alloc: Global, widths: &[u64]) -> PackedRows
    ensures { result.widths ≡ widths.now }
{
    let mut own = Vec::new(alloc);
    own.extend_from_slice(widths).expect(rt, "memory");
    assert!(rt; small_sum(widths).is_some());
    PackedRows::new(alloc, own)
}

// Puts a row.
fn put(rt: &impl Abort, packed: &mut PackedRows, widths: &[u64], row: &[u32])
    requires { packed.old.widths ≡ widths.now }
    ensures { packed.new.widths ≡ packed.old.widths }
{
    assert!(rt; packed.len() < 1 << 32);
    packed.reserve(packed.len() + 1).expect(rt, "memory");
    assert!(rt; have_widths(row, widths));
    packed.push(row);
}

// The rows of a text, with commas between them.
fn packed_of(rt: &impl Abort, alloc: Global, widths: &[u64], rows: &str) -> PackedRows
    ensures { result.widths ≡ widths.now }
{
    let mut packed = none_of(rt, alloc, widths);
    'rows: for row in rows.split(',') {
        let numbers = numbers_of(rt, alloc, row);
        put(rt, &mut packed, widths, numbers.as_slice());
    }
    packed
}

fn widths_of(rt: &impl Abort, alloc: Global, text: &str) -> Vec<u64> {
    let mut widths = Vec::new(alloc);
    for word in text.split_whitespace() {
        let width = word.parse::<u64>().ok().expect(rt, "a width");
        widths.push(width).expect(rt, "memory");
    }
    widths
}

// Whether a row has these numbers.
fn has_row(packed: &PackedRows, widths: &[u64], row: u64, numbers: &[u32]) -> bool
    requires { packed.now.widths ≡ widths.now }
{
    if row >= packed.len() || numbers.len() != widths.len() {
        return false;
    }
    for i in 0..widths.len() {
        if packed.number(row, i) != numbers[i] {
            return false;
        }
    }
    true
}

fn has_row_of(
    rt: &impl Abort,
    alloc: Global,
    packed: &PackedRows,
    widths: &[u64],
    row: u64,
    text: &str,
) -> bool
    requires { packed.now.widths ≡ widths.now }
{
    let numbers = numbers_of(rt, alloc, text);
    has_row(packed, widths, row, numbers.as_slice())
}

// Whether the rows are those of a text, with commas between them, or `none`.
fn have_numbers(
    rt: &impl Abort,
    alloc: Global,
    packed: &PackedRows,
    widths: &[u64],
    rows: &str,
) -> bool
    requires { packed.now.widths ≡ widths.now }
{
    let mut at: u64 = 0;
    if rows.trim() != "none" {
        for row in rows.split(',') {
            if !has_row_of(rt, alloc, packed, widths, at, row) {
                return false;
            }
            at = at.saturating_add(1);
        }
    }
    packed.len() == at
}

// The widths of numbers, rows of them with commas between two, and their words by digits of 16.
const PACKED: &str = "\
1 | 1, 0 | 1
1 2 | 1 2, 0 1 | 15
0 | 0, 0, 0 |
| , |
0 2 0 | 0 3 0, 0 2 0 | b
32 | 4294967295, 1, 6 | 1ffffffff 6
32 31 3 | 1 2 5, 3 0 7 | 8000000200000001 e e
31 31 31 | 1 1 2147483647 | c000000080000001 1fffffff";

// Whether rows of numbers with these widths give words and numbers.
fn packs(rt: &impl Abort, alloc: Global, row: &str) -> Option<bool> {
    let (widths, row) = row.split_once('|')?;
    let (rows, words) = row.split_once('|')?;
    let widths = widths_of(rt, alloc, widths);
    let packed = packed_of(rt, alloc, widths.as_slice(), rows);
    Some(
        are_words(packed.words(), words)
            && have_numbers(rt, alloc, &packed, widths.as_slice(), rows),
    )
}

// In the second row 1, 01 and 0, 10, the lowest bit first. A width of 0 takes no bit, and no row either where it is the
// only one. In the sixth two numbers fill a word, and a third begins the next; in the seventh bits 63, 64 and 65 of the
// first row are its last number; the last has a number of 31 bits from bit 62 on.
#[test]
fn numbers_have_their_bits(rt: HostRuntime) {
    for row in PACKED.lines() {
        assert!(rt; packs(&rt, rt.alloc(), row) == Some(true), "{row}");
    }
}

// Leaves the rows at whose place stands a 1.
fn keep(rt: &impl Abort, alloc: Global, packed: &mut PackedRows, chosen: &str)
    ensures { packed.new.widths ≡ packed.old.widths }
{
    let chosen = chosen.as_bytes();
    let mut bits = Bits::new(alloc, packed.len()).expect(rt, "memory");
    assert!(rt; bits.len() == chosen.len() as u64);
    for i in 0..chosen.len() {
        if (i as u64) < bits.len() {
            bits.set(i as u64, chosen[i] == b'1');
        }
    }
    assert!(rt; bits.len() == packed.len());
    packed.keep(&bits);
}

// Of three rows those that are chosen, their words and their numbers.
const KEPT: &str = "\
000 | | none
101 | 8000000200000001 e e | 1 2 5, 3 0 7
001 | 8000000000000003 3 | 3 0 7";

// Whether of the three rows those that are chosen are left.
fn keeps(rt: &impl Abort, alloc: Global, row: &str) -> Option<bool> {
    let (chosen, row) = row.split_once(' ')?;
    let (_, row) = row.split_once('|')?;
    let (words, left) = row.split_once('|')?;
    let widths = widths_of(rt, alloc, "32 31 3");
    let mut packed = packed_of(rt, alloc, widths.as_slice(), "1 2 5, 9 9 1, 3 0 7");
    keep(rt, alloc, &mut packed, chosen);
    Some(
        are_words(packed.words(), words)
            && have_numbers(rt, alloc, &packed, widths.as_slice(), left),
    )
}

#[test]
fn rows_that_are_left_move_down(rt: HostRuntime) {
    for row in KEPT.lines() {
        assert!(rt; keeps(&rt, rt.alloc(), row) == Some(true), "{row}");
    }
}
