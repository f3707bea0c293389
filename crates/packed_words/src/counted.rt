//! Short numbers counted and summed by cells, where the cell of each stands in a few bits of words.

ghost use Rattle.std.specs.Prelude.{◌≡◌, ℕ, ℤ, List, ◌+◌, ◌*◌, ◌/◌, ◌%◌, ◌^◌, ◌<◌, ◌≤◌, ◌-◌, ◌+ℤ◌, pos, length, All, slice_index};
ghost use Rattle.packed_words.specs.Counted.{IsShort, AreAddedUpTo, AreCounted, StandAt, counted_in, summed_in};

use crate::word_bits::{read_bits, word_at};

/// A word that has counted nothing. Sums are kept above half of the least count, so that none is negative.
pub const NOTHING_COUNTED: u64 = 1 << 51;

/// What a word of one number more has more, beside the number.
const ONE_COUNTED: i64 = 1 << 52;

/// So many numbers may be counted in words at once.
pub const MOST_COUNTED: usize = 1_024;

/// What a word has counted.
#[inline(always)]
pub fn counted_in(word: u64) -> u64
    ensures { result ≡ counted_in word }
{
    word >> 52
}

/// What a word has summed.
#[inline(always)]
pub fn summed_in(word: u64) -> i64
    ensures { result ≡ summed_in word }
{
    (word % (1 << 52)) as i64 - (1 << 51)
}

// What a number adds to the word of its cell.
#[inline(always)]
fn counted_number(number: i64) -> u64
    requires { IsShort number }
    ensures value { pos result ≡ pos (2 ^ 52) +ℤ number }
    ensures below { result < 2 ^ 53 }
{
    (number + ONE_COUNTED) as u64
}

/// Counts and sums numbers in words that have counted nothing. The cell of each stands in `width` bits: that
/// of the first from `place` on, and that of each other one `step` bits further.
pub fn count_at(words: &[u64], place: u64, step: u64, width: u64, numbers: &[i64], sums: &mut [u64])
    requires step { step < 2 ^ 32 }
    requires width { width ≤ 32 }
    requires cells { 2 ^ width ≤ length sums.old }
    requires within { (k : ℕ) → k < length numbers.now
        → place + k * step + width ≤ 64 * length words.now }
    requires small { (k : ℕ) → k < length numbers.now → place + k * step < 2 ^ 64 }
    requires few { length numbers.now ≤ MOST_COUNTED }
    requires short { All IsShort numbers.now }
    requires nothing { All (λ sum. sum ≡ NOTHING_COUNTED) sums.old }
    ensures long { length sums.new ≡ length sums.old }
    ensures counted { (cells : List ℕ) → length cells ≡ length numbers.now
        → StandAt words.now place step width cells
        → AreCounted cells numbers.now sums.new }
{
    let done = count_fours(words, place, step, width, numbers, sums);
    count_each(words, place, step, width, numbers, done, sums);
}

// Counts and sums numbers as long as there are four, whose cells stand in one word, and answers how many they
// were.
fn count_fours(
    words: &[u64],
    place: u64,
    step: u64,
    width: u64,
    numbers: &[i64],
    sums: &mut [u64],
) -> usize
    requires step { step < 2 ^ 32 }
    requires width { width ≤ 32 }
    requires cells { 2 ^ width ≤ length sums.old }
    requires within { (k : ℕ) → k < length numbers.now
        → place + k * step + width ≤ 64 * length words.now }
    requires small { (k : ℕ) → k < length numbers.now → place + k * step < 2 ^ 64 }
    requires few { length numbers.now ≤ MOST_COUNTED }
    requires short { All IsShort numbers.now }
    requires nothing { All (λ sum. sum ≡ NOTHING_COUNTED) sums.old }
    ensures done { result ≤ length numbers.now }
    ensures long { length sums.new ≡ length sums.old }
    ensures room { All (λ sum. sum < (result + 1) * 2 ^ 53) sums.new }
    ensures counted { (cells : List ℕ) → length cells ≡ length numbers.now
        → StandAt words.now place step width cells
        → AreAddedUpTo result cells numbers.now sums.new }
{
    if width == 0 || 3 * step + width > 64 {
        return 0;
    }
    let mask = (1 << width) - 1;
    let mut done = 0;
    'fours: while numbers.len() - done >= 4 {
        let word = word_at(words, place + done as u64 * step, 3 * step + width);
        count_four(word, step, width, mask, numbers, done, sums);
        done += 4;
    }
    done
}

// Counts and sums four numbers, whose cells stand in a word.
#[inline(always)]
fn count_four(
    word: u64,
    step: u64,
    width: u64,
    mask: u64,
    numbers: &[i64],
    from: usize,
    sums: &mut [u64],
)
    requires step { step < 64 }
    requires width { width < 64 }
    requires mask { mask ≡ 2 ^ width - 1 }
    requires cells { 2 ^ width ≤ length sums.old }
    requires within { from + 4 ≤ length numbers.now }
    requires few { length numbers.now ≤ MOST_COUNTED }
    requires short { All IsShort numbers.now }
    requires room { All (λ sum. sum < (from + 1) * 2 ^ 53) sums.old }
    ensures long { length sums.new ≡ length sums.old }
    ensures room { All (λ sum. sum < (from + 4 + 1) * 2 ^ 53) sums.new }
    ensures counted { (cells : List ℕ) → length cells ≡ length numbers.now
        → ((j : ℕ) → j < 4
        → slice_index cells (from + j) ≡ word / 2 ^ (j * step) % 2 ^ width)
        → AreAddedUpTo from cells numbers.now sums.old
        → AreAddedUpTo (from + 4) cells numbers.now sums.new }
{
    let mut left = word;
    'numbers: for j in 0..4 {
        let cell = (left & mask) as usize;
        sums[cell] += counted_number(numbers[from + j]);
        left >>= step;
    }
}

// Counts and sums the numbers from one on.
fn count_each(
    words: &[u64],
    place: u64,
    step: u64,
    width: u64,
    numbers: &[i64],
    from: usize,
    sums: &mut [u64],
)
    requires width { width ≤ 32 }
    requires cells { 2 ^ width ≤ length sums.old }
    requires within { (k : ℕ) → k < length numbers.now
        → place + k * step + width ≤ 64 * length words.now }
    requires small { (k : ℕ) → k < length numbers.now → place + k * step < 2 ^ 64 }
    requires from { from ≤ length numbers.now }
    requires few { length numbers.now ≤ MOST_COUNTED }
    requires short { All IsShort numbers.now }
    requires room { All (λ sum. sum < (from + 1) * 2 ^ 53) sums.old }
    ensures long { length sums.new ≡ length sums.old }
    ensures counted { (cells : List ℕ) → length cells ≡ length numbers.now
        → StandAt words.now place step width cells
        → AreAddedUpTo from cells numbers.now sums.old
        → AreCounted cells numbers.now sums.new }
{
    'numbers: for k in from..numbers.len() {
        let cell = read_bits(words, place + k as u64 * step, width) as usize;
        sums[cell] += counted_number(numbers[k]);
    }
}
