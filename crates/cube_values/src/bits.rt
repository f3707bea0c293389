//! Lists of bits in words of 64, which whole-list work goes over word by word.

ghost use Rattle.std.specs.Prelude.{◌≡◌, ℕ, ◌+◌, ◌-◌, ◌*◌, ◌^◌, ◌<◌, ◌≤◌, ◌⊎◌, true, false, not, length, max, replicate, slice_set, slice_index_or, sum_by, IsOk, IfOk, OnOk, OnErr};
ghost use Rattle.std.specs.Int.{bit_at};
ghost use Rattle.std.specs.Int.RustNames.{count_ones};
ghost use Rattle.cube_values.specs.BitRows.{has_bit, is_set, bits_of, word_count, filled_bits, set_bits, IsFilled};

use std::alloc::{AllocError, Global};
use std::marker::Model;

/// A list of bits, kept in words, with room beside it: the memory that it has for more bits.
#[derive(Debug, Drop)]
pub struct Bits {
    words: Vec<u64>,
    len: u64,
    room: u64,
}

impl Model for Bits {
    ghost use Rattle.cube_values.specs.BitRows.{BitRows, bits_of, IsWellFormed};

    ghost Value = { BitRows };

    ghost view = { λ b. record { bits = bits_of b.words.items b.len; room = b.room } };

    ghost invariant = { λ b. IsWellFormed b.words.items b.len b.room };
}

impl Bits {
    /// A list of `len` bits, none of them set, with room for no more.
    /// It is an error where memory is wanted.
    pub fn new(alloc: Global, len: u64) -> Result<Bits, AllocError>
        ensures bits { IfOk result (λ made. made.bits ≡ replicate len false) }
        ensures room { IfOk result (λ made. made.room ≡ len) }
    {
        let words = vec![in alloc; 0; words_for(len)]?;
        Ok(Bits {
            words,
            len,
            room: len,
        })
    }

    /// How many bits the list has.
    #[tactic(auto, using(crate::proofs::BitWords::bits_length))]
    pub fn len(&self) -> u64
        ensures bits { result ≡ length self.now.bits }
        ensures within { length self.now.bits ≤ self.now.room }
    {
        self.len
    }

    /// How many bits the list has memory for.
    #[tactic(auto, using(crate::proofs::BitWords::bits_length))]
    pub fn room(&self) -> u64
        ensures room { result ≡ self.now.room }
        ensures within { length self.now.bits ≤ self.now.room }
    {
        self.room
    }

    /// Whether the bit at `i` is set.
    #[tactic(auto, using(crate::proofs::BitWords::bits_length, crate::proofs::BitWords::bits_at))]
    pub fn get(&self, i: u64) -> bool
        requires { i < length self.now.bits }
        ensures { result ≡ slice_index_or self.now.bits i false }
    {
        bit_of_words(self.words.as_slice(), i)
    }

    /// Sets the bit at `i`, or clears it. The others stay.
    #[tactic(auto, using(crate::proofs::BitWords::bits_length))]
    pub fn set(&mut self, i: u64, on: bool)
        requires { i < length self.old.bits }
        ensures bits { self.new.bits ≡ slice_set self.old.bits i on }
        ensures room { self.new.room ≡ self.old.room }
    {
        put_bit(self.words.as_mut_slice(), i, on);
    }

    /// Sets the bits from `from` up to `to`, or clears them. The others stay.
    #[tactic(auto, using(crate::proofs::BitWords::bits_length))]
    pub fn fill(&mut self, from: u64, to: u64, on: bool)
        requires order { from ≤ to }
        requires within { to ≤ length self.old.bits }
        ensures bits { self.new.bits ≡ filled_bits self.old.bits from to on }
        ensures room { self.new.room ≡ self.old.room }
    {
        fill_bits(self.words.as_mut_slice(), from, to, on);
    }

    /// The first place from `from` on whose bit is `on`, or the length where there is none: the end of
    /// the run of bits that begins at `from`, where its bit is not `on`. A word of bits that are alike
    /// is one step.
    #[tactic(auto, using(crate::proofs::BitWords::bits_length, crate::proofs::BitWords::bits_at))]
    pub fn next(&self, from: u64, on: bool) -> u64
        requires { from ≤ length self.now.bits }
        ensures after { from ≤ result }
        ensures within { result ≤ length self.now.bits }
        ensures between { (i : ℕ) → from ≤ i → i < result
            → slice_index_or self.now.bits i false ≡ not on }
        ensures found { result < length self.now.bits
            → slice_index_or self.now.bits result false ≡ on }
    {
        next_of_words(self.words.as_slice(), from, self.len, on)
    }

    /// How many bits are set.
    pub fn ones(&self) -> u64
        ensures { result ≡ set_bits self.now.bits }
    {
        ones_before(self.words.as_slice(), self.len)
    }

    /// Makes room for `room` bits at least. The bits stay.
    /// Where memory is wanted nothing changes; where there is room already, none is.
    pub fn reserve(&mut self, room: u64) -> Result<(), AllocError>
        ensures bits { self.new.bits ≡ self.old.bits }
        ensures room { OnOk result (self.new.room ≡ max self.old.room room) }
        ensures same { OnErr result (self.new ≡ self.old) }
        ensures there { room ≤ self.old.room → IsOk result }
    {
        if self.room < room {
            self.words.resize(words_for(room), 0)?;
            self.room = room;
        }
        Ok(())
    }

    /// Leaves `len` bits, all of them set. It takes no memory.
    pub fn reset(&mut self, len: u64)
        requires { len ≤ self.old.room }
        ensures bits { self.new.bits ≡ replicate len true }
        ensures room { self.new.room ≡ self.old.room }
    {
        put_front(self.words.as_mut_slice(), len, true);
        self.len = len;
    }

    /// Leaves `len` bits, none of them set. It takes no memory.
    pub fn clear(&mut self, len: u64)
        requires { len ≤ self.old.room }
        ensures bits { self.new.bits ≡ replicate len false }
        ensures room { self.new.room ≡ self.old.room }
    {
        put_front(self.words.as_mut_slice(), len, false);
        self.len = len;
    }
}

// How many words `len` bits take.
fn words_for(len: u64) -> usize
    ensures { result ≡ word_count len }
{
    len.div_ceil(64) as usize
}

// Whether the bit at `i` is set.
fn bit_of_words(words: &[u64], i: u64) -> bool
    requires { i < 64 * length words.now }
    ensures { result ≡ is_set words.now i }
{
    (words[(i / 64) as usize] >> (i % 64)) & 1 == 1
}

// The first place from `from` up to `len` whose bit is `on`, or `len` where there is none.
fn next_of_words(words: &[u64], from: u64, len: u64, on: bool) -> u64
    requires order { from ≤ len }
    requires held { word_count len ≤ length words.now }
    ensures after { from ≤ result }
    ensures within { result ≤ len }
    ensures between { (i : ℕ) → from ≤ i → i < result → is_set words.now i ≡ not on }
    ensures found { result < len → is_set words.now result ≡ on }
{
    let mut at = from;
    'words: while at < len {
        let low = at % 64;
        let step = next_in_word(words[(at / 64) as usize], low, on) - low;
        if len - at <= step {
            return len;
        }
        at += step;
        if low + step < 64 {
            return at;
        }
    }
    at
}

// The first place from `from` on whose bit is `on` in a word, or 64 where there is none.
fn next_in_word(word: u64, from: u64, on: bool) -> u64
    requires { from < 64 }
    ensures after { from ≤ result }
    ensures within { result ≤ 64 }
    ensures between { (i : ℕ) → from ≤ i → i < result → has_bit word i ≡ not on }
    ensures found { result < 64 → has_bit word result ≡ on }
{
    first_one(with_bits(marks_of(word, on), 0, from, false))
}

// The word whose bits are set where those of a word are `on`.
fn marks_of(word: u64, on: bool) -> u64
    ensures set { (i : ℕ) → i < 64 → has_bit result i ≡ true → has_bit word i ≡ on }
    ensures unset { (i : ℕ) → i < 64 → has_bit result i ≡ false → has_bit word i ≡ not on }
{
    if on { word } else { !word }
}

// The lowest bit of a word that is set, or 64 where none is.
fn first_one(word: u64) -> u64
    ensures within { result ≤ 64 }
    ensures below { (i : ℕ) → i < result → has_bit word i ≡ false }
    ensures found { result < 64 → has_bit word result ≡ true }
{
    u64::from(word.trailing_zeros())
}

// Sets the bit at `i`, or clears it.
fn put_bit(words: &mut [u64], i: u64, on: bool)
    requires { i < 64 * length words.old }
    ensures { IsFilled words.old words.new i (i + 1) on }
{
    let at = (i / 64) as usize;
    words[at] = with_bit(words[at], i % 64, on);
}

// The word with bit `k` set or cleared.
fn with_bit(word: u64, k: u64, on: bool) -> u64
    requires { k < 64 }
    ensures inside { has_bit result k ≡ on }
    ensures outside { (i : ℕ) → i < 64 → (i < k) ⊎ (k + 1 ≤ i) → has_bit result i ≡ has_bit word i }
{
    turn(word, 1 << k, on)
}

// Sets the bits from `from` up to `to`, or clears them: whole words between the first and the last.
fn fill_bits(words: &mut [u64], from: u64, to: u64, on: bool)
    requires order { from ≤ to }
    requires within { to ≤ 64 * length words.old }
    ensures { IsFilled words.old words.new from to on }
{
    let first = (from / 64) as usize;
    let last = (to / 64) as usize;
    if first == last {
        fill_part(words, first, from % 64, to % 64, on);
    } else {
        fill_part(words, first, from % 64, 64, on);
        fill_whole(words, first + 1, last, on);
        fill_part(words, last, 0, to % 64, on);
    }
}

// Sets the bits from `low` up to `high` of the word at `at`, or clears them.
fn fill_part(words: &mut [u64], at: usize, low: u64, high: u64, on: bool)
    requires order { low ≤ high }
    requires word { high ≤ 64 }
    requires there { low < high → at < length words.old }
    ensures { IsFilled words.old words.new (64 * at + low) (64 * at + high) on }
{
    if low < high {
        words[at] = with_bits(words[at], low, high, on);
    }
}

// Sets all bits of the words from `first` up to `last`, or clears them.
fn fill_whole(words: &mut [u64], first: usize, last: usize, on: bool)
    requires order { first ≤ last }
    requires within { last ≤ length words.old }
    ensures { IsFilled words.old words.new (64 * first) (64 * last) on }
{
    words[first..last].fill(whole_word(on));
}

// The word whose bits are all `on`.
fn whole_word(on: bool) -> u64
    ensures { (i : ℕ) → i < 64 → has_bit result i ≡ on }
{
    if on { u64::MAX } else { 0 }
}

// The word with its bits from `low` up to `high` set or cleared.
fn with_bits(word: u64, low: u64, high: u64, on: bool) -> u64
    requires order { low ≤ high }
    requires within { high ≤ 64 }
    ensures inside { (i : ℕ) → low ≤ i → i < high → has_bit result i ≡ on }
    ensures outside { (i : ℕ) → i < 64 → (i < low) ⊎ (high ≤ i)
        → has_bit result i ≡ has_bit word i }
{
    turn(word, low_ones(high) - low_ones(low), on)
}

// The word with the bits of `mask` set or cleared.
fn turn(word: u64, mask: u64, on: bool) -> u64
    ensures inside { (i : ℕ) → i < 64 → bit_at mask i ≡ 1 → has_bit result i ≡ on }
    ensures outside { (i : ℕ) → i < 64 → bit_at mask i ≡ 0 → has_bit result i ≡ has_bit word i }
{
    if on { word | mask } else { word & !mask }
}

// The word whose lowest `count` bits are set.
fn low_ones(count: u64) -> u64
    requires { count ≤ 64 }
    ensures { result ≡ 2 ^ count - 1 }
{
    if count == 0 {
        0
    } else {
        u64::MAX >> (64 - count)
    }
}

// Sets the first `len` bits or clears them, and clears the others of the last word in use.
fn put_front(words: &mut [u64], len: u64, on: bool)
    requires { word_count len ≤ length words.old }
    ensures long { length words.new ≡ length words.old }
    ensures front { (i : ℕ) → i < len → is_set words.new i ≡ on }
    ensures unused { (i : ℕ) → len ≤ i → i < 64 * word_count len → is_set words.new i ≡ false }
{
    fill_whole(words, 0, words_for(len), on);
    if len % 64 > 0 {
        fill_part(words, (len / 64) as usize, len % 64, 64, false);
    }
}

// How many of the first `len` bits are set.
fn ones_before(words: &[u64], len: u64) -> u64
    requires held { word_count len ≤ length words.now }
    requires unused { (i : ℕ) → len ≤ i → i < 64 * word_count len → is_set words.now i ≡ false }
    ensures { result ≡ set_bits (bits_of words.now len) }
{
    count_set(&words[..words_for(len)])
}

// How many bits of the words are set.
fn count_set(words: &[u64]) -> u64
    requires { sum_by count_ones words.now < 2 ^ 64 }
    ensures { result ≡ sum_by count_ones words.now }
{
    words.iter().map(|word| u64::from(word.count_ones())).sum()
}
