//! Numbers of a few bits in a list of words, which may cross from one word into the next.

ghost use Rattle.std.specs.Prelude.{◌≡◌, ℕ, ◌+◌, ◌-◌, ◌*◌, ◌%◌, ◌^◌, ◌<◌, ◌≤◌, ◌⊎◌, false, length, slice_index, EachIndex, vec_len, vec_capacity};
ghost use Rattle.cube_values.specs.BitRows.{has_bit, is_set, word_count};
ghost use Rattle.packed_words.specs.Words.{IsAppended, IsReplaced, IsCut};

/// The lowest `width` bits of a word.
#[inline(always)]
pub fn low_part(word: u64, width: u64) -> u64
    requires { width ≤ 64 }
    ensures { result ≡ word % 2 ^ width }
{
    if width == 64 {
        word
    } else {
        word & ((1 << width) - 1)
    }
}

// The word whose bits are those of `low` from bit `shift` on, and then those of `high`.
#[inline(always)]
fn straddling_word(low: u64, high: u64, shift: u64) -> u64
    requires some { 0 < shift }
    requires word { shift < 64 }
    ensures low { (k : ℕ) → shift + k < 64 → has_bit result k ≡ has_bit low (shift + k) }
    ensures high { (k : ℕ) → k < 64 → 64 ≤ shift + k
        → has_bit result k ≡ has_bit high (shift + k - 64) }
{
    (low >> shift) | (high << (64 - shift))
}

/// The number in the `width` bits from `place` on.
#[inline(always)]
pub fn read_bits(words: &[u64], place: u64, width: u64) -> u64
    requires width { width ≤ 64 }
    requires within { place + width ≤ 64 * length words.now }
    ensures bits { (k : ℕ) → k < width → has_bit result k ≡ is_set words.now (place + k) }
    ensures below { result < 2 ^ width }
{
    if width == 0 {
        return 0;
    }
    low_part(word_at(words, place, width), width)
}

/// Writes the numbers in the `width` bits from `place` on, and each time `step` bits further, over the items
/// of a list.
pub fn read_each(words: &[u64], place: u64, step: u64, width: u64, numbers: &mut [u32])
    requires width { width ≤ 32 }
    requires within { (k : ℕ) → k < length numbers.old
        → place + k * step + width ≤ 64 * length words.now }
    requires small { (k : ℕ) → k < length numbers.old → place + k * step < 2 ^ 64 }
    ensures bits { (k bit : ℕ) → k < length numbers.new → bit < width
        → has_bit (slice_index numbers.new k) bit ≡ is_set words.now (place + k * step + bit) }
    ensures below { EachIndex numbers.new (λ k. slice_index numbers.new k < 2 ^ width) }
{
    'numbers: for k in 0..numbers.len() {
        numbers[k] = read_bits(words, place + k as u64 * step, width) as u32;
    }
}

/// A word whose lowest `width` bits are those from `place` on.
#[inline(always)]
pub fn word_at(words: &[u64], place: u64, width: u64) -> u64
    requires some { 0 < width }
    requires width { width ≤ 64 }
    requires within { place + width ≤ 64 * length words.now }
    ensures { (k : ℕ) → k < width → has_bit result k ≡ is_set words.now (place + k) }
{
    let at = (place / 64) as usize;
    let shift = place % 64;
    if shift + width <= 64 {
        words[at] >> shift
    } else {
        straddling_word(words[at], words[at + 1], shift)
    }
}

/// Puts the `width` bits of a number after the first `len` bits, in memory that there is.
pub fn push_bits(words: &mut Vec<u64>, len: u64, value: u64, width: u64)
    requires held { vec_len words.old ≡ word_count len }
    requires unused { (i : ℕ) → len ≤ i → is_set words.old.items i ≡ false }
    requires width { width ≤ 64 }
    requires fits { value < 2 ^ width }
    requires memory { word_count (len + width) ≤ vec_capacity words.old }
    ensures held { vec_len words.new ≡ word_count (len + width) }
    ensures bits { IsAppended words.old.items words.new.items len value }
    ensures capacity { vec_capacity words.new ≡ vec_capacity words.old }
{
    let used = len % 64;
    if used == 0 {
        if width > 0 {
            words.push_reserved(value);
        }
    } else {
        let last = (len / 64) as usize;
        words[last] |= value << used;
        if used + width > 64 {
            words.push_reserved(value >> (64 - used));
        }
    }
}

// The word with `width` bits from `shift` on replaced by those of a number.
fn with_part(word: u64, shift: u64, width: u64, value: u64) -> u64
    requires some { 0 < width }
    requires within { shift + width ≤ 64 }
    requires fits { value < 2 ^ width }
    ensures inside { (k : ℕ) → k < width → has_bit result (shift + k) ≡ has_bit value k }
    ensures outside { (i : ℕ) → i < 64 → (i < shift) ⊎ (shift + width ≤ i)
        → has_bit result i ≡ has_bit word i }
{
    if width == 64 {
        return value;
    }
    let mask = ((1 << width) - 1) << shift;
    (word & !mask) | (value << shift)
}

/// Replaces the `width` bits from `place` on, which lie in one word, by those of a number.
pub fn put_bits(words: &mut [u64], place: u64, width: u64, value: u64)
    requires some { 0 < width }
    requires word { place % 64 + width ≤ 64 }
    requires within { place < 64 * length words.old }
    requires fits { value < 2 ^ width }
    ensures { IsReplaced words.old words.new place width value }
{
    let at = (place / 64) as usize;
    words[at] = with_part(words[at], place % 64, width, value);
}

/// Leaves the first `len` bits.
pub fn cut_bits(words: &mut Vec<u64>, len: u64)
    requires { len ≤ 64 * vec_len words.old }
    ensures held { vec_len words.new ≡ word_count len }
    ensures bits { IsCut words.old.items words.new.items len }
    ensures capacity { vec_capacity words.new ≡ vec_capacity words.old }
{
    words.truncate(len.div_ceil(64) as usize);
    if len % 64 > 0 {
        let last = (len / 64) as usize;
        words[last] = low_part(words[last], len % 64);
    }
}
