//! Bits in words, as a list to which numbers of a few bits are put.

ghost use Rattle.std.specs.Prelude.{◌≡◌, ℕ, ◌+◌, ◌*◌, ◌^◌, ◌<◌, ◌≤◌, false, [], ◌++◌, length, take, drop, max, slice_index, EachIndex, IsOk, OnOk, OnErr};
ghost use Rattle.cube_values.specs.BitRows.{is_set, bits_of, word_count};
ghost use Rattle.packed_words.specs.Numbers.{number_of_bits, low_bits};

use crate::word_bits::{cut_bits, push_bits, put_bits, read_bits, read_each};
use std::alloc::{AllocError, Global};
use std::marker::Model;

/// A list of bits in words of 64, with room beside it: for how many bits it has memory. Bit i is bit
/// i mod 64 of word i div 64, and the bits behind the last one are not set.
#[derive(Debug, Drop)]
pub struct PackedWords {
    words: Vec<u64>,
    len: u64,
    room: u64,
}

impl Model for PackedWords {
    ghost use Rattle.std.specs.Prelude.{vec_capacity};
    ghost use Rattle.cube_values.specs.BitRows.{bits_of};
    ghost use Rattle.packed_words.specs.Words.{PackedBits, ArePacked};

    ghost Value = { PackedBits };

    ghost view = { λ b. record { bits = bits_of b.words.items b.len; room = b.room } };

    ghost invariant = { λ b. ArePacked b.words.items b.len b.room (vec_capacity b.words) };
}

impl PackedWords {
    /// A list without bits. It takes no memory.
    pub fn new(alloc: Global) -> PackedWords
        ensures { result ≡ record { bits = []; room = 0 } }
    {
        PackedWords {
            words: Vec::new(alloc),
            len: 0,
            room: 0,
        }
    }

    /// How many bits the list has.
    #[tactic(auto, using(cube_values::proofs::BitWords::bits_length))]
    pub fn len(&self) -> u64
        ensures bits { result ≡ length self.now.bits }
        ensures within { length self.now.bits ≤ self.now.room }
    {
        self.len
    }

    /// The words that hold the bits, and no more.
    pub fn words(&self) -> &[u64]
        ensures count { length result.now ≡ word_count (length self.now.bits) }
        ensures bits { bits_of result.now (length self.now.bits) ≡ self.now.bits }
        ensures unused { (i : ℕ) → length self.now.bits ≤ i → is_set result.now i ≡ false }
    {
        self.words.as_slice()
    }

    /// Makes room for `room` bits at least. The bits stay.
    /// Where memory is wanted nothing changes; where there is room already, none is.
    pub fn reserve(&mut self, room: u64) -> Result<(), AllocError>
        ensures ok { OnOk result (self.new ≡ record self.old { room = max self.old.room room }) }
        ensures err { OnErr result (self.new ≡ self.old) }
        ensures there { room ≤ self.old.room → IsOk result }
    {
        if self.room < room {
            let words = room.div_ceil(64) as usize;
            self.words.reserve_exact(words - self.words.len())?;
            self.room = room;
        }
        Ok(())
    }

    /// Puts a number at the end, as its lowest `width` bits, in room that there is. It takes no memory.
    pub fn push(&mut self, value: u64, width: u64)
        requires width { width ≤ 64 }
        requires fits { value < 2 ^ width }
        requires room { length self.old.bits + width ≤ self.old.room }
        ensures { self.new
            ≡ record self.old { bits = self.old.bits ++ low_bits width value } }
    {
        push_bits(&mut self.words, self.len, value, width);
        self.len += width;
    }

    /// The number in the `width` bits from `place` on.
    #[inline(always)]
    pub fn read(&self, place: u64, width: u64) -> u64
        requires width { width ≤ 64 }
        requires within { place + width ≤ length self.now.bits }
        ensures { result ≡ number_of_bits (take width (drop place self.now.bits)) }
    {
        read_bits(self.words.as_slice(), place, width)
    }

    /// Writes the numbers in the `width` bits from `place` on, and each time `step` bits further, over the
    /// items of a list.
    pub fn read_each(&self, place: u64, step: u64, width: u64, numbers: &mut [u32])
        requires width { width ≤ 32 }
        requires within { (k : ℕ) → k < length numbers.old
            → place + k * step + width ≤ length self.now.bits }
        ensures { EachIndex numbers.new (λ k. slice_index numbers.new k
            ≡ number_of_bits (take width (drop (place + k * step) self.now.bits))) }
    {
        let _bits = self.len();
        read_each(self.words.as_slice(), place, step, width, numbers);
    }

    /// Copies the `count` bits from `from` on to the places from `to` on, which lie no higher.
    pub fn copy_down(&mut self, from: u64, to: u64, count: u64)
        requires down { to ≤ from }
        requires within { from + count ≤ length self.old.bits }
        ensures { self.new ≡ record self.old {
          bits = take to self.old.bits
              ++ take count (drop from self.old.bits)
              ++ drop (to + count) self.old.bits;
        } }
    {
        copy_bits(self.words.as_mut_slice(), from, to, count);
    }

    /// Leaves the first `len` bits, and the room that there is.
    pub fn truncate(&mut self, len: u64)
        requires { len ≤ length self.old.bits }
        ensures { self.new ≡ record self.old { bits = take len self.old.bits } }
    {
        cut_bits(&mut self.words, len);
        self.len = len;
    }
}

// Copies bits down, as many at a time as go into one word.
fn copy_bits(words: &mut [u64], from: u64, to: u64, count: u64)
    requires down { to ≤ from }
    requires within { from + count ≤ 64 * length words.old }
    requires small { from + count < 2 ^ 64 }
    ensures long { length words.new ≡ length words.old }
    ensures inside { (k : ℕ) → k < count → is_set words.new (to + k) ≡ is_set words.old (from + k) }
    ensures below { (i : ℕ) → i < to → is_set words.new i ≡ is_set words.old i }
    ensures above { (i : ℕ) → to + count ≤ i → is_set words.new i ≡ is_set words.old i }
{
    let mut copied = 0;
    'pieces: while copied < count {
        let place = to + copied;
        let width = (64 - place % 64).min(count - copied);
        let value = read_bits(words, from + copied, width);
        put_bits(words, place, width, value);
        copied += width;
    }
}
