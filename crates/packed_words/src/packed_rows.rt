//! Rows of numbers, packed one after another.

ghost use Rattle.std.specs.Prelude.{◌≡◌, ℕ, List, ◌+◌, ◌*◌, ◌^◌, ◌<◌, ◌≤◌, true, false, [], ◌∷◌, ◌++◌, length, take, drop, max, sum, slice_index, All, EachIndex, IsOk, OnOk, OnErr};
ghost use Rattle.std.specs.Int.{from_bool};
ghost use Rattle.std.specs.List.{AllZip, items_where_true};
ghost use Rattle.packed_words.specs.declared.packed_rows.TheConstants.{MOST_BITS};
ghost use Rattle.packed_words.specs.Counted.{IsShort, AreCounted};
ghost use Rattle.packed_words.specs.declared.counted.TheConstants.{MOST_COUNTED, NOTHING_COUNTED};
ghost use Rattle.packed_words.specs.Rows.{HasWidth, AreWords, differences, number_in_rows, row_bits, rows_of_bits};

use crate::counted::count_at;
use crate::packed_words::PackedWords;
use cube_values::Bits;
use std::alloc::{AllocError, Global};
use std::marker::Model;

/// How many bits a number of a row has at most.
pub const MOST_BITS: u64 = 32;

/// A list of rows of numbers, each number of a row in as many bits as its width says, with room: for how
/// many rows it has memory. The bits of a row are those of its first number, from the lowest on, then
/// those of the next, and the rows follow one another without a gap. A number of width 0 takes no bit.
#[derive(Debug, Drop)]
pub struct PackedRows {
    bits: PackedWords,
    widths: Vec<u64>,
    width: u64,
    rows: u64,
    room: u64,
}

impl Model for PackedRows {
    ghost use Rattle.packed_words.specs.Rows.{NumberRows, HoldPackedRows, rows_of_bits};

    ghost Value = { NumberRows };

    ghost view = { λ r. record {
      widths = r.widths.items;
      rows = rows_of_bits r.widths.items r.rows r.bits.bits;
      room = r.room;
    } };

    ghost invariant = { λ r. HoldPackedRows r.widths.items r.width r.rows r.room r.bits };
}

impl PackedRows {
    /// No rows, of numbers with these widths. It takes no memory.
    pub fn new(alloc: Global, widths: Vec<u64>) -> PackedRows
        requires narrow { All (λ width. width ≤ MOST_BITS) widths.items }
        requires few { sum widths.items < 2 ^ 32 }
        ensures { result ≡ record { widths = widths.items; rows = []; room = 0 } }
    {
        let width = total(widths.as_slice());
        PackedRows {
            bits: PackedWords::new(alloc),
            widths,
            width,
            rows: 0,
            room: 0,
        }
    }

    /// How many rows there are.
    pub fn len(&self) -> u64
        ensures rows { result ≡ length self.now.rows }
        ensures within { length self.now.rows ≤ self.now.room }
    {
        self.rows
    }

    /// The words that hold the bits of the rows, and no more.
    pub fn words(&self) -> &[u64]
        ensures { AreWords self.now.widths self.now.rows result.now }
    {
        self.bits.words()
    }

    /// Makes room for `room` rows at least. The rows stay.
    /// Where memory is wanted nothing changes; where there is room already, none is.
    pub fn reserve(&mut self, room: u64) -> Result<(), AllocError>
        ensures ok { OnOk result (self.new ≡ record self.old { room = max self.old.room room }) }
        ensures err { OnErr result (self.new ≡ self.old) }
        ensures there { room ≤ self.old.room → IsOk result }
    {
        if self.room < room {
            let bits = room.checked_mul(self.width).ok_or(AllocError)?;
            self.bits.reserve(bits)?;
            self.room = room;
        }
        Ok(())
    }

    /// Puts a row at the end, in room that there is. It takes no memory.
    pub fn push(&mut self, row: &[u32])
        requires room { length self.old.rows < self.old.room }
        requires numbers { AllZip HasWidth row.now self.old.widths }
        ensures { self.new ≡ record self.old { rows = self.old.rows ++ row.now ∷ [] } }
    {
        push_numbers(&mut self.bits, self.widths.as_slice(), row);
        self.rows += 1;
    }

    /// Puts at the end the row of what numbers are above others, in room that there is. It takes no memory.
    pub fn push_differences(&mut self, numbers: &[u32], starts: &[u32])
        requires room { length self.old.rows < self.old.room }
        requires above { AllZip ◌≤◌ starts.now numbers.now }
        requires numbers { AllZip HasWidth (differences numbers.now starts.now) self.old.widths }
        ensures { self.new
            ≡ record self.old { rows = self.old.rows ++ differences numbers.now starts.now ∷ [] } }
    {
        push_above(&mut self.bits, self.widths.as_slice(), numbers, starts);
        self.rows += 1;
    }

    /// Number `i` of a row. It takes time by `i`.
    pub fn number(&self, row: u64, i: usize) -> u32
        requires row { row < length self.now.rows }
        requires number { i < length self.now.widths }
        ensures { result ≡ number_in_rows self.now.rows row i }
    {
        self.number_behind(row, i, self.bits_before(i))
    }

    /// Writes number `i` of the rows from one on over the items of a list, one row for each.
    pub fn read_numbers(&self, from: u64, i: usize, numbers: &mut [u32])
        requires rows { from + length numbers.old ≤ length self.now.rows }
        requires number { i < length self.now.widths }
        ensures { EachIndex numbers.new
            (λ k. slice_index numbers.new k ≡ number_in_rows self.now.rows (from + k) i) }
    {
        let _rows = self.len();
        if numbers.is_empty() {
            return;
        }
        let place = from * self.width + self.bits_before(i);
        self.bits
            .read_each(place, self.width, self.widths[i], numbers);
    }

    /// Counts and sums numbers in words that have counted nothing. The cell of each is number `i` of its row,
    /// of the rows from one on.
    pub fn count_in_cells(&self, from: u64, i: usize, numbers: &[i64], sums: &mut [u64])
        requires some { 0 < length numbers.now }
        requires rows { from + length numbers.now ≤ length self.now.rows }
        requires number { i < length self.now.widths }
        requires cells { 2 ^ slice_index self.now.widths i ≤ length sums.old }
        requires few { length numbers.now ≤ MOST_COUNTED }
        requires short { All IsShort numbers.now }
        requires nothing { All (λ sum. sum ≡ NOTHING_COUNTED) sums.old }
        ensures long { length sums.new ≡ length sums.old }
        ensures counted { (cells : List ℕ) → length cells ≡ length numbers.now
            → EachIndex cells
            (λ k. slice_index cells k ≡ number_in_rows self.now.rows (from + k) i)
            → AreCounted cells numbers.now sums.new }
    {
        let _rows = self.len();
        let place = from * self.width + self.bits_before(i);
        count_at(
            self.bits.words(),
            place,
            self.width,
            self.widths[i],
            numbers,
            sums,
        );
    }

    // How many bits of a row stand before number `i`.
    fn bits_before(&self, i: usize) -> u64
        requires { i < length self.now.widths }
        ensures { result ≡ sum (take i self.now.widths) }
    {
        total(&self.widths.as_slice()[..i])
    }

    // Number `i` of a row, behind so many bits of the row.
    #[inline(always)]
    fn number_behind(&self, row: u64, i: usize, start: u64) -> u32
        requires row { row < length self.now.rows }
        requires number { i < length self.now.widths }
        requires start { start ≡ sum (take i self.now.widths) }
        ensures { result ≡ number_in_rows self.now.rows row i }
    {
        self.bits.read(row * self.width + start, self.widths[i]) as u32
    }

    /// Leaves the rows whose bit is set, in order, and the room that there is. It takes no memory and
    /// goes once over the words.
    pub fn keep(&mut self, bits: &Bits)
        requires { length bits.now.bits ≡ length self.old.rows }
        ensures { self.new
            ≡ record self.old { rows = items_where_true bits.now.bits self.old.rows } }
    {
        let left = copy_rows(&mut self.bits, self.width, self.rows, bits);
        self.bits.truncate(left * self.width);
        self.rows = left;
    }
}

// The sum of numbers.
fn total(numbers: &[u64]) -> u64
    requires { sum numbers.now < 2 ^ 64 }
    ensures { result ≡ sum numbers.now }
{
    numbers.iter().sum()
}

// Puts the numbers of a row at the end, in room that there is.
fn push_numbers(bits: &mut PackedWords, widths: &[u64], row: &[u32])
    requires narrow { All (λ width. width ≤ MOST_BITS) widths.now }
    requires numbers { AllZip HasWidth row.now widths.now }
    requires room { length bits.old.bits + sum widths.now ≤ bits.old.room }
    ensures { bits.new
        ≡ record bits.old { bits = bits.old.bits ++ row_bits widths.now row.now } }
{
    'numbers: for i in 0..widths.len() {
        bits.push(u64::from(row[i]), widths[i]);
    }
}

// Puts what numbers are above others at the end, in room that there is.
fn push_above(bits: &mut PackedWords, widths: &[u64], numbers: &[u32], starts: &[u32])
    requires narrow { All (λ width. width ≤ MOST_BITS) widths.now }
    requires above { AllZip ◌≤◌ starts.now numbers.now }
    requires numbers { AllZip HasWidth (differences numbers.now starts.now) widths.now }
    requires room { length bits.old.bits + sum widths.now ≤ bits.old.room }
    ensures { bits.new ≡ record bits.old
        { bits = bits.old.bits ++ row_bits widths.now (differences numbers.now starts.now) } }
{
    'numbers: for i in 0..widths.len() {
        bits.push(u64::from(numbers[i] - starts[i]), widths[i]);
    }
}

// Copies the rows whose bit is set to the front, in order, and answers how many they are.
fn copy_rows(words: &mut PackedWords, width: u64, rows: u64, bits: &Bits) -> u64
    requires long { length words.old.bits ≡ rows * width }
    requires bits { length bits.now.bits ≡ rows }
    requires small { rows * width < 2 ^ 64 }
    ensures within { result ≤ rows }
    ensures long { length words.new.bits ≡ length words.old.bits }
    ensures room { words.new.room ≡ words.old.room }
    ensures rows { (widths : List ℕ) → sum widths ≡ width
        → rows_of_bits widths result words.new.bits
        ≡ items_where_true bits.now.bits (rows_of_bits widths rows words.old.bits) }
{
    let mut left = 0;
    for row in 0..rows {
        left += copy_row(words, width, row, left, bits.get(row));
    }
    left
}

// Copies a row that is chosen to the place of another, which stands no higher, and answers how many rows
// were copied.
fn copy_row(words: &mut PackedWords, width: u64, row: u64, to: u64, chosen: bool) -> u64
    requires down { to ≤ row }
    requires within { row * width + width ≤ length words.old.bits }
    requires small { row * width + width < 2 ^ 64 }
    ensures count { result ≡ from_bool chosen }
    ensures copied { chosen ≡ true → words.new ≡ record words.old {
      bits =
          take (to * width) words.old.bits
          ++ take width (drop (row * width) words.old.bits)
          ++ drop (to * width + width) words.old.bits;
    } }
    ensures same { chosen ≡ false → words.new ≡ words.old }
{
    if chosen {
        words.copy_down(row * width, to * width, width);
    }
    u64::from(chosen)
}
