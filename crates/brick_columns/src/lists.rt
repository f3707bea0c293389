//! Columns as lists of one length: an item is put at the end of each, and the items of some rows stay.

ghost use Rattle.std.specs.Prelude.{◌≡◌, ◌+◌, ◌<◌, ◌≤◌, [], length, take, All, IsTrue, ◌↔◌, vec_len, vec_capacity, IfOk, OnOk};
ghost use Rattle.std.specs.List.{AllZip, items_where_true};
ghost use Rattle.packed_words.specs.Counted.{IsShort};
ghost use Rattle.brick_columns.specs.Lists.{HaveSpare, IsGrown, IsSelection, ArePushed};

use cube_values::Bits;
use std::alloc::{AllocError, Global};

/// So many empty lists, which have taken no memory of their own.
/// It is an error where memory is wanted.
pub fn empty_lists<T: Copy>(alloc: Global, count: usize) -> Result<Vec<Vec<T>>, AllocError>
    ensures count { IfOk result (λ lists. vec_len lists ≡ count) }
    ensures empty { IfOk result (λ lists. All (λ list. list.items ≡ []) lists.items) }
{
    let mut lists = Vec::with_capacity(alloc, count)?;
    for _ in 0..count {
        lists.push_reserved(Vec::new(alloc));
    }
    Ok(lists)
}

/// Makes room for `more` items in each list. The items stay.
/// Where memory is wanted, some of the lists may have the room.
pub fn reserve_each<T: Copy>(lists: &mut [Vec<T>], more: usize) -> Result<(), AllocError>
    ensures grown { AllZip IsGrown lists.old lists.new }
    ensures room { OnOk result (HaveSpare more lists.new) }
{
    for list in lists.iter_mut() {
        list.reserve_exact(more)?;
    }
    Ok(())
}

/// Puts each item of a row at the end of its list. It takes no memory.
pub fn push_each<T: Copy>(lists: &mut [Vec<T>], row: &[T])
    requires width { length row.now ≡ length lists.old }
    requires room { HaveSpare 1 lists.old }
    ensures { ArePushed lists.old row.now lists.new }
{
    for (i, list) in lists.iter_mut().enumerate() {
        list.push_reserved(row[i]);
    }
}

/// Leaves in each list the items whose bit is set, in order. It takes no memory.
pub fn keep_each<T: Copy>(lists: &mut [Vec<T>], bits: &Bits)
    requires { All (λ list. vec_len list ≡ length bits.now.bits) lists.old }
    ensures { AllZip (IsSelection bits.now.bits) lists.old lists.new }
{
    for list in lists.iter_mut() {
        let left = keep_items(list.as_mut_slice(), bits);
        list.truncate(left);
    }
}

/// Moves the items whose bit is set to the front, in order, and answers how many they are.
fn keep_items<T: Copy>(items: &mut [T], bits: &Bits) -> usize
    requires { length items.old ≡ length bits.now.bits }
    ensures front { take result items.new ≡ items_where_true bits.now.bits items.old }
    ensures within { result ≤ length items.old }
{
    let mut left = 0;
    for i in 0..items.len() {
        items[left] = items[i];
        left += usize::from(bits.get(i as u64));
    }
    left
}

/// Whether numbers are short, and others before them were.
pub fn all_short(before: bool, numbers: &[i64]) -> bool
    ensures { IsTrue result ↔ (IsTrue before × All IsShort numbers.now) }
{
    before && are_short(numbers)
}

// Whether numbers are short.
fn are_short(numbers: &[i64]) -> bool
    ensures { IsTrue result ↔ All IsShort numbers.now }
{
    numbers.iter().all(|number| is_short(*number))
}

// Whether a number is short.
#[inline(always)]
fn is_short(number: i64) -> bool
    ensures { IsTrue result ↔ IsShort number }
{
    -(1 << 41) < number && number < 1 << 41
}
