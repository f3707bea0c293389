//! Names in a dictionary.

ghost use Rattle.std.specs.Prelude.{◌≡◌, ◌+◌, ◌-◌, ◌/◌, ◌^◌, length, IfOk};
ghost use Rattle.measures.specs.Checksums.{numbers_sum};
ghost use Rattle.measures.specs.Encoded.{encoded, empty, texts_of_names};

use arrayvec::ArrayString;
use names_dict::Dict;
use std::alloc::{AllocError, Global};
use std::fmt::Write;
use timed_work::{Work, below, seeded};

/// A name. It has no memory of its own: names lie in one block, one after the other, as the fields of records
/// do in a reader's buffer.
pub(crate) type Name = ArrayString<16>;

/// How often each name stands among the names, in the mean.
const TIMES: u32 = 10;

/// The name of a number, which has seven digits at most. A longer one counts as want of memory.
fn name_of(n: u32) -> Result<Name, AllocError> {
    let mut name = Name::new();
    match write!(name, "customer {n}") {
        Ok(()) => Ok(name),
        Err(_) => Err(AllocError),
    }
}

/// The names of the numbers below one, in order.
pub(crate) fn distinct_names(alloc: Global, count: u32) -> Result<Vec<Name>, AllocError> {
    let mut names = Vec::with_capacity(alloc, count as usize)?;
    for n in 0..count {
        names.push(name_of(n)?)?;
    }
    Ok(names)
}

/// How many distinct names there are among so many.
pub(crate) fn distinct_among(items: u32) -> u32
    ensures { result ≡ items / TIMES + 1 }
{
    items / TIMES + 1
}

/// So many names in an order by chance. They are those of the numbers below `distinct_among`, nearly all of them.
pub(crate) fn names(alloc: Global, items: u32) -> Result<Vec<Name>, AllocError> {
    let mut numbers = seeded();
    let mut names = Vec::with_capacity(alloc, items as usize)?;
    for _item in 0..items {
        names.push(name_of(below(&mut numbers, distinct_among(items)))?)?;
    }
    Ok(names)
}

/// Names for an empty dictionary.
#[derive(Drop)]
pub(crate) struct Encode {
    names: Vec<Name>,
}

/// A dictionary in which all names were encoded, in order.
pub(crate) fn dictionary(alloc: Global, names: &[Name]) -> Result<Dict, AllocError>
    ensures { IfOk result
        (λ dict. dict ≡ encoded (empty (2 ^ 32 - 1)) (texts_of_names names.now)) }
{
    let mut dict = Dict::new(alloc, u32::MAX);
    let mut left = names;
    'names: while let [name, rest @ ..] = left {
        dict.encode(name.as_str())?;
        left = rest;
    }
    Ok(dict)
}

impl Work for Encode {
    fn prepared(alloc: Global, items: u32) -> Result<Encode, AllocError> {
        Ok(Encode {
            names: names(alloc, items)?,
        })
    }

    /// The checksum is the number of names in the dictionary.
    fn work(&mut self, alloc: Global) -> Result<u64, AllocError>
        ensures { IfOk result (λ sum. sum
            ≡ length (encoded (empty (2 ^ 32 - 1)) (texts_of_names self.old.names.items)).names) }
    {
        let dict = dictionary(alloc, self.names.as_slice())?;
        Ok(u64::from(dict.len()))
    }
}

/// The sum of the numbers of names, counted from 1.
fn numbers_sum(dict: &Dict, names: &[Name]) -> u64
    ensures { result ≡ numbers_sum dict.now (texts_of_names names.now) }
{
    let mut sum: u64 = 0;
    let mut left = names;
    'names: while let [name, rest @ ..] = left {
        sum = sum.wrapping_add(match dict.find(name.as_str()) {
            Some(n) => u64::from(n) + 1,
            None => 0,
        });
        left = rest;
    }
    sum
}

/// Names, and the dictionary that has them.
#[derive(Drop)]
pub(crate) struct Lookup {
    dict: Dict,
    names: Vec<Name>,
}

impl Work for Lookup {
    fn prepared(alloc: Global, items: u32) -> Result<Lookup, AllocError> {
        let all = distinct_names(alloc, distinct_among(items))?;
        Ok(Lookup {
            dict: dictionary(alloc, all.as_slice())?,
            names: names(alloc, items)?,
        })
    }

    /// The checksum is the sum of the numbers that are found, and 1 for each.
    fn work(&mut self, _alloc: Global) -> Result<u64, AllocError>
        ensures { IfOk result
            (λ sum. sum ≡ numbers_sum self.old.dict (texts_of_names self.old.names.items)) }
    {
        Ok(numbers_sum(&self.dict, self.names.as_slice()))
    }
}
