//! Names that a session knows.

ghost use Rattle.std.specs.Prelude.{◌≡◌, [], IfOk};
ghost use Rattle.measures.specs.Checksums.{codes_sum};
ghost use Rattle.measures.specs.Encoded.{known_by, texts_of_names};

use crate::names::{Name, dictionary, distinct_among, distinct_names, names};
use known_names::Known;
use names_dict::Dict;
use std::alloc::{AllocError, Global};
use timed_work::Work;

/// The names, each known with the number that a dictionary gave it.
fn known_by(alloc: Global, dict: &Dict, names: &[Name]) -> Result<Known, AllocError>
    ensures { IfOk result
        (λ known. known ≡ known_by dict.now [] (texts_of_names names.now)) }
{
    let mut known = Known::new(alloc);
    let mut left = names;
    'names: while let [name, rest @ ..] = left {
        known.learn(
            name.as_str().as_bytes(),
            dict.find(name.as_str()).unwrap_or(0),
        )?;
        left = rest;
    }
    Ok(known)
}

/// The sum of the codes of names, counted from 1.
fn codes_sum(known: &Known, names: &[Name]) -> u64
    ensures { result ≡ codes_sum known.now (texts_of_names names.now) }
{
    let mut sum: u64 = 0;
    let mut left = names;
    'names: while let [name, rest @ ..] = left {
        sum = sum.wrapping_add(match known.find(name.as_str().as_bytes()) {
            Some(n) => u64::from(n) + 1,
            None => 0,
        });
        left = rest;
    }
    sum
}

/// Names, each of which is known.
#[derive(Drop)]
pub(crate) struct FindKnown {
    known: Known,
    names: Vec<Name>,
}

impl Work for FindKnown {
    fn prepared(alloc: Global, items: u32) -> Result<FindKnown, AllocError> {
        let all = distinct_names(alloc, distinct_among(items))?;
        let dict = dictionary(alloc, all.as_slice())?;
        Ok(FindKnown {
            known: known_by(alloc, &dict, all.as_slice())?,
            names: names(alloc, items)?,
        })
    }

    /// The checksum is the sum of the codes that are found, and 1 for each.
    fn work(&mut self, _alloc: Global) -> Result<u64, AllocError>
        ensures { IfOk result
            (λ sum. sum ≡ codes_sum self.old.known (texts_of_names self.old.names.items)) }
    {
        Ok(codes_sum(&self.known, self.names.as_slice()))
    }
}
