//! The dictionary of one dimension.

ghost use Rattle.std.specs.Prelude.{◌≡◌, ◌<◌, ◌≤◌, [], length, drop, slice_get, Some, IfOk, OnErr, IsUtf8};
ghost use Rattle.names_dict.specs.Dictionaries.{Dictionary, IsSoundDictionary, number_of, code_of, with_code, IsToBeAdded};

use crate::code::Code;
use cube_values::{Text, Texts};
use indexmap::IndexSet;
use std::alloc::{AllocError, Global};
use std::marker::Model;

/// Distinct texts, each with its number, which is its place in the order of first sight. Contracts see
/// the texts, and how many there may be.
///
/// A text is found by its hash, in time by the text's length, as long as few texts share a hash. The
/// hasher is the library's default one, whose seed is fixed: so the same texts take the same time in
/// every run, and a dictionary needs no source of random numbers. Whoever chooses the texts can
/// therefore prepare texts with one hash. Each look-up then compares with all of them, so n such texts
/// take time by n * n. No answer changes by it, and the cardinality bounds n.
#[derive(Drop)]
pub struct Dict {
    cardinality: u32,
    names: IndexSet<String>,
}

impl Model for Dict {
    ghost use Rattle.std.specs.Prelude.{◌<◌, ◌≤◌, ◌^◌, length, map, string_bytes, string_eq};
    ghost use Rattle.std.specs.HashSet.{IsUnique};
    ghost use Rattle.names_dict.specs.Dictionaries.{Dictionary as Seen};

    ghost Value = { Seen };

    ghost view = { λ d. record {
      cardinality = d.cardinality;
      names = map string_bytes d.names.keys;
    } };

    ghost invariant = { λ d. IsUnique string_eq d.names
        × (length d.names.keys ≤ d.cardinality) × (d.cardinality < 2 ^ 32) };
}

impl Dict {
    /// A dictionary without names that may have so many.
    pub fn new(alloc: Global, cardinality: u32) -> Dict
        ensures { result ≡ record { cardinality = cardinality; names = [] } }
    {
        Dict {
            cardinality,
            names: IndexSet::new(alloc),
        }
    }

    /// How many names it has.
    pub fn len(&self) -> u32
        ensures len { result ≡ length self.now.names }
        ensures sound { IsSoundDictionary self.now }
    {
        self.names.len() as u32
    }

    /// The number of a name, where the dictionary has it.
    pub fn find(&self, name: &str) -> Option<u32>
        ensures { result ≡ number_of self.now name.now }
    {
        let place = self.names.get_index_of(name)?;
        Some(place as u32)
    }

    /// The code of a name: its number if the dictionary has it, else the next number, and the name is
    /// added, or Full where there is no room. Only where the name is to be added may memory be wanted,
    /// and then nothing changes.
    pub fn encode(&mut self, name: &str) -> Result<Code, AllocError>
        ensures code { IfOk result (λ code. code ≡ code_of self.old name.now) }
        ensures names { IfOk result (λ code. self.new ≡ with_code self.old name.now code) }
        ensures err { OnErr result (self.new ≡ self.old) }
        ensures wanted { OnErr result (IsToBeAdded self.old name.now) }
    {
        if let Some(place) = self.names.get_index_of(name) {
            return Ok(Code::Known(place as u32));
        }
        let place = self.names.len();
        if place == self.cardinality as usize {
            return Ok(Code::Full);
        }
        let owned = String::from_str(*self.names.allocator(), name)?;
        self.names.insert(owned)?;
        Ok(Code::Added(place as u32))
    }

    /// The name with a number.
    pub fn name_of(&self, n: u32) -> &str
        requires { n < length self.now.names }
        ensures name { slice_get self.now.names n ≡ Some result.now }
        ensures utf8 { IsUtf8 result.now }
    {
        self.names.as_slice()[n as usize].as_str()
    }

    /// Copies of the names from a number on, in order.
    pub fn copy_from(&self, from: u32) -> Result<Texts, AllocError>
        requires { from ≤ length self.now.names }
        ensures { IfOk result (λ texts. texts ≡ drop from self.now.names) }
    {
        let alloc = *self.names.allocator();
        let mut texts = Vec::new(alloc);
        let (_, left) = self.names.as_slice().split_at(from as usize);
        for name in left {
            texts.push(Text::new(alloc, name.as_str())?)?;
        }
        Ok(Texts::from_vec(texts))
    }
}
