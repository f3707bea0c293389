//! The dictionaries of one cube.

ghost use Rattle.std.specs.Prelude.{◌≡◌, ◌↔◌, ◌<◌, ◌≤◌, IsTrue, All, bytes_eq, map, length, drop, option_copied, slice_get, [], IfOk, OnErr, if◌then◌else◌};
ghost use Rattle.std.specs.List.{IsDistinct};
ghost use Rattle.cube_values.specs.Shapes.{IsSoundCube};
ghost use Rattle.names_dict.specs.Dictionaries.{number_of, code_of, empty_dictionaries, new_dictionaries, dictionary_in, IsEncodedIn, IsToBeAdded};

use crate::code::Code;
use crate::dict::Dict;
use cube_values::{CubeShape, Size, TextLists, Texts};
use std::alloc::{AllocError, Global};
use std::marker::Model;

/// The dictionaries of a cube, one for each dimension.
#[derive(Drop)]
pub struct CubeDicts {
    dims: Vec<Dict>,
}

impl Model for CubeDicts {
    ghost use Rattle.std.specs.Prelude.{List};
    ghost use Rattle.names_dict.specs.Dictionaries.{Dictionary};

    ghost Value = { List Dictionary };

    ghost view = { λ c. c.dims.items };
}

/// How many names a dimension may have: none, if it has no texts.
fn most_names(size: &Size, text: bool) -> u32
    ensures { result ≡ (if text then size.now.cardinality else 0) }
{
    if text { size.cardinality } else { 0 }
}

/// Empty dictionaries for dimensions, each with its flag.
fn empty_dicts(alloc: Global, sizes: &[Size], texts: &[bool]) -> Result<Vec<Dict>, AllocError>
    requires { length texts.now ≡ length sizes.now }
    ensures { IfOk result (λ dims. dims.items ≡ empty_dictionaries sizes.now texts.now) }
{
    let mut dims = Vec::new(alloc);
    for dim in 0..sizes.len() {
        dims.push(Dict::new(alloc, most_names(&sizes[dim], texts[dim])))?;
    }
    Ok(dims)
}

/// Copies of the names of a dimension, in order.
fn names_of(dict: &Dict) -> Result<Texts, AllocError>
    ensures names { IfOk result (λ texts. texts ≡ dict.now.names) }
    ensures distinct { IfOk result (IsDistinct bytes_eq) }
{
    let _sound = dict.len();
    dict.copy_from(0)
}

impl CubeDicts {
    /// The empty dictionaries of a new cube.
    pub fn new(alloc: Global, cube: &CubeShape) -> Result<CubeDicts, AllocError>
        requires { IsSoundCube cube.now }
        ensures { IfOk result (λ dims. dims ≡ new_dictionaries cube.now) }
    {
        let dims = empty_dicts(alloc, cube.shape.sizes.as_slice(), cube.texts.as_slice())?;
        Ok(CubeDicts { dims })
    }

    /// The dictionaries of a cube of which none are made.
    pub fn none(alloc: Global) -> CubeDicts
        ensures { result ≡ [] }
    {
        CubeDicts {
            dims: Vec::new(alloc),
        }
    }

    /// Whether they are made.
    pub fn are_made(&self) -> bool
        ensures { IsTrue result ↔ (0 < length self.now) }
    {
        !self.dims.is_empty()
    }

    /// The number of a name in the dictionary of a dimension, where that has it.
    pub fn find(&self, dim: u32, name: &str) -> Option<u32>
        ensures { result ≡ number_of (dictionary_in self.now dim) name.now }
    {
        if dim as usize >= self.dims.len() {
            return None;
        }
        self.dims[dim as usize].find(name)
    }

    /// Encodes a name by the dictionary of a dimension. Where there is no such dimension there is no room.
    pub fn encode(&mut self, dim: u32, name: &str) -> Result<Code, AllocError>
        ensures code { IfOk result (λ code. code ≡ code_of (dictionary_in self.old dim) name.now) }
        ensures names { IfOk result (IsEncodedIn dim name.now self.old self.new) }
        ensures err { OnErr result (self.new ≡ self.old) }
        ensures wanted { OnErr result (IsToBeAdded (dictionary_in self.old dim) name.now) }
    {
        if dim as usize >= self.dims.len() {
            return Ok(Code::Full);
        }
        self.dims[dim as usize].encode(name)
    }

    /// Copies of the names of a dimension from a number on, in order.
    pub fn copy_from(&self, alloc: Global, dim: u32, from: u32) -> Result<Texts, AllocError>
        requires { from ≤ length (dictionary_in self.now dim).names }
        ensures { IfOk result (λ texts. texts ≡ drop from (dictionary_in self.now dim).names) }
    {
        if dim as usize >= self.dims.len() {
            return Ok(Texts::new(alloc));
        }
        self.dims[dim as usize].copy_from(from)
    }

    /// Copies of the names of each dimension, in order. None stands twice in a dimension.
    pub fn copy_names(&self, alloc: Global) -> Result<TextLists, AllocError>
        ensures names { IfOk result (λ lists. lists ≡ map (λ d. d.names) self.now) }
        ensures distinct { IfOk result (All (IsDistinct bytes_eq)) }
    {
        let mut lists = TextLists::new(alloc);
        'dims: for dim in 0..self.dims.len() {
            lists.push(names_of(&self.dims[dim])?)?;
        }
        Ok(lists)
    }

    /// The name at a place, or None where there is no such dimension or number.
    pub fn name_of(&self, dim: u32, n: u32) -> Option<&str>
        ensures { option_copied result ≡ slice_get (dictionary_in self.now dim).names n }
    {
        if dim as usize >= self.dims.len() {
            return None;
        }
        let dict = &self.dims[dim as usize];
        if n >= dict.len() {
            return None;
        }
        Some(dict.name_of(n))
    }
}
