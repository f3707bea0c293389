//! The dictionaries of all cubes.

ghost use Rattle.std.specs.Prelude.{◌≡◌, ◌↔◌, ◌<◌, ◌≤◌, IsTrue, All, bytes_eq, map, [], ◌∷◌, ◌++◌, ◌+◌, length, drop, replicate, option_copied, IfOk, OnOk, OnErr, vec_len, vec_capacity};
ghost use Rattle.std.specs.List.{IsDistinct};
ghost use Rattle.cube_values.specs.Shapes.{IsSoundCube};
ghost use Rattle.names_dict.specs.Dictionaries.{number_of, with_cube, dictionaries_of, dictionary_at, name_at, with_dictionaries, IsTextDimension, IsEncoded, IsCodeFor, IsNewFor};

use crate::code::Code;
use crate::cube_dicts::CubeDicts;
use cube_values::{CubeShape, TextLists, Texts};
use std::alloc::{AllocError, Global};
use std::marker::Model;

/// The dictionaries of all cubes, by cube and dimension. A dimension without texts has a dictionary that
/// may have no name. Those of a cube are made by `add_cube`, or all at once when its first name is encoded;
/// till then they are the empty list.
#[derive(Drop)]
pub struct Dicts {
    cubes: Vec<CubeDicts>,
    alloc: Global,
}

impl Model for Dicts {
    ghost use Rattle.std.specs.Prelude.{List};
    ghost use Rattle.names_dict.specs.Dictionaries.{Dictionary};

    ghost Value = { List (List Dictionary) };

    ghost view = { λ d. d.cubes.items };
}

impl Dicts {
    /// The dictionaries of no cube.
    pub fn new(alloc: Global) -> Dicts
        ensures { result ≡ [] }
    {
        Dicts {
            cubes: Vec::new(alloc),
            alloc,
        }
    }

    /// Adds the next cube, with an empty dictionary for each dimension. Where memory is wanted nothing
    /// changes.
    pub fn add_cube(&mut self, cube: &CubeShape) -> Result<(), AllocError>
        requires { IsSoundCube cube.now }
        ensures added { OnOk result (self.new ≡ with_cube self.old cube.now) }
        ensures err { OnErr result (self.new ≡ self.old) }
    {
        let dims = CubeDicts::new(self.alloc, cube)?;
        self.cubes.push(dims)?;
        Ok(())
    }

    /// The number of a name in the dictionary of a dimension, where that has it.
    pub fn find(&self, cube: u32, dim: u32, name: &str) -> Option<u32>
        ensures { result ≡ number_of (dictionary_at self.now cube dim) name.now }
    {
        if cube as usize >= self.cubes.len() {
            return None;
        }
        self.cubes[cube as usize].find(dim, name)
    }

    /// The code of a name in the dictionary of a dimension, which `Dict::encode` gives. Where the
    /// dictionaries of the cube are not made they are made, by the cube's shape. Only where the name is
    /// to be added may memory be wanted, and then nothing changes.
    pub fn encode(
        &mut self,
        cube: u32,
        dim: u32,
        shape: &CubeShape,
        name: &str,
    ) -> Result<Code, AllocError>
        requires sound { IsSoundCube shape.now }
        requires text { IsTextDimension shape.now dim }
        ensures code { IfOk result (IsCodeFor shape.now self.old cube dim name.now) }
        ensures names { IfOk result (IsEncoded shape.now cube dim name.now self.old self.new) }
        ensures err { OnErr result (self.new ≡ self.old) }
        ensures wanted { OnErr result (IsNewFor shape.now self.old cube dim name.now) }
    {
        if self.are_made(cube) {
            return self.cubes[cube as usize].encode(dim, name);
        }
        let mut dims = CubeDicts::new(self.alloc, shape)?;
        let code = dims.encode(dim, name)?;
        self.put(cube, dims)?;
        Ok(code)
    }

    /// Whether the dictionaries of a cube are made.
    fn are_made(&self, cube: u32) -> bool
        ensures { IsTrue result ↔ (0 < length (dictionaries_of self.now cube)) }
    {
        (cube as usize) < self.cubes.len() && self.cubes[cube as usize].are_made()
    }

    /// Puts the dictionaries of a cube in their place. Where memory is wanted nothing changes.
    fn put(&mut self, cube: u32, dims: CubeDicts) -> Result<(), AllocError>
        ensures ok { OnOk result (self.new ≡ with_dictionaries self.old cube dims) }
        ensures err { OnErr result (self.new ≡ self.old) }
    {
        let place = cube as usize;
        if place < self.cubes.len() {
            self.cubes[place] = dims;
            return Ok(());
        }
        let missing = place - self.cubes.len();
        self.cubes.reserve(missing + 1)?;
        push_none(&mut self.cubes, self.alloc, missing);
        self.cubes.push_reserved(dims);
        Ok(())
    }

    /// Copies of the names of a dimension from a number on, in order.
    pub fn copy_from(&self, cube: u32, dim: u32, from: u32) -> Result<Texts, AllocError>
        requires { from ≤ length (dictionary_at self.now cube dim).names }
        ensures { IfOk result (λ texts. texts ≡ drop from (dictionary_at self.now cube dim).names) }
    {
        if cube as usize >= self.cubes.len() {
            return Ok(Texts::new(self.alloc));
        }
        self.cubes[cube as usize].copy_from(self.alloc, dim, from)
    }

    /// Copies of the names of each dimension of a cube, in order: none where its dictionaries are not
    /// made. None stands twice in a dimension.
    pub fn copy_names(&self, cube: u32) -> Result<TextLists, AllocError>
        ensures names { IfOk result (λ lists.
            lists ≡ map (λ d. d.names) (dictionaries_of self.now cube)) }
        ensures distinct { IfOk result (All (IsDistinct bytes_eq)) }
    {
        if cube as usize >= self.cubes.len() {
            return Ok(TextLists::new(self.alloc));
        }
        self.cubes[cube as usize].copy_names(self.alloc)
    }

    /// The name at a place, or None where there is no such cube, dimension or number.
    pub fn name_of(&self, cube: u32, dim: u32, n: u32) -> Option<&str>
        ensures { option_copied result ≡ name_at self.now cube dim n }
    {
        if cube as usize >= self.cubes.len() {
            return None;
        }
        self.cubes[cube as usize].name_of(dim, n)
    }
}

/// Appends cubes of which no dictionaries are made, for which there is room.
fn push_none(cubes: &mut Vec<CubeDicts>, alloc: Global, missing: usize)
    requires { vec_len cubes.old + missing ≤ vec_capacity cubes.old }
    ensures items { cubes.new.items ≡ cubes.old.items ++ replicate missing [] }
    ensures room { vec_capacity cubes.new ≡ vec_capacity cubes.old }
{
    'cubes: for _cube in 0..missing {
        cubes.push_reserved(CubeDicts::none(alloc));
    }
}
