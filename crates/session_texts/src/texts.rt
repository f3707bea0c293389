//! What a session knows of cubes: the one that it found last, and texts by the places of their cubes.

ghost use Rattle.std.specs.Prelude.{◌≡◌, ◌↔◌, List, [], None, Some, IsTrue, length, set, replicate, IfOk, IfSome};
ghost use Rattle.cube_language.specs.declared.decl.DimDecl.{DimDecl};
ghost use Rattle.core_program.specs.CoreFits.{CoreEntry};
ghost use Rattle.session_texts.specs.ToldTexts.{
  AreCubeTextsTold,
  AreOfDimensions,
  AreTextsTold,
  IsFoundCube,
  cardinalities,
  kept_at,
  last_named,
};

use core_names::CubeTexts;
use cube_language::{DimDecl, MOST_CUBES};
use cube_schema::Schema;
use cube_values::Text;
use std::alloc::{AllocError, Global};
use std::marker::Model;

/// The texts of a cube that are known, beside how many coordinates each of its dimensions has.
#[derive(Drop)]
pub struct TextsOfCube {
    pub sizes: Vec<u32>,
    pub texts: CubeTexts,
}

/// A cube that a session found by a name.
#[derive(Drop)]
pub struct FoundCube {
    pub name: Text,
    /// Its place in the list of cubes.
    pub place: u32,
    pub schema: Schema,
}

/// The cube that a session found last, and the texts that it knows of each cube, by the cube's place. A
/// statement takes what is kept of its cube, learns more, and puts it back.
#[derive(Drop)]
pub struct SessionTexts {
    last: Option<FoundCube>,
    cubes: Vec<Option<TextsOfCube>>,
}

impl Model for SessionTexts {
    ghost use Rattle.session_texts.specs.ToldTexts.{KeptTexts};

    ghost Value = { KeptTexts };

    ghost view = { λ t. record { last = t.last; cubes = t.cubes.items } };
}

impl SessionTexts {
    #[tactic(auto, using(crate::proofs::KeptTexts::none_told))]
    /// No cube, and no texts, of so many cubes as there can be.
    pub fn new(alloc: Global) -> Result<SessionTexts, AllocError>
        ensures found { IfOk result (λ texts. texts.last ≡ None) }
        ensures none { IfOk result (λ texts. texts.cubes ≡ replicate MOST_CUBES None) }
        ensures told { IfOk result (λ texts. (own : List CoreEntry) → AreTextsTold own texts) }
    {
        let mut cubes = Vec::with_capacity(alloc, MOST_CUBES)?;
        'cubes: for _cube in 0..MOST_CUBES {
            cubes.push(None)?;
        }
        Ok(SessionTexts { last: None, cubes })
    }

    #[tactic(auto, using(crate::proofs::KeptTexts::kept_told, crate::proofs::KeptTexts::fresh_told, crate::proofs::KeptTexts::told_without))]
    /// The texts that are kept of the cube at a place, where these are of such dimensions, and else none.
    /// Nothing is kept of the cube from then on, also where memory is wanted.
    pub fn take(
        &mut self,
        alloc: Global,
        place: u32,
        dims: &[DimDecl],
    ) -> Result<TextsOfCube, AllocError>
        ensures sizes { IfOk result (AreOfDimensions dims.now) }
        ensures kept { IfOk result (λ cube. IfSome (kept_at self.old.cubes place)
            (λ known. AreOfDimensions dims.now known → cube ≡ known)) }
        ensures others { self.new ≡ record self.old { cubes = set self.old.cubes place None } }
        ensures told { (own : List CoreEntry) → AreTextsTold own self.old
            → IfOk result (λ cube. AreCubeTextsTold own place dims.now cube.texts) }
        ensures still { (own : List CoreEntry) → AreTextsTold own self.old
            → AreTextsTold own self.new }
    {
        let kept = self.take_kept(place);
        match fitting(kept, dims) {
            Some(cube) => Ok(cube),
            None => {
                let sizes = cardinalities(alloc, dims)?;
                no_texts(alloc, sizes)
            }
        }
    }

    // What is kept of the cube at a place, which is then kept no more.
    fn take_kept(&mut self, place: u32) -> Option<TextsOfCube>
        ensures kept { result ≡ kept_at self.old.cubes place }
        ensures others { self.new ≡ record self.old { cubes = set self.old.cubes place None } }
    {
        if self.cubes.len() <= place as usize {
            return None;
        }
        self.cubes[place as usize].take()
    }

    #[tactic(auto, using(crate::proofs::KeptTexts::told_with))]
    /// Keeps the texts of the cube at a place.
    pub fn put_back(&mut self, place: u32, cube: TextsOfCube)
        ensures kept { self.new ≡ record self.old { cubes = set self.old.cubes place (Some cube) } }
        ensures told { (own : List CoreEntry) (dims : List DimDecl) → AreTextsTold own self.old
            → AreOfDimensions dims cube → AreCubeTextsTold own place dims cube.texts
            → AreTextsTold own self.new }
    {
        if (place as usize) < self.cubes.len() {
            self.cubes[place as usize] = Some(cube);
        }
    }

    #[tactic(auto, using(crate::proofs::KeptTexts::found_by_name, crate::proofs::KeptTexts::told_no_cube))]
    /// The cube of a name, where it was the last one found. None is kept from then on.
    pub fn take_cube(&mut self, name: &Text) -> Option<FoundCube>
        ensures found { result ≡ last_named name.now self.old.last }
        ensures others { self.new ≡ record self.old { last = None } }
        ensures told { (own : List CoreEntry) → AreTextsTold own self.old
            → IfSome result (λ cube. (cube.name ≡ name.now) × IsFoundCube own cube) }
        ensures still { (own : List CoreEntry) → AreTextsTold own self.old
            → AreTextsTold own self.new }
    {
        let cube = self.last.take()?;
        if cube.name == *name { Some(cube) } else { None }
    }

    #[tactic(auto, using(crate::proofs::KeptTexts::told_cube))]
    /// Keeps a cube as the one that was found last.
    pub fn keep_cube(&mut self, cube: FoundCube)
        ensures kept { self.new ≡ record self.old { last = Some cube } }
        ensures told { (own : List CoreEntry) → AreTextsTold own self.old → IsFoundCube own cube
            → AreTextsTold own self.new }
    {
        self.last = Some(cube);
    }
}

// How many coordinates each dimension has.
fn cardinalities(alloc: Global, dims: &[DimDecl]) -> Result<Vec<u32>, AllocError>
    ensures { IfOk result (λ sizes. sizes.items ≡ cardinalities dims.now) }
{
    dims.iter().map(cardinality_of).collect(alloc)
}

fn cardinality_of(dim: &DimDecl) -> u32
    ensures { result ≡ dim.now.cardinality }
{
    dim.cardinality
}

// Whether dimensions have so many coordinates.
fn have_sizes(dims: &[DimDecl], sizes: &[u32]) -> bool
    ensures { IsTrue result ↔ (cardinalities dims.now ≡ sizes.now) }
{
    let mut dims_left = dims;
    let mut sizes_left = sizes;
    'dims: while let [dim, dims_rest @ ..] = dims_left {
        let [size, sizes_rest @ ..] = sizes_left else {
            return false;
        };
        if dim.cardinality != *size {
            return false;
        }
        dims_left = dims_rest;
        sizes_left = sizes_rest;
    }
    sizes_left.is_empty()
}

// What is kept, where it is of such dimensions.
fn fitting(kept: Option<TextsOfCube>, dims: &[DimDecl]) -> Option<TextsOfCube>
    ensures fits { IfSome result (AreOfDimensions dims.now) }
    ensures is { IfSome result (λ cube. kept ≡ Some cube) }
    ensures all { IfSome kept (λ cube. AreOfDimensions dims.now cube → result ≡ Some cube) }
{
    let cube = kept?;
    if have_sizes(dims, cube.sizes.as_slice()) {
        Some(cube)
    } else {
        None
    }
}

// No text of dimensions that have so many coordinates.
fn no_texts(alloc: Global, sizes: Vec<u32>) -> Result<TextsOfCube, AllocError>
    ensures sizes { IfOk result (λ cube. cube.sizes.items ≡ sizes.items) }
    ensures none { IfOk result (λ cube. cube.texts ≡ replicate (length sizes.items) []) }
{
    let texts = CubeTexts::new(alloc, sizes.len())?;
    Ok(TextsOfCube { sizes, texts })
}
