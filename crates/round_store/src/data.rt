//! What a store knows of its cubes: their shapes, and how many names there are.

ghost use Rattle.std.specs.Prelude.{◌≡◌, ◌+◌, ◌≤◌, [], map, length, take, get_or, All, IfOk};
ghost use Rattle.cube_language.specs.Cubes.{IsStorable};
ghost use Rattle.cube_schema.specs.Schemas.{cube_of};
ghost use Rattle.round_store.specs.Counts.{row_with, counts_with, counts_of, data_with};

use cube_rounds::{NameCounts, Round, RoundCube};
use cube_schema::{Schema, Schemas, copy_cubes};
use cube_values::{CubeShape, Sequence, TextLists, Texts};
use std::alloc::{AllocError, Global};
use std::marker::Model;
use store_reading::with_cubes;

/// The shapes of cubes.
pub type CubeShapes = Sequence<CubeShape>;

fn shape_of(cube: &Schema) -> Result<CubeShape, AllocError>
    ensures { IfOk result (λ shape. shape ≡ cube_of cube.now) }
{
    cube.cube_shape().clone()
}

/// The shape of each cube.
pub(crate) fn shapes_of(alloc: Global, cubes: &[Schema]) -> Result<CubeShapes, AllocError>
    ensures { IfOk result (λ shapes. shapes ≡ map cube_of cubes.now) }
{
    let mut shapes = CubeShapes::new(alloc);
    'cubes: for cube in cubes {
        shapes.push(shape_of(cube)?)?;
    }
    Ok(shapes)
}

/// How many names each list has.
fn lengths_of(alloc: Global, lists: &[Texts]) -> Result<Sequence<u64>, AllocError>
    ensures { IfOk result (λ lengths. lengths ≡ map length lists.now) }
{
    let mut lengths = Sequence::new(alloc);
    'lists: for list in lists {
        lengths.push(list.len() as u64)?;
    }
    Ok(lengths)
}

/// How many names each dimension of each cube has.
pub(crate) fn counts_of(alloc: Global, names: &[TextLists]) -> Result<NameCounts, AllocError>
    ensures { IfOk result (λ counts. counts ≡ counts_of names.now) }
{
    let mut counts = NameCounts::new(alloc);
    'cubes: for lists in names {
        counts.push(lengths_of(alloc, lists.as_slice())?)?;
    }
    Ok(counts)
}

/// A number of names with those of a list more.
fn count_with(count: u64, names: &Texts) -> Result<u64, AllocError>
    ensures { IfOk result (λ n. n ≡ count + length names.now) }
{
    count.checked_add(names.len() as u64).ok_or(AllocError)
}

/// A number, and 0 where there is none.
fn count_at(counts: &[u64], i: usize) -> u64
    ensures { result ≡ get_or counts.now i 0 }
{
    if i < counts.len() { counts[i] } else { 0 }
}

/// How many names the dimensions of a cube have with these lists more.
fn row_with(alloc: Global, counts: &[u64], lists: &[Texts]) -> Result<Sequence<u64>, AllocError>
    ensures { IfOk result (λ row. row ≡ row_with counts.now lists.now) }
{
    let mut row = Sequence::new(alloc);
    'lists: for (i, list) in lists.iter().enumerate() {
        row.push(count_with(count_at(counts, i), list)?)?;
    }
    Ok(row)
}

/// The numbers of a cube, and none where it has none yet.
fn row_at(counts: &[Sequence<u64>], i: usize) -> &[u64]
    ensures { result.now ≡ get_or counts.now i [] }
{
    if i < counts.len() {
        counts[i].as_slice()
    } else {
        &[]
    }
}

/// How many names each dimension of each cube has with those of a round more.
pub(crate) fn counts_with(
    alloc: Global,
    counts: &[Sequence<u64>],
    parts: &[RoundCube],
) -> Result<NameCounts, AllocError>
    ensures { IfOk result (λ all. all ≡ counts_with counts.now parts.now) }
{
    let mut all = NameCounts::new(alloc);
    'parts: for (i, part) in parts.iter().enumerate() {
        all.push(row_with(alloc, row_at(counts, i), part.names.as_slice())?)?;
    }
    Ok(all)
}

/// The cubes of a store, with their shapes and numbers of names. Contracts see the cubes and the numbers.
#[derive(Drop)]
pub(crate) struct StoreData {
    cubes: Schemas,
    counts: NameCounts,
    shapes: CubeShapes,
}

impl Model for StoreData {
    ghost use Rattle.std.specs.Prelude.{◌≡◌, map};
    ghost use Rattle.cube_schema.specs.Schemas.{cube_of};
    ghost use Rattle.round_store.specs.Counts.{CubeCounts};

    ghost Value = { CubeCounts };

    ghost view = { λ d. record { cubes = d.cubes; counts = d.counts } };

    ghost invariant = { λ d. d.shapes ≡ map cube_of d.cubes };
}

impl StoreData {
    /// The data of these cubes with so many names.
    pub(crate) fn new(
        alloc: Global,
        cubes: Schemas,
        counts: NameCounts,
    ) -> Result<StoreData, AllocError>
        ensures { IfOk result (λ d. d ≡ record { cubes = cubes; counts = counts }) }
    {
        let shapes = shapes_of(alloc, cubes.as_slice())?;
        Ok(StoreData {
            cubes,
            counts,
            shapes,
        })
    }

    pub(crate) fn cubes(&self) -> &[Schema]
        ensures { result.now ≡ self.now.cubes }
    {
        self.cubes.as_slice()
    }

    pub(crate) fn counts(&self) -> &NameCounts
        ensures { result.now ≡ self.now.counts }
    {
        &self.counts
    }

    pub(crate) fn shapes(&self) -> &[CubeShape]
        ensures { result.now ≡ map cube_of self.now.cubes }
    {
        self.shapes.as_slice()
    }

    /// The data with a round more.
    pub(crate) fn with_round(&self, alloc: Global, round: &Round) -> Result<StoreData, AllocError>
        requires { All IsStorable round.now.made }
        ensures { IfOk result (λ d. d ≡ data_with self.now.cubes self.now.counts round.now) }
    {
        let cubes = copy_cubes(alloc, self.cubes.as_slice())?;
        let cubes = with_cubes(alloc, cubes, round.made.as_slice())?;
        let counts = counts_with(alloc, self.counts.as_slice(), round.cubes.as_slice())?;
        StoreData::new(alloc, cubes, counts)
    }

    /// The data of the first cubes alone with a round.
    pub(crate) fn with_whole(
        &self,
        alloc: Global,
        declared: usize,
        round: &Round,
    ) -> Result<StoreData, AllocError>
        requires declared { declared ≤ length self.now.cubes }
        requires made { All IsStorable round.now.made }
        ensures { IfOk result (λ d. d ≡ data_with (take declared self.now.cubes) [] round.now) }
    {
        let (first, _) = self.cubes.as_slice().split_at(declared);
        let cubes = copy_cubes(alloc, first)?;
        let cubes = with_cubes(alloc, cubes, round.made.as_slice())?;
        let counts = counts_with(alloc, &[], round.cubes.as_slice())?;
        StoreData::new(alloc, cubes, counts)
    }
}
