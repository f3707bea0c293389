//! A shard with two cubes, and what it is asked of them.

ghost use Rattle.std.specs.Prelude.{◌≡◌, All, IfOk};
ghost use Rattle.brick_map.specs.Batches.{IsRowOfCube};
ghost use Rattle.shard_cases.specs.Drawn.{metrics_at, shape_at, sizes_at};

use crate::checks::{are_sound_parts, cuts_none, is_sound_query};
use crate::past::PlainRow;
use cube_rounds::RoundBricks;
use cube_values::{
    BoundQuery, CallError, CodedRows, CubeShape, Flags, NameLists, Shape, Size, Sizes, Snapshot,
    Span, Table,
};
use shard_cell::{Shard, ShardFull};
use std::alloc::{AllocError, Global};
use std::marker::Model;
use std::process::Abort;

/// A shard with two cubes. Their ranges are small, and last ranges of three dimensions are short.
#[derive(Drop)]
pub struct TwoCubes {
    shard: Shard,
}

impl Model for TwoCubes {
    ghost use Rattle.shard_cell.specs.Shards.{ShardState};
    ghost use Rattle.shard_cases.specs.Drawn.{HasTwoShapes};

    ghost Value = { ShardState };

    ghost view = { λ s. s.shard };

    ghost invariant = { λ s. HasTwoShapes s.shard };
}

/// The tables of the rows that came and of those that went.
#[derive(Drop)]
pub struct Tables {
    pub came: Table,
    pub went: Table,
}

/// The sizes of the dimensions of the cube at a place.
pub fn sizes_at(cube: u32) -> [Size; 2]
    ensures { result ≡ sizes_at cube }
{
    if cube == 0 {
        [size(5, 2), size(7, 3)]
    } else {
        [size(4, 1), size(10, 4)]
    }
}

/// So many coordinates, of which so many lie in a range.
pub fn size(cardinality: u32, range: u32) -> Size
    ensures { result ≡ record { cardinality = cardinality; range = range } }
{
    Size { cardinality, range }
}

/// How many metrics the cube at a place has.
pub fn metrics_at(cube: u32) -> u32
    ensures { result ≡ metrics_at cube }
{
    if cube == 0 { 1 } else { 2 }
}

/// The shape of the cube at a place.
fn shape_at(alloc: Global, cube: u32) -> Result<CubeShape, AllocError>
    ensures { IfOk result (λ made. made ≡ shape_at cube) }
{
    Ok(CubeShape {
        shape: Shape {
            sizes: Sizes::from_vec(Vec::from_slice(alloc, &sizes_at(cube))?),
        },
        texts: Flags::from_vec(vec![in alloc; false, false]?),
        metrics: metrics_at(cube),
    })
}

/// Puts a row at the end of a batch.
fn put_row(rt: &impl Abort, batch: &mut CodedRows, cube: u32, row: &PlainRow)
    requires { All (IsRowOfCube (shape_at cube)) batch.old.rows }
    ensures { All (IsRowOfCube (shape_at cube)) batch.new.rows }
{
    let [x, y] = row.coords;
    let [m, n] = row.metrics;
    assert!(rt; batch.len() < batch.room() && batch.dims() == 2);
    if cube == 0 {
        assert!(rt; x < 5 && y < 7 && batch.width() == 1);
        batch.push(&[x, y], &[m]);
    } else {
        assert!(rt; x < 4 && y < 10 && batch.width() == 2);
        batch.push(&[x, y], &[m, n]);
    }
}

/// A batch of rows of a cube.
fn batch_of(
    rt: &impl Abort,
    alloc: Global,
    cube: u32,
    rows: &[PlainRow],
) -> Result<CodedRows, AllocError>
    ensures { IfOk result (λ batch. All (IsRowOfCube (shape_at cube)) batch.rows) }
{
    let mut batch = CodedRows::new(alloc, 2, metrics_at(cube) as usize);
    batch.reserve(rows.len())?;
    'rows: for row in rows {
        put_row(rt, &mut batch, cube, row);
    }
    Ok(batch)
}

impl TwoCubes {
    /// A shard without rows that takes so many.
    pub fn new(alloc: Global, limit: u32) -> Result<TwoCubes, AllocError> {
        let shard = Shard::new(alloc, u64::from(limit))?;
        Ok(TwoCubes { shard })
    }

    /// How many rows there are.
    pub fn rows(&self) -> u64 {
        self.shard.rows()
    }

    /// How many bricks there are.
    pub fn bricks(&self) -> usize {
        self.shard.bricks()
    }

    /// Appends rows of a cube as rows of an epoch.
    pub fn append(
        &mut self,
        rt: &impl Abort,
        alloc: Global,
        cube: u32,
        epoch: u64,
        rows: &[PlainRow],
    ) -> Result<(), CallError<ShardFull>> {
        assert!(rt; cube < 2);
        let shape = shape_at(alloc, cube)?;
        let batch = batch_of(rt, alloc, cube, rows)?;
        self.shard.append(cube, &shape, epoch, &batch)
    }

    /// An epoch deletes the rows of a cube in a box.
    pub fn drop_box(
        &mut self,
        rt: &impl Abort,
        alloc: Global,
        cube: u32,
        epoch: u64,
        span: &Span,
    ) -> Result<(), AllocError> {
        assert!(rt; cube < 2);
        let shape = shape_at(alloc, cube)?;
        assert!(rt; are_sound_parts(span.parts.as_slice()));
        assert!(rt; cuts_none(&shape.shape, span));
        self.shard.drop_box(cube, &shape, epoch, span)
    }

    /// Takes an epoch out.
    pub fn rollback(&mut self, epoch: u64) {
        self.shard.rollback(epoch);
    }

    /// Removes what no snapshot from an epoch on needs.
    pub fn purge(&mut self, epoch: u64) {
        self.shard.purge(epoch);
    }

    /// The table of the rows that a snapshot sees.
    pub fn scan(
        &self,
        rt: &impl Abort,
        alloc: Global,
        query: &BoundQuery,
        snapshot: &Snapshot,
    ) -> Result<Table, AllocError> {
        assert!(rt; query.cube < 2);
        let shape = shape_at(alloc, query.cube)?;
        assert!(rt; is_sound_query(query, 2, shape.metrics));
        assert!(rt; are_sound_parts(query.span.parts.as_slice()));
        let found = self.shard.scan(&shape, query, snapshot)?;
        found.finish(query, &NameLists::new(alloc))
    }

    /// The tables of the rows that come and go from the reader at one epoch to the reader at another.
    pub fn delta(
        &self,
        rt: &impl Abort,
        alloc: Global,
        query: &BoundQuery,
        from: u64,
        to: u64,
    ) -> Result<Tables, AllocError> {
        assert!(rt; query.cube < 2);
        let shape = shape_at(alloc, query.cube)?;
        assert!(rt; is_sound_query(query, 2, shape.metrics));
        assert!(rt; are_sound_parts(query.span.parts.as_slice()));
        let change = self.shard.delta(&shape, query, from, to)?;
        let names = NameLists::new(alloc);
        Ok(Tables {
            came: change.came.finish(query, &names)?,
            went: change.went.finish(query, &names)?,
        })
    }

    /// What a round from one epoch up to another has.
    pub fn copy_round(&self, from: u64, to: u64) -> Result<RoundBricks, AllocError> {
        self.shard.copy_round(from, to)
    }
}
