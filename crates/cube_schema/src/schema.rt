//! A declaration that can be stored.

ghost use Rattle.std.specs.Prelude.{◌≡◌, ◌<◌, ◌^◌, Some, OnOk, IfOk};
ghost use Rattle.cube_values.specs.Shapes.{IsSoundShape, IsSoundCube};
ghost use Rattle.cube_language.specs.Cubes.{shape_of, schema_fault, IsStorable};
ghost use Rattle.cube_values.specs.Faults.{IfFault};
ghost use Rattle.cube_schema.specs.Schemas.{cube_of};

use crate::fault::fault_of;
use cube_language::{Decl, SchemaFault};
use cube_values::{CallError, CubeShape, Flags, Sequence, Shape, SharedShape, Size, Sizes};
use std::alloc::{AllocError, Global};
use std::marker::Model;

/// A declaration that can be stored. Contracts see it as the declaration.
#[derive(Debug, Drop)]
pub struct Schema {
    decl: Decl,
    cube: SharedShape,
}

impl Model for Schema {
    ghost use Rattle.cube_language.specs.declared.decl.Decl.{Decl};
    ghost use Rattle.cube_schema.specs.Schemas.{IsSchema};

    ghost Value = { Decl };

    ghost view = { λ s. s.decl };

    ghost invariant = { λ s. IsSchema s.decl s.cube };
}

/// Declarations that can be stored, in order.
pub type Schemas = Sequence<Schema>;

impl Schema {
    /// The declaration.
    pub fn decl(&self) -> &Decl
        ensures decl { result.now ≡ self.now }
        ensures storable { IsStorable self.now }
    {
        &self.decl
    }

    /// How the dimensions are cut into ranges.
    pub fn shape(&self) -> &Shape
        ensures value { result.now ≡ shape_of self.now }
        ensures sound { IsSoundShape result.now }
    {
        &self.cube.shape().shape
    }

    /// The shape of the cube, which of its dimensions have texts, and its number of metrics.
    pub fn cube_shape(&self) -> &CubeShape
        ensures value { result.now ≡ cube_of self.now }
        ensures sound { IsSoundCube result.now }
    {
        self.cube.shape()
    }

    /// The same, to be shared.
    pub fn shared_shape(&self) -> &SharedShape
        ensures value { result.now ≡ cube_of self.now }
        ensures sound { IsSoundCube result.now }
    {
        &self.cube
    }

    /// The same declaration.
    pub fn copy(&self) -> Result<Schema, AllocError>
        ensures { IfOk result (λ s. s ≡ self.now) }
    {
        Ok(Schema {
            decl: copy_decl(&self.decl)?,
            cube: self.cube.share()?,
        })
    }
}

impl Clone for Schema {
    ghost is_clone = { λ old new. new ≡ old };

    fn clone(&self) -> Result<Schema, AllocError> {
        self.copy()
    }
}

fn copy_decl(decl: &Decl) -> Result<Decl, AllocError>
    ensures { IfOk result (λ d. d ≡ decl.now) }
{
    decl.clone()
}

fn size_of(cardinality: u32, range: u32) -> Size
    ensures value { result ≡ record { cardinality = cardinality; range = range } }
    ensures small { result.cardinality < 2 ^ 32 }
{
    Size { cardinality, range }
}

fn cube_of(alloc: Global, decl: &Decl) -> Result<CubeShape, AllocError>
    requires { IsStorable decl.now }
    ensures value { IfOk result (λ cube. cube ≡ cube_of decl.now) }
    ensures sound { IfOk result (λ cube. IsSoundCube cube) }
{
    let mut sizes = Sizes::new(alloc);
    let mut texts = Flags::new(alloc);
    'dims: for dim in decl.dims.as_slice() {
        sizes.push(size_of(dim.cardinality, dim.range))?;
        texts.push(dim.text)?;
    }
    Ok(CubeShape {
        shape: Shape { sizes },
        texts,
        metrics: decl.metrics.len() as u32,
    })
}

/// The schema of a declaration, or the fault for which it cannot be stored, the first that applies.
pub fn check(alloc: Global, decl: &Decl) -> Result<Schema, CallError<SchemaFault>>
    ensures stored { IfOk result (λ s. s ≡ decl.now) }
    ensures storable { OnOk result (IsStorable decl.now) }
    ensures fault { IfFault result (λ fault. schema_fault decl.now ≡ Some fault) }
{
    if let Some(fault) = fault_of(alloc, decl)? {
        return Err(CallError::Fault(fault));
    }
    Ok(Schema {
        decl: copy_decl(decl)?,
        cube: SharedShape::new(alloc, cube_of(alloc, decl)?)?,
    })
}

/// The same list of cubes.
pub fn copy_cubes(alloc: Global, cubes: &[Schema]) -> Result<Schemas, AllocError>
    ensures { IfOk result (λ copied. copied ≡ cubes.now) }
{
    let mut copied = Schemas::new(alloc);
    'cubes: for cube in cubes {
        copied.push(cube.copy()?)?;
    }
    Ok(copied)
}
