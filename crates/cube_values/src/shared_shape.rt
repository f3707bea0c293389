//! A cube's shape that several owners share.

ghost use Rattle.std.specs.Prelude.{◌≡◌, IfOk};

use crate::shape::CubeShape;
use std::alloc::{AllocError, Global};
use std::marker::Model;
use std::sync::Arc;

/// The shape of a cube on the heap, which is not copied where one more owner wants it. Contracts see
/// it as the shape.
#[derive(Debug, Drop)]
pub struct SharedShape {
    kept: Arc<CubeShape>,
}

impl Model for SharedShape {
    ghost use Rattle.cube_values.specs.declared.shape.CubeShape.{CubeShape};
    ghost use Rattle.std.specs.Arc.{arc_value};

    ghost Value = { CubeShape };

    ghost view = { λ s. arc_value s.kept };
}

impl SharedShape {
    /// A shape with one owner.
    pub fn new(alloc: Global, shape: CubeShape) -> Result<SharedShape, AllocError>
        ensures { IfOk result (λ s. s ≡ shape) }
    {
        Ok(SharedShape {
            kept: Arc::new(alloc, shape)?,
        })
    }

    /// The same shape for one more owner. It is an error where it has as many owners as can be counted.
    pub fn share(&self) -> Result<SharedShape, AllocError>
        ensures { IfOk result (λ s. s ≡ self.now) }
    {
        Ok(SharedShape {
            kept: Arc::try_clone(&self.kept)?,
        })
    }

    /// The shape.
    pub fn shape(&self) -> &CubeShape
        ensures { result.now ≡ self.now }
    {
        &self.kept
    }
}
