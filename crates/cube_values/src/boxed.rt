//! A value on the heap.

ghost use Rattle.std.specs.Prelude.{◌≡◌, IfOk};

use std::alloc::{AllocError, Global};
use std::marker::Model;

/// A value that lies on the heap, so that it is not copied where it is handed on. Contracts see it as
/// the value.
#[derive(Debug, Drop)]
pub struct Boxed<T> {
    kept: Box<T>,
}

impl<T> Model for Boxed<T> {
    ghost Value = { T };

    ghost coded = { T.code };

    ghost view = { λ b. b.kept.value };
}

impl<T> Boxed<T> {
    /// The value.
    pub fn get(&self) -> &T
        ensures { result.now ≡ self.now }
    {
        &self.kept
    }
}

impl<T: Drop> Boxed<T> {
    /// Puts a value on the heap.
    pub fn new(alloc: Global, value: T) -> Result<Boxed<T>, AllocError>
        ensures { IfOk result (λ b. b ≡ value) }
    {
        Ok(Boxed {
            kept: Box::new(alloc, value)?,
        })
    }
}
