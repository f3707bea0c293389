//! The calls on the names.

ghost use Rattle.core_cells.specs.NamesCalls.{CanCallNames, NamesStep};

use cube_values::{SharedShape, Text, Texts};
use names_dict::{Code, Dicts};
use std::alloc::AllocError;

/// A call on the names.
#[derive(Debug, Drop)]
pub enum NamesCall {
    /// The code of a name, which is added where it is new.
    Encode {
        cube: u32,
        dim: u32,
        shape: SharedShape,
        name: Text,
    },
    /// The number of a name.
    Find {
        cube: u32,
        dim: u32,
        name: Text,
    },
    /// The names from a number on.
    CopyFrom {
        cube: u32,
        dim: u32,
        from: u32,
    },
}

/// What the names answer.
#[derive(Debug, Drop)]
pub enum NamesAnswer {
    Coded(Code),
    Found(Option<u32>),
    Copied(Texts),
    /// Memory ran out; nothing changed.
    NoMemory,
}

/// Makes a call on the names.
pub fn call_names(names: &mut Dicts, call: NamesCall) -> NamesAnswer
    requires { CanCallNames names.old call }
    ensures { NamesStep names.old call result names.new }
{
    match call {
        NamesCall::Encode {
            cube,
            dim,
            shape,
            name,
        } => match names.encode(cube, dim, shape.shape(), name.as_str()) {
            Ok(code) => NamesAnswer::Coded(code),
            Err(AllocError) => NamesAnswer::NoMemory,
        },
        NamesCall::Find { cube, dim, name } => {
            NamesAnswer::Found(names.find(cube, dim, name.as_str()))
        }
        NamesCall::CopyFrom { cube, dim, from } => match names.copy_from(cube, dim, from) {
            Ok(copied) => NamesAnswer::Copied(copied),
            Err(AllocError) => NamesAnswer::NoMemory,
        },
    }
}
