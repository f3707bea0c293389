//! Reading of a cubes text.

ghost use Rattle.std.specs.Prelude.{◌≡◌, [], Some, None, Ok, Err, IsUtf8, OnOk, IfOk};
ghost use Rattle.cube_language.specs.Cubes.{schema_fault};
ghost use Rattle.cube_language.specs.CubesText.{Declares, HasCubesFault};
ghost use Rattle.cube_values.specs.Faults.{IfFault};
ghost use Rattle.cube_schema.specs.Outcomes.{begun_names, begun_decls, repeated_in, excess_in, unstorable, unstorable_in, outcome};
ghost use Rattle.cube_schema.specs.Repeats.{names_lent};

use crate::gather::{Begun, gather_cubes};
use crate::repeat::first_repeat;
use crate::schema::{Schema, check};
use cube_language::{CubesFault, MOST_CUBES};
use cube_values::CallError;
use std::alloc::{AllocError, Global};
use std::str;

fn begun_names(alloc: Global, cubes: &[Begun]) -> Result<Vec<&str>, AllocError>
    ensures { IfOk result (λ names. names_lent names.items ≡ begun_names cubes.now) }
{
    let mut names = Vec::new(alloc);
    'cubes: for cube in cubes {
        names.push(cube.decl.name.as_str())?;
    }
    Ok(names)
}

/// The first cube of a name that a cube before it has.
fn repeated_in(alloc: Global, cubes: &[Begun]) -> Result<Option<CubesFault>, AllocError>
    ensures { IfOk result (λ found. found ≡ repeated_in [] cubes.now) }
{
    let names = begun_names(alloc, cubes)?;
    match first_repeat(alloc, names.as_slice())? {
        Some(place) => Ok(Some(CubesFault::DuplicateCube {
            line: cubes[place].line,
        })),
        None => Ok(None),
    }
}

/// The cube that is one too many.
fn excess_in(cubes: &[Begun]) -> Option<CubesFault>
    ensures { result ≡ excess_in cubes.now }
{
    let cube = cubes.get(MOST_CUBES)?;
    Some(CubesFault::TooManyCubes { line: cube.line })
}

fn check_cube(alloc: Global, cube: &Begun) -> Result<Schema, CallError<CubesFault>>
    ensures stored { IfOk result (λ s. s ≡ cube.now.decl) }
    ensures storable { OnOk result (unstorable cube.now.decl ≡ None) }
    ensures fault { IfFault result (λ fault. unstorable cube.now.decl ≡ Some fault) }
{
    match check(alloc, &cube.decl) {
        Ok(schema) => Ok(schema),
        Err(CallError::Fault(fault)) => Err(CallError::Fault(CubesFault::Schema {
            cube: cube.decl.name.copy()?,
            fault,
        })),
        Err(CallError::NoMemory) => Err(CallError::NoMemory),
    }
}

fn check_cubes(alloc: Global, cubes: &[Begun]) -> Result<Vec<Schema>, CallError<CubesFault>>
    ensures stored { IfOk result (λ schemas. schemas.items ≡ begun_decls cubes.now) }
    ensures storable { OnOk result (unstorable_in (begun_decls cubes.now) ≡ None) }
    ensures fault { IfFault result (λ fault.
        unstorable_in (begun_decls cubes.now) ≡ Some fault) }
{
    let mut schemas = Vec::new(alloc);
    'cubes: for cube in cubes {
        schemas.push(check_cube(alloc, cube)?)?;
    }
    Ok(schemas)
}

fn read_text(alloc: Global, text: &[u8]) -> Result<Vec<Schema>, CallError<CubesFault>>
    ensures cubes { IfOk result (λ cubes. outcome text.now ≡ Ok cubes.items) }
    ensures fault { IfFault result (λ fault. outcome text.now ≡ Err fault) }
{
    let cubes = gather_cubes(alloc, text)?;
    if let Some(fault) = repeated_in(alloc, cubes.as_slice())? {
        return Err(CallError::Fault(fault));
    }
    if let Some(fault) = excess_in(cubes.as_slice()) {
        return Err(CallError::Fault(fault));
    }
    check_cubes(alloc, cubes.as_slice())
}

/// The cubes that a text declares, or its fault. The time taken is that of a sort of the names.
pub fn read_cubes(alloc: Global, bytes: &[u8]) -> Result<Vec<Schema>, CallError<CubesFault>>
    ensures declared { IfOk result (λ cubes. Declares bytes.now cubes.items) }
    ensures fault { IfFault result (λ fault. HasCubesFault bytes.now fault) }
{
    match str::from_utf8(bytes) {
        Ok(text) => read_text(alloc, text.as_bytes()),
        Err(error) => Err(CallError::Fault(CubesFault::NotUtf8 {
            at: error.valid_up_to() as u64,
        })),
    }
}
