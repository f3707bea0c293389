//! Texts that are read, and texts that are not.

mod faults;
mod texts;

use crate::tables::{first_other, first_other_bytes};
use cube_language::{CubesFault, Decl, DimDecl};
use cube_schema::{Schema, check, copy_cubes, print_cubes, read_cubes};
use cube_values::{CallError, Sequence, Text};
use faults::{
    CUBES, DECLARATIONS, FORMS, MANY_COLUMNS, MANY_CUBES, NAMES, NO_TEXTS, TWO_FAULTS, WORDS,
};
use std::alloc::{AllocError, Global};
use texts::DECLARING;

/// The text of the fault of a text, which is empty where there is none.
fn fault_text(alloc: Global, text: &[u8]) -> Result<String, AllocError> {
    match read_cubes(alloc, text) {
        Ok(_) => Ok(String::new(alloc)),
        Err(CallError::Fault(fault)) => format!(in alloc; "{fault}"),
        Err(CallError::NoMemory) => Err(AllocError),
    }
}

/// The canonical text of the cubes that a text declares.
fn printed(alloc: Global, text: &[u8]) -> Result<Vec<u8>, CallError<CubesFault>> {
    let cubes = read_cubes(alloc, text)?;
    Ok(print_cubes(alloc, cubes.as_slice())?)
}

/// The canonical text of the cubes that a text declares, which declares the same.
fn printed_shown(alloc: Global, text: &[u8]) -> Result<String, AllocError> {
    let Ok(found) = printed(alloc, text) else {
        return String::from_str(alloc, "no cubes");
    };
    let Ok(again) = printed(alloc, found.as_slice()) else {
        return String::from_str(alloc, "no cubes in its canonical text");
    };
    if found.as_slice() != again.as_slice() {
        return String::from_str(alloc, "another canonical text of its own");
    }
    String::from_utf8_lossy(alloc, found.as_slice())
}

#[test]
fn declaring(rt: HostRuntime) {
    assert_eq!(rt;
        first_other_bytes(rt.alloc(), DECLARING, printed_shown),
        Ok(None)
    );
}

#[test]
fn forms(rt: HostRuntime) {
    assert_eq!(rt; first_other_bytes(rt.alloc(), FORMS, fault_text), Ok(None));
}

#[test]
fn words(rt: HostRuntime) {
    assert_eq!(rt; first_other_bytes(rt.alloc(), WORDS, fault_text), Ok(None));
}

#[test]
fn cubes(rt: HostRuntime) {
    assert_eq!(rt; first_other_bytes(rt.alloc(), CUBES, fault_text), Ok(None));
}

#[test]
fn declarations(rt: HostRuntime) {
    assert_eq!(rt;
        first_other_bytes(rt.alloc(), DECLARATIONS, fault_text),
        Ok(None)
    );
}

#[test]
fn two_faults(rt: HostRuntime) {
    assert_eq!(rt;
        first_other_bytes(rt.alloc(), TWO_FAULTS, fault_text),
        Ok(None)
    );
}

#[test]
fn no_text(rt: HostRuntime) {
    assert_eq!(rt;
        first_other_bytes(rt.alloc(), NO_TEXTS, fault_text),
        Ok(None)
    );
}

#[test]
fn many_columns(rt: HostRuntime) {
    assert_eq!(rt;
        first_other_bytes(rt.alloc(), MANY_COLUMNS, fault_text),
        Ok(None)
    );
}

#[test]
fn many_cubes(rt: HostRuntime) {
    assert_eq!(rt;
        first_other_bytes(rt.alloc(), MANY_CUBES, fault_text),
        Ok(None)
    );
}

#[test]
fn long_names_and_many(rt: HostRuntime) {
    assert_eq!(rt; first_other_bytes(rt.alloc(), NAMES, fault_text), Ok(None));
}

/// Two cubes.
const TWO: &str = "cube t\ndim x int 5 2\ndim y text 9 3\nmetric m\ncube u\nmetric n\nmetric o\n";

/// Whether a cube and a copy of it are the same.
fn is_copy(cube: &Schema, copy: &Schema) -> bool {
    copy.decl() == cube.decl() && copy.cube_shape() == cube.cube_shape()
}

/// Whether the two cubes are as they were declared.
fn are_the_two(first: &Schema, second: &Schema) -> bool {
    match first.cube_shape().shape.sizes.as_slice() {
        [_, y] => y.cardinality == 9 && y.range == 3 && second.cube_shape().metrics == 2,
        _ => false,
    }
}

fn two_are_copied(alloc: Global) -> Result<bool, AllocError> {
    let Ok(cubes) = read_cubes(alloc, TWO.as_bytes()) else {
        return Ok(false);
    };
    let copied = copy_cubes(alloc, cubes.as_slice())?;
    match (cubes.as_slice(), copied.as_slice()) {
        ([a, b], [t, u]) => Ok(is_copy(a, t) && is_copy(b, u) && are_the_two(t, u)),
        _ => Ok(false),
    }
}

#[test]
fn copies_are_the_same(rt: HostRuntime) {
    assert!(rt; two_are_copied(rt.alloc()) == Ok(true));
}

/// A cube with a dimension of texts and a metric of this name.
fn sales(alloc: Global, metric: &str) -> Result<Decl, AllocError> {
    let mut dims = Sequence::new(alloc);
    dims.push(DimDecl {
        name: Text::new(alloc, "country")?,
        text: true,
        cardinality: 200,
        range: 30,
    })?;
    let mut metrics = Sequence::new(alloc);
    metrics.push(Text::new(alloc, metric)?)?;
    Ok(Decl {
        name: Text::new(alloc, "sales")?,
        dims,
        metrics,
    })
}

/// Whether the cube that a declaration is checked into is that declaration.
fn is_kept(schema: &Schema, decl: &Decl) -> bool {
    let cube = schema.cube_shape();
    *schema.decl() == *decl && cube.shape == *schema.shape() && cube.metrics == 1
}

/// What is said of a cube of sales with a metric of this name.
fn check_shown(alloc: Global, metric: &str) -> Result<String, AllocError> {
    let decl = sales(alloc, metric)?;
    match check(alloc, &decl) {
        Ok(schema) => {
            let word = if is_kept(&schema, &decl) {
                "kept"
            } else {
                "changed"
            };
            String::from_str(alloc, word)
        }
        Err(CallError::Fault(fault)) => format!(in alloc; "{fault}"),
        Err(CallError::NoMemory) => Err(AllocError),
    }
}

const CHECKED: &str = r"
tax|kept|
country|DuplicateName country|
";

#[test]
fn checked_declarations(rt: HostRuntime) {
    assert_eq!(rt; first_other(rt.alloc(), CHECKED, check_shown), Ok(None));
}
