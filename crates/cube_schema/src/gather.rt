//! The cubes that the lines of a text begin, with their columns.

ghost use Rattle.std.specs.Prelude.{◌≡◌, ◌++◌, Ok, Err, Some, OnOk, IfOk};
ghost use Rattle.std.specs.Option.{option_to_list};
ghost use Rattle.cube_values.specs.Faults.{IfFault};
ghost use Rattle.cube_schema.specs.Forms.{said_by};
ghost use Rattle.cube_schema.specs.Gathering.{begun_at, progress_at, gathered};
ghost use Rattle.cube_schema.specs.Reading.{line_form};

use crate::line::{Form, form_of};
use crate::words::without_return;
use cube_language::{CubesFault, Decl, DimDecls, Names};
use cube_values::{CallError, Text};
use std::alloc::{AllocError, Global};

/// A cube that a line began, with the columns of the lines behind it so far.
#[derive(Debug, Drop)]
pub(crate) struct Begun {
    /// The number of the line that began it, from 1.
    pub(crate) line: u64,
    pub(crate) decl: Decl,
}

/// What a line does: the cube that it completes, and the cube that it leaves to be read on.
#[derive(Debug, Drop)]
pub(crate) struct Progress {
    pub(crate) completed: Option<Begun>,
    pub(crate) current: Option<Begun>,
}

fn begun_at(alloc: Global, line: u64, name: Text) -> Begun
    ensures { result ≡ begun_at line name }
{
    Begun {
        line,
        decl: Decl {
            name,
            dims: DimDecls::new(alloc),
            metrics: Names::new(alloc),
        },
    }
}

/// What a form does behind the lines before it, or None where it may not stand there.
fn progress_at(
    alloc: Global,
    current: Option<Begun>,
    number: u64,
    form: Form,
) -> Result<Option<Progress>, AllocError>
    ensures { IfOk result (λ next. next ≡ progress_at current number (Some (said_by form))) }
{
    match form {
        Form::Skipped => Ok(Some(Progress {
            completed: None,
            current,
        })),
        Form::Cube(name) => Ok(Some(Progress {
            completed: current,
            current: Some(begun_at(alloc, number, name)),
        })),
        Form::Dim(dim) => {
            let Some(mut cube) = current else {
                return Ok(None);
            };
            cube.decl.dims.push(dim)?;
            Ok(Some(Progress {
                completed: None,
                current: Some(cube),
            }))
        }
        Form::Metric(name) => {
            let Some(mut cube) = current else {
                return Ok(None);
            };
            cube.decl.metrics.push(name)?;
            Ok(Some(Progress {
                completed: None,
                current: Some(cube),
            }))
        }
    }
}

fn line_progress(
    alloc: Global,
    current: Option<Begun>,
    number: u64,
    line: &[u8],
) -> Result<Option<Progress>, AllocError>
    ensures { IfOk result (λ next. next ≡ progress_at current number (line_form line.now)) }
{
    match form_of(alloc, without_return(line))? {
        Some(form) => progress_at(alloc, current, number, form),
        None => Ok(None),
    }
}

fn push_some(cubes: &mut Vec<Begun>, cube: Option<Begun>) -> Result<(), AllocError>
    ensures { OnOk result (cubes.new.items ≡ cubes.old.items ++ option_to_list cube) }
{
    if let Some(cube) = cube {
        cubes.push(cube)?;
    }
    Ok(())
}

/// The cubes of a text, each with the number of its line, or the first bad line.
pub(crate) fn gather_cubes(alloc: Global, text: &[u8]) -> Result<Vec<Begun>, CallError<CubesFault>>
    ensures cubes { IfOk result (λ cubes. gathered text.now ≡ Ok cubes.items) }
    ensures fault { IfFault result (λ fault. gathered text.now ≡ Err fault) }
{
    let mut cubes = Vec::new(alloc);
    let mut current = None;
    let mut number = 0u64;
    'lines: for line in text.split(|byte| *byte == b'\n') {
        number += 1;
        let Some(next) = line_progress(alloc, current, number, line)? else {
            return Err(CallError::Fault(CubesFault::BadLine { line: number }));
        };
        push_some(&mut cubes, next.completed)?;
        current = next.current;
    }
    push_some(&mut cubes, current)?;
    Ok(cubes)
}
