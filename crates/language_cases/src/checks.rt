//! Statements on their cubes, with the first test that each fails.

mod statements;

use crate::tables::first_other;
use cube_schema::read_cubes;
use cube_values::CallError;
use sql_tree::parse;
use statement_check::check_statement;
use statements::{NUMBERS, VISITS, WIDE};
use std::alloc::{AllocError, Global};

/// The text of the test that a statement fails, which is empty where it fails none.
fn misfit_text(alloc: Global, cube: &str, text: &str) -> Result<String, AllocError> {
    let Ok(cubes) = read_cubes(alloc, cube.as_bytes()) else {
        return String::from_str(alloc, "no cube");
    };
    let [first, ..] = cubes.as_slice() else {
        return String::from_str(alloc, "no cube");
    };
    let Ok(statement) = parse(alloc, text) else {
        return String::from_str(alloc, "no statement");
    };
    match check_statement(first, &statement) {
        Ok(()) => Ok(String::new(alloc)),
        Err(CallError::Fault(misfit)) => format!(in alloc; "{misfit}"),
        Err(CallError::NoMemory) => Err(AllocError),
    }
}

fn misfit_of_visits(alloc: Global, text: &str) -> Result<String, AllocError> {
    misfit_text(
        alloc,
        "cube visits\ndim region text 4 2\ndim gender text 4 1\nmetric likes\nmetric comments\n",
        text,
    )
}

fn misfit_of_numbers(alloc: Global, text: &str) -> Result<String, AllocError> {
    misfit_text(alloc, "cube t\ndim x int 5 2\nmetric m\n", text)
}

fn misfit_of_many_coordinates(alloc: Global, text: &str) -> Result<String, AllocError> {
    misfit_text(
        alloc,
        "cube w\ndim a int 4294967295 65536\ndim b int 10 5\nmetric m\n",
        text,
    )
}

#[test]
fn statements_on_texts(rt: HostRuntime) {
    assert_eq!(rt; first_other(rt.alloc(), VISITS, misfit_of_visits), Ok(None));
}

#[test]
fn statements_on_numbers(rt: HostRuntime) {
    assert_eq!(rt;
        first_other(rt.alloc(), NUMBERS, misfit_of_numbers),
        Ok(None)
    );
}

#[test]
fn statements_on_many_coordinates(rt: HostRuntime) {
    assert_eq!(rt;
        first_other(rt.alloc(), WIDE, misfit_of_many_coordinates),
        Ok(None)
    );
}
