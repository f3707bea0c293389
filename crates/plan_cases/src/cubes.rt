//! Three small cubes with their names, and statements on them.

ghost use Rattle.std.specs.Prelude.{IsTrue};
ghost use Rattle.query_plan.specs.Bindings.{AsksRows, DeletesRows, PutsRows};

use cube_language::Statement;
use cube_schema::{Schema, read_cubes};
use cube_values::{NameLists, Text, TextLists, Texts};
use sql_tree::parse;
use std::alloc::Global;
use std::process::Abort;

const CUBES: &str =
    "cube visits\ndim region text 4 2\ndim gender text 4 1\nmetric likes\nmetric comments\n\
    cube t\ndim x int 5 2\nmetric m\n\
    cube c\ndim r text 3 1\ndim x int 5 2\nmetric m\n";

/// The cubes `visits`, `t` and `c`.
pub fn three_cubes(rt: &impl Abort, alloc: Global) -> Vec<Schema> {
    read_cubes(alloc, CUBES.as_bytes()).expect(rt, "three cubes")
}

fn texts_of(rt: &impl Abort, alloc: Global, words: &str) -> Texts {
    let mut made = Vec::new(alloc);
    for word in words.split_whitespace() {
        let text = Text::new(alloc, word).expect(rt, "memory");
        made.push(text).expect(rt, "memory");
    }
    Texts::from_vec(made)
}

// The names of a cube, a list for each dimension with a slash between two.
fn lists_of(rt: &impl Abort, alloc: Global, lists: &str) -> TextLists {
    let mut made = Vec::new(alloc);
    if !lists.is_empty() {
        for words in lists.split('/') {
            made.push(texts_of(rt, alloc, words)).expect(rt, "memory");
        }
    }
    TextLists::from_vec(made)
}

// Of each cube on a line; of `t` there are none.
const NAMES: &str = "CA NY WA/M F\n\na b/";

/// The names of the cubes: of `visits` the regions CA, NY, WA and the genders M and F, of `c` a and b.
pub fn names_of_three(rt: &impl Abort, alloc: Global) -> NameLists {
    let mut names = Vec::new(alloc);
    for lists in NAMES.lines() {
        names.push(lists_of(rt, alloc, lists)).expect(rt, "memory");
    }
    NameLists::from_vec(names)
}

/// The statement of a text.
pub fn statement_of(rt: &impl Abort, alloc: Global, text: &str) -> Statement {
    parse(alloc, text).expect(rt, "a statement")
}

pub fn asks_rows(statement: &Statement) -> bool
    ensures { IsTrue result → AsksRows statement.now }
{
    match statement {
        Statement::Select { .. } => true,
        Statement::Watch { .. } => true,
        _ => false,
    }
}

pub fn deletes_rows(statement: &Statement) -> bool
    ensures { IsTrue result → DeletesRows statement.now }
{
    match statement {
        Statement::Delete { .. } => true,
        _ => false,
    }
}

pub fn puts_rows(statement: &Statement) -> bool
    ensures { IsTrue result → PutsRows statement.now }
{
    match statement {
        Statement::Insert { .. } => true,
        Statement::Load { .. } => true,
        _ => false,
    }
}
