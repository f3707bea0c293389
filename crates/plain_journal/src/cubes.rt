//! Whether the entries of a journal agree with the list of cubes.

ghost use Rattle.std.specs.Prelude.{◌≡◌, ◌↔◌, ◌++◌, ◌∷◌, [], length, map, IsTrue, IfOk};
ghost use Rattle.cube_journal.specs.Legal.{has_cube, MayAddCube, IsFullWithout, RefusalFits, CubesAllow, CubesAllowAll, cubes_after};

use cube_journal::JournalEntry;
use cube_language::MOST_CUBES;
use cube_values::Text;
use std::alloc::{AllocError, Global};

/// Whether each entry, whose statement speaks of the cube of the name in its place, agrees with the cubes
/// before it. The only error is that memory runs out.
pub fn is_legal_by_cubes(
    alloc: Global,
    cubes: &[Text],
    names: &[Text],
    journal: &[JournalEntry],
) -> Result<bool, AllocError>
    ensures { IfOk result (λ legal. IsTrue legal ↔ CubesAllowAll cubes.now names.now journal.now) }
{
    let mut there = copies(alloc, cubes)?;
    let mut names_left = names;
    let mut left = journal;
    'entries: while let [entry, rest @ ..] = left {
        let [name, names_rest @ ..] = names_left else {
            return Ok(false);
        };
        if !cubes_allow(there.as_slice(), name, entry) {
            return Ok(false);
        }
        there = cubes_after(there, name, entry)?;
        names_left = names_rest;
        left = rest;
    }
    Ok(names_left.is_empty())
}

fn copies(alloc: Global, texts: &[Text]) -> Result<Vec<Text>, AllocError>
    ensures { IfOk result (λ copied. copied.items ≡ texts.now) }
{
    let mut copied = Vec::new(alloc);
    for text in texts {
        copied.push(text.copy()?)?;
    }
    Ok(copied)
}

fn has_cube(cubes: &[Text], name: &Text) -> bool
    ensures { result ≡ has_cube cubes.now name.now }
{
    cubes.iter().any(|cube| cube == name)
}

/// Whether the cubes before a place allow the entry there.
fn cubes_allow(cubes: &[Text], name: &Text, entry: &JournalEntry) -> bool
    ensures { IsTrue result ↔ CubesAllow cubes.now name.now entry.now }
{
    match entry {
        JournalEntry::Cube { .. } => may_add_cube(cubes, name),
        JournalEntry::Refused { code, .. } => refusal_fits(cubes, name, *code),
        _ => true,
    }
}

fn may_add_cube(cubes: &[Text], name: &Text) -> bool
    ensures { IsTrue result ↔ MayAddCube cubes.now name.now }
{
    cubes.len() < MOST_CUBES && !has_cube(cubes, name)
}

fn is_full_without(cubes: &[Text], name: &Text) -> bool
    ensures { IsTrue result ↔ IsFullWithout cubes.now name.now }
{
    cubes.len() == MOST_CUBES && !has_cube(cubes, name)
}

fn refusal_fits(cubes: &[Text], name: &Text, code: u32) -> bool
    ensures { IsTrue result ↔ RefusalFits cubes.now name.now code }
{
    (code != 2 || !has_cube(cubes, name))
        && (code != 19 || has_cube(cubes, name))
        && (code != 21 || is_full_without(cubes, name))
}

fn cubes_after(cubes: Vec<Text>, name: &Text, entry: &JournalEntry) -> Result<Vec<Text>, AllocError>
    ensures { IfOk result (λ after. after.items ≡ cubes_after cubes.items name.now entry.now) }
{
    match entry {
        JournalEntry::Cube { .. } => with_cube(cubes, name),
        _ => Ok(cubes),
    }
}

fn with_cube(cubes: Vec<Text>, name: &Text) -> Result<Vec<Text>, AllocError>
    ensures { IfOk result (λ more. more.items ≡ cubes.items ++ name.now ∷ []) }
{
    let mut more = cubes;
    more.push(name.copy()?)?;
    Ok(more)
}
