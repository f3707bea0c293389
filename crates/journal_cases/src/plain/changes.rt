//! Changes of a journal in one place, and the verdicts on what they make.

use super::journals::{Line, entry};
use cube_journal::JournalEntry;
use cube_values::Text;
use plain_journal::is_legal;
use std::alloc::{AllocError, Global};

/// How a journal is changed at a place.
#[derive(Clone, Copy)]
enum Change {
    /// The entry is left out.
    LeftOut,
    /// The entry stands twice.
    Doubled,
    /// The entry and the next one change places.
    Swapped,
    /// Its last number is one more.
    Raised,
}

/// The lines with the next one put before the line at a place.
fn swapped<'a>(
    alloc: Global,
    lines: &[Line<'a>],
    place: usize,
) -> Result<Vec<Line<'a>>, AllocError> {
    let mut out = Vec::new(alloc);
    let mut held: Option<Line<'a>> = None;
    for (i, line) in lines.iter().enumerate() {
        if i == place {
            held = Some(*line);
            continue;
        }
        out.push(*line)?;
        if let Some(line) = held {
            out.push(line)?;
            held = None;
        }
    }
    Ok(out)
}

/// The lines with a change at a place.
fn changed<'a>(
    alloc: Global,
    lines: &[Line<'a>],
    place: usize,
    change: Change,
) -> Result<Vec<Line<'a>>, AllocError> {
    if matches!(change, Change::Swapped) {
        return swapped(alloc, lines, place);
    }
    let mut out = Vec::new(alloc);
    for (i, line) in lines.iter().enumerate() {
        if i != place {
            out.push(*line)?;
            continue;
        }
        match change {
            Change::Doubled => {
                out.push(*line)?;
                out.push(*line)?;
            }
            Change::Raised => out.push(Line {
                text: line.text,
                raise: line.raise.saturating_add(1),
            })?,
            _ => {}
        }
    }
    Ok(out)
}

/// The entries of lines. A line of no entry is the error.
pub fn entries(alloc: Global, lines: &[Line]) -> Result<Vec<JournalEntry>, AllocError> {
    let mut journal = Vec::new(alloc);
    for line in lines {
        journal.push(entry(*line).ok_or(AllocError)?)?;
    }
    Ok(journal)
}

// Names with a blank between two.
fn names_in(alloc: Global, text: &str) -> Result<Vec<Text>, AllocError> {
    let mut names = Vec::new(alloc);
    for name in text.split(' ') {
        names.push(Text::new(alloc, name)?)?;
    }
    Ok(names)
}

fn repeated(alloc: Global, name: &str, count: usize) -> Result<Vec<Text>, AllocError> {
    let mut names = Vec::new(alloc);
    for _ in 0..count {
        names.push(Text::new(alloc, name)?)?;
    }
    Ok(names)
}

/// How a run begins: with a safe epoch and with cubes of these names, with a blank between two. All its statements
/// speak of the cube of one name.
#[derive(Clone, Copy)]
pub struct Opening<'a> {
    pub safe: u32,
    pub cubes: &'a str,
    pub name: &'a str,
}

/// Whether the lines are a legal journal of a run that began so.
pub fn is_legal_run(alloc: Global, opening: Opening, lines: &[Line]) -> Result<bool, AllocError> {
    let journal = entries(alloc, lines)?;
    let names = repeated(alloc, opening.name, lines.len())?;
    let cubes = names_in(alloc, opening.cubes)?;
    is_legal(
        alloc,
        u64::from(opening.safe),
        cubes.as_slice(),
        names.as_slice(),
        journal.as_slice(),
    )
}

// Whether the journal is legal that a change at a place makes.
fn is_legal_changed(
    alloc: Global,
    opening: Opening,
    lines: &[Line],
    change: Change,
    place: usize,
) -> Result<bool, AllocError> {
    let lines = changed(alloc, lines, place, change)?;
    is_legal_run(alloc, opening, lines.as_slice())
}

// Appends a line that says for each of the first places whether the journal changed there is legal: L, or else a dot.
fn append_verdicts(
    alloc: Global,
    out: &mut String,
    opening: Opening,
    lines: &[Line],
    change: Change,
    places: usize,
) -> Result<(), AllocError> {
    for place in 0..places {
        let legal = is_legal_changed(alloc, opening, lines, change, place)?;
        out.push_str(if legal { "L" } else { "." })?;
    }
    out.push_str("\n")
}

/// The verdicts on the journal with an entry left out, doubled, swapped with the next or with its number raised: a line
/// for each of these changes, with L for each place where it leaves the journal legal, and else a dot.
pub fn verdicts(alloc: Global, opening: Opening, lines: &[Line]) -> Result<String, AllocError> {
    let places = lines.len();
    let mut out = String::new(alloc);
    append_verdicts(alloc, &mut out, opening, lines, Change::LeftOut, places)?;
    append_verdicts(alloc, &mut out, opening, lines, Change::Doubled, places)?;
    append_verdicts(
        alloc,
        &mut out,
        opening,
        lines,
        Change::Swapped,
        places.saturating_sub(1),
    )?;
    append_verdicts(alloc, &mut out, opening, lines, Change::Raised, places)?;
    Ok(out)
}
