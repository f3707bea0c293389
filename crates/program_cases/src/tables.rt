//! Tables of runs, and the first run of a table that does not end as it should.
//!
//! A row is some lines: behind a `#` what it shows, the words, a script on each line, behind `==` the status with the text of
//! the fault, and the text that is written. A line `..` stands for lines that may be others. A row that begins with `then` goes
//! on with the files that the row before it left.

use crate::runs::{Given, Outcome, run_held};
use crate::stores::{Files, files_left, files_named, given_files};
use outside_disk::{Gate, NoGate};
use std::alloc::{AllocError, Global};
use std::sync::Wait;
use std::thread::Threads;

/// A run of a table.
#[derive(Clone, Copy)]
pub(crate) struct Row<'a> {
    shows: &'a str,
    words: &'a str,
    scripts: &'a str,
    ends: &'a str,
    text: &'a str,
}

// A text up to a mark, and the rest behind it.
fn cut<'a>(text: &'a str, mark: &str) -> (&'a str, &'a str) {
    match text.split_once(mark) {
        Some((front, behind)) => (front, behind),
        None => (text, ""),
    }
}

// The run that some lines tell.
fn row_in(lines: &str) -> Option<Row> {
    let (asked, wanted) = lines.split_once("\n== ")?;
    let (shows, asked) = asked.split_once('\n')?;
    let (words, scripts) = cut(asked, "\n");
    let (ends, text) = cut(wanted.trim(), "\n");
    Some(Row {
        shows,
        words,
        scripts,
        ends,
        text,
    })
}

// Whether a text has the parts that are wanted in their order, with nothing before the first one and behind the last. A mark
// parts them.
fn is_as_wanted(text: &str, wanted: &str, mark: &str) -> bool {
    let (front, parts) = cut(wanted, mark);
    if !text.starts_with(front) {
        return false;
    }
    let mut at = front.len();
    if !parts.is_empty() {
        for part in parts.split(mark) {
            let Some(left) = text.get(at..) else {
                return false;
            };
            let Some(place) = left.find(part) else {
                return false;
            };
            at = at.saturating_add(place).saturating_add(part.len());
        }
    }
    at == text.len()
}

// What a run did that did not end as its row says. None: it did.
fn difference(alloc: Global, row: Row, left: &Outcome) -> Result<Option<String>, AllocError> {
    let ends = left.ends.as_str();
    let text = String::from_utf8_lossy(alloc, left.text.as_slice())?;
    if ends == row.ends && is_as_wanted(text.trim(), row.text, "\n..\n") {
        return Ok(None);
    }
    let Row { shows, words, .. } = row;
    Ok(Some(format!(in alloc; "{shows}\n{words}\n== {ends}\n{text}")?))
}

/// What a run did that did not end as these lines say. None: it did.
pub(crate) fn difference_from(
    alloc: Global,
    lines: &str,
    left: &Outcome,
) -> Result<Option<String>, AllocError> {
    match row_in(lines) {
        Some(row) => difference(alloc, row, left),
        None => Err(AllocError),
    }
}

/// What a run left, and what it did if it did not end as its row says.
#[derive(Drop)]
pub(crate) struct RowEnd {
    pub(crate) wrong: Option<String>,
    pub(crate) left: Outcome,
}

// Tries a row, where these words stand before its own.
fn tried_row<R: Threads + Wait + Sync, G: Gate + Sync>(
    rt: &R,
    alloc: Global,
    row: Row,
    words: &str,
    given: Given,
    gate: &G,
) -> Result<RowEnd, AllocError> {
    let own = row.words;
    let words = format!(in alloc; "{words} {own}")?;
    let given = Given {
        scripts: row.scripts,
        ..given
    };
    let left = run_held(rt, alloc, words.as_str(), given, gate)?;
    Ok(RowEnd {
        wrong: difference(alloc, row, &left)?,
        left,
    })
}

/// Tries the row that some lines tell, with what is given but for its scripts.
pub(crate) fn tried<R: Threads + Wait + Sync, G: Gate + Sync>(
    rt: &R,
    alloc: Global,
    lines: &str,
    given: Given,
    gate: &G,
) -> Result<RowEnd, AllocError> {
    match row_in(lines) {
        Some(row) => tried_row(rt, alloc, row, "", given, gate),
        None => Err(AllocError),
    }
}

/// What the run did that some lines tell, with what is given but for its scripts, if it did not end as they say.
pub(crate) fn wrong_in<R: Threads + Wait + Sync, G: Gate + Sync>(
    rt: &R,
    alloc: Global,
    lines: &str,
    given: Given,
    gate: &G,
) -> Result<Option<String>, AllocError> {
    let RowEnd { wrong, left: _ } = tried(rt, alloc, lines, given, gate)?;
    Ok(wrong)
}

// The name of the store that words give, and nothing where they give none.
fn store_in(words: &str) -> &str {
    let (_, behind) = cut(words, "--store ");
    let (name, _) = cut(behind, " ");
    name
}

// The files with which a row begins.
fn files_before(alloc: Global, row: Row, left: Files) -> Result<Files, AllocError> {
    if row.shows.starts_with("then ") {
        return Ok(left);
    }
    files_named(alloc, store_in(row.words))
}

/// What the first run of a table did that did not end as its row says, where these words stand before its own.
pub(crate) fn first_difference<R: Threads + Wait + Sync>(
    rt: &R,
    alloc: Global,
    table: &str,
    words: &str,
) -> Result<Option<String>, AllocError> {
    let mut left = files_named(alloc, "")?;
    for lines in table.split("\n# ") {
        if lines.is_empty() {
            continue;
        }
        let Some(row) = row_in(lines) else {
            return Ok(Some(String::from_str(alloc, lines)?));
        };
        let files = files_before(alloc, row, left)?;
        let given = given_files(&files);
        let RowEnd {
            wrong,
            left: outcome,
        } = tried_row(rt, alloc, row, words, given, &NoGate)?;
        if wrong.is_some() {
            return Ok(wrong);
        }
        left = files_left(&outcome, &[])?;
    }
    Ok(None)
}
