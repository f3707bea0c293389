//! The lines of a table: a step is read, and what became of it is written.
use core_steps::{NameAdded, Step, StepAnswer};
use std::alloc::{AllocError, Global};

/// What a line asks of a session.
#[derive(Clone, Copy)]
pub(crate) enum Asked<'a> {
    Step(Step),
    Insert(&'a str),
    Find(&'a str),
}

/// A line: the session, what it asks, and what the core says.
#[derive(Clone, Copy)]
pub(crate) struct CaseLine<'a> {
    pub(crate) session: &'a str,
    pub(crate) asked: Asked<'a>,
    pub(crate) said: &'a str,
}

/// The parts of a line, on a cube whose last coordinate this is.
pub(crate) fn line_in(line: &str, last: u32) -> Option<CaseLine> {
    let (front, said) = line.split_once('|')?;
    let (session, words) = front.trim().split_once(' ')?;
    let asked = asked_in(words, last)?;
    Some(CaseLine {
        session,
        asked,
        said: said.trim(),
    })
}

fn asked_in(words: &str, last: u32) -> Option<Asked> {
    match words.split_once(' ') {
        Some(("put", row)) => Some(Asked::Step(put_in(row)?)),
        Some(("insert", name)) => Some(Asked::Insert(name)),
        Some(("find", name)) => Some(Asked::Find(name)),
        Some(_) => None,
        None => Some(Asked::Step(step_in(words, last)?)),
    }
}

// A row is its coordinate and its metric.
fn put_in(row: &str) -> Option<Step> {
    let (coord, metric) = row.split_once(' ')?;
    let coord = coord.parse::<u32>().ok()?;
    let metric = metric.parse::<i64>().ok()?;
    Some(Step::Put { coord, metric })
}

// A step that is one word. Queries and deletions are of the whole cube.
fn step_in(word: &str, last: u32) -> Option<Step> {
    match word {
        "begin" => Some(Step::Begin),
        "commit" => Some(Step::Commit),
        "query" => Some(Step::Query { low: 0, high: last }),
        "delete" => Some(Step::Delete { low: 0, high: last }),
        _ => None,
    }
}

/// What became of a step.
pub(crate) fn step_text(alloc: Global, answer: &StepAnswer) -> Result<String, AllocError> {
    match answer {
        StepAnswer::Begun(writer) => {
            let deps = list_text(alloc, writer.deps.as_slice())?;
            format!(in alloc; "epoch {} deps {deps}", writer.epoch)
        }
        StepAnswer::Written => format!(in alloc; "written"),
        StepAnswer::Stored { epoch } => format!(in alloc; "epoch {epoch}"),
        StepAnswer::Committed { epoch } => format!(in alloc; "epoch {epoch}"),
        StepAnswer::Found { epoch, totals } => {
            let rows = totals.rows;
            match totals.sum {
                Some(sum) => format!(in alloc; "epoch {epoch} rows {rows} sum {sum}"),
                None => format!(in alloc; "epoch {epoch} rows {rows}"),
            }
        }
        _ => format!(in alloc; "other"),
    }
}

// A list of epochs.
fn list_text(alloc: Global, epochs: &[u64]) -> Result<String, AllocError> {
    let mut text = format!(in alloc; "[")?;
    for (k, epoch) in epochs.iter().enumerate() {
        let between = if k == 0 { "" } else { ", " };
        text = format!(in alloc; "{text}{between}{epoch}")?;
    }
    format!(in alloc; "{text}]")
}

/// What became of a name that was inserted.
pub(crate) fn insert_text(alloc: Global, added: NameAdded) -> Result<String, AllocError> {
    match added {
        NameAdded::Stored { epoch } => format!(in alloc; "epoch {epoch}"),
        NameAdded::DictionaryFull => format!(in alloc; "full"),
    }
}

/// What was found of a name.
pub(crate) fn number_text(alloc: Global, number: Option<u32>) -> Result<String, AllocError> {
    match number {
        Some(number) => format!(in alloc; "number {number}"),
        None => format!(in alloc; "none"),
    }
}
