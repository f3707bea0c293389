//! Journals for the tests, as texts in the words in which a journal is written.

use cube_journal::{AbortCause, JournalEntry, LostCause};
use cube_values::EpochList;
use std::alloc::{AllocError, Global};

/// An entry of a journal as it is written, and by how much its last number is to be raised, where it has one.
#[derive(Clone, Copy)]
pub struct Line<'a> {
    pub text: &'a str,
    pub raise: u64,
}

/// Appends the lines of a text, which a mark parts. An empty text has none.
pub fn append_lines<'a>(
    lines: &mut Vec<Line<'a>>,
    text: &'a str,
    mark: &str,
) -> Result<(), AllocError> {
    if text.is_empty() {
        return Ok(());
    }
    for text in text.split(mark) {
        lines.push(Line { text, raise: 0 })?;
    }
    Ok(())
}

/// The lines of a text, which a mark parts.
pub fn lines_in<'a>(alloc: Global, text: &'a str, mark: &str) -> Result<Vec<Line<'a>>, AllocError> {
    let mut lines = Vec::new(alloc);
    append_lines(&mut lines, text, mark)?;
    Ok(lines)
}

// A text up to a mark, and the rest behind it.
fn cut<'a>(text: &'a str, mark: char) -> (&'a str, &'a str) {
    match text.split_once(mark) {
        Some((front, behind)) => (front, behind),
        None => (text, ""),
    }
}

/// The entry of a line.
pub fn entry(line: Line) -> Option<JournalEntry> {
    let (kind, rest) = line.text.split_once(' ')?;
    match rest.split_once('.') {
        Some((session, rest)) => of_session(kind, session.parse::<u32>().ok()?, rest, line.raise),
        None => of_flusher(kind, rest, line.raise),
    }
}

// An entry of a session, with its statement and what stands behind it.
fn of_session(kind: &str, session: u32, rest: &str, raise: u64) -> Option<JournalEntry> {
    let (statement, rest) = cut(rest, ' ');
    let statement = statement.parse::<u32>().ok()?;
    if rest.is_empty() {
        return without_number(kind, session, statement);
    }
    // The word before the number says what it counts.
    let (_, rest) = rest.split_once(' ')?;
    let (number, rest) = cut(rest, ' ');
    let number = number.parse::<u64>().ok()?.saturating_add(raise);
    match kind {
        "begin" => Some(JournalEntry::Begin {
            session,
            statement,
            epoch: number,
            deps: deps_in(rest)?,
        }),
        "refused" => Some(JournalEntry::Refused {
            session,
            statement,
            code: u32::try_from(number).ok()?,
        }),
        _ => with_epoch(kind, session, statement, number),
    }
}

fn without_number(kind: &str, session: u32, statement: u32) -> Option<JournalEntry> {
    match kind {
        "readend" => Some(JournalEntry::ReadEnd { session, statement }),
        "cleared" => Some(JournalEntry::Cleared { session, statement }),
        "show" => Some(JournalEntry::Show { session, statement }),
        "flushed" => Some(JournalEntry::Flushed { session, statement }),
        _ => None,
    }
}

fn with_epoch(kind: &str, session: u32, statement: u32, epoch: u64) -> Option<JournalEntry> {
    match kind {
        "read" => Some(JournalEntry::Read {
            session,
            statement,
            epoch,
        }),
        "committed" => Some(JournalEntry::Committed {
            session,
            statement,
            epoch,
        }),
        "aborted" => Some(JournalEntry::Aborted {
            session,
            statement,
            epoch,
            cause: AbortCause::ReadFault,
        }),
        "purged" => Some(JournalEntry::Purged {
            session,
            statement,
            epoch,
        }),
        "cube" => Some(JournalEntry::Cube {
            session,
            statement,
            epoch,
        }),
        _ => None,
    }
}

fn of_flusher(kind: &str, rest: &str, raise: u64) -> Option<JournalEntry> {
    let (number, cause) = cut(rest, ' ');
    let epoch = number.parse::<u64>().ok()?.saturating_add(raise);
    match kind {
        "round" => Some(JournalEntry::Round { epoch }),
        "idle" => Some(JournalEntry::Idle { epoch }),
        "safe" => Some(JournalEntry::Safe { epoch }),
        "lost" => Some(JournalEntry::RoundLost {
            epoch,
            cause: lost_cause(cause)?,
        }),
        _ => None,
    }
}

fn lost_cause(cause: &str) -> Option<LostCause> {
    match cause {
        "disk" => Some(LostCause::Disk),
        "memory" => Some(LostCause::Memory),
        _ => None,
    }
}

// The epochs in brackets, with a comma between two.
fn deps_in(text: &str) -> Option<EpochList> {
    let (_, rest) = text.split_once('[')?;
    let (list, _) = rest.split_once(']')?;
    if list.is_empty() {
        return Some(EpochList::new());
    }
    epochs_in(list)
}

// Appends the epoch of a word, and says whether it is one for which there is room.
fn push_epoch(epochs: &mut EpochList, word: &str) -> bool {
    match word.parse::<u64>() {
        Ok(epoch) if epochs.as_slice().len() < EpochList::MOST => {
            epochs.push(epoch);
            true
        }
        _ => false,
    }
}

fn epochs_in(list: &str) -> Option<EpochList> {
    let mut epochs = EpochList::new();
    let mut all_are_read = true;
    for word in list.split(',') {
        all_are_read = push_epoch(&mut epochs, word) && all_are_read;
    }
    if all_are_read { Some(epochs) } else { None }
}
