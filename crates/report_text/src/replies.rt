//! Replies to statements, after the numbers of session and statement.

ghost use Rattle.std.specs.Prelude.{◌≡◌, ◌++◌, codes, decimal, length, IfOk, OnOk};
ghost use Rattle.std.specs.List.{flat_map};
ghost use Rattle.cube_journal.specs.JournalLines.{counters_text, epochs_text};
ghost use Rattle.cube_journal.specs.Refusals.{refusal_text};
ghost use Rattle.cube_journal.specs.Replies.{at_epoch, numbered, rejection_text, reply_text, table_text};
ghost use Rattle.cube_journal.specs.WholeText.{head_text};

use crate::entries::{put_counters, put_epochs};
use crate::refusals::{put_bad_row, put_refusal};
use crate::tables::put_table;
use cube_journal::{Counters, Refusal, Rejection, Reply};
use cube_language::put_u64;
use cube_values::Table;
use std::alloc::{AllocError, Global};

/// Appends words and an epoch, on a line.
fn put_at_epoch(out: &mut Vec<u8>, words: &[u8], epoch: u64) -> Result<(), AllocError>
    ensures { OnOk result (out.new.items ≡ out.old.items ++ at_epoch words.now epoch) }
{
    out.extend_from_slice(words)?;
    out.push(b' ')?;
    put_u64(out, epoch)?;
    out.push(b'\n')?;
    Ok(())
}

/// Appends an answer: a word, which ends in a space, how many lines, the epoch, and the lines.
fn put_answer(out: &mut Vec<u8>, word: &[u8], epoch: u64, table: &Table) -> Result<(), AllocError>
    ensures { OnOk result (out.new.items ≡ out.old.items
        ++ (word.now ++ (decimal (length table.now)
        ++ (at_epoch (codes " epoch") epoch ++ table_text table.now)))) }
{
    out.extend_from_slice(word)?;
    put_u64(out, table.len() as u64)?;
    put_at_epoch(out, b" epoch", epoch)?;
    put_table(out, table.as_slice())
}

/// Appends how many rows were stored.
fn put_stored(out: &mut Vec<u8>, rows: u64, epoch: u64) -> Result<(), AllocError>
    ensures { OnOk result (out.new.items ≡ out.old.items
        ++ (codes "stored " ++ (decimal rows ++ at_epoch (codes " epoch") epoch))) }
{
    out.extend_from_slice(b"stored ")?;
    put_u64(out, rows)?;
    put_at_epoch(out, b" epoch", epoch)
}

/// Appends a record of a file that was not stored, on a line.
fn put_rejection(out: &mut Vec<u8>, rejection: &Rejection) -> Result<(), AllocError>
    ensures { OnOk result (out.new.items ≡ out.old.items ++ rejection_text rejection.now) }
{
    out.extend_from_slice(b"reject ")?;
    put_u64(out, rejection.number)?;
    out.push(b' ')?;
    put_bad_row(out, &rejection.why)?;
    out.push(b'\n')?;
    Ok(())
}

/// Appends records of a file that were not stored, each on a line.
fn put_rejections(out: &mut Vec<u8>, list: &[Rejection]) -> Result<(), AllocError>
    ensures { OnOk result (out.new.items ≡ out.old.items ++ flat_map rejection_text list.now) }
{
    'list: for rejection in list {
        put_rejection(out, rejection)?;
    }
    Ok(())
}

/// Appends how many records of a file were stored, how many were not, and those of the list.
fn put_loaded(
    out: &mut Vec<u8>,
    rows: u64,
    rejected: u64,
    list: &[Rejection],
    epoch: u64,
) -> Result<(), AllocError>
    ensures { OnOk result (out.new.items ≡ out.old.items
        ++ (codes "stored " ++ (decimal rows ++ (codes " rejected " ++ (decimal rejected
        ++ (at_epoch (codes " epoch") epoch ++ flat_map rejection_text list.now)))))) }
{
    out.extend_from_slice(b"stored ")?;
    put_u64(out, rows)?;
    out.extend_from_slice(b" rejected ")?;
    put_u64(out, rejected)?;
    put_at_epoch(out, b" epoch", epoch)?;
    put_rejections(out, list)
}

/// Appends the counters, with the epochs that are pending.
fn put_shown(out: &mut Vec<u8>, counters: &Counters) -> Result<(), AllocError>
    ensures { OnOk result (out.new.items ≡ out.old.items
        ++ (codes "epochs " ++ (counters_text counters.now
        ++ (codes " pending " ++ (epochs_text counters.now.pending ++ codes "\n"))))) }
{
    out.extend_from_slice(b"epochs ")?;
    put_counters(out, counters)?;
    out.extend_from_slice(b" pending ")?;
    put_epochs(out, &counters.pending)?;
    out.push(b'\n')?;
    Ok(())
}

/// Appends why a statement was not done.
fn put_refused(out: &mut Vec<u8>, refusal: &Refusal) -> Result<(), AllocError>
    ensures { OnOk result (out.new.items ≡ out.old.items
        ++ (codes "refused " ++ (refusal_text refusal.now ++ codes "\n"))) }
{
    out.extend_from_slice(b"refused ")?;
    put_refusal(out, refusal)?;
    out.push(b'\n')?;
    Ok(())
}

/// Appends what a reply says. All rejections of its list are written.
pub fn put_reply(out: &mut Vec<u8>, reply: &Reply) -> Result<(), AllocError>
    ensures { OnOk result (out.new.items ≡ out.old.items ++ reply_text reply.now) }
{
    match reply {
        Reply::Rows { epoch, table } => put_answer(out, b"rows ", *epoch, table),
        Reply::Stored { rows, epoch } => put_stored(out, *rows, *epoch),
        Reply::Loaded {
            rows,
            rejected,
            list,
            epoch,
        } => { put_loaded(out, *rows, *rejected, list.as_slice(), *epoch) }
        Reply::Dropped { epoch } => put_at_epoch(out, b"dropped epoch", *epoch),
        Reply::Begun { epoch } => put_at_epoch(out, b"begun", *epoch),
        Reply::Committed { epoch } => put_at_epoch(out, b"committed", *epoch),
        Reply::RolledBack { epoch } => put_at_epoch(out, b"rolled back", *epoch),
        Reply::Flushed { epoch } => put_at_epoch(out, b"flushed", *epoch),
        Reply::Purged { epoch } => put_at_epoch(out, b"purged", *epoch),
        Reply::Epochs { counters } => put_shown(out, counters),
        Reply::Created { epoch } => put_at_epoch(out, b"created epoch", *epoch),
        Reply::Watching { epoch, table } => put_answer(out, b"watching ", *epoch, table),
        Reply::Refused { refusal } => put_refused(out, refusal),
    }
}

/// Appends the head of a session's part.
pub fn put_head(out: &mut Vec<u8>, session: u32) -> Result<(), AllocError>
    ensures { OnOk result (out.new.items ≡ out.old.items ++ head_text session) }
{
    out.extend_from_slice(b"session ")?;
    put_u64(out, u64::from(session))?;
    out.push(b'\n')?;
    Ok(())
}

/// Appends the reply to a statement of a session, after both numbers.
pub fn put_numbered(
    out: &mut Vec<u8>,
    session: u32,
    statement: u32,
    reply: &Reply,
) -> Result<(), AllocError>
    ensures { OnOk result (out.new.items ≡ out.old.items ++ numbered session statement reply.now) }
{
    put_u64(out, u64::from(session))?;
    out.push(b'.')?;
    put_u64(out, u64::from(statement))?;
    out.push(b' ')?;
    put_reply(out, reply)
}

/// The reply to a statement of a session, after both numbers, as `put_numbered` appends it.
pub fn reply_bytes(
    alloc: Global,
    session: u32,
    statement: u32,
    reply: &Reply,
) -> Result<Vec<u8>, AllocError>
    ensures { IfOk result (λ text. text.items ≡ numbered session statement reply.now) }
{
    let mut out = Vec::new(alloc);
    put_numbered(&mut out, session, statement, reply)?;
    Ok(out)
}
