//! The journal, a line for each entry, and the closing line.

ghost use Rattle.std.specs.Prelude.{◌≡◌, ◌++◌, codes, decimal, map, IfOk, OnOk};
ghost use Rattle.std.specs.List.{flat_map, join_with_byte};
ghost use Rattle.cube_journal.specs.JournalLines.{abort_text, comma, counters_text, end_text, entry_text, epoch_text, epochs_text, journal_text, lost_text, statement_text};
ghost use Rattle.report_text.specs.Lines.{entry_line, epochs_after_commas};

use crate::parts::{put_counted, put_two_counted};
use cube_journal::{AbortCause, Counters, JournalEntry, LostCause};
use cube_language::put_u64;
use cube_values::EpochList;
use std::alloc::{AllocError, Global};

/// Appends epochs, each after a comma.
fn put_epochs_after_commas(out: &mut Vec<u8>, epochs: &[u64]) -> Result<(), AllocError>
    ensures { OnOk result (out.new.items ≡ out.old.items ++ epochs_after_commas epochs.now) }
{
    'epochs: for epoch in epochs {
        out.push(b',')?;
        put_u64(out, *epoch)?;
    }
    Ok(())
}

/// Appends epochs with commas between them.
fn put_joined_epochs(out: &mut Vec<u8>, epochs: &[u64]) -> Result<(), AllocError>
    ensures { OnOk result
        (out.new.items ≡ out.old.items ++ join_with_byte comma (map decimal epochs.now)) }
{
    let [first, others @ ..] = epochs else {
        return Ok(());
    };
    put_u64(out, *first)?;
    put_epochs_after_commas(out, others)?;
    Ok(())
}

/// Appends epochs in brackets.
pub(crate) fn put_epochs(out: &mut Vec<u8>, epochs: &EpochList) -> Result<(), AllocError>
    ensures { OnOk result (out.new.items ≡ out.old.items ++ epochs_text epochs.now) }
{
    out.push(b'[')?;
    put_joined_epochs(out, epochs.as_slice())?;
    out.push(b']')?;
    Ok(())
}

/// Appends a word, which ends in a space, a session and a statement of it.
fn put_of_statement(
    out: &mut Vec<u8>,
    word: &[u8],
    session: u32,
    statement: u32,
) -> Result<(), AllocError>
    ensures { OnOk result
        (out.new.items ≡ out.old.items ++ (word.now ++ statement_text session statement)) }
{
    out.extend_from_slice(word)?;
    put_u64(out, u64::from(session))?;
    out.push(b'.')?;
    put_u64(out, u64::from(statement))
}

/// Appends a word, which ends in a space, a session, a statement of it and an epoch.
fn put_of_epoch(
    out: &mut Vec<u8>,
    word: &[u8],
    session: u32,
    statement: u32,
    epoch: u64,
) -> Result<(), AllocError>
    ensures { OnOk result
        (out.new.items ≡ out.old.items ++ (word.now ++ epoch_text session statement epoch)) }
{
    put_of_statement(out, word, session, statement)?;
    out.extend_from_slice(b" epoch ")?;
    put_u64(out, epoch)
}

/// Appends the entry of a writer that opened.
fn put_begin(
    out: &mut Vec<u8>,
    session: u32,
    statement: u32,
    epoch: u64,
    deps: &EpochList,
) -> Result<(), AllocError>
    ensures { OnOk result (out.new.items ≡ out.old.items
        ++ (codes "begin "
        ++ (epoch_text session statement epoch ++ (codes " deps " ++ epochs_text deps.now)))) }
{
    put_of_epoch(out, b"begin ", session, statement, epoch)?;
    out.extend_from_slice(b" deps ")?;
    put_epochs(out, deps)
}

/// Appends why a transaction was aborted.
fn put_abort_cause(out: &mut Vec<u8>, cause: AbortCause) -> Result<(), AllocError>
    ensures { OnOk result (out.new.items ≡ out.old.items ++ abort_text cause) }
{
    match cause {
        AbortCause::Asked => out.extend_from_slice(b"Asked"),
        AbortCause::EndOfScript => out.extend_from_slice(b"EndOfScript"),
        AbortCause::TooManyRejected => out.extend_from_slice(b"TooManyRejected"),
        AbortCause::ReadFault => out.extend_from_slice(b"ReadFault"),
        AbortCause::NoMemory => out.extend_from_slice(b"NoMemory"),
        AbortCause::ShardFull { shard, rows } => {
            put_two_counted(out, b"ShardFull ", u64::from(shard), b" rows ", rows)
        }
    }
}

/// Appends the entry of a writer that was aborted.
fn put_aborted(
    out: &mut Vec<u8>,
    session: u32,
    statement: u32,
    epoch: u64,
    cause: AbortCause,
) -> Result<(), AllocError>
    ensures { OnOk result (out.new.items ≡ out.old.items
        ++ (codes "aborted "
        ++ (epoch_text session statement epoch ++ (codes " " ++ abort_text cause)))) }
{
    put_of_epoch(out, b"aborted ", session, statement, epoch)?;
    out.push(b' ')?;
    put_abort_cause(out, cause)
}

/// Appends the entry of a refusal of this number.
fn put_refused(out: &mut Vec<u8>, session: u32, statement: u32, code: u32) -> Result<(), AllocError>
    ensures { OnOk result (out.new.items ≡ out.old.items
        ++ (codes "refused "
        ++ (statement_text session statement ++ (codes " code " ++ decimal code)))) }
{
    put_of_statement(out, b"refused ", session, statement)?;
    out.extend_from_slice(b" code ")?;
    put_u64(out, u64::from(code))
}

/// Appends why a round was lost.
fn put_lost_cause(out: &mut Vec<u8>, cause: LostCause) -> Result<(), AllocError>
    ensures { OnOk result (out.new.items ≡ out.old.items ++ lost_text cause) }
{
    match cause {
        LostCause::Disk => out.extend_from_slice(b"disk"),
        LostCause::Memory => out.extend_from_slice(b"memory"),
    }
}

/// Appends the entry of a round that was lost.
fn put_lost(out: &mut Vec<u8>, epoch: u64, cause: LostCause) -> Result<(), AllocError>
    ensures { OnOk result (out.new.items
        ≡ out.old.items ++ (codes "lost " ++ (decimal epoch ++ (codes " " ++ lost_text cause)))) }
{
    put_counted(out, b"lost ", epoch)?;
    out.push(b' ')?;
    put_lost_cause(out, cause)
}

/// Appends an entry, without the end of its line.
pub fn put_entry(out: &mut Vec<u8>, entry: &JournalEntry) -> Result<(), AllocError>
    ensures { OnOk result (out.new.items ≡ out.old.items ++ entry_text entry.now) }
{
    match entry {
        JournalEntry::Begin {
            session,
            statement,
            epoch,
            deps,
        } => { put_begin(out, *session, *statement, *epoch, deps) }
        JournalEntry::Read {
            session,
            statement,
            epoch,
        } => { put_of_epoch(out, b"read ", *session, *statement, *epoch) }
        JournalEntry::ReadEnd { session, statement } => {
            put_of_statement(out, b"readend ", *session, *statement)
        }
        JournalEntry::Committed {
            session,
            statement,
            epoch,
        } => { put_of_epoch(out, b"committed ", *session, *statement, *epoch) }
        JournalEntry::Aborted {
            session,
            statement,
            epoch,
            cause,
        } => { put_aborted(out, *session, *statement, *epoch, *cause) }
        JournalEntry::Refused {
            session,
            statement,
            code,
        } => { put_refused(out, *session, *statement, *code) }
        JournalEntry::Cleared { session, statement } => {
            put_of_statement(out, b"cleared ", *session, *statement)
        }
        JournalEntry::Show { session, statement } => {
            put_of_statement(out, b"show ", *session, *statement)
        }
        JournalEntry::Flushed { session, statement } => {
            put_of_statement(out, b"flushed ", *session, *statement)
        }
        JournalEntry::Purged {
            session,
            statement,
            epoch,
        } => { put_of_epoch(out, b"purged ", *session, *statement, *epoch) }
        JournalEntry::Cube {
            session,
            statement,
            epoch,
        } => { put_of_epoch(out, b"cube ", *session, *statement, *epoch) }
        JournalEntry::Round { epoch } => put_counted(out, b"round ", *epoch),
        JournalEntry::Idle { epoch } => put_counted(out, b"idle ", *epoch),
        JournalEntry::Safe { epoch } => put_counted(out, b"safe ", *epoch),
        JournalEntry::RoundLost { epoch, cause } => put_lost(out, *epoch, *cause),
    }
}

/// Appends entries, each on a line.
fn put_lines(out: &mut Vec<u8>, entries: &[JournalEntry]) -> Result<(), AllocError>
    ensures { OnOk result (out.new.items ≡ out.old.items ++ flat_map entry_line entries.now) }
{
    'entries: for entry in entries {
        put_entry(out, entry)?;
        out.push(b'\n')?;
    }
    Ok(())
}

/// Appends how many entries a journal has, and then each on a line.
pub fn put_journal(out: &mut Vec<u8>, journal: &[JournalEntry]) -> Result<(), AllocError>
    ensures { OnOk result (out.new.items ≡ out.old.items ++ journal_text journal.now) }
{
    out.extend_from_slice(b"journal ")?;
    put_u64(out, journal.len() as u64)?;
    out.push(b'\n')?;
    put_lines(out, journal)
}

/// Appends counters, without the epochs that are pending.
pub(crate) fn put_counters(out: &mut Vec<u8>, counters: &Counters) -> Result<(), AllocError>
    ensures { OnOk result (out.new.items ≡ out.old.items ++ counters_text counters.now) }
{
    out.extend_from_slice(b"ec ")?;
    put_u64(out, counters.ec)?;
    out.extend_from_slice(b" lce ")?;
    put_u64(out, counters.lce)?;
    out.extend_from_slice(b" lse ")?;
    put_u64(out, counters.lse)
}

/// Appends the closing line.
pub fn put_end(out: &mut Vec<u8>, counters: &Counters) -> Result<(), AllocError>
    ensures { OnOk result (out.new.items ≡ out.old.items ++ end_text counters.now) }
{
    out.extend_from_slice(b"end ")?;
    put_counters(out, counters)?;
    out.push(b'\n')?;
    Ok(())
}

/// The text of an entry, without the end of its line.
pub fn entry_bytes(alloc: Global, entry: &JournalEntry) -> Result<Vec<u8>, AllocError>
    ensures { IfOk result (λ text. text.items ≡ entry_text entry.now) }
{
    let mut out = Vec::new(alloc);
    put_entry(&mut out, entry)?;
    Ok(out)
}

/// The closing line, for counters of which the pending epochs are not written.
pub fn end_bytes(alloc: Global, counters: &Counters) -> Result<Vec<u8>, AllocError>
    ensures { IfOk result (λ text. text.items ≡ end_text counters.now) }
{
    let mut out = Vec::new(alloc);
    put_end(&mut out, counters)?;
    Ok(out)
}
