//! What has happened since a session's previous entry.

ghost use Rattle.std.specs.Prelude.{◌≡◌, ◌↔◌, IsTrue};
ghost use Rattle.std.specs.List.{list_any};
ghost use Rattle.cube_journal.specs.Entries.{is_of_session};
ghost use Rattle.cube_journal.specs.Counters.{lse_after};
ghost use Rattle.cube_journal.specs.Legal.{ends_safe, begins_with_safe_round, WasFlushed, WasSafe};
ghost use Rattle.plain_journal.specs.Places.{flushed_in, safe_in};

use crate::entries::is_of_session;
use crate::state::lse_after;
use cube_journal::JournalEntry;

/// Whether the session has an entry among these.
fn has_entry(session: u32, entries: &[JournalEntry]) -> bool
    ensures { result ≡ list_any (is_of_session session) entries.now }
{
    entries.iter().any(|entry| is_of_session(session, entry))
}

/// Whether the round that is open when these entries begin ends as safe.
fn ends_safe(entries: &[JournalEntry]) -> bool
    ensures { result ≡ ends_safe entries.now }
{
    let mut left = entries;
    'entries: while let [entry, rest @ ..] = left {
        match entry {
            JournalEntry::Safe { .. } => return true,
            JournalEntry::RoundLost { .. } => return false,
            _ => {}
        }
        left = rest;
    }
    false
}

/// Whether these entries begin with an Idle, or with a Round that ends as safe.
fn begins_with_safe_round(entries: &[JournalEntry]) -> bool
    ensures { result ≡ begins_with_safe_round entries.now }
{
    match entries {
        [JournalEntry::Idle { .. }, ..] => true,
        [JournalEntry::Round { .. }, rest @ ..] => ends_safe(rest),
        _ => false,
    }
}

/// Whether a round ended well at a place after which the session has no entry.
fn flushed_in(session: u32, journal: &[JournalEntry]) -> bool
    ensures { result ≡ flushed_in session journal.now }
{
    let mut left = journal;
    'places: while let [_, rest @ ..] = left {
        if begins_with_safe_round(left) && !has_entry(session, left) {
            return true;
        }
        left = rest;
    }
    false
}

/// Whether the epoch was LSE at a place after which the session has no entry.
fn safe_in(safe: u64, session: u32, epoch: u64, journal: &[JournalEntry]) -> bool
    ensures { result ≡ safe_in safe session epoch journal.now }
{
    let mut lse = safe;
    let mut left = journal;
    'places: while let [entry, rest @ ..] = left {
        if lse == epoch && !has_entry(session, left) {
            return true;
        }
        lse = lse_after(lse, entry);
        left = rest;
    }
    lse == epoch
}

/// Whether since the session's previous entry there is an Idle, or a Round and after it its Safe.
#[tactic(auto, using(crate::proofs::LaterPlaces::flushed_in_law))]
pub fn was_flushed(session: u32, journal: &[JournalEntry]) -> bool
    ensures { IsTrue result ↔ WasFlushed session journal.now }
{
    flushed_in(session, journal)
}

/// Whether the epoch was LSE at some place since the session's previous entry.
#[tactic(auto, using(crate::proofs::LaterPlaces::safe_in_law))]
pub fn was_safe(safe: u64, session: u32, epoch: u64, journal: &[JournalEntry]) -> bool
    ensures { IsTrue result ↔ WasSafe safe session epoch journal.now }
{
    safe_in(safe, session, epoch, journal)
}
