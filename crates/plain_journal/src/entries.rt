//! What an entry of a journal says.

ghost use Rattle.std.specs.Prelude.{◌≡◌};
ghost use Rattle.cube_journal.specs.Entries.{session_of, is_of_session, takes_epoch};

use cube_journal::JournalEntry;

/// The session of an entry; the flusher's have none.
pub fn session_of(entry: &JournalEntry) -> Option<u32>
    ensures { result ≡ session_of entry.now }
{
    match entry {
        JournalEntry::Begin { session, .. } => Some(*session),
        JournalEntry::Read { session, .. } => Some(*session),
        JournalEntry::ReadEnd { session, .. } => Some(*session),
        JournalEntry::Committed { session, .. } => Some(*session),
        JournalEntry::Aborted { session, .. } => Some(*session),
        JournalEntry::Refused { session, .. } => Some(*session),
        JournalEntry::Cleared { session, .. } => Some(*session),
        JournalEntry::Show { session, .. } => Some(*session),
        JournalEntry::Flushed { session, .. } => Some(*session),
        JournalEntry::Purged { session, .. } => Some(*session),
        JournalEntry::Cube { session, .. } => Some(*session),
        JournalEntry::Round { .. } => None,
        JournalEntry::Idle { .. } => None,
        JournalEntry::Safe { .. } => None,
        JournalEntry::RoundLost { .. } => None,
    }
}

/// Whether an entry is one of this session.
pub fn is_of_session(session: u32, entry: &JournalEntry) -> bool
    ensures { result ≡ is_of_session session entry.now }
{
    match session_of(entry) {
        Some(s) => s == session,
        None => false,
    }
}

/// Whether an entry takes the next epoch.
pub fn takes_epoch(entry: &JournalEntry) -> bool
    ensures { result ≡ takes_epoch entry.now }
{
    match entry {
        JournalEntry::Begin { .. } => true,
        JournalEntry::Cube { .. } => true,
        _ => false,
    }
}
