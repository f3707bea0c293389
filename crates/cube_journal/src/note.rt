//! What a session has the journal say that opens and ends nothing.

ghost use Rattle.std.specs.Prelude.{◌≡◌};
ghost use Rattle.cube_journal.specs.Entries.{note_entry};

use crate::journal_entry::JournalEntry;

/// An entry of a session that opens and ends no snapshot.
#[derive(Clone, Copy, Debug, PartialEq, Eq)]
pub enum Note {
    Refused {
        session: u32,
        statement: u32,
        code: u32,
    },
    Cleared {
        session: u32,
        statement: u32,
    },
    Show {
        session: u32,
        statement: u32,
    },
    Flushed {
        session: u32,
        statement: u32,
    },
    Purged {
        session: u32,
        statement: u32,
        epoch: u64,
    },
}

impl Note {
    /// The entry that it adds.
    pub fn entry(&self) -> JournalEntry
        ensures { result ≡ note_entry self.now }
    {
        match *self {
            Note::Refused {
                session,
                statement,
                code,
            } => JournalEntry::Refused {
                session,
                statement,
                code,
            },
            Note::Cleared { session, statement } => JournalEntry::Cleared { session, statement },
            Note::Show { session, statement } => JournalEntry::Show { session, statement },
            Note::Flushed { session, statement } => JournalEntry::Flushed { session, statement },
            Note::Purged {
                session,
                statement,
                epoch,
            } => JournalEntry::Purged {
                session,
                statement,
                epoch,
            },
        }
    }
}
